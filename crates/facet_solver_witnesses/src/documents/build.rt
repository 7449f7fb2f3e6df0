//! Values that are made by recipes.
use crate::growing::push;
use crate::model::Model;
use crate::model::atoms::{Atoms, ListAtom, ObjectAtom};
use crate::model::keys::fresh_key;
use crate::questions::recipe::{Common, CommonMember, Key, Recipe};
use crate::questions::{Made, Questions};
use crate::value::Value;
use facet_solver_reader::{PlannedPart, PlannedSelection};
use std::alloc::{AllocError, Global};
use std::mem;

/// How many values a document may have.
const MOST_VALUES: usize = 10_000;

/// How deep values may stand.
pub(crate) const MOST_LEVELS: usize = 126;

/// The members of an object that is made.
pub(crate) type Members = Vec<(String, Value)>;

/// A member that one of two readings passes over.
#[derive(Drop)]
pub(crate) struct Passed {
    /// Whether the second does.
    pub(crate) by_second: bool,
    /// Where it stands in the value that both read.
    pub(crate) path: String,
}

/// What makes values.
#[derive(Drop)]
pub(crate) struct Builder<'r, 'c> {
    pub(crate) alloc: Global,
    pub(crate) model: &'r Model<'r, 'c>,
    questions: &'r Questions<'c>,
    /// How many values may still be made.
    left: usize,
    /// Whether the two readings are the other way round.
    is_swapped: bool,
    /// Where the value stands that is made, in the one that both read.
    path: String,
    /// The members that are passed over.
    pub(crate) passed: Vec<Passed>,
}

impl<'r, 'c> Builder<'r, 'c> {
    /// One that has made none.
    pub(crate) fn new(
        alloc: Global,
        model: &'r Model<'r, 'c>,
        questions: &'r Questions<'c>,
        is_swapped: bool,
    ) -> Builder<'r, 'c> {
        Builder {
            alloc,
            model,
            questions,
            left: MOST_VALUES,
            is_swapped,
            path: String::new(alloc),
            passed: Vec::new(alloc),
        }
    }

    /// Counts one value. Whether it may be made.
    fn take(&mut self) -> bool {
        match self.left.checked_sub(1) {
            Some(left) => {
                self.left = left;
                true
            }
            None => false,
        }
    }

    /// A value that two targets have in common, with so many levels; `None` where it has more, or
    /// is too large.
    #[cycle(common_value)]
    fn common(&mut self, common: Common, levels: usize) -> Result<Option<Value>, AllocError> {
        match common {
            Common::Smallest(target) => self.smallest(target, levels),
            Common::Anything => Ok(Some(Value::Null)),
            Common::Answer(number, is_swapped) => {
                let questions = self.questions;
                let Some(made) = questions.made_by(number) else {
                    return Ok(None);
                };
                let before = self.is_swapped;
                self.is_swapped = before != is_swapped;
                let value = self.made(made, levels);
                self.is_swapped = before;
                value
            }
        }
    }

    /// A value that a recipe makes.
    #[cycle(common_value)]
    pub(crate) fn made(
        &mut self,
        made: &Made<'c>,
        levels: usize,
    ) -> Result<Option<Value>, AllocError> {
        let Some(below) = levels.checked_sub(1) else {
            return Ok(None);
        };
        if !self.take() {
            return Ok(None);
        }
        let alloc = self.alloc;
        match &made.recipe {
            Recipe::Null => Ok(Some(Value::Null)),
            Recipe::Truth => Ok(Some(Value::Bool(false))),
            Recipe::Whole(number) => Ok(Some(Value::Number(number.numeral(alloc)?))),
            Recipe::Fraction => Ok(Some(Value::Number(String::from_str(alloc, "0.5")?))),
            Recipe::Text(text) => Ok(Some(Value::Text(String::from_str(alloc, text)?))),
            Recipe::List(items) => self.items(items, below),
            Recipe::Object(common) => match self.members(common, &[], below)? {
                Some(members) => Ok(Some(Value::Object(members))),
                None => Ok(None),
            },
            Recipe::Smallest(object) => self.smallest_object(*object, below),
        }
    }

    /// A list of the values of a recipe.
    #[cycle(common_value)]
    fn items(&mut self, items: &[Common], levels: usize) -> Result<Option<Value>, AllocError> {
        let alloc = self.alloc;
        let mut values = Vec::with_capacity(alloc, items.len())?;
        for (index, item) in items.iter().enumerate() {
            let name = format!(in alloc; "{index}")?;
            let Some(value) = self.common_at(name.as_str(), *item, levels)? else {
                return Ok(None);
            };
            push(&mut values, value)?;
        }
        Ok(Some(Value::List(values)))
    }

    /// The members of a recipe. Fresh names are none of some known ones.
    #[cycle(common_value)]
    pub(crate) fn members(
        &mut self,
        common: &[CommonMember<'c>],
        known: &[&'c str],
        levels: usize,
    ) -> Result<Option<Members>, AllocError> {
        let alloc = self.alloc;
        let mut members = Vec::with_capacity(alloc, common.len())?;
        for member in common {
            let Some(name) = self.name_of(&member.key, known)? else {
                return Ok(None);
            };
            if member.first_ignores {
                self.pass(name.as_str(), self.is_swapped)?;
            }
            if member.second_ignores {
                self.pass(name.as_str(), !self.is_swapped)?;
            }
            let Some(value) = self.common_at(name.as_str(), member.value, levels)? else {
                return Ok(None);
            };
            push(&mut members, (name, value))?;
        }
        Ok(Some(members))
    }

    /// The name of a member. A fresh one is none of some known ones.
    fn name_of(&self, key: &Key<'c>, known: &[&'c str]) -> Result<Option<String>, AllocError> {
        match key {
            Key::Name(name) => Ok(Some(String::from_str(self.alloc, name)?)),
            Key::Fresh(fresh) if known.is_empty() => Ok(Some(fresh.name.clone()?)),
            Key::Fresh(fresh) => {
                let plan = self.model.plan;
                fresh_key(self.alloc, plan, fresh.first, fresh.second, known)
            }
        }
    }

    /// Keeps that a member of a name is passed over.
    fn pass(&mut self, name: &str, by_second: bool) -> Result<(), AllocError> {
        let path = path_to(self.alloc, self.path.as_str(), name)?;
        push(&mut self.passed, Passed { by_second, path })
    }

    /// A value that two targets have in common, which stands below a name.
    #[cycle(common_value)]
    fn common_at(
        &mut self,
        name: &str,
        common: Common,
        levels: usize,
    ) -> Result<Option<Value>, AllocError> {
        let path = path_to(self.alloc, self.path.as_str(), name)?;
        let before = mem::replace(&mut self.path, path);
        let value = self.common(common, levels);
        self.path = before;
        value
    }

    /// The smallest value of a target.
    #[cycle(smallest_value)]
    pub(crate) fn smallest(
        &mut self,
        target: usize,
        levels: usize,
    ) -> Result<Option<Value>, AllocError> {
        let Some(below) = levels.checked_sub(1) else {
            return Ok(None);
        };
        if !self.take() {
            return Ok(None);
        }
        let model = self.model;
        let atoms = model.atoms(target);
        if let Some(value) = simple_value(self.alloc, atoms)? {
            return Ok(Some(value));
        }
        let size = model.sizes.of_target(target);
        for list in &atoms.lists {
            if model.sizes.of_list(model, *list) == size {
                return self.smallest_list(*list, below);
            }
        }
        for object in &atoms.objects {
            let members = model.sizes.of_members(model.branch_of(*object));
            if members.map(|members| members.saturating_add(1)) == size {
                return self.smallest_object(*object, below);
            }
        }
        Ok(None)
    }

    /// The smallest list of an atom.
    #[cycle(smallest_value)]
    fn smallest_list(
        &mut self,
        list: ListAtom,
        levels: usize,
    ) -> Result<Option<Value>, AllocError> {
        let mut values = Vec::new(self.alloc);
        if let ListAtom::Tuple(tuple) = list {
            let model = self.model;
            for item in model.tuple(tuple) {
                let Some(value) = self.smallest(*item, levels)? else {
                    return Ok(None);
                };
                push(&mut values, value)?;
            }
        }
        Ok(Some(Value::List(values)))
    }

    /// The smallest object of an atom.
    #[cycle(smallest_value)]
    fn smallest_object(
        &mut self,
        object: ObjectAtom,
        levels: usize,
    ) -> Result<Option<Value>, AllocError> {
        let mut members = Vec::new(self.alloc);
        let list = self.model.branch_of(object);
        if self.push_smallest(list, None, &mut members, levels)? {
            return Ok(Some(Value::Object(members)));
        }
        Ok(None)
    }

    /// Adds the smallest members of a list, apart from those of a part. Whether there are any such.
    #[cycle(smallest_value)]
    pub(crate) fn push_smallest(
        &mut self,
        list: usize,
        but: Option<usize>,
        members: &mut Members,
        levels: usize,
    ) -> Result<bool, AllocError> {
        let model = self.model;
        for (index, part) in model.list(list).parts.iter().enumerate() {
            if but == Some(index) {
                continue;
            }
            let is_there = match part {
                PlannedPart::Member(member) if member.required => {
                    self.push_member(member.name, member.target, members, levels)?
                }
                PlannedPart::Selection(selection) if !selection.optional => {
                    self.push_selection(list, selection, members, levels)?
                }
                _ => true,
            };
            if !is_there {
                return Ok(false);
            }
        }
        Ok(true)
    }

    /// Adds the smallest members of a selection, which is a part of a list.
    #[cycle(smallest_value)]
    fn push_selection(
        &mut self,
        list: usize,
        selection: &PlannedSelection<'c>,
        members: &mut Members,
        levels: usize,
    ) -> Result<bool, AllocError> {
        match self.model.sizes.smallest_branch(selection) {
            // A list has a higher number than those of its branches.
            Some(branch) if branch < list => self.push_smallest(branch, None, members, levels),
            _ => Ok(false),
        }
    }

    /// Adds a member with its smallest value. Whether it has one.
    #[cycle(smallest_value)]
    pub(crate) fn push_member(
        &mut self,
        name: &str,
        target: usize,
        members: &mut Members,
        levels: usize,
    ) -> Result<bool, AllocError> {
        match self.smallest(target, levels)? {
            Some(value) => {
                let name = String::from_str(self.alloc, name)?;
                push(members, (name, value))?;
                Ok(true)
            }
            None => Ok(false),
        }
    }
}

/// The path to what stands below another by a name.
fn path_to(alloc: Global, path: &str, name: &str) -> Result<String, AllocError> {
    if path.is_empty() {
        String::from_str(alloc, name)
    } else {
        format!(in alloc; "{path}.{name}")
    }
}

/// A value of atoms without others within, if they have one.
fn simple_value(alloc: Global, atoms: &Atoms<'_>) -> Result<Option<Value>, AllocError> {
    let value = if atoms.null || atoms.anything {
        Value::Null
    } else if atoms.truth {
        Value::Bool(false)
    } else if let Some(interval) = atoms.wholes.first() {
        Value::Number(interval.smallest().numeral(alloc)?)
    } else if atoms.fraction {
        Value::Number(String::from_str(alloc, "0.5")?)
    } else if atoms.text {
        Value::Text(String::new(alloc))
    } else if atoms.character {
        Value::Text(String::from_str(alloc, "a")?)
    } else if let Some(word) = atoms.words.first() {
        Value::Text(String::from_str(alloc, word)?)
    } else {
        return Ok(None);
    };
    Ok(Some(value))
}
