//! A type as the search sees it: the atoms of each target, and the lists.
pub(crate) mod atoms;
pub(crate) mod keys;
mod made_lists;
mod own_atoms;
mod same;
pub(crate) mod sizes;
pub(crate) mod wide;

use crate::growing::push;
use crate::place::Fork;
use atoms::{Atoms, ObjectAtom};
use facet_solver_reader::{
    Plan, PlannedCatchAll, PlannedEnd, PlannedList, PlannedPart, PlannedSelection, TypeName,
};
use made_lists::MadeLists;
use same::same_enums;
use sizes::Sizes;
use std::alloc::{AllocError, Global};

/// The name of what is not there.
const NO_NAME: TypeName<'static> = TypeName {
    name: "",
    variant: None,
};

/// A type as the search sees it. Targets are those of the plan, and behind them any value, and each
/// variant of each enum.
#[derive(Drop)]
pub(crate) struct Model<'r, 'c> {
    pub(crate) plan: &'r Plan<'c>,
    /// The lists of objects that are read by no list of the plan. Their numbers come behind those
    /// of the plan's.
    made_lists: Vec<PlannedList<'c>>,
    /// By the number of the target.
    pub(crate) atoms: Vec<Atoms<'c>>,
    /// The number of the list that was made for a target, by the number of the target.
    made: Vec<Option<usize>>,
    /// The targets of the variants of enums, by the number of the target. One that joins and that
    /// no choice has has none.
    variants: Vec<Vec<Option<usize>>>,
    /// Of the targets that are one enum one, by the number of the target.
    same: Vec<usize>,
    /// The target of any value.
    pub(crate) anything: usize,
    pub(crate) sizes: Sizes,
    /// What stands for a list that is not there.
    no_list: PlannedList<'c>,
    /// What stands for the atoms of a target that is not there.
    no_atoms: Atoms<'c>,
}

impl<'r, 'c> Model<'r, 'c> {
    /// That of a plan.
    pub(crate) fn new(alloc: Global, plan: &'r Plan<'c>) -> Result<Model<'r, 'c>, AllocError> {
        let anything = plan.targets.len();
        let mut model = Model {
            plan,
            made_lists: Vec::new(alloc),
            atoms: Vec::new(alloc),
            made: Vec::new(alloc),
            variants: Vec::new(alloc),
            same: Vec::new(alloc),
            anything,
            sizes: Sizes::none(alloc),
            no_list: PlannedList {
                name: NO_NAME,
                parts: Vec::new(alloc),
                names: Vec::new(alloc),
                takes_rest: false,
                below: Vec::new(alloc),
            },
            no_atoms: Atoms::none(alloc),
        };
        model.make_lists(alloc)?;
        for target in 0..anything {
            let atoms = model.atoms_of(alloc, target)?;
            model.push_atoms(atoms)?;
        }
        let mut any = Atoms::none(alloc);
        any.anything = true;
        model.push_atoms(any)?;
        for target in 0..anything {
            model.push_alternatives(alloc, target)?;
        }
        model.same = same_enums(alloc, &plan.targets)?;
        model.sizes = Sizes::new(alloc, &model)?;
        Ok(model)
    }

    /// A list. Where there is none of that number, one without parts.
    pub(crate) fn list(&self, list: usize) -> &PlannedList<'c> {
        self.list_at(list).unwrap_or(&self.no_list)
    }

    /// A list, if there is one of that number.
    pub(crate) fn list_at(&self, list: usize) -> Option<&PlannedList<'c>> {
        let count = self.plan.lists.len();
        if list < count {
            self.plan.lists.get(list)
        } else {
            self.made_lists.get(list.saturating_sub(count))
        }
    }

    /// How many lists there are.
    pub(crate) fn list_count(&self) -> usize {
        self.plan.lists.len().saturating_add(self.made_lists.len())
    }

    /// The atoms of a target. Where there is none of that number, no atoms.
    pub(crate) fn atoms(&self, target: usize) -> &Atoms<'c> {
        self.atoms.get(target).unwrap_or(&self.no_atoms)
    }

    /// What a target comes to.
    pub(crate) fn end(&self, target: usize) -> Option<&PlannedEnd<'c>> {
        self.plan.targets.get(target).map(|planned| &planned.end)
    }

    /// The selection that a part of a list is, if it is one.
    pub(crate) fn selection(&self, list: usize, part: usize) -> Option<&PlannedSelection<'c>> {
        match self.list(list).parts.get(part)? {
            PlannedPart::Selection(selection) => Some(selection),
            _ => None,
        }
    }

    /// Of the targets that are the same enum as another, as by a pointer, one.
    pub(crate) fn same_enum(&self, target: usize) -> usize {
        self.same.get(target).copied().unwrap_or(target)
    }

    /// Of the forks that are one enum, one.
    pub(crate) fn same_fork(&self, fork: Fork) -> Fork {
        match fork {
            Fork::Selection(..) => fork,
            Fork::Enum(target) => Fork::Enum(self.same_enum(target)),
        }
    }

    /// The targets of the variants of the enum that a target is. One that joins and that no choice
    /// has has none.
    pub(crate) fn variants_of(&self, target: usize) -> &[Option<usize>] {
        match self.variants.get(target) {
            Some(variants) => variants,
            None => &[],
        }
    }

    /// The tuple that a target is.
    pub(crate) fn tuple(&self, target: usize) -> &[usize] {
        match self.end(target) {
            Some(PlannedEnd::Tuple(items)) => items,
            _ => &[],
        }
    }

    /// The list by which an object is read, or the only branch of it that counts.
    pub(crate) fn branch_of(&self, object: ObjectAtom) -> usize {
        let Some(only) = object.only else {
            return object.list;
        };
        match self.selection(object.list, 0) {
            Some(selection) => selection.branches.get(only).copied().unwrap_or(object.list),
            None => object.list,
        }
    }

    /// Adds the atoms of the next target.
    fn push_atoms(&mut self, atoms: Atoms<'c>) -> Result<(), AllocError> {
        push(&mut self.atoms, atoms)
    }

    /// Makes the lists of the targets that read objects by none of the type.
    fn make_lists(&mut self, alloc: Global) -> Result<(), AllocError> {
        let mut lists = MadeLists::new(alloc, self.plan.lists.len());
        for planned in &self.plan.targets {
            let number = match &planned.end {
                PlannedEnd::Nothing => Some(lists.push_empty(alloc, planned.name)?),
                PlannedEnd::Map(key, value) => {
                    let catch_all = PlannedCatchAll::Map(*key, *value);
                    Some(lists.push_map(alloc, planned.name, catch_all)?)
                }
                PlannedEnd::Named(variants) => {
                    Some(lists.push_named(alloc, planned.name, variants)?)
                }
                _ => None,
            };
            self.made.push(number)?;
        }
        self.made_lists.append(&mut lists.lists)
    }

    /// Adds the atoms of the alternatives of a target of the plan, as targets of their own. One
    /// that joins and that no choice has is none.
    fn push_alternatives(&mut self, alloc: Global, target: usize) -> Result<(), AllocError> {
        let mut numbers = Vec::new(alloc);
        for atoms in self.atoms_of_alternatives(alloc, target)? {
            match atoms {
                Some(atoms) => {
                    numbers.push(Some(self.atoms.len()))?;
                    self.push_atoms(atoms)?;
                }
                None => numbers.push(None)?,
            }
        }
        push(&mut self.variants, numbers)
    }
}
