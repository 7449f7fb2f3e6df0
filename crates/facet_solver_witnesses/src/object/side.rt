//! One of the two lists by which an object is read, by the numbers of names.
use super::modes::{Mode, ModeOf};
use crate::model::Model;
use facet_solver_reader::{PlannedPart, PlannedSelection};
use facet_solver_shape::ShapeId;
use std::alloc::{AllocError, Global};

/// A member that an object is to have.
#[derive(Clone, Copy, PartialEq, Eq)]
pub(crate) enum Forced<'c> {
    /// None is asked for.
    Nothing,
    /// That of a name.
    Name(&'c str),
    /// One of a name that neither list knows.
    Fresh,
}

/// Two lists in their modes.
#[derive(Clone, Copy)]
pub(crate) struct Around<'c> {
    pub(crate) first: ModeOf,
    pub(crate) second: ModeOf,
    /// Whether the object has a member.
    pub(crate) needs_name: bool,
    /// Whether it may have a member of a name that neither list knows.
    pub(crate) has_fresh: bool,
    /// A member that it has.
    pub(crate) forced: Forced<'c>,
}

/// A member of a list, by the numbers of its name and target.
#[derive(Clone, Copy)]
pub(super) struct Slot {
    pub(super) name: usize,
    pub(super) target: usize,
    /// The position of its list.
    pub(super) list: usize,
}

/// A selection, by the positions of its branches and the numbers of its names.
#[derive(Drop)]
pub(super) struct SideSelection {
    pub(super) optional: bool,
    pub(super) branches: Vec<usize>,
    pub(super) names: Vec<usize>,
    pub(super) knows_rest: bool,
}

/// A part of a list.
#[derive(Drop)]
pub(super) enum SidePart {
    /// A member, by its slot.
    Member { slot: usize, required: bool },
    Selection(SideSelection),
    /// A catch-all, and whether it is the one of the mode.
    Rest { fits: bool },
}

/// A list.
#[derive(Drop)]
pub(super) struct SideList {
    pub(super) parts: Vec<SidePart>,
    pub(super) names: Vec<usize>,
    pub(super) knows_rest: bool,
}

/// A list in its mode, with those that its choices go through, the branches first.
#[derive(Drop)]
pub(super) struct Side {
    pub(super) lists: Vec<SideList>,
    pub(super) slots: Vec<Slot>,
    /// The slots of each name.
    pub(super) by_name: Vec<Vec<usize>>,
    /// Whether the list knows each name.
    pub(super) knows: Vec<bool>,
    /// What each name's member is read as that the list does not know; `None` where it has none.
    pub(super) others: Vec<Option<usize>>,
    pub(super) mode: ModeOf,
}

impl Side {
    /// A list in its mode, by the names of both lists, rising.
    pub(super) fn new<'c>(
        alloc: Global,
        model: &Model<'_, 'c>,
        mode: ModeOf,
        names: &[&'c str],
        has_fresh: bool,
    ) -> Result<Side, AllocError> {
        let count = names.len().saturating_add(usize::from(has_fresh));
        let mut side = Side {
            lists: Vec::new(alloc),
            slots: Vec::new(alloc),
            by_name: Vec::with_capacity(alloc, count)?,
            knows: vec![in alloc; false; count]?,
            others: Vec::with_capacity(alloc, count)?,
            mode,
        };
        for _ in 0..count {
            side.by_name.push(Vec::new(alloc))?;
        }
        if let Some(own) = model.list_at(mode.list) {
            for list in &own.below {
                side.push_list(alloc, model, *list, names)?;
            }
        }
        side.find_known();
        side.find_others(model, names, has_fresh)?;
        Ok(side)
    }

    /// The list itself, by its position.
    pub(super) fn top(&self) -> usize {
        self.lists.len().saturating_sub(1)
    }

    /// Whether the list knows a name.
    pub(super) fn knows_name(&self, name: usize) -> bool {
        self.knows.get(name).copied().unwrap_or(false)
    }

    /// What a name's member is read as that the list does not know; `None` where it has none.
    pub(super) fn other(&self, name: usize) -> Option<usize> {
        self.others.get(name).copied().flatten()
    }

    /// Whether the list passes over the member of a name.
    pub(super) fn ignores(&self, name: usize) -> bool {
        self.mode.mode == Mode::Without && !self.knows_name(name)
    }

    /// Whether a choice of a list has a catch-all, by the position of the list.
    pub(super) fn knows_rest(&self, position: usize) -> bool {
        self.lists.get(position).is_some_and(|list| list.knows_rest)
    }

    /// The slots of a name.
    pub(super) fn slots_of(&self, name: usize) -> &[usize] {
        match self.by_name.get(name) {
            Some(slots) => slots,
            None => &[],
        }
    }

    /// Adds a list.
    fn push_list<'c>(
        &mut self,
        alloc: Global,
        model: &Model<'_, 'c>,
        list: usize,
        names: &[&'c str],
    ) -> Result<(), AllocError> {
        let Some(planned) = model.list_at(list) else {
            return Ok(());
        };
        let mut parts = Vec::with_capacity(alloc, planned.parts.len())?;
        for part in &planned.parts {
            let part = self.part(alloc, model, part, names)?;
            if parts.push(part).is_err() {
                return Err(AllocError);
            }
        }
        let list = SideList {
            parts,
            names: numbers_of(alloc, names, &planned.names)?,
            knows_rest: planned.takes_rest,
        };
        match self.lists.push(list) {
            Ok(()) => Ok(()),
            Err(_) => Err(AllocError),
        }
    }

    /// A part of the next list.
    fn part<'c>(
        &mut self,
        alloc: Global,
        model: &Model<'_, 'c>,
        part: &PlannedPart<'c>,
        names: &[&'c str],
    ) -> Result<SidePart, AllocError> {
        match part {
            PlannedPart::Member(member) => Ok(SidePart::Member {
                slot: self.push_slot(names, member.name, member.target)?,
                required: member.required,
            }),
            PlannedPart::Selection(selection) => {
                let selection = self.selection(alloc, model, selection, names)?;
                Ok(SidePart::Selection(selection))
            }
            PlannedPart::CatchAll(catch_all) => Ok(SidePart::Rest {
                fits: self.mode.mode == Mode::taking(*catch_all),
            }),
        }
    }

    /// Adds the slot of a member of the next list.
    fn push_slot(
        &mut self,
        names: &[&str],
        name: &str,
        target: usize,
    ) -> Result<usize, AllocError> {
        let slot = self.slots.len();
        let name = names.binary_search(&name).unwrap_or(0);
        let list = self.lists.len();
        self.slots.push(Slot { name, target, list })?;
        if let Some(slots) = self.by_name.get_mut(name) {
            slots.push(slot)?;
        }
        Ok(slot)
    }

    /// A selection of the next list.
    fn selection<'c>(
        &self,
        alloc: Global,
        model: &Model<'_, 'c>,
        selection: &PlannedSelection<'c>,
        names: &[&'c str],
    ) -> Result<SideSelection, AllocError> {
        let mut branches = Vec::with_capacity(alloc, selection.branches.len())?;
        let mut knows_rest = false;
        for branch in &selection.branches {
            if let Some(position) = self.position_of(model, *branch) {
                branches.push(position)?;
            }
            knows_rest = knows_rest || model.list_at(*branch).is_some_and(|list| list.takes_rest);
        }
        Ok(SideSelection {
            optional: selection.optional,
            branches,
            names: numbers_of(alloc, names, &selection.names)?,
            knows_rest,
        })
    }

    /// The position of a list, if the choices go through it.
    fn position_of(&self, model: &Model<'_, '_>, list: usize) -> Option<usize> {
        model
            .list_at(self.mode.list)?
            .below
            .binary_search(&list)
            .ok()
    }

    /// Finds which names the list knows.
    fn find_known(&mut self) {
        if let Some(own) = self.lists.last() {
            for name in &own.names {
                if let Some(knows) = self.knows.get_mut(*name) {
                    *knows = true;
                }
            }
        }
    }

    /// Finds what the members of names are read as that the list does not know.
    fn find_others<'c>(
        &mut self,
        model: &Model<'_, 'c>,
        names: &[&'c str],
        has_fresh: bool,
    ) -> Result<(), AllocError> {
        for name in names {
            let other = if self.mode.is_closed {
                None
            } else {
                self.mode.taken(model, Some(*name))
            };
            self.others.push(other)?;
        }
        if has_fresh {
            self.others.push(self.mode.taken(model, None))?;
        }
        Ok(())
    }
}

impl ModeOf {
    /// What the member of a name is read as that the list does not know; of a fresh name where
    /// there is no name.
    fn taken(&self, model: &Model<'_, '_>, name: Option<&str>) -> Option<usize> {
        match self.mode {
            Mode::Closed => None,
            Mode::Without if self.ignores => Some(model.anything),
            Mode::Without => None,
            Mode::TakingAny => Some(model.anything),
            Mode::TakingMap(key, value) => {
                if name.is_none_or(|name| model.plan.is_key(key, name)) {
                    Some(value)
                } else {
                    None
                }
            }
        }
    }

    /// The shape of the keys of the catch-all, where it is a map.
    pub(super) fn key(&self) -> Option<ShapeId> {
        match self.mode {
            Mode::TakingMap(key, _) => Some(key),
            _ => None,
        }
    }
}

/// The numbers of names, by their places among all.
fn numbers_of<'c>(
    alloc: Global,
    all: &[&'c str],
    names: &[&'c str],
) -> Result<Vec<usize>, AllocError> {
    let mut numbers = Vec::with_capacity(alloc, names.len())?;
    for name in names {
        if let Ok(number) = all.binary_search(name) {
            numbers.push(number)?;
        }
    }
    Ok(numbers)
}
