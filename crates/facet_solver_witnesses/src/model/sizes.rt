//! How large the smallest value of each target is, and the smallest members of each list.
use crate::model::Model;
use crate::model::atoms::{Atoms, ListAtom};
use facet_solver_reader::{PlannedPart, PlannedSelection};
use std::alloc::{AllocError, Global};

/// How many values the smallest value of a target has, and the smallest members of a choice of a
/// list. `None` where there is none.
#[derive(Drop)]
pub(crate) struct Sizes {
    /// By the number of the target.
    pub(crate) targets: Vec<Option<u64>>,
    /// By the number of the list.
    pub(crate) lists: Vec<Option<u64>>,
}

impl Sizes {
    /// None at all.
    pub(crate) fn none(alloc: Global) -> Sizes {
        Sizes {
            targets: Vec::new(alloc),
            lists: Vec::new(alloc),
        }
    }

    /// Those of a type. Round by round, until one finds none and none smaller: each round settles
    /// the smallest size that is left.
    pub(crate) fn new(alloc: Global, model: &Model<'_, '_>) -> Result<Sizes, AllocError> {
        let mut sizes = Sizes {
            targets: vec![in alloc; None; model.atoms.len()]?,
            lists: vec![in alloc; None; model.list_count()]?,
        };
        let rounds = model.atoms.len().saturating_add(model.list_count());
        for _ in 0..rounds {
            if !sizes.find_more(model) {
                break;
            }
        }
        Ok(sizes)
    }

    /// The size of the smallest value of a target.
    pub(crate) fn of_target(&self, target: usize) -> Option<u64> {
        self.targets.get(target).copied().flatten()
    }

    /// The size of the smallest members of a list.
    pub(crate) fn of_members(&self, list: usize) -> Option<u64> {
        self.lists.get(list).copied().flatten()
    }

    /// Finds sizes by those that are found. Whether one is new or smaller.
    fn find_more(&mut self, model: &Model<'_, '_>) -> bool {
        let mut has_more = false;
        for number in 0..model.list_count() {
            let size = self.of_parts(&model.list(number).parts);
            has_more = put_if_smaller(&mut self.lists, number, size) || has_more;
        }
        for (number, atoms) in model.atoms.iter().enumerate() {
            let size = self.of_atoms(model, atoms);
            has_more = put_if_smaller(&mut self.targets, number, size) || has_more;
        }
        has_more
    }

    /// The smallest members of parts.
    fn of_parts(&self, parts: &[PlannedPart<'_>]) -> Option<u64> {
        let mut size: u64 = 0;
        for part in parts {
            size = size.saturating_add(self.of_part(part)?);
        }
        Some(size)
    }

    /// The smallest members of a part.
    pub(crate) fn of_part(&self, part: &PlannedPart<'_>) -> Option<u64> {
        match part {
            PlannedPart::Member(member) if member.required => self.of_target(member.target),
            PlannedPart::Member(_) | PlannedPart::CatchAll(_) => Some(0),
            PlannedPart::Selection(selection) if selection.optional => Some(0),
            PlannedPart::Selection(selection) => {
                let branch = self.smallest_branch(selection)?;
                self.of_members(branch)
            }
        }
    }

    /// The branch of a selection with the smallest members.
    pub(crate) fn smallest_branch(&self, selection: &PlannedSelection<'_>) -> Option<usize> {
        let mut smallest = None;
        let mut size = None;
        for branch in &selection.branches {
            let of = self.of_members(*branch);
            if is_smaller(of, size) {
                size = of;
                smallest = Some(*branch);
            }
        }
        smallest
    }

    /// The smallest value of atoms.
    fn of_atoms(&self, model: &Model<'_, '_>, atoms: &Atoms<'_>) -> Option<u64> {
        if atoms.is_simple() {
            return Some(1);
        }
        let mut smallest = None;
        for list in &atoms.lists {
            let size = self.of_list(model, *list);
            if is_smaller(size, smallest) {
                smallest = size;
            }
        }
        for object in &atoms.objects {
            let members = self.of_members(model.branch_of(*object));
            let size = members.map(|size| size.saturating_add(1));
            if is_smaller(size, smallest) {
                smallest = size;
            }
        }
        smallest
    }

    /// The smallest list of an atom.
    pub(crate) fn of_list(&self, model: &Model<'_, '_>, list: ListAtom) -> Option<u64> {
        let mut size: u64 = 1;
        if let ListAtom::Tuple(target) = list {
            for item in model.tuple(target) {
                size = size.saturating_add(self.of_target(*item)?);
            }
        }
        Some(size)
    }
}

/// Puts a size at a place, if it is smaller than the one there. Whether it is.
fn put_if_smaller(sizes: &mut [Option<u64>], place: usize, size: Option<u64>) -> bool {
    match sizes.get_mut(place) {
        Some(old) if is_smaller(size, *old) => {
            *old = size;
            true
        }
        _ => false,
    }
}

/// Whether a size is smaller than another, or the first.
fn is_smaller(size: Option<u64>, than: Option<u64>) -> bool {
    match (size, than) {
        (Some(size), Some(than)) => size < than,
        (Some(_), None) => true,
        (None, _) => false,
    }
}
