//! Lists of parts that read only objects which have a member of theirs.
ghost use Rattle.std.specs.Prelude.{◌≡◌, All, IfOk, IsTrue, Some, false, slice_get, ℕ};
ghost use Rattle.facet_solver_reader.specs.declared.plan.PlannedList.{PlannedList};
ghost use Rattle.facet_solver_checker.specs.Touched as spec;
ghost use Rattle.facet_solver_checker.specs.Touched.{
  AreTouched,
  BearsOutBranches,
  BearsOutEnd,
  BearsOutList,
};

use facet_solver_reader::{Plan, PlannedEnd, PlannedList, PlannedPart, PlannedTarget};
use std::alloc::{AllocError, Global};

/// The lists of parts, by their numbers, that read only objects which have a member of theirs: each
/// is one selection alone, no value is read by it as an object, and it is a branch of selections
/// that may be absent, or of such lists.
#[derive(Drop)]
pub(crate) struct Touched {
    flags: Vec<bool>,
}

impl Touched {
    /// Those of a plan.
    pub(crate) fn new(alloc: Global, plan: &Plan<'_>) -> Result<Touched, AllocError>
        ensures { IfOk result (λ t. AreTouched plan.now t.flags.items) }
    {
        let mut touched = Touched::selections(alloc, plan)?;
        touched.leave_out_objects(plan);
        touched.leave_out_branches(plan);
        if touched.targets_bear_out(&plan.targets) && touched.lists_bear_out(&plan.lists) {
            Ok(touched)
        } else {
            Ok(Touched {
                flags: Vec::new(alloc),
            })
        }
    }

    /// Whether the list of a number is one.
    pub(crate) fn has(&self, list: usize) -> bool
        ensures { result ≡ spec.is_touched self.now.flags.items list }
    {
        match self.flags.get(list) {
            Some(flag) => *flag,
            None => false,
        }
    }

    /// The lists that are one selection alone.
    fn selections(alloc: Global, plan: &Plan<'_>) -> Result<Touched, AllocError> {
        let mut flags = Vec::with_capacity(alloc, plan.lists.len())?;
        for list in &plan.lists {
            let is_selection = match list.parts.as_slice() {
                [PlannedPart::Selection(_)] => true,
                _ => false,
            };
            flags.push(is_selection)?;
        }
        Ok(Touched { flags })
    }

    /// Leaves the list of a number out.
    fn leave_out(&mut self, list: usize) {
        if list < self.flags.len() {
            self.flags[list] = false;
        }
    }

    /// Leaves those out by which a value is read as an object.
    fn leave_out_objects(&mut self, plan: &Plan<'_>) {
        for target in &plan.targets {
            if let Some(list) = list_of(&target.end) {
                self.leave_out(list);
            }
        }
    }

    /// Leaves the branches out of each selection that is always present and that another list has:
    /// the number of a list is above those of its branches, so that one pass from the last does.
    fn leave_out_branches(&mut self, plan: &Plan<'_>) {
        for number in (0..plan.lists.len()).rev() {
            if !self.has(number) {
                for part in &plan.lists[number].parts {
                    self.leave_out_branches_of(part);
                }
            }
        }
    }

    /// Leaves the branches of a part out, if it is a selection that is always present.
    fn leave_out_branches_of(&mut self, part: &PlannedPart<'_>) {
        match part {
            PlannedPart::Selection(selection) if !selection.optional => {
                for branch in &selection.branches {
                    self.leave_out(*branch);
                }
            }
            _ => {}
        }
    }

    /// Whether no value is read by one as an object.
    fn targets_bear_out(&self, targets: &[PlannedTarget<'_>]) -> bool
        ensures { IsTrue result → All (λ t. BearsOutEnd self.now.flags.items t.end) targets.now }
    {
        for target in targets {
            if !self.target_bears_out(&target.end) {
                return false;
            }
        }
        true
    }

    /// Whether the list by which what a target comes to is read as an object is none.
    fn target_bears_out(&self, end: &PlannedEnd<'_>) -> bool
        ensures { IsTrue result → BearsOutEnd self.now.flags.items end.now }
    {
        match list_of(end) {
            Some(list) => !self.has(list),
            None => true,
        }
    }

    /// Whether each is one part alone, and a branch only of selections that may be absent, or that
    /// are a part of another.
    fn lists_bear_out(&self, lists: &[PlannedList<'_>]) -> bool
        ensures { IsTrue result → (n : ℕ) (l : PlannedList) → slice_get lists.now n ≡ Some l
            → BearsOutList self.now.flags.items n l.parts.items }
    {
        for number in 0..lists.len() {
            if !self.list_bears_out(number, &lists[number].parts) {
                return false;
            }
        }
        true
    }

    /// Whether a list that is one is one part alone, and another has no branch that is one in parts
    /// that are always present.
    fn list_bears_out(&self, number: usize, parts: &[PlannedPart<'_>]) -> bool
        ensures { IsTrue result → BearsOutList self.now.flags.items number parts.now }
    {
        if self.has(number) {
            parts.len() == 1
        } else {
            self.parts_bear_out(parts)
        }
    }

    /// Whether none is a branch of parts that are always present.
    fn parts_bear_out(&self, parts: &[PlannedPart<'_>]) -> bool
        ensures { IsTrue result → All (BearsOutBranches self.now.flags.items) parts.now }
    {
        for part in parts {
            if !self.part_bears_out(part) {
                return false;
            }
        }
        true
    }

    /// Whether a part that is always present has no branch that is one.
    fn part_bears_out(&self, part: &PlannedPart<'_>) -> bool
        ensures { IsTrue result → BearsOutBranches self.now.flags.items part.now }
    {
        match part {
            PlannedPart::Selection(selection) => {
                selection.optional || self.has_none_of(&selection.branches)
            }
            _ => true,
        }
    }

    /// Whether none of some lists is one.
    fn has_none_of(&self, lists: &[usize]) -> bool
        ensures { IsTrue result
            → All (λ n. spec.is_touched self.now.flags.items n ≡ false) lists.now }
    {
        for list in lists {
            if self.has(*list) {
                return false;
            }
        }
        true
    }
}

/// The list of parts by which a value is read as an object.
fn list_of(end: &PlannedEnd<'_>) -> Option<usize>
    ensures { result ≡ spec.list_in end.now }
{
    match end {
        PlannedEnd::Object(list) => *list,
        PlannedEnd::Untagged(joined, _) => *joined,
        _ => None,
    }
}
