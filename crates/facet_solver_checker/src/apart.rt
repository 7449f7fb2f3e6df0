//! Pairs of targets that read no value in common.
ghost use Rattle.std.specs.Prelude.{◌≡◌, IfOk, false, ℕ};
ghost use Rattle.facet_solver_checker.specs.Aparts as spec;
ghost use Rattle.facet_solver_checker.specs.Aparts.{has_pair, is_apart};

use facet_solver_reader::{Plan, PlannedEnd, PlannedTarget};
use std::alloc::{AllocError, Global};
use std::collections::BTreeSet;

/// Pairs of targets that read no value in common, by their numbers: texts of different tags, and
/// those of a table.
#[derive(Drop)]
pub(crate) struct Apart<'p> {
    targets: &'p [PlannedTarget<'p>],
    pairs: BTreeSet<(usize, usize)>,
}

impl<'p> Apart<'p> {
    /// Texts of different tags alone.
    pub(crate) fn of_tags(alloc: Global, plan: &'p Plan<'p>) -> Apart<'p>
        ensures targets { result.targets.now ≡ plan.now.targets.items }
        ensures none { (i j : ℕ) → has_pair result i j ≡ false }
    {
        Apart {
            targets: &plan.targets,
            pairs: BTreeSet::new(alloc),
        }
    }

    /// Adds pairs to the table.
    pub(crate) fn add_all(&mut self, pairs: &[(usize, usize)]) -> Result<(), AllocError>
        ensures { self.new.targets ≡ self.old.targets }
    {
        for pair in pairs {
            self.pairs.insert(*pair)?;
        }
        Ok(())
    }

    /// Leaves a pair out of the table.
    pub(crate) fn leave_out(&mut self, first: usize, second: usize)
        ensures { self.new.targets ≡ self.old.targets }
    {
        self.pairs.remove(&(first, second));
    }

    /// Whether the first of two targets reads no value that the second reads, as far as is known.
    pub(crate) fn has(&self, first: usize, second: usize) -> bool
        ensures { result ≡ is_apart self.now first second }
    {
        are_tags_apart(self.targets, first, second) || self.pairs.contains(&(first, second))
    }

    /// All pairs of the table.
    pub(crate) fn pairs(&self, alloc: Global) -> Result<Vec<(usize, usize)>, AllocError>
        ensures { IfOk result (λ pairs. pairs.items ≡ self.now.pairs.keys) }
    {
        self.pairs.iter().copied().collect(alloc)
    }
}

/// Whether two targets are texts of different tags.
fn are_tags_apart(targets: &[PlannedTarget<'_>], first: usize, second: usize) -> bool
    ensures { result ≡ spec.are_tags_apart targets.now first second }
{
    match targets.get(first) {
        Some(one) => match targets.get(second) {
            Some(other) => are_other_tags(&one.end, &other.end),
            None => false,
        },
        None => false,
    }
}

/// Whether two ends are texts of different tags.
fn are_other_tags(first: &PlannedEnd<'_>, second: &PlannedEnd<'_>) -> bool
    ensures { result ≡ spec.are_other_tags first.now second.now }
{
    match first {
        PlannedEnd::Tag(one) => match second {
            PlannedEnd::Tag(other) => *one != *other,
            _ => false,
        },
        _ => false,
    }
}
