//! The names that the choices of lists require.
ghost use Rattle.std.specs.Prelude.{◌≡◌, ◌⊎◌, IfOk, OnOk, true};
ghost use Rattle.std.specs.Borrow.{Bor};
ghost use Rattle.facet_solver_shape.specs.Names.{Name};
ghost use Rattle.facet_solver_reader.specs.Known.{Chooses, ChoosesAt};
ghost use Rattle.facet_solver_reader.specs.Parts.{ListId, Part};
ghost use Rattle.facet_solver_reader.specs.Plans.{IsPlannedList, IsPlannedPart, Meaning};
ghost use Rattle.facet_solver_checker.specs.PlanMembers.{AreListsOf, IsIn};
ghost use Rattle.facet_solver_checker.specs.Requires.{
  AreRequired,
  Requires,
  all_require,
  requires_at,
};

use crate::ways::knows;
use facet_solver_reader::{Plan, PlannedList, PlannedPart};
use std::alloc::{AllocError, Global};

/// The names that the choices of each list require, by the list's number.
#[derive(Drop)]
pub(crate) struct Required<'c> {
    pub(crate) names: Vec<Vec<&'c str>>,
}

impl<'c> Required<'c> {
    /// Those of a plan's lists.
    pub(crate) fn new(alloc: Global, plan: &Plan<'c>) -> Result<Required<'c>, AllocError>
        ensures { IfOk result (λ r.
            (m : Meaning) → AreListsOf m plan.now → AreRequired m r.names.items) }
    {
        let mut names = Vec::with_capacity(alloc, plan.lists.len())?;
        for list in &plan.lists {
            let next = required_by_list(alloc, &names, list)?;
            if names.push(next).is_err() {
                return Err(AllocError);
            }
        }
        Ok(Required { names })
    }
}

/// The names that a list requires, by those that the lists of lower numbers do.
fn required_by_list<'c>(
    alloc: Global,
    lower: &[Vec<&'c str>],
    list: &PlannedList<'c>,
) -> Result<Vec<&'c str>, AllocError>
    ensures { IfOk result (λ names.
        (m : Meaning) (id : ListId) (x : Bor Name) → AreRequired m lower.now
        → IsPlannedList m id list.now → IsIn x names.items
        → Requires (Chooses m.rules.lists id) x.now) }
{
    let mut names = Vec::new(alloc);
    for part in &list.parts {
        push_required(&mut names, lower, part)?;
    }
    Ok(names)
}

/// Adds the names that a part requires.
fn push_required<'c>(
    names: &mut Vec<&'c str>,
    lower: &[Vec<&'c str>],
    part: &PlannedPart<'c>,
) -> Result<(), AllocError>
    ensures { OnOk result ((m : Meaning) (p : Part) (x : Bor Name) → AreRequired m lower.now
        → IsPlannedPart m p part.now → IsIn x names.new.items
        → IsIn x names.old.items ⊎ Requires (ChoosesAt m.rules.lists p) x.now) }
{
    match part {
        PlannedPart::Member(member) if member.required => names.push(member.name)?,
        PlannedPart::Selection(selection) if !selection.optional => {
            push_required_by_all(names, lower, &selection.branches)?;
        }
        _ => {}
    }
    Ok(())
}

/// Adds the names that all branches require.
fn push_required_by_all<'c>(
    names: &mut Vec<&'c str>,
    lower: &[Vec<&'c str>],
    branches: &[usize],
) -> Result<(), AllocError>
    ensures { OnOk result ((x : Bor Name) → IsIn x names.new.items
        → IsIn x names.old.items ⊎ (all_require lower.now x.now branches.now ≡ true)) }
{
    match branches.first() {
        Some(first) => push_those_of_all(names, lower, *first, branches),
        None => Ok(()),
    }
}

/// Adds those of the names at a number that all branches require.
fn push_those_of_all<'c>(
    names: &mut Vec<&'c str>,
    lower: &[Vec<&'c str>],
    number: usize,
    branches: &[usize],
) -> Result<(), AllocError>
    ensures { OnOk result ((x : Bor Name) → IsIn x names.new.items
        → IsIn x names.old.items ⊎ (all_require lower.now x.now branches.now ≡ true)) }
{
    match lower.get(number) {
        Some(candidates) => push_candidates(names, lower, candidates, branches),
        None => Ok(()),
    }
}

/// Adds those of several names that all branches require.
fn push_candidates<'c>(
    names: &mut Vec<&'c str>,
    lower: &[Vec<&'c str>],
    candidates: &[&'c str],
    branches: &[usize],
) -> Result<(), AllocError>
    ensures { OnOk result ((x : Bor Name) → IsIn x names.new.items
        → IsIn x names.old.items ⊎ (all_require lower.now x.now branches.now ≡ true)) }
{
    for candidate in candidates {
        push_candidate(names, lower, candidate, branches)?;
    }
    Ok(())
}

/// Adds a name, if all branches require it.
fn push_candidate<'c>(
    names: &mut Vec<&'c str>,
    lower: &[Vec<&'c str>],
    candidate: &'c str,
    branches: &[usize],
) -> Result<(), AllocError>
    ensures { OnOk result ((x : Bor Name) → IsIn x names.new.items
        → IsIn x names.old.items ⊎ (all_require lower.now x.now branches.now ≡ true)) }
{
    if do_all_require(lower, candidate, branches) {
        names.push(candidate)?;
    }
    Ok(())
}

/// Whether all branches require a name.
fn do_all_require(lower: &[Vec<&str>], name: &str, branches: &[usize]) -> bool
    ensures { result ≡ all_require lower.now name.now branches.now }
{
    branches
        .iter()
        .all(|branch| does_require(lower, name, *branch))
}

/// Whether the list of a number requires a name.
fn does_require(lower: &[Vec<&str>], name: &str, number: usize) -> bool
    ensures { result ≡ requires_at lower.now name.now number }
{
    match lower.get(number) {
        Some(names) => knows(names, name),
        None => false,
    }
}
