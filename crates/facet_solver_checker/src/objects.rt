//! Whether two lists read no object in common.
ghost use Rattle.std.specs.Prelude.{◌≡◌, All, IfOk, true};
ghost use Rattle.std.specs.Borrow.{Bor};
ghost use Rattle.facet_solver_shape.specs.Names.{Name};
ghost use Rattle.facet_solver_reader.specs.Plans.{Meaning};
ghost use Rattle.facet_solver_checker.specs.ListsMeet.{
  AllOthersApart,
  AreListsApart,
  AreSidesApart,
  IsNameApart,
};
ghost use Rattle.facet_solver_checker.specs.PlanMembers.{IsIn, IsMeaningOf};
ghost use Rattle.facet_solver_checker.specs.Requires.{AreRequired, IsRequiredBy};
ghost use Rattle.facet_solver_checker.specs.Ways.{AreWaysAt};

use crate::apart::Apart;
use crate::inners::inners_of;
use crate::required::Required;
use crate::ways::Ways;
use facet_solver_reader::Plan;
use std::alloc::{AllocError, Global};

/// A list that reads an object, by the choices of a list within it.
#[derive(Clone, Copy)]
pub(crate) struct Side {
    /// The number of the list.
    list: usize,
    /// That of the list within it.
    inner: usize,
}

impl Side {
    /// A list, and one within it.
    pub(crate) fn new(list: usize, inner: usize) -> Side {
        Side { list, inner }
    }

    /// The number of the list within it.
    pub(crate) fn inner(self) -> usize {
        self.inner
    }
}

/// Whether two lists read no object in common: as far as is seen, for each two of the lists within
/// them, by a name that one of these requires.
pub(crate) fn objects_apart(
    alloc: Global,
    plan: &Plan<'_>,
    required: &Required<'_>,
    apart: &Apart,
    first: usize,
    second: usize,
) -> Result<bool, AllocError>
    ensures { (m : Meaning) → IsMeaningOf m plan.now → AreRequired m required.now.names.items
        → IfOk result (λ b. b ≡ true → AreListsApart m apart.now first second) }
{
    let firsts = inners_of(alloc, plan, first)?;
    let seconds = inners_of(alloc, plan, second)?;
    for inner in &firsts {
        let side = Side {
            list: first,
            inner: *inner,
        };
        let all = all_others_apart(alloc, plan, required, apart, side, second, &seconds)?;
        if !all {
            return Ok(false);
        }
    }
    Ok(true)
}

/// Whether a side reads no object in common with a list, by each of several lists within it.
fn all_others_apart(
    alloc: Global,
    plan: &Plan<'_>,
    required: &Required<'_>,
    apart: &Apart,
    first: Side,
    second: usize,
    inners: &[usize],
) -> Result<bool, AllocError>
    ensures { (m : Meaning) → IsMeaningOf m plan.now → AreRequired m required.now.names.items
        → IfOk result (λ b. b ≡ true → AllOthersApart m apart.now first second inners.now) }
{
    for inner in inners {
        let side = Side {
            list: second,
            inner: *inner,
        };
        let none = sides_apart(alloc, plan, required, apart, first, side)?;
        if !none {
            return Ok(false);
        }
    }
    Ok(true)
}

/// Whether two sides read no object in common, as far as is seen by a name that one requires.
pub(crate) fn sides_apart(
    alloc: Global,
    plan: &Plan<'_>,
    required: &Required<'_>,
    apart: &Apart,
    first: Side,
    second: Side,
) -> Result<bool, AllocError>
    ensures { (m : Meaning) → IsMeaningOf m plan.now → AreRequired m required.now.names.items
        → IfOk result (λ b. b ≡ true → AreSidesApart m apart.now first second) }
{
    let by_first = some_required_apart(alloc, plan, required, apart, first, second, first.inner)?;
    if by_first {
        return Ok(true);
    }
    let by_second = some_required_apart(alloc, plan, required, apart, first, second, second.inner)?;
    Ok(by_second)
}

/// Whether one of the names that the list of a number requires is one that no object has that both
/// sides read.
fn some_required_apart(
    alloc: Global,
    plan: &Plan<'_>,
    required: &Required<'_>,
    apart: &Apart,
    first: Side,
    second: Side,
    number: usize,
) -> Result<bool, AllocError>
    ensures { (m : Meaning) → IsMeaningOf m plan.now → AreRequired m required.now.names.items
        → IfOk result (λ b. b ≡ true
        → (x : Name) × IsRequiredBy m number x × IsNameApart m apart.now first second x) }
{
    match required.names.get(number) {
        Some(names) => some_name_apart(alloc, plan, apart, first, second, names),
        None => Ok(false),
    }
}

/// Whether one of several names is one that no object has that both sides read.
fn some_name_apart(
    alloc: Global,
    plan: &Plan<'_>,
    apart: &Apart,
    first: Side,
    second: Side,
    names: &[&str],
) -> Result<bool, AllocError>
    ensures { (m : Meaning) → IsMeaningOf m plan.now → IfOk result (λ b. b ≡ true
        → (x : Bor Name) × IsIn x names.now × IsNameApart m apart.now first second x.now) }
{
    for name in names {
        let none = name_apart(alloc, plan, apart, first, second, name)?;
        if none {
            return Ok(true);
        }
    }
    Ok(false)
}

/// Whether no object that has a member of a name is read by both sides.
fn name_apart(
    alloc: Global,
    plan: &Plan<'_>,
    apart: &Apart,
    first: Side,
    second: Side,
    name: &str,
) -> Result<bool, AllocError>
    ensures { (m : Meaning) → IsMeaningOf m plan.now
        → IfOk result (λ b. b ≡ true → IsNameApart m apart.now first second name.now) }
{
    let ours = ways_of_side(alloc, plan, first, name)?;
    let theirs = ways_of_side(alloc, plan, second, name)?;
    Ok(ours.are_apart(apart, &theirs))
}

/// In which ways a side reads the member of a name.
pub(crate) fn ways_of_side(
    alloc: Global,
    plan: &Plan<'_>,
    side: Side,
    name: &str,
) -> Result<Ways, AllocError>
    ensures { IfOk result (AreWaysAt plan.now side name.now) }
{
    match (plan.lists.get(side.list), plan.lists.get(side.inner)) {
        (Some(list), Some(inner)) => Ways::of(alloc, plan, list, &inner.below, name),
        _ => Ok(Ways::any(alloc)),
    }
}
