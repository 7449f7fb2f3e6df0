//! Whether two branches of a selection read no object in common.
ghost use Rattle.std.specs.Prelude.{◌≡◌, All, IfOk, true};
ghost use Rattle.std.specs.Borrow.{Bor};
ghost use Rattle.facet_solver_shape.specs.Names.{Name};
ghost use Rattle.facet_solver_reader.specs.Plans.{Meaning};
ghost use Rattle.facet_solver_checker.specs.BranchesMeet.{
  AreApartIn,
  AreInnersApart,
  IsMemberApart,
  ShareNone,
};
ghost use Rattle.facet_solver_checker.specs.Aparts.{LeavesAll};
ghost use Rattle.facet_solver_checker.specs.PlanMembers.{AreListsOf, IsIn};
ghost use Rattle.facet_solver_checker.specs.Requires.{AreRequired, IsRequiredBy};

use crate::apart::Apart;
use crate::inners::{inners_of, is_split};
use crate::named_apart::are_named_apart;
use crate::tables::Tables;
use facet_solver_reader::Plan;
use std::alloc::{AllocError, Global};

/// Whether two branches of a selection, by the numbers of their lists, read no object in common, as
/// far as is seen for each two of the lists within them; where it must, of those that have a member
/// which the selection knows.
pub(crate) fn branches_apart(
    alloc: Global,
    tables: &Tables<'_, '_>,
    must_touch: bool,
    first: usize,
    second: usize,
) -> Result<bool, AllocError>
    ensures { (m : Meaning) → AreListsOf m tables.now.plan.now
        → AreRequired m tables.now.required.now.names.items
        → LeavesAll m tables.now.apart.now
        → IfOk result (λ b. b ≡ true → AreApartIn m must_touch first second) }
{
    let none = inners_apart(tables, must_touch, first, second);
    if none {
        return Ok(true);
    }
    if !is_split(tables.plan, first) && !is_split(tables.plan, second) {
        return Ok(false);
    }
    let firsts = inners_of(alloc, tables.plan, first)?;
    let seconds = inners_of(alloc, tables.plan, second)?;
    for one in &firsts {
        let all = all_inners_apart(tables, must_touch, *one, &seconds);
        if !all {
            return Ok(false);
        }
    }
    Ok(true)
}

/// Whether a list within one branch reads no object in common with each of several lists within
/// another.
fn all_inners_apart(tables: &Tables<'_, '_>, must_touch: bool, one: usize, others: &[usize]) -> bool
    ensures { (m : Meaning) → AreListsOf m tables.now.plan.now
        → AreRequired m tables.now.required.now.names.items
        → LeavesAll m tables.now.apart.now → result ≡ true
        → All (λ other. AreInnersApart m must_touch one other) others.now }
{
    for other in others {
        let none = inners_apart(tables, must_touch, one, *other);
        if !none {
            return false;
        }
    }
    true
}

/// Whether two lists within branches read no object in common: as far as is seen by the members
/// that they require, or, where the object must have a member of the selection, by all that both
/// have.
pub(crate) fn inners_apart(
    tables: &Tables<'_, '_>,
    must_touch: bool,
    one: usize,
    other: usize,
) -> bool
    ensures { (m : Meaning) → AreListsOf m tables.now.plan.now
        → AreRequired m tables.now.required.now.names.items
        → LeavesAll m tables.now.apart.now
        → result ≡ true → AreInnersApart m must_touch one other }
{
    let by_first = some_required_member_apart(tables, one, other, one);
    if by_first {
        return true;
    }
    let by_second = some_required_member_apart(tables, one, other, other);
    if by_second {
        return true;
    }
    if !must_touch {
        return false;
    }
    share_none(tables.plan, tables.apart, one, other)
}

/// Whether no object has a member, of one of the names that the list of a number requires, that
/// choices of both lists have.
pub(crate) fn some_required_member_apart(
    tables: &Tables<'_, '_>,
    first: usize,
    second: usize,
    number: usize,
) -> bool
    ensures { (m : Meaning) → AreListsOf m tables.now.plan.now
        → AreRequired m tables.now.required.now.names.items
        → result ≡ true
        → (x : Name) × IsRequiredBy m number x
        × IsMemberApart m tables.now.apart.now first second x }
{
    match tables.required.names.get(number) {
        Some(names) => some_member_apart(tables.plan, tables.apart, first, second, names),
        None => false,
    }
}

/// The same of some of several names.
fn some_member_apart(
    plan: &Plan<'_>,
    apart: &Apart,
    first: usize,
    second: usize,
    names: &[&str],
) -> bool
    ensures { (m : Meaning) → AreListsOf m plan.now → result ≡ true
        → (x : Bor Name) × IsIn x names.now × IsMemberApart m apart.now first second x.now }
{
    for name in names {
        let none = member_apart(plan, apart, first, second, name);
        if none {
            return true;
        }
    }
    false
}

/// Whether choices of two lists have no key in common whose member an object has.
fn share_none(plan: &Plan<'_>, apart: &Apart, first: usize, second: usize) -> bool
    ensures { (m : Meaning) → AreListsOf m plan.now
        → result ≡ true → ShareNone m apart.now first second }
{
    match (plan.lists.get(first), plan.lists.get(second)) {
        (Some(one), Some(other)) => {
            if one.takes_rest && other.takes_rest {
                return false;
            }
            all_members_apart(plan, apart, first, second, &one.names)
        }
        _ => false,
    }
}

/// Whether no object has a member, of one of several names, that choices of both lists have.
fn all_members_apart(
    plan: &Plan<'_>,
    apart: &Apart,
    first: usize,
    second: usize,
    names: &[&str],
) -> bool
    ensures { (m : Meaning) → AreListsOf m plan.now → result ≡ true
        → All (λ x. IsMemberApart m apart.now first second x.now) names.now }
{
    for name in names {
        let none = member_apart(plan, apart, first, second, name);
        if !none {
            return false;
        }
    }
    true
}

/// Whether no object has a member of a name that choices of both lists have.
fn member_apart(plan: &Plan<'_>, apart: &Apart, first: usize, second: usize, name: &str) -> bool
    ensures { (m : Meaning) → AreListsOf m plan.now
        → result ≡ true → IsMemberApart m apart.now first second name.now }
{
    match (plan.lists.get(first), plan.lists.get(second)) {
        (Some(one), Some(other)) => {
            are_named_apart(apart, &plan.lists, name, &one.below, &other.below)
        }
        _ => false,
    }
}
