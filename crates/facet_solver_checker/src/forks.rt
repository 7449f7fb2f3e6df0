//! Whether two ways to read the same have a value in common.
ghost use Rattle.std.specs.Prelude.{◌≡◌, ◌||◌, IfOk, true};
ghost use Rattle.facet_solver_checker.specs.Forks.{
  AreBranchesApart,
  IsApart,
  IsSelectionApart,
  ReadsNone,
};
ghost use Rattle.facet_solver_checker.specs.Tables.{AreTablesOf};
ghost use Rattle.facet_solver_checker.specs.Touched.{is_touched};

use crate::branches::{branches_apart, some_required_member_apart};
use crate::tables::Tables;
use crate::variants::variants_apart;
use facet_solver_reader::{PlannedPart, PlannedSelection};
use facet_solver_witnesses::{Fork, Place};
use std::alloc::{AllocError, Global};

/// Whether no value is read in both ways of a place.
pub(crate) fn is_apart(
    alloc: Global,
    tables: &Tables<'_, '_>,
    place: Place,
) -> Result<bool, AllocError>
    requires { AreTablesOf tables.now }
    ensures { IfOk result (λ b.
        b ≡ true → IsApart tables.now.plan.now tables.now.apart.now place) }
{
    match place.fork {
        Fork::Selection(list, part) => {
            selection_apart(alloc, tables, (list, part), (place.first, place.second))
        }
        Fork::Enum(target) => variants_apart(alloc, tables, target, (place.first, place.second)),
    }
}

/// Whether no object is read by two branches of a selection.
fn selection_apart(
    alloc: Global,
    tables: &Tables<'_, '_>,
    at: (usize, usize),
    ways: (usize, usize),
) -> Result<bool, AllocError>
    requires { AreTablesOf tables.now }
    ensures { IfOk result (λ b.
        b ≡ true → IsSelectionApart tables.now.plan.now tables.now.apart.now at ways) }
{
    let Some(list) = tables.plan.lists.get(at.0) else {
        return Ok(false);
    };
    let Some(PlannedPart::Selection(selection)) = list.parts.get(at.1) else {
        return Ok(false);
    };
    let Some(first) = selection.branches.get(ways.0) else {
        return Ok(false);
    };
    let Some(second) = selection.branches.get(ways.1) else {
        return Ok(false);
    };
    let must_touch = must_touch(tables, selection, at.0);
    parts_apart(alloc, tables, at.0, must_touch, (*first, *second))
}

/// Whether each object that comes to a selection, a part of the list of a number, has a member that
/// the selection knows, as far as is seen.
fn must_touch(tables: &Tables<'_, '_>, selection: &PlannedSelection<'_>, list: usize) -> bool
    ensures { result ≡ (selection.now.optional
        || is_touched tables.now.touched.now.flags.items list) }
{
    selection.optional || tables.touched.has(list)
}

/// Whether no object that the list of a number reads is read by two branches, by the numbers of
/// their lists, of a selection that is a part of it; where it must, of those that have a member
/// which the selection knows.
fn parts_apart(
    alloc: Global,
    tables: &Tables<'_, '_>,
    list: usize,
    must_touch: bool,
    branches: (usize, usize),
) -> Result<bool, AllocError>
    requires { AreTablesOf tables.now }
    ensures { IfOk result (λ b. b ≡ true
        → AreBranchesApart tables.now.plan.now tables.now.apart.now list must_touch branches) }
{
    let none = branches_apart(alloc, tables, must_touch, branches.0, branches.1)?;
    if none {
        return Ok(true);
    }
    Ok(reads_none(tables, list))
}

/// Whether the list of a number reads no object, since it requires a member that has no value.
fn reads_none(tables: &Tables<'_, '_>, list: usize) -> bool
    requires { AreTablesOf tables.now }
    ensures { result ≡ true → ReadsNone tables.now.plan.now tables.now.apart.now list }
{
    some_required_member_apart(tables, list, list, list)
}
