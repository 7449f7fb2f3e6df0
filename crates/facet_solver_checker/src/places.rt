//! The places at which two readings of a document can differ first.
ghost use Rattle.std.specs.Prelude.{◌≡◌, ◌<◌, IfOk, OnOk, ℕ, length};
ghost use Rattle.facet_solver_checker.specs.Apartness.{AreNamesRequired};
ghost use Rattle.facet_solver_checker.specs.Atoms.{HaveAtoms};
ghost use Rattle.facet_solver_checker.specs.Tables.{
  AllSettledBy,
  AreSettledBy,
  AreTablesOf,
  HasFork,
  IsSettledBy,
};
ghost use Rattle.facet_solver_witnesses.specs.declared.place.Fork.TheVariants as forks;
ghost use Rattle.facet_solver_checker.specs.Ambiguity.{AreAllPlaces, IsCertain};
ghost use Rattle.facet_solver_checker.specs.Forks.{
  Grows,
  HasWays,
  IsPartFork,
  place_at,
  way_count,
};

use crate::apart::Apart;
use crate::atoms::Atoms;
use crate::forks::is_apart;
use crate::required::Required;
use crate::tables::Tables;
use crate::touched::Touched;
use facet_solver_reader::{Plan, PlannedEnd, PlannedPart};
use facet_solver_witnesses::{Fork, Place};
use std::alloc::{AllocError, Global};

/// The places at which two readings of a document can differ first; none where no document has two.
///
/// The table has to leave each pair of targets that read one value.
pub(crate) fn all_places<'t>(
    alloc: Global,
    plan: &'t Plan<'t>,
    required: &'t Required<'t>,
    atoms: &'t [Atoms],
    apart: &'t Apart<'t>,
) -> Result<Vec<Place>, AllocError>
    requires required { AreNamesRequired plan.now required.now.names.items }
    requires atoms { HaveAtoms plan.now atoms.now }
    requires len { length atoms.now ≡ length plan.now.targets.items }
    ensures all { IfOk result (λ places. AreAllPlaces plan.now apart.now places.items) }
    ensures certain { IfOk result (λ places. IsCertain plan.now apart.now places.items) }
{
    let touched = Touched::new(alloc, plan)?;
    let tables = Tables {
        plan,
        required,
        touched: &touched,
        atoms,
        apart,
    };
    places_left(alloc, &tables)
}

/// The places of a plan whose two ways are not known to be apart.
fn places_left(alloc: Global, tables: &Tables<'_, '_>) -> Result<Vec<Place>, AllocError>
    requires { AreTablesOf tables.now }
    ensures { IfOk result (λ places. AllSettledBy tables.now places.items) }
{
    let mut places = Vec::new(alloc);
    add_lists(alloc, tables, &mut places)?;
    add_enums(alloc, tables, &mut places)?;
    Ok(places)
}

/// Adds the places of all selections.
fn add_lists(
    alloc: Global,
    tables: &Tables<'_, '_>,
    places: &mut Vec<Place>,
) -> Result<(), AllocError>
    requires { AreTablesOf tables.now }
    ensures grows { OnOk result (Grows places.old.items places.new.items) }
    ensures settled { OnOk result ((list part n : ℕ)
        → HasFork tables.now (forks.Selection list part) n
        → AreSettledBy tables.now places.new.items (forks.Selection list part) n) }
{
    for list in 0..tables.plan.lists.len() {
        add_list(alloc, tables, list, &tables.plan.lists[list].parts, places)?;
    }
    Ok(())
}

/// Adds those of the selections of a list.
fn add_list(
    alloc: Global,
    tables: &Tables<'_, '_>,
    list: usize,
    parts: &[PlannedPart<'_>],
    places: &mut Vec<Place>,
) -> Result<(), AllocError>
    requires { AreTablesOf tables.now }
    ensures grows { OnOk result (Grows places.old.items places.new.items) }
    ensures settled { OnOk result ((part n : ℕ) → IsPartFork parts.now part n
        → AreSettledBy tables.now places.new.items (forks.Selection list part) n) }
{
    for part in 0..parts.len() {
        let fork = Fork::Selection(list, part);
        add_part(alloc, tables, fork, &parts[part], places)?;
    }
    Ok(())
}

/// Adds those of a part, if it is a selection.
fn add_part(
    alloc: Global,
    tables: &Tables<'_, '_>,
    fork: Fork,
    part: &PlannedPart<'_>,
    places: &mut Vec<Place>,
) -> Result<(), AllocError>
    requires { AreTablesOf tables.now }
    ensures grows { OnOk result (Grows places.old.items places.new.items) }
    ensures settled { OnOk result ((n : ℕ) → HasWays part.now n
        → AreSettledBy tables.now places.new.items fork n) }
{
    match part {
        PlannedPart::Selection(selection) => {
            add_pairs(alloc, tables, fork, selection.branches.len(), places)
        }
        _ => Ok(()),
    }
}

/// Adds those of all enums that are read as values.
fn add_enums(
    alloc: Global,
    tables: &Tables<'_, '_>,
    places: &mut Vec<Place>,
) -> Result<(), AllocError>
    requires { AreTablesOf tables.now }
    ensures grows { OnOk result (Grows places.old.items places.new.items) }
    ensures settled { OnOk result ((target n : ℕ) → HasFork tables.now (forks.Enum target) n
        → AreSettledBy tables.now places.new.items (forks.Enum target) n) }
{
    for target in 0..tables.plan.targets.len() {
        let count = ways_of(&tables.plan.targets[target].end);
        add_pairs(alloc, tables, Fork::Enum(target), count, places)?;
    }
    Ok(())
}

/// How many ways there are to read an enum; none where it is none.
fn ways_of(end: &PlannedEnd<'_>) -> usize
    ensures { result ≡ way_count end.now }
{
    match end {
        PlannedEnd::Named(variants) => variants.len(),
        PlannedEnd::Untagged(_, alone) => alone.len() + 1,
        _ => 0,
    }
}

/// Adds each two of the first ways of a fork.
fn add_pairs(
    alloc: Global,
    tables: &Tables<'_, '_>,
    fork: Fork,
    count: usize,
    places: &mut Vec<Place>,
) -> Result<(), AllocError>
    requires { AreTablesOf tables.now }
    ensures grows { OnOk result (Grows places.old.items places.new.items) }
    ensures settled { OnOk result (AreSettledBy tables.now places.new.items fork count) }
{
    for second in 0..count {
        add_before(alloc, tables, fork, second, places)?;
    }
    Ok(())
}

/// Adds a way of a fork with each that comes before it.
fn add_before(
    alloc: Global,
    tables: &Tables<'_, '_>,
    fork: Fork,
    second: usize,
    places: &mut Vec<Place>,
) -> Result<(), AllocError>
    requires { AreTablesOf tables.now }
    ensures grows { OnOk result (Grows places.old.items places.new.items) }
    ensures settled { OnOk result ((x : ℕ) → x < second
        → IsSettledBy tables.now places.new.items (place_at fork x second)) }
{
    for first in 0..second {
        let place = Place {
            fork,
            first,
            second,
        };
        add_place(alloc, tables, place, places)?;
    }
    Ok(())
}

/// Adds a place, unless its two ways are apart.
fn add_place(
    alloc: Global,
    tables: &Tables<'_, '_>,
    place: Place,
    places: &mut Vec<Place>,
) -> Result<(), AllocError>
    requires { AreTablesOf tables.now }
    ensures grows { OnOk result (Grows places.old.items places.new.items) }
    ensures settled { OnOk result (IsSettledBy tables.now places.new.items place) }
{
    if !is_apart(alloc, tables, place)? {
        places.push(place)?;
    }
    Ok(())
}
