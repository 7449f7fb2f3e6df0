//! The places that no document is shown for.
ghost use Rattle.std.specs.Prelude.{◌≡◌, Contains, IfOk, IsTrue, OnOk};
ghost use Rattle.facet_solver_reader.specs.Readers.{ReaderView};
ghost use Rattle.facet_solver_witnesses.specs.declared.ambiguity.Cause.TheVariants.{Unconfirmed};
ghost use Rattle.facet_solver_witnesses.specs.declared.ambiguity.Evidence.TheVariants.{MayBe};
ghost use Rattle.facet_solver_witnesses.specs.declared.place.Place.{Place};
ghost use Rattle.facet_solver_witnesses.specs.Covered.{AreCovered, Covers, IsCovered};
ghost use Rattle.facet_solver_witnesses.specs.Shown.{AreShown};

use crate::ambiguity::{Ambiguity, Cause, Evidence};
use crate::growing::push;
use crate::names::{field_of, forks_like, owner_of, way_names};
use crate::place::{Fork, Place};
use facet_solver_reader::{Plan, TypeName};
use std::alloc::{AllocError, Global};

/// Adds an ambiguity for each place that stands in none.
pub(crate) fn add_unconfirmed<'c>(
    alloc: Global,
    plan: &Plan<'c>,
    places: &[Place],
    found: &mut Vec<Ambiguity<'c>>,
) -> Result<(), AllocError>
    ensures covered { OnOk result (AreCovered found.new.items places.now) }
    ensures shown { OnOk result
        ((r : ReaderView) → AreShown r found.old.items → AreShown r found.new.items) }
{
    for place in places {
        add_place(alloc, plan, *place, found)?;
    }
    Ok(())
}

/// Adds an ambiguity for a place, if it stands in none.
fn add_place<'c>(
    alloc: Global,
    plan: &Plan<'c>,
    place: Place,
    found: &mut Vec<Ambiguity<'c>>,
) -> Result<(), AllocError>
    ensures covered { OnOk result (IsCovered found.new.items place) }
    ensures kept { OnOk result
        ((p : Place) → IsCovered found.old.items p → IsCovered found.new.items p) }
    ensures shown { OnOk result
        ((r : ReaderView) → AreShown r found.old.items → AreShown r found.new.items) }
{
    if !is_covered(found, place) {
        let ambiguity = unconfirmed(alloc, plan, place)?;
        push(found, ambiguity)?;
    }
    Ok(())
}

/// Whether a place stands in one of some ambiguities. The ways of each rise.
fn is_covered(found: &[Ambiguity<'_>], place: Place) -> bool
    ensures { IsTrue result → IsCovered found.now place }
{
    for ambiguity in found {
        if covers(ambiguity, place) {
            return true;
        }
    }
    false
}

/// Whether a place stands in an ambiguity whose ways rise.
fn covers(ambiguity: &Ambiguity<'_>, place: Place) -> bool
    ensures { IsTrue result → Covers ambiguity.now place }
{
    has_fork(&ambiguity.forks, place.fork)
        && has_way(&ambiguity.ways, place.first)
        && has_way(&ambiguity.ways, place.second)
}

/// Whether a fork is one of some.
fn has_fork(forks: &[Fork], fork: Fork) -> bool
    ensures { IsTrue result → Contains forks.now fork }
{
    for other in forks {
        if *other == fork {
            return true;
        }
    }
    false
}

/// Whether a way is one of some that rise.
fn has_way(ways: &[usize], way: usize) -> bool
    ensures { IsTrue result → Contains ways.now way }
{
    match ways.binary_search(&way) {
        Ok(_) => true,
        Err(_) => false,
    }
}

/// The ambiguity of a place at which no document is shown.
fn unconfirmed<'c>(
    alloc: Global,
    plan: &Plan<'c>,
    place: Place,
) -> Result<Ambiguity<'c>, AllocError>
    ensures covers { IfOk result (λ ambiguity. Covers ambiguity place) }
    ensures evidence { IfOk result (λ ambiguity. ambiguity.evidence ≡ MayBe Unconfirmed) }
{
    Ok(Ambiguity {
        forks: forks_like(alloc, plan, place.fork)?,
        ways: vec![in alloc; place.first, place.second]?,
        owner: owner_of(plan, place.fork),
        field: field_of(plan, place.fork),
        variants: names_of_both(alloc, plan, place)?,
        evidence: Evidence::MayBe(Cause::Unconfirmed),
    })
}

/// The names of the variants that both ways of a place take.
fn names_of_both<'c>(
    alloc: Global,
    plan: &Plan<'c>,
    place: Place,
) -> Result<Vec<TypeName<'c>>, AllocError> {
    let mut names = way_names(alloc, plan, place.fork, place.first)?;
    let mut others = way_names(alloc, plan, place.fork, place.second)?;
    names.append(&mut others)?;
    Ok(names)
}
