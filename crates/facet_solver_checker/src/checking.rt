//! The check of a type.
ghost use Rattle.std.specs.Prelude.{◌≡◌, [], IfOk};
ghost use Rattle.facet_solver_reader.specs.Parts.{of_shape};
ghost use Rattle.facet_solver_reader.specs.Plans.{IsPlanOf};
ghost use Rattle.facet_solver_reader.specs.Types.{rules_of};
ghost use Rattle.facet_solver_checker.specs.Certain.{IsUnambiguous};
ghost use Rattle.facet_solver_checker.specs.Told.{AreAllTold, IsPlanned, IsTold};
ghost use Rattle.facet_solver_witnesses.specs.Covered.{AreCovered};
ghost use Rattle.facet_solver_witnesses.specs.Shown.{AreShown};

use crate::atoms::all_atoms;
use crate::places::all_places;
use crate::report::Report;
use crate::required::Required;
use crate::table::apart_of;
use facet_solver_reader::{Plan, Reader};
use facet_solver_witnesses::{Place, ambiguities};
use std::alloc::{AllocError, Global};

/// Where two readings of a document as the type of a reader can differ first.
///
/// Wherever two readings of a document differ first, the report has that place. So where it has
/// none, no document has two readings. A place that it has may be one at which no two readings
/// differ.
///
/// Each place stands in an ambiguity: with a document that has two readings or more, or with why
/// there may be one. The search for an object of such a document takes at most so many steps.
///
/// # Errors
///
/// Memory was refused.
pub fn check<'c>(
    alloc: Global,
    reader: &Reader<'c>,
    budget: usize,
) -> Result<Report<'c>, AllocError>
    ensures planned { IfOk result (λ report. IsPlanOf
        (rules_of reader.now.shapes reader.now.strict) reader.now.shapes
        (of_shape reader.now.root) report.plan) }
    ensures all { IfOk result (λ report. AreAllTold report.plan report.places.items) }
    ensures certain { IfOk result (λ report. IsTold report.plan report.places.items) }
    ensures covered { IfOk result (λ report.
        AreCovered report.ambiguities.items report.places.items) }
    ensures shown { IfOk result (λ report. AreShown reader.now report.ambiguities.items) }
    ensures unambiguous { IfOk result (λ report. report.places.items ≡ []
        → IsUnambiguous (rules_of reader.now.shapes reader.now.strict)
        (of_shape reader.now.root)) }
{
    let plan = reader.plan(alloc)?;
    let places = places_of(alloc, &plan)?;
    let ambiguities = ambiguities(alloc, reader, &plan, &places, budget)?;
    Ok(Report {
        plan,
        places,
        ambiguities,
    })
}

/// The places at which two readings of a document can differ first; none where no document has two.
fn places_of(alloc: Global, plan: &Plan<'_>) -> Result<Vec<Place>, AllocError>
    requires { IsPlanned plan.now }
    ensures all { IfOk result (λ places. AreAllTold plan.now places.items) }
    ensures certain { IfOk result (λ places. IsTold plan.now places.items) }
{
    let atoms = all_atoms(alloc, plan)?;
    let required = Required::new(alloc, plan)?;
    let apart = apart_of(alloc, plan, &required, &atoms)?;
    let places = all_places(alloc, plan, &required, &atoms, &apart)?;
    Ok(places)
}
