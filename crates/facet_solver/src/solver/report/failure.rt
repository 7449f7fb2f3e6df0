//! Why resolutions are not the answer.
ghost use Rattle.std.specs.Prelude.{◌≡◌, ◌<◌, IfOk, List, Some, map, slice_get, string_bytes};
ghost use Rattle.facet_solver_shape.specs.Keys.{Key};
ghost use Rattle.facet_solver.specs.solver.Failure as spec;
ghost use Rattle.facet_solver.specs.build.Build.{type_identifier};
ghost use Rattle.facet_solver.specs.solver.Failure.{failure_of};
ghost use Rattle.facet_solver.specs.error.ErrorView.{failure_view, missing_view};
ghost use Rattle.facet_solver.specs.solver.SeenEntries.{AreSeenEntries};
ghost use Rattle.facet_solver.specs.solver.SeenNames.{AreSeenNames};
ghost use Rattle.facet_solver.specs.solver.Report.{resolutions_at, state_of_report};

use crate::error::{CandidateFailure, MissingFieldInfo};
use crate::set::ResolutionSet;
use crate::solver::report::Report;
use crate::solver::report::seen::SeenNames;
use crate::solver::report::seen_entries::{SeenEntry, names_without, seen_entries};
use facet_solver_shape::{FieldInfo, Resolution, ShapeId, Shapes};
use std::alloc::{AllocError, Global};

/// Why the resolutions at some indices are not the answer, in order.
pub(crate) fn failures_at<'c>(
    report: &Report<'_, 'c, '_>,
    names: &SeenNames<'_>,
    indices: &ResolutionSet,
) -> Result<Vec<CandidateFailure<'c>>, AllocError>
    requires { AreSeenNames (state_of_report report.now).seen names.now }
    ensures { let state = state_of_report report.now in
        IfOk result (λ failures. map failure_view failures.items
        ≡ map (failure_of state.schema.build.catalogue state.seen)
        (resolutions_at state.schema.resolutions indices.now.members)) }
{
    let resolutions = report.schema.resolutions();
    let entries = seen_entries(report.alloc, report.schema, report.seen)?;
    let mut failures = Vec::new(report.alloc);
    for index in indices.iter() {
        if let Some(resolution) = resolutions.get(index) {
            failures.push(failure(report, names, &entries, index, resolution)?)?;
        }
    }
    Ok(failures)
}

/// Why the resolution at an index is not the answer.
fn failure<'c>(
    report: &Report<'_, 'c, '_>,
    names: &SeenNames<'_>,
    entries: &[SeenEntry<'_, '_, '_>],
    index: usize,
    resolution: &Resolution<'c>,
) -> Result<CandidateFailure<'c>, AllocError>
    requires names { AreSeenNames (state_of_report report.now).seen names.now }
    requires entries { let state = state_of_report report.now in
        AreSeenEntries state.schema state.seen entries.now }
    requires place { let state = state_of_report report.now in
        slice_get state.schema.resolutions index ≡ Some resolution.now }
    ensures { let state = state_of_report report.now in
        IfOk result (λ failure. failure_view failure
        ≡ failure_of state.schema.build.catalogue state.seen resolution.now) }
{
    let alloc = report.alloc;
    let shapes = report.schema.shapes();
    Ok(CandidateFailure {
        variant_name: resolution.describe(alloc)?,
        missing_fields: missing_fields(alloc, shapes, names, resolution)?,
        unknown_fields: names_without(alloc, entries, index)?,
        suggestion_matches: 0,
    })
}

/// What a resolution lacks: each field that the seen keys do not meet.
pub(crate) fn missing_fields<'c>(
    alloc: Global,
    shapes: &Shapes,
    names: &SeenNames<'_>,
    resolution: &Resolution<'c>,
) -> Result<Vec<MissingFieldInfo<'c>>, AllocError>
    ensures { IfOk result (λ fields. (seen : List Key) → AreSeenNames seen names.now
        → map missing_view fields.items ≡ spec.missing_fields shapes.now seen resolution.now) }
{
    let mut fields = Vec::new(alloc);
    for (_, field) in resolution.fields() {
        if !names.meet(field) {
            fields.push(missing_field(alloc, shapes, field)?)?;
        }
    }
    Ok(fields)
}

/// What is told of a field that a resolution lacks.
fn missing_field<'c>(
    alloc: Global,
    shapes: &Shapes,
    field: &FieldInfo<'c>,
) -> Result<MissingFieldInfo<'c>, AllocError>
    ensures { IfOk result (λ missing. missing_view missing
        ≡ spec.missing_field shapes.now field.now) }
{
    Ok(MissingFieldInfo {
        name: field.serialized_name,
        path: field.path.to_string(alloc)?,
        defined_in: type_identifier(alloc, shapes, field.value_shape)?,
    })
}

/// The type identifier of a shape.
fn type_identifier(alloc: Global, shapes: &Shapes, id: ShapeId) -> Result<String, AllocError>
    ensures { IfOk result (λ text. string_bytes text ≡ type_identifier shapes.now id) }
{
    match shapes.get(id) {
        Some(shape) => shape.type_identifier.clone(),
        None => Ok(String::new(alloc)),
    }
}
