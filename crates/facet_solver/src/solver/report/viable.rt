//! The candidates that are viable: their descriptions, and the names that tell them apart.
ghost use Rattle.std.specs.Prelude.{◌≡◌, ◌<◌, All, IfOk, OnOk, length, map, string_bytes};
ghost use Rattle.std.specs.FinSet as set;
ghost use Rattle.std.specs.List.{flat_map, list_all};
ghost use Rattle.facet_solver_shape.specs.Resolved.{names_view};
ghost use Rattle.facet_solver.specs.Resolutions.{has_field_named, passes};
ghost use Rattle.facet_solver.specs.schema.IndexEntries.{is_held};
ghost use Rattle.facet_solver.specs.solver.Report as reports;
ghost use Rattle.facet_solver.specs.solver.Report.{resolution_field_names, resolutions_at, state_of_report, viable};

use crate::schema::Schema;
use crate::set::{Condition, ResolutionSet};
use crate::solver::conditions::AtIndex;
use crate::solver::conditions::viable::IsViable;
use crate::solver::report::Report;
use facet_solver_shape::Resolution;
use std::alloc::{AllocError, Global};
use std::collections::BTreeSet;

/// The indices of the candidates that are viable, rising.
pub(crate) fn viable_indices(report: &Report<'_, '_, '_>) -> Result<Vec<usize>, AllocError>
    ensures exact { IfOk result (λ indices. indices.items ≡ viable (state_of_report report.now)) }
    ensures within { IfOk result (λ indices.
        All (λ index. index < length report.now.schema.now.resolutions) indices.items) }
{
    let is_viable = AtIndex {
        resolutions: report.schema.resolutions(),
        test: IsViable { seen: report.seen },
    };
    let mut indices = Vec::new(report.alloc);
    for index in report.candidates.iter() {
        if is_viable.holds(index) {
            indices.push(index)?;
        }
    }
    Ok(indices)
}

/// The descriptions of the resolutions at some indices, in order.
pub(crate) fn descriptions(
    alloc: Global,
    schema: &Schema<'_>,
    indices: &[usize],
) -> Result<Vec<String>, AllocError>
    ensures { IfOk result (λ texts. map string_bytes texts.items
        ≡ reports.descriptions (resolutions_at schema.now.resolutions indices.now)) }
{
    let resolutions = schema.resolutions();
    let mut texts = Vec::new(alloc);
    for index in indices {
        if let Some(resolution) = resolutions.get(*index) {
            texts.push(resolution.describe(alloc)?)?;
        }
    }
    Ok(texts)
}

/// The names that some but not all of the resolutions at some indices have, in byte order.
///
/// Each name is sought in the schema's index once, and then asked of the resolutions in turn, up to
/// the first that lacks it.
pub(crate) fn disambiguating(
    alloc: Global,
    schema: &Schema<'_>,
    indices: &[usize],
) -> Result<Vec<String>, AllocError>
    requires { All (λ index. index < length schema.now.resolutions) indices.now }
    ensures { IfOk result (λ names. map string_bytes names.items
        ≡ reports.disambiguating (resolutions_at schema.now.resolutions indices.now)) }
{
    let all = all_names(alloc, schema, indices)?;
    let mut names = Vec::new(alloc);
    for name in &all {
        if !is_in_all(alloc, schema, indices, name)? {
            names.push(String::from_str(alloc, name)?)?;
        }
    }
    Ok(names)
}

/// Whether each of the resolutions at some indices has a field of the name.
fn is_in_all(
    alloc: Global,
    schema: &Schema<'_>,
    indices: &[usize],
    name: &str,
) -> Result<bool, AllocError>
    ensures { IfOk result (λ is. is ≡ list_all
        (passes (has_field_named name.now) schema.now.resolutions) indices.now) }
{
    let sets = schema.sets_named(alloc, name)?;
    Ok(are_held(&sets, indices))
}

/// Whether each of some resolutions is in one of some sets.
fn are_held(sets: &[&ResolutionSet], indices: &[usize]) -> bool
    ensures { result ≡ list_all (is_held sets.now) indices.now }
{
    indices.iter().all(|index| is_held(sets, *index))
}

fn is_held(sets: &[&ResolutionSet], index: usize) -> bool
    ensures { result ≡ is_held sets.now index }
{
    sets.iter().any(|set| set.contains(index))
}

/// The names of fields of the resolutions at some indices.
fn all_names<'c>(
    alloc: Global,
    schema: &Schema<'c>,
    indices: &[usize],
) -> Result<BTreeSet<&'c str>, AllocError>
    ensures { IfOk result (λ names. names_view names.keys ≡ set.from_list
        (flat_map resolution_field_names (resolutions_at schema.now.resolutions indices.now))) }
{
    let resolutions = schema.resolutions();
    let mut names = BTreeSet::new(alloc);
    for index in indices {
        if let Some(resolution) = resolutions.get(*index) {
            add_names(&mut names, resolution)?;
        }
    }
    Ok(names)
}

/// Adds the names of a resolution's fields.
fn add_names<'c>(
    names: &mut BTreeSet<&'c str>,
    resolution: &Resolution<'c>,
) -> Result<(), AllocError>
    ensures { let field_names = set.from_list (resolution_field_names resolution.now) in
        OnOk result (names_view names.new.keys
        ≡ set.union (names_view names.old.keys) field_names) }
{
    for (_, field) in resolution.fields() {
        names.insert(field.serialized_name)?;
    }
    Ok(())
}
