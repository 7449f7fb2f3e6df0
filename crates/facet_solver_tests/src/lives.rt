//! How long values live. Each function compiles only where the library gives what it gives as long
//! a life as stands here, and takes names and lists that live no longer than the call.

use facet_solver::{
    FieldCategory, FieldInfo, FieldKey, KeyResult, ProbeResult, ProbingSolver, Resolution,
    ResolutionHandle, SatisfyResult, Schema, Shape, ShapeId, Shapes, Solver, SolverError, Variant,
    VariantsByFormat,
};
use std::alloc::{AllocError, Global};

/// A key may live shorter than the schema and its catalogue. What it tells, also at a path,
/// outlives it and the solver.
fn answers<'s, 'c, 'd>(
    alloc: Global,
    solver: &mut Solver<'s, 'c, 'd>,
    document: &'d str,
    path: &[&str],
) -> [Result<KeyResult<'s, 'c>, AllocError>; 2] {
    [
        solver.see_key(alloc, FieldKey::flat(document)),
        solver.probe_key(alloc, path, document),
    ]
}

/// The fields of an ambiguous answer outlive it.
fn fields<'a, 's, 'c>(answer: &'a KeyResult<'s, 'c>) -> Option<&'a Vec<(&'s FieldInfo<'c>, u64)>> {
    match answer {
        KeyResult::Ambiguous { fields } => Some(fields),
        _ => None,
    }
}

/// What fields and shapes that are fit tell outlives the solver, and the lists.
fn satisfied<'s, 'c>(
    solver: &mut Solver<'s, 'c, '_>,
    fields: &[&FieldInfo<'_>],
    path: &[&str],
    shapes: &[ShapeId],
) -> [SatisfyResult<'s, 'c>; 3] {
    [
        solver.satisfy(fields),
        solver.satisfy_shapes(shapes),
        solver.satisfy_at_path(path, shapes),
    ]
}

/// A handle among the candidates outlives the solver.
fn candidates<'s, 'c>(
    alloc: Global,
    solver: &Solver<'s, 'c, '_>,
) -> Result<Vec<ResolutionHandle<'s, 'c>>, AllocError> {
    solver.candidates(alloc)
}

/// The end of a document outlives the document, and its error outlives the schema.
fn end<'s, 'c>(
    alloc: Global,
    solver: Solver<'s, 'c, '_>,
) -> Result<ResolutionHandle<'s, 'c>, SolverError<'c>> {
    solver.finish(alloc)
}

/// A resolution outlives its handle.
fn resolution<'s, 'c>(handle: &ResolutionHandle<'s, 'c>) -> &'s Resolution<'c> {
    handle.resolution()
}

/// The shape at an index outlives the schema that gives its catalogue.
fn shape<'c>(schema: &Schema<'c>, index: usize) -> Option<&'c Shape> {
    let shapes: &'c Shapes = schema.shapes();
    shapes.get(ShapeId::new(index))
}

/// A candidate of a probing solver outlives it.
fn probed_candidates<'p, 's, 'c>(solver: &'p ProbingSolver<'s, 'c>) -> &'p [&'s Resolution<'c>] {
    solver.candidates()
}

/// What a key that is probed tells outlives the probing solver and the path, and so does what the
/// end tells.
fn probed<'s, 'c>(
    solver: &mut ProbingSolver<'s, 'c>,
    path: &[&str],
    key: &str,
) -> [ProbeResult<'s, 'c>; 2] {
    [solver.probe_key(path, key), solver.finish()]
}

/// Variants outlive the lists that they stand in.
fn pairs<'c>(
    alloc: Global,
    variants: &VariantsByFormat<'c>,
) -> Result<Vec<&'c Variant>, AllocError> {
    variants.tuple_variants_with_arity(alloc, 2)
}

/// A field is found by a key that lives shorter. Its name, and that of a catch-all, outlives its
/// resolution.
fn name_of<'c>(resolution: &Resolution<'c>, key: &FieldKey<'_>) -> Option<&'c str> {
    let field = match resolution.field_by_key(key) {
        Some(field) => field,
        None => resolution.catch_all_map(FieldCategory::Flat)?,
    };
    Some(field.serialized_name)
}

/// The name of a key outlives the key.
fn name<'a>(key: &FieldKey<'a>) -> &'a str {
    key.name()
}
