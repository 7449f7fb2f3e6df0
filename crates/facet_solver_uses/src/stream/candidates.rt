//! What the candidates of a solver have at a path of names, and what they may hide there.
ghost use Rattle.std.specs.Prelude.{◌≡◌};
ghost use Rattle.facet_solver.specs.Names.{names_of};
ghost use Rattle.facet_solver.specs.KeyPath.{has_key_path};
ghost use Rattle.facet_solver.specs.Resolutions.{passes};
ghost use Rattle.facet_solver.specs.solver.ShapeAtPath as at_path;
ghost use Rattle.facet_solver_uses.specs.stream.Candidates as candidates;
ghost use Rattle.facet_solver_uses.specs.stream.Candidates.{some_candidate};

use facet_solver::{Field, Resolution, Schema, Shape, ShapeId, ShapeKind, Shapes, Solver};

/// Whether a key is probed, by its whole path: some candidate has the path, and none that lacks it
/// may hide it.
pub(super) fn is_probed(solver: &Solver<'_, '_, '_>, schema: &Schema<'_>, path: &[&str]) -> bool
    requires { solver.now.schema ≡ schema.now }
    ensures { result ≡ candidates.is_probed (names_of path.now) solver.now }
{
    some_has_path(solver, schema, path) && !some_hides(solver, schema, path)
}

/// Whether some candidate has a whole key path.
fn some_has_path(solver: &Solver<'_, '_, '_>, schema: &Schema<'_>, path: &[&str]) -> bool
    requires { solver.now.schema ≡ schema.now }
    ensures { result ≡ some_candidate (has_key_path (names_of path.now)) solver.now }
{
    let mut indices = solver.candidate_set().iter();
    indices.any(|index| has_path(schema, path, index))
}

/// Whether some candidate lacks a whole key path and may hide the key.
fn some_hides(solver: &Solver<'_, '_, '_>, schema: &Schema<'_>, path: &[&str]) -> bool
    requires { solver.now.schema ≡ schema.now }
    ensures { let s = solver.now in result
        ≡ some_candidate (candidates.hides s.schema.build.catalogue (names_of path.now)) s }
{
    let mut indices = solver.candidate_set().iter();
    indices.any(|index| hides(schema, path, index))
}

/// Whether the shapes of a value are told, by its path: every candidate has a shape there.
pub(super) fn is_told(solver: &Solver<'_, '_, '_>, schema: &Schema<'_>, path: &[&str]) -> bool
    requires { solver.now.schema ≡ schema.now }
    ensures { result ≡ candidates.is_told (names_of path.now) solver.now }
{
    let mut indices = solver.candidate_set().iter();
    indices.all(|index| has_shape(schema, path, index))
}

/// Whether the resolution at an index has a whole key path.
fn has_path(schema: &Schema<'_>, path: &[&str], index: usize) -> bool
    ensures { result
        ≡ passes (has_key_path (names_of path.now)) schema.now.resolutions index }
{
    match schema.resolutions().get(index) {
        Some(resolution) => resolution.has_key_path(path),
        None => false,
    }
}

/// Whether the resolution at an index lacks a whole key path and may hide the key.
fn hides(schema: &Schema<'_>, path: &[&str], index: usize) -> bool
    ensures { let schema = schema.now in result
        ≡ passes (candidates.hides schema.build.catalogue (names_of path.now))
        schema.resolutions index }
{
    match schema.resolutions().get(index) {
        Some(resolution) => {
            !resolution.has_key_path(path) && may_hide(schema.shapes(), path, resolution)
        }
        None => false,
    }
}

/// Whether the resolution at an index has a shape at a path.
fn has_shape(schema: &Schema<'_>, path: &[&str], index: usize) -> bool
    ensures { let schema = schema.now in result
        ≡ passes (candidates.has_some_shape_at schema.build.catalogue (names_of path.now))
        schema.resolutions index }
{
    match schema.resolutions().get(index) {
        Some(resolution) => shape_at_path(schema.shapes(), path, resolution).is_some(),
        None => false,
    }
}

/// Whether a resolution may hide a key: what stands on the way of its whole path is not plainly a
/// struct. The first name alone is the way to the content of an adjacently tagged enum.
fn may_hide(shapes: &Shapes, path: &[&str], resolution: &Resolution<'_>) -> bool
    ensures { result
        ≡ candidates.may_hide shapes.now (names_of path.now) resolution.now }
{
    let Some((first, below)) = path.split_first() else {
        return false;
    };
    match resolution.field_by_name(first) {
        Some(field) => hides_below(shapes, below, field.value_shape),
        None => resolution.has_key_path(&[*first]),
    }
}

/// Whether a way of names that begins at a shape comes to what is not plainly a struct.
fn hides_below(shapes: &Shapes, path: &[&str], first: ShapeId) -> bool
    ensures { result ≡ candidates.hides_below shapes.now (names_of path.now) first }
{
    let mut shape = first;
    for name in path {
        if !is_plain_at(shapes, shape) {
            return true;
        }
        match shape_of_member(shapes, name, shape) {
            Some(member) => shape = member,
            None => return false,
        }
    }
    false
}

/// Whether the shape at an index is plainly a struct.
fn is_plain_at(shapes: &Shapes, id: ShapeId) -> bool
    ensures { result ≡ candidates.is_plain_at shapes.now id }
{
    match shapes.get(id) {
        Some(shape) => is_plain(shape),
        None => false,
    }
}

/// Whether a shape is plainly a struct: in a document its fields are all that it has.
fn is_plain(shape: &Shape) -> bool
    ensures { result ≡ candidates.is_plain shape.now }
{
    shape.inner.is_none()
        && shape.proxy.is_none()
        && !shape.metadata_container
        && is_struct_without_flattened(&shape.kind)
}

/// Whether a kind is a struct of which no field is flattened.
fn is_struct_without_flattened(kind: &ShapeKind) -> bool
    ensures { result ≡ candidates.is_struct_without_flattened kind.now }
{
    match kind {
        ShapeKind::Struct { fields, .. } => !has_flattened(fields),
        _ => false,
    }
}

/// Whether one of some fields is flattened.
fn has_flattened(fields: &[Field]) -> bool
    ensures { result ≡ candidates.has_flattened fields.now }
{
    fields.iter().any(|field| field.flattened)
}

/// The shape of a resolution at a path.
fn shape_at_path(shapes: &Shapes, path: &[&str], resolution: &Resolution<'_>) -> Option<ShapeId>
    ensures { result ≡ at_path.shape_at_path shapes.now (names_of path.now) resolution.now }
{
    let (first, below) = path.split_first()?;
    let mut shape = resolution.field_by_name(first)?.value_shape;
    for name in below {
        shape = shape_of_member(shapes, name, shape)?;
    }
    Some(shape)
}

/// Where a shape is a struct: the shape of its first field that goes by a name.
fn shape_of_member(shapes: &Shapes, name: &str, id: ShapeId) -> Option<ShapeId>
    ensures { result ≡ at_path.shape_of_member shapes.now name.now id }
{
    match &shapes.get(id)?.kind {
        ShapeKind::Struct { fields, .. } => shape_of_field(name, fields),
        _ => None,
    }
}

/// The shape of the first field that goes by a name.
fn shape_of_field(name: &str, fields: &[Field]) -> Option<ShapeId>
    ensures { result ≡ at_path.shape_of_field name.now fields.now }
{
    let field = fields.iter().find(|field| field.effective_name() == name)?;
    Some(field.shape)
}
