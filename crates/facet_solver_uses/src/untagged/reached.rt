//! What a newtype stands for: the shape that is reached from its field.
ghost use Rattle.std.specs.Prelude.{◌≡◌, find, not};
ghost use Rattle.std.specs.Option.{option_copied, option_map};
ghost use Rattle.facet_solver.specs.Formats.{contained_shape, value_shape};
ghost use Rattle.facet_solver.specs.Pointers.{pointee_of_kind};
ghost use Rattle.facet_solver_uses.specs.Reached.{newtype_field, next_of, only_shape, reached, reached_by_field};

use facet_solver::{Field, Shape, ShapeId, ShapeKind, Shapes, StructKind, Variant};

/// The shape of a newtype's field: a newtype is a variant with one field, which has no name.
pub(super) fn newtype_field(variant: &Variant) -> Option<ShapeId>
    ensures { result ≡ newtype_field variant.now }
{
    match variant.kind {
        StructKind::TupleStruct | StructKind::Tuple => only_shape(&variant.fields),
        StructKind::Unit | StructKind::Struct => None,
    }
}

/// The shape of the only field.
fn only_shape(fields: &[Field]) -> Option<ShapeId>
    ensures { result ≡ only_shape fields.now }
{
    match fields {
        [field] => Some(field.shape),
        _ => None,
    }
}

/// What is reached from a field's shape, a metadata container being the value that it contains.
pub(super) fn reached_by_field(shapes: &Shapes, field: ShapeId) -> Option<&Shape>
    ensures { option_copied result ≡ reached_by_field shapes.now field }
{
    reached(shapes, value_shape(shapes, field))
}

/// The shape that is reached from an index and leads nowhere; `None` where the way has no end. A
/// way that ends has no shape twice, so it is no longer than the list.
fn reached(shapes: &Shapes, start: ShapeId) -> Option<&Shape>
    ensures { option_copied result ≡ reached shapes.now start }
{
    let mut id = start;
    for _ in 0..shapes.len() {
        let shape = shapes.get(id)?;
        match next_of(shape) {
            Some(next) => id = next,
            None => return Some(shape),
        }
    }
    None
}

/// Where a shape leads to: to `inner`, or else to `proxy`, or else to the shape that it points to.
fn next_of(shape: &Shape) -> Option<ShapeId>
    ensures { result ≡ next_of shape.now }
{
    shape.inner.or(shape.proxy).or(pointee(&shape.kind))
}

/// Where a pointer leads to.
fn pointee(kind: &ShapeKind) -> Option<ShapeId>
    ensures { result ≡ pointee_of_kind kind.now }
{
    match kind {
        ShapeKind::Pointer(pointee) => *pointee,
        _ => None,
    }
}

/// The shape that a shape stands for: what a metadata container contains, else itself.
fn value_shape(shapes: &Shapes, id: ShapeId) -> ShapeId
    ensures { result ≡ value_shape shapes.now id }
{
    shapes.get(id).and_then(contained_shape).unwrap_or(id)
}

/// What a metadata container contains: the shape of its first field that is not metadata.
fn contained_shape(shape: &Shape) -> Option<ShapeId>
    ensures { result ≡ contained_shape shape.now }
{
    match &shape.kind {
        ShapeKind::Struct { fields, .. } if shape.metadata_container => first_plain_shape(fields),
        _ => None,
    }
}

/// The shape of the first field that is not metadata.
fn first_plain_shape(fields: &[Field]) -> Option<ShapeId>
    ensures { result ≡ option_map (λ f. f.shape) (find (λ f. not f.metadata) fields.now) }
{
    fields.iter().find(|f| !f.metadata).map(|f| f.shape)
}
