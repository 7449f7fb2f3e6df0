//! Structs that are one value with metadata beside it.
ghost use Rattle.std.specs.Prelude.{◌≡◌};
ghost use Rattle.facet_solver_shape.specs.Metadata as metadata;

use crate::shape::{Field, Shape, ShapeKind};

/// Whether a shape is a metadata container: it is marked as one, and has a field that is no
/// metadata.
pub fn is_metadata_container(shape: &Shape) -> bool
    ensures { result ≡ metadata.is_metadata_container shape.now }
{
    match &shape.kind {
        ShapeKind::Struct { fields, .. } => shape.metadata_container && has_plain_field(fields),
        _ => false,
    }
}

/// Whether one of the fields is no metadata.
fn has_plain_field(fields: &[Field]) -> bool
    ensures { result ≡ metadata.has_plain_field fields.now }
{
    fields.iter().any(|field| !field.metadata)
}
