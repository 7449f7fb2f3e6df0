//! Which variants of untagged enums join, by a table of the enums whose variants all do.
ghost use Rattle.std.specs.Prelude.{◌≡◌};
ghost use Rattle.facet_solver_reader.specs.JoinTables.{says};
ghost use Rattle.facet_solver_reader.specs.Types.{is_by_names, joins_at, joins_by_shape, joins_where};

use crate::content::newtype_shape;
use crate::ends::last_of;
use facet_solver_shape::{
    EnumRepr, Shape, ShapeId, ShapeKind, Shapes, StructKind, Variant, is_metadata_container,
};

/// Whether a variant joins, by a table of the shapes whose variants all do.
pub(crate) fn joins_where(table: &[bool], shapes: &Shapes, variant: &Variant) -> bool
    ensures { result ≡ joins_where (says table.now) shapes.now variant.now }
{
    match newtype_shape(&variant.fields) {
        Some(id) => joins_at(table, shapes, last_of(shapes, id)),
        None => is_by_names(variant),
    }
}

/// Whether a variant joins whose single field ends in the shape at an index.
fn joins_at(table: &[bool], shapes: &Shapes, id: ShapeId) -> bool
    ensures { result ≡ joins_at (says table.now) shapes.now id }
{
    match shapes.get(id) {
        Some(shape) => joins_by_shape(says(table, id), shape),
        None => false,
    }
}

/// Whether a variant joins whose single field ends in a shape, by whether all variants of that do.
/// A metadata container is no object by parts.
fn joins_by_shape(all_join: bool, shape: &Shape) -> bool
    ensures { result ≡ joins_by_shape all_join shape.now shape.now.kind }
{
    match &shape.kind {
        ShapeKind::Struct { kind, .. } => {
            !is_metadata_container(shape) && *kind == StructKind::Struct
        }
        ShapeKind::Enum { .. } => match EnumRepr::from_shape(shape) {
            EnumRepr::Flattened => all_join,
            EnumRepr::ExternallyTagged => false,
            EnumRepr::InternallyTagged { .. } | EnumRepr::AdjacentlyTagged { .. } => true,
        },
        _ => false,
    }
}

/// Whether a variant is written with names: by its kind, or since it has fields where its kind says
/// that it has none.
fn is_by_names(variant: &Variant) -> bool
    ensures { result ≡ is_by_names variant.now }
{
    match variant.kind {
        StructKind::Struct => true,
        StructKind::Unit => !variant.fields.is_empty(),
        StructKind::Tuple | StructKind::TupleStruct => false,
    }
}

/// What a table says of a shape.
fn says(table: &[bool], id: ShapeId) -> bool
    ensures { result ≡ says table.now id }
{
    table.get(id.index()).copied().unwrap_or(true)
}
