//! The content of a variant that stands by itself.
ghost use Rattle.std.specs.Prelude.{◌≡◌, IfOk};
ghost use Rattle.facet_solver_shape.specs.Catalogues.{field_indices};
ghost use Rattle.facet_solver_reader.specs.Content as content;
ghost use Rattle.facet_solver_reader.specs.Content.{newtype_shape, is_unit};
ghost use Rattle.facet_solver_reader.specs.Types.{content_at};
ghost use Rattle.facet_solver_reader.specs.Views.{content_view};

use crate::end::Content;
use crate::part::ListId;
use crate::variants::variant_at;
use facet_solver_shape::{Field, ShapeId, Shapes, StructKind, Variant};
use std::alloc::{AllocError, Global};

/// The shape of a single field `0`.
pub(crate) fn newtype_shape(fields: &[Field]) -> Option<ShapeId>
    ensures { result ≡ newtype_shape fields.now }
{
    match fields {
        [field] if field.name.as_str() == "0" => Some(field.shape),
        _ => None,
    }
}

/// Whether a variant has no content to tell: it has no fields, and is not written with names.
pub(crate) fn is_unit(variant: &Variant) -> bool
    ensures { result ≡ is_unit variant.now }
{
    match variant.kind {
        StructKind::Struct => false,
        StructKind::Unit | StructKind::Tuple | StructKind::TupleStruct => {
            variant.fields.is_empty()
        }
    }
}

/// The content of a variant of an enum, by its index. Where there is none, it is none.
pub(crate) fn content_at(
    alloc: Global,
    shapes: &Shapes,
    id: ShapeId,
    k: usize,
) -> Result<Content, AllocError>
    ensures { IfOk result (λ c. content_view c ≡ content_at shapes.now id k) }
{
    match variant_at(shapes, id, k) {
        Some(variant) => content_of(alloc, id, k, variant),
        None => Ok(Content::None),
    }
}

/// The content of a variant, which stands at an index of an enum.
fn content_of(
    alloc: Global,
    id: ShapeId,
    k: usize,
    variant: &Variant,
) -> Result<Content, AllocError>
    ensures { IfOk result (λ c. content_view c ≡ content.content_of id k variant.now) }
{
    match newtype_shape(&variant.fields) {
        Some(shape) => Ok(Content::Shape(shape)),
        None => content_by_kind(alloc, id, k, variant.kind, &variant.fields),
    }
}

/// The content of a variant of a kind and fields that are no single field `0`.
fn content_by_kind(
    alloc: Global,
    id: ShapeId,
    k: usize,
    kind: StructKind,
    fields: &[Field],
) -> Result<Content, AllocError>
    ensures { IfOk result (λ c. content_view c ≡ content.content_by_kind id k kind fields.now) }
{
    match (kind, fields) {
        (StructKind::Struct, _) => Ok(Content::Object(ListId::Fields(id, k))),
        (_, []) => Ok(Content::None),
        (StructKind::Unit, _) => Ok(Content::Object(ListId::Fields(id, k))),
        (StructKind::Tuple | StructKind::TupleStruct, _) => {
            Ok(Content::Tuple(field_indices(alloc, fields)?))
        }
    }
}

/// The shapes of fields.
pub(crate) fn field_indices(alloc: Global, fields: &[Field]) -> Result<Vec<ShapeId>, AllocError>
    ensures { IfOk result (λ ids. ids.items ≡ field_indices fields.now) }
{
    fields.iter().map(|field| field.shape).collect(alloc)
}
