//! What shapes come to.
ghost use Rattle.std.specs.Prelude.{◌≡◌, map, IfOk, zero};
ghost use Rattle.std.specs.Option.{option_copied};
ghost use Rattle.facet_solver_reader.specs.Types as spec;
ghost use Rattle.facet_solver_reader.specs.Views.{end_view, named_view};
ghost use Rattle.facet_solver_shape.specs.Representation.{repr_view};

use super::alternatives::alternatives;
use super::{End, NamedVariant, end_of_scalar};
use crate::content::{field_indices, is_unit};
use crate::ends::last_of;
use crate::part::{ListId, Target};
use crate::types::Types;
use facet_solver_shape::{
    EnumRepr, Field, Shape, ShapeId, ShapeKind, StructKind, Variant, is_metadata_container,
};
use std::alloc::{AllocError, Global};

/// What the shape at an index comes to.
pub(crate) fn end_of<'c>(
    alloc: Global,
    types: &Types<'c>,
    id: ShapeId,
) -> Result<End<'c>, AllocError>
    ensures { IfOk result (λ e. end_view e ≡ spec.end_of types.now id) }
{
    let shapes = types.shapes();
    let last = last_of(shapes, id);
    match shapes.get(last) {
        Some(shape) if !is_metadata_container(shape) => end_of_kind(alloc, types, last, shape),
        _ => Ok(End::Anything),
    }
}

/// What the shape at an index comes to that leads nowhere and is no metadata container.
fn end_of_kind<'c>(
    alloc: Global,
    types: &Types<'c>,
    id: ShapeId,
    shape: &'c Shape,
) -> Result<End<'c>, AllocError>
    ensures { IfOk result (λ e. let s = shape.now in
        end_view e ≡ spec.end_of_kind types.now id s s.kind) }
{
    match &shape.kind {
        ShapeKind::Scalar(scalar) => Ok(end_of_scalar(*scalar)),
        ShapeKind::Struct { kind, fields } => end_of_struct(alloc, id, *kind, fields),
        ShapeKind::Enum { variants } => {
            end_of_enum(alloc, types, id, EnumRepr::from_shape(shape), variants)
        }
        ShapeKind::Option(inside) => Ok(End::Option(*inside)),
        ShapeKind::List(item)
        | ShapeKind::Array(item)
        | ShapeKind::Slice(item)
        | ShapeKind::Set(item) => Ok(End::List(*item)),
        ShapeKind::Map(key, value) => Ok(End::Map(*key, *value)),
        ShapeKind::Pointer(_) | ShapeKind::DynamicValue | ShapeKind::Other => Ok(End::Anything),
    }
}

/// What the struct at an index comes to.
fn end_of_struct<'c>(
    alloc: Global,
    id: ShapeId,
    kind: StructKind,
    fields: &[Field],
) -> Result<End<'c>, AllocError>
    ensures { IfOk result (λ e. end_view e ≡ spec.end_of_struct id kind fields.now) }
{
    match kind {
        StructKind::Unit => Ok(End::Null),
        StructKind::Struct => Ok(End::Object(ListId::Struct(id))),
        StructKind::Tuple | StructKind::TupleStruct => {
            Ok(End::Tuple(field_indices(alloc, fields)?))
        }
    }
}

/// What the enum at an index comes to, by its representation.
fn end_of_enum<'c>(
    alloc: Global,
    types: &Types<'c>,
    id: ShapeId,
    repr: EnumRepr<'_>,
    variants: &'c [Variant],
) -> Result<End<'c>, AllocError>
    ensures { IfOk result (λ e.
        end_view e ≡ spec.end_of_enum types.now id (repr_view repr.entry) variants.now) }
{
    match repr {
        EnumRepr::Flattened => Ok(End::UntaggedVariant(
            ListId::Joined(id),
            alternatives(alloc, types, id, variants)?,
        )),
        EnumRepr::ExternallyTagged => {
            Ok(End::NamedVariant(named_variants(alloc, id, variants)?))
        }
        EnumRepr::InternallyTagged { .. } | EnumRepr::AdjacentlyTagged { .. } => {
            Ok(End::Object(ListId::Enum(id)))
        }
    }
}

/// The variants of the enum at an index that a document names, in their order.
fn named_variants<'c>(
    alloc: Global,
    id: ShapeId,
    variants: &'c [Variant],
) -> Result<Vec<NamedVariant<'c>>, AllocError>
    ensures { IfOk result (λ named. map named_view named.items
        ≡ spec.named_from id zero variants.now) }
{
    let mut named = Vec::new(alloc);
    for (k, variant) in variants.iter().enumerate() {
        let variant = named_variant(id, k, variant);
        if named.push(variant).is_err() {
            return Err(AllocError);
        }
    }
    Ok(named)
}

/// The variant at an index of the enum at another, as a document names it.
fn named_variant<'c>(id: ShapeId, k: usize, variant: &'c Variant) -> NamedVariant<'c>
    ensures { named_view result ≡ spec.named_variant id k variant.now }
{
    NamedVariant {
        name: variant.name.as_str(),
        is_unit: is_unit(variant),
        content: Target::Content(id, k),
    }
}
