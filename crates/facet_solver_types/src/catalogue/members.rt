//! Fields and variants. Types stand in them by the places of their ids.
ghost use Rattle.std.specs.Prelude.{◌≡◌, IfOk, map};
ghost use Rattle.std.specs.String.{string_bytes};
ghost use Rattle.facet_solver_shape.specs.Names.{optional_name};
ghost use Rattle.facet_solver_types.specs.Links.{names_view};
ghost use Rattle.facet_solver_types.specs.MadeShapes.{field_of, fields_of, tuple_field, tuple_fields, variant_of, variants_of};
ghost use Rattle.facet_solver_types.specs.PlacedNames.{names_in};
ghost use Rattle.facet_solver_types.specs.ShapeViews as shapes;
ghost use Rattle.facet_solver_types.specs.Understood.{field_view, variant_view};

use crate::declaration::{DeclaredField, DeclaredVariant};
use crate::name_places::NamePlaces;
use facet_solver_shape::{Field, ShapeId, Variant};
use std::alloc::{AllocError, Global};

/// A copy of a name that may be absent.
pub(super) fn copied(name: &Option<String>) -> Result<Option<String>, AllocError>
    ensures { IfOk result (λ copy. optional_name copy ≡ optional_name name.now) }
{
    match name {
        Some(name) => Ok(Some(name.clone()?)),
        None => Ok(None),
    }
}

/// A field of this type.
fn field_of(
    ids: &NamePlaces<'_>,
    field: &DeclaredField<'_, '_>,
    id: &str,
) -> Result<Field, AllocError>
    ensures { IfOk result (λ made. shapes.field_view made
        ≡ field_of (names_in ids.now) (field_view field.now) id.now) }
{
    Ok(Field {
        name: field.name.clone()?,
        rename: copied(&field.rename)?,
        shape: ShapeId::new(ids.place_in(id)),
        flattened: field.flattened.is_some(),
        has_default: field.has_default,
        metadata: field.metadata,
        dom: field.dom,
    })
}

/// Fields of these types.
pub(super) fn fields_of(
    alloc: Global,
    ids: &NamePlaces<'_>,
    fields: &[DeclaredField<'_, '_>],
    types: &[String],
) -> Result<Vec<Field>, AllocError>
    ensures { IfOk result (λ made. map shapes.field_view made.items
        ≡ fields_of (names_in ids.now) (map field_view fields.now) (map string_bytes types.now)) }
{
    let mut made = Vec::new(alloc);
    for (field, id) in fields.iter().zip(types) {
        made.push(field_of(ids, field, id.as_str())?)?;
    }
    Ok(made)
}

/// A variant whose fields have these types.
fn variant_of(
    alloc: Global,
    ids: &NamePlaces<'_>,
    variant: &DeclaredVariant<'_, '_>,
    types: &[String],
) -> Result<Variant, AllocError>
    ensures { IfOk result (λ made. shapes.variant_view made
        ≡ variant_of (names_in ids.now) (variant_view variant.now) (map string_bytes types.now)) }
{
    let fields = fields_of(alloc, ids, &variant.fields, types)?;
    Ok(Variant::new(variant.name.clone()?, variant.kind, fields))
}

/// Variants whose fields have these types.
pub(super) fn variants_of(
    alloc: Global,
    ids: &NamePlaces<'_>,
    variants: &[DeclaredVariant<'_, '_>],
    types: &[Vec<String>],
) -> Result<Vec<Variant>, AllocError>
    ensures { IfOk result (λ made. map shapes.variant_view made.items
        ≡ variants_of (names_in ids.now) (map variant_view variants.now) (names_view types.now)) }
{
    let mut made = Vec::new(alloc);
    for (variant, own) in variants.iter().zip(types) {
        made.push(variant_of(alloc, ids, variant, own)?)?;
    }
    Ok(made)
}

/// A field of a tuple: its number, and its type.
fn tuple_field(
    alloc: Global,
    ids: &NamePlaces<'_>,
    number: usize,
    id: &str,
) -> Result<Field, AllocError>
    ensures { IfOk result (λ made. shapes.field_view made
        ≡ tuple_field (names_in ids.now) number id.now) }
{
    let name = format!(in alloc; "{number}")?;
    Ok(Field::new(name, ShapeId::new(ids.place_in(id))))
}

/// The fields of a tuple of these types.
pub(super) fn tuple_fields(
    alloc: Global,
    ids: &NamePlaces<'_>,
    types: &[String],
) -> Result<Vec<Field>, AllocError>
    ensures { IfOk result (λ made. map shapes.field_view made.items
        ≡ tuple_fields (names_in ids.now) 0 (map string_bytes types.now)) }
{
    let mut made = Vec::new(alloc);
    for (number, id) in types.iter().enumerate() {
        made.push(tuple_field(alloc, ids, number, id.as_str())?)?;
    }
    Ok(made)
}
