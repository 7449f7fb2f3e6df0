//! Where in a type the parts of a list stand.
ghost use Rattle.std.specs.Prelude.{◌≡◌, IfOk};
ghost use Rattle.std.specs.Option.{option_copied};
ghost use Rattle.facet_solver_shape.specs.Catalogues.{kind_at};
ghost use Rattle.facet_solver_shape.specs.Representation.{repr_view};
ghost use Rattle.facet_solver_reader.specs.FieldPlaces as spec;
ghost use Rattle.facet_solver_reader.specs.FieldPlaces.{field_of_branch, fields_of_kind};
ghost use Rattle.facet_solver_reader.specs.FieldPlaces.{fields_of_variant};
ghost use Rattle.facet_solver_reader.specs.Steps.{place_below};
ghost use Rattle.facet_solver_reader.specs.Views.{list_view};

use crate::part::ListId;
use crate::parts::repr_at;
use crate::variants::variant_at;
use facet_solver_shape::{EnumRepr, Field, FieldPath, ShapeId, ShapeKind, Shapes};
use std::alloc::{AllocError, Global};

/// The fields of the struct at an index; of any other shape there are none.
fn fields_of_struct(shapes: &Shapes, id: ShapeId) -> &[Field]
    ensures { result.now ≡ fields_of_kind (kind_at shapes.now id) }
{
    match shapes.get(id) {
        Some(shape) => fields_of_kind(&shape.kind),
        None => &[],
    }
}

/// The fields of a kind of shape.
fn fields_of_kind(kind: &ShapeKind) -> &[Field]
    ensures { result.now ≡ fields_of_kind kind.now }
{
    match kind {
        ShapeKind::Struct { fields, .. } => fields,
        _ => &[],
    }
}

/// The fields of a variant of an enum, by its index.
fn fields_of_variant(shapes: &Shapes, id: ShapeId, k: usize) -> &[Field]
    ensures { result.now ≡ fields_of_variant shapes.now id k }
{
    match variant_at(shapes, id, k) {
        Some(variant) => &variant.fields,
        None => &[],
    }
}

/// The field that a part of a branch is, by the representation of the enum.
fn field_of_branch<'c>(repr: EnumRepr<'_>, fields: &'c [Field], index: usize) -> Option<&'c Field>
    ensures { option_copied result ≡ field_of_branch (repr_view repr.entry) fields.now index }
{
    match repr {
        EnumRepr::Flattened => fields.get(index),
        EnumRepr::InternallyTagged { .. } => match index {
            0 => None,
            _ => fields.get(index - 1),
        },
        EnumRepr::ExternallyTagged | EnumRepr::AdjacentlyTagged { .. } => None,
    }
}

/// The field that a part of a list is, if it is one.
fn field_at(shapes: &Shapes, list: ListId, index: usize) -> Option<&Field>
    ensures { option_copied result ≡ spec.field_at shapes.now (list_view list) index }
{
    match list {
        ListId::Struct(id) => fields_of_struct(shapes, id).get(index),
        ListId::Enum(_) | ListId::Joined(_) => None,
        ListId::Branch(id, k) => {
            field_of_branch(repr_at(shapes, id), fields_of_variant(shapes, id, k), index)
        }
        ListId::Fields(id, k) => fields_of_variant(shapes, id, k).get(index),
    }
}

/// The name of the field that a part of a list is; empty if it is none.
pub(crate) fn field_name(shapes: &Shapes, list: ListId, index: usize) -> &str
    ensures { result.now ≡ spec.field_name shapes.now (list_view list) index }
{
    match field_at(shapes, list, index) {
        Some(field) => field.name.as_str(),
        None => "",
    }
}

/// The path of a part of a list that stands at a place: behind the field that it is.
pub(crate) fn path_at<'c>(
    alloc: Global,
    shapes: &'c Shapes,
    place: &FieldPath<'c>,
    list: ListId,
    index: usize,
) -> Result<FieldPath<'c>, AllocError>
    ensures { IfOk result
        (λ path. path ≡ spec.path_at shapes.now place.now (list_view list) index) }
{
    match field_at(shapes, list, index) {
        Some(field) => place.push_field(alloc, field.name.as_str()),
        None => Ok(FieldPath::from(Vec::from_slice(alloc, place.segments())?)),
    }
}

/// Where the parts of a list stand in the type that it is of: those of a variant stand behind the
/// variant.
fn place_of<'c>(
    alloc: Global,
    shapes: &'c Shapes,
    list: ListId,
) -> Result<FieldPath<'c>, AllocError>
    ensures { IfOk result (λ place. place ≡ spec.place_of shapes.now (list_view list)) }
{
    let root = FieldPath::empty(alloc);
    match list {
        ListId::Branch(id, k) | ListId::Fields(id, k) => {
            root.push_variant(alloc, "", variant_name(shapes, id, k))
        }
        ListId::Struct(_) | ListId::Enum(_) | ListId::Joined(_) => Ok(root),
    }
}

/// The path of a part of a list, from the type that the list is of.
pub(crate) fn path_of_part<'c>(
    alloc: Global,
    shapes: &'c Shapes,
    list: &ListId,
    index: usize,
) -> Result<FieldPath<'c>, AllocError>
    ensures { IfOk result
        (λ path. path ≡ spec.path_of_part shapes.now (list_view list.now) index) }
{
    let place = place_of(alloc, shapes, *list)?;
    path_at(alloc, shapes, &place, *list, index)
}

/// Where the parts of a branch stand that is chosen at the path of a field: those of a variant
/// behind it.
pub(crate) fn place_below<'c>(
    alloc: Global,
    shapes: &'c Shapes,
    path: &FieldPath<'c>,
    field: &'c str,
    branch: ListId,
) -> Result<FieldPath<'c>, AllocError>
    ensures { IfOk result
        (λ place. place ≡ place_below shapes.now path.now field.now (list_view branch)) }
{
    match branch {
        ListId::Branch(id, k) => path.push_variant(alloc, field, variant_name(shapes, id, k)),
        _ => Ok(FieldPath::from(Vec::from_slice(alloc, path.segments())?)),
    }
}

/// The name of a variant of an enum, by its index; empty if there is none.
pub(crate) fn variant_name(shapes: &Shapes, id: ShapeId, k: usize) -> &str
    ensures { result.now ≡ spec.variant_name shapes.now id k }
{
    match variant_at(shapes, id, k) {
        Some(variant) => variant.name.as_str(),
        None => "",
    }
}

/// The name of the shape at an index; empty if there is none.
pub(crate) fn shape_name(shapes: &Shapes, id: ShapeId) -> &str
    ensures { result.now ≡ spec.shape_name shapes.now id }
{
    match shapes.get(id) {
        Some(shape) => shape.type_identifier.as_str(),
        None => "",
    }
}
