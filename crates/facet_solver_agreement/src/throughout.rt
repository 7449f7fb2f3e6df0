//! A test of a type: whether the laws are of it.
ghost use Rattle.std.specs.Prelude.{◌≡◌, ◌↔◌, IsTrue};
ghost use Rattle.facet_solver_shape.specs.Representation.{repr_view};
ghost use Rattle.facet_solver_reader.specs.Content as content;
ghost use Rattle.facet_solver_agreement.specs.Alike as alike;
ghost use Rattle.facet_solver_agreement.specs.Alike.{IsKeptAlike};
ghost use Rattle.facet_solver_agreement.specs.Throughout as throughout;
ghost use Rattle.facet_solver_agreement.specs.Throughout.{AreShapesAlike, IsAlikeThroughout};

use facet_solver_shape::{
    EnumRepr, Field, Role, Shape, ShapeId, ShapeKind, Shapes, StructKind, Variant,
    is_metadata_container, role_of,
};

/// Whether the laws are of a root, as far as each field of the catalogue shows.
///
/// The root is a struct with named fields, which is no metadata container and has no `inner` and no
/// `proxy`. No field flattens an adjacently tagged enum. No field flattens an enum that is untagged
/// or has a tag alone, and has a variant without named content.
///
/// Where it gives `true`, the laws are of the root. Where it gives `false`, they may be so all the
/// same: the field that is at fault may be one that the walk of the root does not meet. The time is
/// that of a look at each field, and at each variant of the enum that it flattens.
pub fn is_alike_throughout(shapes: &Shapes, root: ShapeId) -> bool
    ensures value { IsTrue result ↔ IsAlikeThroughout shapes.now root }
    ensures kept { IsTrue result → IsKeptAlike shapes.now root }
{
    is_plain_root(shapes, root) && are_shapes_alike(shapes)
}

/// Whether the shape at an index is a plain struct.
fn is_plain_root(shapes: &Shapes, root: ShapeId) -> bool
    ensures { result ≡ throughout.is_plain_root shapes.now root }
{
    match shapes.get(root) {
        Some(shape) => is_plain_struct(shape),
        None => false,
    }
}

/// Whether a shape is a struct with named fields, no metadata container, and stands for no other.
fn is_plain_struct(shape: &Shape) -> bool
    ensures { result ≡ throughout.is_plain_struct shape.now }
{
    is_named_struct(&shape.kind)
        && !is_metadata_container(shape)
        && shape.inner.is_none()
        && shape.proxy.is_none()
}

/// Whether a kind is a struct with named fields.
fn is_named_struct(kind: &ShapeKind) -> bool
    ensures { result ≡ alike.is_named_struct kind.now }
{
    match kind {
        ShapeKind::Struct { kind, .. } => *kind == StructKind::Struct,
        _ => false,
    }
}

/// Whether each field of a catalogue flattens no enum but those that are taken alike.
fn are_shapes_alike(shapes: &Shapes) -> bool
    ensures { IsTrue result ↔ AreShapesAlike shapes.now }
{
    for index in 0..shapes.len() {
        if !is_shape_alike(shapes, ShapeId::new(index)) {
            return false;
        }
    }
    true
}

/// Whether each field of the shape at an index flattens no enum but those that are taken alike.
fn is_shape_alike(shapes: &Shapes, id: ShapeId) -> bool
    ensures { result ≡ throughout.is_shape_alike shapes.now id }
{
    match shapes.get(id) {
        Some(shape) => is_kind_alike(shapes, &shape.kind),
        None => true,
    }
}

/// Whether each field of a struct, or of a variant of an enum, does so.
fn is_kind_alike(shapes: &Shapes, kind: &ShapeKind) -> bool
    ensures { result ≡ throughout.is_kind_alike shapes.now kind.now }
{
    match kind {
        ShapeKind::Struct { fields, .. } => are_fields_alike(shapes, fields),
        ShapeKind::Enum { variants } => are_variants_alike(shapes, variants),
        _ => true,
    }
}

/// Whether each field of some variants does so.
fn are_variants_alike(shapes: &Shapes, variants: &[Variant]) -> bool
    ensures { result ≡ throughout.are_variants_alike shapes.now variants.now }
{
    variants
        .iter()
        .all(|variant| are_fields_alike(shapes, &variant.fields))
}

/// Whether each of some fields does so.
fn are_fields_alike(shapes: &Shapes, fields: &[Field]) -> bool
    ensures { result ≡ throughout.are_fields_alike shapes.now fields.now }
{
    fields.iter().all(|field| is_field_alike(shapes, field))
}

/// Whether a field does so.
fn is_field_alike(shapes: &Shapes, field: &Field) -> bool
    ensures { result ≡ throughout.is_field_alike shapes.now field.now }
{
    match role_of(shapes, field) {
        Role::Alternatives(_, shape, variants) => {
            is_enum_alike(shapes, EnumRepr::from_shape(shape), variants)
        }
        _ => true,
    }
}

/// Whether an enum of a representation may be flattened: it is not adjacently tagged, and its
/// variants have named content, where that stands among other members.
fn is_enum_alike(shapes: &Shapes, repr: EnumRepr, variants: &[Variant]) -> bool
    ensures { result ≡ throughout.is_enum_alike shapes.now (repr_view repr.entry) variants.now }
{
    match repr {
        EnumRepr::Flattened | EnumRepr::InternallyTagged { .. } => {
            all_have_named_content(shapes, variants)
        }
        EnumRepr::ExternallyTagged => true,
        EnumRepr::AdjacentlyTagged { .. } => false,
    }
}

/// Whether each of some variants has named content.
fn all_have_named_content(shapes: &Shapes, variants: &[Variant]) -> bool
    ensures { result ≡ throughout.all_have_named_content shapes.now variants.now }
{
    variants
        .iter()
        .all(|variant| has_named_content(shapes, variant))
}

/// Whether a variant has no fields, fields with names, or a single field `0` that stands for a
/// struct with named fields.
fn has_named_content(shapes: &Shapes, variant: &Variant) -> bool
    ensures { result ≡ alike.has_named_content shapes.now variant.now }
{
    match newtype_shape(&variant.fields) {
        Some(id) => stands_for_named_struct(shapes, id),
        None => are_named(variant.kind, &variant.fields),
    }
}

/// The shape of a single field `0`.
fn newtype_shape(fields: &[Field]) -> Option<ShapeId>
    ensures { result ≡ content.newtype_shape fields.now }
{
    match fields {
        [field] if field.name.as_str() == "0" => Some(field.shape),
        _ => None,
    }
}

/// Whether a shape comes, by `inner` and `proxy` alone, to a struct with named fields.
fn stands_for_named_struct(shapes: &Shapes, id: ShapeId) -> bool
    ensures { result ≡ alike.stands_for_named_struct shapes.now id }
{
    match shapes.get(shapes.effective(id)) {
        Some(shape) => is_named_struct(&shape.kind),
        None => false,
    }
}

/// Whether the fields of a variant have names, or there are none.
fn are_named(kind: StructKind, fields: &[Field]) -> bool
    ensures { result ≡ alike.are_named kind fields.now }
{
    match (kind, fields) {
        (_, []) => true,
        (StructKind::Tuple | StructKind::TupleStruct, _) => false,
        (StructKind::Unit | StructKind::Struct, _) => true,
    }
}
