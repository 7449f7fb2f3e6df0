//! An untagged reader: from what a value is to the variants of an enum that it may be.
ghost use Rattle.std.specs.Prelude.{◌≡◌, IfOk, filter};
ghost use Rattle.std.specs.Option.{option_map};
ghost use Rattle.facet_solver.specs.Groups.{variants_at, variants_view};
ghost use Rattle.facet_solver_uses.specs.Reached.{ReachesEveryEnd};
ghost use Rattle.facet_solver_uses.specs.Untagged.{AreVariantsFor, IsByScore, have_no_fields, is_container, may_be, may_be_enum, may_be_fields, may_be_kind, may_be_newtype, may_be_scalar, may_be_shape, variant_score};
ghost use Rattle.facet_solver_uses.specs.ValueKinds.{is_scalar};

mod reached;

use facet_solver::{
    ScalarType, Shape, ShapeId, ShapeKind, Shapes, StructKind, Variant, specificity_score,
};
use reached::{newtype_field, reached_by_field};
use std::alloc::{AllocError, Global};

/// What a value is, as a reader comes upon it.
#[derive(Clone, Copy, PartialEq, Eq, Debug)]
pub enum ValueKind {
    /// No value.
    Null,
    /// A truth value.
    Bool,
    /// A number that is written without a fraction.
    WholeNumber,
    /// Any other number.
    OtherNumber,
    /// A text.
    Text,
    /// A list of so many items.
    List(usize),
    /// An object: keys with values.
    Object,
}

/// The variants of an untagged enum that a value may be; `None` where the shape is no enum.
///
/// A variant is left out only where the value surely is no value of it:
///
/// - a unit variant is null, one with named fields an object, and one with fields by position, but
///   not exactly one, a list of so many items;
/// - a variant with one field by position is what is reached from the field's shape: a metadata
///   container counts as the value that it contains, and then `inner`, or else `proxy`, or else a
///   pointer is followed, from shape to shape.
///
/// What is reached says which values it may be:
///
/// - a scalar is a truth value, a number or a text, as its type says, and a whole number may be a
///   float too. `()`, any other basic type as a date, and an enum without fields may be anything
///   but a list and an object;
/// - a tuple of n fields is a list of n, and a sequence is a list of any length;
/// - a struct with named fields or a map is an object;
/// - anything else may be any value: a struct without fields, an option, an enum with fields, an
///   opaque pointer, a dynamic value, a metadata container that stands behind a pointer or in
///   another one. So may a field from which nothing is reached, since the way goes in a circle.
///
/// They stand in the order in which the enum declares them. Those for a number stand by score, the
/// least first, and those of one score in the order of declaration. The score is that of the scalar
/// that is reached, and 1000 for what is no scalar. So a `Box<u8>` and a transparent `Id(u8)` count
/// as `u8`. Whether a number is in the range of its type is for the reader to see.
///
/// The only error is out of memory. For each variant a way has no more shapes than there are.
#[tactic(auto, using(crate::proofs::Reached::reaches_every_end))]
pub fn variants_for<'c>(
    alloc: Global,
    shapes: &'c Shapes,
    id: ShapeId,
    value: ValueKind,
) -> Result<Option<Vec<&'c Variant>>, AllocError>
    ensures found { IfOk result (λ found. AreVariantsFor
        shapes.now value (variants_at shapes.now id)
        (option_map (λ list. variants_view list.items) found)) }
    ensures ends { ReachesEveryEnd shapes.now }
{
    let Some(variants) = variants_at(shapes, id) else {
        return Ok(None);
    };
    let found = fitting(alloc, shapes, variants, value)?;
    match value {
        ValueKind::WholeNumber | ValueKind::OtherNumber => Ok(Some(by_score(shapes, found)?)),
        _ => Ok(Some(found)),
    }
}

/// The variants of an enum, as declared; `None` for any other shape.
fn variants_at(shapes: &Shapes, id: ShapeId) -> Option<&[Variant]>
    ensures { option_map (λ variants. variants.now) result ≡ variants_at shapes.now id }
{
    match &shapes.get(id)?.kind {
        ShapeKind::Enum { variants } => Some(variants),
        _ => None,
    }
}

/// The variants that a value may be, in order.
fn fitting<'c>(
    alloc: Global,
    shapes: &Shapes,
    variants: &'c [Variant],
    value: ValueKind,
) -> Result<Vec<&'c Variant>, AllocError>
    ensures { IfOk result (λ found.
        variants_view found.items ≡ filter (may_be shapes.now value) variants.now) }
{
    let mut found = Vec::new(alloc);
    for variant in variants {
        if may_be(shapes, variant, value) {
            found.push(variant)?;
        }
    }
    Ok(found)
}

/// Whether a value may be a variant.
fn may_be(shapes: &Shapes, variant: &Variant, value: ValueKind) -> bool
    ensures { result ≡ may_be shapes.now value variant.now }
{
    match newtype_field(variant) {
        Some(field) => may_be_newtype(shapes, field, value),
        None => may_be_fields(variant.kind, variant.fields.len(), value),
    }
}

/// Whether a value may be of a newtype's field: any may be where no shape is reached.
fn may_be_newtype(shapes: &Shapes, field: ShapeId, value: ValueKind) -> bool
    ensures { result ≡ may_be_newtype shapes.now value field }
{
    match reached_by_field(shapes, field) {
        Some(shape) => may_be_shape(shape, value),
        None => true,
    }
}

/// Whether a value may be of a shape that is reached: any may be of a metadata container.
fn may_be_shape(shape: &Shape, value: ValueKind) -> bool
    ensures { result ≡ may_be_shape value shape.now }
{
    is_container(shape) || may_be_kind(&shape.kind, value)
}

/// Whether a shape is a struct that is marked as a metadata container.
fn is_container(shape: &Shape) -> bool
    ensures { result ≡ is_container shape.now }
{
    shape.metadata_container && matches!(shape.kind, ShapeKind::Struct { .. })
}

/// Whether a value may be of a kind: any may be of a struct without fields, and of a kind that does
/// not tell, as an option or an opaque pointer.
fn may_be_kind(kind: &ShapeKind, value: ValueKind) -> bool
    ensures { result ≡ may_be_kind value kind.now }
{
    match kind {
        ShapeKind::Scalar(scalar) => may_be_scalar(*scalar, value),
        ShapeKind::Enum { variants } => may_be_enum(variants, value),
        ShapeKind::Struct {
            kind: StructKind::Unit,
            ..
        } => true,
        ShapeKind::Struct { kind, fields } => may_be_fields(*kind, fields.len(), value),
        ShapeKind::Map(..) => matches!(value, ValueKind::Object),
        ShapeKind::List(_) | ShapeKind::Array(_) | ShapeKind::Slice(_) | ShapeKind::Set(_) => {
            matches!(value, ValueKind::List(_))
        }
        ShapeKind::Option(_) | ShapeKind::Pointer(_) | ShapeKind::DynamicValue | ShapeKind::Other =>
            true,
    }
}

/// Whether a value may be of a basic type; `()`, and one that is no number and no text, may be any
/// but a list and an object.
fn may_be_scalar(scalar: ScalarType, value: ValueKind) -> bool
    ensures { result ≡ may_be_scalar value scalar }
{
    match scalar {
        ScalarType::Bool => matches!(value, ValueKind::Bool),
        ScalarType::Char | ScalarType::Str | ScalarType::String | ScalarType::CowStr => {
            matches!(value, ValueKind::Text)
        }
        ScalarType::F32 | ScalarType::F64 => {
            matches!(value, ValueKind::WholeNumber | ValueKind::OtherNumber)
        }
        ScalarType::Unit | ScalarType::Other => is_scalar(value),
        _ => matches!(value, ValueKind::WholeNumber),
    }
}

/// Whether a value may be of an enum: any but a list and an object, and where a variant has a field
/// any value.
fn may_be_enum(variants: &[Variant], value: ValueKind) -> bool
    ensures { result ≡ may_be_enum value variants.now }
{
    is_scalar(value) || !have_no_fields(variants)
}

/// Whether none of the variants has a field.
fn have_no_fields(variants: &[Variant]) -> bool
    ensures { result ≡ have_no_fields variants.now }
{
    variants.iter().all(|v| v.fields.is_empty())
}

/// Whether a value may be so many fields, by how they are written: none, by name, or by position.
fn may_be_fields(kind: StructKind, count: usize, value: ValueKind) -> bool
    ensures { result ≡ may_be_fields value kind count }
{
    match kind {
        StructKind::Unit => matches!(value, ValueKind::Null),
        StructKind::Struct => matches!(value, ValueKind::Object),
        StructKind::TupleStruct | StructKind::Tuple => {
            matches!(value, ValueKind::List(items) if items == count)
        }
    }
}

/// Whether a value is neither a list nor an object.
fn is_scalar(value: ValueKind) -> bool
    ensures { result ≡ is_scalar value }
{
    !matches!(value, ValueKind::List(_) | ValueKind::Object)
}

/// The same variants by their scores, the least first, and those of one score in their order.
fn by_score<'c>(
    shapes: &Shapes,
    mut variants: Vec<&'c Variant>,
) -> Result<Vec<&'c Variant>, AllocError>
    ensures { IfOk result (λ found. IsByScore
        shapes.now (variants_view variants.entry.items) (variants_view found.items)) }
{
    variants.sort_by_key(|variant| variant_score(shapes, variant))?;
    Ok(variants)
}

/// The score of what is no scalar.
const NO_SCALAR: u64 = 1000;

/// The score of the scalar that a newtype reaches.
fn variant_score(shapes: &Shapes, variant: &Variant) -> u64
    ensures { result ≡ variant_score shapes.now variant.now }
{
    let field = newtype_field(variant);
    match field.and_then(|field| reached_by_field(shapes, field)) {
        Some(shape) if shape.scalar_type().is_some() => specificity_score(shape),
        _ => NO_SCALAR,
    }
}
