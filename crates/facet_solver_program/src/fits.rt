//! Which values of JSON fit a shape.
ghost use Rattle.std.specs.Prelude.{◌≡◌, ◌==◌, length};
ghost use Rattle.std.specs.Str.{chars};
ghost use Rattle.serde_json.specs.View.{view};
ghost use Rattle.facet_solver_program.specs.Fits as fits;

use facet_solver::{ScalarType, ShapeId, ShapeKind, Shapes, StructKind};
use facet_solver_shape::{WholeRange, is_metadata_container};
use serde_json::{Number, Value};

/// Whether a value fits the shape at an index.
///
/// The shape is followed to its end: its effective shape, and then pointers. An option is fitted by
/// null, and by what fits the end of its inside. No item of a list and no member of an object is
/// looked at. A shape that the catalogue lacks is fitted by any value.
pub fn fits(shapes: &Shapes, id: ShapeId, value: &Value) -> bool
    ensures { result ≡ fits.fits shapes.now id (view value.now) }
{
    let end = effective_end(shapes, id);
    match inside_at(shapes, end) {
        Some(inside) => value.is_null() || fits_end(shapes, effective_end(shapes, inside), value),
        None => fits_end(shapes, end, value),
    }
}

/// The end of a shape: its effective shape, and from there pointers are followed.
fn effective_end(shapes: &Shapes, id: ShapeId) -> ShapeId
    ensures { result ≡ fits.effective_end shapes.now id }
{
    shapes.end_of(shapes.effective(id))
}

/// The inside of an option.
fn inside_at(shapes: &Shapes, id: ShapeId) -> Option<ShapeId>
    ensures { result ≡ fits.inside_at shapes.now id }
{
    match shapes.get(id)?.kind {
        ShapeKind::Option(inside) => Some(inside),
        _ => None,
    }
}

/// Whether a value fits the shape at an index, which is an end.
fn fits_end(shapes: &Shapes, end: ShapeId, value: &Value) -> bool
    ensures { result ≡ fits.fits_end shapes.now end (view value.now) }
{
    match shapes.get(end) {
        Some(shape) => is_metadata_container(shape) || fits_kind(&shape.kind, value),
        None => true,
    }
}

/// Whether a value fits a kind of shape.
fn fits_kind(kind: &ShapeKind, value: &Value) -> bool
    ensures { result ≡ fits.fits_kind kind.now (view value.now) }
{
    match kind {
        ShapeKind::Scalar(scalar) => fits_scalar(*scalar, value),
        ShapeKind::Struct { kind, .. } => fits_struct(*kind, value),
        ShapeKind::Map(..) => value.is_object(),
        ShapeKind::List(_) | ShapeKind::Array(_) | ShapeKind::Slice(_) | ShapeKind::Set(_) => {
            value.is_array()
        }
        ShapeKind::Enum { .. }
        | ShapeKind::Option(_)
        | ShapeKind::Pointer(_)
        | ShapeKind::DynamicValue
        | ShapeKind::Other => true,
    }
}

/// Whether a value fits a struct.
fn fits_struct(kind: StructKind, value: &Value) -> bool
    ensures { result ≡ fits.fits_struct kind (view value.now) }
{
    match kind {
        StructKind::Unit => value.is_null(),
        StructKind::Struct => value.is_object(),
        StructKind::TupleStruct | StructKind::Tuple => value.is_array(),
    }
}

/// Whether a value fits a basic type.
fn fits_scalar(scalar: ScalarType, value: &Value) -> bool
    ensures { result ≡ fits.fits_scalar scalar (view value.now) }
{
    match scalar {
        ScalarType::Other => true,
        ScalarType::Unit => value.is_null(),
        ScalarType::Bool => value.is_boolean(),
        ScalarType::Str | ScalarType::String | ScalarType::CowStr => value.is_string(),
        ScalarType::Char => value.as_str().is_some_and(has_one_char),
        _ => match whole_number(value) {
            Some(number) => is_in_range(scalar, number),
            None => false,
        },
    }
}

/// Whether a text has one character.
fn has_one_char(text: &str) -> bool
    ensures { result ≡ (length (chars text.now) == 1) }
{
    text.chars().count() == 1
}

/// The whole number that a value is.
fn whole_number(value: &Value) -> Option<i128>
    ensures { result ≡ fits.whole_number (view value.now) }
{
    value.as_number().and_then(Number::as_i128)
}

/// Whether a whole number is one of a type of numbers: in its range, or any for a float.
fn is_in_range(scalar: ScalarType, number: i128) -> bool
    ensures { result ≡ fits.is_in_range scalar number }
{
    match WholeRange::of(scalar) {
        Some(range) => range.holds(number.into()),
        None => true,
    }
}
