//! Which names are keys of maps.
ghost use Rattle.std.specs.Prelude.{◌≡◌, length, ◌==◌};
ghost use Rattle.std.specs.Str.{chars};
ghost use Rattle.facet_solver_reader.specs.Numbers.{number_of};
ghost use Rattle.facet_solver_reader.specs.Types as types;
ghost use Rattle.facet_solver_reader.specs.Types.{is_plain, is_plain_numeral, is_truth};
ghost use Rattle.facet_solver_reader.specs.Values.{is_in};
ghost use Rattle.facet_solver_reader.specs.Views.{end_view};
ghost use Rattle.facet_solver_shape.specs.Representation.{externally_tagged};

use crate::content::is_unit;
use crate::document::Number;
use crate::end::{End, end_of_scalar};
use crate::ends::last_of;
use facet_solver_shape::{EnumRepr, Shape, ShapeId, ShapeKind, Shapes, Variant, WholeRange};

/// Whether a name is a key of a map whose keys have the shape at an index.
pub(crate) fn is_key(shapes: &Shapes, id: ShapeId, name: &str) -> bool
    ensures { result ≡ types.is_key shapes.now id name.now }
{
    match shapes.get(last_of(shapes, id)) {
        Some(shape) => is_key_of_shape(shape, name),
        None => true,
    }
}

/// Whether a name is a key of a shape.
fn is_key_of_shape(shape: &Shape, name: &str) -> bool
    ensures { result ≡ types.is_key_of_kind shape.now shape.now.kind name.now }
{
    match &shape.kind {
        ShapeKind::Scalar(scalar) => is_key_of_end(&end_of_scalar(*scalar), name),
        ShapeKind::Enum { variants } => match EnumRepr::from_shape(shape) {
            EnumRepr::ExternallyTagged => is_unit_name(variants, name),
            _ => true,
        },
        _ => true,
    }
}

/// Whether a name is a key of a basic type.
fn is_key_of_end(end: &End<'_>, name: &str) -> bool
    ensures { result ≡ types.is_key_of_end (end_view end.now) name.now }
{
    match end {
        End::Whole(range) => is_plain_numeral(name) && is_in(range, name),
        End::Truth => is_truth(name),
        End::Character => has_one_char(name),
        _ => true,
    }
}

/// Whether a name is the name of a variant without content to tell.
fn is_unit_name(variants: &[Variant], name: &str) -> bool
    ensures { let external = types.is_unit_name externally_tagged in
        result ≡ external variants.now name.now }
{
    variants.iter().any(|variant| is_unit(variant) && variant.name.as_str() == name)
}

/// Whether a name is a whole number of a range.
fn is_in(range: &WholeRange, name: &str) -> bool
    ensures { result ≡ is_in range.now (number_of name.now) }
{
    match Number::new(name).whole() {
        Some(whole) => range.holds(whole),
        None => false,
    }
}

/// Whether a name is a truth value as it is written.
fn is_truth(name: &str) -> bool
    ensures { result ≡ is_truth name.now }
{
    name == "true" || name == "false"
}

/// Whether a name has one character.
pub(crate) fn has_one_char(name: &str) -> bool
    ensures { result ≡ (length (chars name.now) == 1) }
{
    name.chars().count() == 1
}

/// Whether a numeral is written as in JSON: without a plus, and without a zero before other digits.
fn is_plain_numeral(name: &str) -> bool
    ensures { result ≡ is_plain_numeral name.now }
{
    match name.as_bytes() {
        [b'-', digits @ ..] => is_plain(digits),
        digits => is_plain(digits),
    }
}

/// Whether digits are written without a sign and a zero before others.
fn is_plain(digits: &[u8]) -> bool
    ensures { result ≡ is_plain digits.now }
{
    match digits {
        [] => false,
        [_] => true,
        [first, ..] => *first != b'0' && *first != b'+',
    }
}
