//! What basic types come to.
ghost use Rattle.std.specs.Prelude.{◌≡◌};
ghost use Rattle.facet_solver_reader.specs.Types as types;
ghost use Rattle.facet_solver_reader.specs.Views.{end_view};

use super::End;
use facet_solver_shape::{ScalarType, WholeRange};

/// What a basic type comes to.
pub(crate) fn end_of_scalar<'c>(scalar: ScalarType) -> End<'c>
    ensures { end_view result ≡ types.end_of_scalar scalar }
{
    match WholeRange::of(scalar) {
        Some(range) => End::Whole(range),
        None => end_of_other_scalar(scalar),
    }
}

/// What a basic type comes to that is none of whole numbers.
fn end_of_other_scalar<'c>(scalar: ScalarType) -> End<'c>
    ensures { end_view result ≡ types.end_of_other_scalar scalar }
{
    match scalar {
        ScalarType::Unit => End::Null,
        ScalarType::Bool => End::Truth,
        ScalarType::Char => End::Character,
        ScalarType::Str | ScalarType::String | ScalarType::CowStr => End::Text,
        ScalarType::F32 | ScalarType::F64 => End::Float,
        _ => End::Anything,
    }
}
