//! How specific a shape is.
ghost use Rattle.std.specs.Prelude.{◌≡◌};
ghost use Rattle.std.specs.String.{string_bytes};
ghost use Rattle.facet_solver_shape.specs.Scores.{score_of};

use crate::shape::Shape;

/// How specific a shape is, by its type identifier: the lower the score, the more specific.
///
/// A number's score is its width in bits, from 8 to 128, and 64 for `usize` and `isize`. Any other
/// shape has 1000.
pub fn specificity_score(shape: &Shape) -> u64
    ensures { result ≡ score_of (string_bytes shape.now.type_identifier) }
{
    match shape.type_identifier.as_str() {
        "u8" | "i8" => 8,
        "u16" | "i16" => 16,
        "u32" | "i32" | "f32" => 32,
        "u64" | "i64" | "f64" | "usize" | "isize" => 64,
        "u128" | "i128" => 128,
        _ => 1000,
    }
}
