//! Paths beside texts that may name them.
ghost use Rattle.std.specs.Prelude.{◌≡◌, map};
ghost use Rattle.std.specs.Option.{option_map};
ghost use Rattle.facet_solver_shape.specs.Paths.{segment_of, segment_text};
ghost use Rattle.facet_solver_reader.specs.PathTexts as spec;

use facet_solver_shape::PathSegment;

/// Whether a path of these segments prints as a text. Nothing is written: the text is gone through
/// segment by segment.
///
/// That of a field `port` of a field `server` prints as `server.port`.
pub(super) fn is_text_of(path: &[PathSegment<'_>], text: &str) -> bool
    ensures { result ≡ spec.is_text_of (map segment_of path.now) text.now }
{
    let Some((first, rest)) = path.split_first() else {
        return text == "<root>";
    };
    let Some(mut left) = after_segment(first, text.as_bytes()) else {
        return false;
    };
    for segment in rest {
        let Some(behind_dot) = behind(".", left) else {
            return false;
        };
        let Some(behind_segment) = after_segment(segment, behind_dot) else {
            return false;
        };
        left = behind_segment;
    }
    left.is_empty()
}

/// What follows a segment in a text that begins with it: of `server.port`, behind `server`, it is
/// `.port`.
fn after_segment<'t>(segment: &PathSegment<'_>, text: &'t [u8]) -> Option<&'t [u8]>
    ensures { option_map (λ rest. rest.now) result
        ≡ spec.after (segment_text (segment_of segment.now)) text.now }
{
    match *segment {
        PathSegment::Field(name) => behind(name, text),
        PathSegment::Variant(field, variant) => {
            let behind_field = behind(field, text)?;
            let behind_colons = behind("::", behind_field)?;
            behind(variant, behind_colons)
        }
    }
}

/// What follows in a text that begins with another: of `.port`, behind `.`, it is `port`.
fn behind<'t>(front: &str, text: &'t [u8]) -> Option<&'t [u8]>
    ensures { option_map (λ rest. rest.now) result ≡ spec.after front.now text.now }
{
    text.strip_prefix(front.as_bytes())
}
