//! The readings of a value without values within.
ghost use Rattle.std.specs.Prelude.{◌≡◌};
ghost use Rattle.facet_solver_reader.specs.Counted.{Counted};
ghost use Rattle.facet_solver_reader.specs.Documents.{view};
ghost use Rattle.facet_solver_reader.specs.Values.{ReadsScalar, is_scalar_of};
ghost use Rattle.facet_solver_reader.specs.Views.{end_view};

use crate::count::Count;
use crate::document::Document;
use crate::end::End;
use crate::key::has_one_char;

/// Whether nothing need be kept of what a shape comes to: it is told at once, or an option, of which
/// the inside is kept.
pub(crate) fn is_told_at_once(end: &End<'_>) -> bool {
    match end {
        End::Null
        | End::Truth
        | End::Whole(_)
        | End::Float
        | End::Text
        | End::Character
        | End::Anything
        | End::Option(_) => true,
        _ => false,
    }
}

/// How often a value is read by what asks nothing else of it.
pub(crate) fn count_scalar(end: &End<'_>, value: &Document<'_>) -> Count
    ensures { Counted (ReadsScalar (end_view end.now) (view value.now)) result }
{
    Count::from(is_scalar_of(end, value))
}

/// Whether a value is read by what asks nothing else of it.
fn is_scalar_of(end: &End<'_>, value: &Document<'_>) -> bool
    ensures { result ≡ is_scalar_of (end_view end.now) (view value.now) }
{
    match end {
        End::Null => matches!(value, Document::Null),
        End::Truth => matches!(value, Document::Bool(_)),
        End::Float => matches!(value, Document::Number(_)),
        End::Text => matches!(value, Document::Text(_)),
        End::Anything => true,
        End::Whole(range) => match value {
            Document::Number(number) => number.whole().is_some_and(|whole| range.holds(whole)),
            _ => false,
        },
        End::Character => match value {
            Document::Text(text) => has_one_char(text),
            _ => false,
        },
        _ => false,
    }
}
