//! What errors say that types read.
ghost use Rattle.std.specs.Prelude.{◌≡◌};
ghost use Rattle.facet_solver_reader.specs.Documents.{view};
ghost use Rattle.facet_solver_reader.specs.Tables.{AreTables, ContentIsServed, rules_at};
ghost use Rattle.facet_solver_reader.specs.Views.{content_view, end_view};
ghost use Rattle.facet_solver_reader.specs.Wanted as spec;

use crate::document::Document;
use crate::end::{Content, End};
use crate::read_error::Wanted;
use crate::tables::Tables;

/// What is said to be wanted of a value: of one of the kind, another of it.
pub(super) fn wanted_of<'c>(value: &Document<'_>, reads: Wanted<'c>) -> Wanted<'c>
    ensures { result ≡ spec.wanted_of (view value.now) reads.entry }
{
    if is_of_kind(value, reads) {
        Wanted::Other
    } else {
        reads
    }
}

/// Whether a value is a list or an object of the kind that is wanted. An object of one member names
/// a variant.
fn is_of_kind(value: &Document<'_>, reads: Wanted<'_>) -> bool
    ensures { result ≡ spec.is_of_kind (view value.now) reads.entry }
{
    match (value, reads) {
        (Document::List(_), Wanted::List) | (Document::Object(_), Wanted::Object) => true,
        (Document::List(items), Wanted::Values(count)) => items.len() == count,
        (Document::Object(members), Wanted::Named) => members.len() == 1,
        _ => false,
    }
}

/// What the content of a variant reads.
pub(super) fn wanted_of_content<'c>(tables: &Tables<'c>, content: &Content) -> Wanted<'c>
    requires tables { AreTables tables.now }
    requires served { ContentIsServed tables.now (content_view content.now) }
    ensures { result ≡ spec.wanted_of_content (rules_at tables.now) (content_view content.now) }
{
    match content {
        Content::None => Wanted::Nothing,
        Content::Shape(inside) => wanted_of_end(tables.end(*inside)),
        Content::Tuple(shapes) => Wanted::Values(shapes.len()),
        Content::Object(_) => Wanted::Object,
    }
}

/// What an end reads.
pub(super) fn wanted_of_end<'c>(end: &End<'_>) -> Wanted<'c>
    ensures { result ≡ spec.wanted_of_end (end_view end.now) }
{
    match end {
        End::Null => Wanted::Null,
        End::Truth => Wanted::Truth,
        End::Whole(range) => Wanted::Whole(*range),
        End::Float => Wanted::Number,
        End::Text => Wanted::Text,
        End::Character => Wanted::Character,
        End::List(_) => Wanted::List,
        End::Tuple(shapes) => Wanted::Values(shapes.len()),
        End::Map(..) | End::Object(_) => Wanted::Object,
        End::NamedVariant(_) => Wanted::Named,
        End::Option(_) | End::UntaggedVariant(..) | End::Anything => Wanted::Other,
    }
}
