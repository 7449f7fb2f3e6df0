//! The attributes of serde and facet.
ghost use Rattle.std.specs.Prelude.{◌≡◌};
ghost use Rattle.facet_solver_types.specs.Attributes.{attribute_of, attribute_view, mark_of, meaning_of, place_of, with_meaning};
ghost use Rattle.facet_solver_types.specs.Entries.{entry_view};
ghost use Rattle.facet_solver_types.specs.Outcomes.{Gives};

mod clash;
mod help;
mod list;
mod meaning;
mod refusal;
mod text;
mod value;

use crate::fault::Fault;
use crate::grammar::{Entry, EntryValue};
use crate::problem::Problem;
pub(crate) use list::attributes;
pub use meaning::Misuse;
pub(crate) use meaning::{Meaning, Subject};
use meaning::{dom_mark, means};
pub use refusal::Refusal;
pub(crate) use refusal::Refused;
use std::alloc::Global;
pub(crate) use text::text_of;
pub use value::Form;
pub(crate) use value::{Value, only_text};
use value::{form_of, value_of};

/// An attribute of serde or facet.
#[derive(Clone, Copy, Debug)]
pub(crate) struct Attribute<'s, 't> {
    /// Where it stands in the text, in bytes.
    pub(crate) offset: usize,
    /// What it means.
    pub(crate) meaning: Meaning,
    /// Its value.
    pub(crate) value: Value<'s, 't>,
}

/// Where an entry stands in the text.
fn place_of(entry: &Entry<'_, '_>) -> usize
    ensures { result ≡ place_of (entry_view entry.now) }
{
    match entry.qualifier {
        Some(qualifier) => qualifier.offset,
        None => entry.name.offset,
    }
}

/// What an attribute means that is written behind `xml::` or `html::`.
fn mark_of(subject: Subject, qualifier: &str, name: &str) -> Result<Meaning, Misuse>
    ensures { result ≡ mark_of subject qualifier.now name.now }
{
    if qualifier != "xml" && qualifier != "html" {
        return Err(Misuse::Unknown);
    }
    match dom_mark(name) {
        None => Err(Misuse::Unknown),
        Some(mark) => match subject {
            Subject::NamedField => Ok(Meaning::Dom(mark)),
            _ => Err(Misuse::Misplaced),
        },
    }
}

/// What an entry means on a subject.
fn meaning_of(subject: Subject, entry: &Entry<'_, '_>) -> Result<Meaning, Misuse>
    ensures { result ≡ meaning_of subject (entry_view entry.now) }
{
    if let EntryValue::Outside = entry.value {
        return Err(Misuse::Unsupported);
    }
    match entry.qualifier {
        None => means(subject, entry.name.text),
        Some(qualifier) => mark_of(subject, qualifier.text, entry.name.text),
    }
}

/// An attribute of that meaning.
fn with_meaning<'s, 't>(
    alloc: Global,
    meaning: Meaning,
    entry: &Entry<'s, 't>,
) -> Result<Attribute<'s, 't>, Fault>
    ensures { Gives attribute_view (with_meaning meaning (entry_view entry.now)) result }
{
    let offset = place_of(entry);
    let form = form_of(meaning);
    match value_of(alloc, form, entry.value)? {
        Some(value) => Ok(Attribute {
            offset,
            meaning,
            value,
        }),
        None => Err(Fault::At {
            offset,
            problem: Problem::Attribute(Refusal::Takes(form)),
        }),
    }
}

/// The attribute that an entry is on a subject.
///
/// Errors: the entry means nothing there, or has another value than it takes; out of memory.
pub(crate) fn attribute_of<'s, 't>(
    alloc: Global,
    subject: Subject,
    entry: &Entry<'s, 't>,
) -> Result<Attribute<'s, 't>, Fault>
    ensures { Gives attribute_view (attribute_of subject (entry_view entry.now)) result }
{
    match meaning_of(subject, entry) {
        Ok(meaning) => with_meaning(alloc, meaning, entry),
        Err(misuse) => Err(Fault::At {
            offset: place_of(entry),
            problem: Problem::Attribute(Refusal::Misused(misuse)),
        }),
    }
}
