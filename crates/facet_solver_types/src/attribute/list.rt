//! All attributes of serde and facet that stand before something.
ghost use Rattle.std.specs.Prelude.{◌≡◌, IfOk, option_map};
ghost use Rattle.std.specs.String.{string_bytes};
ghost use Rattle.facet_solver_types.specs.AttributeLists.{attributes, attributes_of, attributes_view, clashes, content_fault, content_offset, differ, entered, has_clash, has_tag, is_content, is_tag, lone_content, next_attribute, said_by_value};
ghost use Rattle.facet_solver_types.specs.Attributes.{attribute_view};
ghost use Rattle.facet_solver_types.specs.Entries.{entries_view, entry_view};
ghost use Rattle.facet_solver_types.specs.Gatherings.{gathering_view};
ghost use Rattle.facet_solver_types.specs.Outcomes.{Gives};
ghost use Rattle.facet_solver_types.specs.Tokens.{tokens_view};
ghost use Rattle.facet_solver_types.specs.Values.{value_view};

use super::clash::clash;
use super::meaning::{Meaning, Subject};
use super::refusal::Refusal;
use super::text::{said_text, text_of};
use super::value::Value;
use super::{Attribute, attribute_of};
use crate::fault::Fault;
use crate::gathering::Gathering;
use crate::grammar::{Entry, attribute_entries};
use crate::problem::Problem;
use crate::token::Token;
use std::alloc::{AllocError, Global};

/// The text that a value says, if it says one.
fn said_by_value(alloc: Global, value: &Value<'_, '_>) -> Result<Option<String>, AllocError>
    ensures { IfOk result (λ text. option_map string_bytes text
        ≡ said_by_value (value_view value.now)) }
{
    match value {
        Value::Text(token) => text_of(alloc, token),
        _ => Ok(None),
    }
}

/// Whether two texts are both there, and differ.
fn differ(one: &Option<String>, other: &Option<String>) -> bool
    ensures { result
        ≡ differ (option_map string_bytes one.now) (option_map string_bytes other.now) }
{
    match (one, other) {
        (Some(one), Some(other)) => one != other,
        _ => false,
    }
}

/// Whether two attributes exclude each other.
fn clashes(
    alloc: Global,
    one: &Attribute<'_, '_>,
    other: &Attribute<'_, '_>,
) -> Result<bool, AllocError>
    ensures { IfOk result (λ is. is
        ≡ clashes (attribute_view one.now) (attribute_view other.now)) }
{
    let said = said_by_value(alloc, &one.value)?;
    let then = said_by_value(alloc, &other.value)?;
    Ok(clash(one.meaning, other.meaning, differ(&said, &then)))
}

/// Whether one of some attributes excludes another.
fn has_clash(
    alloc: Global,
    found: &[Attribute<'_, '_>],
    attribute: &Attribute<'_, '_>,
) -> Result<bool, AllocError>
    ensures { IfOk result (λ has. has
        ≡ has_clash (attributes_view found.now) (attribute_view attribute.now)) }
{
    for one in found {
        if clashes(alloc, one, attribute)? {
            return Ok(true);
        }
    }
    Ok(false)
}

/// The attribute that an entry is behind others.
fn next_attribute<'s, 't>(
    alloc: Global,
    subject: Subject,
    found: &[Attribute<'s, 't>],
    entry: &Entry<'s, 't>,
) -> Result<Attribute<'s, 't>, Fault>
    ensures { Gives attribute_view
        (next_attribute subject (attributes_view found.now) (entry_view entry.now)) result }
{
    let attribute = attribute_of(alloc, subject, entry)?;
    if let Value::Text(token) = &attribute.value {
        said_text(alloc, attribute.meaning, token)?;
    }
    if has_clash(alloc, found, &attribute)? {
        return Err(Fault::At {
            offset: attribute.offset,
            problem: Problem::Attribute(Refusal::Clashes),
        });
    }
    Ok(attribute)
}

/// The attribute that an entry is behind others, or its fault.
///
/// The only error is out of memory.
fn entered<'s, 't>(
    alloc: Global,
    subject: Subject,
    found: &[Attribute<'s, 't>],
    entry: &Entry<'s, 't>,
) -> Result<Gathering<Attribute<'s, 't>>, AllocError>
    ensures { IfOk result (λ made. gathering_view attribute_view made
        ≡ entered subject (attributes_view found.now) (entry_view entry.now)) }
{
    Gathering::told(alloc, next_attribute(alloc, subject, found, entry))
}

/// The attributes that entries are, but those with a fault.
///
/// The only error is out of memory.
fn attributes_of<'s, 't>(
    alloc: Global,
    subject: Subject,
    entries: &[Entry<'s, 't>],
) -> Result<Gathering<Attribute<'s, 't>>, AllocError>
    ensures { IfOk result (λ found. gathering_view attribute_view found
        ≡ attributes_of subject (entries_view entries.now)) }
{
    let mut found = Gathering::new(alloc);
    for entry in entries {
        let more = entered(alloc, subject, &found.values, entry)?;
        found.append(more)?;
    }
    Ok(found)
}

/// Whether a meaning is that of `tag`.
fn is_tag(meaning: Meaning) -> bool
    ensures { result ≡ is_tag meaning }
{
    match meaning {
        Meaning::Tag => true,
        _ => false,
    }
}

/// Whether a meaning is that of `content`.
fn is_content(meaning: Meaning) -> bool
    ensures { result ≡ is_content meaning }
{
    match meaning {
        Meaning::Content => true,
        _ => false,
    }
}

/// Whether some attribute is `tag`.
fn has_tag(found: &[Attribute<'_, '_>]) -> bool
    ensures { result ≡ has_tag (attributes_view found.now) }
{
    for attribute in found {
        if is_tag(attribute.meaning) {
            return true;
        }
    }
    false
}

/// Where the first attribute stands that is `content`.
fn content_offset(found: &[Attribute<'_, '_>]) -> Option<usize>
    ensures { result ≡ content_offset (attributes_view found.now) }
{
    for attribute in found {
        if is_content(attribute.meaning) {
            return Some(attribute.offset);
        }
    }
    None
}

/// Where `content` stands without `tag`.
fn lone_content(found: &[Attribute<'_, '_>]) -> Option<usize>
    ensures { result ≡ lone_content (attributes_view found.now) }
{
    if has_tag(found) {
        None
    } else {
        content_offset(found)
    }
}

/// The fault of `content` that stands without `tag`.
fn content_fault(found: &[Attribute<'_, '_>]) -> Option<Fault>
    ensures { result ≡ content_fault (attributes_view found.now) }
{
    match lone_content(found) {
        None => None,
        Some(offset) => Some(Fault::At {
            offset,
            problem: Problem::Attribute(Refusal::NoTag),
        }),
    }
}

/// The attributes of serde and facet on a subject, but those with a fault: an entry that means
/// nothing there, has another value than it takes, or excludes one before it. Where there is none,
/// `content` without `tag` is one. Where something else stands in the place of an entry, that is
/// the fault of all.
///
/// The only error is out of memory.
pub(crate) fn attributes<'s, 't>(
    alloc: Global,
    subject: Subject,
    written: &'s [Token<'t>],
) -> Result<Gathering<Attribute<'s, 't>>, AllocError>
    ensures { IfOk result (λ found. gathering_view attribute_view found
        ≡ attributes subject (tokens_view written.now)) }
{
    let entries = match attribute_entries(alloc, written) {
        Ok(entries) => entries,
        Err(fault) => return Gathering::told(alloc, Err(fault)),
    };
    let mut found = attributes_of(alloc, subject, &entries)?;
    let fault = content_fault(&found.values);
    found.or_fault(fault)?;
    Ok(found)
}
