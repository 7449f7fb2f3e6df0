//! What is sought among the attributes on a subject.
ghost use Rattle.std.specs.Prelude.{◌≡◌, IfOk, option_map};
ghost use Rattle.std.specs.String.{string_bytes};
ghost use Rattle.facet_solver_types.specs.AttributeLists.{attributes_view};
ghost use Rattle.facet_solver_types.specs.Attributes.{attribute_view};
ghost use Rattle.facet_solver_types.specs.Sought as sought;
ghost use Rattle.facet_solver_types.specs.Tokens.{token_view};

use crate::attribute::{Attribute, Meaning, Value, text_of};
use crate::case::Case;
use crate::token::Token;
use facet_solver_shape::DomMark;
use std::alloc::{AllocError, Global};

/// Whether two meanings are the same, whatever the mark.
#[tactic(auto, unfolding(crate::specs::Sought::is_same))]
fn is_same(one: Meaning, other: Meaning) -> bool
    ensures { result ≡ sought.is_same one other }
{
    match one {
        Meaning::Flatten => matches!(other, Meaning::Flatten),
        Meaning::Default => matches!(other, Meaning::Default),
        Meaning::Rename => matches!(other, Meaning::Rename),
        Meaning::RenameAll => matches!(other, Meaning::RenameAll),
        Meaning::RenameAllFields => matches!(other, Meaning::RenameAllFields),
        Meaning::Tag => matches!(other, Meaning::Tag),
        Meaning::Content => matches!(other, Meaning::Content),
        Meaning::Untagged => matches!(other, Meaning::Untagged),
        Meaning::Transparent => matches!(other, Meaning::Transparent),
        Meaning::Skip => matches!(other, Meaning::Skip),
        Meaning::Proxy => matches!(other, Meaning::Proxy),
        Meaning::With => matches!(other, Meaning::With),
        Meaning::Dom(_) => matches!(other, Meaning::Dom(_)),
        Meaning::MetadataContainer => matches!(other, Meaning::MetadataContainer),
        Meaning::Metadata => matches!(other, Meaning::Metadata),
        Meaning::DenyUnknownFields => matches!(other, Meaning::DenyUnknownFields),
        Meaning::Opaque => matches!(other, Meaning::Opaque),
        Meaning::Nothing => matches!(other, Meaning::Nothing),
    }
}

/// Where the first attribute of a meaning stands.
pub(super) fn offset_of(meaning: Meaning, found: &[Attribute<'_, '_>]) -> Option<usize>
    ensures { result ≡ sought.offset_of meaning (attributes_view found.now) }
{
    for attribute in found {
        if is_same(meaning, attribute.meaning) {
            return Some(attribute.offset);
        }
    }
    None
}

/// Whether an attribute of a meaning is among some.
pub(super) fn is_said(meaning: Meaning, found: &[Attribute<'_, '_>]) -> bool
    ensures { result ≡ sought.is_said meaning (attributes_view found.now) }
{
    offset_of(meaning, found).is_some()
}

/// The text that an attribute of a meaning has.
fn text_in<'t>(meaning: Meaning, attribute: &Attribute<'_, 't>) -> Option<Token<'t>>
    ensures { option_map token_view result
        ≡ sought.text_in meaning (attribute_view attribute.now) }
{
    match attribute.value {
        Value::Text(token) if is_same(meaning, attribute.meaning) => Some(token),
        _ => None,
    }
}

/// The first text that an attribute of a meaning has.
fn text_token<'t>(meaning: Meaning, found: &[Attribute<'_, 't>]) -> Option<Token<'t>>
    ensures { option_map token_view result
        ≡ sought.text_token meaning (attributes_view found.now) }
{
    for attribute in found {
        if let Some(token) = text_in(meaning, attribute) {
            return Some(token);
        }
    }
    None
}

/// What the first text says that an attribute of a meaning has.
///
/// The only error is out of memory.
pub(super) fn text_said(
    alloc: Global,
    meaning: Meaning,
    found: &[Attribute<'_, '_>],
) -> Result<Option<String>, AllocError>
    ensures { IfOk result (λ text. option_map string_bytes text
        ≡ sought.text_said meaning (attributes_view found.now)) }
{
    match text_token(meaning, found) {
        Some(token) => text_of(alloc, &token),
        None => Ok(None),
    }
}

/// The case that this text names.
///
/// The only error is out of memory.
pub(super) fn case_said(
    alloc: Global,
    meaning: Meaning,
    found: &[Attribute<'_, '_>],
) -> Result<Option<Case>, AllocError>
    ensures { IfOk result (λ case. case
        ≡ sought.case_said meaning (attributes_view found.now)) }
{
    match text_said(alloc, meaning, found)? {
        Some(text) => Ok(Case::named(&text)),
        None => Ok(None),
    }
}

/// The first mark in a tree of elements, if there is one.
pub(super) fn mark_said(found: &[Attribute<'_, '_>]) -> DomMark
    ensures { result ≡ sought.mark_said (attributes_view found.now) }
{
    for attribute in found {
        if let Meaning::Dom(mark) = attribute.meaning {
            return mark;
        }
    }
    DomMark::None
}
