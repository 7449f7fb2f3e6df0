//! What stands in an attribute of serde or facet.
ghost use Rattle.std.specs.Prelude.{◌≡◌, ◌<◌, OnOk, length, option_map};
ghost use Rattle.facet_solver_types.specs.Entries.{entries, entries_view, entry_at, entry_view, entry_word, held, is_entry_word, named_entry, value_at, value_view};
ghost use Rattle.facet_solver_types.specs.Outcomes.{Gives};
ghost use Rattle.facet_solver_types.specs.Passages.{passage_view};
ghost use Rattle.facet_solver_types.specs.Tokens.{token_view};

use super::first::{is_name, sees_mark, sees_open, sees_path};
use super::inside::inside;
use super::run::{Run, group_len, run_len};
use crate::fault::Fault;
use crate::passage::Passage;
use crate::problem::Expected;
use crate::token::{Bracket, Token, TokenKind};
use std::alloc::Global;

/// What stands after the name in an entry.
#[derive(Clone, Copy, Debug)]
pub(crate) enum EntryValue<'s, 't> {
    /// Nothing.
    None,
    /// These, after `=`.
    Is(Passage<'s, 't>),
    /// These, in brackets.
    Holds(Passage<'s, 't>),
    /// What asks for something that only serde's or facet's own attributes can say.
    Outside,
}

/// An entry of an attribute of serde or facet, as `rename = "kind"`.
#[derive(Clone, Copy, Debug)]
pub(crate) struct Entry<'s, 't> {
    /// What stands before `::`, as `xml`.
    pub(crate) qualifier: Option<Token<'t>>,
    /// Its name.
    pub(crate) name: Token<'t>,
    /// What stands after the name.
    pub(crate) value: EntryValue<'s, 't>,
}

/// Whether a token may name an entry: a name or a keyword.
pub(super) fn is_entry_word(kind: TokenKind) -> bool
    ensures { result ≡ is_entry_word kind }
{
    match kind {
        TokenKind::Keyword => true,
        _ => is_name(kind),
    }
}

/// The name or keyword that stands first.
fn entry_word<'t>(passage: Passage<'_, 't>) -> Result<Token<'t>, Fault>
    ensures word { Gives token_view (entry_word (passage_view passage.entry)) result }
    ensures some { OnOk result (0 < length passage.entry.tokens.now) }
{
    match passage.tokens.first() {
        Some(token) if is_entry_word(token.kind) => Ok(*token),
        _ => Err(passage.unexpected(Expected::Attribute)),
    }
}

/// What stands in the brackets that stand first, where nothing stands after these.
fn held<'s, 't>(passage: Passage<'s, 't>) -> Result<EntryValue<'s, 't>, Fault>
    requires { 0 < length passage.tokens.now }
    ensures { Gives value_view (held (passage_view passage.entry)) result }
{
    let rest = passage.after(group_len(passage.tokens));
    if rest.tokens.is_empty() {
        Ok(EntryValue::Holds(inside(passage)))
    } else {
        Err(rest.unexpected(Expected::AttributeEnd))
    }
}

/// What stands after the name of an entry.
pub(super) fn value_at<'s, 't>(passage: Passage<'s, 't>) -> Result<EntryValue<'s, 't>, Fault>
    ensures { Gives value_view (value_at (passage_view passage.entry)) result }
{
    if passage.tokens.is_empty() {
        return Ok(EntryValue::None);
    }
    if sees_mark(b'=', passage.tokens) {
        return Ok(EntryValue::Is(passage.after(1)));
    }
    if sees_open(Bracket::Round, passage.tokens) {
        return held(passage);
    }
    Err(passage.unexpected(Expected::AttributeEnd))
}

/// An entry of that name, before what stands after it.
fn named_entry<'s, 't>(
    qualifier: Option<Token<'t>>,
    name: Token<'t>,
    rest: Passage<'s, 't>,
) -> Result<Entry<'s, 't>, Fault>
    ensures { Gives entry_view (named_entry (option_map token_view qualifier.entry)
        (token_view name.entry) (passage_view rest.entry)) result }
{
    let value = value_at(rest)?;
    Ok(Entry {
        qualifier,
        name,
        value,
    })
}

/// The entry that a passage is.
fn entry_at<'s, 't>(passage: Passage<'s, 't>) -> Result<Entry<'s, 't>, Fault>
    ensures { Gives entry_view (entry_at (passage_view passage.entry)) result }
{
    let first = entry_word(passage)?;
    let rest = passage.after(1);
    if !sees_path(rest.tokens) {
        return named_entry(None, first, rest);
    }
    let name = entry_word(rest.after(1))?;
    named_entry(Some(first), name, rest.after(2))
}

/// The entries of a passage.
pub(crate) fn entries<'s, 't>(
    alloc: Global,
    passage: Passage<'s, 't>,
) -> Result<Vec<Entry<'s, 't>>, Fault>
    ensures { Gives (λ found. entries_view found.items) (entries (passage_view passage.entry))
        result }
{
    let mut found = Vec::new(alloc);
    let mut left = passage;
    while !left.tokens.is_empty() {
        let len = run_len(Run::Value, left.tokens);
        found.push(entry_at(left.up_to(len))?)?;
        left = left.after_comma(len);
    }
    Ok(found)
}
