//! The entries of the attributes of serde and facet that stand before something.
ghost use Rattle.std.specs.Prelude.{◌≡◌, ◌<◌, ◌≤◌, IsTrue, length};
ghost use Rattle.facet_solver_types.specs.AttributeEntries.{all_entries_in, attribute_entries, cfg_attr_entries, entries_in, is_named, is_ours, is_refused, outside_entry, own_entries, part_len, sees_cfg_attr};
ghost use Rattle.facet_solver_types.specs.Entries.{entries_view, entry_view};
ghost use Rattle.facet_solver_types.specs.Outcomes.{Gives};
ghost use Rattle.facet_solver_types.specs.Passages.{passage_view};
ghost use Rattle.facet_solver_types.specs.Tokens.{token_view, tokens_view};

use super::entry::{Entry, EntryValue, entries, value_at};
use super::first::{is_name, sees_open};
use super::inside::inside;
use super::prefixes::{attribute_len, begins_attribute};
use super::run::{Run, run_len};
use crate::fault::Fault;
use crate::passage::Passage;
use crate::problem::Expected;
use crate::token::{Bracket, Token};
use std::alloc::Global;

/// Whether a token is a name of this text.
pub(crate) fn is_named(text: &str, token: &Token<'_>) -> bool
    ensures { result ≡ is_named text.now (token_view token.now) }
{
    is_name(token.kind) && token.text == text
}

/// Whether a token is the name of serde or of facet.
fn is_ours(token: &Token<'_>) -> bool
    ensures { result ≡ is_ours (token_view token.now) }
{
    is_named("serde", token) || is_named("facet", token)
}

/// Whether an attribute of another name asks what only serde's or facet's own can say, by its name
/// and what stands behind it.
fn is_refused(name: &Token<'_>, behind: &[Token<'_>]) -> bool
    ensures { result ≡ is_refused (token_view name.now) (tokens_view behind.now) }
{
    if is_named("serde_as", name) {
        return sees_open(Bracket::Round, behind);
    }
    behind.is_empty() && (is_named("flatten", name) || is_named("untagged", name))
}

/// An attribute of another name, as an entry.
fn outside<'s, 't>(name: Token<'t>) -> Entry<'s, 't>
    ensures { entry_view result ≡ outside_entry (token_view name.entry) }
{
    Entry {
        qualifier: None,
        name,
        value: EntryValue::Outside,
    }
}

/// The entries of serde's or facet's attribute, by what stands behind its name.
fn own_entries<'s, 't>(alloc: Global, behind: Passage<'s, 't>) -> Result<Vec<Entry<'s, 't>>, Fault>
    ensures { Gives (λ found. entries_view found.items) (own_entries (passage_view behind.entry))
        result }
{
    match value_at(behind)? {
        EntryValue::Holds(list) => entries(alloc, list),
        _ => Err(behind.unexpected(Expected::AttributeList)),
    }
}

/// The entries of an attribute, by what stands in its brackets. One that is neither serde's nor
/// facet's has none, unless it asks what only these can say: then it is one itself.
fn entries_in<'s, 't>(alloc: Global, inner: Passage<'s, 't>) -> Result<Vec<Entry<'s, 't>>, Fault>
    ensures { Gives (λ found. entries_view found.items) (entries_in (passage_view inner.entry))
        result }
{
    let Some((name, behind)) = inner.tokens.split_first() else {
        return Ok(Vec::new(alloc));
    };
    if is_ours(name) {
        return own_entries(alloc, inner.after(1));
    }
    if is_refused(name, behind) {
        let mut found = Vec::new(alloc);
        found.push(outside(*name))?;
        return Ok(found);
    }
    Ok(Vec::new(alloc))
}

/// Whether `cfg_attr` stands first, before a bracket.
fn sees_cfg_attr(tokens: &[Token<'_>]) -> bool
    ensures value { result ≡ sees_cfg_attr (tokens_view tokens.now) }
    ensures two { IsTrue result → 1 < length tokens.now }
{
    match tokens.split_first() {
        Some((name, behind)) => is_named("cfg_attr", name) && sees_open(Bracket::Round, behind),
        None => false,
    }
}

/// How many tokens the part of a `cfg_attr` has that stands first: its own name with the condition,
/// an attribute, or one mark between these.
fn part_len(tokens: &[Token<'_>]) -> usize
    requires { 0 < length tokens.now }
    ensures value { result ≡ part_len (tokens_view tokens.now) }
    ensures within { (0 < result) × (result ≤ length tokens.now) }
{
    if sees_cfg_attr(tokens) {
        return run_len(Run::Value, &tokens[2..]) + 2;
    }
    let len = run_len(Run::Value, tokens);
    if len == 0 { 1 } else { len }
}

/// The entries of the attributes that a `cfg_attr` holds, as if each stood alone. Its condition is
/// not asked, and what another in it holds stands among the others.
fn cfg_attr_entries<'s, 't>(
    alloc: Global,
    inner: Passage<'s, 't>,
) -> Result<Vec<Entry<'s, 't>>, Fault>
    ensures { Gives (λ found. entries_view found.items)
        (cfg_attr_entries (passage_view inner.entry)) result }
{
    let mut found = Vec::new(alloc);
    let mut left = inner;
    while !left.tokens.is_empty() {
        let len = part_len(left.tokens);
        let entries = entries_in(alloc, left.up_to(len))?;
        found.extend_from_slice(&entries)?;
        left = left.after(len);
    }
    Ok(found)
}

/// The entries of an attribute, by what stands in its brackets, and of those that it holds.
fn all_entries_in<'s, 't>(
    alloc: Global,
    inner: Passage<'s, 't>,
) -> Result<Vec<Entry<'s, 't>>, Fault>
    ensures { Gives (λ found. entries_view found.items)
        (all_entries_in (passage_view inner.entry)) result }
{
    if sees_cfg_attr(inner.tokens) {
        cfg_attr_entries(alloc, inner)
    } else {
        entries_in(alloc, inner)
    }
}

/// The entries of serde's and facet's attributes. Each attribute is closed, so that nothing is told
/// of what stands after them.
pub(crate) fn attribute_entries<'s, 't>(
    alloc: Global,
    attributes: &'s [Token<'t>],
) -> Result<Vec<Entry<'s, 't>>, Fault>
    ensures { Gives (λ found. entries_view found.items)
        (attribute_entries (tokens_view attributes.now)) result }
{
    let mut found = Vec::new(alloc);
    let mut left = Passage {
        tokens: attributes,
        end: 0,
    };
    while begins_attribute(false, left.tokens) {
        let entries = all_entries_in(alloc, inside(left.after(1)))?;
        found.extend_from_slice(&entries)?;
        left = left.after(attribute_len(false, left.tokens));
    }
    Ok(found)
}
