//! Types as they are written: what a type is outside, and the types in it.
ghost use Rattle.std.specs.Prelude.{◌≡◌, ◌<◌, ◌≤◌, IfOk, IsTrue, OnOk, length};
ghost use Rattle.facet_solver_types.specs.Outcomes.{Gives};
ghost use Rattle.facet_solver_types.specs.Passages.{passage_view};
ghost use Rattle.facet_solver_types.specs.Pieces.{pieces};
ghost use Rattle.facet_solver_types.specs.Tokens.{token_view, tokens_view};
ghost use Rattle.facet_solver_types.specs.WrittenTypes.{front_len, goes_on, has_angles, held_by, in_angles, in_round, in_square, is_bytes, is_lifetime_alone, is_str, lifetime_len, named_after, passages_view, path_type, reference, referred, sees_lifetime, this_type, type_name, types_after, without_lifetimes, written_type, written_view};

use super::entry::is_entry_word;
use super::first::{
    is_lifetime, is_name, is_open, is_path, sees_mark, sees_open, sees_path, sees_word,
};
use super::inside::inside;
use super::origin::{Origin, origin_of};
use super::run::{Run, group_len, run_len};
use crate::fault::Fault;
use crate::passage::Passage;
use crate::problem::Expected;
use crate::token::{Bracket, Token};
use std::alloc::{AllocError, Global};

/// A type by a name.
#[derive(Drop)]
pub(crate) struct NamedType<'s, 't> {
    /// The last part of its path.
    pub(crate) name: Token<'t>,
    /// Where the path before it leads.
    pub(crate) origin: Origin<'t>,
    /// The types in `<` and `>`.
    pub(crate) types: Vec<Passage<'s, 't>>,
}

/// A type, as it is written.
#[derive(Drop)]
pub(crate) enum Written<'s, 't> {
    /// `()`.
    Unit,
    /// In `( )`, or behind a `&`: the type that stands there.
    Enclosed(Passage<'s, 't>),
    /// A tuple of these types.
    Tuple(Vec<Passage<'s, 't>>),
    /// A slice of this type.
    Slice(Passage<'s, 't>),
    /// An array of this type, and the tokens of its length.
    Array(Passage<'s, 't>, &'s [Token<'t>]),
    /// `&str`.
    Text,
    /// `&[u8]`.
    Bytes,
    /// `Self`.
    This,
    /// One by a name.
    Named(NamedType<'s, 't>),
}

/// The parts of a passage between commas.
pub(crate) fn pieces<'s, 't>(
    alloc: Global,
    run: Run,
    passage: Passage<'s, 't>,
) -> Result<Vec<Passage<'s, 't>>, AllocError>
    ensures { IfOk result (λ found. passages_view found.items
        ≡ pieces run (passage_view passage.entry)) }
{
    let mut found = Vec::new(alloc);
    let mut left = passage;
    while !left.tokens.is_empty() {
        let len = run_len(run, left.tokens);
        found.push(left.up_to(len))?;
        left = left.after_comma(len);
    }
    Ok(found)
}

/// What stands in the brackets that a passage is, where nothing stands after them.
fn held_by<'s, 't>(passage: Passage<'s, 't>) -> Result<Passage<'s, 't>, Fault>
    requires { 0 < length passage.tokens.now }
    ensures { Gives passage_view (held_by (passage_view passage.entry)) result }
{
    let rest = passage.after(group_len(passage.tokens));
    if rest.tokens.is_empty() {
        Ok(inside(passage))
    } else {
        Err(rest.unexpected(Expected::FieldType))
    }
}

/// What stands in round brackets: nothing, one type, or several, or one with a comma.
fn in_round<'s, 't>(alloc: Global, held: Passage<'s, 't>) -> Result<Written<'s, 't>, AllocError>
    ensures { IfOk result (λ written. written_view written
        ≡ in_round (passage_view held.entry)) }
{
    if held.tokens.is_empty() {
        Ok(Written::Unit)
    } else if run_len(Run::FieldType, held.tokens) == held.tokens.len() {
        Ok(Written::Enclosed(held))
    } else {
        Ok(Written::Tuple(pieces(alloc, Run::FieldType, held)?))
    }
}

/// What stands in square brackets: a type, maybe with a length after `;`.
fn in_square<'s, 't>(held: Passage<'s, 't>) -> Written<'s, 't>
    ensures { written_view result ≡ in_square (passage_view held.entry) }
{
    let len = run_len(Run::Statement, held.tokens);
    if len < held.tokens.len() {
        Written::Array(held.up_to(len), &held.tokens[len + 1..])
    } else {
        Written::Slice(held)
    }
}

/// Whether a token alone is the name `str`.
pub(crate) fn is_str(tokens: &[Token<'_>]) -> bool
    ensures { result ≡ is_str (tokens_view tokens.now) }
{
    match tokens.split_first() {
        None => false,
        Some((first, rest)) => is_name(first.kind) && first.text == "str" && rest.is_empty(),
    }
}

/// Whether the first token is a lifetime.
pub(super) fn sees_lifetime(tokens: &[Token<'_>]) -> bool
    ensures value { result ≡ sees_lifetime (tokens_view tokens.now) }
    ensures some { IsTrue result → 0 < length tokens.now }
{
    match tokens.first() {
        None => false,
        Some(token) => is_lifetime(token.kind),
    }
}

/// How many tokens a lifetime has that may stand first.
fn lifetime_len(tokens: &[Token<'_>]) -> usize
    ensures value { result ≡ lifetime_len (tokens_view tokens.now) }
    ensures within { result ≤ length tokens.now }
{
    if sees_lifetime(tokens) { 1 } else { 0 }
}

/// Whether tokens are `[u8]`.
fn is_bytes(tokens: &[Token<'_>]) -> bool
    ensures { result ≡ is_bytes (tokens_view tokens.now) }
{
    match tokens {
        [first, item, _] => {
            is_open(Bracket::Square, first.kind) && is_name(item.kind) && item.text == "u8"
        }
        _ => false,
    }
}

/// What stands behind a `&`: `str` and `[u8]` are texts then, another type is itself.
fn referred<'s, 't>(held: Passage<'s, 't>) -> Written<'s, 't>
    ensures { written_view result ≡ referred (passage_view held.entry) }
{
    if is_str(held.tokens) {
        Written::Text
    } else if is_bytes(held.tokens) {
        Written::Bytes
    } else {
        Written::Enclosed(held)
    }
}

/// A type after `&`, maybe with a lifetime.
fn reference<'s, 't>(passage: Passage<'s, 't>) -> Written<'s, 't>
    requires { 0 < length passage.tokens.now }
    ensures { written_view result ≡ reference (passage_view passage.entry) }
{
    let rest = passage.after(1);
    referred(rest.after(lifetime_len(rest.tokens)))
}

/// `Self`, alone.
fn this_type<'s, 't>(passage: Passage<'s, 't>) -> Result<Written<'s, 't>, Fault>
    requires { 0 < length passage.tokens.now }
    ensures { Gives written_view (this_type (passage_view passage.entry)) result }
{
    let rest = passage.after(1);
    if rest.tokens.is_empty() {
        Ok(Written::This)
    } else {
        Err(rest.unexpected(Expected::FieldType))
    }
}

/// Whether the first token is `::`, or a word before one.
fn goes_on(tokens: &[Token<'_>]) -> bool
    ensures { result ≡ goes_on (tokens_view tokens.now) }
{
    match tokens.split_first() {
        None => false,
        Some((first, rest)) => {
            is_path(first.kind) || (is_entry_word(first.kind) && sees_path(rest))
        }
    }
}

/// How many tokens of a path stand before its last part.
pub(super) fn front_len(tokens: &[Token<'_>]) -> usize
    ensures value { result ≡ front_len (tokens_view tokens.now) }
    ensures within { result ≤ length tokens.now }
{
    for at in 0..tokens.len() {
        if !goes_on(&tokens[at..]) {
            return at;
        }
    }
    tokens.len()
}

/// Whether tokens stand in `<` and `>`.
fn has_angles(tokens: &[Token<'_>]) -> bool
    ensures value { result ≡ has_angles (tokens_view tokens.now) }
    ensures two { IsTrue result → 1 < length tokens.now }
{
    sees_mark(b'<', tokens) && sees_mark(b'>', &tokens[tokens.len() - 1..])
}

/// What stands in `<` and `>`.
fn in_angles<'s, 't>(passage: Passage<'s, 't>) -> Passage<'s, 't>
    requires { 1 < length passage.tokens.now }
    ensures { passage_view result ≡ in_angles (passage_view passage.entry) }
{
    passage.after(1).up_to(passage.tokens.len() - 2)
}

/// Whether a passage is a lifetime.
fn is_lifetime_alone(passage: Passage<'_, '_>) -> bool
    ensures { result ≡ is_lifetime_alone (passage_view passage.entry) }
{
    sees_lifetime(passage.tokens) && passage.tokens.len() == 1
}

/// Passages without the lifetimes that stand first.
fn without_lifetimes<'s, 't>(
    alloc: Global,
    passages: &[Passage<'s, 't>],
) -> Result<Vec<Passage<'s, 't>>, AllocError>
    ensures { IfOk result (λ found. passages_view found.items
        ≡ without_lifetimes (passages_view passages.now)) }
{
    for (at, passage) in passages.iter().enumerate() {
        if !is_lifetime_alone(*passage) {
            return Ok(Vec::from_slice(alloc, &passages[at..])?);
        }
    }
    Ok(Vec::new(alloc))
}

/// The types that a name takes: those in `<` and `>`, if anything stands after it.
fn types_after<'s, 't>(
    alloc: Global,
    passage: Passage<'s, 't>,
) -> Result<Vec<Passage<'s, 't>>, Fault>
    ensures { Gives (λ found. passages_view found.items)
        (types_after (passage_view passage.entry)) result }
{
    if passage.tokens.is_empty() {
        return Ok(Vec::new(alloc));
    }
    if !has_angles(passage.tokens) {
        return Err(passage.unexpected(Expected::FieldType));
    }
    let found = pieces(alloc, Run::FieldType, in_angles(passage))?;
    Ok(without_lifetimes(alloc, &found)?)
}

/// The name of a type that stands first.
fn type_name<'t>(passage: Passage<'_, 't>) -> Result<Token<'t>, Fault>
    ensures name { Gives token_view (type_name (passage_view passage.entry)) result }
    ensures some { OnOk result (0 < length passage.entry.tokens.now) }
{
    match passage.tokens.first() {
        Some(token) if is_name(token.kind) => Ok(*token),
        _ => Err(passage.unexpected(Expected::FieldType)),
    }
}

/// A type by a name, whose path's front is so long.
fn named_after<'s, 't>(
    alloc: Global,
    front: usize,
    passage: Passage<'s, 't>,
) -> Result<Written<'s, 't>, Fault>
    requires { front ≤ length passage.tokens.now }
    ensures { Gives written_view (named_after front (passage_view passage.entry)) result }
{
    let rest = passage.after(front);
    let name = type_name(rest)?;
    let types = types_after(alloc, rest.after(1))?;
    Ok(Written::Named(NamedType {
        name,
        origin: origin_of(front, passage.tokens),
        types,
    }))
}

/// A type by a path.
fn path_type<'s, 't>(alloc: Global, passage: Passage<'s, 't>) -> Result<Written<'s, 't>, Fault>
    ensures { Gives written_view (path_type (passage_view passage.entry)) result }
{
    named_after(alloc, front_len(passage.tokens), passage)
}

/// The type that a passage is.
///
/// Errors: the first token that no type has there; out of memory.
#[tactic(auto, unfolding(crate::specs::WrittenTypes::written_type))]
pub(crate) fn written_type<'s, 't>(
    alloc: Global,
    passage: Passage<'s, 't>,
) -> Result<Written<'s, 't>, Fault>
    ensures { Gives written_view (written_type (passage_view passage.entry)) result }
{
    if sees_open(Bracket::Round, passage.tokens) {
        let held = held_by(passage)?;
        return Ok(in_round(alloc, held)?);
    }
    if sees_open(Bracket::Square, passage.tokens) {
        let held = held_by(passage)?;
        return Ok(in_square(held));
    }
    if sees_mark(b'&', passage.tokens) {
        return Ok(reference(passage));
    }
    if sees_word("Self", passage.tokens) {
        return this_type(passage);
    }
    path_type(alloc, passage)
}
