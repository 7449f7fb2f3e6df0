//! The types as which something is read in place of its own.
ghost use Rattle.std.specs.Prelude.{◌≡◌, IfOk, map, option_map};
ghost use Rattle.facet_solver_types.specs.AttributeLists.{attributes_view};
ghost use Rattle.facet_solver_types.specs.Attributes.{attribute_view};
ghost use Rattle.facet_solver_types.specs.Outcomes.{Gives};
ghost use Rattle.facet_solver_types.specs.Passages.{passage_view};
ghost use Rattle.facet_solver_types.specs.Proxies as proxies;
ghost use Rattle.facet_solver_types.specs.Tokens.{token_view, tokens_view};
ghost use Rattle.facet_solver_types.specs.Understood.{proxy_view, said_type_view};

use super::gather::add;
use super::said::refused;
use crate::attribute::{Attribute, Form, Meaning, Refusal, Value, only_text};
use crate::declaration::{Proxy, SaidType};
use crate::fault::Fault;
use crate::modules::STAND_INS;
use crate::passage::Passage;
use crate::token::{Token, TokenKind};
use crate::tokens::tokens;
use std::alloc::{AllocError, Global};

/// Tokens that all stand at one place.
fn placed<'t>(
    alloc: Global,
    place: usize,
    found: &[Token<'t>],
) -> Result<Vec<Token<'t>>, AllocError>
    ensures { IfOk result (λ moved. tokens_view moved.items
        ≡ map (proxies.placed place) (tokens_view found.now)) }
{
    let mut moved = Vec::new(alloc);
    for token in found {
        moved.push(Token {
            offset: place,
            kind: token.kind,
            text: token.text,
        })?;
    }
    Ok(moved)
}

/// A fault at another place.
fn placed_fault(place: usize, fault: Fault) -> Fault
    ensures { result ≡ proxies.placed_fault place fault }
{
    match fault {
        Fault::At { problem, .. } => Fault::At {
            offset: place,
            problem,
        },
        Fault::Catalogue(_) | Fault::OutOfMemory => fault,
    }
}

/// The tokens of a text, which all stand where the text stands.
///
/// Errors: those of tokens, at that place; out of memory.
fn placed_tokens<'t>(alloc: Global, place: usize, text: &'t str) -> Result<Vec<Token<'t>>, Fault>
    ensures { Gives (λ found. tokens_view found.items) (proxies.placed_tokens place text.now)
        result }
{
    match tokens(alloc, text) {
        Ok(found) => Ok(placed(alloc, place, &found)?),
        Err(fault) => Err(placed_fault(place, fault)),
    }
}

/// Whether there is a `\` among bytes.
fn has_backslash(bytes: &[u8]) -> bool
    ensures { result ≡ proxies.has_backslash bytes.now }
{
    bytes.iter().any(|byte| *byte == b'\\')
}

/// Whether a text token has an escape.
fn has_escape(token: &Token<'_>) -> bool
    ensures { result ≡ proxies.has_escape (token_view token.now) }
{
    match token.kind {
        TokenKind::Text => has_backslash(token.text.as_bytes()),
        _ => false,
    }
}

/// The type in a text, which an attribute at an offset says.
///
/// Errors: the text has an escape; those of tokens, at the text; out of memory.
fn quoted_type<'s, 't>(
    alloc: Global,
    offset: usize,
    token: Token<'t>,
) -> Result<SaidType<'s, 't>, Fault>
    ensures { Gives said_type_view (proxies.quoted_type offset (token_view token.entry)) result }
{
    if has_escape(&token) {
        return Err(refused(offset, Refusal::Takes(Form::Type)));
    }
    let tokens = placed_tokens(alloc, token.offset, token.text)?;
    Ok(SaidType::Quoted {
        tokens,
        place: token.offset,
    })
}

/// The type that an attribute at an offset says, written out or in a text.
fn said_type<'s, 't>(
    alloc: Global,
    offset: usize,
    passage: Passage<'s, 't>,
) -> Result<SaidType<'s, 't>, Fault>
    ensures { Gives said_type_view (proxies.said_type offset (passage_view passage.entry)) result }
{
    match only_text(passage.tokens) {
        Some(token) => quoted_type(alloc, offset, token),
        None => Ok(SaidType::Plain(passage)),
    }
}

/// The type that stands in for code, which a text names at an offset: by the last name of its path.
///
/// Errors: those of tokens, at that offset; out of memory.
fn stand_in<'s, 't>(
    alloc: Global,
    offset: usize,
    token: Token<'t>,
) -> Result<SaidType<'s, 't>, Fault>
    ensures { Gives said_type_view (proxies.stand_in offset (token_view token.entry)) result }
{
    let found = placed_tokens(alloc, offset, token.text)?;
    let mut tokens = Vec::new(alloc);
    tokens.push(Token {
        offset,
        kind: TokenKind::Name,
        text: STAND_INS,
    })?;
    tokens.push(Token {
        offset,
        kind: TokenKind::PathMark,
        text: "::",
    })?;
    if let Some(last) = found.last() {
        tokens.push(*last)?;
    }
    Ok(SaidType::Quoted {
        tokens,
        place: offset,
    })
}

/// The proxy that an attribute is, if it says a type or is read by code.
fn proxy<'s, 't>(
    alloc: Global,
    attribute: &Attribute<'s, 't>,
) -> Result<Option<Proxy<'s, 't>>, Fault>
    ensures { Gives (option_map proxy_view) (proxies.proxy (attribute_view attribute.now)) result }
{
    let offset = attribute.offset;
    let said = match (attribute.meaning, attribute.value) {
        (_, Value::Type(passage)) => said_type(alloc, offset, passage)?,
        (Meaning::With, Value::Text(token)) => stand_in(alloc, offset, token)?,
        _ => return Ok(None),
    };
    Ok(Some(Proxy { offset, said }))
}

/// The proxies among attributes.
///
/// Errors: a text with an escape, or whose tokens are none; out of memory.
pub(super) fn proxies<'s, 't>(
    alloc: Global,
    found: &[Attribute<'s, 't>],
) -> Result<Vec<Proxy<'s, 't>>, Fault>
    ensures { Gives (λ proxies. map proxy_view proxies.items)
        (proxies.proxies (attributes_view found.now)) result }
{
    let mut proxies = Vec::new(alloc);
    for attribute in found {
        add(&mut proxies, proxy(alloc, attribute)?)?;
    }
    Ok(proxies)
}
