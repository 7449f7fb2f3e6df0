//! What the first of some tokens is.
ghost use Rattle.std.specs.Prelude.{◌≡◌, ◌<◌, IsTrue, length};
ghost use Rattle.facet_solver_types.specs.FirstTokens.{is_lifetime, is_name, is_open, is_path, is_word, sees_bracket, sees_close, sees_mark, sees_name, sees_open, sees_path, sees_word};
ghost use Rattle.facet_solver_types.specs.Tokens.{tokens_view};

use super::run::{is_close, is_mark};
use crate::token::{Bracket, Token, TokenKind, same_bracket};

/// Whether a token opens a bracket.
pub(crate) fn is_open(bracket: Bracket, kind: TokenKind) -> bool
    ensures { result ≡ is_open bracket kind }
{
    match kind {
        TokenKind::Open(other) => same_bracket(bracket, other),
        _ => false,
    }
}

/// Whether the first token is this mark.
pub(crate) fn sees_mark(byte: u8, tokens: &[Token<'_>]) -> bool
    ensures value { result ≡ sees_mark byte (tokens_view tokens.now) }
    ensures some { IsTrue result → 0 < length tokens.now }
{
    match tokens.first() {
        Some(token) => is_mark(byte, token.kind),
        None => false,
    }
}

/// Whether the first token opens this bracket.
pub(super) fn sees_open(bracket: Bracket, tokens: &[Token<'_>]) -> bool
    ensures value { result ≡ sees_open bracket (tokens_view tokens.now) }
    ensures some { IsTrue result → 0 < length tokens.now }
{
    match tokens.first() {
        Some(token) => is_open(bracket, token.kind),
        None => false,
    }
}

/// Whether the first token opens a bracket.
pub(super) fn sees_bracket(tokens: &[Token<'_>]) -> bool
    ensures value { result ≡ sees_bracket (tokens_view tokens.now) }
    ensures some { IsTrue result → 0 < length tokens.now }
{
    sees_open(Bracket::Curly, tokens)
        || sees_open(Bracket::Round, tokens)
        || sees_open(Bracket::Square, tokens)
}

/// Whether the first token closes a bracket.
pub(super) fn sees_close(tokens: &[Token<'_>]) -> bool
    ensures { result ≡ sees_close (tokens_view tokens.now) }
{
    match tokens.first() {
        Some(token) => is_close(token.kind),
        None => false,
    }
}

/// Whether a token of this kind and text is a keyword.
pub(super) fn is_word(word: &str, kind: TokenKind, text: &str) -> bool
    ensures { result ≡ is_word word.now kind text.now }
{
    match kind {
        TokenKind::Keyword => text == word,
        _ => false,
    }
}

/// Whether the first token is this keyword.
pub(crate) fn sees_word(word: &str, tokens: &[Token<'_>]) -> bool
    ensures value { result ≡ sees_word word.now (tokens_view tokens.now) }
    ensures some { IsTrue result → 0 < length tokens.now }
{
    match tokens.first() {
        Some(token) => is_word(word, token.kind, token.text),
        None => false,
    }
}

/// Whether a token is a name.
pub(crate) fn is_name(kind: TokenKind) -> bool
    ensures { result ≡ is_name kind }
{
    match kind {
        TokenKind::Name | TokenKind::RawName => true,
        _ => false,
    }
}

/// Whether the first token is a name.
pub(super) fn sees_name(tokens: &[Token<'_>]) -> bool
    ensures value { result ≡ sees_name (tokens_view tokens.now) }
    ensures some { IsTrue result → 0 < length tokens.now }
{
    match tokens.first() {
        Some(token) => is_name(token.kind),
        None => false,
    }
}

/// Whether a token is a lifetime.
pub(super) fn is_lifetime(kind: TokenKind) -> bool
    ensures { result ≡ is_lifetime kind }
{
    match kind {
        TokenKind::Lifetime => true,
        _ => false,
    }
}

/// Whether the first token is `::`.
pub(crate) fn sees_path(tokens: &[Token<'_>]) -> bool
    ensures value { result ≡ sees_path (tokens_view tokens.now) }
    ensures some { IsTrue result → 0 < length tokens.now }
{
    match tokens.first() {
        Some(token) => is_path(token.kind),
        None => false,
    }
}

/// Whether a token is `::`.
pub(super) fn is_path(kind: TokenKind) -> bool
    ensures { result ≡ is_path kind }
{
    match kind {
        TokenKind::PathMark => true,
        _ => false,
    }
}
