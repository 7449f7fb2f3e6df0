//! What stands before an item or a field: attributes and `pub`.
ghost use Rattle.std.specs.Prelude.{◌≡◌, ◌<◌, ◌≤◌, IsTrue, length};
ghost use Rattle.facet_solver_types.specs.Prefixes.{attribute_len, attribute_marks, attributes_len, begins_attribute, begins_restriction, names_module, visibility_len};
ghost use Rattle.facet_solver_types.specs.Tokens.{tokens_view};

use super::first::{sees_close, sees_mark, sees_open, sees_word};
use super::run::group_len;
use crate::token::{Bracket, Token};

/// How many marks stand before the bracket of an attribute: `#`, and `!` where it is an inner one.
fn attribute_marks(inner: bool) -> usize
    ensures { result ≡ attribute_marks inner }
{
    if inner { 2 } else { 1 }
}

/// Whether an attribute stands first.
#[tactic(auto, unfolding(crate::specs::Prefixes::begins_attribute))]
pub(super) fn begins_attribute(inner: bool, tokens: &[Token<'_>]) -> bool
    ensures value { result ≡ begins_attribute inner (tokens_view tokens.now) }
    ensures some { IsTrue result → attribute_marks inner < length tokens.now }
{
    if !sees_mark(b'#', tokens) {
        return false;
    }
    if !inner {
        return sees_open(Bracket::Square, &tokens[1..]);
    }
    sees_mark(b'!', &tokens[1..]) && sees_open(Bracket::Square, &tokens[2..])
}

/// How many tokens an attribute has.
pub(super) fn attribute_len(inner: bool, tokens: &[Token<'_>]) -> usize
    requires { attribute_marks inner < length tokens.now }
    ensures value { result ≡ attribute_len inner (tokens_view tokens.now) }
    ensures within { (0 < result) × (result ≤ length tokens.now) }
{
    let marks = attribute_marks(inner);
    marks + group_len(&tokens[marks..])
}

/// How many tokens the attributes have that stand first.
pub(super) fn attributes_len(inner: bool, tokens: &[Token<'_>]) -> usize
    ensures value { result ≡ attributes_len inner (tokens_view tokens.now) }
    ensures within { result ≤ length tokens.now }
{
    let mut len = 0;
    while begins_attribute(inner, &tokens[len..]) {
        len += attribute_len(inner, &tokens[len..]);
    }
    len
}

/// Whether `crate`, `self` or `super` stands first.
fn names_module(tokens: &[Token<'_>]) -> bool
    ensures value { result ≡ names_module (tokens_view tokens.now) }
    ensures some { IsTrue result → 0 < length tokens.now }
{
    sees_word("crate", tokens) || sees_word("self", tokens) || sees_word("super", tokens)
}

/// Whether brackets stand first that restrict a `pub`: `(crate)`, `(self)`, `(super)` or
/// `(in ..)`.
fn begins_restriction(tokens: &[Token<'_>]) -> bool
    ensures value { result ≡ begins_restriction (tokens_view tokens.now) }
    ensures some { IsTrue result → 0 < length tokens.now }
{
    if !sees_open(Bracket::Round, tokens) {
        return false;
    }
    let place = &tokens[1..];
    sees_word("in", place) || (names_module(place) && sees_close(&place[1..]))
}

/// How many tokens `pub` has, with its restriction, or 0 where it does not stand first.
pub(super) fn visibility_len(tokens: &[Token<'_>]) -> usize
    ensures value { result ≡ visibility_len (tokens_view tokens.now) }
    ensures within { result ≤ length tokens.now }
{
    if !sees_word("pub", tokens) {
        return 0;
    }
    let after = &tokens[1..];
    if begins_restriction(after) {
        1 + group_len(after)
    } else {
        1
    }
}
