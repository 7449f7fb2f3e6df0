//! Where the path of a type leads.
ghost use Rattle.std.specs.Prelude.{◌≡◌, ◌≤◌, length};
ghost use Rattle.facet_solver_types.specs.Origins.{first_text, is_known, is_own, origin_of, origin_view, own_origin};
ghost use Rattle.facet_solver_types.specs.Tokens.{tokens_view};

use super::first::sees_word;
use crate::token::Token;

/// Where a path leads, as far as it tells.
#[derive(Clone, Copy, Debug)]
pub(crate) enum Origin<'t> {
    /// Nowhere: there is none, or it ends with `self`.
    Here,
    /// Out of the module: it ends with `super`.
    Above,
    /// In the crate into the module of this name, or into none.
    Within(&'t str),
    /// It is the name of a module alone.
    Beside(&'t str),
    /// Into a crate whose types are known.
    Known,
    /// It is another, as one of another crate.
    Elsewhere,
}

/// Whether a path begins in the crate of the text.
pub(crate) fn is_own(tokens: &[Token<'_>]) -> bool
    ensures { result ≡ is_own (tokens_view tokens.now) }
{
    sees_word("crate", tokens) || sees_word("self", tokens) || sees_word("super", tokens)
}

/// Whether this is a crate whose types are known.
fn is_known(name: &str) -> bool
    ensures { result ≡ is_known name.now }
{
    match name {
        "std" | "core" | "alloc" | "serde_json" => true,
        _ => false,
    }
}

/// The text of the first token, or nothing.
pub(crate) fn first_text<'t>(tokens: &[Token<'t>]) -> &'t str
    ensures { result.now ≡ first_text (tokens_view tokens.now) }
{
    match tokens.first() {
        Some(token) => token.text,
        None => "",
    }
}

/// Where a path leads that begins in the crate of the text, by the last word of its front.
fn own_origin<'t>(tokens: &[Token<'t>]) -> Origin<'t>
    ensures { origin_view result ≡ own_origin (tokens_view tokens.now) }
{
    if sees_word("self", tokens) {
        Origin::Here
    } else if sees_word("super", tokens) {
        Origin::Above
    } else if sees_word("crate", tokens) {
        Origin::Within("")
    } else {
        Origin::Within(first_text(tokens))
    }
}

/// Where the path leads with which tokens begin, whose front is so long.
pub(super) fn origin_of<'t>(front: usize, tokens: &[Token<'t>]) -> Origin<'t>
    requires { front ≤ length tokens.now }
    ensures { origin_view result ≡ origin_of front (tokens_view tokens.now) }
{
    if front == 0 {
        Origin::Here
    } else if is_own(tokens) {
        own_origin(&tokens[front.saturating_sub(2)..])
    } else if is_known(first_text(tokens)) {
        Origin::Known
    } else if front == 2 {
        Origin::Beside(first_text(tokens))
    } else {
        Origin::Elsewhere
    }
}
