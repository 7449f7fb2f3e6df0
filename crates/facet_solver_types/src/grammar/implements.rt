//! For what type an impl of a trait that reads documents stands.
ghost use Rattle.std.specs.Prelude.{◌≡◌, ◌<◌, IsTrue, length, option_map};
ghost use Rattle.facet_solver_types.specs.Implements.{first_name, implemented, implemented_after, last_part, sees_reader, type_after};
ghost use Rattle.facet_solver_types.specs.Passages.{passage_view};
ghost use Rattle.facet_solver_types.specs.Tokens.{token_view, tokens_view};

use super::attributes::is_named;
use super::first::{is_name, sees_word};
use super::parameters::after_parameters;
use super::written::front_len;
use crate::passage::Passage;
use crate::token::Token;

/// The last part of the path that stands first, and what stands after it.
fn last_part<'s, 't>(passage: Passage<'s, 't>) -> Passage<'s, 't>
    ensures { passage_view result ≡ last_part (passage_view passage.entry) }
{
    passage.after(front_len(passage.tokens))
}

/// Whether the name of a trait that reads documents stands first.
fn sees_reader(tokens: &[Token<'_>]) -> bool
    ensures value { result ≡ sees_reader (tokens_view tokens.now) }
    ensures some { IsTrue result → 0 < length tokens.now }
{
    match tokens.first() {
        Some(token) => is_named("Deserialize", token) || is_named("Facet", token),
        None => false,
    }
}

/// The name that stands first, if one does.
fn first_name<'t>(tokens: &[Token<'t>]) -> Option<Token<'t>>
    ensures { option_map token_view result ≡ first_name (tokens_view tokens.now) }
{
    match tokens.first() {
        Some(token) if is_name(token.kind) => Some(*token),
        _ => None,
    }
}

/// The name of the type of an impl, after the name of its trait.
fn type_after<'t>(passage: Passage<'_, 't>) -> Option<Token<'t>>
    ensures { option_map token_view result ≡ type_after (passage_view passage.entry) }
{
    let rest = after_parameters(passage);
    if !sees_word("for", rest.tokens) {
        return None;
    }
    first_name(last_part(rest.after(1)).tokens)
}

/// The name of the type for which a trait that reads documents is implemented, after `impl`.
fn implemented_after<'t>(passage: Passage<'_, 't>) -> Option<Token<'t>>
    ensures { option_map token_view result ≡ implemented_after (passage_view passage.entry) }
{
    let rest = last_part(after_parameters(passage));
    if !sees_reader(rest.tokens) {
        return None;
    }
    type_after(rest.after(1))
}

/// The name of the type for which a trait that reads documents is implemented, in an impl.
pub(super) fn implemented<'t>(passage: Passage<'_, 't>) -> Option<Token<'t>>
    ensures { option_map token_view result ≡ implemented (passage_view passage.entry) }
{
    if !sees_word("impl", passage.tokens) {
        return None;
    }
    implemented_after(passage.after(1))
}
