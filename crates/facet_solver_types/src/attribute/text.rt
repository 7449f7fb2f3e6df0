//! The texts that attributes say.
ghost use Rattle.std.specs.Prelude.{◌≡◌, IfOk, option_map};
ghost use Rattle.std.specs.String.{string_bytes};
ghost use Rattle.facet_solver_types.specs.AttributeTexts.{names_case, said_text, text_of};
ghost use Rattle.facet_solver_types.specs.Outcomes.{Gives};
ghost use Rattle.facet_solver_types.specs.Tokens.{token_view};

use super::meaning::Meaning;
use super::refusal::Refusal;
use crate::case::Case;
use crate::fault::Fault;
use crate::literal::{quoted_value, raw_value};
use crate::problem::Problem;
use crate::token::{Token, TokenKind};
use std::alloc::{AllocError, Global};

/// What a text token says; `None` where it is no text, or Rust reads it as none.
///
/// The only error is out of memory.
pub(crate) fn text_of(alloc: Global, token: &Token<'_>) -> Result<Option<String>, AllocError>
    ensures { IfOk result (λ text. option_map string_bytes text
        ≡ text_of (token_view token.now)) }
{
    match token.kind {
        TokenKind::Text => quoted_value(alloc, token.text),
        TokenKind::RawText => raw_value(alloc, token.text),
        _ => Ok(None),
    }
}

/// Whether the text of an attribute names a case.
fn names_case(meaning: Meaning) -> bool
    ensures { result ≡ names_case meaning }
{
    matches!(meaning, Meaning::RenameAll | Meaning::RenameAllFields)
}

/// The text that an attribute of that meaning says.
///
/// Errors: Rust reads it as none, or it should name a case and doesn't; out of memory.
pub(super) fn said_text(alloc: Global, meaning: Meaning, token: &Token<'_>) -> Result<String, Fault>
    ensures { Gives string_bytes (said_text meaning (token_view token.now)) result }
{
    let Some(text) = text_of(alloc, token)? else {
        return Err(Fault::At {
            offset: token.offset,
            problem: Problem::Attribute(Refusal::NoText),
        });
    };
    if names_case(meaning) && Case::named(&text).is_none() {
        return Err(Fault::At {
            offset: token.offset,
            problem: Problem::Attribute(Refusal::NoCase),
        });
    }
    Ok(text)
}
