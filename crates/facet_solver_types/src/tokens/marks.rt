//! Marks and brackets.
ghost use Rattle.std.specs.Prelude.{◌≡◌, ◌<◌, IfOk, length};
ghost use Rattle.facet_solver_types.specs.MarkTokens.{mark, single};
ghost use Rattle.facet_solver_types.specs.Spellings.{IsIn};

use super::characters::byte_at;
use super::spelling::{Spelling, whole};
use crate::problem::Problem;
use crate::token::{Bracket, TokenKind};

/// The bracket or mark that one character is: ASCII's marks, but '`' and '\'.
fn single(byte: u8) -> Option<TokenKind>
    ensures { result ≡ single byte }
{
    match byte {
        b'(' => Some(TokenKind::Open(Bracket::Round)),
        b')' => Some(TokenKind::Close(Bracket::Round)),
        b'[' => Some(TokenKind::Open(Bracket::Square)),
        b']' => Some(TokenKind::Close(Bracket::Square)),
        b'{' => Some(TokenKind::Open(Bracket::Curly)),
        b'}' => Some(TokenKind::Close(Bracket::Curly)),
        b'\\' | b'`' => None,
        _ if byte.is_ascii_punctuation() => Some(TokenKind::Mark(byte)),
        _ => None,
    }
}

/// The mark or bracket that stands first: `::`, `->`, `=>` or one character.
#[tactic(auto, unfolding(crate::specs::MarkTokens::mark))]
pub(super) fn mark(text: &[u8]) -> Result<Spelling, Problem>
    requires { 0 < length text.now }
    ensures value { result ≡ mark text.now }
    ensures within { IfOk result (IsIn text.now) }
{
    match (byte_at(text, 0), byte_at(text, 1)) {
        (b':', b':') => Ok(whole(TokenKind::PathMark, 2)),
        (b'-', b'>') => Ok(whole(TokenKind::Arrow, 2)),
        (b'=', b'>') => Ok(whole(TokenKind::FatArrow, 2)),
        (first, _) => match single(first) {
            None => Err(Problem::NoToken(first)),
            Some(kind) => Ok(whole(kind, 1)),
        },
    }
}
