//! Texts and characters.
ghost use Rattle.std.specs.Prelude.{◌≡◌, ◌≤◌, ◌⊎◌, IfOk, IsTrue, length};
ghost use Rattle.facet_solver_types.specs.Spellings.{IsIn};
ghost use Rattle.facet_solver_types.specs.Texts.{begins_character, begins_text, character, character_len, opening_of, text_token};

use super::characters::byte_at;
use super::closings::{closing, hashes, raw_closing};
use super::spelling::{Spelling, whole};
use crate::problem::Problem;
use crate::token::TokenKind;

/// What stands before the quote of a text.
#[derive(Clone, Copy, Debug, PartialEq, Eq)]
struct Opening {
    kind: TokenKind,
    /// Whether `\` is a character like others.
    raw: bool,
    /// How many `#` there are.
    hashes: usize,
    /// Where the quote stands.
    quote: usize,
}

/// What stands before the quote of a text that stands first, if one does.
#[tactic(auto, unfolding(crate::specs::Texts::opening_of))]
fn opening_of(text: &[u8]) -> Opening
    ensures value { result ≡ opening_of text.now }
    ensures within { result.quote ≤ length text.now }
    ensures plain { IsTrue result.raw ⊎ (result.hashes ≡ 0) }
{
    let marked = byte_at(text, 0) == b'b' || byte_at(text, 0) == b'c';
    let raw_at = if marked { 1 } else { 0 };
    let raw = byte_at(text, raw_at) == b'r';
    let hash_at = if raw { raw_at + 1 } else { raw_at };
    let count = if raw { hashes(&text[hash_at..]) } else { 0 };
    Opening {
        kind: if marked {
            TokenKind::OtherText
        } else if raw {
            TokenKind::RawText
        } else {
            TokenKind::Text
        },
        raw,
        hashes: count,
        quote: hash_at + count,
    }
}

/// Whether a text stands first.
pub(super) fn begins_text(text: &[u8]) -> bool
    ensures { result ≡ begins_text text.now }
{
    byte_at(text, opening_of(text).quote) == b'"'
}

/// The text that stands first.
#[tactic(auto, unfolding(crate::specs::Texts::text_token))]
pub(super) fn text_token(text: &[u8]) -> Result<Spelling, Problem>
    requires { IsTrue (begins_text text.now) }
    ensures value { result ≡ text_token text.now }
    ensures within { IfOk result (IsIn text.now) }
{
    let opening = opening_of(text);
    let start = opening.quote + 1;
    let close = if opening.raw {
        raw_closing(opening.hashes, text, start)
    } else {
        closing(b'"', text, start)
    };
    match close {
        None => Err(Problem::OpenText),
        Some(end) => Ok(Spelling {
            kind: opening.kind,
            start,
            end,
            len: end + 1 + opening.hashes,
        }),
    }
}

/// How many bytes a character has that begins with a byte.
fn character_len(byte: u8) -> usize
    ensures { result ≡ character_len byte }
{
    match byte {
        0..0x80 => 1,
        0x80..0xe0 => 2,
        0xe0..0xf0 => 3,
        _ => 4,
    }
}

/// Whether a character's quote stands at an offset: `\` follows, or another quote after one
/// character.
#[tactic(auto, unfolding(crate::specs::Texts::begins_character))]
pub(super) fn begins_character(at: usize, text: &[u8]) -> bool
    requires { at ≤ 1 }
    ensures { result ≡ begins_character at text.now }
{
    let first = byte_at(text, at + 1);
    byte_at(text, at) == b'\''
        && (first == b'\\' || byte_at(text, at + 1 + character_len(first)) == b'\'')
}

/// The character that stands first, whose quote is at an offset.
#[tactic(auto, unfolding(crate::specs::Texts::begins_character, crate::specs::Texts::character))]
pub(super) fn character(at: usize, text: &[u8]) -> Result<Spelling, Problem>
    requires near { at ≤ 1 }
    requires begins { IsTrue (begins_character at text.now) }
    ensures value { result ≡ character at text.now }
    ensures within { IfOk result (IsIn text.now) }
{
    let first = byte_at(text, at + 1);
    if first != b'\\' {
        return Ok(whole(TokenKind::Character, at + 2 + character_len(first)));
    }
    match closing(b'\'', text, at + 1) {
        None => Err(Problem::OpenCharacter),
        Some(end) => Ok(whole(TokenKind::Character, end + 1)),
    }
}
