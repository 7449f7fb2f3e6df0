//! What stands first in a text.
ghost use Rattle.std.specs.Prelude.{◌≡◌, ◌<◌, ◌≤◌, IfOk, length};
ghost use Rattle.std.specs.Str.{IsUtf8};
ghost use Rattle.facet_solver_types.specs.FirstParts.{IsPartOf, MayCut, first_part, first_token, gap_len};
ghost use Rattle.facet_solver_types.specs.Spellings.{IsIn};

use super::characters::{begins_name, blank_len, byte_at};
use super::closings::{comment_end, line_end};
use super::marks::mark;
use super::spelling::Spelling;
use super::texts::{begins_character, begins_text, character, text_token};
use super::words::{begins_lifetime, begins_raw_name, lifetime, number, raw_name, word};
use crate::problem::Problem;

/// What stands first in a text.
#[derive(Clone, Copy, Debug, PartialEq, Eq)]
pub(super) enum Part {
    /// A blank or a comment, of so many bytes.
    Gap(usize),
    /// A token.
    Spelled(Spelling),
}

/// How many bytes a comment or a blank takes that stands first, or 0 where none does.
#[tactic(auto, unfolding(crate::specs::FirstParts::gap_len))]
fn gap_len(text: &[u8]) -> Result<usize, Problem>
    ensures value { result ≡ gap_len text.now }
    ensures within { IfOk result (λ len. len ≤ length text.now) }
{
    match (byte_at(text, 0), byte_at(text, 1)) {
        (b'/', b'/') => Ok(line_end(text, 2)),
        (b'/', b'*') => comment_end(text, 2).ok_or(Problem::OpenComment),
        _ => Ok(blank_len(text)),
    }
}

/// The token that stands first.
#[tactic(auto, unfolding(crate::specs::FirstParts::first_token))]
fn first_token(text: &[u8]) -> Result<Spelling, Problem>
    requires { 0 < length text.now }
    ensures value { result ≡ first_token text.now }
    ensures within { IfOk result (IsIn text.now) }
{
    let first = byte_at(text, 0);
    if begins_text(text) {
        text_token(text)
    } else if begins_character(0, text) {
        character(0, text)
    } else if first == b'b' && begins_character(1, text) {
        character(1, text)
    } else if begins_lifetime(text) {
        Ok(lifetime(text))
    } else if begins_raw_name(text) {
        Ok(raw_name(text))
    } else if begins_name(text) {
        Ok(word(text))
    } else if first.is_ascii_digit() {
        Ok(number(text))
    } else {
        mark(text)
    }
}

/// What stands first in a text: a comment, a blank or a token.
#[tactic(auto, unfolding(crate::specs::FirstParts::first_part))]
pub(super) fn first_part(text: &[u8]) -> Result<Part, Problem>
    requires { 0 < length text.now }
    ensures value { result ≡ first_part text.now }
    ensures within { IfOk result (IsPartOf text.now) }
    ensures cut { IsUtf8 text.now → IfOk result (MayCut text.now) }
{
    let gap = gap_len(text)?;
    if gap == 0 {
        Ok(Part::Spelled(first_token(text)?))
    } else {
        Ok(Part::Gap(gap))
    }
}
