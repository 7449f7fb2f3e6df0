//! What the text tokens of Rust say.
ghost use Rattle.std.specs.Prelude.{◌≡◌, IfOk, option_map, encode_utf8_all};
ghost use Rattle.std.specs.Str.{chars};
ghost use Rattle.std.specs.String.{string_bytes};
ghost use Rattle.facet_solver_types.specs.Literals as literals;

mod escape;

use escape::escape;
use std::alloc::{AllocError, Global};

/// What a text token says, of which this stands between the quotes; `None` where Rust reads no
/// text: an escape that there isn't, a `"` or a carriage return without a line feed.
///
/// The only error is out of memory.
pub fn quoted_value(alloc: Global, text: &str) -> Result<Option<String>, AllocError>
    ensures { IfOk result (λ value. option_map string_bytes value
        ≡ literals.quoted_value text.now) }
{
    let letters = letters_of(alloc, text)?;
    said(alloc, &letters)
}

/// What a raw text token says, of which this stands between the quotes: the same, where a carriage
/// return before a line feed doesn't count; `None` where another carriage return is in it.
///
/// The only error is out of memory.
pub fn raw_value(alloc: Global, text: &str) -> Result<Option<String>, AllocError>
    ensures { IfOk result (λ value. option_map string_bytes value ≡ literals.raw_value text.now) }
{
    let letters = letters_of(alloc, text)?;
    if has_return(&letters) {
        return Ok(None);
    }
    Ok(Some(text_of(alloc, &letters)?))
}

/// The letters of a text, but no carriage return before a line feed.
fn letters_of(alloc: Global, text: &str) -> Result<Vec<char>, AllocError>
    ensures { IfOk result (λ letters. letters.items ≡ literals.unix_lines (chars text.now)) }
{
    unix_lines(alloc, &all_letters(alloc, text)?)
}

/// The letters of a text.
fn all_letters(alloc: Global, text: &str) -> Result<Vec<char>, AllocError>
    ensures { IfOk result (λ letters. letters.items ≡ chars text.now) }
{
    text.chars().collect(alloc)
}

/// Letters, but no carriage return before a line feed.
fn unix_lines(alloc: Global, letters: &[char]) -> Result<Vec<char>, AllocError>
    ensures { IfOk result (λ lines. lines.items ≡ literals.unix_lines letters.now) }
{
    let mut lines = Vec::new(alloc);
    let mut rest = letters;
    while let Some((letter, behind)) = rest.split_first() {
        if !(*letter == '\r' && begins_with_feed(behind)) {
            lines.push(*letter)?;
        }
        rest = behind;
    }
    Ok(lines)
}

/// Whether there is a carriage return among letters.
fn has_return(letters: &[char]) -> bool
    ensures { result ≡ literals.has_return letters.now }
{
    letters.iter().any(|letter| *letter == '\r')
}

/// Whether a line feed comes first.
fn begins_with_feed(letters: &[char]) -> bool
    ensures { result ≡ literals.begins_with_feed letters.now }
{
    matches!(letters.first(), Some('\n'))
}

/// The text of letters.
fn text_of(alloc: Global, letters: &[char]) -> Result<String, AllocError>
    ensures { IfOk result (λ text. string_bytes text ≡ encode_utf8_all letters.now) }
{
    let mut text = String::new(alloc);
    for letter in letters {
        text.push(*letter)?;
    }
    Ok(text)
}

/// What the letters of a text token say.
fn said(alloc: Global, letters: &[char]) -> Result<Option<String>, AllocError>
    ensures { IfOk result (λ value. option_map string_bytes value
        ≡ option_map encode_utf8_all (literals.said literals.nothing letters.now)) }
{
    let mut text = String::new(alloc);
    let mut rest = letters;
    while let Some((letter, behind)) = rest.split_first() {
        match *letter {
            '\\' => {
                let Some((letter, behind)) = escape(behind) else {
                    return Ok(None);
                };
                if let Some(letter) = letter {
                    text.push(letter)?;
                }
                rest = behind;
            }
            '"' | '\r' => return Ok(None),
            letter => {
                text.push(letter)?;
                rest = behind;
            }
        }
    }
    Ok(Some(text))
}
