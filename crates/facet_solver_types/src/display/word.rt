//! Names and keywords.
ghost use Rattle.std.specs.Prelude.{◌≡◌, Some};
ghost use Rattle.facet_solver_types.specs.PrintedTexts as texts;

use crate::keyword::is_keyword;
use std::fmt;

/// Whether a text is a name of ASCII letters, and no keyword.
pub(super) fn is_plain_name(text: &str) -> bool
    ensures { result ≡ texts.is_plain_name text.now }
{
    is_word(text.as_bytes()) && !is_keyword(text.as_bytes())
}

/// Whether bytes are ASCII letters, digits and `_`, and begin with no digit.
fn is_word(bytes: &[u8]) -> bool
    ensures { result ≡ texts.is_word bytes.now }
{
    match bytes.split_first() {
        None => false,
        Some((first, rest)) => begins_word(*first) && go_on_in_word(rest),
    }
}

/// Whether a word may go on with bytes.
fn go_on_in_word(bytes: &[u8]) -> bool
    ensures { result ≡ texts.go_on_in_word bytes.now }
{
    bytes.iter().all(|byte| goes_on_in_word(*byte))
}

/// Whether a word may begin with a byte.
fn begins_word(byte: u8) -> bool
    ensures { result ≡ texts.begins_word byte }
{
    byte.is_ascii_alphabetic() || byte == b'_'
}

/// Whether a word may go on with a byte.
fn goes_on_in_word(byte: u8) -> bool
    ensures { result ≡ texts.goes_on_in_word byte }
{
    byte.is_ascii_alphanumeric() || byte == b'_'
}

/// A declared name, raw where it is a keyword.
#[derive(Drop)]
pub(crate) struct Declared<'t>(pub(crate) &'t str);

impl fmt::Display for Declared<'_> {
    ghost output = { λ d. Some (texts.declared d.0.now) };

    fn fmt<W: fmt::Write>(&self, f: &mut fmt::Formatter<W>) -> fmt::Result {
        let name = self.0;
        if is_keyword(name.as_bytes()) {
            return write!(f, "r#{name}");
        }
        write!(f, "{name}")
    }
}
