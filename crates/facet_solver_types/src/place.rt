//! Lines and columns.
ghost use Rattle.std.specs.Prelude.{◌≡◌, ◌≤◌, Some, length};
ghost use Rattle.facet_solver_types.specs.PlaceTexts.{place_text};
ghost use Rattle.facet_solver_types.specs.Places.{begins_character, column_at, line_at, place_at, without_mark};

use std::fmt;

/// A place in a text. It counts from 1.
#[derive(Clone, Copy, Debug, PartialEq, Eq)]
pub struct Place {
    /// The line. A line feed ends one.
    pub line: usize,
    /// The column, in characters. A byte order mark at the text's start has none.
    pub column: usize,
}

/// As `3:18`.
impl fmt::Display for Place {
    ghost output = { λ p. Some (place_text p) };

    fn fmt<W: fmt::Write>(&self, f: &mut fmt::Formatter<W>) -> fmt::Result {
        let Place { line, column } = self;
        write!(f, "{line}:{column}")
    }
}

/// The place of an offset.
pub(crate) fn place_at(text: &str, offset: usize) -> Place
    requires { offset ≤ length text.now }
    ensures { result ≡ place_at offset text.now }
{
    Place {
        line: line_at(text, offset),
        column: column_at(text, offset),
    }
}

/// The line of an offset, counted from 1. A line ends with a line feed.
fn line_at(text: &str, offset: usize) -> usize
    requires { offset ≤ length text.now }
    ensures { result ≡ line_at offset text.now }
{
    let before = &text.as_bytes()[..offset];
    1 + before.iter().filter(|byte| **byte == b'\n').count()
}

/// The column of an offset, counted from 1, in characters.
fn column_at(text: &str, offset: usize) -> usize
    requires { offset ≤ length text.now }
    ensures { result ≡ column_at offset text.now }
{
    let before = &text.as_bytes()[..offset];
    let mut column = 1;
    for byte in before {
        if *byte == b'\n' {
            column = 1;
        } else if begins_character(*byte) {
            column += 1;
        }
    }
    column
}

/// Whether a character of UTF-8 begins with a byte.
fn begins_character(byte: u8) -> bool
    ensures { result ≡ begins_character byte }
{
    byte < 0x80 || byte >= 0xc0
}

/// A text without a byte order mark that stands first.
pub(crate) fn without_mark(text: &str) -> &str
    ensures { result.now ≡ without_mark text.now }
{
    if text.as_bytes().starts_with(&[0xef, 0xbb, 0xbf]) {
        &text[3..]
    } else {
        text
    }
}
