//! What a document has where something else is wanted.
ghost use Rattle.facet_solver_reader.specs.Documents.{view};
ghost use Rattle.facet_solver_reader.specs.Given.{IsGiven};

use crate::document::{Document, Number};
use std::fmt;

/// The characters of a text or a number that are told.
const TOLD: usize = 40;

/// A value of a document, as errors tell it.
#[derive(Clone, Copy, Debug, PartialEq, Eq)]
pub enum Given<'d> {
    /// Null.
    Null,
    /// A truth value.
    Bool(bool),
    /// A number.
    Number(Number<'d>),
    /// A text.
    Text(&'d str),
    /// A list of so many values.
    List(usize),
    /// An object of so many members.
    Object(usize),
}

impl<'d> Given<'d> {
    /// What is told of a value.
    pub(crate) fn of(document: &Document<'d>) -> Given<'d>
        ensures { IsGiven (view document.now) result }
    {
        match document {
            Document::Null => Given::Null,
            Document::Bool(is_true) => Given::Bool(*is_true),
            Document::Number(number) => Given::Number(*number),
            Document::Text(text) => Given::Text(text),
            Document::List(values) => Given::List(values.len()),
            Document::Object(members) => Given::Object(members.len()),
        }
    }
}

/// As `null`, `300`, `the text "3"` or `a list`. Of a long text the first characters are written,
/// and dots behind them.
impl fmt::Display for Given<'_> {
    fn fmt<W: fmt::Write>(&self, f: &mut fmt::Formatter<W>) -> fmt::Result {
        match self {
            Given::Null => f.write_str("null"),
            Given::Bool(is_true) => write!(f, "{is_true}"),
            Given::Number(number) => {
                let text = number.text();
                let told = told_of(text);
                f.write_str(told)?;
                write_rest(text, told, f)
            }
            Given::Text(text) => {
                let told = told_of(text);
                write!(f, "the text {told:?}")?;
                write_rest(text, told, f)
            }
            Given::List(_) => f.write_str("a list"),
            Given::Object(_) => f.write_str("an object"),
        }
    }
}

/// Writes a value where texts alone stand, a text between quotes, as `'Ftp'` or `5`.
pub(super) fn write_given<W: fmt::Write>(
    given: &Given<'_>,
    f: &mut fmt::Formatter<W>,
) -> fmt::Result {
    match given {
        Given::Text(text) => write_text(text, f),
        _ => write!(f, "{given}"),
    }
}

/// Writes a text between quotes, if it is short, or else its first characters and dots.
pub(super) fn write_text<W: fmt::Write>(text: &str, f: &mut fmt::Formatter<W>) -> fmt::Result {
    let told = told_of(text);
    write!(f, "'{told}'")?;
    write_rest(text, told, f)
}

/// The first characters of a text.
fn told_of(text: &str) -> &str {
    match text.char_indices().nth(TOLD) {
        Some((end, _)) => &text[..end],
        None => text,
    }
}

/// Writes dots, if not all of a text was told.
fn write_rest<W: fmt::Write>(text: &str, told: &str, f: &mut fmt::Formatter<W>) -> fmt::Result {
    if told.len() < text.len() {
        f.write_str("...")
    } else {
        Ok(())
    }
}
