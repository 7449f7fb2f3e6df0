//! Why an attribute is refused.
ghost use Rattle.std.specs.Prelude.{Some};
ghost use Rattle.facet_solver_types.specs.Refusals.{form_text, misused_text, refusal_text};

use super::help::help_for;
use super::meaning::Misuse;
use super::value::Form;
use std::fmt;

/// Why an attribute is refused.
#[derive(Clone, Copy, Debug, PartialEq, Eq)]
pub enum Refusal {
    /// It means nothing there.
    Misused(Misuse),
    /// It takes this, and has something else.
    Takes(Form),
    /// Rust reads its text as none.
    NoText,
    /// Its text names no case.
    NoCase,
    /// One before it excludes it.
    Clashes,
    /// It is `content`, and `tag` isn't there.
    NoTag,
    /// It is `transparent`, and a field is flattened.
    Flattens,
    /// It is a name that isn't ASCII, under a case.
    NotAscii,
}

/// Why the attribute is refused that is met, or whose value is.
#[derive(Clone, Copy)]
pub(crate) struct Refused<'t> {
    pub(crate) refusal: Refusal,
    pub(crate) met: &'t str,
}

impl fmt::Display for Refused<'_> {
    ghost output = { λ r. Some (refusal_text r.refusal r.met.now) };

    fn fmt<W: fmt::Write>(&self, f: &mut fmt::Formatter<W>) -> fmt::Result {
        let met = self.met;
        match self.refusal {
            Refusal::Misused(misuse) => {
                let misused = Misused { misuse, met };
                write!(f, "{misused}")
            }
            Refusal::Takes(form) => write!(f, "'{met}' takes {form}"),
            Refusal::NoText => write!(f, "no text: {met}"),
            Refusal::NoCase => write!(f, "no case: {met}"),
            Refusal::Clashes => write!(f, "'{met}' and one before it exclude each other"),
            Refusal::NoTag => write!(f, "'{met}' asks for a 'tag' beside it"),
            Refusal::Flattens => write!(f, "'{met}' and a flattened field exclude each other"),
            Refusal::NotAscii => write!(f, "'{met}' cannot be said in a case: write 'rename'"),
        }
    }
}

/// Why the attribute means nothing there that is met.
#[derive(Clone, Copy)]
struct Misused<'t> {
    misuse: Misuse,
    met: &'t str,
}

impl fmt::Display for Misused<'_> {
    ghost output = { λ m. Some (misused_text m.misuse m.met.now) };

    fn fmt<W: fmt::Write>(&self, f: &mut fmt::Formatter<W>) -> fmt::Result {
        let met = self.met;
        match self.misuse {
            Misuse::Unknown => write!(f, "'{met}' is no attribute of serde or facet"),
            Misuse::Misplaced => write!(f, "'{met}' means nothing here"),
            Misuse::Unsupported => match help_for(met) {
                Some(help) => write!(f, "'{met}' cannot be said: {help}"),
                None => write!(f, "'{met}' cannot be said"),
            },
        }
    }
}

impl fmt::Display for Form {
    ghost output = { λ form. Some (form_text form) };

    fn fmt<W: fmt::Write>(&self, f: &mut fmt::Formatter<W>) -> fmt::Result {
        match self {
            Form::Nothing => write!(f, "nothing"),
            Form::Default => write!(f, "nothing, or a value after '='"),
            Form::Text | Form::Names => write!(f, "a text"),
            Form::Type => write!(f, "a type"),
            Form::Value => write!(f, "a value"),
            Form::Anything => write!(f, "anything"),
        }
    }
}
