//! Why a text was not read as JSON.
ghost use Rattle.std.specs.Prelude.{◌≡◌, Some};
ghost use Rattle.facet_solver_json.specs.declared.error.JsonError.TheVariants.{OutOfMemory};
ghost use Rattle.facet_solver_json.specs.ErrorTexts.{error_text};

use crate::reason::Reason;
use std::alloc::AllocError;
use std::error::Error;
use std::fmt;

/// Why a text was not read.
///
/// It prints as `3:18: invalid JSON: ',' or ']' was expected`, line and column first, or as
/// `out of memory`.
#[derive(Clone, Copy, Debug, Drop, PartialEq, Eq)]
pub enum JsonError {
    /// The text is no JSON, or nests deeper than 128 lists and objects.
    Invalid {
        /// The line of the first token that cannot stand where it stands, counted from 1.
        line: usize,
        /// Its column, counted from 1, in characters.
        column: usize,
        /// Why it cannot.
        reason: Reason,
    },
    /// Out of memory.
    OutOfMemory,
}

impl From<AllocError> for JsonError {
    ghost from_gives = { λ _ e. e ≡ OutOfMemory };

    fn from(_refused: AllocError) -> JsonError {
        JsonError::OutOfMemory
    }
}

impl fmt::Display for JsonError {
    ghost output = { λ e. Some (error_text e) };

    fn fmt<W: fmt::Write>(&self, f: &mut fmt::Formatter<W>) -> fmt::Result {
        match self {
            JsonError::Invalid {
                line,
                column,
                reason,
            } => write!(f, "{line}:{column}: invalid JSON: {reason}"),
            JsonError::OutOfMemory => write!(f, "out of memory"),
        }
    }
}

impl Error for JsonError {}
