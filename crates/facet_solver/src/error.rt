//! Why a document does not have exactly one resolution, and the text of that.
ghost use Rattle.std.specs.Prelude.{◌≡◌};
ghost use Rattle.facet_solver.specs.declared.error.SolverError.TheVariants.{OutOfMemory};
ghost use Rattle.facet_solver.specs.error.ErrorTexts.{error_output};
ghost use Rattle.facet_solver.specs.error.ErrorView.{error_view};

mod ambiguous;
mod failure;
mod no_match;
mod quoted;

use crate::error::ambiguous::Hint;
use crate::error::no_match::{Reasons, UnknownEnd};
use crate::error::quoted::Quoted;
use std::alloc::AllocError;
use std::error::Error;
use std::fmt;

/// A required field that no seen key matches.
#[derive(Debug, Drop)]
pub struct MissingFieldInfo<'c> {
    /// Its name in a document.
    pub name: &'c str,
    /// The text of its path in the type.
    pub path: String,
    /// The type identifier of its shape.
    pub defined_in: String,
}

/// Why a resolution is not the answer.
#[derive(Debug, Drop)]
pub struct CandidateFailure<'c> {
    /// The description of the resolution.
    pub variant_name: String,
    /// The required fields of it that no seen key matches, by stored key.
    pub missing_fields: Vec<MissingFieldInfo<'c>>,
    /// The names of the seen keys that mean no field of it, in key order.
    pub unknown_fields: Vec<String>,
    /// Always 0: names are not compared for likeness.
    pub suggestion_matches: usize,
}

/// Why a document does not have exactly one resolution.
///
/// The texts below are stated byte for byte where all names in printed lists are ASCII. A list
/// prints as `{:?}` prints a list of texts, with quotes and escapes. All that stands in no list
/// prints as it is.
///
/// `NoMatch` prints `No matching configuration for fields INPUT_FIELDS`, then:
/// - where there are failures, an empty line, `No variant matched:`, and for each a line: two
///   blanks, `- ` and its `variant_name`; `: missing field 'NAME'` for one missing field and `:
///   missing fields LIST` for more; and for unknown fields `: unknown fields LIST`, with a comma
///   for the colon where a field is missing;
/// - where there are none, ` (closest match: RESOLUTION)` if a closest resolution is given, and
///   then, if `missing_required_detailed` is not empty, `; missing required fields:` and ` NAME (at
///   path: PATH)` for each;
/// - where `unknown_fields` is not empty, an empty line and `Unknown fields: LIST`.
///
/// No line feed ends it. Nothing of `missing_required` is printed.
///
/// `Ambiguous` prints `Ambiguous: multiple resolutions match: CANDIDATES`. Where
/// `disambiguating_fields` is not empty, `; try adding one of these fields to disambiguate: LIST`
/// follows. `OutOfMemory` prints `out of memory`.
#[derive(Debug, Drop)]
pub enum SolverError<'c> {
    /// No candidate has all its required fields seen.
    NoMatch {
        /// The names of the seen keys, in key order, one for each key.
        input_fields: Vec<String>,
        /// The names of the fields that the closest resolution lacks, by stored key.
        missing_required: Vec<&'c str>,
        /// The fields that the closest resolution lacks, by stored key.
        missing_required_detailed: Vec<MissingFieldInfo<'c>>,
        /// The names of the seen keys that mean no field of any resolution of the schema, in key
        /// order.
        unknown_fields: Vec<String>,
        /// The description of the first candidate, if one is left.
        closest_resolution: Option<String>,
        /// Why each candidate is not the answer, in order; where no candidate is left, why each
        /// resolution is not.
        candidate_failures: Vec<CandidateFailure<'c>>,
    },
    /// Several candidates have all their required fields seen.
    Ambiguous {
        /// Their descriptions, in the order of the resolutions, one for each.
        candidates: Vec<String>,
        /// The names that some but not all of them have, in byte order, each once.
        disambiguating_fields: Vec<String>,
    },
    /// Out of memory.
    OutOfMemory,
}

impl<'c> From<AllocError> for SolverError<'c> {
    ghost from_gives = { λ _ e. e ≡ OutOfMemory };

    fn from(_refused: AllocError) -> SolverError<'c> {
        SolverError::OutOfMemory
    }
}

impl fmt::Display for SolverError<'_> {
    ghost output = { λ e. error_output (error_view e) };

    fn fmt<W: fmt::Write>(&self, f: &mut fmt::Formatter<W>) -> fmt::Result {
        match self {
            SolverError::NoMatch {
                input_fields,
                missing_required: _,
                missing_required_detailed,
                unknown_fields,
                closest_resolution,
                candidate_failures,
            } => {
                let input_fields = Quoted(input_fields);
                let reasons = Reasons {
                    failures: candidate_failures,
                    closest: closest_resolution,
                    missing: missing_required_detailed,
                };
                let unknown = UnknownEnd(unknown_fields);
                write!(
                    f,
                    "No matching configuration for fields {input_fields}{reasons}{unknown}"
                )
            }
            SolverError::Ambiguous {
                candidates,
                disambiguating_fields,
            } => {
                let candidates = Quoted(candidates);
                let hint = Hint(disambiguating_fields);
                write!(
                    f,
                    "Ambiguous: multiple resolutions match: {candidates}{hint}"
                )
            }
            SolverError::OutOfMemory => write!(f, "out of memory"),
        }
    }
}

impl Error for SolverError<'_> {}
