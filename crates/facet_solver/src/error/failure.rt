//! The line of a resolution that is not the answer.
ghost use Rattle.std.specs.Prelude.{map, string_bytes};
ghost use Rattle.facet_solver.specs.error.ErrorTexts.{missing_names, missing_text, listed_missing, unknown_text, failure_text, failure_names};
ghost use Rattle.facet_solver.specs.error.QuotedNames.{later_text, list_output, where_ascii};
ghost use Rattle.facet_solver.specs.error.ErrorView.{missing_view, failure_view};

use crate::error::quoted::Quoted;
use crate::error::{CandidateFailure, MissingFieldInfo};
use std::fmt;

/// Names of fields, each after a comma.
#[derive(Drop)]
struct LaterNames<'s, 'c>(&'s [MissingFieldInfo<'c>]);

impl fmt::Display for LaterNames<'_, '_> {
    ghost output = { λ l. where_ascii (missing_names (map missing_view l.0.now))
        (later_text (missing_names (map missing_view l.0.now))) };

    fn fmt<W: fmt::Write>(&self, f: &mut fmt::Formatter<W>) -> fmt::Result {
        for field in self.0 {
            let name = field.name;
            write!(f, ", {name:?}")?;
        }
        Ok(())
    }
}

/// The names of fields, as a list.
#[derive(Drop)]
struct MissingNames<'s, 'c>(&'s [MissingFieldInfo<'c>]);

impl fmt::Display for MissingNames<'_, '_> {
    ghost output = { λ m. list_output (missing_names (map missing_view m.0.now)) };

    fn fmt<W: fmt::Write>(&self, f: &mut fmt::Formatter<W>) -> fmt::Result {
        match self.0.split_first() {
            None => write!(f, "[]"),
            Some((first, rest)) => {
                let name = first.name;
                let later = LaterNames(rest);
                write!(f, "[{name:?}{later}]")
            }
        }
    }
}

/// What a resolution lacks.
#[derive(Drop)]
struct MissingPart<'s, 'c>(&'s [MissingFieldInfo<'c>]);

impl fmt::Display for MissingPart<'_, '_> {
    ghost output = { λ m. where_ascii (listed_missing (missing_names (map missing_view m.0.now)))
        (missing_text (missing_names (map missing_view m.0.now))) };

    fn fmt<W: fmt::Write>(&self, f: &mut fmt::Formatter<W>) -> fmt::Result {
        match self.0 {
            [] => Ok(()),
            [only] => {
                let name = only.name;
                write!(f, ": missing field '{name}'")
            }
            several => {
                let names = MissingNames(several);
                write!(f, ": missing fields {names}")
            }
        }
    }
}

/// The seen names that mean no field of a resolution.
#[derive(Drop)]
struct UnknownPart<'s, 'c> {
    missing: &'s [MissingFieldInfo<'c>],
    unknown: &'s [String],
}

impl fmt::Display for UnknownPart<'_, '_> {
    ghost output = { λ p. where_ascii (map string_bytes p.unknown.now)
        (unknown_text (missing_names (map missing_view p.missing.now))
        (map string_bytes p.unknown.now)) };

    fn fmt<W: fmt::Write>(&self, f: &mut fmt::Formatter<W>) -> fmt::Result {
        if self.unknown.is_empty() {
            return Ok(());
        }
        let names = Quoted(self.unknown);
        if self.missing.is_empty() {
            write!(f, ": unknown fields {names}")
        } else {
            write!(f, ", unknown fields {names}")
        }
    }
}

/// Why one resolution is not the answer.
#[derive(Drop)]
pub(crate) struct FailureLine<'s, 'c>(pub(crate) &'s CandidateFailure<'c>);

impl fmt::Display for FailureLine<'_, '_> {
    ghost output = { λ l. where_ascii (failure_names (failure_view l.0.now))
        (failure_text (failure_view l.0.now)) };

    fn fmt<W: fmt::Write>(&self, f: &mut fmt::Formatter<W>) -> fmt::Result {
        let failure = self.0;
        let name = &failure.variant_name;
        let missing = MissingPart(&failure.missing_fields);
        let unknown = UnknownPart {
            missing: &failure.missing_fields,
            unknown: &failure.unknown_fields,
        };
        write!(f, "\n  - {name}{missing}{unknown}")
    }
}
