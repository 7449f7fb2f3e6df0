//! The parts of the text of a report that nothing matches.
ghost use Rattle.std.specs.Prelude.{map, Some, string_bytes};
ghost use Rattle.std.specs.List.{flat_map};
ghost use Rattle.facet_solver_shape.specs.Names.{optional_name};
ghost use Rattle.facet_solver.specs.error.ErrorTexts.{failure_text, failure_names, at_paths_text, closest_text, field_at_path, reasons_text, unknown_end};
ghost use Rattle.facet_solver.specs.error.QuotedNames.{where_ascii};
ghost use Rattle.facet_solver.specs.error.ErrorView.{failure_view, missing_view};

use crate::error::failure::FailureLine;
use crate::error::quoted::Quoted;
use crate::error::{CandidateFailure, MissingFieldInfo};
use std::fmt;

/// A line for each failure.
#[derive(Drop)]
struct FailureLines<'s, 'c>(&'s [CandidateFailure<'c>]);

impl fmt::Display for FailureLines<'_, '_> {
    ghost output = { λ l. where_ascii (flat_map failure_names (map failure_view l.0.now))
        (flat_map failure_text (map failure_view l.0.now)) };

    fn fmt<W: fmt::Write>(&self, f: &mut fmt::Formatter<W>) -> fmt::Result {
        for failure in self.0 {
            let line = FailureLine(failure);
            write!(f, "{line}")?;
        }
        Ok(())
    }
}

/// Missing fields with their paths.
#[derive(Drop)]
struct AtPaths<'s, 'c>(&'s [MissingFieldInfo<'c>]);

impl fmt::Display for AtPaths<'_, '_> {
    ghost output = { λ l. Some (flat_map field_at_path (map missing_view l.0.now)) };

    fn fmt<W: fmt::Write>(&self, f: &mut fmt::Formatter<W>) -> fmt::Result {
        for field in self.0 {
            let name = field.name;
            let path = &field.path;
            write!(f, " {name} (at path: {path})")?;
        }
        Ok(())
    }
}

/// Missing fields with their paths, if there are any.
#[derive(Drop)]
struct MissingEnd<'s, 'c>(&'s [MissingFieldInfo<'c>]);

impl fmt::Display for MissingEnd<'_, '_> {
    ghost output = { λ m. Some (at_paths_text (map missing_view m.0.now)) };

    fn fmt<W: fmt::Write>(&self, f: &mut fmt::Formatter<W>) -> fmt::Result {
        if self.0.is_empty() {
            return Ok(());
        }
        let fields = AtPaths(self.0);
        write!(f, "; missing required fields:{fields}")
    }
}

/// The closest resolution.
#[derive(Drop)]
struct Closest<'s>(&'s Option<String>);

impl fmt::Display for Closest<'_> {
    ghost output = { λ c. Some (closest_text (optional_name c.0.now)) };

    fn fmt<W: fmt::Write>(&self, f: &mut fmt::Formatter<W>) -> fmt::Result {
        match self.0 {
            None => Ok(()),
            Some(closest) => write!(f, " (closest match: {closest})"),
        }
    }
}

/// Why nothing matches.
#[derive(Drop)]
pub(crate) struct Reasons<'s, 'c> {
    pub(crate) failures: &'s [CandidateFailure<'c>],
    pub(crate) closest: &'s Option<String>,
    pub(crate) missing: &'s [MissingFieldInfo<'c>],
}

impl fmt::Display for Reasons<'_, '_> {
    ghost output = { λ r. where_ascii (flat_map failure_names (map failure_view r.failures.now))
        (reasons_text (map failure_view r.failures.now) (optional_name r.closest.now)
        (map missing_view r.missing.now)) };

    fn fmt<W: fmt::Write>(&self, f: &mut fmt::Formatter<W>) -> fmt::Result {
        if !self.failures.is_empty() {
            let failures = FailureLines(self.failures);
            return write!(f, "\n\nNo variant matched:{failures}");
        }
        let closest = Closest(self.closest);
        let missing = MissingEnd(self.missing);
        write!(f, "{closest}{missing}")
    }
}

/// The names that no resolution has.
#[derive(Drop)]
pub(crate) struct UnknownEnd<'s>(pub(crate) &'s [String]);

impl fmt::Display for UnknownEnd<'_> {
    ghost output = { λ u. where_ascii (map string_bytes u.0.now)
        (unknown_end (map string_bytes u.0.now)) };

    fn fmt<W: fmt::Write>(&self, f: &mut fmt::Formatter<W>) -> fmt::Result {
        if self.0.is_empty() {
            return Ok(());
        }
        let names = Quoted(self.0);
        write!(f, "\n\nUnknown fields: {names}")
    }
}
