//! Calls that read the error of a solver.

use crate::answer::Answer;
use facet_solver::{CandidateFailure, MissingFieldInfo, SolverError};

/// Answers a call.
pub fn of_error(error: &SolverError<'_>, answer: &mut Answer<'_>) {
    let word = answer.word();
    if let Some(list) = list(error, word) {
        answer.add_debug(list);
        return;
    }
    let SolverError::NoMatch {
        missing_required,
        missing_required_detailed,
        closest_resolution,
        candidate_failures,
        ..
    } = error
    else {
        answer.unread();
        return;
    };
    match word {
        "missing_required" => answer.add_debug(missing_required),
        "missing_required_detailed" => add_missing(missing_required_detailed, answer),
        "closest_resolution" => answer.add(closest_resolution.as_deref().unwrap_or("none")),
        "candidate_failures" => answer.add_value(&candidate_failures.len()),
        "failure" => of_failure(candidate_failures, answer),
        _ => answer.unread(),
    }
}

/// The list of texts of a name.
fn list<'e>(error: &'e SolverError<'_>, name: &str) -> Option<&'e Vec<String>> {
    match (error, name) {
        (SolverError::NoMatch { input_fields, .. }, "input_fields") => Some(input_fields),
        (SolverError::NoMatch { unknown_fields, .. }, "unknown_fields") => Some(unknown_fields),
        (SolverError::Ambiguous { candidates, .. }, "candidates") => Some(candidates),
        (
            SolverError::Ambiguous {
                disambiguating_fields,
                ..
            },
            "disambiguating_fields",
        ) => Some(disambiguating_fields),
        _ => None,
    }
}

/// Name, path and type of each field.
fn add_missing(fields: &[MissingFieldInfo<'_>], answer: &mut Answer<'_>) {
    for field in fields {
        answer.add(field.name);
        answer.add(field.path.as_str());
        answer.add(field.defined_in.as_str());
    }
}

/// Answers a call that reads the failure of a number.
fn of_failure(failures: &[CandidateFailure<'_>], answer: &mut Answer<'_>) {
    let Some(failure) = failures.get(answer.number()) else {
        answer.unread();
        return;
    };
    match answer.word() {
        "variant_name" => answer.add(failure.variant_name.as_str()),
        "missing_fields" => add_missing(&failure.missing_fields, answer),
        "unknown_fields" => answer.add_debug(&failure.unknown_fields),
        "suggestion_matches" => answer.add_value(&failure.suggestion_matches),
        _ => answer.unread(),
    }
}

/// Tells how a solver ended without a resolution, and keeps the text of the error.
pub fn add_verdict(error: &SolverError<'_>, answer: &mut Answer<'_>) {
    answer.keep_error(error);
    match error {
        SolverError::NoMatch { .. } => answer.add("no match"),
        SolverError::Ambiguous { candidates, .. } => {
            answer.add("ambiguous");
            for candidate in candidates {
                answer.add(candidate.as_str());
            }
        }
        SolverError::OutOfMemory => answer.refused(),
    }
}
