//! Calls on an error that is made by hand.

use crate::answer::Answer;
use facet_solver::{CandidateFailure, MissingFieldInfo, SolverError};
use std::alloc::Global;
use std::mem;

/// The lists of an error, which grow, and those of its next failure.
#[derive(Drop)]
pub struct ErrorByHand<'c> {
    alloc: Global,
    input: Vec<String>,
    missing: Vec<MissingFieldInfo<'c>>,
    unknown: Vec<String>,
    closest: Option<String>,
    failures: Vec<CandidateFailure<'c>>,
}

impl<'c> ErrorByHand<'c> {
    /// All lists are empty.
    pub fn new(alloc: Global) -> Self {
        ErrorByHand {
            alloc,
            input: Vec::new(alloc),
            missing: Vec::new(alloc),
            unknown: Vec::new(alloc),
            closest: None,
            failures: Vec::new(alloc),
        }
    }

    /// Answers a call that adds to the lists.
    pub fn add<'t: 'c>(&mut self, answer: &mut Answer<'t>) {
        let call = answer.word();
        let name = answer.word();
        match call {
            "missing_field" => self.add_missing(name, answer),
            "input_field" => {
                let text = answer.copied(name);
                answer.push(&mut self.input, text);
            }
            "unknown_field" => {
                let text = answer.copied(name);
                answer.push(&mut self.unknown, text);
            }
            "closest_resolution" => self.closest = Some(answer.copied(name)),
            "failure" => self.add_failure(name, answer),
            _ => answer.unread(),
        }
        answer.add("ok");
    }

    fn add_missing(&mut self, name: &'c str, answer: &mut Answer<'_>) {
        let path = answer.word();
        let missing = MissingFieldInfo {
            name,
            path: answer.copied(path),
            defined_in: String::new(self.alloc),
        };
        answer.push(&mut self.missing, missing);
    }

    /// A failure of the missing and unknown fields so far, which are then none again.
    fn add_failure(&mut self, variant_name: &str, answer: &mut Answer<'_>) {
        let failure = CandidateFailure {
            variant_name: answer.copied(variant_name),
            missing_fields: mem::replace(&mut self.missing, Vec::new(self.alloc)),
            unknown_fields: mem::replace(&mut self.unknown, Vec::new(self.alloc)),
            suggestion_matches: 0,
        };
        answer.push(&mut self.failures, failure);
    }

    /// The error of the lists so far.
    pub fn into_error(self) -> SolverError<'c> {
        SolverError::NoMatch {
            input_fields: self.input,
            missing_required: Vec::new(self.alloc),
            missing_required_detailed: self.missing,
            unknown_fields: self.unknown,
            closest_resolution: self.closest,
            candidate_failures: self.failures,
        }
    }
}
