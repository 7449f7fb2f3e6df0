//! Calls of a solver that are made in one run.

use crate::answer::{Answer, Line};
use crate::catalogue::Catalogue;
use facet_solver::{Call, ShapeId};
use std::mem;

/// A call of a run, with what it borrows while a solver lives.
#[derive(Drop)]
pub struct RunCall<'t> {
    /// The number of the line of the run.
    line: usize,
    /// How often it is made.
    times: usize,
    call: &'t str,
    first: &'t str,
    second: &'t str,
    path: Vec<&'t str>,
    shapes: Vec<ShapeId>,
}

/// The calls of all runs. A solver keeps what it is given in a run, so they are read before there
/// is one.
pub fn run_calls<'t>(
    catalogue: Catalogue<'_>,
    calls: &[Line<'t>],
    answer: &mut Answer<'t>,
) -> Vec<RunCall<'t>> {
    let mut run_calls = Vec::new(answer.alloc);
    for line in calls {
        answer.begin(*line);
        if answer.next_word() == "run" {
            add_run_calls(catalogue, &mut run_calls, answer);
        }
        if !answer.holds() {
            break;
        }
    }
    run_calls
}

/// Adds the calls of a line, between two of which `then` stands.
fn add_run_calls<'t>(
    catalogue: Catalogue<'_>,
    run_calls: &mut Vec<RunCall<'t>>,
    answer: &mut Answer<'t>,
) {
    let line = answer.line;
    let Some((_, run)) = answer.call.split_once(' ') else {
        return;
    };
    for text in run.split(" then ") {
        answer.begin(Line {
            number: line.number,
            text,
        });
        let run_call = RunCall::read(catalogue, answer);
        answer.push(run_calls, run_call);
        if !answer.holds() {
            return;
        }
    }
}

impl<'t> RunCall<'t> {
    /// The call of a text: `times=600 see x`, or `see x` alone.
    fn read(catalogue: Catalogue<'_>, answer: &mut Answer<'t>) -> Self {
        let mut times = 1;
        let mut call = answer.word();
        if let Some(number) = call.strip_prefix("times=") {
            times = answer.number_of(number);
            call = answer.word();
        }
        let first = match call {
            "satisfy_shapes" => "",
            _ => answer.read_path(),
        };
        let second = match call {
            "hint_variant_for_tag" | "see_tag" => answer.word(),
            _ => "",
        };
        catalogue.read_shapes(answer);
        RunCall {
            line: answer.line.number,
            times,
            call,
            first,
            second,
            path: mem::replace(&mut answer.path, Vec::new(answer.alloc)),
            shapes: mem::replace(&mut answer.shapes, Vec::new(answer.alloc)),
        }
    }

    fn call(&self, answer: &mut Answer<'_>) -> Call<'_> {
        match self.call {
            "see" => Call::SeeKey(answer.key_of(self.first)),
            "mark_seen" => Call::MarkSeen(answer.key_of(self.first)),
            "satisfy_shapes" => Call::SatisfyShapes(&self.shapes),
            "satisfy_at_path" => Call::SatisfyAtPath(&self.path, &self.shapes),
            "probe" => self.probe(answer),
            "hint_variant" => Call::HintVariant(self.first),
            "hint_variant_for_tag" => Call::HintVariantForTag(self.first, self.second),
            "see_tag" => Call::SeeTag(self.first, self.second),
            _ => {
                answer.unread();
                Call::HintVariant(self.first)
            }
        }
    }

    fn probe(&self, answer: &mut Answer<'_>) -> Call<'_> {
        match self.path.split_last() {
            Some((key, path)) => Call::ProbeKey(path, key),
            None => {
                answer.unread();
                Call::HintVariant(self.first)
            }
        }
    }
}

/// The calls of the run in the line of a number.
pub fn calls<'r>(
    run_calls: &'r [RunCall<'_>],
    line: usize,
    answer: &mut Answer<'_>,
) -> Vec<Call<'r>> {
    let mut calls = Vec::new(answer.alloc);
    for run_call in run_calls {
        if run_call.line == line {
            for _ in 0..run_call.times {
                let call = run_call.call(answer);
                answer.push(&mut calls, call);
            }
        }
    }
    calls
}
