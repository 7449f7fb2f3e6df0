//! Calls of a solver that is only probed.

use crate::answer::Answer;
use crate::marks;
use facet_solver::{ProbeResult, ProbingSolver, Schema};
use std::alloc::{AllocError, Global};
use std::mem;

/// A schema, and the solver that is probed now.
#[derive(Drop)]
pub struct Probing<'s, 'c> {
    schema: &'s Schema<'c>,
    solver: ProbingSolver<'s, 'c>,
}

impl<'s, 'c> Probing<'s, 'c> {
    /// A new solver of all resolutions.
    pub fn new(alloc: Global, schema: &'s Schema<'c>) -> Result<Self, AllocError> {
        let solver = ProbingSolver::new(alloc, schema)?;
        Ok(Probing { schema, solver })
    }

    /// Answers a call.
    pub fn answer(&mut self, answer: &mut Answer<'_>) {
        match answer.word() {
            "new" => {
                let solver = ProbingSolver::new(answer.alloc, self.schema);
                self.renew(solver, answer);
            }
            "from" => self.renew_from(answer),
            "probe" => self.probe(answer),
            "candidates" => self.add_candidates(answer),
            "finish" => self.finish(answer),
            _ => answer.unread(),
        }
    }

    fn renew(
        &mut self,
        solver: Result<ProbingSolver<'s, 'c>, AllocError>,
        answer: &mut Answer<'_>,
    ) {
        match solver {
            Ok(solver) => {
                drop(mem::replace(&mut self.solver, solver));
                answer.add("ok");
            }
            Err(AllocError) => answer.refused(),
        }
    }

    /// A new solver of the resolutions from a number on.
    fn renew_from(&mut self, answer: &mut Answer<'_>) {
        let first = answer.number();
        match self.schema.resolutions().get(first..) {
            Some(resolutions) => {
                let solver = ProbingSolver::from_resolutions(answer.alloc, resolutions);
                self.renew(solver, answer);
            }
            None => answer.unread(),
        }
    }

    fn probe(&mut self, answer: &mut Answer<'_>) {
        answer.read_path();
        match answer.path.split_last() {
            Some((key, path)) if answer.holds() => {
                marks::begin(answer.alloc);
                let probed = self.solver.probe_key(path, key);
                marks::no_request(answer.alloc);
                add_probed(probed, answer);
            }
            _ => answer.unread(),
        }
    }

    fn finish(&self, answer: &mut Answer<'_>) {
        marks::begin(answer.alloc);
        let probed = self.solver.finish();
        marks::no_request(answer.alloc);
        add_probed(probed, answer);
    }

    fn add_candidates(&self, answer: &mut Answer<'_>) {
        for resolution in self.solver.candidates() {
            answer.add_description(resolution);
        }
    }
}

/// A resolution is told by its description.
fn add_probed(probed: ProbeResult<'_, '_>, answer: &mut Answer<'_>) {
    match probed {
        ProbeResult::KeepGoing => answer.add("keep going"),
        ProbeResult::Solved(resolution) => {
            answer.add("solved");
            answer.add_description(resolution);
        }
        ProbeResult::NoMatch => answer.add("no match"),
    }
}
