//! Calls of a solver, and those about its schema.

use crate::answer::{Answer, BAR, Line};
use crate::catalogue::Catalogue;
use crate::probing::Probing;
use crate::resolution::{add_key, of_schema};
use crate::runs::{RunCall, calls};
use crate::{errors, marks};
use facet_solver::{
    Call, FieldInfo, KeyResult, ResolutionHandle, SatisfyResult, Schema, Solver, SolverError, Steps,
};
use std::alloc::{AllocError, Global};
use std::mem;

/// A schema, the solvers that are told keys now, and the error of the one before.
#[derive(Drop)]
pub struct Session<'s, 'c, 't> {
    catalogue: Catalogue<'c>,
    schema: &'s Schema<'c>,
    solver: Solver<'s, 'c, 's>,
    probing: Probing<'s, 'c>,
    calls: &'s [Line<'t>],
    run_calls: &'s [RunCall<'t>],
    /// The number of the line behind which the solver was new.
    begun: usize,
    error: Option<SolverError<'c>>,
}

impl<'s, 'c, 't: 's> Session<'s, 'c, 't> {
    /// Solvers that were told nothing. The calls are those of the runs among the calls.
    pub fn new(
        catalogue: Catalogue<'c>,
        schema: &'s Schema<'c>,
        run_calls: &'s [RunCall<'t>],
        calls: &'s [Line<'t>],
        alloc: Global,
    ) -> Result<Self, AllocError> {
        let solver = new_solver(alloc, schema)?;
        let probing = Probing::new(alloc, schema)?;
        Ok(Session {
            catalogue,
            schema,
            solver,
            probing,
            calls,
            run_calls,
            begun: 0,
            error: None,
        })
    }

    /// Makes the calls, up to the first that does not answer what is wanted.
    pub fn make_all(&mut self, answer: &mut Answer<'t>) {
        for line in self.calls {
            self.make(*line, answer);
            if !answer.holds() {
                break;
            }
        }
    }

    /// Makes a call, and compares its answer with what is wanted. Where it runs out of memory it
    /// has to change nothing, and is made again.
    fn make(&mut self, line: Line<'t>, answer: &mut Answer<'t>) {
        answer.begin(line);
        self.add_state(answer);
        answer.keep_state();
        self.answer(answer);
        if answer.begins_again() {
            self.add_state(answer);
            answer.compare_state();
            self.answer(answer);
        }
        answer.compare();
    }

    /// Tells all that calls change of the solver that is told keys: its candidates, and the keys
    /// that it has seen.
    fn add_state(&self, answer: &mut Answer<'_>) {
        self.add_candidate_set(answer);
        self.add_seen(answer);
    }

    /// Answers a call. Where memory runs out it may be made again: the solver is as it was.
    fn answer(&mut self, answer: &mut Answer<'t>) {
        match answer.word() {
            "run" => self.run(answer),
            "finish" => self.finish(answer),
            "new" => self.renew(answer),
            call => self.call(call, answer),
        }
    }

    /// Answers a call that tells a key.
    fn call(&mut self, call: &str, answer: &mut Answer<'t>) {
        let alloc = answer.alloc;
        let told = match call {
            "see" => self.solver.see_key(alloc, answer.key()),
            "see_counted" => {
                let key = answer.key();
                self.solver.see_key_counted(alloc, key, &mut Steps::new())
            }
            "see_attribute" => self.solver.see_attribute(alloc, answer.word()),
            "see_element" => self.solver.see_element(alloc, answer.word()),
            "see_text" => self.solver.see_text(alloc),
            _ => {
                self.other_call(call, answer);
                return;
            }
        };
        self.add_told(told, answer);
    }

    /// Answers a call that narrows by other than a key, or that reads.
    fn other_call(&mut self, call: &str, answer: &mut Answer<'t>) {
        match call {
            "mark_seen" => self.mark_seen(answer),
            "see_tag" => self.see_tag(answer),
            "probe" => self.probe(answer),
            "probing" => self.probing.answer(answer),
            "hint_variant" | "hint_variant_for_tag" => self.hint(call, answer),
            "satisfy" => self.satisfy(answer),
            "satisfy_shapes" => self.satisfy_shapes(answer),
            "satisfy_at_path" => self.satisfy_at_path(answer),
            _ => self.reading_call(call, answer),
        }
    }

    /// Answers a call that reads what the solver is, its error, or the schema.
    fn reading_call(&self, call: &str, answer: &mut Answer<'_>) {
        match call {
            "candidates" | "last" => self.add_candidates(call, answer),
            "candidate_set" => self.add_candidate_set(answer),
            "contains" => {
                let contains = self.solver.candidate_set().contains(answer.number());
                answer.add_yes_or_no(contains);
            }
            "seen" => self.add_seen(answer),
            "was_seen" => {
                let was_seen = self.solver.was_field_seen(answer.word());
                answer.add_yes_or_no(was_seen);
            }
            "shapes_at_path" => self.add_shapes_at_path(answer),
            "error" => self.add_of_error(answer),
            BAR => answer.add_error(),
            _ => of_schema(self.catalogue, self.schema, call, answer),
        }
    }

    fn mark_seen(&mut self, answer: &mut Answer<'t>) {
        let key = answer.key();
        match self.solver.mark_seen(key) {
            Ok(()) => answer.add("ok"),
            Err(AllocError) => answer.refused(),
        }
    }

    fn see_tag(&mut self, answer: &mut Answer<'t>) {
        let tag = answer.word();
        let variant = answer.word();
        match self.solver.see_tag(answer.alloc, tag, variant) {
            Ok(is_named) => answer.add_yes_or_no(is_named),
            Err(AllocError) => answer.refused(),
        }
    }

    fn probe(&mut self, answer: &mut Answer<'_>) {
        answer.read_path();
        match answer.path.split_last() {
            Some((key, path)) if answer.holds() => {
                let told = self.solver.probe_key(answer.alloc, path, key);
                self.add_told(told, answer);
            }
            _ => answer.unread(),
        }
    }

    /// Tells what a key told.
    fn add_told(&self, told: Result<KeyResult<'s, 'c>, AllocError>, answer: &mut Answer<'_>) {
        match &told {
            Ok(KeyResult::Unambiguous { shape }) => {
                answer.add("unambiguous");
                answer.add(self.catalogue.name(*shape));
            }
            Ok(KeyResult::Ambiguous { fields }) => add_ambiguous(fields, answer),
            Ok(KeyResult::Solved(handle)) => add_solved(*handle, answer),
            Ok(KeyResult::Unknown) => answer.add("unknown"),
            Err(AllocError) => answer.refused(),
        }
    }

    /// Hints a variant, and for a tag its text before.
    fn hint(&mut self, call: &str, answer: &mut Answer<'_>) {
        let word = answer.word();
        let variant = answer.next_word();
        marks::begin(answer.alloc);
        let is_selected = match call {
            "hint_variant" => self.solver.hint_variant(word),
            _ => self.solver.hint_variant_for_tag(word, variant),
        };
        marks::no_request(answer.alloc);
        answer.add_yes_or_no(is_selected);
    }

    fn satisfy(&mut self, answer: &mut Answer<'_>) {
        let fields = self.fields(answer);
        if answer.holds() {
            marks::begin(answer.alloc);
            let satisfied = self.solver.satisfy(&fields);
            marks::no_request(answer.alloc);
            add_satisfied(satisfied, answer);
        }
    }

    /// The fields of all words that are left, each the number of a resolution and a name.
    fn fields(&self, answer: &mut Answer<'_>) -> Vec<&'s FieldInfo<'c>> {
        let mut fields = Vec::new(answer.alloc);
        for _ in 0..usize::MAX {
            let word = answer.next_word();
            if word.is_empty() {
                break;
            }
            match self.field(word, answer) {
                Some(field) => answer.push(&mut fields, field),
                None => answer.unread(),
            }
        }
        fields
    }

    fn field(&self, word: &str, answer: &mut Answer<'_>) -> Option<&'s FieldInfo<'c>> {
        let (number, name) = word.split_once('.')?;
        let resolution = self.schema.resolutions().get(answer.number_of(number))?;
        resolution.field_by_name(name)
    }

    fn satisfy_shapes(&mut self, answer: &mut Answer<'_>) {
        self.catalogue.read_shapes(answer);
        if answer.holds() {
            marks::begin(answer.alloc);
            let satisfied = self.solver.satisfy_shapes(&answer.shapes);
            marks::no_request(answer.alloc);
            add_satisfied(satisfied, answer);
        }
    }

    fn satisfy_at_path(&mut self, answer: &mut Answer<'_>) {
        answer.read_path();
        self.catalogue.read_shapes(answer);
        if answer.holds() {
            marks::begin(answer.alloc);
            let satisfied = self.solver.satisfy_at_path(&answer.path, &answer.shapes);
            marks::no_request(answer.alloc);
            add_satisfied(satisfied, answer);
        }
    }

    fn add_shapes_at_path(&self, answer: &mut Answer<'_>) {
        answer.read_path();
        match self.solver.get_shapes_at_path(answer.alloc, &answer.path) {
            Ok(shapes) => {
                for shape in &shapes {
                    answer.add(self.catalogue.name(*shape));
                }
            }
            Err(AllocError) => answer.refused(),
        }
    }

    /// Tells the numbers of the candidates, or the last of them.
    fn add_candidates(&self, call: &str, answer: &mut Answer<'_>) {
        let Ok(candidates) = self.solver.candidates(answer.alloc) else {
            answer.refused();
            return;
        };
        if call == "candidates" {
            for handle in &candidates {
                answer.add_value(&handle.index());
            }
        } else if let Some(handle) = candidates.last() {
            answer.add_value(&handle.index());
        } else {
            answer.add("none");
        }
    }

    /// Tells the number of the candidates, the first, and all of them.
    fn add_candidate_set(&self, answer: &mut Answer<'_>) {
        let set = self.solver.candidate_set();
        match set.first() {
            Some(first) => {
                answer.add_value(&set.len());
                answer.add("from");
                answer.add_value(&first);
                answer.put(":");
            }
            None if set.is_empty() => answer.add("empty"),
            None => answer.add("not empty"),
        }
        for index in set.iter() {
            answer.add_value(&index);
        }
    }

    fn add_seen(&self, answer: &mut Answer<'_>) {
        for key in self.solver.seen_keys() {
            add_key(*key, answer);
        }
    }

    fn add_of_error(&self, answer: &mut Answer<'_>) {
        match &self.error {
            Some(error) => errors::of_error(error, answer),
            None => answer.unread(),
        }
    }

    /// A new solver in place of the one before, with a mark of what it holds.
    fn renew(&mut self, answer: &mut Answer<'_>) {
        match new_solver(answer.alloc, self.schema) {
            Ok(solver) => {
                marks::held(answer.alloc);
                self.solver = solver;
                self.begun = answer.line.number;
                answer.add("ok");
            }
            Err(AllocError) => answer.refused(),
        }
    }

    /// Finishes, and starts a new solver. Where memory runs out it is tried again on a solver that
    /// was told the same, and there was need of memory only if not one resolution is viable.
    fn finish(&mut self, answer: &mut Answer<'t>) {
        self.error = None;
        self.finish_once(answer);
        if let Some(SolverError::OutOfMemory) = self.error {
            marks::out_of_memory(answer.alloc);
            self.tell_anew(answer);
            self.finish_once(answer);
            if self.error.is_none() {
                answer.broken();
            }
        }
        if answer.holds() {
            self.begun = answer.line.number;
        }
    }

    fn finish_once(&mut self, answer: &mut Answer<'_>) {
        match new_solver(answer.alloc, self.schema) {
            Ok(next) => {
                let solver = mem::replace(&mut self.solver, next);
                marks::begin(answer.alloc);
                let finished = solver.finish(answer.alloc);
                self.add_finished(finished, answer);
            }
            Err(AllocError) => answer.refused(),
        }
    }

    fn add_finished(
        &mut self,
        finished: Result<ResolutionHandle<'s, 'c>, SolverError<'c>>,
        answer: &mut Answer<'_>,
    ) {
        self.error = match finished {
            Ok(handle) => {
                marks::no_request(answer.alloc);
                answer.add_value(&handle.index());
                answer.add_description(handle.resolution());
                None
            }
            Err(error) => {
                errors::add_verdict(&error, answer);
                Some(error)
            }
        };
    }

    fn run(&mut self, answer: &mut Answer<'t>) {
        let calls = calls(self.run_calls, answer.line.number, answer);
        if answer.holds() {
            if let Err(made) = self.solver.run(answer.alloc, &calls) {
                marks::out_of_memory(answer.alloc);
                self.run_rest(&calls, made, answer);
            }
        }
        answer.words = "".split_whitespace();
        answer.add("ok");
    }

    /// Where a run was out of memory behind its first calls, the solver is as one that made these,
    /// and goes on from there.
    fn run_rest(&mut self, calls: &[Call<'s>], made: usize, answer: &mut Answer<'t>) {
        let Some((first, rest)) = calls.split_at_checked(made) else {
            answer.broken();
            return;
        };
        self.add_state(answer);
        answer.keep_state();
        self.tell_anew(answer);
        self.run_calls(first, answer);
        self.add_state(answer);
        answer.compare_state();
        self.run_calls(rest, answer);
    }

    fn run_calls(&mut self, calls: &[Call<'s>], answer: &mut Answer<'_>) {
        if self.solver.run(answer.alloc, calls).is_err() {
            answer.refused();
        }
    }

    /// Makes the calls that the solver was told before this one again, of a new solver.
    fn tell_anew(&mut self, answer: &mut Answer<'t>) {
        let line = answer.line;
        match new_solver(answer.alloc, self.schema) {
            Ok(solver) => self.solver = solver,
            Err(AllocError) => answer.refused(),
        }
        for told in self.calls {
            if self.begun < told.number && told.number < line.number {
                answer.begin(*told);
                self.tell(answer);
            }
        }
        answer.begin(line);
        answer.word();
    }

    fn tell(&mut self, answer: &mut Answer<'t>) {
        match answer.word() {
            "run" => {
                let calls = calls(self.run_calls, answer.line.number, answer);
                self.run_calls(&calls, answer);
            }
            call => self.call(call, answer),
        }
    }
}

/// It takes memory only where there are more than 64 resolutions.
fn new_solver<'s, 'c, 'a>(
    alloc: Global,
    schema: &'s Schema<'c>,
) -> Result<Solver<'s, 'c, 'a>, AllocError> {
    marks::begin(alloc);
    let solver = Solver::new(alloc, schema);
    if schema.resolutions().len() <= 64 {
        marks::no_request(alloc);
    }
    solver
}

/// Tells the path and the score of each field that a key may mean.
fn add_ambiguous(fields: &[(&FieldInfo<'_>, u64)], answer: &mut Answer<'_>) {
    answer.add("ambiguous");
    for (field, score) in fields {
        answer.add_value(&field.path);
        answer.add_value(score);
    }
}

fn add_solved(handle: ResolutionHandle<'_, '_>, answer: &mut Answer<'_>) {
    answer.add("solved");
    answer.add_value(&handle.index());
}

fn add_satisfied(satisfied: SatisfyResult<'_, '_>, answer: &mut Answer<'_>) {
    match satisfied {
        SatisfyResult::Continue => answer.add("continue"),
        SatisfyResult::Solved(handle) => add_solved(handle, answer),
        SatisfyResult::NoMatch => answer.add("no match"),
    }
}
