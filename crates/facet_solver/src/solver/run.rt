//! Calls of a solver as values, and runs of them.
ghost use Rattle.std.specs.Prelude.{◌≡◌, ◌<◌, IfErr, List, OnErr, OnOk, length, map, take};
ghost use Rattle.facet_solver_shape.specs.Keys.{Key};
ghost use Rattle.facet_solver.specs.solver.Run.{FindsToldChoices, after_call, after_calls, call_view, call_views, see_key};
ghost use Rattle.facet_solver.specs.solver.Told.{see_keys};

use crate::solver::Solver;
use facet_solver_shape::{FieldKey, ShapeId};
use std::alloc::{AllocError, Global};

/// A call of a solver that narrows it or marks a key as seen.
#[derive(Clone, Copy, Debug)]
pub enum Call<'a> {
    /// A key is seen: `Solver::see_key`.
    SeeKey(FieldKey<'a>),
    /// A key is marked as seen: `Solver::mark_seen`.
    MarkSeen(FieldKey<'a>),
    /// A value fits shapes: `Solver::satisfy_shapes`.
    SatisfyShapes(&'a [ShapeId]),
    /// A value at a path of names fits shapes: `Solver::satisfy_at_path`.
    SatisfyAtPath(&'a [&'a str], &'a [ShapeId]),
    /// A key stands at a path of names: `Solver::probe_key`.
    ProbeKey(&'a [&'a str], &'a str),
    /// A variant is hinted: `Solver::hint_variant`.
    HintVariant(&'a str),
    /// A variant is hinted by the name under a tag, which comes first:
    /// `Solver::hint_variant_for_tag`.
    HintVariantForTag(&'a str, &'a str),
    /// A tag is seen with the name of a variant under it: `Solver::see_tag`.
    SeeTag(&'a str, &'a str),
}

impl<'s, 'c, 'a> Solver<'s, 'c, 'a> {
    /// Makes calls in their order, and drops their answers.
    ///
    /// The only error is out of memory. It has the number of calls that were made. The call at that
    /// index ran out of memory and changed nothing, and none after it was made.
    #[tactic(auto, using(crate::proofs::Run::after_calls_more, crate::proofs::Run::found_from, crate::proofs::Run::found_of_all, crate::proofs::Run::built_in))]
    pub fn run(&mut self, alloc: Global, calls: &[Call<'a>]) -> Result<(), usize>
        ensures ok { OnOk result (self.new ≡ after_calls (call_views calls.now) self.old) }
        ensures told { OnOk result ((keys : List Key)
            → call_views calls.now ≡ map see_key keys → self.new ≡ see_keys keys self.old) }
        ensures found { OnOk result
            (FindsToldChoices (call_views calls.now) self.old self.new) }
        ensures within { IfErr result (λ made. made < length calls.now) }
        ensures err { IfErr result
            (λ made. self.new ≡ after_calls (call_views (take made calls.now)) self.old) }
        ensures told_before { IfErr result (λ made. (keys : List Key)
            → call_views (take made calls.now) ≡ map see_key keys
            → self.new ≡ see_keys keys self.old) }
        ensures found_before { IfErr result
            (λ made. FindsToldChoices (call_views (take made calls.now)) self.old self.new) }
    {
        // So that `found` knows that the schema is its own build.
        let _ = self.schema.resolutions();
        for (made, call) in calls.iter().enumerate() {
            if self.make(alloc, call).is_err() {
                return Err(made);
            }
        }
        Ok(())
    }

    /// Makes one call.
    fn make(&mut self, alloc: Global, call: &Call<'a>) -> Result<(), AllocError>
        ensures ok { OnOk result (self.new ≡ after_call (call_view call.now) self.old) }
        ensures err { OnErr result (self.new ≡ self.old) }
    {
        match call {
            Call::SeeKey(key) => {
                self.see_key(alloc, *key)?;
            }
            Call::MarkSeen(key) => self.mark_seen(*key)?,
            Call::SatisfyShapes(shapes) => {
                self.satisfy_shapes(shapes);
            }
            Call::SatisfyAtPath(path, shapes) => {
                self.satisfy_at_path(path, shapes);
            }
            Call::ProbeKey(path, key) => {
                self.probe_key(alloc, path, key)?;
            }
            Call::HintVariant(name) => {
                self.hint_variant(name);
            }
            Call::HintVariantForTag(tag, name) => {
                self.hint_variant_for_tag(tag, name);
            }
            Call::SeeTag(tag, name) => {
                self.see_tag(alloc, tag, name)?;
            }
        }
        Ok(())
    }
}
