//! The solver: it narrows the resolutions of a schema by the keys of a document.
ghost use Rattle.std.specs.Prelude.{◌≡◌, ◌≢◌, ◌↔◌, ◌+◌, ◌*◌, [], ◌≤◌, ℕ, All, IfOk, IsOk, IsTrue, OnErr, OnOk, false, length, map, true};
ghost use Rattle.std.specs.Bool.{OnFalse};
ghost use Rattle.std.specs.List.Sorted.{IsStrictlyIncreasing};
ghost use Rattle.facet_solver_shape.specs.Keys.{dom_key, key_of};
ghost use Rattle.facet_solver_shape.specs.declared.resolution.key.FieldCategory.TheVariants.{Attribute, Element, Text};
ghost use Rattle.facet_solver_shape.specs.Steps.{NoCountFalls};
ghost use Rattle.facet_solver.specs.schema.ResolutionHandle.{IsHandleOf, index_of};
ghost use Rattle.facet_solver.specs.set.IndexSet.{IsWithin, how_many, matches_view};
ghost use Rattle.facet_solver.specs.solver.KeyResult.{HaveShape, IsKeyResultOf, IsUnknownOrSolved, key_result, key_result_view};
ghost use Rattle.facet_solver.specs.solver.State as state;
ghost use Rattle.facet_solver.specs.solver.State.{narrow, new_solver, passing, retain};
ghost use Rattle.facet_solver.specs.set.Words.{begun_words};

pub(crate) mod conditions;
pub(crate) mod distinct_fields;
mod finish;
mod hint;
pub(crate) mod key_result;
pub(crate) mod known_shapes;
pub(crate) mod many_fields;
pub(crate) mod path_ends;
pub(crate) mod path_search;
mod probe;
pub(crate) mod report;
pub(crate) mod run;
mod satisfy;
pub(crate) mod satisfy_result;
pub(crate) mod shape_at_path;
pub(crate) mod shaped;
mod tag;

use crate::schema::Schema;
use crate::schema::handle::ResolutionHandle;
use crate::set::{Matches, ResolutionSet};
use conditions::seen_name::was_name_seen;
use conditions::{AtIndex, Test};
use distinct_fields::KeySearch;
use facet_solver_shape::{FieldKey, Steps};
use key_result::{KeyResult, key_result};
use std::alloc::{AllocError, Global};
use std::collections::BTreeSet;
use std::marker::Model;

/// Narrows the resolutions of a schema by the keys of a document.
#[derive(Debug, Drop)]
pub struct Solver<'s, 'c, 'a> {
    schema: &'s Schema<'c>,
    candidates: ResolutionSet,
    seen: BTreeSet<FieldKey<'a>>,
}

impl<'s, 'c, 'a> Model for Solver<'s, 'c, 'a> {
    ghost use Rattle.std.specs.Prelude.{◌≡◌, length, map};
    ghost use Rattle.facet_solver_shape.specs.Keys.{key_of};
    ghost use Rattle.facet_solver.specs.solver.State.{State, state_code};

    ghost Value = { State };

    ghost coded = { state_code };

    ghost view = { λ s. record {
      schema = s.schema.now;
      candidates = s.candidates.members;
      seen = map key_of s.seen.keys;
    } };

    ghost invariant = { λ s. s.candidates.bound ≡ length s.schema.now.resolutions };
}

impl<'s, 'c, 'a> Solver<'s, 'c, 'a> {
    /// A solver that has seen no key: all resolutions are candidates.
    ///
    /// The only error is out of memory. With 64 resolutions or fewer there is none.
    pub fn new(alloc: Global, schema: &'s Schema<'c>) -> Result<Self, AllocError>
        ensures start { IfOk result (λ solver. solver ≡ new_solver schema.now) }
        ensures inline { length schema.now.resolutions ≤ 64 → IsOk result }
    {
        Ok(Solver {
            schema,
            candidates: ResolutionSet::full(alloc, schema.resolutions().len())?,
            seen: BTreeSet::new(alloc),
        })
    }

    /// The candidates, which are the resolutions that are left, by their indices. It allocates
    /// nothing.
    pub fn candidate_set(&self) -> &ResolutionSet
        ensures members { result.now.members ≡ self.now.candidates }
        ensures bound { result.now.bound ≡ length self.now.schema.resolutions }
    {
        &self.candidates
    }

    /// The keys that were seen, each once, in key order: flat keys first, then by category, then by
    /// the bytes of the name.
    pub fn seen_keys(&self) -> &BTreeSet<FieldKey<'a>>
        ensures { map key_of result.now.keys ≡ self.now.seen }
    {
        &self.seen
    }

    /// The candidates with their indices, rising. The only error is out of memory.
    pub fn candidates(&self, alloc: Global) -> Result<Vec<ResolutionHandle<'s, 'c>>, AllocError>
        ensures indices { IfOk result (λ handles.
            map index_of handles.items ≡ self.now.candidates) }
        ensures handles { IfOk result (λ handles. All (IsHandleOf self.now.schema) handles.items) }
        ensures rising { IsStrictlyIncreasing self.now.candidates }
    {
        let mut handles = Vec::new(alloc);
        for index in self.candidates.iter() {
            handles.push(ResolutionHandle::new(self.schema, index))?;
        }
        Ok(handles)
    }

    /// Sees a key of the document. Only the candidates stay that have a field that it means
    /// (`FieldInfo::matched_by`). Where none has one, all stay.
    ///
    /// The answer is `Unknown` where no candidate has the key, and `Solved` where one has it.
    /// Otherwise it depends on the shapes of the fields that the key means: one shape is
    /// `Unambiguous`, more are `Ambiguous`.
    ///
    /// The only error is out of memory. The candidates and the seen keys are then as before.
    pub fn see_key(
        &mut self,
        alloc: Global,
        key: FieldKey<'a>,
    ) -> Result<KeyResult<'s, 'c>, AllocError>
        ensures answer { IfOk result (λ answer.
            key_result_view answer ≡ key_result (key_of key.entry) self.old) }
        ensures handle { IfOk result (IsKeyResultOf self.old.schema) }
        ensures ok { OnOk result (self.new ≡ state.see_key (key_of key.entry) self.old) }
        ensures err { OnErr result (self.new ≡ self.old) }
    {
        self.see_key_counted(alloc, key, &mut Steps::new())
    }

    /// Sees a key as [`Solver::see_key`] does, errors included. `steps` counts the words of the
    /// index that it reads, and its searches of a resolution for a field.
    ///
    /// It reads at most two words for each 64 resolutions or part of 64, so none where there are
    /// none. It makes at most as many searches as candidates are left. It makes none where the
    /// answer is `Unknown` or `Solved`, nor where the fields that the key means in the resolutions
    /// of the schema have one shape.
    pub fn see_key_counted(
        &mut self,
        alloc: Global,
        key: FieldKey<'a>,
        steps: &mut Steps,
    ) -> Result<KeyResult<'s, 'c>, AllocError>
        ensures answer { IfOk result (λ answer.
            key_result_view answer ≡ key_result (key_of key.entry) self.old) }
        ensures handle { IfOk result (IsKeyResultOf self.old.schema) }
        ensures ok { OnOk result (self.new ≡ state.see_key (key_of key.entry) self.old) }
        ensures err { OnErr result (self.new ≡ self.old) }
        ensures words { steps.new.words
            ≤ steps.old.words + 2 * begun_words (length self.old.schema.resolutions) }
        ensures searches { steps.new.searches
            ≤ steps.old.searches + length self.new.candidates }
        ensures no_fall { NoCountFalls steps.old steps.new }
        ensures no_search { IfOk result (λ answer. IsUnknownOrSolved (key_result_view answer)
            → steps.new.searches ≡ steps.old.searches) }
        ensures agreed { (shape : ℕ)
            → HaveShape shape (key_of key.entry) self.old.schema.resolutions
            → steps.new.searches ≡ steps.old.searches }
    {
        let Some(entry) = self.schema.look_up(key) else {
            self.seen.insert(key)?;
            return Ok(KeyResult::Unknown);
        };
        let search = KeySearch {
            schema: self.schema,
            key,
        };
        let answer = key_result(alloc, &search, &self.candidates, entry, steps)?;
        self.seen.insert(key)?;
        if !answer.is_unknown() {
            self.candidates.keep_common(&entry.set, steps);
        }
        Ok(answer)
    }

    /// Sees an attribute of the document. It is `see_key` of `FieldKey::attribute(name)`, errors
    /// included.
    pub fn see_attribute(
        &mut self,
        alloc: Global,
        name: &'a str,
    ) -> Result<KeyResult<'s, 'c>, AllocError>
        ensures answer { IfOk result (λ answer.
            key_result_view answer ≡ key_result (dom_key Attribute name.now) self.old) }
        ensures handle { IfOk result (IsKeyResultOf self.old.schema) }
        ensures ok { OnOk result (self.new ≡ state.see_key (dom_key Attribute name.now) self.old) }
        ensures err { OnErr result (self.new ≡ self.old) }
    {
        self.see_key(alloc, FieldKey::attribute(name))
    }

    /// Sees a child element of the document. It is `see_key` of `FieldKey::element(name)`, errors
    /// included.
    pub fn see_element(
        &mut self,
        alloc: Global,
        name: &'a str,
    ) -> Result<KeyResult<'s, 'c>, AllocError>
        ensures answer { IfOk result (λ answer.
            key_result_view answer ≡ key_result (dom_key Element name.now) self.old) }
        ensures handle { IfOk result (IsKeyResultOf self.old.schema) }
        ensures ok { OnOk result (self.new ≡ state.see_key (dom_key Element name.now) self.old) }
        ensures err { OnErr result (self.new ≡ self.old) }
    {
        self.see_key(alloc, FieldKey::element(name))
    }

    /// Sees the text of the document's element. It is `see_key` of `FieldKey::text()`, errors
    /// included.
    pub fn see_text(&mut self, alloc: Global) -> Result<KeyResult<'s, 'c>, AllocError>
        ensures answer { IfOk result (λ answer.
            key_result_view answer ≡ key_result (dom_key Text []) self.old) }
        ensures handle { IfOk result (IsKeyResultOf self.old.schema) }
        ensures ok { OnOk result (self.new ≡ state.see_key (dom_key Text []) self.old) }
        ensures err { OnErr result (self.new ≡ self.old) }
    {
        self.see_key(alloc, FieldKey::text())
    }

    /// Marks a key as seen without narrowing the candidates.
    ///
    /// The only error is out of memory. The seen keys are then as before.
    #[tactic(auto, using(crate::proofs::State::seen_with))]
    pub fn mark_seen(&mut self, key: FieldKey<'a>) -> Result<(), AllocError>
        ensures ok { OnOk result (self.new ≡ state.mark_seen (key_of key.entry) self.old) }
        ensures err { OnErr result (self.new ≡ self.old) }
    {
        self.seen.insert(key)?;
        Ok(())
    }

    /// Whether a key of the name was seen, of whatever kind.
    pub fn was_field_seen(&self, name: &str) -> bool
        ensures { result ≡ state.was_field_seen name.now self.now }
    {
        was_name_seen(&self.seen, name)
    }

    /// The candidates that pass a test, as far as their number matters.
    fn matching<T: Test>(&self, test: T) -> Matches
        ensures number { matches_view result ≡ how_many (passing (T.is_passed test) self.now) }
        ensures within { IsWithin (length self.now.schema.resolutions) result }
    {
        let resolutions = self.schema.resolutions();
        self.candidates.matching(&AtIndex { resolutions, test })
    }

    /// Only the candidates stay that pass a test.
    fn retain<T: Test>(&mut self, test: T)
        ensures { self.new ≡ retain (T.is_passed test) self.old }
    {
        let resolutions = self.schema.resolutions();
        self.candidates.retain(&AtIndex { resolutions, test });
    }

    /// Only the candidates stay that pass a test. Where none does, all stay and the answer is
    /// false.
    fn narrow<T: Test>(&mut self, test: T) -> bool
        ensures passed { IsTrue result ↔ (passing (T.is_passed test) self.old ≢ []) }
        ensures narrowed { self.new ≡ narrow (T.is_passed test) self.old }
        ensures unchanged { OnFalse result (self.new ≡ self.old) }
    {
        let resolutions = self.schema.resolutions();
        let passes = AtIndex { resolutions, test };
        match self.candidates.matching(&passes) {
            Matches::None => false,
            _ => {
                self.candidates.retain(&passes);
                true
            }
        }
    }
}
