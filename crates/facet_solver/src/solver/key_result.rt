//! What a solver answers to a key.
ghost use Rattle.std.specs.Prelude.{◌≡◌, ◌↔◌, ◌+◌, ◌<◌, ◌≤◌, ℕ, IfOk, IsTrue, length, map};
ghost use Rattle.facet_solver_shape.specs.Keys.{key_of};
ghost use Rattle.facet_solver_shape.specs.Steps.{NoCountFalls};
ghost use Rattle.facet_solver.specs.schema.Indexed.{IsIndexEntry};
ghost use Rattle.facet_solver.specs.solver.KeyResult.{HaveShape, IsKeyResultOf, IsUnknownOrSolved, key_result, key_result_view, of_fields, scored_view, solved, unknown};
ghost use Rattle.facet_solver.specs.Resolutions.{field_at, has_key};
ghost use Rattle.facet_solver.specs.schema.Schema.{SchemaView};
ghost use Rattle.facet_solver.specs.solver.State.{passing, state_of};
ghost use Rattle.facet_solver.specs.set.Words.{begun_words};

use crate::schema::Schema;
use crate::schema::handle::ResolutionHandle;
use crate::schema::index::entry::Entry;
use crate::set::ResolutionSet;
use crate::solver::distinct_fields::{KeySearch, distinct_fields};
use facet_solver_shape::{FieldInfo, ShapeId, Steps};
use std::alloc::{AllocError, Global};
use std::fmt;

/// What a key says of the document: the answer of `Solver::see_key` and of `Solver::probe_key`.
#[derive(Drop)]
pub enum KeyResult<'s, 'c> {
    /// Several candidates have the key, and its value has one shape. For `probe_key` it has that
    /// in each of them where the solver knows of a shape at the path; there may be others.
    Unambiguous {
        /// That shape.
        shape: ShapeId,
    },
    /// Several candidates have the key, and its value has one of several shapes, depending on the
    /// candidate.
    Ambiguous {
        /// The first field of each shape, in the order of the candidates, with the score of the
        /// shape (`specificity_score`).
        fields: Vec<(&'s FieldInfo<'c>, u64)>,
    },
    /// Exactly one candidate has the key.
    Solved(ResolutionHandle<'s, 'c>),
    /// No candidate has a field that the key means. After `probe_key` no candidate is left then,
    /// or several are, and the solver knows of no shape at the path in any of them.
    Unknown,
}

impl<'s, 'c> KeyResult<'s, 'c> {
    /// Whether no candidate has a field that the key means.
    pub(crate) fn is_unknown(&self) -> bool
        ensures { IsTrue result ↔ (key_result_view self.now ≡ unknown) }
    {
        matches!(self, KeyResult::Unknown)
    }

    /// The answer by the index of the one candidate that is left.
    fn of_one(schema: &'s Schema<'c>, index: usize) -> Self
        requires { index < length schema.now.resolutions }
        ensures answer { key_result_view result ≡ solved index }
        ensures handle { IsKeyResultOf schema.now result }
    {
        KeyResult::Solved(ResolutionHandle::new(schema, index))
    }

    /// The answer by fields of different shapes, with the scores of the shapes.
    pub(crate) fn of_fields(fields: Vec<(&'s FieldInfo<'c>, u64)>) -> Self
        ensures answer { key_result_view result ≡ of_fields (map scored_view fields.entry.items) }
        ensures no_handle { (schema : SchemaView) → IsKeyResultOf schema result }
    {
        match fields.as_slice() {
            [(field, _)] => KeyResult::Unambiguous {
                shape: field.value_shape,
            },
            _ => KeyResult::Ambiguous { fields },
        }
    }
}

/// The answer to a key, by its entry.
pub(crate) fn key_result<'s, 'c>(
    alloc: Global,
    search: &KeySearch<'s, 'c, '_>,
    candidates: &ResolutionSet,
    entry: &Entry<'_>,
    steps: &mut Steps,
) -> Result<KeyResult<'s, 'c>, AllocError>
    requires bound { candidates.now.bound ≡ length search.now.schema.now.resolutions }
    requires entry { let resolutions = search.now.schema.now.resolutions in
        IsIndexEntry (length resolutions) (field_at (key_of search.now.key) resolutions) entry.now }
    ensures answer { let state = state_of search.now.schema.now candidates.now.members in
        IfOk result (λ answer. key_result_view answer ≡ key_result (key_of search.now.key) state) }
    ensures handle { IfOk result (IsKeyResultOf search.now.schema.now) }
    ensures words { steps.new.words
        ≤ steps.old.words + begun_words (length search.now.schema.now.resolutions) }
    ensures searches { let state = state_of search.now.schema.now candidates.now.members in
        steps.new.searches
        ≤ steps.old.searches + length (passing (has_key (key_of search.now.key)) state) }
    ensures no_fall { NoCountFalls steps.old steps.new }
    ensures no_search { IfOk result (λ answer. IsUnknownOrSolved (key_result_view answer)
        → steps.new.searches ≡ steps.old.searches) }
    ensures agreed { let resolutions = search.now.schema.now.resolutions in
        (shape : ℕ) → HaveShape shape (key_of search.now.key) resolutions
        → steps.new.searches ≡ steps.old.searches }
{
    let mut holders = candidates.common(&entry.set, steps);
    let Some(first) = holders.next(steps) else {
        return Ok(KeyResult::Unknown);
    };
    let Some(second) = holders.next(steps) else {
        return Ok(KeyResult::of_one(search.schema, first));
    };
    if let Some(shape) = entry.shape {
        return Ok(KeyResult::Unambiguous { shape });
    }
    let known = entry.shapes.all();
    let fields = distinct_fields(alloc, search, first, second, holders, known, steps)?;
    Ok(KeyResult::of_fields(fields))
}

/// Printed as a derived impl would. The derive gets no proof where references lie in pairs in a
/// vector, so each pair is printed by itself.
impl fmt::Debug for KeyResult<'_, '_> {
    fn fmt<W: fmt::Write>(&self, f: &mut fmt::Formatter<W>) -> fmt::Result {
        match self {
            KeyResult::Unambiguous { shape } => {
                f.debug_struct("Unambiguous").field("shape", shape).finish()
            }
            KeyResult::Ambiguous { fields } => f
                .debug_struct("Ambiguous")
                .field("fields", &ScoredFields(fields))
                .finish(),
            KeyResult::Solved(handle) => f.debug_tuple("Solved").field(handle).finish(),
            KeyResult::Unknown => f.write_str("Unknown"),
        }
    }
}

#[derive(Drop)]
struct ScoredFields<'f, 's, 'c>(&'f [(&'s FieldInfo<'c>, u64)]);

impl fmt::Debug for ScoredFields<'_, '_, '_> {
    fn fmt<W: fmt::Write>(&self, f: &mut fmt::Formatter<W>) -> fmt::Result {
        let mut list = f.debug_list();
        for (field, score) in self.0 {
            list.entry(&ScoredField(field, *score));
        }
        list.finish()
    }
}

#[derive(Drop)]
struct ScoredField<'f, 'c>(&'f FieldInfo<'c>, u64);

impl fmt::Debug for ScoredField<'_, '_> {
    fn fmt<W: fmt::Write>(&self, f: &mut fmt::Formatter<W>) -> fmt::Result {
        f.debug_tuple("").field(self.0).field(&self.1).finish()
    }
}
