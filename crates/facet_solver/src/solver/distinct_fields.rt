//! The fields that a key means in the candidates of a solver.
ghost use Rattle.std.specs.Prelude.{◌≡◌, ◌+◌, ◌++◌, ◌∷◌, [], ◌≤◌, ℕ, IfOk, IfSome, IsSome, IsTrue, List, OnOk, length, map};
ghost use Rattle.std.specs.Option.{option_copied};
ghost use Rattle.facet_solver_shape.specs.Keys.{key_of};
ghost use Rattle.facet_solver_shape.specs.Steps.{NoCountFalls};
ghost use Rattle.facet_solver.specs.schema.Indexed.{HaveShapesOf};
ghost use Rattle.facet_solver.specs.solver.KeyResult as key_result;
ghost use Rattle.facet_solver.specs.solver.KeyResult.{scored_view};
ghost use Rattle.facet_solver.specs.Resolutions.{field_at};

use crate::schema::Schema;
use crate::set::CommonIter;
use crate::solver::many_fields::{add_rest, are_many};
use crate::solver::shaped::is_among;
use facet_solver_shape::{FieldInfo, FieldKey, ShapeId, Steps, specificity_score};
use std::alloc::{AllocError, Global};

/// A key that is sought in the resolutions of a schema.
#[derive(Clone, Copy)]
pub(crate) struct KeySearch<'s, 'c, 'k> {
    pub(crate) schema: &'s Schema<'c>,
    pub(crate) key: FieldKey<'k>,
}

impl<'s, 'c> KeySearch<'s, 'c, '_> {
    /// The field that the key means in the resolution at an index.
    pub(crate) fn field_at(&self, index: usize, steps: &mut Steps) -> Option<&'s FieldInfo<'c>>
        ensures field { option_copied result
            ≡ field_at (key_of self.now.key) self.now.schema.now.resolutions index }
        ensures steps { steps.new ≡ record steps.old { searches = steps.old.searches + 1 } }
    {
        steps.search();
        self.schema
            .resolutions()
            .get(index)?
            .field_by_key(&self.key)
    }
}

/// Of the fields that a key means at two indices and those after them, the first of each shape,
/// with the score of the shape. It may be known which shapes there are: then no more indices are
/// asked once there is a field of each.
pub(crate) fn distinct_fields<'s, 'c>(
    alloc: Global,
    search: &KeySearch<'s, 'c, '_>,
    first: usize,
    second: usize,
    mut rest: CommonIter<'_>,
    known: Option<&[ShapeId]>,
    steps: &mut Steps,
) -> Result<Vec<(&'s FieldInfo<'c>, u64)>, AllocError>
    requires { IfSome known (λ shapes. HaveShapesOf (field_at (key_of search.now.key)
        search.now.schema.now.resolutions) shapes.now) }
    ensures fields { IfOk result (λ fields. map scored_view fields.items
        ≡ key_result.distinct_fields (key_of search.now.key) search.now.schema.now
        (first ∷ second ∷ rest.entry.items)) }
    ensures words { steps.new.words ≤ steps.old.words + rest.entry.unread }
    ensures searches { steps.new.searches
        ≤ steps.old.searches + length (first ∷ second ∷ rest.entry.items) }
    ensures no_fall { NoCountFalls steps.old steps.new }
{
    let mut fields = Vec::new(alloc);
    add_if_new(&mut fields, search, first, steps)?;
    add_if_new(&mut fields, search, second, steps)?;
    while let Some(index) = rest.next(steps) {
        if has_all(&fields, known) {
            return Ok(fields);
        }
        add_if_new(&mut fields, search, index, steps)?;
        if are_many(&fields, search.schema.shapes()) {
            add_rest(alloc, &mut fields, search, rest, steps)?;
            return Ok(fields);
        }
    }
    Ok(fields)
}

/// Whether it is known which shapes there are, and some fields, each of a shape of its own, are as
/// many.
fn has_all(fields: &[(&FieldInfo<'_>, u64)], known: Option<&[ShapeId]>) -> bool
    ensures known { IsTrue result → IsSome known.entry }
    ensures all { IsTrue result
        → IfSome known.entry (λ shapes. length shapes.now ≤ length fields.now) }
{
    match known {
        Some(shapes) => shapes.len() <= fields.len(),
        None => false,
    }
}

/// Adds the field that a key means at an index, if it is the first of its shape.
fn add_if_new<'s, 'c>(
    fields: &mut Vec<(&'s FieldInfo<'c>, u64)>,
    search: &KeySearch<'s, 'c, '_>,
    index: usize,
    steps: &mut Steps,
) -> Result<(), AllocError>
    ensures steps { steps.new ≡ record steps.old { searches = steps.old.searches + 1 } }
    ensures fields { let schema = search.now.schema.now in
        let shown = key_result.distinct_fields (key_of search.now.key) schema in
        OnOk result ((seen : List ℕ) → map scored_view fields.old.items ≡ shown seen
        → map scored_view fields.new.items ≡ shown (seen ++ index ∷ [])) }
{
    let Some(field) = search.field_at(index, steps) else {
        return Ok(());
    };
    if !is_among(fields, field.value_shape) {
        fields.push((field, score_at(search.schema, field.value_shape)))?;
    }
    Ok(())
}

/// The score of a shape that is not there.
const NO_SCORE: u64 = 1000;

/// The score of the shape at an index.
pub(crate) fn score_at(schema: &Schema<'_>, id: ShapeId) -> u64
    ensures { result ≡ key_result.score_at schema.now.build.catalogue id }
{
    match schema.shapes().get(id) {
        Some(shape) => specificity_score(shape),
        None => NO_SCORE,
    }
}
