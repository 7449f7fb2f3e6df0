//! The fields that a key means in the candidates of a solver, once many of different shapes are
//! found: from there on the shapes are known as a set too.
ghost use Rattle.std.specs.Prelude.{◌≡◌, ◌+◌, ◌++◌, ◌∷◌, [], ◌<◌, ◌≤◌, ℕ, IsTrue, List, OnOk, length, map};
ghost use Rattle.facet_solver_shape.specs.Keys.{key_of};
ghost use Rattle.facet_solver_shape.specs.Steps.{NoCountFalls};
ghost use Rattle.facet_solver.specs.solver.KeyResult.{distinct_fields, scored_view};
ghost use Rattle.facet_solver.specs.solver.KnownShapes.{AreShapesOf};

use crate::set::{CommonIter, ResolutionSet};
use crate::solver::distinct_fields::{KeySearch, score_at};
use crate::solver::known_shapes::{add_shape, is_known, shapes_of};
use facet_solver_shape::{FieldInfo, Shapes, Steps};
use std::alloc::{AllocError, Global};

/// Of so many fields each is asked for its shape: to keep a set of the shapes would cost more.
const MOST_ASKED: usize = 32;

/// A set has a bit for each shape of the catalogue. To make so many for each pair of fields costs
/// little beside the comparing of these.
const BITS_A_PAIR: usize = 4;

/// Whether fields are so many that a set of their shapes is worth its memory.
pub(crate) fn are_many(fields: &[(&FieldInfo<'_>, u64)], shapes: &Shapes) -> bool
    ensures { IsTrue result → MOST_ASKED < length fields.now }
{
    fields.len() > MOST_ASKED && shapes.len() / fields.len() / BITS_A_PAIR <= fields.len()
}

/// Adds to some fields those that a key means at the indices that are left, the first of each shape
/// that is new.
// Not part of the loop over few fields, which needs nothing of it.
#[inline(never)]
pub(crate) fn add_rest<'s, 'c>(
    alloc: Global,
    fields: &mut Vec<(&'s FieldInfo<'c>, u64)>,
    search: &KeySearch<'s, 'c, '_>,
    rest: CommonIter<'_>,
    steps: &mut Steps,
) -> Result<(), AllocError>
    ensures fields { let shown = distinct_fields (key_of search.now.key) search.now.schema.now in
        OnOk result ((seen : List ℕ) → map scored_view fields.old.items ≡ shown seen
        → map scored_view fields.new.items ≡ shown (seen ++ rest.entry.items)) }
    ensures words { steps.new.words ≤ steps.old.words + rest.entry.unread }
    ensures searches { steps.new.searches ≤ steps.old.searches + length rest.entry.items }
    ensures no_fall { NoCountFalls steps.old steps.new }
{
    let shapes = shapes_of(alloc, fields, search.schema.shapes().len())?;
    add_unknown(fields, shapes, search, rest, steps)
}

/// The same, where the shapes of the fields are known.
fn add_unknown<'s, 'c>(
    fields: &mut Vec<(&'s FieldInfo<'c>, u64)>,
    mut shapes: ResolutionSet,
    search: &KeySearch<'s, 'c, '_>,
    mut rest: CommonIter<'_>,
    steps: &mut Steps,
) -> Result<(), AllocError>
    requires { AreShapesOf (λ e. e.0.now.shape) fields.old.items shapes }
    ensures fields { let shown = distinct_fields (key_of search.now.key) search.now.schema.now in
        OnOk result ((seen : List ℕ) → map scored_view fields.old.items ≡ shown seen
        → map scored_view fields.new.items ≡ shown (seen ++ rest.entry.items)) }
    ensures words { steps.new.words ≤ steps.old.words + rest.entry.unread }
    ensures searches { steps.new.searches ≤ steps.old.searches + length rest.entry.items }
    ensures no_fall { NoCountFalls steps.old steps.new }
{
    while let Some(index) = rest.next(steps) {
        add_if_unknown(fields, &mut shapes, search, index, steps)?;
    }
    Ok(())
}

/// Adds the field that a key means at an index, if its shape is not known yet.
fn add_if_unknown<'s, 'c>(
    fields: &mut Vec<(&'s FieldInfo<'c>, u64)>,
    shapes: &mut ResolutionSet,
    search: &KeySearch<'s, 'c, '_>,
    index: usize,
    steps: &mut Steps,
) -> Result<(), AllocError>
    requires { AreShapesOf (λ e. e.0.now.shape) fields.old.items shapes.old }
    ensures steps { steps.new ≡ record steps.old { searches = steps.old.searches + 1 } }
    ensures shapes { OnOk result (AreShapesOf (λ e. e.0.now.shape) fields.new.items shapes.new) }
    ensures fields { let shown = distinct_fields (key_of search.now.key) search.now.schema.now in
        OnOk result ((seen : List ℕ) → map scored_view fields.old.items ≡ shown seen
        → map scored_view fields.new.items ≡ shown (seen ++ index ∷ [])) }
{
    let Some(field) = search.field_at(index, steps) else {
        return Ok(());
    };
    if !is_known(fields, shapes, field.value_shape) {
        fields.push((field, score_at(search.schema, field.value_shape)))?;
        add_shape(shapes, field.value_shape);
    }
    Ok(())
}
