//! A key path, sought in the resolutions of a schema.
ghost use Rattle.std.specs.Prelude.{◌≡◌, ◌∷◌, ◌++◌, ◌<◌, [], IfOk, IfSome, OnOk, List, ℕ, Some, filter, is_some, length, map};
ghost use Rattle.std.specs.List.{list_any};
ghost use Rattle.std.specs.Option.{IfNone};
ghost use Rattle.facet_solver_shape.specs.Names.{names_of};
ghost use Rattle.facet_solver.specs.solver.KeyResult.{IsKeyResultOf, key_result_view, scored_view};
ghost use Rattle.facet_solver.specs.KeyPath.{has_key_at, has_key_path, whole_path};
ghost use Rattle.facet_solver.specs.solver.Probe.{by_shapes, field_on_path_at, fields_on_path, scored_at, shapes_on_path};
ghost use Rattle.facet_solver.specs.Resolutions.{passes};

use crate::key_path::{has_known_path, known_path};
use crate::schema::Schema;
use crate::set::{Condition, ResolutionSet, ResolutionSetIter};
use crate::solver::distinct_fields::score_at;
use crate::solver::key_result::KeyResult;
use crate::solver::path_ends::PathEnds;
use crate::solver::shaped::is_among;
use facet_solver_shape::{FieldInfo, KeyPath, ShapeId};
use std::alloc::{AllocError, Global};

/// The first of the resolutions at some indices that has a key at a path, with the whole path as it
/// has it. The indices behind it are then still to come.
pub(crate) fn first_with_path<'s, 'c>(
    schema: &'s Schema<'c>,
    indices: &mut ResolutionSetIter<'_>,
    path: &[&str],
    key: &str,
) -> Option<(usize, &'s KeyPath<'c>)>
    ensures none { let test = has_key_at (names_of path.now) key.now in
        IfNone result (filter (passes test schema.now.resolutions) indices.old ≡ []) }
    ensures first { let passes = passes (has_key_at (names_of path.now) key.now) in
        let passing = filter (passes schema.now.resolutions) in
        IfSome result (λ found. passing indices.old ≡ found.0 ∷ passing indices.new) }
    ensures whole { IfSome result
        (λ found. names_of found.1.now.items ≡ whole_path (names_of path.now) key.now) }
    ensures within { IfSome result (λ found. found.0 < length schema.now.resolutions) }
{
    while let Some(index) = indices.next() {
        if let Some(known) = known_path_at(schema, index, path, key) {
            return Some((index, known));
        }
    }
    None
}

/// The whole path of a key that stands at a path, as the resolution at an index has it, if it does.
fn known_path_at<'s, 'c>(
    schema: &'s Schema<'c>,
    index: usize,
    path: &[&str],
    key: &str,
) -> Option<&'s KeyPath<'c>>
    ensures known { let test = has_key_at (names_of path.now) key.now in
        is_some result ≡ passes test schema.now.resolutions index }
    ensures whole { IfSome result
        (λ known. names_of known.now.items ≡ whole_path (names_of path.now) key.now) }
    ensures within { IfSome result (λ _. index < length schema.now.resolutions) }
{
    known_path(schema.resolutions().get(index)?, path, key)
}

/// A key path that a resolution of a schema has, sought in all of them.
#[derive(Clone, Copy)]
pub(crate) struct PathSearch<'s, 'c> {
    pub(crate) schema: &'s Schema<'c>,
    pub(crate) path: &'s KeyPath<'c>,
}

impl Condition for PathSearch<'_, '_> {
    ghost holds = { λ t.
        passes (has_key_path (names_of t.path.now.items)) t.schema.now.resolutions };

    fn holds(&self, index: usize) -> bool {
        match self.schema.resolutions().get(index) {
            Some(resolution) => has_known_path(resolution, self.path),
            None => false,
        }
    }
}

impl<'s, 'c> PathSearch<'s, 'c> {
    /// Whether the resolution at any of some indices has the path.
    pub(crate) fn is_at_any(&self, mut indices: ResolutionSetIter<'_>) -> bool
        ensures { let whole = names_of self.now.path.now.items in
            let test = passes (has_key_path whole) self.now.schema.now.resolutions in
            result ≡ list_any test indices.entry }
    {
        while let Some(index) = indices.next() {
            if self.holds(index) {
                return true;
            }
        }
        false
    }

    /// The answer by the shapes at the path, of the resolutions of a set that have it.
    pub(crate) fn by_shapes(
        &self,
        alloc: Global,
        set: &ResolutionSet,
    ) -> Result<KeyResult<'s, 'c>, AllocError>
        ensures answer { let whole = names_of self.now.path.now.items in
            let schema = self.now.schema.now in
            let left = filter (passes (has_key_path whole) schema.resolutions) set.now.members in
            IfOk result (λ answer. key_result_view answer
            ≡ by_shapes schema.build.catalogue (fields_on_path whole schema left)) }
        ensures no_handle { IfOk result (IsKeyResultOf self.now.schema.now) }
    {
        let resolutions = self.schema.resolutions();
        let mut ends = PathEnds::new(self.schema.shapes(), self.path);
        let mut shapes = Vec::new(alloc);
        let mut fields = Vec::new(alloc);
        for index in set.iter() {
            if let Some(found) = ends.field_at(resolutions, index) {
                self.add_if_new(&mut shapes, &mut fields, index, found)?;
            }
        }
        Ok(match shapes.as_slice() {
            [] => KeyResult::Unknown,
            [shape] => KeyResult::Unambiguous { shape: *shape },
            _ => KeyResult::Ambiguous { fields },
        })
    }

    /// Adds the shape that the resolution at an index has at the path, if it has the path and the
    /// shape is new, with the field of the first name and the score.
    fn add_if_new(
        &self,
        shapes: &mut Vec<ShapeId>,
        fields: &mut Vec<(&'s FieldInfo<'c>, u64)>,
        index: usize,
        found: (&'s FieldInfo<'c>, ShapeId),
    ) -> Result<(), AllocError>
        requires { let schema = self.now.schema.now in
            let whole = names_of self.now.path.now.items in
            field_on_path_at schema.build.catalogue whole schema.resolutions index
            ≡ Some (found.0.now, found.1) }
        ensures shapes { let whole = names_of self.now.path.now.items in
            OnOk result ((seen : List ℕ)
            → shapes.old.items ≡ shapes_on_path whole self.now.schema.now seen
            → shapes.new.items ≡ shapes_on_path whole self.now.schema.now (seen ++ index ∷ [])) }
        ensures fields { let whole = names_of self.now.path.now.items in
            let schema = self.now.schema.now in
            OnOk result ((seen : List ℕ)
            → shapes.old.items ≡ shapes_on_path whole schema seen
            → map scored_view fields.old.items ≡ scored_at whole schema seen
            → map scored_view fields.new.items ≡ scored_at whole schema (seen ++ index ∷ [])) }
    {
        // Taken apart on a line of its own: a proof follows no part of a pair in a pattern to the
        // calls below.
        let (field, shape) = found;
        if !is_among(shapes, shape) && self.holds(index) {
            shapes.push(shape)?;
            fields.push((field, score_at(self.schema, shape)))?;
        }
        Ok(())
    }
}
