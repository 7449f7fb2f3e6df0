//! The shape of a resolution at a path of names.
ghost use Rattle.std.specs.Prelude.{◌≡◌, ◌++◌, ◌∷◌, [], IfOk, OnOk, List, ℕ};
ghost use Rattle.facet_solver_shape.specs.Names.{names_of};
ghost use Rattle.facet_solver.specs.solver.ShapeAtPath as at_path;
ghost use Rattle.facet_solver.specs.solver.ShapeAtPath.{distinct, has_shape_at_path, shape_of_member};

use crate::schema::Schema;
use crate::set::ResolutionSet;
use crate::solver::conditions::Test;
use crate::solver::path_ends::PathEnds;
use crate::solver::shaped::is_among;
use facet_solver_shape::{Field, Resolution, ShapeId, ShapeKind, Shapes};
use std::alloc::{AllocError, Global};

/// Whether the shape of a resolution at a path is one of some shapes.
#[derive(Clone, Copy)]
pub(crate) struct HasShapeAtPath<'k, 'p, 'n> {
    pub(crate) catalogue: &'k Shapes,
    pub(crate) path: &'p [&'n str],
    pub(crate) shapes: &'p [ShapeId],
}

impl Test for HasShapeAtPath<'_, '_, '_> {
    ghost is_passed = { λ t. has_shape_at_path t.catalogue.now (names_of t.path.now) t.shapes.now };

    fn is_passed(&self, resolution: &Resolution<'_>) -> bool {
        match shape_at_path(self.catalogue, self.path, resolution) {
            Some(shape) => is_among(self.shapes, shape),
            None => false,
        }
    }
}

/// The shapes at a path of the resolutions of a set, each once, in the order of the resolutions.
pub(crate) fn distinct_shapes(
    alloc: Global,
    schema: &Schema<'_>,
    set: &ResolutionSet,
    path: &[&str],
) -> Result<Vec<ShapeId>, AllocError>
    ensures { IfOk result (λ shapes. shapes.items
        ≡ at_path.distinct_shapes (names_of path.now) schema.now set.now.members) }
{
    let mut ends = PathEnds::new(schema.shapes(), path);
    let mut shapes = Vec::new(alloc);
    for index in set.iter() {
        if let Some(shape) = ends.shape_at(schema.resolutions(), index) {
            add_if_new(&mut shapes, shape)?;
        }
    }
    Ok(shapes)
}

/// Adds a shape that is not there yet.
fn add_if_new(shapes: &mut Vec<ShapeId>, shape: ShapeId) -> Result<(), AllocError>
    ensures { OnOk result ((seen : List ℕ) → shapes.old.items ≡ distinct seen
        → shapes.new.items ≡ distinct (seen ++ shape ∷ [])) }
{
    if !is_among(shapes, shape) {
        shapes.push(shape)?;
    }
    Ok(())
}

/// The shape of a resolution at a path.
pub(crate) fn shape_at_path(
    catalogue: &Shapes,
    path: &[&str],
    resolution: &Resolution<'_>,
) -> Option<ShapeId>
    ensures { result
        ≡ at_path.shape_at_path catalogue.now (names_of path.now) resolution.now }
{
    let (first, below) = path.split_first()?;
    let field = resolution.field_by_name(first)?;
    shape_below(catalogue, below, field.value_shape)
}

/// The shape at the end of a path of members that begins at a shape.
pub(crate) fn shape_below(catalogue: &Shapes, path: &[&str], first: ShapeId) -> Option<ShapeId>
    ensures { result ≡ at_path.shape_below catalogue.now (names_of path.now) first }
{
    let mut shape = first;
    for name in path {
        shape = shape_of_member(catalogue, name, shape)?;
    }
    Some(shape)
}

/// Where a shape is a struct: the shape of its first field that goes by a name.
pub(crate) fn shape_of_member(catalogue: &Shapes, name: &str, id: ShapeId) -> Option<ShapeId>
    ensures { result ≡ shape_of_member catalogue.now name.now id }
{
    match &catalogue.get(id)?.kind {
        ShapeKind::Struct { fields, .. } => shape_of_field(name, fields),
        _ => None,
    }
}

/// The shape of the first field that goes by a name.
fn shape_of_field(name: &str, fields: &[Field]) -> Option<ShapeId>
    ensures { result ≡ at_path.shape_of_field name.now fields.now }
{
    let field = fields.iter().find(|field| field.effective_name() == name)?;
    Some(field.shape)
}
