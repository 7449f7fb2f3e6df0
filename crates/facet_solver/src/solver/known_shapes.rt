//! The shapes of some items as a set, in which one is found without going through the items. Sets
//! of indices serve for shapes as they do for resolutions.
ghost use Rattle.std.specs.Prelude.{◌≡◌, IfOk};
ghost use Rattle.facet_solver.specs.solver.FirstOfEach.{is_among};
ghost use Rattle.facet_solver.specs.solver.KnownShapes.{AddsShape, AreShapesOf};

use crate::set::ResolutionSet;
use crate::solver::shaped::{Shaped, is_among};
use facet_solver_shape::ShapeId;
use std::alloc::{AllocError, Global};

/// The shapes of some items that are below a bound.
pub(crate) fn shapes_of<T: Shaped>(
    alloc: Global,
    items: &[T],
    bound: usize,
) -> Result<ResolutionSet, AllocError>
    ensures { IfOk result (AreShapesOf T.shape_of items.now) }
{
    let mut shapes = ResolutionSet::empty(alloc, bound)?;
    for item in items {
        add_shape(&mut shapes, item.shape());
    }
    Ok(shapes)
}

/// Adds a shape, if it is below the bound.
pub(crate) fn add_shape(shapes: &mut ResolutionSet, shape: ShapeId)
    ensures { AddsShape shape shapes.old shapes.new }
{
    let index = shape.index();
    if index < shapes.bound() {
        shapes.insert(index);
    }
}

/// Whether one of some items has a shape, where a set has their shapes below its bound.
pub(crate) fn is_known<T: Shaped>(items: &[T], shapes: &ResolutionSet, shape: ShapeId) -> bool
    requires { AreShapesOf T.shape_of items.now shapes.now }
    ensures { result ≡ is_among T.shape_of items.now shape }
{
    let index = shape.index();
    if index < shapes.bound() {
        shapes.contains(index)
    } else {
        is_among(items, shape)
    }
}
