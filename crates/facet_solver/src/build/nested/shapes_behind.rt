//! The shapes behind a name of regular fields.
ghost use Rattle.std.specs.Prelude.{◌≡◌, ◌++◌, ℕ, Bool, IfOk, OnOk, true};
ghost use Rattle.std.specs.List.{AllByRecursion};
ghost use Rattle.facet_solver.specs.build.Nested.{Under, paths_of_each};
ghost use Rattle.facet_solver.specs.build.NestedNames.{HasEachOnce, shapes_behind};

use facet_solver_shape::ShapeId;
use std::alloc::{AllocError, Global};
use std::slice;

/// The shapes of the fields of one name. Mostly there is one at most, which takes no memory beside
/// the name.
#[derive(Drop)]
pub(crate) enum ShapesBehind {
    Nothing,
    One(ShapeId),
    Several(Vec<ShapeId>),
}

impl ShapesBehind {
    /// The shapes.
    pub(crate) fn as_slice(&self) -> &[ShapeId]
        ensures { result.now ≡ shapes_behind self.now }
    {
        match self {
            ShapesBehind::Nothing => &[],
            ShapesBehind::One(shape) => slice::from_ref(shape),
            ShapesBehind::Several(shapes) => shapes.as_slice(),
        }
    }

    /// The same shapes once more.
    pub(crate) fn copied(&self, alloc: Global) -> Result<ShapesBehind, AllocError>
        ensures { IfOk result (λ copy. shapes_behind copy ≡ shapes_behind self.now) }
    {
        match self {
            ShapesBehind::Nothing => Ok(ShapesBehind::Nothing),
            ShapesBehind::One(shape) => Ok(ShapesBehind::One(*shape)),
            ShapesBehind::Several(shapes) => {
                let copy = Vec::from_slice(alloc, shapes)?;
                Ok(ShapesBehind::Several(copy))
            }
        }
    }

    /// Adds shapes, of which some may be there already.
    pub(crate) fn add(&mut self, alloc: Global, more: &[ShapeId]) -> Result<(), AllocError>
        ensures { OnOk result (shapes_behind self.new ≡ shapes_behind self.old ++ more.now) }
    {
        if let ShapesBehind::Several(shapes) = self {
            return shapes.extend_from_slice(more);
        }
        let mut shapes = Vec::from_slice(alloc, self.as_slice())?;
        shapes.extend_from_slice(more)?;
        *self = ShapesBehind::Several(shapes);
        Ok(())
    }

    /// Keeps each shape once.
    pub(crate) fn drop_repeats(&mut self)
        ensures once { HasEachOnce self.new }
        ensures paths { (under : Under) → paths_of_each under (shapes_behind self.new)
            ≡ paths_of_each under (shapes_behind self.old) }
        ensures lead { (passes : ℕ → Bool)
            → AllByRecursion (λ id. passes id ≡ true) (shapes_behind self.old)
            → AllByRecursion (λ id. passes id ≡ true) (shapes_behind self.new) }
    {
        if let ShapesBehind::Several(shapes) = self {
            shapes.sort_unstable();
            shapes.dedup();
        }
    }
}
