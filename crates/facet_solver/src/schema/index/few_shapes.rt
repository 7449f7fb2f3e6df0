//! The shapes of the fields of an entry, as long as they are few.
ghost use Rattle.std.specs.Prelude.{◌≡◌, [], OnOk};
ghost use Rattle.std.specs.Option.{option_map};
ghost use Rattle.facet_solver.specs.schema.FewShapes.{all_shapes, few_shapes_with};

use facet_solver_shape::ShapeId;
use std::alloc::{AllocError, Global};
use std::marker::Model;

/// So many shapes are few.
const MOST_SHAPES: usize = 7;

/// Some shapes, each once. One more than are few stands for any number of them.
#[derive(Drop)]
pub(crate) struct FewShapes {
    shapes: Vec<ShapeId>,
}

impl Model for FewShapes {
    ghost use Rattle.std.specs.Prelude.{List, ℕ};

    ghost Value = { List ℕ };

    ghost view = { λ s. s.shapes.items };
}

impl FewShapes {
    /// None yet. The call allocates nothing.
    pub(super) fn new(alloc: Global) -> Self
        ensures { result ≡ [] }
    {
        FewShapes {
            shapes: Vec::new(alloc),
        }
    }

    /// Adds a shape, if it is new, and they are few.
    pub(super) fn add(&mut self, shape: ShapeId) -> Result<(), AllocError>
        ensures { OnOk result (self.new ≡ few_shapes_with self.old shape) }
    {
        if self.shapes.len() > MOST_SHAPES || self.shapes.contains(&shape) {
            return Ok(());
        }
        self.shapes.push(shape)?;
        Ok(())
    }

    /// All of them, if they are few.
    pub(crate) fn all(&self) -> Option<&[ShapeId]>
        ensures { option_map (λ shapes. shapes.now) result ≡ all_shapes self.now }
    {
        if self.shapes.len() > MOST_SHAPES {
            None
        } else {
            Some(&self.shapes)
        }
    }
}
