//! The indices of shapes.
ghost use Rattle.std.specs.Prelude.{◌≡◌};

use std::marker::Model;

/// The index of a shape in its catalogue, from 0.
#[derive(Clone, Copy, PartialEq, Eq, PartialOrd, Ord, Hash, Debug)]
pub struct ShapeId {
    index: usize,
}

impl Model for ShapeId {
    ghost use Rattle.std.specs.Prelude.{ℕ};

    ghost Value = { ℕ };

    ghost view = { λ a. a.index };

    ghost inverse = { λ n. record { index = n } };
}

impl ShapeId {
    /// The identifier of the shape at an index. Any index will do: `Shapes::has` says whether a
    /// catalogue has it.
    pub fn new(index: usize) -> Self
        ensures { result ≡ index }
    {
        ShapeId { index }
    }

    /// The index of the shape, from 0.
    pub fn index(self) -> usize
        ensures { result ≡ self }
    {
        self.index
    }
}
