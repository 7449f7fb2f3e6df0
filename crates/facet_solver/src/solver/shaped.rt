//! What has a shape.
ghost use Rattle.std.specs.Prelude.{◌≡◌};
ghost use Rattle.facet_solver.specs.solver.FirstOfEach.{is_among};

use facet_solver_shape::{FieldInfo, ShapeId};

/// Something that has a shape.
pub(crate) trait Shaped: Copy {
    ghost use Rattle.std.specs.Prelude.{ℕ};

    ghost shape_of: { Self → ℕ };

    fn shape(&self) -> ShapeId
        ensures { result ≡ shape_of self.now };
}

impl Shaped for ShapeId {
    ghost shape_of = { λ id. id };

    fn shape(&self) -> ShapeId {
        *self
    }
}

impl Shaped for &FieldInfo<'_> {
    ghost shape_of = { λ f. f.now.shape };

    fn shape(&self) -> ShapeId {
        self.value_shape
    }
}

/// A field with its score.
impl Shaped for (&FieldInfo<'_>, u64) {
    ghost shape_of = { λ e. e.0.now.shape };

    fn shape(&self) -> ShapeId {
        let field = self.0;
        field.value_shape
    }
}

/// Whether one of some items has a shape.
pub(crate) fn is_among<T: Shaped>(items: &[T], shape: ShapeId) -> bool
    ensures { result ≡ is_among T.shape_of items.now shape }
{
    items.iter().any(|item| item.shape() == shape)
}
