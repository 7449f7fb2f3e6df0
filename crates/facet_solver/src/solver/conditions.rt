//! What a solver asks of a resolution.
ghost use Rattle.std.specs.Prelude.{◌≡◌};
ghost use Rattle.std.specs.Option.{option_copied};
ghost use Rattle.facet_solver.specs.Resolutions.{passes, passing_at};

pub(crate) mod seen_name;
pub(crate) mod selects_variant;
pub(crate) mod shape_among;
pub(crate) mod tag_field;
pub(crate) mod viable;

use crate::set::Condition;
use facet_solver_shape::Resolution;

/// A test of a resolution.
pub(crate) trait Test: Copy {
    ghost use Rattle.std.specs.Prelude.{Bool};
    ghost use Rattle.facet_solver_shape.specs.Resolved.{Resolved};

    ghost is_passed: { Self → Resolved → Bool };

    fn is_passed(&self, resolution: &Resolution<'_>) -> bool
        ensures { result ≡ is_passed self.now resolution.now };
}

/// Whether the resolution at an index passes a test.
#[derive(Clone, Copy)]
pub(crate) struct AtIndex<'s, 'c, T> {
    pub(crate) resolutions: &'s [Resolution<'c>],
    pub(crate) test: T,
}

impl<'s, 'c, T: Test> AtIndex<'s, 'c, T> {
    /// The resolution at an index, where it passes.
    pub(crate) fn resolution_at(&self, index: usize) -> Option<&'s Resolution<'c>>
        ensures { option_copied result
            ≡ passing_at (T.is_passed self.now.test) self.now.resolutions.now index }
    {
        let resolution = self.resolutions.get(index)?;
        self.test.is_passed(resolution).then_some(resolution)
    }
}

impl<T: Test> Condition for AtIndex<'_, '_, T> {
    ghost holds = { λ c. passes (T.is_passed c.test) c.resolutions.now };

    fn holds(&self, index: usize) -> bool {
        self.resolution_at(index).is_some()
    }
}
