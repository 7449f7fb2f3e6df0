//! Handles of resolutions.
ghost use Rattle.std.specs.Prelude.{◌≡◌, ◌<◌, length};
ghost use Rattle.std.specs.Cmp.{partial_equiv_from_equiv};

use crate::schema::Schema;
use facet_solver_shape::Resolution;

/// A resolution of a schema, with its index.
///
/// Two handles are equal exactly if their indices are, also those of two schemas.
#[derive(Clone, Copy, Debug)]
pub struct ResolutionHandle<'s, 'c> {
    index: usize,
    resolution: &'s Resolution<'c>,
}

impl PartialEq for ResolutionHandle<'_, '_> {
    ghost use Rattle.facet_solver.specs.schema.ResolutionHandle.{same_index, same_index_equiv};

    ghost eq = { same_index };

    ghost laws = { partial_equiv_from_equiv same_index_equiv };

    fn eq(&self, other: &Self) -> bool {
        other.index == self.index
    }
}

impl Eq for ResolutionHandle<'_, '_> {
    ghost use Rattle.facet_solver.specs.schema.ResolutionHandle.{same_index_equiv};

    ghost laws = { same_index_equiv };
}

impl<'s, 'c> ResolutionHandle<'s, 'c> {
    ghost use Rattle.facet_solver.specs.schema.ResolutionHandle.{index_of, resolution_of, IsHandleOf};

    /// The handle of the resolution at an index.
    pub(crate) fn new(schema: &'s Schema<'c>, index: usize) -> Self
        requires { index < length schema.now.resolutions }
        ensures index { index_of result ≡ index }
        ensures of_schema { IsHandleOf schema.now result }
    {
        ResolutionHandle {
            index,
            resolution: &schema.resolutions()[index],
        }
    }

    /// The index of the resolution in `Schema::resolutions`, from 0.
    pub fn index(&self) -> usize
        ensures { result ≡ index_of self.now }
    {
        self.index
    }

    /// The resolution.
    pub fn resolution(&self) -> &'s Resolution<'c>
        ensures { result.now ≡ resolution_of self.now }
    {
        self.resolution
    }
}
