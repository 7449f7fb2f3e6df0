//! Whether a field of a resolution has one of some shapes.
ghost use Rattle.std.specs.Prelude.{◌≡◌, map};
ghost use Rattle.std.specs.List.{list_any};
ghost use Rattle.facet_solver.specs.solver.FirstOfEach.{is_among};
ghost use Rattle.facet_solver.specs.solver.State.{has_shape_among};

use crate::solver::conditions::Test;
use crate::solver::shaped::{Shaped, is_among};
use facet_solver_shape::{FieldInfo, FieldKey, Resolution};
use std::collections::BTreeMap;

/// Whether a field of a resolution has the shape of one of some items.
#[derive(Clone, Copy)]
pub(crate) struct HasShapeAmong<'l, T> {
    pub(crate) items: &'l [T],
}

impl<T: Shaped> Test for HasShapeAmong<'_, T> {
    ghost is_passed = { λ t. has_shape_among (map T.shape_of t.items.now) };

    fn is_passed(&self, resolution: &Resolution<'_>) -> bool {
        has_shape_among(resolution, self.items)
    }
}

fn has_shape_among<T: Shaped>(resolution: &Resolution<'_>, items: &[T]) -> bool
    ensures { result ≡ has_shape_among (map T.shape_of items.now) resolution.now }
{
    have_shape_among(resolution.fields(), items)
}

fn have_shape_among<T: Shaped>(fields: &BTreeMap<FieldKey<'_>, FieldInfo<'_>>, items: &[T]) -> bool
    ensures { result
        ≡ list_any (λ e. is_among T.shape_of items.now e.1.shape) fields.now.entries }
{
    for (_, field) in fields {
        if is_among(items, field.value_shape) {
            return true;
        }
    }
    false
}
