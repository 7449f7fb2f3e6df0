//! The names of seen keys.
ghost use Rattle.std.specs.Prelude.{◌≡◌, IfOk, map, not, string_bytes};
ghost use Rattle.facet_solver_shape.specs.Keys.{key_of};
ghost use Rattle.facet_solver.specs.solver.Failure as spec;
ghost use Rattle.facet_solver.specs.Resolutions.{is_known};

use crate::schema::Schema;
use facet_solver_shape::FieldKey;
use std::alloc::{AllocError, Global};
use std::collections::BTreeSet;

/// A test of a seen key.
pub(crate) trait KeyTest: Copy {
    ghost use Rattle.std.specs.Prelude.{Bool};
    ghost use Rattle.facet_solver_shape.specs.Keys.{Key, key_of};

    ghost is_passed: { Self → Key → Bool };

    fn is_passed(&self, key: FieldKey<'_>) -> bool
        ensures { result ≡ is_passed self.now (key_of key.entry) };
}

/// Each key passes.
#[derive(Clone, Copy)]
pub(crate) struct AnyKey;

impl KeyTest for AnyKey {
    ghost use Rattle.std.specs.Prelude.{true};

    ghost is_passed = { λ t k. true };

    fn is_passed(&self, _key: FieldKey<'_>) -> bool {
        true
    }
}

/// Whether a key means no field of any resolution.
#[derive(Clone, Copy)]
pub(crate) struct IsUnknown<'s, 'c> {
    pub(crate) schema: &'s Schema<'c>,
}

impl KeyTest for IsUnknown<'_, '_> {
    ghost is_passed = { λ t key. not (is_known t.schema.now.resolutions key) };

    fn is_passed(&self, key: FieldKey<'_>) -> bool {
        !self.schema.is_known(key)
    }
}

/// The names of the keys that pass a test, one for each key, in key order.
pub(crate) fn names_where<T: KeyTest>(
    alloc: Global,
    seen: &BTreeSet<FieldKey<'_>>,
    test: T,
) -> Result<Vec<String>, AllocError>
    ensures { IfOk result (λ names. map string_bytes names.items
        ≡ spec.names_where (T.is_passed test) (map key_of seen.now.keys)) }
{
    let mut names = Vec::new(alloc);
    for key in seen {
        if test.is_passed(*key) {
            names.push(String::from_str(alloc, key.name())?)?;
        }
    }
    Ok(names)
}
