//! Fields, handed out one at a time by a call that counts them.
ghost use Rattle.std.specs.Prelude.{◌≡◌, ◌+◌, ◌<◌, Some, length, slice_get};

use facet_solver_shape::{Field, Steps};

/// The field at an index, counted as a visit. The count of choices, the marks that a root gives
/// (`mark_root`) and the tables of nested key paths read fields by this call alone. Other passes
/// read fields without it, as the one for what structs contribute and the marks that entries ask
/// for (`mark_asked`).
pub(crate) fn visited<'c>(fields: &'c [Field], index: usize, steps: &mut Steps) -> &'c Field
    requires { index < length fields.now }
    ensures field { slice_get fields.now index ≡ Some result.now }
    ensures steps { steps.new ≡ record steps.old { visits = steps.old.visits + 1 } }
{
    steps.visit();
    &fields[index]
}
