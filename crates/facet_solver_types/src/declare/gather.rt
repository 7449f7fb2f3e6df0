//! Lists that grow by what is there.
ghost use Rattle.std.specs.Prelude.{◌≡◌, ◌++◌, OnOk};
ghost use Rattle.std.specs.Option.{option_to_list};

use std::alloc::AllocFailed;

/// Adds a value to others, if there is one.
pub(super) fn add<T: Drop>(found: &mut Vec<T>, value: Option<T>) -> Result<(), AllocFailed<T>>
    ensures { OnOk result (found.new.items ≡ found.old.items ++ option_to_list value) }
{
    match value {
        Some(value) => found.push(value),
        None => Ok(()),
    }
}
