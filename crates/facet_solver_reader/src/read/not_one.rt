//! Why there is no only reading to tell.
ghost use Rattle.std.specs.Prelude.{◌≡◌};
ghost use Rattle.facet_solver_reader.specs.declared.read.not_one.NotOne.TheVariants.{OutOfMemory};

use std::alloc::{AllocError, AllocFailed};

/// Why there is no only reading to tell.
#[derive(Clone, Copy, PartialEq, Eq, Debug, Drop)]
pub(crate) enum NotOne {
    /// There is none, or there are several.
    NoneOrSeveral,
    /// Memory was refused.
    OutOfMemory,
}

impl From<AllocError> for NotOne {
    ghost from_gives = { λ _ e. e ≡ OutOfMemory };

    fn from(_refused: AllocError) -> NotOne {
        NotOne::OutOfMemory
    }
}

impl<T: Drop> From<AllocFailed<T>> for NotOne {
    ghost from_gives = { λ _ e. e ≡ OutOfMemory };

    fn from(_refused: AllocFailed<T>) -> NotOne {
        NotOne::OutOfMemory
    }
}
