//! Why a value is no input.

use std::alloc::{AllocError, AllocFailed};

/// A member is missing, or of another type, or its number is out of range, or its word is not in its
/// list. What takes no memory has no other error.
#[derive(Clone, Copy, Debug, PartialEq, Eq)]
pub struct BadInput;

/// Why a value is not decoded.
#[derive(Clone, Copy, Debug, PartialEq, Eq)]
pub enum DecodeError {
    /// As [`BadInput`].
    BadInput,
    /// Out of memory.
    OutOfMemory,
}

impl From<BadInput> for DecodeError {
    ghost use Rattle.std.specs.Prelude.{◌≡◌};
    ghost use Rattle.facet_solver_program.specs.declared.decode.error.DecodeError.TheVariants as errors;

    ghost from_gives = { λ _ e. e ≡ errors.BadInput };

    fn from(_bad: BadInput) -> DecodeError {
        DecodeError::BadInput
    }
}

impl From<AllocError> for DecodeError {
    ghost use Rattle.std.specs.Prelude.{◌≡◌};
    ghost use Rattle.facet_solver_program.specs.declared.decode.error.DecodeError.TheVariants.{OutOfMemory};

    ghost from_gives = { λ _ e. e ≡ OutOfMemory };

    fn from(_refused: AllocError) -> DecodeError {
        DecodeError::OutOfMemory
    }
}

impl<T: Drop> From<AllocFailed<T>> for DecodeError {
    ghost use Rattle.std.specs.Prelude.{◌≡◌};
    ghost use Rattle.facet_solver_program.specs.declared.decode.error.DecodeError.TheVariants.{OutOfMemory};

    ghost from_gives = { λ _ e. e ≡ OutOfMemory };

    fn from(_refused: AllocFailed<T>) -> DecodeError {
        DecodeError::OutOfMemory
    }
}
