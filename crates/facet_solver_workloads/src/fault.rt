//! Why a workload ends early.

use std::alloc::{AllocError, AllocFailed};
use std::fmt;

/// Why a workload ends early.
#[derive(Clone, Copy, Debug)]
pub enum Fault {
    /// Memory was refused.
    OutOfMemory,
    /// A type of the workload is refused, which is a mistake in the workload.
    Type,
    /// No input was found that had not come before.
    Repeated,
}

impl From<AllocError> for Fault {
    fn from(_refused: AllocError) -> Fault {
        Fault::OutOfMemory
    }
}

impl<T: Drop> From<AllocFailed<T>> for Fault {
    fn from(_refused: AllocFailed<T>) -> Fault {
        Fault::OutOfMemory
    }
}

impl From<fmt::Error> for Fault {
    fn from(_refused: fmt::Error) -> Fault {
        Fault::OutOfMemory
    }
}
