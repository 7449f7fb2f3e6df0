//! Why a text was not read, by an offset in it.
ghost use Rattle.std.specs.Prelude.{◌≡◌};

use crate::problem::Problem;
use facet_solver_shape::CatalogueError;
use std::alloc::{AllocError, AllocFailed};

/// Why a text was not read.
#[derive(Clone, Copy, Debug, PartialEq, Eq)]
pub(crate) enum Fault {
    /// Something is wrong with the text.
    At {
        /// Where, in bytes.
        offset: usize,
        /// What.
        problem: Problem,
    },
    /// The shapes of its types are no catalogue.
    Catalogue(CatalogueError),
    /// Out of memory.
    OutOfMemory,
}

impl<T: Drop> From<AllocFailed<T>> for Fault {
    ghost use Rattle.facet_solver_types.specs.declared.fault.Fault.TheVariants.{OutOfMemory};

    ghost from_gives = { λ _ e. e ≡ OutOfMemory };

    fn from(_refused: AllocFailed<T>) -> Fault {
        Fault::OutOfMemory
    }
}

impl From<AllocError> for Fault {
    ghost use Rattle.facet_solver_types.specs.declared.fault.Fault.TheVariants.{OutOfMemory};

    ghost from_gives = { λ _ e. e ≡ OutOfMemory };

    fn from(_refused: AllocError) -> Fault {
        Fault::OutOfMemory
    }
}
