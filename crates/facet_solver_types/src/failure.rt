//! Why a text has no types, or not those of a root.
ghost use Rattle.std.specs.Prelude.{◌≡◌};

use crate::fault::Fault;
use std::alloc::{AllocError, AllocFailed};

/// Why a text has no types, or not those of a root.
#[derive(Drop)]
pub(crate) enum Failure {
    /// The text cannot be read, or its shapes are no catalogue; or out of memory.
    Text(Fault),
    /// What the root needs has these faults, in the order of the text.
    Needed(Vec<Fault>),
    /// The root is none. Its tokens stand behind those of the text.
    Root(Fault),
    /// No root is named, and these types stand by themselves.
    Roots(Vec<String>),
}

impl<T: Drop> From<AllocFailed<T>> for Failure {
    ghost use Rattle.facet_solver_types.specs.declared.failure.Failure.TheVariants.{Text};
    ghost use Rattle.facet_solver_types.specs.declared.fault.Fault.TheVariants.{OutOfMemory};

    ghost from_gives = { λ _ e. e ≡ Text OutOfMemory };

    fn from(_refused: AllocFailed<T>) -> Failure {
        Failure::Text(Fault::OutOfMemory)
    }
}

impl From<AllocError> for Failure {
    ghost use Rattle.facet_solver_types.specs.declared.failure.Failure.TheVariants.{Text};
    ghost use Rattle.facet_solver_types.specs.declared.fault.Fault.TheVariants.{OutOfMemory};

    ghost from_gives = { λ _ e. e ≡ Text OutOfMemory };

    fn from(_refused: AllocError) -> Failure {
        Failure::Text(Fault::OutOfMemory)
    }
}

impl From<Fault> for Failure {
    ghost use Rattle.facet_solver_types.specs.declared.failure.Failure.TheVariants.{Text};

    ghost from_gives = { λ f e. e ≡ Text f };

    fn from(fault: Fault) -> Failure {
        Failure::Text(fault)
    }
}
