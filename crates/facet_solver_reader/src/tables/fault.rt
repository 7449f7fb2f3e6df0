//! Why a type has no tables.
ghost use Rattle.std.specs.Prelude.{◌≡◌};
ghost use Rattle.facet_solver_reader.specs.declared.tables.fault.Fault.TheVariants.{OutOfMemory};

use crate::part::ListId;
use facet_solver_shape::ShapeId;
use std::alloc::{AllocError, AllocFailed};

/// What is wrong with a type.
#[derive(Clone, Copy, Debug, Drop)]
pub(crate) enum Fault<'c> {
    /// The catalogue has no shape at the index.
    NoShape(ShapeId),
    /// To read a value as the shape asks to read it as that shape.
    ReadsItself(ShapeId),
    /// The list has a branch in which it stands again.
    ContainsItself(ListId),
    /// A choice of the list has two members of the name, in the parts of these indices.
    NameTwice {
        list: ListId,
        name: &'c str,
        first: usize,
        second: usize,
    },
    /// A choice of the list has two catch-alls, in the parts of these indices.
    TwoCatchAlls {
        list: ListId,
        first: usize,
        second: usize,
    },
    /// Memory was refused.
    OutOfMemory,
}

impl<'c> From<AllocError> for Fault<'c> {
    ghost from_gives = { λ _ e. e ≡ OutOfMemory };

    fn from(_refused: AllocError) -> Fault<'c> {
        Fault::OutOfMemory
    }
}

impl<'c, T: Drop> From<AllocFailed<T>> for Fault<'c> {
    ghost from_gives = { λ _ e. e ≡ OutOfMemory };

    fn from(_refused: AllocFailed<T>) -> Fault<'c> {
        Fault::OutOfMemory
    }
}
