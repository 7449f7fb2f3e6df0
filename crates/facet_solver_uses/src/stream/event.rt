//! What a reader of a document comes upon, and why it is refused.

ghost use Rattle.std.specs.Prelude.{◌≡◌};

use facet_solver::{ShapeId, SolverError};
use std::alloc::AllocError;

/// What a reader of a document comes upon.
///
/// Keys are kept as long as the document. A text and the shapes of a value are needed only while
/// the event is read. The shapes are all that the value fits: also an option of what it is, a
/// wrapper, an enum.
#[derive(Clone, Copy)]
pub enum Event<'d, 'v> {
    /// A key of an object, before its value.
    Key(&'d str),
    /// The begin of an object.
    Object,
    /// The begin of a list.
    List,
    /// A scalar that is no text, with the shapes that it fits.
    Scalar(&'v [ShapeId]),
    /// A text, with the shapes that it fits.
    Text(&'v str, &'v [ShapeId]),
    /// The end of the innermost object or list.
    End,
}

/// Why an event is refused. The reader is as it was.
#[derive(Clone, Copy)]
pub enum Refusal {
    /// No such event can stand there.
    Misplaced,
    /// Out of memory.
    OutOfMemory,
}

impl From<AllocError> for Refusal {
    ghost use Rattle.facet_solver_uses.specs.declared.stream.event.Refusal.TheVariants.{OutOfMemory};

    ghost from_gives = { λ _ e. e ≡ OutOfMemory };

    fn from(_refused: AllocError) -> Refusal {
        Refusal::OutOfMemory
    }
}

/// Why the events of a document come to no resolution.
#[derive(Drop)]
pub enum Unread<'c> {
    /// The event of this index can't stand where it comes.
    Misplaced(usize),
    /// The document has not ended.
    Unfinished,
    /// The document fits no resolution, or several, or out of memory.
    Solver(SolverError<'c>),
}

impl<'c> From<SolverError<'c>> for Unread<'c> {
    ghost use Rattle.facet_solver_uses.specs.declared.stream.event.Unread.TheVariants.{Solver};

    ghost from_gives = { λ error e. e ≡ Solver error };

    fn from(error: SolverError<'c>) -> Unread<'c> {
        Unread::Solver(error)
    }
}

impl<'c> From<AllocError> for Unread<'c> {
    ghost use Rattle.facet_solver.specs.declared.SolverError.TheVariants.{OutOfMemory};
    ghost use Rattle.facet_solver_uses.specs.declared.stream.event.Unread.TheVariants.{Solver};

    ghost from_gives = { λ _ e. e ≡ Solver OutOfMemory };

    fn from(_refused: AllocError) -> Unread<'c> {
        Unread::Solver(SolverError::OutOfMemory)
    }
}
