//! A streaming reader: the events of a document of any depth, as they come, and then the verdict.
//!
//! There is no tree and no second pass. A solver sees the keys of the first level and the texts
//! under them, is asked for the deeper keys, and is told the shapes that scalars fit. Where a
//! candidate may hide what comes, nothing is told. What lies in lists is passed over.
ghost use Rattle.std.specs.Prelude.{IfOk};
ghost use Rattle.facet_solver.specs.schema.ResolutionHandle.{IsHandleOf};
ghost use Rattle.facet_solver_uses.specs.stream.Documents.{ReadsDocuments};
ghost use Rattle.facet_solver_uses.specs.stream.Events.{Streams};
ghost use Rattle.facet_solver_uses.specs.stream.Found.{FindsDocument};

mod candidates;
mod event;
mod place;
mod reader;
mod tell;

pub use event::{Event, Refusal, Unread};
use facet_solver::{ResolutionHandle, Schema, SolverError};
pub use reader::Reader;
use std::alloc::Global;

/// The resolution that the events of a document mean, in a schema of whichever builder.
///
/// The document may fit one choice, with its members in any order, and with keys among them that no
/// choice has. Then the answer is the resolution of that choice, or `Ambiguous`, which has its
/// description at its place.
///
/// Errors, for whatever events: `Misplaced` with the index of the first event that can't stand
/// where it comes; `Unfinished` where the document has not ended. For the events of a document it
/// is that of the solver: `NoMatch` where no resolution that is left has all that it requires;
/// `Ambiguous` where several have, whose descriptions stand in the order of the resolutions;
/// `OutOfMemory`, at any time.
///
/// An event takes time with its depth. Outside lists a key of the first level is looked up once, and
/// a deeper key or a value goes through the candidates that are left, in each along its path.
#[tactic(auto, using(crate::proofs::Events::reading_more, crate::proofs::Events::placed_more, crate::proofs::Events::streams_all, crate::proofs::WholeDocuments::reads_documents))]
pub fn stream<'s, 'c>(
    alloc: Global,
    schema: &'s Schema<'c>,
    events: &[Event<'_, '_>],
) -> Result<ResolutionHandle<'s, 'c>, Unread<'c>>
    ensures document { ReadsDocuments schema.now events.now result }
    ensures events { Streams schema.now events.now result }
    ensures found { FindsDocument schema.now events.now result }
    ensures handle { IfOk result (IsHandleOf schema.now) }
{
    let mut reader = Reader::new(alloc, schema)?;
    for (index, event) in events.iter().enumerate() {
        match reader.event(alloc, *event) {
            Ok(()) => {}
            Err(Refusal::Misplaced) => return Err(Unread::Misplaced(index)),
            Err(Refusal::OutOfMemory) => return Err(Unread::Solver(SolverError::OutOfMemory)),
        }
    }
    reader.finish(alloc)
}
