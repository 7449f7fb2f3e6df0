//! The root of a question.
ghost use Rattle.std.specs.Prelude.{◌≡◌, ◌≢◌, IfOk};
ghost use Rattle.facet_solver_reader.specs.declared.reader.error.TypeError.TheVariants as errors;
ghost use Rattle.facet_solver_tool.specs.declared.status.Status.TheVariants.{BadTypes};
ghost use Rattle.facet_solver_tool.specs.Answer.{answer_view, says};
ghost use Rattle.facet_solver_tool.specs.RootAnswers.{AnswersCatalogue, AnswersRoot, fault_text, root_at};

use crate::answer::Answer;
use crate::catalogue::catalogue;
use crate::question::Task;
use crate::status::Status;
use crate::{check, read};
use facet_solver_reader::TypeError;
use facet_solver_shape::ShapeId;
use facet_solver_types::Types;
use std::alloc::{AllocError, Global};

/// The answer about a root to what is asked. The types come from the file at a path. Given are the
/// bytes of the document that is to be read, or of the file that has accepted ambiguities.
///
/// The only error is out of memory.
pub fn answer(
    alloc: Global,
    path: &str,
    types: &Types,
    id: ShapeId,
    task: Task,
    given: &[u8],
) -> Result<Answer, AllocError>
    ensures { IfOk result (λ a.
        AnswersRoot (root_at path.now types.now id) task given.now (answer_view a)) }
{
    match task {
        Task::Read(manner) => read::answer(alloc, path, types, id, manner, given),
        Task::Check(manner) => check::answer(alloc, path, types, id, manner, given),
        Task::Catalogue => answer_catalogue(alloc, types, id),
    }
}

/// The answer that has the catalogue of the types.
fn answer_catalogue(alloc: Global, types: &Types, id: ShapeId) -> Result<Answer, AllocError>
    ensures { IfOk result (λ a. AnswersCatalogue types.now id (answer_view a)) }
{
    Ok(Answer {
        status: Status::Answered,
        text: catalogue(alloc, types.shapes(), id)?,
    })
}

/// The answer where a reader refuses a root: the path of the file, and why.
///
/// The only error is out of memory.
pub fn refused(alloc: Global, path: &str, error: &TypeError<'_>) -> Result<Answer, AllocError>
    ensures { IfOk result (λ a. (error.now ≢ errors.OutOfMemory)
        × (answer_view a ≡ says BadTypes (fault_text path.now error.now))) }
{
    match error {
        TypeError::OutOfMemory => Err(AllocError),
        _ => Ok(Answer {
            status: Status::BadTypes,
            text: format!(in alloc; "{path}: {error}")?,
        }),
    }
}
