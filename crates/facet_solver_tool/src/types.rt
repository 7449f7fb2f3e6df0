//! The types of a question.
ghost use Rattle.std.specs.Prelude.{◌≡◌, ◌≢◌, IfOk};
ghost use Rattle.facet_solver_types.specs.declared.error.TypesError.TheVariants as errors;
ghost use Rattle.facet_solver_tool.specs.Answer.{answer_view, says};
ghost use Rattle.facet_solver_types.specs.LocatedTexts.{located_text};
ghost use Rattle.facet_solver_tool.specs.Answers.{AnswersText, AnswersTypes, IsAnswer};
ghost use Rattle.facet_solver_tool.specs.Questions.{question_view};
ghost use Rattle.facet_solver_tool.specs.declared.status.Status.TheVariants.{BadTypes};

use crate::answer::Answer;
use crate::question::Question;
use crate::status::Status;
use crate::{root, utf8};
use facet_solver_types::{Located, Types, TypesError};
use std::alloc::{AllocError, Global};
use std::str;

/// The answer to a question about the types that bytes declare, and about the bytes of what is read
/// beside them: a document, or a file of accepted ambiguities.
///
/// The only error is out of memory.
pub fn answer(
    alloc: Global,
    question: &Question<'_>,
    types: &[u8],
    given: &[u8],
) -> Result<Answer, AllocError>
    ensures { IfOk result (λ a.
        IsAnswer (question_view question.now) types.now given.now (answer_view a)) }
{
    match str::from_utf8(types) {
        Ok(text) => answer_text(alloc, question, text, given),
        Err(error) => utf8::answer(alloc, Status::BadTypes, question.types, types, error),
    }
}

/// The answer about the types that a text declares, as far as the root needs them.
fn answer_text(
    alloc: Global,
    question: &Question<'_>,
    text: &str,
    given: &[u8],
) -> Result<Answer, AllocError>
    ensures { IfOk result (λ a.
        AnswersText (question_view question.now) text.now given.now (answer_view a)) }
{
    match Types::parse(alloc, text, question.root) {
        Ok(types) => answer_types(alloc, question, &types, given),
        Err(error) => no_types(alloc, question.types, &error),
    }
}

/// The answer where a text does not declare the types of a root: the path of its file, and why, a
/// line for each fault.
pub(crate) fn no_types(
    alloc: Global,
    path: &str,
    error: &TypesError<'_>,
) -> Result<Answer, AllocError>
    ensures { IfOk result (λ a. (error.now ≢ errors.OutOfMemory)
        × (answer_view a ≡ says BadTypes (located_text path.now error.now))) }
{
    match error {
        TypesError::OutOfMemory => Err(AllocError),
        _ => {
            let located = Located { path, error };
            Ok(Answer {
                status: Status::BadTypes,
                text: format!(in alloc; "{located}")?,
            })
        }
    }
}

/// The answer about types.
fn answer_types(
    alloc: Global,
    question: &Question<'_>,
    types: &Types,
    given: &[u8],
) -> Result<Answer, AllocError>
    ensures { IfOk result (λ a.
        AnswersTypes (question_view question.now) types.now given.now (answer_view a)) }
{
    let id = types.root();
    root::answer(alloc, question.types, types, id, question.task, given)
}
