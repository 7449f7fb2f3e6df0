//! A run of the program.
ghost use Rattle.std.specs.Prelude.{◌≡◌, ◌≢◌, IfErr, IfOk, IfSome, option_map};
ghost use Rattle.facet_solver_shape.specs.Names.{names_of};
ghost use Rattle.facet_solver_tool.specs.declared.status.Status.TheVariants.{Misused, Unwritten};
ghost use Rattle.facet_solver_tool.specs.Answer.{answer_view};
ghost use Rattle.facet_solver_tool.specs.Answers.{IsAnswer};
ghost use Rattle.facet_solver_tool.specs.Misuses.{TellsMisuse};
ghost use Rattle.facet_solver_tool.specs.Questions.{lines_view, question_view};
ghost use Rattle.facet_solver_tool.specs.Requests.{misuse_view};
ghost use Rattle.facet_solver_tool.specs.Runs.{AnswersFile, AnswersQuestion, EndsLines, EndsRun, EndsWords, IsGiven, document_of};
ghost use Rattle.facet_solver_tool.specs.Streams.{ran, streams};

use crate::answer::{Answer, unread};
use crate::arguments::{ArgumentError, Request, requested};
use crate::help::{HELP, VERSION};
use crate::question::{LinesQuestion, Question, Task};
use crate::reply::tell;
use crate::status::Status;
use crate::{lines, types};
use std::alloc::{AllocError, Global};
use std::io::{self, IsTerminal, Read, Write};
use std::rt::{Env, Files};
use std::{env, fs};

/// Answers what the arguments of the program ask, and gives how the run ends.
pub fn run<R: Env + Files + AllocGlobal, I: Read, O: Write, E: Write + IsTerminal>(
    rt: &R,
    input: &mut I,
    output: &mut O,
    errors: &mut E,
) -> Status
    ensures { result ≢ Unwritten → EndsRun (ran (I.remaining input.old)
        (streams (O.contents output.old) (E.contents errors.old))
        (streams (O.contents output.new) (E.contents errors.new)) result) }
{
    match arguments(rt) {
        Ok(arguments) => run_arguments(rt, input, output, errors, &arguments),
        Err(error) => tell(output, errors, unread(rt.alloc(), "the arguments", error)),
    }
}

/// The arguments behind the program's name.
fn arguments<R: Env + AllocGlobal>(rt: &R) -> io::Result<Vec<String>> {
    let arguments = env::args(rt)?.skip(1).collect(rt.alloc())?;
    Ok(arguments)
}

/// Answers what arguments ask, and gives how the run ends.
fn run_arguments<R: Files + AllocGlobal, I: Read, O: Write, E: Write + IsTerminal>(
    rt: &R,
    input: &mut I,
    output: &mut O,
    errors: &mut E,
    arguments: &[String],
) -> Status
    ensures { result ≢ Unwritten → EndsRun (ran (I.remaining input.old)
        (streams (O.contents output.old) (E.contents errors.old))
        (streams (O.contents output.new) (E.contents errors.new)) result) }
{
    match words(rt.alloc(), arguments) {
        Ok(words) => run_words(rt, input, output, errors, &words),
        Err(AllocError) => tell(output, errors, Err(AllocError)),
    }
}

/// The words that arguments are.
fn words<'a>(alloc: Global, arguments: &'a [String]) -> Result<Vec<&'a str>, AllocError> {
    arguments.iter().map(String::as_str).collect(alloc)
}

/// Answers what the words of a command line ask, and gives how the run ends.
pub fn run_words<R: Files + AllocGlobal, I: Read, O: Write, E: Write + IsTerminal>(
    rt: &R,
    input: &mut I,
    output: &mut O,
    errors: &mut E,
    words: &[&str],
) -> Status
    ensures { result ≢ Unwritten → EndsWords (names_of words.now) (ran (I.remaining input.old)
        (streams (O.contents output.old) (E.contents errors.old))
        (streams (O.contents output.new) (E.contents errors.new)) result) }
{
    let alloc = rt.alloc();
    match requested(alloc, words) {
        Ok(Request::Help) => tell(output, errors, Answer::new(alloc, Status::Answered, HELP)),
        Ok(Request::Version) => tell(
            output,
            errors,
            Answer::new(alloc, Status::Answered, VERSION),
        ),
        Ok(Request::Ask(question)) => {
            let answer = answer_question(rt, input, &question);
            tell(output, errors, answer)
        }
        Ok(Request::Lines(question)) => answer_lines(rt, input, output, errors, &question),
        Err(error) => tell(output, errors, misused(alloc, &error)),
    }
}

/// The answer where words ask nothing.
fn misused(alloc: Global, error: &ArgumentError<'_>) -> Result<Answer, AllocError>
    ensures { IfOk result (λ a. TellsMisuse (misuse_view error.now) (answer_view a)) }
{
    match error {
        ArgumentError::OutOfMemory => Err(AllocError),
        ArgumentError::Misuse(misuse) => Ok(Answer {
            status: Status::Misused,
            text: misuse.to_string(alloc)?,
        }),
    }
}

/// Answers a question about each line of an input, about the types in a file, and gives how the run
/// ends.
fn answer_lines<R: Files + AllocGlobal, I: Read, O: Write, E: Write + IsTerminal>(
    rt: &R,
    input: &mut I,
    output: &mut O,
    errors: &mut E,
    question: &LinesQuestion<'_>,
) -> Status
    ensures { result ≢ Unwritten → EndsLines (lines_view question.now)
        (ran (I.remaining input.old)
        (streams (O.contents output.old) (E.contents errors.old))
        (streams (O.contents output.new) (E.contents errors.new)) result) }
{
    let alloc = rt.alloc();
    match fs::read(rt, question.types) {
        Ok(types) => lines::answer(alloc, input, output, errors, question, &types),
        Err(error) => tell(output, errors, unread(alloc, question.types, error)),
    }
}

/// The answer to a question, about the types in a file and, where it is to be read, the document on
/// an input.
fn answer_question<R: Files + AllocGlobal, I: Read>(
    rt: &R,
    input: &mut I,
    question: &Question<'_>,
) -> Result<Answer, AllocError>
    ensures { IfOk result (λ a. AnswersQuestion (question_view question.now)
        (I.remaining input.old) (answer_view a)) }
{
    match fs::read(rt, question.types) {
        Ok(types) => answer_file(rt, input, question, &types),
        Err(error) => unread(rt.alloc(), question.types, error),
    }
}

/// The answer to a question about the types that the bytes of a file declare.
fn answer_file<R: Files + AllocGlobal, I: Read>(
    rt: &R,
    input: &mut I,
    question: &Question<'_>,
    types: &[u8],
) -> Result<Answer, AllocError>
    ensures { IfOk result (λ a. AnswersFile (question_view question.now) types.now
        (I.remaining input.old) (answer_view a)) }
{
    let given = given(rt, input, question);
    answer_read(rt.alloc(), question, types, given)
}

/// The answer about what was read beside the types of a question, or that it cannot be read.
fn answer_read(
    alloc: Global,
    question: &Question<'_>,
    types: &[u8],
    given: io::Result<Vec<u8>>,
) -> Result<Answer, AllocError>
    ensures read { IfOk given (λ given. IfOk result (λ a.
        IsAnswer (question_view question.now) types.now given.items (answer_view a))) }
    ensures unread { IfErr given (λ _. IfOk result (λ a. a.status ≡ Misused)) }
{
    match given {
        Ok(given) => types::answer(alloc, question, types, &given),
        Err(error) => {
            let name = question.accepted.unwrap_or("standard input");
            unread(alloc, name, error)
        }
    }
}

/// What is read beside the types of a question: the file of accepted ambiguities, where one is
/// named, and else the document.
fn given<R: Files + AllocGlobal, I: Read>(
    rt: &R,
    input: &mut I,
    question: &Question<'_>,
) -> io::Result<Vec<u8>>
    ensures { IfOk result (λ given. IsGiven question.now.task
        (option_map (λ path. path.now) question.now.accepted) (I.remaining input.old)
        given.items) }
{
    match question.accepted {
        Some(path) => fs::read(rt, path),
        None => document(rt.alloc(), input, question.task),
    }
}

/// The document of a question: what an input has, where it is to be read.
fn document<I: Read>(alloc: Global, input: &mut I, task: Task) -> io::Result<Vec<u8>>
    ensures { IfOk result (λ found. IfSome (document_of task (I.remaining input.old))
        (λ document. found.items ≡ document)) }
{
    let mut document = Vec::new(alloc);
    match task {
        Task::Read(_) => {
            input.read_to_end(&mut document)?;
            Ok(document)
        }
        Task::Check(_) | Task::Catalogue => Ok(document),
    }
}
