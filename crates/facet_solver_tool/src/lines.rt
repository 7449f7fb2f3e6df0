//! Answers about each line of an input.
ghost use Rattle.std.specs.Prelude.{◌≡◌, ◌≢◌, ◌⊎◌, ◌++◌, [], ◌∷◌, None, Bool, List};
ghost use Rattle.std.specs.Io.KnownBytes.{Appends};
ghost use Rattle.facet_solver_tool.specs.declared.lines.each.Stop.TheVariants as stops;
ghost use Rattle.facet_solver_tool.specs.declared.status.Status.TheVariants.{Misused, Unwritten};
ghost use Rattle.facet_solver_tool.specs.Answer.{Answer, refused};
ghost use Rattle.facet_solver_tool.specs.Answers.{AnswersText, AnswersTypes, IsAnswer};
ghost use Rattle.facet_solver_tool.specs.Counts.{Counts, count_text, worst};
ghost use Rattle.facet_solver_tool.specs.Lines.{AnswersLines};
ghost use Rattle.facet_solver_tool.specs.Questions.{lines_view};
ghost use Rattle.facet_solver_tool.specs.ReadAnswers.{AnswersBytes};
ghost use Rattle.facet_solver_tool.specs.RootAnswers.{AnswersRead, root_at};
ghost use Rattle.facet_solver_tool.specs.Streams.{EndsWith, ran, streams};

mod each;
mod progress;

use crate::answer::unread;
use crate::count::Count;
use crate::question::LinesQuestion;
use crate::reply::tell;
use crate::root::refused;
use crate::status::Status;
use crate::types::no_types;
use crate::{read, utf8};
use each::{Stop, answer_each};
use facet_solver_reader::Reader;
use facet_solver_shape::ShapeId;
use facet_solver_types::Types;
use progress::wipe;
use std::alloc::Global;
use std::io::{IsTerminal, Read, Write};
use std::str;

/// Answers a question about each line of an input, about the types that bytes declare. It gives how
/// the run ends.
pub fn answer<I: Read, O: Write, E: Write + IsTerminal>(
    alloc: Global,
    input: &mut I,
    output: &mut O,
    errors: &mut E,
    question: &LinesQuestion<'_>,
    types: &[u8],
) -> Status
    ensures { result ≢ Unwritten → (is_terminal : Bool) × AnswersLines
        (IsAnswer (lines_view question.now) types.now) is_terminal
        (ran (I.remaining input.old)
        (streams (O.contents output.old) (E.contents errors.old))
        (streams (O.contents output.new) (E.contents errors.new)) result) }
{
    let path = question.types;
    match str::from_utf8(types) {
        Ok(text) => answer_text(alloc, input, output, errors, question, text),
        Err(error) => {
            let answer = utf8::answer(alloc, Status::BadTypes, path, types, error);
            tell(output, errors, answer)
        }
    }
}

/// Answers about each line, and about the types that a text declares.
fn answer_text<I: Read, O: Write, E: Write + IsTerminal>(
    alloc: Global,
    input: &mut I,
    output: &mut O,
    errors: &mut E,
    question: &LinesQuestion<'_>,
    text: &str,
) -> Status
    ensures { result ≢ Unwritten → (is_terminal : Bool) × AnswersLines
        (AnswersText (lines_view question.now) text.now) is_terminal
        (ran (I.remaining input.old)
        (streams (O.contents output.old) (E.contents errors.old))
        (streams (O.contents output.new) (E.contents errors.new)) result) }
{
    match Types::parse(alloc, text, question.root) {
        Ok(types) => answer_types(alloc, input, output, errors, question, &types),
        Err(error) => tell(output, errors, no_types(alloc, question.types, &error)),
    }
}

/// Answers about each line, and about types.
fn answer_types<I: Read, O: Write, E: Write + IsTerminal>(
    alloc: Global,
    input: &mut I,
    output: &mut O,
    errors: &mut E,
    question: &LinesQuestion<'_>,
    types: &Types,
) -> Status
    ensures { result ≢ Unwritten → (is_terminal : Bool) × AnswersLines
        (AnswersTypes (lines_view question.now) types.now) is_terminal
        (ran (I.remaining input.old)
        (streams (O.contents output.old) (E.contents errors.old))
        (streams (O.contents output.new) (E.contents errors.new)) result) }
{
    let id = types.root();
    answer_root(alloc, input, output, errors, question, types, id)
}

/// Answers about each line, as a root.
fn answer_root<I: Read, O: Write, E: Write + IsTerminal>(
    alloc: Global,
    input: &mut I,
    output: &mut O,
    errors: &mut E,
    question: &LinesQuestion<'_>,
    types: &Types,
    id: ShapeId,
) -> Status
    ensures { result ≢ Unwritten → (is_terminal : Bool) × AnswersLines
        (AnswersRead (root_at question.now.types.now types.now id) question.now.unknown) is_terminal
        (ran (I.remaining input.old)
        (streams (O.contents output.old) (E.contents errors.old))
        (streams (O.contents output.new) (E.contents errors.new)) result) }
{
    let unknown = read::unknown_at(types, id, question.unknown);
    let shapes = types.shapes();
    match Reader::new(alloc, shapes, id, unknown) {
        Ok(reader) => answer_lines(alloc, input, output, errors, &reader),
        Err(error) => tell(output, errors, refused(alloc, question.types, &error)),
    }
}

/// Answers each line by a reader, and says at the end how many had which end.
fn answer_lines<I: Read, O: Write, E: Write + IsTerminal>(
    alloc: Global,
    input: &mut I,
    output: &mut O,
    errors: &mut E,
    reader: &Reader<'_>,
) -> Status
    ensures { result ≢ Unwritten → (is_terminal : Bool) × AnswersLines
        (AnswersBytes reader.now) is_terminal
        (ran (I.remaining input.old)
        (streams (O.contents output.old) (E.contents errors.old))
        (streams (O.contents output.new) (E.contents errors.new)) result) }
{
    let is_terminal = errors.is_terminal();
    answer_shown(alloc, input, output, errors, reader, is_terminal)
}

/// Answers each line by a reader, and says at the end how many had which end. Where that is to be
/// shown, the errors show before how many are answered.
fn answer_shown<I: Read, O: Write, E: Write>(
    alloc: Global,
    input: &mut I,
    output: &mut O,
    errors: &mut E,
    reader: &Reader<'_>,
    is_shown: bool,
) -> Status
    ensures { result ≢ Unwritten → AnswersLines
        (AnswersBytes reader.now) is_shown
        (ran (I.remaining input.old)
        (streams (O.contents output.old) (E.contents errors.old))
        (streams (O.contents output.new) (E.contents errors.new)) result) }
{
    let answered = answer_each(alloc, input, output, errors, reader, is_shown);
    if let Err(_failed) = wipe(errors, is_shown) {
        return Status::Unwritten;
    }
    match answered {
        Ok(count) => end(errors, &count),
        Err(stop) => tell_stop(alloc, output, errors, stop),
    }
}

/// Tells why not every line is answered, and gives how the run ends.
fn tell_stop<O: Write, E: Write>(
    alloc: Global,
    output: &mut O,
    errors: &mut E,
    stop: Stop,
) -> Status
    ensures { result ≢ Unwritten → (stop ≢ stops.Unwritten) × (a : Answer)
        × ((a.status ≡ Misused) ⊎ (a ≡ refused)) × EndsWith (ran None
        (streams (O.contents output.old) (E.contents errors.old))
        (streams (O.contents output.new) (E.contents errors.new)) result) a }
{
    match stop {
        Stop::Unread(error) => tell(output, errors, unread(alloc, "standard input", error)),
        Stop::Unwritten => Status::Unwritten,
    }
}

/// Says how many documents had which end, and gives how the run ends.
fn end<E: Write>(errors: &mut E, count: &Count) -> Status
    ensures { result ≢ Unwritten → (answers : List Answer) → Counts count.now answers
        → (result ≡ worst answers) × Appends (E.contents errors.old) (E.contents errors.new)
        (count_text count.now ++ 10 ∷ []) }
{
    match writeln!(errors, "{count}") {
        Ok(()) => count.status(),
        Err(_failed) => Status::Unwritten,
    }
}
