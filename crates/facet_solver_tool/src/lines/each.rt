//! The answer to each line of an input.
ghost use Rattle.std.specs.Prelude.{◌≡◌, ◌≢◌, ◌⊎◌, IfErr, IfOk, IfSome, List, string_bytes};
ghost use Rattle.std.specs.Io.KnownBytes.{Appends};
ghost use Rattle.facet_solver_tool.specs.declared.lines.each.Stop.TheVariants as stops;
ghost use Rattle.facet_solver_tool.specs.Answer.{Answer as Told, refused};
ghost use Rattle.facet_solver_tool.specs.Counts.{Counts};
ghost use Rattle.facet_solver_tool.specs.Lines.{AnswersAll, AnswersFirst, WritesAnswers, answer_line as answer_text, line_of};
ghost use Rattle.facet_solver_tool.specs.ReadAnswers.{AnswersBytes};
ghost use Rattle.facet_solver_tool.specs.Streams.{streams};

use super::progress::show;
use crate::answer::Answer;
use crate::count::Count;
use crate::question::Form;
use crate::quoted::Quoted;
use crate::read::read_bytes;
use crate::status::Status;
use facet_solver_json::Scratch;
use facet_solver_reader::Reader;
use std::alloc::{AllocError, Global};
use std::io::{self, BufRead, BufReader, Read, Write};

/// The answer to a line for which memory was refused.
const OUT_OF_MEMORY: &str = "{\"status\": 5, \"error\": \"out of memory\"}\n";

/// Why not every line is answered.
#[derive(Debug, Drop)]
pub(super) enum Stop {
    /// The input cannot be read, or there was no memory for a line.
    Unread(io::Error),
    /// A write failed.
    Unwritten,
}

/// Answers each line by a reader, before the next is read, and counts them by their ends. Where
/// that is to be shown, the errors show how many are answered.
pub(super) fn answer_each<I: Read, O: Write, E: Write>(
    alloc: Global,
    input: &mut I,
    output: &mut O,
    errors: &mut E,
    reader: &Reader<'_>,
    is_shown: bool,
) -> Result<Count, Stop>
    ensures all { IfOk result (λ count. (answers : List Told) × Counts count answers
        × IfSome (I.remaining input.old) (AnswersAll (AnswersBytes reader.now) answers)
        × WritesAnswers is_shown (streams (O.contents output.old) (E.contents errors.old))
        (streams (O.contents output.new) (E.contents errors.new)) answers) }
    ensures first { IfErr result (λ stop. stop ≢ stops.Unwritten → (answers : List Told)
        × IfSome (I.remaining input.old) (AnswersFirst (AnswersBytes reader.now) answers)
        × WritesAnswers is_shown (streams (O.contents output.old) (E.contents errors.old))
        (streams (O.contents output.new) (E.contents errors.new)) answers) }
{
    let mut scratch = Scratch::new(alloc);
    let input = match BufReader::new(alloc, input) {
        Ok(input) => input,
        Err(error) => return Err(Stop::Unread(error)),
    };
    let mut count = Count::new();
    for line in input.split(alloc, b'\n') {
        let line = match line {
            Ok(line) => line,
            Err(error) => return Err(Stop::Unread(error)),
        };
        match answer_line(alloc, output, reader, &mut scratch, &line) {
            Ok(status) => count.add(status),
            Err(_failed) => return Err(Stop::Unwritten),
        }
        if let Err(_failed) = show(errors, is_shown, count.documents()) {
            return Err(Stop::Unwritten);
        }
    }
    Ok(count)
}

/// Writes the answer to a line, and gives how it ends.
fn answer_line<O: Write>(
    alloc: Global,
    output: &mut O,
    reader: &Reader<'_>,
    scratch: &mut Scratch,
    line: &[u8],
) -> io::Result<Status>
    ensures { IfOk result (λ status. (a : Told) × (a.status ≡ status)
        × (AnswersBytes reader.now line.now a ⊎ (a ≡ refused))
        × Appends (O.contents output.old) (O.contents output.new) (answer_text a)) }
{
    match answered(alloc, reader, scratch, line) {
        Ok(answer) => {
            output.write_all(answer.text.as_bytes())?;
            Ok(answer.status)
        }
        Err(AllocError) => {
            output.write_all(OUT_OF_MEMORY.as_bytes())?;
            Ok(Status::OutOfMemory)
        }
    }
}

/// The answer to a line, with the line of JSON for it as its text.
fn answered(
    alloc: Global,
    reader: &Reader<'_>,
    scratch: &mut Scratch,
    line: &[u8],
) -> Result<Answer, AllocError>
    ensures { IfOk result (λ answer. (a : Told) × (a.status ≡ answer.status)
        × AnswersBytes reader.now line.now a × (string_bytes answer.text ≡ answer_text a)) }
{
    let Answer { status, text } = read_bytes(alloc, reader, scratch, Form::Json, line)?;
    let text = line_text(alloc, status, text.as_str())?;
    Ok(Answer { status, text })
}

/// The line of JSON for a status and a text: the reading, or the status and why there is none.
fn line_text(alloc: Global, status: Status, text: &str) -> Result<String, AllocError>
    ensures { IfOk result (λ line. string_bytes line ≡ line_of status text.now) }
{
    match status {
        Status::Answered => format!(in alloc; "{{\"reading\": {text}}}\n"),
        status => {
            let code = status.code();
            let text = Quoted(text);
            format!(in alloc; "{{\"status\": {code}, \"error\": {text}}}\n")
        }
    }
}
