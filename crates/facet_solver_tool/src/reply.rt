//! What is written.
ghost use Rattle.std.specs.Prelude.{◌≡◌, ◌≢◌, ◌++◌, [], ◌∷◌, None, OnOk};
ghost use Rattle.std.specs.Io.KnownBytes.{Appends};
ghost use Rattle.facet_solver_tool.specs.declared.status.Status.TheVariants.{Unwritten};
ghost use Rattle.facet_solver_tool.specs.Streams.{EndsWith, WritesLine, ran, streams, told};

use crate::answer::Answer;
use crate::status::Status;
use std::alloc::AllocError;
use std::io::{self, Write};

/// What is told where memory was refused.
const OUT_OF_MEMORY: &str = "out of memory";

/// Writes an answer and a line feed, or that memory was refused for it. It gives how the run ends.
pub fn tell<O: Write, E: Write>(
    output: &mut O,
    errors: &mut E,
    answer: Result<Answer, AllocError>,
) -> Status
    ensures { result ≢ Unwritten → EndsWith (ran None
        (streams (O.contents output.old) (E.contents errors.old))
        (streams (O.contents output.new) (E.contents errors.new)) result) (told answer) }
{
    match answer {
        Ok(answer) => reply(output, errors, answer.status, answer.text.as_str()),
        Err(AllocError) => reply(output, errors, Status::OutOfMemory, OUT_OF_MEMORY),
    }
}

/// Writes a text and a line feed, to the output if it answers the question, as a check does with
/// what it tells of the type, and else to the errors. It gives how the run ends: as was to be told,
/// unless a write fails.
fn reply<O: Write, E: Write>(output: &mut O, errors: &mut E, status: Status, text: &str) -> Status
    ensures { result ≢ Unwritten → (result ≡ status) × WritesLine status
        (streams (O.contents output.old) (E.contents errors.old))
        (streams (O.contents output.new) (E.contents errors.new))
        (text.now ++ 10 ∷ []) }
{
    let written = match status {
        Status::Answered | Status::Ambiguous | Status::MaybeAmbiguous | Status::Outdated => {
            write_line(output, text)
        }
        _ => write_line(errors, text),
    };
    match written {
        Ok(()) => status,
        Err(_failed) => Status::Unwritten,
    }
}

/// Writes a text and a line feed.
fn write_line<W: Write>(output: &mut W, text: &str) -> io::Result<()>
    ensures { OnOk result (Appends (W.contents output.old) (W.contents output.new)
        (text.now ++ 10 ∷ [])) }
{
    output.write_all(text.as_bytes())?;
    output.write_all(b"\n")
}
