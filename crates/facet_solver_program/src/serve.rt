//! The program over any input and output.
ghost use Rattle.std.specs.Prelude.{◌≡◌, ◌≢◌, ◌⊎◌, ℕ, List, IfErr, IfOk, IfSome};
ghost use Rattle.facet_solver_program.specs.Answer.{IsAnswer};
ghost use Rattle.facet_solver_program.specs.Reply as replies;
ghost use Rattle.facet_solver_program.specs.Serve.{IsReply, WritesLine, reply_to_error};

use crate::answer::answer;
use crate::reply::Reply;
use std::alloc::{AllocError, Global};
use std::io::{Read, Write};

/// How many bytes of the input are read at once.
const CHUNK: usize = 4096;
/// The status where a write fails.
const UNWRITTEN: u8 = 4;

/// Why an input has no bytes.
#[derive(Clone, Copy, Debug, PartialEq, Eq)]
enum InputError {
    /// A read failed.
    Unread,
    /// Out of memory.
    OutOfMemory,
}

impl From<AllocError> for InputError {
    fn from(_refused: AllocError) -> InputError {
        InputError::OutOfMemory
    }
}

/// Reads an input to its end, writes the text of the reply to it and a line feed, and gives the
/// status, from 0 to 5.
///
/// Where a write fails the status is 4, and part of the line may have been written.
pub fn serve<R: Read, W: Write>(alloc: Global, input: &mut R, output: &mut W) -> u8
    ensures { result ≢ 4 → (text : List ℕ) × IsReply (R.remaining input.old) result text
        × WritesLine (W.contents output.old) (W.contents output.new) text }
{
    let bytes = read_all(alloc, input);
    let reply = reply_to(alloc, bytes);
    write_reply(output, &reply)
}

/// All bytes of an input. They are read here, and not by `read_to_end`, to tell out of memory from
/// a read that failed.
fn read_all<R: Read>(alloc: Global, input: &mut R) -> Result<Vec<u8>, InputError>
    ensures { IfOk result (λ bytes. IfSome (R.remaining input.old) (λ left. bytes.items ≡ left)) }
{
    let mut bytes = Vec::new(alloc);
    let mut chunk = [0u8; CHUNK];
    // The range is a bound that no input reaches: a loop has to end, also over one that never does.
    for _ in 0..u64::MAX {
        let Ok(count) = input.read(&mut chunk) else {
            return Err(InputError::Unread);
        };
        if count == 0 {
            return Ok(bytes);
        }
        bytes.extend_from_slice(&chunk[..count])?;
    }
    Err(InputError::Unread)
}

/// The reply to what was read of an input: to its bytes the answer. A read that failed is a bad
/// input, and only out of memory is told as that.
fn reply_to(alloc: Global, read: Result<Vec<u8>, InputError>) -> Reply
    ensures answer { IfOk read (λ bytes.
        IsAnswer bytes.items (replies.status result) (replies.text result)
        ⊎ (result ≡ Reply.OutOfMemory)) }
    ensures error { IfErr read (λ error. result ≡ reply_to_error error) }
{
    match read {
        Ok(bytes) => answer(alloc, &bytes).unwrap_or(Reply::OutOfMemory),
        Err(InputError::Unread) => Reply::BadInput,
        Err(InputError::OutOfMemory) => Reply::OutOfMemory,
    }
}

/// Writes the text of a reply and a line feed, and gives its status, or 4 where a write fails.
fn write_reply<W: Write>(output: &mut W, reply: &Reply) -> u8
    ensures { result ≢ 4 → (result ≡ replies.status reply.now)
        × WritesLine (W.contents output.old) (W.contents output.new) (replies.text reply.now) }
{
    match writeln!(output, "{reply}") {
        Ok(()) => reply.status(),
        Err(_failed) => UNWRITTEN,
    }
}
