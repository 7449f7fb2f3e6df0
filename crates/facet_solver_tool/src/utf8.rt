//! Bytes that are no UTF-8.
ghost use Rattle.std.specs.Prelude.{◌≡◌, ◌≤◌, IfOk, length};
ghost use Rattle.std.specs.Str.{valid_up_to};
ghost use Rattle.std.specs.Str.Lossy.{utf8_valid_len};
ghost use Rattle.facet_solver_tool.specs.Answer.{answer_view, says};
ghost use Rattle.facet_solver_tool.specs.Utf8.{no_utf8_text};

use crate::answer::Answer;
use crate::status::Status;
use std::alloc::{AllocError, Global};
use std::str::Utf8Error;

/// The answer where bytes are no UTF-8: what they are called, and the line and the offset of the
/// first that is none.
///
/// The only error is out of memory.
pub fn answer(
    alloc: Global,
    status: Status,
    name: &str,
    bytes: &[u8],
    error: Utf8Error,
) -> Result<Answer, AllocError>
    requires within { valid_up_to error ≤ length bytes.now }
    requires first { valid_up_to error ≡ utf8_valid_len bytes.now }
    ensures { IfOk result (λ a. answer_view a ≡ says status (no_utf8_text name.now bytes.now)) }
{
    let offset = error.valid_up_to();
    let line = 1
        + bytes[..offset]
            .iter()
            .filter(|byte| **byte == b'\n')
            .count();
    let text = format!(in alloc; "{name}:{line}: no UTF-8 at byte {offset}")?;
    Ok(Answer { status, text })
}
