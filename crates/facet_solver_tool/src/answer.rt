//! What is answered.
ghost use Rattle.std.specs.Prelude.{◌≡◌, IfOk, string_bytes};
ghost use Rattle.facet_solver_tool.specs.declared.status.Status.TheVariants.{Misused};

use crate::status::Status;
use std::alloc::{AllocError, Global};
use std::io::{self, ErrorKind};

/// A text, and how the run ends that gives it.
#[derive(Debug, Drop)]
pub struct Answer {
    /// How the run ends.
    pub status: Status,
    /// The text, without the line feed at its end.
    pub text: String,
}

impl Answer {
    /// The answer of a text.
    ///
    /// The only error is out of memory.
    pub fn new(alloc: Global, status: Status, text: &str) -> Result<Answer, AllocError>
        ensures status { IfOk result (λ answer. answer.status ≡ status) }
        ensures text { IfOk result (λ answer. string_bytes answer.text ≡ text.now) }
    {
        let text = String::from_str(alloc, text)?;
        Ok(Answer { status, text })
    }
}

/// The answer where something cannot be read: what it is called, and why.
///
/// The only error is out of memory.
pub fn unread(alloc: Global, name: &str, error: io::Error) -> Result<Answer, AllocError>
    ensures { IfOk result (λ a. a.status ≡ Misused) }
{
    if error.kind() == ErrorKind::OutOfMemory {
        return Err(AllocError);
    }
    Ok(Answer {
        status: Status::Misused,
        text: format!(in alloc; "{name}: {error}")?,
    })
}
