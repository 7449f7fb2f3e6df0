//! The brackets of a text, which must match.
ghost use Rattle.std.specs.Prelude.{◌≡◌, ◌≢◌, IfErr, OnOk, Some, None, reverse};
ghost use Rattle.facet_solver_types.specs.Brackets.{open_after};
ghost use Rattle.facet_solver_types.specs.declared.fault.Fault.TheVariants.{OutOfMemory};

use crate::fault::Fault;
use crate::problem::Problem;
use crate::token::{Bracket, TokenKind, same_bracket};

/// A bracket that is open.
#[derive(Clone, Copy, Debug, PartialEq, Eq)]
pub(super) struct Opened {
    pub(super) bracket: Bracket,
    /// Where it stands, in bytes.
    pub(super) offset: usize,
}

/// Opens or closes a bracket, if a token is one.
pub(super) fn follow(opened: &mut Vec<Opened>, kind: TokenKind, offset: usize) -> Result<(), Fault>
    ensures ok { OnOk result
        (open_after kind offset (reverse opened.old.items) ≡ Some (reverse opened.new.items)) }
    ensures fault { IfErr result (λ fault. fault ≢ OutOfMemory →
        (fault ≡ Fault.At offset Problem.ClosesNothing)
        × (open_after kind offset (reverse opened.old.items) ≡ None)) }
{
    match kind {
        TokenKind::Open(bracket) => {
            opened.push(Opened { bracket, offset })?;
            Ok(())
        }
        TokenKind::Close(bracket) => match opened.pop() {
            Some(innermost) if same_bracket(innermost.bracket, bracket) => Ok(()),
            _ => Err(Fault::At {
                offset,
                problem: Problem::ClosesNothing,
            }),
        },
        _ => Ok(()),
    }
}
