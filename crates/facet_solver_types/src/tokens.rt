//! From text to tokens.
ghost use Rattle.std.specs.Prelude.{◌≡◌, ◌≢◌, ◌+◌, ◌<◌, ◌≤◌, [], drop, length, Ok, Err, IfErr, IfOk, OnOk};
ghost use Rattle.std.specs.Str.{IsCharBoundary};
ghost use Rattle.facet_solver_types.specs.Errors.{first_written};
ghost use Rattle.facet_solver_types.specs.Outcomes.{Gives};
ghost use Rattle.facet_solver_types.specs.Spellings.{IsCut};
ghost use Rattle.facet_solver_types.specs.Tokens.{at_end, outcome, token_at, token_view, tokens, tokens_view};
ghost use Rattle.facet_solver_types.specs.declared.fault.Fault.TheVariants.{OutOfMemory};

mod brackets;
mod characters;
mod closings;
mod marks;
mod part;
mod spelling;
mod texts;
mod words;

use crate::fault::Fault;
use crate::problem::Problem;
use crate::token::Token;
use brackets::{Opened, follow};
use part::{Part, first_part};
use spelling::Spelling;
use std::alloc::Global;

/// The tokens of a text, whose brackets match, without blanks and comments.
///
/// Errors: the first character that begins no token, text, character or comment that is not
/// closed, or bracket that closes wrongly, whichever comes first; or else the first bracket that
/// is not closed; out of memory.
pub(crate) fn tokens<'t>(alloc: Global, text: &'t str) -> Result<Vec<Token<'t>>, Fault>
    ensures { Gives (λ found. tokens_view found.items) (tokens text.now) result }
{
    let mut found = Vec::new(alloc);
    let mut opened = Vec::new(alloc);
    let mut rest = text;
    let mut offset = 0;
    while !rest.is_empty() {
        let len = read_part(&mut found, &mut opened, offset, rest)?;
        rest = &rest[len..];
        offset += len;
    }
    all_closed(&opened)?;
    Ok(found)
}

/// Adds what stands first in the rest of a text, at an offset. The answer is its length in bytes.
fn read_part<'t>(
    found: &mut Vec<Token<'t>>,
    opened: &mut Vec<Opened>,
    offset: usize,
    rest: &'t str,
) -> Result<usize, Fault>
    requires { 0 < length rest.now }
    ensures some { IfOk result (λ len. (0 < len) × IsCharBoundary rest.now len) }
    ensures ok { IfOk result (λ len.
        outcome found.old.items opened.old.items offset rest.now
        ≡ outcome found.new.items opened.new.items (offset + len) (drop len rest.now)) }
    ensures fault { IfErr result (λ fault. fault ≢ OutOfMemory →
        outcome found.old.items opened.old.items offset rest.now ≡ Err fault) }
{
    let spelling = match first_part(rest.as_bytes()) {
        Err(problem) => return Err(Fault::At { offset, problem }),
        Ok(Part::Gap(len)) => return Ok(len),
        Ok(Part::Spelled(spelling)) => spelling,
    };
    follow(opened, spelling.kind, offset)?;
    found.push(token_at(offset, rest, spelling))?;
    Ok(spelling.len)
}

/// The token at an offset that stands first in what follows.
fn token_at<'t>(offset: usize, text: &'t str, spelling: Spelling) -> Token<'t>
    requires begins { spelling.start ≤ spelling.end }
    requires cut { IsCut text.now spelling }
    ensures { token_view result ≡ token_at offset text.now spelling }
{
    Token {
        offset,
        kind: spelling.kind,
        text: &text[spelling.start..spelling.end],
    }
}

/// The token that stands first, as it is written, or nothing.
pub(crate) fn first_written(text: &str) -> &str
    ensures { result.now ≡ first_written text.now }
{
    if text.is_empty() {
        return "";
    }
    match first_part(text.as_bytes()) {
        Ok(Part::Spelled(spelling)) => &text[..spelling.len],
        _ => "",
    }
}

/// The end of a text, where no bracket may be open.
fn all_closed(opened: &[Opened]) -> Result<(), Fault>
    ensures ok { OnOk result (at_end opened.now ≡ Ok []) }
    ensures fault { IfErr result (λ fault. at_end opened.now ≡ Err fault) }
{
    match opened.first() {
        None => Ok(()),
        Some(first) => Err(Fault::At {
            offset: first.offset,
            problem: Problem::OpenBracket,
        }),
    }
}
