//! Some tokens of a text, and where the token after them stands.
ghost use Rattle.std.specs.Prelude.{◌≡◌, ◌+◌, ◌-◌, ◌<◌, ◌≤◌, length};

use crate::fault::Fault;
use crate::problem::{Expected, Problem};
use crate::token::Token;

/// Some tokens of a text, and where the token after them stands, or the end of the text.
#[derive(Clone, Copy, Debug)]
pub(crate) struct Passage<'s, 't> {
    pub(crate) tokens: &'s [Token<'t>],
    /// An offset in bytes.
    pub(crate) end: usize,
}

impl<'s, 't> Passage<'s, 't> {
    ghost use Rattle.facet_solver_types.specs.Passages.{after, passage_view, place, unexpected, up_to};

    /// Where the passage begins, or the token after it.
    pub(crate) fn place(self) -> usize
        ensures { result ≡ place (passage_view self.entry) }
    {
        match self.tokens.first() {
            Some(token) => token.offset,
            None => self.end,
        }
    }

    /// The passage without its first tokens.
    pub(crate) fn after(self, len: usize) -> Passage<'s, 't>
        requires { len ≤ length self.tokens.now }
        ensures value { passage_view result ≡ after len (passage_view self.entry) }
        ensures len { length result.tokens.now ≡ length self.entry.tokens.now - len }
    {
        Passage {
            tokens: &self.tokens[len..],
            end: self.end,
        }
    }

    /// The first tokens of the passage.
    pub(crate) fn up_to(self, len: usize) -> Passage<'s, 't>
        requires { len ≤ length self.tokens.now }
        ensures { passage_view result ≡ up_to len (passage_view self.entry) }
    {
        Passage {
            tokens: &self.tokens[..len],
            end: self.after(len).place(),
        }
    }

    /// What stands after the first tokens and a comma.
    pub(crate) fn after_comma(self, len: usize) -> Passage<'s, 't>
        requires some { 0 < length self.tokens.now }
        requires within { len ≤ length self.tokens.now }
        ensures value { passage_view result ≡ after (len + 1) (passage_view self.entry) }
        ensures shorter { length result.tokens.now < length self.entry.tokens.now }
    {
        if len < self.tokens.len() {
            self.after(len + 1)
        } else {
            self.after(len)
        }
    }

    /// The fault where something else stands first.
    pub(crate) fn unexpected(self, expected: Expected) -> Fault
        ensures { result ≡ unexpected expected (passage_view self.entry) }
    {
        Fault::At {
            offset: self.place(),
            problem: Problem::Expected(expected),
        }
    }
}
