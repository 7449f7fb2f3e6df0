//! How a token is written.
ghost use Rattle.std.specs.Prelude.{◌≡◌};
ghost use Rattle.facet_solver_types.specs.Spellings.{whole};

use crate::token::TokenKind;

/// A token at the front of a text: what it is, and where its own text stands. Offsets in bytes.
#[derive(Clone, Copy, Debug, PartialEq, Eq)]
pub(super) struct Spelling {
    pub(super) kind: TokenKind,
    /// Where the token's own text begins.
    pub(super) start: usize,
    /// Where the token's own text ends.
    pub(super) end: usize,
    /// Where the token ends.
    pub(super) len: usize,
}

/// A token that is its own text.
pub(super) fn whole(kind: TokenKind, len: usize) -> Spelling
    ensures { result ≡ whole kind len }
{
    Spelling {
        kind,
        start: 0,
        end: len,
        len,
    }
}
