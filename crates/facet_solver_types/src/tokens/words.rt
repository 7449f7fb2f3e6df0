//! Names, keywords, lifetimes and numbers.
ghost use Rattle.std.specs.Prelude.{◌≡◌, IsTrue};
ghost use Rattle.facet_solver_types.specs.Characters.{continues_name};
ghost use Rattle.facet_solver_types.specs.Spellings.{IsIn};
ghost use Rattle.facet_solver_types.specs.Words.{begins_lifetime, begins_raw_name, lifetime, number, raw_name, word};

use super::characters::{begins_name, byte_at, word_len};
use super::spelling::{Spelling, whole};
use crate::keyword::is_keyword;
use crate::token::TokenKind;

/// The name or the keyword that stands first.
pub(super) fn word(text: &[u8]) -> Spelling
    requires { IsTrue (continues_name text.now) }
    ensures value { result ≡ word text.now }
    ensures within { IsIn text.now result }
{
    let len = word_len(text);
    let kind = if is_keyword(&text[..len]) {
        TokenKind::Keyword
    } else {
        TokenKind::Name
    };
    whole(kind, len)
}

/// Whether a name after `r#` stands first.
pub(super) fn begins_raw_name(text: &[u8]) -> bool
    ensures { result ≡ begins_raw_name text.now }
{
    byte_at(text, 0) == b'r' && byte_at(text, 1) == b'#' && begins_name(&text[2..])
}

/// The name after `r#`.
pub(super) fn raw_name(text: &[u8]) -> Spelling
    requires { IsTrue (begins_raw_name text.now) }
    ensures value { result ≡ raw_name text.now }
    ensures within { IsIn text.now result }
{
    let len = 2 + word_len(&text[2..]);
    Spelling {
        kind: TokenKind::RawName,
        start: 2,
        end: len,
        len,
    }
}

/// Whether a lifetime stands first.
pub(super) fn begins_lifetime(text: &[u8]) -> bool
    ensures { result ≡ begins_lifetime text.now }
{
    byte_at(text, 0) == b'\'' && begins_name(&text[1..])
}

/// A `'` and a name.
pub(super) fn lifetime(text: &[u8]) -> Spelling
    requires { IsTrue (begins_lifetime text.now) }
    ensures value { result ≡ lifetime text.now }
    ensures within { IsIn text.now result }
{
    whole(TokenKind::Lifetime, 1 + word_len(&text[1..]))
}

/// A digit, and the letters, digits and `_` after it.
pub(super) fn number(text: &[u8]) -> Spelling
    requires { IsTrue (continues_name text.now) }
    ensures value { result ≡ number text.now }
    ensures within { IsIn text.now result }
{
    whole(TokenKind::Number, word_len(text))
}
