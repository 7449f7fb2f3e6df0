//! Texts between quotes.
ghost use Rattle.std.specs.Prelude.{◌≡◌};
ghost use Rattle.std.specs.Fmt.{DisplaysOnOk, debug_str};
ghost use Rattle.facet_solver_reader.specs.Quoted.{is_unescaped, is_unescaped_byte};

use std::fmt;

/// Writes a text as `{:?}` does, in the same pieces. Most texts have nothing to escape, and are
/// written as they are. Of an empty one `{:?}` writes the quotes alone.
pub(super) fn write_quoted<W: fmt::Write>(text: &str, f: &mut fmt::Formatter<W>) -> fmt::Result
    ensures { DisplaysOnOk W.write_str_gives f.old result (debug_str text.now) f.new }
{
    if !text.is_empty() && is_unescaped(text) {
        write!(f, "\"{text}\"")
    } else {
        write!(f, "{text:?}")
    }
}

/// Whether a text is written between quotes as it is. It is gone through to its end, since without
/// a way out many bytes are looked at in one step.
fn is_unescaped(text: &str) -> bool
    ensures { result ≡ is_unescaped text.now }
{
    let mut is_unescaped = true;
    for byte in text.as_bytes() {
        is_unescaped &= is_unescaped_byte(*byte);
    }
    is_unescaped
}

/// Whether a byte is a printing character of ASCII, and none that is escaped between quotes.
fn is_unescaped_byte(byte: u8) -> bool
    ensures { result ≡ is_unescaped_byte byte }
{
    (byte >= b' ') & (byte < 0x7f) & (byte != b'"') & (byte != b'\\')
}
