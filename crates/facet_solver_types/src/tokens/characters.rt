//! Blanks and the characters of names, as bytes of UTF-8.
ghost use Rattle.std.specs.Prelude.{◌≡◌, ◌≢◌, ◌<◌, ◌≤◌, IsTrue, length, slice_index};
ghost use Rattle.facet_solver_types.specs.Characters.{begins_name, blank_len, continues_name, is_late_blank, word_len};

/// The byte at an index, or 0 past the end.
pub(super) fn byte_at(text: &[u8], at: usize) -> u8
    ensures value { result ≡ slice_index text.now at }
    ensures within { result ≢ 0 → at < length text.now }
{
    if at < text.len() { text[at] } else { 0 }
}

/// How many bytes the blank takes that stands first, or 0 where none does.
#[tactic(auto, unfolding(crate::specs::Characters::blank_len))]
pub(super) fn blank_len(text: &[u8]) -> usize
    ensures value { result ≡ blank_len text.now }
    ensures within { result ≤ length text.now }
{
    let first = byte_at(text, 0);
    let second = byte_at(text, 1);
    if first == b' ' || (b'\t' <= first && first <= b'\r') {
        1
    } else if first == 0xc2 && second == 0x85 {
        2
    } else if first == 0xe2 && second == 0x80 && is_late_blank(byte_at(text, 2)) {
        3
    } else {
        0
    }
}

/// Whether a byte ends the UTF-8 of U+200E, U+200F, U+2028 or U+2029.
fn is_late_blank(byte: u8) -> bool
    ensures { result ≡ is_late_blank byte }
{
    byte == 0x8e || byte == 0x8f || byte == 0xa8 || byte == 0xa9
}

/// Whether a letter, a digit or `_` stands first. A character past ASCII that is no blank is a
/// letter.
#[tactic(auto, unfolding(crate::specs::Characters::continues_name))]
pub(super) fn continues_name(text: &[u8]) -> bool
    ensures { result ≡ continues_name text.now }
{
    let first = byte_at(text, 0);
    first.is_ascii_alphanumeric() || first == b'_' || (first >= 0x80 && blank_len(text) == 0)
}

/// Whether a letter or `_` stands first.
pub(super) fn begins_name(text: &[u8]) -> bool
    ensures { result ≡ begins_name text.now }
{
    continues_name(text) && !byte_at(text, 0).is_ascii_digit()
}

/// How many bytes the letters, digits and `_` take that stand first.
#[tactic(auto, using(crate::proofs::Words::word_len_none, crate::proofs::Words::word_len_some))]
pub(super) fn word_len(text: &[u8]) -> usize
    ensures value { result ≡ word_len text.now }
    ensures some { IsTrue (continues_name text.now) → 0 < result }
    ensures within { result ≤ length text.now }
{
    for (at, _) in text.iter().enumerate() {
        if !continues_name(&text[at..]) {
            return at;
        }
    }
    text.len()
}
