//! Where a text, a character or a comment ends.
ghost use Rattle.std.specs.Prelude.{◌≡◌, ◌+◌, ◌<◌, ◌≤◌, length, drop, false, IfSome};
ghost use Rattle.facet_solver_types.specs.Closings.{closing, comment_end, hashes, line_end, raw_closing};

use super::characters::byte_at;

/// The offset of the quote that closes, from an offset on. A byte after `\` closes nothing.
pub(super) fn closing(quote: u8, text: &[u8], from: usize) -> Option<usize>
    requires { from ≤ length text.now }
    ensures value { result ≡ closing quote false from (drop from text.now) }
    ensures within { IfSome result (λ at. (from ≤ at) × (at < length text.now)) }
{
    let mut left = &text[from..];
    let mut at = from;
    let mut passed = false;
    while let [byte, rest @ ..] = left {
        if !passed && *byte == quote {
            return Some(at);
        }
        passed = !passed && *byte == b'\\';
        at += 1;
        left = rest;
    }
    None
}

/// How many `#` stand first.
pub(super) fn hashes(text: &[u8]) -> usize
    ensures value { result ≡ hashes text.now }
    ensures within { result ≤ length text.now }
{
    let mut count = 0;
    while count < text.len() && text[count] == b'#' {
        count += 1;
    }
    count
}

/// The offset of the first `"` that `count` times `#` follow, from an offset on.
pub(super) fn raw_closing(count: usize, text: &[u8], from: usize) -> Option<usize>
    requires { from ≤ length text.now }
    ensures value { result ≡ raw_closing count from (drop from text.now) }
    ensures within { IfSome result (λ at. (from ≤ at) × (at + count < length text.now)) }
{
    let mut left = &text[from..];
    let mut at = from;
    while let [byte, rest @ ..] = left {
        if *byte == b'"' && hashes(rest) >= count {
            return Some(at);
        }
        at += 1;
        left = rest;
    }
    None
}

/// The offset after the `*/` that closes a comment, from an offset in it on. Comments nest.
pub(super) fn comment_end(text: &[u8], from: usize) -> Option<usize>
    requires { from ≤ length text.now }
    ensures value { result ≡ comment_end 0 false from (drop from text.now) }
    ensures within { IfSome result (λ at. (from < at) × (at ≤ length text.now)) }
{
    let mut left = &text[from..];
    let mut at = from;
    let mut depth = 0usize;
    let mut passed = false;
    while let [byte, rest @ ..] = left {
        let next = byte_at(rest, 0);
        if passed {
            passed = false;
        } else if *byte == b'/' && next == b'*' {
            depth += 1;
            passed = true;
        } else if *byte == b'*' && next == b'/' {
            if depth == 0 {
                return Some(at + 2);
            }
            depth -= 1;
            passed = true;
        }
        at += 1;
        left = rest;
    }
    None
}

/// The offset of the line feed that ends a line, from an offset in it on, or of the end.
pub(super) fn line_end(text: &[u8], from: usize) -> usize
    requires { from ≤ length text.now }
    ensures value { result ≡ line_end from (drop from text.now) }
    ensures within { (from ≤ result) × (result ≤ length text.now) }
{
    let mut at = from;
    while at < text.len() && text[at] != b'\n' {
        at += 1;
    }
    at
}
