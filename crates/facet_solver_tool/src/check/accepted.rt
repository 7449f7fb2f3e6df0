//! A file of accepted ambiguities. A line accepts an ambiguity if it begins as the line of JSON
//! does that tells it: with its place and its variants. Lines that name no place are comments.
ghost use Rattle.std.specs.Prelude.{◌≡◌, ◌==◌, ◌<◌, ◌∷◌, IfOk, IfSome, None, filter, length, position};
ghost use Rattle.std.specs.List.{list_any};
ghost use Rattle.facet_solver_tool.specs.Checks.{begins_with, is_outdated_by, lines_view};
ghost use Rattle.facet_solver_tool.specs.Findings.{finding_view, keys_view};
ghost use Rattle.facet_solver_tool.specs.InputLines.{last_line, lines_of};

use super::finding::Finding;
use std::alloc::{AllocError, Global};

/// How a line begins that names a place.
const BEGIN: &[u8] = b"{\"owner\": ";

/// The lines of bytes, each without its line feed, which the last may lack.
pub fn lines_of(alloc: Global, bytes: &[u8]) -> Result<Vec<&[u8]>, AllocError>
    ensures { IfOk result (λ lines. lines_view lines.items ≡ lines_of bytes.now) }
{
    let mut lines = Vec::new(alloc);
    let mut rest = bytes;
    while let Some((line, behind)) = first_line(rest) {
        lines.push(line)?;
        rest = behind;
    }
    if !rest.is_empty() {
        lines.push(rest)?;
    }
    Ok(lines)
}

/// The line before the first line feed, and what is behind that; none where there is no line feed.
fn first_line(bytes: &[u8]) -> Option<(&[u8], &[u8])>
    ensures first { IfSome result (λ cut. lines_of bytes.now ≡ cut.0.now ∷ lines_of cut.1.now) }
    ensures less { IfSome result (λ cut. length cut.1.now < length bytes.now) }
    ensures last { result ≡ None → lines_of bytes.now ≡ last_line bytes.now }
{
    match end_of_line(bytes) {
        Some(end) => {
            let (_, behind) = bytes.split_at(end + 1);
            Some((&bytes[..end], behind))
        }
        None => None,
    }
}

/// Where the first line feed stands.
fn end_of_line(bytes: &[u8]) -> Option<usize>
    ensures { result ≡ position (λ byte. byte == 10) bytes.now }
{
    bytes.iter().position(|byte| *byte == b'\n')
}

/// Whether a line accepts the ambiguity of a key.
pub fn is_accepted(lines: &[&[u8]], key: &str) -> bool
    ensures { result ≡ list_any (λ line. begins_with key.now line.now) lines.now }
{
    lines.iter().any(|line| line.starts_with(key.as_bytes()))
}

/// The lines that name a place and accept nothing that is found.
pub fn outdated<'f>(
    alloc: Global,
    lines: &[&'f [u8]],
    findings: &[Finding<'_, '_>],
) -> Result<Vec<&'f [u8]>, AllocError>
    ensures { IfOk result (λ left. left.items ≡ filter
        (λ line. is_outdated_by (keys_view findings.now) line.now) lines.now) }
{
    lines
        .iter()
        .copied()
        .filter(|line| is_outdated(line, findings))
        .collect(alloc)
}

/// Whether a line names a place and accepts nothing that is found.
fn is_outdated(line: &[u8], findings: &[Finding<'_, '_>]) -> bool
    ensures { result ≡ is_outdated_by (keys_view findings.now) line.now }
{
    line.starts_with(BEGIN) && !accepts_one(line, findings)
}

/// Whether a line accepts something that is found.
fn accepts_one(line: &[u8], findings: &[Finding<'_, '_>]) -> bool
    ensures { result ≡ list_any (λ f. begins_with (finding_view f).key line.now) findings.now }
{
    findings
        .iter()
        .any(|finding| line.starts_with(finding.key.as_bytes()))
}
