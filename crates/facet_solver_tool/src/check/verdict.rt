//! How a check ends.
ghost use Rattle.std.specs.Prelude.{◌≡◌, ◌==◌, ◌&&◌, length, map};
ghost use Rattle.std.specs.List.{list_any};
ghost use Rattle.facet_solver_tool.specs.Findings.{counts_as_shown, counts, end_of, finding_view};

use super::finding::Finding;
use crate::status::Status;

/// How a check ends, by what is found and which lines of accepted ambiguities accept none. The
/// first counts: an ambiguity that a document shows; one that may be; such a line. None counts that
/// is accepted.
pub fn status_of(findings: &[Finding<'_, '_>], outdated: &[&[u8]]) -> Status
    ensures { result ≡ end_of (map finding_view findings.now) (length outdated.now == 0) }
{
    if has_shown(findings) {
        Status::Ambiguous
    } else if has_any(findings) {
        Status::MaybeAmbiguous
    } else if outdated.is_empty() {
        Status::Answered
    } else {
        Status::Outdated
    }
}

/// Whether an ambiguity counts that a document shows.
fn has_shown(findings: &[Finding<'_, '_>]) -> bool
    ensures { result ≡ list_any (λ f. counts_as_shown (finding_view f)) findings.now }
{
    findings
        .iter()
        .any(|finding| finding.is_shown() && !finding.is_accepted)
}

/// Whether an ambiguity counts.
fn has_any(findings: &[Finding<'_, '_>]) -> bool
    ensures { result ≡ list_any (λ f. counts (finding_view f)) findings.now }
{
    findings.iter().any(|finding| !finding.is_accepted)
}
