//! What a check finds.
ghost use Rattle.std.specs.Prelude.{◌≡◌, ◌++◌, [], ◌∷◌, IfOk, OnOk, map};
ghost use Rattle.facet_solver_tool.specs.Checks.{lines_view};
ghost use Rattle.facet_solver_tool.specs.Findings.{finding_of, finding_view, is_shown};

use super::Checked;
use super::accepted::is_accepted;
use super::advice::advice_on;
use super::key::Key;
use super::reports::Reports;
use facet_solver_checker::{Ambiguity, Evidence};
use std::alloc::{AllocError, Global};

/// An ambiguity, and what else is told of it.
#[derive(Drop)]
pub struct Finding<'r, 'c> {
    /// The ambiguity.
    pub ambiguity: &'r Ambiguity<'c>,
    /// What names it in a file of accepted ones.
    pub key: String,
    /// Whether it is an accepted one, which does not count.
    pub is_accepted: bool,
    /// Whether its variants are told apart only where unknown members are refused.
    pub are_apart_if_strict: bool,
    /// The names of the fields each of which would tell its variants apart, if it were required; of
    /// an accepted one none are looked for.
    pub required: Vec<&'c str>,
}

impl<'r, 'c> Finding<'r, 'c> {
    /// What is told of an ambiguity, with the lines of accepted ones.
    fn new(
        alloc: Global,
        checked: &Checked<'c>,
        reports: &Reports<'c>,
        lines: &[&[u8]],
        ambiguity: &'r Ambiguity<'c>,
    ) -> Result<Finding<'r, 'c>, AllocError>
        ensures { IfOk result (λ finding. finding_view finding
            ≡ finding_of (lines_view lines.now) ambiguity.now) }
    {
        let key = Key(ambiguity).to_string(alloc)?;
        let is_accepted = is_accepted(lines, key.as_str());
        let required = if is_accepted {
            Vec::new(alloc)
        } else {
            advice_on(alloc, checked, &reports.asked, ambiguity)?
        };
        Ok(Finding {
            ambiguity,
            key,
            is_accepted,
            are_apart_if_strict: reports.are_apart_if_strict(ambiguity),
            required,
        })
    }

    /// Whether a document shows it.
    pub fn is_shown(&self) -> bool
        ensures { result ≡ is_shown (finding_view self.now) }
    {
        match &self.ambiguity.evidence {
            Evidence::Witness { .. } => true,
            Evidence::MayBe(_cause) => false,
        }
    }
}

/// What is found, in the order of the report. The lines are those of accepted ambiguities.
pub fn findings_of<'r, 'c>(
    alloc: Global,
    checked: &Checked<'c>,
    reports: &'r Reports<'c>,
    lines: &[&[u8]],
) -> Result<Vec<Finding<'r, 'c>>, AllocError>
    ensures { IfOk result (λ findings. map finding_view findings.items
        ≡ map (finding_of (lines_view lines.now)) reports.now.asked.ambiguities.items) }
{
    let mut findings = Vec::new(alloc);
    for ambiguity in &reports.asked.ambiguities {
        let finding = Finding::new(alloc, checked, reports, lines, ambiguity)?;
        push_finding(&mut findings, finding)?;
    }
    Ok(findings)
}

/// Adds a finding.
fn push_finding<'r, 'c>(
    findings: &mut Vec<Finding<'r, 'c>>,
    finding: Finding<'r, 'c>,
) -> Result<(), AllocError>
    ensures { OnOk result (findings.new.items ≡ findings.old.items ++ finding.entry ∷ []) }
{
    match findings.push(finding) {
        Ok(()) => Ok(()),
        Err(_refused) => Err(AllocError),
    }
}
