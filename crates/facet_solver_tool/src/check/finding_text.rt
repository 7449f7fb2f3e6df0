//! The lines for what a check finds, as a text.

use super::finding::Finding;
use super::names::{ShortName, ShortNames};
use crate::printable::Printable;
use facet_solver_checker::{Ambiguity, Evidence, Ignored, PlaceStep};
use facet_solver_reader::TypeName;
use std::alloc::{AllocError, Global};
use std::{fmt, str};

/// The lines for findings, each behind a line feed.
pub fn finding_lines(alloc: Global, findings: &[Finding<'_, '_>]) -> Result<String, AllocError> {
    let mut text = String::new(alloc);
    for finding in findings {
        let line = FindingText(finding).to_string(alloc)?;
        push_line(alloc, &mut text, line.as_str())?;
        if let Some(more) = More::of(finding) {
            let line = more.to_string(alloc)?;
            push_line(alloc, &mut text, line.as_str())?;
        }
        if !finding.required.is_empty() {
            let line = Advice(&finding.required).to_string(alloc)?;
            push_line(alloc, &mut text, line.as_str())?;
        }
    }
    Ok(text)
}

/// The lines for accepted lines that accept nothing, each behind a line feed.
pub fn outdated_lines(alloc: Global, outdated: &[&[u8]]) -> Result<String, AllocError> {
    let mut text = String::new(alloc);
    for line in outdated {
        let line = OutdatedText(line).to_string(alloc)?;
        push_line(alloc, &mut text, line.as_str())?;
    }
    Ok(text)
}

/// Adds a line, behind a line feed.
fn push_line(alloc: Global, text: &mut String, line: &str) -> Result<(), AllocError> {
    let line = Printable(line).to_string(alloc)?;
    text.push_str("\n")?;
    text.push_str(line.as_str())
}

/// The line of a finding, as `Way: Letter and Mail both read {"address": ""}`.
#[derive(Clone, Copy)]
struct FindingText<'f, 'r, 'c>(&'f Finding<'r, 'c>);

impl fmt::Display for FindingText<'_, '_, '_> {
    fn fmt<W: fmt::Write>(&self, f: &mut fmt::Formatter<W>) -> fmt::Result {
        let ambiguity = self.0.ambiguity;
        if self.0.is_accepted {
            f.write_str("accepted: ")?;
        }
        let head = Head(ambiguity);
        let names = ShortNames(&ambiguity.variants);
        let all = all_of(&ambiguity.variants);
        write!(f, "{head}: {names} ")?;
        match &ambiguity.evidence {
            Evidence::Witness { document, path, .. } => {
                let path = PathText(path);
                write!(f, "{all}read {path}{document}")
            }
            Evidence::MayBe(cause) => write!(f, "may {all}read one document: {cause}"),
        }
    }
}

/// What is said of two variants, or of more.
fn all_of<T>(variants: &[T]) -> &'static str {
    if variants.len() == 2 { "both " } else { "all " }
}

/// The type that has the variants of an ambiguity; where they are of several, that of the first.
#[derive(Clone, Copy)]
struct Head<'r, 'c>(&'r Ambiguity<'c>);

impl fmt::Display for Head<'_, '_> {
    fn fmt<W: fmt::Write>(&self, f: &mut fmt::Formatter<W>) -> fmt::Result {
        let ambiguity = self.0;
        match ambiguity.variants.first() {
            Some(first) => f.write_str(first.name),
            None => f.write_str(ambiguity.owner.name),
        }
    }
}

/// Where a value stands in a document, as `'routes.0' in `; nothing where it is the document.
#[derive(Clone, Copy)]
struct PathText<'r>(&'r [PlaceStep]);

impl fmt::Display for PathText<'_> {
    fn fmt<W: fmt::Write>(&self, f: &mut fmt::Formatter<W>) -> fmt::Result {
        if self.0.is_empty() {
            return Ok(());
        }
        let steps = Steps(self.0);
        write!(f, "'{steps}' in ")
    }
}

/// Steps with dots between them.
#[derive(Clone, Copy)]
pub struct Steps<'r>(pub &'r [PlaceStep]);

impl fmt::Display for Steps<'_> {
    fn fmt<W: fmt::Write>(&self, f: &mut fmt::Formatter<W>) -> fmt::Result {
        for (index, step) in self.0.iter().enumerate() {
            if index > 0 {
                f.write_str(".")?;
            }
            write!(f, "{step}")?;
        }
        Ok(())
    }
}

/// The second line of a finding: what each of its variants passes over, and whether `--strict`
/// tells them apart.
#[derive(Clone, Copy)]
struct More<'r, 'c> {
    variants: &'r [TypeName<'c>],
    ignored: &'r [Ignored<'c>],
    are_apart_if_strict: bool,
}

impl<'r, 'c> More<'r, 'c> {
    /// That of a finding, if there is anything to say.
    fn of(finding: &Finding<'r, 'c>) -> Option<More<'r, 'c>> {
        let ignored = ignored_by(finding.ambiguity);
        let are_apart_if_strict = finding.are_apart_if_strict;
        if ignored.is_empty() && !are_apart_if_strict {
            None
        } else {
            Some(More {
                variants: &finding.ambiguity.variants,
                ignored,
                are_apart_if_strict,
            })
        }
    }
}

/// The members that the variants of an ambiguity pass over.
pub fn ignored_by<'r, 'c>(ambiguity: &'r Ambiguity<'c>) -> &'r [Ignored<'c>] {
    match &ambiguity.evidence {
        Evidence::Witness { ignored, .. } => ignored,
        Evidence::MayBe(_cause) => &[],
    }
}

impl fmt::Display for More<'_, '_> {
    fn fmt<W: fmt::Write>(&self, f: &mut fmt::Formatter<W>) -> fmt::Result {
        let mut before = "  ";
        for variant in self.variants {
            let name = ShortName(*variant);
            for member in self.ignored {
                if member.variant == *variant {
                    let path = member.path.as_str();
                    write!(f, "{before}{name} passes over '{path}'")?;
                    before = ", ";
                }
            }
        }
        if self.are_apart_if_strict {
            let before = if self.ignored.is_empty() { "  " } else { ": " };
            write!(f, "{before}--strict tells them apart")?;
        }
        Ok(())
    }
}

/// The last line of a finding: the names of fields that would tell its variants apart, as
/// `'stamps' or 'subject' required would tell them apart`.
#[derive(Clone, Copy)]
struct Advice<'f, 'c>(&'f [&'c str]);

impl fmt::Display for Advice<'_, '_> {
    fn fmt<W: fmt::Write>(&self, f: &mut fmt::Formatter<W>) -> fmt::Result {
        let names = self.0;
        f.write_str("  ")?;
        for (index, name) in names.iter().enumerate() {
            if index > 0 {
                f.write_str(before(names.len() - index))?;
            }
            write!(f, "'{name}'")?;
        }
        f.write_str(" required would tell them apart")
    }
}

/// What stands before an alternative that is not the first, by how many are left with it.
fn before(left: usize) -> &'static str {
    if left == 1 { " or " } else { ", " }
}

/// The line that tells a line of accepted ambiguities that names none.
#[derive(Clone, Copy)]
struct OutdatedText<'f>(&'f [u8]);

impl fmt::Display for OutdatedText<'_> {
    fn fmt<W: fmt::Write>(&self, f: &mut fmt::Formatter<W>) -> fmt::Result {
        let line = shown(self.0);
        write!(f, "accepted, and no ambiguity any more: {line}")
    }
}

/// A line, where it is UTF-8.
pub fn shown(line: &[u8]) -> &str {
    match str::from_utf8(line) {
        Ok(text) => text,
        Err(_error) => "a line that is no UTF-8",
    }
}
