//! What a check finds, as JSON: a line for each thing that is told.

use super::Checked;
use super::finding::Finding;
use super::finding_text::{ignored_by, shown};
use super::key::FullName;
use crate::name::name_at;
use crate::quoted::Quoted;
use crate::representation::EnumData;
use crate::unserved::{conditional_data, unserved_data};
use facet_solver_checker::{Cause, Evidence, Ignored, PlaceStep, Value};
use std::alloc::{AllocError, Global};
use std::fmt;

/// The lines of a check, each an object of JSON: the root's name, how each enum is written, the
/// types that are declared once more, those that refuse unknown members where the root does not,
/// the findings, and the lines of accepted ambiguities that name none.
pub fn data_of(
    alloc: Global,
    checked: &Checked<'_>,
    findings: &[Finding<'_, '_>],
    outdated: &[&[u8]],
) -> Result<String, AllocError> {
    let Checked { shapes, types, id } = *checked;
    let name = Quoted(name_at(shapes, id));
    let enums = EnumData(shapes);
    let conditional = conditional_data(alloc, types)?;
    let unserved = unserved_data(alloc, types, id)?;
    let mut text = format!(in alloc; "{{\"root\": {name}}}{enums}{conditional}{unserved}")?;
    for finding in findings {
        let line = FindingData(finding).to_string(alloc)?;
        text.push_str(line.as_str())?;
    }
    for line in outdated {
        let line = Quoted(shown(line));
        let line = format!(in alloc; "\n{{\"outdated\": {line}}}")?;
        text.push_str(line.as_str())?;
    }
    Ok(text)
}

/// The line of a finding, behind a line feed.
#[derive(Clone, Copy)]
struct FindingData<'f, 'r, 'c>(&'f Finding<'r, 'c>);

impl fmt::Display for FindingData<'_, '_, '_> {
    fn fmt<W: fmt::Write>(&self, f: &mut fmt::Formatter<W>) -> fmt::Result {
        let finding = self.0;
        let key = &finding.key;
        write!(f, "\n{key}, ")?;
        match &finding.ambiguity.evidence {
            Evidence::Witness { document, path, .. } => {
                write_witness(f, document, path, ignored_by(finding.ambiguity))?;
            }
            Evidence::MayBe(cause) => write_cause(f, *cause)?,
        }
        if finding.are_apart_if_strict {
            f.write_str(", \"apart_if_strict\": true")?;
        }
        if !finding.required.is_empty() {
            write_required(f, &finding.required)?;
        }
        if finding.is_accepted {
            f.write_str(", \"accepted\": true")?;
        }
        f.write_str("}")
    }
}

/// Writes the members that have a document, where the value stands in it that is read in several
/// ways, and what of that value is passed over.
fn write_witness<W: fmt::Write>(
    f: &mut fmt::Formatter<W>,
    document: &Value,
    path: &[PlaceStep],
    ignored: &[Ignored<'_>],
) -> fmt::Result {
    write!(f, "\"document\": {document}, \"path\": [")?;
    for (index, step) in path.iter().enumerate() {
        if index > 0 {
            f.write_str(", ")?;
        }
        write_step(f, step)?;
    }
    f.write_str("], \"ignored\": [")?;
    for (index, member) in ignored.iter().enumerate() {
        if index > 0 {
            f.write_str(", ")?;
        }
        let variant = FullName(&member.variant);
        let path = Quoted(member.path.as_str());
        write!(f, "{{\"variant\": {variant}, \"member\": {path}}}")?;
    }
    f.write_str("]")
}

/// Writes a step: a name as a string, and an index as a number.
fn write_step<W: fmt::Write>(f: &mut fmt::Formatter<W>, step: &PlaceStep) -> fmt::Result {
    match step {
        PlaceStep::Name(name) => {
            let name = Quoted(name.as_str());
            write!(f, "{name}")
        }
        PlaceStep::Index(index) => write!(f, "{index}"),
    }
}

/// Writes the member that has the names of the fields that would tell the variants apart.
fn write_required<W: fmt::Write>(f: &mut fmt::Formatter<W>, names: &[&str]) -> fmt::Result {
    f.write_str(", \"required\": [")?;
    for (index, name) in names.iter().enumerate() {
        if index > 0 {
            f.write_str(", ")?;
        }
        let name = Quoted(name);
        write!(f, "{name}")?;
    }
    f.write_str("]")
}

/// Writes the member that says why no document is shown.
fn write_cause<W: fmt::Write>(f: &mut fmt::Formatter<W>, cause: Cause) -> fmt::Result {
    write!(f, "\"maybe\": \"{cause}\"")
}
