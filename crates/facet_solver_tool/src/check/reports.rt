//! What is reported of a root.
ghost use Rattle.std.specs.Prelude.{IfErr, IfOk};
ghost use Rattle.facet_solver_reader.specs.Readers.{IsRefused};
ghost use Rattle.facet_solver_tool.specs.Checks.{IsReportOf, read_by};

use facet_solver_checker::{Ambiguity, DEFAULT_BUDGET, Report, check};
use facet_solver_reader::{Reader, TypeError, Unknown};
use facet_solver_shape::{ShapeId, Shapes};
use std::alloc::{AllocError, Global};

/// The reports on a root.
#[derive(Drop)]
pub struct Reports<'c> {
    /// That on the root as its documents are read.
    pub asked: Report<'c>,
    /// That on the root as a reader has it that refuses unknown members; made only where the first
    /// is of another one, and tells something.
    pub strict: Option<Report<'c>>,
}

impl<'c> Reports<'c> {
    /// Whether a reader that refuses unknown members tells the variants of an ambiguity apart, and
    /// the reader that was asked for does not.
    pub fn are_apart_if_strict(&self, ambiguity: &Ambiguity<'c>) -> bool {
        match &self.strict {
            Some(strict) => !strict
                .ambiguities
                .iter()
                .any(|other| have_two_in_common(ambiguity, other)),
            None => false,
        }
    }
}

/// Whether two ambiguities are of one place, and have two variants in common.
fn have_two_in_common(first: &Ambiguity<'_>, second: &Ambiguity<'_>) -> bool {
    first.owner == second.owner
        && first.field == second.field
        && first
            .variants
            .iter()
            .filter(|variant| second.variants.contains(variant))
            .count()
            >= 2
}

/// The reports on a root; or why documents cannot be read as it.
pub fn reports_of<'c>(
    alloc: Global,
    shapes: &'c Shapes,
    id: ShapeId,
    unknown: Unknown,
) -> Result<Reports<'c>, TypeError<'c>>
    ensures made { IfOk result
        (λ reports. IsReportOf (read_by shapes.now id unknown) reports.asked) }
    ensures refused { IfErr result (IsRefused shapes.now id) }
{
    let asked = report_of(alloc, shapes, id, unknown)?;
    let strict = if unknown == Unknown::Refused || asked.is_certain() {
        None
    } else {
        Some(report_of(alloc, shapes, id, Unknown::Refused)?)
    };
    Ok(Reports { asked, strict })
}

/// The report on a root by a reader.
pub fn report_of<'c>(
    alloc: Global,
    shapes: &'c Shapes,
    id: ShapeId,
    unknown: Unknown,
) -> Result<Report<'c>, TypeError<'c>>
    ensures made { IfOk result (IsReportOf (read_by shapes.now id unknown)) }
    ensures refused { IfErr result (IsRefused shapes.now id) }
{
    let reader = Reader::new(alloc, shapes, id, unknown)?;
    match check(alloc, &reader, DEFAULT_BUDGET) {
        Ok(report) => Ok(report),
        Err(AllocError) => Err(TypeError::OutOfMemory),
    }
}
