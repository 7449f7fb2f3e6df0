//! The check of a root.
ghost use Rattle.std.specs.Prelude.{◌≡◌, [], IfOk, string_bytes};
ghost use Rattle.facet_solver_tool.specs.Answer.{answer_view};
ghost use Rattle.facet_solver_tool.specs.Checks as checks;
ghost use Rattle.facet_solver_tool.specs.Checks.{TellsTypes, lines_view};
ghost use Rattle.facet_solver_tool.specs.InputLines.{lines_of};
ghost use Rattle.facet_solver_tool.specs.RootAnswers.{AnswersCheck, check_text, root_at};

mod accepted;
mod advice;
mod data;
mod finding;
mod finding_text;
mod key;
mod names;
mod reports;
mod text;
mod verdict;

use crate::answer::Answer;
use crate::question::{Form, Manner};
use crate::read::unknown_at;
use crate::root::refused;
use accepted::{lines_of, outdated};
use data::data_of;
use facet_solver_shape::{ShapeId, Shapes};
use facet_solver_types::Types;
use finding::{Finding, findings_of};
use reports::{Reports, reports_of};
use std::alloc::{AllocError, Global};
use text::text_of;
use verdict::status_of;

/// What is checked: a root, its types, and the shapes of these.
#[derive(Clone, Copy)]
pub struct Checked<'t> {
    /// The shapes.
    pub shapes: &'t Shapes,
    /// The types.
    pub types: &'t Types,
    /// The root.
    pub id: ShapeId,
}

/// The answer that tells of a root how each enum is written, what is read otherwise than it is
/// declared, and which variants a document does not tell apart; or why documents cannot be read as
/// the root. Given are the bytes of the file that has accepted ambiguities.
///
/// The only error is out of memory.
pub fn answer(
    alloc: Global,
    path: &str,
    types: &Types,
    id: ShapeId,
    manner: Manner,
    given: &[u8],
) -> Result<Answer, AllocError>
    ensures { IfOk result (λ a. AnswersCheck
        (root_at path.now types.now id) manner given.now (answer_view a)) }
{
    let unknown = unknown_at(types, id, manner.unknown);
    let shapes = types.shapes();
    match reports_of(alloc, shapes, id, unknown) {
        Ok(reports) => {
            let checked = Checked { shapes, types, id };
            answer_reports(alloc, &checked, &reports, manner.form, given)
        }
        Err(error) => refused(alloc, path, &error),
    }
}

/// The answer that tells what reports have. Given are the bytes of the file that has accepted
/// ambiguities.
fn answer_reports(
    alloc: Global,
    checked: &Checked<'_>,
    reports: &Reports<'_>,
    form: Form,
    given: &[u8],
) -> Result<Answer, AllocError>
    ensures { IfOk result (λ a.
        (a.status ≡ checks.status_of (lines_of given.now) reports.now.asked.ambiguities.items)
        × TellsTypes form ((given.now ≡ []) × (reports.now.asked.ambiguities.items ≡ []))
        (check_text checked.now.shapes.now checked.now.types.now checked.now.id)
        (string_bytes a.text)) }
{
    let lines = lines_of(alloc, given)?;
    answer_lines(alloc, checked, reports, form, &lines)
}

/// The same, where the lines are those of the file that has accepted ambiguities.
fn answer_lines(
    alloc: Global,
    checked: &Checked<'_>,
    reports: &Reports<'_>,
    form: Form,
    lines: &[&[u8]],
) -> Result<Answer, AllocError>
    ensures { IfOk result (λ a.
        (a.status ≡ checks.status_of (lines_view lines.now) reports.now.asked.ambiguities.items)
        × TellsTypes form ((lines.now ≡ []) × (reports.now.asked.ambiguities.items ≡ []))
        (check_text checked.now.shapes.now checked.now.types.now checked.now.id)
        (string_bytes a.text)) }
{
    let findings = findings_of(alloc, checked, reports, lines)?;
    let outdated = outdated(alloc, lines, &findings)?;
    let text = written(alloc, checked, form, &findings, &outdated)?;
    Ok(Answer {
        status: status_of(&findings, &outdated),
        text,
    })
}

/// What is found, as it is to be written.
fn written(
    alloc: Global,
    checked: &Checked<'_>,
    form: Form,
    findings: &[Finding<'_, '_>],
    outdated: &[&[u8]],
) -> Result<String, AllocError>
    ensures { IfOk result (λ text. TellsTypes form ((findings.now ≡ []) × (outdated.now ≡ []))
        (check_text checked.now.shapes.now checked.now.types.now checked.now.id)
        (string_bytes text)) }
{
    match form {
        Form::Text => text_of(alloc, checked, findings, outdated),
        Form::Json => data_of(alloc, checked, findings, outdated),
    }
}
