//! What a check finds, as a text.
ghost use Rattle.std.specs.Prelude.{◌≡◌, [], IfOk, string_bytes};
ghost use Rattle.facet_solver_tool.specs.declared.question.Form.TheVariants.{Text};
ghost use Rattle.facet_solver_tool.specs.Checks.{TellsTypes};
ghost use Rattle.facet_solver_tool.specs.RootAnswers.{check_text};

use super::Checked;
use super::finding::Finding;
use super::finding_text::{finding_lines, outdated_lines};
use crate::name::name_at;
use crate::representation::EnumLines;
use crate::unserved::{conditional_text, unserved_text};
use std::alloc::{AllocError, Global};

/// The text of a check: the root's name, how each enum is written, the types that are declared once
/// more, those that refuse unknown members where the root does not, the findings, and the lines of
/// accepted ambiguities that name none.
pub fn text_of(
    alloc: Global,
    checked: &Checked<'_>,
    findings: &[Finding<'_, '_>],
    outdated: &[&[u8]],
) -> Result<String, AllocError>
    ensures { IfOk result (λ text. TellsTypes Text ((findings.now ≡ []) × (outdated.now ≡ []))
        (check_text checked.now.shapes.now checked.now.types.now checked.now.id)
        (string_bytes text)) }
{
    let text = text_of_types(alloc, checked)?;
    if findings.is_empty() && outdated.is_empty() {
        return Ok(text);
    }
    let findings = finding_lines(alloc, findings)?;
    let outdated = outdated_lines(alloc, outdated)?;
    format!(in alloc; "{text}{findings}{outdated}")
}

/// The lines for the types: the root's name, how each enum is written, the types that are declared
/// once more, and those that refuse unknown members where the root does not.
fn text_of_types(alloc: Global, checked: &Checked<'_>) -> Result<String, AllocError>
    ensures { IfOk result (λ text. string_bytes text
        ≡ check_text checked.now.shapes.now checked.now.types.now checked.now.id) }
{
    let Checked { shapes, types, id } = *checked;
    let name = name_at(shapes, id);
    let enums = EnumLines(shapes);
    let conditional = conditional_text(alloc, types)?;
    let unserved = unserved_text(alloc, types, id)?;
    format!(in alloc; "root: {name}{enums}{conditional}{unserved}")
}
