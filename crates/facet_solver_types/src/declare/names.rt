//! The names that fields and variants go by in a document.
ghost use Rattle.std.specs.Prelude.{◌≡◌, option_map};
ghost use Rattle.std.specs.String.{string_bytes};
ghost use Rattle.facet_solver_types.specs.AttributeLists.{attributes_view};
ghost use Rattle.facet_solver_types.specs.DocumentNames as names;
ghost use Rattle.facet_solver_types.specs.Outcomes.{Gives};
ghost use Rattle.facet_solver_types.specs.Tokens.{token_view};

use super::said::refused;
use super::sought::{is_said, text_said};
use crate::attribute::{Attribute, Meaning, Refusal};
use crate::case::Case;
use crate::fault::Fault;
use crate::token::Token;
use std::alloc::Global;

/// What a name is in a case, where it is something.
fn cased(name: &Token<'_>, other: Option<String>) -> Result<String, Fault>
    ensures { Gives string_bytes
        (names.cased (token_view name.now) (option_map string_bytes other)) result }
{
    match other {
        Some(other) => Ok(other),
        None => Err(refused(name.offset, Refusal::NotAscii)),
    }
}

/// The name of a field in a case, if there is a case.
fn field_in(alloc: Global, case: Option<Case>, name: &Token<'_>) -> Result<String, Fault>
    ensures { Gives string_bytes (names.field_in case (token_view name.now)) result }
{
    match case {
        Some(case) => cased(name, case.apply_to_field(alloc, name.text)?),
        None => Ok(String::from_str(alloc, name.text)?),
    }
}

/// The name of a variant in a case, if there is a case.
fn variant_in(alloc: Global, case: Option<Case>, name: &Token<'_>) -> Result<String, Fault>
    ensures { Gives string_bytes (names.variant_in case (token_view name.now)) result }
{
    match case {
        Some(case) => cased(name, case.apply_to_variant(alloc, name.text)?),
        None => Ok(String::from_str(alloc, name.text)?),
    }
}

/// The name that a field goes by: its own where it is flattened.
fn field_name(
    alloc: Global,
    case: Option<Case>,
    found: &[Attribute<'_, '_>],
    name: &Token<'_>,
) -> Result<String, Fault>
    ensures { Gives string_bytes
        (names.field_name case (attributes_view found.now) (token_view name.now)) result }
{
    if is_said(Meaning::Flatten, found) {
        return Ok(String::from_str(alloc, name.text)?);
    }
    match text_said(alloc, Meaning::Rename, found)? {
        Some(said) => Ok(said),
        None => field_in(alloc, case, name),
    }
}

/// The name that a field goes by, where it is another than its own.
///
/// Errors: the name isn't ASCII, and a case names it; out of memory.
pub(super) fn field_rename(
    alloc: Global,
    case: Option<Case>,
    found: &[Attribute<'_, '_>],
    name: &Token<'_>,
) -> Result<Option<String>, Fault>
    ensures { Gives (option_map string_bytes)
        (names.field_rename case (attributes_view found.now) (token_view name.now)) result }
{
    let other = field_name(alloc, case, found, name)?;
    if other.as_str() == name.text {
        Ok(None)
    } else {
        Ok(Some(other))
    }
}

/// The name that a variant goes by.
///
/// Errors: the name isn't ASCII, and a case names it; out of memory.
pub(super) fn variant_name(
    alloc: Global,
    case: Option<Case>,
    found: &[Attribute<'_, '_>],
    name: &Token<'_>,
) -> Result<String, Fault>
    ensures { Gives string_bytes
        (names.variant_name case (attributes_view found.now) (token_view name.now)) result }
{
    match text_said(alloc, Meaning::Rename, found)? {
        Some(said) => Ok(said),
        None => variant_in(alloc, case, name),
    }
}
