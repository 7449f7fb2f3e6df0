//! The text of selected variants.
ghost use Rattle.std.specs.Prelude.{◌≡◌, ◌++◌, map, IfOk, OnOk};
ghost use Rattle.std.specs.String.{string_bytes};
ghost use Rattle.facet_solver_shape.specs.Resolved.{selection_text, description, selection_view};

use crate::resolution::VariantSelection;
use std::alloc::{AllocError, Global};

/// The selections in order, or that there are none.
pub(crate) fn describe_selections(
    alloc: Global,
    selections: &[VariantSelection],
) -> Result<String, AllocError>
    ensures { IfOk result (λ text.
        string_bytes text ≡ description (map selection_view selections.now)) }
{
    let Some((first, rest)) = selections.split_first() else {
        return String::from_str(alloc, "(no variants)");
    };
    let mut text = String::with_capacity(alloc, room(selections))?;
    push_selection(&mut text, first)?;
    for selection in rest {
        text.push_str(" + ")?;
        push_selection(&mut text, selection)?;
    }
    Ok(text)
}

/// The bytes that the text of the selections takes, so that it is allocated once; a hint alone, and
/// so with no contract: a string with less room grows.
fn room(selections: &[VariantSelection]) -> usize {
    let mut bytes: usize = 0;
    for selection in selections {
        let names = selection
            .enum_name
            .len()
            .saturating_add(selection.variant_name.len());
        bytes = bytes
            .saturating_add(names)
            .saturating_add("::".len() + " + ".len());
    }
    bytes
}

fn push_selection(text: &mut String, selection: &VariantSelection) -> Result<(), AllocError>
    ensures { OnOk result
        (string_bytes text.new
        ≡ string_bytes text.old ++ selection_text (selection_view selection.now)) }
{
    text.push_str(selection.enum_name)?;
    text.push_str("::")?;
    text.push_str(selection.variant_name)
}
