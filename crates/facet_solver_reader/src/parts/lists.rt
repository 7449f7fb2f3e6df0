//! Lists of parts, put together.
ghost use Rattle.std.specs.Prelude.{◌≡◌, ◌++◌, ◌∷◌, [], false, map, IfOk, OnOk};
ghost use Rattle.facet_solver_reader.specs.Types as spec;
ghost use Rattle.facet_solver_reader.specs.Views.{list_view, part_view, parts_view};

use crate::part::{ListId, Part, Selection};
use std::alloc::{AllocError, Global};

/// Adds a part at the end.
pub(super) fn push<'c>(parts: &mut Vec<Part<'c>>, part: Part<'c>) -> Result<(), AllocError>
    ensures { OnOk result
        (parts_view parts.new.items ≡ parts_view parts.old.items ++ part_view part.entry ∷ []) }
{
    // In place of `?`, for which no proof is generated at an entry of this type.
    match parts.push(part) {
        Ok(()) => Ok(()),
        Err(_) => Err(AllocError),
    }
}

/// One part.
pub(super) fn only<'c>(alloc: Global, part: Part<'c>) -> Result<Vec<Part<'c>>, AllocError>
    ensures { IfOk result (λ parts. parts_view parts.items ≡ part_view part.entry ∷ []) }
{
    let mut parts = Vec::with_capacity(alloc, 1)?;
    push(&mut parts, part)?;
    Ok(parts)
}

/// One selection, which is always present.
pub(super) fn one_of<'c>(alloc: Global, branches: Vec<ListId>) -> Result<Vec<Part<'c>>, AllocError>
    ensures { IfOk result (λ parts.
        parts_view parts.items ≡ spec.one_of (map list_view branches.items) ∷ []) }
{
    only(
        alloc,
        Part::Selection(Selection {
            optional: false,
            branches,
            names: Vec::new(alloc),
        }),
    )
}
