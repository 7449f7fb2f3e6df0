//! The branches of enums.
ghost use Rattle.std.specs.Prelude.{◌≡◌, map, zero, IfOk};
ghost use Rattle.facet_solver_reader.specs.Types as spec;
ghost use Rattle.facet_solver_reader.specs.Views.{list_view};

use crate::part::ListId;
use crate::types::Types;
use facet_solver_shape::{ShapeId, Variant};
use std::alloc::{AllocError, Global};

/// The branches of the enum at an index, one for each variant.
pub(super) fn branches(
    alloc: Global,
    id: ShapeId,
    variants: &[Variant],
) -> Result<Vec<ListId>, AllocError>
    ensures { IfOk result (λ bs.
        map list_view bs.items ≡ spec.branches_from id zero variants.now) }
{
    let mut branches = Vec::with_capacity(alloc, variants.len())?;
    for (k, _) in variants.iter().enumerate() {
        branches.push(ListId::Branch(id, k))?;
    }
    Ok(branches)
}

/// The branches of the untagged enum at an index that join.
pub(super) fn joined(
    alloc: Global,
    types: &Types<'_>,
    id: ShapeId,
    variants: &[Variant],
) -> Result<Vec<ListId>, AllocError>
    ensures { IfOk result (λ bs.
        map list_view bs.items ≡ spec.joined_from types.now id zero variants.now) }
{
    let mut joined = Vec::new(alloc);
    for (k, variant) in variants.iter().enumerate() {
        if types.does_join(variant) {
            joined.push(ListId::Branch(id, k))?;
        }
    }
    Ok(joined)
}
