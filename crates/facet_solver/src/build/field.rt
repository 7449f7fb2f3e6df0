//! The fields that a walk emits.
ghost use Rattle.std.specs.Prelude.{◌≡◌, IfOk};
ghost use Rattle.facet_solver.specs.build.Emissions as emissions;
ghost use Rattle.facet_solver.specs.build.Place.{chosen_of};
ghost use Rattle.facet_solver.specs.build.Build.{build_of};

use crate::build::Build;
use crate::build::place::{Chosen, Place};
use facet_solver_shape::{Field, FieldInfo, Target, is_required};
use std::alloc::AllocError;

/// A regular field, with its own shape.
#[tactic(auto, unfolding(crate::specs::build::Emissions::regular_field))]
pub(crate) fn regular_field<'c>(
    build: Build<'c>,
    field: &'c Field,
    place: &Place<'c>,
) -> Result<FieldInfo<'c>, AllocError>
    ensures { IfOk result (λ info. info
        ≡ emissions.regular_field (build_of build.entry) field.now place.now) }
{
    Ok(FieldInfo {
        serialized_name: field.effective_name(),
        path: place.field_path(build.alloc, field)?,
        required: is_required(build.shapes, field),
        value_shape: field.shape,
        field,
        category: build.format.field_category(field.dom),
    })
}

/// A flattened map or dynamic value: never required.
#[tactic(auto, unfolding(crate::specs::build::Emissions::catch_all_field))]
pub(crate) fn catch_all_field<'c>(
    build: Build<'c>,
    field: &'c Field,
    target: Target,
    place: &Place<'c>,
) -> Result<FieldInfo<'c>, AllocError>
    ensures { IfOk result (λ info. info
        ≡ emissions.catch_all_field (build_of build.entry) field.now target place.now) }
{
    Ok(FieldInfo {
        serialized_name: field.effective_name(),
        path: place.field_path(build.alloc, field)?,
        required: false,
        value_shape: target.shape,
        field,
        category: build.format.catch_all_category(field.dom),
    })
}

/// Any other flattened field, with its target as its shape. Whether it is required goes by its own.
#[tactic(auto, unfolding(crate::specs::build::Emissions::leaf_field))]
pub(crate) fn leaf_field<'c>(
    build: Build<'c>,
    field: &'c Field,
    target: Target,
    place: &Place<'c>,
) -> Result<FieldInfo<'c>, AllocError>
    ensures { IfOk result (λ info. info
        ≡ emissions.leaf_field (build_of build.entry) field.now target place.now) }
{
    Ok(FieldInfo {
        serialized_name: field.effective_name(),
        path: place.field_path(build.alloc, field)?,
        required: is_required(build.shapes, field),
        value_shape: target.shape,
        field,
        category: build.format.field_category(field.dom),
    })
}

/// The field by which a reader of a flattened enum learns the chosen variant: always required.
#[tactic(auto, unfolding(crate::specs::build::Emissions::selector_field))]
pub(crate) fn selector_field<'c>(
    build: Build<'c>,
    name: &'c str,
    chosen: &Chosen<'c>,
    place: &Place<'c>,
) -> Result<FieldInfo<'c>, AllocError>
    ensures { let chosen = chosen_of chosen.now in
        IfOk result (λ info. info
        ≡ emissions.selector_field (build_of build.entry) name.now chosen place.now) }
{
    Ok(FieldInfo {
        serialized_name: name,
        path: place.variant_path(build.alloc, chosen)?,
        required: true,
        value_shape: chosen.target.shape,
        field: chosen.field,
        category: build.format.selector_category(),
    })
}
