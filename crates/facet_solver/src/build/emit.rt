//! What a walk emits, taken into a resolution.
ghost use Rattle.std.specs.Prelude.{◌≡◌, ◌∷◌, [], map, IfOk, OnOk};
ghost use Rattle.facet_solver.specs.build.Emissions as emissions;
ghost use Rattle.facet_solver.specs.build.Emissions.{IsPlain};
ghost use Rattle.facet_solver.specs.build.Nested.{no_paths};
ghost use Rattle.facet_solver.specs.build.Place.{chosen_of};
ghost use Rattle.facet_solver.specs.build.Outcome.{take_in, take_all, Gives};
ghost use Rattle.facet_solver.specs.build.Build.{build_of};
ghost use Rattle.facet_solver_shape.specs.Representation.{externally_tagged};
ghost use Rattle.facet_solver_shape.specs.Roles.{role_view};
ghost use Rattle.facet_solver.specs.build.Counts.{IsReady};
ghost use Rattle.facet_solver.specs.build.NestedTable.{HasVariants};
ghost use Rattle.facet_solver.specs.build.Reached.{IsChosen, ServesApart, ServesPlain, ServesRegular};

use crate::build::draft::Draft;
use crate::build::field::{catch_all_field, leaf_field, regular_field, selector_field};
use crate::build::nested::paths::one_name_path;
use crate::build::place::{Chosen, Place};
use crate::build::walker::Walker;
use facet_solver_shape::{
    EnumRepr, Field, FieldInfo, FieldPath, Role, SchemaError, Shape, Target, Variant,
};

/// Adds a field and the key path of its name.
fn add_with_path<'c>(info: FieldInfo<'c>, resolution: &mut Draft<'c>) -> Result<(), SchemaError<'c>>
    ensures { let emitted = emissions.field_and_paths info.entry no_paths in
        Gives (take_all resolution.old emitted) result resolution.new }
{
    resolution.add_field(info)?;
    Ok(())
}

/// What a regular field emits.
fn emit_regular<'c>(
    walker: &Walker<'c>,
    field: &'c Field,
    place: &Place<'c>,
    resolution: &mut Draft<'c>,
) -> Result<(), SchemaError<'c>>
    requires ready { IsReady walker.now }
    requires serves { ServesRegular
        walker.now.tables walker.now.build.shapes.now field.now.shape }
    ensures { let emitted =
        emissions.emit_regular (build_of walker.now.build) field.now place.now in
        Gives (take_all resolution.old emitted) result resolution.new }
{
    let info = regular_field(walker.build, field, place)?;
    resolution.add_field(info)?;
    let name = field.effective_name();
    walker
        .tables
        .add_paths_behind_field(walker.build, name, field.shape, resolution)?;
    Ok(())
}

/// What a flattened map or dynamic value emits.
fn emit_catch_all<'c>(
    walker: &Walker<'c>,
    field: &'c Field,
    target: Target,
    place: &Place<'c>,
    resolution: &mut Draft<'c>,
) -> Result<(), SchemaError<'c>>
    ensures { let emitted =
        emissions.emit_catch_all (build_of walker.now.build) field.now target place.now in
        Gives (take_all resolution.old emitted) result resolution.new }
{
    let info = catch_all_field(walker.build, field, target, place)?;
    resolution.set_catch_all_map(info.category, info)?;
    Ok(())
}

/// What a flattened field emits that is no struct, enum, map or dynamic value.
#[tactic(auto, unfolding(crate::specs::build::Emissions::emit_leaf))]
fn emit_leaf<'c>(
    walker: &Walker<'c>,
    field: &'c Field,
    target: Target,
    place: &Place<'c>,
    resolution: &mut Draft<'c>,
) -> Result<(), SchemaError<'c>>
    ensures { let emitted =
        emissions.emit_leaf (build_of walker.now.build) field.now target place.now in
        Gives (take_all resolution.old emitted) result resolution.new }
{
    let info = leaf_field(walker.build, field, target, place)?;
    add_with_path(info, resolution)
}

/// What a field emits that takes no index and has nothing below it.
#[tactic(auto, unfolding(crate::specs::build::Emissions::emit_plain))]
pub(crate) fn emit_plain<'c>(
    walker: &Walker<'c>,
    role: &Role<'c>,
    field: &'c Field,
    place: &Place<'c>,
    resolution: &mut Draft<'c>,
) -> Result<(), SchemaError<'c>>
    requires ready { IsReady walker.now }
    requires plain { IsPlain (role_view role.now) }
    requires serves { ServesPlain
        walker.now.tables walker.now.build.shapes.now field.now.shape (role_view role.now) }
    ensures { let emitted =
        emissions.emit_plain (build_of walker.now.build) field.now place.now (role_view role.now) in
        Gives (take_all resolution.old emitted) result resolution.new }
{
    match role {
        Role::Regular => emit_regular(walker, field, place, resolution),
        Role::CatchAll(target) => emit_catch_all(walker, field, *target, place, resolution),
        Role::Leaf(target) => emit_leaf(walker, field, *target, place, resolution),
        Role::Block(_, _) | Role::Alternatives(_, _, _) => unreachable!(),
    }
}

/// Adds the selection of a variant for an enum at a path.
pub(crate) fn add_selection<'c>(
    path: FieldPath<'c>,
    shape: &'c Shape,
    variant: &'c Variant,
    resolution: &mut Draft<'c>,
) -> Result<(), SchemaError<'c>>
    ensures { let selection = emissions.selection_of shape.now variant.now path.entry in
        Gives (take_in resolution.old selection) result resolution.new }
{
    resolution.add_variant_selection(path, &shape.type_identifier, &variant.name)?;
    Ok(())
}

/// Adds the selector of a chosen variant under a name, and the key path of the name.
fn add_selector<'c>(
    walker: &Walker<'c>,
    name: &'c str,
    chosen: &Chosen<'c>,
    place: &Place<'c>,
    resolution: &mut Draft<'c>,
) -> Result<(), SchemaError<'c>>
    ensures { let field =
        emissions.selector_field (build_of walker.now.build) name.now
        (chosen_of chosen.now) place.now in
        let emitted = emissions.field_and_paths field no_paths in
        Gives (take_all resolution.old emitted) result resolution.new }
{
    let info = selector_field(walker.build, name, chosen, place)?;
    add_with_path(info, resolution)
}

/// Adds the selector of a chosen variant whose name holds the content, and the key paths of the
/// name and behind it.
fn add_external_selector<'c>(
    walker: &Walker<'c>,
    chosen: &Chosen<'c>,
    place: &Place<'c>,
    resolution: &mut Draft<'c>,
) -> Result<(), SchemaError<'c>>
    requires ready { IsReady walker.now }
    requires chosen { IsChosen walker.now.build.shapes.now chosen.now }
    requires apart { HasVariants
        walker.now.tables.contents.by_index.items chosen.now.target.shape }
    ensures { let emitted = emissions.emit_selector_by externally_tagged
        (build_of walker.now.build) (chosen_of chosen.now) place.now in
        Gives (take_all resolution.old emitted) result resolution.new }
{
    let name = chosen.variant.name.as_str();
    let info = selector_field(walker.build, name, chosen, place)?;
    resolution.add_field(info)?;
    let shape = chosen.target.shape;
    walker
        .tables
        .add_paths_behind_content(walker.build, name, shape, chosen.index, resolution)?;
    Ok(())
}

/// Adds the selector of a chosen variant and its key paths, by the enum's representation.
fn emit_selector<'c>(
    walker: &Walker<'c>,
    chosen: &Chosen<'c>,
    place: &Place<'c>,
    resolution: &mut Draft<'c>,
) -> Result<(), SchemaError<'c>>
    requires ready { IsReady walker.now }
    requires chosen { IsChosen walker.now.build.shapes.now chosen.now }
    requires apart { ServesApart
        walker.now.tables (build_of walker.now.build) chosen.now }
    ensures { let emitted =
        emissions.emit_selector (build_of walker.now.build) (chosen_of chosen.now) place.now in
        Gives (take_all resolution.old emitted) result resolution.new }
{
    match walker.build.repr_for(chosen.shape) {
        EnumRepr::Flattened => Ok(()),
        EnumRepr::ExternallyTagged => add_external_selector(walker, chosen, place, resolution),
        EnumRepr::InternallyTagged { tag } => add_selector(walker, tag, chosen, place, resolution),
        EnumRepr::AdjacentlyTagged { tag, content } => {
            add_selector(walker, tag, chosen, place, resolution)?;
            let shape = chosen.target.shape;
            walker
                .tables
                .add_paths_behind_content(walker.build, content, shape, chosen.index, resolution)?;
            resolution.add_key_path(one_name_path(walker.build.alloc, content)?)?;
            Ok(())
        }
    }
}

/// What a flattened enum emits at a chosen variant, before the variant's content: the selection and
/// the selector.
pub(crate) fn emit_variant<'c>(
    walker: &Walker<'c>,
    chosen: &Chosen<'c>,
    place: &Place<'c>,
    resolution: &mut Draft<'c>,
) -> Result<(), SchemaError<'c>>
    requires ready { IsReady walker.now }
    requires chosen { IsChosen walker.now.build.shapes.now chosen.now }
    requires apart { ServesApart
        walker.now.tables (build_of walker.now.build) chosen.now }
    ensures { let emitted =
        emissions.emit_variant (build_of walker.now.build) (chosen_of chosen.now) place.now in
        Gives (take_all resolution.old emitted) result resolution.new }
{
    let path = place.field_path(walker.build.alloc, chosen.field)?;
    add_selection(path, chosen.shape, chosen.variant, resolution)?;
    emit_selector(walker, chosen, place, resolution)
}
