//! The catch-alls of a struct that emits nothing else. Each takes the place of the one of its
//! category before it, so only the last of each category is looked for, however often it is
//! flattened.
ghost use Rattle.std.specs.Prelude.{◌≡◌, length, OnOk};
ghost use Rattle.std.specs.Option.{option_copied};
ghost use Rattle.facet_solver_shape.specs.Catalogues.{FieldsBelow};
ghost use Rattle.facet_solver.specs.build.Contribution.{AreCatchAlls, contribution_of_fields};
ghost use Rattle.facet_solver.specs.build.Build.{build_of};
ghost use Rattle.facet_solver.specs.build.CatchAlls as last;
ghost use Rattle.facet_solver.specs.build.CatchAlls.{emitted_by, last_catch_all, with_last};
ghost use Rattle.facet_solver.specs.build.Counts.{IsReady};
ghost use Rattle.facet_solver.specs.build.Outcome.{resolved, take_all};

use crate::build::draft::Draft;
use crate::build::field::catch_all_field;
use crate::build::place::Place;
use crate::build::walker::Walker;
use facet_solver_shape::{Field, FieldCategory, Role, role_of};
use std::alloc::AllocError;

/// Takes in what fields emit that emit catch-alls alone.
pub(crate) fn set_catch_alls<'c>(
    walker: &Walker<'c>,
    fields: &'c [Field],
    place: &mut Place<'c>,
    resolution: &mut Draft<'c>,
) -> Result<(), AllocError>
    requires ready { IsReady walker.now }
    requires below { FieldsBelow (length walker.now.build.shapes.now) fields.now }
    requires alone { let contributions = walker.now.contribution.by_index.items in
        AreCatchAlls (contribution_of_fields contributions (build_of walker.now.build) fields.now) }
    ensures taken { let emitted = emitted_by (build_of walker.now.build) fields.now place.old in
        OnOk result (take_all resolution.old emitted ≡ resolved resolution.new) }
    ensures place { OnOk result (place.new ≡ place.old) }
{
    set_last(walker, fields, FieldCategory::Flat, place, resolution)?;
    set_last(walker, fields, FieldCategory::Attribute, place, resolution)?;
    set_last(walker, fields, FieldCategory::Element, place, resolution)?;
    Ok(())
}

/// Sets the last catch-all of a category, if there is one. It is sought from struct to struct in a
/// loop, since they lie as deep as a catalogue.
fn set_last<'c>(
    walker: &Walker<'c>,
    fields: &'c [Field],
    category: FieldCategory,
    place: &mut Place<'c>,
    resolution: &mut Draft<'c>,
) -> Result<(), AllocError>
    requires ready { IsReady walker.now }
    requires below { FieldsBelow (length walker.now.build.shapes.now) fields.now }
    requires alone { let contributions = walker.now.contribution.by_index.items in
        AreCatchAlls (contribution_of_fields contributions (build_of walker.now.build) fields.now) }
    ensures set { let emitted = emitted_by (build_of walker.now.build) fields.now place.old in
        OnOk result
        (resolution.new ≡ with_last category (last_catch_all category emitted) resolution.old) }
    ensures place { OnOk result (place.new ≡ place.old) }
{
    let depth = place.depth();
    let mut fields = fields;
    while let Some(field) = last_with(walker, fields, category) {
        match role_of(walker.build.shapes, field) {
            Role::Block(_, flattened) => {
                place.enter_field(field)?;
                fields = flattened;
            }
            Role::CatchAll(target) => {
                let info = catch_all_field(walker.build, field, target, place)?;
                place.cut(depth);
                return resolution.set_catch_all_map(category, info);
            }
            Role::Regular | Role::Alternatives(_, _, _) | Role::Leaf(_) => unreachable!(),
        }
    }
    place.cut(depth);
    Ok(())
}

/// The last of fields that contribute a catch-all of a category.
fn last_with<'c>(
    walker: &Walker<'c>,
    fields: &'c [Field],
    category: FieldCategory,
) -> Option<&'c Field>
    ensures { option_copied result
        ≡ last.last_with walker.now.contribution.by_index.items
        (build_of walker.now.build) category fields.now }
{
    let mut last = None;
    for field in fields {
        if walker
            .contribution
            .of_field(walker.build, field)
            .has_last(category)
        {
            last = Some(field);
        }
    }
    last
}
