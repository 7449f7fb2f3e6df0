//! The walk of one choice, which fills one resolution. It goes as deep as a catalogue, so it is a
//! loop over a stack of its own.
ghost use Rattle.std.specs.Prelude.{◌≡◌, ◌<◌, ◌∷◌, ◌++◌, [], IfOk, IsSome, OnOk, if◌then◌else◌, length, slice_get, slice_index};
ghost use Rattle.facet_solver_shape.specs.Catalogues.{FieldsBelow};
ghost use Rattle.facet_solver.specs.build.Content.{content_of};
ghost use Rattle.facet_solver.specs.build.Outcome.{Walks, effect};
ghost use Rattle.facet_solver.specs.build.Build.{build_of};
ghost use Rattle.facet_solver.specs.build.Place.{chosen_of};
ghost use Rattle.facet_solver.specs.build.Walk as walk;
ghost use Rattle.facet_solver.specs.build.Walk.{Walking};
ghost use Rattle.facet_solver.specs.build.WalkFrames.{IsInside, Leads, LeadsBelow};
ghost use Rattle.facet_solver.specs.build.Counts.{IsReady};
ghost use Rattle.facet_solver.specs.build.Reached.{IsChosen, ServesEnum, ServesField, ServesFields};
ghost use Rattle.facet_solver.specs.build.Work.{work_of_field, work_of_fields, work_of_variant};

use crate::build::catch_alls::set_catch_alls;
use crate::build::content::newtype_fields;
use crate::build::contribution::Contribution;
use crate::build::draft::Draft;
use crate::build::emit::{emit_plain, emit_variant};
use crate::build::place::{Chosen, Place};
use crate::build::walker::Walker;
use facet_solver_shape::{Field, Role, SchemaError, Variant, role_of};
use std::alloc::{AllocError, Global};

/// Fields that are still to be walked, and how many segments the path to them has.
#[derive(Clone, Copy)]
pub(crate) struct Frame<'c> {
    pub(crate) fields: &'c [Field],
    pub(crate) depth: usize,
}

/// Where walks are, one after another: the place, and the fields that are left. So one walk leaves
/// its memory to the next.
#[derive(Drop)]
pub(crate) struct Cursor<'c> {
    pub(crate) place: Place<'c>,
    pub(crate) frames: Vec<Frame<'c>>,
    /// Room for the names of a resolution's fields.
    pub(crate) names: Vec<&'c str>,
}

impl<'c> Cursor<'c> {
    /// Where no walk has been.
    pub(crate) fn new(alloc: Global) -> Cursor<'c> {
        Cursor {
            place: Place::root(alloc),
            frames: Vec::new(alloc),
            names: Vec::new(alloc),
        }
    }
}

/// What the walk of one field leaves to walk.
#[derive(Clone, Copy)]
pub(crate) struct Further<'c, 'n> {
    /// The fields inside it, if there are any to walk, which stand where the place has come to.
    pub(crate) inside: Option<&'c [Field]>,
    /// The indices that are left.
    pub(crate) indices: &'n [usize],
}

/// The variant that the next index names, and the indices behind it.
pub(crate) fn next_variant<'c, 'n>(
    variants: &'c [Variant],
    indices: &'n [usize],
) -> (&'c Variant, &'n [usize])
    requires { walk.HasChoice variants.now indices.now }
    ensures variant { slice_get variants.now (slice_index indices.now 0) ≡ Some result.0.now }
    ensures rest { indices.now ≡ slice_index indices.now 0 ∷ result.1.now }
{
    (&variants[indices[0]], &indices[1..])
}

/// Whether a field is present, and the indices that are left: where it may be absent, the next
/// index says so.
fn presence<'n>(may_be_absent: bool, indices: &'n [usize]) -> (bool, &'n [usize])
    requires { walk.HasPresence may_be_absent indices.now }
    ensures { (present : Walking) → walk.walk_optional may_be_absent present indices.now
        ≡ (if result.0 then present result.1.now else walk.emit [] result.1.now) }
{
    if may_be_absent {
        (indices[0] == 1, &indices[1..])
    } else {
        (true, indices)
    }
}

/// Walks fields in order, each with the indices that the one before it left, and what is inside a
/// field before the next one; answers the indices that the last one left. `frames` is room for the
/// fields that are left at each outer level, and is cleared first. The innermost level lies beside
/// it, so flat fields take no memory.
pub(crate) fn walk_fields<'c, 'n>(
    walker: &Walker<'c>,
    fields: &'c [Field],
    place: &mut Place<'c>,
    frames: &mut Vec<Frame<'c>>,
    indices: &'n [usize],
    resolution: &mut Draft<'c>,
) -> Result<&'n [usize], SchemaError<'c>>
    requires ready { IsReady walker.now }
    requires below { FieldsBelow (length walker.now.build.shapes.now) fields.now }
    requires serves { ServesFields (build_of walker.now.build) walker.now.tables fields.now }
    requires walked { IsSome
        (walk.walk_fields (build_of walker.now.build) fields.now place.old indices.now) }
    ensures { let walked =
        walk.walk_fields (build_of walker.now.build) fields.now place.old indices.now in
        Walks (effect resolution.old walked) result resolution.new }
{
    let mut rest = indices;
    let mut frame = Frame {
        fields,
        depth: place.depth(),
    };
    frames.clear();
    loop {
        place.cut(frame.depth);
        let Some((field, behind)) = frame.fields.split_first() else {
            let Some(outer) = frames.pop() else {
                return Ok(rest);
            };
            frame = outer;
            continue;
        };
        frame.fields = behind;
        let further = walk_field(walker, field, place, rest, resolution)?;
        rest = further.indices;
        let Some(inside) = further.inside else {
            continue;
        };
        frames.push(frame)?;
        frame = Frame {
            fields: inside,
            depth: place.depth(),
        };
    }
}

/// Walks one field, but for the fields inside it.
fn walk_field<'c, 'n>(
    walker: &Walker<'c>,
    field: &'c Field,
    place: &mut Place<'c>,
    indices: &'n [usize],
    resolution: &mut Draft<'c>,
) -> Result<Further<'c, 'n>, SchemaError<'c>>
    requires ready { IsReady walker.now }
    requires below { field.now.shape < length walker.now.build.shapes.now }
    requires serves { ServesField (build_of walker.now.build) walker.now.tables field.now }
    requires walked { IsSome
        (walk.walk_field (build_of walker.now.build) field.now place.old indices.now) }
    ensures leads { let walked =
        walk.walk_field (build_of walker.now.build) field.now place.old indices.now in
        Leads (build_of walker.now.build) (effect resolution.old walked) result
        place.new resolution.new }
    ensures place { OnOk result (IsInside place.old place.new) }
    ensures inside { let build = build_of walker.now.build in
        LeadsBelow build walker.now.tables field.now.shape (work_of_field build field.now) result }
{
    let role = role_of(walker.build.shapes, field);
    let (is_present, indices) = presence(role.may_be_absent(), indices);
    let plain = Further {
        inside: None,
        indices,
    };
    if !is_present {
        return Ok(plain);
    }
    match role {
        Role::Block(target, fields) => {
            place.enter_field(field)?;
            if let Contribution::CatchAlls(_) = walker.contribution.of(target.shape) {
                set_catch_alls(walker, fields, place, resolution)?;
                return Ok(plain);
            }
            Ok(Further {
                inside: Some(fields),
                indices,
            })
        }
        Role::Alternatives(target, shape, variants) => {
            let (variant, rest) = next_variant(variants, indices);
            let chosen = Chosen {
                field,
                target,
                shape,
                index: indices[0],
                variant,
            };
            walk_variant(walker, &chosen, place, rest, resolution)
        }
        Role::Regular | Role::CatchAll(_) | Role::Leaf(_) => {
            emit_plain(walker, &role, field, place, resolution)?;
            Ok(plain)
        }
    }
}

/// Walks a flattened enum at a chosen variant, but for the fields inside it, which are those of the
/// content where that stands at this level: the selection and the selector.
fn walk_variant<'c, 'n>(
    walker: &Walker<'c>,
    chosen: &Chosen<'c>,
    place: &mut Place<'c>,
    indices: &'n [usize],
    resolution: &mut Draft<'c>,
) -> Result<Further<'c, 'n>, SchemaError<'c>>
    requires ready { IsReady walker.now }
    requires chosen { IsChosen walker.now.build.shapes.now chosen.now }
    requires serves { ServesEnum
        (build_of walker.now.build) walker.now.tables chosen.now.target.shape }
    requires walked { IsSome
        (walk.walk_variant (build_of walker.now.build)
        (chosen_of chosen.now) place.old indices.now) }
    ensures leads { let walked =
        walk.walk_variant (build_of walker.now.build)
        (chosen_of chosen.now) place.old indices.now in
        Leads (build_of walker.now.build) (effect resolution.old walked) result
        place.new resolution.new }
    ensures place { OnOk result (IsInside place.old place.new) }
    ensures inside { let build = build_of walker.now.build in
        LeadsBelow build walker.now.tables chosen.now.target.shape
        (work_of_variant (work_of_fields build) build.catalogue chosen.now.variant.now) result }
{
    emit_variant(walker, chosen, place, resolution)?;
    if chosen.variant.fields.is_empty() || !walker.build.walks_content(chosen.shape) {
        return Ok(Further {
            inside: None,
            indices,
        });
    }
    place.enter_variant(chosen)?;
    let fields = enter_content(walker, chosen.variant, place)?;
    Ok(Further {
        inside: Some(fields),
        indices,
    })
}

/// Goes where the fields of a variant's content stand, and answers them.
pub(crate) fn enter_content<'c>(
    walker: &Walker<'c>,
    variant: &'c Variant,
    place: &mut Place<'c>,
) -> Result<&'c [Field], AllocError>
    requires { IsReady walker.now }
    ensures fields { IfOk result (λ fields. fields.now
        ≡ (content_of walker.now.build.shapes.now variant.now).fields) }
    ensures place { OnOk result (place.new
        ≡ place.old ++ (content_of walker.now.build.shapes.now variant.now).path) }
{
    match newtype_fields(walker.build.shapes, &variant.fields) {
        Some(fields) => {
            place.enter_newtype()?;
            Ok(fields)
        }
        None => Ok(&variant.fields),
    }
}
