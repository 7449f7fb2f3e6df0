//! The parts that fields are.
ghost use Rattle.std.specs.Prelude.{◌≡◌, IfOk};
ghost use Rattle.facet_solver_shape.specs.Catalogues.{kind_at};
ghost use Rattle.facet_solver_reader.specs.Types as spec;
ghost use Rattle.facet_solver_reader.specs.Views.{catch_all_view, part_view, parts_view};

use super::branches::branches;
use super::lists::push;
use crate::part::{CatchAll, ListId, MemberPart, Part, Selection, Target};
use facet_solver_shape::{Field, Role, ShapeId, ShapeKind, Shapes, is_required, role_of};
use std::alloc::{AllocError, Global};

/// The parts that fields are, one for each.
pub(super) fn parts_of_fields<'c>(
    alloc: Global,
    shapes: &'c Shapes,
    fields: &'c [Field],
) -> Result<Vec<Part<'c>>, AllocError>
    ensures { IfOk result (λ parts.
        parts_view parts.items ≡ spec.parts_of_fields shapes.now fields.now) }
{
    let mut parts = Vec::with_capacity(alloc, fields.len())?;
    for field in fields {
        match part_of(alloc, shapes, field) {
            Ok(part) => push(&mut parts, part)?,
            Err(_) => return Err(AllocError),
        }
    }
    Ok(parts)
}

/// The part that a field is, by its role. A struct that is flattened is a selection of one branch.
fn part_of<'c>(alloc: Global, shapes: &'c Shapes, field: &'c Field) -> Result<Part<'c>, AllocError>
    ensures { IfOk result (λ part. part_view part ≡ spec.part_of shapes.now field.now) }
{
    match role_of(shapes, field) {
        Role::Regular | Role::Leaf(_) => Ok(member_of_field(shapes, field)),
        Role::Block(target, _) => Ok(Part::Selection(Selection {
            optional: target.optional,
            branches: vec![in alloc; ListId::Struct(target.shape)]?,
            names: Vec::new(alloc),
        })),
        Role::Alternatives(target, _, variants) => Ok(Part::Selection(Selection {
            optional: target.optional,
            branches: branches(alloc, target.shape, variants)?,
            names: Vec::new(alloc),
        })),
        Role::CatchAll(target) => Ok(Part::CatchAll(catch_all_at(shapes, target.shape))),
    }
}

/// The member that a field is.
fn member_of_field<'c>(shapes: &Shapes, field: &'c Field) -> Part<'c>
    ensures { part_view result ≡ spec.member_of_field shapes.now field.now }
{
    Part::Member(MemberPart {
        name: field.effective_name(),
        required: is_required(shapes, field),
        target: Target::Shape(field.shape),
    })
}

/// What takes members by the map or dynamic value at an index.
fn catch_all_at(shapes: &Shapes, id: ShapeId) -> CatchAll
    ensures { catch_all_view result ≡ spec.catch_all_of_kind (kind_at shapes.now id) }
{
    match shapes.get(id) {
        Some(shape) => match &shape.kind {
            ShapeKind::Map(key, value) => CatchAll::Map(*key, *value),
            _ => CatchAll::Anything,
        },
        None => CatchAll::Anything,
    }
}
