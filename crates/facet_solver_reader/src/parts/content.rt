//! The parts of a variant's content that stands among other members.
ghost use Rattle.std.specs.Prelude.{◌≡◌, IfOk};
ghost use Rattle.std.specs.Option.{option_map};
ghost use Rattle.facet_solver_reader.specs.Types as spec;
ghost use Rattle.facet_solver_reader.specs.Views.{parts_view};

use super::branches::branches;
use super::fields::parts_of_fields;
use super::lists::{one_of, only};
use crate::content::newtype_shape;
use crate::ends::last_of;
use crate::part::{CatchAll, ListId, Part};
use facet_solver_shape::{Field, ShapeId, ShapeKind, Shapes, StructKind, Variant};
use std::alloc::{AllocError, Global};

/// The parts of a variant's content; `None` where no object is read by it.
pub(super) fn parts_of_content<'c>(
    alloc: Global,
    shapes: &'c Shapes,
    variant: &'c Variant,
) -> Result<Option<Vec<Part<'c>>>, AllocError>
    ensures { IfOk result (λ parts. option_map (λ ps. parts_view ps.items) parts
        ≡ spec.parts_of_content shapes.now variant.now) }
{
    match newtype_shape(&variant.fields) {
        Some(id) => parts_of_newtype(alloc, shapes, id),
        None => parts_of_content_kind(alloc, shapes, variant.kind, &variant.fields),
    }
}

/// The parts of content whose single field is of the shape at an index.
fn parts_of_newtype<'c>(
    alloc: Global,
    shapes: &Shapes,
    id: ShapeId,
) -> Result<Option<Vec<Part<'c>>>, AllocError>
    ensures { IfOk result (λ parts. option_map (λ ps. parts_view ps.items) parts
        ≡ spec.parts_of_newtype shapes.now id) }
{
    let last = last_of(shapes, id);
    match shapes.get(last) {
        Some(shape) => parts_of_kind(alloc, last, &shape.kind),
        None => Ok(None),
    }
}

/// The parts of content whose single field ends in the shape at an index, of a kind.
fn parts_of_kind<'c>(
    alloc: Global,
    id: ShapeId,
    kind: &ShapeKind,
) -> Result<Option<Vec<Part<'c>>>, AllocError>
    ensures { IfOk result (λ parts. option_map (λ ps. parts_view ps.items) parts
        ≡ spec.parts_of_kind id kind.now) }
{
    let parts = match kind {
        ShapeKind::Struct { kind, .. } if *kind == StructKind::Struct => {
            one_of(alloc, vec![in alloc; ListId::Struct(id)]?)?
        }
        ShapeKind::Enum { variants } => one_of(alloc, branches(alloc, id, variants)?)?,
        ShapeKind::Map(key, value) => only(alloc, Part::CatchAll(CatchAll::Map(*key, *value)))?,
        ShapeKind::DynamicValue => only(alloc, Part::CatchAll(CatchAll::Anything))?,
        _ => return Ok(None),
    };
    Ok(Some(parts))
}

/// The parts of content of a kind and fields that are no single field `0`.
fn parts_of_content_kind<'c>(
    alloc: Global,
    shapes: &'c Shapes,
    kind: StructKind,
    fields: &'c [Field],
) -> Result<Option<Vec<Part<'c>>>, AllocError>
    ensures { IfOk result (λ parts. option_map (λ ps. parts_view ps.items) parts
        ≡ spec.parts_of_content_kind shapes.now kind fields.now) }
{
    match kind {
        StructKind::Tuple | StructKind::TupleStruct if !fields.is_empty() => Ok(None),
        _ => Ok(Some(parts_of_fields(alloc, shapes, fields)?)),
    }
}
