//! The parts of each list.
ghost use Rattle.std.specs.Prelude.{◌≡◌, IfOk};
ghost use Rattle.std.specs.Option.{option_map};
ghost use Rattle.facet_solver_shape.specs.Catalogues.{kind_at};
ghost use Rattle.facet_solver_shape.specs.Representation.{repr_view};
ghost use Rattle.facet_solver_reader.specs.Types as spec;
ghost use Rattle.facet_solver_reader.specs.Views.{list_view, part_view, parts_view};

mod branches;
mod content;
mod fields;
mod lists;

use crate::part::{ListId, MemberPart, Part, Target};
use crate::types::Types;
use crate::variants::{variant_at, variants_at};
use branches::{branches, joined};
use content::parts_of_content;
use facet_solver_shape::{EnumRepr, ShapeId, ShapeKind, Shapes, Variant};
use fields::parts_of_fields;
use lists::{one_of, only, push};
use std::alloc::{AllocError, Global};

/// The parts of a list; `None` where no object is read by it.
pub(crate) fn parts_of<'c>(
    alloc: Global,
    types: &Types<'c>,
    list: ListId,
) -> Result<Option<Vec<Part<'c>>>, AllocError>
    ensures { IfOk result (λ parts.
        option_map (λ ps. parts_view ps.items) parts ≡ spec.parts_of types.now (list_view list)) }
{
    let shapes = types.shapes();
    match list {
        ListId::Struct(id) => parts_of_struct(alloc, shapes, id),
        ListId::Enum(id) => {
            let branches = branches(alloc, id, variants_at(shapes, id))?;
            Ok(Some(one_of(alloc, branches)?))
        }
        ListId::Joined(id) => {
            let joined = joined(alloc, types, id, variants_at(shapes, id))?;
            Ok(Some(one_of(alloc, joined)?))
        }
        ListId::Branch(id, k) => match variant_at(shapes, id, k) {
            Some(variant) => { parts_of_branch(alloc, shapes, id, k, repr_at(shapes, id), variant) }
            None => Ok(None),
        },
        ListId::Fields(id, k) => match variant_at(shapes, id, k) {
            Some(variant) => Ok(Some(parts_of_fields(alloc, shapes, &variant.fields)?)),
            None => Ok(None),
        },
    }
}

/// The parts of the struct at an index.
fn parts_of_struct<'c>(
    alloc: Global,
    shapes: &'c Shapes,
    id: ShapeId,
) -> Result<Option<Vec<Part<'c>>>, AllocError>
    ensures { IfOk result (λ parts. option_map (λ ps. parts_view ps.items) parts
        ≡ spec.parts_of_struct shapes.now (kind_at shapes.now id)) }
{
    match shapes.get(id) {
        Some(shape) => match &shape.kind {
            ShapeKind::Struct { fields, .. } => Ok(Some(parts_of_fields(alloc, shapes, fields)?)),
            _ => Ok(None),
        },
        None => Ok(None),
    }
}

/// The representation of the shape at an index.
pub(crate) fn repr_at(shapes: &Shapes, id: ShapeId) -> EnumRepr<'_>
    ensures { repr_view result ≡ spec.repr_at shapes.now id }
{
    match shapes.get(id) {
        Some(shape) => EnumRepr::from_shape(shape),
        None => EnumRepr::Flattened,
    }
}

/// The parts of the branch of a variant, which stands at an index of an enum.
fn parts_of_branch<'c>(
    alloc: Global,
    shapes: &'c Shapes,
    id: ShapeId,
    k: usize,
    repr: EnumRepr<'c>,
    variant: &'c Variant,
) -> Result<Option<Vec<Part<'c>>>, AllocError>
    ensures { IfOk result (λ parts. option_map (λ ps. parts_view ps.items) parts
        ≡ spec.parts_of_branch shapes.now id k (repr_view repr.entry) variant.now) }
{
    match repr {
        EnumRepr::Flattened => parts_of_content(alloc, shapes, variant),
        EnumRepr::ExternallyTagged => {
            let content = content_member(variant.name.as_str(), true, id, k);
            Ok(Some(only(alloc, content)?))
        }
        EnumRepr::InternallyTagged { tag } => {
            let Some(mut content) = parts_of_content(alloc, shapes, variant)? else {
                return Ok(None);
            };
            let mut parts = only(alloc, tag_member(tag, variant))?;
            parts.append(&mut content)?;
            Ok(Some(parts))
        }
        EnumRepr::AdjacentlyTagged { tag, content } => {
            let required = !variant.fields.is_empty();
            let mut parts = only(alloc, tag_member(tag, variant))?;
            push(&mut parts, content_member(content, required, id, k))?;
            Ok(Some(parts))
        }
    }
}

/// The member that holds the name of a variant.
fn tag_member<'c>(tag: &'c str, variant: &'c Variant) -> Part<'c>
    ensures { part_view result ≡ spec.tag_member tag.now variant.now }
{
    Part::Member(MemberPart {
        name: tag,
        required: true,
        target: Target::Tag(variant.name.as_str()),
    })
}

/// The member that holds the content of a variant, which stands at an index of an enum.
fn content_member<'c>(name: &'c str, required: bool, id: ShapeId, k: usize) -> Part<'c>
    ensures { part_view result ≡ spec.content_member name.now required id k }
{
    Part::Member(MemberPart {
        name,
        required,
        target: Target::Content(id, k),
    })
}
