//! The names of what a plan has.
ghost use Rattle.facet_solver_reader.specs.Plans.{IsNameOf, IsNameOfList, IsTypeName, IsVariantName};
ghost use Rattle.facet_solver_reader.specs.TargetKeys.{key_view};
ghost use Rattle.facet_solver_reader.specs.Views.{list_view};

use super::target_key::TargetKey;
use crate::field_at::{shape_name, variant_name};
use crate::part::ListId;
use crate::read_error::TypeName;
use facet_solver_shape::{ShapeId, Shapes};

/// The name of what a target is.
pub(super) fn name_of<'c>(shapes: &'c Shapes, target: &TargetKey<'c>) -> TypeName<'c>
    ensures { IsNameOf shapes.now (key_view target.now) result }
{
    match target {
        TargetKey::Shape(id) => name_of_shape(shapes, ShapeId::new(*id)),
        TargetKey::Content(id, variant) => name_of_variant(shapes, ShapeId::new(*id), *variant),
        TargetKey::Tag(name) => TypeName {
            name,
            variant: None,
        },
    }
}

/// The name of the type or variant that a list is of.
pub(super) fn name_of_list(shapes: &Shapes, id: ListId) -> TypeName<'_>
    ensures { IsNameOfList shapes.now (list_view id) result }
{
    match id {
        ListId::Branch(shape, variant) | ListId::Fields(shape, variant) => {
            name_of_variant(shapes, shape, variant)
        }
        ListId::Struct(shape) | ListId::Enum(shape) | ListId::Joined(shape) => {
            name_of_shape(shapes, shape)
        }
    }
}

/// The name of the shape at an index.
fn name_of_shape(shapes: &Shapes, id: ShapeId) -> TypeName<'_>
    ensures { IsTypeName shapes.now id result }
{
    TypeName {
        name: shape_name(shapes, id),
        variant: None,
    }
}

/// The name of a variant of the enum at an index.
fn name_of_variant(shapes: &Shapes, id: ShapeId, variant: usize) -> TypeName<'_>
    ensures { IsVariantName shapes.now id variant result }
{
    TypeName {
        name: shape_name(shapes, id),
        variant: Some(variant_name(shapes, id, variant)),
    }
}
