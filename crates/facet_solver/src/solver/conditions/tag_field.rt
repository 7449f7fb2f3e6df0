//! Whether a resolution has a field that holds the tag of an enum.
ghost use Rattle.std.specs.Prelude.{◌≡◌};
ghost use Rattle.std.specs.List.{list_any};
ghost use Rattle.facet_solver.specs.solver.State.{has_tag_alone, has_tag_field, is_tag_field};

use crate::solver::conditions::Test;
use facet_solver_shape::{FieldInfo, FieldKey, Resolution, Shape, Shapes};
use std::collections::BTreeMap;

/// Whether a resolution has a field of a name whose shape has that name as its tag, and no content
/// beside it.
#[derive(Clone, Copy)]
pub(crate) struct HasTagField<'c, 't> {
    pub(crate) shapes: &'c Shapes,
    pub(crate) tag: &'t str,
}

impl Test for HasTagField<'_, '_> {
    ghost is_passed = { λ t. has_tag_field t.shapes.now t.tag.now };

    fn is_passed(&self, resolution: &Resolution<'_>) -> bool {
        has_tag_field(resolution, self.shapes, self.tag)
    }
}

fn has_tag_field(resolution: &Resolution<'_>, shapes: &Shapes, tag: &str) -> bool
    ensures { result ≡ has_tag_field shapes.now tag.now resolution.now }
{
    have_tag_field(resolution.fields(), shapes, tag)
}

fn have_tag_field(
    fields: &BTreeMap<FieldKey<'_>, FieldInfo<'_>>,
    shapes: &Shapes,
    tag: &str,
) -> bool
    ensures { result
        ≡ list_any (λ e. is_tag_field shapes.now tag.now e.1) fields.now.entries }
{
    for (_, field) in fields {
        if is_tag_field(field, shapes, tag) {
            return true;
        }
    }
    false
}

fn is_tag_field(field: &FieldInfo<'_>, shapes: &Shapes, tag: &str) -> bool
    ensures { result ≡ is_tag_field shapes.now tag.now field.now }
{
    if field.serialized_name != tag {
        return false;
    }
    match shapes.get(field.value_shape) {
        Some(shape) => has_tag_alone(shape, tag),
        None => false,
    }
}

fn has_tag_alone(shape: &Shape, tag: &str) -> bool
    ensures { result ≡ has_tag_alone tag.now shape.now }
{
    match (&shape.tag, &shape.content) {
        (Some(name), None) => name.as_str() == tag,
        _ => false,
    }
}
