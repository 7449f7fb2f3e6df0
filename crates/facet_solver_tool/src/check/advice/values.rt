//! Which types have a value. A struct that must hold one of its own type has none.

use super::optional::OptionalField;
use facet_solver_shape::{Field, ShapeId, ShapeKind, Shapes, is_required};
use std::alloc::{AllocError, Global};

/// Whether there are values of the structs and variants of a catalogue that have fields.
pub(super) fn have_values(
    alloc: Global,
    shapes: &Shapes,
    fields: &[OptionalField<'_>],
) -> Result<bool, AllocError> {
    let with_value = with_value(alloc, shapes)?;
    for field in fields {
        if !fields_have(shapes, &with_value, field.all_fields(shapes)) {
            return Ok(false);
        }
    }
    Ok(true)
}

/// For each shape of a catalogue, by its index, whether it has a value.
fn with_value(alloc: Global, shapes: &Shapes) -> Result<Vec<bool>, AllocError> {
    let mut with_value = vec![in alloc; false; shapes.len()]?;
    for _ in 0..shapes.len() {
        if !add_more(shapes, &mut with_value) {
            break;
        }
    }
    Ok(with_value)
}

/// Adds the shapes that have a value, by those that are known to have one; and tells whether there
/// is one more.
fn add_more(shapes: &Shapes, with_value: &mut [bool]) -> bool {
    let mut is_more = false;
    for index in 0..with_value.len() {
        if !with_value[index] && shape_has(shapes, with_value, ShapeId::new(index)) {
            with_value[index] = true;
            is_more = true;
        }
    }
    is_more
}

/// Whether the shape at an index has a value, by those that are known to have one.
fn shape_has(shapes: &Shapes, with_value: &[bool], id: ShapeId) -> bool {
    let Some(shape) = shapes.get(id) else {
        return false;
    };
    if let Some(next) = shape.inner.or(shape.proxy) {
        return is_known(with_value, next);
    }
    match &shape.kind {
        ShapeKind::Struct { fields, .. } => fields_have(shapes, with_value, fields),
        ShapeKind::Enum { variants } => variants
            .iter()
            .any(|variant| fields_have(shapes, with_value, &variant.fields)),
        ShapeKind::Pointer(Some(pointee)) => is_known(with_value, *pointee),
        _ => true,
    }
}

/// Whether those of some fields have values that are required.
fn fields_have(shapes: &Shapes, with_value: &[bool], fields: &[Field]) -> bool {
    fields.iter().all(|field| !is_required(shapes, field) || is_known(with_value, field.shape))
}

/// Whether the shape at an index is known to have a value.
fn is_known(with_value: &[bool], id: ShapeId) -> bool {
    with_value.get(id.index()).copied().unwrap_or(false)
}
