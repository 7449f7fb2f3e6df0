//! How the variants of an untagged enum read a value.
ghost use Rattle.std.specs.Prelude.{◌≡◌, map, IfOk, zero};
ghost use Rattle.std.specs.Option.{option_copied};
ghost use Rattle.facet_solver_reader.specs.Types as spec;
ghost use Rattle.facet_solver_reader.specs.Types.{last_shape};
ghost use Rattle.facet_solver_reader.specs.Views.{alternative_view, end_view, kind_view};

use super::{Alternative, AlternativeKind, End, end_of_scalar};
use crate::content::{is_unit, newtype_shape};
use crate::ends::last_of;
use crate::part::Target;
use crate::types::Types;
use facet_solver_shape::{Shape, ShapeId, ShapeKind, Shapes, Variant, is_metadata_container};
use std::alloc::{AllocError, Global};

/// How each variant of the untagged enum at an index reads a value, in their order.
pub(super) fn alternatives<'c>(
    alloc: Global,
    types: &Types<'c>,
    id: ShapeId,
    variants: &[Variant],
) -> Result<Vec<Alternative<'c>>, AllocError>
    ensures { IfOk result (λ a. map alternative_view a.items
        ≡ spec.alternatives_from types.now id zero variants.now) }
{
    let mut alternatives = Vec::new(alloc);
    for (k, variant) in variants.iter().enumerate() {
        let alternative = alternative_of(types, id, k, variant);
        if alternatives.push(alternative).is_err() {
            return Err(AllocError);
        }
    }
    Ok(alternatives)
}

/// How the variant at an index of the enum at another reads a value.
fn alternative_of<'c>(
    types: &Types<'c>,
    id: ShapeId,
    k: usize,
    variant: &Variant,
) -> Alternative<'c>
    ensures { alternative_view result ≡ spec.alternative_of types.now id k variant.now }
{
    let kind = if types.does_join(variant) {
        AlternativeKind::Joins
    } else {
        kind_by_itself(types.shapes(), variant)
    };
    Alternative {
        kind,
        content: Target::Content(id, k),
    }
}

/// How a variant that doesn't join reads a value.
fn kind_by_itself(shapes: &Shapes, variant: &Variant) -> AlternativeKind
    ensures { kind_view result ≡ spec.kind_by_itself shapes.now variant.now }
{
    if is_unit(variant) {
        return AlternativeKind::Null;
    }
    match newtype_shape(&variant.fields) {
        Some(id) => alternative_by_shape(shapes.get(last_of(shapes, id))),
        None => AlternativeKind::Other,
    }
}

/// How a variant reads a value whose single field ends in a shape. A metadata container reads any
/// value, and so does a shape that is not there.
fn alternative_by_shape(shape: Option<&Shape>) -> AlternativeKind
    ensures { kind_view result ≡ spec.alternative_by_shape (option_copied shape.entry) }
{
    match shape {
        Some(shape) if !is_metadata_container(shape) => alternative_by_kind(&shape.kind),
        _ => AlternativeKind::Fallback,
    }
}

/// How a variant reads a value whose single field ends in a kind of shape.
fn alternative_by_kind(kind: &ShapeKind) -> AlternativeKind
    ensures { kind_view result ≡ spec.alternative_by_kind kind.now }
{
    match kind {
        ShapeKind::Scalar(scalar) => alternative_by_end(&end_of_scalar(*scalar)),
        ShapeKind::Map(..) | ShapeKind::Pointer(_) | ShapeKind::DynamicValue | ShapeKind::Other =>
            AlternativeKind::Fallback,
        _ => AlternativeKind::Other,
    }
}

/// How a variant reads a value whose single field ends in a basic type.
fn alternative_by_end(end: &End<'_>) -> AlternativeKind
    ensures { kind_view result ≡ spec.alternative_by_end (end_view end.now) }
{
    match end {
        End::Whole(range) => AlternativeKind::Whole(*range),
        End::Float => AlternativeKind::Float,
        End::Anything => AlternativeKind::Fallback,
        _ => AlternativeKind::Other,
    }
}
