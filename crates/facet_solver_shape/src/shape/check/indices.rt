//! Whether the indices that a shape names are low enough.
ghost use Rattle.std.specs.Prelude.{◌≡◌, nat_le};
ghost use Rattle.std.specs.List.{list_any};
ghost use Rattle.facet_solver_shape.specs.Catalogues.{early_indices, early_indices_of_kind, late_indices_of_kind, named_indices};

use crate::shape::{Field, Shape, ShapeKind, Variant};

/// Whether some index that the shape names is past `count` indices.
pub(super) fn names_past(shape: &Shape, count: usize) -> bool
    ensures { result ≡ list_any (λ p. nat_le count p) (named_indices shape.now) }
{
    names_early_from(shape, count) || kind_names_late_from(&shape.kind, count)
}

/// Whether some index that has to be an earlier one isn't below `low`.
pub(super) fn names_early_from(shape: &Shape, low: usize) -> bool
    ensures { result ≡ list_any (λ p. nat_le low p) (early_indices shape.now) }
{
    kind_names_early_from(&shape.kind, low)
        || shape.inner.is_some_and(|id| low <= id.index())
        || shape.proxy.is_some_and(|id| low <= id.index())
}

fn kind_names_early_from(kind: &ShapeKind, low: usize) -> bool
    ensures { result ≡ list_any (λ p. nat_le low p) (early_indices_of_kind kind.now) }
{
    match kind {
        ShapeKind::Struct { fields, .. } => fields_name_from(fields, low),
        ShapeKind::Enum { variants } => variants_name_from(variants, low),
        ShapeKind::Option(inside) => low <= inside.index(),
        _ => false,
    }
}

/// Whether some index that may be any isn't below `low`.
fn kind_names_late_from(kind: &ShapeKind, low: usize) -> bool
    ensures { result ≡ list_any (λ p. nat_le low p) (late_indices_of_kind kind.now) }
{
    match kind {
        ShapeKind::Pointer(pointee) => pointee.is_some_and(|id| low <= id.index()),
        ShapeKind::List(item)
        | ShapeKind::Array(item)
        | ShapeKind::Slice(item)
        | ShapeKind::Set(item) => low <= item.index(),
        ShapeKind::Map(key, value) => low <= key.index() || low <= value.index(),
        _ => false,
    }
}

fn fields_name_from(fields: &[Field], low: usize) -> bool
    ensures { result ≡ list_any (λ f. nat_le low f.shape) fields.now }
{
    fields.iter().any(|f| low <= f.shape.index())
}

fn variants_name_from(variants: &[Variant], low: usize) -> bool
    ensures { result
        ≡ list_any (λ v. list_any (λ f. nat_le low f.shape) v.fields.items) variants.now }
{
    variants.iter().any(|v| fields_name_from(&v.fields, low))
}
