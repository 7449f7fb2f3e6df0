//! The variants of enums.
ghost use Rattle.std.specs.Prelude.{◌≡◌};
ghost use Rattle.std.specs.Option.{option_copied};
ghost use Rattle.facet_solver_reader.specs.Types as types;
ghost use Rattle.facet_solver_reader.specs.Types.{variant_at, variants_at};

use facet_solver_shape::{ShapeId, ShapeKind, Shapes, Variant};

/// A variant of an enum, by its index.
pub(crate) fn variant_at(shapes: &Shapes, id: ShapeId, k: usize) -> Option<&Variant>
    ensures { option_copied result ≡ variant_at shapes.now id k }
{
    variants_at(shapes, id).get(k)
}

/// The variants of the enum at an index; of any other shape there are none.
pub(crate) fn variants_at(shapes: &Shapes, id: ShapeId) -> &[Variant]
    ensures { result.now ≡ variants_at shapes.now id }
{
    match shapes.get(id) {
        Some(shape) => variants_of(&shape.kind),
        None => &[],
    }
}

/// The variants of a kind of shape.
fn variants_of(kind: &ShapeKind) -> &[Variant]
    ensures { result.now ≡ types.variants_of_kind kind.now }
{
    match kind {
        ShapeKind::Enum { variants } => variants,
        _ => &[],
    }
}
