//! Nested key paths: those under a field's shape, and those under the content of a variant. The
//! fields that they go through are found once for each shape that walks ask for, in tables, and the
//! walks follow these from name to name.
ghost use Rattle.std.specs.Prelude.{◌≡◌};
ghost use Rattle.facet_solver.specs.build.Build.{kind_at};
ghost use Rattle.facet_solver.specs.build.Nested.{entered_view, has_fields};

pub(crate) mod by_name;
pub(crate) mod marks;
pub(crate) mod names_left;
pub(crate) mod paths;
pub(crate) mod reached;
pub(crate) mod shapes_behind;
pub(crate) mod table;
pub(crate) mod tables;

use facet_solver_shape::{ShapeId, ShapeKind, Shapes};

/// Whether a shape is of a kind that has fields: a struct or an enum.
fn has_fields(shapes: &Shapes, id: ShapeId) -> bool
    ensures { result ≡ has_fields (kind_at shapes.now id) }
{
    shapes.get(id).is_some_and(|shape| {
        matches!(
            shape.kind,
            ShapeKind::Struct { .. } | ShapeKind::Enum { .. }
        )
    })
}

/// Which shapes are entered, below a regular field and through a variant's single field `0`.
#[derive(Clone, Copy)]
pub(crate) enum Entered {
    /// Structs, and nothing else.
    StructsAlone,
    /// Every shape.
    EveryKind,
}

impl Entered {
    /// Whether a shape is entered.
    fn has(self, shapes: &Shapes, id: ShapeId) -> bool
        ensures { result ≡ entered_view self (kind_at shapes.now id) }
    {
        match self {
            Entered::StructsAlone => shapes
                .get(id)
                .is_some_and(|shape| matches!(shape.kind, ShapeKind::Struct { .. })),
            Entered::EveryKind => true,
        }
    }
}
