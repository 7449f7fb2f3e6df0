//! Whether pointees can be followed without end.
ghost use Rattle.std.specs.Prelude.{◌≡◌, ◌↔◌, IsTrue, IfSome, Some};
ghost use Rattle.facet_solver_shape.specs.Pointers.{pointee_at, NeverEnds, EndsBelow};

use crate::shape::{Shape, ShapeId};

/// Whether the way of pointees from an index has no end, where those from all earlier indices and
/// from `ending` have one. A way as long as the list that leads on has come to an index again, so
/// no more steps are to be made.
pub(super) fn never_ends(shapes: &[Shape], index: usize, ending: ShapeId) -> bool
    requires earlier { EndsBelow shapes.now index }
    requires known { ¬ NeverEnds shapes.now ending }
    ensures { IsTrue result ↔ NeverEnds shapes.now index }
{
    let mut here = ShapeId::new(index);
    for _ in 0..shapes.len() {
        if here.index() < index || here == ending {
            return false;
        }
        match pointee_at(shapes, here) {
            Some(next) => here = next,
            None => return false,
        }
    }
    pointee_at(shapes, here).is_some()
}

/// Where the pointer at an index leads to, if that comes later.
pub(crate) fn later_pointee(shapes: &[Shape], index: usize) -> Option<ShapeId>
    ensures { IfSome result (λ next. pointee_at shapes.now index ≡ Some next) }
{
    pointee_at(shapes, ShapeId::new(index)).filter(|next| index < next.index())
}

/// Where the shape at an index leads to.
fn pointee_at(shapes: &[Shape], id: ShapeId) -> Option<ShapeId>
    ensures { result ≡ pointee_at shapes.now id }
{
    shapes.get(id.index())?.pointee()
}
