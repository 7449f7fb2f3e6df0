//! Where shapes come to: by what they stand for, and by pointers.
ghost use Rattle.std.specs.Prelude.{◌≡◌, ◌↔◌, IsTrue, false};
ghost use Rattle.facet_solver_shape.specs.Pointers.{pointee_of_kind};
ghost use Rattle.facet_solver_reader.specs.Ends.{next_of, next_at, last_of, IsLastOf, LeadsInCircles};

use facet_solver_shape::{Shape, ShapeId, ShapeKind, Shapes};

/// The shape at which the way from another ends, by what each stands for, its proxy, or what it
/// points to. No way that ends has more steps than there are shapes.
pub(crate) fn last_of(shapes: &Shapes, id: ShapeId) -> ShapeId
    ensures { result ≡ last_of shapes.now id }
{
    let mut last = id;
    for _ in 0..shapes.len() {
        match next_at(shapes, last) {
            Some(next) => last = next,
            None => return last,
        }
    }
    last
}

/// Whether the way from a shape never ends: it still leads on after as many steps as there are
/// shapes.
pub(crate) fn leads_in_circles(shapes: &Shapes, id: ShapeId) -> bool
    ensures value { IsTrue result ↔ LeadsInCircles shapes.now id }
    ensures ends { result ≡ false → IsLastOf shapes.now id (last_of shapes.now id) }
{
    next_at(shapes, last_of(shapes, id)).is_some()
}

/// Where the shape at an index leads.
fn next_at(shapes: &Shapes, id: ShapeId) -> Option<ShapeId>
    ensures { result ≡ next_at shapes.now id }
{
    next_of(shapes.get(id)?)
}

/// Where a shape leads: to the shape that it stands for, to its proxy, or to what it points to.
fn next_of(shape: &Shape) -> Option<ShapeId>
    ensures { result ≡ next_of shape.now }
{
    shape.inner.or(shape.proxy).or(pointee_of(&shape.kind))
}

/// Where a pointer leads.
fn pointee_of(kind: &ShapeKind) -> Option<ShapeId>
    ensures { result ≡ pointee_of_kind kind.now }
{
    match kind {
        ShapeKind::Pointer(pointee) => *pointee,
        _ => None,
    }
}
