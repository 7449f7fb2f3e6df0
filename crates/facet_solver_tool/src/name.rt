//! The names of shapes.
ghost use Rattle.std.specs.Prelude.{◌≡◌};
ghost use Rattle.facet_solver_types.specs.ShapeViews.{shapes_view};
ghost use Rattle.facet_solver_tool.specs.ShapeNames as names;

use facet_solver_shape::{ShapeId, Shapes};

/// The name of the shape at an index, or nothing where the catalogue lacks the index.
pub fn name_at(shapes: &Shapes, id: ShapeId) -> &str
    ensures { result.now ≡ names.name_at (shapes_view shapes.now) id }
{
    match shapes.get(id) {
        Some(shape) => shape.type_identifier.as_str(),
        None => "",
    }
}
