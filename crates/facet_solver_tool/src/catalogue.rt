//! The text of a catalogue, as `./solve` takes it.
ghost use Rattle.std.specs.Prelude.{◌≡◌, IfOk, string_bytes};
ghost use Rattle.facet_solver_tool.specs.CatalogueText as texts;

mod field;
mod member;
mod shape;
mod variant;
mod word;

use facet_solver_shape::{ShapeId, Shapes};
use shape::ShapeLines;
use std::alloc::{AllocError, Global};

/// The catalogue as a text that `./solve` takes: a line for each shape, in the order of their
/// indices, and below them the index of the root and an empty document.
///
/// Enums are written as their own attributes ask for. What does not apply to a shape, a variant or
/// a field is left out.
///
/// The only error is out of memory.
pub(crate) fn catalogue(alloc: Global, shapes: &Shapes, root: ShapeId) -> Result<String, AllocError>
    ensures { IfOk result (λ text. string_bytes text ≡ texts.catalogue shapes.now root) }
{
    let lines = ShapeLines(shapes);
    let root = root.index();
    format!(in alloc;
        "{{\"shapes\": [{lines}\n],\n\"root\": {root}, \"build\": \"auto\",\n\"document\": {{}}}}"
    )
}
