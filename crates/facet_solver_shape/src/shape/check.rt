//! The test of one shape of a list.
ghost use Rattle.std.specs.Prelude.{◌<◌, length, OnOk, IfErr};
ghost use Rattle.facet_solver_shape.specs.Catalogues.{IsFaultlessAt, IsLowestFaultAt};
ghost use Rattle.facet_solver_shape.specs.Pointers.{NeverEnds, EndsBelow};

mod indices;
mod names;
mod pointers;
mod stretch;

use super::{CatalogueError, Shape, ShapeId};
use indices::{names_early_from, names_past};
use names::{repeats_field_name, repeats_variant_name};
pub(super) use pointers::later_pointee;
use pointers::never_ends;

/// Gives the fault of lowest number that the shape at one index of a list has, where pointees
/// followed from all earlier indices and from `ending` come to an end.
pub(super) fn check_shape(
    shapes: &[Shape],
    index: usize,
    ending: ShapeId,
) -> Result<(), CatalogueError>
    requires inside { index < length shapes.now }
    requires earlier { EndsBelow shapes.now index }
    requires known { ¬ NeverEnds shapes.now ending }
    ensures faultless { OnOk result (IsFaultlessAt shapes.now index) }
    ensures faulty { IfErr result (IsLowestFaultAt shapes.now index) }
{
    let shape = &shapes[index];
    if names_past(shape, shapes.len()) {
        return Err(CatalogueError::OutOfRange { shape: index });
    }
    if names_early_from(shape, index) {
        return Err(CatalogueError::NotEarlier { shape: index });
    }
    if never_ends(shapes, index, ending) {
        return Err(CatalogueError::PointerCycle { shape: index });
    }
    if repeats_field_name(&shape.kind) {
        return Err(CatalogueError::DuplicateFieldName { shape: index });
    }
    if repeats_variant_name(&shape.kind) {
        return Err(CatalogueError::DuplicateVariantName { shape: index });
    }
    Ok(())
}
