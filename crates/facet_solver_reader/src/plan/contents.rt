//! What the content of a variant comes to.
ghost use Rattle.std.specs.Prelude.{◌≡◌, All, IfOk, MatchOption, Some, map, slice_get};
ghost use Rattle.facet_solver_reader.specs.Known.{Chooses, HasChoice};
ghost use Rattle.facet_solver_reader.specs.Parts.{of_content, of_shape};
ghost use Rattle.facet_solver_reader.specs.PlanNumbers.{AreFound, AreNumbersOf, HasNumber, meaning_of, targets_of};
ghost use Rattle.facet_solver_reader.specs.Plans.{AreInPairs, IsPlannedContent};
ghost use Rattle.facet_solver_reader.specs.Tables.{AreTables, ContentIsServed, IsServed, ListIsServed, rules_at};
ghost use Rattle.facet_solver_reader.specs.Types.{content_at};
ghost use Rattle.facet_solver_reader.specs.Views.{content_view, list_view};

use super::PlannedEnd;
use super::numbers::Numbers;
use crate::content::content_at;
use crate::end::Content;
use crate::part::ListId;
use crate::tables::Tables;
use facet_solver_shape::ShapeId;
use std::alloc::{AllocError, Global};

/// What the content of a variant comes to, by the index of the enum and that of the variant.
pub(super) fn planned_content<'c>(
    alloc: Global,
    tables: &Tables<'c>,
    numbers: &Numbers<'c>,
    shape: ShapeId,
    variant: usize,
) -> Result<PlannedEnd<'c>, AllocError>
    requires tables { AreTables tables.now }
    requires numbers { AreNumbersOf tables.now numbers.now }
    requires served { IsServed tables.now (of_content shape variant) }
    ensures { IfOk result (IsPlannedContent (meaning_of tables.now numbers.now)
        (content_at tables.now.shapes.now shape variant)) }
{
    let content = content_at(alloc, tables.shapes, shape, variant)?;
    planned_of_content(alloc, tables, numbers, &content)
}

/// What content comes to.
fn planned_of_content<'c>(
    alloc: Global,
    tables: &Tables<'c>,
    numbers: &Numbers<'c>,
    content: &Content,
) -> Result<PlannedEnd<'c>, AllocError>
    requires tables { AreTables tables.now }
    requires numbers { AreNumbersOf tables.now numbers.now }
    requires served { ContentIsServed tables.now (content_view content.now) }
    ensures { IfOk result (IsPlannedContent (meaning_of tables.now numbers.now)
        (content_view content.now)) }
{
    match content {
        Content::None => Ok(PlannedEnd::Nothing),
        Content::Shape(inside) => Ok(PlannedEnd::Same(numbers.of_shape(*inside))),
        Content::Tuple(shapes) => Ok(PlannedEnd::Tuple(planned_shapes(alloc, numbers, shapes)?)),
        Content::Object(list) => Ok(PlannedEnd::Object(number_of_list(tables, *list))),
    }
}

/// The numbers of shapes.
pub(super) fn planned_shapes(
    alloc: Global,
    numbers: &Numbers<'_>,
    shapes: &[ShapeId],
) -> Result<Vec<usize>, AllocError>
    requires found { AreFound numbers.now }
    requires numbered { All (λ id. HasNumber numbers.now (of_shape id)) shapes.now }
    ensures { IfOk result (λ ns.
        AreInPairs (λ id n. slice_get (targets_of numbers.now) n ≡ Some (of_shape id))
        shapes.now ns.items) }
{
    let mut planned = Vec::with_capacity(alloc, shapes.len())?;
    for shape in shapes {
        planned.push(numbers.of_shape(*shape))?;
    }
    Ok(planned)
}

/// The number of a list of parts, if some choice has it.
pub(super) fn number_of_list(tables: &Tables<'_>, list: ListId) -> Option<usize>
    requires { ListIsServed tables.now (list_view list) }
    ensures { MatchOption result
        (HasChoice (Chooses (rules_at tables.now).lists (list_view list)) → ⊥)
        (λ n. slice_get (map (λ l. list_view l.id) tables.now.lists.items) n
        ≡ Some (list_view list)) }
{
    tables.slots.index_of(list)
}
