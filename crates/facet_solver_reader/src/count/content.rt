//! The readings of a value as the content of a variant that stands by itself.
ghost use Rattle.std.specs.Prelude.{◌<◌, IfOk, length};
ghost use Rattle.facet_solver_reader.specs.Counted.{Counted};
ghost use Rattle.facet_solver_reader.specs.Documents.{view};
ghost use Rattle.facet_solver_reader.specs.Reached.{IsRanked};
ghost use Rattle.facet_solver_reader.specs.Parts.{of_content};
ghost use Rattle.facet_solver_reader.specs.Nodes.{count};
ghost use Rattle.facet_solver_reader.specs.Reading.{AreSound, IsCount};
ghost use Rattle.facet_solver_reader.specs.Tables.{IsServed, rules_at};
ghost use Rattle.facet_solver_reader.specs.Values.{ReadsNoContent};

use super::each::count_tuple;
use super::object::count_object;
use super::target::count_shape;
use super::{Asked, Memo};
use crate::content::content_at;
use crate::count::Count;
use crate::document::Document;
use crate::end::Content;
use crate::nodes::Nodes;
use crate::tables::Tables;
use facet_solver_shape::ShapeId;
use std::alloc::AllocError;

/// How often a value is read as the content of a variant, which asks the same value on in fewer
/// than so many steps. It is found once for each value.
#[cycle(count)]
pub(super) fn count_content(
    tables: &Tables<'_>,
    nodes: &Nodes<'_, '_>,
    memo: &mut Memo,
    node: usize,
    shape: ShapeId,
    variant: usize,
    steps: usize,
) -> Result<Count, AllocError>
    requires sound { AreSound tables.now nodes.now memo.old.entries.items }
    requires inside { node < count nodes.now }
    requires served { IsServed tables.now (of_content shape variant) }
    requires ranked { IsRanked steps (rules_at tables.now) (of_content shape variant) }
    ensures sound { AreSound tables.now nodes.now memo.new.entries.items }
    ensures count { IfOk result
        (IsCount tables.now nodes.now node (of_content shape variant)) }
{
    let asked = Asked::Content(shape, variant);
    if let Some(count) = memo.get(node, &asked) {
        return Ok(count);
    }
    let count = count_by_content(tables, nodes, memo, node, shape, variant, steps)?;
    memo.put(node, &asked, count)?;
    Ok(count)
}

/// How often a value is read by what the content of a variant is.
#[cycle(count)]
fn count_by_content(
    tables: &Tables<'_>,
    nodes: &Nodes<'_, '_>,
    memo: &mut Memo,
    node: usize,
    shape: ShapeId,
    variant: usize,
    steps: usize,
) -> Result<Count, AllocError>
    requires sound { AreSound tables.now nodes.now memo.old.entries.items }
    requires inside { node < count nodes.now }
    requires served { IsServed tables.now (of_content shape variant) }
    requires ranked { IsRanked steps (rules_at tables.now) (of_content shape variant) }
    ensures sound { AreSound tables.now nodes.now memo.new.entries.items }
    ensures count { IfOk result
        (IsCount tables.now nodes.now node (of_content shape variant)) }
{
    let content = content_at(tables.alloc, tables.shapes, shape, variant)?;
    match &content {
        Content::None => Ok(count_no_content(nodes.value(node))),
        Content::Shape(inside) => count_shape(tables, nodes, memo, node, *inside, steps - 1),
        Content::Tuple(shapes) => count_tuple(tables, nodes, memo, node, shapes),
        Content::Object(list) => match nodes.value(node) {
            Document::Object(_) => count_object(tables, nodes, memo, node, *list),
            _ => Ok(Count::None),
        },
    }
}

/// How often a value is read as no content: null, or an object without members.
pub(crate) fn count_no_content(value: &Document<'_>) -> Count
    ensures { Counted (ReadsNoContent (view value.now)) result }
{
    match value {
        Document::Null => Count::One,
        Document::Object(members) => Count::from(members.is_empty()),
        _ => Count::None,
    }
}
