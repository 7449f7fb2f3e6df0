//! The readings of a value as a target.
ghost use Rattle.std.specs.Prelude.{◌≡◌, ◌<◌, IfOk, length};
ghost use Rattle.facet_solver_reader.specs.Nodes.{count};
ghost use Rattle.facet_solver_reader.specs.Reading.{AreSound, IsCount};
ghost use Rattle.facet_solver_reader.specs.Counted.{Counted};
ghost use Rattle.facet_solver_reader.specs.Reached.{IsRanked};
ghost use Rattle.facet_solver_reader.specs.Documents.{view};
ghost use Rattle.facet_solver_reader.specs.Parts.{of_shape};
ghost use Rattle.facet_solver_reader.specs.Tables.{IsEnd, IsServed, ShapeIsServed, rules_at};
ghost use Rattle.facet_solver_reader.specs.Values.{ReadsTag};
ghost use Rattle.facet_solver_reader.specs.Views.{target_view};

use super::content::count_content;
use super::each::{count_entries, count_items, count_tuple};
use super::object::count_object;
use super::scalar::{count_scalar, is_told_at_once};
use super::untagged::count_untagged;
use super::variant::count_named;
use super::{Asked, Memo};
use crate::count::Count;
use crate::document::Document;
use crate::end::End;
use crate::nodes::Nodes;
use crate::part::Target;
use crate::tables::Tables;
use facet_solver_shape::ShapeId;
use std::alloc::AllocError;

/// How often a value is read as a target, which asks the same value on in fewer than so many steps.
#[cycle(count)]
pub(crate) fn count_target(
    tables: &Tables<'_>,
    nodes: &Nodes<'_, '_>,
    memo: &mut Memo,
    node: usize,
    target: &Target<'_>,
    steps: usize,
) -> Result<Count, AllocError>
    requires sound { AreSound tables.now nodes.now memo.old.entries.items }
    requires inside { node < count nodes.now }
    requires served { IsServed tables.now (target_view target.now) }
    requires ranked { IsRanked steps (rules_at tables.now) (target_view target.now) }
    ensures sound { AreSound tables.now nodes.now memo.new.entries.items }
    ensures count { IfOk result
        (IsCount tables.now nodes.now node (target_view target.now)) }
{
    match target {
        Target::Shape(shape) => count_shape(tables, nodes, memo, node, *shape, steps),
        Target::Content(shape, variant) => {
            count_content(tables, nodes, memo, node, *shape, *variant, steps)
        }
        Target::Tag(name) => Ok(count_tag(nodes.value(node), name)),
    }
}

/// How often a value is the text of a tag.
pub(crate) fn count_tag(value: &Document<'_>, name: &str) -> Count
    ensures { Counted (ReadsTag name.now (view value.now)) result }
{
    match value {
        Document::Text(text) if *text == name => Count::One,
        _ => Count::None,
    }
}

/// How often a value is read as a shape. Where that is not told at once, it is found once for each
/// value.
#[cycle(count)]
pub(crate) fn count_shape(
    tables: &Tables<'_>,
    nodes: &Nodes<'_, '_>,
    memo: &mut Memo,
    node: usize,
    shape: ShapeId,
    steps: usize,
) -> Result<Count, AllocError>
    requires sound { AreSound tables.now nodes.now memo.old.entries.items }
    requires inside { node < count nodes.now }
    requires served { ShapeIsServed tables.now shape }
    requires ranked { IsRanked steps (rules_at tables.now) (of_shape shape) }
    ensures sound { AreSound tables.now nodes.now memo.new.entries.items }
    ensures count { IfOk result (IsCount tables.now nodes.now node (of_shape shape)) }
{
    let end = tables.end(shape);
    if is_told_at_once(end) {
        return count_end(tables, nodes, memo, node, shape, end, steps);
    }
    let asked = Asked::Shape(shape);
    if let Some(count) = memo.get(node, &asked) {
        return Ok(count);
    }
    let count = count_end(tables, nodes, memo, node, shape, end, steps)?;
    memo.put(node, &asked, count)?;
    Ok(count)
}

/// How often a value is read by what a shape comes to.
#[cycle(count)]
fn count_end(
    tables: &Tables<'_>,
    nodes: &Nodes<'_, '_>,
    memo: &mut Memo,
    node: usize,
    shape: ShapeId,
    end: &End<'_>,
    steps: usize,
) -> Result<Count, AllocError>
    requires sound { AreSound tables.now nodes.now memo.old.entries.items }
    requires inside { node < count nodes.now }
    requires end { IsEnd tables.now shape end.now }
    requires ranked { IsRanked steps (rules_at tables.now) (of_shape shape) }
    ensures sound { AreSound tables.now nodes.now memo.new.entries.items }
    ensures count { IfOk result (IsCount tables.now nodes.now node (of_shape shape)) }
{
    match end {
        End::Option(inside) => match nodes.value(node) {
            Document::Null => Ok(Count::One),
            _ => count_shape(tables, nodes, memo, node, *inside, steps - 1),
        },
        End::List(item) => count_items(tables, nodes, memo, node, *item),
        End::Tuple(shapes) => count_tuple(tables, nodes, memo, node, shapes),
        End::Map(key, value) => count_entries(tables, nodes, memo, node, *key, *value),
        End::Object(list) => match nodes.value(node) {
            Document::Object(_) => count_object(tables, nodes, memo, node, *list),
            _ => Ok(Count::None),
        },
        End::NamedVariant(variants) => count_named(tables, nodes, memo, node, variants),
        End::UntaggedVariant(joined, alone) => {
            count_untagged(tables, nodes, memo, node, *joined, alone, steps)
        }
        _ => Ok(count_scalar(end, nodes.value(node))),
    }
}
