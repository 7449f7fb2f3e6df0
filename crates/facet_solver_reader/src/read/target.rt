//! The only reading of a value as a target.
ghost use Rattle.std.specs.Prelude.{◌≡◌, ◌<◌};
ghost use Rattle.facet_solver_reader.specs.declared.count.Count.TheVariants.{One};
ghost use Rattle.facet_solver_reader.specs.Nodes.{count};
ghost use Rattle.facet_solver_reader.specs.Parts.{of_shape};
ghost use Rattle.facet_solver_reader.specs.Reached.{IsRanked};
ghost use Rattle.facet_solver_reader.specs.Reading.{AreSound, IsCount};
ghost use Rattle.facet_solver_reader.specs.Tables.{IsEnd, IsServed, ShapeIsServed, rules_at};
ghost use Rattle.facet_solver_reader.specs.ToldAt.{IsAsItIs, IsRead, IsToldAt};
ghost use Rattle.facet_solver_reader.specs.Views.{target_view};

use super::content::read_content;
use super::each::{read_entries, read_items, read_tuple};
use super::not_one::NotOne;
use super::object::read_object;
use super::untagged::read_untagged;
use super::variant::read_named;
use crate::count::{Count, Memo, count_scalar, count_tag};
use crate::document::Document;
use crate::end::End;
use crate::nodes::Nodes;
use crate::part::Target;
use crate::reading::Reading;
use crate::tables::Tables;
use facet_solver_shape::ShapeId;

/// The only reading of a value as a target, which asks the same value on in fewer than so many
/// steps.
#[cycle(read)]
pub(crate) fn read_target<'c, 'v, 'd>(
    tables: &Tables<'c>,
    nodes: &Nodes<'v, 'd>,
    memo: &mut Memo,
    node: usize,
    target: &Target<'c>,
    steps: usize,
) -> Result<Reading<'c, 'v, 'd>, NotOne>
    requires sound { AreSound tables.now nodes.now memo.old.entries.items }
    requires inside { node < count nodes.now }
    requires served { IsServed tables.now (target_view target.now) }
    requires ranked { IsRanked steps (rules_at tables.now) (target_view target.now) }
    ensures sound { AreSound tables.now nodes.now memo.new.entries.items }
    ensures told { IsRead (IsToldAt tables.now nodes.now node (target_view target.now))
        (IsCount tables.now nodes.now node (target_view target.now) One) result }
{
    match target {
        Target::Shape(shape) => read_shape(tables, nodes, memo, node, *shape, steps),
        Target::Content(shape, variant) => {
            read_content(tables, nodes, memo, node, *shape, *variant, steps)
        }
        Target::Tag(name) => {
            let value = nodes.value(node);
            as_counted(tables, value, count_tag(value, name))
        }
    }
}

/// The only reading of a value as a shape.
#[cycle(read)]
pub(super) fn read_shape<'c, 'v, 'd>(
    tables: &Tables<'c>,
    nodes: &Nodes<'v, 'd>,
    memo: &mut Memo,
    node: usize,
    shape: ShapeId,
    steps: usize,
) -> Result<Reading<'c, 'v, 'd>, NotOne>
    requires sound { AreSound tables.now nodes.now memo.old.entries.items }
    requires inside { node < count nodes.now }
    requires served { ShapeIsServed tables.now shape }
    requires ranked { IsRanked steps (rules_at tables.now) (of_shape shape) }
    ensures sound { AreSound tables.now nodes.now memo.new.entries.items }
    ensures told { IsRead (IsToldAt tables.now nodes.now node (of_shape shape))
        (IsCount tables.now nodes.now node (of_shape shape) One) result }
{
    read_end(tables, nodes, memo, node, shape, tables.end(shape), steps)
}

/// The only reading of a value by what a shape comes to.
#[cycle(read)]
fn read_end<'c, 'v, 'd>(
    tables: &Tables<'c>,
    nodes: &Nodes<'v, 'd>,
    memo: &mut Memo,
    node: usize,
    shape: ShapeId,
    end: &End<'c>,
    steps: usize,
) -> Result<Reading<'c, 'v, 'd>, NotOne>
    requires sound { AreSound tables.now nodes.now memo.old.entries.items }
    requires inside { node < count nodes.now }
    requires end { IsEnd tables.now shape end.now }
    requires ranked { IsRanked steps (rules_at tables.now) (of_shape shape) }
    ensures sound { AreSound tables.now nodes.now memo.new.entries.items }
    ensures told { IsRead (IsToldAt tables.now nodes.now node (of_shape shape))
        (IsCount tables.now nodes.now node (of_shape shape) One) result }
{
    match end {
        End::Option(inside) => match nodes.value(node) {
            Document::Null => Ok(Reading::as_it_is(tables.alloc, nodes.value(node))),
            _ => read_shape(tables, nodes, memo, node, *inside, steps - 1),
        },
        End::List(item) => read_items(tables, nodes, memo, node, *item),
        End::Tuple(shapes) => read_tuple(tables, nodes, memo, node, shapes),
        End::Map(key, value) => read_entries(tables, nodes, memo, node, *key, *value),
        End::Object(list) => match nodes.value(node) {
            Document::Object(_) => read_object(tables, nodes, memo, node, *list),
            _ => Err(NotOne::NoneOrSeveral),
        },
        End::NamedVariant(variants) => read_named(tables, nodes, memo, node, variants),
        End::UntaggedVariant(joined, alone) => {
            read_untagged(tables, nodes, memo, node, joined, alone, steps)
        }
        _ => {
            let value = nodes.value(node);
            as_counted(tables, value, count_scalar(end, value))
        }
    }
}

/// A value as it is, if it is read so.
pub(super) fn as_counted<'c, 'v, 'd>(
    tables: &Tables<'c>,
    value: &'v Document<'d>,
    count: Count,
) -> Result<Reading<'c, 'v, 'd>, NotOne>
    ensures { IsRead (IsAsItIs value.entry) (count ≡ One) result }
{
    match count {
        Count::One => Ok(Reading::as_it_is(tables.alloc, value)),
        _ => Err(NotOne::NoneOrSeveral),
    }
}
