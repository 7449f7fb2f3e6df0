//! The only reading of a value as the content of a variant that stands by itself.
ghost use Rattle.std.specs.Prelude.{◌<◌};
ghost use Rattle.facet_solver_reader.specs.declared.count.Count.TheVariants.{One};
ghost use Rattle.facet_solver_reader.specs.Nodes.{count};
ghost use Rattle.facet_solver_reader.specs.Parts.{of_content};
ghost use Rattle.facet_solver_reader.specs.Reached.{IsRanked};
ghost use Rattle.facet_solver_reader.specs.Reading.{AreSound, IsCount};
ghost use Rattle.facet_solver_reader.specs.Tables.{IsServed, rules_at};
ghost use Rattle.facet_solver_reader.specs.ToldAt.{IsRead, IsToldAt};

use super::each::read_tuple;
use super::not_one::NotOne;
use super::object::read_object;
use super::target::{as_counted, read_shape};
use crate::content::content_at;
use crate::count::{Memo, count_no_content};
use crate::document::Document;
use crate::end::Content;
use crate::nodes::Nodes;
use crate::reading::Reading;
use crate::tables::Tables;
use facet_solver_shape::ShapeId;

/// The only reading of a value as the content of a variant, which asks the same value on in fewer
/// than so many steps.
#[cycle(read)]
pub(super) fn read_content<'c, 'v, 'd>(
    tables: &Tables<'c>,
    nodes: &Nodes<'v, 'd>,
    memo: &mut Memo,
    node: usize,
    shape: ShapeId,
    variant: usize,
    steps: usize,
) -> Result<Reading<'c, 'v, 'd>, NotOne>
    requires sound { AreSound tables.now nodes.now memo.old.entries.items }
    requires inside { node < count nodes.now }
    requires served { IsServed tables.now (of_content shape variant) }
    requires ranked { IsRanked steps (rules_at tables.now) (of_content shape variant) }
    ensures sound { AreSound tables.now nodes.now memo.new.entries.items }
    ensures told { IsRead (IsToldAt tables.now nodes.now node (of_content shape variant))
        (IsCount tables.now nodes.now node (of_content shape variant) One) result }
{
    let content = content_at(tables.alloc, tables.shapes, shape, variant)?;
    match &content {
        Content::None => {
            let value = nodes.value(node);
            as_counted(tables, value, count_no_content(value))
        }
        Content::Shape(inside) => read_shape(tables, nodes, memo, node, *inside, steps - 1),
        Content::Tuple(shapes) => read_tuple(tables, nodes, memo, node, shapes),
        Content::Object(list) => match nodes.value(node) {
            Document::Object(_) => read_object(tables, nodes, memo, node, *list),
            _ => Err(NotOne::NoneOrSeveral),
        },
    }
}
