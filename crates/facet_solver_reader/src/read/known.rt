//! What is known of the values before the one at which reading stops.
ghost use Rattle.std.specs.Prelude.{◌≤◌, ◌<◌, length};
ghost use Rattle.facet_solver_reader.specs.Nodes.{children, count, value_of};
ghost use Rattle.facet_solver_reader.specs.Reading.{AreSound};
ghost use Rattle.facet_solver_reader.specs.Tables.{ShapeIsServed};
ghost use Rattle.facet_solver_reader.specs.ToldAt.{AreReadOnce};

use crate::count::{Asked, Count, Memo, is_told_at_once};
use crate::nodes::Nodes;
use crate::tables::Tables;
use facet_solver_shape::ShapeId;
use std::alloc::AllocError;

/// Keeps that so many values within one, the first of them, have one reading as a shape each. So
/// they need not be counted where it is to be told why the next has none or several.
pub(super) fn keep_read(
    tables: &Tables<'_>,
    nodes: &Nodes<'_, '_>,
    memo: &mut Memo,
    node: usize,
    shape: ShapeId,
    read: usize,
) -> Result<(), AllocError>
    requires sound { AreSound tables.now nodes.now memo.old.entries.items }
    requires inside { node < count nodes.now }
    requires served { ShapeIsServed tables.now shape }
    requires within { read ≤ length (children (value_of nodes.now node)) }
    requires once { AreReadOnce tables.now nodes.now node shape read }
    ensures { AreSound tables.now nodes.now memo.new.entries.items }
{
    if is_told_at_once(tables.end(shape)) {
        return Ok(());
    }
    let asked = Asked::Shape(shape);
    for index in 0..read {
        memo.put(nodes.child(node, index), &asked, Count::One)?;
    }
    Ok(())
}
