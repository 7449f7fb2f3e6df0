//! The readings of several values, which are products.
ghost use Rattle.std.specs.Prelude.{◌≡◌, ◌<◌, All, IfOk, length};
ghost use Rattle.facet_solver_reader.specs.Counted.{Counted};
ghost use Rattle.facet_solver_reader.specs.Nodes.{count, value_of};
ghost use Rattle.facet_solver_reader.specs.Reading.{AreSound};
ghost use Rattle.facet_solver_reader.specs.Readings.{inner};
ghost use Rattle.facet_solver_reader.specs.Rules.{a_list, a_map, a_tuple};
ghost use Rattle.facet_solver_reader.specs.Tables.{ShapeIsServed, rules_at};
ghost use Rattle.facet_solver_reader.specs.Values.{ReadsEnd};

use super::Memo;
use super::target::count_shape;
use crate::count::Count;
use crate::document::Document;
use crate::key::is_key;
use crate::nodes::Nodes;
use crate::tables::Tables;
use facet_solver_shape::ShapeId;
use std::alloc::AllocError;

/// How often the items of a list are read as a shape.
#[cycle(count)]
pub(super) fn count_items(
    tables: &Tables<'_>,
    nodes: &Nodes<'_, '_>,
    memo: &mut Memo,
    node: usize,
    shape: ShapeId,
) -> Result<Count, AllocError>
    requires sound { AreSound tables.now nodes.now memo.old.entries.items }
    requires inside { node < count nodes.now }
    requires served { ShapeIsServed tables.now shape }
    ensures sound { AreSound tables.now nodes.now memo.new.entries.items }
    ensures count { IfOk result (Counted (ReadsEnd (rules_at tables.now)
        (inner (rules_at tables.now)) (a_list shape) (value_of nodes.now node))) }
{
    let Document::List(items) = nodes.value(node) else {
        return Ok(Count::None);
    };
    let mut count = Count::One;
    for index in 0..items.len() {
        let item = nodes.child(node, index);
        let next = count_shape(tables, nodes, memo, item, shape, tables.steps)?;
        if next.is_none() {
            return Ok(Count::None);
        }
        count = count.times(next);
    }
    Ok(count)
}

/// How often the values of a list are read as the shape at their place.
#[cycle(count)]
pub(super) fn count_tuple(
    tables: &Tables<'_>,
    nodes: &Nodes<'_, '_>,
    memo: &mut Memo,
    node: usize,
    shapes: &[ShapeId],
) -> Result<Count, AllocError>
    requires sound { AreSound tables.now nodes.now memo.old.entries.items }
    requires inside { node < count nodes.now }
    requires served { All (ShapeIsServed tables.now) shapes.now }
    ensures sound { AreSound tables.now nodes.now memo.new.entries.items }
    ensures count { IfOk result (Counted (ReadsEnd (rules_at tables.now)
        (inner (rules_at tables.now)) (a_tuple shapes.now) (value_of nodes.now node))) }
{
    let Document::List(items) = nodes.value(node) else {
        return Ok(Count::None);
    };
    if items.len() != shapes.len() {
        return Ok(Count::None);
    }
    let mut count = Count::One;
    for index in 0..shapes.len() {
        let item = nodes.child(node, index);
        let next = count_shape(tables, nodes, memo, item, shapes[index], tables.steps)?;
        if next.is_none() {
            return Ok(Count::None);
        }
        count = count.times(next);
    }
    Ok(count)
}

/// How often the members of an object are read as the entries of a map.
#[cycle(count)]
pub(super) fn count_entries(
    tables: &Tables<'_>,
    nodes: &Nodes<'_, '_>,
    memo: &mut Memo,
    node: usize,
    key: ShapeId,
    value: ShapeId,
) -> Result<Count, AllocError>
    requires sound { AreSound tables.now nodes.now memo.old.entries.items }
    requires inside { node < count nodes.now }
    requires served { ShapeIsServed tables.now value }
    ensures sound { AreSound tables.now nodes.now memo.new.entries.items }
    ensures count { IfOk result (Counted (ReadsEnd (rules_at tables.now)
        (inner (rules_at tables.now)) (a_map key value) (value_of nodes.now node))) }
{
    let Document::Object(members) = nodes.value(node) else {
        return Ok(Count::None);
    };
    let mut count = Count::One;
    for index in 0..members.len() {
        if !is_key(tables.shapes, key, members[index].0) {
            return Ok(Count::None);
        }
        let member = nodes.child(node, index);
        let next = count_shape(tables, nodes, memo, member, value, tables.steps)?;
        if next.is_none() {
            return Ok(Count::None);
        }
        count = count.times(next);
    }
    Ok(count)
}
