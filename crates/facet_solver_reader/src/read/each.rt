//! The only readings of several values.
ghost use Rattle.std.specs.Prelude.{◌≡◌, ◌++◌, ◌∷◌, ◌<◌, [], All, OnOk};
ghost use Rattle.facet_solver_reader.specs.declared.count.Count.TheVariants.{One};
ghost use Rattle.facet_solver_reader.specs.Counted.{Counted};
ghost use Rattle.facet_solver_reader.specs.Nodes.{count, value_of};
ghost use Rattle.facet_solver_reader.specs.Reading.{AreSound};
ghost use Rattle.facet_solver_reader.specs.Readings.{inner};
ghost use Rattle.facet_solver_reader.specs.Rules.{a_list, a_map, a_tuple};
ghost use Rattle.facet_solver_reader.specs.Tables.{ShapeIsServed, rules_at};
ghost use Rattle.facet_solver_reader.specs.ToldAt.{IsRead, IsToldAs};
ghost use Rattle.facet_solver_reader.specs.Values.{ReadsEnd};

use super::known::keep_read;
use super::not_one::NotOne;
use super::target::read_shape;
use crate::count::Memo;
use crate::document::Document;
use crate::key::is_key;
use crate::nodes::Nodes;
use crate::reading::{Reading, ReadingKind};
use crate::tables::Tables;
use facet_solver_shape::ShapeId;
use std::alloc::AllocError;

/// The only reading of a list as items of a shape.
#[cycle(read)]
pub(super) fn read_items<'c, 'v, 'd>(
    tables: &Tables<'c>,
    nodes: &Nodes<'v, 'd>,
    memo: &mut Memo,
    node: usize,
    shape: ShapeId,
) -> Result<Reading<'c, 'v, 'd>, NotOne>
    requires sound { AreSound tables.now nodes.now memo.old.entries.items }
    requires inside { node < count nodes.now }
    requires served { ShapeIsServed tables.now shape }
    ensures sound { AreSound tables.now nodes.now memo.new.entries.items }
    ensures told { IsRead (IsToldAs tables.now nodes.now node (a_list shape))
        (Counted (ReadsEnd (rules_at tables.now) (inner (rules_at tables.now)) (a_list shape)
        (value_of nodes.now node)) One) result }
{
    let Document::List(items) = nodes.value(node) else {
        return Err(NotOne::NoneOrSeveral);
    };
    let mut readings = Vec::with_capacity(tables.alloc, items.len())?;
    for index in 0..items.len() {
        let item = nodes.child(node, index);
        match read_shape(tables, nodes, memo, item, shape, tables.steps) {
            Ok(reading) => push(&mut readings, reading)?,
            Err(error) => {
                keep_read(tables, nodes, memo, node, shape, index)?;
                return Err(error);
            }
        }
    }
    Ok(Reading::plain(tables.alloc, ReadingKind::List(readings)))
}

/// The only reading of a list as values of the shape at their place.
#[cycle(read)]
pub(super) fn read_tuple<'c, 'v, 'd>(
    tables: &Tables<'c>,
    nodes: &Nodes<'v, 'd>,
    memo: &mut Memo,
    node: usize,
    shapes: &[ShapeId],
) -> Result<Reading<'c, 'v, 'd>, NotOne>
    requires sound { AreSound tables.now nodes.now memo.old.entries.items }
    requires inside { node < count nodes.now }
    requires served { All (ShapeIsServed tables.now) shapes.now }
    ensures sound { AreSound tables.now nodes.now memo.new.entries.items }
    ensures told { IsRead (IsToldAs tables.now nodes.now node (a_tuple shapes.now))
        (Counted (ReadsEnd (rules_at tables.now) (inner (rules_at tables.now))
        (a_tuple shapes.now) (value_of nodes.now node)) One) result }
{
    let Document::List(items) = nodes.value(node) else {
        return Err(NotOne::NoneOrSeveral);
    };
    if shapes.len() != items.len() {
        return Err(NotOne::NoneOrSeveral);
    }
    let mut readings = Vec::with_capacity(tables.alloc, shapes.len())?;
    for index in 0..shapes.len() {
        let item = nodes.child(node, index);
        let reading = read_shape(tables, nodes, memo, item, shapes[index], tables.steps)?;
        push(&mut readings, reading)?;
    }
    Ok(Reading::plain(tables.alloc, ReadingKind::List(readings)))
}

/// The only reading of an object as the entries of a map.
#[cycle(read)]
pub(super) fn read_entries<'c, 'v, 'd>(
    tables: &Tables<'c>,
    nodes: &Nodes<'v, 'd>,
    memo: &mut Memo,
    node: usize,
    key: ShapeId,
    value: ShapeId,
) -> Result<Reading<'c, 'v, 'd>, NotOne>
    requires sound { AreSound tables.now nodes.now memo.old.entries.items }
    requires inside { node < count nodes.now }
    requires served { ShapeIsServed tables.now value }
    ensures sound { AreSound tables.now nodes.now memo.new.entries.items }
    ensures told { IsRead (IsToldAs tables.now nodes.now node (a_map key value))
        (Counted (ReadsEnd (rules_at tables.now) (inner (rules_at tables.now)) (a_map key value)
        (value_of nodes.now node)) One) result }
{
    let Document::Object(members) = nodes.value(node) else {
        return Err(NotOne::NoneOrSeveral);
    };
    let mut names = Vec::with_capacity(tables.alloc, members.len())?;
    let mut values = Vec::with_capacity(tables.alloc, members.len())?;
    for index in 0..members.len() {
        let name = members[index].0;
        if !is_key(tables.shapes, key, name) {
            return Err(NotOne::NoneOrSeveral);
        }
        names.push(name)?;
        let member = nodes.child(node, index);
        match read_shape(tables, nodes, memo, member, value, tables.steps) {
            Ok(reading) => push(&mut values, reading)?,
            Err(error) => {
                keep_read(tables, nodes, memo, node, value, index)?;
                return Err(error);
            }
        }
    }
    Ok(Reading::plain(tables.alloc, ReadingKind::Map { names, values }))
}

/// Adds a reading at the end.
pub(super) fn push<'c, 'v, 'd>(
    readings: &mut Vec<Reading<'c, 'v, 'd>>,
    reading: Reading<'c, 'v, 'd>,
) -> Result<(), AllocError>
    ensures { OnOk result
        (readings.new.items ≡ readings.old.items ++ reading.entry ∷ []) }
{
    match readings.push(reading) {
        Ok(()) => Ok(()),
        Err(_) => Err(AllocError),
    }
}
