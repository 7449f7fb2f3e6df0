//! What is to blame in members by their names as keys.
ghost use Rattle.std.specs.Prelude.{◌≡◌, ◌<◌, IfOk, IfSome, length};
ghost use Rattle.facet_solver_reader.specs.Documents.{Tree};
ghost use Rattle.facet_solver_reader.specs.Nodes.{count, members_in, value_of};
ghost use Rattle.facet_solver_reader.specs.Reading.{AreSound};
ghost use Rattle.facet_solver_reader.specs.Tables.{AreTables, ShapeIsServed};
ghost use Rattle.facet_solver_reader.specs.Blaming.{IsBesides, IsNext};

use super::name::shape_name;
use super::walk::{Here, Next, into};
use crate::count::{Count, Memo, members_of};
use crate::key::is_key;
use crate::nodes::Nodes;
use crate::part::Target;
use crate::read_error::Obstacle;
use crate::tables::{List, Tables};
use facet_solver_shape::ShapeId;
use std::alloc::AllocError;

/// Members that are read as entries of a map.
#[derive(Clone, Copy)]
pub(super) struct Entries<'r, 'c> {
    /// The shape of their keys.
    pub(super) key: ShapeId,
    /// The shape of their values.
    pub(super) value: ShapeId,
    /// Where a catch-all takes them: the list whose names it leaves.
    pub(super) besides: Option<&'r List<'c>>,
}

/// The first member of an object that is to blame for the count of its entries.
pub(super) fn in_entries<'c, 'd>(
    tables: &Tables<'c>,
    nodes: &Nodes<'_, 'd>,
    memo: &mut Memo,
    node: usize,
    entries: &Entries<'_, '_>,
    blame: Count,
) -> Result<Option<Next<'c, 'd>>, AllocError>
    requires sound { AreSound tables.now nodes.now memo.old.entries.items }
    requires inside { node < count nodes.now }
    requires served { ShapeIsServed tables.now entries.now.value }
    requires besides { IsBesides tables.now entries.now.besides }
    ensures sound { AreSound tables.now nodes.now memo.new.entries.items }
    ensures next { (v : Tree) → IfOk result (λ next.
        IfSome next (IsNext tables.now nodes.now blame v)) }
{
    let members = members_of(nodes.value(node));
    for index in 0..members.len() {
        let name = members[index].0;
        let next = at_entry(tables, nodes, memo, node, index, name, entries, blame)?;
        if next.is_some() {
            return Ok(next);
        }
    }
    Ok(None)
}

/// Whether a member of the name is left to others.
fn is_left(tables: &Tables<'_>, entries: &Entries<'_, '_>, name: &str) -> bool
    requires tables { AreTables tables.now }
    requires besides { IsBesides tables.now entries.now.besides }
{
    match entries.besides {
        Some(list) => list.has_name(name),
        None => false,
    }
}

/// Whether a member of an object is to blame that is not left to others: its name, which is no key, or
/// its value.
fn at_entry<'c, 'd>(
    tables: &Tables<'c>,
    nodes: &Nodes<'_, 'd>,
    memo: &mut Memo,
    node: usize,
    index: usize,
    name: &'d str,
    entries: &Entries<'_, '_>,
    blame: Count,
) -> Result<Option<Next<'c, 'd>>, AllocError>
    requires sound { AreSound tables.now nodes.now memo.old.entries.items }
    requires inside { node < count nodes.now }
    requires within { index < length (members_in (value_of nodes.now node)) }
    requires served { ShapeIsServed tables.now entries.now.value }
    requires besides { IsBesides tables.now entries.now.besides }
    ensures sound { AreSound tables.now nodes.now memo.new.entries.items }
    ensures next { (v : Tree) → IfOk result (λ next.
        IfSome next (IsNext tables.now nodes.now blame v)) }
{
    if is_left(tables, entries, name) {
        return Ok(None);
    }
    if !is_key(tables.shapes, entries.key, name) {
        let of = shape_name(tables.shapes, entries.key);
        return Ok(Some(Next::Here(Here::Stops(Obstacle::NoKey(of, name)))));
    }
    let value = nodes.child(node, index);
    into(
        tables,
        nodes,
        memo,
        value,
        &Target::Shape(entries.value),
        blame,
    )
}
