//! The readings of the members of no known name by a catch-all.
ghost use Rattle.std.specs.Prelude.{◌≡◌, ◌<◌, IfOk, Some, length, slice_get};
ghost use Rattle.facet_solver_reader.specs.Counted.{Counted};
ghost use Rattle.facet_solver_reader.specs.Documents.{Member};
ghost use Rattle.facet_solver_reader.specs.Nodes.{count, members_in, value_of};
ghost use Rattle.facet_solver_reader.specs.Objects.{Takes};
ghost use Rattle.facet_solver_reader.specs.Parts.{a_catch_all};
ghost use Rattle.facet_solver_reader.specs.Reading.{AreSound, IsObject, IsPartCount};
ghost use Rattle.facet_solver_reader.specs.Readings.{ReadsValue};
ghost use Rattle.facet_solver_reader.specs.Tables.{PartIsServed, rules_at};
ghost use Rattle.facet_solver_reader.specs.Views.{catch_all_view};

use super::Memo;
use super::members::members_of;
use super::object::Object;
use super::target::count_shape;
use crate::count::Count;
use crate::key::is_key;
use crate::nodes::Nodes;
use crate::part::CatchAll;
use crate::tables::Tables;
use std::alloc::AllocError;

/// How often an object is read by a catch-all.
#[cycle(count)]
pub(super) fn count_catch_all(
    tables: &Tables<'_>,
    nodes: &Nodes<'_, '_>,
    memo: &mut Memo,
    object: &Object<'_, '_>,
    catch_all: &CatchAll,
) -> Result<Count, AllocError>
    requires sound { AreSound tables.now nodes.now memo.old.entries.items }
    requires object { IsObject tables.now nodes.now object.now }
    requires served { PartIsServed tables.now (a_catch_all (catch_all_view catch_all.now)) }
    ensures sound { AreSound tables.now nodes.now memo.new.entries.items }
    ensures count { IfOk result
        (IsPartCount tables.now nodes.now object.now (a_catch_all (catch_all_view catch_all.now))) }
{
    if !object.takes {
        return Ok(Count::None);
    }
    let members = members_of(nodes.value(object.node));
    let mut count = Count::One;
    for index in 0..members.len() {
        let name = members[index].0;
        if !object.list.has_name(name) {
            let next = count_taken(tables, nodes, memo, object.node, index, name, catch_all)?;
            if next.is_none() {
                return Ok(Count::None);
            }
            count = count.times(next);
        }
    }
    Ok(count)
}

/// How often a member is taken.
#[cycle(count)]
fn count_taken(
    tables: &Tables<'_>,
    nodes: &Nodes<'_, '_>,
    memo: &mut Memo,
    node: usize,
    index: usize,
    name: &str,
    catch_all: &CatchAll,
) -> Result<Count, AllocError>
    requires sound { AreSound tables.now nodes.now memo.old.entries.items }
    requires inside { node < count nodes.now }
    requires member { (m : Member) → slice_get (members_in (value_of nodes.now node)) index ≡ Some m
        → m.name ≡ name.now }
    requires within { index < length (members_in (value_of nodes.now node)) }
    requires served { PartIsServed tables.now (a_catch_all (catch_all_view catch_all.now)) }
    ensures sound { AreSound tables.now nodes.now memo.new.entries.items }
    ensures count { (m : Member)
        → slice_get (members_in (value_of nodes.now node)) index ≡ Some m
        → IfOk result (Counted (Takes (rules_at tables.now) (ReadsValue (rules_at tables.now))
        (catch_all_view catch_all.now) m)) }
{
    match catch_all {
        CatchAll::Anything => Ok(Count::One),
        CatchAll::Map(key, _) if !is_key(tables.shapes, *key, name) => Ok(Count::None),
        CatchAll::Map(_, value) => {
            let member = nodes.child(node, index);
            count_shape(tables, nodes, memo, member, *value, tables.steps)
        }
    }
}
