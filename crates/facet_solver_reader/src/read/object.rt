//! The only reading of an object by a list of parts.
ghost use Rattle.std.specs.Prelude.{◌≡◌, ◌<◌, IfErr, IfOk};
ghost use Rattle.facet_solver_reader.specs.declared.count.Count.TheVariants.{One};
ghost use Rattle.facet_solver_reader.specs.Branches.{IsReadByList, ReadsList};
ghost use Rattle.facet_solver_reader.specs.Choices.{Choice};
ghost use Rattle.facet_solver_reader.specs.Counted.{Counted};
ghost use Rattle.facet_solver_reader.specs.Nodes.{count, members_in, value_of};
ghost use Rattle.facet_solver_reader.specs.Objects.{ReadsObject};
ghost use Rattle.facet_solver_reader.specs.Planned.{IsPlanIfOne};
ghost use Rattle.facet_solver_reader.specs.Reading.{AreSound, IsListCount, IsListed, IsObject, object_view};
ghost use Rattle.facet_solver_reader.specs.Readings.{ReadsValue};
ghost use Rattle.facet_solver_reader.specs.Tables as spec;
ghost use Rattle.facet_solver_reader.specs.Tables.{ListIsServed, rules_at};
ghost use Rattle.facet_solver_reader.specs.ToldAt.{IsNotOne, IsRead, IsToldBy};
ghost use Rattle.facet_solver_reader.specs.Views.{list_view};

use super::found::{Found, catch_all_in};
use super::members::{ignored_names, read_fields, read_rests};
use super::not_one::NotOne;
use super::steps::{Step, steps_of};
use crate::count::{Memo, Object, count_all, filter_of, has_unknown_beside, named_list};
use crate::nodes::Nodes;
use crate::part::ListId;
use crate::reading::{ObjectReading, Reading, ReadingKind};
use crate::tables::{List, Tables};

/// The only reading of an object by a list of parts.
#[cycle(read)]
pub(super) fn read_object<'c, 'v, 'd>(
    tables: &Tables<'c>,
    nodes: &Nodes<'v, 'd>,
    memo: &mut Memo,
    node: usize,
    id: ListId,
) -> Result<Reading<'c, 'v, 'd>, NotOne>
    requires sound { AreSound tables.now nodes.now memo.old.entries.items }
    requires inside { node < count nodes.now }
    requires served { ListIsServed tables.now (list_view id) }
    ensures sound { AreSound tables.now nodes.now memo.new.entries.items }
    ensures told { IsRead (IsToldBy tables.now nodes.now node (list_view id))
        (Counted (ReadsObject (rules_at tables.now) (ReadsValue (rules_at tables.now))
        (list_view id) (members_in (value_of nodes.now node))) One) result }
{
    let Some(list) = tables.list(id) else {
        return Err(NotOne::NoneOrSeveral);
    };
    let named = named_list(tables, nodes, node, list);
    let has_unknown = has_unknown_beside(nodes, node, list, named);
    let takes = is_read_whole(tables, nodes, memo, node, list, has_unknown)?;
    let filter = filter_of(nodes, node, list);
    let object = Object {
        node,
        list,
        takes,
        has_unknown,
        filter,
    };
    let steps = steps_of(tables, nodes, memo, &object)?;
    read_steps(tables, nodes, memo, &object, steps)
}

/// Whether an object that has a reading is read with all its members. Where each name is known it
/// is, so that nothing has to be counted.
fn is_read_whole(
    tables: &Tables<'_>,
    nodes: &Nodes<'_, '_>,
    memo: &mut Memo,
    node: usize,
    list: &List<'_>,
    has_unknown: bool,
) -> Result<bool, NotOne>
    requires sound { AreSound tables.now nodes.now memo.old.entries.items }
    requires inside { node < count nodes.now }
    requires listed { IsListed tables.now list.now }
    requires unknown { has_unknown
        ≡ spec.has_unknown list.now (members_in (value_of nodes.now node)) }
    ensures sound { AreSound tables.now nodes.now memo.new.entries.items }
    ensures none { IfErr result (λ e. IsNotOne e (Counted (ReadsObject (rules_at tables.now)
        (ReadsValue (rules_at tables.now)) (list_view list.now.id)
        (members_in (value_of nodes.now node))) One)) }
    ensures by_list { IfOk result (λ whole. IsReadByList (rules_at tables.now)
        (ReadsValue (rules_at tables.now)) (record {
          members = members_in (value_of nodes.now node);
          list = list_view list.now.id;
          takes = whole;
        })) }
{
    if !has_unknown {
        return Ok(true);
    }
    let all = count_all(tables, nodes, memo, node, list, has_unknown)?;
    if tables.strict && all.is_none() {
        return Err(NotOne::NoneOrSeveral);
    }
    Ok(!all.is_none())
}

/// The reading that goes through steps.
#[cycle(read)]
fn read_steps<'c, 'v, 'd>(
    tables: &Tables<'c>,
    nodes: &Nodes<'v, 'd>,
    memo: &mut Memo,
    object: &Object<'_, 'c>,
    steps: Vec<Step<'_, 'c>>,
) -> Result<Reading<'c, 'v, 'd>, NotOne>
    requires sound { AreSound tables.now nodes.now memo.old.entries.items }
    requires object { IsObject tables.now nodes.now object.now }
    requires plan { IsPlanIfOne tables.now nodes.now object.now steps.items }
    requires reads { (c : Choice)
        → ReadsList (rules_at tables.now) (ReadsValue (rules_at tables.now))
        (object_view nodes.now object.now) (list_view object.now.list.now.id) c
        → ReadsObject (rules_at tables.now) (ReadsValue (rules_at tables.now))
        (list_view object.now.list.now.id) (members_in (value_of nodes.now object.now.node)) c }
    ensures sound { AreSound tables.now nodes.now memo.new.entries.items }
    ensures told { IsRead
        (IsToldBy tables.now nodes.now object.now.node (list_view object.now.list.now.id))
        (IsListCount tables.now nodes.now object.now object.now.list.now One) result }
{
    let values = read_fields(tables, nodes, memo, object, &steps)?;
    let (taken, rest) = read_rests(tables, nodes, memo, object, &steps)?;
    let ignored = match catch_all_in(&steps) {
        Some(_) => Vec::new(tables.alloc),
        None => ignored_names(tables.alloc, nodes, object)?,
    };
    let found = Found::of(tables.alloc, tables.shapes, steps, values.len())?;
    let kind = ReadingKind::Object {
        object: ObjectReading {
            selections: found.selections,
            absent: found.absent,
            fields: found.fields,
            taken,
            ignored,
        },
        values,
        taken: rest,
    };
    Ok(Reading::plain(tables.alloc, kind))
}
