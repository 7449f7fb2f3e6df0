//! The only readings of an object's members: those of a choice, and those of no known name.
ghost use Rattle.std.specs.Prelude.{◌≡◌, ◌<◌, ◌≤◌, All, IfOk, IsSorted, Some, length, map, slice_get};
ghost use Rattle.facet_solver_reader.specs.declared.count.Count.TheVariants.{One};
ghost use Rattle.facet_solver_shape.specs.Names.{name_ref_cmp};
ghost use Rattle.facet_solver_reader.specs.Counted.{Counted};
ghost use Rattle.facet_solver_reader.specs.Documents.{Member};
ghost use Rattle.facet_solver_reader.specs.Found as found;
ghost use Rattle.facet_solver_reader.specs.Planned.{StepIsServed, step_view};
ghost use Rattle.facet_solver_reader.specs.Nodes.{count, members_in, value_of};
ghost use Rattle.facet_solver_reader.specs.Objects.{Takes};
ghost use Rattle.facet_solver_reader.specs.Parts.{a_catch_all, a_member};
ghost use Rattle.facet_solver_reader.specs.Reading.{AreSound, IsObject, IsPartCount};
ghost use Rattle.facet_solver_reader.specs.Readings.{ReadsValue};
ghost use Rattle.facet_solver_reader.specs.Tables.{PartIsServed, has_unknown, rules_at};
ghost use Rattle.facet_solver_reader.specs.Told.{texts};
ghost use Rattle.facet_solver_reader.specs.ToldAt.{IsRead};
ghost use Rattle.facet_solver_reader.specs.ToldObjects.{AreOnlyMembers, AreOnlyRests, AreToldFields, AreToldRests, IsToldField, IsToldRest, IsToldTaken, unknown_names};
ghost use Rattle.facet_solver_reader.specs.Views.{catch_all_view, member_view};

use super::each::push;
use super::not_one::NotOne;
use super::steps::Step;
use super::target::{read_shape, read_target};
use crate::count::{Memo, Object, members_of};
use crate::key::is_key;
use crate::nodes::Nodes;
use crate::part::{CatchAll, MemberPart};
use crate::reading::{Reading, ReadingKind};
use crate::tables::Tables;
use std::alloc::{AllocError, Global};

/// The only readings of members that an object has, and absence of those that it lacks.
#[cycle(read)]
pub(super) fn read_fields<'c, 'v, 'd>(
    tables: &Tables<'c>,
    nodes: &Nodes<'v, 'd>,
    memo: &mut Memo,
    object: &Object<'_, 'c>,
    steps: &[Step<'_, 'c>],
) -> Result<Vec<Reading<'c, 'v, 'd>>, NotOne>
    requires sound { AreSound tables.now nodes.now memo.old.entries.items }
    requires object { IsObject tables.now nodes.now object.now }
    requires served { All (StepIsServed tables.now) (map step_view steps.now) }
    ensures sound { AreSound tables.now nodes.now memo.new.entries.items }
    ensures told { IsRead (λ values. AreToldFields tables.now nodes.now object.now
        (found.members_in (map step_view steps.now)) values.items)
        (AreOnlyMembers tables.now nodes.now object.now
        (found.members_in (map step_view steps.now))) result }
{
    let mut values = Vec::with_capacity(tables.alloc, members_among(steps))?;
    let mut next = 0;
    for step in steps {
        if let Step::Field(_, member) = step {
            let reading = read_field(tables, nodes, memo, object, member, &mut next)?;
            push(&mut values, reading)?;
        }
    }
    Ok(values)
}

/// How many members are among steps.
fn members_among(steps: &[Step<'_, '_>]) -> usize
    ensures { result ≤ length steps.now }
{
    steps
        .iter()
        .filter(|step| matches!(step, Step::Field(..)))
        .count()
}

/// The only reading of a member, or its absence. The member is looked for first at a number, which
/// is moved behind it.
#[cycle(read)]
fn read_field<'c, 'v, 'd>(
    tables: &Tables<'c>,
    nodes: &Nodes<'v, 'd>,
    memo: &mut Memo,
    object: &Object<'_, 'c>,
    member: &MemberPart<'c>,
    next: &mut usize,
) -> Result<Reading<'c, 'v, 'd>, NotOne>
    requires sound { AreSound tables.now nodes.now memo.old.entries.items }
    requires object { IsObject tables.now nodes.now object.now }
    requires served { PartIsServed tables.now (a_member (member_view member.now)) }
    ensures sound { AreSound tables.now nodes.now memo.new.entries.items }
    ensures told { IsRead (IsToldField tables.now nodes.now object.now (member_view member.now))
        (IsPartCount tables.now nodes.now object.now (a_member (member_view member.now)) One)
        result }
{
    match nodes.next_member(object.node, member.name, next) {
        Some(value) => read_target(tables, nodes, memo, value, &member.target, tables.steps),
        None if member.required => Err(NotOne::NoneOrSeveral),
        None => Ok(Reading::plain(tables.alloc, ReadingKind::Absent)),
    }
}

/// What the first catch-all among steps takes; nothing where there is none. There is one way in
/// which each takes.
#[cycle(read)]
pub(super) fn read_rests<'c, 'v, 'd>(
    tables: &Tables<'c>,
    nodes: &Nodes<'v, 'd>,
    memo: &mut Memo,
    object: &Object<'_, 'c>,
    steps: &[Step<'_, 'c>],
) -> Result<(Vec<&'d str>, Vec<Reading<'c, 'v, 'd>>), NotOne>
    requires sound { AreSound tables.now nodes.now memo.old.entries.items }
    requires object { IsObject tables.now nodes.now object.now }
    requires served { All (StepIsServed tables.now) (map step_view steps.now) }
    ensures sound { AreSound tables.now nodes.now memo.new.entries.items }
    ensures told { IsRead (AreToldRests tables.now nodes.now object.now (map step_view steps.now))
        (AreOnlyRests tables.now nodes.now object.now (map step_view steps.now)) result }
{
    let mut first = None;
    for step in steps {
        if let Step::Rest(catch_all) = step {
            let rest = read_rest(tables, nodes, memo, object, catch_all)?;
            if first.is_none() {
                first = Some(rest);
            }
        }
    }
    match first {
        Some(rest) => Ok(rest),
        None => Ok((Vec::new(tables.alloc), Vec::new(tables.alloc))),
    }
}

/// The members of no known name that a catch-all takes: their names, and their only readings.
#[cycle(read)]
fn read_rest<'c, 'v, 'd>(
    tables: &Tables<'c>,
    nodes: &Nodes<'v, 'd>,
    memo: &mut Memo,
    object: &Object<'_, 'c>,
    catch_all: &CatchAll,
) -> Result<(Vec<&'d str>, Vec<Reading<'c, 'v, 'd>>), NotOne>
    requires sound { AreSound tables.now nodes.now memo.old.entries.items }
    requires object { IsObject tables.now nodes.now object.now }
    requires served { PartIsServed tables.now (a_catch_all (catch_all_view catch_all.now)) }
    ensures sound { AreSound tables.now nodes.now memo.new.entries.items }
    ensures told { IsRead (IsToldRest tables.now nodes.now object.now
        (catch_all_view catch_all.now))
        (IsPartCount tables.now nodes.now object.now
        (a_catch_all (catch_all_view catch_all.now)) One) result }
{
    if !object.takes {
        return Err(NotOne::NoneOrSeveral);
    }
    let members = members_of(nodes.value(object.node));
    let mut names = Vec::new(tables.alloc);
    let mut readings = Vec::new(tables.alloc);
    for index in 0..members.len() {
        let name = members[index].0;
        if !object.list.has_name(name) {
            let node = object.node;
            let reading = read_taken(tables, nodes, memo, node, index, name, catch_all)?;
            names.push(name)?;
            push(&mut readings, reading)?;
        }
    }
    Ok((names, readings))
}

/// The only reading of a member that a catch-all takes.
#[cycle(read)]
fn read_taken<'c, 'v, 'd>(
    tables: &Tables<'c>,
    nodes: &Nodes<'v, 'd>,
    memo: &mut Memo,
    node: usize,
    index: usize,
    name: &str,
    catch_all: &CatchAll,
) -> Result<Reading<'c, 'v, 'd>, NotOne>
    requires sound { AreSound tables.now nodes.now memo.old.entries.items }
    requires inside { node < count nodes.now }
    requires within { index < length (members_in (value_of nodes.now node)) }
    requires served { PartIsServed tables.now (a_catch_all (catch_all_view catch_all.now)) }
    requires member { (m : Member) → slice_get (members_in (value_of nodes.now node)) index ≡ Some m
        → m.name ≡ name.now }
    ensures sound { AreSound tables.now nodes.now memo.new.entries.items }
    ensures told { (m : Member) → slice_get (members_in (value_of nodes.now node)) index ≡ Some m
        → IsRead (IsToldTaken tables.now (catch_all_view catch_all.now) m)
        (Counted (Takes (rules_at tables.now) (ReadsValue (rules_at tables.now))
        (catch_all_view catch_all.now) m) One) result }
{
    let member = nodes.child(node, index);
    match catch_all {
        CatchAll::Anything => Ok(Reading::as_it_is(tables.alloc, nodes.value(member))),
        CatchAll::Map(key, _) if !is_key(tables.shapes, *key, name) => Err(NotOne::NoneOrSeveral),
        CatchAll::Map(_, value) => read_shape(tables, nodes, memo, member, *value, tables.steps),
    }
}

/// The names of an object's members that no choice of its list has, in order.
#[tactic(auto, using(crate::proofs::UnknownNames::none_unknown))]
pub(super) fn ignored_names<'d>(
    alloc: Global,
    nodes: &Nodes<'_, 'd>,
    object: &Object<'_, '_>,
) -> Result<Vec<&'d str>, AllocError>
    requires inside { object.now.node < count nodes.now }
    requires sorted { IsSorted name_ref_cmp object.now.list.now.names.items }
    requires unknown { object.now.has_unknown ≡ has_unknown object.now.list.now
        (members_in (value_of nodes.now object.now.node)) }
    ensures { IfOk result (λ names. texts names.items ≡ unknown_names object.now.list.now
        (members_in (value_of nodes.now object.now.node))) }
{
    let mut names = Vec::new(alloc);
    if !object.has_unknown {
        return Ok(names);
    }
    for member in members_of(nodes.value(object.node)) {
        if !object.list.has_name(member.0) {
            names.push(member.0)?;
        }
    }
    Ok(names)
}
