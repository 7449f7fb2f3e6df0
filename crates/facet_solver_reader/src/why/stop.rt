//! What of a branch has no reading.
ghost use Rattle.std.specs.Prelude.{All, IfOk, IfSome, length};
ghost use Rattle.facet_solver_reader.specs.Nodes.{value_of};
ghost use Rattle.facet_solver_reader.specs.Parts.{a_selection};
ghost use Rattle.facet_solver_reader.specs.Reading.{AreSound};
ghost use Rattle.facet_solver_reader.specs.SelectionNames.{HasBranchNames, PartHasBranchNames};
ghost use Rattle.facet_solver_reader.specs.Tables.{AreTables, IsServed, ListIsServed, PartIsBefore, PartIsServed, rules_at};
ghost use Rattle.facet_solver_reader.specs.Views.{member_view, part_view, selection_view};
ghost use Rattle.facet_solver_reader.specs.Blaming.{IsAsked, IsBelow, IsInner};
ghost use Rattle.facet_solver_reader.specs.Why.{IsOfPart, IsStop};

use super::asked::{AskedObject, list_at, position_of};
use super::name::{selection_name, unread};
use super::walk::count_of;
use crate::count::{Memo, count_selection};
use crate::nodes::Nodes;
use crate::part::{MemberPart, Part, Selection};
use crate::read_error::Stop;
use crate::tables::{List, Tables};
use std::alloc::AllocError;

/// What of a part of a branch has no reading.
#[derive(Clone, Copy, Debug)]
pub(super) enum Inner<'c, 'd> {
    /// This.
    Stop(Stop<'c, 'd>),
    /// Something of a list that each choice goes through, by its position.
    List(usize),
}

/// The first part of a list, or of one that each choice of it goes through, that has no reading.
pub(super) fn stop_of<'c, 'd>(
    tables: &Tables<'c>,
    nodes: &Nodes<'_, 'd>,
    memo: &mut Memo,
    asked: &AskedObject<'_, 'c>,
    position: usize,
) -> Result<Stop<'c, 'd>, AllocError>
    requires sound { AreSound tables.now nodes.now memo.old.entries.items }
    requires asked { IsAsked tables.now nodes.now asked.now }
    ensures sound { AreSound tables.now nodes.now memo.new.entries.items }
    ensures stop { IfOk result (IsStop (rules_at tables.now)
        (value_of nodes.now asked.now.object.node)) }
    ensures part { IfOk result IsOfPart }
{
    let mut position = position;
    for _ in &asked.object.list.below {
        let Some(list) = list_at(tables, &asked.object, position) else {
            return Ok(Stop::Nothing);
        };
        match stop_in_list(tables, nodes, memo, asked, list) {
            Ok(Some(Inner::Stop(stop))) => return Ok(stop),
            Ok(Some(Inner::List(inner))) => position = inner,
            Ok(None) => return Ok(Stop::Nothing),
            Err(error) => return Err(error),
        }
    }
    Ok(Stop::Nothing)
}

/// The first part of a list that has no reading.
fn stop_in_list<'c, 'd>(
    tables: &Tables<'c>,
    nodes: &Nodes<'_, 'd>,
    memo: &mut Memo,
    asked: &AskedObject<'_, 'c>,
    list: &List<'c>,
) -> Result<Option<Inner<'c, 'd>>, AllocError>
    requires sound { AreSound tables.now nodes.now memo.old.entries.items }
    requires asked { IsAsked tables.now nodes.now asked.now }
    requires below { IsBelow tables.now asked.now.object list.now }
    ensures sound { AreSound tables.now nodes.now memo.new.entries.items }
    ensures inner { IfOk result (λ inner. IfSome inner (IsInner (rules_at tables.now)
        (value_of nodes.now asked.now.object.node))) }
{
    for part in &list.parts {
        match stop_in_part(tables, nodes, memo, asked, part) {
            Ok(None) => {}
            found => return found,
        }
    }
    Ok(None)
}

/// What of a part of a list has no reading.
fn stop_in_part<'c, 'd>(
    tables: &Tables<'c>,
    nodes: &Nodes<'_, 'd>,
    memo: &mut Memo,
    asked: &AskedObject<'_, 'c>,
    part: &Part<'c>,
) -> Result<Option<Inner<'c, 'd>>, AllocError>
    requires sound { AreSound tables.now nodes.now memo.old.entries.items }
    requires asked { IsAsked tables.now nodes.now asked.now }
    requires served { PartIsServed tables.now (part_view part.now) }
    requires named { PartHasBranchNames (rules_at tables.now).lists part.now }
    requires before { PartIsBefore tables.now asked.now.object.list.now.below.items
        (length asked.now.counts.items) (part_view part.now) }
    ensures sound { AreSound tables.now nodes.now memo.new.entries.items }
    ensures inner { IfOk result (λ inner. IfSome inner (IsInner (rules_at tables.now)
        (value_of nodes.now asked.now.object.node))) }
{
    match part {
        Part::Member(member) => stop_at_member(tables, nodes, memo, asked, member),
        Part::Selection(selection) => Ok(stop_at_selection(tables, nodes, asked, selection)),
        Part::CatchAll(_) => Ok(None),
    }
}

/// A member that the object has, and whose value is not read.
fn stop_at_member<'c, 'd>(
    tables: &Tables<'c>,
    nodes: &Nodes<'_, 'd>,
    memo: &mut Memo,
    asked: &AskedObject<'_, 'c>,
    member: &MemberPart<'c>,
) -> Result<Option<Inner<'c, 'd>>, AllocError>
    requires sound { AreSound tables.now nodes.now memo.old.entries.items }
    requires asked { IsAsked tables.now nodes.now asked.now }
    requires served { IsServed tables.now (member_view member.now).target }
    ensures sound { AreSound tables.now nodes.now memo.new.entries.items }
    ensures inner { IfOk result (λ inner. IfSome inner (IsInner (rules_at tables.now)
        (value_of nodes.now asked.now.object.node))) }
{
    let Some(value) = nodes.member(asked.object.node, member.name) else {
        return Ok(None);
    };
    let count = count_of(tables, nodes, memo, value, &member.target)?;
    if !count.is_none() {
        return Ok(None);
    }
    match unread(tables, nodes.value(value), &member.target) {
        Ok(unread) => Ok(Some(Inner::Stop(Stop::Member(member.name, unread)))),
        Err(error) => Err(error),
    }
}

/// A selection by which the object is not read.
fn stop_at_selection<'c, 'd>(
    tables: &Tables<'c>,
    nodes: &Nodes<'_, 'd>,
    asked: &AskedObject<'_, 'c>,
    selection: &Selection<'_>,
) -> Option<Inner<'c, 'd>>
    requires tables { AreTables tables.now }
    requires asked { IsAsked tables.now nodes.now asked.now }
    requires served { All (ListIsServed tables.now) (selection_view selection.now).branches }
    requires named { HasBranchNames (rules_at tables.now).lists selection.now }
    requires before { PartIsBefore tables.now asked.now.object.list.now.below.items
        (length asked.now.counts.items) (a_selection (selection_view selection.now)) }
    ensures { IfSome result (IsInner (rules_at tables.now)
        (value_of nodes.now asked.now.object.node)) }
{
    if !count_selection(tables, nodes, &asked.object, selection, &asked.counts).is_none() {
        return None;
    }
    match selection.branches.as_slice() {
        [branch] => Some(Inner::List(position_of(tables, &asked.object, *branch)?)),
        _ => Some(Inner::Stop(Stop::OneOf(selection_name(tables.shapes, selection)))),
    }
}
