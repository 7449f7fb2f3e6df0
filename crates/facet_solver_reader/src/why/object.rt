//! What stops a reading of an object by a list of parts.
ghost use Rattle.std.specs.Prelude.{◌≡◌, ◌<◌, ◌||◌, IfOk, IfSome, not};
ghost use Rattle.facet_solver_reader.specs.Nodes.{IsNumbering, count, members_in, value_of};
ghost use Rattle.facet_solver_reader.specs.Parts.{a_catch_all, a_member};
ghost use Rattle.facet_solver_reader.specs.Reading.{AreSound, IsObject};
ghost use Rattle.facet_solver_reader.specs.SelectionNames.{PartHasBranchNames};
ghost use Rattle.facet_solver_reader.specs.Tables.{AreTables, ListIsServed, PartIsServed, rules_at};
ghost use Rattle.facet_solver_reader.specs.Views.{catch_all_view, list_view, member_view, part_view};
ghost use Rattle.facet_solver_reader.specs.Blaming.{IsAsked, IsBelow, IsInPart, IsNext, IsPartOf};
ghost use Rattle.facet_solver_reader.specs.Why.{IsMemberOf, IsObstacle, Lacks};
ghost use Rattle.facet_solver_reader.specs.declared.count.Count.TheVariants.{None as NoCount};

use super::asked::{AskedObject, ask, list_at};
use super::branch::none_in_selection;
use super::entries::{Entries, in_entries};
use super::name::branch_of;
use super::walk::{Here, Next, into};
use crate::count::{Count, Memo, Object, filter_of, has_unknown, members_of};
use crate::document::Document;
use crate::nodes::Nodes;
use crate::part::{CatchAll, ListId, MemberPart, Part};
use crate::read_error::Obstacle;
use crate::tables::{List, Tables};
use std::alloc::AllocError;

/// What of a part has no reading.
#[derive(Debug, Drop)]
pub(super) enum InPart<'c, 'd> {
    /// This.
    Next(Next<'c, 'd>),
    /// Something of the one branch that its names leave, by the position of its list, and whether
    /// it may be absent.
    Branch(usize, bool),
}

/// An object that is read by a list, if some choice has that. Catch-alls take its members of no
/// known name, if there are any catch-alls.
pub(super) fn object_by<'r, 'c>(
    tables: &'r Tables<'c>,
    nodes: &Nodes<'_, '_>,
    node: usize,
    id: ListId,
) -> Option<Object<'r, 'c>>
    requires tables { AreTables tables.now }
    requires numbering { IsNumbering nodes.now }
    requires inside { node < count nodes.now }
    requires served { ListIsServed tables.now (list_view id) }
    ensures object { IfSome result (λ object. IsObject tables.now nodes.now object) }
    ensures same { IfSome result (λ object. object.node ≡ node) }
    ensures takes { IfSome result (λ object.
        object.takes ≡ (object.list.now.takes_rest || not object.has_unknown)) }
{
    let list = tables.list(id)?;
    let has_unknown = has_unknown(nodes, node, list);
    let filter = filter_of(nodes, node, list);
    Some(Object {
        node,
        list,
        takes: list.takes_rest || !has_unknown,
        has_unknown,
        filter,
    })
}

/// What stops a reading of a value by a list of parts, if it is an object.
pub(super) fn none_in_object<'c, 'd>(
    tables: &Tables<'c>,
    nodes: &Nodes<'_, 'd>,
    memo: &mut Memo,
    node: usize,
    id: ListId,
) -> Result<Option<Next<'c, 'd>>, AllocError>
    requires sound { AreSound tables.now nodes.now memo.old.entries.items }
    requires inside { node < count nodes.now }
    requires served { ListIsServed tables.now (list_view id) }
    ensures sound { AreSound tables.now nodes.now memo.new.entries.items }
    ensures next { IfOk result (λ next.
        IfSome next (IsNext tables.now nodes.now NoCount (value_of nodes.now node))) }
{
    let Document::Object(_) = nodes.value(node) else {
        return Ok(None);
    };
    let Some(object) = object_by(tables, nodes, node, id) else {
        return Ok(None);
    };
    let asked = ask(tables, nodes, memo, &object)?;
    let next = none_in_lists(tables, nodes, memo, &asked)?;
    if next.is_none() && !object.takes {
        let names = unknown_names(tables, nodes, &object)?;
        return Ok(Some(Next::Here(Here::Stops(Obstacle::Unknown(names)))));
    }
    Ok(next)
}

/// What of an object has no reading: its lists are gone through from its own on, as long as names
/// leave one branch.
fn none_in_lists<'c, 'd>(
    tables: &Tables<'c>,
    nodes: &Nodes<'_, 'd>,
    memo: &mut Memo,
    asked: &AskedObject<'_, 'c>,
) -> Result<Option<Next<'c, 'd>>, AllocError>
    requires sound { AreSound tables.now nodes.now memo.old.entries.items }
    requires asked { IsAsked tables.now nodes.now asked.now }
    ensures sound { AreSound tables.now nodes.now memo.new.entries.items }
    ensures next { IfOk result (λ next. IfSome next
        (IsNext tables.now nodes.now NoCount (value_of nodes.now asked.now.object.node))) }
{
    let lists = asked.object.list.below.len();
    let mut position = lists.saturating_sub(1);
    let mut is_block = false;
    for _ in 0..lists {
        let Some(list) = list_at(tables, &asked.object, position) else {
            return Ok(None);
        };
        match none_in_list(tables, nodes, memo, asked, list, is_block)? {
            Some(InPart::Next(next)) => return Ok(Some(next)),
            Some(InPart::Branch(inner, is_optional)) => {
                position = inner;
                is_block |= is_optional;
            }
            None => return Ok(None),
        }
    }
    Ok(None)
}

/// The first part of a list that has no reading. The list may be of a block that may be absent.
fn none_in_list<'c, 'd>(
    tables: &Tables<'c>,
    nodes: &Nodes<'_, 'd>,
    memo: &mut Memo,
    asked: &AskedObject<'_, 'c>,
    list: &List<'c>,
    is_block: bool,
) -> Result<Option<InPart<'c, 'd>>, AllocError>
    requires sound { AreSound tables.now nodes.now memo.old.entries.items }
    requires asked { IsAsked tables.now nodes.now asked.now }
    requires below { IsBelow tables.now asked.now.object list.now }
    ensures sound { AreSound tables.now nodes.now memo.new.entries.items }
    ensures found { IfOk result (λ found. IfSome found
        (IsInPart tables.now nodes.now (value_of nodes.now asked.now.object.node))) }
{
    for part in &list.parts {
        let found = none_in_part(tables, nodes, memo, asked, list, is_block, part)?;
        if found.is_some() {
            return Ok(found);
        }
    }
    Ok(None)
}

/// What of a part has no reading.
fn none_in_part<'c, 'd>(
    tables: &Tables<'c>,
    nodes: &Nodes<'_, 'd>,
    memo: &mut Memo,
    asked: &AskedObject<'_, 'c>,
    list: &List<'c>,
    is_block: bool,
    part: &Part<'c>,
) -> Result<Option<InPart<'c, 'd>>, AllocError>
    requires sound { AreSound tables.now nodes.now memo.old.entries.items }
    requires asked { IsAsked tables.now nodes.now asked.now }
    requires below { IsBelow tables.now asked.now.object list.now }
    requires part { IsPartOf list.now (part_view part.now) }
    requires named { PartHasBranchNames (rules_at tables.now).lists part.now }
    ensures sound { AreSound tables.now nodes.now memo.new.entries.items }
    ensures found { IfOk result (λ found. IfSome found
        (IsInPart tables.now nodes.now (value_of nodes.now asked.now.object.node))) }
{
    match part {
        Part::Member(member) => {
            match none_in_member(tables, nodes, memo, &asked.object, list, is_block, member)? {
                Some(next) => Ok(Some(InPart::Next(next))),
                None => Ok(None),
            }
        }
        Part::Selection(selection) => none_in_selection(tables, nodes, memo, asked, selection),
        Part::CatchAll(catch_all) => {
            match none_taken(tables, nodes, memo, &asked.object, catch_all)? {
                Some(next) => Ok(Some(InPart::Next(next))),
                None => Ok(None),
            }
        }
    }
}

/// What stops a reading of an object by a member: it is required and missing, or its value.
fn none_in_member<'c, 'd>(
    tables: &Tables<'c>,
    nodes: &Nodes<'_, 'd>,
    memo: &mut Memo,
    object: &Object<'_, 'c>,
    list: &List<'c>,
    is_block: bool,
    member: &MemberPart<'c>,
) -> Result<Option<Next<'c, 'd>>, AllocError>
    requires sound { AreSound tables.now nodes.now memo.old.entries.items }
    requires object { IsObject tables.now nodes.now object.now }
    requires below { IsBelow tables.now object.now list.now }
    requires part { IsPartOf list.now (a_member (member_view member.now)) }
    ensures sound { AreSound tables.now nodes.now memo.new.entries.items }
    ensures next { IfOk result (λ next. IfSome next
        (IsNext tables.now nodes.now NoCount (value_of nodes.now object.now.node))) }
{
    match nodes.member(object.node, member.name) {
        Some(value) => into(tables, nodes, memo, value, &member.target, Count::None),
        None => {
            if member.required {
                let lacks = lacking(tables, nodes, object, list, is_block, member.name);
                Ok(Some(Next::Here(Here::Stops(lacks))))
            } else {
                Ok(None)
            }
        }
    }
}

/// That an object lacks a name that a list requires. Of a block that may be absent it is told by
/// which member it is there.
fn lacking<'c, 'd>(
    tables: &Tables<'c>,
    nodes: &Nodes<'_, 'd>,
    object: &Object<'_, 'c>,
    list: &List<'c>,
    is_block: bool,
    name: &'c str,
) -> Obstacle<'c, 'd>
    requires tables { AreTables tables.now }
    requires object { IsObject tables.now nodes.now object.now }
    requires below { IsBelow tables.now object.now list.now }
    requires lacks { Lacks (rules_at tables.now) (members_in (value_of nodes.now object.now.node))
        (list_view list.now.id) name.now }
    ensures { IsObstacle (rules_at tables.now) (value_of nodes.now object.now.node) result }
{
    let branch = branch_of(tables.shapes, list.id);
    if is_block {
        if let Some(member) = first_known(tables, nodes, object, list) {
            return Obstacle::Incomplete(member, branch, name);
        }
    }
    Obstacle::Lacks(branch, name)
}

/// The first member of an object that some choice of a list has.
fn first_known<'d>(
    tables: &Tables<'_>,
    nodes: &Nodes<'_, 'd>,
    object: &Object<'_, '_>,
    list: &List<'_>,
) -> Option<&'d str>
    requires tables { AreTables tables.now }
    requires object { IsObject tables.now nodes.now object.now }
    requires below { IsBelow tables.now object.now list.now }
    ensures { IfSome result (λ name. IsMemberOf (rules_at tables.now)
        (members_in (value_of nodes.now object.now.node)) (list_view list.now.id) name.now) }
{
    for member in members_of(nodes.value(object.node)) {
        if list.has_name(member.0) {
            return Some(member.0);
        }
    }
    None
}

/// What stops a reading of an object by a catch-all.
fn none_taken<'c, 'd>(
    tables: &Tables<'c>,
    nodes: &Nodes<'_, 'd>,
    memo: &mut Memo,
    object: &Object<'_, 'c>,
    catch_all: &CatchAll,
) -> Result<Option<Next<'c, 'd>>, AllocError>
    requires sound { AreSound tables.now nodes.now memo.old.entries.items }
    requires object { IsObject tables.now nodes.now object.now }
    requires served { PartIsServed tables.now (a_catch_all (catch_all_view catch_all.now)) }
    ensures sound { AreSound tables.now nodes.now memo.new.entries.items }
    ensures next { IfOk result (λ next. IfSome next
        (IsNext tables.now nodes.now NoCount (value_of nodes.now object.now.node))) }
{
    match catch_all {
        CatchAll::Map(key, value) => {
            let entries = Entries {
                key: *key,
                value: *value,
                besides: Some(object.list),
            };
            in_entries(tables, nodes, memo, object.node, &entries, Count::None)
        }
        CatchAll::Anything => Ok(None),
    }
}

/// The names of an object's members that no choice of its list has, in their order.
fn unknown_names<'d>(
    tables: &Tables<'_>,
    nodes: &Nodes<'_, 'd>,
    object: &Object<'_, '_>,
) -> Result<Vec<&'d str>, AllocError>
    requires tables { AreTables tables.now }
    requires object { IsObject tables.now nodes.now object.now }
{
    let mut names = Vec::new(tables.alloc);
    for member in members_of(nodes.value(object.node)) {
        if !object.list.has_name(member.0) {
            names.push(member.0)?;
        }
    }
    Ok(names)
}
