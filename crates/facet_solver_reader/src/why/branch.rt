//! What stops a reading of an object by a selection.
ghost use Rattle.std.specs.Prelude.{◌<◌, All, IfOk, IfSome, IsSorted, OnOk, length};
ghost use Rattle.facet_solver_shape.specs.Names.{name_ref_cmp};
ghost use Rattle.facet_solver_reader.specs.declared.nodes.Nodes.{Nodes};
ghost use Rattle.facet_solver_reader.specs.Nodes.{IsNumbering, count, members_in, value_of};
ghost use Rattle.facet_solver_reader.specs.Parts.{a_selection};
ghost use Rattle.facet_solver_reader.specs.Reading.{AreSound, IsObject};
ghost use Rattle.facet_solver_reader.specs.SelectionNames.{HasBranchNames};
ghost use Rattle.facet_solver_reader.specs.Tables.{AreTables, ListIsServed, PartIsBefore, rules_at};
ghost use Rattle.facet_solver_reader.specs.Views.{list_view, selection_view};
ghost use Rattle.facet_solver_reader.specs.Blaming.{IsAsked, IsAmong, IsBranchOf, IsInPart};
ghost use Rattle.facet_solver_reader.specs.Why.{IsMisfit, IsNoKey, Lacks};

use super::asked::{AskedObject, position_of};
use super::left::only_left;
use super::name::{branch_of, selection_name};
use super::naming::{names_some, told_at};
use super::object::InPart;
use super::stop::stop_of;
use super::tag::none_by_tag;
use super::walk::{Here, Next};
use crate::count::{Memo, Object, count_selection, members_of, touches_rest};
use crate::nodes::Nodes;
use crate::part::{ListId, Selection};
use crate::read_error::{Misfit, Obstacle, Stop};
use crate::tables::{List, Tables};
use std::alloc::AllocError;

/// What stops a reading of an object by a selection.
pub(super) fn none_in_selection<'c, 'd>(
    tables: &Tables<'c>,
    nodes: &Nodes<'_, 'd>,
    memo: &mut Memo,
    asked: &AskedObject<'_, 'c>,
    selection: &Selection<'_>,
) -> Result<Option<InPart<'c, 'd>>, AllocError>
    requires sound { AreSound tables.now nodes.now memo.old.entries.items }
    requires asked { IsAsked tables.now nodes.now asked.now }
    requires served { All (ListIsServed tables.now) (selection_view selection.now).branches }
    requires named { HasBranchNames (rules_at tables.now).lists selection.now }
    requires before { PartIsBefore tables.now asked.now.object.list.now.below.items
        (length asked.now.counts.items) (a_selection (selection_view selection.now)) }
    ensures sound { AreSound tables.now nodes.now memo.new.entries.items }
    ensures found { IfOk result (λ found. IfSome found
        (IsInPart tables.now nodes.now (value_of nodes.now asked.now.object.node))) }
{
    let object = &asked.object;
    if !count_selection(tables, nodes, object, selection, &asked.counts).is_none() {
        return Ok(None);
    }
    let by_name = names_some(tables, asked, selection);
    if let Some(position) = one_branch(tables, nodes, asked, selection, by_name) {
        return Ok(Some(InPart::Branch(position, selection.optional)));
    }
    if let Some(here) = none_by_tag(tables, nodes, object, selection)? {
        return Ok(Some(InPart::Next(Next::Here(here))));
    }
    if let Some(position) = one_named(tables, nodes, asked, selection, by_name) {
        return Ok(Some(InPart::Branch(position, selection.optional)));
    }
    let misfits = misfits_of(tables, nodes, memo, asked, selection, by_name)?;
    let none = Obstacle::NoVariant(selection_name(tables.shapes, selection), misfits);
    Ok(Some(InPart::Next(Next::Here(Here::Stops(none)))))
}

/// The position of the branch that a selection has alone, or that names leave alone of those that are
/// told.
fn one_branch(
    tables: &Tables<'_>,
    nodes: &Nodes<'_, '_>,
    asked: &AskedObject<'_, '_>,
    selection: &Selection<'_>,
    by_name: bool,
) -> Option<usize>
    requires tables { AreTables tables.now }
    requires numbering { IsNumbering nodes.now }
    requires object { IsObject tables.now nodes.now asked.now.object }
    requires served { All (ListIsServed tables.now) (selection_view selection.now).branches }
    requires named { HasBranchNames (rules_at tables.now).lists selection.now }
{
    match selection.branches.as_slice() {
        [branch] => position_of(tables, &asked.object, *branch),
        _ => only_left(tables, nodes, asked, selection, by_name),
    }
}

/// The position of the one branch that is told where the object names some. A member that is no key
/// of it is told in another way.
fn one_named(
    tables: &Tables<'_>,
    nodes: &Nodes<'_, '_>,
    asked: &AskedObject<'_, '_>,
    selection: &Selection<'_>,
    by_name: bool,
) -> Option<usize>
    requires tables { AreTables tables.now }
    requires object { IsObject tables.now nodes.now asked.now.object }
    requires served { All (ListIsServed tables.now) (selection_view selection.now).branches }
    requires named { HasBranchNames (rules_at tables.now).lists selection.now }
{
    if !by_name {
        return None;
    }
    let mut only = None;
    for branch in &selection.branches {
        let position = told_at(tables, asked, *branch, true);
        if position.is_some() {
            if only.is_some() {
                return None;
            }
            if no_key(tables, nodes, &asked.object, selection, *branch).is_some() {
                return None;
            }
            only = position;
        }
    }
    only
}

/// What stops each branch that has a choice. Where it goes by names, those that the object names
/// otherwise are left out.
pub(super) fn misfits_of<'c, 'd>(
    tables: &Tables<'c>,
    nodes: &Nodes<'_, 'd>,
    memo: &mut Memo,
    asked: &AskedObject<'_, 'c>,
    selection: &Selection<'_>,
    by_name: bool,
) -> Result<Vec<Misfit<'c, 'd>>, AllocError>
    requires sound { AreSound tables.now nodes.now memo.old.entries.items }
    requires asked { IsAsked tables.now nodes.now asked.now }
    requires served { All (ListIsServed tables.now) (selection_view selection.now).branches }
    requires named { HasBranchNames (rules_at tables.now).lists selection.now }
    ensures sound { AreSound tables.now nodes.now memo.new.entries.items }
    ensures misfits { IfOk result (λ misfits. All (IsMisfit (rules_at tables.now)
        (value_of nodes.now asked.now.object.node)) misfits.items) }
{
    let mut misfits = Vec::new(tables.alloc);
    for branch in &selection.branches {
        add_misfit(
            tables,
            nodes,
            memo,
            asked,
            selection,
            by_name,
            branch,
            &mut misfits,
        )?;
    }
    Ok(misfits)
}

/// Adds what stops a branch, if it is told.
fn add_misfit<'c, 'd>(
    tables: &Tables<'c>,
    nodes: &Nodes<'_, 'd>,
    memo: &mut Memo,
    asked: &AskedObject<'_, 'c>,
    selection: &Selection<'_>,
    by_name: bool,
    branch: &ListId,
    misfits: &mut Vec<Misfit<'c, 'd>>,
) -> Result<(), AllocError>
    requires sound { AreSound tables.now nodes.now memo.old.entries.items }
    requires asked { IsAsked tables.now nodes.now asked.now }
    requires served { All (ListIsServed tables.now) (selection_view selection.now).branches }
    requires named { HasBranchNames (rules_at tables.now).lists selection.now }
    requires branch { IsBranchOf (selection_view selection.now) (list_view branch.now) }
    requires misfits { All (IsMisfit (rules_at tables.now)
        (value_of nodes.now asked.now.object.node)) misfits.old.items }
    ensures sound { AreSound tables.now nodes.now memo.new.entries.items }
    ensures misfits { OnOk result (All (IsMisfit (rules_at tables.now)
        (value_of nodes.now asked.now.object.node)) misfits.new.items) }
{
    let Some(position) = told_at(tables, asked, *branch, by_name) else {
        return Ok(());
    };
    match misfit_of(tables, nodes, memo, asked, selection, branch, position) {
        // In place of `?`, for which no proof is generated at an entry of this type.
        Ok(misfit) => match misfits.push(misfit) {
            Ok(()) => Ok(()),
            Err(_) => Err(AllocError),
        },
        Err(error) => Err(error),
    }
}

/// What stops a branch, whose list has a position.
fn misfit_of<'c, 'd>(
    tables: &Tables<'c>,
    nodes: &Nodes<'_, 'd>,
    memo: &mut Memo,
    asked: &AskedObject<'_, 'c>,
    selection: &Selection<'_>,
    branch: &ListId,
    position: usize,
) -> Result<Misfit<'c, 'd>, AllocError>
    requires sound { AreSound tables.now nodes.now memo.old.entries.items }
    requires asked { IsAsked tables.now nodes.now asked.now }
    requires served { All (ListIsServed tables.now) (selection_view selection.now).branches }
    requires named { HasBranchNames (rules_at tables.now).lists selection.now }
    requires branch { IsBranchOf (selection_view selection.now) (list_view branch.now) }
    ensures sound { AreSound tables.now nodes.now memo.new.entries.items }
    ensures misfit { IfOk result (IsMisfit (rules_at tables.now)
        (value_of nodes.now asked.now.object.node)) }
{
    let lacks = lacks_of(tables, asked, *branch);
    let no_key = no_key(tables, nodes, &asked.object, selection, *branch);
    let name = branch_of(tables.shapes, *branch);
    match (&lacks, &no_key) {
        (None, None) => match stop_of(tables, nodes, memo, asked, position) {
            Ok(stop) => Ok(Misfit {
                branch: name,
                lacks: None,
                no_key: None,
                stop,
            }),
            Err(error) => Err(error),
        },
        _ => Ok(Misfit {
            branch: name,
            lacks,
            no_key,
            stop: Stop::Nothing,
        }),
    }
}

/// The first name that a branch requires and the object lacks.
fn lacks_of<'c>(tables: &Tables<'c>, asked: &AskedObject<'_, 'c>, branch: ListId) -> Option<&'c str>
    requires served { ListIsServed tables.now (list_view branch) }
    ensures { (nodes : Nodes) → IsAsked tables.now nodes asked.now → IfSome result
        (λ name. Lacks (rules_at tables.now) (members_in (value_of nodes asked.now.object.node))
        (list_view branch) name.now) }
{
    let position = position_of(tables, &asked.object, branch)?;
    *asked.missing.get(position)?
}

/// The first member of an object that a selection knows and a branch of it doesn't. Where catch-alls
/// of other branches take members of no known name, the first of these.
fn no_key<'d>(
    tables: &Tables<'_>,
    nodes: &Nodes<'_, 'd>,
    object: &Object<'_, '_>,
    selection: &Selection<'_>,
    branch: ListId,
) -> Option<&'d str>
    requires tables { AreTables tables.now }
    requires object { IsObject tables.now nodes.now object.now }
    requires served { All (ListIsServed tables.now) (selection_view selection.now).branches }
    requires named { HasBranchNames (rules_at tables.now).lists selection.now }
    requires branch { IsBranchOf (selection_view selection.now) (list_view branch) }
    ensures { IfSome result (λ name. IsNoKey (rules_at tables.now)
        (members_in (value_of nodes.now object.now.node)) (list_view branch) name.now) }
{
    let list = tables.list(branch)?;
    for member in members_of(nodes.value(object.node)) {
        if !list.has_name(member.0) && selection.has_name(member.0) {
            return Some(member.0);
        }
    }
    if list.takes_rest {
        return None;
    }
    if !touches_rest(tables, object, selection) {
        return None;
    }
    first_unknown(nodes, object.node, object.list)
}

/// The first member of an object that no choice of its list has.
fn first_unknown<'d>(nodes: &Nodes<'_, 'd>, node: usize, list: &List<'_>) -> Option<&'d str>
    requires inside { node < count nodes.now }
    requires sorted { IsSorted name_ref_cmp list.now.names.items }
    ensures { IfSome result (λ name.
        IsAmong list.now (members_in (value_of nodes.now node)) name.now) }
{
    for member in members_of(nodes.value(node)) {
        if !list.has_name(member.0) {
            return Some(member.0);
        }
    }
    None
}
