//! By which branches an object is read in several ways.
ghost use Rattle.std.specs.Prelude.{◌≡◌, ◌⊎◌, ◌<◌, ◌+◌, ◌-◌, ℕ, true, All, IfOk, IfSome, OnOk, Some, length, slice_get};
ghost use Rattle.std.specs.Option.{unwrap_or};
ghost use Rattle.facet_solver_reader.specs.Branches.{CanBePresent};
ghost use Rattle.facet_solver_reader.specs.Documents.{Tree};
ghost use Rattle.facet_solver_reader.specs.Nodes.{count, value_of};
ghost use Rattle.facet_solver_reader.specs.Parts.{a_selection};
ghost use Rattle.facet_solver_reader.specs.Reading.{AreSound, IsObject, object_view};
ghost use Rattle.facet_solver_reader.specs.SelectionNames.{HasBranchNames};
ghost use Rattle.facet_solver_reader.specs.Tables.{AreTables, ListIsServed, PartIsBefore, PartIsServed, rules_at};
ghost use Rattle.facet_solver_reader.specs.Views.{list_view, part_view, selection_view};
ghost use Rattle.facet_solver_reader.specs.Blaming.{AreTakenLists, IsBelow, IsBranchOf, IsNext, IsTakenBranch};
ghost use Rattle.facet_solver_reader.specs.Blaming.{IsTakenList, IsTakenPart, IsTallied};
ghost use Rattle.facet_solver_reader.specs.Why.{IsReadBy};
ghost use Rattle.facet_solver_reader.specs.declared.count.Count.TheVariants.{None as NoCount, Several as TwoCount};
ghost use Rattle.facet_solver_reader.specs.declared.nodes.Nodes as code_nodes;

use super::asked::{counts_of, list_at, position_of};
use super::entries::{Entries, in_entries};
use super::name::branch_of;
use super::object::object_by;
use super::walk::{Here, Next, into};
use crate::count::{Count, Memo, Object, count_one_branch, touches};
use crate::document::Document;
use crate::nodes::Nodes;
use crate::part::{CatchAll, ListId, Part, Selection};
use crate::read_error::Branch;
use crate::tables::{List, Tables};
use std::alloc::AllocError;

/// An object, and how often it is read by each list that the choices of its own go through.
#[derive(Drop)]
pub(super) struct Tallied<'r, 'c> {
    pub(super) object: Object<'r, 'c>,
    pub(super) counts: Vec<Count>,
}

/// An object by a list of parts, if it has a reading by that: with its members of no known name or,
/// where it has no reading so and the reader is not strict, without them.
fn tallied_by<'r, 'c>(
    tables: &'r Tables<'c>,
    nodes: &Nodes<'_, '_>,
    memo: &mut Memo,
    node: usize,
    id: ListId,
) -> Result<Option<Tallied<'r, 'c>>, AllocError>
    requires sound { AreSound tables.now nodes.now memo.old.entries.items }
    requires inside { node < count nodes.now }
    requires served { ListIsServed tables.now (list_view id) }
    ensures sound { AreSound tables.now nodes.now memo.new.entries.items }
    ensures tallied { IfOk result (λ tallied.
        IfSome tallied (IsTallied tables.now nodes.now node)) }
{
    let Document::Object(_) = nodes.value(node) else {
        return Ok(None);
    };
    let Some(mut object) = object_by(tables, nodes, node, id) else {
        return Ok(None);
    };
    if object.takes {
        let counts = counts_of(tables, nodes, memo, &object)?;
        if !own_count(&counts).is_none() {
            return Ok(Some(Tallied { object, counts }));
        }
    }
    if tables.strict {
        return Ok(None);
    }
    object.takes = false;
    let counts = counts_of(tables, nodes, memo, &object)?;
    if own_count(&counts).is_none() {
        return Ok(None);
    }
    Ok(Some(Tallied { object, counts }))
}

/// How often an object is read by its own list: the last of the counts.
fn own_count(counts: &[Count]) -> Count
    ensures { result ≡ unwrap_or (slice_get counts.now (length counts.now - 1)) NoCount }
{
    match counts.last() {
        Some(count) => *count,
        None => Count::None,
    }
}

/// What of an object is read in several ways: by a selection, or else a member.
pub(super) fn several_in_object<'c, 'd>(
    tables: &Tables<'c>,
    nodes: &Nodes<'_, 'd>,
    memo: &mut Memo,
    node: usize,
    id: ListId,
) -> Result<Option<Next<'c, 'd>>, AllocError>
    requires sound { AreSound tables.now nodes.now memo.old.entries.items }
    requires inside { node < count nodes.now }
    requires served { ListIsServed tables.now (list_view id) }
    ensures sound { AreSound tables.now nodes.now memo.new.entries.items }
    ensures next { IfOk result (λ next.
        IfSome next (IsNext tables.now nodes.now TwoCount (value_of nodes.now node))) }
{
    let Some(tallied) = tallied_by(tables, nodes, memo, node, id)? else {
        return Ok(None);
    };
    let mut chosen = only_last(tables, tallied.object.list.below.len())?;
    for position in (0..chosen.len()).rev() {
        if is_marked(&chosen, position) {
            if let Some(list) = list_at(tables, &tallied.object, position) {
                let branches = split_in_list(tables, nodes, &tallied, list, &mut chosen)?;
                if let Some(branches) = branches {
                    return Ok(Some(Next::Here(Here::Splits(branches))));
                }
            }
        }
    }
    first_several(tables, nodes, memo, &tallied.object, &chosen)
}

/// So many marks, of which the last is set.
fn only_last(tables: &Tables<'_>, count: usize) -> Result<Vec<bool>, AllocError>
    ensures { IfOk result (λ marks. (i : ℕ) → slice_get marks.items i ≡ Some true → i + 1 ≡ count) }
{
    let mut marks = Vec::new(tables.alloc);
    for position in 1..=count {
        marks.push(position == count)?;
    }
    Ok(marks)
}

/// Whether a mark is set.
fn is_marked(marks: &[bool], position: usize) -> bool
    ensures { result ≡ true → slice_get marks.now position ≡ Some true }
{
    match marks.get(position) {
        Some(mark) => *mark,
        None => false,
    }
}

/// The branches of the first selection of a list by which an object is read in several ways. Where
/// there is none, the branches by which it is read are marked as chosen.
fn split_in_list<'c>(
    tables: &Tables<'c>,
    nodes: &Nodes<'_, '_>,
    tallied: &Tallied<'_, 'c>,
    list: &List<'c>,
    chosen: &mut [bool],
) -> Result<Option<Vec<Branch<'c>>>, AllocError>
    requires tables { AreTables tables.now }
    requires tallied { IsTallied tables.now nodes.now tallied.now.object.node tallied.now }
    requires below { IsBelow tables.now tallied.now.object list.now }
    requires taken { IsTakenList tables.now nodes.now tallied.now.object (list_view list.now.id) }
    requires chosen { AreTakenLists tables.now nodes.now tallied.now.object chosen.old }
    ensures branches { IfOk result (λ branches. IfSome branches (λ bs. All
        (IsReadBy (rules_at tables.now) (value_of nodes.now tallied.now.object.node)) bs.items)) }
    ensures chosen { IfOk result (λ _. AreTakenLists tables.now nodes.now tallied.now.object
        chosen.new) }
{
    for part in &list.parts {
        if let Part::Selection(selection) = part {
            let branches = branches_of(tables, nodes, tallied, selection)?;
            if branches.len() > 1 {
                return Ok(Some(branches));
            }
            if let Some(branch) = branches.first() {
                choose(tables, &tallied.object, branch.list, chosen);
            }
        }
    }
    Ok(None)
}

/// Marks a list as chosen.
fn choose(tables: &Tables<'_>, object: &Object<'_, '_>, id: ListId, chosen: &mut [bool])
    requires served { ListIsServed tables.now (list_view id) }
    ensures { (nodes : code_nodes.Nodes)
        → IsTakenList tables.now nodes object.now (list_view id)
        → AreTakenLists tables.now nodes object.now chosen.old
        → AreTakenLists tables.now nodes object.now chosen.new }
{
    if let Some(position) = position_of(tables, object, id) {
        if position < chosen.len() {
            chosen[position] = true;
        }
    }
}

/// The branches of a selection by which an object is read.
fn branches_of<'c>(
    tables: &Tables<'c>,
    nodes: &Nodes<'_, '_>,
    tallied: &Tallied<'_, 'c>,
    selection: &Selection<'_>,
) -> Result<Vec<Branch<'c>>, AllocError>
    requires tables { AreTables tables.now }
    requires tallied { IsTallied tables.now nodes.now tallied.now.object.node tallied.now }
    requires served { All (ListIsServed tables.now) (selection_view selection.now).branches }
    requires named { HasBranchNames (rules_at tables.now).lists selection.now }
    requires before { PartIsBefore tables.now tallied.now.object.list.now.below.items
        (length tallied.now.counts.items) (a_selection (selection_view selection.now)) }
    requires part { IsTakenPart tables.now nodes.now tallied.now.object
        (a_selection (selection_view selection.now)) }
    ensures { IfOk result (λ branches.
        All (IsTakenBranch tables.now nodes.now tallied.now.object) branches.items) }
{
    let object = &tallied.object;
    let mut branches = Vec::new(tables.alloc);
    if selection.optional && !touches(tables, nodes, object, selection) {
        return Ok(branches);
    }
    for branch in &selection.branches {
        add_branch(tables, nodes, tallied, selection, branch, &mut branches)?;
    }
    Ok(branches)
}

/// Adds a branch of a selection, if an object is read by it.
fn add_branch<'c>(
    tables: &Tables<'c>,
    nodes: &Nodes<'_, '_>,
    tallied: &Tallied<'_, 'c>,
    selection: &Selection<'_>,
    branch: &ListId,
    branches: &mut Vec<Branch<'c>>,
) -> Result<(), AllocError>
    requires tables { AreTables tables.now }
    requires tallied { IsTallied tables.now nodes.now tallied.now.object.node tallied.now }
    requires served { All (ListIsServed tables.now) (selection_view selection.now).branches }
    requires named { HasBranchNames (rules_at tables.now).lists selection.now }
    requires before { PartIsBefore tables.now tallied.now.object.list.now.below.items
        (length tallied.now.counts.items) (a_selection (selection_view selection.now)) }
    requires present { CanBePresent (rules_at tables.now)
        (object_view nodes.now tallied.now.object) (selection_view selection.now) }
    requires part { IsTakenPart tables.now nodes.now tallied.now.object
        (a_selection (selection_view selection.now)) }
    requires branch { IsBranchOf (selection_view selection.now) (list_view branch.now) }
    requires branches { All (IsTakenBranch tables.now nodes.now tallied.now.object)
        branches.old.items }
    ensures { OnOk result (All (IsTakenBranch tables.now nodes.now tallied.now.object)
        branches.new.items) }
{
    let object = &tallied.object;
    let counts = &tallied.counts;
    let count = count_one_branch(tables, nodes, object, selection, *branch, counts);
    if count.is_none() {
        return Ok(());
    }
    let branch = branch_of(tables.shapes, *branch);
    // In place of `?`, for which no proof is generated at an entry of this type.
    match branches.push(branch) {
        Ok(()) => Ok(()),
        Err(_) => Err(AllocError),
    }
}

/// The branches that join by which a value is read.
pub(super) fn branches_by<'c>(
    tables: &Tables<'c>,
    nodes: &Nodes<'_, '_>,
    memo: &mut Memo,
    node: usize,
    joined: ListId,
) -> Result<Vec<Branch<'c>>, AllocError>
    requires sound { AreSound tables.now nodes.now memo.old.entries.items }
    requires inside { node < count nodes.now }
    requires joined { ListIsServed tables.now (list_view joined) }
    ensures sound { AreSound tables.now nodes.now memo.new.entries.items }
    ensures branches { IfOk result (λ branches.
        All (IsReadBy (rules_at tables.now) (value_of nodes.now node)) branches.items) }
{
    let Some(tallied) = tallied_by(tables, nodes, memo, node, joined)? else {
        return Ok(Vec::new(tables.alloc));
    };
    first_branches(tables, nodes, &tallied)
}

/// The branches by which an object is read of the selection that its list begins with.
fn first_branches<'c>(
    tables: &Tables<'c>,
    nodes: &Nodes<'_, '_>,
    tallied: &Tallied<'_, 'c>,
) -> Result<Vec<Branch<'c>>, AllocError>
    requires tables { AreTables tables.now }
    requires tallied { IsTallied tables.now nodes.now tallied.now.object.node tallied.now }
    ensures { IfOk result (λ branches. All (IsReadBy (rules_at tables.now)
        (value_of nodes.now tallied.now.object.node)) branches.items) }
{
    for part in &tallied.object.list.parts {
        if let Part::Selection(selection) = part {
            return branches_of(tables, nodes, tallied, selection);
        }
    }
    Ok(Vec::new(tables.alloc))
}

/// The first member of an object that is read in several ways by the lists that are chosen.
fn first_several<'c, 'd>(
    tables: &Tables<'c>,
    nodes: &Nodes<'_, 'd>,
    memo: &mut Memo,
    object: &Object<'_, 'c>,
    chosen: &[bool],
) -> Result<Option<Next<'c, 'd>>, AllocError>
    requires sound { AreSound tables.now nodes.now memo.old.entries.items }
    requires object { IsObject tables.now nodes.now object.now }
    ensures sound { AreSound tables.now nodes.now memo.new.entries.items }
    ensures next { (v : Tree) → IfOk result (λ next.
        IfSome next (IsNext tables.now nodes.now TwoCount v)) }
{
    let mut first = None;
    for position in 0..chosen.len() {
        if chosen[position] {
            let next = several_at(tables, nodes, memo, object, position)?;
            first = earlier(first, next);
        }
    }
    Ok(first)
}

/// The first member of an object that is read in several ways by the list at a position.
fn several_at<'c, 'd>(
    tables: &Tables<'c>,
    nodes: &Nodes<'_, 'd>,
    memo: &mut Memo,
    object: &Object<'_, 'c>,
    position: usize,
) -> Result<Option<Next<'c, 'd>>, AllocError>
    requires sound { AreSound tables.now nodes.now memo.old.entries.items }
    requires object { IsObject tables.now nodes.now object.now }
    ensures sound { AreSound tables.now nodes.now memo.new.entries.items }
    ensures next { (v : Tree) → IfOk result (λ next.
        IfSome next (IsNext tables.now nodes.now TwoCount v)) }
{
    match list_at(tables, object, position) {
        Some(list) => several_in_list(tables, nodes, memo, object, list),
        None => Ok(None),
    }
}

/// The first member of an object that is read in several ways by a part of a list.
fn several_in_list<'c, 'd>(
    tables: &Tables<'c>,
    nodes: &Nodes<'_, 'd>,
    memo: &mut Memo,
    object: &Object<'_, 'c>,
    list: &List<'c>,
) -> Result<Option<Next<'c, 'd>>, AllocError>
    requires sound { AreSound tables.now nodes.now memo.old.entries.items }
    requires object { IsObject tables.now nodes.now object.now }
    requires below { IsBelow tables.now object.now list.now }
    ensures sound { AreSound tables.now nodes.now memo.new.entries.items }
    ensures next { (v : Tree) → IfOk result (λ next.
        IfSome next (IsNext tables.now nodes.now TwoCount v)) }
{
    let mut first = None;
    for part in &list.parts {
        let next = several_in_part(tables, nodes, memo, object, part)?;
        first = earlier(first, next);
    }
    Ok(first)
}

/// The one of two values that stands first.
fn earlier<'c, 'd>(
    first: Option<Next<'c, 'd>>,
    second: Option<Next<'c, 'd>>,
) -> Option<Next<'c, 'd>>
    ensures { (result ≡ first.entry) ⊎ (result ≡ second.entry) }
{
    let is_second = match (&first, &second) {
        (Some(Next::Into(one, _)), Some(Next::Into(other, _))) => other < one,
        (first, _) => first.is_none(),
    };
    if is_second { second } else { first }
}

/// The first member that is read by a part in several ways.
fn several_in_part<'c, 'd>(
    tables: &Tables<'c>,
    nodes: &Nodes<'_, 'd>,
    memo: &mut Memo,
    object: &Object<'_, 'c>,
    part: &Part<'c>,
) -> Result<Option<Next<'c, 'd>>, AllocError>
    requires sound { AreSound tables.now nodes.now memo.old.entries.items }
    requires object { IsObject tables.now nodes.now object.now }
    requires served { PartIsServed tables.now (part_view part.now) }
    ensures sound { AreSound tables.now nodes.now memo.new.entries.items }
    ensures next { (v : Tree) → IfOk result (λ next.
        IfSome next (IsNext tables.now nodes.now TwoCount v)) }
{
    match part {
        Part::Member(member) => match nodes.member(object.node, member.name) {
            Some(value) => into(tables, nodes, memo, value, &member.target, Count::Several),
            None => Ok(None),
        },
        Part::CatchAll(CatchAll::Map(key, value)) => {
            let entries = Entries {
                key: *key,
                value: *value,
                besides: Some(object.list),
            };
            in_entries(tables, nodes, memo, object.node, &entries, Count::Several)
        }
        Part::CatchAll(CatchAll::Anything) | Part::Selection(_) => Ok(None),
    }
}
