//! The branch by which an object is read, where it is read by a selection in one way.
ghost use Rattle.std.specs.Prelude.{◌<◌, All, IfSome, IsTrue, length};
ghost use Rattle.facet_solver_reader.specs.declared.count.Count.TheVariants.{One};
ghost use Rattle.facet_solver_reader.specs.Branches.{ReadsList, ReadsPart};
ghost use Rattle.facet_solver_reader.specs.Choices.{Choice, ChoiceAt};
ghost use Rattle.facet_solver_reader.specs.Chosen.{IsAlone, IsChosen};
ghost use Rattle.facet_solver_reader.specs.LookedUp.{IsLast};
ghost use Rattle.facet_solver_reader.specs.Nodes.{IsNumbering, members_in, value_of};
ghost use Rattle.facet_solver_reader.specs.OnlyBranch.{IsOnlyBranch};
ghost use Rattle.facet_solver_reader.specs.Parts.{a_selection};
ghost use Rattle.facet_solver_reader.specs.Reading.{AreListCounts, IsListed, IsObject, IsPartCount, object_view};
ghost use Rattle.facet_solver_reader.specs.Readings.{ReadsValue};
ghost use Rattle.facet_solver_reader.specs.SelectionNames.{HasBranchNames};
ghost use Rattle.facet_solver_reader.specs.Tables.{AreTables, IsPartOfList, ListIsServed, PartIsBefore, PartIsServed, rules_at};
ghost use Rattle.facet_solver_reader.specs.Views.{list_view, part_view, selection_view};

use super::list::some_fails_at_once;
use super::object::Object;
use super::selection::{Passed, count_branch, touches};
use super::tag::{LookedUp, fails_at_first, lacks_some};
use super::tagged::tagged_branch;
use crate::count::Count;
use crate::nodes::Nodes;
use crate::part::{ListId, Part, Selection};
use crate::tables::{List, Tables};

/// The branch, by its index, by which an object is read that has one reading by a selection; `None`
/// where the selection is absent.
pub(crate) fn chosen_branch<'r>(
    tables: &Tables<'_>,
    nodes: &'r Nodes<'_, '_>,
    object: &Object<'_, '_>,
    selection: &'r Selection<'_>,
    counts: &[Count],
) -> Option<usize>
    requires tables { AreTables tables.now }
    requires numbering { IsNumbering nodes.now }
    requires object { IsObject tables.now nodes.now object.now }
    requires counts { AreListCounts tables.now nodes.now object.now counts.now }
    requires served { All (ListIsServed tables.now) (selection_view selection.now).branches }
    requires named { HasBranchNames (rules_at tables.now).lists selection.now }
    requires before { PartIsBefore tables.now object.now.list.now.below.items (length counts.now)
        (a_selection (selection_view selection.now)) }
    requires one { IsPartCount tables.now nodes.now object.now
        (a_selection (selection_view selection.now)) One }
    ensures { IsChosen tables.now nodes.now object.now (selection_view selection.now) result }
{
    if selection.optional && !touches(tables, nodes, object, selection) {
        return None;
    }
    let mut passed = Passed::none();
    for (k, branch) in selection.branches.iter().enumerate() {
        let count = count_branch(
            tables,
            nodes,
            object,
            selection,
            *branch,
            counts,
            &mut passed,
        );
        if !count.is_none() {
            return Some(k);
        }
    }
    unreachable!()
}

/// The branch, by its index, that alone may read an object by a selection: the only one, the one
/// that the object's tag names, or else the one that is left, where for each other the object lacks
/// a required member or has another tag. `None` where several are left, or none of several.
pub(crate) fn lone_branch(
    tables: &Tables<'_>,
    nodes: &Nodes<'_, '_>,
    object: &Object<'_, '_>,
    selection: &Selection<'_>,
) -> Option<usize>
    requires tables { AreTables tables.now }
    requires numbering { IsNumbering nodes.now }
    requires object { IsObject tables.now nodes.now object.now }
    requires served { All (ListIsServed tables.now) (selection_view selection.now).branches }
    requires part { IsPartOfList tables.now (a_selection (selection_view selection.now)) }
    ensures within { IfSome result (λ k. k < length selection.now.branches.items) }
    ensures alone { IfSome result
        (IsAlone tables.now nodes.now object.now (selection_view selection.now)) }
{
    if selection.branches.len() == 1 {
        return Some(0);
    }
    if let Some(k) = tagged_branch(tables, nodes, object, selection) {
        return Some(k);
    }
    let mut found = None;
    let mut last = None;
    for (k, branch) in selection.branches.iter().enumerate() {
        if fails_by_branch(tables, nodes, object, *branch, &mut last) {
            continue;
        }
        if found.is_some() {
            return None;
        }
        found = Some(k);
    }
    found
}

/// Whether an object cannot be read by a branch, whatever its values are.
fn fails_by_branch<'c, 't, 'd>(
    tables: &Tables<'c>,
    nodes: &Nodes<'t, 'd>,
    object: &Object<'_, '_>,
    branch: ListId,
    last: &mut Option<LookedUp<'c, 't, 'd>>,
) -> bool
    requires tables { AreTables tables.now }
    requires numbering { IsNumbering nodes.now }
    requires object { IsObject tables.now nodes.now object.now }
    requires served { ListIsServed tables.now (list_view branch) }
    requires last { IsLast (members_in (value_of nodes.now object.now.node)) last.old }
    ensures last { IsLast (members_in (value_of nodes.now object.now.node)) last.new }
    ensures fails { IsTrue result → (c : Choice) → ReadsList (rules_at tables.now)
        (ReadsValue (rules_at tables.now)) (object_view nodes.now object.now) (list_view branch) c
        → ⊥ }
{
    let Some(list) = tables.list(branch) else {
        return true;
    };
    if fails_at_first(nodes, object, list, last) {
        return true;
    }
    if some_fails_at_once(nodes, object.node, &list.parts) {
        return true;
    }
    fails_below(tables, nodes, object, list)
}

/// Whether an object is known to lack a required member of a list that each choice of a list goes
/// through: the fields of a struct that it flattens, or of the struct that a variant holds.
fn fails_below(
    tables: &Tables<'_>,
    nodes: &Nodes<'_, '_>,
    object: &Object<'_, '_>,
    list: &List<'_>,
) -> bool
    requires tables { AreTables tables.now }
    requires object { IsObject tables.now nodes.now object.now }
    requires listed { IsListed tables.now list.now }
    ensures { IsTrue result → (c : Choice) → ReadsList (rules_at tables.now)
        (ReadsValue (rules_at tables.now)) (object_view nodes.now object.now)
        (list_view list.now.id) c → ⊥ }
{
    for part in &list.parts {
        if fails_by_part(tables, nodes, object, part) {
            return true;
        }
    }
    false
}

/// The same of a part that has one list, which each choice goes through.
fn fails_by_part(
    tables: &Tables<'_>,
    nodes: &Nodes<'_, '_>,
    object: &Object<'_, '_>,
    part: &Part<'_>,
) -> bool
    requires tables { AreTables tables.now }
    requires object { IsObject tables.now nodes.now object.now }
    requires served { PartIsServed tables.now (part_view part.now) }
    ensures { IsTrue result → (a : ChoiceAt) → ReadsPart (rules_at tables.now)
        (ReadsValue (rules_at tables.now)) (object_view nodes.now object.now)
        (part_view part.now) a → ⊥ }
{
    let Some(branch) = only_branch(part) else {
        return false;
    };
    let Some(list) = tables.list(branch) else {
        return true;
    };
    lacks_some(nodes, object, &list.parts)
}

/// The list of a part that has one, which is never absent.
fn only_branch(part: &Part<'_>) -> Option<ListId>
    ensures { IfSome result (λ branch. IsOnlyBranch (part_view part.now) (list_view branch)) }
{
    match part {
        Part::Selection(selection) if !selection.optional && selection.branches.len() == 1 => {
            Some(selection.branches[0])
        }
        _ => None,
    }
}
