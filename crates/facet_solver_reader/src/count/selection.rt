//! The readings of an object by a selection.
ghost use Rattle.std.specs.Borrow.{Bor};
ghost use Rattle.std.specs.Prelude.{◌≡◌, ◌↔◌, ◌&&◌, ◌<◌, ℕ, All, IsSorted, IsTrue, MatchOption, None, Some, false, length, not, slice_get};
ghost use Rattle.std.specs.List.{find, list_any};
ghost use Rattle.std.specs.List.Sorted.{IsBinarySearchResult};
ghost use Rattle.std.specs.Option.{option_map};
ghost use Rattle.std.specs.Ordering.{nat_cmp};
ghost use Rattle.facet_solver_shape.specs.Names.{Name, name_ref_cmp};
ghost use Rattle.facet_solver_reader.specs.Branches.{CanBePresent, Fits, Misfits, ReadsPart};
ghost use Rattle.facet_solver_reader.specs.Known.{Chooses, IsKnown, IsKnownIn, named, rest};
ghost use Rattle.facet_solver_reader.specs.NameFilters.{HoldsNames};
ghost use Rattle.facet_solver_reader.specs.Nodes.{count, members_in, value_of, IsNumbering};
ghost use Rattle.facet_solver_reader.specs.Objects.{Touches, has_name};
ghost use Rattle.facet_solver_reader.specs.Parts.{a_selection};
ghost use Rattle.facet_solver_reader.specs.Passed.{IsOther, IsPassed};
ghost use Rattle.facet_solver_reader.specs.Reading.{AreListCounts, IsBranchCount, IsListed, IsObject, IsPartCount, object_view};
ghost use Rattle.facet_solver_reader.specs.Readings.{ReadsValue};
ghost use Rattle.facet_solver_reader.specs.SelectionNames.{HasBranchNames, KnowsMember, has_known};
ghost use Rattle.facet_solver_reader.specs.Tables.{AreTables, BranchIsBefore, ListIsServed, PartIsBefore, knows, rules_at};
ghost use Rattle.facet_solver_reader.specs.Views.{list_view, selection_view};

use super::members::members_of;
use super::object::Object;
use crate::count::Count;
use crate::document::Document;
use crate::nodes::Nodes;
use crate::part::{ListId, Selection};
use crate::tables::{List, Tables};

/// What is kept from branch to branch while those of a selection are gone through.
#[derive(Clone, Copy)]
pub(crate) struct Passed<'r> {
    /// The position at which the next branch mostly stands.
    next: usize,
    /// The name of a member that the selection knows: it refused a branch, and mostly refuses the
    /// next.
    other: Option<&'r str>,
}

impl Passed<'_> {
    /// What is known before the first branch.
    pub(crate) fn none() -> Self
        ensures { result.other ≡ None }
    {
        Passed {
            next: 0,
            other: None,
        }
    }

    /// Whether a list lacks the member that refused a branch.
    fn refuses(&self, list: &List<'_>) -> bool
        requires { IsSorted name_ref_cmp list.now.names.items }
        ensures { IsTrue result → (name : Bor Name) × (self.now.other ≡ Some name)
            × (knows list.now (named name.now) ≡ false) }
    {
        match self.other {
            Some(name) => !list.has_name(name),
            None => false,
        }
    }
}

/// How often an object is read by a selection, by the counts of its branches: it is absent where it
/// may be and the object has no member of it, else it is the sum over the branches that have all
/// members which it has.
pub(crate) fn count_selection(
    tables: &Tables<'_>,
    nodes: &Nodes<'_, '_>,
    object: &Object<'_, '_>,
    selection: &Selection<'_>,
    counts: &[Count],
) -> Count
    requires tables { AreTables tables.now }
    requires numbering { IsNumbering nodes.now }
    requires object { IsObject tables.now nodes.now object.now }
    requires counts { AreListCounts tables.now nodes.now object.now counts.now }
    requires served { All (ListIsServed tables.now) (selection_view selection.now).branches }
    requires named { HasBranchNames (rules_at tables.now).lists selection.now }
    requires before { PartIsBefore tables.now object.now.list.now.below.items (length counts.now)
        (a_selection (selection_view selection.now)) }
    ensures { IsPartCount tables.now nodes.now object.now
        (a_selection (selection_view selection.now)) result }
{
    if selection.optional && !touches(tables, nodes, object, selection) {
        return Count::One;
    }
    count_branches(tables, nodes, object, selection, counts)
}

/// How often an object is read by the branches of a selection that is not absent.
fn count_branches<'r>(
    tables: &Tables<'_>,
    nodes: &'r Nodes<'_, '_>,
    object: &Object<'_, '_>,
    selection: &'r Selection<'_>,
    counts: &[Count],
) -> Count
    requires tables { AreTables tables.now }
    requires numbering { IsNumbering nodes.now }
    requires object { IsObject tables.now nodes.now object.now }
    requires counts { AreListCounts tables.now nodes.now object.now counts.now }
    requires served { All (ListIsServed tables.now) (selection_view selection.now).branches }
    requires named { HasBranchNames (rules_at tables.now).lists selection.now }
    requires before { PartIsBefore tables.now object.now.list.now.below.items (length counts.now)
        (a_selection (selection_view selection.now)) }
    requires present { CanBePresent (rules_at tables.now) (object_view nodes.now object.now)
        (selection_view selection.now) }
    ensures { IsPartCount tables.now nodes.now object.now
        (a_selection (selection_view selection.now)) result }
{
    let mut count = Count::None;
    let mut passed = Passed::none();
    for branch in &selection.branches {
        let next = count_branch(
            tables,
            nodes,
            object,
            selection,
            *branch,
            counts,
            &mut passed,
        );
        count = count.plus(next);
    }
    count
}

/// How often an object is read by a branch. The branch is looked for near the one before it, and
/// what refused one before it is tried first.
pub(crate) fn count_branch<'r>(
    tables: &Tables<'_>,
    nodes: &'r Nodes<'_, '_>,
    object: &Object<'_, '_>,
    selection: &'r Selection<'_>,
    branch: ListId,
    counts: &[Count],
    passed: &mut Passed<'r>,
) -> Count
    requires tables { AreTables tables.now }
    requires numbering { IsNumbering nodes.now }
    requires object { IsObject tables.now nodes.now object.now }
    requires counts { AreListCounts tables.now nodes.now object.now counts.now }
    requires served { All (ListIsServed tables.now) (selection_view selection.now).branches }
    requires named { HasBranchNames (rules_at tables.now).lists selection.now }
    requires branch { ListIsServed tables.now (list_view branch) }
    requires before { BranchIsBefore tables.now object.now.list.now.below.items
        (length counts.now) (list_view branch) }
    requires present { CanBePresent (rules_at tables.now) (object_view nodes.now object.now)
        (selection_view selection.now) }
    requires passed { IsPassed (rules_at tables.now) (object_view nodes.now object.now)
        (selection_view selection.now) passed.old }
    ensures passed { IsPassed (rules_at tables.now) (object_view nodes.now object.now)
        (selection_view selection.now) passed.new }
    ensures count { (k : ℕ)
        → slice_get (selection_view selection.now).branches k ≡ Some (list_view branch)
        → IsBranchCount (ReadsPart (rules_at tables.now) (ReadsValue (rules_at tables.now))
        (object_view nodes.now object.now) (a_selection (selection_view selection.now))) k result }
{
    let Some(index) = tables.slots.index_of(branch) else {
        return Count::None;
    };
    let Ok(position) = search_near(&object.list.below, index, passed.next) else {
        return Count::None;
    };
    passed.next = position.saturating_add(1);
    let count = counts[position];
    // Names are compared only where the branch reads the object, and another may have more.
    if count.is_none() || selection.branches.len() == 1 {
        return count;
    }
    let list = &tables.lists[index];
    if fits_next(tables, nodes, object, selection, list, passed) {
        count
    } else {
        Count::None
    }
}

/// How often an object is read by one branch, of which nothing is kept for the next.
pub(crate) fn count_one_branch<'r>(
    tables: &Tables<'_>,
    nodes: &'r Nodes<'_, '_>,
    object: &Object<'_, '_>,
    selection: &'r Selection<'_>,
    branch: ListId,
    counts: &[Count],
) -> Count
    requires tables { AreTables tables.now }
    requires numbering { IsNumbering nodes.now }
    requires object { IsObject tables.now nodes.now object.now }
    requires counts { AreListCounts tables.now nodes.now object.now counts.now }
    requires served { All (ListIsServed tables.now) (selection_view selection.now).branches }
    requires named { HasBranchNames (rules_at tables.now).lists selection.now }
    requires branch { ListIsServed tables.now (list_view branch) }
    requires before { BranchIsBefore tables.now object.now.list.now.below.items
        (length counts.now) (list_view branch) }
    requires present { CanBePresent (rules_at tables.now) (object_view nodes.now object.now)
        (selection_view selection.now) }
    ensures { (k : ℕ)
        → slice_get (selection_view selection.now).branches k ≡ Some (list_view branch)
        → IsBranchCount (ReadsPart (rules_at tables.now) (ReadsValue (rules_at tables.now))
        (object_view nodes.now object.now) (a_selection (selection_view selection.now))) k result }
{
    let mut passed = Passed::none();
    count_branch(
        tables,
        nodes,
        object,
        selection,
        branch,
        counts,
        &mut passed,
    )
}

/// What `binary_search` finds. It is found at once where it stands at a guess: branches of one
/// selection mostly stand side by side.
fn search_near(below: &[usize], index: usize, guess: usize) -> Result<usize, usize>
    ensures position { IsBinarySearchResult (λ y. nat_cmp y index) below.now result }
{
    if guess < below.len() && below[guess] == index {
        return Ok(guess);
    }
    below.binary_search(&index)
}

/// Whether an object has a member that a selection knows.
pub(crate) fn touches(
    tables: &Tables<'_>,
    nodes: &Nodes<'_, '_>,
    object: &Object<'_, '_>,
    selection: &Selection<'_>,
) -> bool
    requires tables { AreTables tables.now }
    requires numbering { IsNumbering nodes.now }
    requires object { IsObject tables.now nodes.now object.now }
    requires served { All (ListIsServed tables.now) (selection_view selection.now).branches }
    requires named { HasBranchNames (rules_at tables.now).lists selection.now }
    ensures { IsTrue result ↔ Touches (rules_at tables.now) (object_view nodes.now object.now)
        (selection_view selection.now) }
{
    knows_member(nodes, object, selection) || touches_rest(tables, object, selection)
}

/// Whether an object has a member that the catch-alls of a selection take.
pub(crate) fn touches_rest(
    tables: &Tables<'_>,
    object: &Object<'_, '_>,
    selection: &Selection<'_>,
) -> bool
    requires tables { AreTables tables.now }
    requires served { All (ListIsServed tables.now) (selection_view selection.now).branches }
    ensures { IsTrue result
        ↔ (IsTrue (object.now.takes && object.now.has_unknown)
        × IsKnownIn (rules_at tables.now).lists (selection_view selection.now) rest) }
{
    object.has_rest() && knows_rest(tables, selection)
}

/// Whether a list has each member of an object that a selection knows.
pub(crate) fn fits<'r>(
    tables: &Tables<'_>,
    nodes: &'r Nodes<'_, '_>,
    object: &Object<'_, '_>,
    selection: &'r Selection<'_>,
    list: &List<'_>,
) -> bool
    requires tables { AreTables tables.now }
    requires numbering { IsNumbering nodes.now }
    requires object { IsObject tables.now nodes.now object.now }
    requires served { All (ListIsServed tables.now) (selection_view selection.now).branches }
    requires named { HasBranchNames (rules_at tables.now).lists selection.now }
    requires listed { IsListed tables.now list.now }
    ensures yes { IsTrue result → Fits (rules_at tables.now) (object_view nodes.now object.now)
        (selection_view selection.now) (list_view list.now.id) }
    ensures no { result ≡ false → Misfits (rules_at tables.now) (object_view nodes.now object.now)
        (selection_view selection.now) (list_view list.now.id) }
{
    let mut passed = Passed::none();
    fits_next(tables, nodes, object, selection, list, &mut passed)
}

/// The same of the next list. The member that refused one before it is tried first.
fn fits_next<'r>(
    tables: &Tables<'_>,
    nodes: &'r Nodes<'_, '_>,
    object: &Object<'_, '_>,
    selection: &'r Selection<'_>,
    list: &List<'_>,
    passed: &mut Passed<'r>,
) -> bool
    requires tables { AreTables tables.now }
    requires numbering { IsNumbering nodes.now }
    requires object { IsObject tables.now nodes.now object.now }
    requires served { All (ListIsServed tables.now) (selection_view selection.now).branches }
    requires named { HasBranchNames (rules_at tables.now).lists selection.now }
    requires listed { IsListed tables.now list.now }
    requires passed { IsPassed (rules_at tables.now) (object_view nodes.now object.now)
        (selection_view selection.now) passed.old }
    ensures passed { IsPassed (rules_at tables.now) (object_view nodes.now object.now)
        (selection_view selection.now) passed.new }
    ensures yes { IsTrue result → Fits (rules_at tables.now) (object_view nodes.now object.now)
        (selection_view selection.now) (list_view list.now.id) }
    ensures no { result ≡ false → Misfits (rules_at tables.now) (object_view nodes.now object.now)
        (selection_view selection.now) (list_view list.now.id) }
{
    if passed.refuses(list) {
        return false;
    }
    if let Some(name) = other_member(nodes, object, selection, list) {
        passed.other = Some(name);
        return false;
    }
    list.takes_rest || !touches_rest(tables, object, selection)
}

/// The name of a member of an object that a selection has and a list lacks. Of the object's members
/// and the selection's names the fewer are gone through.
fn other_member<'r>(
    nodes: &'r Nodes<'_, '_>,
    object: &Object<'_, '_>,
    selection: &'r Selection<'_>,
    list: &List<'_>,
) -> Option<&'r str>
    requires numbering { IsNumbering nodes.now }
    requires inside { object.now.node < count nodes.now }
    requires filter { HoldsNames (members_in (value_of nodes.now object.now.node))
        object.now.filter }
    requires sorted { IsSorted name_ref_cmp selection.now.names.items }
    requires list_sorted { IsSorted name_ref_cmp list.now.names.items }
    ensures { let ms = members_in (value_of nodes.now object.now.node) in MatchOption result
        ((x : Name) → IsOther selection.now list.now ms x → ⊥)
        (λ name. IsOther selection.now list.now ms name.now) }
{
    let members = members_of(nodes.value(object.node));
    if members.len() <= selection.names.len() {
        other_of_members(members, selection, list)
    } else {
        other_of_names(nodes, object, &selection.names, list)
    }
}

/// Whether a selection has a member of an object. Of its names and the object's members the fewer
/// are looked up among the others.
fn knows_member(nodes: &Nodes<'_, '_>, object: &Object<'_, '_>, selection: &Selection<'_>) -> bool
    requires numbering { IsNumbering nodes.now }
    requires inside { object.now.node < count nodes.now }
    requires filter { HoldsNames (members_in (value_of nodes.now object.now.node))
        object.now.filter }
    requires sorted { IsSorted name_ref_cmp selection.now.names.items }
    ensures { IsTrue result
        ↔ KnowsMember selection.now (members_in (value_of nodes.now object.now.node)) }
{
    let members = members_of(nodes.value(object.node));
    if members.len() < selection.names.len() {
        some_is_known(members, selection)
    } else {
        has_any(nodes, object, &selection.names)
    }
}

/// Whether a selection has the name of one of some members.
fn some_is_known(members: &[(&str, Document<'_>)], selection: &Selection<'_>) -> bool
    requires { IsSorted name_ref_cmp selection.now.names.items }
    ensures { result ≡ list_any (λ m. has_known selection.now m.0.now) members.now }
{
    members.iter().any(|member| selection.has_name(member.0))
}

/// Whether an object has a member of one of some names.
fn has_any(nodes: &Nodes<'_, '_>, object: &Object<'_, '_>, names: &[&str]) -> bool
    requires numbering { IsNumbering nodes.now }
    requires inside { object.now.node < count nodes.now }
    requires filter { HoldsNames (members_in (value_of nodes.now object.now.node))
        object.now.filter }
    ensures { result ≡ list_any
        (λ name. has_name (members_in (value_of nodes.now object.now.node)) name.now) names.now }
{
    names.iter().any(|name| has_name(nodes, object, name))
}

/// The first of some members that a list lacks and a selection has, by its name.
fn other_of_members<'r>(
    members: &'r [(&str, Document<'_>)],
    selection: &Selection<'_>,
    list: &List<'_>,
) -> Option<&'r str>
    requires sorted { IsSorted name_ref_cmp selection.now.names.items }
    requires list_sorted { IsSorted name_ref_cmp list.now.names.items }
    ensures { option_map (λ n. n.now) result ≡ option_map (λ m. m.0.now)
        (find (λ m. not (knows list.now (named m.0.now))
        && has_known selection.now m.0.now) members.now) }
{
    let member = members.iter().find(|member| !list.has_name(member.0)
        && selection.has_name(member.0))?;
    Some(member.0)
}

/// The first of some names that a list lacks and of which an object has a member.
fn other_of_names<'r>(
    nodes: &Nodes<'_, '_>,
    object: &Object<'_, '_>,
    names: &'r [&str],
    list: &List<'_>,
) -> Option<&'r str>
    requires numbering { IsNumbering nodes.now }
    requires inside { object.now.node < count nodes.now }
    requires filter { HoldsNames (members_in (value_of nodes.now object.now.node))
        object.now.filter }
    requires sorted { IsSorted name_ref_cmp list.now.names.items }
    ensures { option_map (λ n. n.now) result ≡ option_map (λ n. n.now)
        (find (λ name. not (knows list.now (named name.now))
        && has_name (members_in (value_of nodes.now object.now.node)) name.now) names.now) }
{
    let name = names.iter().find(|name| !list.has_name(name) && has_name(nodes, object, name))?;
    Some(name)
}

/// Whether an object has a member of the name. Most that it lacks are not looked up.
fn has_name(nodes: &Nodes<'_, '_>, object: &Object<'_, '_>, name: &str) -> bool
    requires numbering { IsNumbering nodes.now }
    requires inside { object.now.node < count nodes.now }
    requires filter { HoldsNames (members_in (value_of nodes.now object.now.node))
        object.now.filter }
    ensures { result ≡ has_name (members_in (value_of nodes.now object.now.node)) name.now }
{
    if !object.filter.may_have(name) {
        return false;
    }
    nodes.member(object.node, name).is_some()
}

/// Whether a choice of a branch has a catch-all.
fn knows_rest(tables: &Tables<'_>, selection: &Selection<'_>) -> bool
    requires tables { AreTables tables.now }
    requires served { All (ListIsServed tables.now) (selection_view selection.now).branches }
    ensures { IsTrue result ↔ IsKnownIn (rules_at tables.now).lists
        (selection_view selection.now) rest }
{
    for branch in &selection.branches {
        if branch_knows_rest(tables, *branch) {
            return true;
        }
    }
    false
}

/// Whether a choice of one branch has a catch-all.
fn branch_knows_rest(tables: &Tables<'_>, branch: ListId) -> bool
    requires tables { AreTables tables.now }
    requires served { ListIsServed tables.now (list_view branch) }
    ensures { IsTrue result ↔ IsKnown (Chooses (rules_at tables.now).lists (list_view branch))
        rest }
{
    match tables.list(branch) {
        Some(list) => list.takes_rest,
        None => false,
    }
}
