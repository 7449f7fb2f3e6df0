//! The lists of parts.
ghost use Rattle.std.specs.Prelude.{◌≡◌, All, IfOk};
ghost use Rattle.std.specs.List.{filter_map};
ghost use Rattle.facet_solver_reader.specs.declared.plan.numbers.Numbers as numbering;
ghost use Rattle.facet_solver_reader.specs.declared.tables.Tables as tabled;
ghost use Rattle.facet_solver_reader.specs.FieldPlaces.{field_name};
ghost use Rattle.facet_solver_reader.specs.PlanNumbers.{AreFound, AreNumbersOf, CatchAllIsNumbered, HasNumber, PartIsNumbered, meaning_of};
ghost use Rattle.facet_solver_reader.specs.PlannedLists.{IsListFrom, IsListed, IsPartFrom, indices_of};
ghost use Rattle.facet_solver_reader.specs.Plans.{AreInPairs, HasFieldName, HaveFieldNames, IsPlannedCatchAll, IsPlannedMember, IsPlannedSelection};
ghost use Rattle.facet_solver_reader.specs.SelectionNames.{HasBranchNames, PartHasBranchNames};
ghost use Rattle.facet_solver_reader.specs.Slots.{index_of};
ghost use Rattle.facet_solver_reader.specs.Tables.{AreTables, ListIsServed, PartIsServed, rules_at};
ghost use Rattle.facet_solver_reader.specs.Views.{catch_all_view, list_view, member_view, part_view, parts_view, selection_view};

use super::names::name_of_list;
use super::numbers::Numbers;
use super::{PlannedCatchAll, PlannedList, PlannedMember, PlannedPart, PlannedSelection};
use crate::field_at::field_name;
use crate::part::{CatchAll, ListId, MemberPart, Part, Selection};
use crate::tables::{List, Tables};
use std::alloc::{AllocError, Global};

/// The lists, in the order of numbers.
pub(super) fn planned_lists<'c>(
    alloc: Global,
    tables: &Tables<'c>,
    numbers: &Numbers<'c>,
) -> Result<Vec<PlannedList<'c>>, AllocError>
    requires tables { AreTables tables.now }
    requires numbers { AreNumbersOf tables.now numbers.now }
    ensures { IfOk result (λ ps. AreInPairs (IsListFrom tables.now numbers.now)
        tables.now.lists.items ps.items) }
{
    let mut lists = Vec::with_capacity(alloc, tables.lists.len())?;
    for list in &tables.lists {
        let planned = planned_list(alloc, tables, numbers, list)?;
        if lists.push(planned).is_err() {
            return Err(AllocError);
        }
    }
    Ok(lists)
}

/// One list.
fn planned_list<'c>(
    alloc: Global,
    tables: &Tables<'c>,
    numbers: &Numbers<'c>,
    list: &List<'c>,
) -> Result<PlannedList<'c>, AllocError>
    requires tables { AreTables tables.now }
    requires numbers { AreNumbersOf tables.now numbers.now }
    requires listed { IsListed tables.now list.now }
    ensures { IfOk result (IsListFrom tables.now numbers.now list.now) }
{
    let parts = planned_parts(alloc, tables, numbers, &list.id, &list.parts)?;
    let names = Vec::from_slice(alloc, &list.names)?;
    let below = Vec::from_slice(alloc, &list.below)?;
    Ok(PlannedList {
        name: name_of_list(tables.shapes, list.id),
        parts,
        names,
        takes_rest: list.takes_rest,
        below,
    })
}

/// The parts of a list of a name.
fn planned_parts<'c>(
    alloc: Global,
    tables: &Tables<'c>,
    numbers: &Numbers<'c>,
    id: &ListId,
    parts: &[Part<'c>],
) -> Result<Vec<PlannedPart<'c>>, AllocError>
    requires tables { AreTables tables.now }
    requires numbers { AreNumbersOf tables.now numbers.now }
    requires served { All (PartIsServed tables.now) (parts_view parts.now) }
    requires numbered { All (PartIsNumbered numbers.now) (parts_view parts.now) }
    requires names { All (PartHasBranchNames (rules_at tables.now).lists) parts.now }
    ensures parts { IfOk result (λ ps. AreInPairs (IsPartFrom tables.now numbers.now)
        (parts_view parts.now) ps.items) }
    ensures fields { IfOk result (λ ps.
        HaveFieldNames tables.now.shapes.now (list_view id.now) ps.items) }
{
    let mut planned = Vec::with_capacity(alloc, parts.len())?;
    for (index, part) in parts.iter().enumerate() {
        let field = field_name(tables.shapes, *id, index);
        let next = planned_part(alloc, tables, numbers, field, part)?;
        if planned.push(next).is_err() {
            return Err(AllocError);
        }
    }
    Ok(planned)
}

/// One part, which is the field of a name, if it is one.
fn planned_part<'c>(
    alloc: Global,
    tables: &Tables<'c>,
    numbers: &Numbers<'c>,
    field: &'c str,
    part: &Part<'c>,
) -> Result<PlannedPart<'c>, AllocError>
    requires tables { AreTables tables.now }
    requires numbers { AreNumbersOf tables.now numbers.now }
    requires served { PartIsServed tables.now (part_view part.now) }
    requires numbered { PartIsNumbered numbers.now (part_view part.now) }
    requires names { PartHasBranchNames (rules_at tables.now).lists part.now }
    ensures part { IfOk result (IsPartFrom tables.now numbers.now (part_view part.now)) }
    ensures field { IfOk result (HasFieldName field.now) }
{
    match part {
        Part::Member(member) => Ok(PlannedPart::Member(planned_member(numbers, member))),
        Part::Selection(selection) => Ok(PlannedPart::Selection(planned_selection(
            alloc, tables, field, selection,
        )?)),
        Part::CatchAll(catch_all) => {
            Ok(PlannedPart::CatchAll(planned_catch_all(numbers, catch_all)))
        }
    }
}

/// A member.
fn planned_member<'c>(numbers: &Numbers<'c>, member: &MemberPart<'c>) -> PlannedMember<'c>
    requires found { AreFound numbers.now }
    requires numbered { HasNumber numbers.now (member_view member.now).target }
    ensures { (t : tabled.Tables) → IsPlannedMember (meaning_of t numbers.now)
        (member_view member.now) result }
{
    PlannedMember {
        name: member.name,
        required: member.required,
        target: numbers.of(&member.target),
    }
}

/// A selection, which is the field of a name.
fn planned_selection<'c>(
    alloc: Global,
    tables: &Tables<'c>,
    field: &'c str,
    selection: &Selection<'c>,
) -> Result<PlannedSelection<'c>, AllocError>
    requires served { All (ListIsServed tables.now) (selection_view selection.now).branches }
    requires names { HasBranchNames (rules_at tables.now).lists selection.now }
    ensures planned { (n : numbering.Numbers) → IfOk result
        (IsPlannedSelection (meaning_of tables.now n) (selection_view selection.now)) }
    ensures indices { IfOk result (λ s. s.branches.items
        ≡ indices_of tables.now.slots (selection_view selection.now).branches) }
    ensures field { IfOk result (λ s. s.field.now ≡ field.now) }
{
    let branches = chosen_branches(alloc, tables, &selection.branches)?;
    let names = Vec::from_slice(alloc, &selection.names)?;
    Ok(PlannedSelection {
        field,
        optional: selection.optional,
        branches,
        names,
    })
}

/// The numbers of the branches that some choice has.
fn chosen_branches(
    alloc: Global,
    tables: &Tables<'_>,
    branches: &[ListId],
) -> Result<Vec<usize>, AllocError>
    ensures { IfOk result (λ ns. ns.items
        ≡ filter_map (λ id. index_of tables.now.slots (list_view id)) branches.now) }
{
    branches
        .iter()
        .filter_map(|branch| tables.slots.index_of(*branch))
        .collect(alloc)
}

/// A catch-all.
fn planned_catch_all(numbers: &Numbers<'_>, catch_all: &CatchAll) -> PlannedCatchAll
    requires found { AreFound numbers.now }
    requires numbered { CatchAllIsNumbered numbers.now (catch_all_view catch_all.now) }
    ensures { (t : tabled.Tables) → IsPlannedCatchAll (meaning_of t numbers.now)
        (catch_all_view catch_all.now) result }
{
    match catch_all {
        CatchAll::Map(key, value) => PlannedCatchAll::Map(*key, numbers.of_shape(*value)),
        CatchAll::Anything => PlannedCatchAll::Anything,
    }
}
