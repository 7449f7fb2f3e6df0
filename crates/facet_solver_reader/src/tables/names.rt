//! The names that the choices of a list have.
ghost use Rattle.std.specs.Prelude.{◌≡◌, All, IfErr, IfOk, IsSorted, IsTrue, MatchOption, OnOk, map};
ghost use Rattle.std.specs.List.{list_any};
ghost use Rattle.facet_solver_shape.specs.Catalogues.{RepeatsName};
ghost use Rattle.facet_solver_shape.specs.Names.{name_ref_cmp, names_of};
ghost use Rattle.facet_solver_reader.specs.declared.tables.order.Ordered as placed;
ghost use Rattle.facet_solver_reader.specs.Known.{named, rest};
ghost use Rattle.facet_solver_reader.specs.Parts.{a_selection};
ghost use Rattle.facet_solver_reader.specs.Places.{IsRepeated};
ghost use Rattle.facet_solver_reader.specs.Placing.{AreNamesAdded, AreNamesOf, ArePartNames, AreThose, IsRestOf, IsShared, IsWhyShared, PartHasBranchNamesIn, list_knows, part_knows};
ghost use Rattle.facet_solver_reader.specs.Views.{list_view, part_view, parts_view, selection_view};

use super::fault::Fault;
use super::order::Ordered;
use crate::part::{ListId, Part, Selection};
use std::alloc::{AllocError, Global};

/// Gives each selection among the parts of a list the names of its branches.
pub(super) fn name_selections<'c>(
    alloc: Global,
    ordered: &Ordered<'c>,
    parts: &mut Vec<Part<'c>>,
) -> Result<(), AllocError>
    ensures same { OnOk result (parts_view parts.new.items ≡ parts_view parts.old.items) }
    ensures named { OnOk result (All (PartHasBranchNamesIn ordered.now) parts.new.items) }
{
    for part in parts.iter_mut() {
        name_part(alloc, ordered, part)?;
    }
    Ok(())
}

/// Gives a part the names of its branches, if it is a selection.
fn name_part<'c>(
    alloc: Global,
    ordered: &Ordered<'c>,
    part: &mut Part<'c>,
) -> Result<(), AllocError>
    ensures same { part_view part.new ≡ part_view part.old }
    ensures named { OnOk result (PartHasBranchNamesIn ordered.now part.new) }
{
    if let Part::Selection(selection) = part {
        selection.names = names_of_selection(alloc, ordered, selection)?;
    }
    Ok(())
}

/// The names of the members of a list's choices, rising. An error tells one that a choice has
/// twice.
pub(super) fn names_of<'c>(
    alloc: Global,
    ordered: &Ordered<'c>,
    list: ListId,
    parts: &[Part<'c>],
) -> Result<Vec<&'c str>, Fault<'c>>
    requires named { All (PartHasBranchNamesIn ordered.now) parts.now }
    ensures ok { IfOk result (λ names.
        ArePartNames ordered.now (parts_view parts.now) names.items) }
    ensures err { IfErr result (IsWhyShared ordered.now (list_view list) (parts_view parts.now)) }
{
    let names = names_of_each(alloc, parts)?;
    if let Some(name) = repeated(&names) {
        return Err(name_twice(ordered, list, parts, name));
    }
    Ok(names)
}

/// The names of the members of each part, rising.
fn names_of_each<'c>(alloc: Global, parts: &[Part<'c>]) -> Result<Vec<&'c str>, AllocError>
    ensures sorted { IfOk result (λ names. IsSorted name_ref_cmp names.items) }
    ensures names { (o : placed.Ordered) → All (PartHasBranchNamesIn o) parts.now
        → IfOk result (λ names. AreNamesOf o (parts_view parts.now) (names_of names.items)) }
{
    let mut names = Vec::with_capacity(alloc, names_len(parts))?;
    for part in parts {
        push_names(part, &mut names)?;
    }
    names.sort_unstable();
    Ok(names)
}

/// How many names parts have, those of each counted by themselves.
fn names_len(parts: &[Part<'_>]) -> usize {
    let mut len: usize = 0;
    for part in parts {
        len = len.saturating_add(match part {
            Part::Member(_) => 1,
            Part::CatchAll(_) => 0,
            Part::Selection(selection) => selection.names.len(),
        });
    }
    len
}

/// Adds the names of the members of a part, each once.
fn push_names<'c>(part: &Part<'c>, names: &mut Vec<&'c str>) -> Result<(), AllocError>
    ensures { (o : placed.Ordered) → PartHasBranchNamesIn o part.now → OnOk result
        (AreNamesAdded o (part_view part.now)
        (names_of names.old.items) (names_of names.new.items)) }
{
    match part {
        Part::Member(member) => names.push(member.name)?,
        Part::CatchAll(_) => {}
        Part::Selection(selection) => names.extend_from_slice(&selection.names)?,
    }
    Ok(())
}

/// The names of the members of the branches of a selection, rising.
fn names_of_selection<'c>(
    alloc: Global,
    ordered: &Ordered<'c>,
    selection: &Selection<'_>,
) -> Result<Vec<&'c str>, AllocError>
    ensures sorted { IfOk result (λ names. IsSorted name_ref_cmp names.items) }
    ensures those { let part = a_selection (selection_view selection.now) in IfOk result (λ names.
        AreThose (λ x. IsTrue (part_knows ordered.now (named x) part)) (names_of names.items)) }
{
    let mut names = Vec::new(alloc);
    for branch in &selection.branches {
        if let Some(list) = ordered.entry(*branch) {
            names.extend_from_slice(&list.names)?;
        }
    }
    names.sort_unstable();
    names.dedup();
    // Branches may share most names: what is kept has just the room that its names take.
    Vec::from_slice(alloc, &names)
}

/// The first of sorted names that is the next one too.
fn repeated<'c>(names: &[&'c str]) -> Option<&'c str>
    requires { IsSorted name_ref_cmp names.now }
    ensures { MatchOption result (¬ RepeatsName (names_of names.now))
        (λ name. IsRepeated (names_of names.now) name.now) }
{
    for later in 1..names.len() {
        if names[later - 1] == names[later] {
            return Some(names[later]);
        }
    }
    None
}

/// The fault of a name that two parts have.
fn name_twice<'c>(
    ordered: &Ordered<'c>,
    list: ListId,
    parts: &[Part<'c>],
    name: &'c str,
) -> Fault<'c>
    requires { IsShared ordered.now (parts_view parts.now) (named name.now) }
    ensures { IsWhyShared ordered.now (list_view list) (parts_view parts.now) result }
{
    let mut earlier = None;
    for (index, part) in parts.iter().enumerate() {
        if has_name(ordered, part, name) {
            if let Some(first) = earlier {
                return Fault::NameTwice {
                    list,
                    name,
                    first,
                    second: index,
                };
            }
            earlier = Some(index);
        }
    }
    unreachable!()
}

/// Whether a choice of a part has a member of the name.
fn has_name(ordered: &Ordered<'_>, part: &Part<'_>, name: &str) -> bool
    ensures { result ≡ part_knows ordered.now (named name.now) (part_view part.now) }
{
    match part {
        Part::Member(member) => member.name == name,
        Part::CatchAll(_) => false,
        Part::Selection(selection) => some_has_name(ordered, &selection.branches, name),
    }
}

/// Whether a choice of one of the lists has a member of the name.
fn some_has_name(ordered: &Ordered<'_>, lists: &[ListId], name: &str) -> bool
    ensures { let x = named name.now in
        result ≡ list_any (list_knows ordered.now x) (map list_view lists.now) }
{
    for list in lists {
        if list_has_name(ordered, *list, name) {
            return true;
        }
    }
    false
}

/// Whether a choice of a list that is placed has a member of the name.
fn list_has_name(ordered: &Ordered<'_>, list: ListId, name: &str) -> bool
    ensures { result ≡ list_knows ordered.now (named name.now) (list_view list) }
{
    match ordered.entry(list) {
        Some(list) => list.names.iter().any(|known| *known == name),
        None => false,
    }
}

/// Whether a choice of a list has a catch-all. An error tells that one has two.
pub(super) fn takes_rest<'c>(
    ordered: &Ordered<'c>,
    list: ListId,
    parts: &[Part<'c>],
) -> Result<bool, Fault<'c>>
    ensures ok { IfOk result (IsRestOf ordered.now (parts_view parts.now)) }
    ensures err { IfErr result (IsWhyShared ordered.now (list_view list) (parts_view parts.now)) }
{
    let mut taker = None;
    for (index, part) in parts.iter().enumerate() {
        if part_takes_rest(ordered, part) {
            if let Some(first) = taker {
                return Err(Fault::TwoCatchAlls {
                    list,
                    first,
                    second: index,
                });
            }
            taker = Some(index);
        }
    }
    Ok(taker.is_some())
}

/// Whether a choice of a part has a catch-all.
fn part_takes_rest(ordered: &Ordered<'_>, part: &Part<'_>) -> bool
    ensures { result ≡ part_knows ordered.now rest (part_view part.now) }
{
    match part {
        Part::Member(_) => false,
        Part::CatchAll(_) => true,
        Part::Selection(selection) => {
            selection
                .branches
                .iter()
                .any(|branch| list_takes_rest(ordered, *branch))
        }
    }
}

/// Whether a choice of a list that is placed has a catch-all.
fn list_takes_rest(ordered: &Ordered<'_>, list: ListId) -> bool
    ensures { result ≡ list_knows ordered.now rest (list_view list) }
{
    match ordered.entry(list) {
        Some(list) => list.takes_rest,
        None => false,
    }
}
