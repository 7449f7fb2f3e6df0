//! Which lists the names of an object leave, and the texts of its tags.
ghost use Rattle.std.specs.Prelude.{All};
ghost use Rattle.facet_solver_reader.specs.Nodes.{IsNumbering};
ghost use Rattle.facet_solver_reader.specs.Reading.{IsListed, IsObject};
ghost use Rattle.facet_solver_reader.specs.SelectionNames.{HasBranchNames, PartHasBranchNames};
ghost use Rattle.facet_solver_reader.specs.Tables.{AreTables, ListIsServed, PartIsServed, rules_at};
ghost use Rattle.facet_solver_reader.specs.Views.{list_view, part_view, selection_view};

use super::asked::{AskedObject, position_of};
use super::naming::told_at;
use crate::count::{Object, fails_at_once, fits, touches};
use crate::nodes::Nodes;
use crate::part::{ListId, Part, Selection};
use crate::tables::{List, Tables};
use std::alloc::AllocError;

/// Whether an object has the names that each list asks for which the choices of its own go through,
/// and the texts of its tags.
pub(super) fn left_by_names(
    tables: &Tables<'_>,
    nodes: &Nodes<'_, '_>,
    object: &Object<'_, '_>,
) -> Result<Vec<bool>, AllocError>
    requires tables { AreTables tables.now }
    requires numbering { IsNumbering nodes.now }
    requires object { IsObject tables.now nodes.now object.now }
{
    let mut left = Vec::new(tables.alloc);
    for index in &object.list.below {
        let is_left = is_left(tables, nodes, object, &tables.lists[*index], &left);
        left.push(is_left)?;
    }
    Ok(left)
}

/// Whether it has those of a list, by the same of the lists before it.
fn is_left(
    tables: &Tables<'_>,
    nodes: &Nodes<'_, '_>,
    object: &Object<'_, '_>,
    list: &List<'_>,
    left: &[bool],
) -> bool
    requires tables { AreTables tables.now }
    requires numbering { IsNumbering nodes.now }
    requires object { IsObject tables.now nodes.now object.now }
    requires listed { IsListed tables.now list.now }
{
    for part in &list.parts {
        if !part_is_left(tables, nodes, object, part, left) {
            return false;
        }
    }
    true
}

/// Whether it has those of a part.
fn part_is_left(
    tables: &Tables<'_>,
    nodes: &Nodes<'_, '_>,
    object: &Object<'_, '_>,
    part: &Part<'_>,
    left: &[bool],
) -> bool
    requires tables { AreTables tables.now }
    requires numbering { IsNumbering nodes.now }
    requires object { IsObject tables.now nodes.now object.now }
    requires served { PartIsServed tables.now (part_view part.now) }
    requires named { PartHasBranchNames (rules_at tables.now).lists part.now }
{
    match part {
        Part::Member(_) => !fails_at_once(nodes, object.node, part),
        Part::CatchAll(_) => true,
        Part::Selection(selection) => {
            if selection.optional && !touches(tables, nodes, object, selection) {
                return true;
            }
            first_left(tables, nodes, object, selection, left).is_some()
        }
    }
}

/// The position of the first branch that is left of a selection.
fn first_left(
    tables: &Tables<'_>,
    nodes: &Nodes<'_, '_>,
    object: &Object<'_, '_>,
    selection: &Selection<'_>,
    left: &[bool],
) -> Option<usize>
    requires tables { AreTables tables.now }
    requires numbering { IsNumbering nodes.now }
    requires object { IsObject tables.now nodes.now object.now }
    requires served { All (ListIsServed tables.now) (selection_view selection.now).branches }
    requires named { HasBranchNames (rules_at tables.now).lists selection.now }
{
    for branch in &selection.branches {
        let position = left_at(tables, nodes, object, selection, *branch, left);
        if position.is_some() {
            return position;
        }
    }
    None
}

/// The position of a branch, if it is left.
fn left_at(
    tables: &Tables<'_>,
    nodes: &Nodes<'_, '_>,
    object: &Object<'_, '_>,
    selection: &Selection<'_>,
    branch: ListId,
    left: &[bool],
) -> Option<usize>
    requires tables { AreTables tables.now }
    requires numbering { IsNumbering nodes.now }
    requires object { IsObject tables.now nodes.now object.now }
    requires served { All (ListIsServed tables.now) (selection_view selection.now).branches }
    requires named { HasBranchNames (rules_at tables.now).lists selection.now }
    requires branch { ListIsServed tables.now (list_view branch) }
{
    let position = position_of(tables, object, branch)?;
    let list = tables.list(branch)?;
    let is_left = *left.get(position)?;
    if is_left && fits(tables, nodes, object, selection, list) {
        Some(position)
    } else {
        None
    }
}

/// The position of the one branch that is left of a selection, of those that are told.
pub(super) fn only_left(
    tables: &Tables<'_>,
    nodes: &Nodes<'_, '_>,
    asked: &AskedObject<'_, '_>,
    selection: &Selection<'_>,
    by_name: bool,
) -> Option<usize>
    requires tables { AreTables tables.now }
    requires numbering { IsNumbering nodes.now }
    requires object { IsObject tables.now nodes.now asked.now.object }
    requires served { All (ListIsServed tables.now) (selection_view selection.now).branches }
    requires named { HasBranchNames (rules_at tables.now).lists selection.now }
{
    let mut only = None;
    for branch in &selection.branches {
        let is_told = told_at(tables, asked, *branch, by_name).is_some();
        let position = left_at(
            tables,
            nodes,
            &asked.object,
            selection,
            *branch,
            &asked.left,
        );
        if is_told && position.is_some() {
            if only.is_some() {
                return None;
            }
            only = position;
        }
    }
    only
}
