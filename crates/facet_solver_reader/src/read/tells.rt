//! Which lists have something to tell of an object that is read by them.
ghost use Rattle.std.specs.Prelude.{◌≡◌, ◌↔◌, false, IsTrue};
ghost use Rattle.facet_solver_reader.specs.Reading.{IsListed};
ghost use Rattle.facet_solver_reader.specs.Steps.{is_branch, is_of_enum};
ghost use Rattle.facet_solver_reader.specs.Tables.{AreTables};
ghost use Rattle.facet_solver_reader.specs.Tells.{HasEnumBelow, TellsNothing, may_lack_enum, tells_of_enum};
ghost use Rattle.facet_solver_reader.specs.Views.{list_view, part_view, parts_view, selection_view};

use crate::part::{ListId, Part, Selection};
use crate::tables::{List, Tables};

/// Whether a choice of a list may go through a step: it has a member or a catch-all, or it may
/// select a variant of an enum or lack one.
///
/// A list that has nothing to tell need not be gone through. That is more than speed: where a type
/// flattens a struct without members twice on each of many levels, its one choice has more parts
/// than can be gone through.
pub(super) fn tells(tables: &Tables<'_>, list: &List<'_>) -> bool
    requires tables { AreTables tables.now }
    requires listed { IsListed tables.now list.now }
    ensures some { IsTrue result → TellsNothing tables.now list.now → ⊥ }
    ensures nothing { result ≡ false → TellsNothing tables.now list.now }
{
    !list.names.is_empty() || list.takes_rest || has_enum_below(tables, list)
}

/// Whether a list that tells of an enum is among those that the choices of a list go through.
fn has_enum_below(tables: &Tables<'_>, list: &List<'_>) -> bool
    requires tables { AreTables tables.now }
    requires listed { IsListed tables.now list.now }
    ensures { IsTrue result ↔ HasEnumBelow tables.now list.now }
{
    for index in &list.below {
        if tells_of_enum(&tables.lists[*index]) {
            return true;
        }
    }
    false
}

/// Whether a list tells of an enum: it is a branch of one, or one may be absent in it.
fn tells_of_enum(list: &List<'_>) -> bool
    ensures { result ≡ tells_of_enum (list_view list.now.id) (parts_view list.now.parts.items) }
{
    is_branch(list.id) || list.parts.iter().any(|part| may_lack_enum(part))
}

/// Whether a part is an enum that may be absent.
fn may_lack_enum(part: &Part<'_>) -> bool
    ensures { result ≡ may_lack_enum (part_view part.now) }
{
    match part {
        Part::Selection(selection) => selection.optional && is_of_enum(selection),
        _ => false,
    }
}

/// Whether a selection is of an enum: some list of it is a branch of one.
pub(super) fn is_of_enum(selection: &Selection<'_>) -> bool
    ensures { result ≡ is_of_enum (selection_view selection.now) }
{
    selection.branches.iter().any(|id| is_branch(*id))
}

/// Whether a list is a branch of an enum.
fn is_branch(id: ListId) -> bool
    ensures { result ≡ is_branch (list_view id) }
{
    matches!(id, ListId::Branch(..))
}
