//! From types by their ids to a catalogue of shapes.
ghost use Rattle.facet_solver_types.specs.CataloguedTypes.{catalogue_of, table_types, shaped};
ghost use Rattle.facet_solver_types.specs.GivenTypes.{GivesTypes};
ghost use Rattle.facet_solver_types.specs.TypeTables.{table_view};
ghost use Rattle.facet_solver_types.specs.Links.{links_view};
ghost use Rattle.facet_solver_types.specs.TypeEntries.{entries_view};
ghost use Rattle.facet_solver_types.specs.Understood.{declarations_view};

mod absences;
mod absent;
mod declared;
mod faults;
mod links;
mod members;
mod ordered;
mod parts;
mod ranks;
mod shapes;
mod standards;
mod table;
mod walks;

use crate::declaration::Declaration;
use crate::failure::Failure;
use crate::faults::told;
use crate::name_places::NamePlaces;
use crate::parsed::Types;
use crate::type_entry::TypeEntry;
use faults::shape_faults;
use links::{ids, needs};
use parts::{checked, types_of};
use std::alloc::Global;
use table::TypeTable;

/// The types of a table, which need others so, where they have shapes.
fn shaped(
    alloc: Global,
    table: TypeTable<'_, '_, '_, '_>,
    needs: &[Vec<usize>],
    root: &str,
) -> Result<Types, Failure>
    ensures { GivesTypes (shaped (table_view table.entry) (links_view needs.now) root.now) result }
{
    let found = shape_faults(alloc, table, needs)?;
    let faults = told(alloc, found)?;
    if !faults.is_empty() {
        return Err(Failure::Needed(faults));
    }
    checked(types_of(alloc, table, needs, root)?)
}

/// The types of a table.
fn table_types(
    alloc: Global,
    table: TypeTable<'_, '_, '_, '_>,
    root: &str,
) -> Result<Types, Failure>
    ensures { GivesTypes (table_types (table_view table.entry) root.now) result }
{
    let needs = needs(alloc, table.ids, table.entries)?;
    shaped(alloc, table, &needs, root)
}

/// The types of declarations, with their shapes, and the one of an id as their root.
///
/// Errors: all declarations that hold themselves, and flattened fields whose types have no members;
/// why the shapes are no catalogue; out of memory.
pub(crate) fn catalogue_of(
    alloc: Global,
    declarations: &[Declaration<'_, '_>],
    entries: &[TypeEntry],
    root: &str,
) -> Result<Types, Failure>
    ensures { GivesTypes
        (catalogue_of (declarations_view declarations.now) (entries_view entries.now) root.now) result }
{
    let found = ids(alloc, entries)?;
    let ids = NamePlaces::new(alloc, found)?;
    let table = TypeTable {
        declarations,
        entries,
        ids: &ids,
    };
    table_types(alloc, table, root)
}
