//! Types with their shapes, before these are checked.
ghost use Rattle.std.specs.Prelude.{◌≡◌, IfOk, Ok, map};
ghost use Rattle.facet_solver_types.specs.CataloguedTypes.{parts_view, types_by, types_in, types_of};
ghost use Rattle.facet_solver_types.specs.GivenTypes.{GivesTypes};
ghost use Rattle.facet_solver_types.specs.PlacedNames.{names_in};
ghost use Rattle.facet_solver_types.specs.TypeTables.{table_view};
ghost use Rattle.facet_solver_types.specs.Links.{links_view};
ghost use Rattle.facet_solver_types.specs.MadeShapes.{shape_of};
ghost use Rattle.facet_solver_types.specs.ShapeViews.{shapes_view};
ghost use Rattle.facet_solver_types.specs.TypeEntries.{entry_view};
ghost use Rattle.facet_solver_types.specs.Understood.{declarations_view};

use super::absences::absences_of;
use super::absent::let_absent;
use super::declared::declared_types;
use super::ordered::{ordered, ordered_ids};
use super::shapes::shape_of;
use super::table::TypeTable;
use crate::declaration::Declaration;
use crate::failure::Failure;
use crate::fault::Fault;
use crate::name_places::NamePlaces;
use crate::parsed::{DeclaredType, Types};
use crate::type_entry::TypeEntry;
use facet_solver_shape::{Shape, ShapeId, Shapes};
use std::alloc::{AllocError, Global};

/// Types with their shapes, before these are checked.
#[derive(Drop)]
pub(super) struct Parts {
    shapes: Vec<Shape>,
    declared: Vec<DeclaredType>,
    root: ShapeId,
}

/// The shapes of types.
fn shapes_of(
    alloc: Global,
    declarations: &[Declaration<'_, '_>],
    ids: &NamePlaces<'_>,
    entries: &[&TypeEntry],
) -> Result<Vec<Shape>, AllocError>
    ensures { IfOk result (λ made. shapes_view made.items
        ≡ map (shape_of (declarations_view declarations.now) (names_in ids.now))
        (map (λ e. entry_view e.now) entries.now)) }
{
    let mut made = Vec::new(alloc);
    for entry in entries {
        made.push(shape_of(alloc, declarations, ids, entry)?)?;
    }
    Ok(made)
}

/// Types in order, whose ids are these.
fn types_by(
    alloc: Global,
    table: TypeTable<'_, '_, '_, '_>,
    order: &NamePlaces<'_>,
    entries: &[&TypeEntry],
    root: &str,
) -> Result<Parts, AllocError>
    ensures { IfOk result (λ parts. parts_view parts
        ≡ types_by (table_view table.entry) (names_in order.now)
        (map (λ e. entry_view e.now) entries.now) root.now) }
{
    let mut shapes = shapes_of(alloc, table.declarations, order, entries)?;
    let absences = absences_of(alloc, table.declarations, order, entries)?;
    let_absent(&absences, &mut shapes);
    let declared = declared_types(alloc, table.declarations, order, table.entries)?;
    Ok(Parts {
        shapes,
        declared,
        root: ShapeId::new(order.place_in(root)),
    })
}

/// Types in order.
fn types_in(
    alloc: Global,
    table: TypeTable<'_, '_, '_, '_>,
    entries: &[&TypeEntry],
    root: &str,
) -> Result<Parts, AllocError>
    ensures { IfOk result (λ parts. parts_view parts
        ≡ types_in (table_view table.entry) (map (λ e. entry_view e.now) entries.now) root.now) }
{
    let ids = ordered_ids(alloc, entries)?;
    let order = NamePlaces::new(alloc, ids)?;
    types_by(alloc, table, &order, entries, root)
}

/// The types of a table, which need others so.
pub(super) fn types_of(
    alloc: Global,
    table: TypeTable<'_, '_, '_, '_>,
    needs: &[Vec<usize>],
    root: &str,
) -> Result<Parts, AllocError>
    ensures { IfOk result (λ parts. parts_view parts
        ≡ types_of (table_view table.entry) (links_view needs.now) root.now) }
{
    let entries = ordered(alloc, table, needs)?;
    types_in(alloc, table, &entries, root)
}

/// Types whose shapes are a catalogue.
///
/// Errors: why they are none.
pub(super) fn checked(parts: Parts) -> Result<Types, Failure>
    ensures { GivesTypes (Ok (parts_view parts)) result }
{
    let Parts {
        shapes,
        declared,
        root,
    } = parts;
    match Shapes::new(shapes) {
        Ok(shapes) => Ok(Types {
            shapes,
            declared,
            root,
        }),
        Err(error) => Err(Failure::Text(Fault::Catalogue(error))),
    }
}
