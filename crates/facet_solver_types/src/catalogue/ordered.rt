//! Types in order.
ghost use Rattle.std.specs.Prelude.{◌≡◌, ◌++◌, IfOk, OnOk, flat_map, length, map, option_map, slice_get};
ghost use Rattle.std.specs.List.{range_with_len};
ghost use Rattle.facet_solver_shape.specs.Names.{names_of};
ghost use Rattle.facet_solver_types.specs.CataloguedTypes.{declared_from, declared_in_order, declared_places, entry_at, is_declared, ordered};
ghost use Rattle.facet_solver_types.specs.TypeTables.{table_view};
ghost use Rattle.facet_solver_types.specs.Links.{ids, links_view};
ghost use Rattle.facet_solver_types.specs.TypeEntries.{entries_view, entry_view, form_view};
ghost use Rattle.facet_solver_types.specs.Walks.{is_placed};

use super::table::TypeTable;
use super::walks::in_order;
use crate::type_entry::{Form, TypeEntry};
use std::alloc::{AllocError, Global};

/// Whether a type is declared.
fn is_declared(form: &Form) -> bool
    ensures { result ≡ is_declared (form_view form.now) }
{
    match form {
        Form::Declared { .. } => true,
        _ => false,
    }
}

/// Whether the type at a place is declared: its place is one of those that are.
fn is_declared_at(entries: &[TypeEntry], place: usize) -> bool
    ensures { result ≡ is_placed (declared_from 0 (entries_view entries.now)) place }
{
    match entry_at(entries, place) {
        Some(entry) => is_declared(&entry.form),
        None => false,
    }
}

/// The places of the types of a table that are declared.
fn declared_places(
    alloc: Global,
    table: TypeTable<'_, '_, '_, '_>,
) -> Result<Vec<usize>, AllocError>
    ensures { IfOk result (λ places. places.items ≡ declared_places (table_view table.entry)) }
{
    let mut places = Vec::new(alloc);
    for (place, entry) in table.entries.iter().enumerate() {
        if is_declared(&entry.form) {
            places.push(place)?;
        }
    }
    Ok(places)
}

/// The same, each after those of them that it needs, itself or over others.
fn declared_in_order(
    alloc: Global,
    table: TypeTable<'_, '_, '_, '_>,
    needs: &[Vec<usize>],
) -> Result<Vec<usize>, AllocError>
    ensures { IfOk result (λ places. places.items
        ≡ declared_in_order (table_view table.entry) (links_view needs.now)) }
{
    let declared = declared_places(alloc, table)?;
    let order = in_order(alloc, needs, &declared)?;
    order
        .iter()
        .copied()
        .filter(|place| is_declared_at(table.entries, *place))
        .collect(alloc)
}

/// The places of what declarations declare, in order, and then those of all types.
fn all_places(
    alloc: Global,
    table: TypeTable<'_, '_, '_, '_>,
    needs: &[Vec<usize>],
) -> Result<Vec<usize>, AllocError>
    ensures { IfOk result (λ places. places.items
        ≡ declared_in_order (table_view table.entry) (links_view needs.now)
        ++ range_with_len 0 (length (table_view table.entry).entries)) }
{
    let mut places = declared_in_order(alloc, table, needs)?;
    for place in 0..table.entries.len() {
        places.push(place)?;
    }
    Ok(places)
}

/// The type at a place, if there is one.
pub(super) fn entry_at(entries: &[TypeEntry], place: usize) -> Option<&TypeEntry>
    ensures { option_map (λ e. entry_view e.now) result
        ≡ slice_get (entries_view entries.now) place }
{
    match entries.get(place) {
        Some(entry) => Some(entry),
        None => None,
    }
}

/// Adds the type at a place, if there is one.
fn add_entry<'e>(
    found: &mut Vec<&'e TypeEntry>,
    entries: &'e [TypeEntry],
    place: usize,
) -> Result<(), AllocError>
    ensures { OnOk result (map (λ e. entry_view e.now) found.new.items
        ≡ map (λ e. entry_view e.now) found.old.items
        ++ entry_at (entries_view entries.now) place) }
{
    match entry_at(entries, place) {
        Some(entry) => {
            found.push(entry)?;
            Ok(())
        }
        None => Ok(()),
    }
}

/// The types at places, where there are any.
fn entries_at<'e>(
    alloc: Global,
    entries: &'e [TypeEntry],
    places: &[usize],
) -> Result<Vec<&'e TypeEntry>, AllocError>
    ensures { IfOk result (λ found. map (λ e. entry_view e.now) found.items
        ≡ flat_map (entry_at (entries_view entries.now)) places.now) }
{
    let mut found = Vec::new(alloc);
    for place in places {
        add_entry(&mut found, entries, *place)?;
    }
    Ok(found)
}

/// Types in order: what declarations declare, and before each what else it needs, and then the
/// others.
pub(super) fn ordered<'k>(
    alloc: Global,
    table: TypeTable<'k, '_, '_, '_>,
    needs: &[Vec<usize>],
) -> Result<Vec<&'k TypeEntry>, AllocError>
    ensures { IfOk result (λ found. map (λ e. entry_view e.now) found.items
        ≡ ordered (table_view table.entry) (links_view needs.now)) }
{
    let places = all_places(alloc, table, needs)?;
    let order = in_order(alloc, needs, &places)?;
    entries_at(alloc, table.entries, &order)
}

/// The ids of types in order.
pub(super) fn ordered_ids<'e>(
    alloc: Global,
    entries: &[&'e TypeEntry],
) -> Result<Vec<&'e str>, AllocError>
    ensures { IfOk result (λ found. names_of found.items
        ≡ ids (map (λ e. entry_view e.now) entries.now)) }
{
    let mut found = Vec::new(alloc);
    for entry in entries {
        found.push(entry.id())?;
    }
    Ok(found)
}
