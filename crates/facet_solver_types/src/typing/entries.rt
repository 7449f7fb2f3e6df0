//! All types that a root needs, by their ids.
ghost use Rattle.std.specs.Prelude.{◌≡◌, ◌≤◌, ◌++◌, IfOk, OnOk, drop, length, map, take};
ghost use Rattle.facet_solver_shape.specs.Names.{names_of};
ghost use Rattle.facet_solver_types.specs.AllDeclarations.{all_view};
ghost use Rattle.facet_solver_types.specs.DeclaredEntries as of;
ghost use Rattle.facet_solver_types.specs.DeclaredEntries.{types_view};
ghost use Rattle.facet_solver_types.specs.Failures.{Leads};
ghost use Rattle.facet_solver_types.specs.FirstEntries.{are_first, marked, sees_mark};
ghost use Rattle.facet_solver_types.specs.Links.{ids};
ghost use Rattle.facet_solver_types.specs.PlacedNames.{names_in};
ghost use Rattle.facet_solver_types.specs.TypeEntries.{entries_view, entry_view};
ghost use Rattle.facet_solver_types.specs.Uses.{use_view, uses_view};

use super::field_types::Groups;
use super::type_use::Use;
use super::use_faults::all_faults;
use super::uses::{all_uses, text_order, use_types};
use crate::failure::Failure;
use crate::faults::told;
use crate::name_places::NamePlaces;
use crate::named_declarations::NamedDeclarations;
use crate::type_entry::{Form, TypeEntry};
use std::alloc::{AllocError, Global};

/// The entry of a use, with the types that it mentions.
fn use_entry(alloc: Global, used: &Use, types: Vec<Vec<String>>) -> Result<TypeEntry, AllocError>
    ensures { IfOk result (λ entry. entry_view entry
        ≡ of.use_entry (use_view used.now) (types_view types.items)) }
{
    Ok(TypeEntry {
        id: used.id.clone()?,
        form: Form::Declared {
            index: used.index,
            types,
        },
    })
}

/// Adds the entries of a use: its own, and those of the types that it mentions.
fn add_entries(
    alloc: Global,
    entries: &mut Vec<TypeEntry>,
    declarations: NamedDeclarations<'_, '_>,
    used: &Use,
) -> Result<(), AllocError>
    ensures { OnOk result (entries_view entries.new.items ≡ entries_view entries.old.items
        ++ of.use_entries (all_view declarations.entry) (use_view used.now)) }
{
    let groups = use_types(alloc, declarations, used)?;
    let Groups {
        types,
        entries: mut inside,
        uses: _,
        faults: _,
    } = groups;
    entries.push(use_entry(alloc, used, types)?)?;
    entries.append(&mut inside)?;
    Ok(())
}

/// The entries of uses, in their order. A type has one each time that it is mentioned.
fn all_entries(
    alloc: Global,
    declarations: NamedDeclarations<'_, '_>,
    uses: &[&Use],
) -> Result<Vec<TypeEntry>, AllocError>
    ensures { IfOk result (λ found. entries_view found.items
        ≡ of.all_entries (all_view declarations.entry)
        (map (λ u. use_view u.now) uses.now)) }
{
    let mut found = Vec::new(alloc);
    for used in uses {
        add_entries(alloc, &mut found, declarations, used)?;
    }
    Ok(found)
}

/// The ids of types.
fn ids<'e>(alloc: Global, entries: &'e [TypeEntry]) -> Result<Vec<&'e str>, AllocError>
    ensures { IfOk result (λ found. names_of found.items ≡ ids (entries_view entries.now)) }
{
    let mut found = Vec::with_capacity(alloc, entries.len())?;
    for entry in entries {
        found.push(entry.id())?;
    }
    Ok(found)
}

/// Whether an id is that of a type before a place, where the ids of all have these places.
fn is_before(places: &NamePlaces<'_>, entries: &[TypeEntry], at: usize, id: &str) -> bool
    requires within { at ≤ length entries.now }
    requires placed { names_in places.now ≡ ids (entries_view entries.now) }
    ensures { result ≡ of.has_id id.now (entries_view (take at entries.now)) }
{
    places.place_in(id) < at
}

/// Whether each of some types is the first of its id.
fn are_first(alloc: Global, entries: &[TypeEntry]) -> Result<Vec<bool>, AllocError>
    ensures { IfOk result (λ found. found.items ≡ are_first (entries_view entries.now)) }
{
    let ids = ids(alloc, entries)?;
    let places = NamePlaces::new(alloc, ids)?;
    let mut found = Vec::with_capacity(alloc, entries.len())?;
    for (at, entry) in entries.iter().enumerate() {
        found.push(!is_before(&places, entries, at, entry.id()))?;
    }
    Ok(found)
}

/// Whether the first of some marks is set.
fn sees_mark(marks: &[bool]) -> bool
    ensures { result ≡ sees_mark marks.now }
{
    match marks.first() {
        Some(mark) => *mark,
        None => false,
    }
}

/// The marks behind the first.
fn behind_first(marks: &[bool]) -> &[bool]
    ensures { result.now ≡ drop 1 marks.now }
{
    match marks.split_first() {
        Some((_, others)) => others,
        None => marks,
    }
}

/// Those of some types that are marked.
fn marked(
    alloc: Global,
    marks: &[bool],
    entries: Vec<TypeEntry>,
) -> Result<Vec<TypeEntry>, AllocError>
    ensures { IfOk result (λ found. entries_view found.items
        ≡ marked marks.now (entries_view entries.items)) }
{
    let mut rest = marks;
    let mut found = Vec::new(alloc);
    for entry in entries {
        if sees_mark(rest) {
            found.push(entry)?;
        }
        rest = behind_first(rest);
    }
    Ok(found)
}

/// The first type of each id.
#[tactic(auto, using(crate::proofs::SiftedEntries::first_are_distinct))]
fn distinct(alloc: Global, entries: Vec<TypeEntry>) -> Result<Vec<TypeEntry>, AllocError>
    ensures { IfOk result (λ found. entries_view found.items
        ≡ of.distinct (entries_view entries.items)) }
{
    let marks = are_first(alloc, &entries)?;
    marked(alloc, &marks, entries)
}

/// The types of uses, and others behind them, each once.
fn types_of(
    alloc: Global,
    declarations: NamedDeclarations<'_, '_>,
    uses: &[&Use],
    mut others: Vec<TypeEntry>,
) -> Result<Vec<TypeEntry>, AllocError>
    ensures { IfOk result (λ found. entries_view found.items
        ≡ of.types_of (all_view declarations.entry) (map (λ u. use_view u.now) uses.now)
        (entries_view others.items)) }
{
    let mut entries = all_entries(alloc, declarations, uses)?;
    entries.append(&mut others)?;
    distinct(alloc, entries)
}

/// The types of uses that have no fault, and others behind them, each once.
fn checked(
    alloc: Global,
    declarations: NamedDeclarations<'_, '_>,
    uses: &[&Use],
    others: Vec<TypeEntry>,
) -> Result<Vec<TypeEntry>, Failure>
    ensures { Leads (λ found. entries_view found.items)
        (of.checked (all_view declarations.entry) (map (λ u. use_view u.now) uses.now)
        (entries_view others.items)) result }
{
    let found = all_faults(alloc, declarations, uses)?;
    let faults = told(alloc, found)?;
    if !faults.is_empty() {
        return Err(Failure::Needed(faults));
    }
    Ok(types_of(alloc, declarations, uses, others)?)
}

/// All types that a root needs, of which these are mentioned in it, each once: in the order of the
/// text each use of a declaration, and behind it the types that it mentions, each outer before
/// inner.
///
/// Errors: the faults of all declarations that it needs; that these have no end; out of memory.
pub(crate) fn type_entries(
    alloc: Global,
    declarations: NamedDeclarations<'_, '_>,
    uses: Vec<Use>,
    others: Vec<TypeEntry>,
) -> Result<Vec<TypeEntry>, Failure>
    ensures { Leads (λ found. entries_view found.items)
        (of.type_entries (all_view declarations.entry) (uses_view uses.items)
        (entries_view others.items)) result }
{
    let found = all_uses(alloc, declarations, uses)?;
    let ordered = text_order(alloc, declarations.list.len(), &found)?;
    checked(alloc, declarations, &ordered, others)
}
