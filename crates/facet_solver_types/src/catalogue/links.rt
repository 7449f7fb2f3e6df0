//! The types that types need, by their places.
ghost use Rattle.std.specs.Prelude.{◌≡◌, ◌++◌, ◌∷◌, [], map, IfOk, OnOk};
ghost use Rattle.std.specs.List.{flat_map};
ghost use Rattle.std.specs.String.{string_bytes};
ghost use Rattle.facet_solver_shape.specs.Names.{names_of};
ghost use Rattle.facet_solver_types.specs.Links.{ids, links_view, needed, needs, place_in, places_in};
ghost use Rattle.facet_solver_types.specs.PlacedNames.{names_in};
ghost use Rattle.facet_solver_types.specs.TypeEntries.{entries_view, form_view};

use crate::name_places::NamePlaces;
use crate::type_entry::{Form, TypeEntry};
use std::alloc::{AllocError, Global};

/// The ids of types.
pub(super) fn ids<'e>(alloc: Global, entries: &'e [TypeEntry]) -> Result<Vec<&'e str>, AllocError>
    ensures { IfOk result (λ found. names_of found.items ≡ ids (entries_view entries.now)) }
{
    let mut found = Vec::new(alloc);
    for entry in entries {
        found.push(entry.id())?;
    }
    Ok(found)
}

/// Adds the places of names.
fn add_places(
    found: &mut Vec<usize>,
    names: &NamePlaces<'_>,
    wanted: &[String],
) -> Result<(), AllocError>
    ensures { OnOk result (found.new.items ≡ found.old.items
        ++ places_in (names_in names.now) (map string_bytes wanted.now)) }
{
    for name in wanted {
        found.push(names.place_in(name.as_str()))?;
    }
    Ok(())
}

/// The places of names in lists.
fn all_places(
    alloc: Global,
    names: &NamePlaces<'_>,
    lists: &[Vec<String>],
) -> Result<Vec<usize>, AllocError>
    ensures { IfOk result (λ found. found.items ≡ places_in (names_in names.now)
        (flat_map (λ names. names) (map (λ list. map string_bytes list.items) lists.now))) }
{
    let mut found = Vec::new(alloc);
    for list in lists {
        add_places(&mut found, names, list)?;
    }
    Ok(found)
}

/// The place of a name, alone.
fn one_place(alloc: Global, names: &NamePlaces<'_>, name: &str) -> Result<Vec<usize>, AllocError>
    ensures { IfOk result (λ found. found.items ≡ place_in (names_in names.now) name.now ∷ []) }
{
    let mut found = Vec::new(alloc);
    found.push(names.place_in(name))?;
    Ok(found)
}

/// The places of the types that a type needs.
fn needed(alloc: Global, names: &NamePlaces<'_>, form: &Form) -> Result<Vec<usize>, AllocError>
    ensures { IfOk result (λ found. found.items
        ≡ places_in (names_in names.now) (needed (form_view form.now))) }
{
    match form {
        Form::Option(inside) | Form::Array(inside) => one_place(alloc, names, inside.as_str()),
        Form::Tuple(types) | Form::Standard(_, types) => {
            let mut found = Vec::new(alloc);
            add_places(&mut found, names, types)?;
            Ok(found)
        }
        Form::Declared { types, .. } => all_places(alloc, names, types),
        _ => Ok(Vec::new(alloc)),
    }
}

/// The places of the types that each of some types needs.
pub(super) fn needs(
    alloc: Global,
    names: &NamePlaces<'_>,
    entries: &[TypeEntry],
) -> Result<Vec<Vec<usize>>, AllocError>
    ensures { IfOk result (λ links. links_view links.items
        ≡ needs (names_in names.now) (entries_view entries.now)) }
{
    let mut links = Vec::new(alloc);
    for entry in entries {
        links.push(needed(alloc, names, &entry.form)?)?;
    }
    Ok(links)
}
