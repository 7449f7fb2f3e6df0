//! What types do with a member that is absent: an option takes it, others pass it on or refuse it.
ghost use Rattle.std.specs.Prelude.{◌≡◌, IfOk, map, option_map};
ghost use Rattle.std.specs.String.{string_bytes};
ghost use Rattle.facet_solver_types.specs.Absences.{absence_at, absence_of, absences_of, declared_absence, found_absence, is_taken, leads_to_option, passed_to_first, passes_to_option};
ghost use Rattle.facet_solver_types.specs.Links.{names_view};
ghost use Rattle.facet_solver_types.specs.PlacedNames.{names_in};
ghost use Rattle.facet_solver_types.specs.TypeEntries.{entry_view, form_view};
ghost use Rattle.facet_solver_types.specs.Understood.{declaration_view, declarations_view, declared_view};

use super::shapes::{declaration_at, first_types};
use crate::declaration::{Declaration, Declared};
use crate::name_places::NamePlaces;
use crate::type_entry::{Form, TypeEntry};
use std::alloc::{AllocError, Global};

/// What a type does with a member that is absent.
#[derive(Clone, Copy)]
pub(super) enum Absence {
    /// It is an option, and takes it.
    Taken,
    /// It passes it on to the type at a place.
    Passed(usize),
    /// It refuses it.
    Refused,
}

/// It is passed on to the first of some types, and refused where there is none.
fn passed_to_first(ids: &NamePlaces<'_>, types: &[String]) -> Absence
    ensures { result ≡ passed_to_first (names_in ids.now) (map string_bytes types.now) }
{
    match types.first() {
        Some(id) => Absence::Passed(ids.place_in(id.as_str())),
        None => Absence::Refused,
    }
}

/// What is declared, with these types, does so with it.
fn declared_absence(
    ids: &NamePlaces<'_>,
    declared: &Declared<'_, '_>,
    types: &[Vec<String>],
) -> Absence
    ensures { result
        ≡ declared_absence (names_in ids.now) (declared_view declared.now) (names_view types.now) }
{
    match declared {
        Declared::Struct {
            says_transparent: true,
            ..
        }
        | Declared::Proxied(_) => passed_to_first(ids, first_types(types)),
        _ => Absence::Refused,
    }
}

/// What a declaration declares, with these types, does so with it.
fn found_absence(
    ids: &NamePlaces<'_>,
    found: Option<&Declaration<'_, '_>>,
    types: &[Vec<String>],
) -> Absence
    ensures { result ≡ found_absence (names_in ids.now)
        (option_map (λ d. declaration_view d.now) found.entry) (names_view types.now) }
{
    match found {
        Some(declaration) => declared_absence(ids, &declaration.declared, types),
        None => Absence::Refused,
    }
}

/// A type of this form does so with it.
fn absence_of(declarations: &[Declaration<'_, '_>], ids: &NamePlaces<'_>, form: &Form) -> Absence
    ensures { result
        ≡ absence_of (declarations_view declarations.now) (names_in ids.now) (form_view form.now) }
{
    match form {
        Form::Option(_) => Absence::Taken,
        Form::Pointer(inside) => Absence::Passed(ids.place_in(inside.as_str())),
        Form::Declared { index, types } => {
            let found = declaration_at(declarations, *index);
            found_absence(ids, found, types)
        }
        _ => Absence::Refused,
    }
}

/// What each of some types does with it.
pub(super) fn absences_of(
    alloc: Global,
    declarations: &[Declaration<'_, '_>],
    ids: &NamePlaces<'_>,
    entries: &[&TypeEntry],
) -> Result<Vec<Absence>, AllocError>
    ensures { IfOk result (λ absences. absences.items
        ≡ absences_of (declarations_view declarations.now) (names_in ids.now)
        (map (λ e. entry_view e.now) entries.now)) }
{
    let mut absences = Vec::new(alloc);
    for entry in entries {
        absences.push(absence_of(declarations, ids, &entry.form))?;
    }
    Ok(absences)
}

/// What the type at a place does with it.
fn absence_at(absences: &[Absence], place: usize) -> Absence
    ensures { result ≡ absence_at absences.now place }
{
    match absences.get(place) {
        Some(absence) => *absence,
        None => Absence::Refused,
    }
}

/// Whether an option takes it in the end, where it is passed on so many times at the most.
fn is_taken(absences: &[Absence], times: usize, absence: Absence) -> bool
    ensures { result ≡ is_taken absences.now times absence }
{
    match absence {
        Absence::Taken => true,
        Absence::Refused => false,
        Absence::Passed(place) => {
            if times == 0 {
                return false;
            }
            is_taken(absences, times - 1, absence_at(absences, place))
        }
    }
}

/// Whether a type that does so with it is no option, and leads to one.
fn passes_to_option(absences: &[Absence], absence: Absence) -> bool
    ensures { result ≡ passes_to_option absences.now absence }
{
    match absence {
        Absence::Passed(_) => is_taken(absences, 127, absence),
        _ => false,
    }
}

/// Whether the type at a place is no option, and leads to one.
pub(super) fn leads_to_option(absences: &[Absence], place: usize) -> bool
    ensures { result ≡ leads_to_option absences.now place }
{
    passes_to_option(absences, absence_at(absences, place))
}
