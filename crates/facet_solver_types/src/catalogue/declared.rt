//! Structs and enums, with the places of their shapes.
ghost use Rattle.std.specs.Prelude.{◌≡◌, ◌++◌, IfOk, OnOk, map};
ghost use Rattle.facet_solver_types.specs.CataloguedTypes.{declared_type, declared_types, denies_at, has_forms_at};
ghost use Rattle.facet_solver_types.specs.PlacedNames.{names_in};
ghost use Rattle.facet_solver_types.specs.TypeEntries.{entries_view, entry_view};
ghost use Rattle.facet_solver_types.specs.TypesViews.{declared_type_view};
ghost use Rattle.facet_solver_types.specs.Understood.{declarations_view};

use crate::declaration::Declaration;
use crate::name_places::NamePlaces;
use crate::parsed::DeclaredType;
use crate::type_entry::{Form, TypeEntry};
use facet_solver_shape::ShapeId;
use std::alloc::{AllocError, Global};

/// Whether the declaration at an index denies unknown members.
fn denies_at(declarations: &[Declaration<'_, '_>], index: usize) -> bool
    ensures { result ≡ denies_at (declarations_view declarations.now) index }
{
    match declarations.get(index) {
        Some(declaration) => declaration.denies_unknown,
        None => false,
    }
}

/// Whether the declaration at an index is one of some that are one under different conditions.
fn has_forms_at(declarations: &[Declaration<'_, '_>], index: usize) -> bool
    ensures { result ≡ has_forms_at (declarations_view declarations.now) index }
{
    match declarations.get(index) {
        Some(declaration) => declaration.has_other_forms,
        None => false,
    }
}

/// Adds a type, if it is declared.
fn add_type(
    types: &mut Vec<DeclaredType>,
    declarations: &[Declaration<'_, '_>],
    order: &NamePlaces<'_>,
    entry: &TypeEntry,
) -> Result<(), AllocError>
    ensures { OnOk result (map declared_type_view types.new.items
        ≡ map declared_type_view types.old.items
        ++ declared_type (declarations_view declarations.now) (names_in order.now)
        (entry_view entry.now)) }
{
    if let Form::Declared { index, .. } = &entry.form {
        types.push(DeclaredType {
            name: entry.id.clone()?,
            shape: ShapeId::new(order.place_in(entry.id())),
            has_other_forms: has_forms_at(declarations, *index),
            denies_unknown: denies_at(declarations, *index),
        })?;
    }
    Ok(())
}

/// Those of some types that are declared, where ids have an order.
pub(super) fn declared_types(
    alloc: Global,
    declarations: &[Declaration<'_, '_>],
    order: &NamePlaces<'_>,
    entries: &[TypeEntry],
) -> Result<Vec<DeclaredType>, AllocError>
    ensures { IfOk result (λ types. map declared_type_view types.items
        ≡ declared_types (declarations_view declarations.now) (names_in order.now)
        (entries_view entries.now)) }
{
    let mut types = Vec::new(alloc);
    for entry in entries {
        add_type(&mut types, declarations, order, entry)?;
    }
    Ok(types)
}
