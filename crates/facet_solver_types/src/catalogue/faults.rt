//! Why types have no shapes.
ghost use Rattle.std.specs.Prelude.{◌≡◌, ◌++◌, IfOk, OnOk, map, option_map, true};
ghost use Rattle.std.specs.String.{string_bytes};
ghost use Rattle.facet_solver_types.specs.TypeTables.{table_view};
ghost use Rattle.facet_solver_types.specs.Links.{links_view};
ghost use Rattle.facet_solver_types.specs.Ranks.{AreAcyclic};
ghost use Rattle.facet_solver_types.specs.ShapeFaults as of;
ghost use Rattle.facet_solver_types.specs.TypeEntries.{form_view};
ghost use Rattle.facet_solver_types.specs.Understood.{declaration_view, declared_view, field_view, variant_view};

use super::ranks::is_acyclic;
use super::shapes::declaration_at;
use super::table::TypeTable;
use super::walks::{is_marked, reached};
use crate::declaration::{Declaration, Declared, DeclaredField, DeclaredVariant};
use crate::fault::Fault;
use crate::problem::Problem;
use crate::shape_problem::ShapeProblem;
use crate::type_entry::Form;
use std::alloc::{AllocError, Global};

/// Adds the fault of a field of this type that is flattened, if it may not be.
fn add_field_fault(
    faults: &mut Vec<Fault>,
    table: TypeTable<'_, '_, '_, '_>,
    field: &DeclaredField<'_, '_>,
    id: &str,
) -> Result<(), AllocError>
    ensures { OnOk result (faults.new.items ≡ faults.old.items
        ++ of.field_faults (table_view table.entry) (field_view field.now) id.now) }
{
    match field.flattened {
        Some(offset) if !table.flattens(id) => {
            faults.push(Fault::At {
                offset,
                problem: Problem::Shape(ShapeProblem::NoMembers),
            })?;
            Ok(())
        }
        _ => Ok(()),
    }
}

/// Adds the faults of fields of these types that are flattened, and may not be.
fn add_fields_faults(
    faults: &mut Vec<Fault>,
    table: TypeTable<'_, '_, '_, '_>,
    fields: &[DeclaredField<'_, '_>],
    types: &[String],
) -> Result<(), AllocError>
    ensures { OnOk result (faults.new.items ≡ faults.old.items
        ++ of.fields_faults (table_view table.entry) (map field_view fields.now)
        (map string_bytes types.now)) }
{
    for (field, id) in fields.iter().zip(types) {
        add_field_fault(faults, table, field, id.as_str())?;
    }
    Ok(())
}

/// Adds the faults of the fields of variants, which have these types.
fn add_variants_faults(
    faults: &mut Vec<Fault>,
    table: TypeTable<'_, '_, '_, '_>,
    variants: &[DeclaredVariant<'_, '_>],
    types: &[Vec<String>],
) -> Result<(), AllocError>
    ensures { OnOk result (faults.new.items ≡ faults.old.items
        ++ of.variants_faults (table_view table.entry) (map variant_view variants.now)
        (map (λ ids. map string_bytes ids.items) types.now)) }
{
    for (variant, types) in variants.iter().zip(types) {
        add_fields_faults(faults, table, &variant.fields, types)?;
    }
    Ok(())
}

/// Adds the faults of the fields of what is declared, which have these types.
fn add_members_faults(
    faults: &mut Vec<Fault>,
    table: TypeTable<'_, '_, '_, '_>,
    declared: &Declared<'_, '_>,
    types: &[Vec<String>],
) -> Result<(), AllocError>
    ensures { OnOk result (faults.new.items ≡ faults.old.items
        ++ of.members_faults (table_view table.entry) (declared_view declared.now)
        (map (λ ids. map string_bytes ids.items) types.now)) }
{
    match declared {
        Declared::Struct { fields, .. } => match types.first() {
            Some(types) => add_fields_faults(faults, table, fields, types),
            None => Ok(()),
        },
        Declared::Enum { variants, .. } => add_variants_faults(faults, table, variants, types),
        _ => Ok(()),
    }
}

/// Adds the fault of the type at a place, whose name stands at an offset, if it leads to itself.
fn add_itself_fault(
    faults: &mut Vec<Fault>,
    needs: &[Vec<usize>],
    is_acyclic: bool,
    place: usize,
    offset: usize,
) -> Result<(), AllocError>
    requires { is_acyclic ≡ true → AreAcyclic (links_view needs.now) }
    ensures { OnOk result (faults.new.items
        ≡ faults.old.items ++ of.itself_faults (links_view needs.now) place offset) }
{
    if is_acyclic {
        return Ok(());
    }
    let marks = reached(*faults.allocator(), needs, place)?;
    if is_marked(&marks, place) {
        faults.push(Fault::At {
            offset,
            problem: Problem::Shape(ShapeProblem::HoldsItself),
        })?;
    }
    Ok(())
}

/// Adds the faults of a declaration, whose type stands at a place and has these types in it.
fn add_declaration_faults(
    faults: &mut Vec<Fault>,
    table: TypeTable<'_, '_, '_, '_>,
    needs: &[Vec<usize>],
    is_acyclic: bool,
    place: usize,
    declaration: &Declaration<'_, '_>,
    types: &[Vec<String>],
) -> Result<(), AllocError>
    requires { is_acyclic ≡ true → AreAcyclic (links_view needs.now) }
    ensures { OnOk result (faults.new.items ≡ faults.old.items
        ++ of.declaration_faults (table_view table.entry) (links_view needs.now) place
        (map (λ ids. map string_bytes ids.items) types.now) (declaration_view declaration.now)) }
{
    add_itself_fault(faults, needs, is_acyclic, place, declaration.name.offset)?;
    add_members_faults(faults, table, &declaration.declared, types)
}

/// Adds the faults of a declaration, if there is one, whose type stands at a place and has these
/// types in it.
fn add_found_faults(
    faults: &mut Vec<Fault>,
    table: TypeTable<'_, '_, '_, '_>,
    needs: &[Vec<usize>],
    is_acyclic: bool,
    place: usize,
    found: Option<&Declaration<'_, '_>>,
    types: &[Vec<String>],
) -> Result<(), AllocError>
    requires { is_acyclic ≡ true → AreAcyclic (links_view needs.now) }
    ensures { OnOk result (faults.new.items ≡ faults.old.items
        ++ of.found_faults (table_view table.entry) (links_view needs.now) place
        (map (λ ids. map string_bytes ids.items) types.now)
        (option_map (λ d. declaration_view d.now) found.entry)) }
{
    match found {
        Some(declaration) => {
            add_declaration_faults(faults, table, needs, is_acyclic, place, declaration, types)
        }
        None => Ok(()),
    }
}

/// Adds the faults of the type at a place, if it is declared.
fn add_type_faults(
    faults: &mut Vec<Fault>,
    table: TypeTable<'_, '_, '_, '_>,
    needs: &[Vec<usize>],
    is_acyclic: bool,
    place: usize,
    form: &Form,
) -> Result<(), AllocError>
    requires { is_acyclic ≡ true → AreAcyclic (links_view needs.now) }
    ensures { OnOk result (faults.new.items ≡ faults.old.items
        ++ of.type_faults (table_view table.entry) (links_view needs.now) place
        (form_view form.now)) }
{
    match form {
        Form::Declared { index, types } => {
            let found = declaration_at(table.declarations, *index);
            add_found_faults(faults, table, needs, is_acyclic, place, found, types)
        }
        _ => Ok(()),
    }
}

/// Why what is declared has no shapes: each type that holds itself, and each flattened field whose
/// type has no members.
pub(super) fn shape_faults(
    alloc: Global,
    table: TypeTable<'_, '_, '_, '_>,
    needs: &[Vec<usize>],
) -> Result<Vec<Fault>, AllocError>
    ensures { IfOk result (λ faults. faults.items
        ≡ of.shape_faults (table_view table.entry) (links_view needs.now)) }
{
    let mut faults = Vec::new(alloc);
    let is_acyclic = is_acyclic(alloc, needs)?;
    for (place, entry) in table.entries.iter().enumerate() {
        add_type_faults(&mut faults, table, needs, is_acyclic, place, &entry.form)?;
    }
    Ok(faults)
}
