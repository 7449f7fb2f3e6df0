//! Names that are declared, of which no two may be the same.
ghost use Rattle.std.specs.Prelude.{◌≡◌, ◌≤◌, ◌++◌, IfOk, OnOk, length, map, take};
ghost use Rattle.facet_solver_shape.specs.Names.{names_of};
ghost use Rattle.facet_solver_types.specs.Named as of;
ghost use Rattle.facet_solver_types.specs.Named.{named_view, names_view};
ghost use Rattle.facet_solver_types.specs.NamedTexts.{texts};
ghost use Rattle.facet_solver_types.specs.PlacedNames.{names_in};
ghost use Rattle.facet_solver_types.specs.Understood.{declared_view, field_view, variant_view};

use crate::declaration::{Declared, DeclaredField, DeclaredVariant};
use crate::fault::Fault;
use crate::name_places::{FEW_NAMES, NamePlaces};
use crate::problem::Problem;
use crate::type_problem::TypeProblem;
use std::alloc::{AllocError, Global};

/// A name, and where it stands.
#[derive(Clone, Copy)]
pub(super) struct Named<'d> {
    name: &'d str,
    offset: usize,
}

/// Whether one of some has this name.
fn is_among(name: &str, names: &[Named<'_>]) -> bool
    ensures { result ≡ of.is_among name.now (names_view names.now) }
{
    for one in names {
        if one.name == name {
            return true;
        }
    }
    false
}

/// The fault of a name.
fn name_fault(problem: TypeProblem, one: Named<'_>) -> Fault
    ensures { result ≡ of.name_fault problem (named_view one.entry) }
{
    Fault::At {
        offset: one.offset,
        problem: Problem::OfType(problem),
    }
}

/// Adds the faults of few names that are those of others before them.
fn add_few_repeats(
    faults: &mut Vec<Fault>,
    problem: TypeProblem,
    names: &[Named<'_>],
) -> Result<(), AllocError>
    ensures { OnOk result
        (faults.new.items ≡ faults.old.items ++ of.repeats problem (names_view names.now)) }
{
    for (at, one) in names.iter().enumerate() {
        if is_among(one.name, &names[..at]) {
            faults.push(name_fault(problem, *one))?;
        }
    }
    Ok(())
}

/// What names say.
fn texts<'d>(alloc: Global, names: &[Named<'d>]) -> Result<Vec<&'d str>, AllocError>
    ensures { IfOk result (λ found. names_of found.items ≡ texts (names_view names.now)) }
{
    let mut found = Vec::with_capacity(alloc, names.len())?;
    for one in names {
        found.push(one.name)?;
    }
    Ok(found)
}

/// Whether a name is one of those before an index, where all have these places.
fn is_before(places: &NamePlaces<'_>, names: &[Named<'_>], at: usize, name: &str) -> bool
    requires within { at ≤ length names.now }
    requires placed { names_in places.now ≡ texts (names_view names.now) }
    ensures { result ≡ of.is_among name.now (names_view (take at names.now)) }
{
    places.place_in(name) < at
}

/// Adds the faults of many names that are those of others before them.
fn add_many_repeats(
    alloc: Global,
    faults: &mut Vec<Fault>,
    problem: TypeProblem,
    names: &[Named<'_>],
) -> Result<(), AllocError>
    ensures { OnOk result
        (faults.new.items ≡ faults.old.items ++ of.repeats problem (names_view names.now)) }
{
    let found = texts(alloc, names)?;
    let places = NamePlaces::new(alloc, found)?;
    for (at, one) in names.iter().enumerate() {
        if is_before(&places, names, at, one.name) {
            faults.push(name_fault(problem, *one))?;
        }
    }
    Ok(())
}

/// Adds the faults of names that are those of others before them.
fn add_repeats(
    alloc: Global,
    faults: &mut Vec<Fault>,
    problem: TypeProblem,
    names: &[Named<'_>],
) -> Result<(), AllocError>
    ensures { OnOk result
        (faults.new.items ≡ faults.old.items ++ of.repeats problem (names_view names.now)) }
{
    if names.len() <= FEW_NAMES {
        add_few_repeats(faults, problem, names)
    } else {
        add_many_repeats(alloc, faults, problem, names)
    }
}

/// The names of fields.
fn field_names<'d>(
    alloc: Global,
    fields: &'d [DeclaredField<'_, '_>],
) -> Result<Vec<Named<'d>>, AllocError>
    ensures { IfOk result (λ names. names_view names.items
        ≡ of.field_names (map field_view fields.now)) }
{
    let mut names = Vec::new(alloc);
    for field in fields {
        names.push(Named {
            name: field.name.as_str(),
            offset: field.offset,
        })?;
    }
    Ok(names)
}

/// The names of variants, as they are written.
fn variant_names<'d>(
    alloc: Global,
    variants: &'d [DeclaredVariant<'_, '_>],
) -> Result<Vec<Named<'d>>, AllocError>
    ensures { IfOk result (λ names. names_view names.items
        ≡ of.variant_names (map variant_view variants.now)) }
{
    let mut names = Vec::new(alloc);
    for variant in variants {
        names.push(Named {
            name: variant.written_name.as_str(),
            offset: variant.offset,
        })?;
    }
    Ok(names)
}

/// The names of variants in a document.
fn read_names<'d>(
    alloc: Global,
    variants: &'d [DeclaredVariant<'_, '_>],
) -> Result<Vec<Named<'d>>, AllocError>
    ensures { IfOk result (λ names. names_view names.items
        ≡ of.read_names (map variant_view variants.now)) }
{
    let mut names = Vec::new(alloc);
    for variant in variants {
        names.push(Named {
            name: variant.name.as_str(),
            offset: variant.offset,
        })?;
    }
    Ok(names)
}

/// Adds the faults of fields that have the name of another before them.
fn add_field_repeats(
    alloc: Global,
    faults: &mut Vec<Fault>,
    fields: &[DeclaredField<'_, '_>],
) -> Result<(), AllocError>
    ensures { OnOk result (faults.new.items
        ≡ faults.old.items ++ of.field_repeats (map field_view fields.now)) }
{
    let names = field_names(alloc, fields)?;
    add_repeats(alloc, faults, TypeProblem::Twice, &names)
}

/// Adds the faults of variants that have the name of another before them, as it is written.
fn add_written_repeats(
    alloc: Global,
    faults: &mut Vec<Fault>,
    variants: &[DeclaredVariant<'_, '_>],
) -> Result<(), AllocError>
    ensures { OnOk result (faults.new.items
        ≡ faults.old.items ++ of.written_repeats (map variant_view variants.now)) }
{
    let names = variant_names(alloc, variants)?;
    add_repeats(alloc, faults, TypeProblem::Twice, &names)
}

/// Adds the faults of variants that go by the name of another before them in a document.
fn add_read_repeats(
    alloc: Global,
    faults: &mut Vec<Fault>,
    variants: &[DeclaredVariant<'_, '_>],
) -> Result<(), AllocError>
    ensures { OnOk result (faults.new.items
        ≡ faults.old.items ++ of.read_repeats (map variant_view variants.now)) }
{
    let names = read_names(alloc, variants)?;
    add_repeats(alloc, faults, TypeProblem::ReadTwice, &names)
}

/// Adds the faults of variants, and of the fields of each, that have the name of another.
fn add_variant_repeats(
    alloc: Global,
    faults: &mut Vec<Fault>,
    variants: &[DeclaredVariant<'_, '_>],
) -> Result<(), AllocError>
    ensures { OnOk result (faults.new.items
        ≡ faults.old.items ++ of.variant_repeats (map variant_view variants.now)) }
{
    add_written_repeats(alloc, faults, variants)?;
    add_read_repeats(alloc, faults, variants)?;
    for variant in variants {
        add_field_repeats(alloc, faults, &variant.fields)?;
    }
    Ok(())
}

/// Adds the faults of names in a declaration that are those of others before them.
pub(super) fn add_name_faults(
    alloc: Global,
    faults: &mut Vec<Fault>,
    declared: &Declared<'_, '_>,
) -> Result<(), AllocError>
    ensures { OnOk result (faults.new.items
        ≡ faults.old.items ++ of.name_faults (declared_view declared.now)) }
{
    match declared {
        Declared::Struct { fields, .. } => add_field_repeats(alloc, faults, fields),
        Declared::Enum { variants, .. } => add_variant_repeats(alloc, faults, variants),
        _ => Ok(()),
    }
}
