//! The faults of what a root needs.
ghost use Rattle.std.specs.Prelude.{◌≡◌, ◌++◌, IfOk, OnOk, map};
ghost use Rattle.facet_solver_types.specs.AllDeclarations.{all_view};
ghost use Rattle.facet_solver_types.specs.Understood.{declaration_view, declarations_view};
ghost use Rattle.facet_solver_types.specs.UseFaults as of;
ghost use Rattle.facet_solver_types.specs.Uses.{use_view};

use super::field_types::Groups;
use super::named::add_name_faults;
use super::type_use::Use;
use super::uses::use_types;
use crate::declaration::Declaration;
use crate::fault::Fault;
use crate::named_declarations::NamedDeclarations;
use std::alloc::{AllocError, Global};

/// Adds the faults of the types that a use mentions.
fn add_type_faults(
    alloc: Global,
    faults: &mut Vec<Fault>,
    declarations: NamedDeclarations<'_, '_>,
    used: &Use,
) -> Result<(), AllocError>
    ensures { OnOk result (faults.new.items ≡ faults.old.items
        ++ of.type_faults (all_view declarations.entry) (use_view used.now)) }
{
    let groups = use_types(alloc, declarations, used)?;
    let Groups {
        types: _,
        entries: _,
        uses: _,
        faults: mut own,
    } = groups;
    faults.append(&mut own)?;
    Ok(())
}

/// Adds the faults of a declaration itself: of its attributes, its fields and its variants, and of
/// names that stand twice in it.
fn add_own_faults(
    alloc: Global,
    faults: &mut Vec<Fault>,
    declaration: &Declaration<'_, '_>,
) -> Result<(), AllocError>
    ensures { OnOk result (faults.new.items
        ≡ faults.old.items ++ of.own_faults (declaration_view declaration.now)) }
{
    faults.extend_from_slice(&declaration.faults)?;
    add_name_faults(alloc, faults, &declaration.declared)
}

/// Adds the faults of the declaration at an index itself.
fn add_faults_at(
    alloc: Global,
    faults: &mut Vec<Fault>,
    declarations: &[Declaration<'_, '_>],
    index: usize,
) -> Result<(), AllocError>
    ensures { OnOk result (faults.new.items ≡ faults.old.items
        ++ of.faults_at (declarations_view declarations.now) index) }
{
    match declarations.get(index) {
        Some(declaration) => add_own_faults(alloc, faults, declaration),
        None => Ok(()),
    }
}

/// Adds the faults of a use: of its declaration, and of the types that it mentions.
fn add_use_faults(
    alloc: Global,
    faults: &mut Vec<Fault>,
    declarations: NamedDeclarations<'_, '_>,
    used: &Use,
) -> Result<(), AllocError>
    ensures { OnOk result (faults.new.items ≡ faults.old.items
        ++ of.use_faults (all_view declarations.entry) (use_view used.now)) }
{
    add_faults_at(alloc, faults, declarations.list, used.index)?;
    add_type_faults(alloc, faults, declarations, used)
}

/// The faults of uses.
pub(super) fn all_faults(
    alloc: Global,
    declarations: NamedDeclarations<'_, '_>,
    uses: &[&Use],
) -> Result<Vec<Fault>, AllocError>
    ensures { IfOk result (λ faults. faults.items
        ≡ of.all_faults (all_view declarations.entry) (map (λ u. use_view u.now) uses.now)) }
{
    let mut faults = Vec::new(alloc);
    for used in uses {
        add_use_faults(alloc, &mut faults, declarations, used)?;
    }
    Ok(faults)
}
