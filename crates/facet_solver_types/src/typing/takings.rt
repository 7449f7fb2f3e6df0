//! What a `use` takes, which may decide what a name means.
ghost use Rattle.std.specs.Prelude.{◌≡◌, IfOk};
ghost use Rattle.facet_solver_types.specs.Origins.{origin_view};
ghost use Rattle.facet_solver_types.specs.Scopes.{scope_view};
ghost use Rattle.facet_solver_types.specs.Takings as of;
ghost use Rattle.facet_solver_types.specs.Understood.{declarations_view, declared_view};

use super::meant::{is_beside, is_here, is_in, is_outside};
use super::scope::Scope;
use crate::declaration::{Declaration, Declared};
use crate::grammar::Origin;
use crate::modules::STAND_INS;
use std::alloc::{AllocError, Global};

/// Whether nothing is declared, but a `use` takes the name.
pub(super) fn is_taking(declared: &Declared<'_, '_>) -> bool
    ensures { result ≡ of.is_taking (declared_view declared.now) }
{
    match declared {
        Declared::Home | Declared::Elsewhere => true,
        _ => false,
    }
}

/// Whether it takes it from elsewhere.
fn is_from_elsewhere(declared: &Declared<'_, '_>) -> bool
    ensures { result ≡ of.is_from_elsewhere (declared_view declared.now) }
{
    match declared {
        Declared::Elsewhere => true,
        _ => false,
    }
}

/// Whether there is such a `use` at an index.
fn is_taking_at(declarations: &[Declaration<'_, '_>], index: usize) -> bool
    ensures { result ≡ of.is_taking_at (declarations_view declarations.now) index }
{
    match declarations.get(index) {
        Some(declaration) => is_taking(&declaration.declared),
        None => false,
    }
}

/// Whether there is one at an index that takes the name from elsewhere.
fn is_from_elsewhere_at(declarations: &[Declaration<'_, '_>], index: usize) -> bool
    ensures { result ≡ of.is_from_elsewhere_at (declarations_view declarations.now) index }
{
    match declarations.get(index) {
        Some(declaration) => is_from_elsewhere(&declaration.declared),
        None => false,
    }
}

/// Whether one of some is such a `use`.
pub(super) fn has_taking(declarations: &[Declaration<'_, '_>], indices: &[usize]) -> bool
    ensures { result ≡ of.has_taking (declarations_view declarations.now) indices.now }
{
    for index in indices {
        if is_taking_at(declarations, *index) {
            return true;
        }
    }
    false
}

/// Those of some that declare something.
pub(super) fn those_declared(
    alloc: Global,
    declarations: &[Declaration<'_, '_>],
    indices: &[usize],
) -> Result<Vec<usize>, AllocError>
    ensures { IfOk result (λ found. found.items
        ≡ of.those_declared (declarations_view declarations.now) indices.now) }
{
    let mut found = Vec::new(alloc);
    for index in indices {
        if !is_taking_at(declarations, *index) {
            found.push(*index)?;
        }
    }
    Ok(found)
}

/// Those of some that are such a `use` of a module.
fn takings_in(
    alloc: Global,
    declarations: &[Declaration<'_, '_>],
    module_name: &str,
    indices: &[usize],
) -> Result<Vec<usize>, AllocError>
    ensures { IfOk result (λ found. found.items
        ≡ of.takings_in (declarations_view declarations.now) module_name.now indices.now) }
{
    let mut found = Vec::new(alloc);
    for index in indices {
        if is_taking_at(declarations, *index) && is_in(declarations, module_name, *index) {
            found.push(*index)?;
        }
    }
    Ok(found)
}

/// Whether the declaration at an index wins over each `use` in the module of the type: where that is
/// the root; or it stands in for others, or in the block of the type, or in its module and in no
/// block.
fn is_near(scope: Scope<'_, '_>, index: usize) -> bool
    ensures { result ≡ of.is_near (scope_view scope.entry) index }
{
    let declarations = scope.declarations.list;
    scope.is_root
        || is_in(declarations, STAND_INS, index)
        || is_beside(declarations, scope.site.block, index)
        || (is_outside(declarations, index) && is_in(declarations, scope.site.module_name, index))
}

/// Whether one of some does.
fn has_near(scope: Scope<'_, '_>, indices: &[usize]) -> bool
    ensures { result ≡ of.has_near (scope_view scope.entry) indices.now }
{
    for index in indices {
        if is_near(scope, *index) {
            return true;
        }
    }
    false
}

/// Those of the namesakes by which a `use` decides what a name means that some of them declare.
pub(super) fn deciding(
    alloc: Global,
    scope: Scope<'_, '_>,
    origin: Origin<'_>,
    namesakes: &[usize],
    declared: &[usize],
) -> Result<Vec<usize>, AllocError>
    ensures { IfOk result (λ found. found.items
        ≡ of.deciding (scope_view scope.entry) (origin_view origin.entry) namesakes.now
        declared.now) }
{
    if !is_here(origin) || has_near(scope, declared) {
        return Ok(Vec::new(alloc));
    }
    takings_in(
        alloc,
        scope.declarations.list,
        scope.site.module_name,
        namesakes,
    )
}

/// Whether one of some takes the name from elsewhere.
pub(super) fn has_elsewhere(declarations: &[Declaration<'_, '_>], takings: &[usize]) -> bool
    ensures { result ≡ of.has_elsewhere (declarations_view declarations.now) takings.now }
{
    for index in takings {
        if is_from_elsewhere_at(declarations, *index) {
            return true;
        }
    }
    false
}
