//! Which declarations a name means, by their indices.
ghost use Rattle.std.specs.Prelude.{◌≡◌, IfOk};
ghost use Rattle.facet_solver_types.specs.Meant as of;
ghost use Rattle.facet_solver_types.specs.Origins.{origin_view};
ghost use Rattle.facet_solver_types.specs.Scopes.{scope_view};
ghost use Rattle.facet_solver_types.specs.Understood.{declarations_view};

use super::scope::Scope;
use crate::declaration::Declaration;
use crate::grammar::Origin;
use crate::modules::STAND_INS;
use std::alloc::{AllocError, Global};

/// Whether a path leads nowhere else.
pub(super) fn is_here(origin: Origin<'_>) -> bool
    ensures { result ≡ of.is_here (origin_view origin.entry) }
{
    match origin {
        Origin::Here => true,
        _ => false,
    }
}

/// Whether the declaration at an index stands in a module.
pub(super) fn is_in(declarations: &[Declaration<'_, '_>], module_name: &str, index: usize) -> bool
    ensures { result ≡ of.is_in (declarations_view declarations.now) module_name.now index }
{
    match declarations.get(index) {
        Some(declaration) => declaration.site.module_name == module_name,
        None => false,
    }
}

/// Whether this stands in the block whose brace stands there.
fn is_of_block(place: usize, block: Option<usize>) -> bool
    ensures { result ≡ of.is_of_block place block }
{
    match block {
        Some(other) => other == place,
        None => false,
    }
}

/// Whether the declaration at an index stands in the block whose brace stands there.
fn is_in_block(declarations: &[Declaration<'_, '_>], place: usize, index: usize) -> bool
    ensures { result ≡ of.is_in_block (declarations_view declarations.now) place index }
{
    match declarations.get(index) {
        Some(declaration) => is_of_block(place, declaration.site.block),
        None => false,
    }
}

/// Whether the declaration at an index stands in a block, if it is one.
pub(super) fn is_beside(
    declarations: &[Declaration<'_, '_>],
    block: Option<usize>,
    index: usize,
) -> bool
    ensures { result ≡ of.is_beside (declarations_view declarations.now) block index }
{
    match block {
        Some(place) => is_in_block(declarations, place, index),
        None => false,
    }
}

/// Whether the declaration at an index stands in no block.
pub(super) fn is_outside(declarations: &[Declaration<'_, '_>], index: usize) -> bool
    ensures { result ≡ of.is_outside (declarations_view declarations.now) index }
{
    match declarations.get(index) {
        Some(declaration) => declaration.site.block.is_none(),
        None => false,
    }
}

/// Those of some that stand in no block.
fn those_outside(
    alloc: Global,
    declarations: &[Declaration<'_, '_>],
    indices: &[usize],
) -> Result<Vec<usize>, AllocError>
    ensures { IfOk result (λ found. found.items
        ≡ of.those_outside (declarations_view declarations.now) indices.now) }
{
    let mut found = Vec::new(alloc);
    for index in indices {
        if is_outside(declarations, *index) {
            found.push(*index)?;
        }
    }
    Ok(found)
}

/// Those of some that stand in a block, if it is one.
fn those_in_block(
    alloc: Global,
    declarations: &[Declaration<'_, '_>],
    block: Option<usize>,
    indices: &[usize],
) -> Result<Vec<usize>, AllocError>
    ensures { IfOk result (λ found. found.items
        ≡ of.those_in_block (declarations_view declarations.now) block indices.now) }
{
    let mut found = Vec::new(alloc);
    let Some(place) = block else {
        return Ok(found);
    };
    for index in indices {
        if is_in_block(declarations, place, *index) {
            found.push(*index)?;
        }
    }
    Ok(found)
}

/// Those of some that stand in a module.
pub(super) fn those_in(
    alloc: Global,
    declarations: &[Declaration<'_, '_>],
    module_name: &str,
    indices: &[usize],
) -> Result<Vec<usize>, AllocError>
    ensures { IfOk result (λ found. found.items
        ≡ of.those_in (declarations_view declarations.now) module_name.now indices.now) }
{
    let mut found = Vec::new(alloc);
    for index in indices {
        if is_in(declarations, module_name, *index) {
            found.push(*index)?;
        }
    }
    Ok(found)
}

/// Those of some that do not stand in a module.
fn those_out_of(
    alloc: Global,
    declarations: &[Declaration<'_, '_>],
    module_name: &str,
    indices: &[usize],
) -> Result<Vec<usize>, AllocError>
    ensures { IfOk result (λ found. found.items
        ≡ of.those_out_of (declarations_view declarations.now) module_name.now indices.now) }
{
    let mut found = Vec::new(alloc);
    for index in indices {
        if !is_in(declarations, module_name, *index) {
            found.push(*index)?;
        }
    }
    Ok(found)
}

/// Those of some that do not stand in a module, or all where there is none of these.
fn out_or_all(
    alloc: Global,
    declarations: &[Declaration<'_, '_>],
    module_name: &str,
    indices: &[usize],
) -> Result<Vec<usize>, AllocError>
    ensures { IfOk result (λ found. found.items ≡ of.or_else
        (of.those_out_of (declarations_view declarations.now) module_name.now indices.now)
        indices.now) }
{
    let found = those_out_of(alloc, declarations, module_name, indices)?;
    if found.is_empty() {
        return Ok(Vec::from_slice(alloc, indices)?);
    }
    Ok(found)
}

/// Those of some that stand in a module, or all where none does.
fn in_or_all(
    alloc: Global,
    declarations: &[Declaration<'_, '_>],
    module_name: &str,
    indices: &[usize],
) -> Result<Vec<usize>, AllocError>
    ensures { IfOk result (λ found. found.items ≡ of.or_else
        (of.those_in (declarations_view declarations.now) module_name.now indices.now) indices.now) }
{
    let found = those_in(alloc, declarations, module_name, indices)?;
    if found.is_empty() {
        return Ok(Vec::from_slice(alloc, indices)?);
    }
    Ok(found)
}

/// Those of some that a path leads to.
fn led_to(
    alloc: Global,
    scope: Scope<'_, '_>,
    origin: Origin<'_>,
    indices: &[usize],
) -> Result<Vec<usize>, AllocError>
    ensures { IfOk result (λ found. found.items
        ≡ of.led_to (scope_view scope.entry) (origin_view origin.entry) indices.now) }
{
    match origin {
        Origin::Here => in_or_all(
            alloc,
            scope.declarations.list,
            scope.site.module_name,
            indices,
        ),
        Origin::Above => out_or_all(
            alloc,
            scope.declarations.list,
            scope.site.module_name,
            indices,
        ),
        Origin::Within(module_name) => in_or_all(
            alloc,
            scope.declarations.list,
            module_name,
            indices,
        ),
        Origin::Beside(module_name) => those_in(
            alloc,
            scope.declarations.list,
            module_name,
            indices,
        ),
        Origin::Known | Origin::Elsewhere => Ok(Vec::new(alloc)),
    }
}

/// Those of some that a path leads to, of those in no block, or else of all.
fn led_outside(
    alloc: Global,
    scope: Scope<'_, '_>,
    origin: Origin<'_>,
    indices: &[usize],
) -> Result<Vec<usize>, AllocError>
    ensures { IfOk result (λ found. found.items
        ≡ of.led_outside (scope_view scope.entry) (origin_view origin.entry) indices.now) }
{
    let outside = those_outside(alloc, scope.declarations.list, indices)?;
    let found = led_to(alloc, scope, origin, &outside)?;
    if found.is_empty() {
        return led_to(alloc, scope, origin, indices);
    }
    Ok(found)
}

/// Those of some that stand in the block of a type whose path leads nowhere else.
fn those_beside(
    alloc: Global,
    scope: Scope<'_, '_>,
    origin: Origin<'_>,
    indices: &[usize],
) -> Result<Vec<usize>, AllocError>
    ensures { IfOk result (λ found. found.items
        ≡ of.those_beside (scope_view scope.entry) (origin_view origin.entry) indices.now) }
{
    match origin {
        Origin::Here => those_in_block(alloc, scope.declarations.list, scope.site.block, indices),
        _ => Ok(Vec::new(alloc)),
    }
}

/// Those of some that a name means for which none stands in: those in the block of the type, or else
/// those that its path leads to.
fn meant_there(
    alloc: Global,
    scope: Scope<'_, '_>,
    origin: Origin<'_>,
    indices: &[usize],
) -> Result<Vec<usize>, AllocError>
    ensures { IfOk result (λ found. found.items
        ≡ of.meant_there (scope_view scope.entry) (origin_view origin.entry) indices.now) }
{
    let found = those_beside(alloc, scope, origin, indices)?;
    if found.is_empty() {
        return led_outside(alloc, scope, origin, indices);
    }
    Ok(found)
}

/// Those of some that a type means: the ones that stand in for others, or else those in its block,
/// or else those that its path leads to.
pub(super) fn meant(
    alloc: Global,
    scope: Scope<'_, '_>,
    origin: Origin<'_>,
    indices: &[usize],
) -> Result<Vec<usize>, AllocError>
    ensures { IfOk result (λ found. found.items
        ≡ of.meant (scope_view scope.entry) (origin_view origin.entry) indices.now) }
{
    let found = those_in(alloc, scope.declarations.list, STAND_INS, indices)?;
    if found.is_empty() {
        return meant_there(alloc, scope, origin, indices);
    }
    Ok(found)
}
