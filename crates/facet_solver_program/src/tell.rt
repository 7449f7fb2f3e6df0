//! What the members of a document tell a solver.
ghost use Rattle.std.specs.Prelude.{◌≡◌, ◌≢◌, [], IfOk, OnOk};
ghost use Rattle.std.specs.List.{list_any};
ghost use Rattle.serde_json.specs.View.{members_view, view};
ghost use Rattle.facet_solver.specs.KeyPath.{has_key_path};
ghost use Rattle.facet_solver.specs.Names.{names_of};
ghost use Rattle.facet_solver.specs.schema.ResolutionHandle.{resolution_of};
ghost use Rattle.facet_solver_program.specs.Document.{member_view, members_below};
ghost use Rattle.facet_solver_program.specs.Tell as tell;

use crate::document::{Member, members};
use crate::fits::fits;
use facet_solver::{FieldKey, ResolutionHandle, ShapeId, Shapes, Solver};
use serde_json::{Map, Value};
use std::alloc::{AllocError, Global};

/// Tells a solver the members of a document, in the lexicographic order of their paths.
///
/// A key of the document itself is seen. A text under it is a hint of a variant's name, if the key
/// is a tag. A key further below is probed at its path, if some candidate has that. Then, where the
/// value fits some of the shapes that the candidates have there, but not all, only the candidates
/// stay that have one that it fits.
///
/// The only error is out of memory.
pub fn tell<'v>(
    alloc: Global,
    shapes: &Shapes,
    solver: &mut Solver<'_, '_, 'v>,
    document: &'v Map<String, Value>,
) -> Result<(), AllocError>
    ensures { let told = members_below [] (members_view document.now.entries) in
        OnOk result (solver.new ≡ tell.tell shapes.now told solver.old) }
{
    let members = members(alloc, document)?;
    for member in &members {
        tell_member(alloc, shapes, solver, member)?;
    }
    Ok(())
}

/// Tells a solver a member of a document.
fn tell_member<'v>(
    alloc: Global,
    shapes: &Shapes,
    solver: &mut Solver<'_, '_, 'v>,
    member: &Member<'v>,
) -> Result<(), AllocError>
    ensures { OnOk result
        (solver.new ≡ tell.tell_member shapes.now (member_view member.now) solver.old) }
{
    match member.path.as_slice() {
        [] => Ok(()),
        [key] => tell_key(alloc, shapes, solver, key, member.value),
        path => tell_path(alloc, shapes, solver, path, member.value),
    }
}

/// Tells a solver a member of the document itself: its key, a text under that, and which shapes the
/// value fits.
fn tell_key<'v>(
    alloc: Global,
    shapes: &Shapes,
    solver: &mut Solver<'_, '_, 'v>,
    key: &'v str,
    value: &Value,
) -> Result<(), AllocError>
    ensures { OnOk result
        (solver.new ≡ tell.tell_key shapes.now key.now (view value.now) solver.old) }
{
    solver.see_key(alloc, FieldKey::flat(key))?;
    tell_text(solver, key, value);
    tell_shapes(alloc, shapes, solver, &[key], value)
}

/// Tells a solver a text under a key, which is a hint of a variant's name, if the key is a tag.
fn tell_text(solver: &mut Solver<'_, '_, '_>, key: &str, value: &Value)
    ensures { solver.new ≡ tell.tell_text key.now (view value.now) solver.old }
{
    if let Some(text) = value.as_str() {
        solver.hint_variant_for_tag(key, text);
    }
}

/// Tells a solver a member further below: if some candidate has its path, its key, and which shapes
/// the value fits.
fn tell_path(
    alloc: Global,
    shapes: &Shapes,
    solver: &mut Solver<'_, '_, '_>,
    path: &[&str],
    value: &Value,
) -> Result<(), AllocError>
    requires { path.now ≢ [] }
    ensures { OnOk result
        (solver.new ≡ tell.tell_path shapes.now (names_of path.now) (view value.now) solver.old) }
{
    let Some((key, above)) = path.split_last() else {
        return Ok(());
    };
    let is_known = is_known_path(alloc, solver, path)?;
    if !is_known {
        return Ok(());
    }
    solver.probe_key(alloc, above, key)?;
    tell_shapes(alloc, shapes, solver, path, value)
}

/// Whether some candidate has a whole key path.
fn is_known_path(
    alloc: Global,
    solver: &Solver<'_, '_, '_>,
    path: &[&str],
) -> Result<bool, AllocError>
    ensures { IfOk result (λ is_known. is_known
        ≡ tell.is_known_path (names_of path.now) solver.now) }
{
    let candidates = solver.candidates(alloc)?;
    Ok(any_has_path(&candidates, path))
}

/// Whether one of some candidates has a whole key path.
fn any_has_path(candidates: &[ResolutionHandle<'_, '_>], path: &[&str]) -> bool
    ensures { result
        ≡ list_any (λ c. has_key_path (names_of path.now) (resolution_of c)) candidates.now }
{
    candidates
        .iter()
        .any(|candidate| candidate.resolution().has_key_path(path))
}

/// Tells a solver which of the candidates' shapes at a path a value fits, if it fits some, but not
/// all.
fn tell_shapes(
    alloc: Global,
    shapes: &Shapes,
    solver: &mut Solver<'_, '_, '_>,
    path: &[&str],
    value: &Value,
) -> Result<(), AllocError>
    ensures { OnOk result
        (solver.new ≡ tell.tell_shapes shapes.now (names_of path.now) (view value.now) solver.old) }
{
    let ids = solver.get_shapes_at_path(alloc, path)?;
    if !fits_some_not_all(shapes, &ids, value) {
        return Ok(());
    }
    let fitting = fitting(alloc, shapes, &ids, value)?;
    solver.satisfy_at_path(path, &fitting);
    Ok(())
}

/// Whether a value fits some of some shapes, but not all.
fn fits_some_not_all(shapes: &Shapes, ids: &[ShapeId], value: &Value) -> bool
    ensures { result ≡ tell.fits_some_not_all shapes.now (view value.now) ids.now }
{
    fits_any(shapes, ids, value) && !fits_all(shapes, ids, value)
}

/// Whether a value fits one of some shapes.
fn fits_any(shapes: &Shapes, ids: &[ShapeId], value: &Value) -> bool
    ensures { result ≡ tell.fits_any shapes.now (view value.now) ids.now }
{
    ids.iter().any(|id| fits(shapes, *id, value))
}

/// Whether a value fits all of some shapes.
fn fits_all(shapes: &Shapes, ids: &[ShapeId], value: &Value) -> bool
    ensures { result ≡ tell.fits_all shapes.now (view value.now) ids.now }
{
    ids.iter().all(|id| fits(shapes, *id, value))
}

/// Of some shapes those that a value fits.
fn fitting(
    alloc: Global,
    shapes: &Shapes,
    ids: &[ShapeId],
    value: &Value,
) -> Result<Vec<ShapeId>, AllocError>
    ensures { IfOk result (λ fitting.
        fitting.items ≡ tell.fitting shapes.now (view value.now) ids.now) }
{
    ids.iter()
        .copied()
        .filter(|id| fits(shapes, *id, value))
        .collect(alloc)
}
