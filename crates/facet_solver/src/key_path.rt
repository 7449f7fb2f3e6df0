//! Key paths of resolutions.
//!
//! A path that is told is sought with its key apart, so that the two are never joined in memory. A
//! set looks up only a path whose names live as long as its own: the whole path, as some resolution
//! has it. It does so only where that is sure to be less than a walk.
ghost use Rattle.std.specs.Prelude.{◌≡◌, IfSome, is_some};
ghost use Rattle.facet_solver_shape.specs.Names.{names_of};
ghost use Rattle.facet_solver_shape.specs.Paths.{key_path_eq};
ghost use Rattle.facet_solver.specs.KeyPath.{has_key_at, has_key_path, whole_path};

use facet_solver_shape::{KeyPath, Resolution};

/// Fewer paths are walked in any case.
const FEW: usize = 32;

/// The whole path of a key that stands at a path, as a resolution has it, if it does.
pub(crate) fn known_path<'s, 'c>(
    resolution: &'s Resolution<'c>,
    path: &[&str],
    key: &str,
) -> Option<&'s KeyPath<'c>>
    ensures known { is_some result ≡ has_key_at (names_of path.now) key.now resolution.now }
    ensures whole { IfSome result
        (λ known. names_of known.now.items ≡ whole_path (names_of path.now) key.now) }
{
    for known in resolution.known_paths() {
        if is_path_to(known, path, key) {
            return Some(known);
        }
    }
    None
}

/// Whether a resolution has a path that it or another has.
pub(crate) fn has_known_path<'c>(resolution: &Resolution<'c>, known: &KeyPath<'c>) -> bool
    ensures { result ≡ has_key_path (names_of known.now.items) resolution.now }
{
    match known.split_last() {
        Some((key, path)) if !is_found_sooner(resolution, known) => {
            known_path(resolution, path, key).is_some()
        }
        _ => is_found(resolution, known),
    }
}

/// Whether a look-up of a path in a resolution is sure to be less than a walk.
///
/// A look-up compares at most four paths for each time that their number can be halved, and of each
/// the names that it shares with the path. A walk mostly compares the last name of each path alone.
pub(crate) fn is_found_sooner<'c>(resolution: &Resolution<'c>, known: &KeyPath<'c>) -> bool {
    let paths = resolution.known_paths().len();
    if paths < FEW {
        return false;
    }
    let compared = 4 * (usize::BITS - paths.leading_zeros()) as usize;
    known.len().saturating_mul(compared) <= paths
}

/// Whether a path is found among those of a resolution by a look-up.
pub(crate) fn is_found<'c>(resolution: &Resolution<'c>, known: &KeyPath<'c>) -> bool
    ensures { result ≡ has_key_path (names_of known.now.items) resolution.now }
{
    resolution.known_paths().contains(known)
}

fn is_path_to(known: &[&str], path: &[&str], key: &str) -> bool
    ensures { result ≡ key_path_eq (whole_path (names_of path.now) key.now) (names_of known.now) }
{
    match known.split_last() {
        Some((last, before)) => key == *last && path == before,
        None => false,
    }
}
