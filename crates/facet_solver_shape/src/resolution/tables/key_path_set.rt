//! Key paths, each once, seen as a finite set.
ghost use Rattle.std.specs.Prelude.{◌≡◌, OnOk, OnErr, IfOk};
ghost use Rattle.std.specs.FinSet as set;
ghost use Rattle.facet_solver_shape.specs.Paths.{key_path_eq};
ghost use Rattle.facet_solver_shape.specs.Names.{names_of};
ghost use Rattle.facet_solver_shape.specs.Resolved.{key_paths_view};

use crate::resolution::KeyPath;
use std::alloc::{AllocError, Global};
use std::collections::BTreeSet;
use std::marker::Model;

/// Key paths, each once.
#[derive(Debug, Drop)]
pub(crate) struct KeyPathSet<'c> {
    paths: BTreeSet<KeyPath<'c>>,
}

impl<'c> Model for KeyPathSet<'c> {
    ghost use Rattle.std.specs.Ordering.{nat_cmp};
    ghost use Rattle.std.specs.Cmp.Lexicographic.{slice_cmp};
    ghost use Rattle.std.specs.FinSet as set;
    ghost use Rattle.facet_solver_shape.specs.ResolvedCode.{key_path_set_code};
    ghost use Rattle.facet_solver_shape.specs.Resolved.{key_paths_view};

    ghost Value = { set.FinSet (slice_cmp (slice_cmp nat_cmp)) };

    ghost coded = { key_path_set_code };

    ghost view = { λ s. key_paths_view s.paths.keys };
}

impl<'c> KeyPathSet<'c> {
    pub(crate) fn new(alloc: Global) -> Self
        ensures { result ≡ set.empty }
    {
        KeyPathSet {
            paths: BTreeSet::new(alloc),
        }
    }

    pub(crate) fn as_set(&self) -> &BTreeSet<KeyPath<'c>>
        ensures { key_paths_view result.now.keys ≡ self.now }
    {
        &self.paths
    }

    pub(crate) fn contains(&self, path: &[&str]) -> bool
        ensures { result ≡ set.contains self.now (names_of path.now) }
    {
        for known in &self.paths {
            if is_path(path, known) {
                return true;
            }
        }
        false
    }

    pub(crate) fn insert(&mut self, path: KeyPath<'c>) -> Result<(), AllocError>
        ensures ok { OnOk result (self.new ≡ set.insert self.old (names_of path.entry.items)) }
        ensures err { OnErr result (self.new ≡ self.old) }
    {
        self.paths.insert(path)?;
        Ok(())
    }

    /// The paths of both.
    pub(crate) fn joined(&self, alloc: Global, other: &KeyPathSet<'c>) -> Result<Self, AllocError>
        ensures { IfOk result (λ made. made ≡ set.union self.now other.now) }
    {
        let mut made = KeyPathSet::new(alloc);
        made.put_all(alloc, self)?;
        made.put_all(alloc, other)?;
        Ok(made)
    }

    /// After an error some of the paths may have been put in.
    fn put_all(&mut self, alloc: Global, other: &KeyPathSet<'c>) -> Result<(), AllocError>
        ensures { OnOk result (self.new ≡ set.union self.old other.now) }
    {
        for path in &other.paths {
            let made = Vec::from_slice(alloc, path)?;
            self.insert(made)?;
        }
        Ok(())
    }
}

fn is_path(path: &[&str], known: &KeyPath) -> bool
    ensures { result ≡ key_path_eq (names_of path.now) (names_of known.now.items) }
{
    path == known.as_slice()
}
