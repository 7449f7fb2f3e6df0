//! A solver that goes by key paths alone: it narrows resolutions by the nested keys of a document,
//! and records none.
ghost use Rattle.std.specs.Prelude.{◌≡◌, IfOk};
ghost use Rattle.std.specs.Option.{ForSome};
ghost use Rattle.facet_solver_shape.specs.Names.{names_of};
ghost use Rattle.facet_solver.specs.KeyPath.{has_key_at, whole_path};
ghost use Rattle.facet_solver.specs.Probing.{probe_key, probe_result, probe_result_view, resolutions_of};

use crate::key_path::{is_found, is_found_sooner, known_path};
use crate::schema::Schema;
use facet_solver_shape::{KeyPath, Resolution};
use std::alloc::{AllocError, Global};
use std::fmt;
use std::marker::Model;

/// What the keys that were probed say of the document.
#[derive(Debug, Drop)]
pub enum ProbeResult<'s, 'c> {
    /// Several candidates are left.
    KeepGoing,
    /// Exactly one candidate is left.
    Solved(&'s Resolution<'c>),
    /// No candidate is left.
    NoMatch,
}

/// Narrows resolutions by the key paths of a document.
///
/// It keeps a list of candidates and no seen keys. So an answer says which candidates have the key
/// paths of a document, and not whether the document has all that a candidate requires.
#[derive(Drop)]
pub struct ProbingSolver<'s, 'c> {
    candidates: Vec<&'s Resolution<'c>>,
}

impl<'s, 'c> Model for ProbingSolver<'s, 'c> {
    ghost use Rattle.std.specs.Prelude.{List};
    ghost use Rattle.std.specs.Coded.{coded_list};
    ghost use Rattle.facet_solver_shape.specs.Resolved.{Resolved};
    ghost use Rattle.facet_solver_shape.specs.ResolvedCode.{resolved_code};
    ghost use Rattle.facet_solver.specs.Probing.{resolutions_of};

    ghost Value = { List Resolved };

    ghost coded = { coded_list resolved_code };

    ghost view = { λ s. resolutions_of s.candidates.items };
}

impl<'s, 'c> ProbingSolver<'s, 'c> {
    /// A solver whose candidates are all resolutions of a schema, in order.
    ///
    /// The only error is out of memory.
    pub fn new(alloc: Global, schema: &'s Schema<'c>) -> Result<Self, AllocError>
        ensures { IfOk result (λ solver. solver ≡ schema.now.resolutions) }
    {
        ProbingSolver::from_resolutions(alloc, schema.resolutions())
    }

    /// A solver whose candidates are some resolutions, in order.
    ///
    /// The only error is out of memory.
    pub fn from_resolutions(
        alloc: Global,
        resolutions: &'s [Resolution<'c>],
    ) -> Result<Self, AllocError>
        ensures { IfOk result (λ solver. solver ≡ resolutions.now) }
    {
        let candidates = resolutions.iter().collect(alloc)?;
        Ok(ProbingSolver { candidates })
    }

    /// Says that the document has a key at a path of names. Only the candidates stay that have the
    /// whole path, in their order. Where none has it, none stays.
    ///
    /// The answer says how many candidates are left. The call allocates nothing.
    pub fn probe_key(&mut self, path: &[&str], key: &str) -> ProbeResult<'s, 'c>
        ensures answer { probe_result_view result ≡ probe_result self.new }
        ensures narrowed { self.new ≡ probe_key (names_of path.now) key.now self.old }
    {
        retain_with_key(&mut self.candidates, path, key);
        self.finish()
    }

    /// The candidates, in their order.
    pub fn candidates(&self) -> &[&'s Resolution<'c>]
        ensures { resolutions_of result.now ≡ self.now }
    {
        &self.candidates
    }

    /// Says how many candidates are left, as `probe_key` does. It changes nothing.
    pub fn finish(&self) -> ProbeResult<'s, 'c>
        ensures { probe_result_view result ≡ probe_result self.now }
    {
        match self.candidates.as_slice() {
            [] => ProbeResult::NoMatch,
            [resolution] => ProbeResult::Solved(resolution),
            _ => ProbeResult::KeepGoing,
        }
    }
}

/// Only the resolutions stay that have the key at the path, in their order.
///
/// The checker has no rule for a closure of `retain` that changes a search.
fn retain_with_key<'s, 'c>(resolutions: &mut Vec<&'s Resolution<'c>>, path: &[&str], key: &str)
    ensures { resolutions_of resolutions.new.items
        ≡ probe_key (names_of path.now) key.now (resolutions_of resolutions.old.items) }
{
    let mut search = KeyPathSearch::new(path, key);
    let mut kept = 0;
    for index in 0..resolutions.len() {
        let resolution = resolutions[index];
        if search.is_in(resolution) {
            resolutions[kept] = resolution;
            kept += 1;
        }
    }
    resolutions.truncate(kept);
}

/// A key at a path, sought in one resolution after another.
///
/// The first resolution that has it gives the whole path, by which it is sought from then on.
#[derive(Drop)]
struct KeyPathSearch<'p, 'n, 'k, 's, 'c> {
    path: &'p [&'n str],
    key: &'k str,
    known: Option<&'s KeyPath<'c>>,
    ghost is_whole: { ForSome known
        (λ known. names_of known.now.items ≡ whole_path (names_of path.now) key.now) },
}

impl<'p, 'n, 'k, 's, 'c> KeyPathSearch<'p, 'n, 'k, 's, 'c> {
    fn new(path: &'p [&'n str], key: &'k str) -> Self
        ensures path { result.path.now ≡ path.now }
        ensures key { result.key.now ≡ key.now }
    {
        KeyPathSearch {
            path,
            key,
            known: None,
        }
    }

    /// Whether a resolution has the key at the path.
    fn is_in(&mut self, resolution: &'s Resolution<'c>) -> bool
        ensures has { result
            ≡ has_key_at (names_of self.old.path.now) self.old.key.now resolution.now }
        ensures path { self.new.path ≡ self.old.path }
        ensures key { self.new.key ≡ self.old.key }
    {
        match self.known {
            Some(known) if is_found_sooner(resolution, known) => is_found(resolution, known),
            Some(_) => known_path(resolution, self.path, self.key).is_some(),
            None => {
                self.known = known_path(resolution, self.path, self.key);
                self.known.is_some()
            }
        }
    }
}

/// Printed as a derived impl would. The derive gets no proof where references lie in a vector, so
/// each is printed by itself.
impl fmt::Debug for ProbingSolver<'_, '_> {
    fn fmt<W: fmt::Write>(&self, f: &mut fmt::Formatter<W>) -> fmt::Result {
        f.debug_struct("ProbingSolver")
            .field("candidates", &Candidates(&self.candidates))
            .finish()
    }
}

#[derive(Drop)]
struct Candidates<'l, 's, 'c>(&'l [&'s Resolution<'c>]);

impl fmt::Debug for Candidates<'_, '_, '_> {
    fn fmt<W: fmt::Write>(&self, f: &mut fmt::Formatter<W>) -> fmt::Result {
        let mut list = f.debug_list();
        for candidate in self.0 {
            list.entry(*candidate);
        }
        list.finish()
    }
}
