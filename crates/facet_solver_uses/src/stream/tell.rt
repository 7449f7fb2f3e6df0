//! What a solver is told of a document.
ghost use Rattle.std.specs.Prelude.{◌≡◌, IfOk, List, OnErr, OnOk};
ghost use Rattle.facet_solver.specs.KeyPath.{whole_path};
ghost use Rattle.facet_solver.specs.Names.{Name, names_of};
ghost use Rattle.facet_solver.specs.solver.State.{new_solver};
ghost use Rattle.facet_solver_uses.specs.stream.Tell.{tell_key, tell_scalar, tell_text};

use super::candidates::{is_probed, is_told};
use facet_solver::{FieldKey, Schema, ShapeId, Solver};
use std::alloc::{AllocError, Global};
use std::marker::Model;

/// A solver that is told what stands in a document, each at the path of names that lead there.
#[derive(Drop)]
pub(super) struct Teller<'s, 'c, 'd> {
    schema: &'s Schema<'c>,
    pub(super) solver: Solver<'s, 'c, 'd>,
}

impl<'s, 'c, 'd> Model for Teller<'s, 'c, 'd> {
    ghost use Rattle.std.specs.Prelude.{◌≡◌};
    ghost use Rattle.facet_solver.specs.solver.State.{State, state_code};

    ghost Value = { State };

    ghost coded = { state_code };

    ghost view = { λ t. t.solver };

    ghost invariant = { λ t. t.solver.schema ≡ t.schema.now };
}

impl<'s, 'c, 'd> Teller<'s, 'c, 'd> {
    /// A new solver of a schema.
    pub(super) fn new(alloc: Global, schema: &'s Schema<'c>) -> Result<Self, AllocError>
        ensures { IfOk result (λ teller. teller ≡ new_solver schema.now) }
    {
        let solver = Solver::new(alloc, schema)?;
        Ok(Teller { schema, solver })
    }

    /// The schema.
    pub(super) fn schema(&self) -> &'s Schema<'c>
        ensures { result.now ≡ self.now.schema }
    {
        self.schema
    }

    /// Tells a key, by its whole path: one of the first level is seen, a deeper one may be probed.
    pub(super) fn key(&mut self, alloc: Global, whole: &[&'d str]) -> Result<(), AllocError>
        ensures ok { OnOk result ((path : List Name) (key : Name)
            → names_of whole.now ≡ whole_path path key → self.new ≡ tell_key path key self.old) }
        ensures err { OnErr result (self.new ≡ self.old) }
    {
        let Some((key, path)) = whole.split_last() else {
            return Ok(());
        };
        if path.is_empty() {
            self.solver.see_key(alloc, FieldKey::flat(key))?;
        } else if is_probed(&self.solver, self.schema, whole) {
            self.solver.probe_key(alloc, path, key)?;
        }
        Ok(())
    }

    /// Tells which shapes a value fits, where that may be told.
    pub(super) fn scalar(&mut self, path: &[&str], shapes: &[ShapeId])
        ensures { self.new ≡ tell_scalar (names_of path.now) shapes.now self.old }
    {
        if is_told(&self.solver, self.schema, path) {
            self.solver.satisfy_at_path(path, shapes);
        }
    }

    /// Tells a text, as that of a tag on the first level, or else by the shapes that it fits.
    pub(super) fn text(
        &mut self,
        alloc: Global,
        path: &[&'d str],
        text: &str,
        shapes: &[ShapeId],
    ) -> Result<(), AllocError>
        ensures ok { OnOk result
            (self.new ≡ tell_text (names_of path.now) text.now shapes.now self.old) }
        ensures err { OnErr result (self.new ≡ self.old) }
    {
        let is_variant = match path {
            [tag] => self.solver.see_tag(alloc, tag, text)?,
            _ => false,
        };
        if !is_variant {
            self.scalar(path, shapes);
        }
        Ok(())
    }
}
