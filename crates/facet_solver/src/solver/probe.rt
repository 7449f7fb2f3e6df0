//! The call that asks for a key at a path of names.
ghost use Rattle.std.specs.Prelude.{◌≡◌, IfOk, OnErr, OnOk};
ghost use Rattle.facet_solver_shape.specs.Names.{names_of};
ghost use Rattle.facet_solver.specs.solver.KeyResult.{IsKeyResultOf, key_result_view};
ghost use Rattle.facet_solver.specs.solver.Probe as probe;
ghost use Rattle.facet_solver.specs.solver.Probe.{key_path_result};

use crate::schema::handle::ResolutionHandle;
use crate::set::{Never, Only};
use crate::solver::Solver;
use crate::solver::key_result::KeyResult;
use crate::solver::path_search::{PathSearch, first_with_path};
use std::alloc::{AllocError, Global};

impl<'s, 'c> Solver<'s, 'c, '_> {
    /// Says that the document has a key at a path of names. Only the candidates stay that have the
    /// whole path: the path and then the key. Where none has it, none stays. No key is marked as
    /// seen.
    ///
    /// The answer is `Unknown` where none is left, and `Solved` where one is left. Otherwise it
    /// depends on the shapes of the candidates at the whole path: none is `Unknown`, one is
    /// `Unambiguous`, more are `Ambiguous`. That has for each shape its score, and the field of the
    /// first name in the first candidate with this shape.
    ///
    /// The only error is out of memory. The candidates are then as before.
    pub fn probe_key(
        &mut self,
        alloc: Global,
        path: &[&str],
        key: &str,
    ) -> Result<KeyResult<'s, 'c>, AllocError>
        ensures answer { IfOk result (λ answer.
            key_result_view answer ≡ key_path_result (names_of path.now) key.now self.old) }
        ensures handle { IfOk result (IsKeyResultOf self.old.schema) }
        ensures ok { OnOk result
            (self.new ≡ probe.probe_key (names_of path.now) key.now self.old) }
        ensures err { OnErr result (self.new ≡ self.old) }
    {
        let schema = self.schema;
        let mut indices = self.candidates.iter();
        let Some((first, path)) = first_with_path(schema, &mut indices, path, key) else {
            self.candidates.retain(&Never);
            return Ok(KeyResult::Unknown);
        };
        let search = PathSearch { schema, path };
        if !search.is_at_any(indices) {
            self.candidates.retain(&Only { index: first });
            return Ok(KeyResult::Solved(ResolutionHandle::new(schema, first)));
        }
        let answer = search.by_shapes(alloc, &self.candidates)?;
        self.candidates.retain(&search);
        Ok(answer)
    }
}
