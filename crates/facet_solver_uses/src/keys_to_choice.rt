//! From keys to a choice: a new solver is told the keys of a document, and its end is the answer.
ghost use Rattle.std.specs.Prelude.{IfOk};
ghost use Rattle.facet_solver.specs.schema.ResolutionHandle.{IsHandleOf};
ghost use Rattle.facet_solver.specs.solver.State.{new_solver};
ghost use Rattle.facet_solver.specs.solver.Told.{see_keys};
ghost use Rattle.facet_solver_uses.specs.KeysToChoice.{FindsChoice, IsChoiceVerdict, keys_of};

use facet_solver::laws::{calls_are_made_one_by_one, told_choices_are_found};
use facet_solver::{FieldKey, ResolutionHandle, Schema, Solver, SolverError};
use std::alloc::Global;

/// The choice that the keys of a document mean, in a schema of whichever builder.
///
/// They may be the keys of one choice, in any order, repeated, or with keys among them that no
/// choice has. Then the answer is the resolution of that choice, or `Ambiguous`, which has its
/// description at its place.
///
/// Errors, for whatever keys: `NoMatch` where no resolution that the keys leave has all that it
/// requires; `Ambiguous` where several have, whose descriptions stand in the order of the
/// resolutions; `OutOfMemory`, at any time.
///
/// Each key is looked up once, and then narrows the candidates. The end goes through the candidates
/// that are left.
pub fn keys_to_choice<'s, 'c>(
    alloc: Global,
    schema: &'s Schema<'c>,
    keys: &[FieldKey<'_>],
) -> Result<ResolutionHandle<'s, 'c>, SolverError<'c>>
    ensures found { FindsChoice schema.now (keys_of keys.now) result }
    ensures verdict { IsChoiceVerdict (see_keys (keys_of keys.now) (new_solver schema.now)) result }
    ensures handle { IfOk result (IsHandleOf schema.now) }
{
    // What is known of told keys and of calls: what the contract follows from, beside `finish`.
    told_choices_are_found();
    calls_are_made_one_by_one();
    let mut solver = Solver::new(alloc, schema)?;
    for key in keys {
        solver.see_key(alloc, *key)?;
    }
    solver.finish(alloc)
}
