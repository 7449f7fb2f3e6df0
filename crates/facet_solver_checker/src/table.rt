//! The table of targets that read no value in common.
ghost use Rattle.std.specs.Prelude.{◌≡◌, IfOk, OnOk};
ghost use Rattle.facet_solver_reader.specs.Plans.{Meaning};
ghost use Rattle.facet_solver_checker.specs.Apartness.{AreNamesRequired};
ghost use Rattle.facet_solver_checker.specs.Aparts.{left};
ghost use Rattle.facet_solver_checker.specs.Atoms.{HaveAtoms, IsPlanFor};
ghost use Rattle.facet_solver_checker.specs.Pairs.{IsClosedDown};

use crate::apart::Apart;
use crate::atoms::Atoms;
use crate::candidates::candidates;
use crate::closed::{is_closed, targets_apart};
use crate::required::Required;
use facet_solver_reader::Plan;
use std::alloc::{AllocError, Global};

/// The pairs of targets that read no value in common, of those that are asked of.
///
/// It begins with all of these. Those whose values may meet, by the table as it is, are left out,
/// and so on, until the others bear one another out.
pub(crate) fn apart_of<'t>(
    alloc: Global,
    plan: &'t Plan<'t>,
    required: &'t Required<'t>,
    atoms: &'t [Atoms],
) -> Result<Apart<'t>, AllocError>
    requires required { AreNamesRequired plan.now required.now.names.items }
    requires atoms { HaveAtoms plan.now atoms.now }
    ensures { IfOk result (λ apart. (m : Meaning) → IsPlanFor m plan.now
        → IsClosedDown m.rules (left m apart)) }
{
    let asked = candidates(alloc, plan, required, atoms)?;
    let mut apart = Apart::of_tags(alloc, plan);
    apart.add_all(&asked)?;
    // Each round but the last leaves a pair out.
    for _ in 0..=asked.len() {
        let is_last = is_closed(alloc, plan, required, atoms, &apart)?;
        if is_last {
            return Ok(apart);
        }
        leave_out_met(alloc, plan, required, atoms, &asked, &mut apart)?;
    }
    Ok(Apart::of_tags(alloc, plan))
}

/// Leaves the pairs out of a table whose targets may read a value in common, by the table as it is
/// then: first those that were asked of last, since others come to them.
fn leave_out_met(
    alloc: Global,
    plan: &Plan<'_>,
    required: &Required<'_>,
    atoms: &[Atoms],
    asked: &[(usize, usize)],
    apart: &mut Apart<'_>,
) -> Result<(), AllocError>
    requires required { AreNamesRequired plan.now required.now.names.items }
    requires atoms { HaveAtoms plan.now atoms.now }
    ensures { OnOk result (apart.new.targets ≡ apart.old.targets) }
{
    for pair in asked.iter().rev() {
        let is_left = apart.has(pair.0, pair.1);
        if is_left && !targets_apart(alloc, plan, required, atoms, apart, *pair)? {
            apart.leave_out(pair.0, pair.1);
        }
    }
    Ok(())
}
