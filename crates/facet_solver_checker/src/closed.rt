//! That a table of targets which read no value in common bears itself out.
ghost use Rattle.std.specs.Prelude.{◌≡◌, All, IfOk, IsTrue, ℕ};
ghost use Rattle.facet_solver_checker.specs.Apartness.{
  AllApart,
  AreNamesRequired,
  AreTargetsApart,
  AtomsApart,
  EndApart,
  EndsApart,
};
ghost use Rattle.facet_solver_checker.specs.Atoms.{HaveAtoms, IsPlanFor};
ghost use Rattle.facet_solver_checker.specs.Aparts.{left};
ghost use Rattle.facet_solver_checker.specs.Pairs.{IsClosedDown};
ghost use Rattle.facet_solver_reader.specs.Plans.{Meaning};

use crate::apart::Apart;
use crate::atoms::{Atom, Atoms};
use crate::kinds::have_no_simple;
use crate::lists::lists_apart;
use crate::object_ends::ends_objects_apart;
use crate::required::Required;
use crate::texts::texts_apart;
use facet_solver_reader::{Plan, PlannedEnd};
use std::alloc::{AllocError, Global};

/// Whether what two targets come to reads no value in common.
fn ends_apart(
    alloc: Global,
    plan: &Plan<'_>,
    required: &Required<'_>,
    apart: &Apart,
    first: &PlannedEnd<'_>,
    second: &PlannedEnd<'_>,
) -> Result<bool, AllocError>
    requires required { AreNamesRequired plan.now required.now.names.items }
    ensures { IfOk result (λ b.
        IsTrue b → EndsApart plan.now apart.now first.now second.now) }
{
    let simple = have_no_simple(first, second);
    let texts = texts_apart(first, second);
    let lists = lists_apart(apart, first, second);
    if !simple || !texts || !lists {
        return Ok(false);
    }
    ends_objects_apart(alloc, plan, required, apart, first, second)
}

/// Whether what a target comes to reads no value that an atom reads.
fn end_apart(
    alloc: Global,
    plan: &Plan<'_>,
    required: &Required<'_>,
    apart: &Apart,
    first: &PlannedEnd<'_>,
    second: Atom,
) -> Result<bool, AllocError>
    requires required { AreNamesRequired plan.now required.now.names.items }
    ensures { IfOk result (λ b. IsTrue b → EndApart plan.now apart.now first.now second) }
{
    match second {
        Atom::Null => {
            let null = PlannedEnd::Null;
            ends_apart(alloc, plan, required, apart, first, &null)
        }
        Atom::Plain(number) => match plan.targets.get(number) {
            Some(target) => ends_apart(alloc, plan, required, apart, first, &target.end),
            None => Ok(true),
        },
        Atom::Joined(list) => {
            let object = PlannedEnd::Object(Some(list));
            ends_apart(alloc, plan, required, apart, first, &object)
        }
    }
}

/// Whether two atoms read no value in common.
pub(crate) fn atoms_apart(
    alloc: Global,
    plan: &Plan<'_>,
    required: &Required<'_>,
    apart: &Apart,
    first: Atom,
    second: Atom,
) -> Result<bool, AllocError>
    requires required { AreNamesRequired plan.now required.now.names.items }
    ensures { IfOk result (λ b. IsTrue b → AtomsApart plan.now apart.now first second) }
{
    match first {
        Atom::Null => {
            let null = PlannedEnd::Null;
            end_apart(alloc, plan, required, apart, &null, second)
        }
        Atom::Plain(number) => match plan.targets.get(number) {
            Some(target) => end_apart(alloc, plan, required, apart, &target.end, second),
            None => Ok(true),
        },
        Atom::Joined(list) => {
            let object = PlannedEnd::Object(Some(list));
            end_apart(alloc, plan, required, apart, &object, second)
        }
    }
}

/// Whether an atom reads no value that one of several reads.
fn atom_apart_from(
    alloc: Global,
    plan: &Plan<'_>,
    required: &Required<'_>,
    apart: &Apart,
    first: Atom,
    second: &[Atom],
) -> Result<bool, AllocError>
    requires required { AreNamesRequired plan.now required.now.names.items }
    ensures { IfOk result (λ b.
        IsTrue b → All (AtomsApart plan.now apart.now first) second.now) }
{
    for atom in second {
        let is_apart = atoms_apart(alloc, plan, required, apart, first, *atom)?;
        if !is_apart {
            return Ok(false);
        }
    }
    Ok(true)
}

/// Whether several atoms read no value in common with others.
pub(crate) fn all_apart(
    alloc: Global,
    plan: &Plan<'_>,
    required: &Required<'_>,
    apart: &Apart,
    first: &[Atom],
    second: &[Atom],
) -> Result<bool, AllocError>
    requires required { AreNamesRequired plan.now required.now.names.items }
    ensures { IfOk result (λ b. IsTrue b → AllApart plan.now apart.now first.now second.now) }
{
    for atom in first {
        let is_apart = atom_apart_from(alloc, plan, required, apart, *atom, second)?;
        if !is_apart {
            return Ok(false);
        }
    }
    Ok(true)
}

/// Whether two targets read no value in common, by their atoms.
pub(crate) fn targets_apart(
    alloc: Global,
    plan: &Plan<'_>,
    required: &Required<'_>,
    atoms: &[Atoms],
    apart: &Apart,
    pair: (usize, usize),
) -> Result<bool, AllocError>
    requires required { AreNamesRequired plan.now required.now.names.items }
    ensures { IfOk result (λ b. IsTrue b
        → AreTargetsApart plan.now apart.now atoms.now pair.0 pair.1) }
{
    let Some(one) = atoms.get(pair.0) else {
        return Ok(false);
    };
    let Some(other) = atoms.get(pair.1) else {
        return Ok(false);
    };
    all_apart(alloc, plan, required, apart, &one.each, &other.each)
}

/// Whether each pair of a table reads no value in common, if those of the table do not of the
/// values within. So no pair of the table reads a value in common.
pub(crate) fn is_closed(
    alloc: Global,
    plan: &Plan<'_>,
    required: &Required<'_>,
    atoms: &[Atoms],
    apart: &Apart,
) -> Result<bool, AllocError>
    requires required { AreNamesRequired plan.now required.now.names.items }
    requires atoms { HaveAtoms plan.now atoms.now }
    requires targets { apart.now.targets.now ≡ plan.now.targets.items }
    ensures { IfOk result (λ b. IsTrue b → (m : Meaning) → IsPlanFor m plan.now
        → IsClosedDown m.rules (left m apart.now)) }
{
    let pairs = apart.pairs(alloc)?;
    for pair in &pairs {
        let is_apart = targets_apart(alloc, plan, required, atoms, apart, *pair)?;
        if !is_apart {
            return Ok(false);
        }
    }
    Ok(true)
}
