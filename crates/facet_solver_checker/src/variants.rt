//! Values that two variants of an enum read in common.
ghost use Rattle.std.specs.Prelude.{◌≡◌, All, IfOk, IsTrue};
ghost use Rattle.facet_solver_checker.specs.Tables.{AreTablesOf};
ghost use Rattle.facet_solver_checker.specs.VariantsApart as spec;
ghost use Rattle.facet_solver_checker.specs.VariantsApart.{
  AreAtomsOf,
  AreJoinedApart,
  AreNamesApart,
  AreSidesApart,
  AreTwoApart,
  AreVariantsApart,
  IsFloatKindBeside,
  IsWholeAtom,
  side_at,
};

use crate::atoms::{Atom, Atoms, is_null_alone};
use crate::closed::all_apart;
use crate::tables::Tables;
use facet_solver_reader::{
    Plan, PlannedAlternative, PlannedEnd, PlannedKind, PlannedName, WholeRange,
};
use std::alloc::{AllocError, Global};

/// Whether two ways to read an enum, by their indices, read no value in common: a variant, or,
/// behind the last one, those that join.
pub(crate) fn variants_apart(
    alloc: Global,
    tables: &Tables<'_, '_>,
    target: usize,
    ways: (usize, usize),
) -> Result<bool, AllocError>
    requires { AreTablesOf tables.now }
    ensures { IfOk result (λ b.
        IsTrue b → AreVariantsApart tables.now.plan.now tables.now.apart.now target ways) }
{
    let Some(found) = tables.plan.targets.get(target) else {
        return Ok(false);
    };
    ways_apart(alloc, tables, &found.end, ways)
}

/// The same of what a target comes to.
fn ways_apart(
    alloc: Global,
    tables: &Tables<'_, '_>,
    end: &PlannedEnd<'_>,
    ways: (usize, usize),
) -> Result<bool, AllocError>
    requires { AreTablesOf tables.now }
    ensures { IfOk result (λ b. IsTrue b
        → AreSidesApart tables.now.plan.now tables.now.apart.now end.now
        (side_at end.now ways.0) (side_at end.now ways.1)) }
{
    match end {
        PlannedEnd::Named(names) => Ok(names_differ(names, ways.0, ways.1)),
        PlannedEnd::Untagged(joined, alone) => match alone.get(ways.0) {
            Some(one) => match alone.get(ways.1) {
                Some(other) => two_apart(alloc, tables, one, other),
                None => joined_apart(alloc, tables, *joined, one),
            },
            None => match alone.get(ways.1) {
                Some(other) => joined_apart(alloc, tables, *joined, other),
                None => Ok(false),
            },
        },
        _ => Ok(false),
    }
}

/// Whether two variants of an untagged enum read no value in common.
fn two_apart(
    alloc: Global,
    tables: &Tables<'_, '_>,
    one: &PlannedAlternative<'_>,
    other: &PlannedAlternative<'_>,
) -> Result<bool, AllocError>
    requires { AreTablesOf tables.now }
    ensures { IfOk result (λ b. IsTrue b
        → AreTwoApart tables.now.plan.now tables.now.apart.now one.now other.now) }
{
    if is_fallback(one) != is_fallback(other) {
        return Ok(true);
    }
    let first = alternative_atoms(alloc, tables.atoms, one)?;
    let second = alternative_atoms(alloc, tables.atoms, other)?;
    if is_float_beside(tables.plan, one.kind, other.kind, &second.each) {
        return Ok(true);
    }
    if is_float_beside(tables.plan, other.kind, one.kind, &first.each) {
        return Ok(true);
    }
    all_apart(
        alloc,
        tables.plan,
        tables.required,
        tables.apart,
        &first.each,
        &second.each,
    )
}

/// Whether a kind is that of floats, and another that of whole numbers of a range, which the atoms
/// read alone.
fn is_float_beside(plan: &Plan<'_>, float: PlannedKind, whole: PlannedKind, atoms: &[Atom]) -> bool
    ensures { IsTrue result → IsFloatKindBeside plan.now float whole atoms.now }
{
    match float {
        PlannedKind::Float => match whole {
            PlannedKind::Whole(range) => read_wholes(plan, range, atoms),
            _ => false,
        },
        _ => false,
    }
}

/// Whether atoms read whole numbers of a range alone.
fn read_wholes(plan: &Plan<'_>, range: WholeRange, atoms: &[Atom]) -> bool
    ensures { IsTrue result → All (IsWholeAtom plan.now range) atoms.now }
{
    for atom in atoms {
        if !reads_wholes(plan, range, *atom) {
            return false;
        }
    }
    true
}

/// Whether an atom reads whole numbers of a range alone.
fn reads_wholes(plan: &Plan<'_>, range: WholeRange, atom: Atom) -> bool
    ensures { IsTrue result → IsWholeAtom plan.now range atom }
{
    let Atom::Plain(number) = atom else {
        return false;
    };
    let Some(target) = plan.targets.get(number) else {
        return false;
    };
    match target.end {
        PlannedEnd::Whole(other) => other == range,
        _ => false,
    }
}

/// Whether those that join and another variant of an untagged enum read no value in common.
fn joined_apart(
    alloc: Global,
    tables: &Tables<'_, '_>,
    joined: Option<usize>,
    one: &PlannedAlternative<'_>,
) -> Result<bool, AllocError>
    requires { AreTablesOf tables.now }
    ensures { IfOk result (λ b. IsTrue b
        → AreJoinedApart tables.now.plan.now tables.now.apart.now joined one.now) }
{
    if is_fallback(one) {
        return Ok(true);
    }
    let Some(list) = joined else {
        return Ok(true);
    };
    let first = [Atom::Joined(list)];
    let second = alternative_atoms(alloc, tables.atoms, one)?;
    all_apart(
        alloc,
        tables.plan,
        tables.required,
        tables.apart,
        &first,
        &second.each,
    )
}

/// Whether a variant of an untagged enum is a fallback.
fn is_fallback(alternative: &PlannedAlternative<'_>) -> bool
    ensures { result ≡ spec.is_fallback alternative.now }
{
    match alternative.kind {
        PlannedKind::Fallback => true,
        _ => false,
    }
}

/// The atoms by which a variant of an untagged enum reads a value.
fn alternative_atoms(
    alloc: Global,
    atoms: &[Atoms],
    alternative: &PlannedAlternative<'_>,
) -> Result<Atoms, AllocError>
    ensures { IfOk result (λ own. AreAtomsOf atoms.now alternative.now own.each.items) }
{
    let mut own = Atoms::none(alloc);
    own.add_if(is_null_alone(alternative), Atom::Null)?;
    own.add_alternative(atoms, alternative)?;
    Ok(own)
}

/// Whether two variants that a document names have different names.
fn names_differ(names: &[PlannedName<'_>], first: usize, second: usize) -> bool
    ensures { IsTrue result → AreNamesApart names.now first second }
{
    let Some(one) = names.get(first) else {
        return false;
    };
    let Some(other) = names.get(second) else {
        return false;
    };
    are_two(one.text, other.text)
}

/// Whether two texts differ.
fn are_two(first: &str, second: &str) -> bool
    ensures { IsTrue result → first.now ≡ second.now → ⊥ }
{
    first != second
}
