//! What a target reads, as atoms.
ghost use Rattle.std.specs.Prelude.{◌≡◌, [], All, IfOk, IsTrue, OnOk, ℕ, length};
ghost use Rattle.std.specs.List.{Contains, list_any};
ghost use Rattle.facet_solver_checker.specs.Atoms as spec;
ghost use Rattle.facet_solver_checker.specs.Atoms.{
  AsksLower,
  AsksNumber,
  HasLower,
  HasOnward,
  HasOwn,
  HaveAtoms,
};

use facet_solver_reader::{Plan, PlannedAlternative, PlannedEnd, PlannedKind};
use std::alloc::{AllocError, Global};

/// What a value is read by that asks nothing else of the value itself.
#[derive(Clone, Copy, PartialEq, Eq, Debug)]
pub(crate) enum Atom {
    /// Null.
    Null,
    /// What the target of a number comes to.
    Plain(usize),
    /// The list of a number: the variants of an untagged enum that join.
    Joined(usize),
}

/// The atoms of a target.
#[derive(Debug, Drop)]
pub(crate) struct Atoms {
    pub(crate) each: Vec<Atom>,
}

impl Atoms {
    /// None.
    pub(crate) fn none(alloc: Global) -> Atoms
        ensures { result.each.items ≡ [] }
    {
        Atoms {
            each: Vec::new(alloc),
        }
    }

    /// Whether an atom is among them.
    fn has(&self, atom: Atom) -> bool
        ensures { IsTrue result → Contains self.now.each.items atom }
    {
        for other in &self.each {
            if *other == atom {
                return true;
            }
        }
        false
    }

    /// Adds an atom.
    fn add(&mut self, atom: Atom) -> Result<(), AllocError>
        ensures kept { OnOk result (All (Contains self.new.each.items) self.old.each.items) }
        ensures added { OnOk result (Contains self.new.each.items atom) }
    {
        if self.has(atom) {
            return Ok(());
        }
        self.each.push(atom)?;
        Ok(())
    }

    /// Adds an atom, if a target has it.
    pub(crate) fn add_if(&mut self, has: bool, atom: Atom) -> Result<(), AllocError>
        ensures kept { OnOk result (All (Contains self.new.each.items) self.old.each.items) }
        ensures added { OnOk result (IsTrue has → Contains self.new.each.items atom) }
    {
        if has { self.add(atom) } else { Ok(()) }
    }

    /// Adds the list of a number, if there is one.
    fn add_joined(&mut self, joined: Option<usize>) -> Result<(), AllocError>
        ensures kept { OnOk result (All (Contains self.new.each.items) self.old.each.items) }
        ensures added { OnOk result ((n : ℕ) → joined ≡ Some n
            → Contains self.new.each.items (Atom.Joined n)) }
    {
        match joined {
            Some(list) => self.add(Atom::Joined(list)),
            None => Ok(()),
        }
    }

    /// Adds atoms.
    fn add_all(&mut self, atoms: &[Atom]) -> Result<(), AllocError>
        ensures kept { OnOk result (All (Contains self.new.each.items) self.old.each.items) }
        ensures added { OnOk result (All (Contains self.new.each.items) atoms.now) }
    {
        for atom in atoms {
            self.add(*atom)?;
        }
        Ok(())
    }

    /// Adds the atoms of a target that the same value is asked as.
    fn add_lower(&mut self, lower: &[Atoms], number: usize) -> Result<(), AllocError>
        ensures kept { OnOk result (All (Contains self.new.each.items) self.old.each.items) }
        ensures added { OnOk result (HasLower lower.now self.new.each.items number) }
    {
        let Some(atoms) = lower.get(number) else {
            return Ok(());
        };
        self.add_all(&atoms.each)?;
        Ok(())
    }

    /// Adds those of what an alternative asks of the same value.
    pub(crate) fn add_alternative(
        &mut self,
        lower: &[Atoms],
        alternative: &PlannedAlternative<'_>,
    ) -> Result<(), AllocError>
        ensures kept { OnOk result (All (Contains self.new.each.items) self.old.each.items) }
        ensures added { OnOk result (HasOnward lower.now self.new.each.items alternative.now) }
    {
        match alternative.kind {
            PlannedKind::Joins | PlannedKind::Null => Ok(()),
            _ => self.add_lower(lower, alternative.content),
        }
    }

    /// Adds those of what alternatives ask of the same value.
    fn add_alternatives(
        &mut self,
        lower: &[Atoms],
        alone: &[PlannedAlternative<'_>],
    ) -> Result<(), AllocError>
        ensures kept { OnOk result (All (Contains self.new.each.items) self.old.each.items) }
        ensures added { OnOk result (All (HasOnward lower.now self.new.each.items) alone.now) }
    {
        for alternative in alone {
            self.add_alternative(lower, alternative)?;
        }
        Ok(())
    }

    /// Adds those of what a target asks of the same value.
    fn add_asked(&mut self, lower: &[Atoms], end: &PlannedEnd<'_>) -> Result<(), AllocError>
        ensures kept { OnOk result (All (Contains self.new.each.items) self.old.each.items) }
        ensures added { OnOk result
            ((k : ℕ) → AsksNumber end.now k → HasLower lower.now self.new.each.items k) }
    {
        match end {
            PlannedEnd::Option(inside) => self.add_lower(lower, *inside),
            PlannedEnd::Same(other) => self.add_lower(lower, *other),
            PlannedEnd::Untagged(_, alone) => self.add_alternatives(lower, alone),
            _ => Ok(()),
        }
    }
}

/// Whether a target has null as an atom by itself.
fn has_null(end: &PlannedEnd<'_>) -> bool
    ensures { result ≡ spec.has_null end.now }
{
    match end {
        PlannedEnd::Option(_) => true,
        PlannedEnd::Untagged(_, alone) => some_null_alone(alone),
        _ => false,
    }
}

/// Whether one of several alternatives reads null alone.
fn some_null_alone(alone: &[PlannedAlternative<'_>]) -> bool
    ensures { result ≡ list_any spec.is_null_alone alone.now }
{
    alone.iter().any(|alternative| is_null_alone(alternative))
}

/// Whether an alternative reads null alone.
pub(crate) fn is_null_alone(alternative: &PlannedAlternative<'_>) -> bool
    ensures { result ≡ spec.is_null_alone alternative.now }
{
    match alternative.kind {
        PlannedKind::Null => true,
        _ => false,
    }
}

/// Whether a target asks nothing of the same value.
fn is_plain(end: &PlannedEnd<'_>) -> bool
    ensures { result ≡ spec.is_plain end.now }
{
    match end {
        PlannedEnd::Option(_) | PlannedEnd::Same(_) | PlannedEnd::Untagged(_, _) => false,
        _ => true,
    }
}

/// The number of the list of the variants that join.
fn joined_of(end: &PlannedEnd<'_>) -> Option<usize>
    ensures { result ≡ spec.joined_of end.now }
{
    match end {
        PlannedEnd::Untagged(joined, _) => *joined,
        _ => None,
    }
}

/// The atoms that a target at a number has by itself.
fn own_atoms(alloc: Global, number: usize, end: &PlannedEnd<'_>) -> Result<Atoms, AllocError>
    ensures { IfOk result (λ own.
        (a : Atom) → HasOwn number end.now a → Contains own.each.items a) }
{
    let mut own = Atoms::none(alloc);
    own.add_if(has_null(end), Atom::Null)?;
    own.add_if(is_plain(end), Atom::Plain(number))?;
    own.add_joined(joined_of(end))?;
    Ok(own)
}

/// The atoms of a target at a number, by those of the targets before it.
fn atoms_of(
    alloc: Global,
    number: usize,
    end: &PlannedEnd<'_>,
    lower: &[Atoms],
) -> Result<Atoms, AllocError>
    ensures own { IfOk result (λ own.
        (a : Atom) → HasOwn number end.now a → Contains own.each.items a) }
    ensures asked { IfOk result (λ own.
        (k : ℕ) → AsksNumber end.now k → HasLower lower.now own.each.items k) }
{
    let mut atoms = own_atoms(alloc, number, end)?;
    atoms.add_asked(lower, end)?;
    Ok(atoms)
}

/// The atoms of each target of a plan.
pub(crate) fn all_atoms(alloc: Global, plan: &Plan<'_>) -> Result<Vec<Atoms>, AllocError>
    requires { AsksLower plan.now }
    ensures len { IfOk result (λ ls. length ls.items ≡ length plan.now.targets.items) }
    ensures atoms { IfOk result (λ ls. HaveAtoms plan.now ls.items) }
{
    let mut all = Vec::with_capacity(alloc, plan.targets.len())?;
    for target in &plan.targets {
        let atoms = atoms_of(alloc, all.len(), &target.end, &all)?;
        if all.push(atoms).is_err() {
            return Err(AllocError);
        }
    }
    Ok(all)
}
