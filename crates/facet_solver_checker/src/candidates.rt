//! Which pairs of targets the table is asked of: first by the forks of a plan, then by these pairs
//! themselves.

use crate::apart::Apart;
use crate::asked::Asked;
use crate::asking::Asking;
use crate::atoms::{Atom, Atoms};
use crate::index::{Index, are_alike};
use crate::required::Required;
use crate::tables::Tables;
use crate::touched::Touched;
use facet_solver_reader::{Plan, PlannedAlternative, PlannedEnd, PlannedKind, PlannedPart};
use std::alloc::{AllocError, Global};

/// The pairs of targets that say whether two ways to read the same have a value in common, in the
/// order in which they are asked of first.
pub(crate) fn candidates<'t>(
    alloc: Global,
    plan: &'t Plan<'t>,
    required: &'t Required<'t>,
    atoms: &'t [Atoms],
) -> Result<Vec<(usize, usize)>, AllocError> {
    let tags = Apart::of_tags(alloc, plan);
    let touched = Touched::new(alloc, plan)?;
    let asking = Asking {
        tables: Tables {
            plan,
            required,
            touched: &touched,
            atoms,
            apart: &tags,
        },
    };
    let mut asked = Asked::none(alloc);
    ask_lists(alloc, &asking, &mut asked)?;
    ask_enums(alloc, &asking, &mut asked)?;
    follow(alloc, &asking, &mut asked)?;
    Ok(asked.into_pairs())
}

/// Asks what tells the branches of all selections apart.
fn ask_lists(alloc: Global, asking: &Asking<'_, '_>, asked: &mut Asked) -> Result<(), AllocError> {
    for (number, list) in asking.tables.plan.lists.iter().enumerate() {
        for part in &list.parts {
            if let PlannedPart::Selection(selection) = part {
                let must_touch = selection.optional || asking.tables.touched.has(number);
                ask_selection(alloc, asking, must_touch, &selection.branches, asked)?;
                ask_beside(&list.parts, asked)?;
            }
        }
    }
    Ok(())
}

/// Asks which members that are required beside a selection have no value.
fn ask_beside(parts: &[PlannedPart<'_>], asked: &mut Asked) -> Result<(), AllocError> {
    for part in parts {
        match part {
            PlannedPart::Member(member) if member.required => {
                asked.ask(member.target, member.target)?;
            }
            _ => {}
        }
    }
    Ok(())
}

/// Asks what tells each two branches of a selection apart that an index leaves.
fn ask_selection(
    alloc: Global,
    asking: &Asking<'_, '_>,
    must_touch: bool,
    branches: &[usize],
    asked: &mut Asked,
) -> Result<(), AllocError> {
    let index = Index::new(alloc, asking.tables.plan, asking.tables.required, branches)?;
    for first in 0..branches.len() {
        match index.knowers(branches[first]) {
            Some(knowers) => {
                for known in knowers.tagged {
                    ask_branches(alloc, asking, must_touch, branches, (first, known.2), asked)?;
                }
                for known in knowers.others {
                    ask_branches(alloc, asking, must_touch, branches, (first, known.2), asked)?;
                }
            }
            None => {
                for second in 0..branches.len() {
                    ask_branches(alloc, asking, must_touch, branches, (first, second), asked)?;
                }
            }
        }
    }
    Ok(())
}

/// Asks what tells two branches apart, by their indices, if the first is the lower one. Of branches
/// in a row that are alike the first stands for all.
fn ask_branches(
    alloc: Global,
    asking: &Asking<'_, '_>,
    must_touch: bool,
    branches: &[usize],
    ways: (usize, usize),
    asked: &mut Asked,
) -> Result<(), AllocError> {
    let (first, second) = ways;
    if first >= second || second >= branches.len() {
        return Ok(());
    }
    let plan = asking.tables.plan;
    let is_new = !is_as_before(plan, branches, second);
    if is_as_before(plan, branches, first) || !(is_new || second - first == 1) {
        return Ok(());
    }
    asking.branches(alloc, must_touch, branches[first], branches[second], asked)
}

/// Whether a branch is as the one before it.
fn is_as_before(plan: &Plan<'_>, branches: &[usize], index: usize) -> bool {
    if index == 0 || index >= branches.len() {
        return false;
    }
    match (
        plan.lists.get(branches[index - 1]),
        plan.lists.get(branches[index]),
    ) {
        (Some(one), Some(other)) => are_alike(one, other),
        _ => false,
    }
}

/// Asks what tells the variants of all enums apart that are read as values.
fn ask_enums(alloc: Global, asking: &Asking<'_, '_>, asked: &mut Asked) -> Result<(), AllocError> {
    for target in &asking.tables.plan.targets {
        if let PlannedEnd::Untagged(joined, alone) = &target.end {
            ask_enum(alloc, asking, *joined, alone, asked)?;
        }
    }
    Ok(())
}

/// Asks what tells each two of the variants that read a value by themselves apart, and each of them
/// from those that join.
fn ask_enum(
    alloc: Global,
    asking: &Asking<'_, '_>,
    joined: Option<usize>,
    alone: &[PlannedAlternative<'_>],
    asked: &mut Asked,
) -> Result<(), AllocError> {
    let atoms = asking.tables.atoms;
    for (index, second) in alone.iter().enumerate() {
        let others = atoms_of(atoms, second);
        for first in alone.iter().take(index) {
            asking.atoms(alloc, atoms_of(atoms, first), others, asked)?;
        }
        if let Some(list) = joined {
            asking.atoms(alloc, &[Atom::Joined(list)], others, asked)?;
        }
    }
    Ok(())
}

/// The atoms of what a variant asks of the same value.
fn atoms_of<'t>(atoms: &'t [Atoms], alternative: &PlannedAlternative<'_>) -> &'t [Atom] {
    match alternative.kind {
        PlannedKind::Joins | PlannedKind::Null => &[],
        _ => atoms_at(atoms, alternative.content),
    }
}

/// The atoms of the target of a number.
fn atoms_at(atoms: &[Atoms], number: usize) -> &[Atom] {
    match atoms.get(number) {
        Some(atoms) => &atoms.each,
        None => &[],
    }
}

/// Asks what tells the two targets of each pair apart that is asked of.
fn follow(alloc: Global, asking: &Asking<'_, '_>, asked: &mut Asked) -> Result<(), AllocError> {
    let atoms = asking.tables.atoms;
    let count = atoms.len();
    // There are no more pairs than these.
    for index in 0..count.saturating_mul(count) {
        let Some(pair) = asked.get(index) else {
            return Ok(());
        };
        let first = atoms_at(atoms, pair.0);
        let second = atoms_at(atoms, pair.1);
        asking.atoms(alloc, first, second, asked)?;
    }
    Ok(())
}
