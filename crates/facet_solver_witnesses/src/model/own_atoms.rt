//! What each target of a plan reads, as atoms.
use super::Model;
use super::atoms::{Atoms, ListAtom, ObjectAtom};
use super::wide::Interval;
use crate::growing::push;
use facet_solver_reader::{PlannedAlternative, PlannedEnd, PlannedKind, PlannedName};
use std::alloc::{AllocError, Global};

impl<'r, 'c> Model<'r, 'c> {
    /// What a target of the plan reads, by the atoms of those before it.
    pub(super) fn atoms_of(&self, alloc: Global, target: usize) -> Result<Atoms<'c>, AllocError> {
        let mut atoms = Atoms::none(alloc);
        let Some(planned) = self.plan.targets.get(target) else {
            return Ok(atoms);
        };
        match &planned.end {
            PlannedEnd::Option(inside) => {
                atoms.null = true;
                atoms.add(self.atoms(*inside))?;
            }
            PlannedEnd::Same(other) => atoms.add(self.atoms(*other))?,
            PlannedEnd::Untagged(joined, alternatives) => {
                self.push_object(*joined, None, &mut atoms)?;
                for alternative in alternatives {
                    self.push_alternative(alloc, alternatives, alternative, &mut atoms)?;
                }
            }
            PlannedEnd::Object(list) => self.push_object(*list, None, &mut atoms)?,
            end => self.push_own(target, end, &mut atoms)?,
        }
        Ok(atoms)
    }

    /// Adds what a target reads that asks nothing of the same value, by no list of the plan.
    fn push_own(
        &self,
        target: usize,
        end: &PlannedEnd<'c>,
        atoms: &mut Atoms<'c>,
    ) -> Result<(), AllocError> {
        match end {
            PlannedEnd::List(item) => atoms.lists.push(ListAtom::Each(*item))?,
            PlannedEnd::Tuple(_) => atoms.lists.push(ListAtom::Tuple(target))?,
            PlannedEnd::Nothing => {
                atoms.null = true;
                self.push_made(target, None, atoms)?;
            }
            PlannedEnd::Map(..) => self.push_made(target, None, atoms)?,
            PlannedEnd::Named(variants) => {
                for variant in variants {
                    if variant.is_unit {
                        atoms.words.push(variant.text)?;
                    }
                }
                atoms.words.sort_unstable();
                self.push_made(target, None, atoms)?;
            }
            end => push_simple(end, atoms)?,
        }
        Ok(())
    }

    /// Adds the objects of a list that was made for a target: they ignore nothing.
    fn push_made(
        &self,
        target: usize,
        only: Option<usize>,
        atoms: &mut Atoms<'c>,
    ) -> Result<(), AllocError> {
        if let Some(Some(list)) = self.made.get(target) {
            atoms.objects.push(ObjectAtom {
                list: *list,
                only,
                ignores: false,
            })?;
        }
        Ok(())
    }

    /// Adds the objects of a list of the type.
    fn push_object(
        &self,
        list: Option<usize>,
        only: Option<usize>,
        atoms: &mut Atoms<'c>,
    ) -> Result<(), AllocError> {
        if let Some(list) = list {
            atoms.objects.push(ObjectAtom {
                list,
                only,
                ignores: !self.plan.strict,
            })?;
        }
        Ok(())
    }

    /// Adds what an alternative reads by itself.
    fn push_alternative(
        &self,
        alloc: Global,
        others: &[PlannedAlternative<'c>],
        alternative: &PlannedAlternative<'c>,
        atoms: &mut Atoms<'c>,
    ) -> Result<(), AllocError> {
        match alternative.kind {
            PlannedKind::Joins => Ok(()),
            PlannedKind::Null => {
                atoms.null = true;
                Ok(())
            }
            kind => {
                let content = self.atoms(alternative.content);
                atoms.add_alternative(alloc, others, kind, content)
            }
        }
    }

    /// The atoms of the alternatives of a target of the plan.
    pub(super) fn atoms_of_alternatives(
        &self,
        alloc: Global,
        target: usize,
    ) -> Result<Vec<Option<Atoms<'c>>>, AllocError> {
        let mut found = Vec::new(alloc);
        match self.end(target) {
            Some(PlannedEnd::Untagged(joined, alternatives)) => {
                for alternative in alternatives {
                    let atoms = self.atoms_of_one(alloc, *joined, alternatives, alternative)?;
                    push(&mut found, atoms)?;
                }
            }
            Some(PlannedEnd::Named(variants)) => {
                for (index, variant) in variants.iter().enumerate() {
                    let atoms = self.atoms_of_name(alloc, target, index, variant)?;
                    push(&mut found, Some(atoms))?;
                }
            }
            _ => {}
        }
        Ok(found)
    }

    /// The atoms of a variant that a document names, by its index.
    fn atoms_of_name(
        &self,
        alloc: Global,
        target: usize,
        index: usize,
        variant: &PlannedName<'c>,
    ) -> Result<Atoms<'c>, AllocError> {
        let mut atoms = Atoms::none(alloc);
        if variant.is_unit {
            atoms.words.push(variant.text)?;
        }
        self.push_made(target, Some(index), &mut atoms)?;
        Ok(atoms)
    }

    /// The atoms of one of several alternatives.
    fn atoms_of_one(
        &self,
        alloc: Global,
        joined: Option<usize>,
        alternatives: &[PlannedAlternative<'c>],
        alternative: &PlannedAlternative<'c>,
    ) -> Result<Option<Atoms<'c>>, AllocError> {
        let mut atoms = Atoms::none(alloc);
        if alternative.kind == PlannedKind::Joins {
            let Some(only) = self.joined_branch(joined, alternative) else {
                return Ok(None);
            };
            self.push_object(joined, Some(only), &mut atoms)?;
        } else {
            self.push_alternative(alloc, alternatives, alternative, &mut atoms)?;
        }
        Ok(Some(atoms))
    }

    /// The branch that an alternative which joins is.
    fn joined_branch(
        &self,
        joined: Option<usize>,
        alternative: &PlannedAlternative<'c>,
    ) -> Option<usize> {
        let selection = self.selection(joined?, 0)?;
        selection
            .branches
            .iter()
            .position(|branch| self.list(*branch).name == alternative.name)
    }
}

/// Adds what reads values without others within.
fn push_simple<'c>(end: &PlannedEnd<'c>, atoms: &mut Atoms<'c>) -> Result<(), AllocError> {
    match end {
        PlannedEnd::Null => atoms.null = true,
        PlannedEnd::Truth => atoms.truth = true,
        PlannedEnd::Whole(range) => atoms.wholes.push(Interval::of(*range))?,
        PlannedEnd::Float => {
            atoms.fraction = true;
            atoms.wholes.push(Interval::all())?;
        }
        PlannedEnd::Text => atoms.text = true,
        PlannedEnd::Character => atoms.character = true,
        PlannedEnd::Tag(word) => atoms.words.push(*word)?,
        PlannedEnd::Anything => atoms.anything = true,
        _ => {}
    }
    Ok(())
}
