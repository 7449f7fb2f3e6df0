//! The variants of a site.
use crate::ambiguity::Cause;
use crate::model::Model;
use crate::questions::{Answer, Question, Questions};
use crate::sites::apart::{compete, may_meet, may_share};
use crate::sites::listed::Pair;
use crate::sites::required::Required;
use crate::sites::{Site, branch_question, value_question};
use facet_solver_reader::{PlannedAlternative, PlannedEnd, PlannedKind, TypeName};
use std::alloc::{AllocError, Global};

/// The variants of a site, by indices: branches, or the variants of an enum, also those that join.
#[derive(Drop)]
pub(crate) struct Variants<'r, 'c> {
    pub(crate) site: Site,
    pub(crate) names: Vec<TypeName<'c>>,
    /// The numbers of the lists of branches.
    branches: &'r [usize],
    /// The targets of the variants of an enum.
    targets: &'r [Option<usize>],
    /// The variants of an untagged enum.
    alternatives: Option<&'r Vec<PlannedAlternative<'c>>>,
}

impl<'r, 'c> Variants<'r, 'c> {
    /// Those of a site.
    pub(crate) fn new(
        alloc: Global,
        model: &'r Model<'_, 'c>,
        site: Site,
    ) -> Result<Variants<'r, 'c>, AllocError> {
        Ok(Variants {
            site,
            names: names_of(alloc, model, site)?,
            branches: branches_of(model, site),
            targets: targets_of(model, site),
            alternatives: alternatives_of(model, site),
        })
    }

    /// The pairs of variants that two ways are: the variants that join are one way.
    pub(crate) fn pairs_of(&self, alloc: Global, ways: Pair) -> Result<Vec<Pair>, AllocError> {
        let mut pairs = Vec::new(alloc);
        let Some(alternatives) = self.alternatives else {
            pairs.push(ways)?;
            return Ok(pairs);
        };
        if ways.second < alternatives.len() {
            pairs.push(ways)?;
            return Ok(pairs);
        }
        for (index, variant) in alternatives.iter().enumerate() {
            if variant.kind == PlannedKind::Joins {
                let first = ways.first.min(index);
                let second = ways.first.max(index);
                pairs.push(Pair { first, second })?;
            }
        }
        Ok(pairs)
    }

    /// The ways that some variants are, rising: those that join are one, behind all others.
    pub(crate) fn ways_of(&self, alloc: Global, group: &[usize]) -> Result<Vec<usize>, AllocError> {
        let Some(alternatives) = self.alternatives else {
            return Vec::from_slice(alloc, group);
        };
        let mut ways = Vec::with_capacity(alloc, group.len())?;
        for index in group {
            if !joins(alternatives, *index) {
                ways.push(*index)?;
            }
        }
        if ways.len() < group.len() {
            ways.push(alternatives.len())?;
        }
        Ok(ways)
    }

    /// The names of some variants.
    pub(crate) fn names_of(
        &self,
        alloc: Global,
        group: &[usize],
    ) -> Result<Vec<TypeName<'c>>, AllocError> {
        let mut names = Vec::with_capacity(alloc, group.len())?;
        for index in group {
            if let Some(name) = self.names.get(*index) {
                names.push(*name)?;
            }
        }
        Ok(names)
    }

    /// The question of two variants, if they may share a value.
    pub(crate) fn question(
        &self,
        model: &Model<'_, 'c>,
        required: &Required<'c>,
        pair: Pair,
    ) -> Option<Question> {
        match self.site {
            Site::Selection { needs_name, .. } => {
                let first = *self.branches.get(pair.first)?;
                let second = *self.branches.get(pair.second)?;
                if may_share(model, required, first, second) {
                    Some(branch_question(first, second, needs_name))
                } else {
                    None
                }
            }
            Site::Value { not_null, .. } => {
                let first = self.targets.get(pair.first).copied().flatten()?;
                let second = self.targets.get(pair.second).copied().flatten()?;
                if self.compete(pair) && may_meet(model, required, first, second) {
                    Some(value_question(first, second, not_null))
                } else {
                    None
                }
            }
        }
    }

    /// Whether two variants of an enum may read one value, as values.
    fn compete(&self, pair: Pair) -> bool {
        let Some(alternatives) = self.alternatives else {
            return true;
        };
        match (alternatives.get(pair.first), alternatives.get(pair.second)) {
            (Some(first), Some(second)) => compete(first, second),
            _ => true,
        }
    }

    /// Whether the question of two variants has them the other way round.
    pub(crate) fn is_swapped(&self, pair: Pair) -> bool {
        match self.site {
            Site::Selection { .. } => {
                self.branches.get(pair.second) < self.branches.get(pair.first)
            }
            Site::Value { .. } => false,
        }
    }

    /// Why there may be a document of two variants where none is shown.
    pub(crate) fn cause_of(&self, questions: &Questions<'c>, pair: Pair, number: usize) -> Cause {
        if questions.answer(number) == Answer::Maybe {
            return Cause::Steps;
        }
        let Some(alternatives) = self.alternatives else {
            return Cause::Unconfirmed;
        };
        match alternatives.get(pair.first) {
            Some(variant) if variant.kind == PlannedKind::Fallback => Cause::Fallbacks,
            _ => Cause::Unconfirmed,
        }
    }
}

/// Whether the variant of an index joins in with others.
fn joins(alternatives: &[PlannedAlternative<'_>], index: usize) -> bool {
    match alternatives.get(index) {
        Some(variant) => variant.kind == PlannedKind::Joins,
        None => false,
    }
}

/// The numbers of the branches of a site.
fn branches_of<'r>(model: &'r Model<'_, '_>, site: Site) -> &'r [usize] {
    match site {
        Site::Selection { list, part, .. } => match model.selection(list, part) {
            Some(selection) => &selection.branches,
            None => &[],
        },
        Site::Value { .. } => &[],
    }
}

/// The targets of the variants of a site.
fn targets_of<'r>(model: &'r Model<'_, '_>, site: Site) -> &'r [Option<usize>] {
    match site {
        Site::Selection { .. } => &[],
        Site::Value { target, .. } => model.variants_of(target),
    }
}

/// The variants of a site that is an untagged enum.
fn alternatives_of<'r, 'c>(
    model: &'r Model<'_, 'c>,
    site: Site,
) -> Option<&'r Vec<PlannedAlternative<'c>>> {
    let Site::Value { target, .. } = site else {
        return None;
    };
    match model.end(target)? {
        PlannedEnd::Untagged(_, alternatives) => Some(alternatives),
        _ => None,
    }
}

/// The names of the variants of a site.
fn names_of<'c>(
    alloc: Global,
    model: &Model<'_, 'c>,
    site: Site,
) -> Result<Vec<TypeName<'c>>, AllocError> {
    match site {
        Site::Selection { .. } => names_of_branches(alloc, model, branches_of(model, site)),
        Site::Value { target, .. } => match model.end(target) {
            Some(end) => names_of_end(alloc, end),
            None => Ok(Vec::new(alloc)),
        },
    }
}

/// The names of branches.
fn names_of_branches<'c>(
    alloc: Global,
    model: &Model<'_, 'c>,
    branches: &[usize],
) -> Result<Vec<TypeName<'c>>, AllocError> {
    let mut names = Vec::with_capacity(alloc, branches.len())?;
    for branch in branches {
        names.push(model.list(*branch).name)?;
    }
    Ok(names)
}

/// The names of the variants of an enum.
fn names_of_end<'c>(alloc: Global, end: &PlannedEnd<'c>) -> Result<Vec<TypeName<'c>>, AllocError> {
    let mut names = Vec::new(alloc);
    match end {
        PlannedEnd::Untagged(_, alternatives) => {
            for variant in alternatives {
                names.push(variant.name)?;
            }
        }
        PlannedEnd::Named(variants) => {
            for variant in variants {
                names.push(variant.name)?;
            }
        }
        _ => {}
    }
    Ok(names)
}
