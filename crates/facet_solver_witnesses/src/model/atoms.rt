//! What a target reads, as atoms.
use crate::model::wide::{Interval, without};
use facet_solver_reader::{PlannedAlternative, PlannedKind};
use std::alloc::{AllocError, Global};

/// The lists that a target reads.
#[derive(Clone, Copy, PartialEq, Eq)]
pub(crate) enum ListAtom {
    /// Of any length, by the target of the items.
    Each(usize),
    /// Of as many values as the tuple of this target has.
    Tuple(usize),
}

/// The objects that a target reads by a list of parts.
#[derive(Clone, Copy, PartialEq, Eq)]
pub(crate) struct ObjectAtom {
    /// The list.
    pub(crate) list: usize,
    /// The only branch of its only selection that counts, if one is.
    pub(crate) only: Option<usize>,
    /// Whether members that nothing takes are ignored.
    pub(crate) ignores: bool,
}

/// What a target reads.
#[derive(Drop)]
pub(crate) struct Atoms<'c> {
    pub(crate) null: bool,
    pub(crate) truth: bool,
    /// Numbers that are not whole.
    pub(crate) fraction: bool,
    pub(crate) wholes: Vec<Interval>,
    /// All texts.
    pub(crate) text: bool,
    /// Texts of one character.
    pub(crate) character: bool,
    /// These texts, rising.
    pub(crate) words: Vec<&'c str>,
    pub(crate) lists: Vec<ListAtom>,
    pub(crate) objects: Vec<ObjectAtom>,
    /// Any value.
    pub(crate) anything: bool,
}

impl<'c> Atoms<'c> {
    /// No value.
    pub(crate) fn none(alloc: Global) -> Atoms<'c> {
        Atoms {
            null: false,
            truth: false,
            fraction: false,
            wholes: Vec::new(alloc),
            text: false,
            character: false,
            words: Vec::new(alloc),
            lists: Vec::new(alloc),
            objects: Vec::new(alloc),
            anything: false,
        }
    }

    /// Whether they have a value without others within.
    pub(crate) fn is_simple(&self) -> bool {
        self.null
            || self.truth
            || self.fraction
            || !self.wholes.is_empty()
            || self.text
            || self.character
            || !self.words.is_empty()
            || self.anything
    }

    /// Whether they have no value but objects.
    pub(crate) fn has_only_objects(&self) -> bool {
        !self.is_simple() && self.lists.is_empty()
    }

    /// Adds what other atoms read.
    pub(crate) fn add(&mut self, other: &Atoms<'c>) -> Result<(), AllocError> {
        self.null = self.null || other.null;
        self.truth = self.truth || other.truth;
        self.fraction = self.fraction || other.fraction;
        self.wholes.extend_from_slice(&other.wholes)?;
        self.text = self.text || other.text;
        self.character = self.character || other.character;
        self.add_words(&other.words)?;
        for list in &other.lists {
            if !self.lists.contains(list) {
                self.lists.push(*list)?;
            }
        }
        for object in &other.objects {
            if !self.objects.contains(object) {
                self.objects.push(*object)?;
            }
        }
        self.anything = self.anything || other.anything;
        Ok(())
    }

    /// Adds words.
    pub(crate) fn add_words(&mut self, words: &[&'c str]) -> Result<(), AllocError> {
        if !words.is_empty() {
            self.words.extend_from_slice(words)?;
            self.words.sort_unstable();
            self.words.dedup();
        }
        Ok(())
    }

    /// Adds what an alternative reads, by what its content reads: one of floats reads no whole
    /// number that another reads by its range.
    pub(crate) fn add_alternative(
        &mut self,
        alloc: Global,
        others: &[PlannedAlternative<'c>],
        kind: PlannedKind,
        content: &Atoms<'c>,
    ) -> Result<(), AllocError> {
        match kind {
            PlannedKind::Joins => Ok(()),
            PlannedKind::Null => {
                self.null = true;
                Ok(())
            }
            PlannedKind::Float => {
                self.fraction = self.fraction || content.fraction;
                let left = wholes_left(alloc, others, &content.wholes)?;
                self.wholes.extend_from_slice(&left)
            }
            PlannedKind::Whole(_) | PlannedKind::Fallback | PlannedKind::Other => {
                self.add(content)
            }
        }
    }
}

/// The whole numbers that no alternative reads by its range.
fn wholes_left(
    alloc: Global,
    others: &[PlannedAlternative<'_>],
    wholes: &[Interval],
) -> Result<Vec<Interval>, AllocError> {
    let mut left = Vec::from_slice(alloc, wholes)?;
    for other in others {
        if let PlannedKind::Whole(range) = other.kind {
            left = without(alloc, &left, Interval::of(range))?;
        }
    }
    Ok(left)
}
