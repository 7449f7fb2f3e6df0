//! Sets of resolutions, by their indices.
ghost use Rattle.std.specs.Prelude.{◌≡◌, ◌↔◌, ◌+◌, ◌<◌, ◌≤◌, ◌||◌, [], All, IfOk, IsOk, IsTrue, filter, length, nat_eq, slice_get};
ghost use Rattle.std.specs.List.{list_any};
ghost use Rattle.std.specs.List.Sorted.{IsStrictlyIncreasing};
ghost use Rattle.facet_solver_shape.specs.Steps.{NoCountFalls};
ghost use Rattle.facet_solver.specs.set.IndexSet.{IsWithin, how_many, matches_view, full, has_index, upto};
ghost use Rattle.facet_solver.specs.set.Words.{word_count};

mod bits;
mod common;
pub(crate) mod condition;
mod iter;
mod words;

use bits::{count_bits, is_clear, is_set};
pub(crate) use common::CommonIter;
pub(crate) use condition::{Condition, Never, Only};
use facet_solver_shape::Steps;
pub use iter::ResolutionSetIter;
use std::alloc::{AllocError, Global};
use std::marker::Model;
use words::Words;

/// How many members meet a condition, as far as it matters.
#[derive(Clone, Copy)]
pub(crate) enum Matches {
    None,
    One(usize),
    Several,
}

/// Some resolutions of a schema, by their indices in `Schema::resolutions`.
#[derive(Debug, Drop)]
pub struct ResolutionSet {
    bound: usize,
    words: Words,
}

impl Model for ResolutionSet {
    ghost use Rattle.facet_solver.specs.set.IndexSet.{IndexSet};
    ghost use Rattle.facet_solver.specs.set.Words.{HoldBelow, members_of, words_of};

    ghost Value = { IndexSet };

    ghost view = { λ a. record { bound = a.bound; members = members_of (words_of a.words) } };

    ghost invariant = { λ a. HoldBelow a.bound (words_of a.words) };
}

impl ResolutionSet {
    /// All indices below a bound.
    pub(crate) fn full(alloc: Global, bound: usize) -> Result<Self, AllocError>
        ensures full { IfOk result (λ s. s ≡ full bound) }
        ensures inline { bound ≤ 64 → IsOk result }
    {
        let words = Words::full(alloc, bound)?;
        Ok(ResolutionSet { bound, words })
    }

    /// No index below a bound.
    pub(crate) fn empty(alloc: Global, bound: usize) -> Result<Self, AllocError>
        ensures empty { IfOk result (λ s. s ≡ record { bound = bound; members = [] }) }
        ensures inline { bound ≤ 64 → IsOk result }
    {
        let words = Words::empty(alloc, bound)?;
        Ok(ResolutionSet { bound, words })
    }

    /// The same members once more.
    pub(crate) fn copied(&self) -> Result<Self, AllocError>
        ensures { IfOk result (λ s. s ≡ self.now) }
    {
        let words = self.words.copied()?;
        Ok(ResolutionSet {
            bound: self.bound,
            words,
        })
    }

    /// No member, below the same bound.
    pub(crate) fn emptied(&self, alloc: Global) -> Result<Self, AllocError>
        ensures { IfOk result (λ s. s ≡ record self.now { members = [] }) }
    {
        ResolutionSet::empty(alloc, self.bound)
    }

    /// Whether a member is one of another set.
    pub(crate) fn shares(&self, other: &ResolutionSet) -> bool
        requires { self.now.bound ≡ other.now.bound }
        ensures shared { result ≡ list_any (has_index other.now.members) self.now.members }
        ensures within { All (λ i. i < self.now.bound) self.now.members }
    {
        let mut steps = Steps::new();
        let mut common = self.common(other, &mut steps);
        common.next(&mut steps).is_some()
    }

    /// Drops the members that two other sets lack both.
    pub(crate) fn keep_either(&mut self, one: &ResolutionSet, other: &ResolutionSet)
        requires one { self.old.bound ≡ one.now.bound }
        requires other { self.old.bound ≡ other.now.bound }
        ensures { self.new ≡ record self.old {
          members = filter (λ i. has_index one.now.members i || has_index other.now.members i)
              self.old.members;
        } }
    {
        self.words
            .keep_either(one.words.as_slice(), other.words.as_slice());
    }

    /// One more member.
    pub(crate) fn insert(&mut self, index: usize)
        requires { index < self.old.bound }
        ensures { self.new ≡ record self.old {
          members =
              filter (λ i. nat_eq i index || has_index self.old.members i) (upto self.old.bound);
        } }
    {
        self.words.insert(index);
    }

    /// Drops the members that another set lacks.
    pub(crate) fn keep_common(&mut self, other: &ResolutionSet, steps: &mut Steps)
        requires { self.old.bound ≡ other.now.bound }
        ensures kept { self.new
            ≡ record self.old { members = filter (has_index other.now.members) self.old.members } }
        ensures words { steps.new.words ≤ steps.old.words + word_count self.old.bound }
        ensures searches { steps.new.searches ≡ steps.old.searches }
        ensures no_fall { NoCountFalls steps.old steps.new }
    {
        self.words.keep(other.words.as_slice(), steps);
    }

    /// The members that another set has too, rising.
    pub(crate) fn common<'s>(
        &'s self,
        other: &'s ResolutionSet,
        steps: &mut Steps,
    ) -> CommonIter<'s>
        requires { self.now.bound ≡ other.now.bound }
        ensures members { result.items ≡ filter (has_index other.now.members) self.now.members }
        ensures words { steps.new.words + result.unread
            ≤ steps.old.words + word_count self.now.bound }
        ensures searches { steps.new.searches ≡ steps.old.searches }
        ensures no_fall { NoCountFalls steps.old steps.new }
        ensures within { All (λ i. i < self.now.bound) self.now.members }
    {
        CommonIter::new(self.words.as_slice(), other.words.as_slice(), steps)
    }

    /// Drops the members that do not meet a condition.
    pub(crate) fn retain<C: Condition>(&mut self, condition: &C)
        ensures { self.new
            ≡ record self.old { members = filter (C.holds condition.now) self.old.members } }
    {
        self.words.retain(condition);
    }

    /// How many members meet a condition.
    pub(crate) fn matching<C: Condition>(&self, condition: &C) -> Matches
        ensures number { matches_view result
            ≡ how_many (filter (C.holds condition.now) self.now.members) }
        ensures within { IsWithin self.now.bound result }
    {
        let mut found = Matches::None;
        for index in self.iter() {
            if condition.holds(index) {
                match found {
                    Matches::None => found = Matches::One(index),
                    _ => return Matches::Several,
                }
            }
        }
        found
    }

    /// The bound of the indices.
    pub(crate) fn bound(&self) -> usize
        ensures { result ≡ self.now.bound }
    {
        self.bound
    }

    /// The number of resolutions in the set.
    pub fn len(&self) -> usize
        ensures { result ≡ length self.now.members }
    {
        count_bits(self.words.as_slice())
    }

    /// Whether the set is empty.
    pub fn is_empty(&self) -> bool
        ensures { IsTrue result ↔ (self.now.members ≡ []) }
    {
        is_clear(self.words.as_slice())
    }

    /// Whether the set has an index. It has none that is past the last resolution.
    pub fn contains(&self, index: usize) -> bool
        ensures { result ≡ has_index self.now.members index }
    {
        is_set(self.words.as_slice(), index)
    }

    /// The least index; `None` where the set is empty.
    pub fn first(&self) -> Option<usize>
        ensures { result ≡ slice_get self.now.members 0 }
    {
        self.iter().next()
    }

    /// All indices, rising, each once.
    pub fn iter(&self) -> ResolutionSetIter<'_>
        ensures members { result ≡ self.now.members }
        ensures rising { IsStrictlyIncreasing self.now.members }
        ensures within { All (λ i. i < self.now.bound) self.now.members }
    {
        ResolutionSetIter {
            words: self.words.as_slice(),
            next: 0,
        }
    }
}
