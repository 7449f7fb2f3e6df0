//! The indices that two sets share, one after another.
ghost use Rattle.std.specs.Prelude.{◌≡◌, ◌+◌, ◌-◌, ◌∷◌, ◌^◌, ◌<◌, ◌≤◌, [], IfSome, MatchOption, length};
ghost use Rattle.facet_solver_shape.specs.Steps.{NoCountFalls};
ghost use Rattle.facet_solver.specs.set.SharedBits.{common_from};
ghost use Rattle.facet_solver.specs.set.Words.{IsClearFrom};

use crate::set::bits::{next_in_word, next_shared, read_word};
use facet_solver_shape::Steps;
use std::marker::Model;

/// The indices that two sets share and that are still to come, rising. Each word of the sets is
/// read once.
#[derive(Debug, Drop)]
pub(crate) struct CommonIter<'s> {
    words: &'s [u64],
    others: &'s [u64],
    // The first index that may come.
    next: usize,
    // The place that was read last, and what the words there share.
    place: usize,
    word: u64,
}

impl<'s> Model for CommonIter<'s> {
    ghost use Rattle.std.specs.Prelude.{◌≡◌, ◌≤◌, ◌<◌, ◌+◌, ◌*◌, ◌^◌, ◌-◌, length};
    ghost use Rattle.facet_solver.specs.set.SharedBits.{CommonView, common_from, common_word};
    ghost use Rattle.facet_solver.specs.set.Words.{IsClearFrom};

    ghost Value = { CommonView };

    ghost view = { λ a. record {
      items = common_from a.words.now a.others.now a.next;
      unread = length a.words.now - (a.place + 1);
    } };

    ghost invariant = { λ a. IsClearFrom a.words.now (2 ^ 64 - 1)
        × (length a.words.now ≡ length a.others.now) × (length a.words.now ≤ 2 ^ 58)
        × (a.place < length a.words.now)
        × (a.place * 64 ≤ a.next) × (a.next ≤ (a.place + 1) * 64)
        × (common_word a.words.now a.others.now a.place ≡ a.word) };
}

impl<'s> CommonIter<'s> {
    /// All indices that the words share.
    pub(super) fn new(words: &'s [u64], others: &'s [u64], steps: &mut Steps) -> Self
        requires some { 0 < length words.now }
        requires count { length words.now ≡ length others.now }
        requires fits { length words.now ≤ 2 ^ 58 }
        requires clear { IsClearFrom words.now (2 ^ 64 - 1) }
        ensures items { result.items ≡ common_from words.now others.now 0 }
        ensures words { steps.new.words + result.unread ≡ steps.old.words + length words.now }
        ensures searches { steps.new.searches ≡ steps.old.searches }
        ensures no_fall { NoCountFalls steps.old steps.new }
    {
        CommonIter {
            words,
            others,
            next: 0,
            place: 0,
            word: words[0] & read_word(others, 0, steps),
        }
    }

    /// The next of them.
    pub(crate) fn next(&mut self, steps: &mut Steps) -> Option<usize>
        ensures next { MatchOption result (self.old.items ≡ [])
            (λ index. self.old.items ≡ index ∷ self.new.items) }
        ensures words { steps.new.words ≤ steps.old.words + self.old.unread }
        ensures unread { IfSome result (λ index.
            steps.new.words + self.new.unread ≤ steps.old.words + self.old.unread) }
        ensures searches { steps.new.searches ≡ steps.old.searches }
        ensures no_fall { NoCountFalls steps.old steps.new }
    {
        if let Some(index) = next_in_word(self.word, self.place, self.next) {
            self.next = index + 1;
            return Some(index);
        }
        match next_shared(self.words, self.others, self.place + 1, steps) {
            Some((place, word)) => {
                let index = place * 64 + word.trailing_zeros() as usize;
                self.place = place;
                self.word = word;
                self.next = index + 1;
                Some(index)
            }
            None => None,
        }
    }
}
