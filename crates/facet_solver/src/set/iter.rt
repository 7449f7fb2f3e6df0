//! The members of a set, one after another.
ghost use Rattle.std.specs.Iterator.{YieldsFirst, item_count};

use crate::set::bits::next_bit;
use std::marker::Model;

/// The indices of a set that are still to come, rising.
#[derive(Debug, Drop)]
pub struct ResolutionSetIter<'s> {
    pub(super) words: &'s [u64],
    pub(super) next: usize,
}

impl<'s> Model for ResolutionSetIter<'s> {
    ghost use Rattle.std.specs.Prelude.{List, ℕ, ◌-◌, ◌^◌};
    ghost use Rattle.facet_solver.specs.set.Words.{IsClearFrom, members_from};

    ghost Value = { List ℕ };

    ghost view = { λ a. members_from a.words.now a.next };

    ghost invariant = { λ a. IsClearFrom a.words.now (2 ^ 64 - 1) };
}

impl<'s> Iterator for ResolutionSetIter<'s> {
    type Item = usize;

    ghost next_gives = { YieldsFirst (λ s. s) };

    ghost remaining = { item_count (λ s. s) };

    fn next(&mut self) -> Option<usize> {
        match next_bit(self.words, self.next) {
            Some(index) => {
                self.next = index + 1;
                Some(index)
            }
            None => None,
        }
    }
}
