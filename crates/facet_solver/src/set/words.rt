//! The words of a set. One word takes no memory of its own.
ghost use Rattle.std.specs.Prelude.{◌≡◌, ℕ, ◌+◌, ◌*◌, ◌/◌, ◌%◌, ◌^◌, ◌<◌, ◌≤◌, ◌&&◌, IfOk, IsOk, bit_and, bit_or, length, replicate, slice_index, slice_set};
ghost use Rattle.facet_solver_shape.specs.Steps.{NoCountFalls};
ghost use Rattle.facet_solver.specs.set.SharedBits.{common_word};
ghost use Rattle.facet_solver.specs.set.Words.{IsFull, has_bit, word_count, words_of};

use crate::set::bits::{
    empty_words, full_words, keep_either, keep_words, low_ones, read_word, retain_bits,
};
use crate::set::condition::Condition;
use facet_solver_shape::Steps;
use std::alloc::{AllocError, Global};
use std::slice;

/// Bits, 64 a word: one word for indices below a bound up to 64, else several.
#[derive(Debug, Drop)]
pub(crate) enum Words {
    One(u64),
    Many(Vec<u64>),
}

impl Words {
    /// Those of all indices below a bound.
    pub(crate) fn full(alloc: Global, bound: usize) -> Result<Self, AllocError>
        ensures count { IfOk result (λ words. length (words_of words) ≡ word_count bound) }
        ensures full { IfOk result (λ words. IsFull bound (words_of words)) }
        ensures inline { bound ≤ 64 → IsOk result }
    {
        if bound <= 64 {
            Ok(Words::One(low_ones(bound)))
        } else {
            Ok(Words::Many(full_words(alloc, bound)?))
        }
    }

    /// The words, the lowest first.
    pub(crate) fn as_slice(&self) -> &[u64]
        ensures { result.now ≡ words_of self.now }
    {
        match self {
            Words::One(word) => slice::from_ref(word),
            Words::Many(words) => words.as_slice(),
        }
    }

    /// Clears the bits of indices that do not meet a condition.
    pub(crate) fn retain<C: Condition>(&mut self, condition: &C)
        requires { length (words_of self.old) ≤ 2 ^ 58 }
        ensures count { length (words_of self.new) ≡ length (words_of self.old) }
        ensures kept { (i : ℕ) → has_bit (words_of self.new) i
            ≡ (has_bit (words_of self.old) i && C.holds condition.now i) }
    {
        match self {
            Words::One(word) => retain_bits(slice::from_mut(word), condition),
            Words::Many(words) => retain_bits(words.as_mut_slice(), condition),
        }
    }

    /// Those of no index below a bound.
    pub(crate) fn empty(alloc: Global, bound: usize) -> Result<Self, AllocError>
        ensures empty { IfOk result (λ words. words_of words ≡ replicate (word_count bound) 0) }
        ensures inline { bound ≤ 64 → IsOk result }
    {
        if bound <= 64 {
            Ok(Words::One(0))
        } else {
            Ok(Words::Many(empty_words(alloc, bound)?))
        }
    }

    /// Sets the bit of an index.
    pub(crate) fn insert(&mut self, index: usize)
        requires { index / 64 < length (words_of self.old) }
        ensures { let word = slice_index (words_of self.old) (index / 64) in
            words_of self.new ≡ slice_set (words_of self.old) (index / 64)
            (bit_or word (1 * 2 ^ (index % 64) % 2 ^ 64)) }
    {
        match self {
            Words::One(word) => *word |= 1u64 << (index % 64),
            Words::Many(words) => words[index / 64] |= 1u64 << (index % 64),
        }
    }

    /// The same words once more.
    pub(crate) fn copied(&self) -> Result<Self, AllocError>
        ensures { IfOk result (λ words. words_of words ≡ words_of self.now) }
    {
        match self {
            Words::One(word) => Ok(Words::One(*word)),
            Words::Many(words) => Ok(Words::Many(words.clone()?)),
        }
    }

    /// Clears the bits that two other slices of words lack both.
    pub(crate) fn keep_either(&mut self, one: &[u64], other: &[u64])
        requires one { length (words_of self.old) ≡ length one.now }
        requires other { length (words_of self.old) ≡ length other.now }
        ensures len { length (words_of self.new) ≡ length (words_of self.old) }
        ensures kept { (k : ℕ) → slice_index (words_of self.new) k
            ≡ bit_and (slice_index (words_of self.old) k)
            (bit_or (slice_index one.now k) (slice_index other.now k)) }
    {
        match self {
            Words::One(word) => *word &= one[0] | other[0],
            Words::Many(words) => keep_either(words.as_mut_slice(), one, other),
        }
    }

    /// Clears the bits that other words lack.
    pub(crate) fn keep(&mut self, others: &[u64], steps: &mut Steps)
        requires { length (words_of self.old) ≡ length others.now }
        ensures words { steps.new.words ≡ steps.old.words + length (words_of self.old) }
        ensures searches { steps.new.searches ≡ steps.old.searches }
        ensures no_fall { NoCountFalls steps.old steps.new }
        ensures len { length (words_of self.new) ≡ length (words_of self.old) }
        ensures kept { (k : ℕ) → slice_index (words_of self.new) k
            ≡ common_word (words_of self.old) others.now k }
    {
        match self {
            Words::One(word) => *word &= read_word(others, 0, steps),
            Words::Many(words) => keep_words(words.as_mut_slice(), others, steps),
        }
    }
}
