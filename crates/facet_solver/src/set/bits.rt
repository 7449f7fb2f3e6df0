//! Indices as bits of words, 64 a word.
ghost use Rattle.std.specs.Prelude.{◌≡◌, ℕ, ◌∷◌, [], ◌+◌, ◌-◌, ◌*◌, ◌^◌, ◌<◌, ◌≤◌, ◌↔◌, ◌&&◌, IfOk, IfSome, IsTrue, MatchOption, bit_and, bit_or, length, nat_eq, replicate, slice_index, vec_len};
ghost use Rattle.std.specs.Int.{bit_at};
ghost use Rattle.facet_solver_shape.specs.Steps.{NoCountFalls};
ghost use Rattle.facet_solver.specs.set.IndexSet.{has_index};
ghost use Rattle.facet_solver.specs.set.SharedBits.{IsNext, IsNextShared, NoneBetween, common_word};
ghost use Rattle.facet_solver.specs.set.Words.{IsClearFrom, IsFull, KeepsBits, bit_of, has_bit, members_from, members_of, word_count};

use crate::set::condition::Condition;
use facet_solver_shape::Steps;
use std::alloc::{AllocError, Global};

/// A word whose lowest bits are set.
pub(crate) fn low_ones(count: usize) -> u64
    requires { count ≤ 64 }
    ensures { result ≡ 2 ^ count - 1 }
{
    if count == 64 {
        u64::MAX
    } else {
        (1u64 << count) - 1
    }
}

/// The words of all indices below a bound.
pub(crate) fn full_words(alloc: Global, bound: usize) -> Result<Vec<u64>, AllocError>
    requires { 0 < bound }
    ensures count { IfOk result (λ words. vec_len words ≡ word_count bound) }
    ensures full { IfOk result (λ words. IsFull bound words.items) }
{
    let count = (bound - 1) / 64 + 1;
    let mut words = Vec::with_capacity(alloc, count)?;
    for k in 0..count {
        let left = bound - k * 64;
        let word = low_ones(if left < 64 { left } else { 64 });
        words.push(word)?;
    }
    Ok(words)
}

/// Whether a bit of a word is set.
fn is_bit_set(word: u64, bit: usize) -> bool
    requires { bit < 64 }
    ensures { result ≡ nat_eq (bit_at word bit) 1 }
{
    (word >> bit) & 1 == 1
}

/// Whether the bit of an index is set.
pub(crate) fn is_set(words: &[u64], index: usize) -> bool
    ensures { result ≡ has_index (members_of words.now) index }
{
    let word = index / 64;
    word < words.len() && is_bit_set(words[word], index % 64)
}

/// Whether no bit is set.
pub(crate) fn is_clear(words: &[u64]) -> bool
    ensures { IsTrue result ↔ (members_of words.now ≡ []) }
{
    for word in words {
        if *word != 0 {
            return false;
        }
    }
    true
}

/// How many bits are set.
pub(crate) fn count_bits(words: &[u64]) -> usize
    requires { IsClearFrom words.now (2 ^ 64 - 1) }
    ensures { result ≡ length (members_of words.now) }
{
    let mut total = 0;
    for word in words {
        total += word.count_ones() as usize;
    }
    total
}

/// The least index from one on whose bit is set.
pub(crate) fn next_bit(words: &[u64], from: usize) -> Option<usize>
    requires { IsClearFrom words.now (2 ^ 64 - 1) }
    ensures next { MatchOption result (members_from words.now from ≡ [])
        (λ i. members_from words.now from ≡ i ∷ members_from words.now (i + 1)) }
    ensures fits { IfSome result (λ i. i < 2 ^ 64 - 1) }
{
    let word = from / 64;
    if word >= words.len() {
        return None;
    }
    let rest = words[word] >> (from % 64);
    if rest != 0 {
        return Some(from + rest.trailing_zeros() as usize);
    }
    for k in word + 1..words.len() {
        let bits = words[k];
        if bits != 0 {
            return Some(k * 64 + bits.trailing_zeros() as usize);
        }
    }
    None
}

/// The bits of a word, which stand for the indices from one on, that meet a condition. It is asked
/// of set bits alone.
pub(crate) fn kept_bits<C: Condition>(word: u64, first: usize, condition: &C) -> u64
    requires { first + 63 < 2 ^ 64 }
    ensures { KeepsBits (λ bit. C.holds condition.now (first + bit)) word result }
{
    if word == 0 {
        return 0;
    }
    let mut kept = word;
    for bit in 0..64 {
        if is_bit_set(word, bit) && !condition.holds(first + bit) {
            kept &= !(1u64 << bit);
        }
    }
    kept
}

/// Clears the bits of indices that do not meet a condition.
pub(crate) fn retain_bits<C: Condition>(words: &mut [u64], condition: &C)
    requires { length words.old ≤ 2 ^ 58 }
    ensures count { length words.new ≡ length words.old }
    ensures kept { (i : ℕ) → has_bit words.new i
        ≡ (has_bit words.old i && C.holds condition.now i) }
{
    for k in 0..words.len() {
        words[k] = kept_bits(words[k], k * 64, condition);
    }
}

/// The least index from one on whose bit is set in the word of a place, where the index lies in it
/// or ends it.
pub(crate) fn next_in_word(word: u64, place: usize, from: usize) -> Option<usize>
    requires fits { (place + 1) * 64 ≤ 2 ^ 64 }
    requires above { place * 64 ≤ from }
    ensures next { MatchOption result
        ((f : ℕ → ℕ) → f place ≡ word → NoneBetween (bit_of f) from ((place + 1) * 64))
        (λ k. (f : ℕ → ℕ) → f place ≡ word → IsNext (bit_of f) from k) }
    ensures within { IfSome result (λ k. k < (place + 1) * 64) }
{
    if from / 64 != place {
        return None;
    }
    let rest = word >> (from % 64);
    if rest == 0 {
        return None;
    }
    Some(from + rest.trailing_zeros() as usize)
}

/// Reads the word at a place, which counts as a step.
pub(crate) fn read_word(words: &[u64], place: usize, steps: &mut Steps) -> u64
    requires { place < length words.now }
    ensures word { result ≡ slice_index words.now place }
    ensures steps { steps.new ≡ record steps.old { words = steps.old.words + 1 } }
{
    steps.word();
    words[place]
}

/// The first place from one on whose words share a bit, and what they share. It reads the other
/// words up to there.
pub(crate) fn next_shared(
    words: &[u64],
    others: &[u64],
    from: usize,
    steps: &mut Steps,
) -> Option<(usize, u64)>
    requires count { length words.now ≡ length others.now }
    requires from { from ≤ length words.now }
    ensures words { steps.new.words ≤ steps.old.words + (length words.now - from) }
    ensures unread { IfSome result (λ found. steps.new.words + (length words.now - (found.0 + 1))
        ≤ steps.old.words + (length words.now - from)) }
    ensures searches { steps.new.searches ≡ steps.old.searches }
    ensures no_fall { NoCountFalls steps.old steps.new }
    ensures shared { MatchOption result
        ((k : ℕ) → from ≤ k → common_word words.now others.now k ≡ 0)
        (IsNextShared (common_word words.now others.now) from (length words.now)) }
{
    for place in from..words.len() {
        let word = words[place] & read_word(others, place, steps);
        if word != 0 {
            return Some((place, word));
        }
    }
    None
}

/// Clears the bits that other words lack.
pub(crate) fn keep_words(words: &mut [u64], others: &[u64], steps: &mut Steps)
    requires { length words.old ≡ length others.now }
    ensures words { steps.new.words ≡ steps.old.words + length words.old }
    ensures searches { steps.new.searches ≡ steps.old.searches }
    ensures no_fall { NoCountFalls steps.old steps.new }
    ensures len { length words.new ≡ length words.old }
    ensures kept { (k : ℕ) → slice_index words.new k ≡ common_word words.old others.now k }
{
    for k in 0..words.len() {
        words[k] &= read_word(others, k, steps);
    }
}

/// Clears the bits that two other slices of words lack both.
pub(crate) fn keep_either(words: &mut [u64], one: &[u64], other: &[u64])
    requires one { length words.old ≡ length one.now }
    requires other { length words.old ≡ length other.now }
    ensures len { length words.new ≡ length words.old }
    ensures kept { (k : ℕ) → slice_index words.new k
        ≡ bit_and (slice_index words.old k)
        (bit_or (slice_index one.now k) (slice_index other.now k)) }
{
    for k in 0..words.len() {
        words[k] &= one[k] | other[k];
    }
}

/// The words of no index below a bound.
pub(crate) fn empty_words(alloc: Global, bound: usize) -> Result<Vec<u64>, AllocError>
    requires { 0 < bound }
    ensures { IfOk result (λ words. words.items ≡ replicate (word_count bound) 0) }
{
    let count = (bound - 1) / 64 + 1;
    Ok(vec![in alloc; 0; count]?)
}
