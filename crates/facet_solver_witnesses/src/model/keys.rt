//! Names that are keys of maps and that no list around has.
use facet_solver_reader::{Plan, PlannedKeys};
use facet_solver_shape::{ShapeId, WholeRange};
use std::alloc::{AllocError, Global};

/// What a fresh name has to be.
#[derive(Clone, Copy)]
struct Wanted<'r, 'c> {
    plan: &'r Plan<'c>,
    first: Option<ShapeId>,
    second: Option<ShapeId>,
    known: &'r [&'c str],
}

impl<'c> Wanted<'_, 'c> {
    /// The keys among which the name is sought: those of the one map or of the other, or numbers of
    /// both.
    fn keys(&self, alloc: Global) -> Result<PlannedKeys<'c>, AllocError> {
        let first = keys_of(alloc, self.plan, self.first)?;
        let second = keys_of(alloc, self.plan, self.second)?;
        Ok(fewer(first, second))
    }

    /// Whether a name will do.
    fn is_met(&self, name: &str) -> bool {
        !self.known.iter().any(|known| *known == name)
            && self.first.is_none_or(|key| self.plan.is_key(key, name))
            && self.second.is_none_or(|key| self.plan.is_key(key, name))
    }

    /// How many names are tried: one more than are known.
    fn tries(&self) -> u64 {
        (self.known.len() as u64).saturating_add(1)
    }
}

/// A name that is a key of both maps, by the shapes of their keys, and none of the known names. Any
/// name is a key where there is no shape.
pub(crate) fn fresh_key<'r, 'c>(
    alloc: Global,
    plan: &'r Plan<'c>,
    first: Option<ShapeId>,
    second: Option<ShapeId>,
    known: &'r [&'c str],
) -> Result<Option<String>, AllocError> {
    let wanted = Wanted {
        plan,
        first,
        second,
        known,
    };
    let keys = wanted.keys(alloc)?;
    fresh_of(alloc, &wanted, &keys)
}

/// Which names are keys. Any name is where there is no shape.
fn keys_of<'c>(
    alloc: Global,
    plan: &Plan<'c>,
    key: Option<ShapeId>,
) -> Result<PlannedKeys<'c>, AllocError> {
    match key {
        Some(key) => plan.keys(alloc, key),
        None => Ok(PlannedKeys::Any),
    }
}

/// Of two sorts of keys the one with fewer names, or the numbers of both.
fn fewer<'c>(first: PlannedKeys<'c>, second: PlannedKeys<'c>) -> PlannedKeys<'c> {
    match (first, second) {
        (PlannedKeys::Any, keys) | (keys, PlannedKeys::Any) => keys,
        (PlannedKeys::Words(words), _) => PlannedKeys::Words(words),
        (PlannedKeys::Truth, _) => PlannedKeys::Truth,
        (_, PlannedKeys::Words(words)) => PlannedKeys::Words(words),
        (_, PlannedKeys::Truth) => PlannedKeys::Truth,
        (PlannedKeys::Whole(one), PlannedKeys::Whole(other)) => {
            let lowest = one.lowest.max(other.lowest);
            let highest = one.highest.min(other.highest);
            PlannedKeys::Whole(WholeRange { lowest, highest })
        }
        (PlannedKeys::Character, _) | (_, PlannedKeys::Character) => PlannedKeys::Character,
    }
}

/// A name of some keys that will do.
fn fresh_of(
    alloc: Global,
    wanted: &Wanted<'_, '_>,
    keys: &PlannedKeys<'_>,
) -> Result<Option<String>, AllocError> {
    match keys {
        PlannedKeys::Any => fresh_name(alloc, wanted),
        PlannedKeys::Whole(range) => fresh_number(alloc, wanted, *range),
        PlannedKeys::Truth => fresh_word(alloc, wanted, &["true", "false"]),
        PlannedKeys::Character => fresh_character(alloc, wanted),
        PlannedKeys::Words(words) => fresh_word(alloc, wanted, words),
    }
}

/// The first of some words that will do.
fn fresh_word(
    alloc: Global,
    wanted: &Wanted<'_, '_>,
    words: &[&str],
) -> Result<Option<String>, AllocError> {
    for word in words {
        if wanted.is_met(word) {
            return Ok(Some(String::from_str(alloc, word)?));
        }
    }
    Ok(None)
}

/// A name of letters that will do.
fn fresh_name(alloc: Global, wanted: &Wanted<'_, '_>) -> Result<Option<String>, AllocError> {
    if let Some(name) = fresh_word(alloc, wanted, &["other"])? {
        return Ok(Some(name));
    }
    for number in 0..wanted.tries() {
        let name = format!(in alloc; "other{number}")?;
        if wanted.is_met(name.as_str()) {
            return Ok(Some(name));
        }
    }
    Ok(None)
}

/// A whole number that will do, from 0 or the lowest on, and down from -1.
fn fresh_number(
    alloc: Global,
    wanted: &Wanted<'_, '_>,
    range: WholeRange,
) -> Result<Option<String>, AllocError> {
    let least = range.lowest.max(0).unsigned_abs();
    for offset in 0..wanted.tries() {
        let number = least.saturating_add(u128::from(offset));
        let name = format!(in alloc; "{number}")?;
        if number <= range.highest && wanted.is_met(name.as_str()) {
            return Ok(Some(name));
        }
        let below = format!(in alloc; "-{number}")?;
        if range.lowest < 0 && wanted.is_met(below.as_str()) {
            return Ok(Some(below));
        }
    }
    Ok(None)
}

/// A character that will do.
fn fresh_character(alloc: Global, wanted: &Wanted<'_, '_>) -> Result<Option<String>, AllocError> {
    for digit in 0..10u8 {
        let name = format!(in alloc; "{digit}")?;
        if wanted.is_met(name.as_str()) {
            return Ok(Some(name));
        }
    }
    for offset in 0..wanted.tries().min(0x7000) {
        let code = 0x61 + offset as u32;
        if let Some(character) = char::from_u32(code) {
            let name = format!(in alloc; "{character}")?;
            if wanted.is_met(name.as_str()) {
                return Ok(Some(name));
            }
        }
    }
    Ok(None)
}
