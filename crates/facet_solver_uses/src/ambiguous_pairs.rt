//! A checker of types: which resolutions a document may leave both viable, with keys that do so.
ghost use Rattle.std.specs.Prelude.{◌≡◌, ◌++◌, ◌<◌, ℕ, IfOk, IsTrue, List, OnOk, length};
ghost use Rattle.facet_solver.specs.solver.Failure.{is_met};
ghost use Rattle.facet_solver.specs.solver.Pairs.{HasKeyFor};
ghost use Rattle.facet_solver.specs.Keys.{key_of};
ghost use Rattle.facet_solver.specs.Names.{names_of};
ghost use Rattle.facet_solver_uses.specs.AmbiguousPairs.{AddsKeys, IsKeyFor, ListsPairs, PairsIfAny, keys_for, names_beside, pairs_below, pairs_with, serves};
ghost use Rattle.facet_solver_uses.specs.KeysToChoice.{keys_of};

use facet_solver::laws::{keys_mean_fields, shared_keys_leave_both_viable};
use facet_solver::{FieldCategory, FieldInfo, FieldKey, Resolution, Schema};
use std::alloc::{AllocError, Global};

/// Two resolutions that the keys of a document may leave both viable.
#[derive(Drop)]
pub struct AmbiguousPair<'c> {
    /// The index of the first, which is the lesser one.
    pub first: usize,
    /// The index of the second.
    pub second: usize,
    /// Keys that leave both viable.
    pub keys: Vec<FieldKey<'c>>,
    /// The names that only the first has, in key order: each tells the two apart.
    pub only_first: Vec<&'c str>,
    /// The names that only the second has, in key order.
    pub only_second: Vec<&'c str>,
}

/// The pairs of resolutions that some keys, told to a new solver, leave both viable.
///
/// Each such two have one pair, with one list of such keys. Where there is no pair, no document is
/// ambiguous, if a solver sees its keys and nothing else. The pairs rise by their second index,
/// then by their first.
///
/// The only error is out of memory. Each two resolutions are compared, and each field that one of
/// them requires is looked up in the other. So the time grows with the square of their number.
pub fn ambiguous_pairs<'c>(
    alloc: Global,
    schema: &Schema<'c>,
) -> Result<Vec<AmbiguousPair<'c>>, AllocError>
    ensures { IfOk result (λ pairs.
        ListsPairs schema.now (pairs_below (length schema.now.resolutions)) pairs.items) }
{
    let mut pairs = Vec::new(alloc);
    for second in 0..schema.resolutions().len() {
        add_pairs_with(alloc, schema, second, &mut pairs)?;
    }
    Ok(pairs)
}

/// Adds the pairs of a resolution and those before it.
fn add_pairs_with<'c>(
    alloc: Global,
    schema: &Schema<'c>,
    second: usize,
    pairs: &mut Vec<AmbiguousPair<'c>>,
) -> Result<(), AllocError>
    requires { second < length schema.now.resolutions }
    ensures { OnOk result ((all : List (ℕ × ℕ))
        → ListsPairs schema.now all pairs.old.items
        → ListsPairs schema.now (all ++ pairs_with second second) pairs.new.items) }
{
    // What is known of the pairs that are found, and of those that are not.
    shared_keys_leave_both_viable();
    let resolutions = schema.resolutions();
    for first in 0..second {
        if let Some(pair) = pair_of(alloc, resolutions, first, second)? {
            pairs.push(pair)?;
        }
    }
    Ok(())
}

/// The pair of two resolutions. Each key in it is one that both have.
fn pair_of<'c>(
    alloc: Global,
    resolutions: &[Resolution<'c>],
    first: usize,
    second: usize,
) -> Result<Option<AmbiguousPair<'c>>, AllocError>
    requires first { first < length resolutions.now }
    requires second { second < length resolutions.now }
    ensures { IfOk result (λ pair. PairsIfAny resolutions.now first second pair) }
{
    let one = &resolutions[first];
    let other = &resolutions[second];
    let mut keys = Vec::new(alloc);
    if !add_keys(one, other, &mut keys)? || !add_keys(other, one, &mut keys)? {
        return Ok(None);
    }
    Ok(Some(AmbiguousPair {
        first,
        second,
        keys,
        only_first: names_beside(alloc, other, one)?,
        only_second: names_beside(alloc, one, other)?,
    }))
}

/// Adds a key, which the other resolution has, for each field that one requires and no key meets,
/// until there is none.
fn add_keys<'c>(
    required_by: &Resolution<'c>,
    other: &Resolution<'c>,
    keys: &mut Vec<FieldKey<'c>>,
) -> Result<bool, AllocError>
    ensures { IfOk result (λ found. AddsKeys (required_by.now, other.now)
        (keys_of keys.old.items) found (keys_of keys.new.items)) }
{
    keys_mean_fields();
    for (_, field) in required_by.fields() {
        if !is_met(keys, field) {
            match key_for(field, other) {
                Some(key) => keys.push(key)?,
                None => return Ok(false),
            }
        }
    }
    Ok(true)
}

/// Whether keys meet a field: it is not required, or one of them means it.
fn is_met(keys: &[FieldKey<'_>], field: &FieldInfo<'_>) -> bool
    ensures { result ≡ is_met (keys_of keys.now) field.now }
{
    for key in keys {
        if field.matched_by(key) {
            return true;
        }
    }
    !field.required
}

/// A key that means a field, and that a resolution has.
fn key_for<'c>(field: &FieldInfo<'c>, resolution: &Resolution<'c>) -> Option<FieldKey<'c>>
    ensures { IsKeyFor resolution.now field.now result }
{
    if lacks_flat_name(field, resolution) {
        return None;
    }
    let keys = keys_for(field.serialized_name);
    for key in &keys {
        if serves(key, field, resolution) {
            return Some(*key);
        }
    }
    None
}

/// Whether a field goes by its name alone, and a resolution has no field of that name. Then no key
/// means the field and one of the resolution.
fn lacks_flat_name(field: &FieldInfo<'_>, resolution: &Resolution<'_>) -> bool
    ensures { IsTrue result → ¬ HasKeyFor resolution.now field.now }
{
    let name = field.serialized_name;
    match field.category {
        FieldCategory::Flat => !name.is_empty() && resolution.field_by_name(name).is_none(),
        _ => false,
    }
}

/// The keys that may mean a field of a name: a key without a name means a text, a tag, or all
/// elements.
fn keys_for<'c>(name: &'c str) -> [FieldKey<'c>; 10]
    ensures { keys_of result ≡ keys_for name.now }
{
    [
        FieldKey::Flat(name),
        FieldKey::Dom(FieldCategory::Flat, name),
        FieldKey::Dom(FieldCategory::Attribute, name),
        FieldKey::Dom(FieldCategory::Element, name),
        FieldKey::Dom(FieldCategory::Text, name),
        FieldKey::Dom(FieldCategory::Tag, name),
        FieldKey::Dom(FieldCategory::Elements, name),
        FieldKey::text(),
        FieldKey::tag(),
        FieldKey::elements(),
    ]
}

/// Whether a key means a field and a resolution has it.
fn serves(key: &FieldKey<'_>, field: &FieldInfo<'_>, resolution: &Resolution<'_>) -> bool
    ensures { result ≡ serves resolution.now field.now (key_of key.now) }
{
    field.matched_by(key) && resolution.field_by_key(key).is_some()
}

/// The names of a resolution's fields that another one has no field of.
fn names_beside<'c>(
    alloc: Global,
    other: &Resolution<'c>,
    resolution: &Resolution<'c>,
) -> Result<Vec<&'c str>, AllocError>
    ensures { IfOk result (λ names.
        names_of names.items ≡ names_beside other.now resolution.now) }
{
    let mut names = Vec::new(alloc);
    for (_, field) in resolution.fields() {
        let name = field.serialized_name;
        if other.field_by_name(name).is_none() {
            names.push(name)?;
        }
    }
    Ok(names)
}
