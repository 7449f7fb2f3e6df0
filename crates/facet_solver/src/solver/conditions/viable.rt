//! Whether seen keys meet the fields of a resolution.
ghost use Rattle.std.specs.Prelude.{◌≡◌, IsTrue, map, true};
ghost use Rattle.std.specs.List.{list_all, list_any};
ghost use Rattle.facet_solver_shape.specs.Fields.{matches};
ghost use Rattle.facet_solver_shape.specs.Keys.{key_of};
ghost use Rattle.facet_solver.specs.solver.Failure as failure;
ghost use Rattle.facet_solver.specs.solver.SeenNames.{IsSuffixOf, left};
ghost use Rattle.facet_solver.specs.solver.Report as reports;

use crate::solver::conditions::Test;
use facet_solver_shape::{FieldCategory, FieldInfo, FieldKey, Resolution};
use std::collections::btree_set::Iter;
use std::collections::{BTreeMap, BTreeSet};

/// Whether the seen keys meet each field of a resolution.
#[derive(Clone, Copy)]
pub(crate) struct IsViable<'k, 'a> {
    pub(crate) seen: &'k BTreeSet<FieldKey<'a>>,
}

impl Test for IsViable<'_, '_> {
    ghost is_passed = { λ t. reports.is_viable (map key_of t.seen.now.keys) };

    fn is_passed(&self, resolution: &Resolution<'_>) -> bool {
        is_viable(self.seen, resolution)
    }
}

/// Whether the seen keys meet each field. Where none is required no field is looked at.
fn is_viable(seen: &BTreeSet<FieldKey<'_>>, resolution: &Resolution<'_>) -> bool
    ensures { result ≡ reports.is_viable (map key_of seen.now.keys) resolution.now }
{
    if resolution.required_field_names().is_empty() {
        return true;
    }
    are_met(seen, resolution.fields())
}

/// Fields rise as keys do, so most find their key where the one before them found its own: no
/// memory is taken, and most seen keys are passed once.
fn are_met(seen: &BTreeSet<FieldKey<'_>>, fields: &BTreeMap<FieldKey<'_>, FieldInfo<'_>>) -> bool
    ensures { result
        ≡ list_all (λ e. failure.is_met (map key_of seen.now.keys) e.1) fields.now.entries }
{
    let mut own = Cursor::new(seen);
    let mut flat = Cursor::new(seen);
    for (key, field) in fields {
        if !is_met(seen, &mut own, &mut flat, *key, field) {
            return false;
        }
    }
    true
}

/// Whether the seen keys meet a field: its own key is sought behind those that were passed before,
/// and so is the flat key of an element. Where none is there, all are asked.
fn is_met(
    seen: &BTreeSet<FieldKey<'_>>,
    own: &mut Cursor<'_, '_>,
    flat: &mut Cursor<'_, '_>,
    key: FieldKey<'_>,
    field: &FieldInfo<'_>,
) -> bool
    requires own { IsSuffixOf (left own.old) seen.now.keys }
    requires flat { IsSuffixOf (left flat.old) seen.now.keys }
    ensures met { result ≡ failure.is_met (map key_of seen.now.keys) field.now }
    ensures own { IsSuffixOf (left own.new) seen.now.keys }
    ensures flat { IsSuffixOf (left flat.new) seen.now.keys }
{
    if !field.required {
        return true;
    }
    if own.finds(key, field) {
        return true;
    }
    if field.category == FieldCategory::Element {
        if flat.finds(FieldKey::flat(field.serialized_name), field) {
            return true;
        }
    }
    is_matched(seen, field)
}

/// Seen keys in order, from one of them on.
#[derive(Drop)]
struct Cursor<'k, 'a> {
    next: Option<&'k FieldKey<'a>>,
    later: Iter<'k, FieldKey<'a>>,
}

impl<'k, 'a> Cursor<'k, 'a> {
    fn new(seen: &'k BTreeSet<FieldKey<'a>>) -> Self
        ensures { left result ≡ seen.now.keys }
    {
        let mut later = seen.iter();
        Cursor {
            next: later.next(),
            later,
        }
    }

    /// Passes the keys before the one that is sought, up to one that matches the field, and says
    /// whether there is one.
    fn finds(&mut self, sought: FieldKey<'_>, field: &FieldInfo<'_>) -> bool
        ensures found { IsTrue result
            → list_any (λ k. matches (key_of k) field.now) (left self.old) ≡ true }
        ensures rest { IsSuffixOf (left self.new) (left self.old) }
    {
        while let Some(key) = self.next {
            if field.matched_by(key) {
                return true;
            }
            if !is_before(*key, sought) {
                return false;
            }
            self.next = self.later.next();
        }
        false
    }
}

fn is_before(key: FieldKey<'_>, sought: FieldKey<'_>) -> bool {
    match (key, sought) {
        (FieldKey::Flat(name), FieldKey::Flat(sought)) => name < sought,
        (FieldKey::Flat(_), FieldKey::Dom(..)) => true,
        (FieldKey::Dom(..), FieldKey::Flat(_)) => false,
        (FieldKey::Dom(category, name), FieldKey::Dom(sought_category, sought)) => {
            category < sought_category || (category == sought_category && name < sought)
        }
    }
}

fn is_matched(seen: &BTreeSet<FieldKey<'_>>, field: &FieldInfo<'_>) -> bool
    ensures { result ≡ list_any (λ k. matches (key_of k) field.now) seen.now.keys }
{
    seen.iter().any(|key| field.matched_by(key))
}
