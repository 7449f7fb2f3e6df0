//! The names of seen keys, by the category of the fields that they may match.
ghost use Rattle.std.specs.Prelude.{◌≡◌, IfOk, List, map};
ghost use Rattle.facet_solver_shape.specs.Keys.{Key, key_of};
ghost use Rattle.facet_solver_shape.specs.Resolved.{names_view};
ghost use Rattle.facet_solver.specs.solver.Failure.{is_met};
ghost use Rattle.facet_solver.specs.solver.SeenNames.{AreSeenNames, may_match, names_for, of_category};

use facet_solver_shape::{FieldCategory, FieldInfo, FieldKey};
use std::alloc::{AllocError, Global};
use std::collections::BTreeSet;

/// The names of the seen keys that may match fields of each category.
#[derive(Drop)]
pub(crate) struct SeenNames<'a> {
    flat: BTreeSet<&'a str>,
    attributes: BTreeSet<&'a str>,
    elements: BTreeSet<&'a str>,
    texts: BTreeSet<&'a str>,
    tags: BTreeSet<&'a str>,
    lists: BTreeSet<&'a str>,
}

impl<'a> SeenNames<'a> {
    pub(crate) fn new(alloc: Global, seen: &BTreeSet<FieldKey<'a>>) -> Result<Self, AllocError>
        ensures { IfOk result (AreSeenNames (map key_of seen.now.keys)) }
    {
        Ok(SeenNames {
            flat: names_for(alloc, FieldCategory::Flat, seen)?,
            attributes: names_for(alloc, FieldCategory::Attribute, seen)?,
            elements: names_for(alloc, FieldCategory::Element, seen)?,
            texts: names_for(alloc, FieldCategory::Text, seen)?,
            tags: names_for(alloc, FieldCategory::Tag, seen)?,
            lists: names_for(alloc, FieldCategory::Elements, seen)?,
        })
    }

    fn of_category(&self, category: FieldCategory) -> &BTreeSet<&'a str>
        ensures { result.now.keys ≡ of_category self.now category }
    {
        match category {
            FieldCategory::Flat => &self.flat,
            FieldCategory::Attribute => &self.attributes,
            FieldCategory::Element => &self.elements,
            FieldCategory::Text => &self.texts,
            FieldCategory::Tag => &self.tags,
            FieldCategory::Elements => &self.lists,
        }
    }

    /// Whether the seen keys meet a field.
    pub(crate) fn meet(&self, field: &FieldInfo<'_>) -> bool
        ensures { (seen : List Key) → AreSeenNames seen self.now → result ≡ is_met seen field.now }
    {
        if !field.required {
            return true;
        }
        let names = self.of_category(field.category);
        if names.contains(field.serialized_name) {
            return true;
        }
        field.category.takes_any_name() && names.contains("")
    }
}

/// The names of the seen keys that may match fields of a category.
fn names_for<'a>(
    alloc: Global,
    category: FieldCategory,
    seen: &BTreeSet<FieldKey<'a>>,
) -> Result<BTreeSet<&'a str>, AllocError>
    ensures { IfOk result
        (λ names. names_view names.keys ≡ names_for category (map key_of seen.now.keys)) }
{
    let mut names = BTreeSet::new(alloc);
    for key in seen {
        if may_match(*key, category) {
            names.insert(key.name())?;
        }
    }
    Ok(names)
}

/// Whether a key may match fields of a category.
fn may_match(key: FieldKey<'_>, category: FieldCategory) -> bool
    ensures { result ≡ may_match (key_of key.entry).dom category }
{
    match (key, category) {
        (_, FieldCategory::Flat) => true,
        (FieldKey::Flat(_), category) => category == FieldCategory::Element,
        (FieldKey::Dom(asked, _), category) => asked == category,
    }
}
