//! The index of a schema: which resolutions have a key.
ghost use Rattle.std.specs.Prelude.{◌≡◌, ◌+◌, ◌<◌, ℕ, IfOk, List, None, OnOk, length, map, take};
ghost use Rattle.std.specs.List.{filter_map};
ghost use Rattle.std.specs.Option.{option_copied};
ghost use Rattle.facet_solver_shape.specs.Keys.{key_of};
ghost use Rattle.facet_solver_shape.specs.Resolved.{Resolved};
ghost use Rattle.facet_solver.specs.schema.IndexEntries.{HasBound, IsSlotAfter, category_of, entry_at, is_held, set_at};
ghost use Rattle.facet_solver.specs.schema.Indexed.{AreOfFormat, IsEntryIfAny, IsIndexOf, fields_of_each};
ghost use Rattle.facet_solver.specs.Resolutions.{field_at, has_field_named, passes};
ghost use Rattle.facet_solver.specs.schema.Slots.{Slot, categories, is_at, slot_in, slot_of};

pub(crate) mod category_index;
pub(crate) mod entry;
pub(crate) mod few_shapes;
pub(crate) mod selected;
pub(crate) mod variant_sets;

use crate::build::format::Format;
use crate::schema::index::category_index::CategoryIndex;
use crate::schema::index::entry::{Entry, Occurrence};
use crate::schema::index::selected::last_variant;
use crate::set::ResolutionSet;
use facet_solver_shape::{FieldCategory, FieldInfo, FieldKey, Resolution};
use std::alloc::{AllocError, Global};

/// The categories of fields.
const CATEGORIES: [FieldCategory; 6] = [
    FieldCategory::Flat,
    FieldCategory::Attribute,
    FieldCategory::Element,
    FieldCategory::Text,
    FieldCategory::Tag,
    FieldCategory::Elements,
];

/// The entries of a schema, by category.
#[derive(Debug, Drop)]
pub(crate) struct Index<'c> {
    flat: CategoryIndex<'c>,
    attributes: CategoryIndex<'c>,
    elements: CategoryIndex<'c>,
    texts: CategoryIndex<'c>,
    tags: CategoryIndex<'c>,
    lists: CategoryIndex<'c>,
}

impl<'c> Index<'c> {
    /// No entries.
    fn empty(alloc: Global) -> Self
        ensures { (slot : Slot) → entry_at result slot ≡ None }
    {
        Index {
            flat: CategoryIndex::new(alloc),
            attributes: CategoryIndex::new(alloc),
            elements: CategoryIndex::new(alloc),
            texts: CategoryIndex::new(alloc),
            tags: CategoryIndex::new(alloc),
            lists: CategoryIndex::new(alloc),
        }
    }

    /// The index of resolutions, by their own fields.
    pub(crate) fn new(alloc: Global, resolutions: &[Resolution<'c>]) -> Result<Self, AllocError>
        ensures { IfOk result
            (IsIndexOf (length resolutions.now) (fields_of_each resolutions.now)) }
    {
        let mut index = Index::empty(alloc);
        for i in 0..resolutions.len() {
            index.add_all(alloc, resolutions, i)?;
        }
        Ok(index)
    }

    /// Adds the fields of the resolution at an index.
    fn add_all(
        &mut self,
        alloc: Global,
        resolutions: &[Resolution<'c>],
        index: usize,
    ) -> Result<(), AllocError>
        requires within { index < length resolutions.now }
        requires before { IsIndexOf (length resolutions.now)
            (fields_of_each (take index resolutions.now)) self.old }
        ensures { OnOk result (IsIndexOf (length resolutions.now)
            (fields_of_each (take (index + 1) resolutions.now)) self.new) }
    {
        let bound = resolutions.len();
        for (key, field) in resolutions[index].fields() {
            let at = Occurrence {
                index,
                bound,
                shape: field.value_shape,
                variant: last_variant(&field.path),
            };
            self.add(alloc, field, &at)?;
        }
        Ok(())
    }

    /// The entries of a category.
    fn of_category(&self, category: FieldCategory) -> &CategoryIndex<'c>
        ensures { result.now ≡ category_of self.now category }
    {
        match category {
            FieldCategory::Flat => &self.flat,
            FieldCategory::Attribute => &self.attributes,
            FieldCategory::Element => &self.elements,
            FieldCategory::Text => &self.texts,
            FieldCategory::Tag => &self.tags,
            FieldCategory::Elements => &self.lists,
        }
    }

    /// The entry of a key in a format: the resolutions that have the key, and the shape of the
    /// fields that it means, if they agree on it. There is none where no resolution has the key.
    pub(crate) fn look_up(&self, format: Format, key: FieldKey<'_>) -> Option<&Entry<'c>>
        ensures { (resolutions : List Resolved) → AreOfFormat format resolutions
            → IsIndexOf (length resolutions) (fields_of_each resolutions) self.now
            → IsEntryIfAny (length resolutions)
            (field_at (key_of key.entry) resolutions) (option_copied result) }
    {
        self.entry_at(format, key)
    }

    /// The resolutions of the entries of a name: a resolution has a field of the name where one of
    /// the sets has the resolution.
    pub(crate) fn sets_named(
        &self,
        alloc: Global,
        name: &str,
    ) -> Result<Vec<&ResolutionSet>, AllocError>
        ensures { IfOk result (λ sets. (resolutions : List Resolved)
            → IsIndexOf (length resolutions) (fields_of_each resolutions) self.now
            → (index : ℕ) → is_held sets.items index
            ≡ passes (has_field_named name.now) resolutions index) }
    {
        self.sets_of_each_category(alloc, name)
    }

    /// The resolutions of the entries of a name, one set for each category that has an entry.
    fn sets_of_each_category(
        &self,
        alloc: Global,
        name: &str,
    ) -> Result<Vec<&ResolutionSet>, AllocError>
        ensures { IfOk result (λ sets. map (λ set. set.now) sets.items
            ≡ filter_map (λ c. set_at self.now (slot_in name.now c)) categories) }
    {
        let mut sets = Vec::new(alloc);
        for category in &CATEGORIES {
            if let Some(set) = self.set_of(*category, name) {
                sets.push(set)?;
            }
        }
        Ok(sets)
    }

    /// The resolutions of the entry of a category and a name.
    fn set_of(&self, category: FieldCategory, name: &str) -> Option<&ResolutionSet>
        ensures { option_copied result ≡ set_at self.now (slot_in name.now category) }
    {
        match self.of_category(category).entry_of(name) {
            Some(entry) => Some(&entry.set),
            None => None,
        }
    }

    /// The entry of the slot where a key looks.
    fn entry_at(&self, format: Format, key: FieldKey<'_>) -> Option<&Entry<'c>>
        ensures { option_copied result ≡ entry_at self.now (slot_of format (key_of key.entry)) }
    {
        match (format, key) {
            (Format::Flat, key) => self.flat.entry_of(key.name()),
            (Format::Dom, FieldKey::Flat(name)) => self.elements.entry_of(name),
            (Format::Dom, FieldKey::Dom(category, name)) => {
                let entries = self.of_category(category);
                if name.is_empty() && category.takes_any_name() {
                    entries.entry_of_all()
                } else {
                    entries.entry_of(name)
                }
            }
        }
    }

    /// Adds a field.
    fn add(
        &mut self,
        alloc: Global,
        field: &FieldInfo<'c>,
        at: &Occurrence<'c>,
    ) -> Result<(), AllocError>
        requires index { at.now.index < at.now.bound }
        requires bounds { (slot : Slot) → HasBound at.now.bound (entry_at self.old slot) }
        ensures { OnOk result ((slot : Slot) → IsSlotAfter (is_at slot field.now) at.now
            (entry_at self.old slot) (entry_at self.new slot)) }
    {
        match field.category {
            FieldCategory::Flat => self.flat.add(alloc, field, at),
            FieldCategory::Attribute => self.attributes.add(alloc, field, at),
            FieldCategory::Element => self.elements.add(alloc, field, at),
            FieldCategory::Text => self.texts.add(alloc, field, at),
            FieldCategory::Tag => self.tags.add(alloc, field, at),
            FieldCategory::Elements => self.lists.add(alloc, field, at),
        }
    }
}
