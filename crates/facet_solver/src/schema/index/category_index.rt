//! The entries of one category of fields, by name.
ghost use Rattle.std.specs.Prelude.{◌≡◌, ◌<◌, None, OnOk, Option, Some, true};
ghost use Rattle.std.specs.Option.{option_copied};
ghost use Rattle.facet_solver_shape.specs.Names.{Name, name_eq};
ghost use Rattle.facet_solver.specs.schema.IndexEntries.{HasBound, IsSlotAfter, entry_in, named_entry};
ghost use Rattle.facet_solver.specs.schema.Slots.{is_named};

use crate::schema::index::entry::{Entry, Occurrence};
use facet_solver_shape::FieldInfo;
use std::alloc::{AllocError, Global};
use std::collections::{BTreeMap, btree_map};

/// The entries of one category.
#[derive(Debug, Drop)]
pub(crate) struct CategoryIndex<'c> {
    /// The entry of each name.
    pub(crate) named: BTreeMap<&'c str, Entry<'c>>,
    /// The entry of every name, where a key without a name means all fields of the category.
    pub(crate) all: Option<Entry<'c>>,
}

impl<'c> CategoryIndex<'c> {
    /// No entries.
    pub(super) fn new(alloc: Global) -> Self
        ensures { (name : Option Name) → entry_in result name ≡ None }
    {
        CategoryIndex {
            named: BTreeMap::new(alloc),
            all: None,
        }
    }

    /// The entry of a name.
    pub(super) fn entry_of(&self, name: &str) -> Option<&Entry<'c>>
        ensures { option_copied result ≡ entry_in self.now (Some name.now) }
    {
        self.named.get(name)
    }

    /// The entry of every name.
    pub(super) fn entry_of_all(&self) -> Option<&Entry<'c>>
        ensures { option_copied result ≡ entry_in self.now None }
    {
        self.all.as_ref()
    }

    /// Adds a resolution to the entry of every name.
    fn add_to_all(&mut self, alloc: Global, at: &Occurrence<'c>) -> Result<(), AllocError>
        requires index { at.now.index < at.now.bound }
        requires bound { HasBound at.now.bound self.old.all }
        ensures named { OnOk result (self.new.named ≡ self.old.named) }
        ensures all { OnOk result (IsSlotAfter true at.now self.old.all self.new.all) }
    {
        match &mut self.all {
            Some(entry) => entry.add(alloc, at)?,
            None => self.all = Some(Entry::of_one(alloc, at)?),
        }
        Ok(())
    }

    /// Adds a field.
    pub(super) fn add(
        &mut self,
        alloc: Global,
        field: &FieldInfo<'c>,
        at: &Occurrence<'c>,
    ) -> Result<(), AllocError>
        requires index { at.now.index < at.now.bound }
        requires bounds { (name : Option Name) → HasBound at.now.bound (entry_in self.old name) }
        ensures { OnOk result ((name : Option Name) → IsSlotAfter (is_named name field.now) at.now
            (entry_in self.old name) (entry_in self.new name)) }
    {
        add_named(&mut self.named, alloc, field.serialized_name, at)?;
        if field.category.takes_any_name() {
            self.add_to_all(alloc, at)?;
        }
        Ok(())
    }
}

/// Adds a resolution to the entry of a name.
fn add_named<'c>(
    named: &mut BTreeMap<&'c str, Entry<'c>>,
    alloc: Global,
    name: &'c str,
    at: &Occurrence<'c>,
) -> Result<(), AllocError>
    requires index { at.now.index < at.now.bound }
    requires bounds { (n : Name) → HasBound at.now.bound (named_entry named.old n) }
    ensures { OnOk result ((n : Name) → IsSlotAfter (name_eq n name.now) at.now
        (named_entry named.old n) (named_entry named.new n)) }
{
    match named.entry(name)? {
        btree_map::Entry::Occupied(entry) => entry.into_mut().add(alloc, at)?,
        btree_map::Entry::Vacant(place) => {
            place.insert(Entry::of_one(alloc, at)?);
        }
    }
    Ok(())
}
