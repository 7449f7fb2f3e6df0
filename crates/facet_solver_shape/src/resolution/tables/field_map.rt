//! Fields by stored key, seen as a finite map.
ghost use Rattle.std.specs.Prelude.{◌≡◌, OnOk, OnErr, IfErr, IfOk, All, None, false, find, map};
ghost use Rattle.std.specs.Option.{option_copied, option_map};
ghost use Rattle.std.specs.FinMap as finite;
ghost use Rattle.facet_solver_shape.specs.Fields.{entry_view, matches, has_name, IsStored, as_optional, key_of_field, field_entries_view};
ghost use Rattle.facet_solver_shape.specs.Keys.{Key, key_of};
ghost use Rattle.facet_solver_shape.specs.Resolved.{IsOverlaid, IsRefusalOf};

use crate::resolution::{DuplicateFieldError, FieldInfo, FieldKey, SchemaError};
use std::alloc::{AllocError, Global};
use std::collections::BTreeMap;
use std::collections::btree_map::Entry;
use std::marker::Model;

/// Fields by stored key.
#[derive(Debug, Drop)]
pub(crate) struct FieldMap<'c> {
    entries: BTreeMap<FieldKey<'c>, FieldInfo<'c>>,
}

impl<'c> Model for FieldMap<'c> {
    ghost use Rattle.std.specs.FinMap as finite;
    ghost use Rattle.facet_solver_shape.specs.Keys.{key_cmp};
    ghost use Rattle.facet_solver_shape.specs.Fields.{FieldView, IsFieldTable, field_entries_view};
    ghost use Rattle.facet_solver_shape.specs.ResolvedCode.{field_map_code};

    ghost Value = { finite.FinMap key_cmp FieldView };

    ghost coded = { field_map_code };

    ghost view = { λ m. field_entries_view m.entries.entries };

    ghost invariant = { λ m. IsFieldTable m.entries.entries };
}

impl<'c> FieldMap<'c> {
    pub(crate) fn new(alloc: Global) -> Self
        ensures { result ≡ finite.empty }
    {
        FieldMap {
            entries: BTreeMap::new(alloc),
        }
    }

    pub(crate) fn as_map(&self) -> &BTreeMap<FieldKey<'c>, FieldInfo<'c>>
        ensures view { field_entries_view result.now.entries ≡ self.now }
        ensures in_order { map entry_view result.now.entries ≡ finite.entries self.now }
        ensures stored { All IsStored (finite.entries self.now) }
    {
        &self.entries
    }

    pub(crate) fn get(&self, key: &FieldKey<'c>) -> Option<&FieldInfo<'c>>
        ensures { option_copied result
            ≡ finite.get self.now (key_of key.now) }
    {
        self.entries.get(key)
    }

    /// The first field that a key means.
    pub(crate) fn first_matched(&self, key: &FieldKey) -> Option<&FieldInfo<'c>>
        ensures { option_copied result
            ≡ find (matches (key_of key.now)) (finite.values self.now) }
    {
        for (_, info) in &self.entries {
            if info.matched_by(key) {
                return Some(info);
            }
        }
        None
    }

    /// The first field of a name.
    pub(crate) fn first_named(&self, name: &str) -> Option<&FieldInfo<'c>>
        ensures { option_copied result
            ≡ find (has_name name.now) (finite.values self.now) }
    {
        for (_, info) in &self.entries {
            if info.serialized_name == name {
                return Some(info);
            }
        }
        None
    }

    /// Puts a field under its stored key, if that is new.
    ///
    /// Errors: `DuplicateField` where the key is taken; `OutOfMemory`.
    pub(crate) fn insert_new(
        &mut self,
        alloc: Global,
        info: FieldInfo<'c>,
    ) -> Result<(), SchemaError<'c>>
        ensures fresh { OnOk result (finite.get self.old (key_of_field info.entry) ≡ None) }
        ensures ok { OnOk result
            (self.new ≡ finite.insert self.old (key_of_field info.entry) info.entry) }
        ensures refused { IfErr result (IsRefusalOf self.old info.entry) }
        ensures err { OnErr result (self.new ≡ self.old) }
    {
        let place = match self.entries.entry(info.key())? {
            Entry::Vacant(place) => place,
            Entry::Occupied(present) => {
                // Not `get`: the contract of `into_mut` says what the map is afterwards.
                let duplicate = DuplicateFieldError::new(alloc, present.into_mut(), &info)?;
                return Err(SchemaError::from(duplicate));
            }
        };
        place.insert(info);
        Ok(())
    }

    /// Puts a field under its stored key.
    pub(crate) fn insert(&mut self, info: FieldInfo<'c>) -> Result<(), AllocError>
        ensures ok { OnOk result
            (self.new ≡ finite.insert self.old (key_of_field info.entry) info.entry) }
        ensures err { OnErr result (self.new ≡ self.old) }
    {
        let key = info.key();
        self.entries.insert(key, info)?;
        Ok(())
    }

    /// The fields of both; those of the upper map where a key is in both.
    pub(crate) fn overlaid(&self, alloc: Global, upper: &FieldMap<'c>) -> Result<Self, AllocError>
        ensures { IfOk result (IsOverlaid self.now upper.now) }
    {
        let mut made = FieldMap::new(alloc);
        made.put_all(alloc, self)?;
        made.put_all(alloc, upper)?;
        Ok(made)
    }

    /// After an error some of the fields may have been put in.
    fn put_all(&mut self, alloc: Global, upper: &FieldMap<'c>) -> Result<(), AllocError>
        ensures { OnOk result (IsOverlaid self.old upper.now self.new) }
    {
        for (_, info) in &upper.entries {
            let made = info.copied(alloc)?;
            self.insert(made)?;
        }
        Ok(())
    }

    /// No field is required any more.
    pub(crate) fn mark_all_optional(&mut self)
        ensures { (k : Key)
            → finite.get self.new k ≡ option_map as_optional (finite.get self.old k) }
    {
        make_optional(&mut self.entries);
    }
}

fn make_optional<'c>(entries: &mut BTreeMap<FieldKey<'c>, FieldInfo<'c>>)
    ensures { entries.new.entries
        ≡ map (λ e. (e.0, as_optional e.1)) entries.old.entries }
{
    entries.retain(|_, info| {
        info.required = false;
        true
    });
}
