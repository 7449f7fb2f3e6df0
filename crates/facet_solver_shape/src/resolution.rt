//! What one choice of variants resolves to: paths, keys, fields, and the resolution itself.
ghost use Rattle.std.specs.Prelude.{◌≡◌, IfOk, IfErr, OnOk, OnErr, IsTrue, All, map};
ghost use Rattle.std.specs.Option.{option_copied};
ghost use Rattle.std.specs.String.{string_bytes};
ghost use Rattle.std.specs.FinMap as finite;
ghost use Rattle.std.specs.FinSet as set;
ghost use Rattle.facet_solver_shape.specs.Resolved.{description, field_by_key, field_by_name, nothing, IsAdded, with_key_path, with_selection, with_catch_all, AreRequiredNames, AreApart, IsMerged, IsMadeOptional, selection_view, IsRefusalOf, IsMergeRefusalOf, names_view, key_paths_view};
ghost use Rattle.facet_solver_shape.specs.Fields.{entry_view, IsStored, field_entries_view};
ghost use Rattle.facet_solver_shape.specs.Keys.{key_of};
ghost use Rattle.facet_solver_shape.specs.Names.{names_of};

mod describe;
mod error;
mod field;
mod key;
mod path;
mod tables;

use describe::describe_selections;
pub use error::{DuplicateFieldError, SchemaError};
use field::joined_selections;
pub use field::{FieldInfo, KeyPath, VariantSelection};
pub use key::{FieldCategory, FieldKey};
pub use path::{FieldPath, PathSegment};
use std::alloc::{AllocError, Global};
use std::collections::{BTreeMap, BTreeSet};
use std::marker::Model;
use std::mem;
use tables::{CatchAlls, FieldMap, KeyPathSet, NameSet};

/// What one choice of variants resolves to: the fields of its documents, the names of the required
/// ones, key paths, the selected variants, and catch-alls.
#[derive(Debug, Drop)]
pub struct Resolution<'c> {
    fields: FieldMap<'c>,
    required: NameSet<'c>,
    key_paths: KeyPathSet<'c>,
    selections: Vec<VariantSelection<'c>>,
    catch_alls: CatchAlls<'c>,
}

impl<'c> Model for Resolution<'c> {
    ghost use Rattle.std.specs.Prelude.{map};
    ghost use Rattle.facet_solver_shape.specs.Resolved.{Resolved, AreRequiredNames, selection_view};
    ghost use Rattle.facet_solver_shape.specs.ResolvedCode.{resolved_code};

    ghost Value = { Resolved };

    ghost coded = { resolved_code };

    ghost view = { λ r. record {
      fields = r.fields;
      required_names = r.required;
      key_paths = r.key_paths;
      selections = map selection_view r.selections.items;
      catch_alls = r.catch_alls;
    } };

    ghost invariant = { λ r. AreRequiredNames r.fields r.required };
}

impl<'c> Resolution<'c> {
    /// A resolution that has nothing yet. The call allocates nothing.
    pub fn new(alloc: Global) -> Self
        ensures { result ≡ nothing }
    {
        Resolution {
            fields: FieldMap::new(alloc),
            required: NameSet::new(alloc),
            key_paths: KeyPathSet::new(alloc),
            selections: Vec::new(alloc),
            catch_alls: CatchAlls::new(alloc),
        }
    }

    /// The fields by stored key, in key order.
    pub fn fields(&self) -> &BTreeMap<FieldKey<'c>, FieldInfo<'c>>
        ensures view { field_entries_view result.now.entries ≡ self.now.fields }
        ensures in_order { map entry_view result.now.entries ≡ finite.entries self.now.fields }
        ensures stored { All IsStored (finite.entries self.now.fields) }
    {
        self.fields.as_map()
    }

    /// The names of the required fields, in byte order.
    pub fn required_field_names(&self) -> &BTreeSet<&'c str>
        ensures view { names_view result.now.keys ≡ self.now.required_names }
        ensures of_fields { AreRequiredNames self.now.fields self.now.required_names }
    {
        self.required.as_set()
    }

    /// The selected variants, in the order in which they were added. In a schema that is the order
    /// of the walk: an enum before those in its content, and earlier fields first.
    pub fn variant_selections(&self) -> &[VariantSelection<'c>]
        ensures { map selection_view result.now ≡ self.now.selections }
    {
        &self.selections
    }

    /// The paths of all keys, by the names from the document down to the key. They are in
    /// lexicographic order, and names in byte order.
    pub fn known_paths(&self) -> &BTreeSet<KeyPath<'c>>
        ensures { key_paths_view result.now.keys ≡ self.now.key_paths }
    {
        self.key_paths.as_set()
    }

    /// Whether the whole path is that of a key. It allocates nothing.
    pub fn has_key_path(&self, path: &[&str]) -> bool
        ensures { result ≡ set.contains self.now.key_paths (names_of path.now) }
    {
        self.key_paths.contains(path)
    }

    /// The field of least stored key among those that have the name; `None` where none has it.
    pub fn field_by_name(&self, name: &str) -> Option<&FieldInfo<'c>>
        ensures { option_copied result ≡ field_by_name name.now self.now }
    {
        self.fields.first_named(name)
    }

    /// The field of least stored key among those that the key means (`FieldInfo::matched_by`);
    /// `None` where it means none.
    pub fn field_by_key(&self, key: &FieldKey) -> Option<&FieldInfo<'c>>
        ensures { option_copied result ≡ field_by_key (key_of key.now) self.now }
    {
        self.fields.first_matched(key)
    }

    /// The field that takes what no other field of the category takes, if there is one.
    pub fn catch_all_map(&self, category: FieldCategory) -> Option<&FieldInfo<'c>>
        ensures { option_copied result ≡ finite.get self.now.catch_alls category }
    {
        self.catch_alls.get(category)
    }

    /// The selected variants in order, as `Enum::Variant` joined by ` + `; `(no variants)` where
    /// there are none.
    ///
    /// The only error is out of memory.
    pub fn describe(&self, alloc: Global) -> Result<String, AllocError>
        ensures { IfOk result (λ text. string_bytes text ≡ description self.now.selections) }
    {
        describe_selections(alloc, &self.selections)
    }

    /// Adds a field under its stored key.
    ///
    /// Errors: `DuplicateField` where the key is taken, with the name and both paths, that of the
    /// present field first; `OutOfMemory`. After an error the resolution is as it was.
    pub fn add_field(&mut self, info: FieldInfo<'c>) -> Result<(), SchemaError<'c>>
        ensures ok { OnOk result (IsAdded self.old info.entry self.new) }
        ensures refused { IfErr result (IsRefusalOf self.old.fields info.entry) }
        ensures err { OnErr result (self.new ≡ self.old) }
    {
        if info.required {
            self.add_required(info)
        } else {
            let alloc = *self.selections.allocator();
            self.fields.insert_new(alloc, info)
        }
    }

    /// Adds a required field.
    fn add_required(&mut self, info: FieldInfo<'c>) -> Result<(), SchemaError<'c>>
        requires { IsTrue info.is_required }
        ensures ok { OnOk result (IsAdded self.old info.entry self.new) }
        ensures refused { IfErr result (IsRefusalOf self.old.fields info.entry) }
        ensures err { OnErr result (self.new ≡ self.old) }
    {
        let alloc = *self.selections.allocator();
        let name = info.serialized_name;
        let is_new = self.required.insert(name)?;
        let added = self.fields.insert_new(alloc, info);
        if is_new && added.is_err() {
            self.required.remove(name);
        }
        added
    }

    /// Adds the path of a key. A path that is there already is ignored.
    ///
    /// The only error is out of memory. The resolution is then as it was.
    pub fn add_key_path(&mut self, path: KeyPath<'c>) -> Result<(), AllocError>
        ensures ok { OnOk result (self.new ≡ with_key_path self.old (names_of path.entry.items)) }
        ensures err { OnErr result (self.new ≡ self.old) }
    {
        self.key_paths.insert(path)
    }

    /// Adds the variant that is selected for an enum, after the others. The path is that of the
    /// enum.
    ///
    /// The only error is out of memory. The resolution is then as it was.
    pub fn add_variant_selection(
        &mut self,
        path: FieldPath<'c>,
        enum_name: &'c str,
        variant_name: &'c str,
    ) -> Result<(), AllocError>
        ensures ok { OnOk result (self.new ≡ with_selection self.old
            (record {
              path = path.entry;
              enum_name = enum_name.now;
              variant_name = variant_name.now;
            })) }
        ensures err { OnErr result (self.new ≡ self.old) }
    {
        self.selections.push(VariantSelection {
            path,
            enum_name,
            variant_name,
        })?;
        Ok(())
    }

    /// Sets the field that takes what no other field of the category takes. It takes the place of
    /// an earlier one of the category.
    ///
    /// The only error is out of memory. The resolution is then as it was.
    pub fn set_catch_all_map(
        &mut self,
        category: FieldCategory,
        info: FieldInfo<'c>,
    ) -> Result<(), AllocError>
        ensures ok { OnOk result
            (self.new ≡ with_catch_all self.old category info.entry) }
        ensures err { OnErr result (self.new ≡ self.old) }
    {
        self.catch_alls.insert(category, info)
    }

    /// Adds all that another resolution has: its fields, required names and key paths, its
    /// selections after those that are here, and its catch-alls in place of those that are here.
    ///
    /// Errors: `DuplicateField` where a key is taken, with the name and both paths, that of the
    /// present field first; `OutOfMemory`. After an error the resolution is as it was.
    pub fn merge(&mut self, other: &Resolution<'c>) -> Result<(), SchemaError<'c>>
        ensures ok { OnOk result (IsMerged self.old other.now self.new) }
        ensures refused { IfErr result (IsMergeRefusalOf self.old other.now) }
        ensures err { OnErr result (self.new ≡ self.old) }
    {
        let merged = self.merged(other)?;
        drop(mem::replace(self, merged));
        Ok(())
    }

    /// The two as one, in memory of its own.
    fn merged(&self, other: &Resolution<'c>) -> Result<Self, SchemaError<'c>>
        ensures ok { IfOk result (IsMerged self.now other.now) }
        ensures refused { IfErr result (IsMergeRefusalOf self.now other.now) }
    {
        self.refuse_shared(other)?;
        let alloc = *self.selections.allocator();
        let fields = self.fields.overlaid(alloc, &other.fields)?;
        let required = self.required.joined(alloc, &other.required)?;
        let key_paths = self.key_paths.joined(alloc, &other.key_paths)?;
        let selections = joined_selections(alloc, &self.selections, &other.selections)?;
        let catch_alls = self.catch_alls.overlaid(alloc, &other.catch_alls)?;
        Ok(Resolution {
            fields,
            required,
            key_paths,
            selections,
            catch_alls,
        })
    }

    /// Refuses a resolution with a field whose key is taken here.
    fn refuse_shared(&self, other: &Resolution<'c>) -> Result<(), SchemaError<'c>>
        ensures ok { OnOk result (AreApart self.now.fields other.now.fields) }
        ensures refused { IfErr result (IsMergeRefusalOf self.now other.now) }
    {
        let alloc = *self.selections.allocator();
        for (key, info) in other.fields() {
            if let Some(present) = self.fields.get(key) {
                let duplicate = DuplicateFieldError::new(alloc, present, info)?;
                return Err(SchemaError::from(duplicate));
            }
        }
        Ok(())
    }

    /// Makes each field optional, so no name is required. All else stays.
    pub fn mark_all_optional(&mut self)
        ensures { IsMadeOptional self.old self.new }
    {
        self.fields.mark_all_optional();
        self.required.clear();
    }
}
