//! A resolution under way. It lacks the key paths of its fields' names, which are put in at its
//! end, the last of them first: a set finds the place of a path soonest that comes before all it
//! has.
ghost use Rattle.std.specs.Prelude.{◌≡◌, ◌∷◌, [], IfErr, IfOk, None, OnOk};
ghost use Rattle.std.specs.FinMap as finite;
ghost use Rattle.facet_solver_shape.specs.Fields.{key_of_field};
ghost use Rattle.facet_solver_shape.specs.Names.{names_of};
ghost use Rattle.facet_solver_shape.specs.Resolved.{IsRefusalOf, nothing, with_catch_all, with_field, with_key_path, with_selection};
ghost use Rattle.facet_solver.specs.build.Draft.{names_of_fields, paths_of};
ghost use Rattle.facet_solver.specs.build.Nested.{with_key_paths};

use crate::build::nested::paths::one_name_path;
use facet_solver_shape::{FieldCategory, FieldInfo, FieldPath, KeyPath, Resolution, SchemaError};
use std::alloc::{AllocError, Global};
use std::marker::Model;

/// A resolution under way, seen with the key paths that it still lacks.
#[derive(Drop)]
pub(crate) struct Draft<'c> {
    resolution: Resolution<'c>,
}

impl<'c> Model for Draft<'c> {
    ghost use Rattle.facet_solver_shape.specs.Resolved.{Resolved};
    ghost use Rattle.facet_solver_shape.specs.ResolvedCode.{resolved_code};
    ghost use Rattle.facet_solver.specs.build.Draft.{with_names};

    ghost Value = { Resolved };

    ghost coded = { resolved_code };

    ghost view = { λ d. with_names d.resolution };
}

impl<'c> Draft<'c> {
    /// Nothing yet.
    pub(crate) fn new(alloc: Global) -> Self
        ensures { result ≡ nothing }
    {
        Draft {
            resolution: Resolution::new(alloc),
        }
    }

    /// Adds a field under its stored key, and the key path of its name.
    pub(crate) fn add_field(&mut self, info: FieldInfo<'c>) -> Result<(), SchemaError<'c>>
        ensures fresh { OnOk result
            (finite.get self.old.fields (key_of_field info.entry) ≡ None) }
        ensures ok { OnOk result (self.new
            ≡ with_key_path (with_field self.old info.entry) (info.entry.name ∷ [])) }
        ensures refused { IfErr result (IsRefusalOf self.old.fields info.entry) }
    {
        self.resolution.add_field(info)
    }

    /// Adds the path of a key.
    pub(crate) fn add_key_path(&mut self, path: KeyPath<'c>) -> Result<(), AllocError>
        ensures ok { OnOk result
            (self.new ≡ with_key_path self.old (names_of path.entry.items)) }
    {
        self.resolution.add_key_path(path)
    }

    /// Adds the variant that is selected for an enum at a path, after the others.
    pub(crate) fn add_variant_selection(
        &mut self,
        path: FieldPath<'c>,
        enum_name: &'c str,
        variant_name: &'c str,
    ) -> Result<(), AllocError>
        ensures ok { OnOk result (self.new ≡ with_selection self.old
            (record {
              path = path.entry;
              enum_name = enum_name.now;
              variant_name = variant_name.now;
            })) }
    {
        self.resolution
            .add_variant_selection(path, enum_name, variant_name)
    }

    /// Sets the field that takes what no other field of the category takes.
    pub(crate) fn set_catch_all_map(
        &mut self,
        category: FieldCategory,
        info: FieldInfo<'c>,
    ) -> Result<(), AllocError>
        ensures ok { OnOk result
            (self.new ≡ with_catch_all self.old category info.entry) }
    {
        self.resolution.set_catch_all_map(category, info)
    }

    /// The resolution, with the key paths of its fields' names. `names` is room for these names.
    pub(crate) fn finish(
        self,
        alloc: Global,
        names: &mut Vec<&'c str>,
    ) -> Result<Resolution<'c>, AllocError>
        ensures { IfOk result (λ resolution. resolution ≡ self.entry) }
    {
        let Draft { resolution } = self;
        let mut whole = resolution;
        gather_names(&whole, names)?;
        add_paths_of(alloc, names, &mut whole)?;
        Ok(whole)
    }
}

/// Puts the names of a resolution's fields into `names`, which is cleared first.
fn gather_names<'c>(resolution: &Resolution<'c>, names: &mut Vec<&'c str>) -> Result<(), AllocError>
    ensures { OnOk result (names_of names.new.items ≡ names_of_fields resolution.now) }
{
    names.clear();
    for (_, field) in resolution.fields() {
        names.push(field.serialized_name)?;
    }
    Ok(())
}

/// Adds the key paths of names, from the last to the first, and takes the names away.
fn add_paths_of<'c>(
    alloc: Global,
    names: &mut Vec<&'c str>,
    resolution: &mut Resolution<'c>,
) -> Result<(), AllocError>
    ensures { OnOk result
        (resolution.new ≡ with_key_paths resolution.old (paths_of (names_of names.old.items))) }
{
    while let Some(name) = names.pop() {
        resolution.add_key_path(one_name_path(alloc, name)?)?;
    }
    Ok(())
}
