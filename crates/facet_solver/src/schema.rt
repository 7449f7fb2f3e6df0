//! All resolutions of a type.
ghost use Rattle.std.specs.Prelude.{◌≡◌, ◌*◌, ◌+◌, ◌<◌, ◌≤◌, ℕ, IfErr, IfOk, None, OnOk, Some, length};
ghost use Rattle.std.specs.Option.{option_copied};
ghost use Rattle.facet_solver_shape.specs.Keys.{key_of};
ghost use Rattle.facet_solver_shape.specs.Steps.{NoCountFalls};
ghost use Rattle.facet_solver.specs.build.Build.{build_of, build_with, kind_at};
ghost use Rattle.facet_solver.specs.build.Choice.{Enumerates, IsRefusal};
ghost use Rattle.facet_solver.specs.build.Count.{IsCountOf, count_of_root};
ghost use Rattle.facet_solver.specs.schema.IndexEntries.{is_held};
ghost use Rattle.facet_solver.specs.schema.Indexed.{IsEntryIfAny};
ghost use Rattle.facet_solver.specs.Resolutions.{field_at, has_field_named, is_known, passes};
ghost use Rattle.facet_solver.specs.build.FieldCount.{field_count, fields_of_kind};
ghost use Rattle.facet_solver_shape.specs.Representation.{asked_view, externally_tagged, flattened, repr_view};
ghost use Rattle.facet_solver.specs.schema.Schema.{IsBuilt, IsOwnBuild, flat_build};

pub(crate) mod handle;
pub(crate) mod index;

use crate::build::Build;
use crate::build::count::count_of_root;
use crate::build::format::Format;
use crate::build::resolve::resolutions;
use crate::schema::index::Index;
use crate::schema::index::entry::Entry;
use crate::set::ResolutionSet;
use facet_solver_shape::{EnumRepr, FieldKey, Resolution, SchemaError, ShapeId, Shapes, Steps};
use std::alloc::{AllocError, Global};
use std::marker::Model;

/// All resolutions of a type: one for each choice of variants, in lexicographic order of the
/// choices. Earlier fields change slowest, and variants come in the order of declaration.
///
/// A flattened field whose shape is an option of a struct or an enum is a choice too: absent, and
/// then present.
#[derive(Debug)]
pub struct Schema<'c> {
    shapes: &'c Shapes,
    root: ShapeId,
    representation: Option<EnumRepr<'c>>,
    format: Format,
    resolutions: Vec<Resolution<'c>>,
    index: Index<'c>,
}

impl<'c> Model for Schema<'c> {
    ghost use Rattle.std.specs.Prelude.{length};
    ghost use Rattle.facet_solver.specs.schema.Indexed.{AreOfFormat, IsIndexOf, fields_of_each};
    ghost use Rattle.facet_solver.specs.schema.Schema.{IsOwnBuild, SchemaView, schema_view};
    ghost use Rattle.facet_solver.specs.schema.SchemaStorage.{schema_code};

    ghost Value = { SchemaView };

    ghost coded = { schema_code };

    ghost view = { λ s.
        schema_view s.shapes.now s.root s.representation s.format s.resolutions.items };

    ghost invariant = { λ s. IsOwnBuild
        (schema_view s.shapes.now s.root s.representation s.format s.resolutions.items)
        × AreOfFormat s.format s.resolutions.items
        × IsIndexOf (length s.resolutions.items) (fields_of_each s.resolutions.items) s.index };
}

/// Written out: where a block drops a schema at its end, the borrow checker does not cover a
/// derived drop beside a struct of which a field was moved.
impl Drop for Schema<'_> {
    fn drop(self) {
        let Schema {
            shapes: _shapes,
            root: _root,
            representation: _representation,
            format: _format,
            resolutions,
            index,
        } = self;
        drop(resolutions);
        drop(index);
    }
}

impl<'c> Schema<'c> {
    /// The schema of a root, with the content of each flattened enum among the fields around it.
    ///
    /// Errors: `DuplicateField` where two fields of one choice have one stored key, the one emitted
    /// first first; `OutOfMemory`, also where there are 2^64 choices or more.
    pub fn build(
        alloc: Global,
        shapes: &'c Shapes,
        root: ShapeId,
    ) -> Result<Schema<'c>, SchemaError<'c>>
        requires { root < length shapes.now }
        ensures built { IfOk result (IsBuilt (flat_build shapes.now (Some flattened)) root) }
        ensures refused { IfErr result (IsRefusal (flat_build shapes.now (Some flattened)) root) }
    {
        Schema::build_with_repr(alloc, shapes, root, EnumRepr::Flattened)
    }

    /// The schema of a root, with each flattened enum in a field that has the name of its variant.
    ///
    /// Errors: `DuplicateField` where two fields of one choice have one stored key, the one emitted
    /// first first; `OutOfMemory`, also where there are 2^64 choices or more.
    pub fn build_externally_tagged(
        alloc: Global,
        shapes: &'c Shapes,
        root: ShapeId,
    ) -> Result<Schema<'c>, SchemaError<'c>>
        requires { root < length shapes.now }
        ensures built { IfOk result
            (IsBuilt (flat_build shapes.now (Some externally_tagged)) root) }
        ensures refused { IfErr result
            (IsRefusal (flat_build shapes.now (Some externally_tagged)) root) }
    {
        Schema::build_with_repr(alloc, shapes, root, EnumRepr::ExternallyTagged)
    }

    /// The schema of a root, with one representation for all flattened enums.
    ///
    /// Errors: `DuplicateField` where two fields of one choice have one stored key, the one emitted
    /// first first; `OutOfMemory`, also where there are 2^64 choices or more.
    pub fn build_with_repr(
        alloc: Global,
        shapes: &'c Shapes,
        root: ShapeId,
        representation: EnumRepr<'c>,
    ) -> Result<Schema<'c>, SchemaError<'c>>
        requires { root < length shapes.now }
        ensures built { IfOk result
            (IsBuilt (flat_build shapes.now (Some (repr_view representation.entry))) root) }
        ensures refused { IfErr result
            (IsRefusal (flat_build shapes.now (Some (repr_view representation.entry))) root) }
    {
        Schema::build_counted(
            alloc,
            shapes,
            root,
            Some(representation),
            Format::Flat,
            &mut Steps::new(),
        )
    }

    /// The schema of a root, with the representation of each flattened enum that its own attributes
    /// ask for (`EnumRepr::from_shape`).
    ///
    /// Errors: `DuplicateField` where two fields of one choice have one stored key, the one emitted
    /// first first; `OutOfMemory`, also where there are 2^64 choices or more.
    pub fn build_auto(
        alloc: Global,
        shapes: &'c Shapes,
        root: ShapeId,
    ) -> Result<Schema<'c>, SchemaError<'c>>
        requires { root < length shapes.now }
        ensures built { IfOk result (IsBuilt (flat_build shapes.now None) root) }
        ensures refused { IfErr result (IsRefusal (flat_build shapes.now None) root) }
    {
        Schema::build_with_format(alloc, shapes, root, Format::Flat)
    }

    /// The schema of a root for documents of attributes and elements, such as XML, with the
    /// representation of each flattened enum that its own attributes ask for
    /// (`EnumRepr::from_shape`).
    ///
    /// Errors: `DuplicateField` where two fields of one choice have one stored key, the one emitted
    /// first first; `OutOfMemory`, also where there are 2^64 choices or more.
    pub fn build_dom(
        alloc: Global,
        shapes: &'c Shapes,
        root: ShapeId,
    ) -> Result<Schema<'c>, SchemaError<'c>>
        requires { root < length shapes.now }
        ensures built { IfOk result (IsBuilt (build_with shapes.now None Format.Dom) root) }
        ensures refused { IfErr result (IsRefusal (build_with shapes.now None Format.Dom) root) }
    {
        Schema::build_with_format(alloc, shapes, root, Format::Dom)
    }

    /// The schema of a root for documents of a format, with the representation of each flattened
    /// enum that its own attributes ask for (`EnumRepr::from_shape`).
    ///
    /// Errors: `DuplicateField` where two fields of one choice have one stored key, the one emitted
    /// first first; `OutOfMemory`, also where there are 2^64 choices or more.
    pub fn build_with_format(
        alloc: Global,
        shapes: &'c Shapes,
        root: ShapeId,
        format: Format,
    ) -> Result<Schema<'c>, SchemaError<'c>>
        requires { root < length shapes.now }
        ensures built { IfOk result (IsBuilt (build_with shapes.now None format) root) }
        ensures refused { IfErr result (IsRefusal (build_with shapes.now None format) root) }
    {
        Schema::build_counted(alloc, shapes, root, None, format, &mut Steps::new())
    }

    /// The schema of a root for documents of a format, with one representation for all flattened
    /// enums, or with that which each enum's own attributes ask for, for `None`.
    ///
    /// Errors: `DuplicateField` where two fields of one choice have one stored key, the one emitted
    /// first first; `OutOfMemory`, also where there are 2^64 choices or more.
    ///
    /// `steps` counts the visits of fields for nested key paths. In all these are at most twice as
    /// many as the catalogue has fields, also on an error. On an `Ok` they are at least as many as
    /// the root has. Other reads of fields are not counted.
    pub fn build_counted(
        alloc: Global,
        shapes: &'c Shapes,
        root: ShapeId,
        representation: Option<EnumRepr<'c>>,
        format: Format,
        steps: &mut Steps,
    ) -> Result<Schema<'c>, SchemaError<'c>>
        requires { root < length shapes.now }
        ensures built { IfOk result
            (IsBuilt (build_with shapes.now (asked_view representation.entry) format) root) }
        ensures refused { IfErr result
            (IsRefusal (build_with shapes.now (asked_view representation.entry) format) root) }
        ensures visits { steps.new.visits ≤ steps.old.visits + 2 * field_count shapes.now }
        ensures visited { OnOk result
            (steps.old.visits + fields_of_kind (kind_at shapes.now root) ≤ steps.new.visits) }
        ensures no_fall { NoCountFalls steps.old steps.new }
    {
        let build = Build {
            alloc,
            shapes,
            representation,
            format,
        };
        Schema::of_build(build, root, steps)
    }

    /// The number of resolutions that a schema of the root has, without building one: `None` from
    /// 2^64 on.
    ///
    /// The representation is that of all flattened enums; `None` leaves it to each enum's own
    /// attributes. The number is the same for both formats. The only error is out of memory.
    pub fn resolution_count(
        alloc: Global,
        shapes: &Shapes,
        root: ShapeId,
        representation: Option<EnumRepr>,
    ) -> Result<Option<u64>, AllocError>
        requires { root < length shapes.now }
        ensures { IfOk result (IsCountOf shapes.now root (asked_view representation.entry)) }
    {
        Schema::resolution_count_counted(alloc, shapes, root, representation, &mut Steps::new())
    }

    /// The number of resolutions that a schema of the root has, as [`Schema::resolution_count`]
    /// says.
    ///
    /// `steps` counts the visits of fields. In all these are at most as many as the catalogue has
    /// fields, also on an error. On an `Ok` they are at least as many as the root has.
    pub fn resolution_count_counted(
        alloc: Global,
        shapes: &Shapes,
        root: ShapeId,
        representation: Option<EnumRepr>,
        steps: &mut Steps,
    ) -> Result<Option<u64>, AllocError>
        requires { root < length shapes.now }
        ensures number { IfOk result
            (IsCountOf shapes.now root (asked_view representation.entry)) }
        ensures visits { steps.new.visits ≤ steps.old.visits + field_count shapes.now }
        ensures visited { OnOk result
            (steps.old.visits + fields_of_kind (kind_at shapes.now root) ≤ steps.new.visits) }
        ensures no_fall { NoCountFalls steps.old steps.new }
    {
        let build = Build {
            alloc,
            shapes,
            representation,
            format: Format::Flat,
        };
        count_of_root(build, root, steps)
    }

    /// The schema of a root, by what a build goes by.
    fn of_build(
        build: Build<'c>,
        root: ShapeId,
        steps: &mut Steps,
    ) -> Result<Schema<'c>, SchemaError<'c>>
        requires { root < length build.shapes.now }
        ensures built { IfOk result (IsBuilt (build_of build.entry) root) }
        ensures refused { IfErr result (IsRefusal (build_of build.entry) root) }
        ensures visits { steps.new.visits
            ≤ steps.old.visits + 2 * field_count build.entry.shapes.now }
        ensures visited { OnOk result
            (steps.old.visits + fields_of_kind (kind_at build.entry.shapes.now root)
            ≤ steps.new.visits) }
        ensures no_fall { NoCountFalls steps.old steps.new }
    {
        let made = resolutions(build, root, steps)?;
        Schema::indexed(build, root, made)
    }

    /// The schema of the resolutions that a build made of a root. The only error is out of memory.
    fn indexed(
        build: Build<'c>,
        root: ShapeId,
        made: Vec<Resolution<'c>>,
    ) -> Result<Schema<'c>, SchemaError<'c>>
        requires enumerated { Enumerates (build_of build) root made.items }
        requires counted { length made.items ≡ count_of_root (build_of build) root }
        ensures built { IfOk result (IsBuilt (build_of build.entry) root) }
        ensures refused { IfErr result (IsRefusal (build_of build.entry) root) }
    {
        let index = Index::new(build.alloc, &made)?;
        Ok(Schema {
            shapes: build.shapes,
            root,
            representation: build.representation,
            format: build.format,
            resolutions: made,
            index,
        })
    }

    /// The resolutions, one for each choice of variants, in lexicographic order of the choices. The
    /// index of a resolution is its place here.
    pub fn resolutions(&self) -> &[Resolution<'c>]
        ensures resolutions { result.now ≡ self.now.resolutions }
        ensures built { IsOwnBuild self.now }
    {
        &self.resolutions
    }

    /// The entry of a key: the resolutions that have it, and the shape of the fields that it means,
    /// if they agree on it. There is none where no resolution has it.
    pub(crate) fn look_up(&self, key: FieldKey<'_>) -> Option<&Entry<'c>>
        ensures { IsEntryIfAny (length self.now.resolutions)
            (field_at (key_of key.entry) self.now.resolutions) (option_copied result) }
    {
        self.index.look_up(self.format, key)
    }

    /// Whether some resolution has a field that a key means.
    pub(crate) fn is_known(&self, key: FieldKey<'_>) -> bool
        ensures { result ≡ is_known self.now.resolutions (key_of key.entry) }
    {
        self.look_up(key).is_some()
    }

    /// The resolutions of the entries of a name: a resolution has a field of the name where one of
    /// the sets has the resolution.
    pub(crate) fn sets_named(
        &self,
        alloc: Global,
        name: &str,
    ) -> Result<Vec<&ResolutionSet>, AllocError>
        ensures { IfOk result (λ sets. (index : ℕ) → is_held sets.items index
            ≡ passes (has_field_named name.now) self.now.resolutions index) }
    {
        self.index.sets_named(alloc, name)
    }

    /// What kind of document the schema is for.
    pub fn format(&self) -> Format
        ensures { result ≡ self.now.build.format }
    {
        self.format
    }

    /// The catalogue of which the schema was built.
    pub fn shapes(&self) -> &'c Shapes
        ensures { result.now ≡ self.now.build.catalogue }
    {
        self.shapes
    }
}
