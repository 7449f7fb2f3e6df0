//! A table by index of the fields that nested key paths go through: those under a shape are made
//! from those under the shapes that its flattened fields name, which stand before it. So each field
//! is visited once.
ghost use Rattle.std.specs.Prelude.{◌≡◌, ◌&&◌, ◌||◌, ◌+◌, ◌∷◌, [], ◌<◌, ◌≤◌, ◌↔◌, ℕ, All, Bool, IfOk, IfSome, OnOk, Some, true, length, map, slice_get, string_bytes, sum_by, take};
ghost use Rattle.std.specs.Bool.{then_some};
ghost use Rattle.std.specs.Option.{is_some};
ghost use Rattle.facet_solver_shape.specs.Steps.{NoCountFalls};
ghost use Rattle.facet_solver.specs.build.Build.{kind_at};
ghost use Rattle.facet_solver.specs.build.Content.{is_zero};
ghost use Rattle.facet_solver.specs.build.Nested as nested;
ghost use Rattle.facet_solver.specs.build.Nested.{entered_view, has_fields, if_entered, under_fields_step, under_shape};
ghost use Rattle.facet_solver.specs.build.FieldCount.{field_count, fields_of_kind};
ghost use Rattle.facet_solver.specs.build.NestedTable.{AreEntries, AreFieldsOf, AreFieldsOfEach, AskedBy, FieldAsks, HasMore, HasVariants, IsClosed, IsFilled, IsMade, IsMarked, IsSound, KindAsks, LeadEarlier, VariantAsks, is_marked, under_at, under_of, variants_at};

use crate::build::Build;
use crate::build::nested::by_name::{FieldsByName, NamedShapes, add_copies};
use crate::build::nested::shapes_behind::ShapesBehind;
use crate::build::nested::{Entered, has_fields};
use crate::build::visit::visited;
use facet_solver_shape::{Field, Shape, ShapeId, ShapeKind, Shapes, Steps, Variant};
use std::alloc::{AllocError, Global};

/// The fields that nested key paths go through at an index.
#[derive(Drop)]
struct Entry<'c> {
    /// Those under the shape, where a field asks for them.
    under: Option<FieldsByName<'c>>,
    /// Those under each variant of an enum, where its content is written apart.
    variants: Option<Vec<FieldsByName<'c>>>,
}

/// What is wanted of an entry.
#[derive(Clone, Copy)]
struct Wanted {
    under: bool,
    variants: bool,
}

impl Wanted {
    /// The entry of these, with what is wanted alone.
    fn entry<'c>(self, under: FieldsByName<'c>, variants: Vec<FieldsByName<'c>>) -> Entry<'c>
        ensures under { result.under ≡ then_some self.under under.entry }
        ensures variants { result.variants ≡ then_some self.variants variants.entry }
    {
        Entry {
            under: self.under.then_some(under),
            variants: self.variants.then_some(variants),
        }
    }
}

/// The fields that nested key paths go through, by the index of their shape.
#[derive(Drop)]
pub(crate) struct NestedTable<'c> {
    by_index: Vec<Entry<'c>>,
}

impl<'c> NestedTable<'c> {
    /// Makes the entries in order, as far as the marks go: the marked shapes get the fields under
    /// them, those that are marked apart get the fields under their variants. Each is made from
    /// earlier ones, for what either of them asks for is marked. Where nothing is marked the table
    /// takes no memory.
    pub(crate) fn new(
        build: Build<'c>,
        entered: Entered,
        marks: &[bool],
        apart: &[bool],
        steps: &mut Steps,
    ) -> Result<NestedTable<'c>, AllocError>
        requires within { length marks.now ≤ length build.shapes.now }
        requires apart_within { length apart.now ≤ length marks.now }
        requires closed { IsClosed (entered_view entered) build.shapes.now marks.now }
        requires asked { AskedBy (entered_view entered) build.shapes.now apart.now marks.now }
        ensures entries { IfOk result (λ table.
            AreEntries (entered_view entered) build.entry.shapes.now table.by_index.items) }
        ensures earlier { IfOk result (λ table. LeadEarlier table.by_index.items) }
        ensures marked { IfOk result (λ table.
            (id : ℕ) → IsMarked marks.now id ↔ IsFilled table.by_index.items id) }
        ensures apart { IfOk result (λ table.
            (id : ℕ) → IsMarked apart.now id ↔ HasVariants table.by_index.items id) }
        ensures visits { steps.new.visits
            ≤ steps.old.visits + field_count (take (length marks.now) build.entry.shapes.now) }
        ensures no_fall { NoCountFalls steps.old steps.new }
    {
        if !marks.contains(&true) && !apart.contains(&true) {
            return Ok(NestedTable {
                by_index: Vec::new(build.alloc),
            });
        }
        let mut by_index = Vec::with_capacity(build.alloc, marks.len())?;
        while by_index.len() < marks.len() {
            let index = by_index.len();
            let shape = build.shape(ShapeId::new(index));
            let earlier = Earlier {
                alloc: build.alloc,
                shapes: build.shapes,
                entered,
                entries: by_index.as_slice(),
            };
            let wanted = Wanted {
                under: is_marked(marks, index),
                variants: is_marked(apart, index),
            };
            let entry = earlier.entry(wanted, shape, steps)?;
            by_index.push(entry)?;
        }
        Ok(NestedTable { by_index })
    }

    /// The fields under a shape.
    pub(crate) fn under(&self, id: ShapeId) -> &FieldsByName<'c>
        requires { IsFilled self.now.by_index.items id }
        ensures { under_at self.now.by_index.items id ≡ Some result.now }
    {
        under_at(&self.by_index, id)
    }

    /// Those under each variant of an enum.
    pub(crate) fn variants(&self, id: ShapeId) -> &Vec<FieldsByName<'c>>
        requires { HasVariants self.now.by_index.items id }
        ensures { variants_at self.now.by_index.items id ≡ Some result.now }
    {
        match self.by_index.get(id.index()) {
            Some(
                Entry {
                    variants: Some(each),
                    ..
                },
            ) => each,
            _ => unreachable!(),
        }
    }
}

/// Whether a shape is marked; one past the end is not.
fn is_marked(marks: &[bool], index: usize) -> bool
    ensures { result ≡ is_marked marks.now index }
{
    marks.get(index).copied().unwrap_or(false)
}

/// What an entry is made from.
#[derive(Clone, Copy)]
struct Earlier<'t, 'c> {
    alloc: Global,
    shapes: &'c Shapes,
    entered: Entered,
    /// The entries at the indices before it.
    entries: &'t [Entry<'c>],
}

impl<'t, 'c> Earlier<'t, 'c> {
    /// The entry of a shape, by its kind.
    fn entry(
        self,
        wanted: Wanted,
        shape: &'c Shape,
        steps: &mut Steps,
    ) -> Result<Entry<'c>, AllocError>
        requires sound { IsSound self }
        requires asked { (wanted.under || wanted.variants) ≡ true
            → KindAsks (IsFilled self.entries.now) (entered_view self.entered)
            self.shapes.now shape.now.kind }
        ensures made { IfOk result (IsMade self.entry wanted shape.now.kind) }
        ensures visits { steps.new.visits ≤ steps.old.visits + fields_of_kind shape.now.kind }
        ensures no_fall { NoCountFalls steps.old steps.new }
    {
        if !(wanted.under || wanted.variants) {
            return Ok(Entry {
                under: None,
                variants: None,
            });
        }
        match &shape.kind {
            ShapeKind::Struct { fields, .. } => self.struct_entry(wanted, fields.as_slice(), steps),
            ShapeKind::Enum { variants } => self.enum_entry(wanted, variants.as_slice(), steps),
            _ => Ok(wanted.entry(FieldsByName::empty(self.alloc), Vec::new(self.alloc))),
        }
    }

    /// The entry of a struct.
    fn struct_entry(
        self,
        wanted: Wanted,
        fields: &'c [Field],
        steps: &mut Steps,
    ) -> Result<Entry<'c>, AllocError>
        requires sound { IsSound self }
        requires asked { All (FieldAsks (IsFilled self.entries.now) (entered_view self.entered)
            self.shapes.now) fields.now }
        ensures has_under { IfOk result (λ entry. is_some entry.under ≡ wanted.under) }
        ensures has_variants { IfOk result (λ entry. is_some entry.variants ≡ wanted.variants) }
        ensures under { let through =
            nested.through_fields (entered_view self.entry.entered)
            self.entry.shapes.now fields.now in
            IfOk result (λ entry. IfSome entry.under (AreFieldsOf self.entry through)) }
        ensures variants { IfOk result (λ entry.
            IfSome entry.variants (λ each. each.items ≡ [])) }
        ensures visits { steps.new.visits ≤ steps.old.visits + length fields.now }
        ensures no_fall { NoCountFalls steps.old steps.new }
    {
        let mut gathered = Vec::with_capacity(self.alloc, fields.len())?;
        self.add_through_fields(fields, &mut gathered, steps)?;
        let under = FieldsByName::new(self.alloc, gathered)?;
        Ok(wanted.entry(under, Vec::new(self.alloc)))
    }

    /// The entry of an enum. Those under all its variants are taken together only where that is
    /// wanted.
    fn enum_entry(
        self,
        wanted: Wanted,
        variants: &'c [Variant],
        steps: &mut Steps,
    ) -> Result<Entry<'c>, AllocError>
        requires sound { IsSound self }
        requires asked { All (VariantAsks (IsFilled self.entries.now) (entered_view self.entered)
            self.shapes.now) variants.now }
        ensures has_under { IfOk result (λ entry. is_some entry.under ≡ wanted.under) }
        ensures has_variants { IfOk result (λ entry. is_some entry.variants ≡ wanted.variants) }
        ensures under { let paths =
            nested.under_variants (entered_view self.entry.entered)
            self.entry.shapes.now variants.now in
            IfOk result (λ entry. IfSome entry.under (AreFieldsOf self.entry paths)) }
        ensures variants { IfOk result (λ entry.
            IfSome entry.variants (AreFieldsOfEach self.entry variants.now)) }
        ensures visits { steps.new.visits
            ≤ steps.old.visits + sum_by (λ v. length v.fields.items) variants.now }
        ensures no_fall { NoCountFalls steps.old steps.new }
    {
        let each = self.under_variants(variants, steps)?;
        if !wanted.under {
            return Ok(wanted.entry(FieldsByName::empty(self.alloc), each));
        }
        let under = FieldsByName::together(self.alloc, &each)?;
        Ok(wanted.entry(under, each))
    }

    /// Those under each variant.
    fn under_variants(
        self,
        variants: &'c [Variant],
        steps: &mut Steps,
    ) -> Result<Vec<FieldsByName<'c>>, AllocError>
        requires sound { IsSound self }
        requires asked { All (VariantAsks (IsFilled self.entries.now) (entered_view self.entered)
            self.shapes.now) variants.now }
        ensures each { IfOk result (AreFieldsOfEach self.entry variants.now) }
        ensures visits { steps.new.visits
            ≤ steps.old.visits + sum_by (λ v. length v.fields.items) variants.now }
        ensures no_fall { NoCountFalls steps.old steps.new }
    {
        let mut each = Vec::with_capacity(self.alloc, variants.len())?;
        for variant in variants {
            let fields = self.under_variant(variant, steps)?;
            each.push(fields)?;
        }
        Ok(each)
    }

    /// Those under a variant.
    fn under_variant(
        self,
        variant: &'c Variant,
        steps: &mut Steps,
    ) -> Result<FieldsByName<'c>, AllocError>
        requires sound { IsSound self }
        requires asked { VariantAsks (IsFilled self.entries.now) (entered_view self.entered)
            self.shapes.now variant.now }
        ensures fields { let paths =
            nested.under_variant (entered_view self.entry.entered)
            self.entry.shapes.now variant.now in
            IfOk result (AreFieldsOf self.entry paths) }
        ensures visits { steps.new.visits
            ≤ steps.old.visits + length variant.now.fields.items }
        ensures no_fall { NoCountFalls steps.old steps.new }
    {
        let fields = variant.fields.as_slice();
        let mut gathered = Vec::with_capacity(self.alloc, fields.len())?;
        if fields.len() == 1 {
            self.add_under_only_field(visited(fields, 0, steps), &mut gathered)?;
            return FieldsByName::new(self.alloc, gathered);
        }
        self.add_through_fields(fields, &mut gathered, steps)?;
        FieldsByName::new(self.alloc, gathered)
    }

    /// Adds those under a variant by its only field, which stands for its shape where it is named
    /// `0` and the shape is entered.
    fn add_under_only_field(
        self,
        field: &'c Field,
        gathered: &mut Vec<NamedShapes<'c>>,
    ) -> Result<(), AllocError>
        requires sound { IsSound self }
        requires asked { FieldAsks (IsFilled self.entries.now) (entered_view self.entered)
            self.shapes.now field.now }
        ensures { let entered = entered_view self.entry.entered in
            let cat = self.entry.shapes.now in
            let under = under_fields_step entered cat
            (if_entered entered cat) (under_shape entered cat) (field.now ∷ []) in
            OnOk result (HasMore self.entry under gathered.old.items gathered.new.items) }
    {
        if self.is_entered_by(field) {
            self.add_under(field.shape, gathered)
        } else {
            self.add_through_field(field, gathered)
        }
    }

    /// Whether an only field stands for its shape.
    fn is_entered_by(self, field: &Field) -> bool
        ensures { result ≡ (is_zero (string_bytes field.now.name)
            && entered_view self.entry.entered (kind_at self.entry.shapes.now field.now.shape)) }
    {
        field.name.as_str() == "0" && self.entered.has(self.shapes, field.shape)
    }

    /// Adds those through fields, one after another.
    fn add_through_fields(
        self,
        fields: &'c [Field],
        gathered: &mut Vec<NamedShapes<'c>>,
        steps: &mut Steps,
    ) -> Result<(), AllocError>
        requires sound { IsSound self }
        requires asked { All (FieldAsks (IsFilled self.entries.now) (entered_view self.entered)
            self.shapes.now) fields.now }
        ensures more { let through =
            nested.through_fields (entered_view self.entry.entered)
            self.entry.shapes.now fields.now in
            OnOk result (HasMore self.entry through gathered.old.items gathered.new.items) }
        ensures visits { steps.new.visits ≤ steps.old.visits + length fields.now }
        ensures no_fall { NoCountFalls steps.old steps.new }
    {
        for index in 0..fields.len() {
            self.add_through_field(visited(fields, index, steps), gathered)?;
        }
        Ok(())
    }

    /// Adds those through a field.
    fn add_through_field(
        self,
        field: &'c Field,
        gathered: &mut Vec<NamedShapes<'c>>,
    ) -> Result<(), AllocError>
        requires sound { IsSound self }
        requires asked { FieldAsks (IsFilled self.entries.now) (entered_view self.entered)
            self.shapes.now field.now }
        ensures { let through =
            nested.through_field (entered_view self.entry.entered)
            self.entry.shapes.now field.now in
            OnOk result (HasMore self.entry through gathered.old.items gathered.new.items) }
    {
        if field.flattened {
            return self.add_under(field.shape, gathered);
        }
        let shapes = if self.leads_on(field.shape) {
            ShapesBehind::One(field.shape)
        } else {
            ShapesBehind::Nothing
        };
        gathered.push((field.effective_name(), shapes))?;
        Ok(())
    }

    /// Whether there may be fields under the shape of a regular field.
    fn leads_on(self, id: ShapeId) -> bool
        ensures { let kind = kind_at self.entry.shapes.now id in
            result ≡ (entered_view self.entry.entered kind && has_fields kind) }
    {
        self.entered.has(self.shapes, id) && has_fields(self.shapes, id)
    }

    /// Adds those under an earlier shape. A kind without fields has none, and needs no entry.
    fn add_under(self, id: ShapeId, gathered: &mut Vec<NamedShapes<'c>>) -> Result<(), AllocError>
        requires sound { IsSound self }
        requires filled { has_fields (kind_at self.shapes.now id) ≡ true
            → IsFilled self.entries.now id }
        ensures { OnOk result (HasMore self.entry (under_of self.entry id)
            gathered.old.items gathered.new.items) }
    {
        if !has_fields(self.shapes, id) {
            return Ok(());
        }
        add_copies(self.alloc, self.under(id), gathered)
    }

    /// Those under an earlier shape.
    fn under(self, id: ShapeId) -> &'t FieldsByName<'c>
        requires sound { IsSound self }
        requires filled { IsFilled self.entries.now id }
        ensures { AreFieldsOf self.entry (under_of self.entry id) result.now }
    {
        under_at(self.entries, id)
    }
}

/// The fields under a shape, from its entry.
fn under_at<'t, 'c>(entries: &'t [Entry<'c>], id: ShapeId) -> &'t FieldsByName<'c>
    requires { IsFilled entries.now id }
    ensures { under_at entries.now id ≡ Some result.now }
{
    match entries.get(id.index()) {
        Some(
            Entry {
                under: Some(fields),
                ..
            },
        ) => fields,
        _ => unreachable!(),
    }
}
