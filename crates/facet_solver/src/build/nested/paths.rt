//! The key paths that fields by name stand for, from the entries of a table.
ghost use Rattle.std.specs.Prelude.{◌≡◌, ◌∷◌, [], map, ◌&&◌, ◌<◌, ◌≤◌, ℕ, IfNone, IfOk, IfSome, OnOk, length, nat_lt, true};
ghost use Rattle.std.specs.List.{AllByRecursion};
ghost use Rattle.facet_solver_shape.specs.Names.{names_of};
ghost use Rattle.facet_solver.specs.build.Nested.{Under, paths_of_each, with_paths_behind};
ghost use Rattle.facet_solver.specs.build.NestedLevels.{names_left};
ghost use Rattle.facet_solver.specs.build.NestedNames.{AreRising, NamesLead, paths_of_names};
ghost use Rattle.facet_solver.specs.build.NestedTable.{is_filled, LeadEarlier, LeadTo, EntriesStandFor, paths_by_name};

use crate::build::draft::Draft;
use crate::build::nested::by_name::{FieldsByName, add_copies};
use crate::build::nested::names_left::{Level, NamesLeft};
use crate::build::nested::table::NestedTable;
use facet_solver_shape::{KeyPath, ShapeId};
use std::alloc::{AllocError, Global};
use std::mem;

impl<'c> NestedTable<'c> {
    /// Adds the key paths that fields stand for, each behind a name. After an error some of them may
    /// have been added.
    pub(crate) fn add_behind(
        &self,
        alloc: Global,
        name: &'c str,
        fields: &FieldsByName<'c>,
        resolution: &mut Draft<'c>,
    ) -> Result<(), AllocError>
        requires earlier { LeadEarlier self.now.by_index.items }
        requires filled { LeadTo (is_filled self.now.by_index.items) fields.now }
        ensures { OnOk result ((under : Under) → EntriesStandFor under self.now.by_index.items
            → resolution.new ≡ with_paths_behind resolution.old (name.now ∷ [])
            (paths_by_name under fields.now)) }
    {
        let mut prefix = Vec::with_capacity(alloc, 2)?;
        prefix.push(name)?;
        self.add_paths(alloc, &mut prefix, fields, resolution)
    }

    /// Adds the key paths that fields stand for, each behind a prefix, which stays: the last in
    /// their order first, since a set finds the place of a path soonest that comes before all it
    /// has. It goes from name to name in a loop, since structs nest as deep as a catalogue. After
    /// an error some of the paths may have been added, and the prefix may be longer.
    pub(crate) fn add_paths(
        &self,
        alloc: Global,
        prefix: &mut KeyPath<'c>,
        fields: &FieldsByName<'c>,
        resolution: &mut Draft<'c>,
    ) -> Result<(), AllocError>
        requires earlier { LeadEarlier self.now.by_index.items }
        requires filled { LeadTo (is_filled self.now.by_index.items) fields.now }
        ensures prefix { OnOk result (prefix.new.items ≡ prefix.old.items) }
        ensures paths { OnOk result ((under : Under) → EntriesStandFor under self.now.by_index.items
            → resolution.new ≡ with_paths_behind resolution.old (names_of prefix.old.items)
            (paths_by_name under fields.now)) }
    {
        let mut names = NamesLeft::of_entry(fields);
        let mut outer = Vec::new(alloc);
        loop {
            if let Some((name, shapes)) = names.take_last() {
                prefix.push(name)?;
                if let Some(under) = self.names_under(alloc, shapes.as_slice())? {
                    let beside = mem::replace(&mut names, under);
                    outer.push(Level { name, beside })?;
                    continue;
                }
            } else if let Some(level) = outer.pop() {
                names = level.beside;
            } else {
                return Ok(());
            }
            resolution.add_key_path(Vec::from_slice(alloc, prefix)?)?;
            prefix.pop();
        }
    }

    /// The names under shapes, if there are shapes. Those of several shapes are taken together
    /// first, so that each key path is made once.
    fn names_under(
        &self,
        alloc: Global,
        shapes: &[ShapeId],
    ) -> Result<Option<NamesLeft<'_, 'c>>, AllocError>
        requires earlier { LeadEarlier self.now.by_index.items }
        requires filled { AllByRecursion (λ id. is_filled self.now.by_index.items id ≡ true)
            shapes.now }
        ensures none { IfOk result (λ names. IfNone names (shapes.now ≡ [])) }
        ensures paths { IfOk result (λ names. IfSome names (λ names.
            (under : Under) → EntriesStandFor under self.now.by_index.items
            → paths_of_names under (names_left names) ≡ paths_of_each under shapes.now)) }
        ensures lead { IfOk result (λ names. IfSome names (λ names.
            (limit : ℕ) → AllByRecursion (λ id. id ≤ limit) shapes.now
            → NamesLead (λ t. nat_lt t limit && is_filled self.now.by_index.items t)
            (names_left names))) }
        ensures some { IfOk result (λ names. IfSome names (λ names. 0 < length shapes.now)) }
        ensures rise { IfOk result (λ names. IfSome names (λ names. AreRising (names_left names))) }
    {
        match shapes {
            [] => Ok(None),
            [only] => Ok(Some(NamesLeft::of_entry(self.under(*only)))),
            _ => {
                let together = self.fields_under(alloc, shapes)?;
                Ok(Some(NamesLeft::together(together)))
            }
        }
    }

    /// The fields under shapes, taken together.
    fn fields_under(
        &self,
        alloc: Global,
        shapes: &[ShapeId],
    ) -> Result<FieldsByName<'c>, AllocError>
        requires earlier { LeadEarlier self.now.by_index.items }
        requires filled { AllByRecursion (λ id. is_filled self.now.by_index.items id ≡ true)
            shapes.now }
        ensures paths { IfOk result (λ fields.
            (under : Under) → EntriesStandFor under self.now.by_index.items
            → paths_by_name under fields ≡ paths_of_each under shapes.now) }
        ensures lead { IfOk result (λ fields.
            (limit : ℕ) → AllByRecursion (λ id. id ≤ limit) shapes.now
            → LeadTo (λ t. nat_lt t limit && is_filled self.now.by_index.items t) fields) }
    {
        let mut gathered = Vec::new(alloc);
        for shape in shapes {
            add_copies(alloc, self.under(*shape), &mut gathered)?;
        }
        FieldsByName::new(alloc, gathered)
    }
}

/// The key path of one name.
pub(crate) fn one_name_path<'c>(alloc: Global, name: &'c str) -> Result<KeyPath<'c>, AllocError>
    ensures { IfOk result (λ path. map (λ n. n.now) path.items ≡ name.now ∷ []) }
{
    Vec::from_slice(alloc, &[name])
}
