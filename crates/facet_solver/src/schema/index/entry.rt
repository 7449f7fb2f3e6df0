//! The resolutions that have a key.
ghost use Rattle.std.specs.Prelude.{◌≡◌, ◌<◌, ℕ, false, IfOk, MatchOption, OnOk, Some};
ghost use Rattle.std.specs.Option.{option_copied};
ghost use Rattle.facet_solver.specs.schema.IndexEntries.{AreSelecting, HasBound, IsAfter, agreed, entry_of_one, holds, selects_in, shapes_with};

use crate::schema::index::few_shapes::FewShapes;
use crate::schema::index::selected::Selected;
use crate::set::ResolutionSet;
use facet_solver_shape::ShapeId;
use std::alloc::{AllocError, Global};
use std::fmt;

/// A field of a resolution: the index of the resolution, how many resolutions there are, the shape
/// of the field, and the variant that it selects, if it selects one.
#[derive(Clone, Copy)]
pub(crate) struct Occurrence<'c> {
    pub(crate) index: usize,
    pub(crate) bound: usize,
    pub(crate) shape: ShapeId,
    pub(crate) variant: Option<&'c str>,
}

/// The resolutions that have a key.
#[derive(Drop)]
pub(crate) struct Entry<'c> {
    /// Their indices.
    pub(crate) set: ResolutionSet,
    /// The shape of the field that the key means, where they agree on it.
    pub(crate) shape: Option<ShapeId>,
    /// The shapes of these fields where they do not agree, as long as they are few.
    pub(crate) shapes: FewShapes,
    /// The variants that these fields select, so that no resolution is asked for its own.
    pub(crate) selected: Selected<'c>,
}

/// Printed as a derived impl would, without what the resolutions have: the shapes and the variants.
impl fmt::Debug for Entry<'_> {
    fn fmt<W: fmt::Write>(&self, f: &mut fmt::Formatter<W>) -> fmt::Result {
        f.debug_struct("Entry")
            .field("set", &self.set)
            .field("shape", &self.shape)
            .finish()
    }
}

impl<'c> Entry<'c> {
    /// The entry of one resolution.
    pub(super) fn of_one(alloc: Global, at: &Occurrence<'c>) -> Result<Self, AllocError>
        requires { at.now.index < at.now.bound }
        ensures { IfOk result (λ entry. entry ≡ entry_of_one at.now) }
    {
        let mut set = ResolutionSet::empty(alloc, at.bound)?;
        set.insert(at.index);
        Ok(Entry {
            set,
            shape: Some(at.shape),
            shapes: FewShapes::new(alloc),
            selected: Selected::Same(at.variant),
        })
    }

    /// Adds a resolution. Of one that is here the field that came first is meant.
    pub(super) fn add(&mut self, alloc: Global, at: &Occurrence<'c>) -> Result<(), AllocError>
        requires index { at.now.index < at.now.bound }
        requires bound { HasBound at.now.bound (Some self.old) }
        ensures { OnOk result (IsAfter self.old at.now self.new) }
    {
        if self.set.contains(at.index) {
            return Ok(());
        }
        self.selected.add(alloc, &self.set, at)?;
        self.add_shape(at.shape)?;
        self.set.insert(at.index);
        Ok(())
    }

    /// Adds the shape of a field.
    fn add_shape(&mut self, shape: ShapeId) -> Result<(), AllocError>
        ensures { OnOk result (self.new ≡ record self.old {
          shape = agreed self.old.shape shape;
          shapes = shapes_with self.old.shape self.old.shapes shape;
        }) }
    {
        let Some(agreed) = self.shape else {
            return self.shapes.add(shape);
        };
        if agreed != shape {
            self.shapes.add(agreed)?;
            self.shapes.add(shape)?;
            self.shape = None;
        }
        Ok(())
    }

    /// The resolutions whose fields select a variant, and others that make up with them those whose
    /// fields select no other. There are none where no field selects it.
    pub(crate) fn selecting(&self, variant: &str) -> Option<(&ResolutionSet, &ResolutionSet)>
        requires { HasBound self.now.set.bound (Some self.now) }
        ensures { MatchOption result
            ((i : ℕ) → selects_in self.now (Some variant.now) i ≡ false)
            (λ found. AreSelecting variant.now self.now found.0.now found.1.now) }
    {
        match &self.selected {
            Selected::Same(Some(name)) if *name == variant => Some((&self.set, &self.set)),
            Selected::Same(_) => None,
            Selected::Different(sets) => Some((sets.named.get(variant)?, &sets.without)),
        }
    }
}

/// Whether an entry has a resolution. Where there is no entry, no resolution has the key.
pub(crate) fn holds(entry: Option<&Entry<'_>>, index: usize) -> bool
    ensures { result ≡ holds (option_copied entry.entry) index }
{
    match entry {
        Some(entry) => entry.set.contains(index),
        None => false,
    }
}
