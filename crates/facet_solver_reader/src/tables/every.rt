//! Every list of parts of a catalogue, with its parts and whether it has a choice.
ghost use Rattle.std.specs.Prelude.{◌≡◌, ◌↔◌, ◌<◌, None, IfOk, IsTrue, length};
ghost use Rattle.std.specs.List.{list_any};
ghost use Rattle.facet_solver_shape.specs.Catalogues.{Catalogue};
ghost use Rattle.facet_solver_reader.specs.EveryList.{AreEveryList, IsChosen};
ghost use Rattle.facet_solver_reader.specs.Listing.{AreListsAdded, AreFound, AreListed};
ghost use Rattle.facet_solver_reader.specs.Listing.{AreTried, IsTried, has_choice};
ghost use Rattle.facet_solver_reader.specs.Listing.{part_has_choice, parts_have_choices};
ghost use Rattle.facet_solver_reader.specs.ListShapes.{shape_of};
ghost use Rattle.facet_solver_reader.specs.Parts as parts;
ghost use Rattle.facet_solver_reader.specs.Slots.{IsOfCatalogue, index_of};
ghost use Rattle.facet_solver_reader.specs.Views.{list_view};

use super::slots::Slots;
use crate::part::{ListId, Part};
use crate::parts::parts_of;
use crate::types::Types;
use crate::variants::variants_at;
use facet_solver_shape::ShapeId;
use std::alloc::{AllocError, Global};

/// A list of parts.
#[derive(Debug, Drop)]
pub(super) struct Listed<'c> {
    pub(super) id: ListId,
    pub(super) parts: Vec<Part<'c>>,
    /// Whether some choice has it.
    pub(super) has_choice: bool,
}

/// Every list of a catalogue that reads objects.
#[derive(Debug, Drop)]
pub(super) struct EveryList<'c> {
    pub(super) lists: Vec<Listed<'c>>,
    pub(super) numbers: Slots,
}

impl<'c> EveryList<'c> {
    /// Those of a catalogue. An error tells that memory was refused.
    pub(super) fn new(alloc: Global, types: &Types<'c>) -> Result<EveryList<'c>, AllocError>
        ensures { IfOk result (λ every. AreEveryList types.now every) }
    {
        let mut every = EveryList::listed(alloc, types)?;
        every.find_choices();
        Ok(every)
    }

    /// Those of a catalogue, before any is found to have a choice.
    fn listed(alloc: Global, types: &Types<'c>) -> Result<EveryList<'c>, AllocError>
        ensures { IfOk result (λ every. AreFound types.now every) }
    {
        let shapes = types.shapes();
        let numbers = Slots::new(alloc, shapes)?;
        let mut every = EveryList {
            lists: Vec::new(alloc),
            numbers,
        };
        for index in 0..shapes.len() {
            every.add_shape(alloc, types, ShapeId::new(index))?;
        }
        Ok(every)
    }

    /// Adds the lists of a shape, those of branches first.
    fn add_shape(
        &mut self,
        alloc: Global,
        types: &Types<'c>,
        shape: ShapeId,
    ) -> Result<(), AllocError>
        requires listed { AreListed types.now self.old }
        requires free { (q : parts.ListId) → shape_of q ≡ shape
            → index_of self.old.numbers q ≡ None }
        requires known { shape < length types.now }
        ensures { IfOk result (λ u.
            AreListsAdded types.now self.old self.new (λ q. shape_of q ≡ shape)) }
    {
        self.add(alloc, types, &ListId::Struct(shape))?;
        for variant in 0..variants_at(types.shapes(), shape).len() {
            self.add(alloc, types, &ListId::Branch(shape, variant))?;
            self.add(alloc, types, &ListId::Fields(shape, variant))?;
        }
        self.add(alloc, types, &ListId::Enum(shape))?;
        self.add(alloc, types, &ListId::Joined(shape))
    }

    /// Adds a list, if it has parts.
    fn add(&mut self, alloc: Global, types: &Types<'c>, id: &ListId) -> Result<(), AllocError>
        requires listed { AreListed types.now self.old }
        requires free { index_of self.old.numbers (list_view id.now) ≡ None }
        requires known { IsOfCatalogue types.now (list_view id.now) }
        ensures { IfOk result (λ u.
            AreListsAdded types.now self.old self.new (λ q. q ≡ list_view id.now)) }
    {
        if let Some(parts) = parts_of(alloc, types, *id)? {
            let number = self.lists.len();
            self.lists.push(Listed {
                id: *id,
                parts,
                has_choice: false,
            })?;
            self.numbers.set(*id, number);
        }
        Ok(())
    }

    /// Whether some choice has a list.
    pub(super) fn has_choice(&self, id: ListId) -> bool
        ensures told { result ≡ has_choice self.now (list_view id) }
        ensures chosen { (shapes : Catalogue) → AreEveryList shapes self.now
            → (IsTrue result ↔ IsChosen shapes (list_view id)) }
    {
        match self.numbers.index_of(id) {
            Some(number) => match self.lists.get(number) {
                Some(list) => list.has_choice,
                None => false,
            },
            None => false,
        }
    }

    /// Finds which lists have a choice. Round by round, until one finds no more.
    fn find_choices(&mut self)
        ensures { (shapes : Catalogue) → AreFound shapes self.old → AreEveryList shapes self.new }
    {
        while self.find_more_choices() {}
    }

    /// Marks each list whose parts all have a choice, as far as is found. Whether it marked one.
    fn find_more_choices(&mut self) -> bool
        ensures { AreTried self.old result self.new }
    {
        let mut has_more = false;
        for number in 0..self.lists.len() {
            if self.find_choice(number) {
                has_more = true;
            }
        }
        has_more
    }

    /// Marks a list if its parts all have a choice, as far as is found. Whether it marked it.
    fn find_choice(&mut self, number: usize) -> bool
        requires { number < length self.old.lists.items }
        ensures { IsTried self.old number result self.new }
    {
        if self.lists[number].has_choice || !self.parts_have_choices(&self.lists[number].parts) {
            return false;
        }
        self.lists[number].has_choice = true;
        true
    }

    /// Whether each part has a choice, as far as is found.
    fn parts_have_choices(&self, parts: &[Part<'c>]) -> bool
        ensures { result ≡ parts_have_choices self.now parts.now }
    {
        parts.iter().all(|part| self.part_has_choice(part))
    }

    /// Whether a part has one: a selection has, if it may be absent or a branch has.
    fn part_has_choice(&self, part: &Part<'c>) -> bool
        ensures { result ≡ part_has_choice self.now part.now }
    {
        match part {
            Part::Member(_) | Part::CatchAll(_) => true,
            Part::Selection(selection) => {
                selection.optional || self.some_has_choice(&selection.branches)
            }
        }
    }

    /// Whether some list has one.
    fn some_has_choice(&self, ids: &[ListId]) -> bool
        ensures { result ≡ list_any (λ id. has_choice self.now (list_view id)) ids.now }
    {
        ids.iter().any(|id| self.has_choice(*id))
    }
}
