//! The lists that are reached, in an order in which those of branches come first.
ghost use Rattle.std.specs.Prelude.{◌≡◌, ◌<◌, ℕ, All, Any, false, IfErr, IfOk, IsTrue, MatchOption, None, OnOk, Some, length};
ghost use Rattle.std.specs.Option.{option_map};
ghost use Rattle.facet_solver_shape.specs.Catalogues.{Catalogue};
ghost use Rattle.facet_solver_reader.specs.EveryList.{AreEveryList, IsChosen};
ghost use Rattle.facet_solver_reader.specs.OrderedLists.{AreMarksClosed, AreOrdered, IsAbout, IsMarkedList, IsWhyUnordered};
ghost use Rattle.facet_solver_reader.specs.declared.tables.every.EveryList as all;
ghost use Rattle.facet_solver_reader.specs.Placing.{Marks, IsLeft, IsNext, IsPlaceable, IsOneMore, IsPlacing, IsStuck, IsPlacedSoFar, IsUnplaced, PartIsPlaced, PartIsStuck, entry_of, unplaced};
ghost use Rattle.facet_solver_reader.specs.Slots.{HasSlot};
ghost use Rattle.facet_solver_reader.specs.Views.{list_view, part_view, parts_view};

use super::List;
use super::every::EveryList;
use super::fault::Fault;
use super::names::{name_selections, names_of, takes_rest};
use super::slots::Slots;
use crate::part::{ListId, Part, Selection};
use crate::parts::parts_of;
use crate::types::Types;
use std::alloc::{AllocError, Global};

/// The lists in order, and the index of each.
#[derive(Debug, Drop)]
pub(super) struct Ordered<'c> {
    pub(super) lists: Vec<List<'c>>,
    pub(super) slots: Slots,
}

/// The lists that are marked, in order. An error tells why there is none.
pub(super) fn in_order<'c>(
    alloc: Global,
    types: &Types<'c>,
    every: &EveryList<'c>,
    marks: &[bool],
) -> Result<Ordered<'c>, Fault<'c>>
    requires listed { AreEveryList types.now every.now }
    requires closed { AreMarksClosed types.now every.now marks.now }
    ensures ok { IfOk result (AreOrdered types.now every.now marks.now) }
    ensures err { IfErr result (IsWhyUnordered types.now) }
    ensures about { IfErr result (IsAbout (IsMarkedList every.now marks.now)) }
{
    let mut ordered = Ordered::new(alloc, types, marked_count(marks))?;
    // In place of `?`, for which no proof is generated at an error of this type.
    if let Err(fault) = ordered.place_all(alloc, types, every, marks) {
        return Err(fault);
    }
    if let Some(number) = ordered.first_left(every, marks) {
        return Err(Fault::ContainsItself(every.lists[number].id));
    }
    Ok(ordered)
}

/// How many lists are marked.
fn marked_count(marks: &[bool]) -> usize {
    marks.iter().filter(|is_marked| **is_marked).count()
}

impl<'c> Ordered<'c> {
    /// No lists, with room for so many.
    fn new(alloc: Global, types: &Types<'c>, room: usize) -> Result<Ordered<'c>, AllocError>
        ensures { IfOk result (λ ordered. (every : all.EveryList) (marks : Marks)
            → IsPlacedSoFar types.now every marks ordered) }
    {
        let slots = Slots::new(alloc, types.shapes())?;
        let lists = Vec::with_capacity(alloc, room)?;
        Ok(Ordered { lists, slots })
    }

    /// A list, if it is placed.
    pub(super) fn entry(&self, id: ListId) -> Option<&List<'c>>
        ensures { option_map (λ l. l.now) result ≡ entry_of self.now (list_view id) }
    {
        self.lists.get(self.slots.index_of(id)?)
    }

    /// The number of the first list that is marked and not placed.
    fn first_left(&self, every: &EveryList<'c>, marks: &[bool]) -> Option<usize>
        requires { length marks.now ≡ length every.now.lists.items }
        ensures { MatchOption result
            ((number : ℕ) → ¬ IsLeft every.now marks.now self.now number)
            (λ number. IsLeft every.now marks.now self.now number) }
    {
        for number in 0..every.lists.len() {
            if self.is_left(every, marks, number) {
                return Some(number);
            }
        }
        None
    }

    /// Whether a list is marked and not placed.
    fn is_left(&self, every: &EveryList<'c>, marks: &[bool], number: usize) -> bool
        requires in_range { number < length every.now.lists.items }
        requires marks { length marks.now ≡ length every.now.lists.items }
        ensures left { IsTrue result → IsLeft every.now marks.now self.now number }
        ensures other { result ≡ false → ¬ IsLeft every.now marks.now self.now number }
    {
        marks[number] && self.slots.index_of(every.lists[number].id).is_none()
    }

    /// Places lists, round by round, until a round places none.
    fn place_all(
        &mut self,
        alloc: Global,
        types: &Types<'c>,
        every: &EveryList<'c>,
        marks: &[bool],
    ) -> Result<(), Fault<'c>>
        requires listed { AreEveryList types.now every.now }
        requires closed { AreMarksClosed types.now every.now marks.now }
        requires under_way { IsPlacedSoFar types.now every.now marks.now self.old }
        ensures under_way { OnOk result (IsPlacedSoFar types.now every.now marks.now self.new) }
        ensures stuck { OnOk result
            ((number : ℕ) → IsStuck types.now every.now marks.now self.new number) }
        ensures err { IfErr result (IsWhyUnordered types.now) }
        ensures about { IfErr result (IsAbout (IsMarkedList every.now marks.now)) }
    {
        'rounds: loop {
            match self.place_more(alloc, types, every, marks) {
                Ok(true) => {}
                Ok(false) => return Ok(()),
                Err(fault) => return Err(fault),
            }
        }
    }

    /// Places each list whose branches are placed. Whether it placed one.
    fn place_more(
        &mut self,
        alloc: Global,
        types: &Types<'c>,
        every: &EveryList<'c>,
        marks: &[bool],
    ) -> Result<bool, Fault<'c>>
        requires listed { AreEveryList types.now every.now }
        requires closed { AreMarksClosed types.now every.now marks.now }
        requires under_way { IsPlacedSoFar types.now every.now marks.now self.old }
        ensures under_way { OnOk result (IsPlacedSoFar types.now every.now marks.now self.new) }
        ensures fewer { IfOk result (λ more. IsTrue more
            → unplaced every.now self.new < unplaced every.now self.old) }
        ensures stuck { IfOk result (λ more. more ≡ false
            → (number : ℕ) → IsStuck types.now every.now marks.now self.new number) }
        ensures err { IfErr result (IsWhyUnordered types.now) }
        ensures about { IfErr result (IsAbout (IsMarkedList every.now marks.now)) }
    {
        let mut has_more = false;
        for number in 0..every.lists.len() {
            if self.is_left(every, marks, number)
                && self.has_branches(every, &every.lists[number].parts)
            {
                match self.place(alloc, types, &every.lists[number].id) {
                    Ok(()) => has_more = true,
                    Err(fault) => return Err(fault),
                }
            }
        }
        Ok(has_more)
    }

    /// Whether each branch of parts is placed, if it has a choice.
    fn has_branches(&self, every: &EveryList<'c>, parts: &[Part<'c>]) -> bool
        ensures all { (shapes : Catalogue) → AreEveryList shapes every.now → IsTrue result
            → All (PartIsPlaced shapes self.now) (parts_view parts.now) }
        ensures some { (shapes : Catalogue) → AreEveryList shapes every.now → result ≡ false
            → Any (PartIsStuck shapes self.now) (parts_view parts.now) }
    {
        for part in parts {
            if !self.has_branches_of(every, part) {
                return false;
            }
        }
        true
    }

    /// Whether each branch of a part is placed, if it has a choice.
    fn has_branches_of(&self, every: &EveryList<'c>, part: &Part<'c>) -> bool
        ensures all { (shapes : Catalogue) → AreEveryList shapes every.now → IsTrue result
            → PartIsPlaced shapes self.now (part_view part.now) }
        ensures some { (shapes : Catalogue) → AreEveryList shapes every.now → result ≡ false
            → PartIsStuck shapes self.now (part_view part.now) }
    {
        if let Part::Selection(selection) = part {
            for branch in &selection.branches {
                if self.is_missing(every, branch) {
                    return false;
                }
            }
        }
        true
    }

    /// Whether a list has a choice and is not placed.
    fn is_missing(&self, every: &EveryList<'c>, id: &ListId) -> bool
        ensures missing { (shapes : Catalogue) → AreEveryList shapes every.now → IsTrue result
            → IsUnplaced shapes self.now (list_view id.now) }
        ensures other { (shapes : Catalogue) → AreEveryList shapes every.now → result ≡ false
            → ¬ IsUnplaced shapes self.now (list_view id.now) }
    {
        every.has_choice(*id) && self.slots.index_of(*id).is_none()
    }

    /// Places a list after those of its branches.
    fn place(&mut self, alloc: Global, types: &Types<'c>, id: &ListId) -> Result<(), Fault<'c>>
        requires placing { IsPlacing types.now self.old }
        requires unplaced { IsUnplaced types.now self.old (list_view id.now) }
        requires next { IsNext types.now self.old (list_view id.now) }
        requires slot { HasSlot self.old.slots (list_view id.now) }
        ensures placing { OnOk result (IsPlacing types.now self.new) }
        ensures more { OnOk result (IsOneMore self.old self.new (list_view id.now)) }
        ensures err { IfErr result (IsWhyUnordered types.now) }
        ensures about { IfErr result (IsAbout (λ q. q ≡ list_view id.now)) }
    {
        match self.list_of(alloc, types, id) {
            Ok(list) => {
                let index = self.lists.len();
                if self.lists.push(list).is_err() {
                    return Err(Fault::OutOfMemory);
                }
                self.slots.set(*id, index);
                Ok(())
            }
            Err(fault) => Err(fault),
        }
    }

    /// A list that is to be placed next.
    fn list_of(&self, alloc: Global, types: &Types<'c>, id: &ListId) -> Result<List<'c>, Fault<'c>>
        requires placing { IsPlacing types.now self.now }
        requires chosen { IsChosen types.now (list_view id.now) }
        requires next { IsNext types.now self.now (list_view id.now) }
        ensures ok { IfOk result (IsPlaceable types.now self.now (list_view id.now)) }
        ensures err { IfErr result (IsWhyUnordered types.now) }
        ensures about { IfErr result (IsAbout (λ q. q ≡ list_view id.now)) }
    {
        // A list that some choice has has parts.
        let mut parts = match parts_of(alloc, types, *id)? {
            Some(parts) => parts,
            None => Vec::new(alloc),
        };
        name_selections(alloc, self, &mut parts)?;
        let names = match names_of(alloc, self, *id, &parts) {
            Ok(names) => names,
            Err(fault) => return Err(fault),
        };
        let takes_rest = match takes_rest(self, *id, &parts) {
            Ok(takes_rest) => takes_rest,
            Err(fault) => return Err(fault),
        };
        let below = self.below(alloc, &parts)?;
        Ok(List {
            id: *id,
            parts,
            names,
            takes_rest,
            below,
        })
    }
}
