//! The shapes and lists that are marked.
ghost use Rattle.std.specs.Prelude.{◌≡◌, ℕ, length, All, IfOk, OnOk, MatchOption, map};
ghost use Rattle.facet_solver_reader.specs.Marks.{AreNoMarks, ContentIsMarked, EndIsMarked, PartIsMarked, TargetIsMarked};
ghost use Rattle.facet_solver_reader.specs.Marks.{AreKept, AreAdded, HasChoiceAt, ListIsMarked, NumberIsMarked, ShapeIsMarked};
ghost use Rattle.facet_solver_reader.specs.Met.{ContentIsMet, EndIsMet, IfChosen, NumberIsMet, PartIsMet, ShapeIsMet, StayMet, TargetIsMet};
ghost use Rattle.facet_solver_reader.specs.Slots.{index_of};
ghost use Rattle.facet_solver_reader.specs.declared.tables.every.EveryList.{EveryList as Every};
ghost use Rattle.facet_solver_shape.specs.Catalogues.{Catalogue};
ghost use Rattle.facet_solver_reader.specs.Views.{alternative_view, content_view, end_view, list_view, named_view, part_view, parts_view, target_view};

use super::every::EveryList;
use crate::content::content_at;
use crate::end::{Alternative, Content, End, NamedVariant};
use crate::part::{CatchAll, ListId, Part, Target};
use crate::types::Types;
use facet_solver_shape::ShapeId;
use std::alloc::{AllocError, Global};

/// What is marked.
#[derive(Clone, Copy, Debug)]
pub(super) enum Marked {
    Shape(ShapeId),
    /// A list, by its number.
    List(usize),
}

/// The shapes and lists that are marked.
#[derive(Debug, Drop)]
pub(super) struct Marks {
    /// Whether a shape is marked, by its index.
    pub(super) shapes: Vec<bool>,
    /// Whether a list is marked, by its number.
    pub(super) lists: Vec<bool>,
    /// What is marked, in the order in which it was.
    pub(super) order: Vec<Marked>,
}

impl Marks {
    /// No marks, of so many shapes and lists.
    pub(super) fn new(alloc: Global, shapes: usize, lists: usize) -> Result<Marks, AllocError>
        ensures { IfOk result (AreNoMarks shapes lists) }
    {
        Ok(Marks {
            shapes: vec![in alloc; false; shapes]?,
            lists: vec![in alloc; false; lists]?,
            order: Vec::new(alloc),
        })
    }

    /// Marks a shape.
    pub(super) fn mark_shape(&mut self, id: ShapeId) -> Result<(), AllocError>
        ensures kept { OnOk result (AreKept self.old self.new) }
        ensures lists { OnOk result (self.new.lists ≡ self.old.lists) }
        ensures marked { OnOk result (ShapeIsMarked self.new id) }
        ensures met { OnOk result ((shapes : Catalogue) (every : Every) → StayMet shapes every
            self.old self.new (λ strict root. ShapeIsMet shapes strict root id)) }
    {
        let index = id.index();
        if index < self.shapes.len() && !self.shapes[index] {
            self.shapes[index] = true;
            self.order.push(Marked::Shape(id))?;
        }
        Ok(())
    }

    /// Marks a list of a number, which has a choice.
    fn mark_number(&mut self, every: &EveryList<'_>, number: usize) -> Result<(), AllocError>
        requires { HasChoiceAt every.now number }
        ensures added { OnOk result (AreAdded every.now self.old self.new) }
        ensures marked { OnOk result (NumberIsMarked self.new number) }
        ensures met { OnOk result ((shapes : Catalogue) → StayMet shapes every.now self.old self.new
            (λ strict root. NumberIsMet shapes every.now strict root number)) }
    {
        if number < self.lists.len() && !self.lists[number] {
            self.lists[number] = true;
            self.order.push(Marked::List(number))?;
        }
        Ok(())
    }

    /// Marks a list, if some choice has it.
    fn mark_list(&mut self, every: &EveryList<'_>, id: &ListId) -> Result<(), AllocError>
        ensures added { OnOk result (AreAdded every.now self.old self.new) }
        ensures marked { OnOk result (ListIsMarked every.now self.new (list_view id.now)) }
        ensures met { OnOk result ((shapes : Catalogue) → StayMet shapes every.now self.old self.new
            (λ strict root. IfChosen shapes strict root (list_view id.now))) }
    {
        match chosen_number(every, id) {
            Some(number) => self.mark_number(every, number),
            None => Ok(()),
        }
    }

    /// Marks shapes.
    fn mark_shapes(&mut self, shapes: &[ShapeId]) -> Result<(), AllocError>
        ensures kept { OnOk result (AreKept self.old self.new) }
        ensures lists { OnOk result (self.new.lists ≡ self.old.lists) }
        ensures marked { OnOk result (All (ShapeIsMarked self.new) shapes.now) }
        ensures met { OnOk result ((all : Catalogue) (every : Every) → StayMet all every
            self.old self.new (λ strict root. All (ShapeIsMet all strict root) shapes.now)) }
    {
        for id in shapes {
            self.mark_shape(*id)?;
        }
        Ok(())
    }

    /// Marks lists, those that some choice has.
    fn mark_lists(&mut self, every: &EveryList<'_>, lists: &[ListId]) -> Result<(), AllocError>
        ensures added { OnOk result (AreAdded every.now self.old self.new) }
        ensures marked { OnOk result
            (All (ListIsMarked every.now self.new) (map list_view lists.now)) }
        ensures met { OnOk result ((shapes : Catalogue) → StayMet shapes every.now self.old self.new
            (λ strict root. All (IfChosen shapes strict root) (map list_view lists.now))) }
    {
        for list in lists {
            self.mark_list(every, list)?;
        }
        Ok(())
    }

    /// Marks what content leads to.
    fn mark_content(&mut self, every: &EveryList<'_>, content: &Content) -> Result<(), AllocError>
        ensures added { OnOk result (AreAdded every.now self.old self.new) }
        ensures marked { OnOk result
            (ContentIsMarked every.now self.new (content_view content.now)) }
        ensures met { OnOk result ((shapes : Catalogue) → StayMet shapes every.now self.old self.new
            (λ strict root. ContentIsMet shapes strict root (content_view content.now))) }
    {
        match content {
            Content::None => Ok(()),
            Content::Shape(id) => self.mark_shape(*id),
            Content::Tuple(shapes) => self.mark_shapes(shapes),
            Content::Object(list) => self.mark_list(every, list),
        }
    }

    /// Marks what a target leads to.
    fn mark_target<'c>(
        &mut self,
        alloc: Global,
        types: &Types<'c>,
        every: &EveryList<'c>,
        target: &Target<'c>,
    ) -> Result<(), AllocError>
        ensures added { OnOk result (AreAdded every.now self.old self.new) }
        ensures marked { OnOk result
            (TargetIsMarked types.now every.now self.new (target_view target.now)) }
        ensures met { OnOk result (StayMet types.now every.now self.old self.new
            (λ strict root. TargetIsMet types.now strict root (target_view target.now))) }
    {
        match target {
            Target::Shape(id) => self.mark_shape(*id),
            Target::Tag(_) => Ok(()),
            Target::Content(shape, variant) => {
                let content = content_at(alloc, types.shapes(), *shape, *variant)?;
                self.mark_content(every, &content)
            }
        }
    }

    /// Marks what variants that a document names lead to.
    fn mark_named<'c>(
        &mut self,
        alloc: Global,
        types: &Types<'c>,
        every: &EveryList<'c>,
        variants: &[NamedVariant<'c>],
    ) -> Result<(), AllocError>
        ensures added { OnOk result (AreAdded every.now self.old self.new) }
        ensures marked { OnOk result
            (All (λ v. TargetIsMarked types.now every.now self.new v.content)
            (map named_view variants.now)) }
        ensures met { OnOk result (StayMet types.now every.now self.old self.new
            (λ strict root. All (λ v. TargetIsMet types.now strict root v.content)
            (map named_view variants.now))) }
    {
        for variant in variants {
            self.mark_target(alloc, types, every, &variant.content)?;
        }
        Ok(())
    }

    /// Marks what variants that read a value by themselves lead to.
    fn mark_alone<'c>(
        &mut self,
        alloc: Global,
        types: &Types<'c>,
        every: &EveryList<'c>,
        alone: &[Alternative<'c>],
    ) -> Result<(), AllocError>
        ensures added { OnOk result (AreAdded every.now self.old self.new) }
        ensures marked { OnOk result
            (All (λ a. TargetIsMarked types.now every.now self.new a.content)
            (map alternative_view alone.now)) }
        ensures met { OnOk result (StayMet types.now every.now self.old self.new
            (λ strict root. All (λ a. TargetIsMet types.now strict root a.content)
            (map alternative_view alone.now))) }
    {
        for alternative in alone {
            self.mark_target(alloc, types, every, &alternative.content)?;
        }
        Ok(())
    }

    /// Marks what an end leads to.
    pub(super) fn mark_end<'c>(
        &mut self,
        alloc: Global,
        types: &Types<'c>,
        every: &EveryList<'c>,
        end: &End<'c>,
    ) -> Result<(), AllocError>
        ensures added { OnOk result (AreAdded every.now self.old self.new) }
        ensures marked { OnOk result
            (EndIsMarked types.now every.now self.new (end_view end.now)) }
        ensures met { OnOk result (StayMet types.now every.now self.old self.new
            (λ strict root. EndIsMet types.now strict root (end_view end.now))) }
    {
        match end {
            End::Option(id) | End::List(id) | End::Map(_, id) => self.mark_shape(*id),
            End::Tuple(shapes) => self.mark_shapes(shapes),
            End::Object(list) => self.mark_list(every, list),
            End::NamedVariant(variants) => self.mark_named(alloc, types, every, variants),
            End::UntaggedVariant(joined, alone) => {
                self.mark_list(every, joined)?;
                self.mark_alone(alloc, types, every, alone)
            }
            End::Null
            | End::Truth
            | End::Whole(_)
            | End::Float
            | End::Text
            | End::Character
            | End::Anything => Ok(()),
        }
    }

    /// Marks what a part leads to.
    fn mark_part<'c>(
        &mut self,
        alloc: Global,
        types: &Types<'c>,
        every: &EveryList<'c>,
        part: &Part<'c>,
    ) -> Result<(), AllocError>
        ensures added { OnOk result (AreAdded every.now self.old self.new) }
        ensures marked { OnOk result
            (PartIsMarked types.now every.now self.new (part_view part.now)) }
        ensures met { OnOk result (StayMet types.now every.now self.old self.new
            (λ strict root. PartIsMet types.now strict root (part_view part.now))) }
    {
        match part {
            Part::Member(member) => self.mark_target(alloc, types, every, &member.target),
            Part::Selection(selection) => self.mark_lists(every, &selection.branches),
            Part::CatchAll(catch_all) => match catch_all {
                CatchAll::Map(_, value) => self.mark_shape(*value),
                CatchAll::Anything => Ok(()),
            },
        }
    }

    /// Marks what parts lead to.
    pub(super) fn mark_parts<'c>(
        &mut self,
        alloc: Global,
        types: &Types<'c>,
        every: &EveryList<'c>,
        parts: &[Part<'c>],
    ) -> Result<(), AllocError>
        ensures added { OnOk result (AreAdded every.now self.old self.new) }
        ensures marked { OnOk result
            (All (PartIsMarked types.now every.now self.new) (parts_view parts.now)) }
        ensures met { OnOk result (StayMet types.now every.now self.old self.new
            (λ strict root. All (PartIsMet types.now strict root) (parts_view parts.now))) }
    {
        for part in parts {
            self.mark_part(alloc, types, every, part)?;
        }
        Ok(())
    }
}

/// The number of a list, if some choice has it.
fn chosen_number(every: &EveryList<'_>, id: &ListId) -> Option<usize>
    ensures { MatchOption result
        ((k : ℕ) → index_of every.now.numbers (list_view id.now) ≡ Some k
        → HasChoiceAt every.now k → ⊥)
        (λ number. (index_of every.now.numbers (list_view id.now) ≡ Some number)
        × HasChoiceAt every.now number) }
{
    let number = every.numbers.index_of(*id)?;
    let list = every.lists.get(number)?;
    if list.has_choice { Some(number) } else { None }
}
