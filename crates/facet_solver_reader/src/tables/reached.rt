//! What a document that is read as a shape can come to.
ghost use Rattle.std.specs.Prelude.{◌≡◌, ◌<◌, All, Some, length, slice_get, slice_index_or, IfOk, OnOk, replicate, None};
ghost use Rattle.std.specs.Option.{IfSome};
ghost use Rattle.facet_solver_reader.specs.Ends.{LeadsInCircles};
ghost use Rattle.facet_solver_reader.specs.EveryList.{AreEveryList};
ghost use Rattle.facet_solver_reader.specs.Marks.{AreAdded, PartIsMarked};
ghost use Rattle.facet_solver_reader.specs.Met.{NumberIsMet, StayMet};
ghost use Rattle.facet_solver_reader.specs.Views.{parts_view};
ghost use Rattle.facet_solver_reader.specs.WorkList.{AreReached, HasEnd, IsGoneThrough};
ghost use Rattle.facet_solver_reader.specs.declared.tables.every.Listed.{Listed};

use super::every::EveryList;
use super::marks::{Marked, Marks};
use crate::end::{End, end_of};
use crate::ends::leads_in_circles;
use crate::types::Types;
use facet_solver_shape::{ShapeId, Shapes};
use std::alloc::{AllocError, Global};

/// The shapes and lists that are reached.
#[derive(Debug, Drop)]
pub(super) struct Reached<'c> {
    /// What each shape comes to that is reached, by its index.
    pub(super) ends: Vec<Option<End<'c>>>,
    /// What is reached.
    pub(super) marks: Marks,
}

impl<'c> Reached<'c> {
    /// What is reached from a root: whatever is marked is gone through, and marks what it leads to.
    pub(super) fn new(
        alloc: Global,
        types: &Types<'c>,
        every: &EveryList<'c>,
        root: ShapeId,
    ) -> Result<Reached<'c>, AllocError>
        requires { AreEveryList types.now every.now }
        ensures { IfOk result (AreReached types.now every.now root) }
    {
        let mut reached = Reached {
            ends: no_ends(alloc, types.shapes().len())?,
            marks: Marks::new(alloc, types.shapes().len(), every.lists.len())?,
        };
        reached.marks.mark_shape(root)?;
        let mut position = 0;
        while position < reached.marks.order.len() {
            match reached.marks.order[position] {
                Marked::Shape(id) => reached.go_through_shape(alloc, types, every, id)?,
                Marked::List(number) => reached.go_through_list(alloc, types, every, number)?,
            }
            position += 1;
        }
        Ok(reached)
    }

    /// Marks what a shape leads to.
    fn go_through_shape(
        &mut self,
        alloc: Global,
        types: &Types<'c>,
        every: &EveryList<'c>,
        id: ShapeId,
    ) -> Result<(), AllocError>
        requires { id < length self.old.ends.items }
        ensures { OnOk result (IsGoneThrough types.now every.now id self.old self.new) }
    {
        let end = end_of(alloc, types, id)?;
        self.marks.mark_end(alloc, types, every, &end)?;
        self.ends[id.index()] = Some(end);
        Ok(())
    }

    /// Marks what a list leads to.
    fn go_through_list(
        &mut self,
        alloc: Global,
        types: &Types<'c>,
        every: &EveryList<'c>,
        number: usize,
    ) -> Result<(), AllocError>
        requires { number < length every.now.lists.items }
        ensures added { OnOk result (AreAdded every.now self.old.marks self.new.marks) }
        ensures ends { OnOk result (self.new.ends ≡ self.old.ends) }
        ensures met { OnOk result (StayMet types.now every.now self.old.marks self.new.marks
            (λ strict root. NumberIsMet types.now every.now strict root number)) }
        ensures marked { OnOk result ((l : Listed) → slice_get every.now.lists.items number ≡ Some l
            → All (PartIsMarked types.now every.now self.new.marks) (parts_view l.parts.items)) }
    {
        self.marks
            .mark_parts(alloc, types, every, &every.lists[number].parts)
    }
}

/// No ends, of so many shapes.
fn no_ends<'c>(alloc: Global, shapes: usize) -> Result<Vec<Option<End<'c>>>, AllocError>
    ensures { IfOk result (λ ends. ends.items ≡ replicate shapes None) }
{
    let mut ends = Vec::with_capacity(alloc, shapes)?;
    for _ in 0..shapes {
        ends.push(None)?;
    }
    Ok(ends)
}

/// The first shape with an end whose way to it leads in circles.
pub(super) fn first_in_circles<'c>(shapes: &Shapes, ends: &Vec<Option<End<'c>>>) -> Option<ShapeId>
    ensures circles { IfSome result (LeadsInCircles shapes.now) }
    ensures reached { IfSome result (HasEnd ends.now.items) }
{
    for index in 0..ends.len() {
        let id = ShapeId::new(index);
        if ends[index].is_some() && leads_in_circles(shapes, id) {
            return Some(id);
        }
    }
    None
}
