//! Walks from type to type.
ghost use Rattle.std.specs.Prelude.{◌≡◌, ◌++◌, ◌∷◌, [], IfOk, OnOk, slice_set, true};
ghost use Rattle.facet_solver_types.specs.Links.{links_view};
ghost use Rattle.facet_solver_types.specs.Marks.{AreMarked};
ghost use Rattle.facet_solver_types.specs.Walks.{in_order, is_marked, is_placed, links_at, reach, reached, with_type};

use std::alloc::{AllocError, Global};

/// Where a type leads to.
pub(super) fn links_at(links: &[Vec<usize>], place: usize) -> &[usize]
    ensures { result.now ≡ links_at (links_view links.now) place }
{
    match links.get(place) {
        Some(found) => found.as_slice(),
        None => &[],
    }
}

/// Whether a place is marked.
pub(super) fn is_marked(marks: &[bool], place: usize) -> bool
    ensures { result ≡ is_marked marks.now place }
{
    match marks.get(place) {
        Some(mark) => *mark,
        None => false,
    }
}

/// Marks a place, if there is one.
fn mark(marks: &mut [bool], place: usize)
    ensures { marks.new ≡ slice_set marks.old place true }
{
    if place < marks.len() {
        marks[place] = true;
    }
}

/// Marks the types that are reached from a type, itself too, over so many others at the most. Those
/// that are marked were reached before.
fn reach(links: &[Vec<usize>], over: usize, marks: &mut [bool], place: usize)
    ensures { marks.new ≡ reach (links_view links.now) over marks.old place }
{
    if over == 0 || is_marked(marks, place) {
        return;
    }
    mark(marks, place);
    for next in links_at(links, place) {
        reach(links, over - 1, marks, *next);
    }
}

/// The marks of the types to which a type leads, itself or over others.
pub(super) fn reached(
    alloc: Global,
    links: &[Vec<usize>],
    place: usize,
) -> Result<Vec<bool>, AllocError>
    ensures { IfOk result (λ marks. marks.items ≡ reached (links_view links.now) place) }
{
    let mut marks = vec![in alloc; false; links.len()]?;
    for next in links_at(links, place) {
        reach(links, links.len(), &mut marks, *next);
    }
    Ok(marks)
}

/// Whether a place stands in an order.
fn is_placed(order: &[usize], place: usize) -> bool
    ensures { result ≡ is_placed order.now place }
{
    order.iter().any(|other| *other == place)
}

/// Types in an order, where those that stand in it are marked.
#[derive(Drop)]
struct Order {
    places: Vec<usize>,
    marks: Vec<bool>,
    ghost marked: { AreMarked places.items marks.items },
}

impl Order {
    /// No types, where there are so many.
    fn new(alloc: Global, count: usize) -> Result<Self, AllocError>
        ensures { IfOk result (λ order. order.places.items ≡ []) }
    {
        Ok(Order {
            places: Vec::new(alloc),
            marks: vec![in alloc; false; count]?,
        })
    }

    /// Whether a place stands in it. Only of places where there is no type none is marked.
    fn is_placed(&self, place: usize) -> bool
        ensures { result ≡ is_placed self.now.places.items place }
    {
        match self.marks.get(place) {
            Some(mark) => *mark,
            None => is_placed(&self.places, place),
        }
    }

    /// Adds a place.
    fn push(&mut self, place: usize) -> Result<(), AllocError>
        ensures { OnOk result (self.new.places.items ≡ self.old.places.items ++ place ∷ []) }
    {
        self.places.push(place)?;
        mark(&mut self.marks, place);
        Ok(())
    }
}

/// Adds a type to an order, after its needs, where it isn't there yet. These are added first, each
/// after its own, over so many others at the most.
fn add_type(
    needs: &[Vec<usize>],
    over: usize,
    order: &mut Order,
    place: usize,
) -> Result<(), AllocError>
    ensures { OnOk result (order.new.places.items
        ≡ with_type (links_view needs.now) over order.old.places.items place) }
{
    if over == 0 || order.is_placed(place) {
        return Ok(());
    }
    for need in links_at(needs, place) {
        add_type(needs, over - 1, order, *need)?;
    }
    order.push(place)?;
    Ok(())
}

/// Types in order: each after its needs.
pub(super) fn in_order(
    alloc: Global,
    needs: &[Vec<usize>],
    places: &[usize],
) -> Result<Vec<usize>, AllocError>
    ensures { IfOk result (λ order. order.items ≡ in_order (links_view needs.now) places.now) }
{
    let mut order = Order::new(alloc, needs.len())?;
    for place in places {
        add_type(needs, needs.len(), &mut order, *place)?;
    }
    let Order {
        places: found,
        marks: _,
    } = order;
    Ok(found)
}
