//! Which declarations others mention.
ghost use Rattle.std.specs.Prelude.{◌≡◌, IfOk, slice_set, true};
ghost use Rattle.facet_solver_types.specs.Links.{links_view};
ghost use Rattle.facet_solver_types.specs.Mentioned.{AddsMarks, AreMentioned};
ghost use Rattle.facet_solver_types.specs.Roots.{is_among, is_mentioned};

use std::alloc::{AllocError, Global};

/// Which declarations each of some mentions, by their indices.
#[derive(Drop)]
pub(super) struct Mentioned {
    pub(super) links: Vec<Vec<usize>>,
    /// For each of them whether another mentions it.
    marks: Vec<bool>,
    ghost marked: { AreMentioned (links_view links.items) marks.items },
}

/// Whether an index is among some.
fn is_among(indices: &[usize], index: usize) -> bool
    ensures { result ≡ is_among indices.now index }
{
    indices.iter().any(|other| *other == index)
}

/// Whether the declaration at an index is mentioned by another.
fn is_mentioned(links: &[Vec<usize>], index: usize) -> bool
    ensures { result ≡ is_mentioned (links_view links.now) index }
{
    for (other, found) in links.iter().enumerate() {
        if other != index && is_among(found, index) {
            return true;
        }
    }
    false
}

/// Marks an index, if there is a mark for it.
fn mark(marks: &mut [bool], index: usize)
    ensures { marks.new ≡ slice_set marks.old index true }
{
    if index < marks.len() {
        marks[index] = true;
    }
}

/// Marks those of some indices that are other than one.
fn mark_others(marks: &mut [bool], by: usize, indices: &[usize])
    ensures { AddsMarks marks.old marks.new by indices.now }
{
    for index in indices {
        if *index != by {
            mark(marks, *index);
        }
    }
}

/// For each of some declarations whether another mentions it.
fn marks(alloc: Global, links: &[Vec<usize>]) -> Result<Vec<bool>, AllocError>
    ensures { IfOk result (λ marks. AreMentioned (links_view links.now) marks.items) }
{
    let mut marks = vec![in alloc; false; links.len()]?;
    for (by, indices) in links.iter().enumerate() {
        mark_others(&mut marks, by, indices);
    }
    Ok(marks)
}

impl Mentioned {
    /// The declarations that each mentions, where those are marked that another does.
    pub(super) fn new(alloc: Global, links: Vec<Vec<usize>>) -> Result<Self, AllocError>
        ensures { IfOk result (λ mentioned. mentioned.links.items ≡ links.items) }
    {
        let marks = marks(alloc, &links)?;
        Ok(Mentioned { links, marks })
    }

    /// Whether the declaration at an index is mentioned by another. Only of indices where there is
    /// no declaration none is marked.
    pub(super) fn is_mentioned(&self, index: usize) -> bool
        ensures { result ≡ is_mentioned (links_view self.now.links.items) index }
    {
        match self.marks.get(index) {
            Some(mark) => *mark,
            None => is_mentioned(&self.links, index),
        }
    }
}
