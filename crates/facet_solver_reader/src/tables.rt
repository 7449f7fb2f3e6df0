//! What a type says of documents, as tables.
ghost use Rattle.std.specs.Prelude.{IfErr, IfOk, ◌≡◌, IsSorted, MatchOption, Some, slice_get};
ghost use Rattle.facet_solver_shape.specs.Names.{name_ref_cmp};
ghost use Rattle.facet_solver_reader.specs.Known.{Chooses, HasChoice, named};
ghost use Rattle.facet_solver_reader.specs.NoTables.{IsWhyNoTables};
ghost use Rattle.facet_solver_reader.specs.Parts.{of_shape};
ghost use Rattle.facet_solver_reader.specs.Reached.{IsRanked};
ghost use Rattle.facet_solver_reader.specs.Tables.{AreTables, IsListOf, ListIsServed, ShapeIsServed, knows, rules_at};
ghost use Rattle.facet_solver_reader.specs.Views.{list_view};

mod below;
mod every;
mod fault;
mod marks;
mod names;
mod order;
mod ranks;
mod reached;
mod slots;
mod tags;

use crate::end::End;
use crate::nodes::{is_among, is_next_among};
use crate::part::{ListId, Part};
use crate::types::Types;
use every::EveryList;
use facet_solver_shape::{ShapeId, Shapes};
pub(crate) use fault::Fault;
use order::{Ordered, in_order};
use ranks::{Ranks, first_unranked};
use reached::{Reached, first_in_circles};
use slots::Slots;
use std::alloc::Global;
pub(crate) use tags::TagTable;
use tags::tags;

/// A list of parts that some choice has, and which names its choices have.
#[derive(Debug, Drop)]
pub(crate) struct List<'c> {
    pub(crate) id: ListId,
    pub(crate) parts: Vec<Part<'c>>,
    /// The names of the members of its choices, rising.
    pub(crate) names: Vec<&'c str>,
    /// Whether a choice has a catch-all.
    pub(crate) takes_rest: bool,
    /// The indices of the lists that its choices go through, rising: the last is its own.
    pub(crate) below: Vec<usize>,
}

impl List<'_> {
    /// Whether a choice has a member of the name.
    pub(crate) fn has_name(&self, name: &str) -> bool
        requires { IsSorted name_ref_cmp self.now.names.items }
        ensures { result ≡ knows self.now (named name.now) }
    {
        is_among(name, &self.names)
    }

    /// The same. It is looked for first from an index on, which is moved behind the name that is
    /// found.
    pub(crate) fn has_name_next(&self, name: &str, next: &mut usize) -> bool
        requires { IsSorted name_ref_cmp self.now.names.items }
        ensures { result ≡ knows self.now (named name.now) }
    {
        is_next_among(name, &self.names, next)
    }
}

/// What a type says of documents.
#[derive(Drop)]
pub(crate) struct Tables<'c> {
    pub(crate) alloc: Global,
    pub(crate) shapes: &'c Shapes,
    /// Whether members that nothing takes are refused.
    pub(crate) strict: bool,
    /// What each shape comes to that a document can come to, by its index.
    pub(crate) ends: Vec<Option<End<'c>>>,
    /// The lists of parts. A list comes after those of its branches.
    pub(crate) lists: Vec<List<'c>>,
    pub(crate) slots: Slots,
    /// What the tags of enums name, by the indices of their shapes.
    pub(crate) tags: Vec<Option<TagTable<'c>>>,
    /// No way of asking the same value has more targets.
    pub(crate) steps: usize,
}

impl<'c> Tables<'c> {
    /// The tables of a type. An error tells what is wrong with it, or that memory was refused.
    pub(crate) fn new(
        alloc: Global,
        shapes: &'c Shapes,
        root: ShapeId,
        strict: bool,
    ) -> Result<Tables<'c>, Fault<'c>>
        ensures made { IfOk result AreTables }
        ensures same { IfOk result (λ t. (t.shapes.now ≡ shapes.now) × (t.strict ≡ strict)) }
        ensures root { IfOk result (λ t.
            ShapeIsServed t root × IsRanked t.steps (rules_at t) (of_shape root)) }
        ensures refused { IfErr result (IsWhyNoTables shapes.now root) }
    {
        if !shapes.has(root) {
            return Err(Fault::NoShape(root));
        }
        let types = Types::new(alloc, shapes)?;
        let every = EveryList::new(alloc, &types)?;
        let reached = Reached::new(alloc, &types, &every, root)?;
        if let Some(id) = first_in_circles(shapes, &reached.ends) {
            return Err(Fault::ReadsItself(id));
        }
        let ranks = Ranks::new(alloc, &types, &reached.ends)?;
        if let Some(id) = first_unranked(&reached.ends, &ranks.is_ranked) {
            return Err(Fault::ReadsItself(id));
        }
        let tags = tags(alloc, shapes)?;
        match in_order(alloc, &types, &every, &reached.marks.lists) {
            Ok(Ordered { lists, slots }) => Ok(Tables {
                alloc,
                shapes,
                strict,
                ends: reached.ends,
                lists,
                slots,
                tags,
                steps: ranks.steps,
            }),
            Err(fault) => Err(fault),
        }
    }

    /// The list of a name, if it has one. A list that has none reads no object.
    pub(crate) fn list(&self, id: ListId) -> Option<&List<'c>>
        requires { ListIsServed self.now (list_view id) }
        ensures { MatchOption result
            (HasChoice (Chooses (rules_at self.now).lists (list_view id)) → ⊥)
            (λ l. IsListOf self.now (list_view id) l.now) }
    {
        let index = self.slots.index_of(id)?;
        Some(&self.lists[index])
    }

    /// What a shape comes to that a document can come to.
    pub(crate) fn end(&self, id: ShapeId) -> &End<'c>
        requires { ShapeIsServed self.now id }
        ensures { slice_get self.now.ends.items id ≡ Some (Some result.now) }
    {
        match &self.ends[id.index()] {
            Some(end) => end,
            None => unreachable!(),
        }
    }
}
