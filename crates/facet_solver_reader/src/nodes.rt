//! The values of a document, by numbers.
ghost use Rattle.std.specs.Prelude.{◌≡◌, ◌<◌, IfErr, IfOk, IsTrue, MatchOption, None, Some, length, slice_get};
ghost use Rattle.facet_solver_reader.specs.Documents.{view};
ghost use Rattle.facet_solver_reader.specs.Objects.{find};
ghost use Rattle.facet_solver_reader.specs.Places.{at, inside, step_of, NamesStandOnce};
ghost use Rattle.facet_solver_reader.specs.Nodes.{children, members_in, count, first_in, parent_of, value_of, AreNamesOf, IsNumbering, IsNumberedSoFar, IsWhy};

mod by_name;
mod numbering;

use crate::document::Document;
use crate::place::{Place, PlaceSegment};
use by_name::NamedNode;
pub(crate) use by_name::{find_by_name, is_among, is_next_among, sort_by_name};
use std::alloc::{AllocError, Global};

/// A value, and the number of the value around it. That of the root is 0.
#[derive(Clone, Copy)]
struct Node<'t, 'd> {
    document: &'t Document<'d>,
    parent: usize,
}

/// Where that stands which is inside a value.
#[derive(Clone, Copy)]
struct Opening {
    /// The number of its first child. The others follow.
    first: usize,
    /// The index of the first of its members by name. The others follow.
    names: usize,
}

/// All values of a document, by numbers: the root is 0, and the children of a value stand side by
/// side, each after its parent. They are the items of a list and the values of an object's members,
/// in their order.
///
/// Values that nest less deep have lower numbers.
#[derive(Drop)]
pub(crate) struct Nodes<'t, 'd> {
    nodes: Vec<Node<'t, 'd>>,
    /// Those of the values that were opened, in the order of their numbers.
    openings: Vec<Opening>,
    /// The members of each object side by side, sorted by name.
    by_name: Vec<NamedNode<'d>>,
}

/// Why a document is not read.
#[derive(Debug, Drop)]
pub enum DocumentError<'d> {
    /// A name stands twice in an object: the place of the member.
    NameTwice(Place<'d>),
    /// Memory was refused.
    OutOfMemory,
}

impl<'d> From<AllocError> for DocumentError<'d> {
    ghost use Rattle.facet_solver_reader.specs.declared.nodes.DocumentError.TheVariants as nodes_error;

    ghost from_gives = { λ _ e. e ≡ nodes_error.OutOfMemory };

    fn from(_: AllocError) -> DocumentError<'d> {
        DocumentError::OutOfMemory
    }
}

impl<'t, 'd> Nodes<'t, 'd> {
    /// The values of a document.
    ///
    /// # Errors
    ///
    /// - `NameTwice`: a name stands twice in an object, anywhere in the document. Of several such
    ///   objects it tells the first in the order of numbers: one that nests least deep. Of several
    ///   such names it tells the least by its bytes.
    /// - `OutOfMemory`: memory was refused.
    pub(crate) fn new(
        alloc: Global,
        document: &'t Document<'d>,
    ) -> Result<Nodes<'t, 'd>, DocumentError<'d>>
        ensures numbering { IfOk result IsNumbering }
        ensures root { IfOk result (λ nodes. value_of nodes 0 ≡ view document.now) }
        ensures once { IfOk result (λ _. NamesStandOnce (view document.now)) }
        ensures err { IfErr result (IsWhy (view document.now)) }
    {
        let mut nodes = Nodes::root(alloc, document)?;
        while nodes.openings.len() < nodes.nodes.len() {
            nodes.open_next(alloc)?;
        }
        Ok(nodes)
    }

    /// How many values there are.
    pub(crate) fn len(&self) -> usize
        ensures { result ≡ count self.now }
    {
        self.nodes.len()
    }

    /// The value of a number.
    pub(crate) fn value(&self, node: usize) -> &'t Document<'d>
        requires { node < count self.now }
        ensures { view result.now ≡ value_of self.now node }
    {
        self.nodes[node].document
    }

    /// The number of the child of that index of a value.
    pub(crate) fn child(&self, node: usize, index: usize) -> usize
        requires numbering { IsNumbering self.now }
        requires in_range { node < count self.now }
        requires index_in_range { index < length (children (value_of self.now node)) }
        ensures in_range { result < count self.now }
        ensures child { slice_get (children (value_of self.now node)) index
            ≡ Some (value_of self.now result) }
    {
        self.openings[node].first + index
    }

    /// The members of an object by name, each with the number of its value: none, if the value is
    /// no object.
    pub(crate) fn by_name(&self, node: usize) -> &[NamedNode<'d>]
        requires numbering { IsNumbering self.now }
        requires in_range { node < count self.now }
        ensures { AreNamesOf (members_in (value_of self.now node)) (first_in self.now node)
            result.now }
    {
        match self.value(node) {
            Document::Object(members) => self.members_by_name(node, members.len()),
            _ => &[],
        }
    }

    /// The same, where it is known how many members the value has.
    fn members_by_name(&self, node: usize, len: usize) -> &[NamedNode<'d>]
        requires numbering { IsNumbering self.now }
        requires in_range { node < count self.now }
        requires all { len ≡ length (members_in (value_of self.now node)) }
        ensures { AreNamesOf (members_in (value_of self.now node)) (first_in self.now node)
            result.now }
    {
        let start = self.openings[node].names;
        &self.by_name[start..start + len]
    }

    /// The number of the value of an object's member of that name; `None` where it has no such
    /// member, or is no object. Many names are halved until few are left, which are gone through.
    pub(crate) fn member(&self, node: usize, name: &str) -> Option<usize>
        requires numbering { IsNumbering self.now }
        requires in_range { node < count self.now }
        ensures { MatchOption result
            (find (members_in (value_of self.now node)) name.now ≡ None)
            (λ found. (found < count self.now)
            × (find (members_in (value_of self.now node)) name.now
            ≡ Some (value_of self.now found))) }
    {
        match self.value(node) {
            Document::Object(members) => {
                find_by_name(self.members_by_name(node, members.len()), name)
            }
            _ => None,
        }
    }

    /// The same. It is looked for first at a number, which is moved behind the member that is found:
    /// mostly an object has its members in the order in which they are asked for.
    pub(crate) fn next_member(&self, node: usize, name: &str, next: &mut usize) -> Option<usize>
        requires numbering { IsNumbering self.now }
        requires in_range { node < count self.now }
        ensures { MatchOption result
            (find (members_in (value_of self.now node)) name.now ≡ None)
            (λ found. (found < count self.now)
            × (find (members_in (value_of self.now node)) name.now
            ≡ Some (value_of self.now found))) }
    {
        let number = if self.is_member(node, name, *next) {
            *next
        } else {
            self.member(node, name)?
        };
        *next = number.saturating_add(1);
        Some(number)
    }

    /// Whether a number is that of the value of an object's member of a name.
    fn is_member(&self, node: usize, name: &str, number: usize) -> bool
        requires numbering { IsNumbering self.now }
        requires in_range { node < count self.now }
        ensures { IsTrue result → (number < count self.now)
            × (find (members_in (value_of self.now node)) name.now
            ≡ Some (value_of self.now number)) }
    {
        let Document::Object(members) = self.value(node) else {
            return false;
        };
        let Some(index) = number.checked_sub(self.openings[node].first) else {
            return false;
        };
        match members.get(index) {
            Some(member) => member.0 == name,
            None => false,
        }
    }

    /// Where a value stands in the document.
    pub(crate) fn place(&self, alloc: Global, node: usize) -> Result<Place<'d>, AllocError>
        requires under_way { IsNumberedSoFar self.now }
        requires in_range { node < count self.now }
        ensures { IfOk result
            (λ place. at (value_of self.now 0) place ≡ Some (value_of self.now node)) }
    {
        let mut segments = Vec::new(alloc);
        let mut inner = node;
        while inner > 0 {
            segments.push(self.last_segment(inner))?;
            inner = self.nodes[inner].parent;
        }
        Ok(Place::backwards(segments))
    }

    /// The segment that leads to a value from the one around it.
    fn last_segment(&self, node: usize) -> PlaceSegment<'d>
        requires under_way { IsNumberedSoFar self.now }
        requires in_range { (0 < node) × (node < count self.now) }
        ensures { inside (value_of self.now (parent_of self.now node)) (step_of result)
            ≡ Some (value_of self.now node) }
    {
        let parent = self.nodes[node].parent;
        let index = node - self.openings[parent].first;
        match self.value(parent) {
            Document::Object(members) => PlaceSegment::Name(members[index].0),
            _ => PlaceSegment::Index(index),
        }
    }
}
