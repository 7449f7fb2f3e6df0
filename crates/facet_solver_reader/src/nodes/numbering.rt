//! How a document's values are numbered: each value that was added is opened in its turn.
ghost use Rattle.std.specs.Prelude.{◌≡◌, ◌+◌, ◌<◌, ◌≤◌, ◌^◌, ◌∷◌, ◌++◌, [], IfErr, IfOk, OnOk, Some, length, map, slice_get};
ghost use Rattle.facet_solver_reader.specs.Documents.{members_view, object, view};
ghost use Rattle.facet_solver_reader.specs.Nodes.{children, count, entries, nodes_of, nodes_view, numbered, opened, under, value_of, members_in, IsAdded, IsAppended, AreAddedByName, IsNumberedSoFar, IsWhy};

use super::by_name::{NamedNode, sort_from};
use super::{DocumentError, Node, Nodes, Opening};
use crate::document::Document;
use std::alloc::{AllocError, Global};

/// For so many values there is room at first, so that small documents ask for memory once.
const FEW_VALUES: usize = 16;

impl<'t, 'd> Nodes<'t, 'd> {
    /// The root, which is not opened.
    pub(super) fn root(
        alloc: Global,
        document: &'t Document<'d>,
    ) -> Result<Nodes<'t, 'd>, AllocError>
        ensures { IfOk result (λ nodes. IsNumberedSoFar nodes
            × (nodes_of nodes ≡ under 0 (view document.now ∷ []))) }
    {
        let mut nodes = Vec::with_capacity(alloc, FEW_VALUES)?;
        nodes.push(Node {
            document,
            parent: 0,
        })?;
        Ok(Nodes {
            nodes,
            openings: Vec::with_capacity(alloc, FEW_VALUES)?,
            by_name: Vec::with_capacity(alloc, FEW_VALUES)?,
        })
    }

    /// Opens the first value that is not opened: its children are added.
    pub(super) fn open_next(&mut self, alloc: Global) -> Result<(), DocumentError<'d>>
        requires under_way { IsNumberedSoFar self.old }
        requires left { opened self.old < count self.old }
        ensures under_way { OnOk result (IsNumberedSoFar self.new) }
        ensures added { OnOk result (nodes_of self.new ≡ nodes_of self.old
            ++ under (opened self.old) (children (value_of self.old (opened self.old)))) }
        ensures opened { OnOk result (opened self.new ≡ opened self.old + 1) }
        ensures err { IfErr result (IsWhy (value_of self.old 0)) }
    {
        let number = self.openings.len();
        let opening = Opening {
            first: self.nodes.len(),
            names: self.by_name.len(),
        };
        let document = self.value(number);
        self.add_children(alloc, document, number)?;
        self.openings.push(opening).map_err(AllocError::from)?;
        Ok(())
    }

    /// Adds the children of a value, and its members by name.
    fn add_children(
        &mut self,
        alloc: Global,
        document: &'t Document<'d>,
        number: usize,
    ) -> Result<(), DocumentError<'d>>
        requires under_way { IsNumberedSoFar self.old }
        requires in_range { number < count self.old }
        requires value { view document.now ≡ value_of self.old number }
        ensures added { OnOk result (IsAdded self.old self.new number (view document.now)) }
        ensures err { IfErr result (IsWhy (value_of self.old 0)) }
    {
        match document {
            Document::List(items) => add_items(&mut self.nodes, items, number)?,
            Document::Object(members) => {
                self.add_names(alloc, members, number)?;
                add_values(&mut self.nodes, members, number)?;
            }
            _ => {}
        }
        Ok(())
    }

    /// Adds the members of an object by name.
    fn add_names(
        &mut self,
        alloc: Global,
        members: &[(&'d str, Document<'d>)],
        number: usize,
    ) -> Result<(), DocumentError<'d>>
        requires under_way { IsNumberedSoFar self.old }
        requires in_range { number < count self.old }
        requires value { value_of self.old number ≡ object (members_view members.now) }
        ensures named { OnOk result (AreAddedByName self.old self.new (members_view members.now)) }
        ensures err { IfErr result (IsWhy (value_of self.old 0)) }
    {
        let start = self.by_name.len();
        push_names(&mut self.by_name, members, self.nodes.len())?;
        if let Some(name) = sort_from(&mut self.by_name, start) {
            let place = self.place(alloc, number)?.member(name)?;
            return Err(DocumentError::NameTwice(place));
        }
        Ok(())
    }
}

/// Adds the items of a list.
fn add_items<'t, 'd>(
    nodes: &mut Vec<Node<'t, 'd>>,
    items: &'t [Document<'d>],
    parent: usize,
) -> Result<(), AllocError>
    ensures { OnOk result (nodes_view nodes.new.items
        ≡ nodes_view nodes.old.items ++ under parent (map view items.now)) }
{
    for document in items {
        nodes.push(Node { document, parent })?;
    }
    Ok(())
}

/// Adds the values of members.
fn add_values<'t, 'd>(
    nodes: &mut Vec<Node<'t, 'd>>,
    members: &'t [(&'d str, Document<'d>)],
    parent: usize,
) -> Result<(), AllocError>
    ensures { OnOk result (nodes_view nodes.new.items
        ≡ nodes_view nodes.old.items ++ under parent (map (λ m. view m.1) members.now)) }
{
    for (_, document) in members {
        nodes.push(Node { document, parent })?;
    }
    Ok(())
}

/// Adds the names of members, each with the number of its value.
fn push_names<'d>(
    by_name: &mut Vec<NamedNode<'d>>,
    members: &[(&'d str, Document<'d>)],
    first: usize,
) -> Result<(), AllocError>
    requires { first + length members.now < 2 ^ 64 }
    ensures { OnOk result (IsAppended by_name.old.items by_name.new.items
        (numbered first (members_in (object (members_view members.now))))) }
{
    for (index, (name, _)) in members.iter().enumerate() {
        by_name.push((*name, first + index))?;
    }
    Ok(())
}
