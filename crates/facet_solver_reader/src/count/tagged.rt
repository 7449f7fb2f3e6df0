//! The branch by which an object is read whose tag names a variant.
ghost use Rattle.std.specs.Prelude.{◌<◌, ℕ, IfSome, IsSorted, MatchOption, length};
ghost use Rattle.facet_solver_shape.specs.Names.{name_ref_cmp};
ghost use Rattle.facet_solver_reader.specs.Chosen.{IsAlone};
ghost use Rattle.facet_solver_reader.specs.Nodes.{AreByName, IsNumbering, count, members_in, value_of};
ghost use Rattle.facet_solver_reader.specs.Parts.{a_selection};
ghost use Rattle.facet_solver_reader.specs.Reading.{IsListed};
ghost use Rattle.facet_solver_reader.specs.SmallerLists.{KnowsAllOf};
ghost use Rattle.facet_solver_reader.specs.Tables.{AreTables, IsPartOfList};
ghost use Rattle.facet_solver_reader.specs.Tags.{IsNamedBy, IsTagTable};
ghost use Rattle.facet_solver_reader.specs.Views.{selection_view};

use super::object::Object;
use crate::document::Document;
use crate::nodes::Nodes;
use crate::part::{ListId, Part, Selection};
use crate::tables::{List, Tables, TagTable};
use facet_solver_shape::ShapeId;

/// The branch, by its index, that alone may read an object by the variants of an enum with a tag:
/// that of the variant which the object names, or any where it names none. `None` where the
/// selection is of something else, or several variants have one name.
pub(super) fn tagged_branch(
    tables: &Tables<'_>,
    nodes: &Nodes<'_, '_>,
    object: &Object<'_, '_>,
    selection: &Selection,
) -> Option<usize>
    requires tables { AreTables tables.now }
    requires numbering { IsNumbering nodes.now }
    requires inside { object.now.node < count nodes.now }
    requires part { IsPartOfList tables.now (a_selection (selection_view selection.now)) }
    ensures within { IfSome result (λ k. k < length selection.now.branches.items) }
    ensures alone { IfSome result
        (IsAlone tables.now nodes.now object.now (selection_view selection.now)) }
{
    let Some(ListId::Branch(id, _)) = selection.branches.first() else {
        return None;
    };
    let tag = tag_at(tables, *id)?;
    match named_variant(nodes, object.node, tag) {
        Some(k) => match selection.branches.get(k) {
            Some(ListId::Branch(_, variant)) if *variant == k => Some(k),
            _ => None,
        },
        None => Some(0),
    }
}

/// The tag of the enum at an index, if the tables have it.
fn tag_at<'r, 'c>(tables: &'r Tables<'c>, id: ShapeId) -> Option<&'r TagTable<'c>>
    requires { AreTables tables.now }
    ensures { IfSome result (λ tag. IsTagTable tables.now.shapes.now id tag.now) }
{
    tables.tags.get(id.index())?.as_ref()
}

/// The index of the variant that an object names by the text of its tag.
fn named_variant(nodes: &Nodes<'_, '_>, node: usize, tag: &TagTable<'_>) -> Option<usize>
    requires numbering { IsNumbering nodes.now }
    requires inside { node < count nodes.now }
    requires by_text { AreByName tag.now.by_text.items }
    ensures { MatchOption result
        ((k : ℕ) → ¬ IsNamedBy tag.now (members_in (value_of nodes.now node)) k)
        (IsNamedBy tag.now (members_in (value_of nodes.now node))) }
{
    match nodes.value(nodes.member(node, tag.name)?) {
        Document::Text(text) => tag.variant(text),
        _ => None,
    }
}

/// The list of the branch that an object names by its tag, where its own list has the branches of an
/// enum with a tag. Mostly it knows all names of the object, and it has far fewer.
pub(crate) fn named_list<'r, 'c>(
    tables: &'r Tables<'c>,
    nodes: &Nodes<'_, '_>,
    node: usize,
    list: &List<'c>,
) -> Option<&'r List<'c>>
    requires tables { AreTables tables.now }
    requires numbering { IsNumbering nodes.now }
    requires inside { node < count nodes.now }
    requires listed { IsListed tables.now list.now }
    ensures sorted { IfSome result (λ near. IsSorted name_ref_cmp near.now.names.items) }
    ensures within { IfSome result (λ near. KnowsAllOf near.now list.now) }
{
    let Some(Part::Selection(selection)) = list.parts.first() else {
        return None;
    };
    let Some(ListId::Branch(id, _)) = selection.branches.first() else {
        return None;
    };
    let tag = tag_at(tables, *id)?;
    let k = named_variant(nodes, node, tag)?;
    let branch = selection.branches.get(k)?;
    tables.list(*branch)
}
