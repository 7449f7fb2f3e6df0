//! Tags that are missing, and their values that name no variant.
ghost use Rattle.std.specs.Prelude.{◌≢◌, ◌<◌, All, IfOk, IfSome, IsTrue, Some};
ghost use Rattle.facet_solver_reader.specs.Documents as documents;
ghost use Rattle.facet_solver_reader.specs.Nodes.{IsNumbering, count, members_in, value_of};
ghost use Rattle.facet_solver_reader.specs.Objects.{find};
ghost use Rattle.facet_solver_reader.specs.Tables.{AreTables, ListIsServed, rules_at};
ghost use Rattle.facet_solver_reader.specs.Views.{list_view, member_view, selection_view};
ghost use Rattle.facet_solver_reader.specs.Blaming.{BeginsWith, IsHere};
ghost use Rattle.facet_solver_reader.specs.Why.{IsTagOf, LacksTag, Requires, StandsAt};

use super::name::branch_of;
use super::walk::Here;
use crate::count::{Object, is_other_tag};
use crate::nodes::Nodes;
use crate::part::{ListId, MemberPart, Part, Selection, Target};
use crate::read_error::{Given, Obstacle};
use crate::tables::{List, Tables};
use std::alloc::AllocError;

/// Where each branch of a selection wants a text of one tag, and the object has none of these texts
/// there: what it has.
pub(super) fn none_by_tag<'c, 'd>(
    tables: &Tables<'c>,
    nodes: &Nodes<'_, 'd>,
    object: &Object<'_, '_>,
    selection: &Selection<'_>,
) -> Result<Option<Here<'c, 'd>>, AllocError>
    requires tables { AreTables tables.now }
    requires numbering { IsNumbering nodes.now }
    requires inside { object.now.node < count nodes.now }
    requires served { All (ListIsServed tables.now) (selection_view selection.now).branches }
    ensures { IfOk result (λ here. IfSome here
        (IsHere (rules_at tables.now) (value_of nodes.now object.now.node))) }
{
    let Some((tag, _)) = first_tag(tables, selection) else {
        return Ok(None);
    };
    let mut wanting = Vec::new(tables.alloc);
    for branch in &selection.branches {
        if !wants_other_text(tables, nodes, object, *branch, tag) {
            return Ok(None);
        }
        // In place of `?`, for which no proof is generated at an entry of this type.
        if wanting.push(branch_of(tables.shapes, *branch)).is_err() {
            return Err(AllocError);
        }
    }
    let given = given_at(nodes, object.node, tag);
    Ok(Some(Here::Stops(Obstacle::NoTag(tag, given, wanting))))
}

/// The tag of the first branch of a selection, if that begins with one, and its text.
fn first_tag<'c>(tables: &Tables<'c>, selection: &Selection<'_>) -> Option<(&'c str, &'c str)>
    requires tables { AreTables tables.now }
    requires served { All (ListIsServed tables.now) (selection_view selection.now).branches }
{
    let branch = selection.branches.first()?;
    tag_of(tables, *branch)
}

/// Whether a branch wants a text at a tag that an object does not have there.
fn wants_other_text(
    tables: &Tables<'_>,
    nodes: &Nodes<'_, '_>,
    object: &Object<'_, '_>,
    branch: ListId,
    tag: &str,
) -> bool
    requires tables { AreTables tables.now }
    requires numbering { IsNumbering nodes.now }
    requires inside { object.now.node < count nodes.now }
    requires served { ListIsServed tables.now (list_view branch) }
    ensures { IsTrue result → LacksTag (rules_at tables.now)
        (members_in (value_of nodes.now object.now.node)) (list_view branch) tag.now }
{
    match tag_of(tables, branch) {
        Some((name, text)) if name == tag => lacks_text(nodes, object.node, tag, text),
        _ => false,
    }
}

/// What an object has as a member.
fn given_at<'d>(nodes: &Nodes<'_, 'd>, node: usize, name: &str) -> Option<Given<'d>>
    requires numbering { IsNumbering nodes.now }
    requires inside { node < count nodes.now }
    ensures { StandsAt (members_in (value_of nodes.now node)) name.now result }
{
    let member = nodes.member(node, name)?;
    Some(Given::of(nodes.value(member)))
}

/// The tag of a branch that begins with one, and its text.
fn tag_of<'c>(tables: &Tables<'c>, branch: ListId) -> Option<(&'c str, &'c str)>
    requires tables { AreTables tables.now }
    requires served { ListIsServed tables.now (list_view branch) }
    ensures { IfSome result (λ tag.
        Requires (rules_at tables.now) (list_view branch) (IsTagOf tag.0.now tag.1.now)) }
{
    let list = tables.list(branch)?;
    tag_in(list)
}

/// The tag of a list that begins with one, and its text.
fn tag_in<'c>(list: &List<'c>) -> Option<(&'c str, &'c str)>
    ensures { IfSome result (λ tag. BeginsWith list.now (IsTagOf tag.0.now tag.1.now)) }
{
    let first = list.parts.first()?;
    match first {
        Part::Member(member) if member.required => tag_at(member),
        _ => None,
    }
}

/// The name of a member that wants a text of a tag, and the text.
fn tag_at<'c>(member: &MemberPart<'c>) -> Option<(&'c str, &'c str)>
    ensures { IfSome result (λ tag. IsTagOf tag.0.now tag.1.now (member_view member.now)) }
{
    match member.target {
        Target::Tag(text) => Some((member.name, text)),
        _ => None,
    }
}

/// Whether an object does not have a text as a member.
fn lacks_text(nodes: &Nodes<'_, '_>, node: usize, name: &str, text: &str) -> bool
    requires numbering { IsNumbering nodes.now }
    requires inside { node < count nodes.now }
    ensures { IsTrue result → find (members_in (value_of nodes.now node)) name.now
        ≢ Some (documents.text text.now) }
{
    match nodes.member(node, name) {
        Some(member) => is_other_tag(&Target::Tag(text), nodes.value(member)),
        None => true,
    }
}
