//! The first members of lists of parts, by which most lists of a large type are refused: tags, and
//! members that are required.
ghost use Rattle.std.specs.Prelude.{◌≡◌, ◌<◌, IfSome, IsTrue, Some, slice_get};
ghost use Rattle.std.specs.List.{list_any};
ghost use Rattle.facet_solver_reader.specs.LookedUp.{IsLast, IsLookedUp, value_in};
ghost use Rattle.facet_solver_reader.specs.NameFilters.{HoldsNames};
ghost use Rattle.facet_solver_reader.specs.Nodes.{IsNumbering, count, members_in, value_of};
ghost use Rattle.facet_solver_reader.specs.Objects.{find};
ghost use Rattle.facet_solver_reader.specs.Parts.{a_member};
ghost use Rattle.facet_solver_reader.specs.Reading.{fails_at_once, fails_for};
ghost use Rattle.facet_solver_reader.specs.Views.{member_view, part_view, parts_view};

use super::list::is_other_tag;
use super::object::Object;
use crate::document::Document;
use crate::nodes::Nodes;
use crate::part::{MemberPart, Part, Target};
use crate::tables::List;

/// A member that was looked up in an object: its name, and its value if the object has it.
#[derive(Clone, Copy)]
pub(super) struct LookedUp<'c, 't, 'd> {
    name: &'c str,
    value: Option<&'t Document<'d>>,
}

impl<'c, 't, 'd> LookedUp<'c, 't, 'd> {
    /// The member of a name of an object.
    fn new(nodes: &Nodes<'t, 'd>, node: usize, name: &'c str) -> LookedUp<'c, 't, 'd>
        requires numbering { IsNumbering nodes.now }
        requires inside { node < count nodes.now }
        ensures name { result.name.now ≡ name.now }
        ensures found { IsLookedUp (members_in (value_of nodes.now node)) result }
    {
        let value = match nodes.member(node, name) {
            Some(member) => Some(nodes.value(member)),
            None => None,
        };
        LookedUp { name, value }
    }

    /// The same. It is not looked up anew where it was looked up last.
    fn again(
        nodes: &Nodes<'t, 'd>,
        node: usize,
        name: &'c str,
        last: &Option<LookedUp<'c, 't, 'd>>,
    ) -> LookedUp<'c, 't, 'd>
        requires numbering { IsNumbering nodes.now }
        requires inside { node < count nodes.now }
        requires last { IsLast (members_in (value_of nodes.now node)) last.now }
        ensures name { result.name.now ≡ name.now }
        ensures found { IsLookedUp (members_in (value_of nodes.now node)) result }
    {
        match last {
            Some(member) if member.name == name => *member,
            _ => LookedUp::new(nodes, node, name),
        }
    }

    /// Whether an object that has it so cannot be read by a part of its name.
    fn fails(&self, part: &MemberPart<'_>) -> bool
        ensures { result ≡ fails_for (member_view part.now) (value_in self.now) }
    {
        match self.value {
            Some(value) => is_other_tag(&part.target, value),
            None => part.required,
        }
    }
}

/// Whether the member that a list begins with leaves no reading of an object: it is a tag and the
/// object has any other value there, or it is required and the object is known to lack it. The next
/// list mostly begins with a tag of the same name, so that it is not looked up again.
pub(super) fn fails_at_first<'c, 't, 'd>(
    nodes: &Nodes<'t, 'd>,
    object: &Object<'_, '_>,
    list: &List<'c>,
    last: &mut Option<LookedUp<'c, 't, 'd>>,
) -> bool
    requires numbering { IsNumbering nodes.now }
    requires inside { object.now.node < count nodes.now }
    requires filter { HoldsNames (members_in (value_of nodes.now object.now.node))
        object.now.filter }
    requires last { IsLast (members_in (value_of nodes.now object.now.node)) last.old }
    ensures last { IsLast (members_in (value_of nodes.now object.now.node)) last.new }
    ensures fails { IsTrue result → IsTrue (list_any
        (λ part. fails_at_once (members_in (value_of nodes.now object.now.node)) (part_view part))
        list.now.parts.items) }
{
    let Some(first) = first_member(list) else {
        return false;
    };
    if !is_tag(first) {
        return lacks(nodes, object, first);
    }
    let member = LookedUp::again(nodes, object.node, first.name, last);
    *last = Some(member);
    member.fails(first)
}

/// The member that a list begins with, if it does.
fn first_member<'r, 'c>(list: &'r List<'c>) -> Option<&'r MemberPart<'c>>
    ensures { IfSome result (λ first. slice_get (parts_view list.now.parts.items) 0
        ≡ Some (a_member (member_view first.now))) }
{
    match list.parts.first()? {
        Part::Member(member) => Some(member),
        _ => None,
    }
}

/// Whether a member is a tag.
fn is_tag(member: &MemberPart<'_>) -> bool {
    matches!(member.target, Target::Tag(_))
}

/// Whether a member is required and an object is known to lack it.
#[tactic(auto, using(crate::proofs::NameFilters::lacking_fails))]
fn lacks(nodes: &Nodes<'_, '_>, object: &Object<'_, '_>, member: &MemberPart<'_>) -> bool
    requires { HoldsNames (members_in (value_of nodes.now object.now.node)) object.now.filter }
    ensures { IsTrue result → IsTrue (fails_for (member_view member.now)
        (find (members_in (value_of nodes.now object.now.node)) (member_view member.now).name)) }
{
    if !member.required {
        return false;
    }
    !object.filter.may_have(member.name)
}

/// Whether one of some parts is a required member that an object is known to lack.
pub(super) fn lacks_some(nodes: &Nodes<'_, '_>, object: &Object<'_, '_>, parts: &[Part<'_>]) -> bool
    requires { HoldsNames (members_in (value_of nodes.now object.now.node)) object.now.filter }
    ensures { IsTrue result → IsTrue (list_any
        (λ part. fails_at_once (members_in (value_of nodes.now object.now.node)) (part_view part))
        parts.now) }
{
    parts.iter().any(|part| lacks_part(nodes, object, part))
}

/// Whether a part is a required member that an object is known to lack.
fn lacks_part(nodes: &Nodes<'_, '_>, object: &Object<'_, '_>, part: &Part<'_>) -> bool
    requires { HoldsNames (members_in (value_of nodes.now object.now.node)) object.now.filter }
    ensures { IsTrue result → IsTrue
        (fails_at_once (members_in (value_of nodes.now object.now.node)) (part_view part.now)) }
{
    match part {
        Part::Member(member) => lacks(nodes, object, member),
        _ => false,
    }
}
