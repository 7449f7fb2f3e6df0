//! The readings of an object by the parts of one list.
ghost use Rattle.std.specs.Prelude.{◌≡◌, ◌<◌, IfOk, length};
ghost use Rattle.std.specs.List.{list_any};
ghost use Rattle.facet_solver_reader.specs.Nodes.{IsNumbering, count, members_in, value_of};
ghost use Rattle.facet_solver_reader.specs.Parts.{a_member};
ghost use Rattle.facet_solver_reader.specs.Reading.{AreListCounts, AreSound, IsListCount, IsNextList, IsObject, IsPartCount, fails_at_once, is_other_tag};
ghost use Rattle.facet_solver_reader.specs.Documents.{view};
ghost use Rattle.facet_solver_reader.specs.SelectionNames.{PartHasBranchNames};
ghost use Rattle.facet_solver_reader.specs.Tables.{IsServed, PartIsBefore, PartIsServed, rules_at};
ghost use Rattle.facet_solver_reader.specs.Views.{member_view, part_view, target_view};

use super::Memo;
use super::catch_all::count_catch_all;
use super::object::Object;
use super::selection::count_selection;
use super::target::count_target;
use crate::count::Count;
use crate::document::Document;
use crate::nodes::Nodes;
use crate::part::{MemberPart, Part, Target};
use crate::tables::{List, Tables};
use std::alloc::AllocError;

/// How often an object is read by the parts of a list, by the counts of the lists before it.
#[cycle(count)]
pub(crate) fn count_list(
    tables: &Tables<'_>,
    nodes: &Nodes<'_, '_>,
    memo: &mut Memo,
    object: &Object<'_, '_>,
    list: &List<'_>,
    counts: &[Count],
) -> Result<Count, AllocError>
    requires sound { AreSound tables.now nodes.now memo.old.entries.items }
    requires object { IsObject tables.now nodes.now object.now }
    requires counts { AreListCounts tables.now nodes.now object.now counts.now }
    requires next { IsNextList tables.now object.now (length counts.now) list.now }
    ensures sound { AreSound tables.now nodes.now memo.new.entries.items }
    ensures count { IfOk result (IsListCount tables.now nodes.now object.now list.now) }
{
    // What no value has to be read for comes first.
    if some_fails_at_once(nodes, object.node, &list.parts) {
        return Ok(Count::None);
    }
    let mut count = Count::One;
    for part in &list.parts {
        let next = count_part(tables, nodes, memo, object, part, counts)?;
        if next.is_none() {
            return Ok(Count::None);
        }
        count = count.times(next);
    }
    Ok(count)
}

/// Whether an object cannot be read by some part, whatever its values are.
pub(super) fn some_fails_at_once(nodes: &Nodes<'_, '_>, node: usize, parts: &[Part<'_>]) -> bool
    requires numbering { IsNumbering nodes.now }
    requires inside { node < count nodes.now }
    ensures { result ≡ list_any
        (λ part. fails_at_once (members_in (value_of nodes.now node)) (part_view part)) parts.now }
{
    parts.iter().any(|part| fails_at_once(nodes, node, part))
}

/// Whether a part is a required member that the object lacks, or a tag of another text.
pub(crate) fn fails_at_once(nodes: &Nodes<'_, '_>, node: usize, part: &Part<'_>) -> bool
    requires numbering { IsNumbering nodes.now }
    requires inside { node < count nodes.now }
    ensures { result
        ≡ fails_at_once (members_in (value_of nodes.now node)) (part_view part.now) }
{
    match part {
        Part::Member(member) => match nodes.member(node, member.name) {
            Some(value) => is_other_tag(&member.target, nodes.value(value)),
            None => member.required,
        },
        _ => false,
    }
}

/// Whether a value is not the text of a tag, where the target is one.
pub(crate) fn is_other_tag(target: &Target<'_>, value: &Document<'_>) -> bool
    ensures { result ≡ is_other_tag (target_view target.now) (view value.now) }
{
    match target {
        Target::Tag(name) => match value {
            Document::Text(text) => text != name,
            _ => true,
        },
        _ => false,
    }
}

/// How often an object is read by one part.
#[cycle(count)]
fn count_part(
    tables: &Tables<'_>,
    nodes: &Nodes<'_, '_>,
    memo: &mut Memo,
    object: &Object<'_, '_>,
    part: &Part<'_>,
    counts: &[Count],
) -> Result<Count, AllocError>
    requires sound { AreSound tables.now nodes.now memo.old.entries.items }
    requires object { IsObject tables.now nodes.now object.now }
    requires counts { AreListCounts tables.now nodes.now object.now counts.now }
    requires served { PartIsServed tables.now (part_view part.now) }
    requires named { PartHasBranchNames (rules_at tables.now).lists part.now }
    requires before { PartIsBefore tables.now object.now.list.now.below.items (length counts.now)
        (part_view part.now) }
    ensures sound { AreSound tables.now nodes.now memo.new.entries.items }
    ensures count { IfOk result (IsPartCount tables.now nodes.now object.now (part_view part.now)) }
{
    match part {
        Part::Member(member) => count_member(tables, nodes, memo, object, member),
        Part::Selection(selection) => {
            Ok(count_selection(tables, nodes, object, selection, counts))
        }
        Part::CatchAll(catch_all) => { count_catch_all(tables, nodes, memo, object, catch_all) }
    }
}

/// How often an object is read by a member.
#[cycle(count)]
fn count_member(
    tables: &Tables<'_>,
    nodes: &Nodes<'_, '_>,
    memo: &mut Memo,
    object: &Object<'_, '_>,
    member: &MemberPart<'_>,
) -> Result<Count, AllocError>
    requires sound { AreSound tables.now nodes.now memo.old.entries.items }
    requires object { IsObject tables.now nodes.now object.now }
    requires served { IsServed tables.now (member_view member.now).target }
    ensures sound { AreSound tables.now nodes.now memo.new.entries.items }
    ensures count { IfOk result
        (IsPartCount tables.now nodes.now object.now (a_member (member_view member.now))) }
{
    match nodes.member(object.node, member.name) {
        Some(value) => count_target(tables, nodes, memo, value, &member.target, tables.steps),
        None => Ok(Count::from(!member.required)),
    }
}
