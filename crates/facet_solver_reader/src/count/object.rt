//! The readings of an object by a list of parts.
ghost use Rattle.std.specs.Prelude.{◌≡◌, ◌&&◌, ◌<◌, IfOk, length};
ghost use Rattle.facet_solver_reader.specs.Counted.{Counted};
ghost use Rattle.facet_solver_reader.specs.NameFilters.{HoldsNames};
ghost use Rattle.facet_solver_reader.specs.Nodes.{count, members_in, value_of};
ghost use Rattle.facet_solver_reader.specs.Objects.{ReadsAll, ReadsObject};
ghost use Rattle.facet_solver_reader.specs.Reading.{AreListCounts, AreSound, IsListCount, IsListed, IsObject};
ghost use Rattle.facet_solver_reader.specs.Readings.{ReadsValue};
ghost use Rattle.facet_solver_reader.specs.Tables as spec;
ghost use Rattle.facet_solver_reader.specs.Tables.{ListIsServed, rules_at};
ghost use Rattle.facet_solver_reader.specs.Views.{list_view};

use super::Memo;
use super::list::count_list;
use super::members::members_of;
use super::name_filter::NameFilter;
use super::tag::fails_at_first;
use super::unknown::has_unknown;
use crate::count::Count;
use crate::nodes::Nodes;
use crate::part::ListId;
use crate::tables::{List, Tables};
use std::alloc::AllocError;

/// An object, the list of parts that it is read by, and whether catch-alls take the members of no
/// known name.
#[derive(Clone, Copy)]
pub(crate) struct Object<'r, 'c> {
    pub(crate) node: usize,
    pub(crate) list: &'r List<'c>,
    pub(crate) takes: bool,
    /// Whether it has a member of no known name.
    pub(crate) has_unknown: bool,
    /// Which names it lacks, as far as few bits tell.
    pub(crate) filter: NameFilter,
}

impl Object<'_, '_> {
    /// Whether it has a member that catch-alls take.
    pub(super) fn has_rest(&self) -> bool
        ensures { result ≡ (self.now.takes && self.now.has_unknown) }
    {
        self.takes && self.has_unknown
    }
}

/// How often an object is read by a list of parts: with all its members or, where nothing takes
/// those of no known name and the reader is not strict, without these.
#[cycle(count)]
pub(crate) fn count_object(
    tables: &Tables<'_>,
    nodes: &Nodes<'_, '_>,
    memo: &mut Memo,
    node: usize,
    id: ListId,
) -> Result<Count, AllocError>
    requires sound { AreSound tables.now nodes.now memo.old.entries.items }
    requires inside { node < count nodes.now }
    requires served { ListIsServed tables.now (list_view id) }
    ensures sound { AreSound tables.now nodes.now memo.new.entries.items }
    ensures count { IfOk result (Counted (ReadsObject (rules_at tables.now)
        (ReadsValue (rules_at tables.now)) (list_view id)
        (members_in (value_of nodes.now node)))) }
{
    let Some(list) = tables.list(id) else {
        return Ok(Count::None);
    };
    let has_unknown = has_unknown(nodes, node, list);
    let count = count_all(tables, nodes, memo, node, list, has_unknown)?;
    if tables.strict || !count.is_none() {
        return Ok(count);
    }
    let filter = filter_of(nodes, node, list);
    let object = Object {
        node,
        list,
        takes: false,
        has_unknown,
        filter,
    };
    count_members(tables, nodes, memo, &object)
}

/// How often an object is read with all its members.
#[cycle(count)]
pub(crate) fn count_all(
    tables: &Tables<'_>,
    nodes: &Nodes<'_, '_>,
    memo: &mut Memo,
    node: usize,
    list: &List<'_>,
    has_unknown: bool,
) -> Result<Count, AllocError>
    requires sound { AreSound tables.now nodes.now memo.old.entries.items }
    requires inside { node < count nodes.now }
    requires listed { IsListed tables.now list.now }
    requires unknown { has_unknown
        ≡ spec.has_unknown list.now (members_in (value_of nodes.now node)) }
    ensures sound { AreSound tables.now nodes.now memo.new.entries.items }
    ensures count { IfOk result (Counted (ReadsAll (rules_at tables.now)
        (ReadsValue (rules_at tables.now)) (members_in (value_of nodes.now node))
        (list_view list.now.id))) }
{
    if has_unknown && !list.takes_rest {
        return Ok(Count::None);
    }
    let filter = filter_of(nodes, node, list);
    let object = Object {
        node,
        list,
        takes: true,
        has_unknown,
        filter,
    };
    count_members(tables, nodes, memo, &object)
}

/// The filter of an object's names. It tells nothing where hardly anything asks for it: where the
/// object's list goes through no other, or has branches that a tag tells apart.
pub(crate) fn filter_of(nodes: &Nodes<'_, '_>, node: usize, list: &List<'_>) -> NameFilter
    requires { node < count nodes.now }
    ensures { HoldsNames (members_in (value_of nodes.now node)) result }
{
    if list.below.len() == 1 || matches!(list.id, ListId::Enum(_)) {
        NameFilter::any()
    } else {
        NameFilter::of(members_of(nodes.value(node)))
    }
}

/// How often an object is read by the choices of its list.
#[cycle(count)]
fn count_members(
    tables: &Tables<'_>,
    nodes: &Nodes<'_, '_>,
    memo: &mut Memo,
    object: &Object<'_, '_>,
) -> Result<Count, AllocError>
    requires sound { AreSound tables.now nodes.now memo.old.entries.items }
    requires object { IsObject tables.now nodes.now object.now }
    ensures sound { AreSound tables.now nodes.now memo.new.entries.items }
    ensures count { IfOk result
        (IsListCount tables.now nodes.now object.now object.now.list.now) }
{
    // Where its list goes through no other, no counts have to be kept.
    if object.list.below.len() == 1 {
        return count_list(tables, nodes, memo, object, object.list, &[]);
    }
    let mut counts = list_counts(tables, nodes, memo, object)?;
    Ok(counts.pop().unwrap_or(Count::None))
}

/// How often an object is read by each list that the choices of its list go through, in the order of
/// `below`: each is counted once, those of branches first.
#[cycle(count)]
pub(crate) fn list_counts(
    tables: &Tables<'_>,
    nodes: &Nodes<'_, '_>,
    memo: &mut Memo,
    object: &Object<'_, '_>,
) -> Result<Vec<Count>, AllocError>
    requires sound { AreSound tables.now nodes.now memo.old.entries.items }
    requires object { IsObject tables.now nodes.now object.now }
    ensures sound { AreSound tables.now nodes.now memo.new.entries.items }
    ensures counts { IfOk result (λ counts.
        AreListCounts tables.now nodes.now object.now counts.items) }
    ensures all { IfOk result (λ counts.
        length counts.items ≡ length object.now.list.now.below.items) }
{
    let below = &object.list.below;
    let mut counts = Vec::with_capacity(tables.alloc, below.len())?;
    let mut last = None;
    for index in below {
        let list = &tables.lists[*index];
        if fails_at_first(nodes, object, list, &mut last) {
            counts.push(Count::None)?;
            continue;
        }
        let count = count_list(tables, nodes, memo, object, list, &counts)?;
        counts.push(count)?;
    }
    Ok(counts)
}
