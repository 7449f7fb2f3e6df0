//! Whether an object has members that a list does not know.
ghost use Rattle.std.specs.Prelude.{◌≡◌, ◌<◌, IfSome, IsSorted};
ghost use Rattle.facet_solver_shape.specs.Names.{name_ref_cmp};
ghost use Rattle.facet_solver_reader.specs.Known.{named};
ghost use Rattle.facet_solver_reader.specs.Nodes.{IsNumbering, count, members_in, value_of};
ghost use Rattle.facet_solver_reader.specs.SmallerLists.{KnowsAllOf};
ghost use Rattle.facet_solver_reader.specs.Tables as spec;
ghost use Rattle.facet_solver_reader.specs.Tables.{knows};

use super::members::members_of;
use crate::nodes::Nodes;
use crate::tables::List;

/// Whether an object has a member of a name that no choice of a list has.
pub(crate) fn has_unknown(nodes: &Nodes<'_, '_>, node: usize, list: &List<'_>) -> bool
    requires numbering { IsNumbering nodes.now }
    requires inside { node < count nodes.now }
    requires sorted { IsSorted name_ref_cmp list.now.names.items }
    ensures { result ≡ spec.has_unknown list.now (members_in (value_of nodes.now node)) }
{
    let mut next = 0;
    for member in nodes.by_name(node) {
        if !list.has_name_next(member.0, &mut next) {
            return true;
        }
    }
    false
}

/// The same, where the list has each name of a smaller one, if there is one: names are looked up
/// first in that.
pub(crate) fn has_unknown_beside(
    nodes: &Nodes<'_, '_>,
    node: usize,
    list: &List<'_>,
    smaller: Option<&List<'_>>,
) -> bool
    requires numbering { IsNumbering nodes.now }
    requires inside { node < count nodes.now }
    requires sorted { IsSorted name_ref_cmp list.now.names.items }
    requires smaller_sorted { IfSome smaller (λ l. IsSorted name_ref_cmp l.now.names.items) }
    requires within { IfSome smaller (λ l. KnowsAllOf l.now list.now) }
    ensures { result ≡ spec.has_unknown list.now (members_in (value_of nodes.now node)) }
{
    let Some(smaller) = smaller else {
        return has_unknown(nodes, node, list);
    };
    for member in members_of(nodes.value(node)) {
        if !has_name_beside(list, smaller, member.0) {
            return true;
        }
    }
    false
}

/// Whether a list has a name, which is looked up first in a smaller one.
fn has_name_beside(list: &List<'_>, smaller: &List<'_>, name: &str) -> bool
    requires sorted { IsSorted name_ref_cmp list.now.names.items }
    requires smaller_sorted { IsSorted name_ref_cmp smaller.now.names.items }
    requires within { KnowsAllOf smaller.now list.now }
    ensures { result ≡ knows list.now (named name.now) }
{
    smaller.has_name(name) || list.has_name(name)
}
