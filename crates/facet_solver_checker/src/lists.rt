//! Lists that what two targets come to reads in common.
ghost use Rattle.std.specs.Prelude.{◌≡◌, Any, IsTrue, true};
ghost use Rattle.facet_solver_checker.specs.Aparts.{is_apart};
ghost use Rattle.facet_solver_checker.specs.Apartness.{ArePlacesApart, ListsApart};
ghost use Rattle.facet_solver_reader.specs.declared.plan.Plan.{Plan};

use crate::apart::Apart;
use crate::kinds::reads_list;
use facet_solver_reader::PlannedEnd;

/// Whether no list is read by both of two ends.
pub(crate) fn lists_apart(apart: &Apart, first: &PlannedEnd<'_>, second: &PlannedEnd<'_>) -> bool
    ensures { IsTrue result → (p : Plan) → ListsApart p apart.now first.now second.now }
{
    match first {
        PlannedEnd::List(item) => from_list(apart, *item, second),
        PlannedEnd::Tuple(items) => from_tuple(apart, items, second),
        _ => !reads_list(first),
    }
}

/// Whether no list of items of a target is read by an end.
fn from_list(apart: &Apart, item: usize, end: &PlannedEnd<'_>) -> bool
    ensures { IsTrue result
        → (p : Plan) → ListsApart p apart.now (PlannedEnd.List item) end.now }
{
    match end {
        PlannedEnd::Tuple(items) => some_below(apart, item, items),
        _ => !reads_list(end),
    }
}

/// Whether a target reads nothing that one of several targets reads.
fn some_below(apart: &Apart, item: usize, items: &[usize]) -> bool
    ensures { IsTrue result → Any (λ k. is_apart apart.now item k ≡ true) items.now }
{
    for other in items {
        if apart.has(item, *other) {
            return true;
        }
    }
    false
}

/// Whether one of several targets reads nothing that a target reads.
fn some_above(apart: &Apart, items: &[usize], item: usize) -> bool
    ensures { IsTrue result → Any (λ k. is_apart apart.now k item ≡ true) items.now }
{
    for other in items {
        if apart.has(*other, item) {
            return true;
        }
    }
    false
}

/// Whether no list of a value for each of several targets is read by an end.
fn from_tuple(apart: &Apart, items: &Vec<usize>, end: &PlannedEnd<'_>) -> bool
    ensures { IsTrue result
        → (p : Plan) → ListsApart p apart.now (PlannedEnd.Tuple items.now) end.now }
{
    match end {
        PlannedEnd::List(item) => some_above(apart, items, *item),
        PlannedEnd::Tuple(others) => places_apart(apart, items, others),
        _ => !reads_list(end),
    }
}

/// Whether two tuples are of different lengths, or have targets at one place that read nothing in
/// common.
fn places_apart(apart: &Apart, first: &[usize], second: &[usize]) -> bool
    ensures { IsTrue result → ArePlacesApart apart.now first.now second.now }
{
    if first.len() != second.len() {
        return true;
    }
    for index in 0..first.len() {
        if apart.has(first[index], second[index]) {
            return true;
        }
    }
    false
}
