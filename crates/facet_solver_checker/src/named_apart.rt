//! Members of one name in lists of parts, by a table of targets that read no value in common.
ghost use Rattle.std.specs.Prelude.{◌≡◌};
ghost use Rattle.facet_solver_checker.specs.NamedApart as spec;

use crate::apart::Apart;
use facet_solver_reader::{PlannedList, PlannedPart};

/// Whether the table has each pair of targets that members of a name have in the first of several
/// lists, and in the second of them.
pub(crate) fn are_named_apart(
    apart: &Apart,
    lists: &[PlannedList<'_>],
    name: &str,
    first: &[usize],
    second: &[usize],
) -> bool
    ensures { result ≡ spec.are_named_apart apart.now lists.now name.now first.now second.now }
{
    first.iter().all(|number| is_number_apart(apart, lists, name, second, *number))
}

/// The same of the list of a number and the second.
fn is_number_apart(
    apart: &Apart,
    lists: &[PlannedList<'_>],
    name: &str,
    second: &[usize],
    number: usize,
) -> bool
    ensures { result ≡ spec.is_number_apart apart.now lists.now name.now second.now number }
{
    match lists.get(number) {
        Some(list) => is_list_apart(apart, lists, name, second, list),
        None => true,
    }
}

/// The same of a list and the second.
fn is_list_apart(
    apart: &Apart,
    lists: &[PlannedList<'_>],
    name: &str,
    second: &[usize],
    list: &PlannedList<'_>,
) -> bool
    ensures { result ≡ spec.is_list_apart apart.now lists.now name.now second.now list.now }
{
    list.parts
        .iter()
        .all(|part| is_part_apart(apart, lists, name, second, part))
}

/// The same of a part and the second.
fn is_part_apart(
    apart: &Apart,
    lists: &[PlannedList<'_>],
    name: &str,
    second: &[usize],
    part: &PlannedPart<'_>,
) -> bool
    ensures { result ≡ spec.is_part_apart apart.now lists.now name.now second.now part.now }
{
    match part {
        PlannedPart::Member(member) if member.name == name => {
            is_target_apart(apart, lists, name, second, member.target)
        }
        _ => true,
    }
}

/// The same of a target and the second.
fn is_target_apart(
    apart: &Apart,
    lists: &[PlannedList<'_>],
    name: &str,
    second: &[usize],
    target: usize,
) -> bool
    ensures { result ≡ spec.is_target_apart apart.now lists.now name.now second.now target }
{
    second.iter().all(|number| is_number_apart_from(apart, lists, name, target, *number))
}

/// The same of a target and the list of a number.
fn is_number_apart_from(
    apart: &Apart,
    lists: &[PlannedList<'_>],
    name: &str,
    target: usize,
    number: usize,
) -> bool
    ensures { result ≡ spec.is_number_apart_from apart.now lists.now name.now target number }
{
    match lists.get(number) {
        Some(list) => is_list_apart_from(apart, name, target, list),
        None => true,
    }
}

/// The same of a target and a list.
fn is_list_apart_from(apart: &Apart, name: &str, target: usize, list: &PlannedList<'_>) -> bool
    ensures { result ≡ spec.is_list_apart_from apart.now name.now target list.now }
{
    list.parts
        .iter()
        .all(|part| is_part_apart_from(apart, name, target, part))
}

/// The same of a target and a part.
fn is_part_apart_from(apart: &Apart, name: &str, target: usize, part: &PlannedPart<'_>) -> bool
    ensures { result ≡ spec.is_part_apart_from apart.now name.now target part.now }
{
    match part {
        PlannedPart::Member(member) if member.name == name => apart.has(target, member.target),
        _ => true,
    }
}
