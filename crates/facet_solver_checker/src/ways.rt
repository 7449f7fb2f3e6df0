//! In which ways a list of parts reads the member of a name.
ghost use Rattle.std.specs.Prelude.{◌≡◌, ◌++◌, IfOk, OnOk};
ghost use Rattle.std.specs.List.{list_any, filter_map};
ghost use Rattle.std.specs.Option.{option_to_list};
ghost use Rattle.std.specs.Str.{bytes_eq};
ghost use Rattle.facet_solver_checker.specs.Ways.{
  AreWays,
  all_apart,
  has_no_way,
  is_apart_from,
  taken_at,
  taken_below,
  takes_any,
  takes_any_at,
  takes_any_below,
  takes_any_in,
  target_taken,
  ways_apart,
};

use crate::apart::Apart;
use crate::members::targets_of;
use facet_solver_reader::{Plan, PlannedCatchAll, PlannedList, PlannedPart};
use std::alloc::{AllocError, Global};

/// In which ways the value of a member is read.
#[derive(Drop)]
pub(crate) struct Ways {
    /// As one of these targets.
    targets: Vec<usize>,
    /// Whatever it is.
    any: bool,
}

impl Ways {
    /// Those in which a list, of which these are left, reads the member of a name.
    pub(crate) fn of(
        alloc: Global,
        plan: &Plan<'_>,
        list: &PlannedList<'_>,
        left: &[usize],
        name: &str,
    ) -> Result<Ways, AllocError>
        ensures { IfOk result (AreWays plan.now list.now name.now left.now) }
    {
        if knows(&list.names, name) {
            let targets = targets_of(alloc, &plan.lists, left, name)?;
            Ok(Ways {
                targets,
                any: false,
            })
        } else {
            let targets = taken_of(alloc, plan, left, name)?;
            let any = !plan.strict || takes_any_of(&plan.lists, left);
            Ok(Ways { targets, any })
        }
    }

    /// As one of several targets.
    pub(crate) fn only(targets: Vec<usize>) -> Ways
        ensures { result.targets.items ≡ targets.items }
    {
        Ways {
            targets,
            any: false,
        }
    }

    /// Whatever the value is.
    pub(crate) fn any(alloc: Global) -> Ways {
        Ways {
            targets: Vec::new(alloc),
            any: true,
        }
    }

    /// The targets.
    pub(crate) fn targets(&self) -> &[usize] {
        &self.targets
    }

    /// Whether no value is read in one of these ways and in one of others.
    pub(crate) fn are_apart(&self, apart: &Apart, others: &Ways) -> bool
        ensures { result ≡ ways_apart apart.now self.now others.now }
    {
        (!self.any || others.is_none())
            && (!others.any || self.is_none())
            && are_all_apart(apart, &self.targets, &others.targets)
    }

    /// Whether there is none.
    fn is_none(&self) -> bool
        ensures { result ≡ has_no_way self.now }
    {
        !self.any && self.targets.is_empty()
    }
}

/// Whether a table has each pair of two lists of targets.
pub(crate) fn are_all_apart(apart: &Apart, first: &[usize], second: &[usize]) -> bool
    ensures { result ≡ all_apart apart.now first.now second.now }
{
    first.iter().all(|one| is_apart_from(apart, second, *one))
}

/// Whether it has each pair of a target and one of several.
fn is_apart_from(apart: &Apart, second: &[usize], one: usize) -> bool
    ensures { result ≡ is_apart_from apart.now second.now one }
{
    second.iter().all(|other| apart.has(one, *other))
}

/// Whether a name is one of several.
pub(crate) fn knows(names: &[&str], name: &str) -> bool
    ensures { result ≡ list_any (λ n. bytes_eq n.now name.now) names.now }
{
    names.iter().any(|known| *known == name)
}

/// The targets of the values of the maps that have a name as a key in these of several lists.
fn taken_of(
    alloc: Global,
    plan: &Plan<'_>,
    left: &[usize],
    name: &str,
) -> Result<Vec<usize>, AllocError>
    ensures { IfOk result (λ ts. ts.items
        ≡ taken_below plan.now.shapes.now plan.now.lists.items name.now left.now) }
{
    let mut targets = Vec::new(alloc);
    for number in left {
        push_taken_at(&mut targets, plan, *number, name)?;
    }
    Ok(targets)
}

/// Adds those in the list of a number.
fn push_taken_at(
    targets: &mut Vec<usize>,
    plan: &Plan<'_>,
    number: usize,
    name: &str,
) -> Result<(), AllocError>
    ensures { OnOk result (targets.new.items ≡ targets.old.items
        ++ taken_at plan.now.shapes.now plan.now.lists.items name.now number) }
{
    match plan.lists.get(number) {
        Some(list) => push_taken(targets, plan, &list.parts, name),
        None => Ok(()),
    }
}

/// Adds those among parts.
fn push_taken(
    targets: &mut Vec<usize>,
    plan: &Plan<'_>,
    parts: &[PlannedPart<'_>],
    name: &str,
) -> Result<(), AllocError>
    ensures { OnOk result (targets.new.items ≡ targets.old.items
        ++ filter_map (target_taken plan.now.shapes.now name.now) parts.now) }
{
    for part in parts {
        push_taken_by(targets, plan, part, name)?;
    }
    Ok(())
}

/// Adds that of a part, if it is such a map.
fn push_taken_by(
    targets: &mut Vec<usize>,
    plan: &Plan<'_>,
    part: &PlannedPart<'_>,
    name: &str,
) -> Result<(), AllocError>
    ensures { OnOk result (targets.new.items ≡ targets.old.items
        ++ option_to_list (target_taken plan.now.shapes.now name.now part.now)) }
{
    match part {
        PlannedPart::CatchAll(PlannedCatchAll::Map(key, values)) if plan.is_key(*key, name) => {
            targets.push(*values)?;
        }
        _ => {}
    }
    Ok(())
}

/// Whether a part of one of these of several lists takes members of any value.
fn takes_any_of(lists: &[PlannedList<'_>], left: &[usize]) -> bool
    ensures { result ≡ takes_any_below lists.now left.now }
{
    left.iter().any(|number| takes_any_at(lists, *number))
}

/// Whether a part of the list of a number does.
fn takes_any_at(lists: &[PlannedList<'_>], number: usize) -> bool
    ensures { result ≡ takes_any_at lists.now number }
{
    match lists.get(number) {
        Some(list) => list_takes_any(list),
        None => false,
    }
}

/// Whether a part of a list does.
fn list_takes_any(list: &PlannedList<'_>) -> bool
    ensures { result ≡ takes_any_in list.now }
{
    list.parts.iter().any(|part| part_takes_any(part))
}

/// Whether a part does.
fn part_takes_any(part: &PlannedPart<'_>) -> bool
    ensures { result ≡ takes_any part.now }
{
    matches!(part, PlannedPart::CatchAll(PlannedCatchAll::Anything))
}
