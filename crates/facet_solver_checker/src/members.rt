//! What the members of a name are read as by the choices of lists of parts.
ghost use Rattle.std.specs.Prelude.{◌≡◌, ◌++◌, IfOk, OnOk};
ghost use Rattle.std.specs.List.{filter_map};
ghost use Rattle.std.specs.Option.{option_to_list};
ghost use Rattle.facet_solver_checker.specs.PlanMembers.{target_named, targets_at, targets_below};

use facet_solver_reader::{PlannedList, PlannedPart};
use std::alloc::{AllocError, Global};

/// The targets of the members of a name in these of several lists.
pub(crate) fn targets_of(
    alloc: Global,
    lists: &[PlannedList<'_>],
    below: &[usize],
    name: &str,
) -> Result<Vec<usize>, AllocError>
    ensures { IfOk result (λ ts. ts.items ≡ targets_below lists.now name.now below.now) }
{
    let mut targets = Vec::new(alloc);
    for number in below {
        push_targets_at(&mut targets, lists, *number, name)?;
    }
    Ok(targets)
}

/// Adds those in the list of a number.
fn push_targets_at(
    targets: &mut Vec<usize>,
    lists: &[PlannedList<'_>],
    number: usize,
    name: &str,
) -> Result<(), AllocError>
    ensures { OnOk result
        (targets.new.items ≡ targets.old.items ++ targets_at lists.now name.now number) }
{
    match lists.get(number) {
        Some(list) => push_targets(targets, &list.parts, name),
        None => Ok(()),
    }
}

/// Adds the targets of the members of a name among parts.
fn push_targets(
    targets: &mut Vec<usize>,
    parts: &[PlannedPart<'_>],
    name: &str,
) -> Result<(), AllocError>
    ensures { OnOk result
        (targets.new.items ≡ targets.old.items ++ filter_map (target_named name.now) parts.now) }
{
    for part in parts {
        push_target(targets, part, name)?;
    }
    Ok(())
}

/// Adds the target of a part, if it is a member of the name.
fn push_target(
    targets: &mut Vec<usize>,
    part: &PlannedPart<'_>,
    name: &str,
) -> Result<(), AllocError>
    ensures { OnOk result (targets.new.items
        ≡ targets.old.items ++ option_to_list (target_named name.now part.now)) }
{
    match part {
        PlannedPart::Member(member) if member.name == name => targets.push(member.target)?,
        _ => {}
    }
    Ok(())
}
