//! Lists whose choices have the items that choices of another list have.
ghost use Rattle.std.specs.Prelude.{◌≡◌, ◌++◌, ◌∷◌, [], IfOk, OnOk};
ghost use Rattle.std.specs.Option.{unwrap_or};
ghost use Rattle.facet_solver_reader.specs.Plans.{Meaning};
ghost use Rattle.facet_solver_checker.specs.Inners.{
  AreInners,
  all_inners,
  branches_of_only,
  inners_at,
};
ghost use Rattle.facet_solver_checker.specs.PlanMembers.{AreListsOf};

use facet_solver_reader::{Plan, PlannedList, PlannedPart};
use std::alloc::{AllocError, Global};

/// So many times lists are replaced by their branches.
const LEVELS: usize = 4;

/// Lists are replaced by their branches while there are no more than these.
const MOST: usize = 64;

/// Lists of which each choice of the list of a number has the items of a choice: the branches of a
/// list that is one selection, and theirs.
pub(crate) fn inners_of(
    alloc: Global,
    plan: &Plan<'_>,
    number: usize,
) -> Result<Vec<usize>, AllocError>
    ensures { IfOk result (λ ns.
        (m : Meaning) → AreListsOf m plan.now → AreInners m number ns.items) }
{
    let mut inners = vec![in alloc; number]?;
    for _ in 0..LEVELS {
        let more = inners_of_all(alloc, &plan.lists, &inners)?;
        if more == inners || more.len() > MOST {
            return Ok(inners);
        }
        inners = more;
    }
    Ok(inners)
}

/// Whether a list is one selection, so that its branches stand for it.
pub(crate) fn is_split(plan: &Plan<'_>, number: usize) -> bool {
    match plan.lists.get(number) {
        Some(list) => match list.parts.as_slice() {
            [only] => is_present(only),
            _ => false,
        },
        None => false,
    }
}

/// Whether a part is a selection that is always present.
fn is_present(part: &PlannedPart<'_>) -> bool {
    match part {
        PlannedPart::Selection(selection) => !selection.optional,
        _ => false,
    }
}

/// The branches of several lists, or they themselves.
fn inners_of_all(
    alloc: Global,
    lists: &[PlannedList<'_>],
    numbers: &[usize],
) -> Result<Vec<usize>, AllocError>
    ensures { IfOk result (λ ns. ns.items ≡ all_inners lists.now numbers.now) }
{
    let mut inners = Vec::new(alloc);
    for number in numbers {
        push_inners(&mut inners, lists, *number)?;
    }
    Ok(inners)
}

/// Adds the branches of a list that is one selection, or the list itself.
fn push_inners(
    inners: &mut Vec<usize>,
    lists: &[PlannedList<'_>],
    number: usize,
) -> Result<(), AllocError>
    ensures { OnOk result (inners.new.items ≡ inners.old.items ++ inners_at lists.now number) }
{
    match lists.get(number) {
        Some(list) => push_inners_of(inners, list, number),
        None => {
            inners.push(number)?;
            Ok(())
        }
    }
}

/// The same of the list of the number.
fn push_inners_of(
    inners: &mut Vec<usize>,
    list: &PlannedList<'_>,
    number: usize,
) -> Result<(), AllocError>
    ensures { OnOk result (inners.new.items
        ≡ inners.old.items ++ unwrap_or (branches_of_only list.now.parts.items) (number ∷ [])) }
{
    if let [only] = list.parts.as_slice() {
        push_inners_of_part(inners, only, number)
    } else {
        inners.push(number)?;
        Ok(())
    }
}

/// The same of the list's only part.
fn push_inners_of_part(
    inners: &mut Vec<usize>,
    only: &PlannedPart<'_>,
    number: usize,
) -> Result<(), AllocError>
    ensures { OnOk result (inners.new.items
        ≡ inners.old.items ++ unwrap_or (branches_of_only (only.now ∷ [])) (number ∷ [])) }
{
    match only {
        PlannedPart::Selection(selection) if !selection.optional => {
            inners.extend_from_slice(&selection.branches)?;
        }
        _ => inners.push(number)?,
    }
    Ok(())
}
