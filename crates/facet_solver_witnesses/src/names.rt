//! The names of the ways to read what can be read in several.
ghost use Rattle.std.specs.Prelude.{◌≡◌, ◌++◌, Contains, IfOk, OnOk};
ghost use Rattle.std.specs.List.{flat_map};
ghost use Rattle.facet_solver_witnesses.specs.WayNames as spec;
ghost use Rattle.facet_solver_witnesses.specs.WayNames.{names_at};

use crate::place::Fork;
use facet_solver_reader::{
    Plan, PlannedEnd, PlannedPart, PlannedSelection, PlannedTarget, TypeName,
};
use std::alloc::{AllocError, Global};

/// The name of what is not there.
const NO_NAME: TypeName<'static> = TypeName {
    name: "",
    variant: None,
};

/// The names of the variants that the way of an index takes: one, or, behind the last variant of
/// an enum that is read as a value, those that read an object together. None where there is no such
/// way.
pub fn way_names<'c>(
    alloc: Global,
    plan: &Plan<'c>,
    fork: Fork,
    way: usize,
) -> Result<Vec<TypeName<'c>>, AllocError>
    ensures { IfOk result (λ names. names.items ≡ spec.way_names plan.now fork way) }
{
    match fork {
        Fork::Selection(list, part) => {
            let name = match branches_at(plan, list, part).get(way) {
                Some(branch) => list_name(plan, *branch),
                None => None,
            };
            name.into_iter().collect(alloc)
        }
        Fork::Enum(target) => match plan.targets.get(target) {
            Some(planned) => enum_names(alloc, plan, &planned.end, way),
            None => Ok(Vec::new(alloc)),
        },
    }
}

/// The type or variant that has what can be read in several ways: of an enum the enum.
pub(crate) fn owner_of<'c>(plan: &Plan<'c>, fork: Fork) -> TypeName<'c> {
    match fork {
        Fork::Selection(list, _) => list_name(plan, list).unwrap_or(NO_NAME),
        Fork::Enum(target) => match plan.targets.get(target) {
            Some(planned) => enum_name(planned),
            None => NO_NAME,
        },
    }
}

/// The name of the enum that a target is, also by a pointer.
fn enum_name<'c>(target: &PlannedTarget<'c>) -> TypeName<'c> {
    match first_variant(target) {
        Some((_, name)) => TypeName {
            name,
            variant: None,
        },
        None => target.name,
    }
}

/// A fork, and before it the other targets that are the same enum.
pub(crate) fn forks_like(
    alloc: Global,
    plan: &Plan<'_>,
    fork: Fork,
) -> Result<Vec<Fork>, AllocError>
    ensures { IfOk result (λ forks. Contains forks.items fork) }
{
    let mut forks = enums_like(alloc, plan, fork)?;
    forks.push(fork)?;
    Ok(forks)
}

/// The other targets that are the same enum as a fork, as by a pointer.
fn enums_like(alloc: Global, plan: &Plan<'_>, fork: Fork) -> Result<Vec<Fork>, AllocError> {
    let mut forks = Vec::new(alloc);
    if let Fork::Enum(target) = fork
        && let Some((content, _)) = content_at(plan, target)
    {
        for other in 0..plan.targets.len() {
            if other != target && content_at(plan, other).is_some_and(|(it, _)| it == content) {
                forks.push(Fork::Enum(other))?;
            }
        }
    }
    Ok(forks)
}

/// The content of the first variant of the enum that a target is, and the name of the enum.
fn content_at<'c>(plan: &Plan<'c>, target: usize) -> Option<(usize, &'c str)> {
    first_variant(plan.targets.get(target)?)
}

/// The content of the first variant of an enum, and the name of the enum.
pub(crate) fn first_variant<'c>(target: &PlannedTarget<'c>) -> Option<(usize, &'c str)> {
    match &target.end {
        PlannedEnd::Untagged(_, variants) => {
            let first = variants.first()?;
            Some((first.content, first.name.name))
        }
        PlannedEnd::Named(variants) => {
            let first = variants.first()?;
            Some((first.content, first.name.name))
        }
        _ => None,
    }
}

/// The field that can be read in several ways; empty where it is none.
pub(crate) fn field_of<'c>(plan: &Plan<'c>, fork: Fork) -> &'c str {
    match fork {
        Fork::Selection(list, part) => match selection_at(plan, list, part) {
            Some(selection) => selection.field,
            None => "",
        },
        Fork::Enum(_) => "",
    }
}

/// The name of the list of a number.
fn list_name<'c>(plan: &Plan<'c>, number: usize) -> Option<TypeName<'c>>
    ensures { result ≡ spec.list_name plan.now number }
{
    plan.lists.get(number).map(|list| list.name)
}

/// The selection that a list has as a part.
fn selection_at<'p, 'c>(
    plan: &'p Plan<'c>,
    list: usize,
    part: usize,
) -> Option<&'p PlannedSelection<'c>> {
    match plan.lists.get(list)?.parts.get(part)? {
        PlannedPart::Selection(selection) => Some(selection),
        _ => None,
    }
}

/// The branches of the selection that a list has as a part.
fn branches_at<'p>(plan: &'p Plan<'_>, list: usize, part: usize) -> &'p [usize]
    ensures { result.now ≡ spec.branches_at plan.now list part }
{
    match plan.lists.get(list) {
        Some(list) => match list.parts.get(part) {
            Some(part) => branches_in(part),
            None => &[],
        },
        None => &[],
    }
}

/// The branches of a part, if it is a selection.
fn branches_in<'p>(part: &'p PlannedPart<'_>) -> &'p [usize]
    ensures { result.now ≡ spec.branches_in part.now }
{
    match part {
        PlannedPart::Selection(selection) => &selection.branches,
        _ => &[],
    }
}

/// The names of the variants that the way of an index takes of an enum.
fn enum_names<'c>(
    alloc: Global,
    plan: &Plan<'c>,
    end: &PlannedEnd<'c>,
    way: usize,
) -> Result<Vec<TypeName<'c>>, AllocError>
    ensures { IfOk result (λ names. names.items ≡ spec.enum_names plan.now end.now way) }
{
    match end {
        PlannedEnd::Named(variants) => {
            let name = variants.get(way).map(|variant| variant.name);
            name.into_iter().collect(alloc)
        }
        PlannedEnd::Untagged(joined, alone) => match alone.get(way) {
            Some(variant) => Some(variant.name).into_iter().collect(alloc),
            None => joined_names(alloc, plan, *joined),
        },
        _ => Ok(Vec::new(alloc)),
    }
}

/// The names of the variants that join, by the number of their list.
fn joined_names<'c>(
    alloc: Global,
    plan: &Plan<'c>,
    joined: Option<usize>,
) -> Result<Vec<TypeName<'c>>, AllocError>
    ensures { IfOk result (λ names. names.items ≡ spec.joined_names plan.now joined) }
{
    match joined {
        Some(list) => names_of(alloc, plan, branches_at(plan, list, 0)),
        None => Ok(Vec::new(alloc)),
    }
}

/// The names of several lists.
fn names_of<'c>(
    alloc: Global,
    plan: &Plan<'c>,
    lists: &[usize],
) -> Result<Vec<TypeName<'c>>, AllocError>
    ensures { IfOk result (λ names. names.items ≡ flat_map (names_at plan.now) lists.now) }
{
    let mut names = Vec::new(alloc);
    for list in lists {
        push_name(&mut names, plan, *list)?;
    }
    Ok(names)
}

/// Adds the name of a list, if it is there.
fn push_name<'c>(
    names: &mut Vec<TypeName<'c>>,
    plan: &Plan<'c>,
    list: usize,
) -> Result<(), AllocError>
    ensures { OnOk result (names.new.items
        ≡ names.old.items ++ names_at plan.now list) }
{
    if let Some(name) = list_name(plan, list) {
        names.push(name)?;
    }
    Ok(())
}
