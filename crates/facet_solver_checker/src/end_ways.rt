//! How what a target comes to, if that is no list of parts, reads the member of a name.
ghost use Rattle.std.specs.Prelude.{◌≡◌, All, IfOk, IfSome, IsTrue, OnOk, true};
ghost use Rattle.std.specs.List.{Contains};
ghost use Rattle.facet_solver_reader.specs.Types.{is_key};
ghost use Rattle.facet_solver_checker.specs.Apartness as spec;
ghost use Rattle.facet_solver_checker.specs.Apartness.{AreNamesRequired};
ghost use Rattle.facet_solver_checker.specs.EndWays.{
  AreContentsAmong,
  AreEndWays,
  AreMemberWays,
  HasContent,
};

use crate::apart::Apart;
use crate::required::Required;
use crate::ways::Ways;
use facet_solver_reader::{Plan, PlannedEnd, PlannedName};
use facet_solver_shape::ShapeId;
use std::alloc::{AllocError, Global};

/// The ways in which a list of parts, and an end, read the member of a name.
#[derive(Drop)]
pub(crate) struct MemberWays {
    pub(crate) list: Ways,
    pub(crate) end: Ways,
}

/// Whether a list of parts reads no object in common with an end, by a name that the list requires.
pub(crate) fn list_apart_from(
    alloc: Global,
    plan: &Plan<'_>,
    required: &Required<'_>,
    apart: &Apart,
    list: usize,
    end: &PlannedEnd<'_>,
) -> Result<bool, AllocError>
    requires required { AreNamesRequired plan.now required.now.names.items }
    ensures { IfOk result (λ b. IsTrue b
        → spec.ObjectsApart plan.now apart.now (PlannedEnd.Object (Some list)) end.now) }
{
    let Some(names) = required.names.get(list) else {
        return Ok(false);
    };
    for name in names {
        if let Some(ways) = member_ways(alloc, plan, list, end, name)? {
            if ways.list.are_apart(apart, &ways.end) {
                return Ok(true);
            }
        }
    }
    Ok(false)
}

/// Whether an end reads no object in common with a list of parts, by a name that the list requires.
pub(crate) fn end_apart_from(
    alloc: Global,
    plan: &Plan<'_>,
    required: &Required<'_>,
    apart: &Apart,
    end: &PlannedEnd<'_>,
    list: usize,
) -> Result<bool, AllocError>
    requires required { AreNamesRequired plan.now required.now.names.items }
    ensures { IfOk result (λ b. IsTrue b
        → spec.ObjectsApart plan.now apart.now end.now (PlannedEnd.Object (Some list))) }
{
    let Some(names) = required.names.get(list) else {
        return Ok(false);
    };
    for name in names {
        if let Some(ways) = member_ways(alloc, plan, list, end, name)? {
            if ways.end.are_apart(apart, &ways.list) {
                return Ok(true);
            }
        }
    }
    Ok(false)
}

/// How a list of parts, and an end, read the member of a name, if that is told.
pub(crate) fn member_ways(
    alloc: Global,
    plan: &Plan<'_>,
    list: usize,
    end: &PlannedEnd<'_>,
    name: &str,
) -> Result<Option<MemberWays>, AllocError>
    ensures { IfOk result (λ o. IfSome o (λ w.
        AreMemberWays plan.now list end.now name.now w)) }
{
    let Some(entry) = plan.lists.get(list) else {
        return Ok(None);
    };
    let Some(of_end) = ways_of_end(alloc, plan, end, name)? else {
        return Ok(None);
    };
    let of_list = Ways::of(alloc, plan, entry, &entry.below, name)?;
    Ok(Some(MemberWays {
        list: of_list,
        end: of_end,
    }))
}

/// How an end reads the member of a name, if that is told.
fn ways_of_end(
    alloc: Global,
    plan: &Plan<'_>,
    end: &PlannedEnd<'_>,
    name: &str,
) -> Result<Option<Ways>, AllocError>
    ensures { IfOk result (λ o. IfSome o (AreEndWays plan.now end.now name.now)) }
{
    match end {
        PlannedEnd::Map(key, value) => {
            let targets = values_of(alloc, plan, *key, *value, name)?;
            Ok(Some(Ways::only(targets)))
        }
        PlannedEnd::Named(names) => {
            let targets = contents_of(alloc, names, name)?;
            Ok(Some(Ways::only(targets)))
        }
        PlannedEnd::Nothing => {
            let targets = Vec::new(alloc);
            Ok(Some(Ways::only(targets)))
        }
        _ => Ok(None),
    }
}

/// The target of the values of a map, if a name is a key of it.
fn values_of(
    alloc: Global,
    plan: &Plan<'_>,
    key: ShapeId,
    value: usize,
    name: &str,
) -> Result<Vec<usize>, AllocError>
    ensures { IfOk result (λ ts.
        is_key plan.now.shapes.now key name.now ≡ true → Contains ts.items value) }
{
    if is_key_of(plan, key, name) {
        Ok(vec![in alloc; value]?)
    } else {
        Ok(Vec::new(alloc))
    }
}

/// Whether a name is a key of a map whose keys have the shape at an index.
fn is_key_of(plan: &Plan<'_>, key: ShapeId, name: &str) -> bool
    ensures { result ≡ is_key plan.now.shapes.now key name.now }
{
    plan.is_key(key, name)
}

/// The contents of the variants of a name.
fn contents_of(
    alloc: Global,
    names: &[PlannedName<'_>],
    name: &str,
) -> Result<Vec<usize>, AllocError>
    ensures { IfOk result (λ ts. AreContentsAmong names.now name.now ts.items) }
{
    let mut contents = Vec::new(alloc);
    for variant in names {
        push_content(&mut contents, variant, name)?;
    }
    Ok(contents)
}

/// Adds that of a variant, if it has the name.
fn push_content(
    contents: &mut Vec<usize>,
    variant: &PlannedName<'_>,
    name: &str,
) -> Result<(), AllocError>
    ensures kept { OnOk result (All (Contains contents.new.items) contents.old.items) }
    ensures added { OnOk result (HasContent name.now contents.new.items variant.now) }
{
    if variant.text == name {
        contents.push(variant.content)?;
    }
    Ok(())
}
