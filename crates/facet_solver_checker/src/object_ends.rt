//! Objects that what two targets come to reads in common.
ghost use Rattle.std.specs.Prelude.{◌≡◌, ◌&&◌, All, IfOk, IsTrue, false};
ghost use Rattle.facet_solver_checker.specs.Apartness as spec;
ghost use Rattle.facet_solver_checker.specs.Apartness.{AreNamesRequired, NameIsApart, NamesApart};
ghost use Rattle.facet_solver_reader.specs.declared.plan.Plan as declared;

use crate::apart::Apart;
use crate::end_ways::{end_apart_from, list_apart_from};
use crate::kinds::reads_object;
use crate::objects::objects_apart;
use crate::required::Required;
use facet_solver_reader::{Plan, PlannedEnd, PlannedName};
use std::alloc::{AllocError, Global};

/// Whether no object is read by both of two ends.
pub(crate) fn ends_objects_apart(
    alloc: Global,
    plan: &Plan<'_>,
    required: &Required<'_>,
    apart: &Apart,
    first: &PlannedEnd<'_>,
    second: &PlannedEnd<'_>,
) -> Result<bool, AllocError>
    requires required { AreNamesRequired plan.now required.now.names.items }
    ensures { IfOk result (λ b.
        IsTrue b → spec.ObjectsApart plan.now apart.now first.now second.now) }
{
    match first {
        PlannedEnd::Object(list) => from_parts(alloc, plan, required, apart, *list, second),
        _ => from_other(alloc, plan, required, apart, first, second),
    }
}

/// The same of a first end that is no list of parts.
fn from_other(
    alloc: Global,
    plan: &Plan<'_>,
    required: &Required<'_>,
    apart: &Apart,
    first: &PlannedEnd<'_>,
    second: &PlannedEnd<'_>,
) -> Result<bool, AllocError>
    requires required { AreNamesRequired plan.now required.now.names.items }
    ensures { IfOk result (λ b.
        IsTrue b → spec.ObjectsApart plan.now apart.now first.now second.now) }
{
    match second {
        PlannedEnd::Object(list) => to_parts(alloc, plan, required, apart, first, *list),
        _ => Ok(without_parts(apart, first, second)),
    }
}

/// Whether no object is read by both of two ends that are no lists of parts.
fn without_parts(apart: &Apart, first: &PlannedEnd<'_>, second: &PlannedEnd<'_>) -> bool
    ensures { IsTrue result
        → (p : declared.Plan) → spec.ObjectsApart p apart.now first.now second.now }
{
    match first {
        PlannedEnd::Named(names) => from_names(apart, names, second),
        _ => not_both(reads_object(first), reads_object(second)),
    }
}

/// Whether no object that an end reads is read by a list of parts, if there is one.
fn to_parts(
    alloc: Global,
    plan: &Plan<'_>,
    required: &Required<'_>,
    apart: &Apart,
    end: &PlannedEnd<'_>,
    list: Option<usize>,
) -> Result<bool, AllocError>
    requires required { AreNamesRequired plan.now required.now.names.items }
    ensures { IfOk result (λ b. IsTrue b
        → spec.ObjectsApart plan.now apart.now end.now (PlannedEnd.Object list)) }
{
    let Some(list) = list else {
        return Ok(true);
    };
    if reads_object(end) {
        end_apart_from(alloc, plan, required, apart, end, list)
    } else {
        Ok(true)
    }
}

/// Whether not both.
fn not_both(first: bool, second: bool) -> bool
    ensures { IsTrue result → (first && second) ≡ false }
{
    !(first && second)
}

/// Whether no object that a list of parts reads is read by an end.
fn from_parts(
    alloc: Global,
    plan: &Plan<'_>,
    required: &Required<'_>,
    apart: &Apart,
    list: Option<usize>,
    end: &PlannedEnd<'_>,
) -> Result<bool, AllocError>
    requires required { AreNamesRequired plan.now required.now.names.items }
    ensures { IfOk result (λ b. IsTrue b
        → spec.ObjectsApart plan.now apart.now (PlannedEnd.Object list) end.now) }
{
    let Some(list) = list else {
        return Ok(true);
    };
    match end {
        PlannedEnd::Object(other) => between_parts(alloc, plan, required, apart, list, *other),
        _ => if reads_object(end) {
            list_apart_from(alloc, plan, required, apart, list, end)
        } else {
            Ok(true)
        },
    }
}

/// Whether no object that a list of parts reads is read by another, if there is one.
fn between_parts(
    alloc: Global,
    plan: &Plan<'_>,
    required: &Required<'_>,
    apart: &Apart,
    list: usize,
    other: Option<usize>,
) -> Result<bool, AllocError>
    requires required { AreNamesRequired plan.now required.now.names.items }
    ensures { IfOk result (λ b. IsTrue b → spec.ObjectsApart plan.now apart.now
        (PlannedEnd.Object (Some list)) (PlannedEnd.Object other)) }
{
    let Some(other) = other else {
        return Ok(true);
    };
    objects_apart(alloc, plan, required, apart, list, other)
}

/// Whether no object that names a variant is read by an end.
fn from_names(apart: &Apart, names: &Vec<PlannedName<'_>>, end: &PlannedEnd<'_>) -> bool
    ensures { IsTrue result → (p : declared.Plan)
        → spec.ObjectsApart p apart.now (PlannedEnd.Named names.now) end.now }
{
    match end {
        PlannedEnd::Named(others) => names_apart(apart, names, others),
        _ => !reads_object(end),
    }
}

/// Whether variants of one name have content that is apart.
fn names_apart(apart: &Apart, first: &[PlannedName<'_>], second: &[PlannedName<'_>]) -> bool
    ensures { IsTrue result → NamesApart apart.now first.now second.now }
{
    for name in first {
        if !name_apart(apart, name, second) {
            return false;
        }
    }
    true
}

/// Whether the content of a variant is apart from that of others of its name.
fn name_apart(apart: &Apart, name: &PlannedName<'_>, others: &[PlannedName<'_>]) -> bool
    ensures { IsTrue result → All (NameIsApart apart.now name.now) others.now }
{
    for other in others {
        if !contents_apart(apart, name, other) {
            return false;
        }
    }
    true
}

/// Whether the contents of two variants are apart, if their names are one.
fn contents_apart(apart: &Apart, name: &PlannedName<'_>, other: &PlannedName<'_>) -> bool
    ensures { IsTrue result → NameIsApart apart.now name.now other.now }
{
    if name.text == other.text {
        apart.has(name.content, other.content)
    } else {
        true
    }
}
