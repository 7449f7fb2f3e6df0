//! What each target comes to.
ghost use Rattle.std.specs.Prelude.{All, IfOk, map};
ghost use Rattle.facet_solver_reader.specs.PlanNumbers.{AreFound, AreNumbersOf, EndIsNumbered, HasNumber, meaning_of, targets_of};
ghost use Rattle.facet_solver_reader.specs.Plans.{AreInPairs, IsPlannedAlternative, IsPlannedAs, IsPlannedEnd, IsPlannedKind, IsPlannedName, IsPlannedTarget};
ghost use Rattle.facet_solver_reader.specs.Tables.{AreTables, EndIsServed, IsServed};
ghost use Rattle.facet_solver_reader.specs.TargetKeys.{key_view};
ghost use Rattle.facet_solver_reader.specs.Views.{alternative_view, end_view, kind_view, named_view};

use super::contents::{number_of_list, planned_content, planned_shapes};
use super::names::name_of;
use super::numbers::Numbers;
use super::target_key::TargetKey;
use super::{PlannedAlternative, PlannedEnd, PlannedKind, PlannedName, PlannedTarget};
use crate::end::{Alternative, AlternativeKind, End, NamedVariant};
use crate::tables::Tables;
use facet_solver_shape::ShapeId;
use std::alloc::{AllocError, Global};

/// What each target comes to, in the order of numbers.
pub(super) fn planned_targets<'c>(
    alloc: Global,
    tables: &Tables<'c>,
    numbers: &Numbers<'c>,
) -> Result<Vec<PlannedTarget<'c>>, AllocError>
    requires tables { AreTables tables.now }
    requires numbers { AreNumbersOf tables.now numbers.now }
    ensures { IfOk result (λ ts.
        AreInPairs (IsPlannedTarget (meaning_of tables.now numbers.now))
        (targets_of numbers.now) ts.items) }
{
    let mut targets = Vec::with_capacity(alloc, numbers.targets.len())?;
    for target in &numbers.targets {
        let planned = planned_target(alloc, tables, numbers, target)?;
        if targets.push(planned).is_err() {
            return Err(AllocError);
        }
    }
    Ok(targets)
}

/// One target.
fn planned_target<'c>(
    alloc: Global,
    tables: &Tables<'c>,
    numbers: &Numbers<'c>,
    target: &TargetKey<'c>,
) -> Result<PlannedTarget<'c>, AllocError>
    requires tables { AreTables tables.now }
    requires numbers { AreNumbersOf tables.now numbers.now }
    requires served { IsServed tables.now (key_view target.now) }
    ensures { IfOk result (IsPlannedTarget (meaning_of tables.now numbers.now)
        (key_view target.now)) }
{
    Ok(PlannedTarget {
        name: name_of(tables.shapes, target),
        end: planned_end(alloc, tables, numbers, target)?,
    })
}

/// What a target comes to.
fn planned_end<'c>(
    alloc: Global,
    tables: &Tables<'c>,
    numbers: &Numbers<'c>,
    target: &TargetKey<'c>,
) -> Result<PlannedEnd<'c>, AllocError>
    requires tables { AreTables tables.now }
    requires numbers { AreNumbersOf tables.now numbers.now }
    requires served { IsServed tables.now (key_view target.now) }
    ensures { IfOk result (IsPlannedAs (meaning_of tables.now numbers.now)
        (key_view target.now)) }
{
    match target {
        TargetKey::Shape(id) => {
            planned_shape(alloc, tables, numbers, tables.end(ShapeId::new(*id)))
        }
        TargetKey::Content(id, variant) => {
            planned_content(alloc, tables, numbers, ShapeId::new(*id), *variant)
        }
        TargetKey::Tag(name) => Ok(PlannedEnd::Tag(name)),
    }
}

/// What a shape comes to.
fn planned_shape<'c>(
    alloc: Global,
    tables: &Tables<'c>,
    numbers: &Numbers<'c>,
    end: &End<'c>,
) -> Result<PlannedEnd<'c>, AllocError>
    requires found { AreFound numbers.now }
    requires served { EndIsServed tables.now (end_view end.now) }
    requires numbered { EndIsNumbered numbers.now (end_view end.now) }
    ensures { IfOk result (IsPlannedEnd (meaning_of tables.now numbers.now) (end_view end.now)) }
{
    let planned = match end {
        End::Option(inside) => PlannedEnd::Option(numbers.of_shape(*inside)),
        End::Null => PlannedEnd::Null,
        End::Truth => PlannedEnd::Truth,
        End::Whole(range) => PlannedEnd::Whole(*range),
        End::Float => PlannedEnd::Float,
        End::Text => PlannedEnd::Text,
        End::Character => PlannedEnd::Character,
        End::List(item) => PlannedEnd::List(numbers.of_shape(*item)),
        End::Tuple(shapes) => PlannedEnd::Tuple(planned_shapes(alloc, numbers, shapes)?),
        End::Map(key, value) => PlannedEnd::Map(*key, numbers.of_shape(*value)),
        End::Object(list) => PlannedEnd::Object(number_of_list(tables, *list)),
        End::NamedVariant(variants) => {
            PlannedEnd::Named(planned_names(alloc, tables, numbers, variants)?)
        }
        End::UntaggedVariant(joined, alone) => PlannedEnd::Untagged(
            number_of_list(tables, *joined),
            planned_alternatives(alloc, tables, numbers, alone)?,
        ),
        End::Anything => PlannedEnd::Anything,
    };
    Ok(planned)
}

/// Variants that a document names.
fn planned_names<'c>(
    alloc: Global,
    tables: &Tables<'c>,
    numbers: &Numbers<'c>,
    variants: &[NamedVariant<'c>],
) -> Result<Vec<PlannedName<'c>>, AllocError>
    requires found { AreFound numbers.now }
    requires numbered { All (λ v. HasNumber numbers.now v.content) (map named_view variants.now) }
    ensures { IfOk result (λ ps.
        AreInPairs (IsPlannedName (meaning_of tables.now numbers.now))
        (map named_view variants.now) ps.items) }
{
    let mut names = Vec::with_capacity(alloc, variants.len())?;
    for variant in variants {
        let planned = planned_name(tables, numbers, variant);
        if names.push(planned).is_err() {
            return Err(AllocError);
        }
    }
    Ok(names)
}

/// A variant that a document names.
fn planned_name<'c>(
    tables: &Tables<'c>,
    numbers: &Numbers<'c>,
    variant: &NamedVariant<'c>,
) -> PlannedName<'c>
    requires found { AreFound numbers.now }
    requires numbered { HasNumber numbers.now (named_view variant.now).content }
    ensures { IsPlannedName (meaning_of tables.now numbers.now) (named_view variant.now) result }
{
    PlannedName {
        name: name_of(tables.shapes, &TargetKey::of(&variant.content)),
        text: variant.name,
        is_unit: variant.is_unit,
        content: numbers.of(&variant.content),
    }
}

/// Variants of an untagged enum.
fn planned_alternatives<'c>(
    alloc: Global,
    tables: &Tables<'c>,
    numbers: &Numbers<'c>,
    alone: &[Alternative<'c>],
) -> Result<Vec<PlannedAlternative<'c>>, AllocError>
    requires found { AreFound numbers.now }
    requires numbered { All (λ a. HasNumber numbers.now a.content) (map alternative_view alone.now) }
    ensures { IfOk result (λ ps.
        AreInPairs (IsPlannedAlternative (meaning_of tables.now numbers.now))
        (map alternative_view alone.now) ps.items) }
{
    let mut alternatives = Vec::with_capacity(alloc, alone.len())?;
    for alternative in alone {
        let planned = planned_alternative(tables, numbers, alternative);
        if alternatives.push(planned).is_err() {
            return Err(AllocError);
        }
    }
    Ok(alternatives)
}

/// A variant of an untagged enum.
fn planned_alternative<'c>(
    tables: &Tables<'c>,
    numbers: &Numbers<'c>,
    alternative: &Alternative<'c>,
) -> PlannedAlternative<'c>
    requires found { AreFound numbers.now }
    requires numbered { HasNumber numbers.now (alternative_view alternative.now).content }
    ensures { IsPlannedAlternative (meaning_of tables.now numbers.now)
        (alternative_view alternative.now) result }
{
    PlannedAlternative {
        name: name_of(tables.shapes, &TargetKey::of(&alternative.content)),
        kind: planned_kind(alternative.kind),
        content: numbers.of(&alternative.content),
    }
}

/// How an alternative reads a value.
fn planned_kind(kind: AlternativeKind) -> PlannedKind
    ensures { IsPlannedKind (kind_view kind) result }
{
    match kind {
        AlternativeKind::Joins => PlannedKind::Joins,
        AlternativeKind::Null => PlannedKind::Null,
        AlternativeKind::Whole(range) => PlannedKind::Whole(range),
        AlternativeKind::Float => PlannedKind::Float,
        AlternativeKind::Fallback => PlannedKind::Fallback,
        AlternativeKind::Other => PlannedKind::Other,
    }
}
