//! What a target asks of the same value.
ghost use Rattle.std.specs.Prelude.{◌≡◌, ◌++◌, IfOk, OnOk, map};
ghost use Rattle.std.specs.List.{flat_map};
ghost use Rattle.facet_solver_reader.specs.Reached as spec;
ghost use Rattle.facet_solver_reader.specs.Reached.{asked, asked_by_kind};
ghost use Rattle.facet_solver_reader.specs.Tables.{AreTables, IsServed, rules_at};
ghost use Rattle.facet_solver_reader.specs.TargetKeys.{key_view};
ghost use Rattle.facet_solver_reader.specs.Views.{alternative_view, content_view, end_view};

use super::target_key::TargetKey;
use crate::content::content_at;
use crate::end::{Alternative, AlternativeKind, Content, End};
use crate::tables::Tables;
use facet_solver_shape::ShapeId;
use std::alloc::{AllocError, Global};

/// The targets that a target asks of the same value.
pub(super) fn asked_by<'c>(
    alloc: Global,
    tables: &Tables<'c>,
    target: &TargetKey<'c>,
) -> Result<Vec<TargetKey<'c>>, AllocError>
    requires tables { AreTables tables.now }
    requires served { IsServed tables.now (key_view target.now) }
    ensures { IfOk result (λ ts.
        map key_view ts.items ≡ asked (rules_at tables.now) (key_view target.now)) }
{
    match target {
        TargetKey::Shape(id) => asked_by_end(alloc, tables.end(ShapeId::new(*id))),
        TargetKey::Content(id, variant) => {
            let content = content_at(alloc, tables.shapes, ShapeId::new(*id), *variant)?;
            asked_by_content(alloc, &content)
        }
        TargetKey::Tag(_) => Ok(Vec::new(alloc)),
    }
}

/// What an end asks of the same value.
fn asked_by_end<'c>(alloc: Global, end: &End<'c>) -> Result<Vec<TargetKey<'c>>, AllocError>
    ensures { IfOk result (λ ts.
        map key_view ts.items ≡ spec.asked_by_end (end_view end.now)) }
{
    match end {
        End::Option(inside) => Ok(vec![in alloc; TargetKey::Shape(inside.index())]?),
        End::UntaggedVariant(_, alone) => asked_by_alternatives(alloc, alone),
        _ => Ok(Vec::new(alloc)),
    }
}

/// What variants of an untagged enum ask of the same value.
fn asked_by_alternatives<'c>(
    alloc: Global,
    alone: &[Alternative<'c>],
) -> Result<Vec<TargetKey<'c>>, AllocError>
    ensures { IfOk result (λ ts. map key_view ts.items
        ≡ flat_map (λ a. asked_by_kind a.kind a.content) (map alternative_view alone.now)) }
{
    let mut asked = Vec::with_capacity(alloc, alone.len())?;
    for alternative in alone {
        push_asked(&mut asked, alternative)?;
    }
    Ok(asked)
}

/// Adds what a variant of an untagged enum asks of the same value.
fn push_asked<'c>(
    asked: &mut Vec<TargetKey<'c>>,
    alternative: &Alternative<'c>,
) -> Result<(), AllocError>
    ensures { let a = alternative_view alternative.now in OnOk result
        (map key_view asked.new.items
        ≡ map key_view asked.old.items ++ asked_by_kind a.kind a.content) }
{
    match alternative.kind {
        AlternativeKind::Joins | AlternativeKind::Null => {}
        _ => asked.push(TargetKey::of(&alternative.content))?,
    }
    Ok(())
}

/// What content asks of the same value.
fn asked_by_content<'c>(alloc: Global, content: &Content) -> Result<Vec<TargetKey<'c>>, AllocError>
    ensures { IfOk result (λ ts.
        map key_view ts.items ≡ spec.asked_by_content (content_view content.now)) }
{
    match content {
        Content::Shape(inside) => Ok(vec![in alloc; TargetKey::Shape(inside.index())]?),
        Content::None | Content::Tuple(_) | Content::Object(_) => Ok(Vec::new(alloc)),
    }
}
