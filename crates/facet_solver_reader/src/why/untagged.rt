//! What is to blame for the count of a value as an untagged enum.
ghost use Rattle.std.specs.Prelude.{◌<◌, All, IfOk, IfSome, OnOk, length, map};
ghost use Rattle.facet_solver_reader.specs.Nodes.{count, value_of};
ghost use Rattle.facet_solver_reader.specs.Reading.{AreSound};
ghost use Rattle.facet_solver_reader.specs.Tables.{IsServed, ListIsServed, rules_at};
ghost use Rattle.facet_solver_reader.specs.Views.{alternative_view, list_view, target_view};
ghost use Rattle.facet_solver_reader.specs.Blaming.{IsAsked, IsNext, IsWithin};
ghost use Rattle.facet_solver_reader.specs.Why.{IsMisfit, IsReadBy};
ghost use Rattle.facet_solver_reader.specs.declared.count.Count.TheVariants.{None as NoCount, Several as TwoCount};

use super::asked::{AskedObject, ask};
use super::branch::misfits_of;
use super::name::{branch_of, shape_name, unread};
use super::naming::names_some;
use super::object::{none_in_object, object_by};
use super::several::{branches_by, several_in_object};
use super::walk::{Here, Next, count_of, into};
use crate::content::content_at;
use crate::count::{Count, Memo, is_null, reads_content};
use crate::document::Document;
use crate::end::{Alternative, AlternativeKind, Content, End};
use crate::nodes::Nodes;
use crate::part::{ListId, Part, Target};
use crate::read_error::{Branch, Misfit, Obstacle, Stop};
use crate::tables::Tables;
use std::alloc::AllocError;

/// What stops a reading of a value as an untagged enum: what stops its variants that join, if no
/// other reads values of its kind; what stops the one other that does; else what stops each.
pub(super) fn none_in_untagged<'c, 'd>(
    tables: &Tables<'c>,
    nodes: &Nodes<'_, 'd>,
    memo: &mut Memo,
    node: usize,
    joined: &ListId,
    alone: &[Alternative<'c>],
) -> Result<Option<Next<'c, 'd>>, AllocError>
    requires sound { AreSound tables.now nodes.now memo.old.entries.items }
    requires inside { node < count nodes.now }
    requires joined { ListIsServed tables.now (list_view joined.now) }
    requires alone { All (λ a. IsServed tables.now a.content) (map alternative_view alone.now) }
    ensures sound { AreSound tables.now nodes.now memo.new.entries.items }
    ensures next { IfOk result (λ next.
        IfSome next (IsNext tables.now nodes.now NoCount (value_of nodes.now node))) }
{
    let value = nodes.value(node);
    let by_parts = reads_joined(tables, value, *joined);
    let readers = reading_alone(tables, value, alone)?;
    if by_parts {
        return match readers {
            Readers::None => none_in_object(tables, nodes, memo, node, *joined),
            _ => none_of_each(tables, nodes, memo, node, joined, alone, true),
        };
    }
    match readers {
        Readers::One(index) => {
            into(
                tables,
                nodes,
                memo,
                node,
                &alone[index].content,
                Count::None,
            )
        }
        _ => none_of_each(tables, nodes, memo, node, joined, alone, false),
    }
}

/// What stops each variant of an untagged enum.
fn none_of_each<'c, 'd>(
    tables: &Tables<'c>,
    nodes: &Nodes<'_, 'd>,
    memo: &mut Memo,
    node: usize,
    joined: &ListId,
    alone: &[Alternative<'c>],
    by_parts: bool,
) -> Result<Option<Next<'c, 'd>>, AllocError>
    requires sound { AreSound tables.now nodes.now memo.old.entries.items }
    requires inside { node < count nodes.now }
    requires joined { ListIsServed tables.now (list_view joined.now) }
    requires alone { All (λ a. IsServed tables.now a.content) (map alternative_view alone.now) }
    ensures sound { AreSound tables.now nodes.now memo.new.entries.items }
    ensures next { IfOk result (λ next.
        IfSome next (IsNext tables.now nodes.now NoCount (value_of nodes.now node))) }
{
    match misfits_in(tables, nodes, memo, node, joined, alone, by_parts) {
        Ok(misfits) => {
            let name = shape_name(tables.shapes, joined.shape());
            let none = Obstacle::NoVariant(name, misfits);
            Ok(Some(Next::Here(Here::Stops(none))))
        }
        Err(error) => Err(error),
    }
}

/// Whether a value is an object, and some variants join.
fn reads_joined(tables: &Tables<'_>, value: &Document<'_>, joined: ListId) -> bool {
    match value {
        Document::Object(_) => tables.slots.index_of(joined).is_some(),
        _ => false,
    }
}

/// Which variants read values of a kind.
#[derive(Clone, Copy, Debug)]
pub(super) enum Readers {
    /// None.
    None,
    /// The one of this index.
    One(usize),
    /// Two or more.
    Several,
}

/// Which of the variants that do not join read values of a kind.
fn reading_alone(
    tables: &Tables<'_>,
    value: &Document<'_>,
    alone: &[Alternative<'_>],
) -> Result<Readers, AllocError>
    ensures { IfOk result (IsWithin (length alone.now)) }
{
    let mut readers = Readers::None;
    for index in 0..alone.len() {
        if !joins(&alone[index]) && reads_kind(tables, value, &alone[index].content)? {
            readers = match readers {
                Readers::None => Readers::One(index),
                _ => Readers::Several,
            };
        }
    }
    Ok(readers)
}

/// Whether a variant joins others.
fn joins(alternative: &Alternative<'_>) -> bool {
    matches!(alternative.kind, AlternativeKind::Joins)
}

/// Whether content reads values of a kind.
fn reads_kind(
    tables: &Tables<'_>,
    value: &Document<'_>,
    target: &Target<'_>,
) -> Result<bool, AllocError> {
    let Target::Content(shape, variant) = target else {
        return Ok(false);
    };
    let content = content_at(tables.alloc, tables.shapes, *shape, *variant)?;
    Ok(content_reads_kind(tables, value, &content))
}

/// Whether content reads values of a kind.
fn content_reads_kind(tables: &Tables<'_>, value: &Document<'_>, content: &Content) -> bool {
    match content {
        Content::None => matches!(value, Document::Null),
        Content::Tuple(_) => matches!(value, Document::List(_)),
        Content::Object(_) => matches!(value, Document::Object(_)),
        Content::Shape(inside) => match tables.ends.get(inside.index()) {
            Some(Some(end)) => end_reads_kind(end, value),
            _ => false,
        },
    }
}

/// Whether an end reads values of a kind.
fn end_reads_kind(end: &End<'_>, value: &Document<'_>) -> bool {
    match end {
        End::Null => matches!(value, Document::Null),
        End::Truth => matches!(value, Document::Bool(_)),
        End::Whole(_) | End::Float => matches!(value, Document::Number(_)),
        End::Text | End::Character => matches!(value, Document::Text(_)),
        End::List(_) | End::Tuple(_) => matches!(value, Document::List(_)),
        End::Map(..) | End::Object(_) => matches!(value, Document::Object(_)),
        End::NamedVariant(_) => matches!(value, Document::Text(_) | Document::Object(_)),
        End::Option(_) | End::UntaggedVariant(..) | End::Anything => true,
    }
}

/// What stops each variant: those that join by their parts, if the value is an object, and then the
/// others by themselves.
fn misfits_in<'c, 'd>(
    tables: &Tables<'c>,
    nodes: &Nodes<'_, 'd>,
    memo: &mut Memo,
    node: usize,
    joined: &ListId,
    alone: &[Alternative<'c>],
    by_parts: bool,
) -> Result<Vec<Misfit<'c, 'd>>, AllocError>
    requires sound { AreSound tables.now nodes.now memo.old.entries.items }
    requires inside { node < count nodes.now }
    requires joined { ListIsServed tables.now (list_view joined.now) }
    requires alone { All (λ a. IsServed tables.now a.content) (map alternative_view alone.now) }
    ensures sound { AreSound tables.now nodes.now memo.new.entries.items }
    ensures misfits { IfOk result (λ misfits.
        All (IsMisfit (rules_at tables.now) (value_of nodes.now node)) misfits.items) }
{
    let mut misfits = if by_parts {
        joined_misfits(tables, nodes, memo, node, *joined)?
    } else {
        Vec::new(tables.alloc)
    };
    for alternative in alone {
        add_misfit_alone(
            tables,
            nodes,
            memo,
            node,
            alternative,
            by_parts,
            &mut misfits,
        )?;
    }
    Ok(misfits)
}

/// Adds what stops a variant by its content, if that does not read a value. Those that join are left
/// to their parts where the value is an object.
fn add_misfit_alone<'c, 'd>(
    tables: &Tables<'c>,
    nodes: &Nodes<'_, 'd>,
    memo: &mut Memo,
    node: usize,
    alternative: &Alternative<'c>,
    by_parts: bool,
    misfits: &mut Vec<Misfit<'c, 'd>>,
) -> Result<(), AllocError>
    requires sound { AreSound tables.now nodes.now memo.old.entries.items }
    requires inside { node < count nodes.now }
    requires served { IsServed tables.now (target_view alternative.now.content) }
    requires misfits { All (IsMisfit (rules_at tables.now) (value_of nodes.now node))
        misfits.old.items }
    ensures sound { AreSound tables.now nodes.now memo.new.entries.items }
    ensures misfits { OnOk result (All (IsMisfit (rules_at tables.now)
        (value_of nodes.now node)) misfits.new.items) }
{
    if by_parts && joins(alternative) {
        return Ok(());
    }
    match misfit_alone(tables, nodes, memo, node, &alternative.content) {
        // In place of `?`, for which no proof is generated at an entry of this type.
        Ok(Some(misfit)) => match misfits.push(misfit) {
            Ok(()) => Ok(()),
            Err(_) => Err(AllocError),
        },
        Ok(None) => Ok(()),
        Err(error) => Err(error),
    }
}

/// What stops each variant that joins.
fn joined_misfits<'c, 'd>(
    tables: &Tables<'c>,
    nodes: &Nodes<'_, 'd>,
    memo: &mut Memo,
    node: usize,
    joined: ListId,
) -> Result<Vec<Misfit<'c, 'd>>, AllocError>
    requires sound { AreSound tables.now nodes.now memo.old.entries.items }
    requires inside { node < count nodes.now }
    requires joined { ListIsServed tables.now (list_view joined) }
    ensures sound { AreSound tables.now nodes.now memo.new.entries.items }
    ensures misfits { IfOk result (λ misfits.
        All (IsMisfit (rules_at tables.now) (value_of nodes.now node)) misfits.items) }
{
    let Some(object) = object_by(tables, nodes, node, joined) else {
        return Ok(Vec::new(tables.alloc));
    };
    let asked = ask(tables, nodes, memo, &object)?;
    misfits_by(tables, nodes, memo, &asked)
}

/// What stops each branch of the selection that an object's list begins with.
fn misfits_by<'c, 'd>(
    tables: &Tables<'c>,
    nodes: &Nodes<'_, 'd>,
    memo: &mut Memo,
    asked: &AskedObject<'_, 'c>,
) -> Result<Vec<Misfit<'c, 'd>>, AllocError>
    requires sound { AreSound tables.now nodes.now memo.old.entries.items }
    requires asked { IsAsked tables.now nodes.now asked.now }
    ensures sound { AreSound tables.now nodes.now memo.new.entries.items }
    ensures misfits { IfOk result (λ misfits. All (IsMisfit (rules_at tables.now)
        (value_of nodes.now asked.now.object.node)) misfits.items) }
{
    for part in &asked.object.list.parts {
        if let Part::Selection(selection) = part {
            let by_name = names_some(tables, asked, selection);
            return misfits_of(tables, nodes, memo, asked, selection, by_name);
        }
    }
    Ok(Vec::new(tables.alloc))
}

/// What stops a variant by its content, if that does not read a value.
fn misfit_alone<'c, 'd>(
    tables: &Tables<'c>,
    nodes: &Nodes<'_, 'd>,
    memo: &mut Memo,
    node: usize,
    content: &Target<'c>,
) -> Result<Option<Misfit<'c, 'd>>, AllocError>
    requires sound { AreSound tables.now nodes.now memo.old.entries.items }
    requires inside { node < count nodes.now }
    requires served { IsServed tables.now (target_view content.now) }
    ensures sound { AreSound tables.now nodes.now memo.new.entries.items }
    ensures misfit { IfOk result (λ misfit.
        IfSome misfit (IsMisfit (rules_at tables.now) (value_of nodes.now node))) }
{
    let Target::Content(shape, variant) = content else {
        return Ok(None);
    };
    let branch = branch_of(tables.shapes, ListId::Branch(*shape, *variant));
    let count = count_of(tables, nodes, memo, node, content)?;
    if !count.is_none() {
        return Ok(None);
    }
    match unread(tables, nodes.value(node), content) {
        Ok(unread) => Ok(Some(Misfit {
            branch,
            lacks: None,
            no_key: None,
            stop: Stop::Itself(unread),
        })),
        Err(error) => Err(error),
    }
}

/// What of a value is read in several ways as an untagged enum: by several variants, or by one.
pub(super) fn several_in_untagged<'c, 'd>(
    tables: &Tables<'c>,
    nodes: &Nodes<'_, 'd>,
    memo: &mut Memo,
    node: usize,
    joined: &ListId,
    alone: &[Alternative<'c>],
) -> Result<Option<Next<'c, 'd>>, AllocError>
    requires sound { AreSound tables.now nodes.now memo.old.entries.items }
    requires inside { node < count nodes.now }
    requires joined { ListIsServed tables.now (list_view joined.now) }
    requires alone { All (λ a. IsServed tables.now a.content) (map alternative_view alone.now) }
    ensures sound { AreSound tables.now nodes.now memo.new.entries.items }
    ensures next { IfOk result (λ next.
        IfSome next (IsNext tables.now nodes.now TwoCount (value_of nodes.now node))) }
{
    match variants_in(tables, nodes, memo, node, joined, alone) {
        Ok(variants) if variants.len() > 1 => { Ok(Some(Next::Here(Here::Splits(variants)))) }
        Ok(_variants) => several_in_one(tables, nodes, memo, node, joined, alone),
        Err(error) => Err(error),
    }
}

/// What of a value is read in several ways by one variant.
fn several_in_one<'c, 'd>(
    tables: &Tables<'c>,
    nodes: &Nodes<'_, 'd>,
    memo: &mut Memo,
    node: usize,
    joined: &ListId,
    alone: &[Alternative<'c>],
) -> Result<Option<Next<'c, 'd>>, AllocError>
    requires sound { AreSound tables.now nodes.now memo.old.entries.items }
    requires inside { node < count nodes.now }
    requires joined { ListIsServed tables.now (list_view joined.now) }
    requires alone { All (λ a. IsServed tables.now a.content) (map alternative_view alone.now) }
    ensures sound { AreSound tables.now nodes.now memo.new.entries.items }
    ensures next { IfOk result (λ next.
        IfSome next (IsNext tables.now nodes.now TwoCount (value_of nodes.now node))) }
{
    let next = several_in_object(tables, nodes, memo, node, *joined)?;
    if next.is_some() {
        return Ok(next);
    }
    for alternative in alone {
        let next = into(
            tables,
            nodes,
            memo,
            node,
            &alternative.content,
            Count::Several,
        )?;
        if next.is_some() {
            return Ok(next);
        }
    }
    Ok(None)
}

/// The variants by which a value is read, those that join first: fallbacks only where no other is.
fn variants_in<'c>(
    tables: &Tables<'c>,
    nodes: &Nodes<'_, '_>,
    memo: &mut Memo,
    node: usize,
    joined: &ListId,
    alone: &[Alternative<'c>],
) -> Result<Vec<Branch<'c>>, AllocError>
    requires sound { AreSound tables.now nodes.now memo.old.entries.items }
    requires inside { node < count nodes.now }
    requires joined { ListIsServed tables.now (list_view joined.now) }
    requires alone { All (λ a. IsServed tables.now a.content) (map alternative_view alone.now) }
    ensures sound { AreSound tables.now nodes.now memo.new.entries.items }
    ensures variants { IfOk result (λ variants.
        All (IsReadBy (rules_at tables.now) (value_of nodes.now node)) variants.items) }
{
    let joining = branches_by(tables, nodes, memo, node, *joined)?;
    let variants = add_alone(tables, nodes, memo, node, alone, false, joining)?;
    if variants.is_empty() {
        return add_alone(tables, nodes, memo, node, alone, true, variants);
    }
    Ok(variants)
}

/// With the variants that read a value by themselves: the fallbacks, or the others.
fn add_alone<'c>(
    tables: &Tables<'c>,
    nodes: &Nodes<'_, '_>,
    memo: &mut Memo,
    node: usize,
    alone: &[Alternative<'c>],
    fallbacks: bool,
    mut variants: Vec<Branch<'c>>,
) -> Result<Vec<Branch<'c>>, AllocError>
    requires sound { AreSound tables.now nodes.now memo.old.entries.items }
    requires inside { node < count nodes.now }
    requires alone { All (λ a. IsServed tables.now a.content) (map alternative_view alone.now) }
    requires variants { All (IsReadBy (rules_at tables.now) (value_of nodes.now node))
        variants.items }
    ensures sound { AreSound tables.now nodes.now memo.new.entries.items }
    ensures variants { IfOk result (λ variants.
        All (IsReadBy (rules_at tables.now) (value_of nodes.now node)) variants.items) }
{
    for alternative in alone {
        let is_asked = is_asked(nodes.value(node), alone, alternative.kind, fallbacks);
        add_variant(
            tables,
            nodes,
            memo,
            node,
            &alternative.content,
            is_asked,
            &mut variants,
        )?;
    }
    Ok(variants)
}

/// Adds a variant, if it is asked and its content reads a value.
fn add_variant<'c>(
    tables: &Tables<'c>,
    nodes: &Nodes<'_, '_>,
    memo: &mut Memo,
    node: usize,
    content: &Target<'c>,
    is_asked: bool,
    variants: &mut Vec<Branch<'c>>,
) -> Result<(), AllocError>
    requires sound { AreSound tables.now nodes.now memo.old.entries.items }
    requires inside { node < count nodes.now }
    requires served { IsServed tables.now (target_view content.now) }
    requires variants { All (IsReadBy (rules_at tables.now) (value_of nodes.now node))
        variants.old.items }
    ensures sound { AreSound tables.now nodes.now memo.new.entries.items }
    ensures variants { OnOk result (All (IsReadBy (rules_at tables.now)
        (value_of nodes.now node)) variants.new.items) }
{
    if !is_asked {
        return Ok(());
    }
    match variant_alone(tables, nodes, memo, node, content) {
        // In place of `?`, for which no proof is generated at an entry of this type.
        Ok(Some(variant)) => match variants.push(variant) {
            Ok(()) => Ok(()),
            Err(_) => Err(AllocError),
        },
        Ok(None) => Ok(()),
        Err(error) => Err(error),
    }
}

/// Whether an alternative of a kind is asked whether it reads a value by itself: a fallback, or
/// another that reads such a value.
fn is_asked(
    value: &Document<'_>,
    others: &[Alternative<'_>],
    kind: AlternativeKind,
    fallbacks: bool,
) -> bool {
    match kind {
        AlternativeKind::Fallback => fallbacks,
        AlternativeKind::Null => !fallbacks && is_null(value),
        _ => !fallbacks && reads_content(value, others, kind),
    }
}

/// A variant, if its content reads a value.
fn variant_alone<'c>(
    tables: &Tables<'c>,
    nodes: &Nodes<'_, '_>,
    memo: &mut Memo,
    node: usize,
    content: &Target<'c>,
) -> Result<Option<Branch<'c>>, AllocError>
    requires sound { AreSound tables.now nodes.now memo.old.entries.items }
    requires inside { node < count nodes.now }
    requires served { IsServed tables.now (target_view content.now) }
    ensures sound { AreSound tables.now nodes.now memo.new.entries.items }
    ensures variant { IfOk result (λ variant.
        IfSome variant (IsReadBy (rules_at tables.now) (value_of nodes.now node))) }
{
    let Target::Content(shape, variant) = content else {
        return Ok(None);
    };
    let branch = branch_of(tables.shapes, ListId::Branch(*shape, *variant));
    let count = count_of(tables, nodes, memo, node, content)?;
    if count.is_none() {
        Ok(None)
    } else {
        Ok(Some(branch))
    }
}
