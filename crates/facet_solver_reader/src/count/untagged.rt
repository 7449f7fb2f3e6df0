//! The readings of a value as a variant that it does not name.
ghost use Rattle.std.specs.Prelude.{◌≡◌, ◌<◌, All, IfOk, length, map};
ghost use Rattle.std.specs.List.{list_any};
ghost use Rattle.facet_solver_reader.specs.Counted.{Counted};
ghost use Rattle.facet_solver_reader.specs.Documents.{view};
ghost use Rattle.facet_solver_reader.specs.Kinds.{is_null};
ghost use Rattle.facet_solver_reader.specs.Nodes.{count, value_of};
ghost use Rattle.facet_solver_reader.specs.Reading.{AreSound, IsRankedAlternative, reads_content};
ghost use Rattle.facet_solver_reader.specs.Readings.{ReadsValue, inner};
ghost use Rattle.facet_solver_reader.specs.Rules.{an_untagged_variant};
ghost use Rattle.facet_solver_reader.specs.Tables.{IsServed, ListIsServed, rules_at};
ghost use Rattle.facet_solver_reader.specs.Values.{ReadsAlone, ReadsByItself, ReadsEnd};
ghost use Rattle.facet_solver_reader.specs.Values.{ReadsFallback, is_whole_of};
ghost use Rattle.facet_solver_reader.specs.Views.{alternative_view, kind_view, list_view};

use super::Memo;
use super::object::count_object;
use super::target::count_target;
use crate::count::Count;
use crate::document::Document;
use crate::end::{Alternative, AlternativeKind};
use crate::nodes::Nodes;
use crate::part::ListId;
use crate::tables::Tables;
use std::alloc::AllocError;

/// How often a value is read as an untagged enum: by the variants that join and those that read it
/// by themselves, or, where none does, by the fallbacks.
#[cycle(count)]
pub(crate) fn count_untagged(
    tables: &Tables<'_>,
    nodes: &Nodes<'_, '_>,
    memo: &mut Memo,
    node: usize,
    joined: ListId,
    alone: &[Alternative<'_>],
    steps: usize,
) -> Result<Count, AllocError>
    requires sound { AreSound tables.now nodes.now memo.old.entries.items }
    requires inside { node < count nodes.now }
    requires joined { ListIsServed tables.now (list_view joined) }
    requires served { All (λ a. IsServed tables.now a.content) (map alternative_view alone.now) }
    requires ranked { All (λ a. IsRankedAlternative (rules_at tables.now) steps a)
        (map alternative_view alone.now) }
    ensures sound { AreSound tables.now nodes.now memo.new.entries.items }
    ensures count { IfOk result (Counted (ReadsEnd (rules_at tables.now)
        (inner (rules_at tables.now))
        (an_untagged_variant (list_view joined) (map alternative_view alone.now))
        (value_of nodes.now node))) }
{
    let by_parts = match nodes.value(node) {
        Document::Object(_) => count_object(tables, nodes, memo, node, joined)?,
        _ => Count::None,
    };
    let by_itself = count_alone(tables, nodes, memo, node, alone, steps)?;
    let direct = by_parts.plus(by_itself);
    if !direct.is_none() {
        return Ok(direct);
    }
    count_fallbacks(tables, nodes, memo, node, alone, steps)
}

/// How often a value is read by the variants that read it by themselves, apart from fallbacks.
#[cycle(count)]
fn count_alone(
    tables: &Tables<'_>,
    nodes: &Nodes<'_, '_>,
    memo: &mut Memo,
    node: usize,
    alone: &[Alternative<'_>],
    steps: usize,
) -> Result<Count, AllocError>
    requires sound { AreSound tables.now nodes.now memo.old.entries.items }
    requires inside { node < count nodes.now }
    requires served { All (λ a. IsServed tables.now a.content) (map alternative_view alone.now) }
    requires ranked { All (λ a. IsRankedAlternative (rules_at tables.now) steps a)
        (map alternative_view alone.now) }
    ensures sound { AreSound tables.now nodes.now memo.new.entries.items }
    ensures count { IfOk result (Counted (ReadsAlone (ReadsValue (rules_at tables.now))
        (map alternative_view alone.now) (value_of nodes.now node))) }
{
    let mut count = Count::None;
    for alternative in alone {
        let next = count_alternative(tables, nodes, memo, node, alone, alternative, steps)?;
        count = count.plus(next);
    }
    Ok(count)
}

/// How often a value is read by one of them.
#[cycle(count)]
pub(crate) fn count_alternative(
    tables: &Tables<'_>,
    nodes: &Nodes<'_, '_>,
    memo: &mut Memo,
    node: usize,
    others: &[Alternative<'_>],
    alternative: &Alternative<'_>,
    steps: usize,
) -> Result<Count, AllocError>
    requires sound { AreSound tables.now nodes.now memo.old.entries.items }
    requires inside { node < count nodes.now }
    requires served { IsServed tables.now (alternative_view alternative.now).content }
    requires ranked { IsRankedAlternative (rules_at tables.now) steps
        (alternative_view alternative.now) }
    ensures sound { AreSound tables.now nodes.now memo.new.entries.items }
    ensures count { IfOk result (Counted (ReadsByItself (ReadsValue (rules_at tables.now))
        (map alternative_view others.now) (alternative_view alternative.now)
        (value_of nodes.now node))) }
{
    let value = nodes.value(node);
    if let AlternativeKind::Null = alternative.kind {
        return Ok(Count::from(is_null(value)));
    }
    if !reads_content(value, others, alternative.kind) {
        return Ok(Count::None);
    }
    count_target(tables, nodes, memo, node, &alternative.content, steps - 1)
}

/// Whether a value is null.
pub(crate) fn is_null(value: &Document<'_>) -> bool
    ensures { result ≡ is_null (view value.now) }
{
    matches!(value, Document::Null)
}

/// Whether an alternative of a kind reads a value as its content, and is no fallback: one of floats
/// reads no whole number that another reads by its range.
pub(crate) fn reads_content(
    value: &Document<'_>,
    others: &[Alternative<'_>],
    kind: AlternativeKind,
) -> bool
    ensures { result ≡ reads_content (kind_view kind) (list_any (is_whole_of (view value.now))
        (map alternative_view others.now)) }
{
    match kind {
        AlternativeKind::Joins | AlternativeKind::Null | AlternativeKind::Fallback => false,
        AlternativeKind::Float => !is_whole_of_any(value, others),
        AlternativeKind::Whole(_) | AlternativeKind::Other => true,
    }
}

/// Whether a value is a whole number that an alternative reads by its range.
fn is_whole_of_any(value: &Document<'_>, alternatives: &[Alternative<'_>]) -> bool
    ensures { result ≡ list_any (λ a. is_whole_of (view value.now) (alternative_view a))
        alternatives.now }
{
    alternatives
        .iter()
        .any(|alternative| is_whole_of(value, alternative))
}

/// Whether one alternative does.
fn is_whole_of(value: &Document<'_>, alternative: &Alternative<'_>) -> bool
    ensures { result ≡ is_whole_of (view value.now) (alternative_view alternative.now) }
{
    match (value, alternative.kind) {
        (Document::Number(number), AlternativeKind::Whole(range)) => match number.whole() {
            Some(whole) => range.holds(whole),
            None => false,
        },
        _ => false,
    }
}

/// How often a value is read by the fallbacks.
#[cycle(count)]
pub(crate) fn count_fallbacks(
    tables: &Tables<'_>,
    nodes: &Nodes<'_, '_>,
    memo: &mut Memo,
    node: usize,
    alone: &[Alternative<'_>],
    steps: usize,
) -> Result<Count, AllocError>
    requires sound { AreSound tables.now nodes.now memo.old.entries.items }
    requires inside { node < count nodes.now }
    requires served { All (λ a. IsServed tables.now a.content) (map alternative_view alone.now) }
    requires ranked { All (λ a. IsRankedAlternative (rules_at tables.now) steps a)
        (map alternative_view alone.now) }
    ensures sound { AreSound tables.now nodes.now memo.new.entries.items }
    ensures count { IfOk result (Counted (ReadsFallback (ReadsValue (rules_at tables.now))
        (map alternative_view alone.now) (value_of nodes.now node))) }
{
    let mut count = Count::None;
    for alternative in alone {
        if let AlternativeKind::Fallback = alternative.kind {
            let next = count_target(tables, nodes, memo, node, &alternative.content, steps - 1)?;
            count = count.plus(next);
        }
    }
    Ok(count)
}
