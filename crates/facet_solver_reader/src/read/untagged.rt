//! The only reading of a value as a variant that it does not name.
ghost use Rattle.std.specs.Prelude.{◌≡◌, ◌<◌, All, IfOk, IfSome, MatchOption, length, map};
ghost use Rattle.std.specs.List.{list_all};
ghost use Rattle.facet_solver_reader.specs.declared.count.Count.TheVariants.{None as NoCount, One};
ghost use Rattle.facet_solver_reader.specs.Choices as choices;
ghost use Rattle.facet_solver_reader.specs.Counted.{Counted};
ghost use Rattle.facet_solver_reader.specs.Nodes.{count, value_of};
ghost use Rattle.facet_solver_reader.specs.Reading.{AreSound, IsRankedAlternative};
ghost use Rattle.facet_solver_reader.specs.Readings.{ReadsValue, inner};
ghost use Rattle.facet_solver_reader.specs.Rules.{an_untagged_variant};
ghost use Rattle.facet_solver_reader.specs.Tables.{IsServed, ListIsServed, rules_at};
ghost use Rattle.facet_solver_reader.specs.ToldAt.{IsOnlyAlternative, IsRead, IsToldAlternative, IsToldAs, IsUntagged, is_joined};
ghost use Rattle.facet_solver_reader.specs.Values.{ReadsAlone, ReadsEnd, ReadsFallback};
ghost use Rattle.facet_solver_reader.specs.Views.{alternative_view, list_view};

use super::not_one::NotOne;
use super::object::read_object;
use super::target::read_target;
use super::variant::put_within;
use crate::count::{Count, Memo, count_alternative, count_object, count_target, count_untagged};
use crate::document::Document;
use crate::end::{Alternative, AlternativeKind};
use crate::nodes::Nodes;
use crate::part::ListId;
use crate::reading::Reading;
use crate::tables::Tables;
use std::alloc::AllocError;

/// The only reading of a value as an untagged enum.
#[cycle(read)]
pub(super) fn read_untagged<'c, 'v, 'd>(
    tables: &Tables<'c>,
    nodes: &Nodes<'v, 'd>,
    memo: &mut Memo,
    node: usize,
    joined: &ListId,
    alone: &[Alternative<'c>],
    steps: usize,
) -> Result<Reading<'c, 'v, 'd>, NotOne>
    requires sound { AreSound tables.now nodes.now memo.old.entries.items }
    requires inside { node < count nodes.now }
    requires joined { ListIsServed tables.now (list_view joined.now) }
    requires served { All (λ a. IsServed tables.now a.content) (map alternative_view alone.now) }
    requires ranked { All (λ a. IsRankedAlternative (rules_at tables.now) steps a)
        (map alternative_view alone.now) }
    ensures sound { AreSound tables.now nodes.now memo.new.entries.items }
    ensures told { IsRead (IsToldAs tables.now nodes.now node
        (an_untagged_variant (list_view joined.now) (map alternative_view alone.now)))
        (Counted (ReadsEnd (rules_at tables.now) (inner (rules_at tables.now))
        (an_untagged_variant (list_view joined.now) (map alternative_view alone.now))
        (value_of nodes.now node)) One) result }
{
    if matches!(nodes.value(node), Document::Object(_)) && all_join(alone) {
        return read_object(tables, nodes, memo, node, *joined);
    }
    // Readings are counted before one is told, so that no value is gone through for each variant.
    match count_untagged(tables, nodes, memo, node, *joined, alone, steps)? {
        Count::One => {}
        _ => return Err(NotOne::NoneOrSeveral),
    }
    match alternative_index(tables, nodes, memo, node, joined, alone, steps)? {
        None => read_object(tables, nodes, memo, node, *joined),
        Some(k) => read_alternative(tables, nodes, memo, node, &alone[k], steps),
    }
}

/// Whether each variant reads objects by parts alone.
fn all_join(alone: &[Alternative<'_>]) -> bool
    ensures { result ≡ list_all (λ a. is_joined (alternative_view a).kind) alone.now }
{
    alone.iter().all(|alternative| matches!(alternative.kind, AlternativeKind::Joins))
}

/// The only reading of a value as the content of a variant that reads it by itself.
#[cycle(read)]
fn read_alternative<'c, 'v, 'd>(
    tables: &Tables<'c>,
    nodes: &Nodes<'v, 'd>,
    memo: &mut Memo,
    node: usize,
    alternative: &Alternative<'c>,
    steps: usize,
) -> Result<Reading<'c, 'v, 'd>, NotOne>
    requires sound { AreSound tables.now nodes.now memo.old.entries.items }
    requires inside { node < count nodes.now }
    requires served { IsServed tables.now (alternative_view alternative.now).content }
    requires ranked { IsRankedAlternative (rules_at tables.now) steps
        (alternative_view alternative.now) }
    requires one { IsOnlyAlternative tables.now nodes.now node (alternative_view alternative.now) }
    ensures sound { AreSound tables.now nodes.now memo.new.entries.items }
    ensures told { IsRead
        (IsToldAlternative tables.now nodes.now node (alternative_view alternative.now))
        (IsOnlyAlternative tables.now nodes.now node (alternative_view alternative.now)) result }
{
    let mut reading = match &alternative.kind {
        AlternativeKind::Null => Reading::as_it_is(tables.alloc, nodes.value(node)),
        _ => read_target(tables, nodes, memo, node, &alternative.content, steps - 1)?,
    };
    put_within(&mut reading, tables.shapes, &alternative.content)?;
    Ok(reading)
}

/// Which variant of an untagged enum reads a value by itself, by its index; `None` where those that
/// join read it.
fn alternative_index(
    tables: &Tables<'_>,
    nodes: &Nodes<'_, '_>,
    memo: &mut Memo,
    node: usize,
    joined: &ListId,
    alone: &[Alternative<'_>],
    steps: usize,
) -> Result<Option<usize>, AllocError>
    requires sound { AreSound tables.now nodes.now memo.old.entries.items }
    requires inside { node < count nodes.now }
    requires joined { ListIsServed tables.now (list_view joined.now) }
    requires served { All (λ a. IsServed tables.now a.content) (map alternative_view alone.now) }
    requires ranked { All (λ a. IsRankedAlternative (rules_at tables.now) steps a)
        (map alternative_view alone.now) }
    requires one { Counted (ReadsEnd (rules_at tables.now) (inner (rules_at tables.now))
        (an_untagged_variant (list_view joined.now) (map alternative_view alone.now))
        (value_of nodes.now node)) One }
    ensures sound { AreSound tables.now nodes.now memo.new.entries.items }
    ensures within { IfOk result (λ found. IfSome found (λ k. k < length alone.now)) }
    ensures chosen { IfOk result (IsUntagged (rules_at tables.now)
        (an_untagged_variant (list_view joined.now) (map alternative_view alone.now))
        (value_of nodes.now node)) }
{
    if let Document::Object(_) = nodes.value(node) {
        if !count_object(tables, nodes, memo, node, *joined)?.is_none() {
            return Ok(None);
        }
    }
    let k = match direct_index(tables, nodes, memo, node, alone, steps)? {
        Some(k) => k,
        None => fallback_index(tables, nodes, memo, node, alone, steps)?,
    };
    Ok(Some(k))
}

/// The first variant that reads a value by itself and is no fallback, by its index.
fn direct_index(
    tables: &Tables<'_>,
    nodes: &Nodes<'_, '_>,
    memo: &mut Memo,
    node: usize,
    alone: &[Alternative<'_>],
    steps: usize,
) -> Result<Option<usize>, AllocError>
    requires sound { AreSound tables.now nodes.now memo.old.entries.items }
    requires inside { node < count nodes.now }
    requires served { All (λ a. IsServed tables.now a.content) (map alternative_view alone.now) }
    requires ranked { All (λ a. IsRankedAlternative (rules_at tables.now) steps a)
        (map alternative_view alone.now) }
    ensures sound { AreSound tables.now nodes.now memo.new.entries.items }
    ensures within { IfOk result (λ found. IfSome found (λ k. k < length alone.now)) }
    ensures chosen { IfOk result (λ found. MatchOption found
        (Counted (ReadsAlone (ReadsValue (rules_at tables.now)) (map alternative_view alone.now)
        (value_of nodes.now node)) NoCount)
        (λ k. (r : choices.Reading) × ReadsAlone (ReadsValue (rules_at tables.now))
        (map alternative_view alone.now) (value_of nodes.now node) (choices.a_variant k r))) }
{
    for (k, alternative) in alone.iter().enumerate() {
        let count = count_alternative(tables, nodes, memo, node, alone, alternative, steps)?;
        if !count.is_none() {
            return Ok(Some(k));
        }
    }
    Ok(None)
}

/// The first fallback that reads a value, by its index.
fn fallback_index(
    tables: &Tables<'_>,
    nodes: &Nodes<'_, '_>,
    memo: &mut Memo,
    node: usize,
    alone: &[Alternative<'_>],
    steps: usize,
) -> Result<usize, AllocError>
    requires sound { AreSound tables.now nodes.now memo.old.entries.items }
    requires inside { node < count nodes.now }
    requires served { All (λ a. IsServed tables.now a.content) (map alternative_view alone.now) }
    requires ranked { All (λ a. IsRankedAlternative (rules_at tables.now) steps a)
        (map alternative_view alone.now) }
    requires read { (r : choices.Reading) × ReadsFallback (ReadsValue (rules_at tables.now))
        (map alternative_view alone.now) (value_of nodes.now node) r }
    ensures sound { AreSound tables.now nodes.now memo.new.entries.items }
    ensures within { IfOk result (λ k. k < length alone.now) }
    ensures chosen { IfOk result (λ k. (r : choices.Reading) × ReadsFallback (ReadsValue
        (rules_at tables.now)) (map alternative_view alone.now) (value_of nodes.now node)
        (choices.a_variant k r)) }
{
    for (k, alternative) in alone.iter().enumerate() {
        if let AlternativeKind::Fallback = alternative.kind {
            let count = count_target(tables, nodes, memo, node, &alternative.content, steps - 1)?;
            if !count.is_none() {
                return Ok(k);
            }
        }
    }
    unreachable!()
}
