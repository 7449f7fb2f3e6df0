//! How far a value is asked on from one shape to another.
ghost use Rattle.std.specs.Prelude.{◌≡◌, length, map, IfOk, MatchOption, Some, false, slice_get, ℕ};
ghost use Rattle.std.specs.List.{list_all};
ghost use Rattle.facet_solver_reader.specs.OrderedLists.{IsMarked};
ghost use Rattle.facet_solver_reader.specs.Ranked.{AreNext, AreRanked, AreEnds, asks_marked, content_asks_marked, is_alternative_marked, is_marked, is_target_marked};
ghost use Rattle.facet_solver_reader.specs.Views.{alternative_view, content_view, end_view, target_view};
ghost use Rattle.facet_solver_reader.specs.WorkList.{HasEnd};

use crate::content::content_at;
use crate::end::{Alternative, AlternativeKind, Content, End};
use crate::part::Target;
use crate::types::Types;
use facet_solver_shape::ShapeId;
use std::alloc::{AllocError, Global};

/// Which shapes have a rank, and a number above each of their ranks.
#[derive(Debug, Drop)]
pub(super) struct Ranks {
    /// By the index of the shape.
    pub(super) is_ranked: Vec<bool>,
    pub(super) steps: usize,
}

impl Ranks {
    /// Those of the shapes whose ends are given. Round by round, shapes that ask ranked ones alone
    /// are ranked, above them. What is left without a rank asks on without end.
    pub(super) fn new<'c>(
        alloc: Global,
        types: &Types<'c>,
        ends: &Vec<Option<End<'c>>>,
    ) -> Result<Ranks, AllocError>
        requires { AreEnds types.now ends.now.items }
        ensures { IfOk result (AreRanked types.now ends.now.items) }
    {
        let mut is_ranked = vec![in alloc; false; ends.len()]?;
        let mut steps = 1;
        loop {
            let next = rank_more(alloc, types, ends, &is_ranked)?;
            if next == is_ranked {
                return Ok(Ranks { is_ranked, steps });
            }
            is_ranked = next;
            steps += 2;
        }
    }
}

/// The shapes that are ranked after one more round: also each that asks ranked ones alone.
fn rank_more<'c>(
    alloc: Global,
    types: &Types<'c>,
    ends: &Vec<Option<End<'c>>>,
    is_ranked: &[bool],
) -> Result<Vec<bool>, AllocError>
    ensures { IfOk result (λ next.
        AreNext types.now ends.now.items is_ranked.now next.items) }
{
    let mut next = Vec::with_capacity(alloc, ends.len())?;
    for index in 0..ends.len() {
        let ranked = match &ends[index] {
            Some(end) => {
                is_ranked_at(is_ranked, ShapeId::new(index))
                    || asks_ranked(alloc, types, end, is_ranked)?
            }
            None => false,
        };
        next.push(ranked)?;
    }
    Ok(next)
}

/// Whether a shape is ranked.
fn is_ranked_at(is_ranked: &[bool], id: ShapeId) -> bool
    ensures { result ≡ is_marked is_ranked.now id }
{
    is_ranked.get(id.index()).copied().unwrap_or(false)
}

/// Whether an end asks ranked shapes alone.
fn asks_ranked<'c>(
    alloc: Global,
    types: &Types<'c>,
    end: &End<'c>,
    is_ranked: &[bool],
) -> Result<bool, AllocError>
    ensures { IfOk result (λ b. b ≡ asks_marked types.now is_ranked.now (end_view end.now)) }
{
    match end {
        End::Option(inside) => Ok(is_ranked_at(is_ranked, *inside)),
        End::UntaggedVariant(_, alone) => all_ask_ranked(alloc, types, alone, is_ranked),
        _ => Ok(true),
    }
}

/// Whether alternatives do.
fn all_ask_ranked<'c>(
    alloc: Global,
    types: &Types<'c>,
    alone: &[Alternative<'c>],
    is_ranked: &[bool],
) -> Result<bool, AllocError>
    ensures { IfOk result (λ b. b ≡ list_all (is_alternative_marked types.now is_ranked.now)
        (map alternative_view alone.now)) }
{
    for alternative in alone {
        if !alternative_asks_ranked(alloc, types, alternative, is_ranked)? {
            return Ok(false);
        }
    }
    Ok(true)
}

/// Whether an alternative does.
fn alternative_asks_ranked<'c>(
    alloc: Global,
    types: &Types<'c>,
    alternative: &Alternative<'c>,
    is_ranked: &[bool],
) -> Result<bool, AllocError>
    ensures { IfOk result (λ b.
        b ≡ is_alternative_marked types.now is_ranked.now (alternative_view alternative.now)) }
{
    match alternative.kind {
        AlternativeKind::Joins | AlternativeKind::Null => Ok(true),
        _ => target_asks_ranked(alloc, types, &alternative.content, is_ranked),
    }
}

/// Whether a target is a ranked shape, or asks one.
fn target_asks_ranked<'c>(
    alloc: Global,
    types: &Types<'c>,
    target: &Target<'c>,
    is_ranked: &[bool],
) -> Result<bool, AllocError>
    ensures { IfOk result (λ b.
        b ≡ is_target_marked types.now is_ranked.now (target_view target.now)) }
{
    match target {
        Target::Shape(id) => Ok(is_ranked_at(is_ranked, *id)),
        Target::Tag(_) => Ok(true),
        Target::Content(shape, variant) => {
            let content = content_at(alloc, types.shapes(), *shape, *variant)?;
            Ok(content_asks_ranked(&content, is_ranked))
        }
    }
}

/// Whether content asks a ranked shape, or none.
fn content_asks_ranked(content: &Content, is_ranked: &[bool]) -> bool
    ensures { result ≡ content_asks_marked is_ranked.now (content_view content.now) }
{
    match content {
        Content::Shape(id) => is_ranked_at(is_ranked, *id),
        Content::None | Content::Tuple(_) | Content::Object(_) => true,
    }
}

/// The first shape with an end that has no rank.
pub(super) fn first_unranked<'c>(
    ends: &Vec<Option<End<'c>>>,
    is_ranked: &Vec<bool>,
) -> Option<ShapeId>
    requires { length is_ranked.now.items ≡ length ends.now.items }
    ensures { MatchOption result
        ((id : ℕ) → HasEnd ends.now.items id → IsMarked is_ranked.now.items id)
        (λ id. HasEnd ends.now.items id × (slice_get is_ranked.now.items id ≡ Some false)) }
{
    for index in 0..ends.len() {
        if ends[index].is_some() && !is_ranked[index] {
            return Some(ShapeId::new(index));
        }
    }
    None
}
