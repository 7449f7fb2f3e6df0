//! Ranks of types: where each has a higher one than all that it needs, none leads to itself.
ghost use Rattle.std.specs.Prelude.{◌≡◌, IfOk, length, true};
ghost use Rattle.facet_solver_types.specs.Links.{links_view};
ghost use Rattle.facet_solver_types.specs.Ranks.{AreAcyclic, are_below, fall, rank};

use super::walks::{in_order, links_at};
use std::alloc::{AllocError, Global};

/// The rank of the type at a place: the lowest where there is none.
fn rank(ranks: &[usize], place: usize) -> usize
    ensures { result ≡ rank ranks.now place }
{
    match ranks.get(place) {
        Some(found) => *found,
        None => 0,
    }
}

/// Whether types have ranks below a limit.
fn are_below(ranks: &[usize], limit: usize, places: &[usize]) -> bool
    ensures { result ≡ are_below ranks.now limit places.now }
{
    places.iter().all(|place| rank(ranks, *place) < limit)
}

/// Whether each type has a higher rank than all that it leads to.
fn fall(links: &[Vec<usize>], ranks: &[usize]) -> bool
    ensures { result ≡ fall (links_view links.now) ranks.now }
{
    (0..links.len()).all(|place| are_below(ranks, rank(ranks, place), links_at(links, place)))
}

/// Ranks of so many types: where each stands in an order.
fn ranks_in(alloc: Global, count: usize, order: &[usize]) -> Result<Vec<usize>, AllocError>
    ensures { IfOk result (λ ranks. length ranks.items ≡ count) }
{
    let mut ranks = vec![in alloc; 0; count]?;
    for (rank, place) in order.iter().enumerate() {
        if *place < count {
            ranks[*place] = rank;
        }
    }
    Ok(ranks)
}

/// Whether it is seen at once that no type leads to itself: in some order of all types each stands
/// behind all that it needs.
pub(super) fn is_acyclic(alloc: Global, needs: &[Vec<usize>]) -> Result<bool, AllocError>
    ensures { IfOk result (λ found. found ≡ true → AreAcyclic (links_view needs.now)) }
{
    let places: Vec<usize> = (0..needs.len()).collect(alloc)?;
    let order = in_order(alloc, needs, &places)?;
    let ranks = ranks_in(alloc, needs.len(), &order)?;
    Ok(fall(needs, &ranks))
}
