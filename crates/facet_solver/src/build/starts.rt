//! Where the choices of variants begin among those of their enum, found once for each enum. So the
//! variant of a rank is found by binary search, however many variants there are.
ghost use Rattle.std.specs.Prelude.{◌≡◌, ◌<◌, ◌≤◌, IfOk, OnOk, get_or, length, true};
ghost use Rattle.std.specs.List.Sorted.{IsNonDecreasing};
ghost use Rattle.facet_solver_shape.specs.Catalogues.{KindBelow, NamesEarlier, VariantsBelow};
ghost use Rattle.facet_solver.specs.build.Build.{build_of};
ghost use Rattle.facet_solver.specs.build.Counts.{AreCounts};
ghost use Rattle.facet_solver.specs.build.Starts.{AreStarts, AreStartsOf, HasStarts, HasWalkedStarts, IsLastStart, IsMoreStarts, starts_at, starts_or_none};

use crate::build::Build;
use crate::build::count::Counts;
use crate::build::count::saturating::SaturatingCount;
use facet_solver_shape::{ShapeId, ShapeKind, Variant};
use std::alloc::{AllocError, Global};

/// The ranks at which the choices of an enum's variants begin, by the index of the enum: of each
/// whose contents are walked, and of the root. Any other shape has none.
#[derive(Drop)]
pub(crate) struct Starts {
    by_index: Vec<Vec<u64>>,
}

impl Starts {
    /// Finds them by the counts. The table ends with the last enum that has some; where none has,
    /// it takes no memory.
    pub(crate) fn new(build: Build, root: ShapeId, counts: &Counts) -> Result<Starts, AllocError>
        requires checked { NamesEarlier build.shapes.now }
        requires counted { AreCounts (build_of build) counts.now }
        ensures walked { IfOk result (λ starts.
            HasWalkedStarts (build_of build.entry) starts.by_index.items) }
        ensures root { IfOk result (λ starts.
            HasStarts (build_of build.entry) starts.by_index.items root) }
    {
        let mut by_index = Vec::new(build.alloc);
        for index in 0..build.shapes.len() {
            let shape = build.shape(ShapeId::new(index));
            let is_asked = index == root.index() || build.walks_content(shape);
            if let Some(starts) = starts_if(build, is_asked, &shape.kind, counts)? {
                push_at(build.alloc, index, starts, &mut by_index)?;
            }
        }
        Ok(Starts { by_index })
    }

    /// Those of the enum at an index.
    pub(crate) fn of(&self, id: ShapeId) -> &[u64]
        ensures { result.now ≡ starts_at self.now.by_index.items id }
    {
        match self.by_index.get(id.index()) {
            Some(starts) => starts,
            None => &[],
        }
    }
}

/// Adds those of the enum at an index behind those of earlier ones. The indices between get none.
fn push_at(
    alloc: Global,
    index: usize,
    starts: Vec<u64>,
    by_index: &mut Vec<Vec<u64>>,
) -> Result<(), AllocError>
    requires { length by_index.old.items ≤ index }
    ensures { OnOk result
        (IsMoreStarts index starts.items by_index.old.items by_index.new.items) }
{
    while by_index.len() < index {
        by_index.push(Vec::new(alloc))?;
    }
    by_index.push(starts)?;
    Ok(())
}

/// Those of a shape's variants, if it is an enum and they are asked for.
fn starts_if(
    build: Build,
    is_asked: bool,
    kind: &ShapeKind,
    counts: &Counts,
) -> Result<Option<Vec<u64>>, AllocError>
    requires checked { NamesEarlier build.shapes.now }
    requires counted { AreCounts (build_of build) counts.now }
    requires below { KindBelow (length build.shapes.now) kind.now }
    ensures { IfOk result (λ starts. is_asked ≡ true
        → AreStartsOf (build_of build.entry) kind.now (starts_or_none starts)) }
{
    match kind {
        ShapeKind::Enum { variants } if is_asked => Ok(Some(starts_of(build, variants, counts)?)),
        _ => Ok(None),
    }
}

/// Those of variants: the number of choices before each.
fn starts_of(build: Build, variants: &[Variant], counts: &Counts) -> Result<Vec<u64>, AllocError>
    requires checked { NamesEarlier build.shapes.now }
    requires counted { AreCounts (build_of build) counts.now }
    requires below { VariantsBelow (length build.shapes.now) variants.now }
    ensures { IfOk result (λ starts. AreStarts (build_of build.entry) variants.now starts.items) }
{
    let mut starts = Vec::with_capacity(build.alloc, variants.len())?;
    let mut before = SaturatingCount::Exact(0);
    for variant in variants {
        starts.push(before.or_largest())?;
        before = before.plus(counts.of_content(build, variant));
    }
    Ok(starts)
}

/// The index of the last start that is not above a rank.
pub(crate) fn last_start(starts: &[u64], rank: u64) -> usize
    requires rise { IsNonDecreasing starts.now }
    requires some { 0 < length starts.now }
    requires first { get_or starts.now 0 0 ≤ rank }
    ensures { IsLastStart starts.now rank result }
{
    starts.partition_point(|start| *start <= rank) - 1
}
