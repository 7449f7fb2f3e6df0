//! The number of choices, from a table by index.
ghost use Rattle.std.specs.Prelude.{◌≡◌, ◌+◌, ◌<◌, ◌≤◌, length, take, IfOk, OnOk};
ghost use Rattle.facet_solver_shape.specs.Catalogues.{NamesEarlier, FieldsBelow};
ghost use Rattle.facet_solver_shape.specs.Steps.{NoCountFalls};
ghost use Rattle.facet_solver.specs.build.Count as count;
ghost use Rattle.facet_solver.specs.build.Count.{below_2_64};
ghost use Rattle.facet_solver.specs.build.Counts.{AreCounts, AreFirstCounts, CountsTo};
ghost use Rattle.facet_solver.specs.build.Build.{build_of, kind_at};
ghost use Rattle.facet_solver.specs.build.FieldCount.{field_count, fields_of_kind};

pub(crate) mod saturating;
pub(crate) mod table;

use crate::build::Build;
use crate::build::count::saturating::SaturatingCount;
use crate::build::count::table::{count_content, count_field, count_shape};
use facet_solver_shape::{Field, ShapeId, ShapeKind, Steps, Variant};
use std::alloc::AllocError;
use std::marker::Model;

/// The number of choices at a flattened field, by the index of its target.
#[derive(Drop)]
pub(crate) struct Counts {
    by_index: Vec<SaturatingCount>,
}

impl Model for Counts {
    ghost use Rattle.std.specs.Prelude.{List};
    ghost use Rattle.facet_solver.specs.declared.build.count.saturating.SaturatingCount.{SaturatingCount};

    ghost Value = { List SaturatingCount };

    ghost view = { λ a. a.by_index.items };
}

impl Counts {
    /// Counts all shapes.
    pub(crate) fn new(build: Build) -> Result<Counts, AllocError>
        ensures checked { IfOk result (λ _. NamesEarlier build.entry.shapes.now) }
        ensures counted { IfOk result (AreCounts (build_of build.entry)) }
    {
        Counts::before(build, build.shapes.len(), &mut Steps::new())
    }

    /// Counts the shapes before an index, each once and in order: a shape refers to earlier ones
    /// alone.
    fn before(build: Build, limit: usize, steps: &mut Steps) -> Result<Counts, AllocError>
        requires within { limit ≤ length build.shapes.now }
        requires checked { NamesEarlier build.shapes.now }
        ensures all { IfOk result (λ counts. length counts ≡ limit) }
        ensures counted { IfOk result (AreFirstCounts (build_of build.entry)) }
        ensures visits { steps.new.visits
            ≤ steps.old.visits + field_count (take limit build.entry.shapes.now) }
        ensures no_fall { NoCountFalls steps.old steps.new }
    {
        let mut by_index = Vec::with_capacity(build.alloc, limit)?;
        while by_index.len() < limit {
            let shape = build.shape(ShapeId::new(by_index.len()));
            let walked = build.walks_content(shape);
            by_index.push(count_shape(build, by_index.as_slice(), shape, walked, steps))?;
        }
        Ok(Counts { by_index })
    }

    /// The choices at one field.
    pub(crate) fn of_field(&self, build: Build, field: &Field) -> SaturatingCount
        requires checked { NamesEarlier build.shapes.now }
        requires counted { AreCounts (build_of build) self.now }
        requires below { field.now.shape < length build.shapes.now }
        ensures { CountsTo result (count.count_field (build_of build.entry) field.now) }
    {
        count_field(build, self.by_index.as_slice(), field)
    }

    /// The choices below the content of a variant.
    pub(crate) fn of_content(&self, build: Build, variant: &Variant) -> SaturatingCount
        requires checked { NamesEarlier build.shapes.now }
        requires counted { AreCounts (build_of build) self.now }
        requires below { FieldsBelow (length build.shapes.now) variant.now.fields.items }
        ensures { CountsTo result (count.count_content (build_of build.entry) variant.now) }
    {
        count_content(build, self.by_index.as_slice(), variant, &mut Steps::new())
    }

    /// The choices of a root. An enum's are counted anew, for the contents of a root are walked;
    /// any other shape's are known.
    pub(crate) fn of_root(&self, build: Build, root: ShapeId) -> SaturatingCount
        requires has { root < length build.shapes.now }
        requires counted { AreCounts (build_of build) self.now }
        ensures { CountsTo result (count.count_of_root (build_of build.entry) root) }
    {
        let shape = build.shape(root);
        let counts = self.by_index.as_slice();
        match &shape.kind {
            ShapeKind::Enum { .. } => count_shape(build, counts, shape, true, &mut Steps::new()),
            _ => counts[root.index()],
        }
    }
}

/// The number of choices of a root where it is below 2^64. An enum's are those of its variants'
/// contents, whatever its representation.
pub(crate) fn count_of_root(
    build: Build,
    root: ShapeId,
    steps: &mut Steps,
) -> Result<Option<u64>, AllocError>
    requires { root < length build.shapes.now }
    ensures number { IfOk result
        (λ number. number ≡ below_2_64 (count.count_of_root (build_of build.entry) root)) }
    ensures visits { steps.new.visits
        ≤ steps.old.visits + field_count build.entry.shapes.now }
    ensures visited { OnOk result
        (steps.old.visits + fields_of_kind (kind_at build.entry.shapes.now root)
        ≤ steps.new.visits) }
    ensures no_fall { NoCountFalls steps.old steps.new }
{
    let shape = build.shape(root);
    let counts = Counts::before(build, root.index(), steps)?;
    let number = count_shape(build, counts.by_index.as_slice(), shape, true, steps);
    Ok(number.exact())
}
