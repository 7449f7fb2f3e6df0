//! The resolutions of a root.
ghost use Rattle.std.specs.Prelude.{◌≡◌, ◌*◌, ◌+◌, ◌<◌, ◌≤◌, ◌∷◌, [], IsSome, IfOk, IfErr, OnOk, length};
ghost use Rattle.facet_solver_shape.specs.Catalogues.{FieldsBelow};
ghost use Rattle.facet_solver_shape.specs.Steps.{NoCountFalls};
ghost use Rattle.facet_solver.specs.build.Choice.{IsChoice, IsResolution, Enumerates, IsRefusal};
ghost use Rattle.facet_solver.specs.build.Count.{count_of_root};
ghost use Rattle.facet_solver.specs.build.FieldCount.{field_count, fields_of_kind};
ghost use Rattle.facet_solver.specs.build.Outcome.{Walks, effect};
ghost use Rattle.facet_solver.specs.build.Build.{build_of, kind_at};
ghost use Rattle.facet_solver.specs.build.Walk as walk;
ghost use Rattle.facet_solver.specs.build.Counts.{IsReady};
ghost use Rattle.facet_solver.specs.build.Reached.{ServesRoot, ServesVariant};

use crate::build::Build;
use crate::build::choices::choice_at;
use crate::build::contribution::ContributionTable;
use crate::build::count::Counts;
use crate::build::draft::Draft;
use crate::build::emit::add_selection;
use crate::build::nested::tables::NestedTables;
use crate::build::starts::Starts;
use crate::build::walk::{Cursor, enter_content, next_variant, walk_fields};
use crate::build::walker::Walker;
use facet_solver_shape::{
    FieldPath, Resolution, SchemaError, Shape, ShapeId, ShapeKind, Steps, Variant,
};

/// Exactly one resolution for each choice of variants of the root, in lexicographic order of the
/// choices. Where two fields of one choice have one stored key, there is none: the error names
/// them, the one emitted first first.
pub(crate) fn resolutions<'c>(
    build: Build<'c>,
    root: ShapeId,
    steps: &mut Steps,
) -> Result<Vec<Resolution<'c>>, SchemaError<'c>>
    requires { root < length build.shapes.now }
    ensures built { IfOk result (λ v. Enumerates (build_of build.entry) root v.items) }
    ensures counted { IfOk result
        (λ v. length v.items ≡ count_of_root (build_of build.entry) root) }
    ensures refused { IfErr result (IsRefusal (build_of build.entry) root) }
    ensures visits { steps.new.visits
        ≤ steps.old.visits + 2 * field_count build.entry.shapes.now }
    ensures visited { OnOk result
        (steps.old.visits + fields_of_kind (kind_at build.entry.shapes.now root)
        ≤ steps.new.visits) }
    ensures no_fall { NoCountFalls steps.old steps.new }
{
    let counts = Counts::new(build)?;
    let Some(count) = counts.of_root(build, root).exact() else {
        return Err(SchemaError::OutOfMemory);
    };
    let starts = Starts::new(build, root, &counts)?;
    let contribution = ContributionTable::new(build, root)?;
    let tables = NestedTables::new(build, root, steps)?;
    let walker = Walker {
        build,
        counts,
        starts,
        contribution,
        tables,
    };
    let mut resolutions = Vec::with_capacity(build.alloc, count as usize)?;
    let mut parts = Vec::new(build.alloc);
    let mut choice = Vec::new(build.alloc);
    let mut cursor = Cursor::new(build.alloc);
    for rank in 0..count {
        choice_at(&walker, root, rank, &mut parts, &mut choice)?;
        resolutions.push(resolve(&walker, root, &mut cursor, choice.as_slice())?)?;
    }
    Ok(resolutions)
}

/// The resolution of one choice.
fn resolve<'c>(
    walker: &Walker<'c>,
    root: ShapeId,
    cursor: &mut Cursor<'c>,
    choice: &[usize],
) -> Result<Resolution<'c>, SchemaError<'c>>
    requires ready { IsReady walker.now }
    requires has { root < length walker.now.build.shapes.now }
    requires serves { ServesRoot (build_of walker.now.build) walker.now.tables root }
    requires choice { IsChoice (build_of walker.now.build) root choice.now }
    ensures resolved { IfOk result (IsResolution (build_of walker.now.build) root choice.now) }
    ensures refused { IfErr result (IsRefusal (build_of walker.now.build) root) }
{
    let mut resolution = Draft::new(walker.build.alloc);
    walk_root(walker, root, cursor, choice, &mut resolution)?;
    Ok(resolution.finish(walker.build.alloc, &mut cursor.names)?)
}

/// Walks the root.
fn walk_root<'c, 'n>(
    walker: &Walker<'c>,
    root: ShapeId,
    cursor: &mut Cursor<'c>,
    indices: &'n [usize],
    resolution: &mut Draft<'c>,
) -> Result<&'n [usize], SchemaError<'c>>
    requires ready { IsReady walker.now }
    requires has { root < length walker.now.build.shapes.now }
    requires serves { ServesRoot (build_of walker.now.build) walker.now.tables root }
    requires walked { IsSome (walk.walk_root (build_of walker.now.build) root indices.now) }
    ensures { let walked = walk.walk_root (build_of walker.now.build) root indices.now in
        Walks (effect resolution.old walked) result resolution.new }
{
    let shape = walker.build.shape(root);
    match &shape.kind {
        ShapeKind::Struct { fields, .. } => {
            let Cursor { place, frames, .. } = cursor;
            place.cut(0);
            walk_fields(walker, fields, place, frames, indices, resolution)
        }
        ShapeKind::Enum { variants } => {
            let (variant, rest) = next_variant(variants, indices);
            walk_root_variant(walker, shape, variant, cursor, rest, resolution)
        }
        _ => Ok(indices),
    }
}

/// Walks a root enum at a variant.
fn walk_root_variant<'c, 'n>(
    walker: &Walker<'c>,
    shape: &'c Shape,
    variant: &'c Variant,
    cursor: &mut Cursor<'c>,
    indices: &'n [usize],
    resolution: &mut Draft<'c>,
) -> Result<&'n [usize], SchemaError<'c>>
    requires ready { IsReady walker.now }
    requires below { FieldsBelow (length walker.now.build.shapes.now) variant.now.fields.items }
    requires serves { ServesVariant
        (build_of walker.now.build) walker.now.tables variant.now }
    requires walked { IsSome
        (walk.walk_root_variant (build_of walker.now.build) shape.now variant.now indices.now) }
    ensures { let walked =
        walk.walk_root_variant (build_of walker.now.build) shape.now variant.now indices.now in
        Walks (effect resolution.old walked) result resolution.new }
{
    add_selection(
        FieldPath::empty(walker.build.alloc),
        shape,
        variant,
        resolution,
    )?;
    let Cursor { place, frames, .. } = cursor;
    place.cut(0);
    place.enter_root_variant(variant)?;
    let fields = enter_content(walker, variant, place)?;
    walk_fields(walker, fields, place, frames, indices, resolution)
}
