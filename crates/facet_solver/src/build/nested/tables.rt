//! The two tables from which the walks of a root's choices take nested key paths.
ghost use Rattle.std.specs.Prelude.{◌≡◌, ◌*◌, ◌+◌, ◌<◌, ◌≤◌, ◌∷◌, [], IfOk, IfSome, IsSome, OnOk, Bool, List, length};
ghost use Rattle.facet_solver_shape.specs.Catalogues.{NamesEarlier};
ghost use Rattle.facet_solver_shape.specs.Steps.{NoCountFalls};
ghost use Rattle.facet_solver.specs.build.Build.{build_of, kind_at};
ghost use Rattle.facet_solver.specs.build.Nested.{content_paths, nested_paths, with_paths_behind};
ghost use Rattle.facet_solver.specs.build.FieldCount.{field_count, fields_of_kind};
ghost use Rattle.facet_solver.specs.build.NestedTable.{HasVariants, variant_at};
ghost use Rattle.facet_solver.specs.build.Reached.{AreTables, Marked, HaveOnly, HoldAsked, ServesRegular, ServesRoot};

use crate::build::Build;
use crate::build::draft::Draft;
use crate::build::nested::Entered;
use crate::build::nested::marks::mark_contents;
use crate::build::nested::reached::mark_reached;
use crate::build::nested::table::NestedTable;
use facet_solver_shape::{ShapeId, Steps};
use std::alloc::AllocError;

/// The nested key paths that the walks of a root's choices ask for.
#[derive(Drop)]
pub(crate) struct NestedTables<'c> {
    /// Those behind regular fields.
    structs: NestedTable<'c>,
    /// Those under content that is written apart.
    contents: NestedTable<'c>,
}

impl<'c> NestedTables<'c> {
    /// Makes both tables for a root. What a root leads to stands before it, and there they end.
    /// Their marks and those of the walked shapes lie in one piece of memory, side by side.
    pub(crate) fn new(
        build: Build<'c>,
        root: ShapeId,
        steps: &mut Steps,
    ) -> Result<NestedTables<'c>, AllocError>
        requires { root < length build.shapes.now }
        ensures entries { IfOk result (AreTables (build_of build.entry)) }
        ensures root { IfOk result (λ tables. ServesRoot (build_of build.entry) tables root) }
        ensures asked { IfOk result (λ tables.
            (marks : Marked) (contents : List Bool)
            → HoldAsked (build_of build.entry) root marks contents
            → HaveOnly marks contents tables) }
        ensures visits { steps.new.visits
            ≤ steps.old.visits + 2 * field_count build.entry.shapes.now }
        ensures visited { OnOk result
            (steps.old.visits + fields_of_kind (kind_at build.entry.shapes.now root)
            ≤ steps.new.visits) }
        ensures no_fall { NoCountFalls steps.old steps.new }
    {
        let count = root.index();
        let room = count.checked_mul(4).ok_or(AllocError)?;
        let mut marks = vec![in build.alloc; false; room]?;
        let (walked, others) = marks.split_at_mut(count);
        let (structs, others) = others.split_at_mut(count);
        let (apart, contents) = others.split_at_mut(count);
        mark_reached(build, root, walked, structs, apart, steps);
        mark_contents(build.shapes, apart, contents);
        Ok(NestedTables {
            structs: NestedTable::new(build, Entered::StructsAlone, structs, &[], steps)?,
            contents: NestedTable::new(build, Entered::EveryKind, contents, apart, steps)?,
        })
    }

    /// Adds the key paths under a regular field's shape, each behind the field's name.
    pub(crate) fn add_paths_behind_field(
        &self,
        build: Build<'c>,
        name: &'c str,
        shape: ShapeId,
        resolution: &mut Draft<'c>,
    ) -> Result<(), AllocError>
        requires checked { NamesEarlier build.shapes.now }
        requires entries { AreTables (build_of build) self.now }
        requires asked { ServesRegular self.now build.shapes.now shape }
        ensures ok { let paths = nested_paths build.entry.shapes.now shape in
            OnOk result
            (resolution.new ≡ with_paths_behind resolution.old (name.now ∷ []) paths) }
    {
        if !Entered::StructsAlone.has(build.shapes, shape) {
            return Ok(());
        }
        let under = self.structs.under(shape);
        self.structs
            .add_behind(build.alloc, name, under, resolution)
    }

    /// Adds the key paths under the content of a variant, by the shape of its enum and its index
    /// there, each behind the name that holds the content. That is written apart from the enum's
    /// siblings.
    pub(crate) fn add_paths_behind_content(
        &self,
        build: Build<'c>,
        name: &'c str,
        shape: ShapeId,
        index: usize,
        resolution: &mut Draft<'c>,
    ) -> Result<(), AllocError>
        requires checked { NamesEarlier build.shapes.now }
        requires entries { AreTables (build_of build) self.now }
        requires variant { IsSome (variant_at build.shapes.now shape index) }
        requires apart { HasVariants self.now.contents.by_index.items shape }
        ensures ok { OnOk result (IfSome (variant_at build.entry.shapes.now shape index) (λ variant.
            let paths = content_paths build.entry.shapes.now variant in
            resolution.new ≡ with_paths_behind resolution.old (name.now ∷ []) paths)) }
    {
        let under = &self.contents.variants(shape)[index];
        self.contents
            .add_behind(build.alloc, name, under, resolution)
    }
}
