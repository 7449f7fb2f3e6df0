//! Marks, by index, of the shapes that the walks of a root's choices go through, and of those whose
//! nested key paths they ask for.
ghost use Rattle.std.specs.Prelude.{◌≡◌, ◌+◌, ◌<◌, ℕ, All, Bool, List, true, length, sum_by};
ghost use Rattle.facet_solver_shape.specs.Catalogues.{FieldsBelow, NamesEarlier, VariantsBelow};
ghost use Rattle.facet_solver_shape.specs.Steps.{NoCountFalls};
ghost use Rattle.facet_solver.specs.build.Build.{build_of, kind_at};
ghost use Rattle.facet_solver.specs.build.FieldCount.{fields_of_kind};
ghost use Rattle.facet_solver.specs.build.Nested.{structs_alone};
ghost use Rattle.facet_solver.specs.build.NestedTable.{IsMarked, IsMarkedMore, MarksAmong};
ghost use Rattle.facet_solver.specs.build.Reached.{AreReached, Marked, AskedAmong, ContentReached, FieldReached, HoldReached, IsReachedAt, IsReachedMore, Reach, ReachAmong, RootReached, VariantReached, marked, reach};

use crate::build::Build;
use crate::build::content::newtype_of;
use crate::build::nested::Entered;
use crate::build::nested::marks::close_marks;
use crate::build::visit::visited;
use facet_solver_shape::{Field, Role, ShapeId, ShapeKind, Shapes, Steps, Variant, role_of};

/// Marks what the walks of a root's choices go through, and nothing else: in `structs` the structs
/// whose nested key paths they ask for, each with all shapes that its key paths are made from, and
/// in `apart` the enums whose content is written apart.
pub(crate) fn mark_reached(
    build: Build,
    root: ShapeId,
    walked: &mut [bool],
    structs: &mut [bool],
    apart: &mut [bool],
    steps: &mut Steps,
)
    requires root { root < length build.shapes.now }
    requires walked { length walked.old ≡ root }
    requires structs { length structs.old ≡ root }
    requires apart { length apart.old ≡ root }
    ensures structs_length { length structs.new ≡ root }
    ensures apart_length { length apart.new ≡ root }
    ensures visits { steps.new.visits
        ≡ steps.old.visits + fields_of_kind (kind_at build.entry.shapes.now root) }
    ensures no_fall { NoCountFalls steps.old steps.new }
    ensures asked { HoldReached (build_of build.entry) root
        (marked walked.new structs.new apart.new) }
    ensures least { (others : Marked) → AskedAmong (marked walked.old structs.old apart.old) others
        → HoldReached (build_of build.entry) root others
        → AskedAmong (marked walked.new structs.new apart.new) others }
{
    mark_root(build, root, walked, structs, steps);
    mark_walked(build, walked, structs, apart);
    close_marks(build.shapes, Entered::StructsAlone, structs);
}

/// Marks what a root leads to. An enum's content is walked, whatever its representation. Its fields
/// are visited here, for no table has an entry of the root.
fn mark_root(
    build: Build,
    root: ShapeId,
    walked: &mut [bool],
    structs: &mut [bool],
    steps: &mut Steps,
)
    requires root { root < length build.shapes.now }
    requires walked { length walked.old ≡ root }
    requires structs { length structs.old ≡ length walked.old }
    ensures visits { steps.new.visits
        ≡ steps.old.visits + fields_of_kind (kind_at build.entry.shapes.now root) }
    ensures no_fall { NoCountFalls steps.old steps.new }
    ensures more { IsReachedMore (length walked.old) (reach walked.old structs.old)
        (reach walked.new structs.new) }
    ensures checked { NamesEarlier build.entry.shapes.now }
    ensures reached { RootReached (reach walked.new structs.new) build.entry.shapes.now root }
    ensures least { (others : Reach) → ReachAmong (reach walked.old structs.old) others
        → RootReached others build.entry.shapes.now root
        → ReachAmong (reach walked.new structs.new) others }
{
    match &build.shape(root).kind {
        ShapeKind::Struct { fields, .. } => {
            mark_fields(build.shapes, fields, walked, structs, steps)
        }
        ShapeKind::Enum { variants } => {
            mark_variants(build.shapes, variants, walked, structs, steps)
        }
        _ => {}
    }
}

/// Marks what the marked shapes lead to, from the last index down: what a shape leads to stands
/// before it. An enum whose content is written apart is marked in `apart`.
fn mark_walked(build: Build, walked: &mut [bool], structs: &mut [bool], apart: &mut [bool])
    requires checked { NamesEarlier build.shapes.now }
    requires structs { length structs.old ≡ length walked.old }
    requires apart { length apart.old ≡ length walked.old }
    ensures more { IsReachedMore (length walked.old) (reach walked.old structs.old)
        (reach walked.new structs.new) }
    ensures apart { length apart.new ≡ length apart.old }
    ensures closed { AreReached (build_of build.entry)
        (marked walked.new structs.new apart.new) }
    ensures least { (others : Marked) → AskedAmong (marked walked.old structs.old apart.old) others
        → AreReached (build_of build.entry) others
        → AskedAmong (marked walked.new structs.new apart.new) others }
{
    let mut left = walked.len();
    while left > 0 {
        left -= 1;
        if walked[left] {
            mark_shape(build, left, walked, structs, apart);
        }
    }
}

/// Marks what the shape at an index leads to, or the shape itself in `apart` where it is an enum
/// whose content is written apart. Its fields are read in steps of its own: below the root the
/// visits are those of the tables.
fn mark_shape(
    build: Build,
    index: usize,
    walked: &mut [bool],
    structs: &mut [bool],
    apart: &mut [bool],
)
    requires checked { NamesEarlier build.shapes.now }
    requires within { index < length walked.old }
    requires structs { length structs.old ≡ length walked.old }
    requires apart { length apart.old ≡ length walked.old }
    ensures more { IsReachedMore index (reach walked.old structs.old)
        (reach walked.new structs.new) }
    ensures apart { IsMarkedMore (index + 1) apart.old apart.new }
    ensures reached { IsReachedAt (reach walked.new structs.new) apart.new
        (build_of build.entry) index }
    ensures least { (others : Marked) → AskedAmong (marked walked.old structs.old apart.old) others
        → IsReachedAt others.reach others.apart (build_of build.entry) index
        → AskedAmong (marked walked.new structs.new apart.new) others }
{
    let Some(shape) = build.shapes.get(ShapeId::new(index)) else {
        return;
    };
    let mut steps = Steps::new();
    match &shape.kind {
        ShapeKind::Struct { fields, .. } => {
            mark_fields(build.shapes, fields, walked, structs, &mut steps)
        }
        ShapeKind::Enum { variants } => {
            if build.walks_content(shape) {
                mark_variants(build.shapes, variants, walked, structs, &mut steps);
            } else {
                apart[index] = true;
            }
        }
        _ => {}
    }
}

/// Marks what the content of variants leads to.
fn mark_variants(
    shapes: &Shapes,
    variants: &[Variant],
    walked: &mut [bool],
    structs: &mut [bool],
    steps: &mut Steps,
)
    requires checked { NamesEarlier shapes.now }
    requires below { VariantsBelow (length walked.old) variants.now }
    requires structs { length structs.old ≡ length walked.old }
    ensures more { (limit : ℕ) → VariantsBelow limit variants.now
        → IsReachedMore limit (reach walked.old structs.old) (reach walked.new structs.new) }
    ensures reached { All (VariantReached (reach walked.new structs.new) shapes.now)
        variants.now }
    ensures least { (others : Reach) → ReachAmong (reach walked.old structs.old) others
        → All (VariantReached others shapes.now) variants.now
        → ReachAmong (reach walked.new structs.new) others }
    ensures visits { steps.new.visits
        ≡ steps.old.visits + sum_by (λ v. length v.fields.items) variants.now }
    ensures no_fall { NoCountFalls steps.old steps.new }
{
    for variant in variants {
        mark_content(shapes, &variant.fields, walked, structs, steps);
    }
}

/// Marks what the content of a variant with these fields leads to: the struct of a newtype, or else
/// what the fields do.
fn mark_content(
    shapes: &Shapes,
    fields: &[Field],
    walked: &mut [bool],
    structs: &mut [bool],
    steps: &mut Steps,
)
    requires checked { NamesEarlier shapes.now }
    requires below { FieldsBelow (length walked.old) fields.now }
    requires structs { length structs.old ≡ length walked.old }
    ensures more { (limit : ℕ) → FieldsBelow limit fields.now
        → IsReachedMore limit (reach walked.old structs.old) (reach walked.new structs.new) }
    ensures reached { ContentReached (reach walked.new structs.new) shapes.now fields.now }
    ensures least { (others : Reach) → ReachAmong (reach walked.old structs.old) others
        → ContentReached others shapes.now fields.now
        → ReachAmong (reach walked.new structs.new) others }
    ensures visits { steps.new.visits ≡ steps.old.visits + length fields.now }
    ensures no_fall { NoCountFalls steps.old steps.new }
{
    if fields.len() != 1 {
        mark_fields(shapes, fields, walked, structs, steps);
        return;
    }
    let field = visited(fields, 0, steps);
    match newtype_of(shapes, field) {
        Some(id) => walked[id.index()] = true,
        None => mark_field(shapes, field, walked, structs),
    }
}

/// Marks what fields lead to.
fn mark_fields(
    shapes: &Shapes,
    fields: &[Field],
    walked: &mut [bool],
    structs: &mut [bool],
    steps: &mut Steps,
)
    requires checked { NamesEarlier shapes.now }
    requires below { FieldsBelow (length walked.old) fields.now }
    requires structs { length structs.old ≡ length walked.old }
    ensures more { (limit : ℕ) → FieldsBelow limit fields.now
        → IsReachedMore limit (reach walked.old structs.old) (reach walked.new structs.new) }
    ensures reached { All (FieldReached (reach walked.new structs.new) shapes.now) fields.now }
    ensures least { (others : Reach) → ReachAmong (reach walked.old structs.old) others
        → All (FieldReached others shapes.now) fields.now
        → ReachAmong (reach walked.new structs.new) others }
    ensures visits { steps.new.visits ≡ steps.old.visits + length fields.now }
    ensures no_fall { NoCountFalls steps.old steps.new }
{
    for index in 0..fields.len() {
        let field = visited(fields, index, steps);
        mark_field(shapes, field, walked, structs);
    }
}

/// Marks what a field leads to.
fn mark_field(shapes: &Shapes, field: &Field, walked: &mut [bool], structs: &mut [bool])
    requires checked { NamesEarlier shapes.now }
    requires below { field.now.shape < length walked.old }
    requires structs { length structs.old ≡ length walked.old }
    ensures more { IsReachedMore (field.now.shape + 1) (reach walked.old structs.old)
        (reach walked.new structs.new) }
    ensures reached { FieldReached (reach walked.new structs.new) shapes.now field.now }
    ensures least { (others : Reach) → ReachAmong (reach walked.old structs.old) others
        → FieldReached others shapes.now field.now
        → ReachAmong (reach walked.new structs.new) others }
{
    match role_of(shapes, field) {
        Role::Regular => mark_regular(shapes, field.shape, structs),
        Role::Block(target, _) | Role::Alternatives(target, _, _) => {
            walked[target.shape.index()] = true;
        }
        Role::CatchAll(_) | Role::Leaf(_) => {}
    }
}

/// Marks the shape of a regular field where it is a struct.
fn mark_regular(shapes: &Shapes, id: ShapeId, structs: &mut [bool])
    requires { id < length structs.old }
    ensures more { IsMarkedMore (id + 1) structs.old structs.new }
    ensures reached { structs_alone (kind_at shapes.now id) ≡ true
        → IsMarked structs.new id }
    ensures least { (others : List Bool) → MarksAmong structs.old others
        → (structs_alone (kind_at shapes.now id) ≡ true → IsMarked others id)
        → MarksAmong structs.new others }
{
    if Entered::StructsAlone.has(shapes, id) {
        structs[id.index()] = true;
    }
}
