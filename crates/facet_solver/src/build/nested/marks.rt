//! Marks of the shapes that nested key paths reach, by index.
ghost use Rattle.std.specs.Prelude.{◌≡◌, ◌+◌, ◌<◌, ◌≤◌, ℕ, All, Bool, List, length};
ghost use Rattle.facet_solver_shape.specs.Catalogues.{FieldsBelow, VariantsBelow};
ghost use Rattle.facet_solver.specs.build.Build.{kind_at};
ghost use Rattle.facet_solver.specs.build.Nested.{entered_view, every_kind};
ghost use Rattle.facet_solver.specs.build.NestedTable as table;
ghost use Rattle.facet_solver.specs.build.NestedTable.{AskedBy, FieldAsks, IsClosed, IsMarked, IsMarkedMore, KindAsks, MarksAmong, VariantAsks};

use crate::build::nested::{Entered, has_fields};
use facet_solver_shape::{Field, ShapeId, ShapeKind, Shapes, Variant};

/// Marks every shape that the key paths of content are made from which is written apart, and no
/// other.
pub(crate) fn mark_contents(shapes: &Shapes, apart: &[bool], contents: &mut [bool])
    requires { length contents.old ≡ length apart.now }
    ensures all { length contents.new ≡ length apart.now }
    ensures asked { AskedBy every_kind shapes.now apart.now contents.new }
    ensures closed { IsClosed every_kind shapes.now contents.new }
    ensures least { (others : List Bool) → MarksAmong contents.old others
        → AskedBy every_kind shapes.now apart.now others
        → IsClosed every_kind shapes.now others → MarksAmong contents.new others }
{
    mark_asked_by(shapes, Entered::EveryKind, apart, contents);
    close_marks(shapes, Entered::EveryKind, contents);
}

/// Marks every shape that a marked one asks for, and no other, from the last index down: what a
/// shape asks for stands before it.
pub(crate) fn close_marks(shapes: &Shapes, entered: Entered, marks: &mut [bool])
    ensures all { length marks.new ≡ length marks.old }
    ensures kept { MarksAmong marks.old marks.new }
    ensures closed { IsClosed (entered_view entered) shapes.now marks.new }
    ensures least { (others : List Bool) → MarksAmong marks.old others
        → IsClosed (entered_view entered) shapes.now others → MarksAmong marks.new others }
{
    let mut left = marks.len();
    while left > 0 {
        left -= 1;
        if marks[left] {
            mark_asked(shapes, entered, left, marks);
        }
    }
}

/// Marks what the shapes ask for that are marked among others.
fn mark_asked_by(shapes: &Shapes, entered: Entered, others: &[bool], marks: &mut [bool])
    requires { length others.now ≤ length marks.old }
    ensures all { length marks.new ≡ length marks.old }
    ensures kept { MarksAmong marks.old marks.new }
    ensures asked { AskedBy (entered_view entered) shapes.now others.now marks.new }
    ensures least { (more : List Bool) → MarksAmong marks.old more
        → AskedBy (entered_view entered) shapes.now others.now more → MarksAmong marks.new more }
{
    for index in 0..others.len() {
        if !others[index] {
            continue;
        }
        mark_asked(shapes, entered, index, marks);
    }
}

/// Marks what the shape at an index asks for.
fn mark_asked(shapes: &Shapes, entered: Entered, index: usize, marks: &mut [bool])
    requires { index ≤ length marks.old }
    ensures more { IsMarkedMore index marks.old marks.new }
    ensures asked { KindAsks (IsMarked marks.new) (entered_view entered) shapes.now
        (kind_at shapes.now index) }
    ensures least { (others : List Bool) → MarksAmong marks.old others
        → KindAsks (IsMarked others) (entered_view entered) shapes.now (kind_at shapes.now index)
        → MarksAmong marks.new others }
{
    let Some(shape) = shapes.get(ShapeId::new(index)) else {
        return;
    };
    match &shape.kind {
        ShapeKind::Struct { fields, .. } => mark_fields(shapes, entered, fields, marks),
        ShapeKind::Enum { variants } => mark_variants(shapes, entered, variants, marks),
        _ => {}
    }
}

/// Marks what variants ask for.
fn mark_variants(shapes: &Shapes, entered: Entered, variants: &[Variant], marks: &mut [bool])
    requires { VariantsBelow (length marks.old) variants.now }
    ensures more { (limit : ℕ) → VariantsBelow limit variants.now
        → IsMarkedMore limit marks.old marks.new }
    ensures asked { All (VariantAsks (IsMarked marks.new) (entered_view entered) shapes.now)
        variants.now }
    ensures least { (others : List Bool) → MarksAmong marks.old others
        → All (VariantAsks (IsMarked others) (entered_view entered) shapes.now) variants.now
        → MarksAmong marks.new others }
{
    for variant in variants {
        mark_fields(shapes, entered, &variant.fields, marks);
    }
}

/// Marks what fields ask for.
fn mark_fields(shapes: &Shapes, entered: Entered, fields: &[Field], marks: &mut [bool])
    requires { FieldsBelow (length marks.old) fields.now }
    ensures more { (limit : ℕ) → FieldsBelow limit fields.now
        → IsMarkedMore limit marks.old marks.new }
    ensures asked { All (FieldAsks (IsMarked marks.new) (entered_view entered) shapes.now)
        fields.now }
    ensures least { (others : List Bool) → MarksAmong marks.old others
        → All (FieldAsks (IsMarked others) (entered_view entered) shapes.now) fields.now
        → MarksAmong marks.new others }
{
    for field in fields {
        mark_field(shapes, entered, field, marks);
    }
}

/// Marks what a field asks for.
fn mark_field(shapes: &Shapes, entered: Entered, field: &Field, marks: &mut [bool])
    requires { field.now.shape < length marks.old }
    ensures more { IsMarkedMore (field.now.shape + 1) marks.old marks.new }
    ensures asked { FieldAsks (IsMarked marks.new) (entered_view entered) shapes.now field.now }
    ensures least { (others : List Bool) → MarksAmong marks.old others
        → FieldAsks (IsMarked others) (entered_view entered) shapes.now field.now
        → MarksAmong marks.new others }
{
    if !asks(shapes, entered, field) {
        return;
    }
    marks[field.shape.index()] = true;
}

/// Whether a field asks for the key paths under its shape.
fn asks(shapes: &Shapes, entered: Entered, field: &Field) -> bool
    ensures { result ≡ table.asks (entered_view entered) shapes.now field.now }
{
    (field.flattened || entered.has(shapes, field.shape)) && has_fields(shapes, field.shape)
}
