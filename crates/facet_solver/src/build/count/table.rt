//! The number of choices at an index of the catalogue, from those at the indices before it.
ghost use Rattle.std.specs.Prelude.{◌≡◌, ◌+◌, ◌<◌, ◌≤◌, ℕ, length, sum_by, true};
ghost use Rattle.facet_solver_shape.specs.Catalogues.{NamesEarlier, FieldsBelow, VariantsBelow, KindBelow};
ghost use Rattle.facet_solver_shape.specs.Steps.{NoCountFalls};
ghost use Rattle.facet_solver.specs.build.Count as count;
ghost use Rattle.facet_solver.specs.build.Counts.{CountsTo, AreFirstCounts};
ghost use Rattle.facet_solver.specs.build.Build.{build_of};
ghost use Rattle.facet_solver.specs.build.FieldCount.{fields_of_kind};

use crate::build::Build;
use crate::build::content::newtype_of;
use crate::build::count::saturating::SaturatingCount;
use crate::build::visit::visited;
use facet_solver_shape::{Field, Role, Shape, ShapeKind, Steps, Variant, role_of};

/// What may be absent has one choice more.
fn count_optional(may_be_absent: bool, present: SaturatingCount) -> SaturatingCount
    ensures { (n : ℕ) → CountsTo present n
        → CountsTo result (count.count_optional may_be_absent n) }
{
    if may_be_absent {
        SaturatingCount::Exact(1).plus(present)
    } else {
        present
    }
}

/// The choices at one field.
pub(crate) fn count_field(
    build: Build,
    counts: &[SaturatingCount],
    field: &Field,
) -> SaturatingCount
    requires checked { NamesEarlier build.shapes.now }
    requires counted { AreFirstCounts (build_of build) counts.now }
    requires below { field.now.shape < length counts.now }
    ensures { CountsTo result (count.count_field (build_of build.entry) field.now) }
{
    match role_of(build.shapes, field) {
        Role::Block(target, _) | Role::Alternatives(target, _, _) => {
            count_optional(target.optional, counts[target.shape.index()])
        }
        Role::Regular | Role::CatchAll(_) | Role::Leaf(_) => SaturatingCount::Exact(1),
    }
}

/// The choices below fields: the product.
fn count_fields(
    build: Build,
    counts: &[SaturatingCount],
    fields: &[Field],
    steps: &mut Steps,
) -> SaturatingCount
    requires checked { NamesEarlier build.shapes.now }
    requires counted { AreFirstCounts (build_of build) counts.now }
    requires below { FieldsBelow (length counts.now) fields.now }
    ensures product { CountsTo result (count.count_fields (build_of build.entry) fields.now) }
    ensures visits { steps.new.visits ≡ steps.old.visits + length fields.now }
    ensures no_fall { NoCountFalls steps.old steps.new }
{
    let mut product = SaturatingCount::Exact(1);
    for index in 0..fields.len() {
        let field = visited(fields, index, steps);
        product = product.times(count_field(build, counts, field));
    }
    product
}

/// The choices below the content of a variant.
pub(crate) fn count_content(
    build: Build,
    counts: &[SaturatingCount],
    variant: &Variant,
    steps: &mut Steps,
) -> SaturatingCount
    requires checked { NamesEarlier build.shapes.now }
    requires counted { AreFirstCounts (build_of build) counts.now }
    requires below { FieldsBelow (length counts.now) variant.now.fields.items }
    ensures content { CountsTo result
        (count.count_content (build_of build.entry) variant.now) }
    ensures visits { steps.new.visits ≡ steps.old.visits + length variant.now.fields.items }
    ensures no_fall { NoCountFalls steps.old steps.new }
{
    let fields = variant.fields.as_slice();
    if fields.len() != 1 {
        return count_fields(build, counts, fields, steps);
    }
    let field = visited(fields, 0, steps);
    match newtype_of(build.shapes, field) {
        Some(id) => counts[id.index()],
        None => count_field(build, counts, field),
    }
}

/// The choices among variants: the sum. A variant whose content isn't walked is one choice.
fn count_variants(
    build: Build,
    counts: &[SaturatingCount],
    variants: &[Variant],
    walked: bool,
    steps: &mut Steps,
) -> SaturatingCount
    requires checked { NamesEarlier build.shapes.now }
    requires counted { AreFirstCounts (build_of build) counts.now }
    requires below { VariantsBelow (length counts.now) variants.now }
    ensures sum { CountsTo result
        (count.count_variants (build_of build.entry) walked variants.now) }
    ensures visits { steps.new.visits
        ≤ steps.old.visits + sum_by (λ v. length v.fields.items) variants.now }
    ensures visited { walked ≡ true → steps.new.visits
        ≡ steps.old.visits + sum_by (λ v. length v.fields.items) variants.now }
    ensures no_fall { NoCountFalls steps.old steps.new }
{
    let mut sum = SaturatingCount::Exact(0);
    for variant in variants {
        let choices = if walked {
            count_content(build, counts, variant, steps)
        } else {
            SaturatingCount::Exact(1)
        };
        sum = sum.plus(choices);
    }
    sum
}

/// The choices at a shape, the contents of whose variants are walked or not.
pub(crate) fn count_shape(
    build: Build,
    counts: &[SaturatingCount],
    shape: &Shape,
    walked: bool,
    steps: &mut Steps,
) -> SaturatingCount
    requires checked { NamesEarlier build.shapes.now }
    requires counted { AreFirstCounts (build_of build) counts.now }
    requires below { KindBelow (length counts.now) shape.now.kind }
    ensures shape { CountsTo result
        (count.count_kind (build_of build.entry) walked shape.now.kind) }
    ensures visits { steps.new.visits ≤ steps.old.visits + fields_of_kind shape.now.kind }
    ensures visited { walked ≡ true
        → steps.new.visits ≡ steps.old.visits + fields_of_kind shape.now.kind }
    ensures no_fall { NoCountFalls steps.old steps.new }
{
    match &shape.kind {
        ShapeKind::Struct { fields, .. } => count_fields(build, counts, fields.as_slice(), steps),
        ShapeKind::Enum { variants } => {
            count_variants(build, counts, variants.as_slice(), walked, steps)
        }
        _ => SaturatingCount::Exact(1),
    }
}
