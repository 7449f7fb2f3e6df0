//! Fields that may be absent since their types lead to options.
ghost use Rattle.std.specs.Prelude.{◌≡◌, map};
ghost use Rattle.facet_solver_types.specs.AbsentMembers.{let_absent, let_absent_field, let_absent_fields, let_absent_kind, let_absent_variant};
ghost use Rattle.facet_solver_types.specs.ShapeViews.{field_view, kind_view, shape_view, shapes_view, variant_view};

use super::absences::{Absence, leads_to_option};
use super::table::has_names;
use facet_solver_shape::{Field, Shape, ShapeKind, StructKind, Variant};

/// Gives a field with a name a default, where its type leads to an option. A flattened one has its
/// members in its place.
fn let_absent_field(absences: &[Absence], field: &mut Field)
    ensures { field_view field.new ≡ let_absent_field absences.now (field_view field.old) }
{
    if !field.flattened && leads_to_option(absences, field.shape.index()) {
        field.has_default = true;
    }
}

/// The same with named fields.
fn let_absent_named(absences: &[Absence], fields: &mut [Field])
    ensures { map field_view fields.new
        ≡ map (let_absent_field absences.now) (map field_view fields.old) }
{
    for field in fields.iter_mut() {
        let_absent_field(absences, field);
    }
}

/// The same with fields of a kind.
fn let_absent_fields(absences: &[Absence], kind: StructKind, fields: &mut [Field])
    ensures { map field_view fields.new
        ≡ let_absent_fields absences.now kind (map field_view fields.old) }
{
    if has_names(kind) {
        let_absent_named(absences, fields);
    }
}

/// The same with the fields of a variant.
fn let_absent_variant(absences: &[Absence], variant: &mut Variant)
    ensures { variant_view variant.new
        ≡ let_absent_variant absences.now (variant_view variant.old) }
{
    let_absent_fields(absences, variant.kind, &mut variant.fields);
}

/// The same with the fields of variants.
fn let_absent_variants(absences: &[Absence], variants: &mut [Variant])
    ensures { map variant_view variants.new
        ≡ map (let_absent_variant absences.now) (map variant_view variants.old) }
{
    for variant in variants.iter_mut() {
        let_absent_variant(absences, variant);
    }
}

/// The same with the fields of a kind, or with those of its variants.
fn let_absent_kind(absences: &[Absence], kind: &mut ShapeKind)
    ensures { kind_view kind.new ≡ let_absent_kind absences.now (kind_view kind.old) }
{
    match kind {
        ShapeKind::Struct { kind, fields } => let_absent_fields(absences, *kind, fields),
        ShapeKind::Enum { variants } => let_absent_variants(absences, variants),
        _ => (),
    }
}

/// The same with the fields of a shape. One that stands for its one field has no members.
fn let_absent_shape(absences: &[Absence], shape: &mut Shape)
    ensures { shape_view shape.new ≡ let_absent absences.now (shape_view shape.old) }
{
    if shape.inner.is_none() {
        let_absent_kind(absences, &mut shape.kind);
    }
}

/// Gives each field with a name a default, where its type leads to an option.
pub(super) fn let_absent(absences: &[Absence], shapes: &mut [Shape])
    ensures { shapes_view shapes.new
        ≡ map (let_absent absences.now) (shapes_view shapes.old) }
{
    for shape in shapes.iter_mut() {
        let_absent_shape(absences, shape);
    }
}
