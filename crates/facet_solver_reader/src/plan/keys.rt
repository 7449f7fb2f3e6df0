//! Which names are keys of a map.
ghost use Rattle.std.specs.Prelude.{◌≡◌, ◌&&◌, ◌||◌, IfOk, OnOk, string_bytes};
ghost use Rattle.std.specs.List.{list_any};
ghost use Rattle.std.specs.Str.{bytes_eq};
ghost use Rattle.facet_solver_shape.specs.Names.{Name};
ghost use Rattle.facet_solver_reader.specs.Content.{is_unit};
ghost use Rattle.facet_solver_reader.specs.PlanKeys.{AreKeysOf, is_one_of};
ghost use Rattle.facet_solver_reader.specs.Types.{is_key_of_end, is_key_of_kind};
ghost use Rattle.facet_solver_reader.specs.Views.{end_view};

use crate::content::is_unit;
use crate::end::{End, end_of_scalar};
use crate::ends::last_of;
use facet_solver_shape::{EnumRepr, Shape, ShapeId, ShapeKind, Shapes, Variant, WholeRange};
use std::alloc::{AllocError, Global};

/// Which names are keys.
#[derive(Debug, Drop)]
pub enum PlannedKeys<'c> {
    /// Any name.
    Any,
    /// The whole numbers of the range, as they are written in JSON.
    Whole(WholeRange),
    /// `true` and `false`.
    Truth,
    /// The names of one character.
    Character,
    /// These names.
    Words(Vec<&'c str>),
}

impl<'c> PlannedKeys<'c> {
    /// Those of the shape at an index.
    pub(super) fn of(
        alloc: Global,
        shapes: &'c Shapes,
        key: ShapeId,
    ) -> Result<PlannedKeys<'c>, AllocError>
        ensures { IfOk result (AreKeysOf shapes.now key) }
    {
        match shapes.get(last_of(shapes, key)) {
            Some(shape) => PlannedKeys::of_shape(alloc, shape),
            None => Ok(PlannedKeys::Any),
        }
    }

    /// Those of a shape.
    fn of_shape(alloc: Global, shape: &'c Shape) -> Result<PlannedKeys<'c>, AllocError>
        ensures { IfOk result (λ keys. (name : Name)
            → is_one_of keys name ≡ is_key_of_kind shape.now shape.now.kind name) }
    {
        match &shape.kind {
            ShapeKind::Scalar(scalar) => Ok(PlannedKeys::of_end(&end_of_scalar(*scalar))),
            ShapeKind::Enum { variants } => match EnumRepr::from_shape(shape) {
                EnumRepr::ExternallyTagged => {
                    Ok(PlannedKeys::Words(unit_names(alloc, variants)?))
                }
                _ => Ok(PlannedKeys::Any),
            },
            _ => Ok(PlannedKeys::Any),
        }
    }

    /// Those of a basic type.
    fn of_end(end: &End<'_>) -> PlannedKeys<'c>
        ensures { (name : Name) → is_one_of result name ≡ is_key_of_end (end_view end.now) name }
    {
        match end {
            End::Whole(range) => PlannedKeys::Whole(*range),
            End::Truth => PlannedKeys::Truth,
            End::Character => PlannedKeys::Character,
            _ => PlannedKeys::Any,
        }
    }
}

/// The names of the variants without content to tell.
fn unit_names<'c>(alloc: Global, variants: &'c [Variant]) -> Result<Vec<&'c str>, AllocError>
    ensures { IfOk result (λ names. (name : Name) → list_any (λ n. bytes_eq n.now name) names.items
        ≡ list_any (λ v. is_unit v && bytes_eq (string_bytes v.name) name) variants.now) }
{
    let mut names = Vec::new(alloc);
    for variant in variants {
        push_unit_name(&mut names, variant)?;
    }
    Ok(names)
}

/// Adds the name of a variant, if it has no content to tell.
fn push_unit_name<'c>(names: &mut Vec<&'c str>, variant: &'c Variant) -> Result<(), AllocError>
    ensures { OnOk result ((name : Name) → list_any (λ n. bytes_eq n.now name) names.new.items
        ≡ (list_any (λ n. bytes_eq n.now name) names.old.items
        || (is_unit variant.now && bytes_eq (string_bytes variant.now.name) name))) }
{
    if is_unit(variant) {
        names.push(variant.name.as_str())?;
    }
    Ok(())
}
