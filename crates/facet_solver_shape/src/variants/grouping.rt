//! How the variants of an enum are put into their lists.
ghost use Rattle.std.specs.Prelude.{◌≡◌, [], ◌∷◌, ◌++◌, IfOk, OnOk};
ghost use Rattle.facet_solver_shape.specs.Formats.{format_of};
ghost use Rattle.facet_solver_shape.specs.Groups.{groups_of, groups_view, joined, entries_view, IsPartition};
ghost use Rattle.facet_solver_shape.specs.Scalars.{end_scalar};

use super::by_format::VariantsByFormat;
use super::format::VariantFormat;
use crate::shape::{ScalarType, ShapeId, Shapes, Variant};
use std::alloc::{AllocError, Global};

/// The lists of these variants.
pub(super) fn grouped<'c>(
    alloc: Global,
    shapes: &'c Shapes,
    variants: &'c [Variant],
) -> Result<VariantsByFormat<'c>, AllocError>
    ensures groups { IfOk result (λ g. groups_view g ≡ groups_of shapes.now variants.now) }
    ensures partition { IfOk result (λ g. IsPartition variants.now (groups_view g)) }
{
    let mut groups = VariantsByFormat::empty(alloc);
    for variant in variants {
        groups.add(shapes, variant)?;
    }
    Ok(groups)
}

impl<'c> VariantsByFormat<'c> {
    /// No variants yet.
    fn empty(alloc: Global) -> Self
        ensures { groups_view result ≡ groups_of [] [] }
    {
        VariantsByFormat {
            scalar_variants: Vec::new(alloc),
            bool_variants: Vec::new(alloc),
            int_variants: Vec::new(alloc),
            float_variants: Vec::new(alloc),
            string_variants: Vec::new(alloc),
            tuple_variants: Vec::new(alloc),
            struct_variants: Vec::new(alloc),
            unit_variants: Vec::new(alloc),
            other_variants: Vec::new(alloc),
        }
    }

    /// Adds one more variant at the end of its lists.
    fn add(&mut self, shapes: &Shapes, variant: &'c Variant) -> Result<(), AllocError>
        ensures { OnOk result (groups_view self.new
            ≡ joined (groups_view self.old) (groups_of shapes.now (variant.now ∷ []))) }
    {
        match VariantFormat::from_variant(shapes, variant) {
            VariantFormat::Unit => self.unit_variants.push(variant)?,
            VariantFormat::NewtypeScalar { inner_shape } => {
                self.add_scalar(shapes, variant, inner_shape)?
            }
            VariantFormat::Struct | VariantFormat::NewtypeStruct { .. } => {
                self.struct_variants.push(variant)?
            }
            VariantFormat::Tuple { arity } | VariantFormat::NewtypeTuple { arity, .. } => {
                self.tuple_variants.push((variant, arity))?
            }
            VariantFormat::NewtypeSequence { .. } => self.tuple_variants.push((variant, 0))?,
            VariantFormat::NewtypeOther { .. } => self.other_variants.push(variant)?,
        }
        Ok(())
    }

    /// Adds a scalar at the end of the scalar list, and of the list of its type if there is one.
    fn add_scalar(
        &mut self,
        shapes: &Shapes,
        variant: &'c Variant,
        shape: ShapeId,
    ) -> Result<(), AllocError>
        requires { format_of shapes.now variant.now ≡ VariantFormat.NewtypeScalar shape }
        ensures { OnOk result (groups_view self.new
            ≡ joined (groups_view self.old) (groups_of shapes.now (variant.now ∷ []))) }
    {
        add_entry(&mut self.scalar_variants, variant, shape)?;
        match end_scalar(shapes, shape) {
            Some(ScalarType::Bool) => add_entry(&mut self.bool_variants, variant, shape),
            Some(
                ScalarType::U8
                | ScalarType::U16
                | ScalarType::U32
                | ScalarType::U64
                | ScalarType::U128
                | ScalarType::USize
                | ScalarType::I8
                | ScalarType::I16
                | ScalarType::I32
                | ScalarType::I64
                | ScalarType::I128
                | ScalarType::ISize,
            ) => add_entry(&mut self.int_variants, variant, shape),
            Some(ScalarType::F32 | ScalarType::F64) => {
                add_entry(&mut self.float_variants, variant, shape)
            }
            Some(ScalarType::String | ScalarType::CowStr | ScalarType::Str | ScalarType::Char) =>
                add_entry(&mut self.string_variants, variant, shape),
            Some(ScalarType::Unit | ScalarType::Other) | None => Ok(()),
        }
    }
}

/// Adds a variant with a shape at the end of a list.
fn add_entry<'c>(
    list: &mut Vec<(&'c Variant, ShapeId)>,
    variant: &'c Variant,
    shape: ShapeId,
) -> Result<(), AllocError>
    ensures { OnOk result
        (entries_view list.new.items ≡ entries_view list.old.items ++ (variant.now, shape) ∷ []) }
{
    // In place of `?`, for which no proof is generated at an entry of this type.
    match list.push((variant, shape)) {
        Ok(()) => Ok(()),
        Err(_) => Err(AllocError),
    }
}

/// The scalar type at the end of a shape, if it is a scalar.
#[tactic(auto, unfolding(crate::specs::Scalars::end_scalar))]
fn end_scalar(shapes: &Shapes, id: ShapeId) -> Option<ScalarType>
    ensures { result ≡ end_scalar shapes.now id }
{
    shapes.get(shapes.end_of(id))?.scalar_type()
}
