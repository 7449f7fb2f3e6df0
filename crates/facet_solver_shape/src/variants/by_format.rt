//! The variants of an enum by their formats.
ghost use Rattle.std.specs.Prelude.{◌≡◌, ◌↔◌, ◌<◌, IsTrue, IfOk, IfSome, vec_len};
ghost use Rattle.std.specs.Option.{option_map};
ghost use Rattle.facet_solver_shape.specs.Groups.{groups_at, groups_view, variants_at, variants_with, variants_view, IsPartition};

use super::grouping::grouped;
use crate::shape::{Shape, ShapeId, ShapeKind, Shapes, Variant};
use std::alloc::{AllocError, Global};

/// The variants of an enum, grouped by format.
///
/// Each variant stands in exactly one of the lists of unit, tuple, struct, scalar and other
/// variants; the lists of bool, int, float and string variants are parts of that of scalar
/// variants. In each list the variants stand in the order in which the enum declares them.
#[derive(Debug, Drop)]
pub struct VariantsByFormat<'c> {
    /// Scalars, each with the shape of its value.
    pub scalar_variants: Vec<(&'c Variant, ShapeId)>,
    /// The scalars that are a bool, once pointers are followed. So with the next three.
    pub bool_variants: Vec<(&'c Variant, ShapeId)>,
    /// The scalars that are a whole number.
    pub int_variants: Vec<(&'c Variant, ShapeId)>,
    /// The scalars that are a float.
    pub float_variants: Vec<(&'c Variant, ShapeId)>,
    /// The scalars that are a text or a char.
    pub string_variants: Vec<(&'c Variant, ShapeId)>,
    /// Sequences, each with its number of elements, or with 0 where any number will do.
    pub tuple_variants: Vec<(&'c Variant, usize)>,
    /// Mappings.
    pub struct_variants: Vec<&'c Variant>,
    /// Variants of kind unit.
    pub unit_variants: Vec<&'c Variant>,
    /// All others.
    pub other_variants: Vec<&'c Variant>,
}

impl<'c> VariantsByFormat<'c> {
    /// The variants of an enum, grouped; `None` where the shape is no enum of the catalogue.
    ///
    /// The only error is out of memory.
    pub fn from_shape(
        alloc: Global,
        shapes: &'c Shapes,
        id: ShapeId,
    ) -> Result<Option<Self>, AllocError>
        ensures groups { IfOk result (λ found.
            option_map groups_view found ≡ groups_at shapes.now id) }
        ensures partition { IfOk result (λ found. IfSome found (λ groups.
            IfSome (variants_at shapes.now id) (λ variants.
            IsPartition variants (groups_view groups)))) }
    {
        match shapes.get(id) {
            Some(
                Shape {
                    kind: ShapeKind::Enum { variants },
                    ..
                },
            ) => Ok(Some(grouped(alloc, shapes, variants)?)),
            _ => Ok(None),
        }
    }

    /// The variants that stand in the tuple list with this number, in the order of declaration. For
    /// 0 these are those without fields and those of any length.
    ///
    /// The only error is out of memory.
    pub fn tuple_variants_with_arity(
        &self,
        alloc: Global,
        arity: usize,
    ) -> Result<Vec<&'c Variant>, AllocError>
        ensures { IfOk result (λ found.
            variants_view found.items ≡ variants_with arity (groups_view self.now).tuple_variants) }
    {
        let mut found = Vec::new(alloc);
        for (variant, length) in &self.tuple_variants {
            if *length == arity {
                found.push(*variant)?;
            }
        }
        Ok(found)
    }

    /// Whether some variant is a scalar.
    pub fn has_scalar_variants(&self) -> bool
        ensures { IsTrue result ↔ (0 < vec_len self.now.scalar_variants) }
    {
        !self.scalar_variants.is_empty()
    }

    /// Whether some variant is a sequence.
    pub fn has_tuple_variants(&self) -> bool
        ensures { IsTrue result ↔ (0 < vec_len self.now.tuple_variants) }
    {
        !self.tuple_variants.is_empty()
    }

    /// Whether some variant is a mapping.
    pub fn has_struct_variants(&self) -> bool
        ensures { IsTrue result ↔ (0 < vec_len self.now.struct_variants) }
    {
        !self.struct_variants.is_empty()
    }
}
