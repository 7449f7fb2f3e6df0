//! The fields of variants that a document may leave out.

use facet_solver_reader::TypeName;
use facet_solver_shape::{
    Field, Shape, ShapeId, ShapeKind, Shapes, StructKind, Variant, is_required,
};
use std::alloc::{AllocError, Global};

/// Where a catalogue has fields: in a struct, or in a variant of an enum, by their indices.
#[derive(Clone, Copy)]
struct Owner {
    shape: usize,
    variant: Option<usize>,
}

/// A field that a document may leave out.
#[derive(Clone, Copy)]
pub(super) struct OptionalField<'c> {
    /// Its name in a document.
    pub(super) name: &'c str,
    /// Where it stands.
    owner: Owner,
    /// Its index there.
    index: usize,
    /// The index of the shape that its value has where a document has it: of an option the inside.
    value: usize,
}

impl OptionalField<'_> {
    /// Changes the field in the shapes of a catalogue: a document must have it.
    pub(super) fn require(&self, shapes: &mut [Shape]) {
        let Some(shape) = shapes.get_mut(self.owner.shape) else {
            return;
        };
        match &mut shape.kind {
            ShapeKind::Struct { fields, .. } => self.require_among(fields),
            ShapeKind::Enum { variants } => self.require_in(variants),
            _ => {}
        }
    }

    /// The same in the variants of an enum.
    fn require_in(&self, variants: &mut [Variant]) {
        if let Some(index) = self.owner.variant
            && let Some(variant) = variants.get_mut(index)
        {
            self.require_among(&mut variant.fields);
        }
    }

    /// The same among fields.
    fn require_among(&self, fields: &mut [Field]) {
        if let Some(field) = fields.get_mut(self.index) {
            field.has_default = false;
            field.shape = ShapeId::new(self.value);
        }
    }

    /// The fields among which it stands in a catalogue.
    pub(super) fn all_fields<'s>(&self, shapes: &'s Shapes) -> &'s [Field] {
        match shapes.get(ShapeId::new(self.owner.shape)) {
            Some(shape) => fields_in(&shape.kind, self.owner.variant),
            None => &[],
        }
    }
}

/// The fields of a struct, or of a variant of an enum.
fn fields_in(kind: &ShapeKind, variant: Option<usize>) -> &[Field] {
    match (kind, variant) {
        (ShapeKind::Struct { fields, .. }, _) => fields,
        (ShapeKind::Enum { variants }, Some(index)) => match variants.get(index) {
            Some(variant) => &variant.fields,
            None => &[],
        },
        _ => &[],
    }
}

/// The fields with names that a document may leave out, in the order of some variants and of their
/// fields: those that a variant has itself, or those of the struct that it holds.
pub(super) fn optional_fields<'c>(
    alloc: Global,
    shapes: &'c Shapes,
    variants: &[TypeName<'_>],
) -> Result<Vec<OptionalField<'c>>, AllocError> {
    let mut found = Vec::new(alloc);
    for variant in variants {
        for index in 0..shapes.len() {
            add_of_shape(shapes, index, variant, &mut found)?;
        }
    }
    Ok(found)
}

/// Adds those of a variant of the shape at an index, if it has one of that name.
fn add_of_shape<'c>(
    shapes: &'c Shapes,
    index: usize,
    name: &TypeName<'_>,
    found: &mut Vec<OptionalField<'c>>,
) -> Result<(), AllocError> {
    if let Some(shape) = shapes.get(ShapeId::new(index))
        && let ShapeKind::Enum { variants } = &shape.kind
        && shape.type_identifier.as_str() == name.name
    {
        for (number, variant) in variants.iter().enumerate() {
            if name.variant == Some(variant.name.as_str()) {
                let owner = Owner {
                    shape: index,
                    variant: Some(number),
                };
                add_of_variant(shapes, owner, variant, found)?;
            }
        }
    }
    Ok(())
}

/// Adds those of a variant.
fn add_of_variant<'c>(
    shapes: &'c Shapes,
    owner: Owner,
    variant: &'c Variant,
    found: &mut Vec<OptionalField<'c>>,
) -> Result<(), AllocError> {
    match variant.fields.as_slice() {
        fields if variant.kind == StructKind::Struct => add_of_fields(shapes, owner, fields, found),
        [held] => add_of_struct(shapes, last_of(shapes, held.shape), found),
        _ => Ok(()),
    }
}

/// Adds those of the struct at an index, if its fields have names.
fn add_of_struct<'c>(
    shapes: &'c Shapes,
    id: ShapeId,
    found: &mut Vec<OptionalField<'c>>,
) -> Result<(), AllocError> {
    if let Some(shape) = shapes.get(id)
        && let ShapeKind::Struct { kind, fields } = &shape.kind
        && *kind == StructKind::Struct
    {
        let owner = Owner {
            shape: id.index(),
            variant: None,
        };
        add_of_fields(shapes, owner, fields, found)?;
    }
    Ok(())
}

/// Adds those of fields that are not flattened.
fn add_of_fields<'c>(
    shapes: &'c Shapes,
    owner: Owner,
    fields: &'c [Field],
    found: &mut Vec<OptionalField<'c>>,
) -> Result<(), AllocError> {
    for (index, field) in fields.iter().enumerate() {
        if !field.flattened && !is_required(shapes, field) {
            found.push(OptionalField {
                name: field.effective_name(),
                owner,
                index,
                value: inside_of(shapes, field.shape).index(),
            })?;
        }
    }
    Ok(())
}

/// What is inside the shape at an index where it is an option; else itself.
fn inside_of(shapes: &Shapes, id: ShapeId) -> ShapeId {
    match shapes.get(id) {
        Some(shape) => match shape.kind {
            ShapeKind::Option(inside) => inside,
            _ => id,
        },
        None => id,
    }
}

/// Where a shape leads, by what each stands for and by pointers.
fn last_of(shapes: &Shapes, id: ShapeId) -> ShapeId {
    let mut last = id;
    for _ in 0..shapes.len() {
        last = shapes.end_of(shapes.effective(last));
    }
    last
}

/// The names of fields, each once, in their order.
pub(super) fn names_of<'c>(
    alloc: Global,
    fields: &[OptionalField<'c>],
) -> Result<Vec<&'c str>, AllocError> {
    let mut names = Vec::new(alloc);
    for field in fields {
        if !names.contains(&field.name) {
            names.push(field.name)?;
        }
    }
    Ok(names)
}
