//! A copy of a catalogue, to be changed.

use facet_solver_shape::{Field, Shape, ShapeId, ShapeKind, Shapes, Variant};
use std::alloc::{AllocError, Global};

/// Copies of the shapes of a catalogue.
pub(super) fn copied_shapes(alloc: Global, shapes: &Shapes) -> Result<Vec<Shape>, AllocError> {
    let mut copies = Vec::new(alloc);
    for index in 0..shapes.len() {
        if let Some(shape) = shapes.get(ShapeId::new(index)) {
            copies.push(copied_shape(alloc, shape)?)?;
        }
    }
    Ok(copies)
}

/// A copy of a shape.
fn copied_shape(alloc: Global, shape: &Shape) -> Result<Shape, AllocError> {
    Ok(Shape {
        type_identifier: shape.type_identifier.clone()?,
        kind: copied_kind(alloc, &shape.kind)?,
        inner: shape.inner,
        proxy: shape.proxy,
        tag: copied_name(&shape.tag)?,
        content: copied_name(&shape.content)?,
        untagged: shape.untagged,
        metadata_container: shape.metadata_container,
    })
}

/// A copy of what a shape is made of.
fn copied_kind(alloc: Global, kind: &ShapeKind) -> Result<ShapeKind, AllocError> {
    match kind {
        ShapeKind::Scalar(scalar) => Ok(ShapeKind::Scalar(*scalar)),
        ShapeKind::Struct { kind, fields } => Ok(ShapeKind::Struct {
            kind: *kind,
            fields: copied_fields(alloc, fields)?,
        }),
        ShapeKind::Enum { variants } => Ok(ShapeKind::Enum {
            variants: copied_variants(alloc, variants)?,
        }),
        ShapeKind::Option(inside) => Ok(ShapeKind::Option(*inside)),
        ShapeKind::Pointer(pointee) => Ok(ShapeKind::Pointer(*pointee)),
        ShapeKind::List(item) => Ok(ShapeKind::List(*item)),
        ShapeKind::Array(item) => Ok(ShapeKind::Array(*item)),
        ShapeKind::Slice(item) => Ok(ShapeKind::Slice(*item)),
        ShapeKind::Set(item) => Ok(ShapeKind::Set(*item)),
        ShapeKind::Map(key, value) => Ok(ShapeKind::Map(*key, *value)),
        ShapeKind::DynamicValue => Ok(ShapeKind::DynamicValue),
        ShapeKind::Other => Ok(ShapeKind::Other),
    }
}

/// Copies of variants.
fn copied_variants(alloc: Global, variants: &[Variant]) -> Result<Vec<Variant>, AllocError> {
    let mut copies = Vec::new(alloc);
    for variant in variants {
        let fields = copied_fields(alloc, &variant.fields)?;
        copies.push(Variant::new(variant.name.clone()?, variant.kind, fields))?;
    }
    Ok(copies)
}

/// Copies of fields.
fn copied_fields(alloc: Global, fields: &[Field]) -> Result<Vec<Field>, AllocError> {
    let mut copies = Vec::new(alloc);
    for field in fields {
        copies.push(copied_field(field)?)?;
    }
    Ok(copies)
}

/// A copy of a field.
fn copied_field(field: &Field) -> Result<Field, AllocError> {
    Ok(Field {
        name: field.name.clone()?,
        rename: copied_name(&field.rename)?,
        shape: field.shape,
        flattened: field.flattened,
        has_default: field.has_default,
        metadata: field.metadata,
        dom: field.dom,
    })
}

/// A copy of a name that may be absent.
fn copied_name(name: &Option<String>) -> Result<Option<String>, AllocError> {
    match name {
        Some(name) => Ok(Some(name.clone()?)),
        None => Ok(None),
    }
}
