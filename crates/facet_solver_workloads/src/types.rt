//! Catalogues of shapes, type by type.

use crate::fault::Fault;
use facet_solver::{Field, ScalarType, Shape, ShapeId, ShapeKind, Shapes, StructKind, Variant};
use std::alloc::Global;

/// How a document writes the variant of an enum.
#[derive(Clone, Copy)]
pub enum Tagging {
    /// By the names of its members.
    Untagged,
    /// By a name around its content.
    External,
    /// By a tag among its members.
    Internal(&'static str),
    /// By a tag, with its content beside it.
    Adjacent(&'static str, &'static str),
}

/// The types so far.
#[derive(Drop)]
pub struct Types {
    alloc: Global,
    shapes: Vec<Shape>,
}

impl Types {
    pub fn new(alloc: Global) -> Self {
        Types {
            alloc,
            shapes: Vec::new(alloc),
        }
    }

    /// The type that is added next, after so many others.
    pub fn ahead(&self, others: usize) -> ShapeId {
        ShapeId::new(self.shapes.len().wrapping_add(others))
    }

    fn add(&mut self, shape: Shape) -> Result<ShapeId, Fault> {
        let id = self.ahead(0);
        self.shapes.push(shape)?;
        Ok(id)
    }

    /// A type of any kind.
    pub fn kind(&mut self, name: &str, kind: ShapeKind) -> Result<ShapeId, Fault> {
        let name = String::from_str(self.alloc, name)?;
        self.add(Shape::new(name, kind))
    }

    pub fn text(&mut self) -> Result<ShapeId, Fault> {
        self.kind("String", ShapeKind::Scalar(ScalarType::String))
    }

    pub fn whole(&mut self) -> Result<ShapeId, Fault> {
        self.kind("u64", ShapeKind::Scalar(ScalarType::U64))
    }

    pub fn decimal(&mut self) -> Result<ShapeId, Fault> {
        self.kind("f64", ShapeKind::Scalar(ScalarType::F64))
    }

    pub fn truth(&mut self) -> Result<ShapeId, Fault> {
        self.kind("bool", ShapeKind::Scalar(ScalarType::Bool))
    }

    pub fn option(&mut self, of: ShapeId) -> Result<ShapeId, Fault> {
        self.kind("Option", ShapeKind::Option(of))
    }

    pub fn list(&mut self, of: ShapeId) -> Result<ShapeId, Fault> {
        self.kind("Vec", ShapeKind::List(of))
    }

    pub fn map(&mut self, key: ShapeId, value: ShapeId) -> Result<ShapeId, Fault> {
        self.kind("Map", ShapeKind::Map(key, value))
    }

    pub fn field(&self, name: &str, shape: ShapeId) -> Result<Field, Fault> {
        Ok(Field::new(String::from_str(self.alloc, name)?, shape))
    }

    pub fn flattened(&self, name: &str, shape: ShapeId) -> Result<Field, Fault> {
        let mut field = self.field(name, shape)?;
        field.flattened = true;
        Ok(field)
    }

    pub fn fields(&self, fields: &[(&str, ShapeId)]) -> Result<Vec<Field>, Fault> {
        let mut made = Vec::new(self.alloc);
        for (name, shape) in fields {
            made.push(self.field(name, *shape)?)?;
        }
        Ok(made)
    }

    pub fn structure(&mut self, name: &str, fields: Vec<Field>) -> Result<ShapeId, Fault> {
        let kind = StructKind::Struct;
        self.kind(name, ShapeKind::Struct { kind, fields })
    }

    pub fn variant(&self, name: &str, fields: Vec<Field>) -> Result<Variant, Fault> {
        let name = String::from_str(self.alloc, name)?;
        let kind = if fields.is_empty() {
            StructKind::Unit
        } else {
            StructKind::Struct
        };
        Ok(Variant::new(name, kind, fields))
    }

    pub fn enumeration(
        &mut self,
        name: &str,
        variants: Vec<Variant>,
        tagging: Tagging,
    ) -> Result<ShapeId, Fault> {
        let name = String::from_str(self.alloc, name)?;
        let mut shape = Shape::new(name, ShapeKind::Enum { variants });
        match tagging {
            Tagging::Untagged => shape.untagged = true,
            Tagging::External => {}
            Tagging::Internal(tag) => shape.tag = Some(String::from_str(self.alloc, tag)?),
            Tagging::Adjacent(tag, content) => {
                shape.tag = Some(String::from_str(self.alloc, tag)?);
                shape.content = Some(String::from_str(self.alloc, content)?);
            }
        }
        self.add(shape)
    }

    pub fn catalogue(self) -> Result<Shapes, Fault> {
        let Types {
            alloc: _alloc,
            shapes,
        } = self;
        match Shapes::new(shapes) {
            Ok(shapes) => Ok(shapes),
            Err(_) => Err(Fault::Type),
        }
    }
}
