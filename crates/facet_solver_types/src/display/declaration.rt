//! The declarations of a catalogue.
ghost use Rattle.std.specs.Prelude.{◌≡◌, Some, map};
ghost use Rattle.std.specs.Option.{option_map};
ghost use Rattle.facet_solver_types.specs.PrintedAttributes.{attribute};
ghost use Rattle.facet_solver_types.specs.PrintedDeclarations as declarations;

use super::attribute::{Attribute, Attributes};
use super::field::{Body, type_at};
use super::variant::Variants;
use facet_solver_shape::{Field, Shape, ShapeId, ShapeKind, Shapes, StructKind, Variant};
use std::fmt;

/// Whether a shape is a struct of one field without a name, which stands for that.
fn is_newtype(shape: &Shape) -> bool
    ensures { result ≡ declarations.is_newtype shape.now.kind }
{
    match &shape.kind {
        ShapeKind::Struct {
            kind: StructKind::TupleStruct,
            fields,
        } => fields.len() == 1,
        _ => false,
    }
}

/// Whether a declaration has to say that it stands for another shape.
fn is_transparent(shape: &Shape) -> bool
    ensures { result ≡ declarations.is_transparent shape.now }
{
    shape.inner.is_some() && !is_newtype(shape)
}

/// The attribute of the type that a shape is read and written as, where there is one.
fn proxy<'s>(shapes: &'s Shapes, shape: &Shape) -> Option<Attribute<'s>>
    ensures { option_map attribute result ≡ declarations.proxy shapes.now shape.now.proxy }
{
    match shape.proxy {
        Some(id) => Some(Attribute::WithType("proxy", type_at(shapes, id))),
        None => None,
    }
}

/// The attributes of a declaration, in the order in which they are written.
fn attributes_of<'s>(shapes: &'s Shapes, shape: &'s Shape) -> [Option<Attribute<'s>>; 6]
    ensures { map (option_map attribute) result ≡ declarations.of_shape shapes.now shape.now }
{
    [
        Attribute::with_text("tag", &shape.tag),
        Attribute::with_text("content", &shape.content),
        Attribute::flag(shape.untagged, "untagged"),
        Attribute::flag(is_transparent(shape), "transparent"),
        proxy(shapes, shape),
        Attribute::flag(shape.metadata_container, "metadata_container"),
    ]
}

/// The attributes of a declaration, on a line of their own.
#[derive(Drop)]
struct ShapeAttributes<'s> {
    shapes: &'s Shapes,
    shape: &'s Shape,
}

impl fmt::Display for ShapeAttributes<'_> {
    ghost output = { λ a. Some (declarations.before_declaration a.shapes.now a.shape.now) };

    fn fmt<W: fmt::Write>(&self, f: &mut fmt::Formatter<W>) -> fmt::Result {
        let list = attributes_of(self.shapes, self.shape);
        let attributes = Attributes {
            list: &list,
            end: "\n",
        };
        write!(f, "{attributes}")
    }
}

/// What stands behind the fields of a struct.
fn end_of(kind: StructKind) -> &'static str
    ensures { result.now ≡ declarations.end_of kind }
{
    match kind {
        StructKind::Struct => "\n",
        _ => ";\n",
    }
}

/// The declaration of a struct.
#[derive(Drop)]
struct StructDeclaration<'s> {
    shapes: &'s Shapes,
    shape: &'s Shape,
    kind: StructKind,
    fields: &'s [Field],
}

impl fmt::Display for StructDeclaration<'_> {
    ghost output = { λ d. Some
        (declarations.struct_declaration d.shapes.now d.shape.now d.kind d.fields.now) };

    fn fmt<W: fmt::Write>(&self, f: &mut fmt::Formatter<W>) -> fmt::Result {
        let attributes = ShapeAttributes {
            shapes: self.shapes,
            shape: self.shape,
        };
        let name = self.shape.type_identifier.as_str();
        let body = Body {
            shapes: self.shapes,
            indent: "",
            kind: self.kind,
            fields: self.fields,
        };
        let end = end_of(self.kind);
        write!(f, "{attributes}struct {name}{body}{end}")
    }
}

/// The declaration of an enum.
#[derive(Drop)]
struct EnumDeclaration<'s> {
    shapes: &'s Shapes,
    shape: &'s Shape,
    variants: &'s [Variant],
}

impl fmt::Display for EnumDeclaration<'_> {
    ghost output = { λ d. Some
        (declarations.enum_declaration d.shapes.now d.shape.now d.variants.now) };

    fn fmt<W: fmt::Write>(&self, f: &mut fmt::Formatter<W>) -> fmt::Result {
        let attributes = ShapeAttributes {
            shapes: self.shapes,
            shape: self.shape,
        };
        let name = self.shape.type_identifier.as_str();
        let variants = Variants {
            shapes: self.shapes,
            variants: self.variants,
        };
        write!(f, "{attributes}enum {name}{variants}\n")
    }
}

/// The declaration of a shape that is read and written as another, where it is.
#[derive(Drop)]
struct ProxyDeclaration<'s> {
    shapes: &'s Shapes,
    shape: &'s Shape,
}

impl fmt::Display for ProxyDeclaration<'_> {
    ghost output = { λ d. Some (declarations.proxy_declaration d.shapes.now d.shape.now) };

    fn fmt<W: fmt::Write>(&self, f: &mut fmt::Formatter<W>) -> fmt::Result {
        if self.shape.proxy.is_none() {
            return Ok(());
        }
        let attributes = ShapeAttributes {
            shapes: self.shapes,
            shape: self.shape,
        };
        let name = self.shape.type_identifier.as_str();
        write!(f, "{attributes}struct {name};\n")
    }
}

/// The declaration of a shape, where it has one.
#[derive(Drop)]
struct Declaration<'s> {
    shapes: &'s Shapes,
    shape: &'s Shape,
}

impl fmt::Display for Declaration<'_> {
    ghost output = { λ d. Some (declarations.declaration d.shapes.now d.shape.now) };

    fn fmt<W: fmt::Write>(&self, f: &mut fmt::Formatter<W>) -> fmt::Result {
        let shapes = self.shapes;
        let shape = self.shape;
        match &shape.kind {
            ShapeKind::Struct {
                kind: StructKind::Tuple,
                ..
            } => Ok(()),
            ShapeKind::Struct { kind, fields } => {
                let declaration = StructDeclaration {
                    shapes,
                    shape,
                    kind: *kind,
                    fields,
                };
                write!(f, "{declaration}")
            }
            ShapeKind::Enum { variants } => {
                let declaration = EnumDeclaration {
                    shapes,
                    shape,
                    variants,
                };
                write!(f, "{declaration}")
            }
            ShapeKind::Other => {
                let declaration = ProxyDeclaration { shapes, shape };
                write!(f, "{declaration}")
            }
            _ => Ok(()),
        }
    }
}

/// The declaration of the shape at an index, where it has one.
#[derive(Drop)]
pub(super) struct DeclarationAt<'s> {
    pub(super) shapes: &'s Shapes,
    pub(super) index: usize,
}

impl fmt::Display for DeclarationAt<'_> {
    ghost output = { λ d. Some (declarations.declaration_at d.shapes.now d.index) };

    fn fmt<W: fmt::Write>(&self, f: &mut fmt::Formatter<W>) -> fmt::Result {
        let shapes = self.shapes;
        let Some(shape) = shapes.get(ShapeId::new(self.index)) else {
            return Ok(());
        };
        let declaration = Declaration { shapes, shape };
        write!(f, "{declaration}")
    }
}
