//! The shapes of a catalogue.
ghost use Rattle.std.specs.Prelude.{◌≡◌, Some};
ghost use Rattle.facet_solver_tool.specs.ShapeText as texts;

use super::field::FieldsMember;
use super::member::{FlagMember, IndexMember, TextMember, WordMember};
use super::variant::VariantsMember;
use super::word;
use crate::quoted::Quoted;
use facet_solver_shape::{Shape, ShapeId, ShapeKind, Shapes};
use std::fmt;

/// The members of a shape of any kind that stand behind the word for its kind.
#[derive(Drop)]
struct ShapeMembers<'s>(&'s Shape);

impl fmt::Display for ShapeMembers<'_> {
    ghost output = { λ m. Some (texts.shape_members m.0.now) };

    fn fmt<W: fmt::Write>(&self, f: &mut fmt::Formatter<W>) -> fmt::Result {
        let shape = self.0;
        let inner = IndexMember {
            key: "inner",
            shape: shape.inner,
        };
        let proxy = IndexMember {
            key: "proxy",
            shape: shape.proxy,
        };
        let tag = TextMember {
            key: "tag",
            text: &shape.tag,
        };
        let content = TextMember {
            key: "content",
            text: &shape.content,
        };
        let untagged = FlagMember {
            key: "untagged",
            is_set: shape.untagged,
        };
        let metadata = FlagMember {
            key: "metadata",
            is_set: shape.metadata_container,
        };
        write!(f, "{inner}{proxy}{tag}{content}{untagged}{metadata}")
    }
}

/// The members that say what a shape is made of, behind all others.
#[derive(Drop)]
struct KindMembers<'s>(&'s ShapeKind);

impl fmt::Display for KindMembers<'_> {
    ghost output = { λ m. Some (texts.kind_members m.0.now) };

    fn fmt<W: fmt::Write>(&self, f: &mut fmt::Formatter<W>) -> fmt::Result {
        match self.0 {
            ShapeKind::Scalar(scalar) => {
                let scalar = WordMember {
                    key: "scalar",
                    word: Some(word::scalar_type(*scalar)),
                };
                write!(f, "{scalar}")
            }
            ShapeKind::Struct { kind, fields } => {
                let kind = WordMember {
                    key: "struct",
                    word: word::struct_kind(*kind),
                };
                let fields = FieldsMember(fields);
                write!(f, "{kind}{fields}")
            }
            ShapeKind::Enum { variants } => {
                let variants = VariantsMember(variants);
                write!(f, "{variants}")
            }
            ShapeKind::Option(of)
            | ShapeKind::List(of)
            | ShapeKind::Array(of)
            | ShapeKind::Slice(of)
            | ShapeKind::Set(of) => {
                let of = IndexMember {
                    key: "of",
                    shape: Some(*of),
                };
                write!(f, "{of}")
            }
            ShapeKind::Pointer(of) => {
                let of = IndexMember {
                    key: "of",
                    shape: *of,
                };
                write!(f, "{of}")
            }
            ShapeKind::Map(key, value) => {
                let key = IndexMember {
                    key: "key",
                    shape: Some(*key),
                };
                let value = IndexMember {
                    key: "value",
                    shape: Some(*value),
                };
                write!(f, "{key}{value}")
            }
            ShapeKind::DynamicValue | ShapeKind::Other => Ok(()),
        }
    }
}

/// A shape as an object.
#[derive(Drop)]
struct ShapeObject<'s>(&'s Shape);

impl fmt::Display for ShapeObject<'_> {
    ghost output = { λ o. Some (texts.shape o.0.now) };

    fn fmt<W: fmt::Write>(&self, f: &mut fmt::Formatter<W>) -> fmt::Result {
        let shape = self.0;
        let id = Quoted(shape.type_identifier.as_str());
        let word = word::shape_kind(&shape.kind);
        let members = ShapeMembers(shape);
        let kind = KindMembers(&shape.kind);
        write!(f, "{{\"id\": {id}, \"kind\": \"{word}\"{members}{kind}}}")
    }
}

/// What divides the line of the shape at an index from what stands before it.
fn divider(index: usize) -> &'static str
    ensures { result.now ≡ texts.divider index }
{
    if index == 0 { "" } else { "," }
}

/// The line of the shape at an index.
#[derive(Drop)]
struct ShapeLine<'s> {
    shapes: &'s Shapes,
    index: usize,
}

impl fmt::Display for ShapeLine<'_> {
    ghost output = { λ l. Some (texts.line_at l.shapes.now l.index) };

    fn fmt<W: fmt::Write>(&self, f: &mut fmt::Formatter<W>) -> fmt::Result {
        let Some(shape) = self.shapes.get(ShapeId::new(self.index)) else {
            return Ok(());
        };
        let divider = divider(self.index);
        let shape = ShapeObject(shape);
        write!(f, "{divider}\n {shape}")
    }
}

/// A line for each shape, in the order of their indices, with commas between.
#[derive(Drop)]
pub(super) struct ShapeLines<'s>(pub(super) &'s Shapes);

impl fmt::Display for ShapeLines<'_> {
    ghost output = { λ l. Some (texts.lines l.0.now) };

    fn fmt<W: fmt::Write>(&self, f: &mut fmt::Formatter<W>) -> fmt::Result {
        let shapes = self.0;
        for index in 0..shapes.len() {
            let line = ShapeLine { shapes, index };
            write!(f, "{line}")?;
        }
        Ok(())
    }
}
