//! How the enums of a catalogue are written.
ghost use Rattle.std.specs.Prelude.{Some};
ghost use Rattle.facet_solver_shape.specs.Representation.{repr_view};
ghost use Rattle.facet_solver_tool.specs.Representations.{enum_line, enum_line_at, enum_lines, repr_text};

use crate::quoted::Quoted;
use facet_solver_shape::{EnumRepr, Shape, ShapeId, ShapeKind, Shapes};
use std::fmt;

/// How an enum is written, to be printed.
#[derive(Clone, Copy, Debug, Drop)]
struct Representation<'c>(EnumRepr<'c>);

impl fmt::Display for Representation<'_> {
    ghost output = { λ r. Some (repr_text (repr_view r.0)) };

    fn fmt<W: fmt::Write>(&self, f: &mut fmt::Formatter<W>) -> fmt::Result {
        match self.0 {
            EnumRepr::Flattened => write!(f, "untagged"),
            EnumRepr::ExternallyTagged => write!(f, "externally tagged"),
            EnumRepr::InternallyTagged { tag } => write!(f, "internally tagged by '{tag}'"),
            EnumRepr::AdjacentlyTagged { tag, content } => {
                write!(f, "adjacently tagged by '{tag}' and '{content}'")
            }
        }
    }
}

/// The line of a shape that is an enum, behind a line feed; nothing for another.
#[derive(Clone, Copy, Debug, Drop)]
struct EnumLine<'c>(&'c Shape);

impl fmt::Display for EnumLine<'_> {
    ghost output = { λ e. Some (enum_line e.0.now) };

    fn fmt<W: fmt::Write>(&self, f: &mut fmt::Formatter<W>) -> fmt::Result {
        let shape = self.0;
        match shape.kind {
            ShapeKind::Enum { .. } => {
                let name = shape.type_identifier.as_str();
                let representation = Representation(EnumRepr::from_shape(shape));
                write!(f, "\n{name}: {representation}")
            }
            _ => Ok(()),
        }
    }
}

/// The line of the shape at an index, behind a line feed, if it is an enum.
#[derive(Clone, Copy, Debug, Drop)]
struct EnumLineAt<'c> {
    shapes: &'c Shapes,
    index: usize,
}

impl fmt::Display for EnumLineAt<'_> {
    ghost output = { λ e. Some (enum_line_at e.shapes.now e.index) };

    fn fmt<W: fmt::Write>(&self, f: &mut fmt::Formatter<W>) -> fmt::Result {
        let Some(shape) = self.shapes.get(ShapeId::new(self.index)) else {
            return Ok(());
        };
        let line = EnumLine(shape);
        write!(f, "{line}")
    }
}

/// A line for each enum of a catalogue, each behind a line feed.
#[derive(Clone, Copy, Debug, Drop)]
pub struct EnumLines<'c>(pub &'c Shapes);

impl fmt::Display for EnumLines<'_> {
    ghost output = { λ e. Some (enum_lines e.0.now) };

    fn fmt<W: fmt::Write>(&self, f: &mut fmt::Formatter<W>) -> fmt::Result {
        let shapes = self.0;
        for index in 0..shapes.len() {
            let line = EnumLineAt { shapes, index };
            write!(f, "{line}")?;
        }
        Ok(())
    }
}

/// The object of JSON for a shape that is an enum, behind a line feed: its name, and how it is
/// written, by the members that a catalogue has for it; nothing for another.
#[derive(Clone, Copy, Debug, Drop)]
struct EnumObject<'c>(&'c Shape);

impl fmt::Display for EnumObject<'_> {
    fn fmt<W: fmt::Write>(&self, f: &mut fmt::Formatter<W>) -> fmt::Result {
        let shape = self.0;
        let ShapeKind::Enum { .. } = shape.kind else {
            return Ok(());
        };
        let name = Quoted(shape.type_identifier.as_str());
        write!(f, "\n{{\"enum\": {name}")?;
        match EnumRepr::from_shape(shape) {
            EnumRepr::Flattened => write!(f, ", \"untagged\": true}}"),
            EnumRepr::ExternallyTagged => write!(f, "}}"),
            EnumRepr::InternallyTagged { tag } => {
                let tag = Quoted(tag);
                write!(f, ", \"tag\": {tag}}}")
            }
            EnumRepr::AdjacentlyTagged { tag, content } => {
                let tag = Quoted(tag);
                let content = Quoted(content);
                write!(f, ", \"tag\": {tag}, \"content\": {content}}}")
            }
        }
    }
}

/// An object of JSON for each enum of a catalogue, each behind a line feed.
#[derive(Clone, Copy, Debug, Drop)]
pub struct EnumData<'c>(pub &'c Shapes);

impl fmt::Display for EnumData<'_> {
    fn fmt<W: fmt::Write>(&self, f: &mut fmt::Formatter<W>) -> fmt::Result {
        let shapes = self.0;
        for index in 0..shapes.len() {
            if let Some(shape) = shapes.get(ShapeId::new(index)) {
                let object = EnumObject(shape);
                write!(f, "{object}")?;
            }
        }
        Ok(())
    }
}
