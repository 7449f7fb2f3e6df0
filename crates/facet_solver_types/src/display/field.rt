//! The fields of a struct or of a variant.
ghost use Rattle.std.specs.Prelude.{◌≡◌, Some};
ghost use Rattle.std.specs.List.{flat_map};
ghost use Rattle.facet_solver_types.specs.PrintedFields as fields;

use super::attribute::FieldAttributes;
use super::word::Declared;
use facet_solver_shape::{Field, ShapeId, Shapes, StructKind};
use std::fmt;

/// The type at an index of a catalogue, by its identifier.
pub(super) fn type_at(shapes: &Shapes, id: ShapeId) -> &str
    ensures { result.now ≡ fields.type_at shapes.now id }
{
    match shapes.get(id) {
        Some(shape) => shape.type_identifier.as_str(),
        None => "",
    }
}

/// A line for a field with a name.
#[derive(Drop)]
struct FieldLine<'s> {
    shapes: &'s Shapes,
    indent: &'static str,
    field: &'s Field,
}

impl fmt::Display for FieldLine<'_> {
    ghost output = { λ l. Some (fields.field_line l.shapes.now l.indent.now l.field.now) };

    fn fmt<W: fmt::Write>(&self, f: &mut fmt::Formatter<W>) -> fmt::Result {
        let indent = self.indent;
        let attributes = FieldAttributes(self.field);
        let name = Declared(self.field.name.as_str());
        let type_name = type_at(self.shapes, self.field.shape);
        write!(f, "{indent}    {attributes}{name}: {type_name},\n")
    }
}

/// A line for each field.
#[derive(Drop)]
struct FieldLines<'s> {
    shapes: &'s Shapes,
    indent: &'static str,
    fields: &'s [Field],
}

impl fmt::Display for FieldLines<'_> {
    ghost output = { λ l. Some
        (flat_map (fields.field_line l.shapes.now l.indent.now) l.fields.now) };

    fn fmt<W: fmt::Write>(&self, f: &mut fmt::Formatter<W>) -> fmt::Result {
        for field in self.fields {
            let line = FieldLine {
                shapes: self.shapes,
                indent: self.indent,
                field,
            };
            write!(f, "{line}")?;
        }
        Ok(())
    }
}

/// A field without a name.
#[derive(Drop)]
struct Unnamed<'s> {
    shapes: &'s Shapes,
    field: &'s Field,
}

impl fmt::Display for Unnamed<'_> {
    ghost output = { λ u. Some (fields.unnamed u.shapes.now u.field.now) };

    fn fmt<W: fmt::Write>(&self, f: &mut fmt::Formatter<W>) -> fmt::Result {
        let attributes = FieldAttributes(self.field);
        let type_name = type_at(self.shapes, self.field.shape);
        write!(f, "{attributes}{type_name}")
    }
}

/// Fields without a name, each behind a comma.
#[derive(Drop)]
struct LaterUnnamed<'s> {
    shapes: &'s Shapes,
    fields: &'s [Field],
}

impl fmt::Display for LaterUnnamed<'_> {
    ghost output = { λ l. Some (flat_map (fields.later_unnamed l.shapes.now) l.fields.now) };

    fn fmt<W: fmt::Write>(&self, f: &mut fmt::Formatter<W>) -> fmt::Result {
        for field in self.fields {
            let field = Unnamed {
                shapes: self.shapes,
                field,
            };
            write!(f, ", {field}")?;
        }
        Ok(())
    }
}

/// Fields without a name, with commas between.
#[derive(Drop)]
struct AllUnnamed<'s> {
    shapes: &'s Shapes,
    fields: &'s [Field],
}

impl fmt::Display for AllUnnamed<'_> {
    ghost output = { λ a. Some (fields.all_unnamed a.shapes.now a.fields.now) };

    fn fmt<W: fmt::Write>(&self, f: &mut fmt::Formatter<W>) -> fmt::Result {
        let Some((field, rest)) = self.fields.split_first() else {
            return Ok(());
        };
        let first = Unnamed {
            shapes: self.shapes,
            field,
        };
        let later = LaterUnnamed {
            shapes: self.shapes,
            fields: rest,
        };
        write!(f, "{first}{later}")
    }
}

/// Fields with a name, in braces.
#[derive(Drop)]
struct Braced<'s> {
    shapes: &'s Shapes,
    indent: &'static str,
    fields: &'s [Field],
}

impl fmt::Display for Braced<'_> {
    ghost output = { λ b. Some (fields.in_braces b.shapes.now b.indent.now b.fields.now) };

    fn fmt<W: fmt::Write>(&self, f: &mut fmt::Formatter<W>) -> fmt::Result {
        if self.fields.is_empty() {
            return f.write_str(" {}");
        }
        let indent = self.indent;
        let lines = FieldLines {
            shapes: self.shapes,
            indent,
            fields: self.fields,
        };
        write!(f, " {{\n{lines}{indent}}}")
    }
}

/// The fields of a struct or of a variant, as they stand behind its name.
#[derive(Drop)]
pub(super) struct Body<'s> {
    pub(super) shapes: &'s Shapes,
    pub(super) indent: &'static str,
    pub(super) kind: StructKind,
    pub(super) fields: &'s [Field],
}

impl fmt::Display for Body<'_> {
    ghost output = { λ b. Some (fields.body b.shapes.now b.indent.now b.kind b.fields.now) };

    fn fmt<W: fmt::Write>(&self, f: &mut fmt::Formatter<W>) -> fmt::Result {
        let shapes = self.shapes;
        let indent = self.indent;
        let fields = self.fields;
        match self.kind {
            StructKind::Unit => Ok(()),
            StructKind::Struct => {
                let fields = Braced {
                    shapes,
                    indent,
                    fields,
                };
                write!(f, "{fields}")
            }
            _ => {
                let fields = AllUnnamed { shapes, fields };
                write!(f, "({fields})")
            }
        }
    }
}
