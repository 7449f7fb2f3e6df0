//! Readings as texts for people.
ghost use Rattle.std.specs.Prelude.{◌++◌, Some, codes};

use super::quoted::write_quoted;
use super::{FieldPlace, Reading, ReadingKind, VariantName};
use crate::document::Document;
use facet_solver_shape::{PathSegment, VariantSelection};
use std::fmt;

/// It prints as the names of the enum and the variant, as `Mode::Fast`.
impl fmt::Display for VariantName<'_> {
    ghost output = { λ v. Some (v.enum_name.now ++ codes "::" ++ v.variant_name.now) };

    fn fmt<W: fmt::Write>(&self, f: &mut fmt::Formatter<W>) -> fmt::Result {
        let enum_name = self.enum_name;
        let variant_name = self.variant_name;
        write!(f, "{enum_name}::{variant_name}")
    }
}

/// It prints a line for each field, as `server.port: 80`, and what is in a value in lines below,
/// two blanks to the right.
///
/// - Variants stand before what is read as them, as `mode: Mode::Fast "Fast"`. A selected variant
///   has a line: its path, unless that is the root's, and the variant.
/// - A field whose name in the document is not the last of its path has it behind the path, as
///   `mode::Fast (type): "Fast"`. One that the object lacks is `absent`.
/// - An item of a list has a line with a dash. Names of a document are quoted: those of a map's
///   entries, those that a catch-all takes, as `taken "color": "red"`, and those that nothing takes,
///   as `ignored "depth"`.
/// - A value that is read as it is stands in its line, as in JSON.
impl fmt::Display for Reading<'_, '_, '_> {
    fn fmt<W: fmt::Write>(&self, f: &mut fmt::Formatter<W>) -> fmt::Result {
        let level = if self.variants.is_empty() { 0 } else { 1 };
        write_reading(self, level, true, f)
    }
}

/// Writes what a value is read as: what fits in the line, and below it lines at a level. Of the
/// whole text nothing is written yet where this is the first.
#[cycle(text)]
fn write_reading<W: fmt::Write>(
    reading: &Reading<'_, '_, '_>,
    level: usize,
    mut is_first: bool,
    f: &mut fmt::Formatter<W>,
) -> fmt::Result {
    for variant in &reading.variants {
        write_blank(is_first, f)?;
        write!(f, "{variant}")?;
        is_first = false;
    }
    write_kind(&reading.kind, level, is_first, f)
}

#[cycle(text)]
fn write_kind<W: fmt::Write>(
    kind: &ReadingKind<'_, '_, '_>,
    level: usize,
    is_first: bool,
    f: &mut fmt::Formatter<W>,
) -> fmt::Result {
    match kind {
        ReadingKind::Absent => {
            write_blank(is_first, f)?;
            f.write_str("absent")
        }
        ReadingKind::Value(value) => {
            write_blank(is_first, f)?;
            write_value(value, f)
        }
        ReadingKind::List(items) => write_items(items, level, is_first, f),
        ReadingKind::Map { names, values } => {
            write_entries(values, names, "", level, is_first, f)?;
            Ok(())
        }
        ReadingKind::Object {
            object,
            values,
            taken,
        } => {
            let is_first = write_selections(&object.selections, level, is_first, f)?;
            let is_first = write_fields(values, &object.fields, level, is_first, f)?;
            let is_first = write_entries(taken, &object.taken, "taken ", level, is_first, f)?;
            write_ignored(&object.ignored, level, is_first, f)
        }
        ReadingKind::Content(content) => write_reading(content, level, is_first, f),
    }
}

/// Writes the items of a list, a line with a dash each.
#[cycle(text)]
fn write_items<W: fmt::Write>(
    items: &[Reading<'_, '_, '_>],
    level: usize,
    mut is_first: bool,
    f: &mut fmt::Formatter<W>,
) -> fmt::Result {
    for item in items {
        begin_line(level, is_first, f)?;
        is_first = false;
        f.write_str("-")?;
        write_reading(item, level.saturating_add(1), false, f)?;
    }
    Ok(())
}

/// Writes values with names of the document, a line each behind a word, and tells whether the next
/// line is the first of the text.
#[cycle(text)]
fn write_entries<W: fmt::Write>(
    values: &[Reading<'_, '_, '_>],
    names: &[&str],
    word: &str,
    level: usize,
    mut is_first: bool,
    f: &mut fmt::Formatter<W>,
) -> Result<bool, fmt::Error> {
    for (value, name) in values.iter().zip(names) {
        begin_line(level, is_first, f)?;
        is_first = false;
        f.write_str(word)?;
        write_quoted(name, f)?;
        f.write_str(":")?;
        write_reading(value, level.saturating_add(1), false, f)?;
    }
    Ok(is_first)
}

/// Writes the values of fields, a line each, and tells whether the next line is
/// the first of the text.
#[cycle(text)]
fn write_fields<W: fmt::Write>(
    values: &[Reading<'_, '_, '_>],
    fields: &[FieldPlace<'_>],
    level: usize,
    mut is_first: bool,
    f: &mut fmt::Formatter<W>,
) -> Result<bool, fmt::Error> {
    for (value, field) in values.iter().zip(fields) {
        begin_line(level, is_first, f)?;
        is_first = false;
        write_place(field, f)?;
        write_reading(value, level.saturating_add(1), false, f)?;
    }
    Ok(is_first)
}

/// Writes where a field stands, and its name in the document where the path does not end with it.
fn write_place<W: fmt::Write>(field: &FieldPlace<'_>, f: &mut fmt::Formatter<W>) -> fmt::Result {
    let path = &field.path;
    let name = field.name;
    match path.last() {
        Some(PathSegment::Field(last)) if *last == name => write!(f, "{path}:"),
        _ => write!(f, "{path} ({name}):"),
    }
}

/// Writes selected variants, a line each, and tells whether the next line is
/// the first of the text.
fn write_selections<W: fmt::Write>(
    selections: &[VariantSelection<'_>],
    level: usize,
    mut is_first: bool,
    f: &mut fmt::Formatter<W>,
) -> Result<bool, fmt::Error> {
    for selection in selections {
        begin_line(level, is_first, f)?;
        is_first = false;
        let path = &selection.path;
        if path.depth() > 0 {
            write!(f, "{path}: ")?;
        }
        let variant = VariantName {
            enum_name: selection.enum_name,
            variant_name: selection.variant_name,
        };
        write!(f, "{variant}")?;
    }
    Ok(is_first)
}

/// Writes the names that nothing takes, a line each.
fn write_ignored<W: fmt::Write>(
    names: &[&str],
    level: usize,
    mut is_first: bool,
    f: &mut fmt::Formatter<W>,
) -> fmt::Result {
    for name in names {
        begin_line(level, is_first, f)?;
        is_first = false;
        f.write_str("ignored ")?;
        write_quoted(name, f)?;
    }
    Ok(())
}

/// Begins a line at a level.
fn begin_line<W: fmt::Write>(
    level: usize,
    is_first: bool,
    f: &mut fmt::Formatter<W>,
) -> fmt::Result {
    if !is_first {
        f.write_str("\n")?;
    }
    for _ in 0..level {
        f.write_str("  ")?;
    }
    Ok(())
}

/// Writes what stands between two words of a line.
fn write_blank<W: fmt::Write>(is_first: bool, f: &mut fmt::Formatter<W>) -> fmt::Result {
    if is_first { Ok(()) } else { f.write_str(" ") }
}

/// Writes a value of a document as it is, in the line.
fn write_value<W: fmt::Write>(value: &Document<'_>, f: &mut fmt::Formatter<W>) -> fmt::Result {
    match value {
        Document::Null => f.write_str("null"),
        Document::Bool(is_true) => write!(f, "{is_true}"),
        Document::Number(number) => f.write_str(number.text()),
        Document::Text(text) => write_quoted(text, f),
        Document::List(items) => {
            f.write_str("[")?;
            for (index, item) in items.iter().enumerate() {
                write_comma(index, f)?;
                write_value(item, f)?;
            }
            f.write_str("]")
        }
        Document::Object(members) => {
            f.write_str("{")?;
            for (index, (name, member)) in members.iter().enumerate() {
                write_comma(index, f)?;
                write_quoted(name, f)?;
                f.write_str(": ")?;
                write_value(member, f)?;
            }
            f.write_str("}")
        }
    }
}

/// Writes what stands before the value of an index.
fn write_comma<W: fmt::Write>(index: usize, f: &mut fmt::Formatter<W>) -> fmt::Result {
    if index > 0 { f.write_str(", ") } else { Ok(()) }
}
