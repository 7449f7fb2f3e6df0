//! Readings as JSON.

mod document;
mod variants;

use crate::quoted::Quoted;
use document::write_document;
use facet_solver_reader::{FieldPlace, Reading, ReadingKind, VariantName};
use std::fmt;
use variants::{absent_of, selections_of, write_variants};

/// A reading, to be printed as JSON in one line.
///
/// It prints as the document without what nothing takes, and each value that has variants stands
/// in an object with them, as `{"variants": {"": "Mode::Fast"}, "value": "Fast"}`. An optional enum
/// that is absent in an object is null among them.
#[derive(Clone, Copy, Drop)]
pub struct Json<'r, 'c, 'v, 'd>(pub &'r Reading<'c, 'v, 'd>);

impl fmt::Display for Json<'_, '_, '_, '_> {
    fn fmt<W: fmt::Write>(&self, f: &mut fmt::Formatter<W>) -> fmt::Result {
        write_reading(self.0, f)
    }
}

/// Writes a value, with its variants where it has some.
#[cycle(json)]
fn write_reading<W: fmt::Write>(
    reading: &Reading<'_, '_, '_>,
    f: &mut fmt::Formatter<W>,
) -> fmt::Result {
    let selections = selections_of(&reading.kind);
    let absent = absent_of(&reading.kind);
    if reading.variants.is_empty() && selections.is_empty() && absent.is_empty() {
        return write_kind(&reading.kind, &reading.variants, f);
    }
    f.write_str("{\"variants\": {")?;
    write_variants(&reading.variants, selections, absent, f)?;
    f.write_str("}, \"value\": ")?;
    write_kind(&reading.kind, &reading.variants, f)?;
    f.write_str("}")
}

/// Writes a value that is read as these variants, without them.
#[cycle(json)]
fn write_kind<W: fmt::Write>(
    kind: &ReadingKind<'_, '_, '_>,
    variants: &[VariantName<'_>],
    f: &mut fmt::Formatter<W>,
) -> fmt::Result {
    match kind {
        // A field that is absent is left out, and nothing else is absent.
        ReadingKind::Absent => f.write_str("null"),
        ReadingKind::Value(value) => write_document(value, f),
        ReadingKind::List(items) => write_items(items, f),
        ReadingKind::Map { names, values } => {
            f.write_str("{")?;
            write_entries(values, names, true, f)?;
            f.write_str("}")
        }
        ReadingKind::Object {
            object,
            values,
            taken,
        } => {
            f.write_str("{")?;
            let is_first = write_fields(values, &object.fields, f)?;
            write_entries(taken, &object.taken, is_first, f)?;
            f.write_str("}")
        }
        ReadingKind::Content(content) => {
            f.write_str("{")?;
            write_name(name_of_content(variants), true, f)?;
            write_reading(content, f)?;
            f.write_str("}")
        }
    }
}

/// Writes the items of a list.
#[cycle(json)]
fn write_items<W: fmt::Write>(
    items: &[Reading<'_, '_, '_>],
    f: &mut fmt::Formatter<W>,
) -> fmt::Result {
    f.write_str("[")?;
    let mut is_first = true;
    for item in items {
        write_comma(is_first, f)?;
        is_first = false;
        write_reading(item, f)?;
    }
    f.write_str("]")
}

/// Writes values with names of the document.
#[cycle(json)]
fn write_entries<W: fmt::Write>(
    values: &[Reading<'_, '_, '_>],
    names: &[&str],
    mut is_first: bool,
    f: &mut fmt::Formatter<W>,
) -> fmt::Result {
    for (value, name) in values.iter().zip(names) {
        write_name(name, is_first, f)?;
        is_first = false;
        write_reading(value, f)?;
    }
    Ok(())
}

/// Writes the values of fields that are not absent, and tells whether the next member of the object
/// is its first.
#[cycle(json)]
fn write_fields<W: fmt::Write>(
    values: &[Reading<'_, '_, '_>],
    fields: &[FieldPlace<'_>],
    f: &mut fmt::Formatter<W>,
) -> Result<bool, fmt::Error> {
    let mut is_first = true;
    for (value, field) in values.iter().zip(fields) {
        if !matches!(value.kind, ReadingKind::Absent) {
            write_name(field.name, is_first, f)?;
            is_first = false;
            write_reading(value, f)?;
        }
    }
    Ok(is_first)
}

/// The name under which the content of a variant stands: that of the innermost variant.
fn name_of_content<'c>(variants: &[VariantName<'c>]) -> &'c str {
    match variants.last() {
        Some(variant) => variant.variant_name,
        None => "",
    }
}

/// Writes the name of a member, and what stands around it.
fn write_name<W: fmt::Write>(name: &str, is_first: bool, f: &mut fmt::Formatter<W>) -> fmt::Result {
    write_comma(is_first, f)?;
    let name = Quoted(name);
    write!(f, "{name}: ")
}

/// Writes what stands before an item or a member.
fn write_comma<W: fmt::Write>(is_first: bool, f: &mut fmt::Formatter<W>) -> fmt::Result {
    if is_first { Ok(()) } else { f.write_str(", ") }
}
