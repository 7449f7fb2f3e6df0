//! The variants of a value as members of an object.

use super::write_comma;
use crate::quoted::BetweenQuotes;
use facet_solver_reader::{ReadingKind, VariantName};
use facet_solver_shape::{FieldPath, PathSegment, VariantSelection};
use std::fmt;

/// The variants that are selected in an object; of what is no object, none.
pub(super) fn selections_of<'r, 'c>(
    kind: &'r ReadingKind<'c, '_, '_>,
) -> &'r [VariantSelection<'c>] {
    match kind {
        ReadingKind::Object { object, .. } => &object.selections,
        _ => &[],
    }
}

/// The paths of the optional enums that are absent in an object; of what is no object, none.
pub(super) fn absent_of<'r, 'c>(kind: &'r ReadingKind<'c, '_, '_>) -> &'r [FieldPath<'c>] {
    match kind {
        ReadingKind::Object { object, .. } => object.absent(),
        _ => &[],
    }
}

/// Writes variants with their paths, as members of an object: first those that a value is read as,
/// then those that are selected within the last of them, and null for each enum that is absent
/// there.
pub(super) fn write_variants<W: fmt::Write>(
    variants: &[VariantName<'_>],
    selections: &[VariantSelection<'_>],
    absent: &[FieldPath<'_>],
    f: &mut fmt::Formatter<W>,
) -> fmt::Result {
    for index in 0..variants.len() {
        write_comma(index == 0, f)?;
        write_path(&variants[..index], &[], f)?;
        let variant = &variants[index];
        write_variant(variant.enum_name, variant.variant_name, f)?;
    }
    for (index, selection) in selections.iter().enumerate() {
        write_comma(index == 0 && variants.is_empty(), f)?;
        write_path(variants, selection.path.segments(), f)?;
        write_variant(selection.enum_name, selection.variant_name, f)?;
    }
    for (index, path) in absent.iter().enumerate() {
        let is_first = index == 0 && variants.is_empty() && selections.is_empty();
        write_comma(is_first, f)?;
        write_path(variants, path.segments(), f)?;
        f.write_str("null")?;
    }
    Ok(())
}

/// Writes a path that goes on within variants, as the name of a member.
fn write_path<W: fmt::Write>(
    variants: &[VariantName<'_>],
    segments: &[PathSegment<'_>],
    f: &mut fmt::Formatter<W>,
) -> fmt::Result {
    f.write_str("\"")?;
    for (index, variant) in variants.iter().enumerate() {
        write_dot(index == 0, f)?;
        let name = BetweenQuotes(variant.variant_name);
        write!(f, "::{name}")?;
    }
    for (index, segment) in segments.iter().enumerate() {
        write_dot(index == 0 && variants.is_empty(), f)?;
        write_segment(segment, f)?;
    }
    f.write_str("\": ")
}

/// Writes a segment of a path, as it prints, between quotes.
fn write_segment<W: fmt::Write>(
    segment: &PathSegment<'_>,
    f: &mut fmt::Formatter<W>,
) -> fmt::Result {
    match *segment {
        PathSegment::Field(name) => {
            let name = BetweenQuotes(name);
            write!(f, "{name}")
        }
        PathSegment::Variant(field, variant) => {
            let field = BetweenQuotes(field);
            let variant = BetweenQuotes(variant);
            write!(f, "{field}::{variant}")
        }
    }
}

/// Writes a variant as a string.
fn write_variant<W: fmt::Write>(
    enum_name: &str,
    variant_name: &str,
    f: &mut fmt::Formatter<W>,
) -> fmt::Result {
    let enum_name = BetweenQuotes(enum_name);
    let variant_name = BetweenQuotes(variant_name);
    write!(f, "\"{enum_name}::{variant_name}\"")
}

/// Writes what stands before a segment of a path.
fn write_dot<W: fmt::Write>(is_first: bool, f: &mut fmt::Formatter<W>) -> fmt::Result {
    if is_first { Ok(()) } else { f.write_str(".") }
}
