//! The variants of an enum.
ghost use Rattle.std.specs.Prelude.{Some, string_bytes};
ghost use Rattle.facet_solver_shape.specs.Names.{variant_names};
ghost use Rattle.facet_solver_types.specs.PrintedVariants as variants;

use super::field::Body;
use super::text::Quoted;
use super::variant_name::VariantName;
use super::word::is_plain_name;
use facet_solver_shape::{Shapes, Variant};
use std::fmt;

/// The attributes before a variant of a name: another name, where this is not the declared one.
#[derive(Drop)]
struct VariantAttributes<'s>(&'s str);

impl fmt::Display for VariantAttributes<'_> {
    ghost output = { λ a. Some (variants.before_variant a.0.now) };

    fn fmt<W: fmt::Write>(&self, f: &mut fmt::Formatter<W>) -> fmt::Result {
        if is_plain_name(self.0) {
            return Ok(());
        }
        let name = Quoted(self.0);
        write!(f, "#[facet(rename = {name})] ")
    }
}

/// A line for a variant.
#[derive(Drop)]
struct VariantLine<'s> {
    shapes: &'s Shapes,
    variants: &'s [Variant],
    number: usize,
    variant: &'s Variant,
}

impl fmt::Display for VariantLine<'_> {
    ghost output = { λ l. Some (variants.variant_line
        l.shapes.now (variant_names l.variants.now) l.number l.variant.now) };

    fn fmt<W: fmt::Write>(&self, f: &mut fmt::Formatter<W>) -> fmt::Result {
        let name = self.variant.name.as_str();
        let attributes = VariantAttributes(name);
        let name = VariantName {
            variants: self.variants,
            number: self.number,
            name,
        };
        let body = Body {
            shapes: self.shapes,
            indent: "    ",
            kind: self.variant.kind,
            fields: &self.variant.fields,
        };
        write!(f, "    {attributes}{name}{body},\n")
    }
}

/// A line for each variant.
#[derive(Drop)]
struct VariantLines<'s> {
    shapes: &'s Shapes,
    variants: &'s [Variant],
}

impl fmt::Display for VariantLines<'_> {
    ghost output = { λ l. Some (variants.variant_lines l.shapes.now l.variants.now) };

    fn fmt<W: fmt::Write>(&self, f: &mut fmt::Formatter<W>) -> fmt::Result {
        for (number, variant) in self.variants.iter().enumerate() {
            let line = VariantLine {
                shapes: self.shapes,
                variants: self.variants,
                number,
                variant,
            };
            write!(f, "{line}")?;
        }
        Ok(())
    }
}

/// Variants, in braces.
#[derive(Drop)]
pub(super) struct Variants<'s> {
    pub(super) shapes: &'s Shapes,
    pub(super) variants: &'s [Variant],
}

impl fmt::Display for Variants<'_> {
    ghost output = { λ v. Some (variants.variants_in_braces v.shapes.now v.variants.now) };

    fn fmt<W: fmt::Write>(&self, f: &mut fmt::Formatter<W>) -> fmt::Result {
        if self.variants.is_empty() {
            return f.write_str(" {}");
        }
        let lines = VariantLines {
            shapes: self.shapes,
            variants: self.variants,
        };
        write!(f, " {{\n{lines}}}")
    }
}
