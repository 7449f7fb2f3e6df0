//! The names under which variants are declared.
ghost use Rattle.std.specs.Prelude.{◌≡◌, ◌↔◌, IsTrue, Some, replicate};
ghost use Rattle.std.specs.Fmt.{decimal};
ghost use Rattle.facet_solver_types.specs.Cases.{underscore};
ghost use Rattle.facet_solver_types.specs.PrintedNames as names;
ghost use Rattle.facet_solver_shape.specs.Names.{variant_names};

use super::word::is_plain_name;
use facet_solver_shape::Variant;
use std::fmt;

/// The name under which a variant is declared: its own, or where that is no name of ASCII letters,
/// `V` with its number from 0, and as many `_` that no variant has it.
#[derive(Drop)]
pub(super) struct VariantName<'s> {
    pub(super) variants: &'s [Variant],
    pub(super) number: usize,
    pub(super) name: &'s str,
}

impl fmt::Display for VariantName<'_> {
    ghost output = { λ v. Some
        (names.variant_name (variant_names v.variants.now) v.number v.name.now) };

    fn fmt<W: fmt::Write>(&self, f: &mut fmt::Formatter<W>) -> fmt::Result {
        let name = self.name;
        if is_plain_name(name) {
            return write!(f, "{name}");
        }
        let number = self.number;
        let marks = Marks(marks_of(self.variants, number));
        write!(f, "V{number}{marks}")
    }
}

/// So many `_`.
#[derive(Clone, Copy)]
struct Marks(usize);

impl fmt::Display for Marks {
    ghost output = { λ m. Some (replicate m.0 underscore) };

    fn fmt<W: fmt::Write>(&self, f: &mut fmt::Formatter<W>) -> fmt::Result {
        for _mark in 0..self.0 {
            f.write_str("_")?;
        }
        Ok(())
    }
}

/// How many `_` a number has to have behind it that no variant has the name.
fn marks_of(variants: &[Variant], number: usize) -> usize
    ensures { result ≡ names.marks_of (variant_names variants.now) number }
{
    for marks in 0..variants.len() {
        if !is_taken(variants, number, marks) {
            return marks;
        }
    }
    variants.len()
}

/// Whether a variant has the name of a number with so many `_`.
fn is_taken(variants: &[Variant], number: usize, marks: usize) -> bool
    ensures { result ≡ names.is_taken (variant_names variants.now) number marks }
{
    for variant in variants {
        if is_numbered(variant.name.as_bytes(), number, marks) {
            return true;
        }
    }
    false
}

/// Whether bytes are `V`, a number and so many `_`.
fn is_numbered(name: &[u8], number: usize, marks: usize) -> bool
    ensures { IsTrue result ↔ (name.now ≡ names.numbered number marks) }
{
    if marks == 0 {
        return match name.split_first() {
            None => false,
            Some((first, digits)) => *first == b'V' && is_decimal(digits, number),
        };
    }
    match name.split_last() {
        None => false,
        Some((last, front)) => *last == b'_' && is_numbered(front, number, marks - 1),
    }
}

/// Whether bytes are the digits of a number.
fn is_decimal(digits: &[u8], number: usize) -> bool
    ensures { IsTrue result ↔ (digits.now ≡ decimal number) }
{
    let Some((last, front)) = digits.split_last() else {
        return false;
    };
    if *last != b'0' + (number % 10) as u8 {
        return false;
    }
    if number < 10 {
        front.is_empty()
    } else {
        is_decimal(front, number / 10)
    }
}
