//! The reading of a document.
ghost use Rattle.std.specs.Prelude.{◌≡◌, []};
ghost use Rattle.facet_solver_reader.specs.declared.reading.ReadingKind.TheVariants as kinds;
ghost use Rattle.facet_solver_reader.specs.Told.{paths_view};

mod look_up;
mod path_text;
mod quoted;
mod text;

use crate::document::Document;
use facet_solver_shape::{FieldPath, VariantSelection};
use std::alloc::Global;

/// The variant of an enum that a value is read as.
#[derive(Clone, Copy, PartialEq, Eq, Debug)]
pub struct VariantName<'c> {
    /// The name of the enum.
    pub enum_name: &'c str,
    /// The name of the variant.
    pub variant_name: &'c str,
}

/// Where a member of an object belongs.
#[derive(Debug, Drop)]
pub struct FieldPlace<'c> {
    /// Where it stands in the type of the object: the fields and variants that lead to it. A tag,
    /// and content that stands apart, has the path of its variant.
    pub path: FieldPath<'c>,
    /// Its name in a document.
    pub name: &'c str,
}

/// What an object is read as: the variants and fields of a choice, in the order of the type, and
/// what it has besides.
#[derive(Debug, Drop)]
pub struct ObjectReading<'c, 'd> {
    /// The selected variants of enums whose members stand in the object.
    pub selections: Vec<VariantSelection<'c>>,
    /// The paths of the optional enums that are absent. Where there are none it takes no memory.
    pub(crate) absent: Option<Box<Vec<FieldPath<'c>>>>,
    /// The members that the choice has, tags among them.
    pub fields: Vec<FieldPlace<'c>>,
    /// The names that a catch-all takes, in the order of the object.
    pub taken: Vec<&'d str>,
    /// The names that nothing takes, in the order of the object.
    pub ignored: Vec<&'d str>,
}

impl<'c> ObjectReading<'c, '_> {
    /// The paths of the optional enums that are absent: the object has no variant of them. They
    /// stand in the order of the type.
    pub fn absent(&self) -> &[FieldPath<'c>]
        ensures { result.now ≡ paths_view self.now.absent }
    {
        match &self.absent {
            Some(paths) => paths,
            None => &[],
        }
    }
}

/// How a value of a document is read.
///
/// It nests no deeper than the document: an option that is there, a pointer, and the only value of a
/// variant are read as what they hold.
#[derive(Drop)]
#[cycle(reading)]
pub struct Reading<'c, 'v, 'd> {
    /// The variants that the value is read as, the outermost first. Those that share an object with
    /// other members are among its `selections`.
    pub variants: Vec<VariantName<'c>>,
    /// What it is.
    pub kind: ReadingKind<'c, 'v, 'd>,
}

/// What a value is read as.
#[derive(Drop)]
#[cycle(reading)]
pub enum ReadingKind<'c, 'v, 'd> {
    /// The object has no such member.
    Absent,
    /// The value as it is: null, a truth value, a number, a text, or a value of any kind.
    Value(&'v Document<'d>),
    /// The items of a list, in order.
    List(Vec<Reading<'c, 'v, 'd>>),
    /// The entries of a map, in order.
    Map {
        /// Their names.
        names: Vec<&'d str>,
        /// Their values: one for each name.
        values: Vec<Reading<'c, 'v, 'd>>,
    },
    /// An object.
    Object {
        /// What it is read as.
        object: ObjectReading<'c, 'd>,
        /// The values of its fields: one for each.
        values: Vec<Reading<'c, 'v, 'd>>,
        /// The values that a catch-all takes: one for each name.
        taken: Vec<Reading<'c, 'v, 'd>>,
    },
    /// The content of a variant, which stands under the variant's name.
    Content(Box<Reading<'c, 'v, 'd>>),
}

impl<'c, 'v, 'd> Reading<'c, 'v, 'd> {
    /// What is read as no variant.
    pub(crate) fn plain(alloc: Global, kind: ReadingKind<'c, 'v, 'd>) -> Reading<'c, 'v, 'd>
        ensures variants { result.variants.items ≡ [] }
        ensures kind { result.kind ≡ kind.entry }
    {
        Reading {
            variants: Vec::new(alloc),
            kind,
        }
    }

    /// A value that is read as it is.
    pub(crate) fn as_it_is(alloc: Global, value: &'v Document<'d>) -> Reading<'c, 'v, 'd>
        ensures variants { result.variants.items ≡ [] }
        ensures kind { result.kind ≡ kinds.Value value.entry }
    {
        Reading::plain(alloc, ReadingKind::Value(value))
    }
}
