//! Why a document is not read as a type.
ghost use Rattle.std.specs.Prelude.{◌≡◌};

use crate::nodes::DocumentError;
use crate::part::{ListId, Target};
use crate::place::Place;
use facet_solver_shape::WholeRange;
pub use given::Given;
use std::alloc::AllocError;

mod given;
mod text;

/// Why a document is not read.
#[derive(Debug, Drop)]
pub enum ReadError<'c, 'd> {
    /// It has no reading.
    NoReading(NoReading<'c, 'd>),
    /// It has several readings.
    Several(Several<'c, 'd>),
    /// A name stands twice in an object: the place of the member.
    NameTwice(Place<'d>),
    /// Memory was refused.
    OutOfMemory,
}

/// Where a document has no reading, and why.
///
/// The place is that of the first part that has none, from the root on: an item of a list, a value
/// of a map, a member of an object. Where an object is read by one of several branches, and its
/// names and the texts of tags leave just one, or members that read only texts that name variants
/// name just one, it is the first part of that one. Else it is the place of the object.
#[derive(Debug, Drop)]
pub struct NoReading<'c, 'd> {
    /// The place.
    pub place: Place<'d>,
    /// What stops a reading there.
    pub why: Obstacle<'c, 'd>,
}

/// Where two readings of a document differ, and by what.
///
/// The place is the outermost one, of several such the first in the document's order.
#[derive(Debug, Drop)]
pub struct Several<'c, 'd> {
    /// The place.
    pub place: Place<'d>,
    /// The variants by which the value there is read, in their order: two or more.
    pub variants: Vec<Branch<'c>>,
}

/// What stops a reading of a value.
#[derive(Debug, Drop)]
pub enum Obstacle<'c, 'd> {
    /// It is no value that the type reads.
    Unread(Unread<'c, 'd>),
    /// An object lacks a name that the type requires.
    Lacks(Branch<'c>, &'c str),
    /// An object has a member of a block that may be absent, and lacks another that the block
    /// requires: the name of the member, the block, and the name that it lacks.
    Incomplete(&'d str, Branch<'c>, &'c str),
    /// None of several variants reads it: the type, and what stops each variant, in their order.
    /// Where members that read only texts that name variants name some, those are left out whose
    /// member of this kind does not read its value.
    NoVariant(&'c str, Vec<Misfit<'c, 'd>>),
    /// The member of a tag is missing, or its value is the text of no variant: the name of the tag,
    /// the value, and the variants.
    NoTag(&'c str, Option<Given<'d>>, Vec<Branch<'c>>),
    /// A text is the name of no variant: the type, the text, and the names that are.
    NoName(&'c str, &'d str, Vec<&'c str>),
    /// The name of a member is no key of a map: the type of its keys, and the name.
    NoKey(&'c str, &'d str),
    /// Members of no known name, which the reader refuses: their names, in the object's order.
    Unknown(Vec<&'d str>),
}

/// The name of a type, or of a variant of it.
#[derive(Clone, Copy, Debug, PartialEq, Eq)]
pub struct TypeName<'c> {
    /// That of the type.
    pub name: &'c str,
    /// That of the variant.
    pub variant: Option<&'c str>,
}

/// A variant of an enum, or the struct of a block that may be absent.
#[derive(Clone, Copy, Debug)]
pub struct Branch<'c> {
    /// The parts by which it reads an object.
    pub(crate) list: ListId,
    /// Its name.
    pub name: TypeName<'c>,
}

/// A type, what it reads, and the value that it does not read.
#[derive(Clone, Copy, Debug)]
pub struct Unread<'c, 'd> {
    /// What the value is not read as.
    pub(crate) target: Target<'c>,
    /// The name of the type.
    pub name: TypeName<'c>,
    /// What it reads.
    pub reads: Wanted<'c>,
    /// The value.
    pub given: Given<'d>,
}

/// What a type reads.
#[derive(Clone, Copy, Debug, PartialEq, Eq)]
pub enum Wanted<'c> {
    /// Null.
    Null,
    /// A truth value.
    Truth,
    /// A whole number of the range.
    Whole(WholeRange),
    /// A number.
    Number,
    /// A text.
    Text,
    /// A text of one character.
    Character,
    /// A list.
    List,
    /// A list of so many values.
    Values(usize),
    /// An object.
    Object,
    /// A text that names a variant, or an object of one member that does.
    Named,
    /// Null, or an object without members.
    Nothing,
    /// This text.
    Exactly(&'c str),
    /// Values of its kind, but not this one.
    Other,
}

/// What stops a reading by a variant.
#[derive(Clone, Copy, Debug)]
pub struct Misfit<'c, 'd> {
    /// The variant.
    pub branch: Branch<'c>,
    /// The first name that it requires and the object lacks.
    pub lacks: Option<&'c str>,
    /// The first member of the object that is another variant's, and none of this one.
    pub no_key: Option<&'d str>,
    /// Where neither stops it: what does.
    pub stop: Stop<'c, 'd>,
}

/// What of a variant has no reading.
#[derive(Clone, Copy, Debug)]
pub enum Stop<'c, 'd> {
    /// Nothing that could be told.
    Nothing,
    /// The member of a name, by its type.
    Member(&'c str, Unread<'c, 'd>),
    /// One of the variants of a type, among the members.
    OneOf(&'c str),
    /// The value itself.
    Itself(Unread<'c, 'd>),
}

impl<'c, 'd> From<AllocError> for ReadError<'c, 'd> {
    ghost use Rattle.facet_solver_reader.specs.declared.read_error.ReadError.TheVariants as errors;

    ghost from_gives = { λ _ e. e ≡ errors.OutOfMemory };

    fn from(_: AllocError) -> ReadError<'c, 'd> {
        ReadError::OutOfMemory
    }
}

impl<'c, 'd> From<DocumentError<'d>> for ReadError<'c, 'd> {
    ghost use Rattle.facet_solver_reader.specs.Why.{error_of};

    ghost from_gives = { λ error e. e ≡ error_of error };

    fn from(error: DocumentError<'d>) -> ReadError<'c, 'd> {
        match error {
            DocumentError::NameTwice(place) => ReadError::NameTwice(place),
            DocumentError::OutOfMemory => ReadError::OutOfMemory,
        }
    }
}
