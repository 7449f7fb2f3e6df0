//! What a type cannot tell, and what shows it.
use crate::place::Fork;
use crate::value::Value;
use facet_solver_reader::TypeName;
use std::fmt;

/// A step to a value of a document.
#[derive(PartialEq, Eq, Debug, Drop)]
pub enum PlaceStep {
    /// Into the member of that name.
    Name(String),
    /// Into the item of that index, counted from 0.
    Index(usize),
}

/// Two or more ways in which one document is read, or may be.
#[derive(Debug, Drop)]
pub struct Ambiguity<'c> {
    /// What is read in several ways: one fork, or the targets that are one enum, as by a pointer.
    pub forks: Vec<Fork>,
    /// The ways, rising: two or more.
    pub ways: Vec<usize>,
    /// The type or variant that has the field, or the enum.
    pub owner: TypeName<'c>,
    /// The field that is flattened; empty where it is none.
    pub field: &'c str,
    /// The variants that read the document, in their order: two or more. Of a way that several
    /// variants join in those that do; where there is no document all.
    pub variants: Vec<TypeName<'c>>,
    /// The document that they share, or why there may be one.
    pub evidence: Evidence<'c>,
}

/// A member that a variant passes over.
#[derive(Debug, Drop)]
pub struct Ignored<'c> {
    /// The variant.
    pub variant: TypeName<'c>,
    /// Where the member stands in the value.
    pub path: String,
}

/// What shows that a type is ambiguous.
#[derive(Debug, Drop)]
pub enum Evidence<'c> {
    /// A document with several readings.
    Witness {
        /// The document.
        document: Value,
        /// Where the value stands that they share.
        path: Vec<PlaceStep>,
        /// The members of that value that variants pass over.
        ignored: Vec<Ignored<'c>>,
    },
    /// There may be one.
    MayBe(Cause),
}

/// Why a document may have several readings, and none is shown.
#[derive(Clone, Copy, PartialEq, Eq, Debug)]
pub enum Cause {
    /// The steps of a search ran out.
    Steps,
    /// Its documents are too large or too deep to be shown.
    TooDeep,
    /// The variants read only what no other does.
    Fallbacks,
    /// The documents that were tried have other readings.
    Unconfirmed,
}

impl fmt::Display for PlaceStep {
    fn fmt<W: fmt::Write>(&self, f: &mut fmt::Formatter<W>) -> fmt::Result {
        match self {
            PlaceStep::Name(name) => f.write_str(name.as_str()),
            PlaceStep::Index(index) => write!(f, "{index}"),
        }
    }
}

impl fmt::Display for Cause {
    fn fmt<W: fmt::Write>(&self, f: &mut fmt::Formatter<W>) -> fmt::Result {
        f.write_str(match self {
            Cause::Steps => "the search was too long",
            Cause::TooDeep => "too deep to show",
            Cause::Fallbacks => "both read what no other variant does",
            Cause::Unconfirmed => "no document is found",
        })
    }
}
