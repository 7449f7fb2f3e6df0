//! The reading of a document as a type: the one that it has, or why there is none or several.
//!
//! 1. A [`Document`] is a tree of values over borrowed texts, in whatever format it was written.
//!    Each format has a crate of its own that makes documents of its text, as `facet_solver_json`.
//! 2. [`Reader::new`] finds once what a type says of documents, or what is wrong with the type.
//! 3. [`Reader::read`] gives the only reading, with each variant told and each value in its place,
//!    or names the place where none is left or where several are.
//! 4. [`Reader::count`] counts the readings of a document, part by part: no product is ever listed.
#![tactic(auto)]

mod content;
mod count;
mod document;
mod end;
mod ends;
mod field_at;
mod joins;
mod key;
mod nodes;
mod part;
mod parts;
mod place;
mod plan;
mod read;
mod read_error;
mod reader;
mod reading;
mod tables;
mod types;
mod variants;
mod why;

pub use count::Count;
pub use document::{Document, Number};
pub use facet_solver_shape::{Whole, WholeRange};
pub use nodes::DocumentError;
pub use place::{Place, PlaceSegment};
pub use plan::{
    Plan, PlannedAlternative, PlannedCatchAll, PlannedEnd, PlannedKeys, PlannedKind, PlannedList,
    PlannedMember, PlannedName, PlannedPart, PlannedSelection, PlannedTarget,
};
pub use read_error::{
    Branch, Given, Misfit, NoReading, Obstacle, ReadError, Several, Stop, TypeName, Unread, Wanted,
};
pub use reader::{Reader, TypeError, Unknown};
pub use reading::{FieldPlace, ObjectReading, Reading, ReadingKind, VariantName};
