//! From Rust declarations to a catalogue of shapes, and back.
//!
//! [`Types::parse`] reads the structs and enums that a text declares, with the attributes of serde
//! and facet on them, and gives the shapes of all their types. [`Declarations`] prints a catalogue
//! as declarations. The functions in [`laws`] have theorems as contracts.
#![tactic(auto)]

mod attribute;
mod case;
mod catalogue;
mod declaration;
mod declare;
mod display;
mod error;
mod failure;
mod fault;
mod faults;
mod gathering;
mod grammar;
mod item;
mod keyword;
pub mod laws;
mod literal;
mod located;
mod modules;
mod name_places;
mod named_declarations;
mod parsed;
mod passage;
mod place;
mod problem;
mod shape_problem;
mod site;
mod sources;
mod standard;
mod token;
mod tokens;
mod type_entry;
mod type_problem;
mod typing;

pub use attribute::{Form, Misuse, Refusal};
pub use display::Declarations;
pub use error::{Invalid, TypesError};
pub use located::Located;
pub use parsed::Types;
pub use place::Place;
pub use problem::{Expected, Problem};
pub use shape_problem::ShapeProblem;
pub use sources::{SourcePlace, Sources};
pub use type_problem::TypeProblem;
