//! JSON text to documents.
//!
//! [`parse`] reads a whole text. Names that come twice are kept, and so are the texts of numbers.
#![tactic(auto)]

mod document;
mod error;
mod place;
mod reason;
mod value;

pub use document::parse;
pub use error::JsonError;
pub use json::Scratch;
pub use reason::Reason;
