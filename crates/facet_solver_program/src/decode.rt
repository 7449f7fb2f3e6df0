//! From a value of JSON to what it says: the shapes, the root, the builder and the document.
pub mod error;
pub mod field;
pub mod floats;
pub mod input;
pub mod member;
pub mod shape;
pub mod word;
