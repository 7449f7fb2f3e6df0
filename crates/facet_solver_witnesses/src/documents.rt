//! Documents that are made of what answers a question, up to the root.
pub(crate) mod build;
pub(crate) mod confirm;
pub(crate) mod surroundings;
