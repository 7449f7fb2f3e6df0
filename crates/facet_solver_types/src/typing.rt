//! From declarations to types by their ids.

mod called;
mod entries;
mod field_types;
mod flattened;
mod id;
mod known;
mod layer;
mod meant;
mod mention;
mod mentioned;
mod named;
mod root;
mod roots;
mod scope;
mod standards;
mod takings;
mod type_use;
mod use_faults;
mod uses;

pub(crate) use entries::type_entries;
pub(crate) use id::{first, second};
pub(crate) use mention::Mention;
pub(crate) use root::root_type;
