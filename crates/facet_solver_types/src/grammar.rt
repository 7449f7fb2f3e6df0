//! From tokens to items.

mod attributes;
mod bodies;
mod enclosing;
mod entry;
mod fields;
mod first;
mod implements;
mod inside;
mod items;
mod named;
mod origin;
mod parameters;
mod prefixes;
mod run;
mod starts;
mod written;

pub(crate) use attributes::{attribute_entries, is_named};
pub(crate) use entry::{Entry, EntryValue, entries};
pub(crate) use first::{is_name, is_open, sees_mark, sees_path, sees_word};
pub(crate) use items::items;
pub(crate) use origin::{Origin, first_text, is_own};
pub(crate) use run::{group_len, is_close, is_mark};
pub(crate) use written::{NamedType, Written, is_str, written_type};
