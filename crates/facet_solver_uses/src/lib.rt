//! Uses of `facet_solver`: for readers of documents, loaders of configurations and checkers of
//! types. Each is one call, and its contract says what a user of it wants to know.
//!
//! By what you have:
//!
//! - The keys of a document: [`keys_to_choice`](keys_to_choice::keys_to_choice) gives the choice of
//!   variants that they mean.
//! - The parts of an XML element: [`element_to_choice`](element_to_choice::element_to_choice) does.
//! - The events of a document, as they come: [`stream`](stream::stream) does.
//! - A configuration with a tag: [`load_config`](load_config::load_config) gives the variant that
//!   the tag names, and refuses unknown keys.
//! - A value of an untagged enum: [`variants_for`](untagged::variants_for) gives the variants that
//!   it may be.
//! - A choice and the members of a document:
//!   [`choice_to_values`](choice_to_values::choice_to_values) gives the field that each stands for.
//!   [`taker_of`](taken::taker_of) says what takes a member, as it and `load_config` go by.
//! - A type to be checked: [`ambiguous_pairs`](ambiguous_pairs::ambiguous_pairs) gives the choices
//!   that a document may leave both viable, and
//!   [`ambiguity_table`](ambiguity_table::ambiguity_table) shows them to a person.
//!
//! The first four take a `Schema`. So it is built once for many documents, by whichever builder.
//!
//! Each call says which errors it has and when each comes, in which order results stand, and with
//! what its time grows. Where an error is out of memory, that may come at any time.
#![tactic(auto)]

pub mod ambiguity_table;
pub mod ambiguous_pairs;
pub mod choice_to_values;
pub mod element_to_choice;
pub mod keys_to_choice;
pub mod load_config;
pub mod stream;
pub mod taken;
pub mod untagged;
