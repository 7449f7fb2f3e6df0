//! The documents that show where a type is ambiguous: each has two readings or more.
//!
//! 1. A value is read as a *target*, which comes to *atoms*: what each reads is told by simple
//!    sets, by items, or by the lists of parts by which objects are read.
//! 2. A *question* is whether two targets, or two branches of a selection, have a value in common.
//!    The answers are found from small values to large ones: each is made of earlier ones.
//! 3. A *site* is where two readings may differ first, and a document comes to it: a selection, or
//!    an enum that is read as a value. [`ambiguities`] goes through the sites, and asks at each the
//!    pairs of ways that the places list.
//! 4. A *witness* is the smallest document that has such a value at such a site. The reader counts
//!    its readings. What it does not confirm is told as what may be.
#![tactic(auto)]

mod ambiguity;
mod covering;
mod documents;
mod finding;
mod growing;
mod model;
mod names;
mod object;
mod place;
mod questions;
mod sites;
mod telling;
mod value;

pub use ambiguity::{Ambiguity, Cause, Evidence, Ignored, PlaceStep};
pub use finding::{DEFAULT_BUDGET, ambiguities};
pub use names::way_names;
pub use place::{Fork, Place};
pub use value::Value;
