//! Which documents a type cannot tell: or that no document has two readings.
//!
//! 1. A value is read as a *target*, which comes to *atoms*: what asks nothing else of the value.
//! 2. A table has pairs of targets that read no value in common ([`check`] makes it, and a last
//!    pass over it shows that it bears itself out): by kinds of values, by items, and by the names
//!    that lists of parts require.
//! 3. A *place* is where two readings may differ first: two branches of a selection, or two
//!    variants of an enum that is read as a value. Those that are not known to be apart are told.
#![tactic(auto)]

mod apart;
mod asked;
mod asking;
mod atoms;
mod branches;
mod candidates;
mod checking;
mod closed;
mod end_ways;
mod forks;
mod index;
mod inners;
mod kinds;
mod lists;
mod members;
mod named_apart;
mod object_ends;
mod objects;
mod places;
mod report;
mod required;
mod table;
mod tables;
mod texts;
mod touched;
mod variants;
mod ways;

pub use checking::check;
pub use facet_solver_witnesses::{
    Ambiguity, Cause, DEFAULT_BUDGET, Evidence, Fork, Ignored, Place, PlaceStep, Value,
};
pub use report::Report;
