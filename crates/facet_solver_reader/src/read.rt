//! The only reading of a value, or that it has none or several.
//!
//! A value is read at once: it has one reading exactly where its parts have one each. Readings are
//! counted first only where several variants could read a value, or a catch-all may take members, so
//! that nothing is read twice. What an object's choice goes through is found as a list of steps, so
//! that no call goes as deep as flattened fields nest.
mod content;
mod each;
mod found;
mod known;
mod members;
mod not_one;
mod object;
mod steps;
mod target;
mod tells;
mod untagged;
mod variant;

pub(crate) use not_one::NotOne;
pub(crate) use target::read_target;
