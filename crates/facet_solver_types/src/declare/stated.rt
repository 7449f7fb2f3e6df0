//! What structs and enums declare, beside what is wrong with it.

use crate::declaration::Declared;
use crate::fault::Fault;

/// What is declared, and what is wrong with its parts, which are left out.
#[derive(Drop)]
pub(super) struct Stated<'s, 't> {
    pub(super) declared: Declared<'s, 't>,
    pub(super) faults: Vec<Fault>,
}
