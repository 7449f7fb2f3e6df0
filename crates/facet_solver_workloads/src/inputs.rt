//! The inputs that a part of a workload has had.

use crate::digest::Digest;
use crate::fault::Fault;
use std::alloc::Global;
use std::mem::replace;

/// How many slots there are for the digests of inputs, and how many bits of a hash tell one.
const SLOTS: usize = 1_048_576;

const SLOT_BITS: u32 = 20;

/// How many inputs are drawn at most until one is new.
pub const DRAWS: u64 = 1_000;

/// The inputs that a part has had, each by a slot for its digest. So no input comes twice, where
/// each that is not new is drawn anew. One in some hundred is drawn anew without need, since another
/// had its slot.
#[derive(Drop)]
pub struct Inputs {
    had: Vec<bool>,
}

impl Inputs {
    pub fn new(alloc: Global) -> Result<Self, Fault> {
        let mut had = Vec::new(alloc);
        had.resize(SLOTS, false)?;
        Ok(Inputs { had })
    }

    /// Takes an input by its digest, and tells whether it is new.
    pub fn is_new(&mut self, input: &Digest) -> bool {
        let slot = input.hash() >> (64 - SLOT_BITS);
        match self.had.get_mut(slot as usize) {
            Some(had) => !replace(had, true),
            None => false,
        }
    }
}
