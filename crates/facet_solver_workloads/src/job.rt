//! What a workload is asked for, and what it tells.

use crate::digest::Digest;
use crate::fault::Fault;
use crate::random::Random;
use std::alloc::Global;

/// How much of a workload is run, by which numbers, and the lines that it has told.
#[derive(Drop)]
pub struct Job {
    pub alloc: Global,
    pub random: Random,
    /// How many inputs of a kind.
    pub count: u64,
    /// How large they are, in hundredths.
    size: u64,
    pub report: String,
}

impl Job {
    pub fn new(alloc: Global, seed: u64, count: u64, size: u64) -> Self {
        Job {
            alloc,
            random: Random::new(seed),
            count,
            size,
            report: String::new(alloc),
        }
    }

    /// The size as it was given, for what takes it as a number.
    pub fn size(&self) -> u64 {
        self.size
    }

    /// So much of a number as the size asks for.
    pub fn scaled(&self, number: u64) -> u64 {
        number.wrapping_mul(self.size) / 100
    }

    /// Tells a part of the workload.
    pub fn tell(&mut self, part: &str, digest: Digest) -> Result<(), Fault> {
        digest.tell(part, &mut self.report)
    }
}
