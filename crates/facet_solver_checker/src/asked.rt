//! Pairs of targets that are asked of.

use std::alloc::{AllocError, Global};
use std::collections::BTreeSet;

/// Pairs of targets, by their numbers, in the order in which they are asked of first.
#[derive(Drop)]
pub(crate) struct Asked {
    known: BTreeSet<(usize, usize)>,
    pairs: Vec<(usize, usize)>,
}

impl Asked {
    /// None.
    pub(crate) fn none(alloc: Global) -> Asked {
        Asked {
            known: BTreeSet::new(alloc),
            pairs: Vec::new(alloc),
        }
    }

    /// Asks of a pair.
    pub(crate) fn ask(&mut self, first: usize, second: usize) -> Result<(), AllocError> {
        if self.known.contains(&(first, second)) {
            return Ok(());
        }
        self.known.insert((first, second))?;
        self.pairs.push((first, second))?;
        Ok(())
    }

    /// Asks of each of some targets with each of others.
    pub(crate) fn ask_each(&mut self, first: &[usize], second: &[usize]) -> Result<(), AllocError> {
        for one in first {
            for other in second {
                self.ask(*one, *other)?;
            }
        }
        Ok(())
    }

    /// The pair at an index.
    pub(crate) fn get(&self, index: usize) -> Option<(usize, usize)> {
        self.pairs.get(index).copied()
    }

    /// All pairs.
    pub(crate) fn into_pairs(self) -> Vec<(usize, usize)> {
        self.pairs
    }
}
