//! The groups of variants that share a document.
use std::alloc::{AllocError, Global};

/// The groups, by numbers.
#[derive(Drop)]
pub(crate) struct Groups {
    /// The groups of each variant.
    of: Vec<Vec<usize>>,
    count: usize,
}

impl Groups {
    /// No groups, of so many variants.
    pub(crate) fn new(alloc: Global, variants: usize) -> Result<Groups, AllocError> {
        let mut of = Vec::with_capacity(alloc, variants)?;
        for _ in 0..variants {
            of.push(Vec::new(alloc))?;
        }
        Ok(Groups { of, count: 0 })
    }

    /// Whether two variants stand in one group.
    pub(crate) fn have(&self, first: usize, second: usize) -> bool {
        match (self.of.get(first), self.of.get(second)) {
            (Some(groups), Some(others)) => groups.iter().any(|group| others.contains(group)),
            _ => false,
        }
    }

    /// Adds a group.
    pub(crate) fn add(&mut self, variants: &[usize]) -> Result<(), AllocError> {
        for variant in variants {
            if let Some(groups) = self.of.get_mut(*variant) {
                groups.push(self.count)?;
            }
        }
        self.count = self.count.saturating_add(1);
        Ok(())
    }
}
