//! The pairs of ways that are asked about.
use crate::growing::push;
use crate::model::Model;
use crate::place::{Fork, Place};
use std::alloc::{AllocError, Global};
use std::collections::BTreeMap;

/// Two ways of a site, by their indices.
#[derive(Clone, Copy)]
pub(crate) struct Pair {
    pub(crate) first: usize,
    pub(crate) second: usize,
}

/// The pairs of ways that are asked about, of each fork. Forks that are one enum are one.
#[derive(Drop)]
pub(crate) struct Listed {
    numbers: BTreeMap<Fork, usize>,
    pairs: Vec<Vec<Pair>>,
}

impl Listed {
    /// Those of places.
    pub(crate) fn new(
        alloc: Global,
        model: &Model<'_, '_>,
        places: &[Place],
    ) -> Result<Listed, AllocError> {
        let mut listed = Listed {
            numbers: BTreeMap::new(alloc),
            pairs: Vec::new(alloc),
        };
        for place in places {
            let pair = Pair {
                first: place.first,
                second: place.second,
            };
            listed.add(alloc, model.same_fork(place.fork), pair)?;
        }
        Ok(listed)
    }

    /// The pairs of a fork.
    pub(crate) fn of(&self, fork: Fork) -> &[Pair] {
        match self.numbers.get(&fork) {
            Some(number) => match self.pairs.get(*number) {
                Some(pairs) => pairs,
                None => &[],
            },
            None => &[],
        }
    }

    /// Adds a pair of a fork.
    fn add(&mut self, alloc: Global, fork: Fork, pair: Pair) -> Result<(), AllocError> {
        let number = match self.numbers.get(&fork) {
            Some(number) => *number,
            None => {
                let number = self.pairs.len();
                self.numbers.insert(fork, number)?;
                push(&mut self.pairs, Vec::new(alloc))?;
                number
            }
        };
        if let Some(pairs) = self.pairs.get_mut(number) {
            pairs.push(pair)?;
        }
        Ok(())
    }
}
