//! Where two readings can differ first.

/// What can be read in several ways.
#[derive(Clone, Copy, PartialEq, Eq, PartialOrd, Ord, Debug)]
pub enum Fork {
    /// A selection, by the number of its list and by the index of the part that it is there. Its
    /// ways are its branches.
    Selection(usize, usize),
    /// An enum that is read as a value, by the number of its target. Its ways are the variants that
    /// it names, or those that are read by themselves, and behind them those that join.
    Enum(usize),
}

/// Two ways to read the same, by their indices.
#[derive(Clone, Copy, PartialEq, Eq, Debug)]
pub struct Place {
    /// What is read in both ways.
    pub fork: Fork,
    /// The first of the two ways.
    pub first: usize,
    /// The second, which comes later.
    pub second: usize,
}
