//! Whole numbers to 128 bits, and intervals of them.
use facet_solver_shape::WholeRange;
use std::alloc::{AllocError, Global};

/// A whole number, from `i128::MIN` to `u128::MAX`. A negative one is below each other.
#[derive(Clone, Copy, PartialEq, Eq, PartialOrd, Ord)]
pub(crate) enum Wide {
    /// A number below zero.
    Negative(i128),
    /// A number from zero up.
    Natural(u128),
}

impl Wide {
    /// The number of a limit.
    fn of(number: i128) -> Wide {
        if number < 0 {
            Wide::Negative(number)
        } else {
            Wide::Natural(number.unsigned_abs())
        }
    }

    /// The number before it, if there is one.
    fn before(self) -> Option<Wide> {
        match self {
            Wide::Negative(number) => number.checked_sub(1).map(Wide::Negative),
            Wide::Natural(number) => match number.checked_sub(1) {
                Some(before) => Some(Wide::Natural(before)),
                None => Some(Wide::Negative(-1)),
            },
        }
    }

    /// The number behind it, if there is one.
    fn after(self) -> Option<Wide> {
        match self {
            Wide::Negative(-1) => Some(Wide::Natural(0)),
            Wide::Negative(number) => number.checked_add(1).map(Wide::Negative),
            Wide::Natural(number) => number.checked_add(1).map(Wide::Natural),
        }
    }

    /// Its numeral.
    pub(crate) fn numeral(self, alloc: Global) -> Result<String, AllocError> {
        match self {
            Wide::Negative(number) => format!(in alloc; "{number}"),
            Wide::Natural(number) => format!(in alloc; "{number}"),
        }
    }
}

/// The whole numbers from one to another, both included.
#[derive(Clone, Copy, PartialEq, Eq)]
pub(crate) struct Interval {
    pub(crate) lowest: Wide,
    pub(crate) highest: Wide,
}

impl Interval {
    /// All whole numbers.
    pub(crate) fn all() -> Interval {
        Interval {
            lowest: Wide::Negative(i128::MIN),
            highest: Wide::Natural(u128::MAX),
        }
    }

    /// Those of a range.
    pub(crate) fn of(range: WholeRange) -> Interval {
        Interval {
            lowest: Wide::of(range.lowest),
            highest: Wide::Natural(range.highest),
        }
    }

    /// The numbers of both.
    pub(crate) fn meet(self, other: Interval) -> Option<Interval> {
        let lowest = self.lowest.max(other.lowest);
        let highest = self.highest.min(other.highest);
        if lowest <= highest {
            Some(Interval { lowest, highest })
        } else {
            None
        }
    }

    /// Its number that is nearest to zero.
    pub(crate) fn smallest(self) -> Wide {
        match (self.lowest, self.highest) {
            (Wide::Natural(_), _) => self.lowest,
            (_, Wide::Natural(_)) => Wide::Natural(0),
            (_, Wide::Negative(_)) => self.highest,
        }
    }

    /// Its numbers below another interval.
    fn below(self, other: Interval) -> Option<Interval> {
        let highest = other.lowest.before()?;
        self.meet(Interval {
            lowest: Interval::all().lowest,
            highest,
        })
    }

    /// Its numbers above another interval.
    fn above(self, other: Interval) -> Option<Interval> {
        let lowest = other.highest.after()?;
        self.meet(Interval {
            lowest,
            highest: Interval::all().highest,
        })
    }
}

/// The numbers of some intervals without those of another.
pub(crate) fn without(
    alloc: Global,
    intervals: &[Interval],
    taken: Interval,
) -> Result<Vec<Interval>, AllocError> {
    let mut left = Vec::new(alloc);
    for interval in intervals {
        if let Some(below) = interval.below(taken) {
            left.push(below)?;
        }
        if let Some(above) = interval.above(taken) {
            left.push(above)?;
        }
    }
    Ok(left)
}

/// The number nearest to zero that stands in one of some intervals and in one of others.
pub(crate) fn common(first: &[Interval], second: &[Interval]) -> Option<Wide> {
    for one in first {
        for other in second {
            if let Some(both) = one.meet(*other) {
                return Some(both.smallest());
            }
        }
    }
    None
}
