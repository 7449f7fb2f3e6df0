//! Whole numbers of up to 128 bits, and the ranges of the types of whole numbers.
ghost use Rattle.std.specs.Prelude.{◌≡◌};
ghost use Rattle.facet_solver_shape.specs.Ranges as ranges;
ghost use Rattle.facet_solver_shape.specs.Ranges.{whole_value};

use crate::shape::ScalarType;

/// A whole number of up to 128 bits.
#[derive(Clone, Copy, PartialEq, Eq, Debug)]
pub enum Whole {
    /// A negative number. One from zero up counts as what it is.
    Negative(i128),
    /// A number from zero up.
    Natural(u128),
}

impl From<i128> for Whole {
    ghost from_gives = { λ number whole. whole_value whole ≡ number };

    fn from(number: i128) -> Whole {
        if number < 0 {
            Whole::Negative(number)
        } else {
            Whole::Natural(number as u128)
        }
    }
}

impl From<u128> for Whole {
    ghost use Rattle.std.specs.Prelude.{pos};

    ghost from_gives = { λ number whole. whole_value whole ≡ pos number };

    fn from(number: u128) -> Whole {
        Whole::Natural(number)
    }
}

/// The whole numbers from one limit to another, both included.
#[derive(Clone, Copy, PartialEq, Eq, Debug)]
pub struct WholeRange {
    /// The lowest number of the range.
    pub lowest: i128,
    /// The highest number of the range.
    pub highest: u128,
}

impl WholeRange {
    /// The numbers from one limit to another.
    fn new(lowest: i128, highest: u128) -> Self
        ensures { result ≡ record { lowest = lowest; highest = highest } }
    {
        WholeRange { lowest, highest }
    }

    /// The numbers of a type of whole numbers, where `usize` and `isize` have 64 bits; `None` for any
    /// other type.
    pub fn of(scalar: ScalarType) -> Option<WholeRange>
        ensures { result ≡ ranges.whole_range scalar }
    {
        let range = match scalar {
            ScalarType::U8 => WholeRange::new(0, u128::from(u8::MAX)),
            ScalarType::U16 => WholeRange::new(0, u128::from(u16::MAX)),
            ScalarType::U32 => WholeRange::new(0, u128::from(u32::MAX)),
            ScalarType::U64 | ScalarType::USize => WholeRange::new(0, u128::from(u64::MAX)),
            ScalarType::U128 => WholeRange::new(0, u128::MAX),
            ScalarType::I8 => WholeRange::new(i128::from(i8::MIN), i8::MAX as u128),
            ScalarType::I16 => WholeRange::new(i128::from(i16::MIN), i16::MAX as u128),
            ScalarType::I32 => WholeRange::new(i128::from(i32::MIN), i32::MAX as u128),
            ScalarType::I64 | ScalarType::ISize => {
                WholeRange::new(i128::from(i64::MIN), i64::MAX as u128)
            }
            ScalarType::I128 => WholeRange::new(i128::MIN, i128::MAX as u128),
            _ => return None,
        };
        Some(range)
    }

    /// Whether a number is in the range.
    pub fn holds(&self, whole: Whole) -> bool
        ensures { result ≡ ranges.holds self.now (whole_value whole) }
    {
        match whole {
            Whole::Negative(number) if number < 0 => self.lowest <= number,
            Whole::Negative(number) => self.lowest <= number && number as u128 <= self.highest,
            Whole::Natural(number) => {
                number <= self.highest && (self.lowest <= 0 || self.lowest as u128 <= number)
            }
        }
    }
}
