//! A number that is exact as long as it is small.
ghost use Rattle.std.specs.Prelude.{◌≡◌, ℕ, ◌+◌, ◌*◌, ◌^◌, ◌<◌};
ghost use Rattle.facet_solver.specs.build.Count.{below_2_64};
ghost use Rattle.facet_solver.specs.build.Counts.{CountsTo, saturating_of};

/// A number without bound: exact below 2^64, or else only known to be larger.
#[derive(Clone, Copy)]
pub(crate) enum SaturatingCount {
    Exact(u64),
    Larger,
}

impl SaturatingCount {
    /// The sum.
    pub(crate) fn plus(self, other: SaturatingCount) -> SaturatingCount
        ensures { (m n : ℕ) → CountsTo self m → CountsTo other n → CountsTo result (m + n) }
    {
        match (self, other) {
            (Self::Exact(a), Self::Exact(b)) => Self::from_checked(a.checked_add(b)),
            _ => Self::Larger,
        }
    }

    /// The product, which a factor 0 makes 0 however large the other is.
    pub(crate) fn times(self, other: SaturatingCount) -> SaturatingCount
        ensures { (m n : ℕ) → CountsTo self m → CountsTo other n → CountsTo result (m * n) }
    {
        match (self, other) {
            (Self::Exact(0), _) | (_, Self::Exact(0)) => Self::Exact(0),
            (Self::Exact(a), Self::Exact(b)) => Self::from_checked(a.checked_mul(b)),
            _ => Self::Larger,
        }
    }

    /// The number where it is below 2^64.
    pub(crate) fn exact(self) -> Option<u64>
        ensures { (n : ℕ) → CountsTo self n → result ≡ below_2_64 n }
    {
        match self {
            Self::Exact(number) => Some(number),
            Self::Larger => None,
        }
    }

    /// The number where it is below 2^64, and else the largest one there.
    pub(crate) fn or_largest(self) -> u64
        ensures { (n : ℕ) → CountsTo self n → n < 2 ^ 64 → result ≡ n }
    {
        match self {
            Self::Exact(number) => number,
            Self::Larger => u64::MAX,
        }
    }

    /// What a checked sum or product came to.
    fn from_checked(number: Option<u64>) -> SaturatingCount
        ensures { result ≡ saturating_of number }
    {
        match number {
            Some(number) => Self::Exact(number),
            None => Self::Larger,
        }
    }
}
