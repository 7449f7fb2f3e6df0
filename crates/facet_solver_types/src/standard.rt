//! Types of std that documents have as a struct or an enum.
ghost use Rattle.std.specs.Prelude.{◌≡◌};
ghost use Rattle.facet_solver_types.specs.Standards as standards;

/// A type of std that documents have as a struct or an enum.
#[derive(Clone, Copy, Debug, PartialEq, Eq)]
pub(crate) enum Standard {
    Duration,
    SystemTime,
    /// With two ends, of which the second may stand in it.
    Range,
    RangeFrom,
    RangeTo,
    Result,
    Bound,
    OsString,
}

/// How many types it takes.
pub(crate) fn count_of(kind: Standard) -> usize
    ensures { result ≡ standards.count_of kind }
{
    match kind {
        Standard::Duration | Standard::SystemTime | Standard::OsString => 0,
        Standard::Result => 2,
        _ => 1,
    }
}
