//! How a run ends.
ghost use Rattle.std.specs.Prelude.{◌≡◌};
ghost use Rattle.facet_solver_tool.specs.Status as status;

/// How a run ends.
#[derive(Clone, Copy, Debug, Drop, PartialEq, Eq)]
pub enum Status {
    /// With what was asked for.
    Answered,
    /// The document has no reading.
    NoReading,
    /// The document has several readings.
    SeveralReadings,
    /// The types are at fault, or have no such root.
    BadTypes,
    /// The document is at fault: no JSON, or with a name that stands twice.
    BadDocument,
    /// Out of memory.
    OutOfMemory,
    /// The arguments ask nothing, or name a file that cannot be read.
    Misused,
    /// A write failed.
    Unwritten,
    /// The check tells variants that a document does not tell apart.
    Ambiguous,
    /// The check tells such only as may be.
    MaybeAmbiguous,
    /// The check tells none, and that an accepted ambiguity is none any more.
    Outdated,
}

impl Status {
    /// The status of the process.
    pub fn code(self) -> u8
        ensures { result ≡ status.code self }
    {
        match self {
            Status::Answered => 0,
            Status::NoReading => 1,
            Status::SeveralReadings => 2,
            Status::BadTypes => 3,
            Status::BadDocument => 4,
            Status::OutOfMemory => 5,
            Status::Misused => 64,
            Status::Unwritten => 74,
            Status::Ambiguous => 2,
            Status::MaybeAmbiguous => 6,
            Status::Outdated => 7,
        }
    }
}
