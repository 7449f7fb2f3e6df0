//! How many documents had which end.
ghost use Rattle.std.specs.Prelude.{◌≡◌, ◌++◌, [], ◌∷◌, List, Some};
ghost use Rattle.facet_solver_tool.specs.Answer.{Answer};
ghost use Rattle.facet_solver_tool.specs.Counts as counts;
ghost use Rattle.facet_solver_tool.specs.Counts.{Counts};

use crate::status::Status;
use std::fmt;

/// How many documents had which end. No number passes `u64::MAX`.
#[derive(Clone, Copy, Debug, Drop)]
pub struct Count {
    documents: u64,
    read: u64,
    no_reading: u64,
    several: u64,
    at_fault: u64,
    out_of_memory: u64,
}

impl Count {
    /// No documents.
    pub fn new() -> Count
        ensures { Counts result [] }
    {
        Count {
            documents: 0,
            read: 0,
            no_reading: 0,
            several: 0,
            at_fault: 0,
            out_of_memory: 0,
        }
    }

    /// Counts a document that had this end.
    pub fn add(&mut self, status: Status)
        ensures { (answers : List Answer) → (a : Answer) → a.status ≡ status
            → Counts self.old answers → Counts self.new (answers ++ a ∷ []) }
    {
        self.documents = self.documents.saturating_add(1);
        match status {
            Status::Answered => self.read = self.read.saturating_add(1),
            Status::NoReading => self.no_reading = self.no_reading.saturating_add(1),
            // A document has only the first of these two ends.
            Status::SeveralReadings | Status::Ambiguous => {
                self.several = self.several.saturating_add(1)
            }
            Status::BadDocument => self.at_fault = self.at_fault.saturating_add(1),
            Status::OutOfMemory => self.out_of_memory = self.out_of_memory.saturating_add(1),
            // A document has none of these ends.
            Status::BadTypes
            | Status::Misused
            | Status::Unwritten
            | Status::MaybeAmbiguous
            | Status::Outdated => {}
        }
    }

    /// How many documents were counted.
    pub fn documents(&self) -> u64
        ensures { result ≡ self.now.documents }
    {
        self.documents
    }

    /// How a run ends that has answered the documents: as the one that fared worst.
    pub fn status(&self) -> Status
        ensures { (answers : List Answer) → Counts self.now answers
            → result ≡ counts.worst answers }
    {
        if self.out_of_memory > 0 {
            Status::OutOfMemory
        } else if self.at_fault > 0 {
            Status::BadDocument
        } else if self.several > 0 {
            Status::SeveralReadings
        } else if self.no_reading > 0 {
            Status::NoReading
        } else {
            Status::Answered
        }
    }
}

impl fmt::Display for Count {
    ghost output = { λ c. Some (counts.count_text c) };

    fn fmt<W: fmt::Write>(&self, f: &mut fmt::Formatter<W>) -> fmt::Result {
        let read = self.read;
        let documents = self.documents;
        let no_reading = Part {
            count: self.no_reading,
            end: "without a reading",
        };
        let several = Part {
            count: self.several,
            end: "with several",
        };
        let at_fault = Part {
            count: self.at_fault,
            end: "at fault",
        };
        let out_of_memory = Part {
            count: self.out_of_memory,
            end: "out of memory",
        };
        write!(
            f,
            "{read} of {documents} documents read{no_reading}{several}{at_fault}{out_of_memory}"
        )
    }
}

/// How many documents had an end, behind a comma; nothing where none had it.
#[derive(Clone, Copy)]
struct Part {
    count: u64,
    end: &'static str,
}

impl fmt::Display for Part {
    ghost output = { λ p. Some (counts.part p.count p.end.now) };

    fn fmt<W: fmt::Write>(&self, f: &mut fmt::Formatter<W>) -> fmt::Result {
        let count = self.count;
        let end = self.end;
        if count == 0 {
            Ok(())
        } else {
            write!(f, ", {count} {end}")
        }
    }
}
