//! What is replied to an input.
ghost use Rattle.std.specs.Prelude.{◌≡◌, Some};
ghost use Rattle.facet_solver_program.specs.Reply as replies;

use facet_solver::CatalogueError;
use std::fmt;

/// What is replied to an input. It alone decides the status and the text.
#[derive(Debug, Drop)]
pub enum Reply {
    /// One resolution is left.
    Resolved {
        /// Its index.
        index: usize,
        /// Its description.
        description: String,
    },
    /// Not one resolution alone is left, as this text tells.
    Reported(String),
    /// The root has more resolutions than are built.
    TooManyResolutions,
    /// A choice of the root has a key twice, as this text tells.
    DuplicateField(String),
    /// The shapes have this fault.
    BadCatalogue(CatalogueError),
    /// The input cannot be read, or its bytes say none.
    BadInput,
    /// Memory was refused.
    OutOfMemory,
}

impl Reply {
    /// The status of the run.
    pub fn status(&self) -> u8
        ensures { result ≡ replies.status self.now }
    {
        match self {
            Reply::Resolved { .. } => 0,
            Reply::Reported(_) => 1,
            Reply::TooManyResolutions => 2,
            Reply::DuplicateField(_) => 2,
            Reply::BadCatalogue(_) => 3,
            Reply::BadInput => 4,
            Reply::OutOfMemory => 5,
        }
    }
}

impl fmt::Display for Reply {
    ghost output = { λ reply. Some (replies.text reply) };

    fn fmt<W: fmt::Write>(&self, f: &mut fmt::Formatter<W>) -> fmt::Result {
        match self {
            Reply::Resolved { index, description } => write!(f, "resolved {index}: {description}"),
            Reply::Reported(text) => f.write_str(text),
            Reply::TooManyResolutions => f.write_str("too many resolutions"),
            Reply::DuplicateField(text) => f.write_str(text),
            Reply::BadCatalogue(fault) => {
                let number = fault.number();
                write!(f, "bad catalogue {number}")
            }
            Reply::BadInput => f.write_str("bad input"),
            Reply::OutOfMemory => f.write_str("out of memory"),
        }
    }
}
