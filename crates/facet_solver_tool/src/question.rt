//! What is asked.

use facet_solver_reader::Unknown;

/// How an answer is written.
#[derive(Clone, Copy, Debug, Drop, PartialEq, Eq)]
pub enum Form {
    /// As a text.
    Text,
    /// As JSON: a reading in one line, and a check with a line for each thing that is told.
    Json,
}

/// How documents are read, and how the answer is written.
#[derive(Clone, Copy, Debug, Drop, PartialEq, Eq)]
pub struct Manner {
    /// What is done with unknown members.
    pub unknown: Unknown,
    /// How the answer is written.
    pub form: Form,
}

/// What is asked of types.
#[derive(Clone, Copy, Debug, Drop, PartialEq, Eq)]
pub enum Task {
    /// The reading of a document.
    Read(Manner),
    /// Whether documents can be read as the root, how each enum is written, and which variants
    /// documents do not tell apart.
    Check(Manner),
    /// The types as a catalogue.
    Catalogue,
}

/// A question about types.
#[derive(Clone, Copy, Debug, Drop, PartialEq, Eq)]
pub struct Question<'w> {
    /// What is asked.
    pub task: Task,
    /// The path of the file that declares the types.
    pub types: &'w str,
    /// The root, which is any type. Without it the root is the one type that no other mentions.
    pub root: Option<&'w str>,
    /// The path of the file that has accepted ambiguities, for a check.
    pub accepted: Option<&'w str>,
}

/// A question about each document of an input that has a document a line. The readings are answered
/// as JSON.
#[derive(Clone, Copy, Debug, Drop, PartialEq, Eq)]
pub struct LinesQuestion<'w> {
    /// How unknown members count.
    pub unknown: Unknown,
    /// The path of the file that declares the types.
    pub types: &'w str,
    /// The root, which is any type. Without it the root is the one type that no other mentions.
    pub root: Option<&'w str>,
}
