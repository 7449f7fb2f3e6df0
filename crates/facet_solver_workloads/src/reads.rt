//! Texts read as a type.

use crate::digest::Digest;
use crate::fault::Fault;
use facet_solver::{ShapeId, Shapes};
use facet_solver_json::{Scratch, parse};
use facet_solver_reader::{Reader, Unknown};
use std::alloc::Global;

/// A type that documents are read as.
#[derive(Drop)]
pub struct Readable {
    pub shapes: Shapes,
    pub root: ShapeId,
}

impl Readable {
    /// A reader of the type.
    pub fn reader(&self, alloc: Global, unknown: Unknown) -> Result<Reader<'_>, Fault> {
        match Reader::new(alloc, &self.shapes, self.root, unknown) {
            Ok(reader) => Ok(reader),
            Err(_) => Err(Fault::Type),
        }
    }
}

/// Reads a text, and adds its reading or the error, as text.
pub fn read(
    alloc: Global,
    reader: &Reader<'_>,
    text: &str,
    digest: &mut Digest,
) -> Result<(), Fault> {
    let mut scratch = Scratch::new(alloc);
    read_with(alloc, reader, text, &mut scratch, digest)
}

/// Reads a text by room that was there before, and adds its reading or the error, as text.
pub fn read_with(
    alloc: Global,
    reader: &Reader<'_>,
    text: &str,
    scratch: &mut Scratch,
    digest: &mut Digest,
) -> Result<(), Fault> {
    match parse(alloc, text, scratch) {
        Ok(document) => match reader.read(alloc, &document) {
            Ok(reading) => digest.answer(&reading),
            Err(error) => digest.refusal(&error),
        },
        Err(error) => digest.refusal(&error),
    }
}
