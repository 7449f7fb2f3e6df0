//! What of an error has to stay, while its words may change.

use crate::digest::Digest;
use facet_solver::{CandidateFailure, SchemaError, SolverError};
use facet_solver_json::JsonError;
use facet_solver_reader::{
    NoReading, Obstacle, Place, PlaceSegment, ReadError, TypeError, TypeName,
};
use std::fmt::Display;

/// An error of a call.
pub trait Refusal: Display {
    /// Adds what has to stay: its kind, its place, and what it tells by name.
    fn add_to(&self, digest: &mut Digest);
}

impl Refusal for ReadError<'_, '_> {
    fn add_to(&self, digest: &mut Digest) {
        match self {
            ReadError::NoReading(none) => add_no_reading(digest, none),
            ReadError::Several(several) => {
                digest.name("several");
                add_place(digest, &several.place);
                for branch in &several.variants {
                    add_type_name(digest, &branch.name);
                }
            }
            ReadError::NameTwice(place) => {
                digest.name("a name twice");
                add_place(digest, place);
            }
            ReadError::OutOfMemory => digest.name("out of memory"),
        }
    }
}

impl Refusal for JsonError {
    fn add_to(&self, digest: &mut Digest) {
        match self {
            JsonError::Invalid { line, column, .. } => {
                digest.name("no JSON");
                digest.number(*line);
                digest.number(*column);
            }
            JsonError::OutOfMemory => digest.name("out of memory"),
        }
    }
}

impl Refusal for TypeError<'_> {
    fn add_to(&self, digest: &mut Digest) {
        digest.name(match self {
            TypeError::OutOfMemory => "out of memory",
            _ => "no type",
        });
    }
}

impl Refusal for SolverError<'_> {
    fn add_to(&self, digest: &mut Digest) {
        match self {
            SolverError::NoMatch {
                input_fields,
                missing_required,
                unknown_fields,
                closest_resolution,
                candidate_failures,
                ..
            } => {
                digest.name("no match");
                add_names(digest, input_fields);
                digest.number(missing_required.len());
                for name in missing_required {
                    digest.name(name);
                }
                add_names(digest, unknown_fields);
                if let Some(description) = closest_resolution {
                    digest.name(description);
                }
                for failure in candidate_failures {
                    add_failure(digest, failure);
                }
            }
            SolverError::Ambiguous {
                candidates,
                disambiguating_fields,
            } => {
                digest.name("ambiguous");
                add_names(digest, candidates);
                add_names(digest, disambiguating_fields);
            }
            SolverError::OutOfMemory => digest.name("out of memory"),
        }
    }
}

impl Refusal for SchemaError<'_> {
    fn add_to(&self, digest: &mut Digest) {
        match self {
            SchemaError::DuplicateField(duplicate) => {
                digest.name("a field twice");
                digest.name(duplicate.field_name);
            }
            SchemaError::OutOfMemory => digest.name("out of memory"),
        }
    }
}

/// Adds where there is no reading, and the names that the error tells. What stops a value, and which
/// variants are told where none fits, has changed since the start, and counts as words.
fn add_no_reading(digest: &mut Digest, none: &NoReading<'_, '_>) {
    digest.name("none");
    add_place(digest, &none.place);
    match &none.why {
        Obstacle::Lacks(branch, name) => {
            add_type_name(digest, &branch.name);
            digest.name(name);
        }
        Obstacle::NoKey(_, name) => digest.name(name),
        Obstacle::Unknown(names) => {
            for name in names {
                digest.name(name);
            }
        }
        _ => {}
    }
}

/// Adds each segment of a place.
fn add_place(digest: &mut Digest, place: &Place<'_>) {
    for segment in place.segments() {
        match segment {
            PlaceSegment::Name(name) => digest.name(name),
            PlaceSegment::Index(index) => digest.number(*index),
        }
    }
}

/// Adds the name of a type, and of a variant of it.
fn add_type_name(digest: &mut Digest, name: &TypeName<'_>) {
    digest.name(name.name);
    digest.name(name.variant.unwrap_or(""));
}

/// Adds why a resolution is not the answer.
fn add_failure(digest: &mut Digest, failure: &CandidateFailure<'_>) {
    digest.name(&failure.variant_name);
    digest.number(failure.missing_fields.len());
    for field in &failure.missing_fields {
        digest.name(field.name);
    }
    add_names(digest, &failure.unknown_fields);
}

/// Adds how many names there are, and each.
fn add_names(digest: &mut Digest, names: &[String]) {
    digest.number(names.len());
    for name in names {
        digest.name(name);
    }
}
