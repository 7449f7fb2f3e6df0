//! Errors that no transcript meets.

use crate::answer::Answer;
use facet_solver::{DuplicateFieldError, FieldPath, SchemaError, SolverError};

pub fn refused_memory_has_a_text(answer: &mut Answer<'static>) {
    answer.add_value(&SchemaError::OutOfMemory);
    answer.claim("out of memory");
    answer.add_value(&SolverError::OutOfMemory);
    answer.claim("out of memory");
}

/// A name with a tab or a line's end cannot stand in a transcript.
pub fn names_in_lists_are_escaped(answer: &mut Answer<'static>) {
    let mut candidates = Vec::new(answer.alloc);
    let name = answer.copied("a\tb\nc\0d\u{1b}e\u{7f}f'g\"h\\i");
    answer.push(&mut candidates, name);
    answer.add_value(&SolverError::Ambiguous {
        candidates,
        disambiguating_fields: Vec::new(answer.alloc),
    });
    answer.claim(
        "Ambiguous: multiple resolutions match: [\"a\\tb\\nc\\0d\\u{1b}e\\u{7f}f'g\\\"h\\\\i\"]",
    );
}

pub fn a_second_field_is_an_error_of_a_schema(answer: &mut Answer<'static>) {
    let duplicate = DuplicateFieldError {
        field_name: "x",
        first_path: FieldPath::empty(answer.alloc),
        second_path: FieldPath::empty(answer.alloc),
    };
    if let SchemaError::DuplicateField(same) = &SchemaError::from(duplicate) {
        answer.add(same.field_name);
    }
    answer.claim("x");
}
