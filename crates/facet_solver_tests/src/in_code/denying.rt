//! Which types have `deny_unknown_fields`.

use crate::answer::Answer;
use facet_solver_types::Types;
use std::alloc::{AllocError, Global};
use std::fmt::Write;

/// The names of the types of a text that have it, each behind a blank.
fn denying(alloc: Global, text: &str) -> Result<String, AllocError> {
    match Types::parse(alloc, text, Some("Root")) {
        Ok(types) => listed(alloc, &types.denying(alloc)?),
        Err(error) => error.to_string(alloc),
    }
}

/// Names, each behind a blank.
fn listed(alloc: Global, names: &[&str]) -> Result<String, AllocError> {
    let mut text = String::from_str(alloc, "denying:")?;
    for name in names {
        write!(text, " {name}")?;
    }
    Ok(text)
}

/// Types, and which of those that `Root` needs have it, in the order of the text.
const TOLD: [(&str, &str); 3] = [
    (
        "struct Root { a: A } struct A; #[serde(deny_unknown_fields)] struct Other;",
        "denying:",
    ),
    (
        "#[facet(deny_unknown_fields)] struct Root { a: A } \
         #[serde(deny_unknown_fields)] enum A { B }",
        "denying: Root A",
    ),
    (
        "#[serde(deny_unknown_fields)] struct Last<T> { x: T } \
         struct Root { b: Inner, a: Vec<Last<u8>>, c: Last<String> } \
         #[serde(deny_unknown_fields)] struct Inner;",
        "denying: Last<u8> Last<String> Inner",
    ),
];

/// What is told of each of the texts.
pub fn denying_types_are_told(answer: &mut Answer<'static>) {
    for (types, told) in &TOLD {
        match denying(answer.alloc, types) {
            Ok(line) if line.as_str() == "out of memory" => answer.refused(),
            Ok(line) => answer.add(line.as_str()),
            Err(AllocError) => answer.refused(),
        }
        answer.claim(*told);
    }
}
