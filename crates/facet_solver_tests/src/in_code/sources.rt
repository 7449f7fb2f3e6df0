//! Types of other crates, which a second text says: the function of docs/CALLING.md, and its lines.

use crate::answer::Answer;
use facet_solver_types::{Invalid, SourcePlace, Sources, Types, TypesError};
use std::alloc::{AllocError, Global};
use std::fmt::Write;

/// What is wrong with types and what stands in for others, a line for each, behind the file and the
/// place there.
fn faults(alloc: Global, sources: Sources<'_>) -> Result<String, AllocError> {
    let text = sources.text(alloc)?;
    match Types::parse(alloc, text.as_str(), None) {
        Ok(_) => String::from_str(alloc, "nothing is wrong"),
        Err(TypesError::Invalid(invalid)) => lines_of(alloc, sources, &invalid),
        Err(error) => error.to_string(alloc),
    }
}

/// The lines of what is invalid in the text of sources.
fn lines_of(
    alloc: Global,
    sources: Sources<'_>,
    invalid: &[Invalid<'_>],
) -> Result<String, AllocError> {
    let mut lines = String::new(alloc);
    for fault in invalid {
        let (file, place) = match sources.place(fault.place) {
            SourcePlace::Types(place) => ("types.rs", place),
            SourcePlace::StandIns(place) => ("stand_ins.rs", place),
        };
        let fault = Invalid { place, ..*fault };
        writeln!(lines, "{file}:{fault}")?;
    }
    Ok(lines)
}

/// A type that needs one of another crate, and what stands in for that.
const ITEM: &str = "struct Item { id: uuid::Uuid }";

const UUID: &str = "type Uuid = String;";

/// Types and stand-ins, and what is told of them. Neither text has to end a line, and what is left
/// open at the end of one is told there.
const TOLD: [(&str, &str, &str); 9] = [
    (ITEM, UUID, "nothing is wrong"),
    (
        "struct Item { id: uuid::Uuid } // of an item",
        "type Uuid = String; // of the crate uuid",
        "nothing is wrong",
    ),
    (
        ITEM,
        "",
        "types.rs:1:25: unknown type 'Uuid': skip its field, put #[facet(proxy = String)] on it, \
         or say 'type Uuid = String;'\n",
    ),
    (
        ITEM,
        "type Uuid = Strng;",
        "stand_ins.rs:1:13: unknown type 'Strng': skip its field, put #[facet(proxy = String)] on \
         it, or say 'type Strng = String;'\n",
    ),
    (
        ITEM,
        "\u{feff}type Id = u8;\ntype Uuid = String",
        "stand_ins.rs:2:19: expected ';', met '}'\n",
    ),
    (
        "struct Item",
        UUID,
        "types.rs:1:12: expected '{', '(' or ';', met 'mod'\n",
    ),
    (
        "\u{feff}struct Item { id: uuid::Uuid } /*",
        UUID,
        "types.rs:1:32: comment is not closed\n",
    ),
    (
        ITEM,
        "struct Uuid {",
        "stand_ins.rs:1:1: '{' is not closed\n",
    ),
    (ITEM, "}", "stand_ins.rs:1:2: '}' closes nothing\n"),
];

/// What is told of each of the sources.
pub fn places_are_those_of_sources(answer: &mut Answer<'static>) {
    for (types, stand_ins, told) in &TOLD {
        let sources = Sources {
            types: *types,
            stand_ins: *stand_ins,
        };
        match faults(answer.alloc, sources) {
            Ok(lines) if lines.as_str() == "out of memory" => answer.refused(),
            Ok(lines) => answer.add(lines.as_str()),
            Err(AllocError) => answer.refused(),
        }
        answer.claim(*told);
    }
}
