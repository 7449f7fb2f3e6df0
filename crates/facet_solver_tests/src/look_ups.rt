//! Calls that look up what a reading has.

use crate::answer::Answer;
use crate::catalogue::Catalogue;
use facet_solver::ShapeId;
use facet_solver_json::{JsonError, Scratch, parse};
use facet_solver_reader::{Document, ReadError, Reader, Reading, ReadingKind, TypeError, Unknown};

/// Tells what is looked up in the reading of a document, as the words behind it say.
pub fn of_reading(catalogue: Catalogue<'_>, answer: &mut Answer<'_>) {
    let root = catalogue.id(answer);
    let text = answer.word();
    let mut scratch = Scratch::new(answer.alloc);
    match parse(answer.alloc, text, &mut scratch) {
        Ok(document) => of_document(catalogue, root, &document, answer),
        Err(JsonError::OutOfMemory) => answer.refused(),
        Err(JsonError::Invalid { .. }) => answer.unread(),
    }
}

fn of_document(
    catalogue: Catalogue<'_>,
    root: ShapeId,
    document: &Document<'_>,
    answer: &mut Answer<'_>,
) {
    match Reader::new(answer.alloc, catalogue.shapes, root, Unknown::Ignored) {
        Ok(reader) => read_by(&reader, document, answer),
        Err(TypeError::OutOfMemory) => answer.refused(),
        Err(_) => answer.unread(),
    }
}

fn read_by(reader: &Reader<'_>, document: &Document<'_>, answer: &mut Answer<'_>) {
    match reader.read(answer.alloc, document) {
        Ok(reading) => add_found(&reading, answer),
        Err(ReadError::OutOfMemory) => answer.refused(),
        Err(_) => answer.unread(),
    }
}

fn add_found(reading: &Reading<'_, '_, '_>, answer: &mut Answer<'_>) {
    let asked = answer.word();
    let text = answer.next_word();
    match asked {
        "at" => add_value(reading.value_at(text), answer),
        "of" => add_value(reading.value_of(text), answer),
        "variant" => match reading.variant_at(text) {
            Some(variant) => answer.add_value(&variant),
            None => answer.add("none"),
        },
        "block" => answer.add_yes_or_no(reading.has_block(text)),
        "absent" => add_absent(&reading.kind, answer),
        _ => answer.unread(),
    }
}

/// Tells the paths of the enums that are absent in an object.
fn add_absent(kind: &ReadingKind<'_, '_, '_>, answer: &mut Answer<'_>) {
    match kind {
        ReadingKind::Object { object, .. } if !object.absent().is_empty() => {
            for path in object.absent() {
                answer.add_value(path);
            }
        }
        _ => answer.add("none"),
    }
}

/// Tells a value, which stands in one line.
fn add_value(value: Option<&Reading<'_, '_, '_>>, answer: &mut Answer<'_>) {
    match value {
        Some(value) => answer.add_value(value),
        None => answer.add("none"),
    }
}
