//! Calls that read documents.

use crate::answer::Answer;
use crate::catalogue::Catalogue;
use facet_solver::ShapeId;
use facet_solver_json::{JsonError, Scratch, parse};
use facet_solver_reader::{
    Count, Document, DocumentError, Number, ReadError, Reader, TypeError, Unknown,
};

/// What stands for a line feed in the text of a call.
const LINE_FEED: char = '¶';

/// Tells the document that the rest of the call is as JSON, or the place where it is none.
pub fn of_json(answer: &mut Answer<'_>) {
    let text = text_of_call(answer);
    let mut scratch = Scratch::new(answer.alloc);
    match parse(answer.alloc, text.as_str(), &mut scratch) {
        Ok(document) => add_document(&document, answer),
        Err(JsonError::OutOfMemory) => answer.refused(),
        Err(error) => answer.add_value(&error),
    }
}

/// The rest of a call behind its first word, with its line feeds. No word is left then.
pub fn text_of_call(answer: &mut Answer<'_>) -> String {
    answer.words = "".split_whitespace();
    let rest = match answer.call.split_once(' ') {
        Some((_, rest)) => rest,
        None => "",
    };
    let mut is_first = true;
    for line in rest.split(LINE_FEED) {
        if !is_first {
            answer.put("\n");
        }
        is_first = false;
        answer.put(line);
    }
    answer.take()
}

/// Tells a document, each value behind a word that says what it is.
fn add_document(document: &Document<'_>, answer: &mut Answer<'_>) {
    match document {
        Document::Null => answer.add("null"),
        Document::Bool(is_true) => answer.add(if *is_true { "true" } else { "false" }),
        Document::Number(number) => add_number(number, answer),
        Document::Text(text) => answer.add_debug(text),
        Document::List(items) => {
            answer.add("[");
            for item in items {
                add_document(item, answer);
            }
            answer.add("]");
        }
        Document::Object(members) => {
            answer.add("{");
            for (name, value) in members {
                answer.add_debug(name);
                add_document(value, answer);
            }
            answer.add("}");
        }
    }
}

/// Tells a number: its text, and its value where it is whole.
fn add_number(number: &Number<'_>, answer: &mut Answer<'_>) {
    match number.whole() {
        Some(whole) => answer.add_debug(&whole),
        None => {
            answer.add("number");
            answer.add(number.text());
        }
    }
}

/// Tells how many readings a document has as a type, or why there is no count.
pub fn of_readings(catalogue: Catalogue<'_>, unknown: Unknown, answer: &mut Answer<'_>) {
    let root = catalogue.id(answer);
    let text = answer.word();
    let mut scratch = Scratch::new(answer.alloc);
    match parse(answer.alloc, text, &mut scratch) {
        Ok(document) => add_count(catalogue, root, unknown, &document, answer),
        Err(JsonError::OutOfMemory) => answer.refused(),
        Err(JsonError::Invalid { .. }) => answer.unread(),
    }
}

fn add_count(
    catalogue: Catalogue<'_>,
    root: ShapeId,
    unknown: Unknown,
    document: &Document<'_>,
    answer: &mut Answer<'_>,
) {
    match Reader::new(answer.alloc, catalogue.shapes, root, unknown) {
        Ok(reader) => count_by(&reader, document, answer),
        Err(TypeError::OutOfMemory) => answer.refused(),
        Err(error) => answer.add_value(&error),
    }
}

/// Tells how many readings a document has, and keeps the text of the only one, or of the error.
fn count_by(reader: &Reader<'_>, document: &Document<'_>, answer: &mut Answer<'_>) {
    match reader.count(answer.alloc, document) {
        Ok(count) => read_by(reader, document, count, answer),
        Err(DocumentError::OutOfMemory) => answer.refused(),
        Err(error) => answer.add_value(&error),
    }
}

fn word_of(count: Count) -> &'static str {
    match count {
        Count::None => "none",
        Count::One => "one",
        Count::Several => "several",
    }
}

/// Tells what comes of a read, which has to be as was counted.
fn read_by(reader: &Reader<'_>, document: &Document<'_>, count: Count, answer: &mut Answer<'_>) {
    let read = match reader.read(answer.alloc, document) {
        Ok(reading) => {
            answer.keep_error(&reading);
            Count::One
        }
        Err(ReadError::OutOfMemory) => {
            answer.refused();
            return;
        }
        Err(error) => {
            answer.keep_error(&error);
            count_of(&error)
        }
    };
    answer.add(word_of(read));
    if read != count {
        answer.add("but counted");
        answer.add(word_of(count));
    }
}

/// How many readings a document has that is not read.
fn count_of(error: &ReadError<'_, '_>) -> Count {
    match error {
        ReadError::Several(_) => Count::Several,
        _ => Count::None,
    }
}
