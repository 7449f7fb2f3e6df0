//! The program of docs/CALLING.md, word for word, and what it prints.

use crate::answer::Answer;
use facet_solver_json::{Scratch, parse};
use facet_solver_reader::{Document, Reader, Reading, ReadingKind, Unknown};
use facet_solver_types::Types;
use std::alloc::{AllocError, Global};

/// The types, as a file of Rust declares them.
const TYPES: &str = r#"
    struct Job {
        name: String,
        #[serde(flatten)] source: Source,
        #[serde(flatten)] retry: Option<Retry>,
    }
    #[serde(tag = "type")] enum Source { File { path: String }, Http { url: String } }
    struct Retry { attempts: u8, delay: Option<u32> }
"#;

/// What a text of JSON says of a job; or what is wrong with the types, the text, or the job.
fn told(alloc: Global, types: &str, text: &str) -> Result<String, AllocError> {
    let types = match Types::parse(alloc, types, Some("Job")) {
        Ok(types) => types,
        Err(error) => return error.to_string(alloc),
    };
    match Reader::new(alloc, types.shapes(), types.root(), Unknown::Refused) {
        Ok(reader) => told_by(alloc, &reader, text),
        Err(error) => error.to_string(alloc),
    }
}

/// The same by a reader, which serves any number of texts.
fn told_by(alloc: Global, reader: &Reader<'_>, text: &str) -> Result<String, AllocError> {
    let mut scratch = Scratch::new(alloc);
    let document = match parse(alloc, text, &mut scratch) {
        Ok(document) => document,
        Err(error) => return error.to_string(alloc),
    };
    match reader.read(alloc, &document) {
        Ok(job) => line_of(alloc, &job),
        Err(error) => error.to_string(alloc),
    }
}

/// A job in a line: its name, where it is from, and whether it is tried again.
fn line_of(alloc: Global, job: &Reading<'_, '_, '_>) -> Result<String, AllocError> {
    let name = text_of(job.value_of("name"));
    let from = text_of(match job.variant_at("source") {
        Some(source) if source.variant_name == "Http" => job.value_at("source.source::Http.url"),
        _ => job.value_of("path"),
    });
    if job.has_block("retry") {
        return format!(in alloc; "{name} from {from}, tried again");
    }
    format!(in alloc; "{name} from {from}, tried once")
}

/// The text that a value is; of any other value the empty text.
fn text_of<'d>(value: Option<&Reading<'_, '_, 'd>>) -> &'d str {
    let Some(value) = value else {
        return "";
    };
    match &value.kind {
        ReadingKind::Value(Document::Text(text)) => text,
        _ => "",
    }
}

/// Texts of JSON, and what the program tells of each.
const TOLD: [(&str, &str); 5] = [
    (
        r#"{"name": "n", "type": "File", "path": "/p"}"#,
        "n from /p, tried once",
    ),
    (
        r#"{"name": "n", "type": "Http", "url": "u", "attempts": 3}"#,
        "n from u, tried again",
    ),
    (
        r#"{"name": "n", "type": "Http", "path": "/p"}"#,
        "the document: no variant of Source fits; Http lacks 'url', and 'path' is no key of it",
    ),
    (
        r#"{"name": "n", "type": "File", "path": "/p", "delay": 9}"#,
        "the document: 'delay' is of Retry, which lacks 'attempts'",
    ),
    (r#"{"name":"#, "1:9: invalid JSON: a value was expected"),
];

/// What the program prints of some texts of JSON, one of them behind types at fault.
pub fn documents_are_told(answer: &mut Answer<'static>) {
    for (text, line) in &TOLD {
        tell(TYPES, text, *line, answer);
    }
    let line = "1:20: unknown type 'Strng': skip its field, put #[facet(proxy = String)] on it, \
                or say 'type Strng = String;'";
    tell("struct Job { name: Strng }", "{}", line, answer);
}

fn tell(types: &str, text: &str, line: &'static str, answer: &mut Answer<'static>) {
    match told(answer.alloc, types, text) {
        // The errors `OutOfMemory` have a text too.
        Ok(line) if line.as_str() == "out of memory" => answer.refused(),
        Ok(line) => answer.add(line.as_str()),
        Err(AllocError) => answer.refused(),
    }
    answer.claim(line);
}
