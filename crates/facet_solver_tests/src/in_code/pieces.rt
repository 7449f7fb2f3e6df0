//! How many pieces the text of a reading is written in.

use super::catalogue;
use crate::answer::Answer;
use facet_solver::ShapeId;
use facet_solver_json::{JsonError, Scratch, parse};
use facet_solver_reader::{Document, ReadError, Reader, TypeError, Unknown};
use std::fmt;
use std::fmt::Write;

/// A document, and what is claimed of the text of its reading: how many pieces it is written in,
/// and what it is.
type Claim = (&'static str, &'static str);

/// Documents of a page, which ignores members that it does not know.
const OF_A_PAGE: [Claim; 4] = [
    (
        r#"{"title":"","any":null}"#,
        r#"10 title: ""
any: null"#,
    ),
    (
        r#"{"title":"plain","any":["",0]}"#,
        r#"16 title: "plain"
any: ["", 0]"#,
    ),
    (
        r#"{"title":"a\"b\nc","any":"\u00e9"}"#,
        r#"19 title: "a\"b\nc"
any: "é""#,
    ),
    (
        r#"{"title":"t","any":{"":"","key":"x\t"},"more":1,"":2,"q\"":3}"#,
        r#"43 title: "t"
any: {"": "", "key": "x\t"}
ignored "more"
ignored ""
ignored "q\"""#,
    ),
];

/// Documents of a bag, which takes members that it does not know.
const OF_A_BAG: [Claim; 2] = [
    (
        r#"{"title":"","":""}"#,
        r#"13 title: ""
taken "": """#,
    ),
    (
        r#"{"title":"t","color":"red","a\"b":"\u00e9"}"#,
        r#"29 title: "t"
taken "color": "red"
taken "a\"b": "é""#,
    ),
];

/// Counts the pieces of a text.
#[derive(Drop)]
struct Pieces {
    count: usize,
}

impl Write for Pieces {
    fn write_str(&mut self, _: &str) -> fmt::Result {
        self.count = self.count.wrapping_add(1);
        Ok(())
    }
}

pub fn texts_of_readings_are_written_in_few_pieces(answer: &mut Answer<'static>) {
    let page = "struct Page { title: String, any: Any }";
    all_hold("dynamic Any", page, &OF_A_PAGE, answer);
    if !answer.holds() {
        return;
    }
    let bag = "struct Bag { title: String, flat rest: Rest }";
    all_hold("map Rest of String String", bag, &OF_A_BAG, answer);
}

/// Makes claims on documents of the second of two types.
fn all_hold(
    first: &'static str,
    second: &'static str,
    claims: &[Claim],
    answer: &mut Answer<'static>,
) {
    let Some(shapes) = catalogue(first, second, answer) else {
        answer.unread();
        return;
    };
    let root = ShapeId::new(shapes.len().saturating_sub(1));
    match Reader::new(answer.alloc, &shapes, root, Unknown::Ignored) {
        Ok(reader) => {
            for claim in claims {
                holds(&reader, *claim, answer);
            }
        }
        Err(TypeError::OutOfMemory) => answer.refused(),
        Err(_) => answer.unread(),
    }
}

fn holds(reader: &Reader<'_>, (document, wanted): Claim, answer: &mut Answer<'static>) {
    let mut scratch = Scratch::new(answer.alloc);
    match parse(answer.alloc, document, &mut scratch) {
        Ok(document) => {
            add_reading(reader, &document, answer);
            answer.claim(wanted);
        }
        Err(JsonError::OutOfMemory) => answer.refused(),
        Err(JsonError::Invalid { .. }) => answer.unread(),
    }
}

/// Tells the pieces of the only reading of a document, and its text.
fn add_reading(reader: &Reader<'_>, document: &Document<'_>, answer: &mut Answer<'static>) {
    match reader.read(answer.alloc, document) {
        Ok(reading) => {
            let mut pieces = Pieces { count: 0 };
            let _ = write!(pieces, "{reading}");
            answer.add_value(&pieces.count);
            answer.add_value(&reading);
        }
        Err(ReadError::OutOfMemory) => answer.refused(),
        Err(_) => answer.unread(),
    }
}
