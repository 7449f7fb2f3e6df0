//! Calls of the streaming reader.

use crate::answer::Answer;
use crate::catalogue::Catalogue;
use crate::errors::add_verdict;
use crate::resolution::add_refusal;
use facet_solver::{Schema, ShapeId};
use facet_solver_uses::stream::{Event, Unread, stream};

/// Tells what the events of a document come to that are left.
pub fn of_events(catalogue: Catalogue<'_>, answer: &mut Answer<'_>) {
    let root = catalogue.id(answer);
    let words = event_words(answer);
    let shapes = shapes_of(catalogue, &words, answer);
    let events = events(&words, &shapes, answer);
    if catalogue.shapes.has(root) && answer.holds() {
        match Schema::build_auto(answer.alloc, catalogue.shapes, root) {
            Ok(schema) => read_events(&schema, &events, answer),
            Err(error) => add_refusal(&error, answer),
        }
    }
}

fn read_events(schema: &Schema<'_>, events: &[Event<'_, '_>], answer: &mut Answer<'_>) {
    match stream(answer.alloc, schema, events) {
        Ok(handle) => {
            answer.add_value(&handle.index());
            answer.add_description(handle.resolution());
        }
        Err(Unread::Misplaced(index)) => {
            answer.add("misplaced");
            answer.add_value(&index);
        }
        Err(Unread::Unfinished) => answer.add("unfinished"),
        Err(Unread::Solver(error)) => add_verdict(&error, answer),
    }
}

fn event_words<'t>(answer: &mut Answer<'t>) -> Vec<&'t str> {
    let mut words = Vec::new(answer.alloc);
    for _ in 0..usize::MAX {
        let word = answer.next_word();
        if word.is_empty() {
            break;
        }
        answer.push(&mut words, word);
    }
    words
}

/// The types of each word: those of `=u8/u16` and of `="File"/String`, and none of any other word.
fn shapes_of(
    catalogue: Catalogue<'_>,
    words: &[&str],
    answer: &mut Answer<'_>,
) -> Vec<Vec<ShapeId>> {
    let mut shapes = Vec::new(answer.alloc);
    for word in words {
        let mut of_word = Vec::new(answer.alloc);
        for name in types_of(word).split('/') {
            if !name.is_empty() {
                let id = catalogue.id_of(name, answer);
                answer.push(&mut of_word, id);
            }
        }
        answer.push(&mut shapes, of_word);
    }
    shapes
}

/// The text of a word as `="File"/String`, and what stands behind it.
fn text_of(word: &str) -> Option<(&str, &str)> {
    word.strip_prefix("=\"")?.split_once('"')
}

/// The types of a value, with strokes between them.
fn types_of(word: &str) -> &str {
    match text_of(word) {
        Some((_, types)) => types,
        None => word.strip_prefix('=').unwrap_or(""),
    }
}

/// The event of a word, with its types.
fn event<'t>(word: &'t str, fitting: &'t [ShapeId]) -> Event<'t, 't> {
    match word {
        "{" => Event::Object,
        "[" => Event::List,
        "}" | "]" => Event::End,
        word => match (word.strip_prefix('.'), text_of(word)) {
            (Some(key), _) => Event::Key(key),
            (None, Some((text, _))) => Event::Text(text, fitting),
            (None, None) => Event::Scalar(fitting),
        },
    }
}

/// The events of words, with the types of each.
fn events<'t>(
    words: &[&'t str],
    shapes: &'t [Vec<ShapeId>],
    answer: &mut Answer<'_>,
) -> Vec<Event<'t, 't>> {
    let mut events = Vec::new(answer.alloc);
    for (word, fitting) in words.iter().zip(shapes) {
        let event = event(word, fitting);
        answer.push(&mut events, event);
    }
    events
}
