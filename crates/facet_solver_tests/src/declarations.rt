//! Calls that read types from Rust text, and print types as such text.

use crate::answer::Answer;
use crate::catalogue::Catalogue;
use crate::documents::text_of_call;
use crate::rooted::{name_at, tuple_of};
use facet_solver::{ShapeId, Shapes};
use facet_solver_types::{Declarations, Types, TypesError};
use std::alloc::AllocError;

/// Tells the types of the catalogue that the rest of the call declares, and keeps them as text; or
/// that it is refused, and keeps the error. Where that text is read as another catalogue, that is
/// told too.
///
/// The root may stand first, as in `as A; struct A;`. Where several types stand by themselves, they
/// are read as a tuple, which is not told.
pub fn of_text(answer: &mut Answer<'_>) {
    let call = text_of_call(answer);
    match root_and_text(call.as_str()) {
        (Some(root), text) => match Types::parse(answer.alloc, text, Some(root)) {
            Ok(types) => add_parsed(&types, types.shapes().len(), answer),
            Err(error) => add_refusal(&error, answer),
        },
        (None, text) => of_text_alone(text, answer),
    }
}

/// The root that stands before a text, if one does, and the text.
fn root_and_text(call: &str) -> (Option<&str>, &str) {
    match call.strip_prefix("as ") {
        Some(rest) => match rest.split_once("; ") {
            Some((root, text)) => (Some(root), text),
            None => (None, call),
        },
        None => (None, call),
    }
}

/// The same of a text before which no root stands.
fn of_text_alone(text: &str, answer: &mut Answer<'_>) {
    match Types::parse(answer.alloc, text, None) {
        Ok(types) => add_parsed(&types, types.shapes().len(), answer),
        Err(error) => match tuple_of(answer.alloc, &error) {
            Ok(Some(root)) => of_tuple(text, root.as_str(), answer),
            Ok(None) => add_refusal(&error, answer),
            Err(AllocError) => answer.refused(),
        },
    }
}

/// The same as a tuple, which stands last.
fn of_tuple(text: &str, root: &str, answer: &mut Answer<'_>) {
    match Types::parse(answer.alloc, text, Some(root)) {
        Ok(types) => add_parsed(&types, types.shapes().len().saturating_sub(1), answer),
        Err(error) => add_refusal(&error, answer),
    }
}

/// Tells the first types of a catalogue, in order.
fn add_parsed(types: &Types, count: usize, answer: &mut Answer<'_>) {
    let shapes = types.shapes();
    let root = name_at(shapes, types.root());
    let is_same = is_read_back(shapes, Some(root), answer);
    for index in 0..count {
        answer.add(name_at(shapes, ShapeId::new(index)));
    }
    if !is_same {
        answer.add("but read otherwise");
    }
}

/// Tells whether the types of a catalogue, as text, are read as the same catalogue, and keeps that
/// text; or that it is refused, and keeps the error.
pub fn of_catalogue(catalogue: Catalogue<'_>, answer: &mut Answer<'_>) {
    if is_read_back(catalogue.shapes, None, answer) {
        answer.add("read back");
    } else {
        answer.add("read otherwise");
    }
}

/// Whether the types of a catalogue, as text, are read as the same catalogue, by all that shapes
/// print: as a root, or without one as all that stand by themselves. The text is kept.
fn is_read_back(shapes: &Shapes, root: Option<&str>, answer: &mut Answer<'_>) -> bool {
    answer.put_value(&Declarations(shapes));
    let text = answer.take();
    let is_same = match Types::parse(answer.alloc, text.as_str(), root) {
        Ok(types) => are_same(shapes, types.shapes(), answer),
        Err(error) => match tuple_of(answer.alloc, &error) {
            Ok(Some(tuple)) => is_same_as_tuple(shapes, text.as_str(), tuple.as_str(), answer),
            Ok(None) => is_refused(&error, answer),
            Err(AllocError) => is_refused(&TypesError::OutOfMemory, answer),
        },
    };
    answer.keep_error(&text);
    is_same
}

/// Whether a text is read as the same catalogue, but for a tuple that stands last.
fn is_same_as_tuple(shapes: &Shapes, text: &str, root: &str, answer: &mut Answer<'_>) -> bool {
    match Types::parse(answer.alloc, text, Some(root)) {
        Ok(types) => are_same(shapes, types.shapes(), answer),
        Err(error) => is_refused(&error, answer),
    }
}

/// That a text is refused; where memory was, that is told.
fn is_refused(error: &TypesError<'_>, answer: &mut Answer<'_>) -> bool {
    if let TypesError::OutOfMemory = error {
        answer.refused();
    }
    false
}

/// Whether the shapes of a catalogue are the first of another, which may have one more.
fn are_same(shapes: &Shapes, others: &Shapes, answer: &mut Answer<'_>) -> bool {
    for index in 0..shapes.len() {
        answer.add_debug(&shapes.get(ShapeId::new(index)));
        let one = answer.take();
        answer.add_debug(&others.get(ShapeId::new(index)));
        let other = answer.take();
        if one != other {
            return false;
        }
    }
    others.len() <= shapes.len().saturating_add(1)
}

fn add_refusal(error: &TypesError<'_>, answer: &mut Answer<'_>) {
    if let TypesError::OutOfMemory = error {
        answer.refused();
        return;
    }
    answer.keep_error(error);
    answer.add("refused");
}
