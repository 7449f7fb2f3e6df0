//! Transcripts: types, and then calls with the answers that are wanted.

use crate::answer::{Answer, BAR, Line};
use crate::by_hand::Hand;
use crate::catalogue::Catalogue;
use crate::resolution::add_refusal;
use crate::runs::{RunCall, run_calls};
use crate::solving::Session;
use crate::types::{Types, declares};
use facet_solver::{CatalogueError, Field, Schema, Shapes};
use std::alloc::AllocError;

/// What the first line of a transcript begins with, before its name.
pub const HEAD: &str = "transcript ";

/// The lines of a file. Empty lines and those that begin with `#` are ignored, and of a text that
/// is wanted only the first line is one.
pub fn lines<'t>(file: &'t str, answer: &mut Answer<'t>) -> Vec<Line<'t>> {
    let mut lines = Vec::new(answer.alloc);
    let mut rest = file;
    let mut was_in_text = false;
    for number in 1..usize::MAX {
        let (line, behind) = rest.split_once('\n').unwrap_or((rest, ""));
        let in_text = line.starts_with(BAR);
        let text = if in_text { rest } else { line.trim() };
        if says_something(text) && !(in_text && was_in_text) {
            answer.push(&mut lines, Line { number, text });
        }
        if behind.is_empty() {
            break;
        }
        rest = behind;
        was_in_text = in_text;
    }
    lines
}

fn says_something(text: &str) -> bool {
    !text.is_empty() && !text.starts_with('#')
}

/// The lines of a transcript among these, which begin behind its head and go on to the end of the
/// file.
pub fn of_one<'l, 't>(lines: &'l [Line<'t>]) -> &'l [Line<'t>] {
    for index in 0..lines.len() {
        if lines[index].text.starts_with(HEAD) {
            return &lines[..index];
        }
    }
    lines
}

/// Makes the calls of a transcript, and compares what they answer with what is wanted. It is made
/// twice where memory runs out.
pub fn run<'t>(lines: &[Line<'t>], answer: &mut Answer<'t>) {
    run_once(lines, answer);
    if answer.begins_again() {
        run_once(lines, answer);
    }
}

fn run_once<'t>(lines: &[Line<'t>], answer: &mut Answer<'t>) {
    let mut types = Types::new(answer.alloc);
    let mut calls = lines;
    for line in lines {
        answer.begin(*line);
        if !declares(answer.next_word()) {
            break;
        }
        types.declare(*line, answer);
        if !answer.holds() {
            return;
        }
        calls = calls.get(1..).unwrap_or(&[]);
    }
    on_types(types, calls, answer);
}

fn on_types<'t>(types: Types<'t>, calls: &[Line<'t>], answer: &mut Answer<'t>) {
    let Types { names, shapes, .. } = types;
    match Shapes::new(shapes) {
        Ok(shapes) => {
            let (shapes, names) = (&shapes, names.as_slice());
            on_catalogue(Catalogue { shapes, names }, calls, answer);
        }
        Err(fault) => on_fault(fault, calls, answer),
    }
}

/// The calls where the types are no catalogue: only what the check says.
fn on_fault<'t>(fault: CatalogueError, calls: &[Line<'t>], answer: &mut Answer<'t>) {
    for line in calls {
        answer.begin(*line);
        answer.word();
        answer.add_value(&fault.number());
        answer.add("at");
        answer.add_value(&fault.shape());
        answer.compare();
        if !answer.holds() {
            break;
        }
    }
}

/// The calls up to the first schema, and those behind it.
fn on_catalogue<'t>(catalogue: Catalogue<'_>, calls: &[Line<'t>], answer: &mut Answer<'t>) {
    for index in 0..calls.len() {
        let behind = &calls[index + 1..];
        answer.begin(calls[index]);
        match answer.word() {
            "build" => {
                if let Some(schema) = built(catalogue, answer) {
                    on_schema(catalogue, &schema, behind, answer);
                    return;
                }
            }
            "by_hand" => {
                by_hand(catalogue, behind, answer);
                return;
            }
            _ => of_types(catalogue, calls[index], answer),
        }
        if !answer.holds() {
            return;
        }
    }
}

/// A call on the types alone.
fn of_types<'t>(catalogue: Catalogue<'_>, line: Line<'t>, answer: &mut Answer<'t>) {
    answer.begin(line);
    catalogue.answer(answer);
    if answer.begins_again() {
        catalogue.answer(answer);
    }
    answer.compare();
}

/// What a line builds, where it is what the line wants.
fn built<'c, 't: 'c>(catalogue: Catalogue<'c>, answer: &mut Answer<'t>) -> Option<Schema<'c>> {
    let mut schema = build(catalogue, answer);
    if answer.begins_again() {
        answer.word();
        schema = build(catalogue, answer);
    }
    answer.compare();
    schema
}

fn build<'c, 't: 'c>(catalogue: Catalogue<'c>, answer: &mut Answer<'t>) -> Option<Schema<'c>> {
    match catalogue.build(answer) {
        Ok(schema) => {
            answer.add("ok");
            Some(schema)
        }
        Err(error) => {
            add_refusal(&error, answer);
            None
        }
    }
}

fn on_schema<'c, 't>(
    catalogue: Catalogue<'c>,
    schema: &Schema<'c>,
    calls: &[Line<'t>],
    answer: &mut Answer<'t>,
) {
    if answer.holds() {
        let run_calls = run_calls(catalogue, calls, answer);
        on_run_calls(catalogue, schema, &run_calls, calls, answer);
    }
}

fn on_run_calls<'s, 'c, 't: 's>(
    catalogue: Catalogue<'c>,
    schema: &'s Schema<'c>,
    run_calls: &'s [RunCall<'t>],
    calls: &'s [Line<'t>],
    answer: &mut Answer<'t>,
) {
    if answer.holds() {
        match Session::new(catalogue, schema, run_calls, calls, answer.alloc) {
            Ok(mut session) => session.make_all(answer),
            Err(AllocError) => answer.refused(),
        }
    }
}

/// The calls on what is made by hand, whose fields stand for the first field of the type that is
/// named.
fn by_hand<'t>(catalogue: Catalogue<'_>, calls: &[Line<'t>], answer: &mut Answer<'t>) {
    match catalogue.first_field(answer) {
        Some(field) => on_field(catalogue, field, calls, answer),
        None => answer.unread(),
    }
}

fn on_field<'c, 't: 'c>(
    catalogue: Catalogue<'c>,
    field: &'c Field,
    calls: &[Line<'t>],
    answer: &mut Answer<'t>,
) {
    let mut hand = Hand::new(catalogue, field, answer.alloc);
    hand.make_all(calls, answer);
}
