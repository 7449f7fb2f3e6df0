//! What comes of texts of types, of which a file has many.

use crate::rooted::{name_at, tuple_of};
use facet_solver::{ShapeId, Shapes};
use facet_solver_reader::{Reader, Unknown};
use facet_solver_types::{Declarations, Problem, TypeProblem, Types, TypesError};
use std::alloc::{AllocError, Global};
use std::io;
use std::rt::Clock;
use std::time::Instant;

/// What stands between two texts.
const BETWEEN: char = '\0';

/// The letter of a text where memory is short.
const REFUSED: &str = "m";

/// Prints a letter for each text of a file, which says what comes of it, and the number of the text
/// that took the longest, from 0, with its nanoseconds.
pub fn run<R: AllocGlobal + Clock + Print>(rt: &R, file: &str) -> io::Result<()> {
    let mut letters = String::new(rt.alloc());
    let (mut slowest, mut longest) = (0, 0);
    let mut number: usize = 0;
    for text in file.split(BETWEEN) {
        let start = Instant::now(rt)?;
        letters.push_str(letter(rt.alloc(), text))?;
        let time = start.elapsed(rt)?.as_nanos();
        if time > longest {
            (slowest, longest) = (number, time);
        }
        number = number.wrapping_add(1);
    }
    println!(rt; "{letters}\n{slowest} {longest}")
}

/// The letter of a text.
fn letter(alloc: Global, text: &str) -> &'static str {
    match Types::parse(alloc, text, None) {
        Ok(types) => letter_of_types(alloc, &types).unwrap_or(REFUSED),
        Err(error) => match tuple_of(alloc, &error) {
            Ok(Some(root)) => letter_of_root(alloc, text, root.as_str()),
            Ok(None) => letter_of_error(&error),
            Err(AllocError) => REFUSED,
        },
    }
}

/// The letter of a text that is read for a root.
fn letter_of_root(alloc: Global, text: &str, root: &str) -> &'static str {
    match Types::parse(alloc, text, Some(root)) {
        Ok(types) => letter_of_types(alloc, &types).unwrap_or(REFUSED),
        Err(error) => letter_of_error(&error),
    }
}

/// The letter of a text that is accepted. Its types, printed, have to be read as types that are
/// printed so too.
fn letter_of_types(alloc: Global, types: &Types) -> Result<&'static str, AllocError> {
    let text = printed(alloc, types.shapes())?;
    let root = name_at(types.shapes(), types.root());
    let Ok(again) = Types::parse(alloc, text.as_str(), Some(root)) else {
        return Ok("p");
    };
    if printed(alloc, again.shapes())? != text {
        return Ok("o");
    }
    if Reader::new(alloc, types.shapes(), types.root(), Unknown::Refused).is_err() {
        return Ok("r");
    }
    Ok(if have_one_order(types.shapes(), again.shapes()) {
        "a"
    } else {
        "b"
    })
}

/// A catalogue as declarations.
fn printed(alloc: Global, shapes: &Shapes) -> Result<String, AllocError> {
    format!(in alloc; "{}", Declarations(shapes))
}

/// Whether two catalogues have types of one name at each index.
fn have_one_order(shapes: &Shapes, others: &Shapes) -> bool {
    for index in 0..shapes.len() {
        let id = ShapeId::new(index);
        if name_at(shapes, id) != name_at(others, id) {
            return false;
        }
    }
    true
}

/// The letter of a text that is refused.
fn letter_of_error(error: &TypesError<'_>) -> &'static str {
    match error {
        TypesError::Invalid(found) => match found.first() {
            Some(first) => letter_of_problem(first.problem),
            None => "?",
        },
        // What stands by itself can have too long a name for a type.
        TypesError::Root {
            problem: Problem::OfType(TypeProblem::TooDeep),
            ..
        } => "T",
        TypesError::Root { .. } => "R",
        TypesError::Roots(_) => "V",
        TypesError::Catalogue(_) => "c",
        TypesError::OutOfMemory => REFUSED,
    }
}

fn letter_of_problem(problem: Problem) -> &'static str {
    match problem {
        Problem::NoToken(_) => "N",
        Problem::OpenText => "Q",
        Problem::OpenCharacter => "H",
        Problem::OpenComment => "K",
        Problem::OpenBracket => "B",
        Problem::ClosesNothing => "Z",
        Problem::Expected(_) => "E",
        Problem::Attribute(_) => "A",
        Problem::OfType(_) => "T",
        Problem::Shape(_) => "S",
    }
}
