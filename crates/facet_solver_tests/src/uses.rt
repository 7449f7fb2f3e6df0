//! Calls that make the uses of the library.

mod choice_to_values;
mod stream;
mod untagged;

use crate::answer::Answer;
use crate::catalogue::{Catalogue, asked, is_builder};
use crate::errors::add_verdict;
use crate::resolution::{add_key, add_refusal};
use crate::words::assigned;
pub use choice_to_values::of_choice;
use facet_solver::{EnumRepr, FieldKey, Format, ResolutionHandle, Schema, SolverError};
use facet_solver_uses::ambiguity_table::{NoTable, ambiguity_table};
use facet_solver_uses::element_to_choice::{Part, child_part, element_to_choice};
use facet_solver_uses::keys_to_choice::keys_to_choice;
use facet_solver_uses::load_config::{Refused, load_config};
pub use stream::of_events;
pub use untagged::of_value;

/// Keeps the table of a type, where it has at most as many choices as the number that is next.
pub fn of_type(catalogue: Catalogue<'_>, answer: &mut Answer<'_>) {
    let (alloc, shapes) = (answer.alloc, catalogue.shapes);
    let root = catalogue.id(answer);
    let most = answer.number() as u64;
    let (representation, format) = asked_of_table(answer);
    if shapes.has(root) && answer.holds() {
        match ambiguity_table(alloc, shapes, root, representation, format, most) {
            Ok(table) => answer.keep_error(&table),
            Err(NoTable::TooMany(count)) => answer.add_debug(&count),
            Err(NoTable::Schema(error)) => add_refusal(&error, answer),
        }
    }
}

/// What the words behind a number ask for. Without one each enum goes by its own attributes.
fn asked_of_table<'t>(answer: &mut Answer<'t>) -> (Option<EnumRepr<'t>>, Format) {
    match answer.next_word() {
        "" => (None, Format::Flat),
        "dom" => (None, Format::Dom),
        "with" => (Some(asked(answer)), Format::Flat),
        _ => {
            answer.unread();
            (None, Format::Flat)
        }
    }
}

/// Tells what the keys come to that are left, in the schema of the builder that is next.
pub fn of_keys<'c, 't: 'c>(catalogue: Catalogue<'c>, answer: &mut Answer<'t>) {
    let root = catalogue.id(answer);
    let word = answer.next_word();
    let is_named = is_builder(word);
    let schema = catalogue.build_by(if is_named { word } else { "" }, root, answer);
    let first = if is_named { answer.next_word() } else { word };
    let keys = keys_from(first, answer);
    match &schema {
        Ok(schema) => keys_in(schema, &keys, answer),
        Err(error) => add_refusal(error, answer),
    }
}

fn keys_in(schema: &Schema<'_>, keys: &[FieldKey<'_>], answer: &mut Answer<'_>) {
    if answer.holds() {
        let found = keys_to_choice(answer.alloc, schema, keys);
        add_found(&found, answer);
    }
}

/// Tells what the parts of an element come to that are left, in the schema of `build_dom`.
pub fn of_element(catalogue: Catalogue<'_>, answer: &mut Answer<'_>) {
    let root = catalogue.id(answer);
    let words = answer.rest();
    if catalogue.shapes.has(root) {
        match Schema::build_dom(answer.alloc, catalogue.shapes, root) {
            Ok(schema) => element_in(&schema, &words, answer),
            Err(error) => add_refusal(&error, answer),
        }
    }
}

fn element_in(schema: &Schema<'_>, words: &[&str], answer: &mut Answer<'_>) {
    let parts = parts(schema, words, answer);
    if answer.holds() {
        let found = element_to_choice(answer.alloc, schema, &parts);
        add_found(&found, answer);
    }
}

/// Tells what a configuration comes to: a tag, the text under it, and the keys that are left.
pub fn of_config(catalogue: Catalogue<'_>, answer: &mut Answer<'_>) {
    let root = catalogue.id(answer);
    if catalogue.shapes.has(root) {
        match Schema::build_auto(answer.alloc, catalogue.shapes, root) {
            Ok(schema) => load(&schema, answer),
            Err(error) => add_refusal(&error, answer),
        }
    }
}

fn load(schema: &Schema<'_>, answer: &mut Answer<'_>) {
    let tag = answer.word();
    let variant = answer.word();
    let keys = keys(answer);
    if answer.holds() {
        match load_config(answer.alloc, schema, tag, variant, &keys) {
            Ok(handle) => {
                answer.add_value(&handle.index());
                answer.add_description(handle.resolution());
            }
            Err(Refused::UnknownVariant(names)) => {
                answer.add("unknown variant, of");
                answer.add_all(&names);
            }
            Err(Refused::UnknownKey(key)) => {
                answer.add("unknown key");
                add_key(key, answer);
            }
            Err(Refused::Solver(error)) => add_verdict(&error, answer),
        }
    }
}

/// The keys that are left.
fn keys<'t>(answer: &mut Answer<'t>) -> Vec<FieldKey<'t>> {
    let first = answer.next_word();
    keys_from(first, answer)
}

/// The keys that are left, where the first of them was read.
fn keys_from<'t>(first: &'t str, answer: &mut Answer<'t>) -> Vec<FieldKey<'t>> {
    let mut keys = Vec::new(answer.alloc);
    let mut word = first;
    for _ in 0..usize::MAX {
        if word.is_empty() {
            break;
        }
        let key = answer.key_of(word);
        answer.push(&mut keys, key);
        word = answer.next_word();
    }
    keys
}

fn parts<'w>(schema: &Schema<'_>, words: &[&'w str], answer: &mut Answer<'_>) -> Vec<Part<'w>> {
    let mut parts = Vec::new(answer.alloc);
    for word in words {
        match part_of(schema, word) {
            Some(part) => answer.push(&mut parts, part),
            None => answer.unread(),
        }
    }
    parts
}

/// The part that a word stands for. A child goes by whether some resolution has its name.
fn part_of<'w>(schema: &Schema<'_>, word: &'w str) -> Option<Part<'w>> {
    let (kind, name) = assigned(word);
    Some(match kind {
        "tag" => Part::Tag,
        "attribute" => Part::Attribute(name),
        "element" => Part::Element(name),
        "elements" => Part::Elements,
        "child" => child_part(schema, name),
        "text" => Part::Text,
        _ => return None,
    })
}

fn add_found(found: &Result<ResolutionHandle<'_, '_>, SolverError<'_>>, answer: &mut Answer<'_>) {
    match found {
        Ok(handle) => {
            answer.add_value(&handle.index());
            answer.add_description(handle.resolution());
        }
        Err(error) => add_verdict(error, answer),
    }
}
