//! Notes in many languages: texts and names past ASCII or with escapes, on lines of their own.

use crate::digest::Digest;
use crate::fault::Fault;
use crate::job::Job;
use crate::json_text::JsonText;
use crate::random::Random;
use crate::reads::{Readable, read_with};
use crate::types::{Tagging, Types};
use crate::words::marked_word;
use facet_solver::{ScalarType, ShapeId, ShapeKind};
use facet_solver_json::Scratch;
use facet_solver_reader::Unknown;
use std::alloc::Global;

/// Reads some notes, one after another, by one reader and one room for texts with escapes.
pub fn read_notes(job: &mut Job) -> Result<(), Fault> {
    let readable = notes(job.alloc)?;
    let reader = readable.reader(job.alloc, Unknown::Ignored)?;
    let mut digest = Digest::new();
    let mut scratch = Scratch::new(job.alloc);
    let mut text = JsonText::indented(job.alloc);
    for _ in 0..job.count.wrapping_mul(job.scaled(6_000)) {
        text.clear();
        write_note(&mut text, &mut job.random)?;
        read_with(job.alloc, &reader, text.as_str(), &mut scratch, &mut digest)?;
    }
    job.tell("notes", digest)
}

/// A note with an author, a grade, texts by language, and a body, which is words or a table.
fn notes(alloc: Global) -> Result<Readable, Fault> {
    let mut types = Types::new(alloc);
    let text = types.text()?;
    let grade = types.kind("i64", ShapeKind::Scalar(ScalarType::I64))?;
    let size = types.decimal()?;
    let texts = types.list(text)?;
    let languages = types.map(text, text)?;
    let body = add_body(alloc, &mut types, texts, grade)?;
    let mut fields = types.fields(&[
        ("title", text),
        ("作者", text),
        ("grade", grade),
        ("größe", size),
        ("labels", texts),
        ("languages", languages),
    ])?;
    fields.push(types.flattened("body", body)?)?;
    let root = types.structure("Note", fields)?;
    let shapes = types.catalogue()?;
    Ok(Readable { shapes, root })
}

fn add_body(
    alloc: Global,
    types: &mut Types,
    texts: ShapeId,
    number: ShapeId,
) -> Result<ShapeId, Fault> {
    let row = types.list(number)?;
    let rows = types.list(row)?;
    let words = types.variant("Words", types.fields(&[("paragraphs", texts)])?)?;
    let table = types.variant(
        "Table",
        types.fields(&[("columns", texts), ("rows", rows)])?,
    )?;
    types.enumeration("Body", vec![in alloc; words, table]?, Tagging::Untagged)
}

/// Writes a note.
fn write_note(text: &mut JsonText, random: &mut Random) -> Result<(), Fault> {
    text.open("{")?;
    write_author(text, random)?;
    write_grade(text, random)?;
    text.name("labels")?;
    text.word_list(random, 4)?;
    write_languages(text, random)?;
    write_body(text, random)?;
    Ok(text.close("}")?)
}

/// Writes a name, one in three with an escape.
fn write_name(
    text: &mut JsonText,
    random: &mut Random,
    name: &str,
    escaped: &str,
) -> Result<(), Fault> {
    Ok(text.name(if random.one_in(3) { escaped } else { name })?)
}

/// Writes title and author. One title in forty has an escape that is none.
fn write_author(text: &mut JsonText, random: &mut Random) -> Result<(), Fault> {
    write_name(text, random, "title", "titl\\u0065")?;
    let title = if random.one_in(40) {
        "\\q"
    } else {
        marked_word(random.next())
    };
    text.string(title)?;
    write_name(text, random, "作者", "\\u4f5c\\u8005")?;
    Ok(text.string(marked_word(random.next()))?)
}

fn write_grade(text: &mut JsonText, random: &mut Random) -> Result<(), Fault> {
    write_name(text, random, "grade", "gra\\u0064e")?;
    text.signed_whole(random, 1_000_000)?;
    write_name(text, random, "größe", "gr\\u00f6\\u00dfe")?;
    Ok(text.signed_decimal(random, 100_000_000)?)
}

fn write_languages(text: &mut JsonText, random: &mut Random) -> Result<(), Fault> {
    text.name("languages")?;
    text.open("{")?;
    let first = random.next();
    for place in 0..random.below(6) {
        text.string_member(
            marked_word(first.wrapping_add(place)),
            marked_word(random.next()),
        )?;
    }
    Ok(text.close("}")?)
}

/// Writes paragraphs, or a table.
fn write_body(text: &mut JsonText, random: &mut Random) -> Result<(), Fault> {
    if random.one_in(2) {
        text.name("paragraphs")?;
        text.open("[")?;
        for _ in 0..random.below(3) {
            text.words(random, 12)?;
        }
        Ok(text.close("]")?)
    } else {
        text.name("columns")?;
        text.word_list(random, 3)?;
        text.name("rows")?;
        write_rows(text, random)
    }
}

fn write_rows(text: &mut JsonText, random: &mut Random) -> Result<(), Fault> {
    text.open("[")?;
    for _ in 0..random.below(4) {
        text.open("[")?;
        for _ in 0..3 {
            text.signed_whole(random, 10_000)?;
        }
        text.close("]")?;
    }
    Ok(text.close("]")?)
}
