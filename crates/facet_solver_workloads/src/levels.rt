//! Documents that nest deeper than texts may, made in memory, and read once.
//!
//! They are made and taken apart level by level, without recursion. So the stack that is used is
//! that of the reading.

use crate::digest::Digest;
use crate::fault::Fault;
use crate::job::Job;
use crate::reads::Readable;
use crate::types::Types;
use crate::words::numbered;
use facet_solver::{Field, ShapeKind};
use facet_solver_reader::{Document, Number, Reader, Reading, ReadingKind, Unknown};
use std::alloc::Global;

/// The name under which each level has the next.
const NEXT: &str = "next";

/// Reads a document of `count` levels as a struct with a few fields.
pub fn sample_levels(job: &mut Job) -> Result<(), Fault> {
    let mut types = Types::new(job.alloc);
    let text = types.text()?;
    let whole = types.whole()?;
    let fields = types.fields(&[("name", text), ("number", whole)])?;
    let readable = nested(job.alloc, types, fields)?;
    read_nested(job, "levels", &readable, true)
}

/// Reads a document of `count` levels as a struct with `size` optional blocks, of which it has none.
pub fn sample_parts(job: &mut Job) -> Result<(), Fault> {
    let mut types = Types::new(job.alloc);
    let whole = types.whole()?;
    let optional = types.option(whole)?;
    let mut fields = Vec::new(job.alloc);
    for number in 0..job.size() {
        let name = numbered(job.alloc, "block", number)?;
        let size = numbered(job.alloc, "size", number)?;
        let unit = numbered(job.alloc, "unit", number)?;
        let mut members = types.fields(&[(size.as_str(), whole)])?;
        if number % 2 == 0 {
            members.push(types.field(unit.as_str(), optional)?)?;
        }
        let block = types.structure(name.as_str(), members)?;
        let block = types.option(block)?;
        fields.push(types.flattened(name.as_str(), block)?)?;
    }
    let readable = nested(job.alloc, types, fields)?;
    read_nested(job, "parts", &readable, false)
}

/// The struct of some fields that may have another one of its kind in it.
fn nested(alloc: Global, mut types: Types, mut fields: Vec<Field>) -> Result<Readable, Fault> {
    let itself = types.ahead(2);
    let pointer = types.kind("Box", ShapeKind::Pointer(Some(itself)))?;
    let next = types.option(pointer)?;
    fields.push(Field::new(String::from_str(alloc, NEXT)?, next))?;
    let root = types.structure("Level", fields)?;
    let shapes = types.catalogue()?;
    Ok(Readable { shapes, root })
}

fn read_nested(
    job: &mut Job,
    part: &str,
    readable: &Readable,
    has_members: bool,
) -> Result<(), Fault> {
    let reader = readable.reader(job.alloc, Unknown::Refused)?;
    let mut document = nest(job.alloc, job.count, has_members)?;
    let mut digest = Digest::new();
    read_levels(job.alloc, &reader, &document, job.count, &mut digest)?;
    for _ in 0..job.count {
        document = within(document);
    }
    job.tell(part, digest)
}

/// A document of so many levels, the innermost first.
fn nest(alloc: Global, levels: u64, has_members: bool) -> Result<Document<'static>, Fault> {
    let mut document = Document::Null;
    for _ in 0..levels {
        let mut members = Vec::new(alloc);
        if has_members {
            members.push(("name", Document::Text("level")))?;
            members.push(("number", Document::Number(Number::new("7"))))?;
        }
        members.push((NEXT, document))?;
        document = Document::Object(members);
    }
    Ok(document)
}

/// What stands in the last member of an object.
fn within(document: Document<'static>) -> Document<'static> {
    match document {
        Document::Object(mut members) => match members.pop() {
            Some((_, value)) => value,
            None => Document::Null,
        },
        other => other,
    }
}

/// Reads a document, and adds how many fields each level of its reading has, which is taken apart.
fn read_levels(
    alloc: Global,
    reader: &Reader<'_>,
    document: &Document<'_>,
    levels: u64,
    digest: &mut Digest,
) -> Result<(), Fault> {
    match reader.read(alloc, document) {
        Ok(mut reading) => {
            digest.count_answer();
            for _ in 0..levels {
                reading = last_value(reading, digest).ok_or(Fault::Type)?;
            }
            Ok(())
        }
        Err(error) => digest.refusal(&error),
    }
}

/// The value of the last field of an object's reading, of which the number of fields is added.
fn last_value<'c, 'v, 'd>(
    reading: Reading<'c, 'v, 'd>,
    digest: &mut Digest,
) -> Option<Reading<'c, 'v, 'd>> {
    let Reading {
        variants: _variants,
        kind,
    } = reading;
    match kind {
        ReadingKind::Object {
            object,
            mut values,
            ..
        } => {
            digest.number(object.fields.len());
            values.pop()
        }
        _ => None,
    }
}
