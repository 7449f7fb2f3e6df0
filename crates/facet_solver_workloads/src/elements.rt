//! Elements of a tree of markup: attributes, child elements and texts.

use crate::choices::{Builder, schema};
use crate::digest::Digest;
use crate::fault::Fault;
use crate::job::Job;
use crate::random::Random;
use crate::reads::Readable;
use crate::records::{Contents, Look, Record, fields, records, some_record};
use crate::results::add_key_result;
use crate::types::{Tagging, Types};
use facet_solver::{DomMark, Field, Schema, Solver};
use std::alloc::Global;

const LOOK: Look = Look {
    variants: 24,
    least: 4,
    spread: 4,
    kinds: 1,
    sparse: 0,
};

/// What the member at an index stands in: every third one is an attribute, and of variants with
/// seven members the last is the text.
fn mark(index: usize) -> DomMark {
    match index {
        6 => DomMark::Text,
        _ if index % 3 == 0 => DomMark::Attribute,
        _ => DomMark::Element,
    }
}

/// Tells the parts of some elements.
pub fn tell_elements(job: &mut Job) -> Result<(), Fault> {
    let records = records(job.alloc, "node", LOOK)?;
    let readable = nodes(job.alloc, &records)?;
    let schema = schema(job.alloc, &readable, Builder::Dom)?;
    let mut digest = Digest::new();
    for _ in 0..job.count.wrapping_mul(job.scaled(40_000)) {
        tell(job.alloc, &schema, &records, &mut job.random, &mut digest)?;
    }
    job.tell("elements", digest)
}

fn nodes(alloc: Global, records: &[Record]) -> Result<Readable, Fault> {
    let mut types = Types::new(alloc);
    let contents = Contents::new(&mut types)?;
    let mut variants = Vec::new(alloc);
    for record in records {
        let mut fields = fields(alloc, &types, &contents, record)?;
        mark_all(&mut fields);
        variants.push(types.variant(record.name.as_str(), fields)?)?;
    }
    let kind = types.enumeration("Kind", variants, Tagging::Untagged)?;
    let mut id = types.field("id", contents.text)?;
    id.dom = DomMark::Attribute;
    let label = types.field("label", contents.text)?;
    let kind = types.flattened("kind", kind)?;
    let root = types.structure("Node", vec![in alloc; id, label, kind]?)?;
    let shapes = types.catalogue()?;
    Ok(Readable { shapes, root })
}

fn mark_all(fields: &mut [Field]) {
    for (index, field) in fields.iter_mut().enumerate() {
        field.dom = mark(index);
    }
}

/// Tells an element: attributes first, then elements and text. One in twenty lacks its label.
fn tell(
    alloc: Global,
    schema: &Schema<'_>,
    records: &[Record],
    random: &mut Random,
    digest: &mut Digest,
) -> Result<(), Fault> {
    let record = some_record(records, random).ok_or(Fault::Type)?;
    let mut solver = Solver::new(alloc, schema)?;
    add_key_result(digest, &solver.see_attribute(alloc, "id")?);
    for (index, member) in record.members.iter().enumerate() {
        if mark(index) == DomMark::Attribute {
            add_key_result(digest, &solver.see_attribute(alloc, &member.name)?);
        }
    }
    if !random.one_in(20) {
        add_key_result(digest, &solver.see_element(alloc, "label")?);
    }
    for (index, member) in record.members.iter().enumerate() {
        match mark(index) {
            DomMark::Element => add_key_result(digest, &solver.see_element(alloc, &member.name)?),
            DomMark::Text => add_key_result(digest, &solver.see_text(alloc)?),
            _ => {}
        }
    }
    match solver.finish(alloc) {
        Ok(handle) => {
            digest.number(handle.index());
            digest.count_answer();
            Ok(())
        }
        Err(error) => digest.refusal(&error),
    }
}
