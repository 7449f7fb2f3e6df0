//! Variants that hold structs, each with members of its own.

use crate::digest::Digest;
use crate::fault::Fault;
use crate::job::Job;
use crate::json_text::JsonText;
use crate::random::Random;
use crate::reads::{Readable, read};
use crate::types::{Tagging, Types};
use crate::words::numbered;
use facet_solver::{StructKind, Variant};
use facet_solver_reader::Unknown;
use std::alloc::Global;

/// The member that all structs have.
const SHARED: &str = "id";

/// Reads a document of each of `count` variants, whose structs have `size` members of their own,
/// and one that lacks a member of each variant.
pub fn sample(job: &mut Job) -> Result<(), Fault> {
    let (variants, own) = (job.count, job.size());
    let readable = structs(job.alloc, variants, own)?;
    let reader = readable.reader(job.alloc, Unknown::Refused)?;
    let mut digest = Digest::new();
    let mut text = JsonText::new(job.alloc);
    for variant in 0..variants {
        let first = variant.wrapping_mul(own);
        text.clear();
        write_struct(&mut text, &mut job.random, first, own)?;
        read(job.alloc, &reader, text.as_str(), &mut digest)?;
    }
    text.clear();
    write_struct(&mut text, &mut job.random, 0, own.saturating_sub(1))?;
    read(job.alloc, &reader, text.as_str(), &mut digest)?;
    job.tell("structs", digest)
}

/// An enum of variants `Held(Struct)`, where the struct is `{ id: u64, own_20: u64, own_21: u64,
/// .. }`.
fn structs(alloc: Global, variants: u64, own: u64) -> Result<Readable, Fault> {
    let mut types = Types::new(alloc);
    let whole = types.whole()?;
    let mut made = Vec::new(alloc);
    for variant in 0..variants {
        let first = variant.wrapping_mul(own);
        let mut fields = types.fields(&[(SHARED, whole)])?;
        for number in first..first.saturating_add(own) {
            let name = numbered(alloc, "own", number)?;
            fields.push(types.field(name.as_str(), whole)?)?;
        }
        let name = numbered(alloc, "struct", variant)?;
        let held = types.structure(name.as_str(), fields)?;
        let fields = types.fields(&[("0", held)])?;
        let name = numbered(alloc, "held", variant)?;
        made.push(Variant::new(name, StructKind::TupleStruct, fields))?;
    }
    let root = types.enumeration("Held", made, Tagging::Untagged)?;
    let shapes = types.catalogue()?;
    Ok(Readable { shapes, root })
}

/// Writes a document with so many members of the numbers from `first` on.
fn write_struct(
    text: &mut JsonText,
    random: &mut Random,
    first: u64,
    own: u64,
) -> Result<(), Fault> {
    text.open("{")?;
    text.whole_member(SHARED, random.below(1_000))?;
    for number in first..first.saturating_add(own) {
        text.numbered_member("own", number, random.below(1_000))?;
    }
    Ok(text.close("}")?)
}
