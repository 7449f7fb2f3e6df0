//! Documents that nest deep, where each level may be read as two variants.

use crate::digest::Digest;
use crate::fault::Fault;
use crate::job::Job;
use crate::json_text::JsonText;
use crate::random::Random;
use crate::reads::{Readable, read};
use crate::types::{Tagging, Types};
use facet_solver::{ScalarType, ShapeKind, StructKind, Variant};
use facet_solver_reader::Unknown;
use std::alloc::Global;

/// Reads lists in lists, which are none or several, and objects in objects, which are one.
pub fn read_deep(job: &mut Job) -> Result<(), Fault> {
    let lists = lists(job.alloc)?;
    let lists = lists.reader(job.alloc, Unknown::Ignored)?;
    let links = links(job.alloc)?;
    let links = links.reader(job.alloc, Unknown::Ignored)?;
    let mut digest = Digest::new();
    let mut text = JsonText::new(job.alloc);
    for _ in 0..job.count.wrapping_mul(job.scaled(200)) {
        text.clear();
        write_lists(&mut text, &mut job.random)?;
        read(job.alloc, &lists, text.as_str(), &mut digest)?;
        text.clear();
        write_links(&mut text, &mut job.random)?;
        read(job.alloc, &links, text.as_str(), &mut digest)?;
    }
    job.tell("deep", digest)
}

/// `enum Nested { First(Vec<Nested>), Second(Vec<Nested>), Number(u8) }`
fn lists(alloc: Global) -> Result<Readable, Fault> {
    let mut types = Types::new(alloc);
    let number = types.kind("u8", ShapeKind::Scalar(ScalarType::U8))?;
    let itself = types.ahead(1);
    let list = types.list(itself)?;
    let mut variants = Vec::new(alloc);
    for (name, of) in [("First", list), ("Second", list), ("Number", number)] {
        let fields = types.fields(&[("0", of)])?;
        let name = String::from_str(alloc, name)?;
        variants.push(Variant::new(name, StructKind::TupleStruct, fields))?;
    }
    let root = types.enumeration("Nested", variants, Tagging::Untagged)?;
    let shapes = types.catalogue()?;
    Ok(Readable { shapes, root })
}

/// `enum Link { First { x: u64, next: Option<Box<Link>> }, Second { y: u64, next: .. } }`
fn links(alloc: Global) -> Result<Readable, Fault> {
    let mut types = Types::new(alloc);
    let number = types.whole()?;
    let itself = types.ahead(2);
    let pointer = types.kind("Box", ShapeKind::Pointer(Some(itself)))?;
    let next = types.option(pointer)?;
    let mut variants = Vec::new(alloc);
    for (name, own) in [("First", "x"), ("Second", "y")] {
        let fields = types.fields(&[(own, number), ("next", next)])?;
        variants.push(types.variant(name, fields)?)?;
    }
    let root = types.enumeration("Link", variants, Tagging::Untagged)?;
    let shapes = types.catalogue()?;
    Ok(Readable { shapes, root })
}

fn write_lists(text: &mut JsonText, random: &mut Random) -> Result<(), Fault> {
    let depth = random.below(20).wrapping_add(90);
    for _ in 0..depth {
        text.open("[")?;
        for _ in 0..random.below(3) {
            text.whole(random.below(255))?;
        }
    }
    text.whole(random.below(300))?;
    for _ in 0..depth {
        text.close("]")?;
    }
    Ok(())
}

fn write_links(text: &mut JsonText, random: &mut Random) -> Result<(), Fault> {
    let depth = random.below(20).wrapping_add(90);
    for _ in 0..depth {
        text.open("{")?;
        text.whole_member(
            if random.one_in(2) { "x" } else { "y" },
            random.below(1_000),
        )?;
        text.name("next")?;
    }
    text.raw("null")?;
    for _ in 0..depth {
        text.close("}")?;
    }
    Ok(())
}
