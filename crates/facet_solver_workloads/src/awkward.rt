//! Documents and types that are hard.

use crate::catalogues::blocks;
use crate::choices::{Builder, make_choices, schema};
use crate::deep::read_deep;
use crate::digest::Digest;
use crate::fault::Fault;
use crate::job::Job;
use crate::json_text::JsonText;
use crate::random::Random;
use crate::reads::{Readable, read};
use crate::records::Look;
use crate::types::{Tagging, Types};
use crate::words::{numbered, word};
use facet_solver::{FieldKey, Schema, Solver};
use facet_solver_reader::Unknown;
use std::alloc::Global;

/// The beginning that long names share.
const LONG: &str = "configuration_of_the_service_in_the_region_of_the_customer";

/// Reads and solves what is hard.
pub fn run(job: &mut Job) -> Result<(), Fault> {
    solve_unnarrowed(job, "4,096 that fit", 0)?;
    solve_unnarrowed(job, "4,096 that fail", 2)?;
    read_caught(job)?;
    read_one_wrong(job)?;
    read_deep(job)?;
    read_blocks(job)?;
    read_long_names(job)
}

/// Solvers of 12 enums of 2 that are told no key of any variant.
fn solve_unnarrowed(job: &mut Job, part: &str, members: u64) -> Result<(), Fault> {
    let mut digest = Digest::new();
    for _ in 0..job.count {
        let look = Look {
            variants: 2,
            least: members,
            spread: 1,
            kinds: 3,
            sparse: 0,
        };
        let salt = job.random.below(1_000_000);
        let many = job.scaled(12).max(2);
        let of = make_choices(job.alloc, salt, many, look, Tagging::Untagged)?;
        let schema = schema(job.alloc, &of.readable, Builder::Auto)?;
        solve(job.alloc, &schema, &["id"], &mut digest)?;
        solve(job.alloc, &schema, &["id", "trace_context"], &mut digest)?;
    }
    job.tell(part, digest)
}

fn solve(
    alloc: Global,
    schema: &Schema<'_>,
    names: &[&str],
    digest: &mut Digest,
) -> Result<(), Fault> {
    let mut solver = Solver::new(alloc, schema)?;
    for name in names {
        solver.see_key(alloc, FieldKey::flat(name))?;
    }
    match solver.finish(alloc) {
        Ok(handle) => digest.answer(&handle.index()),
        Err(error) => digest.refusal(&error),
    }
}

/// Objects with very many members that a flattened map takes.
fn read_caught(job: &mut Job) -> Result<(), Fault> {
    let readable = caught(job.alloc)?;
    let reader = readable.reader(job.alloc, Unknown::Refused)?;
    let mut digest = Digest::new();
    for _ in 0..job.count {
        for is_falling in [true, false] {
            let mut order = Vec::new(job.alloc);
            let count = job.scaled(100_000);
            for number in 0..count {
                order.push(count.wrapping_sub(number))?;
            }
            if !is_falling {
                job.random.shuffle(&mut order);
            }
            let mut text = JsonText::new(job.alloc);
            write_caught(&mut text, &mut job.random, &order)?;
            read(job.alloc, &reader, text.as_str(), &mut digest)?;
        }
    }
    job.tell("one catch-all", digest)
}

fn caught(alloc: Global) -> Result<Readable, Fault> {
    let mut types = Types::new(alloc);
    let text = types.text()?;
    let whole = types.whole()?;
    let rest = types.map(text, whole)?;
    let mut fields = types.fields(&[("title", text)])?;
    fields.push(types.flattened("rest", rest)?)?;
    let root = types.structure("Counts", fields)?;
    let shapes = types.catalogue()?;
    Ok(Readable { shapes, root })
}

fn write_caught(text: &mut JsonText, random: &mut Random, order: &[u64]) -> Result<(), Fault> {
    text.open("{")?;
    text.string_member("title", "counts")?;
    for number in order {
        text.numbered_name("path", 1_000_000_u64.wrapping_add(*number))?;
        text.whole(random.below(1_000_000))?;
    }
    Ok(text.close("}")?)
}

/// A list of which one late record has a wrong value.
fn read_one_wrong(job: &mut Job) -> Result<(), Fault> {
    let readable = rows(job.alloc)?;
    let reader = readable.reader(job.alloc, Unknown::Ignored)?;
    let mut digest = Digest::new();
    for _ in 0..job.count {
        let mut text = JsonText::new(job.alloc);
        let (count, wrong) = (job.scaled(10_000), job.scaled(9_000));
        write_rows(&mut text, &mut job.random, count, wrong)?;
        read(job.alloc, &reader, text.as_str(), &mut digest)?;
    }
    job.tell("one wrong value", digest)
}

fn rows(alloc: Global) -> Result<Readable, Fault> {
    let mut types = Types::new(alloc);
    let text = types.text()?;
    let whole = types.whole()?;
    let truth = types.truth()?;
    let fields = types.fields(&[
        ("name", text),
        ("owner", text),
        ("amount", whole),
        ("is_open", truth),
        ("number", whole),
    ])?;
    let row = types.structure("Row", fields)?;
    let root = types.list(row)?;
    let shapes = types.catalogue()?;
    Ok(Readable { shapes, root })
}

fn write_rows(
    text: &mut JsonText,
    random: &mut Random,
    count: u64,
    wrong: u64,
) -> Result<(), Fault> {
    text.open("[")?;
    for number in 0..count {
        text.open("{")?;
        text.string_member("name", word(random.next()))?;
        text.string_member("owner", word(random.next()))?;
        text.whole_member("amount", random.below(1_000_000))?;
        text.name("is_open")?;
        text.truth(random.one_in(3))?;
        text.name("number")?;
        if number == wrong {
            text.string("unknown")?;
        } else {
            text.whole(number)?;
        }
        text.close("}")?;
    }
    Ok(text.close("]")?)
}

/// Objects of which few or all of 64 optional blocks are present.
fn read_blocks(job: &mut Job) -> Result<(), Fault> {
    let readable = blocks(job.alloc, 0, 64)?;
    let reader = readable.reader(job.alloc, Unknown::Ignored)?;
    let mut digest = Digest::new();
    let mut text = JsonText::new(job.alloc);
    for round in 0..job.count.wrapping_mul(job.scaled(1_000)) {
        text.clear();
        text.open("{")?;
        text.string_member("name", word(job.random.next()))?;
        let few = if round % 4 == 0 { 1 } else { 24 };
        for number in 0..64 {
            if job.random.one_in(few) {
                text.numbered_name("size", number)?;
                text.whole(job.random.below(1_000))?;
                text.numbered_name("unit", number)?;
                text.string(word(job.random.next()))?;
            }
        }
        text.close("}")?;
        read(job.alloc, &reader, text.as_str(), &mut digest)?;
    }
    job.tell("64 optional blocks", digest)
}

/// Objects whose names differ only at their end.
fn read_long_names(job: &mut Job) -> Result<(), Fault> {
    let mut names = Vec::new(job.alloc);
    for number in 0..200 {
        names.push(numbered(job.alloc, LONG, number)?)?;
    }
    let readable = long_names(job.alloc, &names)?;
    let reader = readable.reader(job.alloc, Unknown::Ignored)?;
    let schema = schema(job.alloc, &readable, Builder::Auto)?;
    let mut digest = Digest::new();
    let mut text = JsonText::new(job.alloc);
    for round in 0..job.count.wrapping_mul(job.scaled(200)) {
        let mut keys = Vec::new(job.alloc);
        for name in &names {
            keys.push(name.as_str())?;
        }
        job.random.shuffle(&mut keys);
        if round % 8 == 0 {
            drop(keys.pop());
        }
        text.clear();
        text.open("{")?;
        for key in &keys {
            text.whole_member(key, job.random.below(1_000))?;
        }
        text.close("}")?;
        read(job.alloc, &reader, text.as_str(), &mut digest)?;
        solve(job.alloc, &schema, &keys, &mut digest)?;
    }
    job.tell("long names", digest)
}

fn long_names(alloc: Global, names: &[String]) -> Result<Readable, Fault> {
    let mut types = Types::new(alloc);
    let whole = types.whole()?;
    let mut fields = Vec::new(alloc);
    for name in names {
        fields.push(types.field(name.as_str(), whole)?)?;
    }
    let root = types.structure("Configuration", fields)?;
    let shapes = types.catalogue()?;
    Ok(Readable { shapes, root })
}
