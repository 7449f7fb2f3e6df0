//! Large documents, each read as a type.

use crate::digest::Digest;
use crate::fault::Fault;
use crate::features::{features, write_features};
use crate::job::Job;
use crate::json_text::JsonText;
use crate::random::Random;
use crate::reads::{Readable, read};
use crate::records::{Contents, Flaw, Look, Record, add_enum, records, some_record, write_record};
use crate::services::{services, write_services};
use crate::types::{Tagging, Types};
use facet_solver_reader::Unknown;
use std::alloc::Global;

/// How events of a log look.
const EVENTS: Look = Look {
    variants: 12,
    least: 2,
    spread: 5,
    kinds: 5,
    sparse: 0,
};

/// Reads some documents of each kind.
pub fn run(job: &mut Job) -> Result<(), Fault> {
    read_features(job)?;
    read_services(job)?;
    let count = job.scaled(25_000);
    read_log(job, "log by a tag", Tagging::Internal("kind"), count)?;
    let adjacent = Tagging::Adjacent("kind", "data");
    read_log(job, "log by a tag and content", adjacent, count)
}

fn read_features(job: &mut Job) -> Result<(), Fault> {
    let readable = features(job.alloc)?;
    let reader = readable.reader(job.alloc, Unknown::Ignored)?;
    let mut digest = Digest::new();
    for _ in 0..job.count {
        let mut text = JsonText::new(job.alloc);
        let count = job.scaled(10_000);
        write_features(&mut text, &mut job.random, count)?;
        read(job.alloc, &reader, text.as_str(), &mut digest)?;
    }
    job.tell("features", digest)
}

fn read_services(job: &mut Job) -> Result<(), Fault> {
    let (readable, sources) = services(job.alloc)?;
    let reader = readable.reader(job.alloc, Unknown::Refused)?;
    let mut digest = Digest::new();
    for _ in 0..job.count {
        let mut text = JsonText::indented(job.alloc);
        let count = job.scaled(3_000);
        write_services(&mut text, &mut job.random, &sources, count)?;
        read(job.alloc, &reader, text.as_str(), &mut digest)?;
    }
    job.tell("services", digest)
}

/// Reads some logs of so many events.
pub fn read_log(job: &mut Job, part: &str, tagging: Tagging, count: u64) -> Result<(), Fault> {
    let events = records(job.alloc, "log", EVENTS)?;
    let readable = log(job.alloc, &events, tagging)?;
    let reader = readable.reader(job.alloc, Unknown::Ignored)?;
    let mut digest = Digest::new();
    for _ in 0..job.count {
        let mut text = JsonText::new(job.alloc);
        write_log(&mut text, &mut job.random, &events, tagging, count)?;
        read(job.alloc, &reader, text.as_str(), &mut digest)?;
    }
    job.tell(part, digest)
}

fn log(alloc: Global, events: &[Record], tagging: Tagging) -> Result<Readable, Fault> {
    let mut types = Types::new(alloc);
    let contents = Contents::new(&mut types)?;
    let event = add_enum(alloc, &mut types, &contents, "Event", events, tagging)?;
    let root = types.list(event)?;
    let shapes = types.catalogue()?;
    Ok(Readable { shapes, root })
}

fn write_log(
    text: &mut JsonText,
    random: &mut Random,
    events: &[Record],
    tagging: Tagging,
    count: u64,
) -> Result<(), Fault> {
    text.open("[")?;
    for _ in 0..count {
        if let Some(event) = some_record(events, random) {
            write_record(text, random, event, tagging, Flaw::None)?;
        }
    }
    Ok(text.close("]")?)
}
