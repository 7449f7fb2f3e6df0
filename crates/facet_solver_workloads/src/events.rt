//! Many small documents by one reader: events that a service is told by others.

use crate::digest::Digest;
use crate::fault::Fault;
use crate::job::Job;
use crate::json_text::JsonText;
use crate::random::Random;
use crate::reads::{Readable, read};
use crate::records::{
    Contents, Flaw, Look, Record, add_enum, records, some_record, twin, write_record,
};
use crate::types::{Tagging, Types};
use facet_solver_reader::Unknown;
use std::alloc::Global;

/// Reads some events of each of three types.
pub fn run(job: &mut Job) -> Result<(), Fault> {
    let (many, some, few) = (job.scaled(200), job.scaled(60), job.scaled(20));
    read_events(job, "events by a tag", Tagging::Internal("event"), many)?;
    let adjacent = Tagging::Adjacent("event", "payload");
    read_events(job, "events by a tag and content", adjacent, some)?;
    read_events(job, "events without a tag", Tagging::Untagged, few)
}

fn read_events(job: &mut Job, part: &str, tagging: Tagging, variants: u64) -> Result<(), Fault> {
    let look = Look {
        variants,
        least: 6,
        spread: 12,
        kinds: 7,
        sparse: 0,
    };
    let records = records(job.alloc, "event", look)?;
    let readable = event_type(job.alloc, &records, tagging)?;
    let unknown = match tagging {
        Tagging::Internal(_) => Unknown::Ignored,
        _ => Unknown::Refused,
    };
    let reader = readable.reader(job.alloc, unknown)?;
    let mut digest = Digest::new();
    let mut text = JsonText::new(job.alloc);
    for _ in 0..job.count {
        text.clear();
        write_event(&mut text, &mut job.random, &records, tagging)?;
        read(job.alloc, &reader, text.as_str(), &mut digest)?;
    }
    job.tell(part, digest)
}

fn event_type(alloc: Global, records: &[Record], tagging: Tagging) -> Result<Readable, Fault> {
    let mut types = Types::new(alloc);
    let contents = Contents::new(&mut types)?;
    let root = add_enum(alloc, &mut types, &contents, "Event", records, tagging)?;
    let shapes = types.catalogue()?;
    Ok(Readable { shapes, root })
}

/// Writes an event. One in ten is none of the type, or several.
fn write_event(
    text: &mut JsonText,
    random: &mut Random,
    records: &[Record],
    tagging: Tagging,
) -> Result<(), Fault> {
    let flaw = match random.below(40) {
        0 => Flaw::Value,
        1 => Flaw::Missing,
        2 => Flaw::Unknown,
        3 => Flaw::Tag,
        _ => Flaw::None,
    };
    let record = match (flaw, tagging) {
        (Flaw::Tag, Tagging::Untagged) => twin(records),
        _ => some_record(records, random),
    };
    match record {
        Some(record) => write_record(text, random, record, tagging, flaw),
        None => Ok(()),
    }
}
