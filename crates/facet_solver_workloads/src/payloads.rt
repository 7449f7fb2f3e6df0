//! Messages of many types, each with a payload of another shape under the same key.

use crate::choices::{Builder, schema};
use crate::digest::Digest;
use crate::fault::Fault;
use crate::job::Job;
use crate::random::Random;
use crate::reads::Readable;
use crate::records::{Contents, Look, Record, fields, records};
use crate::results::add_key_result;
use crate::types::{Tagging, Types};
use crate::words::numbered;
use facet_solver::{FieldKey, Schema, Solver};
use std::alloc::Global;

/// The key of each payload.
const PAYLOAD: &str = "payload";

/// How many groups of messages there are, each with a key of its own.
const GROUPS: u64 = 6;

/// The types of messages.
#[derive(Drop)]
struct Messages {
    readable: Readable,
    records: Vec<Record>,
    groups: Vec<String>,
}

/// Tells the keys of messages of 60 types.
pub fn tell_payloads(job: &mut Job) -> Result<(), Fault> {
    let messages = make_messages(job.alloc, job.scaled(60).max(GROUPS))?;
    let rounds = job.count.wrapping_mul(job.scaled(10_000));
    tell_some(job, &messages, rounds)
}

/// Tells the keys of messages of `count` types, `size` times.
pub fn sample(job: &mut Job) -> Result<(), Fault> {
    let messages = make_messages(job.alloc, job.count)?;
    let rounds = job.size();
    tell_some(job, &messages, rounds)
}

fn tell_some(job: &mut Job, messages: &Messages, rounds: u64) -> Result<(), Fault> {
    let schema = schema(job.alloc, &messages.readable, Builder::Auto)?;
    let mut digest = Digest::new();
    for _ in 0..rounds {
        tell(job.alloc, &schema, messages, &mut job.random, &mut digest)?;
    }
    job.tell("payloads", digest)
}

fn make_messages(alloc: Global, count: u64) -> Result<Messages, Fault> {
    let look = Look {
        variants: count,
        least: 2,
        spread: 3,
        kinds: 3,
        sparse: 0,
    };
    let records = records(alloc, "message", look)?;
    let readable = message_type(alloc, &records)?;
    let mut groups = Vec::new(alloc);
    for number in 0..GROUPS {
        groups.push(numbered(alloc, "group", number)?)?;
    }
    Ok(Messages {
        readable,
        records,
        groups,
    })
}

/// An enum with a variant for each record: its group, a name of its own, and the record under the
/// key of the payload.
fn message_type(alloc: Global, records: &[Record]) -> Result<Readable, Fault> {
    let mut types = Types::new(alloc);
    let contents = Contents::new(&mut types)?;
    let mut variants = Vec::new(alloc);
    for (index, record) in records.iter().enumerate() {
        let group = numbered(alloc, "group", index as u64 % GROUPS)?;
        let payload = fields(alloc, &types, &contents, record)?;
        let payload = types.structure(record.name.as_str(), payload)?;
        let mut fields = types.fields(&[(PAYLOAD, payload)])?;
        fields.push(types.field(group.as_str(), contents.text)?)?;
        fields.push(types.field(record.name.as_str(), contents.whole)?)?;
        variants.push(types.variant(record.name.as_str(), fields)?)?;
    }
    let root = types.enumeration("Message", variants, Tagging::Untagged)?;
    let shapes = types.catalogue()?;
    Ok(Readable { shapes, root })
}

/// The key of the group at an index.
fn group_at(groups: &[String], index: usize) -> Result<&str, Fault> {
    match groups.get((index as u64 % GROUPS) as usize) {
        Some(group) => Ok(group.as_str()),
        None => Err(Fault::Type),
    }
}

/// Tells a new solver the payload, with all types left, then a group, and the payload again, with
/// those of the group left, and last the name of a type. One in twenty is of another group.
fn tell(
    alloc: Global,
    schema: &Schema<'_>,
    messages: &Messages,
    random: &mut Random,
    digest: &mut Digest,
) -> Result<(), Fault> {
    let index = random.index(messages.records.len());
    let record = messages.records.get(index).ok_or(Fault::Type)?;
    let place = index.wrapping_add(usize::from(random.one_in(20)));
    let group = group_at(&messages.groups, place)?;
    let mut solver = Solver::new(alloc, schema)?;
    for name in [PAYLOAD, group, PAYLOAD, record.name.as_str()] {
        add_key_result(digest, &solver.see_key(alloc, FieldKey::flat(name))?);
    }
    match solver.finish(alloc) {
        Ok(handle) => {
            digest.number(handle.index());
            digest.count_answer();
            Ok(())
        }
        Err(error) => digest.refusal(&error),
    }
}
