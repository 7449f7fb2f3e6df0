//! Small objects of which the nested keys tell the choice, event by event.

use crate::choices::{Builder, schema, some_name, strange_names};
use crate::digest::Digest;
use crate::fault::Fault;
use crate::inputs::{DRAWS, Inputs};
use crate::job::Job;
use crate::keys::some_flaw;
use crate::random::Random;
use crate::reads::Readable;
use crate::records::{
    Content, Contents, Flaw, Look, Member, Record, fields, records, some_record, twin,
};
use crate::types::{Tagging, Types};
use crate::words::numbered;
use facet_solver::{Schema, ShapeId};
use facet_solver_uses::stream::{Event, Unread, stream};
use std::alloc::Global;

const LOOK: Look = Look {
    variants: 8,
    least: 3,
    spread: 4,
    kinds: 3,
    sparse: 4,
};

/// How many texts there are that members hold.
const TEXTS: u64 = 1_000;

/// The shapes that values fit. A text also fits an option of one.
#[derive(Clone, Copy)]
struct Fits {
    text: [ShapeId; 2],
    whole: [ShapeId; 1],
    truth: [ShapeId; 1],
}

/// What objects are made of: variants with their settings, names that none has, texts, and the
/// shapes that values fit.
#[derive(Drop)]
struct Parts {
    alloc: Global,
    records: Vec<Record>,
    strange: Vec<String>,
    texts: Vec<String>,
    fits: Fits,
}

/// A place in an object.
#[derive(Clone, Copy)]
enum Place {
    Id,
    Settings,
    Region,
}

/// Reads the events of some objects.
pub fn tell_nested(job: &mut Job) -> Result<(), Fault> {
    let records = records(job.alloc, "setting", LOOK)?;
    let mut types = Types::new(job.alloc);
    let contents = Contents::new(&mut types)?;
    let root = add_targets(job.alloc, &mut types, &contents, &records)?;
    let shapes = types.catalogue()?;
    let readable = Readable { shapes, root };
    let schema = schema(job.alloc, &readable, Builder::Auto)?;
    let parts = Parts {
        alloc: job.alloc,
        records,
        strange: strange_names(job.alloc)?,
        texts: texts(job.alloc)?,
        fits: Fits {
            text: [contents.text, contents.optional],
            whole: [contents.whole],
            truth: [contents.truth],
        },
    };
    let mut digest = Digest::new();
    let mut inputs = Inputs::new(job.alloc)?;
    for _ in 0..job.count {
        let events = new_events(&mut job.random, &mut inputs, &parts)?;
        read_events(job.alloc, &schema, &events, &mut digest)?;
    }
    job.tell("nested keys", digest)
}

fn texts(alloc: Global) -> Result<Vec<String>, Fault> {
    let mut texts = Vec::new(alloc);
    for number in 0..TEXTS {
        texts.push(numbered(alloc, "text", number)?)?;
    }
    Ok(texts)
}

/// A struct with an enum of which each variant has its settings under the same name.
fn add_targets(
    alloc: Global,
    types: &mut Types,
    contents: &Contents,
    records: &[Record],
) -> Result<ShapeId, Fault> {
    let mut variants = Vec::new(alloc);
    for record in records {
        let settings = fields(alloc, types, contents, record)?;
        let settings = types.structure(record.name.as_str(), settings)?;
        let fields = types.fields(&[("region", contents.text), ("settings", settings)])?;
        variants.push(types.variant(record.name.as_str(), fields)?)?;
    }
    let target = types.enumeration("Target", variants, Tagging::Untagged)?;
    let mut fields = types.fields(&[("id", contents.text)])?;
    fields.push(types.flattened("target", target)?)?;
    types.structure("Deployment", fields)
}

/// Events with names in an order as no object before had them.
fn new_events<'d>(
    random: &mut Random,
    inputs: &mut Inputs,
    parts: &'d Parts,
) -> Result<Vec<Event<'d, 'd>>, Fault> {
    for _ in 0..DRAWS {
        let events = target_events(random, parts)?;
        if inputs.is_new(&events_digest(&events)) {
            return Ok(events);
        }
    }
    Err(Fault::Repeated)
}

/// The digest of the names of events and of what they are, in their order.
fn events_digest(events: &[Event<'_, '_>]) -> Digest {
    let mut digest = Digest::new();
    for event in events {
        match event {
            Event::Key(name) => digest.name(name),
            Event::Text(..) => digest.number(4),
            Event::Object | Event::List => digest.number(1),
            Event::Scalar(_) => digest.number(2),
            Event::End => digest.number(3),
        }
    }
    digest
}

fn target_events<'d>(random: &mut Random, parts: &'d Parts) -> Result<Vec<Event<'d, 'd>>, Fault> {
    let flaw = some_flaw(random);
    let mut places = [Place::Id, Place::Settings, Place::Region];
    random.shuffle(&mut places);
    let mut events: Vec<Event<'d, 'd>> = Vec::new(parts.alloc);
    add(&mut events, Event::Object)?;
    for place in places {
        match place {
            Place::Id => add_member(&mut events, random, "id", Content::Text, parts)?,
            Place::Settings => add_settings(&mut events, random, flaw, parts)?,
            Place::Region if flaw == Flaw::Missing => {}
            Place::Region => add_member(&mut events, random, "region", Content::Text, parts)?,
        }
    }
    add(&mut events, Event::End)?;
    Ok(events)
}

/// Adds the settings of some variant, or where the flaw is in its tag, settings that two have.
fn add_settings<'d>(
    events: &mut Vec<Event<'d, 'd>>,
    random: &mut Random,
    flaw: Flaw,
    parts: &'d Parts,
) -> Result<(), Fault> {
    let record = match flaw {
        Flaw::Tag => twin(&parts.records),
        _ => some_record(&parts.records, random),
    };
    add(events, Event::Key("settings"))?;
    add(events, Event::Object)?;
    if flaw == Flaw::Unknown
        && let Some(name) = some_name(random, &parts.strange)
    {
        add_member(events, random, name, Content::Text, parts)?;
    }
    if let Some(record) = record {
        for member in &some_members(parts.alloc, random, record)? {
            add_member(events, random, member.name.as_str(), member.content, parts)?;
        }
    }
    add(events, Event::End)
}

/// The members of a record, about half of those that documents may lack among them, in some order.
fn some_members<'d>(
    alloc: Global,
    random: &mut Random,
    record: &'d Record,
) -> Result<Vec<&'d Member>, Fault> {
    let mut members = Vec::new(alloc);
    for member in &record.members {
        members.push(member)?;
    }
    for member in &record.sparse {
        if random.one_in(2) {
            members.push(member)?;
        }
    }
    random.shuffle(&mut members);
    Ok(members)
}

fn add<'d>(events: &mut Vec<Event<'d, 'd>>, event: Event<'d, 'd>) -> Result<(), Fault> {
    Ok(events.push(event)?)
}

fn add_member<'d>(
    events: &mut Vec<Event<'d, 'd>>,
    random: &mut Random,
    name: &'d str,
    content: Content,
    parts: &'d Parts,
) -> Result<(), Fault> {
    add(events, Event::Key(name))?;
    let text = some_name(random, &parts.texts).unwrap_or(name);
    let value = match content {
        Content::Whole => Event::Scalar(&parts.fits.whole),
        Content::Truth => Event::Scalar(&parts.fits.truth),
        _ => Event::Text(text, &parts.fits.text),
    };
    add(events, value)
}

fn read_events(
    alloc: Global,
    schema: &Schema<'_>,
    events: &[Event<'_, '_>],
    digest: &mut Digest,
) -> Result<(), Fault> {
    match stream(alloc, schema, events) {
        Ok(handle) => {
            digest.number(handle.index());
            digest.count_answer();
            Ok(())
        }
        Err(Unread::Misplaced(index)) => {
            digest.count_refusal();
            digest.number(index);
            Ok(())
        }
        Err(Unread::Unfinished) => {
            digest.count_refusal();
            digest.name("unfinished");
            Ok(())
        }
        Err(Unread::Solver(error)) => digest.refusal(&error),
    }
}
