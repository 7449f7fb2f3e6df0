//! Variants that share many optional names, and have one each of their own.

use crate::digest::Digest;
use crate::fault::Fault;
use crate::job::Job;
use crate::json_text::JsonText;
use crate::random::Random;
use crate::reads::{Readable, read};
use crate::types::{Tagging, Types};
use crate::words::numbered;
use facet_solver_reader::Unknown;
use std::alloc::Global;

/// Where the members that a variant alone has stand among the others.
#[derive(Clone, Copy)]
enum Own {
    First,
    Last,
    Anywhere,
    Nowhere,
    /// Two variants have one each, so there is no reading.
    Twice,
}

static PLACES: [Own; 5] = [
    Own::First,
    Own::Last,
    Own::Anywhere,
    Own::Nowhere,
    Own::Twice,
];

/// Reads documents of 100 variants over 100 names.
pub fn read_branches(job: &mut Job) -> Result<(), Fault> {
    let (variants, names) = (job.scaled(100).max(2), job.scaled(100).max(4));
    read_some(job, variants, names, job.count)
}

/// Reads one document of each kind, of `count` variants over `size` names.
pub fn sample(job: &mut Job) -> Result<(), Fault> {
    read_some(job, job.count, job.size(), 1)
}

fn read_some(job: &mut Job, variants: u64, names: u64, rounds: u64) -> Result<(), Fault> {
    let readable = branches(job.alloc, variants, names)?;
    let reader = readable.reader(job.alloc, Unknown::Refused)?;
    let mut digest = Digest::new();
    let mut text = JsonText::new(job.alloc);
    for _ in 0..rounds {
        for own in PLACES {
            text.clear();
            write_branch(&mut text, &mut job.random, own, variants, names)?;
            read(job.alloc, &reader, text.as_str(), &mut digest)?;
        }
    }
    job.tell("branches", digest)
}

/// An enum of variants `{ shared: Option<Shared>, own_7: Option<u64> }`, the first of them
/// flattened.
fn branches(alloc: Global, variants: u64, names: u64) -> Result<Readable, Fault> {
    let mut types = Types::new(alloc);
    let whole = types.whole()?;
    let whole = types.option(whole)?;
    let mut fields = Vec::new(alloc);
    for number in 0..names {
        let name = numbered(alloc, "shared", number)?;
        fields.push(types.field(name.as_str(), whole)?)?;
    }
    let shared = types.structure("Shared", fields)?;
    let shared = types.option(shared)?;
    let mut made = Vec::new(alloc);
    for number in 0..variants {
        let name = numbered(alloc, "own", number)?;
        let mut fields = types.fields(&[(name.as_str(), whole)])?;
        fields.push(types.flattened("shared", shared)?)?;
        made.push(types.variant(name.as_str(), fields)?)?;
    }
    let root = types.enumeration("Branch", made, Tagging::Untagged)?;
    let shapes = types.catalogue()?;
    Ok(Readable { shapes, root })
}

/// Writes a document that has all shared names but three.
fn write_branch(
    text: &mut JsonText,
    random: &mut Random,
    own: Own,
    variants: u64,
    names: u64,
) -> Result<(), Fault> {
    let variant = random.below(variants);
    let shared = names.saturating_sub(3);
    let place = match own {
        Own::First | Own::Twice => Some(0),
        Own::Last => Some(shared),
        Own::Anywhere => Some(random.below(shared)),
        Own::Nowhere => None,
    };
    text.open("{")?;
    for number in 0..=shared {
        if place == Some(number) {
            text.numbered_member("own", variant, random.below(1_000))?;
        }
        if number < shared {
            text.numbered_member("shared", number, random.below(1_000))?;
        }
    }
    if let Own::Twice = own {
        let other = variant.wrapping_add(1).checked_rem(variants).unwrap_or(0);
        text.numbered_member("own", other, random.below(1_000))?;
    }
    Ok(text.close("}")?)
}
