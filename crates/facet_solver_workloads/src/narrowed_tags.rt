//! Tags that are told to a solver which has been narrowed by other keys.

use crate::choices::{Builder, schema};
use crate::digest::Digest;
use crate::fault::Fault;
use crate::job::Job;
use crate::random::Random;
use crate::reads::Readable;
use crate::records::{Contents, Look, Record, add_enum, records, some_record};
use crate::types::{Tagging, Types};
use facet_solver::{FieldKey, Schema, Solver};
use std::alloc::Global;

/// The tag of the second enum.
const TAG: &str = "kind";

fn look(variants: u64) -> Look {
    Look {
        variants,
        least: 2,
        spread: 3,
        kinds: 3,
        sparse: 0,
    }
}

/// The variants of an enum without a tag, and of one with a tag.
#[derive(Drop)]
struct Enums {
    targets: Vec<Record>,
    actions: Vec<Record>,
}

/// Tells the keys of the one enum, then the tag of the other.
pub fn tell_narrowed(job: &mut Job) -> Result<(), Fault> {
    let enums = Enums {
        targets: records(job.alloc, "target", look(6))?,
        actions: records(job.alloc, "action", look(job.scaled(40).max(2)))?,
    };
    let readable = commands(job.alloc, &enums)?;
    let schema = schema(job.alloc, &readable, Builder::Auto)?;
    let mut digest = Digest::new();
    for _ in 0..job.count.wrapping_mul(job.scaled(40_000)) {
        tell(job.alloc, &schema, &enums, &mut job.random, &mut digest)?;
    }
    job.tell("narrowed tags", digest)
}

fn commands(alloc: Global, enums: &Enums) -> Result<Readable, Fault> {
    let mut types = Types::new(alloc);
    let contents = Contents::new(&mut types)?;
    let (untagged, tagged) = (Tagging::Untagged, Tagging::Internal(TAG));
    let target = add_enum(
        alloc,
        &mut types,
        &contents,
        "Target",
        &enums.targets,
        untagged,
    )?;
    let action = add_enum(
        alloc,
        &mut types,
        &contents,
        "Action",
        &enums.actions,
        tagged,
    )?;
    let mut fields = types.fields(&[("id", contents.text)])?;
    fields.push(types.flattened("target", target)?)?;
    fields.push(types.flattened("action", action)?)?;
    let root = types.structure("Command", fields)?;
    let shapes = types.catalogue()?;
    Ok(Readable { shapes, root })
}

/// Tells an object: the keys of its target, some of its action's, the tag, and the rest. One in ten
/// has the tag of another action.
fn tell(
    alloc: Global,
    schema: &Schema<'_>,
    enums: &Enums,
    random: &mut Random,
    digest: &mut Digest,
) -> Result<(), Fault> {
    let target = some_record(&enums.targets, random).ok_or(Fault::Type)?;
    let action = some_record(&enums.actions, random).ok_or(Fault::Type)?;
    let other = some_record(&enums.actions, random).ok_or(Fault::Type)?;
    let before = random.index(action.members.len());
    let mut solver = Solver::new(alloc, schema)?;
    solver.see_key(alloc, FieldKey::flat("id"))?;
    for member in &target.members {
        solver.see_key(alloc, FieldKey::flat(member.name.as_str()))?;
    }
    for member in action.members.iter().take(before) {
        solver.see_key(alloc, FieldKey::flat(member.name.as_str()))?;
    }
    let name = if random.one_in(10) {
        other.name.as_str()
    } else {
        action.name.as_str()
    };
    let is_named = solver.see_tag(alloc, TAG, name)?;
    digest.number(usize::from(is_named));
    for member in action.members.iter().skip(before) {
        solver.see_key(alloc, FieldKey::flat(member.name.as_str()))?;
    }
    match solver.finish(alloc) {
        Ok(handle) => {
            digest.number(handle.index());
            digest.count_answer();
            Ok(())
        }
        Err(error) => digest.refusal(&error),
    }
}
