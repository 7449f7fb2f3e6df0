//! Small objects of which the keys tell the choice.

use crate::choices::{Builder, Choices, choose, make_choices, schema};
use crate::configurations::{TAG, load_configurations};
use crate::digest::Digest;
use crate::fault::Fault;
use crate::inputs::{DRAWS, Inputs};
use crate::job::Job;
use crate::nested_keys::tell_nested;
use crate::random::Random;
use crate::records::{Flaw, Look};
use crate::results::add_key;
use crate::types::Tagging;
use facet_solver::{FieldKey, Resolution, Schema, Solver};
use facet_solver_uses::choice_to_values::{Mismatch, choice_to_values};
use std::alloc::Global;

fn look(variants: u64, sparse: u64) -> Look {
    Look {
        variants,
        least: 2,
        spread: 4,
        kinds: 3,
        sparse,
    }
}

/// Tells the keys of some objects to solvers of each of some schemas.
pub fn run(job: &mut Job) -> Result<(), Fault> {
    let untagged = Tagging::Untagged;
    let of_two = make_choices(job.alloc, 0, 1, look(2, 4), untagged)?;
    tell_choices(job, "2 variants", &of_two, untagged, Builder::Auto)?;
    let of_four = make_choices(job.alloc, 0, 3, look(4, 2), untagged)?;
    tell_choices(job, "3 enums of 4", &of_four, untagged, Builder::Auto)?;
    let (external, builder) = (Tagging::External, Builder::ExternallyTagged);
    let by_name = make_choices(job.alloc, 0, 3, look(4, 6), external)?;
    tell_choices(job, "3 enums of 4 by name", &by_name, external, builder)?;
    tell_many(job)?;
    tell_nested(job)
}

fn tell_choices(
    job: &mut Job,
    part: &str,
    of: &Choices,
    tagging: Tagging,
    builder: Builder,
) -> Result<(), Fault> {
    let schema = schema(job.alloc, &of.readable, builder)?;
    tell_keys(job, part, &schema, of, tagging)
}

/// Tells keys and configurations of one schema with many variants.
fn tell_many(job: &mut Job) -> Result<(), Fault> {
    let tagged = Tagging::Internal(TAG);
    let of_many = make_choices(job.alloc, 0, 1, look(job.scaled(1_000), 2), tagged)?;
    let schema = schema(job.alloc, &of_many.readable, Builder::Auto)?;
    tell_keys(job, "1,000 variants", &schema, &of_many, tagged)?;
    load_configurations(job, &schema, &of_many)
}

/// What is wrong with one in twenty objects. Some of the others have an unknown key.
pub fn some_flaw(random: &mut Random) -> Flaw {
    match random.below(40) {
        0 => Flaw::Missing,
        1 => Flaw::Tag,
        2..=4 => Flaw::Unknown,
        _ => Flaw::None,
    }
}

fn tell_keys(
    job: &mut Job,
    part: &str,
    schema: &Schema<'_>,
    of: &Choices,
    tagging: Tagging,
) -> Result<(), Fault> {
    let mut digest = Digest::new();
    let mut inputs = Inputs::new(job.alloc)?;
    let mut keys = Vec::new(job.alloc);
    for _ in 0..job.count {
        choose_new(&mut keys, &mut job.random, &mut inputs, of, tagging)?;
        tell(job.alloc, schema, &keys, &mut digest)?;
    }
    job.tell(part, digest)
}

/// Chooses keys as no object before had them.
fn choose_new<'r>(
    keys: &mut Vec<FieldKey<'r>>,
    random: &mut Random,
    inputs: &mut Inputs,
    of: &'r Choices,
    tagging: Tagging,
) -> Result<(), Fault> {
    for _ in 0..DRAWS {
        let flaw = some_flaw(random);
        choose(keys, random, of, tagging, flaw)?;
        if inputs.is_new(&keys_digest(keys)) {
            return Ok(());
        }
    }
    Err(Fault::Repeated)
}

/// The digest of keys.
pub fn keys_digest(keys: &[FieldKey<'_>]) -> Digest {
    let mut digest = Digest::new();
    for key in keys {
        add_key(&mut digest, key);
    }
    digest
}

/// Tells keys to a new solver, and adds its answer and what each member stands for.
fn tell(
    alloc: Global,
    schema: &Schema<'_>,
    keys: &[FieldKey<'_>],
    digest: &mut Digest,
) -> Result<(), Fault> {
    let mut solver = Solver::new(alloc, schema)?;
    for key in keys {
        solver.see_key(alloc, *key)?;
    }
    match solver.finish(alloc) {
        Ok(handle) => {
            digest.number(handle.index());
            digest.count_answer();
            add_values(alloc, handle.resolution(), keys, digest)
        }
        Err(error) => digest.refusal(&error),
    }
}

fn add_values(
    alloc: Global,
    resolution: &Resolution<'_>,
    keys: &[FieldKey<'_>],
    digest: &mut Digest,
) -> Result<(), Fault> {
    match choice_to_values(alloc, resolution, keys) {
        Ok(values) => {
            for value in &values.fields {
                let field = value.field;
                digest.name(field.serialized_name);
                digest.number(value.member.unwrap_or(keys.len()));
            }
            for member in values.contents.iter().chain(&values.rest) {
                digest.number(*member);
            }
        }
        Err(Mismatch::Unknown { member, key }) => {
            digest.number(member);
            add_key(digest, &key);
        }
        Err(
            Mismatch::Repeated {
                field,
                first,
                second,
            },
        ) => {
            digest.name(field.serialized_name);
            digest.number(first);
            digest.number(second);
        }
        Err(Mismatch::Missing(field)) => digest.name(field.serialized_name),
        Err(Mismatch::OutOfMemory) => return Err(Fault::OutOfMemory),
    }
    Ok(())
}
