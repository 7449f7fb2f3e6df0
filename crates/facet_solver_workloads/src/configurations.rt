//! Configurations: the text under a tag names the variant, and each key has to be known.

use crate::choices::{Choices, add_keys, some_name};
use crate::digest::Digest;
use crate::fault::Fault;
use crate::inputs::{DRAWS, Inputs};
use crate::job::Job;
use crate::keys::{keys_digest, some_flaw};
use crate::random::Random;
use crate::records::{Flaw, some_record};
use crate::results::add_key;
use crate::types::Tagging;
use facet_solver::{FieldKey, Schema};
use facet_solver_uses::load_config::{Refused, load_config};
use std::alloc::Global;

/// The tag of a configuration.
pub const TAG: &str = "type";

/// Loads some configurations of a schema of one enum.
pub fn load_configurations(job: &mut Job, schema: &Schema<'_>, of: &Choices) -> Result<(), Fault> {
    let mut digest = Digest::new();
    let mut inputs = Inputs::new(job.alloc)?;
    let mut keys = Vec::new(job.alloc);
    for _ in 0..job.count {
        let variant = configure_new(&mut keys, &mut job.random, &mut inputs, of)?;
        load(job.alloc, schema, variant, &keys, &mut digest)?;
    }
    job.tell("configurations", digest)
}

/// Puts the keys of a configuration as no one before had them in place of others, and gives the
/// text under its tag.
fn configure_new<'r>(
    keys: &mut Vec<FieldKey<'r>>,
    random: &mut Random,
    inputs: &mut Inputs,
    of: &'r Choices,
) -> Result<&'r str, Fault> {
    for _ in 0..DRAWS {
        let variant = configure(keys, random, of)?;
        let mut digest = keys_digest(keys);
        digest.name(variant);
        if inputs.is_new(&digest) {
            return Ok(variant);
        }
    }
    Err(Fault::Repeated)
}

fn configure<'r>(
    keys: &mut Vec<FieldKey<'r>>,
    random: &mut Random,
    of: &'r Choices,
) -> Result<&'r str, Fault> {
    let flaw = some_flaw(random);
    let records = of.enums.first().ok_or(Fault::Type)?;
    let record = some_record(records, random).ok_or(Fault::Type)?;
    let strange = some_name(random, &of.strange).ok_or(Fault::Type)?;
    keys.clear();
    keys.push(FieldKey::flat("id"))?;
    add_keys(keys, random, record, Tagging::Internal(TAG), flaw)?;
    if flaw == Flaw::Unknown {
        keys.push(FieldKey::flat(strange))?;
    }
    random.shuffle(keys);
    Ok(match flaw {
        Flaw::Tag => strange,
        _ => record.name.as_str(),
    })
}

fn load(
    alloc: Global,
    schema: &Schema<'_>,
    variant: &str,
    keys: &[FieldKey<'_>],
    digest: &mut Digest,
) -> Result<(), Fault> {
    match load_config(alloc, schema, TAG, variant, keys) {
        Ok(handle) => {
            digest.number(handle.index());
            digest.count_answer();
            Ok(())
        }
        Err(Refused::UnknownVariant(names)) => {
            digest.count_refusal();
            for name in &names {
                digest.name(name);
            }
            Ok(())
        }
        Err(Refused::UnknownKey(key)) => {
            digest.count_refusal();
            digest.name(key.name());
            Ok(())
        }
        Err(Refused::Solver(error)) => digest.refusal(&error),
    }
}
