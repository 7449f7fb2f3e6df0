//! Keys at paths of many names, asked of both solvers.

use crate::chains::chain;
use crate::choices::{Builder, schema};
use crate::digest::Digest;
use crate::fault::Fault;
use crate::job::Job;
use crate::random::Random;
use crate::reads::Readable;
use crate::results::{add_key_result, add_probe_result};
use crate::types::{Tagging, Types};
use crate::words::{numbered, word};
use facet_solver::{ProbingSolver, Schema, Solver};
use std::alloc::Global;

/// How many candidates there are.
const CANDIDATES: u64 = 16;

/// How many names the longest path has, with the leaf.
const LONGEST: u64 = 12;

/// How often each leaf is asked for in the sample.
const ROUNDS: u64 = 100;

/// A key at a path of names.
#[derive(Drop)]
struct KeyAt<'n> {
    path: Vec<&'n str>,
    key: &'n str,
}

/// Asks for keys at paths of one to twelve names.
pub fn probe_paths(job: &mut Job) -> Result<(), Fault> {
    let mut leaves = Vec::new(job.alloc);
    for number in 0..CANDIDATES {
        leaves.push(numbered(job.alloc, "leaf", number)?)?;
    }
    let readable = routes(job.alloc, &leaves)?;
    let schema = schema(job.alloc, &readable, Builder::Auto)?;
    let mut digest = Digest::new();
    for _ in 0..job.count.wrapping_mul(job.scaled(8_000)) {
        let keys = some_keys(job.alloc, &mut job.random, &leaves)?;
        probe_both(job.alloc, &schema, &keys, &mut digest)?;
    }
    job.tell("paths", digest)
}

/// The names that lead to the leaves of a candidate, one to eleven.
fn names_to(alloc: Global, candidate: u64) -> Result<Vec<&'static str>, Fault> {
    let mut names = Vec::new(alloc);
    for number in 0..(candidate % LONGEST).max(1) {
        names.push(word(number))?;
    }
    Ok(names)
}

/// An enum of variants, each with a chain of structs: the longer ones begin as the shorter ones do.
/// Two leaves end each chain, of which one is the variant's own.
fn routes(alloc: Global, leaves: &[String]) -> Result<Readable, Fault> {
    let mut types = Types::new(alloc);
    let text = types.text()?;
    let mut variants = Vec::new(alloc);
    for (number, leaf) in leaves.iter().enumerate() {
        let names = names_to(alloc, number as u64)?;
        let ends = types.fields(&[("leaf", text), (leaf.as_str(), text)])?;
        let [first, rest @ ..] = names.as_slice() else {
            return Err(Fault::Type);
        };
        let shape = chain(&mut types, rest, ends)?;
        let fields = types.fields(&[(first, shape)])?;
        variants.push(types.variant(leaf.as_str(), fields)?)?;
    }
    let root = types.enumeration("Route", variants, Tagging::Untagged)?;
    let shapes = types.catalogue()?;
    Ok(Readable { shapes, root })
}

/// A key on the way to the leaves of some candidate, the leaf that many have, and its own.
fn some_keys<'n>(
    alloc: Global,
    random: &mut Random,
    leaves: &'n [String],
) -> Result<Vec<KeyAt<'n>>, Fault> {
    let candidate = random.index(leaves.len());
    let own = leaves.get(candidate).ok_or(Fault::Type)?;
    let mut way = names_to(alloc, candidate as u64)?;
    way.truncate(random.index(way.len()).wrapping_add(1));
    let last = way.pop().ok_or(Fault::Type)?;
    let mut keys: Vec<KeyAt<'n>> = Vec::new(alloc);
    keys.push(KeyAt {
        path: way,
        key: last,
    })?;
    for key in ["leaf", own.as_str()] {
        let path = names_to(alloc, candidate as u64)?;
        keys.push(KeyAt { path, key })?;
    }
    Ok(keys)
}

/// Asks new solvers of both kinds for some keys.
fn probe_both(
    alloc: Global,
    schema: &Schema<'_>,
    keys: &[KeyAt<'_>],
    digest: &mut Digest,
) -> Result<(), Fault> {
    let mut solver = Solver::new(alloc, schema)?;
    let mut probing = ProbingSolver::new(alloc, schema)?;
    for KeyAt { path, key } in keys {
        add_key_result(digest, &solver.probe_key(alloc, path, key)?);
        add_probe_result(digest, &probing.probe_key(path, key));
    }
    digest.count_answer();
    Ok(())
}

/// Asks for each leaf of a chain of so many structs with fields of one name, which all candidates
/// have. `count` is the number of structs, and `size` that of leaves.
pub fn sample(job: &mut Job) -> Result<(), Fault> {
    let (depth, width) = (job.count, job.size());
    let mut leaves = Vec::new(job.alloc);
    for number in 0..width {
        leaves.push(numbered(job.alloc, "leaf", number)?)?;
    }
    let mut path = Vec::new(job.alloc);
    for _ in 0..depth {
        path.push("next")?;
    }
    let readable = alike(job.alloc, &path, &leaves)?;
    let schema = schema(job.alloc, &readable, Builder::Auto)?;
    let mut digest = Digest::new();
    for _ in 0..ROUNDS {
        probe_leaves(job.alloc, &schema, &path, &leaves, &mut digest)?;
    }
    job.tell("paths", digest)
}

/// An enum of variants that all have the same chain, and a name of their own.
fn alike(alloc: Global, path: &[&str], leaves: &[String]) -> Result<Readable, Fault> {
    let mut types = Types::new(alloc);
    let text = types.text()?;
    let mut ends = Vec::new(alloc);
    for leaf in leaves {
        ends.push(types.field(leaf.as_str(), text)?)?;
    }
    let [first, rest @ ..] = path else {
        return Err(Fault::Type);
    };
    let shape = chain(&mut types, rest, ends)?;
    let mut variants = Vec::new(alloc);
    for number in 0..CANDIDATES {
        let name = numbered(alloc, "own", number)?;
        let mut fields = types.fields(&[(first, shape)])?;
        fields.push(types.field(name.as_str(), text)?)?;
        variants.push(types.variant(name.as_str(), fields)?)?;
    }
    let root = types.enumeration("Route", variants, Tagging::Untagged)?;
    let shapes = types.catalogue()?;
    Ok(Readable { shapes, root })
}

/// Asks new solvers of both kinds for all leaves.
fn probe_leaves(
    alloc: Global,
    schema: &Schema<'_>,
    path: &[&str],
    leaves: &[String],
    digest: &mut Digest,
) -> Result<(), Fault> {
    let mut solver = Solver::new(alloc, schema)?;
    let mut probing = ProbingSolver::new(alloc, schema)?;
    for leaf in leaves {
        add_key_result(digest, &solver.probe_key(alloc, path, leaf)?);
        add_probe_result(digest, &probing.probe_key(path, leaf));
    }
    digest.count_answer();
    Ok(())
}
