//! Schemas and readers of many types.

use crate::catalogues::{Catalogue, make_catalogue};
use crate::digest::Digest;
use crate::fault::Fault;
use crate::job::Job;
use crate::reads::Readable;
use crate::results::{add_key, add_resolution};
use facet_solver::{Format, Schema, SchemaError};
use facet_solver_reader::{Reader, Unknown};
use facet_solver_uses::ambiguity_table::{NoTable, ambiguity_table};
use facet_solver_uses::ambiguous_pairs::ambiguous_pairs;
use std::alloc::Global;

/// How many resolutions of a schema are described at most.
const DESCRIBED: usize = 16;

/// Makes schemas and readers of some types of each kind, and tables of some.
pub fn run(job: &mut Job) -> Result<(), Fault> {
    make_all(job, "modules", Catalogue::Modules)?;
    make_all(job, "4 enums of 4", Catalogue::FewEnums)?;
    make_all(job, "1,000 variants", Catalogue::ManyVariants)?;
    make_all(job, "10 optional blocks", Catalogue::Blocks)?;
    make_all(job, "12 enums of 2", Catalogue::ManyEnums)?;
    compare_all(job)
}

fn make_all(job: &mut Job, part: &str, of: Catalogue) -> Result<(), Fault> {
    let mut digest = Digest::new();
    for _ in 0..job.count {
        let readable = make_catalogue(job, of)?;
        make(job.alloc, &readable, &mut digest)?;
    }
    job.tell(part, digest)
}

fn make(alloc: Global, readable: &Readable, digest: &mut Digest) -> Result<(), Fault> {
    let (shapes, root) = (&readable.shapes, readable.root);
    if !shapes.has(root) {
        return Err(Fault::Type);
    }
    let count = Schema::resolution_count(alloc, shapes, root, None)?.unwrap_or(0);
    digest.number(count as usize);
    add_schema(alloc, &Schema::build_auto(alloc, shapes, root), digest)?;
    add_schema(alloc, &Schema::build_dom(alloc, shapes, root), digest)?;
    add_schema(
        alloc,
        &Schema::build_externally_tagged(alloc, shapes, root),
        digest,
    )?;
    match Reader::new(alloc, shapes, root, Unknown::Refused) {
        Ok(_) => {
            digest.count_answer();
            Ok(())
        }
        Err(error) => digest.refusal(&error),
    }
}

fn add_schema(
    alloc: Global,
    built: &Result<Schema<'_>, SchemaError<'_>>,
    digest: &mut Digest,
) -> Result<(), Fault> {
    match built {
        Ok(schema) => {
            digest.count_answer();
            let resolutions = schema.resolutions();
            digest.number(resolutions.len());
            let stride = resolutions.len() / DESCRIBED;
            let mut next = 0;
            for (index, resolution) in resolutions.iter().enumerate() {
                add_resolution(digest, resolution);
                if index == next {
                    next = next.wrapping_add(stride).wrapping_add(1);
                    digest.name(&resolution.describe(alloc)?);
                }
            }
            Ok(())
        }
        Err(error) => digest.refusal(error),
    }
}

/// Compares the choices of some types, pair by pair.
fn compare_all(job: &mut Job) -> Result<(), Fault> {
    let mut digest = Digest::new();
    for _ in 0..job.count {
        let readable = make_catalogue(job, Catalogue::TwoEnums)?;
        compare(job.alloc, &readable, &mut digest)?;
        let readable = make_catalogue(job, Catalogue::TwoEnums)?;
        tabulate(job.alloc, &readable, &mut digest)?;
    }
    job.tell("pairs", digest)
}

fn compare(alloc: Global, readable: &Readable, digest: &mut Digest) -> Result<(), Fault> {
    let (shapes, root) = (&readable.shapes, readable.root);
    if !shapes.has(root) {
        return Err(Fault::Type);
    }
    match Schema::build_auto(alloc, shapes, root) {
        Ok(schema) => {
            for pair in &ambiguous_pairs(alloc, &schema)? {
                digest.number(pair.first);
                digest.number(pair.second);
                for key in &pair.keys {
                    add_key(digest, key);
                }
                for name in pair.only_first.iter().chain(&pair.only_second) {
                    digest.name(name);
                }
            }
            digest.count_answer();
            Ok(())
        }
        Err(error) => digest.refusal(&error),
    }
}

fn tabulate(alloc: Global, readable: &Readable, digest: &mut Digest) -> Result<(), Fault> {
    let (shapes, root) = (&readable.shapes, readable.root);
    if !shapes.has(root) {
        return Err(Fault::Type);
    }
    match ambiguity_table(alloc, shapes, root, None, Format::Flat, 1_000) {
        Ok(table) => digest.answer(&table),
        Err(NoTable::TooMany(count)) => {
            digest.count_refusal();
            digest.number(count.unwrap_or(0) as usize);
            Ok(())
        }
        Err(NoTable::Schema(error)) => digest.refusal(&error),
    }
}
