//! Catalogues of types, each with other names.

use crate::choices::make_choices;
use crate::fault::Fault;
use crate::job::Job;
use crate::random::Random;
use crate::reads::Readable;
use crate::records::Look;
use crate::types::{Tagging, Types};
use crate::words::{numbered, word};
use facet_solver::{Field, ShapeId};
use std::alloc::Global;

/// A kind of catalogue.
#[derive(Clone, Copy)]
pub enum Catalogue {
    /// Some hundred types, which have each other as fields, and paths four keys deep.
    Modules,
    /// Four enums of four variants.
    FewEnums,
    /// One enum of a thousand variants.
    ManyVariants,
    /// Ten optional blocks.
    Blocks,
    /// Twelve enums of two variants.
    ManyEnums,
    /// Two enums, of ten to seventeen variants.
    TwoEnums,
}

/// A new catalogue of a kind.
pub fn make_catalogue(job: &mut Job, of: Catalogue) -> Result<Readable, Fault> {
    let salt = job.random.below(1_000_000);
    let (many, variants) = match of {
        Catalogue::Modules => {
            let count = job.random.below(450).wrapping_add(50);
            let count = job.scaled(count);
            return modules(job.alloc, &mut job.random, salt, count);
        }
        Catalogue::Blocks => return blocks(job.alloc, salt, job.scaled(10)),
        Catalogue::FewEnums => (4, job.scaled(4)),
        Catalogue::ManyVariants => (1, job.scaled(1_000)),
        Catalogue::ManyEnums => (job.scaled(12), 2),
        Catalogue::TwoEnums => {
            let variants = job.random.below(8).wrapping_add(10);
            (2, job.scaled(variants))
        },
    };
    let look = Look {
        variants,
        least: 2,
        spread: 3,
        kinds: 7,
        sparse: 0,
    };
    Ok(make_choices(job.alloc, salt, many, look, Tagging::Untagged)?.readable)
}

/// A struct that flattens so many optional blocks, each of a required and an optional member.
pub fn blocks(alloc: Global, salt: u64, many: u64) -> Result<Readable, Fault> {
    let mut types = Types::new(alloc);
    let text = types.text()?;
    let whole = types.whole()?;
    let optional = types.option(text)?;
    let mut fields = types.fields(&[("name", text)])?;
    for number in 0..many {
        let name = numbered(alloc, "block", salt.wrapping_add(number))?;
        let required = numbered(alloc, "size", number)?;
        let other = numbered(alloc, "unit", number)?;
        let block = types.fields(&[(required.as_str(), whole), (other.as_str(), optional)])?;
        let block = types.structure(name.as_str(), block)?;
        let block = types.option(block)?;
        fields.push(types.flattened(name.as_str(), block)?)?;
    }
    let root = types.structure("Blocks", fields)?;
    let shapes = types.catalogue()?;
    Ok(Readable { shapes, root })
}

/// Structs in lists and options of others, and at the end three levels of structs in structs.
fn modules(alloc: Global, random: &mut Random, salt: u64, count: u64) -> Result<Readable, Fault> {
    let mut types = Types::new(alloc);
    let text = types.text()?;
    let mut last = types.whole()?;
    for number in 0..count {
        let around = if random.one_in(2) {
            types.list(last)?
        } else {
            types.option(last)?
        };
        let name = numbered(alloc, "Module", salt.wrapping_add(number))?;
        let size = random.below(4).wrapping_add(2);
        let mut fields = plain_fields(alloc, &types, size, text)?;
        fields.push(types.field("inner", around)?)?;
        last = types.structure(name.as_str(), fields)?;
    }
    for level in 0..3 {
        let name = numbered(alloc, "Level", level)?;
        let fields = plain_fields(alloc, &types, 5, last)?;
        last = types.structure(name.as_str(), fields)?;
    }
    let root = last;
    let shapes = types.catalogue()?;
    Ok(Readable { shapes, root })
}

fn plain_fields(
    alloc: Global,
    types: &Types,
    count: u64,
    shape: ShapeId,
) -> Result<Vec<Field>, Fault> {
    let mut fields = Vec::new(alloc);
    for number in 0..count {
        fields.push(types.field(word(number), shape)?)?;
    }
    Ok(fields)
}
