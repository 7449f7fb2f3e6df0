//! Lists of services: structs with optional blocks and a source among their members.

use crate::fault::Fault;
use crate::json_text::JsonText;
use crate::random::Random;
use crate::reads::Readable;
use crate::records::{Contents, Flaw, Look, Record, add_enum, records, some_record, write_members};
use crate::types::{Tagging, Types};
use crate::words::word;
use facet_solver::ShapeId;
use std::alloc::Global;

/// The blocks, each with the names of two members that it requires, and of one that it does not.
static BLOCKS: [[&str; 4]; 6] = [
    ["Limits", "cpu_shares", "memory_limit", "swap_limit"],
    [
        "Health",
        "health_retries",
        "health_command",
        "health_interval",
    ],
    ["Logging", "log_rate", "log_driver", "log_tag"],
    [
        "Network",
        "network_priority",
        "network_name",
        "network_alias",
    ],
    ["Deploy", "deploy_replicas", "deploy_mode", "deploy_zone"],
    [
        "Restart",
        "restart_attempts",
        "restart_policy",
        "restart_window",
    ],
];

/// The type of a list of services, and the sources of one.
pub fn services(alloc: Global) -> Result<(Readable, Vec<Record>), Fault> {
    let mut types = Types::new(alloc);
    let contents = Contents::new(&mut types)?;
    let texts = types.list(contents.text)?;
    let ports = types.list(contents.whole)?;
    let environment = types.map(contents.text, contents.text)?;
    let mut fields = types.fields(&[
        ("name", contents.text),
        ("image", contents.text),
        ("replicas", contents.whole),
        ("ports", ports),
        ("command", texts),
        ("environment", environment),
    ])?;
    for block in &BLOCKS {
        let shape = add_block(&mut types, &contents, block)?;
        let [name, ..] = *block;
        fields.push(types.flattened(name, shape)?)?;
    }
    let look = Look {
        variants: 4,
        least: 2,
        spread: 3,
        kinds: 3,
        sparse: 0,
    };
    let sources = records(alloc, "source", look)?;
    let source = add_enum(
        alloc,
        &mut types,
        &contents,
        "Source",
        &sources,
        Tagging::Untagged,
    )?;
    fields.push(types.flattened("source", source)?)?;
    let service = types.structure("Service", fields)?;
    let root = types.list(service)?;
    let shapes = types.catalogue()?;
    Ok((Readable { shapes, root }, sources))
}

fn add_block(types: &mut Types, contents: &Contents, block: &[&str; 4]) -> Result<ShapeId, Fault> {
    let [name, number, text, optional] = *block;
    let maybe = types.option(contents.text)?;
    let fields = types.fields(&[
        (number, contents.whole),
        (text, contents.text),
        (optional, maybe),
    ])?;
    let block = types.structure(name, fields)?;
    types.option(block)
}

/// Writes a list of so many services.
pub fn write_services(
    text: &mut JsonText,
    random: &mut Random,
    sources: &[Record],
    count: u64,
) -> Result<(), Fault> {
    text.open("[")?;
    for number in 0..count {
        text.open("{")?;
        write_plain(text, random, number)?;
        for block in &BLOCKS {
            if random.one_in(3) {
                write_block(text, random, block)?;
            }
        }
        if let Some(source) = some_record(sources, random) {
            write_members(text, random, source, Flaw::None)?;
        }
        text.close("}")?;
    }
    Ok(text.close("]")?)
}

fn write_plain(text: &mut JsonText, random: &mut Random, number: u64) -> Result<(), Fault> {
    text.string_member("name", word(number))?;
    text.word_member("image", random)?;
    text.whole_member("replicas", random.below(9))?;
    text.name("ports")?;
    text.open("[")?;
    for _ in 0..random.below(4) {
        text.whole(random.below(65_536))?;
    }
    text.close("]")?;
    text.name("command")?;
    text.word_list(random, 3)?;
    text.name("environment")?;
    text.open("{")?;
    let first = random.next();
    for place in 0..random.below(8) {
        text.word_member(word(first.wrapping_add(place)), random)?;
    }
    Ok(text.close("}")?)
}

fn write_block(text: &mut JsonText, random: &mut Random, block: &[&str; 4]) -> Result<(), Fault> {
    let [_, number, required, optional] = *block;
    text.whole_member(number, random.below(10_000))?;
    text.word_member(required, random)?;
    if random.one_in(2) {
        text.word_member(optional, random)?;
    }
    Ok(())
}
