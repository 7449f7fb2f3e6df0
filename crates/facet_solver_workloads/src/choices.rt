//! Structs that flatten enums, and schemas of them.

use crate::fault::Fault;
use crate::random::Random;
use crate::reads::Readable;
use crate::records::{
    Contents, Flaw, Look, Member, Record, add_enum, add_fields, records, some_record,
    sparse_members, twin,
};
use crate::types::{Tagging, Types};
use crate::words::numbered;
use facet_solver::{FieldKey, Schema};
use std::alloc::Global;

/// The key of a struct that each of its documents has.
const ID: &str = "id";

/// How many names there are that no resolution has.
const STRANGE: u64 = 200;

/// A struct, the members of its own that documents may lack, and the variants of each enum that it
/// flattens. Names that it lacks stand beside.
#[derive(Drop)]
pub struct Choices {
    pub readable: Readable,
    pub sparse: Vec<Member>,
    pub enums: Vec<Vec<Record>>,
    pub strange: Vec<String>,
}

/// Which builder makes a schema.
#[derive(Clone, Copy)]
pub enum Builder {
    Auto,
    ExternallyTagged,
    Dom,
}

/// A struct of so many enums. The salt stands in the names.
pub fn make_choices(
    alloc: Global,
    salt: u64,
    many: u64,
    look: Look,
    tagging: Tagging,
) -> Result<Choices, Fault> {
    let mut types = Types::new(alloc);
    let contents = Contents::new(&mut types)?;
    let sparse = sparse_members(alloc, "common", 0, 0, look.sparse)?;
    let mut fields = types.fields(&[(ID, contents.text)])?;
    add_fields(&mut fields, &types, &contents, &sparse)?;
    let mut enums = Vec::new(alloc);
    for index in 0..many {
        let name = numbered(alloc, "choice", salt.wrapping_add(index))?;
        let records = records(alloc, name.as_str(), look)?;
        let shape = add_enum(
            alloc,
            &mut types,
            &contents,
            name.as_str(),
            &records,
            tagging,
        )?;
        fields.push(types.flattened(name.as_str(), shape)?)?;
        enums.push(records)?;
    }
    let root = types.structure("Choices", fields)?;
    let shapes = types.catalogue()?;
    Ok(Choices {
        readable: Readable { shapes, root },
        sparse,
        enums,
        strange: strange_names(alloc)?,
    })
}

/// Names that no type has.
pub fn strange_names(alloc: Global) -> Result<Vec<String>, Fault> {
    let mut names = Vec::new(alloc);
    for number in 0..STRANGE {
        names.push(numbered(alloc, "trace_context", number)?)?;
    }
    Ok(names)
}

/// The schema of a type.
pub fn schema<'c>(
    alloc: Global,
    readable: &'c Readable,
    builder: Builder,
) -> Result<Schema<'c>, Fault> {
    let (shapes, root) = (&readable.shapes, readable.root);
    if !shapes.has(root) {
        return Err(Fault::Type);
    }
    let built = match builder {
        Builder::Auto => Schema::build_auto(alloc, shapes, root),
        Builder::ExternallyTagged => Schema::build_externally_tagged(alloc, shapes, root),
        Builder::Dom => Schema::build_dom(alloc, shapes, root),
    };
    match built {
        Ok(schema) => Ok(schema),
        Err(_) => Err(Fault::Type),
    }
}

/// Puts the keys of some choice in place of others, in some order. A flaw is one of its last enum.
pub fn choose<'r>(
    keys: &mut Vec<FieldKey<'r>>,
    random: &mut Random,
    of: &'r Choices,
    tagging: Tagging,
    flaw: Flaw,
) -> Result<(), Fault> {
    keys.clear();
    keys.push(FieldKey::flat(ID))?;
    add_some(keys, random, &of.sparse)?;
    for (index, records) in of.enums.iter().enumerate() {
        let is_last = index.wrapping_add(1) == of.enums.len();
        let flaw = if is_last { flaw } else { Flaw::None };
        choose_record(keys, random, records, tagging, flaw)?;
    }
    if flaw == Flaw::Unknown
        && let Some(name) = some_name(random, &of.strange)
    {
        keys.push(FieldKey::flat(name))?;
    }
    random.shuffle(keys);
    Ok(())
}

/// Adds the keys of some variant. With a flaw in its tag its name is none, or where it has no name
/// in the document, it may be two variants.
fn choose_record<'r>(
    keys: &mut Vec<FieldKey<'r>>,
    random: &mut Random,
    records: &'r [Record],
    tagging: Tagging,
    flaw: Flaw,
) -> Result<(), Fault> {
    match (flaw, tagging) {
        (Flaw::Tag, Tagging::External) => Ok(keys.push(FieldKey::flat("vanished"))?),
        (Flaw::Tag, _) if records.len() > 2 => match twin(records) {
            Some(record) => add_keys(keys, random, record, tagging, flaw),
            None => Ok(()),
        },
        (Flaw::Tag, _) => {
            for record in records {
                add_keys(keys, random, record, tagging, flaw)?;
            }
            Ok(())
        }
        _ => match some_record(records, random) {
            Some(record) => add_keys(keys, random, record, tagging, flaw),
            None => Ok(()),
        },
    }
}

/// Adds the keys of a variant. The last one that each document has may be missing.
pub fn add_keys<'r>(
    keys: &mut Vec<FieldKey<'r>>,
    random: &mut Random,
    record: &'r Record,
    tagging: Tagging,
    flaw: Flaw,
) -> Result<(), Fault> {
    if let Tagging::Internal(tag) = tagging {
        keys.push(FieldKey::flat(tag))?;
    }
    if let Tagging::External = tagging {
        keys.push(FieldKey::flat(record.name.as_str()))?;
    } else {
        for member in &record.members {
            keys.push(FieldKey::flat(member.name.as_str()))?;
        }
    }
    if flaw == Flaw::Missing {
        drop(keys.pop());
    }
    match tagging {
        Tagging::External => Ok(()),
        _ => add_some(keys, random, &record.sparse),
    }
}

/// Adds the keys of about half of some members.
fn add_some<'r>(
    keys: &mut Vec<FieldKey<'r>>,
    random: &mut Random,
    members: &'r [Member],
) -> Result<(), Fault> {
    for member in members {
        if random.one_in(2) {
            keys.push(FieldKey::flat(member.name.as_str()))?;
        }
    }
    Ok(())
}

/// One of some names.
pub fn some_name<'r>(random: &mut Random, names: &'r [String]) -> Option<&'r str> {
    let index = random.index(names.len());
    names.get(index).map(|name| name.as_str())
}
