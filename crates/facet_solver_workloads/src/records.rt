//! Enums whose variants are records: their types, and documents of them.

use crate::fault::Fault;
use crate::json_text::JsonText;
use crate::random::Random;
use crate::types::{Tagging, Types};
use crate::words::{numbered, text_word, word};
use facet_solver::{Field, ShapeId};
use std::alloc::Global;

/// What a member holds.
#[derive(Clone, Copy)]
pub enum Content {
    Text,
    Whole,
    Truth,
    Decimal,
    Optional,
    Texts,
    Person,
}

/// The types of contents.
#[derive(Clone, Copy)]
pub struct Contents {
    pub text: ShapeId,
    pub whole: ShapeId,
    pub truth: ShapeId,
    pub optional: ShapeId,
    decimal: ShapeId,
    texts: ShapeId,
    person: ShapeId,
}

/// A member of a record.
#[derive(Drop)]
pub struct Member {
    pub name: String,
    pub content: Content,
}

/// One variant.
#[derive(Drop)]
pub struct Record {
    pub name: String,
    pub members: Vec<Member>,
    /// Members that some documents lack.
    pub sparse: Vec<Member>,
}

/// How records look: how many there are, how many members each has at least, by how many it may
/// have more, how many kinds of contents there are, and how many members each has that documents
/// may lack.
#[derive(Clone, Copy)]
pub struct Look {
    pub variants: u64,
    pub least: u64,
    pub spread: u64,
    pub kinds: u64,
    pub sparse: u64,
}

/// What is wrong with the document of a record.
#[derive(Clone, Copy, PartialEq, Eq)]
pub enum Flaw {
    None,
    /// The last member has another value than it should.
    Value,
    /// The last member is missing.
    Missing,
    /// There is a member that no record has.
    Unknown,
    /// The tag names no record.
    Tag,
}

fn content_of(number: u64, kinds: u64) -> Content {
    match number.checked_rem(kinds) {
        Some(1) => Content::Whole,
        Some(2) => Content::Truth,
        Some(3) => Content::Decimal,
        Some(4) => Content::Optional,
        Some(5) => Content::Texts,
        Some(6) => Content::Person,
        _ => Content::Text,
    }
}

/// A member of a variant. Some names are those of other variants too.
fn make_member(
    alloc: Global,
    enum_name: &str,
    variant: u64,
    index: u64,
    kinds: u64,
) -> Result<Member, Fault> {
    let shared = format!(in alloc; "{enum_name}_{}", word(index))?;
    let name = if index % 2 == 0 {
        shared
    } else {
        numbered(alloc, shared.as_str(), variant)?
    };
    let content = match index {
        0 | 1 => Content::Text,
        _ => content_of(variant.wrapping_add(index), kinds),
    };
    Ok(Member { name, content })
}

/// The variants of an enum. Where there are more than two, the last has the names of the one
/// before it, and one more that may be absent.
pub fn records(alloc: Global, enum_name: &str, look: Look) -> Result<Vec<Record>, Fault> {
    let mut records = Vec::new(alloc);
    for variant in 0..look.variants {
        let is_twin = variant > 1 && variant.wrapping_add(1) == look.variants;
        let like = if is_twin {
            variant.wrapping_sub(1)
        } else {
            variant
        };
        let more = like.checked_rem(look.spread).unwrap_or(0);
        let count = look.least.wrapping_add(more);
        let mut members = Vec::new(alloc);
        for index in 0..count {
            members.push(make_member(alloc, enum_name, like, index, look.kinds)?)?;
        }
        if is_twin {
            members.push(Member {
                name: numbered(alloc, enum_name, variant)?,
                content: Content::Optional,
            })?;
        }
        let name = format!(in alloc; "{enum_name}.{}.{variant}", word(variant))?;
        let sparse = sparse_members(alloc, enum_name, like, count, look.sparse)?;
        records.push(Record {
            name,
            members,
            sparse,
        })?;
    }
    Ok(records)
}

/// So many members that documents may lack, behind others.
pub fn sparse_members(
    alloc: Global,
    enum_name: &str,
    variant: u64,
    first: u64,
    count: u64,
) -> Result<Vec<Member>, Fault> {
    let mut members = Vec::new(alloc);
    for index in first..first.wrapping_add(count) {
        let mut member = make_member(alloc, enum_name, variant, index, 1)?;
        member.content = Content::Optional;
        members.push(member)?;
    }
    Ok(members)
}

/// Some variant, but not the one that is like the last.
pub fn some_record<'r>(records: &'r [Record], random: &mut Random) -> Option<&'r Record> {
    let index = random.index(records.len());
    match records.get(index.wrapping_add(2)) {
        None if records.len() > 2 => records.last(),
        _ => records.get(index),
    }
}

/// The variant that is like the last.
pub fn twin(records: &[Record]) -> Option<&Record> {
    records.get(records.len().wrapping_sub(2))
}

impl Contents {
    pub fn new(types: &mut Types) -> Result<Self, Fault> {
        let text = types.text()?;
        let whole = types.whole()?;
        let truth = types.truth()?;
        let texts = types.list(text)?;
        let person = types.fields(&[("login", text), ("site_admin", truth), ("number", whole)])?;
        Ok(Contents {
            text,
            whole,
            truth,
            decimal: types.decimal()?,
            optional: types.option(text)?,
            texts,
            person: types.structure("Person", person)?,
        })
    }

    fn of(&self, content: Content) -> ShapeId {
        match content {
            Content::Text => self.text,
            Content::Whole => self.whole,
            Content::Truth => self.truth,
            Content::Decimal => self.decimal,
            Content::Optional => self.optional,
            Content::Texts => self.texts,
            Content::Person => self.person,
        }
    }
}

/// The fields of a record.
pub fn fields(
    alloc: Global,
    types: &Types,
    contents: &Contents,
    record: &Record,
) -> Result<Vec<Field>, Fault> {
    let mut fields = Vec::new(alloc);
    add_fields(&mut fields, types, contents, &record.members)?;
    add_fields(&mut fields, types, contents, &record.sparse)?;
    Ok(fields)
}

/// Adds a field for each member.
pub fn add_fields(
    fields: &mut Vec<Field>,
    types: &Types,
    contents: &Contents,
    members: &[Member],
) -> Result<(), Fault> {
    for member in members {
        fields.push(types.field(member.name.as_str(), contents.of(member.content))?)?;
    }
    Ok(())
}

/// Adds the type of some records.
pub fn add_enum(
    alloc: Global,
    types: &mut Types,
    contents: &Contents,
    name: &str,
    records: &[Record],
    tagging: Tagging,
) -> Result<ShapeId, Fault> {
    let mut variants = Vec::new(alloc);
    for record in records {
        let fields = fields(alloc, types, contents, record)?;
        variants.push(types.variant(record.name.as_str(), fields)?)?;
    }
    types.enumeration(name, variants, tagging)
}

/// Writes a document of a record.
pub fn write_record(
    text: &mut JsonText,
    random: &mut Random,
    record: &Record,
    tagging: Tagging,
    flaw: Flaw,
) -> Result<(), Fault> {
    let name = if flaw == Flaw::Tag {
        "vanished"
    } else {
        record.name.as_str()
    };
    text.open("{")?;
    match tagging {
        Tagging::Untagged => write_members(text, random, record, flaw)?,
        Tagging::Internal(tag) => {
            text.string_member(tag, name)?;
            write_members(text, random, record, flaw)?;
        }
        Tagging::External => write_content(text, random, record, name, flaw)?,
        Tagging::Adjacent(tag, content) => {
            text.string_member(tag, name)?;
            write_content(text, random, record, content, flaw)?;
        }
    }
    Ok(text.close("}")?)
}

fn write_content(
    text: &mut JsonText,
    random: &mut Random,
    record: &Record,
    name: &str,
    flaw: Flaw,
) -> Result<(), Fault> {
    text.name(name)?;
    text.open("{")?;
    write_members(text, random, record, flaw)?;
    Ok(text.close("}")?)
}

/// Writes the members of a record.
pub fn write_members(
    text: &mut JsonText,
    random: &mut Random,
    record: &Record,
    flaw: Flaw,
) -> Result<(), Fault> {
    for (index, member) in record.members.iter().enumerate() {
        let is_last = index.wrapping_add(1) == record.members.len();
        match flaw {
            Flaw::Missing if is_last => {}
            Flaw::Value if is_last => {
                text.name(member.name.as_str())?;
                text.open("[")?;
                text.open("[")?;
                text.close("]")?;
                text.close("]")?;
            }
            _ => {
                text.name(member.name.as_str())?;
                write_value(text, random, member.content)?;
            }
        }
    }
    if flaw == Flaw::Unknown {
        text.string_member("trace_context", "none")?;
    }
    Ok(())
}

fn write_value(text: &mut JsonText, random: &mut Random, content: Content) -> Result<(), Fault> {
    match content {
        Content::Text => {
            let count = random.below(10);
            text.words(random, count)?;
        }
        Content::Whole => text.whole(random.below(10_000_000))?,
        Content::Truth => text.truth(random.one_in(2))?,
        Content::Decimal => text.signed_decimal(random, 10_000_000)?,
        Content::Optional if random.one_in(8) => text.raw("null")?,
        Content::Optional => text.string(text_word(random.next()))?,
        Content::Texts => {
            let count = random.below(10);
            text.word_list(random, count)?;
        }
        Content::Person => {
            text.open("{")?;
            text.word_member("login", random)?;
            text.name("site_admin")?;
            text.truth(random.one_in(9))?;
            text.whole_member("number", random.below(1_000_000))?;
            text.close("}")?;
        }
    }
    Ok(())
}
