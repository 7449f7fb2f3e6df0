//! The value that stands next in a reader of JSON.
ghost use Rattle.std.specs.Prelude.{◌≡◌, ◌≢◌, ◌<◌, ℕ, length, Some, None, Err, IfOk, OnOk, IsTrue, option_map};
ghost use Rattle.json.specs.Json.{read_key};
ghost use Rattle.json.specs.Reads.{opens};
ghost use Rattle.facet_solver_reader.specs.Documents.{view, items_view, members_view};
ghost use Rattle.facet_solver_json.specs.Values.{read_items, read_members, read_value};

use facet_solver_reader::{Document, Number};
use json::{Reader, Token};
use std::alloc::{AllocFailed, Global};

/// What has to stand at a token.
#[derive(Clone, Copy, Debug, Drop)]
pub(crate) enum Wanted {
    /// A value.
    Value,
    /// A value of a list, behind a comma but for the first one, or the closing bracket.
    Item,
    /// A name of an object and its colon, so too, or the closing brace.
    Name,
    /// A value. There is a name with its colon.
    NoName,
    /// The end of the text.
    NoMore,
    /// A value that is no list and no object.
    LessDeep,
}

/// The first token that cannot stand where it stands.
#[derive(Clone, Copy, Debug, Drop)]
pub(crate) struct Refused {
    /// Its offset.
    pub(crate) offset: usize,
    /// What has to stand there.
    pub(crate) wanted: Wanted,
}

/// Why no value was read.
#[derive(Clone, Copy, Debug, Drop)]
pub(crate) enum Fault {
    /// There is none.
    Invalid(Refused),
    /// Out of memory.
    OutOfMemory,
}

impl<T: Drop> From<AllocFailed<T>> for Fault {
    ghost use Rattle.facet_solver_json.specs.declared.value.Fault.TheVariants.{OutOfMemory};

    ghost from_gives = { λ _ e. e ≡ OutOfMemory };

    fn from(_refused: AllocFailed<T>) -> Fault {
        Fault::OutOfMemory
    }
}

/// The next value of a reader, where `wanted` has to stand. Lists and objects may nest so deep.
#[cycle(value)]
pub(crate) fn read_value<'d>(
    alloc: Global,
    reader: &mut Reader<'d>,
    depth: usize,
    wanted: Wanted,
) -> Result<Document<'d>, Fault>
    ensures ok { IfOk result (λ document.
        read_value depth reader.old ≡ Some (view document, reader.new)) }
    ensures shorter { OnOk result (length reader.new < length reader.old) }
    ensures invalid { (at : Refused) → result ≡ Err (Fault.Invalid at)
        → read_value depth reader.old ≡ None }
    ensures memory { result ≡ Err Fault.OutOfMemory → IsTrue (opens reader.old) }
{
    let offset = reader.offset();
    let token = reader
        .next()
        .ok_or(Fault::Invalid(Refused { offset, wanted }))?;
    match token {
        Token::Null => Ok(Document::Null),
        Token::Bool(truth) => Ok(Document::Bool(truth)),
        Token::Number(text) => Ok(Document::Number(Number::new(text))),
        Token::String(text) => Ok(Document::Text(text)),
        Token::EndObject | Token::EndArray | Token::Bad => {
            Err(Fault::Invalid(Refused { offset, wanted }))
        }
        Token::Key(_) => Err(Fault::Invalid(Refused {
            offset,
            wanted: Wanted::NoName,
        })),
        Token::BeginArray => {
            if depth == 0 {
                return Err(Fault::Invalid(Refused {
                    offset,
                    wanted: Wanted::LessDeep,
                }));
            }
            Ok(Document::List(read_items(alloc, reader, depth - 1)?))
        }
        Token::BeginObject => {
            if depth == 0 {
                return Err(Fault::Invalid(Refused {
                    offset,
                    wanted: Wanted::LessDeep,
                }));
            }
            Ok(Document::Object(read_members(alloc, reader, depth - 1)?))
        }
    }
}

/// The values of a list whose opening bracket was read, and its closing one.
#[cycle(value)]
fn read_items<'d>(
    alloc: Global,
    reader: &mut Reader<'d>,
    depth: usize,
) -> Result<Vec<Document<'d>>, Fault>
    ensures ok { IfOk result (λ documents.
        read_items depth reader.old ≡ Some (items_view documents.items, reader.new)) }
    ensures shorter { OnOk result (length reader.new < length reader.old) }
    ensures invalid { (at : Refused) → result ≡ Err (Fault.Invalid at)
        → read_items depth reader.old ≡ None }
{
    let mut found = Vec::new(alloc);
    while !reader.take_end_array() {
        let item = read_value(alloc, reader, depth, Wanted::Item)?;
        found.push(item)?;
    }
    Ok(found)
}

/// The members of an object whose opening brace was read, and its closing one.
#[cycle(value)]
fn read_members<'d>(
    alloc: Global,
    reader: &mut Reader<'d>,
    depth: usize,
) -> Result<Vec<(&'d str, Document<'d>)>, Fault>
    ensures ok { IfOk result (λ found.
        read_members depth reader.old ≡ Some (members_view found.items, reader.new)) }
    ensures shorter { OnOk result (length reader.new < length reader.old) }
    ensures invalid { (at : Refused) → result ≡ Err (Fault.Invalid at)
        → read_members depth reader.old ≡ None }
{
    let mut found = Vec::new(alloc);
    while let Some(name) = next_name(reader)? {
        let value = read_value(alloc, reader, depth, Wanted::Value)?;
        found.push((name, value))?;
    }
    Ok(found)
}

/// The next name of an object, with its colon, or `None` at the closing brace.
fn next_name<'d>(reader: &mut Reader<'d>) -> Result<Option<&'d str>, Fault>
    ensures ok { IfOk result (λ name.
        read_key reader.old ≡ Some (option_map (λ s. s.now) name, reader.new)) }
    ensures invalid { (at : Refused) → result ≡ Err (Fault.Invalid at)
        → read_key reader.old ≡ None }
    ensures no_memory { result ≢ Err Fault.OutOfMemory }
{
    let refused = Refused {
        offset: reader.offset(),
        wanted: Wanted::Name,
    };
    reader.next_key().map_err(|_| Fault::Invalid(refused))
}
