//! A whole text of JSON.
ghost use Rattle.std.specs.Prelude.{◌≡◌, ◌<◌, ◌≤◌, ◌⊎◌, ℕ, length, Some, None, Err, IfOk, IfErr, IsTrue};
ghost use Rattle.json.specs.Json.{max_depth};
ghost use Rattle.json.specs.Lex.{tokens};
ghost use Rattle.json.specs.Reads.{opens};
ghost use Rattle.json.specs.Scratch.{room};
ghost use Rattle.facet_solver_reader.specs.Documents.{depth, view};
ghost use Rattle.facet_solver_json.specs.Values.{parse, read_document};
ghost use Rattle.facet_solver_json.specs.Places.{HasPlace};

use crate::error::JsonError;
use crate::place::{column_at, line_at};
use crate::reason::{Reason, reason_at};
use crate::value::{Fault, Refused, Wanted, read_value};
use facet_solver_reader::Document;
use json::{MAX_DEPTH, Reader, Scratch};
use std::alloc::Global;

/// The document that a text of JSON is.
///
/// The document borrows the text, and of `scratch` the room for texts that are written with
/// escapes. Keep one scratch for one text after another. Members and values stay in order, and
/// names that come twice stay twice.
///
/// Errors: `Invalid` where the text is no JSON, or nests deeper than 128 lists and objects, with
/// the place of the first token that cannot stand there, and why; `OutOfMemory`. A name and its
/// colon are one token: where the colon is missing, the place is that of the name. A comma belongs
/// to what is before it.
pub fn parse<'d>(
    alloc: Global,
    text: &'d str,
    scratch: &'d mut Scratch,
) -> Result<Document<'d>, JsonError>
    ensures ok { IfOk result (λ document. parse text.now ≡ Some (view document)) }
    ensures nests { IfOk result (λ document. depth (view document) ≤ max_depth) }
    ensures invalid { (line column : ℕ) (reason : Reason)
        → result ≡ Err (JsonError.Invalid line column reason) → parse text.now ≡ None }
    ensures place { IfErr result (λ error. HasPlace error text.now) }
    ensures memory { result ≡ Err JsonError.OutOfMemory
        → IsTrue (opens (tokens text.now)) ⊎ (room scratch.old < length text.now) }
{
    let mut reader = Reader::new(text, scratch)?;
    match read_document(alloc, &mut reader) {
        Ok(document) => Ok(document),
        Err(Fault::Invalid(Refused { offset, wanted })) => {
            let offset = offset.min(text.len());
            Err(JsonError::Invalid {
                line: line_at(text, offset),
                column: column_at(text, offset),
                reason: reason_at(text, offset, wanted),
            })
        }
        Err(Fault::OutOfMemory) => Err(JsonError::OutOfMemory),
    }
}

/// The one value of a reader, and nothing after it.
fn read_document<'d>(alloc: Global, reader: &mut Reader<'d>) -> Result<Document<'d>, Fault>
    ensures ok { IfOk result (λ document. read_document reader.old ≡ Some (view document)) }
    ensures invalid { (at : Refused) → result ≡ Err (Fault.Invalid at)
        → read_document reader.old ≡ None }
    ensures memory { result ≡ Err Fault.OutOfMemory → IsTrue (opens reader.old) }
{
    let document = read_value(alloc, reader, MAX_DEPTH, Wanted::Value)?;
    let end = Refused {
        offset: reader.offset(),
        wanted: Wanted::NoMore,
    };
    match reader.next() {
        Some(_) => Err(Fault::Invalid(end)),
        None => Ok(document),
    }
}
