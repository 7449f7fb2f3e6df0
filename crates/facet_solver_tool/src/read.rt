//! The reading of a document.
ghost use Rattle.std.specs.Prelude.{◌≡◌, ◌≢◌, IfOk, Some};
ghost use Rattle.facet_solver_json.specs.declared.error.JsonError.TheVariants as json_errors;
ghost use Rattle.facet_solver_reader.specs.Documents.{view};
ghost use Rattle.facet_solver_tool.specs.declared.status.Status.TheVariants.{BadDocument};
ghost use Rattle.facet_solver_tool.specs.Answer.{answer_view, says};
ghost use Rattle.facet_solver_tool.specs.ReadAnswers.{AnswersBytes, AnswersText, EndsTree, no_json_text, status_of};
ghost use Rattle.facet_solver_tool.specs.RootAnswers as roots;
ghost use Rattle.facet_solver_tool.specs.RootAnswers.{AnswersRead, root_at};

use crate::answer::Answer;
use crate::json::Json;
use crate::printable::Printable;
use crate::question::{Form, Manner};
use crate::root::refused;
use crate::status::Status;
use crate::utf8;
use facet_solver_json::{JsonError, Scratch, parse};
use facet_solver_reader::{Document, ReadError, Reader, Reading, Unknown};
use facet_solver_shape::ShapeId;
use facet_solver_types::Types;
use std::alloc::{AllocError, Global};
use std::str;

/// What a document is called that stands on standard input.
const DOCUMENT: &str = "document";

/// The answer that has the reading of a document as a root. Where the root denies unknown members,
/// they are refused.
///
/// The only error is out of memory.
pub fn answer(
    alloc: Global,
    path: &str,
    types: &Types,
    id: ShapeId,
    manner: Manner,
    document: &[u8],
) -> Result<Answer, AllocError>
    ensures { IfOk result (λ a.
        AnswersRead (root_at path.now types.now id) manner.unknown document.now (answer_view a)) }
{
    let unknown = unknown_at(types, id, manner.unknown);
    let shapes = types.shapes();
    match Reader::new(alloc, shapes, id, unknown) {
        Ok(reader) => {
            let mut scratch = Scratch::new(alloc);
            read_bytes(alloc, &reader, &mut scratch, manner.form, document)
        }
        Err(error) => refused(alloc, path, &error),
    }
}

/// What is done with unknown members: they are refused where the root denies them.
pub(crate) fn unknown_at(types: &Types, id: ShapeId, unknown: Unknown) -> Unknown
    ensures { result ≡ roots.unknown_at types.now id unknown }
{
    if types.denies_unknown(id) {
        Unknown::Refused
    } else {
        unknown
    }
}

/// The answer that a reader has for the bytes of a document. The scratch is for one document after
/// another, since the room of a new one is cleared first.
pub(crate) fn read_bytes(
    alloc: Global,
    reader: &Reader<'_>,
    scratch: &mut Scratch,
    form: Form,
    document: &[u8],
) -> Result<Answer, AllocError>
    ensures { IfOk result (λ a. AnswersBytes reader.now document.now (answer_view a)) }
{
    match str::from_utf8(document) {
        Ok(text) => read_text(alloc, reader, scratch, form, text),
        Err(error) => utf8::answer(alloc, Status::BadDocument, DOCUMENT, document, error),
    }
}

/// The answer that a reader has for the text of a document.
fn read_text(
    alloc: Global,
    reader: &Reader<'_>,
    scratch: &mut Scratch,
    form: Form,
    text: &str,
) -> Result<Answer, AllocError>
    ensures { IfOk result (λ a. AnswersText reader.now text.now (answer_view a)) }
{
    match parse(alloc, text, scratch) {
        Ok(document) => read_document(alloc, reader, form, &document),
        Err(error) => no_json(alloc, error),
    }
}

/// The answer where a text is no JSON.
fn no_json(alloc: Global, error: JsonError) -> Result<Answer, AllocError>
    ensures { IfOk result (λ a. (error ≢ json_errors.OutOfMemory)
        × (answer_view a ≡ says BadDocument (no_json_text error))) }
{
    match error {
        JsonError::OutOfMemory => Err(AllocError),
        JsonError::Invalid { .. } => Ok(Answer {
            status: Status::BadDocument,
            text: format!(in alloc; "{DOCUMENT}:{error}")?,
        }),
    }
}

/// The answer that a reader has for a document.
fn read_document(
    alloc: Global,
    reader: &Reader<'_>,
    form: Form,
    document: &Document<'_>,
) -> Result<Answer, AllocError>
    ensures { IfOk result (λ a. EndsTree reader.now (view document.now) a.status) }
{
    match reader.read(alloc, document) {
        Ok(reading) => Ok(Answer {
            status: Status::Answered,
            text: text_of(alloc, form, &reading)?,
        }),
        Err(error) => unread(alloc, &error),
    }
}

/// The text of a reading.
fn text_of(alloc: Global, form: Form, reading: &Reading<'_, '_, '_>) -> Result<String, AllocError> {
    match form {
        Form::Text => reading.to_string(alloc),
        Form::Json => Json(reading).to_string(alloc),
    }
}

/// The answer where a document is not read.
fn unread(alloc: Global, error: &ReadError<'_, '_>) -> Result<Answer, AllocError>
    ensures { IfOk result (λ a. Some a.status ≡ status_of error.now) }
{
    let text = error.to_string(alloc)?;
    let text = Printable(text.as_str()).to_string(alloc)?;
    match error {
        ReadError::NoReading(_) => Ok(Answer {
            status: Status::NoReading,
            text,
        }),
        ReadError::Several(_) => Ok(Answer {
            status: Status::SeveralReadings,
            text,
        }),
        ReadError::NameTwice(_) => Ok(Answer {
            status: Status::BadDocument,
            text,
        }),
        ReadError::OutOfMemory => Err(AllocError),
    }
}
