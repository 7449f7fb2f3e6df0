//! What is replied to the bytes of an input, step by step.
ghost use Rattle.std.specs.Prelude.{◌≡◌, ◌<◌, IfErr, IfOk, length, nat_lt};
ghost use Rattle.serde_json.specs.View.{members_view, view};
ghost use Rattle.facet_solver.specs.build.Choice.{IsRefusal};
ghost use Rattle.facet_solver.specs.build.Count.{count_of_root};
ghost use Rattle.facet_solver.specs.error.ErrorView.{error_view};
ghost use Rattle.facet_solver.specs.Representation.{asked_view};
ghost use Rattle.facet_solver.specs.declared.DuplicateFieldError.{DuplicateFieldError};
ghost use Rattle.facet_solver.specs.schema.Schema.{IsBuilt};
ghost use Rattle.facet_solver.specs.schema.ResolutionHandle.{index_of, resolution_of};
ghost use Rattle.facet_solver_program.specs.Answer as answer;
ghost use Rattle.facet_solver_program.specs.Answer.{Ending, IsAnswer, IsEndOfDocument, IsEndOfInput, IsEndOfRoot, IsReport, Says};
ghost use Rattle.facet_solver_program.specs.Input as input;
ghost use Rattle.facet_solver_program.specs.Input.{input_view};
ghost use Rattle.facet_solver_program.specs.Reply as replies;

use crate::decode::error::DecodeError;
use crate::decode::input::{Input, decode};
use crate::decode::word::Builder;
use crate::reading::read;
use crate::reply::Reply;
use crate::tell::tell;
use facet_solver::{
    EnumRepr, ResolutionHandle, Schema, SchemaError, ShapeId, Shapes, Solver, SolverError,
};
use serde_json::{Map, Value};
use std::alloc::{AllocError, Global};

/// The most resolutions that are built.
const MOST_RESOLUTIONS: u64 = 4096;

/// The reply to the bytes of an input.
///
/// The only error is out of memory.
pub fn answer(alloc: Global, bytes: &[u8]) -> Result<Reply, AllocError>
    ensures { IfOk result (λ a.
        IsAnswer bytes.now (replies.status a) (replies.text a)) }
{
    match read(alloc, bytes) {
        Ok(value) => answer_value(alloc, &value),
        Err(error) => no_input(error),
    }
}

/// The reply to a value.
fn answer_value(alloc: Global, value: &Value) -> Result<Reply, AllocError>
    ensures { IfOk result (λ a. (ending : Ending)
        × IsEndOfInput (input.decode (view value.now)) ending
        × Says (replies.status a) (replies.text a) ending) }
{
    match decode(alloc, value) {
        Ok(input) => answer_input(alloc, input),
        Err(error) => no_input(error),
    }
}

/// The reply where there is no input.
fn no_input(error: DecodeError) -> Result<Reply, AllocError>
    ensures bad { IfOk result (λ a. (error ≡ DecodeError.BadInput)
        × Says (replies.status a) (replies.text a) answer.bad_input) }
    ensures memory { IfErr result (λ _. error ≡ DecodeError.OutOfMemory) }
{
    match error {
        DecodeError::BadInput => Ok(Reply::BadInput),
        DecodeError::OutOfMemory => Err(AllocError),
    }
}

/// The reply to an input: its shapes are checked, and then the root.
fn answer_input(alloc: Global, input: Input<'_>) -> Result<Reply, AllocError>
    ensures { IfOk result (λ a. (ending : Ending)
        × IsEndOfInput (Some (input_view input.entry)) ending
        × Says (replies.status a) (replies.text a) ending) }
{
    let Input {
        shapes,
        root,
        builder,
        document,
    } = input;
    match Shapes::new(shapes) {
        Ok(shapes) if shapes.has(root) => answer_root(alloc, &shapes, root, builder, document),
        Ok(_) => Ok(Reply::BadInput),
        Err(fault) => Ok(Reply::BadCatalogue(fault)),
    }
}

/// The reply for a root: its resolutions are counted, and then built.
fn answer_root(
    alloc: Global,
    shapes: &Shapes,
    root: ShapeId,
    builder: Builder,
    document: &Map<String, Value>,
) -> Result<Reply, AllocError>
    requires { root < length shapes.now }
    ensures { IfOk result (λ a. (ending : Ending)
        × IsEndOfRoot (answer.build shapes.now builder) root
        (members_view document.now.entries) ending
        × Says (replies.status a) (replies.text a) ending) }
{
    if has_too_many(alloc, shapes, root, builder)? {
        return Ok(Reply::TooManyResolutions);
    }
    match build(alloc, shapes, root, builder) {
        Ok(schema) => answer_document(alloc, &schema, document),
        Err(error) => no_schema(alloc, error),
    }
}

/// The reply where there is no schema.
fn no_schema(alloc: Global, error: SchemaError<'_>) -> Result<Reply, AllocError>
    ensures { IfOk result (λ a. (duplicate : DuplicateFieldError)
        × (error.entry ≡ SchemaError.DuplicateField duplicate)
        × Says (replies.status a) (replies.text a) (answer.duplicate_field duplicate)) }
{
    let text = error.to_string(alloc)?;
    match error {
        SchemaError::DuplicateField(_) => Ok(Reply::DuplicateField(text)),
        SchemaError::OutOfMemory => Err(AllocError),
    }
}

/// Whether a root has more resolutions than are built.
fn has_too_many(
    alloc: Global,
    shapes: &Shapes,
    root: ShapeId,
    builder: Builder,
) -> Result<bool, AllocError>
    requires { root < length shapes.now }
    ensures { IfOk result (λ many.
        many ≡ nat_lt 4096 (count_of_root (answer.build shapes.now builder) root)) }
{
    let count = Schema::resolution_count(alloc, shapes, root, representation(builder))?;
    Ok(count.is_none_or(|count| count > MOST_RESOLUTIONS))
}

/// What a builder gives all flattened enums, or None where each enum's own attributes decide.
fn representation(builder: Builder) -> Option<EnumRepr<'static>>
    ensures { asked_view result ≡ answer.representation builder }
{
    match builder {
        Builder::Flattened => Some(EnumRepr::Flattened),
        Builder::Auto => None,
        Builder::External => Some(EnumRepr::ExternallyTagged),
    }
}

/// The schema of a root, by a builder.
fn build<'c>(
    alloc: Global,
    shapes: &'c Shapes,
    root: ShapeId,
    builder: Builder,
) -> Result<Schema<'c>, SchemaError<'c>>
    requires { root < length shapes.now }
    ensures built { IfOk result (IsBuilt (answer.build shapes.now builder) root) }
    ensures refused { IfErr result (IsRefusal (answer.build shapes.now builder) root) }
{
    match builder {
        Builder::Flattened => Schema::build(alloc, shapes, root),
        Builder::Auto => Schema::build_auto(alloc, shapes, root),
        Builder::External => Schema::build_externally_tagged(alloc, shapes, root),
    }
}

/// The reply to a document: a new solver is told it, and says what it means.
fn answer_document(
    alloc: Global,
    schema: &Schema<'_>,
    document: &Map<String, Value>,
) -> Result<Reply, AllocError>
    ensures { IfOk result (λ a. (ending : Ending)
        × IsEndOfDocument schema.now (members_view document.now.entries) ending
        × Says (replies.status a) (replies.text a) ending) }
{
    let mut solver = Solver::new(alloc, schema)?;
    tell(alloc, schema.shapes(), &mut solver, document)?;
    match solver.finish(alloc) {
        Ok(handle) => resolved(alloc, handle),
        Err(error) => unresolved(alloc, error),
    }
}

/// The reply that tells why not one resolution alone is left.
fn unresolved(alloc: Global, error: SolverError<'_>) -> Result<Reply, AllocError>
    ensures { IfOk result (λ a. IsReport error.entry
        × Says (replies.status a) (replies.text a) (answer.reported (error_view error.entry))) }
{
    let text = error.to_string(alloc)?;
    match error {
        SolverError::NoMatch { .. } => Ok(Reply::Reported(text)),
        SolverError::Ambiguous { .. } => Ok(Reply::Reported(text)),
        SolverError::OutOfMemory => Err(AllocError),
    }
}

/// The reply that names a resolution.
fn resolved(alloc: Global, handle: ResolutionHandle<'_, '_>) -> Result<Reply, AllocError>
    ensures { IfOk result (λ a. Says (replies.status a) (replies.text a)
        (answer.resolved (index_of handle.entry) (resolution_of handle.entry))) }
{
    Ok(Reply::Resolved {
        index: handle.index(),
        description: handle.resolution().describe(alloc)?,
    })
}
