//! The input: the shapes, the root, the builder and the document.
ghost use Rattle.std.specs.Prelude.{◌≡◌, IfErr, IfOk, IsErrOf, None, Some, map};
ghost use Rattle.serde_json.specs.View.{members_view, view};
ghost use Rattle.facet_solver_program.specs.ShapeView.{shape_view};
ghost use Rattle.facet_solver_program.specs.Input as input;
ghost use Rattle.facet_solver_program.specs.Input.{input_view};

use crate::decode::error::{BadInput, DecodeError};
use crate::decode::member::index_at;
use crate::decode::shape::shapes;
use crate::decode::word::{self, Builder};
use facet_solver::{Shape, ShapeId};
use serde_json::{Map, Value};
use std::alloc::Global;

/// What an input says.
#[derive(Drop)]
pub struct Input<'v> {
    /// The shapes, which are not checked.
    pub shapes: Vec<Shape>,
    /// The index of the document's shape, which the shapes may lack.
    pub root: ShapeId,
    /// How flattened enums are written.
    pub builder: Builder,
    /// The document's members.
    pub document: &'v Map<String, Value>,
}

/// The input that a value is. Errors: `BadInput` where it is none; `OutOfMemory`.
pub fn decode<'v>(alloc: Global, value: &'v Value) -> Result<Input<'v>, DecodeError>
    ensures ok { IfOk result (λ i. input.decode (view value.now) ≡ Some (input_view i)) }
    ensures bad { IsErrOf result DecodeError.BadInput → input.decode (view value.now) ≡ None }
{
    Ok(Input {
        shapes: shapes_at(alloc, value)?,
        root: index_at(value, "root")?,
        builder: builder_at(value)?,
        document: document_at(value)?,
    })
}

/// The shapes that an input lists.
fn shapes_at(alloc: Global, value: &Value) -> Result<Vec<Shape>, DecodeError>
    ensures ok { IfOk result (λ shapes.
        input.shapes_at (view value.now) ≡ Some (map shape_view shapes.items)) }
    ensures bad { IsErrOf result DecodeError.BadInput → input.shapes_at (view value.now) ≡ None }
{
    match value.get("shapes").and_then(Value::as_array) {
        Some(items) => shapes(alloc, items),
        None => Err(DecodeError::BadInput),
    }
}

/// The builder that an input asks for.
fn builder_at(value: &Value) -> Result<Builder, BadInput>
    ensures ok { IfOk result (λ builder. input.builder_at (view value.now) ≡ Some builder) }
    ensures bad { IfErr result (λ _. input.builder_at (view value.now) ≡ None) }
{
    match value.get("build") {
        None => Ok(Builder::Flattened),
        Some(builder) => builder
            .as_str()
            .and_then(word::named_builder)
            .ok_or(BadInput),
    }
}

/// The members of an input's document.
fn document_at(value: &Value) -> Result<&Map<String, Value>, BadInput>
    ensures ok { IfOk result (λ document.
        input.document_at (view value.now) ≡ Some (members_view document.now.entries)) }
    ensures bad { IfErr result (λ _. input.document_at (view value.now) ≡ None) }
{
    value
        .get("document")
        .and_then(Value::as_object)
        .ok_or(BadInput)
}
