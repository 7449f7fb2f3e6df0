//! The sample of the README, word for word, and what it answers.
ghost use Rattle.std.specs.Prelude.{◌≡◌, IfOk, length};

use crate::answer::Answer;
use facet_solver::{
    Field, FieldKey, ScalarType, Schema, Shape, ShapeId, ShapeKind, Shapes, Solver, StructKind,
    Variant,
};
use std::alloc::{AllocError, Global};

/// The shapes of `Message`. A shape refers to others by index, and stands after them.
fn shapes(alloc: Global) -> Result<Vec<Shape>, AllocError>
    ensures { IfOk result (λ shapes. length shapes.items ≡ 3) }
{
    let text = |text: &str| String::from_str(alloc, text);
    let kind = StructKind::Struct;
    let mut shapes = Vec::new(alloc);
    shapes.push(Shape::new(text("String")?, ShapeKind::Scalar(ScalarType::String)))?;
    let mut variants = Vec::new(alloc);
    for (variant, field) in &[("Text", "content"), ("Binary", "data")] {
        let mut fields = Vec::new(alloc);
        fields.push(Field::new(text(field)?, ShapeId::new(0)))?;
        variants.push(Variant::new(text(variant)?, kind, fields))?;
    }
    shapes.push(Shape::new(text("MessagePayload")?, ShapeKind::Enum { variants }))?;
    let mut payload = Field::new(text("payload")?, ShapeId::new(1));
    payload.flattened = true;
    let mut fields = Vec::new(alloc);
    fields.push(Field::new(text("id")?, ShapeId::new(0)))?;
    fields.push(payload)?;
    shapes.push(Shape::new(text("Message")?, ShapeKind::Struct { kind, fields }))?;
    Ok(shapes)
}

/// The payload of a message that has these keys, or why it is not clear.
fn payload(alloc: Global, keys: &[&str]) -> Result<String, AllocError> {
    let shapes = match Shapes::new(shapes(alloc)?) {
        Ok(shapes) => shapes,
        Err(error) => return error.to_string(alloc),
    };
    let schema = match Schema::build(alloc, &shapes, ShapeId::new(2)) {
        Ok(schema) => schema,
        Err(error) => return error.to_string(alloc),
    };
    let mut solver = Solver::new(alloc, &schema)?;
    for key in keys {
        solver.see_key(alloc, FieldKey::flat(key))?;
    }
    match solver.finish(alloc) {
        Ok(handle) => handle.resolution().describe(alloc),
        Err(error) => error.to_string(alloc),
    }
}

/// What the keys of three messages come to.
pub fn keys_tell_the_payload(answer: &mut Answer<'static>) {
    tell(&["id", "content"], "MessagePayload::Text", answer);
    tell(&["data", "id"], "MessagePayload::Binary", answer);
    tell(
        &["data"],
        "No matching configuration for fields [\"data\"]\n\nNo variant matched:\n  \
         - MessagePayload::Binary: missing field 'id'",
        answer,
    );
}

fn tell(keys: &[&str], wanted: &'static str, answer: &mut Answer<'static>) {
    match payload(answer.alloc, keys) {
        // The error `OutOfMemory` has a text too.
        Ok(text) if text.as_str() == "out of memory" => answer.refused(),
        Ok(text) => answer.add(text.as_str()),
        Err(AllocError) => answer.refused(),
    }
    answer.claim(wanted);
}
