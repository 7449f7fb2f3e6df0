//! Shapes.
ghost use Rattle.std.specs.Prelude.{◌≡◌, IfErr, IfOk, IsErrOf, None, Some, map};
ghost use Rattle.serde_json.specs.View.{items_view, view};
ghost use Rattle.facet_solver_program.specs.ShapeView.{kind_view, shape_view, variant_view};
ghost use Rattle.facet_solver_program.specs.Catalogue as catalogue;
ghost use Rattle.facet_solver_program.specs.Members.{each};

use crate::decode::error::{BadInput, DecodeError};
use crate::decode::field::{fields_at, struct_kind_at, variant};
use crate::decode::member::{
    flag_at, index_at, items_at, optional_index_at, optional_text_at, text_at, word_at,
};
use crate::decode::word;
use facet_solver::{ScalarType, Shape, ShapeKind, Variant};
use serde_json::Value;
use std::alloc::Global;

/// The shapes that items are, in order. Errors: `BadInput` where one is no shape; `OutOfMemory`.
pub fn shapes(alloc: Global, items: &[Value]) -> Result<Vec<Shape>, DecodeError>
    ensures ok { IfOk result (λ shapes.
        each catalogue.shape (items_view items.now) ≡ Some (map shape_view shapes.items)) }
    ensures bad { IsErrOf result DecodeError.BadInput
        → each catalogue.shape (items_view items.now) ≡ None }
{
    let mut shapes = Vec::new(alloc);
    for item in items {
        shapes.push(shape(alloc, item)?)?;
    }
    Ok(shapes)
}

/// The shape that a value is.
#[tactic(auto, unfolding(crate::specs::Catalogue::shape))]
fn shape(alloc: Global, value: &Value) -> Result<Shape, DecodeError>
    ensures ok { IfOk result (λ shape. catalogue.shape (view value.now) ≡ Some (shape_view shape)) }
    ensures bad { IsErrOf result DecodeError.BadInput → catalogue.shape (view value.now) ≡ None }
{
    Ok(Shape {
        type_identifier: text_at(alloc, value, "id")?,
        kind: kind(alloc, value)?,
        inner: optional_index_at(value, "inner")?,
        proxy: optional_index_at(value, "proxy")?,
        tag: optional_text_at(alloc, value, "tag")?,
        content: optional_text_at(alloc, value, "content")?,
        untagged: flag_at(value, "untagged")?,
        metadata_container: flag_at(value, "metadata")?,
    })
}

/// What the shape that a value is is made of.
fn kind(alloc: Global, value: &Value) -> Result<ShapeKind, DecodeError>
    ensures ok { IfOk result (λ kind. catalogue.kind (view value.now) ≡ Some (kind_view kind)) }
    ensures bad { IsErrOf result DecodeError.BadInput → catalogue.kind (view value.now) ≡ None }
{
    match word_at(value, "kind")? {
        "scalar" => Ok(ShapeKind::Scalar(scalar_at(value)?)),
        "struct" => Ok(ShapeKind::Struct {
            kind: struct_kind_at(value, "struct")?,
            fields: fields_at(alloc, value)?,
        }),
        "enum" => Ok(ShapeKind::Enum {
            variants: variants(alloc, items_at(value, "variants")?)?,
        }),
        "option" => Ok(ShapeKind::Option(index_at(value, "of")?)),
        "pointer" => Ok(ShapeKind::Pointer(optional_index_at(value, "of")?)),
        "list" => Ok(ShapeKind::List(index_at(value, "of")?)),
        "array" => Ok(ShapeKind::Array(index_at(value, "of")?)),
        "slice" => Ok(ShapeKind::Slice(index_at(value, "of")?)),
        "set" => Ok(ShapeKind::Set(index_at(value, "of")?)),
        "map" => Ok(ShapeKind::Map(index_at(value, "key")?, index_at(value, "value")?)),
        "dynamic" => Ok(ShapeKind::DynamicValue),
        "other" => Ok(ShapeKind::Other),
        _ => Err(DecodeError::BadInput),
    }
}

/// The variants that items are.
fn variants(alloc: Global, items: &[Value]) -> Result<Vec<Variant>, DecodeError>
    ensures ok { IfOk result (λ variants.
        each catalogue.variant (items_view items.now) ≡ Some (map variant_view variants.items)) }
    ensures bad { IsErrOf result DecodeError.BadInput
        → each catalogue.variant (items_view items.now) ≡ None }
{
    let mut variants = Vec::new(alloc);
    for item in items {
        variants.push(variant(alloc, item)?)?;
    }
    Ok(variants)
}

/// The basic type of a scalar.
fn scalar_at(value: &Value) -> Result<ScalarType, BadInput>
    ensures ok { IfOk result (λ scalar. catalogue.scalar_at (view value.now) ≡ Some scalar) }
    ensures bad { IfErr result (λ _. catalogue.scalar_at (view value.now) ≡ None) }
{
    let scalar = word_at(value, "scalar")?;
    word::scalar_type(scalar).ok_or(BadInput)
}
