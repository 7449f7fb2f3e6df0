//! Fields and variants.
ghost use Rattle.std.specs.Prelude.{◌≡◌, IfErr, IfOk, IsErrOf, None, Some, map};
ghost use Rattle.serde_json.specs.View.{items_view, view};
ghost use Rattle.facet_solver_program.specs.ShapeView.{field_view, variant_view};
ghost use Rattle.facet_solver_program.specs.Catalogue as catalogue;
ghost use Rattle.facet_solver_program.specs.Members.{each};

use crate::decode::error::{BadInput, DecodeError};
use crate::decode::member::{flag_at, index_at, items_at, optional_text_at, text_at};
use crate::decode::word;
use facet_solver::{DomMark, Field, StructKind, Variant};
use serde_json::Value;
use std::alloc::Global;

/// The field that a value is. Errors: `BadInput` where it is none; `OutOfMemory`.
pub fn field(alloc: Global, value: &Value) -> Result<Field, DecodeError>
    ensures ok { IfOk result (λ field. catalogue.field (view value.now) ≡ Some (field_view field)) }
    ensures bad { IsErrOf result DecodeError.BadInput → catalogue.field (view value.now) ≡ None }
{
    Ok(Field {
        name: text_at(alloc, value, "name")?,
        rename: optional_text_at(alloc, value, "rename")?,
        shape: index_at(value, "shape")?,
        flattened: flag_at(value, "flatten")?,
        has_default: flag_at(value, "default")?,
        metadata: flag_at(value, "metadata")?,
        dom: mark_at(value)?,
    })
}

/// The fields that a value lists under `fields`, in order; none where the key is absent. Errors:
/// `BadInput` where one is no field; `OutOfMemory`.
pub fn fields_at(alloc: Global, value: &Value) -> Result<Vec<Field>, DecodeError>
    ensures ok { IfOk result (λ fields.
        catalogue.fields_at (view value.now) ≡ Some (map field_view fields.items)) }
    ensures bad { IsErrOf result DecodeError.BadInput
        → catalogue.fields_at (view value.now) ≡ None }
{
    fields(alloc, items_at(value, "fields")?)
}

/// The fields that items are.
fn fields(alloc: Global, items: &[Value]) -> Result<Vec<Field>, DecodeError>
    ensures ok { IfOk result (λ fields.
        each catalogue.field (items_view items.now) ≡ Some (map field_view fields.items)) }
    ensures bad { IsErrOf result DecodeError.BadInput
        → each catalogue.field (items_view items.now) ≡ None }
{
    let mut fields = Vec::new(alloc);
    for item in items {
        fields.push(field(alloc, item)?)?;
    }
    Ok(fields)
}

/// The variant that a value is. Errors: `BadInput` where it is none; `OutOfMemory`.
pub fn variant(alloc: Global, value: &Value) -> Result<Variant, DecodeError>
    ensures ok { IfOk result (λ variant.
        catalogue.variant (view value.now) ≡ Some (variant_view variant)) }
    ensures bad { IsErrOf result DecodeError.BadInput
        → catalogue.variant (view value.now) ≡ None }
{
    Ok(Variant {
        name: text_at(alloc, value, "name")?,
        kind: struct_kind_at(value, "kind")?,
        fields: fields_at(alloc, value)?,
    })
}

/// The mark of a field.
fn mark_at(value: &Value) -> Result<DomMark, BadInput>
    ensures ok { IfOk result (λ mark. catalogue.mark_at (view value.now) ≡ Some mark) }
    ensures bad { IfErr result (λ _. catalogue.mark_at (view value.now) ≡ None) }
{
    match value.get("dom") {
        None => Ok(DomMark::None),
        Some(mark) => mark.as_str().and_then(word::dom_mark).ok_or(BadInput),
    }
}

/// How fields are written, by the word under a key; by name where the key is absent. The only error
/// is `BadInput`, where the word is not in its list.
pub fn struct_kind_at(value: &Value, key: &str) -> Result<StructKind, BadInput>
    ensures ok { IfOk result (λ kind.
        catalogue.struct_kind_at key.now (view value.now) ≡ Some kind) }
    ensures bad { IfErr result (λ _. catalogue.struct_kind_at key.now (view value.now) ≡ None) }
{
    match value.get(key) {
        None => Ok(StructKind::Struct),
        Some(kind) => kind.as_str().and_then(word::struct_kind).ok_or(BadInput),
    }
}
