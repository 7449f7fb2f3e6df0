//! Members of a JSON object, by their keys.
ghost use Rattle.std.specs.Prelude.{◌≡◌, IfErr, IfOk, IsErrOf, None, Some, string_bytes};
ghost use Rattle.serde_json.specs.View.{items_view, view};
ghost use Rattle.facet_solver.specs.Names.{optional_name};
ghost use Rattle.facet_solver_program.specs.Members as members;

use crate::decode::error::{BadInput, DecodeError};
use facet_solver::ShapeId;
use serde_json::Value;
use std::alloc::Global;

/// The highest index of a shape that an input may have.
const LAST_INDEX: u64 = 4_294_967_295;

/// The text under a key. Errors: `BadInput` where there is none; `OutOfMemory`.
pub fn text_at(alloc: Global, value: &Value, key: &str) -> Result<String, DecodeError>
    ensures ok { IfOk result (λ text.
        members.text_at key.now (view value.now) ≡ Some (string_bytes text)) }
    ensures bad { IsErrOf result DecodeError.BadInput
        → members.text_at key.now (view value.now) ≡ None }
{
    let text = word_at(value, key)?;
    Ok(String::from_str(alloc, text)?)
}

/// The text under a key, as it stands in the value. The only error is `BadInput`, where there is
/// none.
pub fn word_at<'v>(value: &'v Value, key: &str) -> Result<&'v str, BadInput>
    ensures ok { IfOk result (λ text. members.text_at key.now (view value.now) ≡ Some text.now) }
    ensures bad { IfErr result (λ _. members.text_at key.now (view value.now) ≡ None) }
{
    value.get(key).and_then(Value::as_str).ok_or(BadInput)
}

/// The text under a key, or `None` where the key is absent. Errors: `BadInput` where the value is
/// no text; `OutOfMemory`.
pub fn optional_text_at(
    alloc: Global,
    value: &Value,
    key: &str,
) -> Result<Option<String>, DecodeError>
    ensures ok { IfOk result (λ text.
        members.optional_text_at key.now (view value.now) ≡ Some (optional_name text)) }
    ensures bad { IsErrOf result DecodeError.BadInput
        → members.optional_text_at key.now (view value.now) ≡ None }
{
    match value.get(key) {
        None => Ok(None),
        Some(text) => {
            let text = text.as_str().ok_or(DecodeError::BadInput)?;
            Ok(Some(String::from_str(alloc, text)?))
        }
    }
}

/// The index of a shape.
fn as_index(value: &Value) -> Result<ShapeId, BadInput>
    ensures ok { IfOk result (λ index. members.as_index (view value.now) ≡ Some index) }
    ensures bad { IfErr result (λ _. members.as_index (view value.now) ≡ None) }
{
    match value.as_u64() {
        Some(index) if index <= LAST_INDEX => Ok(ShapeId::new(index as usize)),
        _ => Err(BadInput),
    }
}

/// The index of a shape under a key. The only error is `BadInput`, where there is no whole number
/// up to [`LAST_INDEX`].
pub fn index_at(value: &Value, key: &str) -> Result<ShapeId, BadInput>
    ensures ok { IfOk result (λ index.
        members.index_at key.now (view value.now) ≡ Some index) }
    ensures bad { IfErr result (λ _. members.index_at key.now (view value.now) ≡ None) }
{
    match value.get(key) {
        None => Err(BadInput),
        Some(index) => as_index(index),
    }
}

/// The index of a shape under a key, or `None` where the key is absent. The only error is
/// `BadInput`, where the value is no whole number up to [`LAST_INDEX`].
pub fn optional_index_at(value: &Value, key: &str) -> Result<Option<ShapeId>, BadInput>
    ensures ok { IfOk result (λ index.
        members.optional_index_at key.now (view value.now) ≡ Some index) }
    ensures bad { IfErr result (λ _. members.optional_index_at key.now (view value.now) ≡ None) }
{
    match value.get(key) {
        None => Ok(None),
        Some(index) => Ok(Some(as_index(index)?)),
    }
}

/// The truth value under a key, or `false` where the key is absent. The only error is `BadInput`,
/// where the value is no truth value.
pub fn flag_at(value: &Value, key: &str) -> Result<bool, BadInput>
    ensures ok { IfOk result (λ flag. members.flag_at key.now (view value.now) ≡ Some flag) }
    ensures bad { IfErr result (λ _. members.flag_at key.now (view value.now) ≡ None) }
{
    match value.get(key) {
        None => Ok(false),
        Some(flag) => flag.as_bool().ok_or(BadInput),
    }
}

/// The items of the list under a key, in order, or no items where the key is absent. The only error
/// is `BadInput`, where the value is no list.
pub fn items_at<'v>(value: &'v Value, key: &str) -> Result<&'v [Value], BadInput>
    ensures ok { IfOk result (λ items.
        members.items_at key.now (view value.now) ≡ Some (items_view items.now)) }
    ensures bad { IfErr result (λ _. members.items_at key.now (view value.now) ≡ None) }
{
    match value.get(key) {
        None => Ok(&[]),
        Some(items) => match items.as_array() {
            Some(items) => Ok(items.as_slice()),
            None => Err(BadInput),
        },
    }
}
