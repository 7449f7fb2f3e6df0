//! The ids of types: as they are written, where aliases and parameters are followed, and lifetimes
//! and paths dropped.
ghost use Rattle.std.specs.Prelude.{◌≡◌, IfOk, map};
ghost use Rattle.std.specs.String.{string_bytes};
ghost use Rattle.facet_solver_types.specs.Called.{called_view};
ghost use Rattle.facet_solver_types.specs.Layers.{head_view};
ghost use Rattle.facet_solver_types.specs.Tokens.{tokens_view};
ghost use Rattle.facet_solver_types.specs.TypeIds as type_ids;

use super::called::Called;
use super::layer::Head;
use crate::display::DeclaredName;
use crate::token::Token;
use std::alloc::{AllocError, Global};

/// The first of some ids.
pub(crate) fn first(ids: &[String]) -> &str
    ensures { result.now ≡ type_ids.first (map string_bytes ids.now) }
{
    match ids.split_first() {
        None => "",
        Some((id, _)) => id.as_str(),
    }
}

/// The second of some ids.
pub(crate) fn second(ids: &[String]) -> &str
    ensures { result.now ≡ type_ids.second (map string_bytes ids.now) }
{
    match ids.split_first() {
        None => "",
        Some((_, others)) => first(others),
    }
}

/// Ids with `, ` between.
fn joined(alloc: Global, ids: &[String]) -> Result<String, AllocError>
    ensures { IfOk result (λ text. string_bytes text
        ≡ type_ids.joined (map string_bytes ids.now)) }
{
    let mut text = String::new(alloc);
    if let Some((id, others)) = ids.split_first() {
        text.push_str(id.as_str())?;
        for other in others {
            text.push_str(", ")?;
            text.push_str(other.as_str())?;
        }
    }
    Ok(text)
}

/// Tokens with blanks between.
pub(super) fn spaced(alloc: Global, tokens: &[Token<'_>]) -> Result<String, AllocError>
    ensures { IfOk result (λ text. string_bytes text
        ≡ type_ids.spaced (tokens_view tokens.now)) }
{
    let mut text = String::new(alloc);
    if let Some((first, others)) = tokens.split_first() {
        text.push_str(first.text)?;
        for other in others {
            text.push_str(" ")?;
            text.push_str(other.text)?;
        }
    }
    Ok(text)
}

/// What stands behind the types of a tuple: a comma too, where it is one.
fn tuple_end(ids: &[String]) -> &'static str
    ensures { result.now ≡ type_ids.tuple_end (map string_bytes ids.now) }
{
    if ids.len() == 1 { ",)" } else { ")" }
}

/// The id of a type, by those of the types in it.
pub(super) fn id_of(alloc: Global, head: Head<'_, '_>, ids: &[String]) -> Result<String, AllocError>
    ensures { IfOk result (λ id. string_bytes id
        ≡ type_ids.id_of (head_view head.entry) (map string_bytes ids.now)) }
{
    match head {
        Head::Same | Head::Alias(..) => String::from_str(alloc, first(ids)),
        Head::Bound(id) => String::from_str(alloc, id),
        Head::Declared(_, called) => used_id(alloc, called, ids),
        Head::Scalar(name, _) => String::from_str(alloc, name),
        Head::Dynamic(name) => String::from_str(alloc, name),
        Head::Applied(name, _) => applied_id(alloc, name, ids),
        Head::Standard(name, _) => standard_id(alloc, name, ids),
        Head::Array(len) => {
            let item = first(ids);
            let len = spaced(alloc, len)?;
            format!(in alloc; "[{item}; {len}]")
        }
        Head::Slice => {
            let item = first(ids);
            format!(in alloc; "[{item}]")
        }
        Head::Tuple => {
            let inside = joined(alloc, ids)?;
            let end = tuple_end(ids);
            format!(in alloc; "({inside}{end}")
        }
    }
}

/// The id of what a name makes of the types that it takes.
fn applied_id(alloc: Global, name: &str, ids: &[String]) -> Result<String, AllocError>
    ensures { IfOk result (λ id. string_bytes id
        ≡ type_ids.applied_id name.now (map string_bytes ids.now)) }
{
    let inside = joined(alloc, ids)?;
    format!(in alloc; "{name}<{inside}>")
}

/// The id of a type of std, which may take no types.
fn standard_id(alloc: Global, name: &str, ids: &[String]) -> Result<String, AllocError>
    ensures { IfOk result (λ id. string_bytes id
        ≡ type_ids.standard_id name.now (map string_bytes ids.now)) }
{
    if ids.is_empty() {
        return String::from_str(alloc, name);
    }
    applied_id(alloc, name, ids)
}

/// What a module is called.
fn module_id(module_name: &str) -> &str
    ensures { result.now ≡ type_ids.module_id module_name.now }
{
    if module_name.is_empty() {
        "crate"
    } else {
        module_name
    }
}

/// The id of a declared type without parameters.
fn declared_id(alloc: Global, called: Called<'_>) -> Result<String, AllocError>
    ensures { IfOk result (λ id. string_bytes id
        ≡ type_ids.declared_id (called_view called.entry)) }
{
    let name = DeclaredName(called.name);
    match called.module_name {
        None => name.to_string(alloc),
        Some(module_name) if called.number == 0 => {
            let module_name = module_id(module_name);
            format!(in alloc; "{module_name}::{name}")
        }
        Some(module_name) => {
            let module_name = module_id(module_name);
            let number = called.number;
            format!(in alloc; "{module_name}::{number}::{name}")
        }
    }
}

/// The id of a declared type, with the ids of the types that it takes.
pub(super) fn used_id(
    alloc: Global,
    called: Called<'_>,
    ids: &[String],
) -> Result<String, AllocError>
    ensures { IfOk result (λ id. string_bytes id
        ≡ type_ids.used_id (called_view called.entry) (map string_bytes ids.now)) }
{
    let id = declared_id(alloc, called)?;
    if ids.is_empty() {
        return Ok(id);
    }
    applied_id(alloc, &id, ids)
}
