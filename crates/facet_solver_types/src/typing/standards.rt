//! The types that stand in types of std.
ghost use Rattle.std.specs.Prelude.{◌≡◌, ◌∷◌, [], IfOk, map};
ghost use Rattle.std.specs.String.{string_bytes};
ghost use Rattle.facet_solver_types.specs.Standards as standards;
ghost use Rattle.facet_solver_types.specs.TypeEntries as of;
ghost use Rattle.facet_solver_types.specs.TypeEntries.{entries_view, entry_view};

use super::mention::copied_ids;
use crate::standard::Standard;
use crate::type_entry::{Form, TypeEntry};
use facet_solver_shape::ScalarType;
use std::alloc::{AllocError, Global};

/// Two ids.
fn two_ids(alloc: Global, one: &str, other: &str) -> Result<Vec<String>, AllocError>
    ensures { IfOk result (λ ids. map string_bytes ids.items ≡ one.now ∷ other.now ∷ []) }
{
    let mut ids = Vec::new(alloc);
    ids.push(String::from_str(alloc, one)?)?;
    ids.push(String::from_str(alloc, other)?)?;
    Ok(ids)
}

/// The types of what stands in a type of std that takes these.
pub(super) fn inner_ids(
    alloc: Global,
    kind: Standard,
    ids: &[String],
) -> Result<Vec<String>, AllocError>
    ensures { IfOk result (λ inner. map string_bytes inner.items
        ≡ standards.inner_ids kind (map string_bytes ids.now)) }
{
    match kind {
        Standard::Duration | Standard::SystemTime => two_ids(alloc, "u64", "u32"),
        Standard::OsString => two_ids(alloc, "Vec<u8>", "Vec<u16>"),
        _ => copied_ids(alloc, ids),
    }
}

/// A scalar.
fn scalar(alloc: Global, id: &str, kind: ScalarType) -> Result<TypeEntry, AllocError>
    ensures { IfOk result (λ entry. entry_view entry
        ≡ record { id = id.now; form = of.scalar kind }) }
{
    Ok(TypeEntry {
        id: String::from_str(alloc, id)?,
        form: Form::Scalar(kind),
    })
}

/// A list of the type of an id.
fn list(alloc: Global, id: &str, inside: &str) -> Result<TypeEntry, AllocError>
    ensures { IfOk result (λ entry. entry_view entry
        ≡ record { id = id.now; form = of.list inside.now }) }
{
    Ok(TypeEntry {
        id: String::from_str(alloc, id)?,
        form: Form::List(String::from_str(alloc, inside)?),
    })
}

/// What stands in a type of std whatever it takes, each outer before inner.
pub(super) fn inner_entries(alloc: Global, kind: Standard) -> Result<Vec<TypeEntry>, AllocError>
    ensures { IfOk result (λ entries. entries_view entries.items
        ≡ standards.inner_entries kind) }
{
    let mut entries = Vec::new(alloc);
    match kind {
        Standard::Duration | Standard::SystemTime => {
            entries.push(scalar(alloc, "u64", ScalarType::U64)?)?;
            entries.push(scalar(alloc, "u32", ScalarType::U32)?)?;
        }
        Standard::OsString => {
            entries.push(list(alloc, "Vec<u8>", "u8")?)?;
            entries.push(scalar(alloc, "u8", ScalarType::U8)?)?;
            entries.push(list(alloc, "Vec<u16>", "u16")?)?;
            entries.push(scalar(alloc, "u16", ScalarType::U16)?)?;
        }
        _ => {}
    }
    Ok(entries)
}
