//! Structs, with what their attributes say.
ghost use Rattle.std.specs.Prelude.{◌≡◌, IfOk, map};
ghost use Rattle.facet_solver_types.specs.AttributeLists.{attributes_view};
ghost use Rattle.facet_solver_types.specs.Declarations as items;
ghost use Rattle.facet_solver_types.specs.ReadStructs as read;
ghost use Rattle.facet_solver_types.specs.Stated.{stated_view};
ghost use Rattle.facet_solver_types.specs.Understood.{field_view};

use super::fields::{AllFields, body_fields};
use super::said::refused;
use super::sought::{case_said, is_said, offset_of};
use super::stated::Stated;
use crate::attribute::{Attribute, Meaning, Misuse, Refusal, Subject};
use crate::declaration::{Declared, DeclaredField};
use crate::fault::Fault;
use crate::item::Body;
use facet_solver_shape::StructKind;
use std::alloc::{AllocError, Global};

/// What the attributes of a struct stand on.
pub(super) fn subject_of(body: &Body<'_, '_>) -> Subject
    ensures { result ≡ read.subject_of (items.body_view body.now) }
{
    match body {
        Body::Named(_) => Subject::NamedStruct,
        _ => Subject::OtherStruct,
    }
}

/// The kind of a struct.
fn struct_kind(body: &Body<'_, '_>) -> StructKind
    ensures { result ≡ read.struct_kind (items.body_view body.now) }
{
    match body {
        Body::Unit => StructKind::Unit,
        Body::Tuple(_) => StructKind::TupleStruct,
        Body::Named(_) => StructKind::Struct,
    }
}

/// Whether it has one field, without a name.
fn is_newtype(body: &Body<'_, '_>) -> bool
    ensures { result ≡ read.is_newtype (items.body_view body.now) }
{
    match body {
        Body::Tuple(fields) => fields.len() == 1,
        _ => false,
    }
}

/// What a struct says of all its fields.
///
/// The only error is out of memory.
fn fields_of_struct(
    alloc: Global,
    found: &[Attribute<'_, '_>],
    body: &Body<'_, '_>,
) -> Result<AllFields, AllocError>
    ensures { IfOk result (λ fields. fields
        ≡ read.fields_of_struct (attributes_view found.now) (items.body_view body.now)) }
{
    Ok(AllFields {
        case: case_said(alloc, Meaning::RenameAll, found)?,
        has_default: is_said(Meaning::Default, found),
        only_needed: is_said(Meaning::Transparent, found),
        is_newtype: is_newtype(body),
    })
}

/// Whether one of some fields is flattened.
fn has_flattened(fields: &[DeclaredField<'_, '_>]) -> bool
    ensures { result ≡ read.has_flattened (map field_view fields.now) }
{
    for field in fields {
        if field.flattened.is_some() {
            return true;
        }
    }
    false
}

/// What is wrong with `transparent`, which stands at an offset, by the fields: it means the only
/// one, which isn't flattened.
fn fault_at(offset: usize, fields: &[DeclaredField<'_, '_>]) -> Option<Fault>
    ensures { result ≡ read.fault_at offset (map field_view fields.now) }
{
    if has_flattened(fields) {
        return Some(refused(offset, Refusal::Flattens));
    }
    if fields.len() == 1 {
        None
    } else {
        Some(refused(offset, Refusal::Misused(Misuse::Misplaced)))
    }
}

/// The same, if `transparent` stands somewhere.
fn transparent_fault(found: &[Attribute<'_, '_>], fields: &[DeclaredField<'_, '_>]) -> Option<Fault>
    ensures { result
        ≡ read.transparent_fault (attributes_view found.now) (map field_view fields.now) }
{
    match offset_of(Meaning::Transparent, found) {
        Some(offset) => fault_at(offset, fields),
        None => None,
    }
}

/// A struct, with the faults of its fields. Where there is none, `transparent` is one where not one
/// field counts, or one is flattened.
///
/// The only error is out of memory.
pub(super) fn read_struct<'s, 't>(
    alloc: Global,
    found: &[Attribute<'s, 't>],
    body: &Body<'s, 't>,
) -> Result<Stated<'s, 't>, AllocError>
    ensures { IfOk result (λ stated. stated_view stated
        ≡ read.read_struct (attributes_view found.now) (items.body_view body.now)) }
{
    let all = fields_of_struct(alloc, found, body)?;
    let mut fields = body_fields(alloc, all, body)?;
    let fault = transparent_fault(found, &fields.values);
    fields.or_fault(fault)?;
    let declared = Declared::Struct {
        kind: struct_kind(body),
        fields: fields.values,
        is_transparent: is_newtype(body) || is_said(Meaning::Transparent, found),
        says_transparent: is_said(Meaning::Transparent, found),
        is_metadata_container: is_said(Meaning::MetadataContainer, found),
    };
    Ok(Stated {
        declared,
        faults: fields.faults,
    })
}
