//! The fields of structs and variants, with what their attributes say.
ghost use Rattle.std.specs.Prelude.{◌≡◌, IfOk, map};
ghost use Rattle.facet_solver_types.specs.AttributeLists.{attributes_view};
ghost use Rattle.facet_solver_types.specs.Declarations as items;
ghost use Rattle.facet_solver_types.specs.Gatherings.{gathering_view};
ghost use Rattle.facet_solver_types.specs.Outcomes.{Gives};
ghost use Rattle.facet_solver_types.specs.Passages.{passage_view};
ghost use Rattle.facet_solver_types.specs.ReadFields as read;
ghost use Rattle.facet_solver_types.specs.Tokens.{token_view};
ghost use Rattle.facet_solver_types.specs.Understood.{field_view};

use super::names::field_rename;
use super::proxy::proxies;
use super::said::said_on;
use super::sought::{is_said, mark_said, offset_of};
use crate::attribute::{Attribute, Meaning, Subject};
use crate::case::Case;
use crate::declaration::DeclaredField;
use crate::fault::Fault;
use crate::gathering::Gathering;
use crate::item::{Body, FieldDeclaration};
use crate::passage::Passage;
use crate::token::Token;
use facet_solver_shape::DomMark;
use std::alloc::{AllocError, Global};

/// What a struct or a variant says of all its fields.
#[derive(Clone, Copy, Debug)]
pub(super) struct AllFields {
    /// The case of their names.
    pub(super) case: Option<Case>,
    /// Whether each may be absent.
    pub(super) has_default: bool,
    /// Whether those that may be absent are left out.
    pub(super) only_needed: bool,
    /// Whether it is the one field of a tuple struct.
    pub(super) is_newtype: bool,
}

/// What the attributes of a field stand on.
fn subject_of(all: AllFields, field: &FieldDeclaration<'_, '_>) -> Subject
    ensures { result ≡ read.subject_of all (items.field_view field.now) }
{
    match field.name {
        Some(_) => Subject::NamedField,
        None if all.is_newtype => Subject::NewtypeField,
        None => Subject::TupleField,
    }
}

/// Whether a field is left out: it need not be there where one field counts.
fn is_left_out(all: AllFields, found: &[Attribute<'_, '_>]) -> bool
    ensures { result ≡ read.is_left_out all (attributes_view found.now) }
{
    all.only_needed && is_said(Meaning::Default, found) && !is_said(Meaning::Flatten, found)
}

/// A field with a name.
fn named_field<'s, 't>(
    alloc: Global,
    all: AllFields,
    found: &[Attribute<'s, 't>],
    name: Token<'t>,
    written: Passage<'s, 't>,
) -> Result<DeclaredField<'s, 't>, Fault>
    ensures { Gives field_view
        (read.named_field all (attributes_view found.now) (token_view name.entry)
        (passage_view written.entry)) result }
{
    let proxies = proxies(alloc, found)?;
    let rename = field_rename(alloc, all.case, found, &name)?;
    Ok(DeclaredField {
        offset: name.offset,
        name: String::from_str(alloc, name.text)?,
        rename,
        flattened: offset_of(Meaning::Flatten, found),
        has_default: all.has_default || is_said(Meaning::Default, found),
        metadata: is_said(Meaning::Metadata, found),
        dom: mark_said(found),
        written,
        proxies,
    })
}

/// A field of a tuple, by its number.
fn tuple_field<'s, 't>(
    alloc: Global,
    number: usize,
    found: &[Attribute<'s, 't>],
    written: Passage<'s, 't>,
) -> Result<DeclaredField<'s, 't>, Fault>
    ensures { Gives field_view
        (read.tuple_field number (attributes_view found.now) (passage_view written.entry))
        result }
{
    let proxies = proxies(alloc, found)?;
    Ok(DeclaredField {
        offset: written.place(),
        name: number.to_string(alloc)?,
        rename: None,
        flattened: None,
        has_default: false,
        metadata: false,
        dom: DomMark::None,
        written,
        proxies,
    })
}

/// A field with attributes, by its name or its number.
fn read_field<'s, 't>(
    alloc: Global,
    all: AllFields,
    number: usize,
    found: &[Attribute<'s, 't>],
    field: &FieldDeclaration<'s, 't>,
) -> Result<DeclaredField<'s, 't>, Fault>
    ensures { Gives field_view
        (read.read_field all number (attributes_view found.now) (items.field_view field.now))
        result }
{
    match field.name {
        Some(name) => named_field(alloc, all, found, name, field.written),
        None => tuple_field(alloc, number, found, field.written),
    }
}

/// A field that is read so, if it is not left out.
fn kept_field<'s, 't>(
    alloc: Global,
    all: AllFields,
    number: usize,
    found: &[Attribute<'s, 't>],
    field: &FieldDeclaration<'s, 't>,
) -> Result<Gathering<DeclaredField<'s, 't>>, AllocError>
    ensures { IfOk result (λ kept. gathering_view field_view kept
        ≡ read.kept_field all number (attributes_view found.now) (items.field_view field.now)) }
{
    if is_left_out(all, found) {
        return Ok(Gathering::new(alloc));
    }
    Gathering::told(alloc, read_field(alloc, all, number, found, field))
}

/// A field behind so many others, if it is not left out. Where one of its attributes has a fault,
/// nothing else of it is looked at; where it is skipped, no fault counts.
///
/// The only error is out of memory.
fn field<'s, 't>(
    alloc: Global,
    all: AllFields,
    number: usize,
    field: &FieldDeclaration<'s, 't>,
) -> Result<Gathering<DeclaredField<'s, 't>>, AllocError>
    ensures { IfOk result (λ found. gathering_view field_view found
        ≡ read.field all number (items.field_view field.now)) }
{
    let found = said_on(alloc, subject_of(all, field), field.attributes)?;
    if is_said(Meaning::Skip, &found.values) {
        return Ok(Gathering::new(alloc));
    }
    if !found.faults.is_empty() {
        return Ok(Gathering::faulty(alloc, found.faults));
    }
    kept_field(alloc, all, number, &found.values, field)
}

/// Fields, but those that are left out or have a fault: one in its attributes, in its proxies or
/// in its name.
///
/// The only error is out of memory.
fn fields<'s, 't>(
    alloc: Global,
    all: AllFields,
    written: &[FieldDeclaration<'s, 't>],
) -> Result<Gathering<DeclaredField<'s, 't>>, AllocError>
    ensures { IfOk result (λ found. gathering_view field_view found
        ≡ read.fields all (items.fields_view written.now)) }
{
    let mut found = Gathering::new(alloc);
    for one in written {
        let number = found.values.len();
        let more = field(alloc, all, number, one)?;
        found.append(more)?;
    }
    Ok(found)
}

/// A field of a tuple as the one behind another, that is left out.
fn as_second<'s, 't>(
    alloc: Global,
    field: DeclaredField<'s, 't>,
) -> Result<DeclaredField<'s, 't>, AllocError>
    ensures { IfOk result (λ second. field_view second ≡ read.as_second (field_view field.entry)) }
{
    let number: usize = 1;
    Ok(DeclaredField {
        offset: field.offset,
        name: number.to_string(alloc)?,
        rename: field.rename,
        flattened: field.flattened,
        has_default: field.has_default,
        metadata: field.metadata,
        dom: field.dom,
        written: field.written,
        proxies: field.proxies,
    })
}

/// Fields of a tuple, where others are left out. A lone one is numbered as the second: the lone
/// field 0 of a variant stands for the whole.
///
/// The only error is out of memory.
fn beside_others<'s, 't>(
    alloc: Global,
    mut fields: Vec<DeclaredField<'s, 't>>,
) -> Result<Vec<DeclaredField<'s, 't>>, AllocError>
    ensures { IfOk result (λ found. map field_view found.items
        ≡ read.beside_others (map field_view fields.entry.items)) }
{
    if fields.len() != 1 {
        return Ok(fields);
    }
    if let Some(field) = fields.pop() {
        fields.push(as_second(alloc, field)?)?;
    }
    Ok(fields)
}

/// The fields of a tuple, but those that are left out or have a fault.
///
/// The only error is out of memory.
fn tuple_fields<'s, 't>(
    alloc: Global,
    all: AllFields,
    written: &[FieldDeclaration<'s, 't>],
) -> Result<Gathering<DeclaredField<'s, 't>>, AllocError>
    ensures { IfOk result (λ found. gathering_view field_view found
        ≡ read.tuple_fields all (items.fields_view written.now)) }
{
    let found = fields(alloc, all, written)?;
    if written.len() == 1 {
        return Ok(found);
    }
    Ok(Gathering {
        values: beside_others(alloc, found.values)?,
        faults: found.faults,
    })
}

/// The fields in brackets, if there are brackets, but those that are left out or have a fault.
///
/// The only error is out of memory.
pub(super) fn body_fields<'s, 't>(
    alloc: Global,
    all: AllFields,
    body: &Body<'s, 't>,
) -> Result<Gathering<DeclaredField<'s, 't>>, AllocError>
    ensures { IfOk result (λ found. gathering_view field_view found
        ≡ read.body_fields all (items.body_view body.now)) }
{
    match body {
        Body::Unit => Ok(Gathering::new(alloc)),
        Body::Tuple(written) => tuple_fields(alloc, all, written),
        Body::Named(written) => fields(alloc, all, written),
    }
}
