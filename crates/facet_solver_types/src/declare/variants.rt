//! The variants of enums, with what their attributes say.
ghost use Rattle.std.specs.Prelude.{◌≡◌, IfOk, map};
ghost use Rattle.std.specs.String.{string_bytes};
ghost use Rattle.facet_solver_types.specs.AttributeLists.{attributes_view};
ghost use Rattle.facet_solver_types.specs.Declarations as items;
ghost use Rattle.facet_solver_types.specs.Gatherings.{gathering_view};
ghost use Rattle.facet_solver_types.specs.ReadVariants as read;
ghost use Rattle.facet_solver_types.specs.Understood.{field_view, variant_view};

use super::fields::{AllFields, body_fields};
use super::names::variant_name;
use super::said::said_on;
use super::sought::{case_said, is_said};
use crate::attribute::{Attribute, Meaning, Subject};
use crate::case::Case;
use crate::declaration::{DeclaredField, DeclaredVariant};
use crate::gathering::Gathering;
use crate::item::{Body, VariantDeclaration};
use facet_solver_shape::StructKind;
use std::alloc::{AllocError, Global};

/// What an enum says of all its variants.
#[derive(Clone, Copy, Debug)]
pub(super) struct AllVariants {
    /// The case of their names.
    pub(super) case: Option<Case>,
    /// The case of the names of their fields, where a variant says none.
    pub(super) field_case: Option<Case>,
}

/// The kind of a variant.
fn variant_kind(body: &Body<'_, '_>) -> StructKind
    ensures { result ≡ read.variant_kind (items.body_view body.now) }
{
    match body {
        Body::Unit => StructKind::Unit,
        Body::Tuple(_) => StructKind::Tuple,
        Body::Named(_) => StructKind::Struct,
    }
}

/// What a variant says of all its fields: its own case wins over that of the enum.
///
/// The only error is out of memory.
fn fields_of_variant(
    alloc: Global,
    all: AllVariants,
    found: &[Attribute<'_, '_>],
) -> Result<AllFields, AllocError>
    ensures { IfOk result (λ fields. fields
        ≡ read.fields_of_variant all (attributes_view found.now)) }
{
    let own = case_said(alloc, Meaning::RenameAll, found)?;
    Ok(AllFields {
        case: own.or(all.field_case),
        has_default: false,
        only_needed: false,
        is_newtype: false,
    })
}

/// A variant of a name in a document, with fields.
fn named_variant<'s, 't>(
    alloc: Global,
    variant: &VariantDeclaration<'s, 't>,
    name: String,
    fields: Vec<DeclaredField<'s, 't>>,
) -> Result<DeclaredVariant<'s, 't>, AllocError>
    ensures { IfOk result (λ named. variant_view named
        ≡ read.named_variant (items.variant_view variant.now) (string_bytes name)
        (map field_view fields.entry.items)) }
{
    Ok(DeclaredVariant {
        offset: variant.name.offset,
        written_name: String::from_str(alloc, variant.name.text)?,
        name,
        kind: variant_kind(&variant.body),
        fields,
    })
}

/// A variant with attributes, and the faults of its fields, or else the one of its name.
///
/// The only error is out of memory.
fn read_variant<'s, 't>(
    alloc: Global,
    all: AllVariants,
    found: &[Attribute<'s, 't>],
    variant: &VariantDeclaration<'s, 't>,
) -> Result<Gathering<DeclaredVariant<'s, 't>>, AllocError>
    ensures { IfOk result (λ made. gathering_view variant_view made
        ≡ read.read_variant all (attributes_view found.now) (items.variant_view variant.now)) }
{
    let name = match variant_name(alloc, all.case, found, &variant.name) {
        Ok(name) => name,
        Err(fault) => return Gathering::told(alloc, Err(fault)),
    };
    let fields = body_fields(alloc, fields_of_variant(alloc, all, found)?, &variant.body)?;
    let mut values = Vec::new(alloc);
    values.push(named_variant(alloc, variant, name, fields.values)?)?;
    Ok(Gathering {
        values,
        faults: fields.faults,
    })
}

/// A variant, if it is not skipped. Where one of its attributes has a fault, nothing else of it is
/// looked at; where it is skipped, no fault counts.
///
/// The only error is out of memory.
fn variant<'s, 't>(
    alloc: Global,
    all: AllVariants,
    variant: &VariantDeclaration<'s, 't>,
) -> Result<Gathering<DeclaredVariant<'s, 't>>, AllocError>
    ensures { IfOk result (λ found. gathering_view variant_view found
        ≡ read.variant all (items.variant_view variant.now)) }
{
    let found = said_on(alloc, Subject::Variant, variant.attributes)?;
    if is_said(Meaning::Skip, &found.values) {
        return Ok(Gathering::new(alloc));
    }
    if !found.faults.is_empty() {
        return Ok(Gathering::faulty(alloc, found.faults));
    }
    read_variant(alloc, all, &found.values, variant)
}

/// Variants, but those that are skipped or have a fault in their attributes or in their name, with
/// the faults of their fields.
///
/// The only error is out of memory.
pub(super) fn variants<'s, 't>(
    alloc: Global,
    all: AllVariants,
    written: &[VariantDeclaration<'s, 't>],
) -> Result<Gathering<DeclaredVariant<'s, 't>>, AllocError>
    ensures { IfOk result (λ found. gathering_view variant_view found
        ≡ read.variants all (items.variants_view written.now)) }
{
    let mut found = Gathering::new(alloc);
    for one in written {
        let more = variant(alloc, all, one)?;
        found.append(more)?;
    }
    Ok(found)
}
