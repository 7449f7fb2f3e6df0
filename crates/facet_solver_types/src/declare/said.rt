//! The attributes on a subject, as far as declarations take them.
ghost use Rattle.std.specs.Prelude.{◌≡◌, IfOk};
ghost use Rattle.facet_solver_types.specs.AttributeLists.{attributes_view};
ghost use Rattle.facet_solver_types.specs.Attributes.{attribute_view};
ghost use Rattle.facet_solver_types.specs.Gatherings.{gathering_view};
ghost use Rattle.facet_solver_types.specs.SaidOn.{has_type, lone_opaque, opaque_fault, refused, said_on};
ghost use Rattle.facet_solver_types.specs.Tokens.{tokens_view};

use super::sought::offset_of;
use crate::attribute::{Attribute, Meaning, Misuse, Refusal, Subject, Value, attributes};
use crate::fault::Fault;
use crate::gathering::Gathering;
use crate::problem::Problem;
use crate::token::Token;
use std::alloc::{AllocError, Global};

/// The fault of an attribute that stands at an offset and is refused.
pub(super) fn refused(offset: usize, refusal: Refusal) -> Fault
    ensures { result ≡ refused offset refusal }
{
    Fault::At {
        offset,
        problem: Problem::Attribute(refusal),
    }
}

/// Whether some attribute says a type, as a proxy does.
fn has_type(found: &[Attribute<'_, '_>]) -> bool
    ensures { result ≡ has_type (attributes_view found.now) }
{
    for attribute in found {
        if let Value::Type(_) = attribute.value {
            return true;
        }
    }
    false
}

/// Where `opaque` stands without a proxy.
fn lone_opaque(found: &[Attribute<'_, '_>]) -> Option<usize>
    ensures { result ≡ lone_opaque (attributes_view found.now) }
{
    if has_type(found) {
        None
    } else {
        offset_of(Meaning::Opaque, found)
    }
}

/// The fault of `opaque` that stands without a proxy.
fn opaque_fault(found: &[Attribute<'_, '_>]) -> Option<Fault>
    ensures { result ≡ opaque_fault (attributes_view found.now) }
{
    match lone_opaque(found) {
        None => None,
        Some(offset) => Some(refused(offset, Refusal::Misused(Misuse::Unsupported))),
    }
}

/// The attributes on a subject, with the faults of attributes. Where there is none, `opaque`
/// without a proxy is one.
///
/// The only error is out of memory.
pub(super) fn said_on<'s, 't>(
    alloc: Global,
    subject: Subject,
    written: &'s [Token<'t>],
) -> Result<Gathering<Attribute<'s, 't>>, AllocError>
    ensures { IfOk result (λ found. gathering_view attribute_view found
        ≡ said_on subject (tokens_view written.now)) }
{
    let mut found = attributes(alloc, subject, written)?;
    let fault = opaque_fault(&found.values);
    found.or_fault(fault)?;
    Ok(found)
}
