//! Whether the reader finds several readings of a document.
ghost use Rattle.std.specs.Prelude.{IfOk, IsTrue};
ghost use Rattle.facet_solver_witnesses.specs.Shown.{IsSeveral};

use crate::ambiguity::PlaceStep;
use crate::documents::surroundings::Surrounded;
use crate::value::Value;
use facet_solver_reader::{
    Branch, Count, DocumentError, PlaceSegment, ReadError, Reader, Several, TypeName,
};
use std::alloc::{AllocError, Global};

/// Whether the document that a value is has several readings.
pub(crate) fn is_several(
    alloc: Global,
    reader: &Reader<'_>,
    value: &Value,
) -> Result<bool, AllocError>
    ensures { IfOk result (λ b. IsTrue b → IsSeveral reader.now value.now) }
{
    let document = value.document(alloc)?;
    match reader.count(alloc, &document) {
        Ok(Count::Several) => Ok(true),
        Ok(_) => Ok(false),
        Err(DocumentError::OutOfMemory) => Err(AllocError),
        Err(DocumentError::NameTwice(_)) => Ok(false),
    }
}

/// The names of the variants that the reader tells of a document, where they stand where the
/// surroundings lead; else none.
pub(crate) fn told_variants<'c>(
    alloc: Global,
    reader: &Reader<'c>,
    surrounded: &Surrounded,
) -> Result<Vec<TypeName<'c>>, AllocError> {
    let document = surrounded.document.document(alloc)?;
    let Err(error) = reader.read(alloc, &document) else {
        return Ok(Vec::new(alloc));
    };
    match &error {
        ReadError::Several(several) if is_at(several, &surrounded.path) => {
            names_of(alloc, &several.variants)
        }
        ReadError::OutOfMemory => Err(AllocError),
        _ => Ok(Vec::new(alloc)),
    }
}

/// The names of variants.
fn names_of<'c>(alloc: Global, variants: &[Branch<'c>]) -> Result<Vec<TypeName<'c>>, AllocError> {
    let mut names = Vec::with_capacity(alloc, variants.len())?;
    for variant in variants {
        names.push(variant.name)?;
    }
    Ok(names)
}

/// Whether several readings differ where a path leads.
fn is_at(several: &Several<'_, '_>, path: &[PlaceStep]) -> bool {
    let segments = several.place.segments();
    segments.len() == path.len()
        && segments.iter().zip(path.iter()).all(|(segment, step)| match (segment, step) {
            (PlaceSegment::Name(name), PlaceStep::Name(other)) => *name == other.as_str(),
            (PlaceSegment::Index(index), PlaceStep::Index(other)) => index == other,
            _ => false,
        })
}
