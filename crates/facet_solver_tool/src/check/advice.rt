//! What would tell the variants of an ambiguity apart: fields that a document may leave out, each
//! tried as one that it must have.

mod copies;
mod optional;
mod values;

use super::Checked;
use super::reports::report_of;
use copies::copied_shapes;
use facet_solver_checker::{Ambiguity, Evidence, Report};
use facet_solver_reader::{TypeError, Unknown};
use facet_solver_shape::{ShapeId, ShapeKind, Shapes};
use optional::{OptionalField, names_of, optional_fields};
use std::alloc::{AllocError, Global};
use values::have_values;

/// The most work that changes of types may be. Each takes one more check, which takes time by the
/// square of the fields and variants of the types where many are alike, and counts as that: so
/// there is one change of 500 of these, or 25 of 100.
const MOST_WORK: usize = 250_000;

/// The most changes that are tried for one ambiguity.
const MOST_FOR_ONE: usize = 16;

/// The names of the fields that would tell the variants of an ambiguity apart, if they were
/// required. Each was tried by itself: the ambiguity is gone then, and nothing new is told. There
/// is none where no document shows the ambiguity, and of large types.
pub fn advice_on<'c>(
    alloc: Global,
    checked: &Checked<'c>,
    report: &Report<'c>,
    ambiguity: &Ambiguity<'c>,
) -> Result<Vec<&'c str>, AllocError> {
    let most = changes_for_each(parts_of(checked.shapes), report.ambiguities.len());
    match &ambiguity.evidence {
        Evidence::Witness { .. } if most > 0 => {
            let trial = Trial {
                checked,
                report,
                ambiguity,
            };
            trial.helpful_names(alloc, most)
        }
        _ => Ok(Vec::new(alloc)),
    }
}

/// How many changes of types with so many fields and variants are tried at most for each of so many
/// ambiguities.
fn changes_for_each(parts: usize, ambiguities: usize) -> usize {
    let for_all = MOST_WORK / parts.saturating_mul(parts).max(1);
    MOST_FOR_ONE.min(for_all / ambiguities.max(1))
}

/// How many fields and variants the shapes of a catalogue have.
fn parts_of(shapes: &Shapes) -> usize {
    let mut parts = 0_usize;
    for index in 0..shapes.len() {
        if let Some(shape) = shapes.get(ShapeId::new(index)) {
            parts = parts.saturating_add(parts_of_kind(&shape.kind));
        }
    }
    parts
}

/// How many fields and variants a shape of a kind has.
fn parts_of_kind(kind: &ShapeKind) -> usize {
    match kind {
        ShapeKind::Struct { fields, .. } => fields.len(),
        ShapeKind::Enum { variants } => {
            let mut parts = variants.len();
            for variant in variants {
                parts = parts.saturating_add(variant.fields.len());
            }
            parts
        }
        _ => 0,
    }
}

/// What changes of types are to mend.
#[derive(Clone, Copy)]
struct Trial<'r, 'c> {
    /// The types.
    checked: &'r Checked<'c>,
    /// What is told of them.
    report: &'r Report<'c>,
    /// The ambiguity that is to be gone.
    ambiguity: &'r Ambiguity<'c>,
}

impl<'c> Trial<'_, 'c> {
    /// The names of the fields that help, in the order of the variants and of their fields. So many
    /// names are tried at most.
    fn helpful_names(&self, alloc: Global, most: usize) -> Result<Vec<&'c str>, AllocError> {
        let fields = optional_fields(alloc, self.checked.shapes, &self.ambiguity.variants)?;
        let names = names_of(alloc, &fields)?;
        let mut helpful = Vec::new(alloc);
        for name in names.iter().take(most) {
            if self.helps(alloc, &fields, name)? {
                helpful.push(*name)?;
            }
        }
        Ok(helpful)
    }

    /// Whether it helps that a document must have those of some fields that have a name.
    fn helps(
        &self,
        alloc: Global,
        fields: &[OptionalField<'c>],
        name: &str,
    ) -> Result<bool, AllocError> {
        let mut shapes = copied_shapes(alloc, self.checked.shapes)?;
        for field in fields {
            if field.name == name {
                field.require(&mut shapes);
            }
        }
        match Shapes::new(shapes) {
            Ok(shapes) => {
                Ok(have_values(alloc, &shapes, fields)? && self.is_mended(alloc, &shapes)?)
            }
            Err(_fault) => Ok(false),
        }
    }

    /// Whether of the root in a changed catalogue the ambiguity is not told, and nothing new is.
    fn is_mended(&self, alloc: Global, shapes: &Shapes) -> Result<bool, AllocError> {
        let unknown = if self.report.plan.strict {
            Unknown::Refused
        } else {
            Unknown::Ignored
        };
        match report_of(alloc, shapes, self.checked.id, unknown) {
            Ok(report) => Ok(self.is_mended_in(&report)),
            Err(TypeError::OutOfMemory) => Err(AllocError),
            Err(_refused) => Ok(false),
        }
    }

    /// Whether a report does not tell the ambiguity, and tells nothing that was not told before.
    fn is_mended_in(&self, report: &Report<'_>) -> bool {
        report.ambiguities.iter().all(|left| {
            !is_same(left, self.ambiguity) && is_among(&self.report.ambiguities, left)
        })
    }
}

/// Whether an ambiguity is one of some.
fn is_among(ambiguities: &[Ambiguity<'_>], ambiguity: &Ambiguity<'_>) -> bool {
    ambiguities.iter().any(|other| is_same(other, ambiguity))
}

/// Whether two ambiguities are of one place, and of the same variants.
fn is_same(first: &Ambiguity<'_>, second: &Ambiguity<'_>) -> bool {
    let have_one_owner = first.owner == second.owner;
    let have_one_field = first.field == second.field;
    let have_same_variants = first.variants == second.variants;
    have_one_owner && have_one_field && have_same_variants
}
