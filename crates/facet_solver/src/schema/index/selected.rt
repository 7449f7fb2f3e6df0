//! The variants that the fields of an entry select.
ghost use Rattle.std.specs.Prelude.{◌≡◌, ◌<◌, false, OnOk};
ghost use Rattle.std.specs.Option.{option_map};
ghost use Rattle.facet_solver.specs.schema.IndexEntries.{with_number};
ghost use Rattle.facet_solver.specs.schema.Selected.{HasSetsBelow, SelectsMore, name_of, same_variant, selects};
ghost use Rattle.facet_solver.specs.set.IndexSet.{has_index};
ghost use Rattle.facet_solver.specs.solver.Tag.{last_variant};

use crate::schema::index::entry::Occurrence;
use crate::schema::index::variant_sets::VariantSets;
use crate::set::ResolutionSet;
use facet_solver_shape::{FieldPath, PathSegment};
use std::alloc::{AllocError, Global};

/// The variant that a field selects: that which its path ends in.
pub(crate) fn last_variant<'c>(path: &FieldPath<'c>) -> Option<&'c str>
    ensures { option_map (λ variant. variant.now) result ≡ last_variant path.now }
{
    match path.last()? {
        PathSegment::Variant(_, variant) => Some(*variant),
        PathSegment::Field(_) => None,
    }
}

/// The variants that the fields of an entry select.
#[derive(Drop)]
pub(crate) enum Selected<'c> {
    /// Each field selects this one, or none selects any.
    Same(Option<&'c str>),
    /// They differ.
    Different(Box<VariantSets<'c>>),
}

impl<'c> Selected<'c> {
    /// Adds what the field of one resolution more selects, beside the resolutions of the entry.
    pub(super) fn add(
        &mut self,
        alloc: Global,
        before: &ResolutionSet,
        at: &Occurrence<'c>,
    ) -> Result<(), AllocError>
        requires index { at.now.index < at.now.bound }
        requires bound { before.now.bound ≡ at.now.bound }
        requires below { HasSetsBelow at.now.bound self.old }
        ensures below { OnOk result (HasSetsBelow at.now.bound self.new) }
        ensures selected { OnOk result (SelectsMore at.now (selects self.old before.now.members)
            (selects self.new (with_number before.now at.now.index).members)) }
    {
        match self {
            Selected::Different(sets) => sets.add(alloc, at),
            Selected::Same(known) => {
                let known = *known;
                if is_same(known, at.variant) {
                    return Ok(());
                }
                let sets = VariantSets::of_different(alloc, before, known, at)?;
                *self = Selected::Different(Box::new(alloc, sets)?);
                Ok(())
            }
        }
    }
}

/// Whether two fields select the same variant, or none both.
fn is_same(one: Option<&str>, other: Option<&str>) -> bool
    ensures { result ≡ same_variant (name_of one.entry) (name_of other.entry) }
{
    match (one, other) {
        (Some(one), Some(other)) => one == other,
        (None, None) => true,
        _ => false,
    }
}
