//! The resolutions of an entry by the variants that their fields select.
ghost use Rattle.std.specs.Prelude.{◌≡◌, ◌<◌, ◌&&◌, ◌||◌, ℕ, IfOk, OnOk, Option, nat_eq};
ghost use Rattle.facet_solver_shape.specs.Names.{Name, name_eq};
ghost use Rattle.facet_solver.specs.schema.Selected.{AreBelow, IsBelow, SelectsMore, is_in, name_of, named_set, same_variant, selects, set_of};
ghost use Rattle.facet_solver.specs.declared.schema.index.selected.Selected.TheVariants.{Same};
ghost use Rattle.facet_solver.specs.set.IndexSet.{has_index};

use crate::schema::index::entry::Occurrence;
use crate::set::ResolutionSet;
use std::alloc::{AllocError, Global};
use std::collections::{BTreeMap, btree_map};

/// The resolutions of an entry by the variants that their fields select.
#[derive(Drop)]
pub(crate) struct VariantSets<'c> {
    /// Those that select the variant of a name.
    pub(crate) named: BTreeMap<&'c str, ResolutionSet>,
    /// Those that select none.
    pub(crate) without: ResolutionSet,
}

impl<'c> VariantSets<'c> {
    /// Some resolutions that all select one variant, or all none, and a resolution more.
    pub(super) fn of_different(
        alloc: Global,
        before: &ResolutionSet,
        known: Option<&'c str>,
        at: &Occurrence<'c>,
    ) -> Result<Self, AllocError>
        requires index { at.now.index < at.now.bound }
        requires bound { before.now.bound ≡ at.now.bound }
        ensures below { IfOk result (AreBelow at.now.bound) }
        ensures sets { IfOk result (λ sets. SelectsMore at.now
            (selects (Same known.entry) before.now.members)
            (λ variant. is_in (set_of sets variant))) }
    {
        let mut sets = VariantSets::of_same(alloc, before, known)?;
        sets.add(alloc, at)?;
        Ok(sets)
    }

    /// Some resolutions that all select one variant, or all none.
    fn of_same(
        alloc: Global,
        all: &ResolutionSet,
        variant: Option<&'c str>,
    ) -> Result<Self, AllocError>
        ensures below { IfOk result (AreBelow all.now.bound) }
        ensures sets { IfOk result (λ sets. (asked : Option Name) (index : ℕ)
            → is_in (set_of sets asked) index ≡ (has_index all.now.members index
            && same_variant (name_of variant.entry) asked)) }
    {
        let same = all.copied()?;
        let mut named = BTreeMap::new(alloc);
        match variant {
            Some(name) => {
                named.insert(name, same)?;
                let without = all.emptied(alloc)?;
                Ok(VariantSets { named, without })
            }
            None => Ok(VariantSets {
                named,
                without: same,
            }),
        }
    }

    /// Adds a resolution.
    pub(super) fn add(&mut self, alloc: Global, at: &Occurrence<'c>) -> Result<(), AllocError>
        requires index { at.now.index < at.now.bound }
        requires below { AreBelow at.now.bound self.old }
        ensures below { OnOk result (AreBelow at.now.bound self.new) }
        ensures sets { OnOk result (SelectsMore at.now
            (λ variant. is_in (set_of self.old variant))
            (λ variant. is_in (set_of self.new variant))) }
    {
        match at.variant {
            Some(name) => add_named(&mut self.named, alloc, name, at),
            None => {
                self.without.insert(at.index);
                Ok(())
            }
        }
    }
}

/// Adds a resolution to those that select the variant of a name.
fn add_named<'c>(
    named: &mut BTreeMap<&'c str, ResolutionSet>,
    alloc: Global,
    name: &'c str,
    at: &Occurrence<'c>,
) -> Result<(), AllocError>
    requires index { at.now.index < at.now.bound }
    requires below { (n : Name) → IsBelow at.now.bound (named_set named.old n) }
    ensures below { OnOk result ((n : Name) → IsBelow at.now.bound (named_set named.new n)) }
    ensures sets { OnOk result ((n : Name) (index : ℕ) → index < at.now.bound
        → is_in (named_set named.new n) index
        ≡ ((nat_eq index at.now.index && name_eq name.now n)
        || is_in (named_set named.old n) index)) }
{
    match named.entry(name)? {
        btree_map::Entry::Occupied(entry) => entry.into_mut().insert(at.index),
        btree_map::Entry::Vacant(place) => {
            let mut set = ResolutionSet::empty(alloc, at.bound)?;
            set.insert(at.index);
            place.insert(set);
        }
    }
    Ok(())
}
