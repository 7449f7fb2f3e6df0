//! The tag of an enum: a key whose text is the name of a variant.
ghost use Rattle.std.specs.Prelude.{◌≡◌, ◌≢◌, ◌↔◌, ◌<◌, ◌||◌, [], All, IfOk, IsTrue, None, OnErr, OnOk, Some, filter, if◌then◌else◌};
ghost use Rattle.std.specs.List.{list_any};
ghost use Rattle.facet_solver_shape.specs.Keys.{flat_key};
ghost use Rattle.facet_solver.specs.schema.IndexEntries.{HasBound, selects_in};
ghost use Rattle.facet_solver.specs.set.IndexSet.{has_index};
ghost use Rattle.facet_solver.specs.solver.State.{or_all, passing, see_key};
ghost use Rattle.facet_solver.specs.solver.Tag as state;
ghost use Rattle.facet_solver.specs.solver.Tag.{has_variant_under};

use crate::schema::index::entry::Entry;
use crate::set::ResolutionSet;
use crate::solver::Solver;
use facet_solver_shape::{FieldKey, Steps};
use std::alloc::{AllocError, Global};

impl<'a> Solver<'_, '_, 'a> {
    /// Sees a tag of the document, with the text under it, which may name a variant.
    ///
    /// It is [`Solver::see_key`] of the flat key of the tag. Then of the candidates whose field of
    /// this key selects a variant (its path ends in the variant) only those stay where it is the
    /// named one. A candidate whose field there selects no variant stays too, and so does one
    /// without such a field.
    ///
    /// The answer is true where some candidate has the named variant there. Otherwise no candidate
    /// goes by the text, and the answer is false.
    ///
    /// The only error is out of memory. The candidates and the seen keys are then as before.
    pub fn see_tag(
        &mut self,
        alloc: Global,
        tag: &'a str,
        variant: &str,
    ) -> Result<bool, AllocError>
        ensures named { IfOk result (λ named. IsTrue named
            ↔ (passing (has_variant_under tag.now variant.now)
            (see_key (flat_key tag.now) self.old) ≢ [])) }
        ensures ok { OnOk result (self.new ≡ state.see_tag tag.now variant.now self.old) }
        ensures err { OnErr result (self.new ≡ self.old) }
    {
        let key = FieldKey::flat(tag);
        self.seen.insert(key)?;
        let Some(entry) = self.schema.look_up(key) else {
            return Ok(false);
        };
        if keep_variant(&mut self.candidates, entry, variant) {
            return Ok(true);
        }
        keep_holders(&mut self.candidates, &entry.set);
        Ok(false)
    }
}

/// Where the field of a key in some candidate selects a variant, only those stay that have the key
/// and select no other there.
fn keep_variant(candidates: &mut ResolutionSet, entry: &Entry<'_>, variant: &str) -> bool
    requires bound { candidates.old.bound ≡ entry.now.set.bound }
    requires sets { HasBound entry.now.set.bound (Some entry.now) }
    ensures named { result
        ≡ list_any (selects_in entry.now (Some variant.now)) candidates.old.members }
    ensures kept { candidates.new ≡ (if result then record candidates.old {
      members = filter (λ i. selects_in entry.now (Some variant.now) i
          || selects_in entry.now None i) candidates.old.members;
    } else candidates.old) }
    ensures within { IsTrue result
        → All (λ i. i < candidates.old.bound) candidates.old.members }
{
    if let Some((named, others)) = entry.selecting(variant) {
        if candidates.shares(named) {
            candidates.keep_either(named, others);
            return true;
        }
    }
    false
}

/// Where some candidate is one of a set, only those stay that are.
fn keep_holders(candidates: &mut ResolutionSet, holders: &ResolutionSet)
    requires { candidates.old.bound ≡ holders.now.bound }
    ensures kept { candidates.new ≡ record candidates.old {
      members = or_all (filter (has_index holders.now.members) candidates.old.members)
          candidates.old.members;
    } }
    ensures within { All (λ i. i < candidates.old.bound) candidates.old.members }
{
    if candidates.shares(holders) {
        candidates.keep_common(holders, &mut Steps::new());
    }
}
