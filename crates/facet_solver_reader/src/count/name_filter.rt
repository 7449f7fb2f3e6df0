//! A few bits of the names of an object, by which most names that it lacks are known to be missing.
ghost use Rattle.std.specs.Prelude.{◌≡◌, ◌<◌, IsTrue, map};
ghost use Rattle.facet_solver_shape.specs.Names.{Name};
ghost use Rattle.facet_solver_reader.specs.NameFilters.{HoldsNames, bit_of, may_have};
ghost use Rattle.facet_solver_reader.specs.Reading.{member_view};

use crate::document::Document;

/// More names set so many bits that they tell little, and take long to go through.
const MANY_NAMES: usize = 64;

/// A bit for each of some names. Names may share one: where it is set, a name may be among them,
/// and where it is not, the name is none of them.
#[derive(Clone, Copy, Debug)]
pub(crate) struct NameFilter {
    bits: u64,
}

impl NameFilter {
    /// The filter that tells of no name that it is missing.
    pub(super) fn any() -> NameFilter
        ensures { (x : Name) → IsTrue (may_have result x) }
    {
        NameFilter { bits: u64::MAX }
    }

    /// The filter of the names of members.
    pub(super) fn of(members: &[(&str, Document<'_>)]) -> NameFilter
        ensures { HoldsNames (map member_view members.now) result }
    {
        if members.len() > MANY_NAMES {
            return NameFilter::any();
        }
        let mut bits = 0;
        for member in members {
            bits |= 1u64 << bit_of(member.0);
        }
        NameFilter { bits }
    }

    /// Whether a name may be among the names.
    pub(super) fn may_have(&self, name: &str) -> bool
        ensures { result ≡ may_have self.now name.now }
    {
        if self.bits == u64::MAX {
            return true;
        }
        (self.bits >> bit_of(name)) & 1 == 1
    }
}

/// The bit that stands for a name. Names of one type mostly differ at their ends or in length.
#[tactic(auto, unfolding(crate::specs::NameFilters::bit_of))]
fn bit_of(name: &str) -> usize
    ensures bit { result ≡ bit_of name.now }
    ensures below { result < 64 }
{
    let bytes = name.as_bytes();
    let length = bytes.len();
    if length == 0 {
        return 0;
    }
    let first = bytes[0] as usize;
    let next_to_last = bytes[length.saturating_sub(2)] as usize;
    let last = bytes[length - 1] as usize;
    (length % 64 + 3 * first + 7 * next_to_last + 13 * last) % 64
}
