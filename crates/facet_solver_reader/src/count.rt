//! How many readings values have, cut at two.
//!
//! A value is read as a target by what that comes to, an object by a list of parts: each list that
//! its choices go through is counted once, those of branches first.
ghost use Rattle.std.specs.Prelude.{◌≡◌, ◌↔◌, IsTrue};
ghost use Rattle.facet_solver_reader.specs.Counted.{times, plus};
ghost use Rattle.facet_solver_reader.specs.declared.count.Count.TheVariants.{None as NoReading};

mod catch_all;
mod chosen;
mod content;
mod each;
mod list;
mod members;
mod memo;
mod name_filter;
mod object;
mod scalar;
mod selection;
mod tag;
mod tagged;
mod target;
mod unknown;
mod untagged;
mod variant;

pub(crate) use chosen::{chosen_branch, lone_branch};
pub(crate) use content::count_no_content;
pub(crate) use list::{count_list, fails_at_once, is_other_tag};
pub(crate) use members::members_of;
pub(crate) use memo::{Asked, Memo};
pub(crate) use object::{Object, count_all, count_object, filter_of, list_counts};
pub(crate) use scalar::{count_scalar, is_told_at_once};
pub(crate) use selection::{count_one_branch, count_selection, fits, touches, touches_rest};
pub(crate) use tagged::named_list;
pub(crate) use target::{count_shape, count_tag, count_target};
pub(crate) use unknown::{has_unknown, has_unknown_beside};
pub(crate) use untagged::{
    count_alternative, count_fallbacks, count_untagged, is_null, reads_content,
};
pub(crate) use variant::{count_contents, count_units};

/// How many readings there are, cut at two.
#[derive(Clone, Copy, PartialEq, Eq, Debug)]
pub enum Count {
    /// None.
    None,
    /// Exactly one.
    One,
    /// Two or more.
    Several,
}

/// One where something is so.
impl From<bool> for Count {
    ghost use Rattle.std.specs.Prelude.{◌≡◌};
    ghost use Rattle.facet_solver_reader.specs.Counted.{once};

    ghost from_gives = { λ b n. n ≡ once b };

    fn from(is_so: bool) -> Count {
        if is_so { Count::One } else { Count::None }
    }
}

impl Count {
    /// How many pairs of one and the other there are.
    pub(crate) fn times(self, other: Count) -> Count
        ensures { result ≡ times self other }
    {
        match (self, other) {
            (Count::None, _) | (_, Count::None) => Count::None,
            (Count::One, Count::One) => Count::One,
            _ => Count::Several,
        }
    }

    /// How many of the one or the other kind there are.
    pub(crate) fn plus(self, other: Count) -> Count
        ensures { result ≡ plus self other }
    {
        match (self, other) {
            (Count::None, _) => other,
            (_, Count::None) => self,
            _ => Count::Several,
        }
    }

    /// Whether there is none.
    pub(crate) fn is_none(self) -> bool
        ensures { IsTrue result ↔ (self ≡ NoReading) }
    {
        matches!(self, Count::None)
    }
}
