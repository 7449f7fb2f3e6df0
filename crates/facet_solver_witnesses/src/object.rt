//! Objects that are read by two lists of parts.
mod modes;
mod narrow;
mod search;
mod side;
mod state;

use crate::model::atoms::ObjectAtom;
use crate::questions::pairs::Asking;
use crate::questions::{Made, Questions};
use modes::{Mode, ModeOf, modes_of};
use search::search;
use side::Around;
pub(crate) use side::Forced;
use std::alloc::AllocError;

/// What a search finds.
#[derive(Drop)]
pub(crate) enum Found<'c> {
    /// There is none.
    None,
    /// Its steps ran out.
    Maybe,
    /// A value.
    Value(Made<'c>),
}

impl<'c> Found<'c> {
    /// The smaller of what is found and another value.
    pub(crate) fn smaller(self, made: Made<'c>) -> Found<'c> {
        match self {
            Found::Value(found) if found.size <= made.size => Found::Value(found),
            _ => Found::Value(made),
        }
    }

    /// What two searches find.
    pub(crate) fn or(self, other: Found<'c>) -> Found<'c> {
        match (self, other) {
            (found, Found::Value(made)) => found.smaller(made),
            (Found::Value(made), _) => Found::Value(made),
            (Found::None, Found::None) => Found::None,
            _ => Found::Maybe,
        }
    }
}

/// An object that two atoms read, with a member that it is to have.
pub(crate) fn common_object<'c>(
    asking: &Asking<'_, 'c>,
    questions: &mut Questions<'c>,
    first: ObjectAtom,
    second: ObjectAtom,
    forced: Forced<'c>,
) -> Result<Found<'c>, AllocError> {
    let firsts = modes_of(asking.alloc, asking.model, first.list)?;
    let seconds = modes_of(asking.alloc, asking.model, second.list)?;
    let mut found = Found::None;
    for one in &firsts {
        for other in &seconds {
            if matches!(found, Found::Value(_)) {
                return Ok(found);
            }
            let around = Around {
                first: ModeOf::atom(first, *one),
                second: ModeOf::atom(second, *other),
                needs_name: false,
                has_fresh: one.takes() || other.takes() || forced == Forced::Fresh,
                forced,
            };
            found = found.or(search(asking, questions, &around)?);
        }
    }
    Ok(found)
}

/// An object that two lists read, of which each has all members, with one that it is to have; where
/// it needs one, it has a member, or one that catch-alls of both take.
pub(crate) fn common_branch<'c>(
    asking: &Asking<'_, 'c>,
    questions: &mut Questions<'c>,
    first: usize,
    second: usize,
    needs_name: bool,
    forced: Forced<'c>,
) -> Result<Found<'c>, AllocError> {
    let around = Around {
        first: ModeOf::branch(first, Mode::Closed),
        second: ModeOf::branch(second, Mode::Closed),
        needs_name,
        has_fresh: false,
        forced,
    };
    let mut found = search(asking, questions, &around)?;
    if !needs_name && forced != Forced::Fresh {
        return Ok(found);
    }
    for one in &modes_of(asking.alloc, asking.model, first)? {
        for other in &modes_of(asking.alloc, asking.model, second)? {
            if matches!(found, Found::Value(_)) || !one.takes() || !other.takes() {
                continue;
            }
            let around = Around {
                first: ModeOf::branch(first, *one),
                second: ModeOf::branch(second, *other),
                needs_name,
                has_fresh: true,
                forced,
            };
            found = found.or(search(asking, questions, &around)?);
        }
    }
    Ok(found)
}
