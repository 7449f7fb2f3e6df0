//! What an object's members are taken by that a list does not know.
use crate::model::Model;
use crate::model::atoms::ObjectAtom;
use facet_solver_reader::{PlannedCatchAll, PlannedPart};
use facet_solver_shape::ShapeId;
use std::alloc::{AllocError, Global};

/// What is done with members of names that a list does not know.
#[derive(Clone, Copy, PartialEq, Eq)]
pub(crate) enum Mode {
    /// There are none. Choices may have a catch-all.
    Closed,
    /// They are ignored, or refused. Choices have no catch-all.
    Without,
    /// A catch-all of values of any kind takes them. Choices have it.
    TakingAny,
    /// A map takes them, by the shape of its keys and the target of its values. Choices have it.
    TakingMap(ShapeId, usize),
}

impl Mode {
    /// A catch-all takes them.
    pub(crate) fn taking(catch_all: PlannedCatchAll) -> Mode {
        match catch_all {
            PlannedCatchAll::Anything => Mode::TakingAny,
            PlannedCatchAll::Map(key, value) => Mode::TakingMap(key, value),
        }
    }

    /// Whether a catch-all takes them.
    pub(crate) fn takes(self) -> bool {
        matches!(self, Mode::TakingAny | Mode::TakingMap(..))
    }
}

/// A list in a mode.
#[derive(Clone, Copy)]
pub(crate) struct ModeOf {
    pub(crate) list: usize,
    /// The only branch of its only selection that counts, if one is.
    pub(crate) only: Option<usize>,
    pub(crate) mode: Mode,
    /// Whether members that nothing takes are ignored.
    pub(crate) ignores: bool,
    /// Whether all members of known names are its own.
    pub(crate) is_closed: bool,
}

impl ModeOf {
    /// That of an atom.
    pub(crate) fn atom(object: ObjectAtom, mode: Mode) -> ModeOf {
        ModeOf {
            list: object.list,
            only: object.only,
            mode,
            ignores: object.ignores,
            is_closed: false,
        }
    }

    /// That of a branch of a selection.
    pub(crate) fn branch(list: usize, mode: Mode) -> ModeOf {
        ModeOf {
            list,
            only: None,
            mode,
            ignores: false,
            is_closed: true,
        }
    }
}

/// The modes in which a list may read an object: with each of its catch-alls, and without one.
/// Those with one come first, since members are ignored only where nothing takes them.
pub(crate) fn modes_of(
    alloc: Global,
    model: &Model<'_, '_>,
    list: usize,
) -> Result<Vec<Mode>, AllocError> {
    let mut modes = Vec::new(alloc);
    if let Some(planned) = model.list_at(list)
        && planned.takes_rest
    {
        for below in &planned.below {
            push_modes(model, *below, &mut modes)?;
        }
    }
    modes.push(Mode::Without)?;
    Ok(modes)
}

/// Adds the modes of the catch-alls of a list, each once.
fn push_modes(model: &Model<'_, '_>, list: usize, modes: &mut Vec<Mode>) -> Result<(), AllocError> {
    let Some(planned) = model.list_at(list) else {
        return Ok(());
    };
    for part in &planned.parts {
        if let PlannedPart::CatchAll(catch_all) = part {
            let mode = Mode::taking(*catch_all);
            if !modes.contains(&mode) {
                modes.push(mode)?;
            }
        }
    }
    Ok(())
}
