//! How far an object is known.
use super::side::Side;
use std::alloc::{AllocError, Global};

/// Whether the object has the member of a name.
#[derive(Clone, Copy, PartialEq, Eq)]
pub(super) enum Presence {
    Open,
    In,
    Out,
}

/// How far an object is known: which members it has, and which of each list's members are no longer
/// what reads them.
#[derive(Drop)]
pub(super) struct State {
    /// By the number of the name.
    pub(super) presence: Vec<Presence>,
    /// By the slot.
    pub(super) first_banned: Vec<bool>,
    pub(super) second_banned: Vec<bool>,
}

impl State {
    /// Nothing is known.
    pub(super) fn open(alloc: Global, first: &Side, second: &Side) -> Result<State, AllocError> {
        Ok(State {
            presence: vec![in alloc; Presence::Open; first.knows.len()]?,
            first_banned: vec![in alloc; false; first.slots.len()]?,
            second_banned: vec![in alloc; false; second.slots.len()]?,
        })
    }

    /// Whether the object has the member of a name; it lacks that of one that is none of the
    /// lists'.
    pub(super) fn presence_of(&self, name: usize) -> Presence {
        presence_in(&self.presence, name)
    }

    /// Says whether the object has the member of a name.
    pub(super) fn set(&mut self, name: usize, presence: Presence) {
        if let Some(known) = self.presence.get_mut(name) {
            *known = presence;
        }
    }

    /// The same once more.
    pub(super) fn copy(&self, alloc: Global) -> Result<State, AllocError> {
        Ok(State {
            presence: Vec::from_slice(alloc, &self.presence)?,
            first_banned: Vec::from_slice(alloc, &self.first_banned)?,
            second_banned: Vec::from_slice(alloc, &self.second_banned)?,
        })
    }

    /// The same, with the member of one name or without.
    pub(super) fn with(
        &self,
        alloc: Global,
        name: usize,
        presence: Presence,
    ) -> Result<State, AllocError> {
        let mut state = self.copy(alloc)?;
        state.set(name, presence);
        Ok(state)
    }

    /// The same, without the members of all names that are open.
    pub(super) fn closed(&self, alloc: Global) -> Result<State, AllocError> {
        let mut state = self.copy(alloc)?;
        for presence in state.presence.iter_mut() {
            if *presence == Presence::Open {
                *presence = Presence::Out;
            }
        }
        Ok(state)
    }
}

/// Whether the object has the member of a name; it lacks that of one that is none of the lists'.
pub(super) fn presence_in(presence: &[Presence], name: usize) -> Presence {
    presence.get(name).copied().unwrap_or(Presence::Out)
}
