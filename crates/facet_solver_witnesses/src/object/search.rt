//! The search for an object that two lists read.
use super::Found;
use super::narrow::{Facts, Followed};
use super::side::{Around, Forced, Side};
use super::state::{Presence, State};
use crate::model::Model;
use crate::model::keys::fresh_key;
use crate::questions::pairs::Asking;
use crate::questions::recipe::{CommonMember, FreshKey, Key, Recipe};
use crate::questions::{Made, Met, Questions};
use std::alloc::{AllocError, Global};

/// Two lists, by the numbers of their names.
#[derive(Drop)]
struct Sides<'c> {
    /// The names of both, rising.
    names: Vec<&'c str>,
    first: Side,
    second: Side,
    needs_name: bool,
}

/// Which targets of two lists have a value in common with one of the other's, by their places.
#[derive(Drop)]
struct Meeting {
    first: Vec<bool>,
    second: Vec<bool>,
}

/// What narrowing a name changes.
#[derive(Clone, Copy, PartialEq, Eq)]
enum Change {
    Nothing,
    Something,
    /// No object is left.
    Contradiction,
}

/// An object that two lists read in their modes. What follows is found first; then a name or a
/// target is tried in both ways. Each try is a step.
pub(super) fn search<'c>(
    asking: &Asking<'_, 'c>,
    questions: &mut Questions<'c>,
    around: &Around<'c>,
) -> Result<Found<'c>, AllocError> {
    let sides = Sides::new(asking.alloc, asking.model, around)?;
    let mut states = Vec::new(asking.alloc);
    match sides.begin(asking.alloc, around.forced)? {
        Some(state) => states.push(state)?,
        None => return Ok(Found::None),
    }
    for _ in 0..asking.budget {
        let Some(mut state) = states.pop() else {
            return Ok(Found::None);
        };
        if !sides.narrow(asking, questions, &mut state)? {
            continue;
        }
        if sides.split(asking, questions, &state, &mut states)? {
            continue;
        }
        return Ok(Found::Value(sides.made(asking, questions, &state)?));
    }
    if states.is_empty() {
        Ok(Found::None)
    } else {
        Ok(Found::Maybe)
    }
}

/// The names of two lists, rising.
fn names_of_both<'c>(
    alloc: Global,
    model: &Model<'_, 'c>,
    around: &Around<'c>,
) -> Result<Vec<&'c str>, AllocError> {
    let mut names = Vec::new(alloc);
    for list in [around.first.list, around.second.list] {
        if let Some(planned) = model.list_at(list) {
            names.extend_from_slice(&planned.names)?;
        }
    }
    names.sort_unstable();
    names.dedup();
    Ok(names)
}

impl<'c> Sides<'c> {
    /// Two lists in their modes.
    fn new(
        alloc: Global,
        model: &Model<'_, 'c>,
        around: &Around<'c>,
    ) -> Result<Sides<'c>, AllocError> {
        let names = names_of_both(alloc, model, around)?;
        let (one, other) = (around.first.key(), around.second.key());
        let has_fresh = around.has_fresh
            && fresh_key(alloc, model.plan, one, other, &names)?.is_some();
        Ok(Sides {
            first: Side::new(alloc, model, around.first, &names, has_fresh)?,
            second: Side::new(alloc, model, around.second, &names, has_fresh)?,
            needs_name: around.needs_name,
            names,
        })
    }

    /// What is known at first: that the object has a member that it is to have.
    fn begin(&self, alloc: Global, forced: Forced<'_>) -> Result<Option<State>, AllocError> {
        let state = State::open(alloc, &self.first, &self.second)?;
        let name = match forced {
            Forced::Nothing => return Ok(Some(state)),
            Forced::Name(name) => self.names.binary_search(&name).ok(),
            Forced::Fresh if state.presence.len() > self.names.len() => Some(self.names.len()),
            Forced::Fresh => None,
        };
        match name {
            Some(name) => Ok(Some(state.with(alloc, name, Presence::In)?)),
            None => Ok(None),
        }
    }

    /// Finds all that follows. Whether an object may be left. Each round but the last finds a
    /// member or a slot.
    fn narrow(
        &self,
        asking: &Asking<'_, 'c>,
        questions: &mut Questions<'c>,
        state: &mut State,
    ) -> Result<bool, AllocError> {
        for _ in 0..=state.size() {
            match self.narrow_once(asking, questions, state)? {
                Change::Nothing => return Ok(true),
                Change::Something => {}
                Change::Contradiction => return Ok(false),
            }
        }
        Ok(true)
    }

    /// Finds what follows at once.
    fn narrow_once(
        &self,
        asking: &Asking<'_, 'c>,
        questions: &mut Questions<'c>,
        state: &mut State,
    ) -> Result<Change, AllocError> {
        let first = Followed::of(asking.alloc, &state.first_facts(&self.first))?;
        let second = Followed::of(asking.alloc, &state.second_facts(&self.second))?;
        if !first.is_possible() || !second.is_possible() {
            return Ok(Change::Contradiction);
        }
        let mut change = state
            .require(first.required())
            .and(state.require(second.required()));
        for name in 0..state.presence.len() {
            if change == Change::Contradiction {
                return Ok(change);
            }
            if state.presence_of(name) != Presence::Out {
                let next = self.narrow_name(asking, questions, state, name, (&first, &second))?;
                change = change.and(next);
            }
        }
        if self.needs_name {
            change = change.and(state.require_one());
        }
        Ok(change)
    }

    /// Finds what follows for a name.
    fn narrow_name(
        &self,
        asking: &Asking<'_, 'c>,
        questions: &mut Questions<'c>,
        state: &mut State,
        name: usize,
        followed: (&Followed, &Followed),
    ) -> Result<Change, AllocError> {
        let alloc = asking.alloc;
        let firsts = targets(alloc, &self.first, &state.first_banned, name, followed.0)?;
        let seconds = targets(alloc, &self.second, &state.second_banned, name, followed.1)?;
        let met = which_meet(asking, questions, &firsts, &seconds)?;
        if !met.first.iter().any(|is_met| *is_met) {
            return Ok(state.exclude(name));
        }
        let first = ban(
            &self.first,
            &mut state.first_banned,
            name,
            &firsts,
            &met.first,
        );
        let second = ban(
            &self.second,
            &mut state.second_banned,
            name,
            &seconds,
            &met.second,
        );
        Ok(first.and(second))
    }

    /// Adds the states in which a name or a target that is open is tried in both ways. There is
    /// none where nothing is open.
    fn split(
        &self,
        asking: &Asking<'_, 'c>,
        questions: &mut Questions<'c>,
        state: &State,
        states: &mut Vec<State>,
    ) -> Result<bool, AllocError> {
        let alloc = asking.alloc;
        let first = Followed::of(alloc, &state.first_facts(&self.first))?;
        let second = Followed::of(alloc, &state.second_facts(&self.second))?;
        let one = first.open_name(&state.first_facts(&self.first));
        let other = second.open_name(&state.second_facts(&self.second));
        if let Some(name) = fewest(one, other) {
            split_name(alloc, state, name, states)?;
            return Ok(true);
        }
        if let Some(name) = state.open_name() {
            split_name(alloc, state, name, states)?;
            // Mostly there is an object without all that are open.
            let mut closed = state.closed(alloc)?;
            if self.narrow(asking, questions, &mut closed)? {
                states.push(closed)?;
            }
            return Ok(true);
        }
        for name in 0..state.presence.len() {
            if state.presence_of(name) == Presence::In
                && self.split_targets(alloc, state, name, (&first, &second), states)?
            {
                return Ok(true);
            }
        }
        Ok(false)
    }

    /// Adds the states in which the member of a name is read by the first list, or the second, as
    /// the first of several targets, and as another. There is none where it has one target.
    fn split_targets(
        &self,
        alloc: Global,
        state: &State,
        name: usize,
        followed: (&Followed, &Followed),
        states: &mut Vec<State>,
    ) -> Result<bool, AllocError> {
        let firsts = targets(alloc, &self.first, &state.first_banned, name, followed.0)?;
        if let [target, _, ..] = firsts.as_slice() {
            split_target(
                alloc,
                &self.first,
                state,
                Tried::first(name, *target),
                states,
            )?;
            return Ok(true);
        }
        let seconds = targets(alloc, &self.second, &state.second_banned, name, followed.1)?;
        if let [target, _, ..] = seconds.as_slice() {
            split_target(
                alloc,
                &self.second,
                state,
                Tried::second(name, *target),
                states,
            )?;
            return Ok(true);
        }
        Ok(false)
    }

    /// The object of a state in which nothing is open.
    fn made(
        &self,
        asking: &Asking<'_, 'c>,
        questions: &mut Questions<'c>,
        state: &State,
    ) -> Result<Made<'c>, AllocError> {
        let alloc = asking.alloc;
        let mut members = Vec::new(alloc);
        let mut size: u64 = 1;
        let first = Followed::of(alloc, &state.first_facts(&self.first))?;
        let second = Followed::of(alloc, &state.second_facts(&self.second))?;
        for name in 0..state.presence.len() {
            if state.presence_of(name) != Presence::In {
                continue;
            }
            let firsts = targets(alloc, &self.first, &state.first_banned, name, &first)?;
            let seconds = targets(alloc, &self.second, &state.second_banned, name, &second)?;
            if let (Some(one), Some(other)) = (firsts.first(), seconds.first()) {
                let met = questions.meet(alloc, asking.model, asking.number, *one, *other)?;
                size = size.saturating_add(met.size);
                let member = self.member(asking, name, met)?;
                if members.push(member).is_err() {
                    return Err(AllocError);
                }
            }
        }
        let recipe = Recipe::Object(members);
        Ok(Made { recipe, size })
    }

    /// The member of a name.
    fn member(
        &self,
        asking: &Asking<'_, 'c>,
        name: usize,
        met: Met,
    ) -> Result<CommonMember<'c>, AllocError> {
        let key = match self.names.get(name) {
            Some(text) => Key::Name(*text),
            None => Key::Fresh(self.fresh(asking)?),
        };
        Ok(CommonMember {
            key,
            value: met.value,
            first_ignores: self.first.ignores(name),
            second_ignores: self.second.ignores(name),
        })
    }

    /// The name that neither list knows.
    fn fresh(&self, asking: &Asking<'_, 'c>) -> Result<FreshKey, AllocError> {
        let (one, other) = (&self.first.mode, &self.second.mode);
        let plan = asking.model.plan;
        let found = fresh_key(asking.alloc, plan, one.key(), other.key(), &self.names)?;
        let name = match found {
            Some(name) => name,
            None => String::new(asking.alloc),
        };
        Ok(FreshKey {
            first: one.key(),
            second: other.key(),
            name,
        })
    }
}

/// Of two names, each with how many branches are left, that with the fewer.
fn fewest(one: Option<(usize, usize)>, other: Option<(usize, usize)>) -> Option<usize> {
    match (one, other) {
        (Some((count, name)), Some((fewer, _))) if count <= fewer => Some(name),
        (_, Some((_, name))) | (Some((_, name)), None) => Some(name),
        (None, None) => None,
    }
}

/// Which of the targets of two lists have a value in common with one of the other's.
fn which_meet<'c>(
    asking: &Asking<'_, 'c>,
    questions: &mut Questions<'c>,
    firsts: &[usize],
    seconds: &[usize],
) -> Result<Meeting, AllocError> {
    let alloc = asking.alloc;
    let mut met = Meeting {
        first: vec![in alloc; false; firsts.len()]?,
        second: vec![in alloc; false; seconds.len()]?,
    };
    for (one, first) in firsts.iter().enumerate() {
        for (other, second) in seconds.iter().enumerate() {
            let common = questions.meet(alloc, asking.model, asking.number, *first, *second)?;
            if common.answer >= asking.least {
                set(&mut met.first, one);
                set(&mut met.second, other);
            }
        }
    }
    Ok(met)
}

/// What the member of a name is read as by a list, each target once.
fn targets(
    alloc: Global,
    side: &Side,
    banned: &[bool],
    name: usize,
    followed: &Followed,
) -> Result<Vec<usize>, AllocError> {
    let mut targets = Vec::new(alloc);
    if !side.knows_name(name) {
        if let Some(target) = side.other(name) {
            targets.push(target)?;
        }
        return Ok(targets);
    }
    for slot in side.slots_of(name) {
        if let Some(member) = side.slots.get(*slot)
            && followed.reaches(member.list)
            && !is_set(banned, *slot)
            && !targets.contains(&member.target)
        {
            targets.push(member.target)?;
        }
    }
    Ok(targets)
}

/// Adds the state without the member of a name, and that with it.
fn split_name(
    alloc: Global,
    state: &State,
    name: usize,
    states: &mut Vec<State>,
) -> Result<(), AllocError> {
    states.push(state.with(alloc, name, Presence::Out)?)?;
    states.push(state.with(alloc, name, Presence::In)?)?;
    Ok(())
}

/// A target that is tried for the member of a name, by the first list or by the second.
#[derive(Clone, Copy)]
struct Tried {
    name: usize,
    target: usize,
    is_first: bool,
}

impl Tried {
    /// By the first list.
    fn first(name: usize, target: usize) -> Tried {
        Tried {
            name,
            target,
            is_first: true,
        }
    }

    /// By the second list.
    fn second(name: usize, target: usize) -> Tried {
        Tried {
            name,
            target,
            is_first: false,
        }
    }
}

/// Adds the state in which the member of a name is not read as a target, and that in which it is.
fn split_target(
    alloc: Global,
    side: &Side,
    state: &State,
    tried: Tried,
    states: &mut Vec<State>,
) -> Result<(), AllocError> {
    let mut with = state.copy(alloc)?;
    let mut without = state.copy(alloc)?;
    choose(side, with.banned_mut(tried.is_first), tried, true);
    choose(side, without.banned_mut(tried.is_first), tried, false);
    states.push(without)?;
    states.push(with)?;
    Ok(())
}

/// Bans the slots of a name whose targets meet none.
fn ban(side: &Side, banned: &mut [bool], name: usize, targets: &[usize], met: &[bool]) -> Change {
    let mut change = Change::Nothing;
    for slot in side.slots_of(name) {
        if !is_set(banned, *slot) && meets_none(side, *slot, targets, met) {
            set(banned, *slot);
            change = Change::Something;
        }
    }
    change
}

/// Whether the target of a slot is one of some that meets none.
fn meets_none(side: &Side, slot: usize, targets: &[usize], met: &[bool]) -> bool {
    let Some(member) = side.slots.get(slot) else {
        return false;
    };
    match targets.iter().position(|target| *target == member.target) {
        Some(index) => !is_set(met, index),
        None => false,
    }
}

/// Bans the slots of a name of all other targets, or those of the target.
fn choose(side: &Side, banned: &mut [bool], tried: Tried, only: bool) {
    for slot in side.slots_of(tried.name) {
        if let Some(member) = side.slots.get(*slot)
            && (member.target == tried.target) != only
        {
            set(banned, *slot);
        }
    }
}

/// Whether a flag is set.
fn is_set(flags: &[bool], index: usize) -> bool {
    flags.get(index).copied().unwrap_or(false)
}

/// Sets a flag.
fn set(flags: &mut [bool], index: usize) {
    if let Some(flag) = flags.get_mut(index) {
        *flag = true;
    }
}

impl Change {
    /// What two steps change.
    fn and(self, other: Change) -> Change {
        match (self, other) {
            (Change::Contradiction, _) | (_, Change::Contradiction) => Change::Contradiction,
            (Change::Nothing, Change::Nothing) => Change::Nothing,
            _ => Change::Something,
        }
    }
}

impl State {
    /// How many members and slots there are.
    fn size(&self) -> usize {
        let slots = self
            .first_banned
            .len()
            .saturating_add(self.second_banned.len());
        self.presence.len().saturating_add(slots)
    }

    /// The first name of which it is open whether the object has the member.
    fn open_name(&self) -> Option<usize> {
        self.presence
            .iter()
            .position(|presence| *presence == Presence::Open)
    }

    /// The slots that are banned of the first list, or the second.
    fn banned_mut(&mut self, is_first: bool) -> &mut [bool] {
        if is_first {
            &mut self.first_banned
        } else {
            &mut self.second_banned
        }
    }

    /// What is known, for the first list.
    fn first_facts<'r>(&'r self, side: &'r Side) -> Facts<'r> {
        Facts {
            side,
            presence: &self.presence,
            banned: &self.first_banned,
        }
    }

    /// What is known, for the second list.
    fn second_facts<'r>(&'r self, side: &'r Side) -> Facts<'r> {
        Facts {
            side,
            presence: &self.presence,
            banned: &self.second_banned,
        }
    }

    /// The object has the members of some names.
    fn require(&mut self, names: &[usize]) -> Change {
        let mut change = Change::Nothing;
        for name in names {
            match self.presence_of(*name) {
                Presence::In => {}
                Presence::Open => {
                    self.set(*name, Presence::In);
                    change = Change::Something;
                }
                Presence::Out => return Change::Contradiction,
            }
        }
        change
    }

    /// The object lacks the member of a name.
    fn exclude(&mut self, name: usize) -> Change {
        match self.presence_of(name) {
            Presence::In => Change::Contradiction,
            Presence::Open => {
                self.set(name, Presence::Out);
                Change::Something
            }
            Presence::Out => Change::Nothing,
        }
    }

    /// The object has some member.
    fn require_one(&mut self) -> Change {
        let left = self
            .presence
            .iter()
            .filter(|presence| **presence != Presence::Out)
            .count();
        match left {
            0 => Change::Contradiction,
            1 => self.include_left(),
            _ => Change::Nothing,
        }
    }

    /// The object has the members of all names that are left.
    fn include_left(&mut self) -> Change {
        let mut change = Change::Nothing;
        for presence in self.presence.iter_mut() {
            if *presence == Presence::Open {
                *presence = Presence::In;
                change = Change::Something;
            }
        }
        change
    }
}
