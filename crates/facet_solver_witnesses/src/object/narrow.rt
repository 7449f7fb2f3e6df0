//! What follows from what is known of an object, for one of its lists.
use super::modes::Mode;
use super::side::{Side, SideList, SidePart, SideSelection};
use super::state::{Presence, presence_in};
use std::alloc::{AllocError, Global};

/// What follows for a list: which lists a choice may still go through.
#[derive(Drop)]
pub(super) struct Followed {
    /// Whether a list has a choice left, by its position.
    has_choice: Vec<bool>,
    /// How many members of the object a list knows.
    known: Vec<usize>,
    /// The names that all choices of a list require, rising.
    required: Vec<Vec<usize>>,
    /// Whether a choice of the whole goes through a list.
    is_reached: Vec<bool>,
}

/// What is known of an object, for one of its lists.
#[derive(Clone, Copy)]
pub(super) struct Facts<'r> {
    pub(super) side: &'r Side,
    pub(super) presence: &'r [Presence],
    pub(super) banned: &'r [bool],
}

impl Followed {
    /// What follows.
    pub(super) fn of(alloc: Global, facts: &Facts<'_>) -> Result<Followed, AllocError> {
        let count = facts.side.lists.len();
        let mut followed = Followed {
            has_choice: Vec::with_capacity(alloc, count)?,
            known: Vec::with_capacity(alloc, count)?,
            required: Vec::with_capacity(alloc, count)?,
            is_reached: vec![in alloc; false; count]?,
        };
        for (position, list) in facts.side.lists.iter().enumerate() {
            followed.push_list(alloc, facts, position, list)?;
        }
        if followed.is_possible() {
            followed.reach_all(facts);
        }
        Ok(followed)
    }

    /// Whether a choice of the whole list is left.
    pub(super) fn is_possible(&self) -> bool {
        self.has_choice.last().copied().unwrap_or(false)
    }

    /// The names that all choices of the whole list require.
    pub(super) fn required(&self) -> &[usize] {
        match self.required.last() {
            Some(names) => names,
            None => &[],
        }
    }

    /// Adds what follows for the next list.
    fn push_list(
        &mut self,
        alloc: Global,
        facts: &Facts<'_>,
        position: usize,
        list: &SideList,
    ) -> Result<(), AllocError> {
        let mut required = Vec::new(alloc);
        let mut has_choice = true;
        self.known.push(facts.count_in(&list.names))?;
        for part in &list.parts {
            let is_left = match part {
                SidePart::Member { slot, required: is } => {
                    if *is && let Some(member) = facts.side.slots.get(*slot) {
                        required.push(member.name)?;
                    }
                    facts.member_is_left(*slot, *is)
                }
                SidePart::Rest { fits } => match facts.side.mode.mode {
                    Mode::Closed => true,
                    Mode::Without => false,
                    Mode::TakingAny | Mode::TakingMap(..) => *fits,
                },
                SidePart::Selection(selection) => {
                    self.selection_is_left(alloc, facts, position, selection, &mut required)?
                }
            };
            has_choice = has_choice && is_left;
        }
        required.sort_unstable();
        self.required.push(required)?;
        self.has_choice.push(has_choice)?;
        Ok(())
    }

    /// Whether a selection of a list has a choice left. Adds the names that all its choices
    /// require.
    fn selection_is_left(
        &self,
        alloc: Global,
        facts: &Facts<'_>,
        position: usize,
        selection: &SideSelection,
        required: &mut Vec<usize>,
    ) -> Result<bool, AllocError> {
        let mut shared: Option<Vec<usize>> = None;
        let wanted = facts.wanted(position, selection);
        for (index, branch) in selection.branches.iter().enumerate() {
            if !self.is_usable(facts, &wanted, index, *branch) {
                continue;
            }
            let Some(names) = self.required.get(*branch) else {
                continue;
            };
            match &mut shared {
                None => shared = Some(Vec::from_slice(alloc, names)?),
                Some(shared) => shared.retain(|name| names.binary_search(name).is_ok()),
            }
        }
        if facts.may_be_absent(selection) {
            return Ok(true);
        }
        match shared {
            Some(shared) => {
                required.extend_from_slice(&shared)?;
                Ok(true)
            }
            None => Ok(false),
        }
    }

    /// Whether a choice may take a branch, which has an index, where some are wanted.
    fn is_usable(&self, facts: &Facts<'_>, wanted: &Wanted, index: usize, branch: usize) -> bool {
        wanted.may_be_there
            && wanted.only.is_none_or(|only| only == index)
            && self.has_choice.get(branch) == Some(&true)
            && self.known.get(branch) == Some(&wanted.known)
            && (!wanted.takes || facts.side.knows_rest(branch))
    }

    /// A name that is open, of the selection with the fewest branches left of which each requires
    /// such a name; and how many are left.
    pub(super) fn open_name(&self, facts: &Facts<'_>) -> Option<(usize, usize)> {
        let mut least: Option<(usize, usize)> = None;
        for (position, list) in facts.side.lists.iter().enumerate() {
            if !self.reaches(position) {
                continue;
            }
            for part in &list.parts {
                if let SidePart::Selection(selection) = part
                    && !facts.may_be_absent(selection)
                    && let Some((count, name)) = self.open_of(facts, position, selection)
                    && least.is_none_or(|(fewest, _)| count < fewest)
                {
                    least = Some((count, name));
                }
            }
        }
        least
    }

    /// How many branches of a selection are left, and an open name that one requires, if each does.
    fn open_of(
        &self,
        facts: &Facts<'_>,
        position: usize,
        selection: &SideSelection,
    ) -> Option<(usize, usize)> {
        let wanted = facts.wanted(position, selection);
        let mut count: usize = 0;
        let mut open = None;
        for (index, branch) in selection.branches.iter().enumerate() {
            if self.is_usable(facts, &wanted, index, *branch) {
                count = count.saturating_add(1);
                let names = self.required.get(*branch)?;
                let name = names
                    .iter()
                    .find(|name| facts.presence_of(**name) == Presence::Open)?;
                open = open.or(Some(*name));
            }
        }
        open.map(|name| (count, name))
    }

    /// Whether a choice of the whole goes through a list.
    pub(super) fn reaches(&self, position: usize) -> bool {
        self.is_reached.get(position).copied().unwrap_or(false)
    }

    /// A choice of the whole goes through a list.
    fn reach(&mut self, position: usize) {
        if let Some(is_reached) = self.is_reached.get_mut(position) {
            *is_reached = true;
        }
    }

    /// Finds which lists a choice of the whole goes through.
    fn reach_all(&mut self, facts: &Facts<'_>) {
        self.reach(facts.side.top());
        for (position, list) in facts.side.lists.iter().enumerate().rev() {
            if self.reaches(position) {
                self.reach_below(facts, position, list);
            }
        }
    }

    /// Finds which lists a choice goes through behind a list.
    fn reach_below(&mut self, facts: &Facts<'_>, position: usize, list: &SideList) {
        for part in &list.parts {
            if let SidePart::Selection(selection) = part {
                let wanted = facts.wanted(position, selection);
                for (index, branch) in selection.branches.iter().enumerate() {
                    if self.is_usable(facts, &wanted, index, *branch) {
                        self.reach(*branch);
                    }
                }
            }
        }
    }
}

/// Which branches of a selection a choice may take.
#[derive(Clone, Copy)]
struct Wanted {
    /// Whether the selection may be present.
    may_be_there: bool,
    /// The only branch that counts, if one is.
    only: Option<usize>,
    /// How many members of the object they know.
    known: usize,
    /// Whether they have the catch-all.
    takes: bool,
}

impl Facts<'_> {
    /// Which branches of a selection of a list a choice may take.
    fn wanted(&self, position: usize, selection: &SideSelection) -> Wanted {
        Wanted {
            may_be_there: !selection.optional || self.may_be_touched(selection),
            only: if position == self.side.top() {
                self.side.mode.only
            } else {
                None
            },
            known: self.count_in(&selection.names),
            takes: self.side.mode.mode.takes() && selection.knows_rest,
        }
    }

    /// Whether the object has the member of a name.
    fn presence_of(&self, name: usize) -> Presence {
        presence_in(self.presence, name)
    }

    /// How many of some names the object has.
    fn count_in(&self, names: &[usize]) -> usize {
        names
            .iter()
            .filter(|name| self.presence_of(**name) == Presence::In)
            .count()
    }

    /// Whether a member may stand in a choice.
    fn member_is_left(&self, slot: usize, required: bool) -> bool {
        let presence = match self.side.slots.get(slot) {
            Some(member) => self.presence_of(member.name),
            None => Presence::Out,
        };
        let is_banned = self.banned.get(slot) == Some(&true);
        match presence {
            Presence::Out => !required,
            Presence::In => !is_banned,
            Presence::Open => !required || !is_banned,
        }
    }

    /// Whether a selection may be absent: the object has no member of it, and its catch-alls take
    /// none.
    fn may_be_absent(&self, selection: &SideSelection) -> bool {
        selection.optional
            && self.count_in(&selection.names) == 0
            && !(selection.knows_rest && self.side.mode.mode.takes())
    }

    /// Whether the object may have a member of a selection, or one that its catch-alls take.
    fn may_be_touched(&self, selection: &SideSelection) -> bool {
        selection
            .names
            .iter()
            .any(|name| self.presence_of(*name) != Presence::Out)
            || (selection.knows_rest && self.side.mode.mode.takes() && self.may_have_other())
    }

    /// Whether the object may have a member of a name that the list does not know.
    fn may_have_other(&self) -> bool {
        for (name, presence) in self.presence.iter().enumerate() {
            if *presence != Presence::Out
                && !self.side.knows_name(name)
                && self.side.other(name).is_some()
            {
                return true;
            }
        }
        false
    }
}
