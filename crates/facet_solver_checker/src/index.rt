//! Which two branches of a selection may read one object, by the names that they require and know.

use crate::required::Required;
use facet_solver_reader::{Plan, PlannedEnd, PlannedList, PlannedPart};
use std::alloc::{AllocError, Global};

/// That a branch knows a name: the name; the tag whose text alone it reads there, empty where there
/// is none; and the branch's index.
type Known<'p> = (&'p str, &'p str, usize);

/// What the branches of a selection know.
#[derive(Drop)]
pub(crate) struct Index<'p> {
    plan: &'p Plan<'p>,
    required: &'p Required<'p>,
    /// Rising.
    known: Vec<Known<'p>>,
    none: Vec<Known<'p>>,
}

/// Branches that know a name.
#[derive(Clone, Copy)]
pub(crate) struct Knowers<'i, 'p> {
    /// Those that read it as the text of one tag.
    pub(crate) tagged: &'i [Known<'p>],
    /// Others.
    pub(crate) others: &'i [Known<'p>],
}

impl Knowers<'_, '_> {
    /// How many they are.
    fn len(&self) -> usize {
        self.tagged.len().saturating_add(self.others.len())
    }
}

impl<'p> Index<'p> {
    /// What the branches of a selection know.
    pub(crate) fn new(
        alloc: Global,
        plan: &'p Plan<'p>,
        required: &'p Required<'p>,
        branches: &[usize],
    ) -> Result<Index<'p>, AllocError> {
        let mut known = Vec::new(alloc);
        for (index, branch) in branches.iter().enumerate() {
            if let Some(list) = plan.lists.get(*branch) {
                push_known(&mut known, plan, list, index)?;
            }
        }
        known.sort_unstable();
        Ok(Index {
            plan,
            required,
            known,
            none: Vec::new(alloc),
        })
    }

    /// The branches that know a name that the list of a number requires, so that an object may be
    /// read by both: of all names the one that the fewest know. All of no name are told where it
    /// requires none.
    pub(crate) fn knowers(&self, number: usize) -> Option<Knowers<'_, 'p>> {
        let mut fewest: Option<Knowers<'_, 'p>> = None;
        let list = self.plan.lists.get(number)?;
        for name in self.required.names.get(number)? {
            let knowers = self.of_name(name, tag_of(self.plan, list, name));
            match fewest {
                Some(other) if knowers.len() >= other.len() => {}
                _ => fewest = Some(knowers),
            }
        }
        fewest
    }

    /// Those that know a name, and may read there what reads the text of a tag, if there is one.
    fn of_name(&self, name: &str, tag: &str) -> Knowers<'_, 'p> {
        if tag.is_empty() {
            Knowers {
                tagged: &self.none,
                others: self.between(
                    self.known.partition_point(|it| it.0 < name),
                    self.known.partition_point(|it| it.0 <= name),
                ),
            }
        } else {
            Knowers {
                tagged: self.of_tag(name, tag),
                others: self.of_tag(name, ""),
            }
        }
    }

    /// Those that know a name, and read there the text of a tag alone.
    fn of_tag(&self, name: &str, tag: &str) -> &[Known<'p>] {
        self.between(
            self.known
                .partition_point(|it| it.0 < name || (it.0 == name && it.1 < tag)),
            self.known
                .partition_point(|it| it.0 < name || (it.0 == name && it.1 <= tag)),
        )
    }

    /// What is known from one index up to another.
    fn between(&self, start: usize, end: usize) -> &[Known<'p>] {
        self.known.get(start..end).unwrap_or(&self.none)
    }
}

/// Adds what the branch of an index knows.
fn push_known<'p>(
    known: &mut Vec<Known<'p>>,
    plan: &'p Plan<'p>,
    list: &'p PlannedList<'p>,
    index: usize,
) -> Result<(), AllocError> {
    for name in &list.names {
        known.push((*name, tag_of(plan, list, name), index))?;
    }
    Ok(())
}

/// The tag whose text alone the choices of a list read as the member of a name; empty where there
/// is none.
fn tag_of<'p>(plan: &'p Plan<'p>, list: &PlannedList<'p>, name: &str) -> &'p str {
    let [number] = list.below.as_slice() else {
        return "";
    };
    let Some(own) = plan.lists.get(*number) else {
        return "";
    };
    for part in &own.parts {
        match part {
            PlannedPart::Member(member) if member.name == name => {
                return tag_at(plan, member.target);
            }
            _ => {}
        }
    }
    ""
}

/// The tag whose text is the target of a number; empty where it is none.
fn tag_at<'p>(plan: &'p Plan<'p>, target: usize) -> &'p str {
    match plan.targets.get(target) {
        Some(target) => match target.end {
            PlannedEnd::Tag(name) => name,
            _ => "",
        },
        None => "",
    }
}

/// Whether two lists have the same members, and nothing else.
pub(crate) fn are_alike(one: &PlannedList<'_>, other: &PlannedList<'_>) -> bool {
    one.parts.len() == other.parts.len()
        && one
            .parts
            .iter()
            .zip(other.parts.iter())
            .all(|both| are_parts_alike(both.0, both.1))
}

/// Whether two parts are the same member.
fn are_parts_alike(one: &PlannedPart<'_>, other: &PlannedPart<'_>) -> bool {
    match (one, other) {
        (PlannedPart::Member(first), PlannedPart::Member(second)) => {
            first.name == second.name
                && first.required == second.required
                && first.target == second.target
        }
        _ => false,
    }
}
