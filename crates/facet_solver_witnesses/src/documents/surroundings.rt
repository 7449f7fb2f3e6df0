//! Documents around a value, or around some members of an object.
use crate::ambiguity::PlaceStep;
use crate::documents::build::{Builder, MOST_LEVELS, Members, Passed};
use crate::growing::push;
use crate::model::keys::fresh_key;
use crate::sites::visits::{Spot, Visit, Visits, Way};
use crate::value::Value;
use facet_solver_reader::{PlannedCatchAll, PlannedEnd, PlannedPart, PlannedSelection};
use std::alloc::{AllocError, Global};
use std::mem;

/// What the surroundings are of.
#[derive(Drop)]
pub(crate) enum Inside {
    /// A value.
    Value(Value),
    /// Members of an object: of a part of the list that the visit is at.
    Members(Members, usize),
}

/// A document, the steps to what its surroundings are of, from the root on, and the members that
/// one of two readings passes over there.
#[derive(Drop)]
pub(crate) struct Surrounded {
    pub(crate) document: Value,
    pub(crate) path: Vec<PlaceStep>,
    pub(crate) passed: Vec<Passed>,
}

/// The list by which the object is read that a visit to a list is at.
pub(crate) fn list_around(visits: &Visits, visit: usize, list: usize) -> usize {
    let mut around = list;
    let mut at = visit;
    for _ in 0..visits.visits.len() {
        let Some(here) = visits.visits.get(at) else {
            return around;
        };
        let Spot::List(list, _) = here.spot else {
            return around;
        };
        around = list;
        let Way::Branch(_) = here.way else {
            return around;
        };
        at = here.from;
    }
    around
}

/// The smallest document in which a value, or members, stand where a visit is; `None` where it is
/// too large.
pub(crate) fn surround<'c>(
    builder: &mut Builder<'_, 'c>,
    visits: &Visits,
    visit: usize,
    inside: Inside,
) -> Result<Option<Surrounded>, AllocError> {
    let mut path = Vec::new(builder.alloc);
    let mut inside = inside;
    let mut at = visit;
    for _ in 0..=visits.visits.len() {
        let Some(here) = visits.visits.get(at) else {
            return Ok(None);
        };
        if let Way::Root = here.way {
            return Ok(at_root(builder, inside, path));
        }
        let Some(around) = visits.visits.get(here.from) else {
            return Ok(None);
        };
        let next = match inside {
            Inside::Value(value) => around_value(builder, *here, *around, value, &mut path)?,
            Inside::Members(members, part) => {
                around_members(builder, visits, at, members, part)?
            }
        };
        match next {
            Some(next) => inside = next,
            None => return Ok(None),
        }
        at = here.from;
    }
    Ok(None)
}

/// The document that a value at the root is, with the steps to it from within. Members are none.
fn at_root(
    builder: &mut Builder<'_, '_>,
    inside: Inside,
    steps: Vec<PlaceStep>,
) -> Option<Surrounded> {
    match inside {
        Inside::Value(document) => {
            let mut path = steps;
            path.reverse();
            let none = Vec::new(builder.alloc);
            let passed = mem::replace(&mut builder.passed, none);
            Some(Surrounded {
                document,
                path,
                passed,
            })
        }
        Inside::Members(..) => None,
    }
}

/// What is around a value that a visit is at, where the visit before is.
fn around_value<'c>(
    builder: &mut Builder<'_, 'c>,
    here: Visit,
    around: Visit,
    value: Value,
    path: &mut Vec<PlaceStep>,
) -> Result<Option<Inside>, AllocError> {
    let alloc = builder.alloc;
    match (here.way, around.spot) {
        (Way::Itself, _) => Ok(Some(Inside::Value(value))),
        (Way::Item, _) => {
            push(path, PlaceStep::Index(0))?;
            let mut items = Vec::new(alloc);
            push(&mut items, value)?;
            Ok(Some(Inside::Value(Value::List(items))))
        }
        (Way::TupleItem(index), Spot::Target(target, _)) => {
            push(path, PlaceStep::Index(index))?;
            around_item(builder, target, index, value)
        }
        (Way::MapValue, Spot::Target(target, _)) => {
            let name = name_in_map(builder, target)?;
            around_named(alloc, name, value, path)
        }
        (Way::Named(index), Spot::Target(target, _)) => {
            let name = name_of_variant(builder, target, index)?;
            around_named(alloc, name, value, path)
        }
        (Way::Member(part), Spot::List(list, _)) => {
            let name = name_in_part(builder, list, part)?;
            one_member(alloc, name, value, part, path)
        }
        (Way::Taken(part), Spot::List(list, _)) => {
            let name = name_in_part(builder, list, part)?;
            one_member(alloc, name, value, part, path)
        }
        _ => Ok(None),
    }
}

/// A tuple with a value at an index, and the smallest values at all others.
fn around_item<'c>(
    builder: &mut Builder<'_, 'c>,
    target: usize,
    index: usize,
    value: Value,
) -> Result<Option<Inside>, AllocError> {
    let model = builder.model;
    let mut items = Vec::new(builder.alloc);
    let mut value = Some(value);
    for (place, item) in model.tuple(target).iter().enumerate() {
        let next = if place == index {
            value.take()
        } else {
            builder.smallest(*item, MOST_LEVELS)?
        };
        match next {
            Some(next) => push(&mut items, next)?,
            None => return Ok(None),
        }
    }
    Ok(Some(Inside::Value(Value::List(items))))
}

/// A name that a map of a target has, if there is one.
fn name_in_map(builder: &Builder<'_, '_>, target: usize) -> Result<Option<String>, AllocError> {
    let model = builder.model;
    match model.end(target) {
        Some(PlannedEnd::Map(key, _)) => {
            fresh_key(builder.alloc, model.plan, Some(*key), None, &[])
        }
        _ => Ok(None),
    }
}

/// The name of a variant that is named.
fn name_of_variant(
    builder: &Builder<'_, '_>,
    target: usize,
    index: usize,
) -> Result<Option<String>, AllocError> {
    let Some(PlannedEnd::Named(variants)) = builder.model.end(target) else {
        return Ok(None);
    };
    match variants.get(index) {
        Some(variant) => Ok(Some(String::from_str(builder.alloc, variant.text)?)),
        None => Ok(None),
    }
}

/// The name of a member of a part of a list: its own, or one that a map takes there.
fn name_in_part(
    builder: &Builder<'_, '_>,
    list: usize,
    part: usize,
) -> Result<Option<String>, AllocError> {
    let model = builder.model;
    match model.list(list).parts.get(part) {
        Some(PlannedPart::Member(member)) => {
            Ok(Some(String::from_str(builder.alloc, member.name)?))
        }
        Some(PlannedPart::CatchAll(PlannedCatchAll::Map(key, _))) => {
            let known = &model.list(list).names;
            fresh_key(builder.alloc, model.plan, Some(*key), None, known)
        }
        _ => Ok(None),
    }
}

/// An object with a member of a name, if there is one.
fn around_named(
    alloc: Global,
    name: Option<String>,
    value: Value,
    path: &mut Vec<PlaceStep>,
) -> Result<Option<Inside>, AllocError> {
    let Some(name) = name else {
        return Ok(None);
    };
    let members = named_member(alloc, name, value, path)?;
    Ok(Some(Inside::Value(Value::Object(members))))
}

/// A member of a part, if it has a name.
fn one_member(
    alloc: Global,
    name: Option<String>,
    value: Value,
    part: usize,
    path: &mut Vec<PlaceStep>,
) -> Result<Option<Inside>, AllocError> {
    let Some(name) = name else {
        return Ok(None);
    };
    let members = named_member(alloc, name, value, path)?;
    Ok(Some(Inside::Members(members, part)))
}

/// A member, to which a step leads.
fn named_member(
    alloc: Global,
    name: String,
    value: Value,
    path: &mut Vec<PlaceStep>,
) -> Result<Members, AllocError> {
    push(path, PlaceStep::Name(name.clone()?))?;
    let mut members = Vec::new(alloc);
    push(&mut members, (name, value))?;
    Ok(members)
}

/// What is around the members of a part of the list that a visit is at: they and the smallest
/// others of the list.
fn around_members<'c>(
    builder: &mut Builder<'_, 'c>,
    visits: &Visits,
    visit: usize,
    members: Members,
    part: usize,
) -> Result<Option<Inside>, AllocError> {
    let Some(here) = visits.visits.get(visit) else {
        return Ok(None);
    };
    let Spot::List(list, _) = here.spot else {
        return Ok(None);
    };
    let mut members = members;
    if !builder.push_smallest(list, Some(part), &mut members, MOST_LEVELS)? {
        return Ok(None);
    }
    match here.way {
        Way::Object => Ok(Some(Inside::Value(Value::Object(members)))),
        Way::Branch(around) => {
            // An optional block around needs a member.
            if members.is_empty() {
                let known = &builder.model.list(list_around(visits, visit, list)).names;
                push_optional(builder, list, part, known, &mut members)?;
            }
            Ok(Some(Inside::Members(members, around)))
        }
        _ => Ok(None),
    }
}

/// Adds a member that may be there, of a part of a list other than one, if there is one.
fn push_optional<'c>(
    builder: &mut Builder<'_, 'c>,
    list: usize,
    but: usize,
    known: &[&'c str],
    members: &mut Members,
) -> Result<(), AllocError> {
    let model = builder.model;
    for (index, part) in model.list(list).parts.iter().enumerate() {
        if index == but {
            continue;
        }
        let is_there = match part {
            PlannedPart::Member(member) => {
                model.sizes.of_target(member.target).is_some()
                    && builder.push_member(member.name, member.target, members, MOST_LEVELS)?
            }
            PlannedPart::CatchAll(catch_all) => { push_taken(builder, *catch_all, known, members)? }
            PlannedPart::Selection(selection) => push_branch(builder, selection, members)?,
        };
        if is_there {
            return Ok(());
        }
    }
    Ok(())
}

/// Adds a member that a catch-all takes, if there is one.
fn push_taken<'c>(
    builder: &mut Builder<'_, 'c>,
    catch_all: PlannedCatchAll,
    known: &[&'c str],
    members: &mut Members,
) -> Result<bool, AllocError> {
    let model = builder.model;
    let (key, target) = match catch_all {
        PlannedCatchAll::Map(key, value) => (Some(key), value),
        PlannedCatchAll::Anything => (None, model.anything),
    };
    if model.sizes.of_target(target).is_none() {
        return Ok(false);
    }
    match fresh_key(builder.alloc, model.plan, key, None, known)? {
        Some(name) => builder.push_member(name.as_str(), target, members, MOST_LEVELS),
        None => Ok(false),
    }
}

/// Adds a member of a branch of a selection, with what the branch requires, if there is one.
fn push_branch<'c>(
    builder: &mut Builder<'_, 'c>,
    selection: &PlannedSelection<'c>,
    members: &mut Members,
) -> Result<bool, AllocError> {
    let model = builder.model;
    for branch in &selection.branches {
        match model.sizes.of_members(*branch) {
            None => continue,
            Some(0) => {}
            Some(_) => return builder.push_smallest(*branch, None, members, MOST_LEVELS),
        }
        for part in &model.list(*branch).parts {
            if let PlannedPart::Member(member) = part
                && model.sizes.of_target(member.target).is_some()
            {
                return builder.push_member(member.name, member.target, members, MOST_LEVELS);
            }
        }
    }
    Ok(false)
}
