//! What a type reads, as data.

use crate::answer::Answer;
use facet_solver_reader::{
    Plan, PlannedCatchAll, PlannedEnd, PlannedList, PlannedPart, Reader, TypeError, Unknown,
};
use facet_solver_types::{Types, TypesError};
use std::alloc::{AllocError, Global};
use std::fmt::Write;

/// Types whose root has a member, a flattened enum that may be absent, and a catch-all.
const TYPES: &str = "struct Root { \
         id: u8, \
         #[serde(flatten)] way: Option<Way>, \
         #[serde(flatten)] rest: HashMap<i8, char>, \
     } \
     #[serde(untagged)] enum Way { File { path: String }, Http { url: String, port: Option<u16> } }";

/// What the plan of these types says: the lists with their members, and what their values are.
const TOLD: &str = "Root: id! Whole(WholeRange { lowest: 0, highest: 255 }); \
     way? of File, Http by path, port, url; \
     catch-all Character, keys 7, not x, Whole(WholeRange { lowest: -128, highest: 127 })\n\
     File: path! Text\n\
     Http: url! Text; port? null or Whole(WholeRange { lowest: 0, highest: 65535 })\n\
     strict true";

/// The plan of some types says what they read.
pub fn a_plan_says_what_a_type_reads(answer: &mut Answer<'static>) {
    match Types::parse(answer.alloc, TYPES, Some("Root")) {
        Ok(types) => add_plan(&types, answer),
        Err(TypesError::OutOfMemory) => answer.refused(),
        Err(_error) => answer.unread(),
    }
    answer.claim(TOLD);
}

/// Adds what the plan of types says.
fn add_plan(types: &Types, answer: &mut Answer<'static>) {
    match Reader::new(answer.alloc, types.shapes(), types.root(), Unknown::Refused) {
        Ok(reader) => match told(answer.alloc, &reader) {
            Ok(text) => answer.add(text.as_str()),
            Err(AllocError) => answer.refused(),
        },
        Err(TypeError::OutOfMemory) => answer.refused(),
        Err(_error) => answer.unread(),
    }
}

/// What the plan of a reader says: the root's list, and then those of its selections' branches.
fn told(alloc: Global, reader: &Reader<'_>) -> Result<String, AllocError> {
    let plan = reader.plan(alloc)?;
    let mut text = String::new(alloc);
    let Some(list) = root_list(&plan) else {
        return Ok(text);
    };
    add_list(alloc, &mut text, &plan, list)?;
    for part in &list.parts {
        if let PlannedPart::Selection(selection) = part {
            add_branches(alloc, &mut text, &plan, &selection.branches)?;
        }
    }
    let strict = plan.strict;
    write!(text, "strict {strict}")?;
    Ok(text)
}

/// The list by which the root is read.
fn root_list<'p, 'c>(plan: &'p Plan<'c>) -> Option<&'p PlannedList<'c>> {
    match &plan.targets.get(plan.root)?.end {
        PlannedEnd::Object(list) => plan.lists.get((*list)?),
        _ => None,
    }
}

/// Adds a line for each of some lists.
fn add_branches(
    alloc: Global,
    text: &mut String,
    plan: &Plan<'_>,
    branches: &[usize],
) -> Result<(), AllocError> {
    for branch in branches {
        if let Some(list) = plan.lists.get(*branch) {
            add_list(alloc, text, plan, list)?;
        }
    }
    Ok(())
}

/// Adds a line for a list: the name of its type or variant, and its parts.
fn add_list(
    alloc: Global,
    text: &mut String,
    plan: &Plan<'_>,
    list: &PlannedList<'_>,
) -> Result<(), AllocError> {
    let name = name_of(list);
    write!(text, "{name}")?;
    let mut before = ": ";
    for part in &list.parts {
        text.push_str(before)?;
        add_part(alloc, text, plan, part)?;
        before = "; ";
    }
    text.push_str("\n")
}

/// The name of the variant that a list is of, or of the type.
fn name_of<'c>(list: &PlannedList<'c>) -> &'c str {
    list.name.variant.unwrap_or(list.name.name)
}

/// Adds a part of a list.
fn add_part(
    alloc: Global,
    text: &mut String,
    plan: &Plan<'_>,
    part: &PlannedPart<'_>,
) -> Result<(), AllocError> {
    match part {
        PlannedPart::Member(member) => {
            text.push_str(member.name)?;
            text.push_str(mark(member.required))?;
            add_target(text, plan, member.target)
        }
        PlannedPart::Selection(selection) => {
            text.push_str(selection.field)?;
            text.push_str(mark(!selection.optional))?;
            text.push_str("of ")?;
            add_names(text, plan, &selection.branches)?;
            let names = selection.names.join(alloc, ", ")?;
            write!(text, " by {names}")
        }
        PlannedPart::CatchAll(catch_all) => add_catch_all(alloc, text, plan, *catch_all),
    }
}

/// What stands behind the name of a part that is required, or isn't.
fn mark(required: bool) -> &'static str {
    if required { "! " } else { "? " }
}

/// Adds the names of some lists.
fn add_names(text: &mut String, plan: &Plan<'_>, branches: &[usize]) -> Result<(), AllocError> {
    let mut before = "";
    for branch in branches {
        if let Some(list) = plan.lists.get(*branch) {
            text.push_str(before)?;
            text.push_str(name_of(list))?;
            before = ", ";
        }
    }
    Ok(())
}

/// Adds what a catch-all takes: values, and names.
fn add_catch_all(
    alloc: Global,
    text: &mut String,
    plan: &Plan<'_>,
    catch_all: PlannedCatchAll,
) -> Result<(), AllocError> {
    let PlannedCatchAll::Map(key, value) = catch_all else {
        return text.push_str("catch-all");
    };
    text.push_str("catch-all ")?;
    add_target(text, plan, value)?;
    for name in ["7", "x"] {
        let is = if plan.is_key(key, name) {
            ", keys "
        } else {
            ", not "
        };
        text.push_str(is)?;
        text.push_str(name)?;
    }
    let keys = plan.keys(alloc, key)?;
    write!(text, ", {keys:?}")
}

/// Adds what a value is that is read as a target.
fn add_target(text: &mut String, plan: &Plan<'_>, target: usize) -> Result<(), AllocError> {
    match plan.targets.get(target) {
        Some(planned) => match &planned.end {
            PlannedEnd::Option(inside) => {
                text.push_str("null or ")?;
                add_end(text, plan, *inside)
            }
            _ => add_end(text, plan, target),
        },
        None => Ok(()),
    }
}

/// Adds what a target comes to.
fn add_end(text: &mut String, plan: &Plan<'_>, target: usize) -> Result<(), AllocError> {
    match plan.targets.get(target) {
        Some(planned) => {
            let end = &planned.end;
            write!(text, "{end:?}")
        }
        None => Ok(()),
    }
}
