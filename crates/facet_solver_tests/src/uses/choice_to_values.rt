//! Calls that ask which members of an object stand for which fields.

use super::keys;
use crate::answer::Answer;
use crate::resolution::add_key;
use facet_solver::Resolution;
use facet_solver_uses::choice_to_values::{FieldValue, Mismatch, Values, choice_to_values};

/// Tells what the members stand for whose keys are left, in a resolution.
pub fn of_choice(resolution: &Resolution<'_>, answer: &mut Answer<'_>) {
    let keys = keys(answer);
    if answer.holds() {
        match choice_to_values(answer.alloc, resolution, &keys) {
            Ok(values) => add_values(&values, answer),
            Err(mismatch) => add_mismatch(&mismatch, answer),
        }
    }
}

/// Tells each field with its member, the members that are content, and those that a catch-all
/// takes.
fn add_values(values: &Values<'_, '_>, answer: &mut Answer<'_>) {
    let mut comma = "";
    for value in &values.fields {
        answer.put(comma);
        add_field_value(value, answer);
        comma = ",";
    }
    for (word, members) in [("contents", &values.contents), ("rest", &values.rest)] {
        if !members.is_empty() {
            answer.put(comma);
            answer.add(word);
            add_members(members, answer);
            comma = ",";
        }
    }
}

fn add_members(members: &[usize], answer: &mut Answer<'_>) {
    for member in members {
        answer.add_value(member);
    }
}

fn add_field_value(value: &FieldValue<'_, '_>, answer: &mut Answer<'_>) {
    let field = value.field;
    answer.add_value(&field.path);
    match value.member {
        Some(member) => answer.add_value(&member),
        None => answer.add("absent"),
    }
}

fn add_mismatch(mismatch: &Mismatch<'_, '_, '_>, answer: &mut Answer<'_>) {
    match mismatch {
        Mismatch::Unknown { member, key } => {
            answer.add("unknown");
            answer.add_value(member);
            add_key(*key, answer);
        }
        Mismatch::Repeated {
            field,
            first,
            second,
        } => {
            answer.add("repeated");
            answer.add_value(&field.path);
            answer.add_value(first);
            answer.add_value(second);
        }
        Mismatch::Missing(field) => {
            answer.add("missing");
            answer.add_value(&field.path);
        }
        Mismatch::OutOfMemory => answer.refused(),
    }
}
