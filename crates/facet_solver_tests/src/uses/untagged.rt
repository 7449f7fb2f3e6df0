//! Calls of the untagged reader.

use crate::answer::Answer;
use crate::catalogue::{Catalogue, add_names};
use facet_solver_uses::untagged::{ValueKind, variants_for};
use std::alloc::AllocError;

/// Tells the variants that a value may be, which the words behind the enum describe.
pub fn of_value(catalogue: Catalogue<'_>, answer: &mut Answer<'_>) {
    let id = catalogue.id(answer);
    let value = value(answer);
    if answer.holds() {
        match variants_for(answer.alloc, catalogue.shapes, id, value) {
            Ok(Some(variants)) => add_names(&variants, answer),
            Ok(None) => answer.add("no enum"),
            Err(AllocError) => answer.refused(),
        }
    }
}

fn value(answer: &mut Answer<'_>) -> ValueKind {
    match answer.word() {
        "null" => ValueKind::Null,
        "bool" => ValueKind::Bool,
        "whole" => ValueKind::WholeNumber,
        "number" => ValueKind::OtherNumber,
        "text" => ValueKind::Text,
        "list" => ValueKind::List(answer.number()),
        "object" => ValueKind::Object,
        _ => {
            answer.unread();
            ValueKind::Null
        }
    }
}
