//! Calls that tell which variants documents of a type may not tell apart.

use crate::answer::Answer;
use crate::documents::text_of_call;
use facet_solver_checker::{Ambiguity, DEFAULT_BUDGET, Evidence, check};
use facet_solver_reader::{Reader, TypeError, TypeName, Unknown};
use facet_solver_types::{Types, TypesError};
use std::alloc::{AllocError, Global};

/// Tells the ambiguities of the root of the types that the rest of the call declares; or that no
/// document has two readings.
pub fn of_declared(unknown: Unknown, answer: &mut Answer<'_>) {
    let call = text_of_call(answer);
    match Types::parse(answer.alloc, call.as_str(), None) {
        Ok(types) => of_types(&types, unknown, answer),
        Err(TypesError::OutOfMemory) => answer.refused(),
        Err(_error) => answer.unread(),
    }
}

fn of_types(types: &Types, unknown: Unknown, answer: &mut Answer<'_>) {
    match Reader::new(answer.alloc, types.shapes(), types.root(), unknown) {
        Ok(reader) => match told(answer.alloc, &reader) {
            Ok(texts) => add_texts(&texts, answer),
            Err(AllocError) => answer.refused(),
        },
        Err(TypeError::OutOfMemory) => answer.refused(),
        Err(_error) => answer.unread(),
    }
}

fn add_texts(texts: &[String], answer: &mut Answer<'_>) {
    if texts.is_empty() {
        answer.add("certain");
    }
    for text in texts {
        answer.add(text.as_str());
    }
}

/// The texts of all ambiguities, rising.
fn told(alloc: Global, reader: &Reader<'_>) -> Result<Vec<String>, AllocError> {
    let report = check(alloc, reader, DEFAULT_BUDGET)?;
    let mut texts = Vec::new(alloc);
    for ambiguity in &report.ambiguities {
        let text = text_of(alloc, ambiguity)?;
        if texts.push(text).is_err() {
            return Err(AllocError);
        }
    }
    texts.sort_unstable();
    Ok(texts)
}

/// The variants of an ambiguity, with `+` between them, and `?` behind them if no document is shown.
fn text_of(alloc: Global, ambiguity: &Ambiguity<'_>) -> Result<String, AllocError> {
    let mut text = String::new(alloc);
    let mut between = "";
    for name in &ambiguity.variants {
        text.push_str(between)?;
        text.push_str(short(name))?;
        between = "+";
    }
    if let Evidence::MayBe(_) = &ambiguity.evidence {
        text.push_str("?")?;
    }
    Ok(text)
}

/// The name of a variant, or of a type.
fn short<'c>(name: &TypeName<'c>) -> &'c str {
    match name.variant {
        Some(variant) => variant,
        None => name.name,
    }
}
