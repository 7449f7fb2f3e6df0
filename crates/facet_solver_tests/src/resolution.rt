//! Calls that are about a schema and its resolutions.

use crate::answer::Answer;
use crate::catalogue::Catalogue;
use crate::uses::of_choice;
use facet_solver::{FieldCategory, FieldInfo, FieldKey, Format, Resolution, Schema, SchemaError};

/// Answers a call that is no call of a solver.
pub fn of_schema(
    catalogue: Catalogue<'_>,
    schema: &Schema<'_>,
    call: &str,
    answer: &mut Answer<'_>,
) {
    match call {
        "resolutions" => answer.add_value(&schema.resolutions().len()),
        "shapes" => answer.add_value(&schema.shapes().len()),
        "format" => answer.add(format_word(schema.format())),
        _ => match schema.resolutions().get(answer.number()) {
            Some(resolution) => of_resolution(catalogue, resolution, call, answer),
            None => answer.unread(),
        },
    }
}

fn format_word(format: Format) -> &'static str {
    match format {
        Format::Flat => "flat",
        Format::Dom => "dom",
    }
}

/// Answers a call that reads a resolution.
pub fn of_resolution(
    catalogue: Catalogue<'_>,
    resolution: &Resolution<'_>,
    call: &str,
    answer: &mut Answer<'_>,
) {
    match call {
        "describe" => answer.add_description(resolution),
        "keys" => add_keys(resolution, answer),
        "required" => add_required(resolution, answer),
        "paths" => add_paths(resolution, answer),
        "path_count" => answer.add_value(&resolution.known_paths().len()),
        "has_path" => {
            answer.read_path();
            let has_path = resolution.has_key_path(&answer.path);
            answer.add_yes_or_no(has_path);
        }
        "selections" => add_selections(resolution, answer),
        "matched_by" => add_matched_by(resolution, answer),
        "choice_to_values" => of_choice(resolution, answer),
        _ => add_field(catalogue, resolution, call, answer),
    }
}

fn add_keys(resolution: &Resolution<'_>, answer: &mut Answer<'_>) {
    for (key, _) in resolution.fields() {
        add_key(*key, answer);
    }
}

/// Tells a key, as it is read.
pub fn add_key(key: FieldKey<'_>, answer: &mut Answer<'_>) {
    match key {
        FieldKey::Flat(name) => answer.add(name),
        FieldKey::Dom(category, name) => {
            answer.add(category_word(category));
            answer.put("=");
            answer.put(name);
        }
    }
}

fn category_word(category: FieldCategory) -> &'static str {
    match category {
        FieldCategory::Flat => "flat",
        FieldCategory::Attribute => "attribute",
        FieldCategory::Element => "element",
        FieldCategory::Text => "text",
        FieldCategory::Tag => "tag",
        FieldCategory::Elements => "elements",
    }
}

fn add_required(resolution: &Resolution<'_>, answer: &mut Answer<'_>) {
    for name in resolution.required_field_names() {
        answer.add(name);
    }
}

fn add_paths(resolution: &Resolution<'_>, answer: &mut Answer<'_>) {
    for path in resolution.known_paths() {
        add_path(path, answer);
    }
}

/// Tells the names of a path, with dots between them.
fn add_path(path: &[&str], answer: &mut Answer<'_>) {
    answer.add("");
    let mut dot = "";
    for name in path {
        answer.put(dot);
        answer.put(name);
        dot = ".";
    }
}

fn add_selections(resolution: &Resolution<'_>, answer: &mut Answer<'_>) {
    for selection in resolution.variant_selections() {
        answer.add_value(&selection.path);
        answer.add_all(&[selection.enum_name, selection.variant_name]);
    }
}

/// Tells whether the field of a name is matched by a key.
fn add_matched_by(resolution: &Resolution<'_>, answer: &mut Answer<'_>) {
    match resolution.field_by_name(answer.word()) {
        Some(field) => {
            let is_matched = field.matched_by(&answer.key());
            answer.add_yes_or_no(is_matched);
        }
        None => answer.unread(),
    }
}

/// Tells the field that a call reads: its path, its type, and whether it is required.
fn add_field(
    catalogue: Catalogue<'_>,
    resolution: &Resolution<'_>,
    call: &str,
    answer: &mut Answer<'_>,
) {
    let Some(field) = field(resolution, call, answer) else {
        answer.add("none");
        return;
    };
    let name = catalogue.name(field.value_shape);
    let required = if field.required {
        "required"
    } else {
        "optional"
    };
    answer.add_value(&field.path);
    answer.add_all(&[name, required]);
}

fn field<'f, 'c>(
    resolution: &'f Resolution<'c>,
    call: &str,
    answer: &mut Answer<'_>,
) -> Option<&'f FieldInfo<'c>> {
    match call {
        "field" => resolution.field_by_name(answer.word()),
        "field_by_key" => resolution.field_by_key(&answer.key()),
        "catch_all" => resolution.catch_all_map(answer.category()),
        _ => {
            answer.unread();
            None
        }
    }
}

/// Tells why there is no schema, or why a field was not added, and keeps the text of the error.
pub fn add_refusal(error: &SchemaError<'_>, answer: &mut Answer<'_>) {
    match error {
        SchemaError::DuplicateField(duplicate) => {
            answer.keep_error(error);
            answer.add_all(&["duplicate", duplicate.field_name]);
            answer.add_value(&duplicate.first_path);
            answer.add_value(&duplicate.second_path);
        }
        SchemaError::OutOfMemory => answer.refused(),
    }
}
