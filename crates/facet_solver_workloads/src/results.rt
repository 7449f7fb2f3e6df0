//! What the libraries answer, added to a digest by its names and numbers.

use crate::digest::Digest;
use facet_solver::{
    FieldInfo, FieldKey, FieldPath, KeyPath, KeyResult, PathSegment, ProbeResult, Resolution,
};

/// Adds a key: its category and its name.
pub fn add_key(digest: &mut Digest, key: &FieldKey<'_>) {
    match key {
        FieldKey::Flat(name) => digest.name(name),
        FieldKey::Dom(category, name) => {
            digest.number(*category as usize);
            digest.name(name);
        }
    }
}

/// Adds each field and variant of a path.
fn add_path(digest: &mut Digest, path: &FieldPath<'_>) {
    for segment in path.segments() {
        match segment {
            PathSegment::Field(name) => digest.name(name),
            PathSegment::Variant(field, variant) => {
                digest.name(field);
                digest.name(variant);
            }
        }
    }
}

/// Adds each name of a key path.
fn add_key_path(digest: &mut Digest, path: &KeyPath<'_>) {
    digest.number(path.len());
    for name in path {
        digest.name(name);
    }
}

/// Adds a field beside its name: its path, its shape, and whether it is required.
fn add_field(digest: &mut Digest, field: &FieldInfo<'_>) {
    add_path(digest, &field.path);
    digest.number(field.value_shape.index());
    digest.number(usize::from(field.required));
}

/// Adds all of a resolution: its variants, its fields by their keys, the names that it requires,
/// and each name of its key paths.
pub fn add_resolution(digest: &mut Digest, resolution: &Resolution<'_>) {
    for selection in resolution.variant_selections() {
        add_path(digest, &selection.path);
        digest.name(selection.enum_name);
        digest.name(selection.variant_name);
    }
    for (key, field) in resolution.fields() {
        add_key(digest, key);
        add_field(digest, field);
    }
    for name in resolution.required_field_names() {
        digest.name(name);
    }
    for path in resolution.known_paths() {
        add_key_path(digest, path);
    }
}

/// Adds the answer to a key: the shape, or that of each field with its score, or the resolution.
pub fn add_key_result(digest: &mut Digest, result_of_key: &KeyResult<'_, '_>) {
    match result_of_key {
        KeyResult::Unambiguous { shape } => digest.number(shape.index()),
        KeyResult::Ambiguous { fields } => {
            for (field, score) in fields {
                digest.number(field.value_shape.index());
                digest.number(*score as usize);
            }
        }
        KeyResult::Solved(handle) => digest.number(handle.index()),
        KeyResult::Unknown => digest.name("unknown"),
    }
}

/// Adds the answer to a key at a path: the variants of the resolution, where there is one.
pub fn add_probe_result(digest: &mut Digest, result_of_probe: &ProbeResult<'_, '_>) {
    match result_of_probe {
        ProbeResult::KeepGoing => digest.name("several"),
        ProbeResult::Solved(resolution) => {
            for selection in resolution.variant_selections() {
                digest.name(selection.variant_name);
            }
        }
        ProbeResult::NoMatch => digest.name("none"),
    }
}
