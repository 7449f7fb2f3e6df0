//! How schemas and solvers are printed, with the index that they go by.

use crate::answer::Answer;
use crate::in_code::catalogue;
use facet_solver::{FieldKey, Schema, ShapeId, Shapes, Solver};
use std::alloc::{AllocError, Global};
use std::fmt::Write;

/// A schema of two variants, as it is printed.
const PRINTED_SCHEMA: &str = "\
    Schema { shapes: Shapes { shapes: [Shape { type_identifier: \"u8\", kind: Scalar(U8), \
    inner: None, proxy: None, tag: None, content: None, untagged: false, metadata_container: \
    false }, Shape { type_identifier: \"bool\", kind: Scalar(Bool), inner: None, proxy: None, \
    tag: None, content: None, untagged: false, metadata_container: false }, Shape { \
    type_identifier: \"T\", kind: Enum { variants: [Variant { name: \"A\", kind: Struct, \
    fields: [Field { name: \"x\", rename: None, shape: ShapeId { index: 0 }, flattened: false, \
    has_default: false, metadata: false, dom: None }] }, Variant { name: \"B\", kind: Struct, \
    fields: [Field { name: \"x\", rename: None, shape: ShapeId { index: 1 }, flattened: false, \
    has_default: false, metadata: false, dom: None }] }] }, inner: None, proxy: None, tag: \
    Some(\"t\"), content: None, untagged: false, metadata_container: false }, Shape { \
    type_identifier: \"S\", kind: Struct { kind: Struct, fields: [Field { name: \"e\", rename: \
    None, shape: ShapeId { index: 2 }, flattened: true, has_default: false, metadata: false, \
    dom: None }] }, inner: None, proxy: None, tag: None, content: None, untagged: false, \
    metadata_container: false }] }, root: ShapeId { index: 3 }, representation: None, format: \
    Flat, resolutions: [Resolution { fields: FieldMap { entries: {Flat(\"t\"): FieldInfo { \
    serialized_name: \"t\", path: FieldPath { segments: [Field(\"e\"), Variant(\"e\", \"A\")] \
    }, required: true, value_shape: ShapeId { index: 2 }, field: Field { name: \"e\", rename: \
    None, shape: ShapeId { index: 2 }, flattened: true, has_default: false, metadata: false, \
    dom: None }, category: Flat }, Flat(\"x\"): FieldInfo { serialized_name: \"x\", path: \
    FieldPath { segments: [Field(\"e\"), Variant(\"e\", \"A\"), Field(\"x\")] }, required: \
    true, value_shape: ShapeId { index: 0 }, field: Field { name: \"x\", rename: None, shape: \
    ShapeId { index: 0 }, flattened: false, has_default: false, metadata: false, dom: None }, \
    category: Flat }} }, required: NameSet { names: {\"t\", \"x\"} }, key_paths: KeyPathSet { \
    paths: {[\"t\"], [\"x\"]} }, selections: [VariantSelection { path: FieldPath { segments: \
    [Field(\"e\")] }, enum_name: \"T\", variant_name: \"A\" }], catch_alls: CatchAlls { \
    entries: {} } }, Resolution { fields: FieldMap { entries: {Flat(\"t\"): FieldInfo { \
    serialized_name: \"t\", path: FieldPath { segments: [Field(\"e\"), Variant(\"e\", \"B\")] \
    }, required: true, value_shape: ShapeId { index: 2 }, field: Field { name: \"e\", rename: \
    None, shape: ShapeId { index: 2 }, flattened: true, has_default: false, metadata: false, \
    dom: None }, category: Flat }, Flat(\"x\"): FieldInfo { serialized_name: \"x\", path: \
    FieldPath { segments: [Field(\"e\"), Variant(\"e\", \"B\"), Field(\"x\")] }, required: \
    true, value_shape: ShapeId { index: 1 }, field: Field { name: \"x\", rename: None, shape: \
    ShapeId { index: 1 }, flattened: false, has_default: false, metadata: false, dom: None }, \
    category: Flat }} }, required: NameSet { names: {\"t\", \"x\"} }, key_paths: KeyPathSet { \
    paths: {[\"t\"], [\"x\"]} }, selections: [VariantSelection { path: FieldPath { segments: \
    [Field(\"e\")] }, enum_name: \"T\", variant_name: \"B\" }], catch_alls: CatchAlls { \
    entries: {} } }], index: Index { flat: CategoryIndex { named: {\"t\": Entry { set: \
    ResolutionSet { bound: 2, words: One(3) }, shape: Some(ShapeId { index: 2 }) }, \"x\": \
    Entry { set: ResolutionSet { bound: 2, words: One(3) }, shape: None }}, all: None }, \
    attributes: CategoryIndex { named: {}, all: None }, elements: CategoryIndex { named: {}, \
    all: None }, texts: CategoryIndex { named: {}, all: None }, tags: CategoryIndex { named: \
    {}, all: None }, lists: CategoryIndex { named: {}, all: None } } }";

/// What a solver of the schema that has seen a key is printed as, behind the schema.
const PRINTED_BEHIND: &str =
    ", candidates: ResolutionSet { bound: 2, words: One(3) }, seen: {Flat(\"x\")} }";

/// Of one key the fields have one shape, and of another they have two.
pub fn schemas_and_solvers_are_printed(answer: &mut Answer<'static>) {
    let letters = "enum T tag=t { A { x: u8 }, B { x: bool } }";
    match catalogue(letters, "struct S { flat e: T }", answer) {
        Some(shapes) => of_catalogue(&shapes, answer),
        None => answer.unread(),
    }
}

fn of_catalogue(shapes: &Shapes, answer: &mut Answer<'static>) {
    let root = ShapeId::new(3);
    if !shapes.has(root) {
        answer.unread();
        return;
    }
    match Schema::build_auto(answer.alloc, shapes, root) {
        Ok(schema) => of_schema(&schema, answer),
        Err(_) => answer.refused(),
    }
}

fn of_schema(schema: &Schema<'_>, answer: &mut Answer<'static>) {
    answer.add_debug(schema);
    answer.claim(PRINTED_SCHEMA);
    match solver_that_saw_a_key(answer.alloc, schema) {
        Ok(solver) => print(&solver, answer),
        Err(AllocError) => answer.refused(),
    }
}

fn solver_that_saw_a_key<'s, 'c>(
    alloc: Global,
    schema: &'s Schema<'c>,
) -> Result<Solver<'s, 'c, 'static>, AllocError> {
    let mut solver = Solver::new(alloc, schema)?;
    solver.see_key(alloc, FieldKey::flat("x"))?;
    Ok(solver)
}

fn print(solver: &Solver<'_, '_, '_>, answer: &mut Answer<'static>) {
    let mut printed = String::new(answer.alloc);
    match write!(printed, "{solver:?}") {
        Ok(()) => answer.add(behind_schema(printed.as_str()).unwrap_or("")),
        Err(_) => answer.refused(),
    }
    answer.claim(PRINTED_BEHIND);
}

fn behind_schema(printed: &str) -> Option<&str> {
    printed
        .strip_prefix("Solver { schema: ")?
        .strip_prefix(PRINTED_SCHEMA)
}
