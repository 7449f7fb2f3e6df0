//! What only code can show: names, derives, and errors that no transcript meets.

mod debugs;
mod denying;
mod errors;
mod pieces;
mod plans;
mod sources;

use crate::answer::{Answer, Line};
use crate::calling::documents_are_told;
use crate::public_names::public_types_have_their_derives;
use crate::readme::keys_tell_the_payload;
use crate::types::Types;
use debugs::schemas_and_solvers_are_printed;
use denying::denying_types_are_told;
use errors::{
    a_second_field_is_an_error_of_a_schema, names_in_lists_are_escaped, refused_memory_has_a_text,
};
use facet_solver::{
    FieldKey, FieldPath, PathSegment, ResolutionHandle, Schema, Shape, ShapeId, ShapeKind, Shapes,
    Solver, specificity_score,
};
use pieces::texts_of_readings_are_written_in_few_pieces;
use plans::a_plan_says_what_a_type_reads;
use sources::places_are_those_of_sources;
use std::alloc::AllocError;

/// One check.
#[derive(Clone, Copy)]
pub enum Check {
    PublicTypes,
    Keys,
    Catalogue,
    UnnamedType,
    EqualHandles,
    RefusedMemory,
    Escapes,
    SecondField,
    PathSegments,
    Pieces,
    Printed,
    Readme,
    Calling,
    Sources,
    Denying,
    Plans,
}

/// The checks, by name.
pub const CHECKS: [(&str, Check); 16] = [
    ("public_types_have_their_derives", Check::PublicTypes),
    ("keys_have_names_and_an_order", Check::Keys),
    ("a_catalogue_gives_its_shapes", Check::Catalogue),
    (
        "a_type_without_a_name_has_the_score_of_any_other",
        Check::UnnamedType,
    ),
    ("handles_are_equal_by_their_numbers", Check::EqualHandles),
    ("refused_memory_has_a_text", Check::RefusedMemory),
    ("names_in_lists_are_escaped", Check::Escapes),
    ("a_second_field_is_an_error_of_a_schema", Check::SecondField),
    ("a_path_gives_its_segments", Check::PathSegments),
    ("texts_of_readings_are_written_in_few_pieces", Check::Pieces),
    ("schemas_and_solvers_are_printed", Check::Printed),
    ("the_sample_of_the_readme_holds", Check::Readme),
    ("the_program_of_a_caller_holds", Check::Calling),
    ("places_are_those_of_sources", Check::Sources),
    ("denying_types_are_told", Check::Denying),
    ("a_plan_says_what_a_type_reads", Check::Plans),
];

impl Check {
    /// Makes the check, and notes where something else comes than is claimed.
    pub fn run(self, answer: &mut Answer<'static>) {
        match self {
            Check::PublicTypes => public_types_have_their_derives(answer),
            Check::Keys => keys_have_names_and_an_order(answer),
            Check::Catalogue => a_catalogue_gives_its_shapes(answer),
            Check::UnnamedType => a_type_without_a_name_has_the_score_of_any_other(answer),
            Check::EqualHandles => handles_are_equal_by_their_numbers(answer),
            Check::RefusedMemory => refused_memory_has_a_text(answer),
            Check::Escapes => names_in_lists_are_escaped(answer),
            Check::SecondField => a_second_field_is_an_error_of_a_schema(answer),
            Check::PathSegments => a_path_gives_its_segments(answer),
            Check::Pieces => texts_of_readings_are_written_in_few_pieces(answer),
            Check::Printed => schemas_and_solvers_are_printed(answer),
            Check::Readme => keys_tell_the_payload(answer),
            Check::Calling => documents_are_told(answer),
            Check::Sources => places_are_those_of_sources(answer),
            Check::Denying => denying_types_are_told(answer),
            Check::Plans => a_plan_says_what_a_type_reads(answer),
        }
    }
}

/// The catalogue of two types, each on a line.
fn catalogue(
    first: &'static str,
    second: &'static str,
    answer: &mut Answer<'static>,
) -> Option<Shapes> {
    let mut types = Types::new(answer.alloc);
    for text in [first, second] {
        types.declare(Line { number: 0, text }, answer);
        if !answer.holds() {
            return None;
        }
    }
    Shapes::new(types.shapes).ok()
}

fn handles_are_equal_by_their_numbers(answer: &mut Answer<'static>) {
    let letters = "enum T { A { x: u8 }, B { y: u8 } }";
    match catalogue(letters, "struct S { flat e: T }", answer) {
        Some(shapes) => of_catalogue(&shapes, answer),
        None => answer.unread(),
    }
}

fn of_catalogue(shapes: &Shapes, answer: &mut Answer<'static>) {
    let root = ShapeId::new(2);
    if !shapes.has(root) {
        answer.unread();
        return;
    }
    match Schema::build(answer.alloc, shapes, root) {
        Ok(schema) => of_schema(&schema, answer),
        Err(_) => answer.refused(),
    }
}

fn of_schema(schema: &Schema<'_>, answer: &mut Answer<'static>) {
    match Solver::new(answer.alloc, schema) {
        Ok(solver) => of_solver(&solver, answer),
        Err(AllocError) => answer.refused(),
    }
}

fn of_solver(solver: &Solver<'_, '_, '_>, answer: &mut Answer<'static>) {
    match solver.candidates(answer.alloc) {
        Ok(handles) => of_handles(&handles, answer),
        Err(AllocError) => answer.refused(),
    }
}

fn of_handles(handles: &[ResolutionHandle<'_, '_>], answer: &mut Answer<'static>) {
    if let [first, second] = handles {
        answer.add_debug(&(first == first));
        answer.add_debug(&(first == second));
    }
    answer.claim("true false");
}

fn a_catalogue_gives_its_shapes(answer: &mut Answer<'static>) {
    let pair = "struct B { rename=new a: bool, b: bool }";
    match catalogue(pair, "pointer P untagged tag=t of B", answer) {
        Some(shapes) => {
            indices_tell(&shapes, answer);
            shape_tells(&shapes, 0, "Some(Bool) None None false", answer);
            names_tell(&shapes, answer);
            shape_tells(&shapes, 2, "None Some(\"t\") None true", answer);
        }
        None => answer.unread(),
    }
}

fn indices_tell(shapes: &Shapes, answer: &mut Answer<'static>) {
    let behind = ShapeId::new(3);
    answer.add_value(&shapes.len());
    answer.add_debug(&shapes.has(ShapeId::new(2)));
    answer.add_debug(&shapes.has(behind));
    answer.add_debug(&shapes.get(behind).is_none());
    answer.claim("3 true false true");
}

fn shape_tells(shapes: &Shapes, index: usize, wanted: &'static str, answer: &mut Answer<'static>) {
    if let Some(shape) = shapes.get(ShapeId::new(index)) {
        answer.add_debug(&shape.scalar_type());
        answer.add_debug(&shape.get_tag_attr());
        answer.add_debug(&shape.get_content_attr());
        answer.add_debug(&shape.is_untagged());
    }
    answer.claim(wanted);
}

fn names_tell(shapes: &Shapes, answer: &mut Answer<'static>) {
    if let Some(
        Shape {
            kind: ShapeKind::Struct { fields, .. },
            ..
        },
    ) = shapes.get(ShapeId::new(1))
    {
        for field in fields {
            answer.add(field.effective_name());
        }
    }
    answer.claim("new b");
}

fn a_type_without_a_name_has_the_score_of_any_other(answer: &mut Answer<'static>) {
    let unnamed = Shape::new(String::new(answer.alloc), ShapeKind::Other);
    answer.add_value(&specificity_score(&unnamed));
    answer.claim("1000");
}

fn keys_have_names_and_an_order(answer: &mut Answer<'static>) {
    let rising = [
        FieldKey::flat("b"),
        FieldKey::attribute("a"),
        FieldKey::attribute("b"),
        FieldKey::element("a"),
        FieldKey::element("b"),
        FieldKey::text(),
        FieldKey::tag(),
        FieldKey::elements(),
    ];
    let mut last = FieldKey::flat("a");
    for key in &rising {
        answer.add_debug(&(last < *key));
        answer.add(key.name());
        last = *key;
    }
    answer.claim("true b true a true b true a true b true  true  true ");
}

fn a_path_gives_its_segments(answer: &mut Answer<'static>) {
    let segments = [
        PathSegment::Field("foo"),
        PathSegment::Variant("config", "Advanced"),
    ];
    let path = path_of(&segments, answer);
    answer.add_debug(&path.segments());
    answer.claim("[Field(\"foo\"), Variant(\"config\", \"Advanced\")]");
    let (same, other) = (path_of(&segments, answer), path_of(&segments[1..], answer));
    answer.add_debug(&(path == same));
    answer.add_debug(&(path == other));
    answer.claim("true false");
}

fn path_of(segments: &[PathSegment<'static>], answer: &mut Answer<'static>) -> FieldPath<'static> {
    let mut path = Vec::new(answer.alloc);
    for segment in segments {
        answer.push(&mut path, *segment);
    }
    FieldPath::from(path)
}
