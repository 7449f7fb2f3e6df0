//! Every public type, from the root of the library, with what can be done with it.

use crate::answer::Answer;
use facet_solver::{
    Call, CandidateFailure, CatalogueError, DomMark, DuplicateFieldError, EnumRepr, Field,
    FieldCategory, FieldInfo, FieldKey, FieldPath, Format, KeyPath, KeyResult, MissingFieldInfo,
    PathSegment, ProbeResult, ProbingSolver, Resolution, ResolutionHandle, ResolutionSet,
    ResolutionSetIter, SatisfyResult, ScalarType, Schema, SchemaError, Shape, ShapeId, ShapeKind,
    Shapes, Solver, SolverError, Steps, StructKind, Variant, VariantFormat, VariantSelection,
    VariantsByFormat,
};
use std::error::Error;
use std::fmt::Debug;
use std::hash::Hash;

/// What has a default has the one that is meant.
pub fn public_types_have_their_derives(answer: &mut Answer<'_>) {
    steps_are_counted();
    answer.add_debug(&Format::default());
    answer.add_debug(&EnumRepr::default());
    answer.claim("Flat Flattened");
}

/// The counts themselves are for contracts alone.
fn steps_are_counted() {
    let mut steps = Steps::new();
    steps.word();
    steps.search();
    steps.visit();
}

// What stands below compiles only where each type can be what its declaration says.

fn values_are_copied()
where
    ShapeId: Debug + Copy + Ord + Hash,
    FieldCategory: Debug + Copy + Ord,
    FieldKey<'static>: Debug + Copy + Ord,
    StructKind: Debug + Copy + Eq,
    ScalarType: Debug + Copy + Eq,
    DomMark: Debug + Copy + Eq,
    CatalogueError: Debug + Copy + Eq,
    PathSegment<'static>: Debug + Copy + Eq,
    Format: Debug + Copy + Eq,
    EnumRepr<'static>: Debug + Copy + Eq,
    VariantFormat: Debug + Copy + Eq,
    ResolutionHandle<'static, 'static>: Debug + Copy + Eq,
    Call<'static>: Debug + Copy,
{}

fn values_are_printed()
where
    Shape: Debug,
    ShapeKind: Debug,
    Variant: Debug,
    Field: Debug,
    Shapes: Debug,
    KeyPath<'static>: Debug,
    FieldPath<'static>: Debug + Eq,
    FieldInfo<'static>: Debug,
    VariantSelection<'static>: Debug,
    DuplicateFieldError<'static>: Debug,
    Resolution<'static>: Debug,
    Steps: Debug,
    VariantsByFormat<'static>: Debug,
    Schema<'static>: Debug,
    ResolutionSet: Debug,
    ResolutionSetIter<'static>: Debug,
    Solver<'static, 'static, 'static>: Debug,
    ProbingSolver<'static, 'static>: Debug,
    KeyResult<'static, 'static>: Debug,
    SatisfyResult<'static, 'static>: Debug,
    ProbeResult<'static, 'static>: Debug,
    MissingFieldInfo<'static>: Debug,
    CandidateFailure<'static>: Debug,
    SolverError<'static>: Debug + Error,
    SchemaError<'static>: Debug + Error,
{}
