//! Shapes of types, what fields and enums mean, and what one choice of variants resolves to.
//!
//! [`Shapes`] is a checked catalogue of shapes. [`role_of`] tells what a field is to the fields around
//! it, and [`EnumRepr`] how an enum is written. [`Resolution`] is what a document of one choice
//! has. [`VariantsByFormat`] groups the variants of an enum by the values that stand for them. The
//! functions in [`laws`] have theorems as contracts.
#![tactic(auto)]

pub mod laws;
mod metadata;
mod representation;
mod resolution;
mod role;
mod shape;
mod steps;
mod variants;

pub use metadata::is_metadata_container;
pub use representation::EnumRepr;
pub use resolution::{
    DuplicateFieldError, FieldCategory, FieldInfo, FieldKey, FieldPath, KeyPath, PathSegment,
    Resolution, SchemaError, VariantSelection,
};
pub use role::{Role, Target, is_option, is_required, role_of};
pub use shape::{
    CatalogueError, DomMark, Field, ScalarType, Shape, ShapeId, ShapeKind, Shapes, StructKind,
    Variant, Whole, WholeRange,
};
pub use steps::Steps;
pub use variants::{VariantFormat, VariantsByFormat, specificity_score};
