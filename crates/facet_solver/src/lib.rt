//! A solver that tells from the keys of a document which variants of flattened and untagged enums
//! it means.
//!
//! 1. [`Shapes::new`] checks the shapes of the types.
//! 2. A builder, as [`Schema::build`], makes one resolution for each choice of variants.
//! 3. A [`Solver`] sees the keys of a document and narrows the resolutions. [`Solver::finish`]
//!    gives the one that is left, or says why there is none.
//!
//! [`ProbingSolver`] narrows by key paths alone. The functions in [`laws`] have theorems as
//! contracts.
#![tactic(auto)]

mod build;
mod error;
mod key_path;
pub mod laws;
mod probing;
mod schema;
mod set;
mod solver;

pub use build::format::Format;
pub use error::{CandidateFailure, MissingFieldInfo, SolverError};
pub use facet_solver_shape::{
    CatalogueError, DomMark, DuplicateFieldError, EnumRepr, Field, FieldCategory, FieldInfo,
    FieldKey, FieldPath, KeyPath, PathSegment, Resolution, ScalarType, SchemaError, Shape, ShapeId,
    ShapeKind, Shapes, Steps, StructKind, Variant, VariantFormat, VariantSelection,
    VariantsByFormat, specificity_score,
};
pub use probing::{ProbeResult, ProbingSolver};
pub use schema::Schema;
pub use schema::handle::ResolutionHandle;
pub use set::{ResolutionSet, ResolutionSetIter};
pub use solver::Solver;
pub use solver::key_result::KeyResult;
pub use solver::run::Call;
pub use solver::satisfy_result::SatisfyResult;
