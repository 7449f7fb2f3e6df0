//! Why no schema could be made, and its text.
ghost use Rattle.std.specs.Prelude.{◌≡◌, Some, IfOk};
ghost use Rattle.facet_solver_shape.specs.declared.resolution.error.SchemaError.TheVariants.{DuplicateField, OutOfMemory};
ghost use Rattle.facet_solver_shape.specs.SchemaErrorText.{schema_error_text};

use crate::resolution::field::FieldInfo;
use crate::resolution::path::FieldPath;
use std::alloc::{AllocError, AllocFailed, Global};
use std::error::Error;
use std::fmt;

/// A duplicate key: two fields of one stored key.
#[derive(Debug, Drop)]
pub struct DuplicateFieldError<'c> {
    /// The name of both fields in a document.
    pub field_name: &'c str,
    /// Where the field that came first stands in the type.
    pub first_path: FieldPath<'c>,
    /// Where the other one stands.
    pub second_path: FieldPath<'c>,
}

impl<'c> DuplicateFieldError<'c> {
    /// That the second field has the stored key of the first.
    pub(crate) fn new(
        alloc: Global,
        first: &FieldInfo<'c>,
        second: &FieldInfo<'c>,
    ) -> Result<Self, AllocError>
        ensures name { IfOk result (λ duplicate. duplicate.field_name.now ≡ second.now.name) }
        ensures first { IfOk result (λ duplicate. duplicate.first_path ≡ first.now.path) }
        ensures second { IfOk result (λ duplicate. duplicate.second_path ≡ second.now.path) }
    {
        Ok(DuplicateFieldError {
            field_name: second.serialized_name,
            first_path: first.path.copied(alloc)?,
            second_path: second.path.copied(alloc)?,
        })
    }
}

/// Why no schema, or no larger resolution, could be made.
///
/// A duplicate key prints as `Duplicate field name 'NAME' from different sources: FIRST vs SECOND.
/// This usually means a parent struct and a flattened struct both define a field with the same
/// name.`, on one line, with the name and the texts of both paths. Out of memory prints as
/// `out of memory`.
#[derive(Debug, Drop)]
pub enum SchemaError<'c> {
    /// A duplicate key: two fields have one stored key.
    DuplicateField(DuplicateFieldError<'c>),
    /// Out of memory.
    OutOfMemory,
}

impl<'c> From<DuplicateFieldError<'c>> for SchemaError<'c> {
    ghost from_gives = { λ d e. e ≡ DuplicateField d };

    fn from(duplicate: DuplicateFieldError<'c>) -> SchemaError<'c> {
        SchemaError::DuplicateField(duplicate)
    }
}

impl<'c> From<AllocError> for SchemaError<'c> {
    ghost from_gives = { λ _ e. e ≡ OutOfMemory };

    fn from(_refused: AllocError) -> SchemaError<'c> {
        SchemaError::OutOfMemory
    }
}

impl<'c, T: Drop> From<AllocFailed<T>> for SchemaError<'c> {
    ghost from_gives = { λ _ e. e ≡ OutOfMemory };

    fn from(_refused: AllocFailed<T>) -> SchemaError<'c> {
        SchemaError::OutOfMemory
    }
}

impl fmt::Display for SchemaError<'_> {
    ghost output = { λ e. Some (schema_error_text e) };

    fn fmt<W: fmt::Write>(&self, f: &mut fmt::Formatter<W>) -> fmt::Result {
        match self {
            SchemaError::DuplicateField(duplicate) => {
                let name = duplicate.field_name;
                let first = &duplicate.first_path;
                let second = &duplicate.second_path;
                write!(
                    f,
                    "Duplicate field name '{name}' from different sources: {first} vs {second}. This usually means a parent struct and a flattened struct both define a field with the same name."
                )
            }
            SchemaError::OutOfMemory => write!(f, "out of memory"),
        }
    }
}

impl Error for SchemaError<'_> {}
