//! Roots of types.

use facet_solver::{ShapeId, Shapes};
use facet_solver_types::TypesError;
use std::alloc::{AllocError, Global};

/// The tuple of the types that stand by themselves, where an error says that several do.
pub fn tuple_of(alloc: Global, error: &TypesError<'_>) -> Result<Option<String>, AllocError> {
    match error {
        TypesError::Roots(names) if !names.is_empty() => {
            let names = names.join(alloc, ", ")?;
            Ok(Some(format!(in alloc; "({names})")?))
        }
        _ => Ok(None),
    }
}

/// The name of a type of a catalogue.
pub fn name_at(shapes: &Shapes, id: ShapeId) -> &str {
    match shapes.get(id) {
        Some(shape) => shape.type_identifier.as_str(),
        None => "",
    }
}
