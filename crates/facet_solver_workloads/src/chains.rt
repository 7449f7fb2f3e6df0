//! Structs in structs, each under one name, and the names to a leaf at the end.

use crate::fault::Fault;
use crate::types::Types;
use facet_solver::{Field, ShapeId};

/// A struct with a field of the first name, which is a struct with a field of the next, and so on.
/// The last one has some leaves.
pub fn chain(types: &mut Types, names: &[&str], leaves: Vec<Field>) -> Result<ShapeId, Fault> {
    let mut shape = types.structure("Leaves", leaves)?;
    for name in names.iter().rev() {
        let fields = types.fields(&[(name, shape)])?;
        shape = types.structure("Level", fields)?;
    }
    Ok(shape)
}
