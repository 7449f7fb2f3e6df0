//! Types of which a check tells that they are read otherwise than they say.
ghost use Rattle.std.specs.Prelude.{◌≡◌, IfOk};
ghost use Rattle.std.specs.String.{string_bytes};
ghost use Rattle.facet_solver_shape.specs.Names.{names_of};
ghost use Rattle.facet_solver_tool.specs.UnservedTypes.{conditional_lines, unserved, unserved_lines};

use crate::notes::{note_lines, note_objects};
use facet_solver_shape::ShapeId;
use facet_solver_types::Types;
use std::alloc::{AllocError, Global};

/// What is told of a type that refuses unknown members, which a reader passes over all the same.
const UNSERVED: &str =
    ": deny_unknown_fields counts on the root alone; --strict refuses unknown members in all";

/// What is told of a type that is declared once more under another `cfg`.
const CONDITIONAL: &str = ": declared under more than one cfg; the first is taken";

/// The names of the types with `deny_unknown_fields`, where the root has none. Where it has, the
/// reader refuses unknown members in all.
fn unserved(alloc: Global, types: &Types, id: ShapeId) -> Result<Vec<&str>, AllocError>
    ensures { IfOk result (λ names. names_of names.items ≡ unserved types.now id) }
{
    if types.denies_unknown(id) {
        Ok(Vec::new(alloc))
    } else {
        types.denying(alloc)
    }
}

/// The lines of the types whose `deny_unknown_fields` a reader of a root passes over.
///
/// The only error is out of memory.
pub fn unserved_text(alloc: Global, types: &Types, id: ShapeId) -> Result<String, AllocError>
    ensures { IfOk result (λ text. string_bytes text ≡ unserved_lines (unserved types.now id)) }
{
    let names = unserved(alloc, types, id)?;
    note_lines(alloc, UNSERVED, &names)
}

/// The lines of the types that are declared once more under another `cfg`.
///
/// The only error is out of memory.
pub fn conditional_text(alloc: Global, types: &Types) -> Result<String, AllocError>
    ensures { IfOk result (λ text. string_bytes text ≡ conditional_lines types.now) }
{
    let names = types.conditional(alloc)?;
    note_lines(alloc, CONDITIONAL, &names)
}

/// The objects of JSON for the types whose `deny_unknown_fields` a reader of a root passes over.
///
/// The only error is out of memory.
pub fn unserved_data(alloc: Global, types: &Types, id: ShapeId) -> Result<String, AllocError> {
    let names = unserved(alloc, types, id)?;
    note_objects(alloc, UNSERVED, &names)
}

/// The objects of JSON for the types that are declared once more under another `cfg`.
///
/// The only error is out of memory.
pub fn conditional_data(alloc: Global, types: &Types) -> Result<String, AllocError> {
    let names = types.conditional(alloc)?;
    note_objects(alloc, CONDITIONAL, &names)
}
