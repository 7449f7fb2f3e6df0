//! The value that bytes of JSON are.
ghost use Rattle.std.specs.Prelude.{◌≡◌, IfOk, IsErrOf, None, Option, Some};
ghost use Rattle.serde_json.specs.Data.{Data};
ghost use Rattle.serde_json.specs.View.{view};
ghost use Rattle.facet_solver_program.specs.Reading.{IsReading, whole};

use crate::decode::error::DecodeError;
use crate::decode::floats::has_float;
use serde_json::Value;
use std::alloc::Global;

/// The value that bytes are, if each of its numbers is a whole one of 64 bits.
///
/// Errors: `BadInput` where they are no such JSON, or nest deeper than 127; `OutOfMemory`.
pub fn read(alloc: Global, bytes: &[u8]) -> Result<Value, DecodeError>
    ensures ok { IfOk result (λ value. (read : Option Data) × IsReading bytes.now read
        × (whole read ≡ Some (view value))) }
    ensures bad { IsErrOf result DecodeError.BadInput
        → (read : Option Data) × IsReading bytes.now read × (whole read ≡ None) }
{
    match Value::from_slice(alloc, bytes) {
        Ok(value) if has_float(&value) => Err(DecodeError::BadInput),
        Ok(value) => Ok(value),
        Err(error) if error.is_memory() => Err(DecodeError::OutOfMemory),
        Err(_) => Err(DecodeError::BadInput),
    }
}
