//! Lines that tell something of types.
ghost use Rattle.std.specs.Prelude.{◌≡◌, ◌++◌, IfOk, OnOk};
ghost use Rattle.std.specs.String.{string_bytes};
ghost use Rattle.facet_solver_shape.specs.Names.{names_of};
ghost use Rattle.facet_solver_tool.specs.Notes.{note_line, note_lines};

use crate::quoted::Quoted;
use std::alloc::{AllocError, Global};

/// Adds the line of a type, behind a line feed: its name and a note.
fn add_line(text: &mut String, note: &str, name: &str) -> Result<(), AllocError>
    ensures { OnOk result (string_bytes text.new
        ≡ string_bytes text.old ++ note_line note.now name.now) }
{
    text.push_str("\n")?;
    text.push_str(name)?;
    text.push_str(note)
}

/// The lines of types, each behind a line feed: its name and a note.
///
/// The only error is out of memory.
pub fn note_lines(alloc: Global, note: &str, names: &[&str]) -> Result<String, AllocError>
    ensures { IfOk result (λ text. string_bytes text
        ≡ note_lines note.now (names_of names.now)) }
{
    let mut text = String::new(alloc);
    for name in names {
        add_line(&mut text, note, name)?;
    }
    Ok(text)
}

/// The objects of JSON for types, each behind a line feed: its name, and a note without what
/// divides it from a name.
///
/// The only error is out of memory.
pub fn note_objects(alloc: Global, note: &str, names: &[&str]) -> Result<String, AllocError> {
    let note = match note.strip_prefix(": ") {
        Some(note) => note,
        None => note,
    };
    let mut text = String::new(alloc);
    for name in names {
        let name = Quoted(name);
        let note = Quoted(note);
        let line = format!(in alloc; "\n{{\"type\": {name}, \"note\": {note}}}")?;
        text.push_str(line.as_str())?;
    }
    Ok(text)
}
