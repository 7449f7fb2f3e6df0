//! Why a text was not read, with the path of its file.
ghost use Rattle.std.specs.Prelude.{Some};
ghost use Rattle.std.specs.List.{flat_map};
ghost use Rattle.facet_solver_types.specs.LocatedTexts as located;

use crate::error::{Invalid, TypesError};
use std::fmt;

/// Why the text in the file of a path was not read.
///
/// It prints as `types.rs:3:18: expected a name, met '}'`, a line for each place that is told, or as
/// `types.rs: unknown type 'X'`.
#[derive(Clone, Copy, Debug)]
pub struct Located<'e, 't> {
    /// The path.
    pub path: &'e str,
    /// Why.
    pub error: &'e TypesError<'t>,
}

impl fmt::Display for Located<'_, '_> {
    ghost output = { λ l. Some (located.located_text l.path.now l.error.now) };

    fn fmt<W: fmt::Write>(&self, f: &mut fmt::Formatter<W>) -> fmt::Result {
        let path = self.path;
        match self.error {
            TypesError::Invalid(invalid) => {
                let lines = LocatedLines { path, invalid };
                write!(f, "{lines}")
            }
            error => write!(f, "{path}: {error}"),
        }
    }
}

/// What is wrong at places of the file of a path, a line for each.
#[derive(Clone, Copy)]
struct LocatedLines<'i, 't> {
    path: &'i str,
    invalid: &'i [Invalid<'t>],
}

impl fmt::Display for LocatedLines<'_, '_> {
    ghost output = { λ l. Some (located.located_lines l.path.now l.invalid.now) };

    fn fmt<W: fmt::Write>(&self, f: &mut fmt::Formatter<W>) -> fmt::Result {
        let path = self.path;
        match self.invalid.split_first() {
            None => Ok(()),
            Some((invalid, others)) => {
                let first = LocatedLine { path, invalid };
                let others = NextLines { path, others };
                write!(f, "{first}{others}")
            }
        }
    }
}

/// What is wrong at a place of the file of a path.
#[derive(Clone, Copy)]
struct LocatedLine<'i, 't> {
    path: &'i str,
    invalid: &'i Invalid<'t>,
}

impl fmt::Display for LocatedLine<'_, '_> {
    ghost output = { λ l. Some (located.located_line l.path.now l.invalid.now) };

    fn fmt<W: fmt::Write>(&self, f: &mut fmt::Formatter<W>) -> fmt::Result {
        let (path, invalid) = (self.path, self.invalid);
        write!(f, "{path}:{invalid}")
    }
}

/// What is wrong at further places, each in a line of its own.
#[derive(Clone, Copy)]
struct NextLines<'i, 't> {
    path: &'i str,
    others: &'i [Invalid<'t>],
}

impl fmt::Display for NextLines<'_, '_> {
    ghost output = { λ l. Some (flat_map (located.next_located l.path.now) l.others.now) };

    fn fmt<W: fmt::Write>(&self, f: &mut fmt::Formatter<W>) -> fmt::Result {
        for invalid in self.others {
            let line = LocatedLine {
                path: self.path,
                invalid,
            };
            write!(f, "\n{line}")?;
        }
        Ok(())
    }
}
