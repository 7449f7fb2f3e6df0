//! What is wrong with a type, or with a name that is declared.
ghost use Rattle.std.specs.Prelude.{Some};
ghost use Rattle.facet_solver_types.specs.TypeProblems.{count_text, type_problem_text};

use std::fmt;

/// What is wrong with a type, or with a name that is declared.
#[derive(Clone, Copy, Debug, PartialEq, Eq)]
pub enum TypeProblem {
    /// No type has this name.
    Unknown,
    /// The type takes so many types, and has another number.
    Takes(usize),
    /// The type is nested too deeply, or has too long a name.
    TooDeep,
    /// One before it has this name.
    Twice,
    /// The variant goes by a name in a document by which one before it goes.
    ReadTwice,
    /// The attribute says another type than one before it.
    OtherType,
    /// No derive says how the struct or enum is read, where the text has others that have one.
    Underived,
    /// The struct or enum is read by code of its own.
    OwnImpl,
}

/// What is wrong with the type or the name that is met.
#[derive(Clone, Copy)]
pub(crate) struct TypeProblemAt<'t> {
    pub(crate) problem: TypeProblem,
    pub(crate) met: &'t str,
}

impl fmt::Display for TypeProblemAt<'_> {
    ghost output = { λ p. Some (type_problem_text p.problem p.met.now) };

    fn fmt<W: fmt::Write>(&self, f: &mut fmt::Formatter<W>) -> fmt::Result {
        let met = self.met;
        match self.problem {
            TypeProblem::Unknown => {
                write!(
                    f,
                    "unknown type '{met}': skip its field, put #[facet(proxy = String)] on it, \
                     or say 'type {met} = String;'"
                )
            }
            TypeProblem::Takes(count) => {
                let count = TypeCount(count);
                write!(f, "'{met}' takes {count}")
            }
            TypeProblem::TooDeep => write!(f, "the type is nested too deeply"),
            TypeProblem::Twice => write!(f, "'{met}' is declared twice"),
            TypeProblem::ReadTwice => write!(f, "'{met}' goes by the name of one before it"),
            TypeProblem::OtherType => write!(f, "'{met}' says another type than one before it"),
            TypeProblem::Underived => {
                write!(
                    f,
                    "'{met}' derives no Deserialize: skip its field, put \
                     #[facet(proxy = String)] on it, or declare in its place what documents \
                     have, as 'type {met} = String;'"
                )
            }
            TypeProblem::OwnImpl => {
                write!(
                    f,
                    "'{met}' has its own impl of Deserialize: skip its field, put \
                     #[facet(proxy = String)] on it, or declare in its place what documents \
                     have, as 'type {met} = String;'"
                )
            }
        }
    }
}

/// So many types.
#[derive(Clone, Copy)]
struct TypeCount(usize);

impl fmt::Display for TypeCount {
    ghost output = { λ c. Some (count_text c.0) };

    fn fmt<W: fmt::Write>(&self, f: &mut fmt::Formatter<W>) -> fmt::Result {
        let count = self.0;
        match count {
            0 => write!(f, "no types"),
            1 => write!(f, "1 type"),
            _ => write!(f, "{count} types"),
        }
    }
}
