//! Why a text was not read, with its places.
ghost use Rattle.std.specs.Prelude.{◌≡◌, ◌≢◌, IfOk, Some, map, option_map};
ghost use Rattle.std.specs.List.{flat_map};
ghost use Rattle.std.specs.String.{string_bytes};
ghost use Rattle.facet_solver_types.specs.declared.error.TypesError.TheVariants as errors;
ghost use Rattle.facet_solver_types.specs.Errors as of;
ghost use Rattle.facet_solver_types.specs.Errors.{error_text, error_view, invalid_text, invalid_view, met_at, met_text, problem_text, root_text, told_of};
ghost use Rattle.facet_solver_types.specs.Failures.{failure_view};
ghost use Rattle.facet_solver_types.specs.Scopes.{str_view};

use crate::attribute::Refused;
use crate::failure::Failure;
use crate::fault::Fault;
use crate::place::{Place, place_at};
use crate::problem::Problem;
use crate::shape_problem::Unshaped;
use crate::tokens::first_written;
use crate::type_problem::{TypeProblem, TypeProblemAt};
use facet_solver_shape::CatalogueError;
use std::alloc::{AllocError, Global};
use std::error::Error;
use std::fmt;

/// What is wrong at a place of a text.
///
/// It prints as `3:18: expected a name, met '}'`, line and column first.
#[derive(Clone, Copy, Debug, PartialEq, Eq)]
pub struct Invalid<'t> {
    /// Where.
    pub place: Place,
    /// What.
    pub problem: Problem,
    /// The token that stands there, as it is written, or nothing at the end.
    pub met: &'t str,
}

impl fmt::Display for Invalid<'_> {
    ghost output = { λ i. Some (invalid_text i) };

    fn fmt<W: fmt::Write>(&self, f: &mut fmt::Formatter<W>) -> fmt::Result {
        let place = self.place;
        let told = ProblemTold {
            problem: self.problem,
            met: self.met,
        };
        write!(f, "{place}: {told}")
    }
}

/// Why a text of declarations was not read, or not for a root.
///
/// It prints what is invalid a line for each, or as `out of memory`.
#[derive(Debug, Drop, PartialEq, Eq)]
pub enum TypesError<'t> {
    /// The text cannot be read, or what the root needs of it: all that is wrong, in the order of
    /// the text.
    Invalid(Vec<Invalid<'t>>),
    /// The root that is named is no type.
    Root {
        /// Why.
        problem: Problem,
        /// The token of the root that is at fault, as it is written, or nothing at the end.
        met: &'t str,
    },
    /// No root is named, and not just one type stands by itself: the names of those that do.
    Roots(Vec<String>),
    /// The shapes of the types are no catalogue.
    Catalogue(CatalogueError),
    /// Out of memory.
    OutOfMemory,
}

impl fmt::Display for TypesError<'_> {
    ghost output = { λ e. Some (error_text e) };

    fn fmt<W: fmt::Write>(&self, f: &mut fmt::Formatter<W>) -> fmt::Result {
        match self {
            TypesError::Invalid(invalid) => {
                let lines = Lines(invalid);
                write!(f, "{lines}")
            }
            TypesError::Root { problem, met } => {
                let root = RootTold {
                    problem: *problem,
                    met,
                };
                write!(f, "{root}")
            }
            TypesError::Roots(names) => {
                let roots = SeveralRoots(names);
                write!(f, "{roots}")
            }
            TypesError::Catalogue(error) => write!(f, "{error}"),
            TypesError::OutOfMemory => write!(f, "out of memory"),
        }
    }
}

impl Error for TypesError<'_> {}

/// What is invalid, a line for each.
#[derive(Clone, Copy)]
struct Lines<'i, 't>(&'i [Invalid<'t>]);

impl fmt::Display for Lines<'_, '_> {
    ghost output = { λ l. Some (of.lines_text l.0.now) };

    fn fmt<W: fmt::Write>(&self, f: &mut fmt::Formatter<W>) -> fmt::Result {
        match self.0.split_first() {
            None => Ok(()),
            Some((first, others)) => {
                let others = NextLines(others);
                write!(f, "{first}{others}")
            }
        }
    }
}

/// What is invalid behind another, each in a line of its own.
#[derive(Clone, Copy)]
struct NextLines<'i, 't>(&'i [Invalid<'t>]);

impl fmt::Display for NextLines<'_, '_> {
    ghost output = { λ l. Some (flat_map of.next_line l.0.now) };

    fn fmt<W: fmt::Write>(&self, f: &mut fmt::Formatter<W>) -> fmt::Result {
        for invalid in self.0 {
            write!(f, "\n{invalid}")?;
        }
        Ok(())
    }
}

/// Why a root is no type, where this is met.
#[derive(Clone, Copy)]
struct RootTold<'t> {
    problem: Problem,
    met: &'t str,
}

impl fmt::Display for RootTold<'_> {
    ghost output = { λ r. Some (root_text r.problem r.met.now) };

    fn fmt<W: fmt::Write>(&self, f: &mut fmt::Formatter<W>) -> fmt::Result {
        let met = self.met;
        match self.problem {
            Problem::OfType(TypeProblem::Unknown) => write!(f, "unknown type '{met}'"),
            problem => {
                let told = ProblemTold { problem, met };
                write!(f, "{told}")
            }
        }
    }
}

/// That not just one type stands by itself: these do.
#[derive(Clone, Copy)]
struct SeveralRoots<'n>(&'n [String]);

impl fmt::Display for SeveralRoots<'_> {
    ghost output = { λ r. Some (of.roots_text (map string_bytes r.0.now)) };

    fn fmt<W: fmt::Write>(&self, f: &mut fmt::Formatter<W>) -> fmt::Result {
        match self.0.split_first() {
            None => write!(f, "no type stands by itself; name the root"),
            Some((first, others)) => {
                let others = NextNames(others);
                write!(
                    f,
                    "several types stand by themselves: {first}{others}; name the root"
                )
            }
        }
    }
}

/// Names behind another.
#[derive(Clone, Copy)]
struct NextNames<'n>(&'n [String]);

impl fmt::Display for NextNames<'_> {
    ghost output = { λ n. Some (flat_map of.next_name (map string_bytes n.0.now)) };

    fn fmt<W: fmt::Write>(&self, f: &mut fmt::Formatter<W>) -> fmt::Result {
        for name in self.0 {
            write!(f, ", {name}")?;
        }
        Ok(())
    }
}

/// What is wrong, where this is met.
#[derive(Clone, Copy)]
struct ProblemTold<'t> {
    problem: Problem,
    met: &'t str,
}

impl fmt::Display for ProblemTold<'_> {
    ghost output = { λ t. Some (problem_text t.problem t.met.now) };

    fn fmt<W: fmt::Write>(&self, f: &mut fmt::Formatter<W>) -> fmt::Result {
        let met = self.met;
        match self.problem {
            Problem::NoToken(byte) => {
                let character = char::from(byte);
                write!(f, "'{character}' begins no token")
            }
            Problem::OpenText => write!(f, "text is not closed"),
            Problem::OpenCharacter => write!(f, "character is not closed"),
            Problem::OpenComment => write!(f, "comment is not closed"),
            Problem::OpenBracket => write!(f, "'{met}' is not closed"),
            Problem::ClosesNothing => write!(f, "'{met}' closes nothing"),
            Problem::Expected(expected) => {
                let met = Met(met);
                write!(f, "expected {expected}, met {met}")
            }
            Problem::Attribute(refusal) => {
                let refused = Refused { refusal, met };
                write!(f, "{refused}")
            }
            Problem::OfType(problem) => {
                let told = TypeProblemAt { problem, met };
                write!(f, "{told}")
            }
            Problem::Shape(problem) => {
                let unshaped = Unshaped { problem, met };
                write!(f, "{unshaped}")
            }
        }
    }
}

/// What is met, in quotes, or the end.
#[derive(Clone, Copy)]
struct Met<'t>(&'t str);

impl fmt::Display for Met<'_> {
    ghost output = { λ m. Some (met_text m.0.now) };

    fn fmt<W: fmt::Write>(&self, f: &mut fmt::Formatter<W>) -> fmt::Result {
        let met = self.0;
        if met.is_empty() {
            write!(f, "the end")
        } else {
            write!(f, "'{met}'")
        }
    }
}

/// What is wrong at an offset of a text.
fn invalid_at<'t>(text: &'t str, offset: usize, problem: Problem) -> Invalid<'t>
    ensures { invalid_view result ≡ of.invalid_at text.now offset problem }
{
    Invalid {
        place: place_at(text, offset.min(text.len())),
        problem,
        met: met_at(text, offset),
    }
}

/// What is wrong at one offset of a text, alone.
fn one_invalid<'t>(
    alloc: Global,
    text: &'t str,
    offset: usize,
    problem: Problem,
) -> Result<TypesError<'t>, AllocError>
    ensures { IfOk result (λ error. error_view error ≡ of.one_invalid text.now offset problem) }
{
    let mut invalid = Vec::new(alloc);
    invalid.push(invalid_at(text, offset, problem))?;
    Ok(TypesError::Invalid(invalid))
}

/// What faults tell of a text.
fn all_invalid<'t>(
    alloc: Global,
    text: &'t str,
    faults: &[Fault],
) -> Result<Vec<Invalid<'t>>, AllocError>
    ensures { IfOk result (λ invalid. map invalid_view invalid.items
        ≡ of.all_invalid text.now faults.now) }
{
    let mut invalid = Vec::new(alloc);
    for fault in faults {
        if let Fault::At { offset, problem } = *fault {
            invalid.push(invalid_at(text, offset, problem))?;
        }
    }
    Ok(invalid)
}

/// The error that tells a fault of a text.
fn text_error<'t>(alloc: Global, text: &'t str, fault: Fault) -> Result<TypesError<'t>, AllocError>
    ensures { IfOk result (λ error. error_view error ≡ of.text_error text.now fault) }
{
    match fault {
        Fault::At { offset, problem } => one_invalid(alloc, text, offset, problem),
        Fault::Catalogue(error) => Ok(TypesError::Catalogue(error)),
        Fault::OutOfMemory => Err(AllocError),
    }
}

/// The error that tells a fault of a root, whose tokens stand behind those of a text.
fn root_error<'t>(
    alloc: Global,
    text: &'t str,
    root: &'t str,
    fault: Fault,
) -> Result<TypesError<'t>, AllocError>
    ensures { IfOk result (λ error. error_view error ≡ of.root_error text.now root.now fault) }
{
    match fault {
        Fault::At { offset, problem } if offset >= text.len() => Ok(TypesError::Root {
            problem,
            met: met_at(root, offset - text.len()),
        }),
        _ => text_error(alloc, text, fault),
    }
}

/// A copy of names.
fn copied(alloc: Global, names: &[String]) -> Result<Vec<String>, AllocError>
    ensures { IfOk result (λ copy. map string_bytes copy.items ≡ map string_bytes names.now) }
{
    let mut copy = Vec::new(alloc);
    for name in names {
        copy.push(name.clone()?)?;
    }
    Ok(copy)
}

/// The error that tells a failure of a text and of a root.
fn told<'t>(
    alloc: Global,
    text: &'t str,
    root: Option<&'t str>,
    failure: &Failure,
) -> Result<TypesError<'t>, AllocError>
    ensures { IfOk result (λ error. error_view error
        ≡ told_of text.now (option_map str_view root.entry) (failure_view failure.now)) }
{
    match failure {
        Failure::Text(fault) => text_error(alloc, text, *fault),
        Failure::Needed(faults) => Ok(TypesError::Invalid(all_invalid(alloc, text, faults)?)),
        Failure::Root(fault) => root_error(alloc, text, root.unwrap_or(""), *fault),
        Failure::Roots(names) => Ok(TypesError::Roots(copied(alloc, names)?)),
    }
}

/// The error that tells a failure of a text and of a root, or out of memory.
pub(crate) fn error_of<'t>(
    alloc: Global,
    text: &'t str,
    root: Option<&'t str>,
    failure: &Failure,
) -> TypesError<'t>
    ensures { result ≢ errors.OutOfMemory → error_view result
        ≡ told_of text.now (option_map str_view root.entry) (failure_view failure.now) }
{
    match told(alloc, text, root, failure) {
        Ok(error) => error,
        Err(AllocError) => TypesError::OutOfMemory,
    }
}

/// The token that stands at an offset, as it is written, or nothing.
fn met_at<'t>(text: &'t str, offset: usize) -> &'t str
    ensures { result.now ≡ met_at offset text.now }
{
    match text.split_at_checked(offset) {
        Some((_, rest)) => first_written(rest),
        None => "",
    }
}
