//! Why a type has no reader, and why a document has no count.
ghost use Rattle.std.specs.Prelude.{IfOk, Some};
ghost use Rattle.facet_solver_reader.specs.Readers.{IsSaidOf, document_error_text, places_text, type_error_text};

use crate::field_at::{path_of_part, shape_name};
use crate::nodes::DocumentError;
use crate::tables::Fault;
use facet_solver_shape::{FieldPath, ShapeId, Shapes};
use std::alloc::{AllocError, Global};
use std::error::Error;
use std::fmt;

/// Why documents cannot be read as a type.
#[derive(PartialEq, Eq, Debug, Drop)]
pub enum TypeError<'c> {
    /// The catalogue has no shape at the index.
    NoShape {
        /// The index.
        shape: ShapeId,
    },
    /// To read a value as the shape asks to read it as the shape again.
    ReadsItself {
        /// The index of the shape.
        shape: ShapeId,
        /// The name of the shape.
        type_name: &'c str,
    },
    /// The parts of the shape stand among themselves.
    ContainsItself {
        /// The index of the shape.
        shape: ShapeId,
        /// The name of the shape.
        type_name: &'c str,
    },
    /// A choice of the shape's parts has two members of one name.
    DuplicateName {
        /// The index of the shape.
        shape: ShapeId,
        /// The name of the shape.
        type_name: &'c str,
        /// The name of the members.
        name: &'c str,
        /// The path from the shape to the field that has the one member, or flattens what has it.
        first: FieldPath<'c>,
        /// The path to the field that has the other member. It comes later.
        second: FieldPath<'c>,
    },
    /// A choice of the shape's parts has two catch-alls.
    TwoCatchAlls {
        /// The index of the shape.
        shape: ShapeId,
        /// The name of the shape.
        type_name: &'c str,
        /// The path from the shape to the field that is the one catch-all, or flattens what has it.
        first: FieldPath<'c>,
        /// The path to the field that has the other catch-all. It comes later.
        second: FieldPath<'c>,
    },
    /// Memory was refused.
    OutOfMemory,
}

/// What is said of a fault. An error tells that memory was refused.
pub(super) fn type_error_of<'c>(
    alloc: Global,
    shapes: &'c Shapes,
    fault: &Fault<'c>,
) -> Result<TypeError<'c>, AllocError>
    ensures { IfOk result (IsSaidOf shapes.now fault.now) }
{
    match fault {
        Fault::NoShape(shape) => Ok(TypeError::NoShape { shape: *shape }),
        Fault::ReadsItself(shape) => Ok(TypeError::ReadsItself {
            shape: *shape,
            type_name: shape_name(shapes, *shape),
        }),
        Fault::ContainsItself(list) => Ok(TypeError::ContainsItself {
            shape: list.shape(),
            type_name: shape_name(shapes, list.shape()),
        }),
        Fault::NameTwice {
            list,
            name,
            first,
            second,
        } => Ok(TypeError::DuplicateName {
            shape: list.shape(),
            type_name: shape_name(shapes, list.shape()),
            name,
            first: path_of_part(alloc, shapes, list, *first)?,
            second: path_of_part(alloc, shapes, list, *second)?,
        }),
        Fault::TwoCatchAlls {
            list,
            first,
            second,
        } => Ok(TypeError::TwoCatchAlls {
            shape: list.shape(),
            type_name: shape_name(shapes, list.shape()),
            first: path_of_part(alloc, shapes, list, *first)?,
            second: path_of_part(alloc, shapes, list, *second)?,
        }),
        Fault::OutOfMemory => Ok(TypeError::OutOfMemory),
    }
}

/// Two places, to be printed.
#[derive(Drop)]
struct Places<'e, 'c>(&'e FieldPath<'c>, &'e FieldPath<'c>);

impl fmt::Display for Places<'_, '_> {
    ghost output = { λ p. Some (places_text p.0.now p.1.now) };

    fn fmt<W: fmt::Write>(&self, f: &mut fmt::Formatter<W>) -> fmt::Result {
        let Places(first, second) = self;
        write!(f, "at {first} and at {second}")
    }
}

/// The text has the type, what is wrong with it and where, as in
/// `type Server: two members named 'port', at endpoint and at port; rename one`.
impl fmt::Display for TypeError<'_> {
    ghost output = { λ e. Some (type_error_text e) };

    fn fmt<W: fmt::Write>(&self, f: &mut fmt::Formatter<W>) -> fmt::Result {
        match self {
            TypeError::NoShape { shape } => {
                let index = shape.index();
                write!(f, "the catalogue has no shape at index {index}")
            }
            TypeError::ReadsItself { type_name, .. } => {
                write!(f, "type {type_name}: it is read as itself without end")
            }
            TypeError::ContainsItself { type_name, .. } => {
                write!(f, "type {type_name}: its parts contain themselves")
            }
            TypeError::DuplicateName {
                type_name,
                name,
                first,
                second,
                ..
            } => {
                let places = Places(first, second);
                write!(
                    f,
                    "type {type_name}: two members named '{name}', {places}; rename one"
                )
            }
            TypeError::TwoCatchAlls {
                type_name,
                first,
                second,
                ..
            } => {
                let places = Places(first, second);
                write!(f, "type {type_name}: two catch-alls, {places}; keep one")
            }
            TypeError::OutOfMemory => f.write_str("out of memory"),
        }
    }
}

impl Error for TypeError<'_> {}

/// The text has the place of the name, as in `login.kind: the name stands twice`.
impl fmt::Display for DocumentError<'_> {
    ghost output = { λ e. Some (document_error_text e) };

    fn fmt<W: fmt::Write>(&self, f: &mut fmt::Formatter<W>) -> fmt::Result {
        match self {
            DocumentError::NameTwice(place) => write!(f, "{place}: the name stands twice"),
            DocumentError::OutOfMemory => f.write_str("out of memory"),
        }
    }
}

impl Error for DocumentError<'_> {}
