//! What shapes and contents of variants come to.
mod alternatives;
mod scalar;
mod shape;

use crate::part::{ListId, Target};
use facet_solver_shape::{ShapeId, WholeRange};
pub(crate) use scalar::end_of_scalar;
pub(crate) use shape::end_of;

/// What a shape comes to at its end.
#[derive(Debug, Drop)]
pub(crate) enum End<'c> {
    /// An option of what is inside.
    Option(ShapeId),
    /// Null.
    Null,
    /// A truth value.
    Truth,
    /// A whole number of a range.
    Whole(WholeRange),
    /// A number.
    Float,
    /// A text.
    Text,
    /// A text of one character.
    Character,
    /// A list of items.
    List(ShapeId),
    /// A list of as many values as there are shapes.
    Tuple(Vec<ShapeId>),
    /// A map, by the shapes of its keys and values.
    Map(ShapeId, ShapeId),
    /// An object, by a list of parts.
    Object(ListId),
    /// A variant that is named.
    NamedVariant(Vec<NamedVariant<'c>>),
    /// A variant that is not named: an object by those that join, or a value by one of them.
    UntaggedVariant(ListId, Vec<Alternative<'c>>),
    /// Any value.
    Anything,
}

/// A variant that a document names.
#[derive(Clone, Copy, Debug)]
pub(crate) struct NamedVariant<'c> {
    pub(crate) name: &'c str,
    /// Whether it has no content to tell.
    pub(crate) is_unit: bool,
    pub(crate) content: Target<'c>,
}

/// How a variant of an untagged enum reads a value.
#[derive(Clone, Copy, Debug)]
pub(crate) enum AlternativeKind {
    /// In one object with others.
    Joins,
    /// Null alone.
    Null,
    /// By a type of whole numbers.
    Whole(WholeRange),
    /// By a type of floats.
    Float,
    /// Only where no other does.
    Fallback,
    /// In another way.
    Other,
}

/// A variant of an untagged enum.
#[derive(Clone, Copy, Debug)]
pub(crate) struct Alternative<'c> {
    pub(crate) kind: AlternativeKind,
    pub(crate) content: Target<'c>,
}

/// The content of a variant that stands by itself.
#[derive(Debug, Drop)]
pub(crate) enum Content {
    /// Null, or an object without members.
    None,
    /// A value as a shape.
    Shape(ShapeId),
    /// A list of as many values as there are shapes.
    Tuple(Vec<ShapeId>),
    /// An object, by a list of parts.
    Object(ListId),
}
