//! How a value is made that two targets read.
use crate::model::atoms::ObjectAtom;
use crate::model::wide::Wide;
use facet_solver_shape::ShapeId;

/// A value that stands within another, or is it: the smallest of a target, that of an earlier
/// question, or any.
#[derive(Clone, Copy)]
pub(crate) enum Common {
    /// The smallest value of a target.
    Smallest(usize),
    /// The value of a question, by its number; whether its two are the other way round.
    Answer(usize, bool),
    /// Any value.
    Anything,
}

/// The name of a member.
#[derive(Drop)]
pub(crate) enum Key<'c> {
    /// A name of the type.
    Name(&'c str),
    /// A name that neither list has.
    Fresh(FreshKey),
}

/// A name that neither of two lists has, and that is a key of both catch-alls, by the shapes of
/// their keys where they are maps.
#[derive(Drop)]
pub(crate) struct FreshKey {
    pub(crate) first: Option<ShapeId>,
    pub(crate) second: Option<ShapeId>,
    pub(crate) name: String,
}

/// A member of an object that is read in two ways.
#[derive(Drop)]
pub(crate) struct CommonMember<'c> {
    pub(crate) key: Key<'c>,
    pub(crate) value: Common,
    /// Whether the first passes over it.
    pub(crate) first_ignores: bool,
    /// Whether the second does.
    pub(crate) second_ignores: bool,
}

/// How a value is made.
#[derive(Drop)]
pub(crate) enum Recipe<'c> {
    Null,
    Truth,
    Whole(Wide),
    Fraction,
    Text(&'c str),
    /// A list of these values.
    List(Vec<Common>),
    /// An object of these members.
    Object(Vec<CommonMember<'c>>),
    /// The smallest object of a list.
    Smallest(ObjectAtom),
}

/// The kinds of values.
#[derive(Clone, Copy, PartialEq, Eq)]
pub(crate) enum Kind {
    Null,
    Truth,
    Whole,
    Fraction,
    Text,
    List,
    Object,
}

/// All kinds, those without values within first.
pub(crate) const KINDS: [Kind; 7] = [
    Kind::Null,
    Kind::Truth,
    Kind::Whole,
    Kind::Fraction,
    Kind::Text,
    Kind::List,
    Kind::Object,
];
