//! The parts by which an object is read.
ghost use Rattle.std.specs.Prelude.{◌≡◌, IsSorted};
ghost use Rattle.facet_solver_shape.specs.Names.{name_ref_cmp};
ghost use Rattle.facet_solver_reader.specs.ListShapes.{shape_of};
ghost use Rattle.facet_solver_reader.specs.SelectionNames.{has_known};
ghost use Rattle.facet_solver_reader.specs.Views.{list_view};

use crate::nodes::is_among;
use facet_solver_shape::ShapeId;

/// What a value is read as.
#[derive(Clone, Copy, Debug)]
pub(crate) enum Target<'c> {
    /// A shape.
    Shape(ShapeId),
    /// The content of a variant of an enum, by the variant's index.
    Content(ShapeId, usize),
    /// The text that names a variant.
    Tag(&'c str),
}

/// The name of a list of parts.
#[derive(Clone, Copy, PartialEq, Eq, Debug)]
pub(crate) enum ListId {
    /// The fields of a struct.
    Struct(ShapeId),
    /// All branches of an enum, as one selection.
    Enum(ShapeId),
    /// The branches of an untagged enum that join, as one selection.
    Joined(ShapeId),
    /// One branch of an enum, by the variant's index.
    Branch(ShapeId, usize),
    /// The fields of a variant of an enum, by its index.
    Fields(ShapeId, usize),
}

impl ListId {
    /// The shape that the list is of.
    pub(crate) fn shape(self) -> ShapeId
        ensures { result ≡ shape_of (list_view self) }
    {
        match self {
            ListId::Struct(shape)
            | ListId::Enum(shape)
            | ListId::Joined(shape)
            | ListId::Branch(shape, _)
            | ListId::Fields(shape, _) => shape,
        }
    }
}

/// A member of an object.
#[derive(Clone, Copy, Debug)]
pub(crate) struct MemberPart<'c> {
    pub(crate) name: &'c str,
    pub(crate) required: bool,
    pub(crate) target: Target<'c>,
}

/// One of several lists of parts.
#[derive(Debug, Drop)]
pub(crate) struct Selection<'c> {
    /// Whether it may be absent.
    pub(crate) optional: bool,
    pub(crate) branches: Vec<ListId>,
    /// The names of the members of its branches' choices, rising. There are none before its list
    /// stands in tables, after those of its branches.
    pub(crate) names: Vec<&'c str>,
}

impl Selection<'_> {
    /// Whether a choice of a branch has a member of the name.
    pub(crate) fn has_name(&self, name: &str) -> bool
        requires { IsSorted name_ref_cmp self.now.names.items }
        ensures { result ≡ has_known self.now name.now }
    {
        is_among(name, &self.names)
    }
}

/// What takes the members of no known name.
#[derive(Clone, Copy, Debug)]
pub(crate) enum CatchAll {
    /// A map, by the shapes of its keys and values.
    Map(ShapeId, ShapeId),
    /// A value of any kind.
    Anything,
}

/// What stands in a list of parts.
#[derive(Debug, Drop)]
pub(crate) enum Part<'c> {
    Member(MemberPart<'c>),
    Selection(Selection<'c>),
    CatchAll(CatchAll),
}
