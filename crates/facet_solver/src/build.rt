//! The resolutions of a root: one for each choice of variants, in order.
ghost use Rattle.std.specs.Prelude.{◌≡◌, ◌<◌, length, slice_get};
ghost use Rattle.facet_solver_shape.specs.Catalogues.{NamesEarlier};
ghost use Rattle.facet_solver.specs.build.Build.{build_of, repr_for};
ghost use Rattle.facet_solver_shape.specs.Representation as representation;
ghost use Rattle.facet_solver_shape.specs.Representation.{repr_view};

pub(crate) mod catch_alls;
pub(crate) mod choices;
pub(crate) mod content;
pub(crate) mod contribution;
pub(crate) mod count;
pub(crate) mod draft;
pub(crate) mod emit;
pub(crate) mod field;
pub mod format;
pub(crate) mod nested;
pub(crate) mod place;
pub(crate) mod resolve;
pub(crate) mod starts;
pub(crate) mod visit;
pub(crate) mod walk;
pub(crate) mod walker;

use crate::build::format::Format;
use facet_solver_shape::{EnumRepr, Shape, ShapeId, Shapes};
use std::alloc::Global;

/// The catalogue and the rules of a build, with the allocator of what it makes.
#[derive(Clone, Copy)]
pub(crate) struct Build<'c> {
    pub(crate) alloc: Global,
    pub(crate) shapes: &'c Shapes,
    /// The representation of all flattened enums; None leaves it to each enum's own attributes.
    pub(crate) representation: Option<EnumRepr<'c>>,
    pub(crate) format: Format,
}

impl<'c> Build<'c> {
    /// The representation of an enum.
    pub(crate) fn repr_for(self, shape: &'c Shape) -> EnumRepr<'c>
        ensures { repr_view result ≡ repr_for (build_of self.entry) shape.now }
    {
        match self.representation {
            Some(repr) => repr,
            None => EnumRepr::from_shape(shape),
        }
    }

    /// Whether the content of an enum's variants is walked at the enum's own level.
    pub(crate) fn walks_content(self, shape: &'c Shape) -> bool
        ensures { result ≡ representation.is_walked (repr_for (build_of self.entry) shape.now) }
    {
        walks_content(self.repr_for(shape))
    }

    /// The shape at an index of the catalogue.
    pub(crate) fn shape(self, id: ShapeId) -> &'c Shape
        requires { id < length self.shapes.now }
        ensures found { slice_get self.entry.shapes.now id ≡ Some result.now }
        ensures checked { NamesEarlier self.entry.shapes.now }
    {
        match self.shapes.get(id) {
            Some(shape) => shape,
            None => unreachable!(),
        }
    }
}

/// Whether a representation has a variant's content walked at the enum's own level.
fn walks_content(repr: EnumRepr) -> bool
    ensures { result ≡ representation.is_walked (repr_view repr.entry) }
{
    matches!(
        repr,
        EnumRepr::Flattened | EnumRepr::InternallyTagged { .. }
    )
}
