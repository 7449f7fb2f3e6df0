//! Where a path of names ends in resolutions.
ghost use Rattle.std.specs.Prelude.{◌≡◌};
ghost use Rattle.std.specs.Option.{option_and_then, option_copied, option_map};
ghost use Rattle.facet_solver_shape.specs.Names.{names_of};
ghost use Rattle.facet_solver.specs.solver.Probe.{below_first, field_on_path_at, first_field};
ghost use Rattle.facet_solver.specs.solver.ShapeAtPath.{shape_at, shape_at_path, shape_below};

use crate::solver::shape_at_path::shape_below;
use facet_solver_shape::{FieldInfo, Resolution, ShapeId, Shapes};

/// A path of names, and where it ends in resolutions.
///
/// From the field of the first name on, a path ends by the shape of that field alone. So the last
/// such shape is kept with the end of the path from there: resolutions that follow each other
/// mostly have one shape there.
#[derive(Drop)]
pub(crate) struct PathEnds<'k, 'p, 'n> {
    catalogue: &'k Shapes,
    path: &'p [&'n str],
    first: Option<ShapeId>,
    end: Option<ShapeId>,
    ghost is_end: { end
        ≡ option_and_then (shape_below catalogue.now (below_first (names_of path.now))) first },
}

impl<'k, 'p, 'n> PathEnds<'k, 'p, 'n> {
    pub(crate) fn new(catalogue: &'k Shapes, path: &'p [&'n str]) -> Self
        ensures catalogue { result.catalogue.now ≡ catalogue.now }
        ensures path { result.path.now ≡ path.now }
    {
        PathEnds {
            catalogue,
            path,
            first: None,
            end: None,
        }
    }

    /// The shape at the path of the resolution at an index.
    pub(crate) fn shape_at(
        &mut self,
        resolutions: &[Resolution<'_>],
        index: usize,
    ) -> Option<ShapeId>
        ensures shape { result ≡ shape_at self.old.catalogue.now (names_of self.old.path.now)
            resolutions.now index }
        ensures catalogue { self.new.catalogue ≡ self.old.catalogue }
        ensures path { self.new.path ≡ self.old.path }
    {
        self.shape_at_path(resolutions.get(index)?)
    }

    /// Where the resolution at an index has a shape at the path: the field of the first name, with
    /// that shape.
    pub(crate) fn field_at<'s, 'c>(
        &mut self,
        resolutions: &'s [Resolution<'c>],
        index: usize,
    ) -> Option<(&'s FieldInfo<'c>, ShapeId)>
        ensures field { option_map (λ e. (e.0.now, e.1)) result
            ≡ field_on_path_at self.old.catalogue.now (names_of self.old.path.now)
            resolutions.now index }
        ensures catalogue { self.new.catalogue ≡ self.old.catalogue }
        ensures path { self.new.path ≡ self.old.path }
    {
        let field = first_field(self.path, resolutions.get(index)?)?;
        let shape = self.end_from(field.value_shape)?;
        Some((field, shape))
    }

    /// The shape of a resolution at the path.
    fn shape_at_path(&mut self, resolution: &Resolution<'_>) -> Option<ShapeId>
        ensures shape { result ≡ shape_at_path self.old.catalogue.now (names_of self.old.path.now)
            resolution.now }
        ensures catalogue { self.new.catalogue ≡ self.old.catalogue }
        ensures path { self.new.path ≡ self.old.path }
    {
        let field = first_field(self.path, resolution)?;
        self.end_from(field.value_shape)
    }

    /// The shape at the end of the path, from the shape of the field of the first name.
    fn end_from(&mut self, first: ShapeId) -> Option<ShapeId>
        ensures end { let below = below_first (names_of self.old.path.now) in
            result ≡ shape_below self.old.catalogue.now below first }
        ensures catalogue { self.new.catalogue ≡ self.old.catalogue }
        ensures path { self.new.path ≡ self.old.path }
    {
        if self.first != Some(first) {
            *self = PathEnds {
                catalogue: self.catalogue,
                path: self.path,
                first: Some(first),
                end: shape_below(self.catalogue, below_first(self.path), first),
            };
        }
        self.end
    }
}

/// The names of a path below the first.
fn below_first<'p, 'n>(path: &'p [&'n str]) -> &'p [&'n str]
    ensures { names_of result.now ≡ below_first (names_of path.now) }
{
    match path {
        [] => path,
        [_, below @ ..] => below,
    }
}

/// The field of a resolution that has the first name of a path.
fn first_field<'s, 'c>(path: &[&str], resolution: &'s Resolution<'c>) -> Option<&'s FieldInfo<'c>>
    ensures { option_copied result ≡ first_field (names_of path.now) resolution.now }
{
    resolution.field_by_name(path.first()?)
}
