//! Where the walk of one choice stands, and what was chosen there.
ghost use Rattle.std.specs.Prelude.{◌≡◌, ◌∷◌, ◌++◌, [], codes, length, map, take, IfOk, OnOk};
ghost use Rattle.facet_solver_shape.specs.Paths.{by_field, segment_of};
ghost use Rattle.facet_solver.specs.build.Place as places;
ghost use Rattle.facet_solver.specs.build.Place.{chosen_of};

use facet_solver_shape::{Field, FieldPath, PathSegment, Shape, Target, Variant};
use std::alloc::{AllocError, Global};
use std::marker::Model;

/// Where fields stand, seen as the path to them. A walk has one place, which goes along with it:
/// what is entered is added behind the path, and cut off again when the walk is through with it.
#[derive(Drop)]
pub(crate) struct Place<'c> {
    segments: Vec<PathSegment<'c>>,
}

impl<'c> Model for Place<'c> {
    ghost use Rattle.std.specs.Prelude.{map};
    ghost use Rattle.facet_solver_shape.specs.Paths.{segment_of};
    ghost use Rattle.facet_solver.specs.build.Place as places;

    ghost Value = { places.Path };

    ghost view = { λ a. map segment_of a.segments.items };
}

/// A variant that is chosen for the enum of a flattened field.
#[derive(Clone, Copy)]
pub(crate) struct Chosen<'c> {
    pub(crate) field: &'c Field,
    pub(crate) target: Target,
    pub(crate) shape: &'c Shape,
    /// The variant's index among those of the enum.
    pub(crate) index: usize,
    pub(crate) variant: &'c Variant,
}

impl<'c> Place<'c> {
    /// Where the fields of a root struct stand.
    pub(crate) fn root(alloc: Global) -> Place<'c>
        ensures { result ≡ places.at_root }
    {
        Place {
            segments: Vec::new(alloc),
        }
    }

    /// How many segments the path has.
    pub(crate) fn depth(&self) -> usize
        ensures { result ≡ length self.now }
    {
        self.segments.len()
    }

    /// Goes back to where the path had so many segments.
    pub(crate) fn cut(&mut self, depth: usize)
        ensures { self.new ≡ take depth self.old }
    {
        self.segments.truncate(depth);
    }

    /// Goes where the fields of a root enum's variant stand, from the root.
    pub(crate) fn enter_root_variant(&mut self, variant: &'c Variant) -> Result<(), AllocError>
        requires { self.old ≡ places.at_root }
        ensures { OnOk result (self.new ≡ places.at_root_variant variant.now) }
    {
        self.segments.push(PathSegment::Variant("", &variant.name))?;
        Ok(())
    }

    /// Goes where the fields stand that a field here flattens.
    pub(crate) fn enter_field(&mut self, field: &'c Field) -> Result<(), AllocError>
        ensures { OnOk result (self.new ≡ places.field_path self.old field.now) }
    {
        self.segments.push(PathSegment::Field(&field.name))?;
        Ok(())
    }

    /// Goes where the fields of a chosen variant stand.
    pub(crate) fn enter_variant(&mut self, chosen: &Chosen<'c>) -> Result<(), AllocError>
        ensures { OnOk result (self.new ≡ places.variant_path self.old (chosen_of chosen.now)) }
    {
        let field = chosen.field;
        let alternative = PathSegment::Variant(&field.name, &chosen.variant.name);
        self.segments.push(PathSegment::Field(&field.name))?;
        self.segments.push(alternative)?;
        Ok(())
    }

    /// Goes where the fields of the struct stand that is the only field, `0`, of a variant here.
    pub(crate) fn enter_newtype(&mut self) -> Result<(), AllocError>
        ensures { OnOk result (self.new ≡ self.old ++ by_field (codes "0") ∷ []) }
    {
        self.segments.push(PathSegment::Field("0"))?;
        Ok(())
    }

    /// The segments, with room for more behind them.
    fn with_room(&self, alloc: Global, more: usize) -> Result<Vec<PathSegment<'c>>, AllocError>
        ensures { IfOk result (λ segments. map segment_of segments.items ≡ self.now) }
    {
        let room = self.segments.len().saturating_add(more);
        let mut segments = Vec::with_capacity(alloc, room)?;
        segments.extend_from_slice(&self.segments)?;
        Ok(segments)
    }

    /// The path of a field here.
    pub(crate) fn field_path(
        &self,
        alloc: Global,
        field: &'c Field,
    ) -> Result<FieldPath<'c>, AllocError>
        ensures { IfOk result (λ path. path ≡ places.field_path self.now field.now) }
    {
        let mut segments = self.with_room(alloc, 1)?;
        segments.push(PathSegment::Field(&field.name))?;
        Ok(FieldPath::from(segments))
    }

    /// The path of a chosen variant's alternative.
    pub(crate) fn variant_path(
        &self,
        alloc: Global,
        chosen: &Chosen<'c>,
    ) -> Result<FieldPath<'c>, AllocError>
        ensures { IfOk result (λ path. path ≡ places.variant_path self.now (chosen_of chosen.now)) }
    {
        let field = chosen.field;
        let mut segments = self.with_room(alloc, 2)?;
        segments.push(PathSegment::Field(&field.name))?;
        segments.push(PathSegment::Variant(&field.name, &chosen.variant.name))?;
        Ok(FieldPath::from(segments))
    }
}
