//! Paths from the root to a field or an enum.
ghost use Rattle.std.specs.Prelude.{◌≡◌, map, [], ◌∷◌, ◌++◌, ◌-◌, length, take, slice_get, codes, IfOk, Some};
ghost use Rattle.std.specs.Option.{option_map};
ghost use Rattle.std.specs.List.{flat_map};
ghost use Rattle.std.specs.Cmp.{partial_equiv_from_equiv};
ghost use Rattle.facet_solver_shape.specs.Paths.{segment_of, by_field, by_variant, segment_text, path_text, path_eq, path_eq_equiv};

use std::alloc::{AllocError, Global};
use std::fmt;
use std::marker::Model;

/// One segment of a path.
#[derive(Clone, Copy, PartialEq, Eq, Debug)]
pub enum PathSegment<'c> {
    /// Into the field of that name.
    Field(&'c str),
    /// Into a variant of an enum: the field that has the enum, and the variant. For an enum that is
    /// the root, the name of the field is empty.
    Variant(&'c str, &'c str),
}

/// Where a field or an enum stands in the type: the segments from the root.
///
/// Two paths are equal exactly if their segments are. A path prints as its segments joined by `.`,
/// where a variant is `field::Variant`. The path of the root prints as `<root>`.
#[derive(Debug, Drop)]
pub struct FieldPath<'c> {
    segments: Vec<PathSegment<'c>>,
}

impl<'c> Model for FieldPath<'c> {
    ghost use Rattle.std.specs.Prelude.{List, map};
    ghost use Rattle.facet_solver_shape.specs.Paths.{Segment, segment_of};

    ghost Value = { List Segment };

    ghost view = { λ a. map segment_of a.segments.items };
}

impl PartialEq for FieldPath<'_> {
    ghost eq = { path_eq };

    ghost laws = { partial_equiv_from_equiv path_eq_equiv };

    fn eq(&self, other: &Self) -> bool {
        self.segments == other.segments
    }
}

impl Eq for FieldPath<'_> {
    ghost laws = { path_eq_equiv };
}

/// The path of these segments, from the root on.
impl<'c> From<Vec<PathSegment<'c>>> for FieldPath<'c> {
    ghost from_gives = { λ segments path. path ≡ map segment_of segments.items };

    fn from(segments: Vec<PathSegment<'c>>) -> FieldPath<'c> {
        FieldPath { segments }
    }
}

impl<'c> FieldPath<'c> {
    /// The path of the root, which has no segments. The call allocates nothing.
    pub fn empty(alloc: Global) -> Self
        ensures { result ≡ [] }
    {
        FieldPath {
            segments: Vec::new(alloc),
        }
    }

    /// This path with the segment of a field after it. The only error is out of memory.
    pub fn push_field(&self, alloc: Global, name: &'c str) -> Result<Self, AllocError>
        ensures { IfOk result (λ path. path ≡ self.now ++ by_field name.now ∷ []) }
    {
        self.pushed(alloc, PathSegment::Field(name))
    }

    /// This path with the segment of a variant of a field's enum after it. The only error is out of
    /// memory.
    pub fn push_variant(
        &self,
        alloc: Global,
        field: &'c str,
        variant: &'c str,
    ) -> Result<Self, AllocError>
        ensures { IfOk result
            (λ path. path ≡ self.now ++ by_variant field.now variant.now ∷ []) }
    {
        self.pushed(alloc, PathSegment::Variant(field, variant))
    }

    fn pushed(&self, alloc: Global, segment: PathSegment<'c>) -> Result<Self, AllocError>
        ensures { IfOk result (λ path. path ≡ self.now ++ segment_of segment.entry ∷ []) }
    {
        let mut segments = Vec::with_capacity(alloc, self.segments.len() + 1)?;
        segments.extend_from_slice(&self.segments)?;
        segments.push(segment)?;
        Ok(FieldPath { segments })
    }

    /// The same path in memory of its own.
    pub(crate) fn copied(&self, alloc: Global) -> Result<Self, AllocError>
        ensures { IfOk result (λ path. path ≡ self.now) }
    {
        let segments = Vec::from_slice(alloc, &self.segments)?;
        Ok(FieldPath { segments })
    }

    /// The path without its last segment; of the empty path, the empty path. The only error is out
    /// of memory.
    pub fn parent(&self, alloc: Global) -> Result<Self, AllocError>
        ensures { IfOk result (λ path. path ≡ take (length self.now - 1) self.now) }
    {
        let kept = self.segments.len().saturating_sub(1);
        let segments = Vec::from_slice(alloc, &self.segments[..kept])?;
        Ok(FieldPath { segments })
    }

    /// The number of segments, which is 0 for the root.
    pub fn depth(&self) -> usize
        ensures { result ≡ length self.now }
    {
        self.segments.len()
    }

    /// The last segment; `None` for the root.
    pub fn last(&self) -> Option<&PathSegment<'c>>
        ensures { option_map (λ s. segment_of s.now) result
            ≡ slice_get self.now (length self.now - 1) }
    {
        self.segments.last()
    }

    /// The segments, from the root on.
    pub fn segments(&self) -> &[PathSegment<'c>]
        ensures { map segment_of result.now ≡ self.now }
    {
        &self.segments
    }
}

/// A segment, to be printed.
#[derive(Drop)]
struct SegmentText<'s, 'c>(&'s PathSegment<'c>);

impl fmt::Display for SegmentText<'_, '_> {
    ghost output = { λ s. Some (segment_text (segment_of s.0.now)) };

    fn fmt<W: fmt::Write>(&self, f: &mut fmt::Formatter<W>) -> fmt::Result {
        match *self.0 {
            PathSegment::Field(name) => write!(f, "{name}"),
            PathSegment::Variant(field, variant) => write!(f, "{field}::{variant}"),
        }
    }
}

/// Segments, to be printed with a dot before each.
#[derive(Drop)]
struct Dotted<'s, 'c>(&'s [PathSegment<'c>]);

impl fmt::Display for Dotted<'_, '_> {
    ghost output = { λ d. Some (flat_map (λ s. codes "." ++ segment_text (segment_of s)) d.0.now) };

    fn fmt<W: fmt::Write>(&self, f: &mut fmt::Formatter<W>) -> fmt::Result {
        for segment in self.0 {
            let text = SegmentText(segment);
            write!(f, ".{text}")?;
        }
        Ok(())
    }
}

impl fmt::Display for FieldPath<'_> {
    ghost output = { λ p. Some (path_text p) };

    fn fmt<W: fmt::Write>(&self, f: &mut fmt::Formatter<W>) -> fmt::Result {
        match self.segments.split_first() {
            None => write!(f, "<root>"),
            Some((first, rest)) => {
                let first = SegmentText(first);
                let rest = Dotted(rest);
                write!(f, "{first}{rest}")
            }
        }
    }
}
