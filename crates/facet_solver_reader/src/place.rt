//! Places in a document.
ghost use Rattle.std.specs.Prelude.{◌≡◌, [], ◌∷◌, ◌++◌, codes, map, reverse, IfOk, Some};
ghost use Rattle.std.specs.List.{flat_map};
ghost use Rattle.facet_solver_reader.specs.Places.{step_of, step_text, place_text, to_member};

use std::alloc::AllocError;
use std::fmt;
use std::marker::Model;

/// One segment of a place.
#[derive(Clone, Copy, PartialEq, Eq, Debug)]
pub enum PlaceSegment<'d> {
    /// Into the member of that name.
    Name(&'d str),
    /// Into the item of that index, counted from 0.
    Index(usize),
}

/// Where a value stands in a document: the segments from the root on.
///
/// It prints as its segments joined by `.`, as `login.0.kind`. The place of the root prints as
/// `the document`.
#[derive(Debug, Drop)]
pub struct Place<'d> {
    segments: Vec<PlaceSegment<'d>>,
}

impl<'d> Model for Place<'d> {
    ghost use Rattle.std.specs.Prelude.{List, map};
    ghost use Rattle.facet_solver_reader.specs.Places.{PlaceStep, step_of};

    ghost Value = { List PlaceStep };

    ghost view = { λ p. map step_of p.segments.items };
}

impl<'d> Place<'d> {
    /// The place to which segments lead, of which the last comes first.
    pub(crate) fn backwards(mut segments: Vec<PlaceSegment<'d>>) -> Place<'d>
        ensures { result ≡ map step_of (reverse segments.entry.items) }
    {
        segments.reverse();
        Place { segments }
    }

    /// The place of the member of that name in the object at this place.
    pub(crate) fn member(mut self, name: &'d str) -> Result<Place<'d>, AllocError>
        ensures { IfOk result (λ place. place ≡ self.entry ++ to_member name.now ∷ []) }
    {
        self.segments.push(PlaceSegment::Name(name))?;
        Ok(self)
    }

    /// The segments, from the root on.
    pub fn segments(&self) -> &[PlaceSegment<'d>]
        ensures { map step_of result.now ≡ self.now }
    {
        &self.segments
    }
}

impl fmt::Display for PlaceSegment<'_> {
    ghost output = { λ s. Some (step_text (step_of s)) };

    fn fmt<W: fmt::Write>(&self, f: &mut fmt::Formatter<W>) -> fmt::Result {
        match *self {
            PlaceSegment::Name(name) => write!(f, "{name}"),
            PlaceSegment::Index(index) => write!(f, "{index}"),
        }
    }
}

/// Segments, to be printed with a dot before each.
#[derive(Drop)]
struct Dotted<'s, 'd>(&'s [PlaceSegment<'d>]);

impl fmt::Display for Dotted<'_, '_> {
    ghost output = { λ d. Some (flat_map (λ s. codes "." ++ step_text (step_of s)) d.0.now) };

    fn fmt<W: fmt::Write>(&self, f: &mut fmt::Formatter<W>) -> fmt::Result {
        for segment in self.0 {
            write!(f, ".{segment}")?;
        }
        Ok(())
    }
}

impl fmt::Display for Place<'_> {
    ghost output = { λ p. Some (place_text p) };

    fn fmt<W: fmt::Write>(&self, f: &mut fmt::Formatter<W>) -> fmt::Result {
        match self.segments.split_first() {
            None => write!(f, "the document"),
            Some((first, rest)) => {
                let rest = Dotted(rest);
                write!(f, "{first}{rest}")
            }
        }
    }
}
