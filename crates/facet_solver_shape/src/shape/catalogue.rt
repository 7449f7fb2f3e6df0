//! Catalogues, and what makes a list of shapes none.
ghost use Rattle.std.specs.Prelude.{◌≡◌, ◌<◌, ◌↔◌, length, IsTrue, slice_get, IfSome, IsOk, IfOk, IfErr, OnOk, Some};
ghost use Rattle.std.specs.Option.{option_copied};
ghost use Rattle.facet_solver_shape.specs.Catalogues.{IsEarlierThan, shape_of, number_of, fault_text, refusal_text, IsChecked, IsFirstFault};
ghost use Rattle.facet_solver_shape.specs.EffectiveShapes.{effective};
ghost use Rattle.facet_solver_shape.specs.Pointers.{pointee_at, end_of, IsEndOf, EveryShapeEnds};

use super::check::{check_shape, later_pointee};
use super::{Shape, ShapeId};
use std::error::Error;
use std::fmt;
use std::marker::Model;

/// Why a list of shapes is no catalogue: a fault, with the index of the shape that has it.
#[derive(Clone, Copy, PartialEq, Eq, Debug)]
pub enum CatalogueError {
    /// The shape refers to an index that isn't below the number of shapes.
    OutOfRange {
        /// The index of the shape.
        shape: usize,
    },
    /// By a field, a variant's field, an option's inside, `inner` or `proxy`, the shape refers to
    /// an index of the catalogue that isn't below its own.
    NotEarlier {
        /// The index of the shape.
        shape: usize,
    },
    /// The shape is a pointer, and following pointees from it never comes to a shape that is no
    /// pointer, to an opaque pointer or to an index out of range.
    PointerCycle {
        /// The index of the shape.
        shape: usize,
    },
    /// The shape has two fields of one declared name in its struct or in one variant.
    DuplicateFieldName {
        /// The index of the shape.
        shape: usize,
    },
    /// The shape has two variants of one name.
    DuplicateVariantName {
        /// The index of the shape.
        shape: usize,
    },
}

impl CatalogueError {
    /// The index of the shape that has the fault.
    pub fn shape(&self) -> usize
        ensures { result ≡ shape_of self.now }
    {
        match self {
            CatalogueError::OutOfRange { shape }
            | CatalogueError::NotEarlier { shape }
            | CatalogueError::PointerCycle { shape }
            | CatalogueError::DuplicateFieldName { shape }
            | CatalogueError::DuplicateVariantName { shape } => *shape,
        }
    }

    /// The number of the fault, from 1 to 5 in the order of the variants.
    pub fn number(&self) -> u8
        ensures { result ≡ number_of self.now }
    {
        match self {
            CatalogueError::OutOfRange { .. } => 1,
            CatalogueError::NotEarlier { .. } => 2,
            CatalogueError::PointerCycle { .. } => 3,
            CatalogueError::DuplicateFieldName { .. } => 4,
            CatalogueError::DuplicateVariantName { .. } => 5,
        }
    }

    /// What the shape does that no shape of a catalogue does.
    fn fault(&self) -> &'static str
        ensures { result.now ≡ fault_text self.now }
    {
        match self {
            CatalogueError::OutOfRange { .. } => "names an index past the last shape",
            CatalogueError::NotEarlier { .. } => "names a shape that does not come before it",
            CatalogueError::PointerCycle { .. } => "is a pointer that comes to no end",
            CatalogueError::DuplicateFieldName { .. } => "has two fields of one name",
            CatalogueError::DuplicateVariantName { .. } => "has two variants of one name",
        }
    }
}

/// The text has the shape's index, what is wrong and the number of the fault, as in
/// `the shape at index 3 has two variants of one name (refusal 5)`.
impl fmt::Display for CatalogueError {
    ghost output = { λ e. Some (refusal_text e) };

    fn fmt<W: fmt::Write>(&self, f: &mut fmt::Formatter<W>) -> fmt::Result {
        let index = self.shape();
        let fault = self.fault();
        let number = self.number();
        write!(f, "the shape at index {index} {fault} (refusal {number})")
    }
}

impl Error for CatalogueError {}

/// A catalogue: a list of shapes that was checked.
#[derive(Debug, Drop)]
pub struct Shapes {
    shapes: Vec<Shape>,
}

impl Model for Shapes {
    ghost use Rattle.std.specs.Prelude.{List};
    ghost use Rattle.facet_solver_shape.specs.declared.shape.Shape.{Shape};
    ghost use Rattle.facet_solver_shape.specs.Catalogues.{IsChecked};

    ghost Value = { List Shape };

    ghost view = { λ a. a.shapes.items };

    ghost invariant = { λ a. IsChecked a.shapes.items };
}

impl Shapes {
    /// The catalogue of a list of shapes, if no shape has a fault.
    ///
    /// The error is the fault at the lowest index, and of those there the one of lowest number. The
    /// list is then dropped. The call allocates nothing.
    pub fn new(shapes: Vec<Shape>) -> Result<Shapes, CatalogueError>
        ensures accepted { IsOk result ↔ IsChecked shapes.items }
        ensures same { IfOk result (λ made. made ≡ shapes.items) }
        ensures ends { OnOk result (EveryShapeEnds shapes.items) }
        ensures refused { IfErr result (IsFirstFault shapes.items) }
    {
        // From here pointees come to an end: at first there is no shape, then it is the pointee of
        // the last pointer to a later index.
        let mut ending = ShapeId::new(shapes.len());
        for index in 0..shapes.len() {
            check_shape(&shapes, index, ending)?;
            ending = later_pointee(&shapes, index).unwrap_or(ending);
        }
        Ok(Shapes { shapes })
    }

    /// The number of shapes.
    pub fn len(&self) -> usize
        ensures value { result ≡ length self.now }
        ensures checked { IsChecked self.now }
    {
        self.shapes.len()
    }

    /// The shape at an index; `None` where the catalogue lacks the index.
    pub fn get(&self, id: ShapeId) -> Option<&Shape>
        ensures entry { option_copied result ≡ slice_get self.now id }
        ensures earlier { IfSome result (λ s. IsEarlierThan id s.now) }
        ensures checked { IsChecked self.now }
    {
        self.shapes.get(id.index())
    }

    /// Whether the catalogue has an index: it is below the number of shapes.
    pub fn has(&self, id: ShapeId) -> bool
        ensures value { IsTrue result ↔ (id < length self.now) }
        ensures checked { IsChecked self.now }
    {
        id.index() < self.len()
    }

    /// The effective shape: `inner`, or else `proxy`, is followed from shape to shape to the end.
    /// An index that the catalogue lacks is its own effective shape.
    pub fn effective(&self, id: ShapeId) -> ShapeId
        ensures { result ≡ effective self.now id }
    {
        let mut id = id;
        while let Some(shape) = self.get(id) {
            let Some(next) = shape.inner.or(shape.proxy) else {
                break;
            };
            id = next;
        }
        id
    }

    /// The end of a shape: pointers are followed. An opaque pointer is an end, and so is an index
    /// that the catalogue lacks.
    pub fn end_of(&self, id: ShapeId) -> ShapeId
        ensures value { result ≡ end_of self.now id }
        ensures is_end { IsEndOf self.now id result }
        ensures inside { id < length self.now → result < length self.now }
    {
        let mut end = id;
        while let Some(next) = self.pointee(end) {
            end = next;
        }
        end
    }

    /// Where the shape at an index leads to.
    fn pointee(&self, id: ShapeId) -> Option<ShapeId>
        ensures value { result ≡ pointee_at self.now id }
        ensures checked { IsChecked self.now }
    {
        self.get(id)?.pointee()
    }
}
