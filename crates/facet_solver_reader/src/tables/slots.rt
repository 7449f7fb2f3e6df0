//! The indices of lists of parts, by their names.
ghost use Rattle.std.specs.Prelude.{◌≡◌, IfOk};
ghost use Rattle.facet_solver_reader.specs.Slots.{AreFree, AreFreeIn, IsSet, IsSetIn, index_of};
ghost use Rattle.facet_solver_reader.specs.Views.{list_view};

use crate::part::ListId;
use crate::variants::variants_at;
use facet_solver_shape::{ShapeId, Shapes};
use std::alloc::{AllocError, Global};

/// The indices of the lists of one shape, where they have one.
#[derive(Debug, Drop)]
pub(crate) struct ShapeSlots {
    pub(crate) of_struct: Option<usize>,
    pub(crate) of_enum: Option<usize>,
    pub(crate) joined: Option<usize>,
    /// By the index of the variant.
    pub(crate) branches: Vec<Option<usize>>,
    /// By the index of the variant.
    pub(crate) fields: Vec<Option<usize>>,
}

/// The indices of the lists of each shape.
#[derive(Debug, Drop)]
pub(crate) struct Slots {
    pub(crate) shapes: Vec<ShapeSlots>,
}

impl ShapeSlots {
    /// No index, of a shape of so many variants.
    fn new(alloc: Global, variants: usize) -> Result<ShapeSlots, AllocError>
        ensures { IfOk result (λ s. AreFreeIn variants s) }
    {
        let mut branches = Vec::with_capacity(alloc, variants)?;
        let mut fields = Vec::with_capacity(alloc, variants)?;
        for _ in 0..variants {
            branches.push(None)?;
            fields.push(None)?;
        }
        Ok(ShapeSlots {
            of_struct: None,
            of_enum: None,
            joined: None,
            branches,
            fields,
        })
    }

    /// Gives a list of the shape an index, if it has a slot.
    fn set(&mut self, id: &ListId, index: usize)
        ensures { IsSetIn self.old (list_view id.now) index self.new }
    {
        match *id {
            ListId::Struct(_) => self.of_struct = Some(index),
            ListId::Enum(_) => self.of_enum = Some(index),
            ListId::Joined(_) => self.joined = Some(index),
            ListId::Branch(_, variant) => {
                if variant < self.branches.len() {
                    self.branches[variant] = Some(index);
                }
            }
            ListId::Fields(_, variant) => {
                if variant < self.fields.len() {
                    self.fields[variant] = Some(index);
                }
            }
        }
    }
}

impl Slots {
    /// No index, of the lists of a catalogue. An error tells that memory was refused.
    pub(crate) fn new(alloc: Global, shapes: &Shapes) -> Result<Slots, AllocError>
        ensures { IfOk result (λ slots. AreFree shapes.now slots) }
    {
        let mut slots = Vec::with_capacity(alloc, shapes.len())?;
        for index in 0..shapes.len() {
            let variants = variants_at(shapes, ShapeId::new(index)).len();
            slots.push(ShapeSlots::new(alloc, variants)?)?;
        }
        Ok(Slots { shapes: slots })
    }

    /// Gives a list of the catalogue an index. A list that it lacks gets none.
    pub(crate) fn set(&mut self, id: ListId, index: usize)
        ensures { IsSet self.old (list_view id) index self.new }
    {
        let shape = id.shape().index();
        if shape < self.shapes.len() {
            self.shapes[shape].set(&id, index);
        }
    }

    /// The index of a list, if it has one.
    pub(crate) fn index_of(&self, id: ListId) -> Option<usize>
        ensures { result ≡ index_of self.now (list_view id) }
    {
        match id {
            ListId::Struct(shape) => self.shapes.get(shape.index())?.of_struct,
            ListId::Enum(shape) => self.shapes.get(shape.index())?.of_enum,
            ListId::Joined(shape) => self.shapes.get(shape.index())?.joined,
            ListId::Branch(shape, variant) => {
                *self.shapes.get(shape.index())?.branches.get(variant)?
            }
            ListId::Fields(shape, variant) => {
                *self.shapes.get(shape.index())?.fields.get(variant)?
            }
        }
    }
}
