//! A reader: what a type says of documents, found once for all of them.
ghost use Rattle.std.specs.Prelude.{IfErr, IfOk, length};
ghost use Rattle.facet_solver_reader.specs.Counted.{Counted};
ghost use Rattle.facet_solver_reader.specs.Documents.{view};
ghost use Rattle.facet_solver_reader.specs.Nodes.{IsNumbering, value_of};
ghost use Rattle.facet_solver_reader.specs.Parts.{of_shape};
ghost use Rattle.facet_solver_reader.specs.Plans.{IsPlanOf};
ghost use Rattle.facet_solver_reader.specs.Readers.{HasNoCount, IsReaderOf, IsRefused};
ghost use Rattle.facet_solver_reader.specs.Readings.{ReadsValue};
ghost use Rattle.facet_solver_reader.specs.Told.{IsOnlyTold};
ghost use Rattle.facet_solver_reader.specs.Types.{rules_of};
ghost use Rattle.facet_solver_reader.specs.Why.{IsWhyNot};

mod error;

use crate::count::{Count, Memo, count_target};
use crate::document::Document;
use crate::nodes::{DocumentError, Nodes};
use crate::part::Target;
use crate::plan::Plan;
use crate::read::{NotOne, read_target};
use crate::read_error::ReadError;
use crate::reading::Reading;
use crate::tables::Tables;
use crate::why::why_not_one;
pub use error::TypeError;
use error::type_error_of;
use facet_solver_shape::{ShapeId, Shapes};
use std::alloc::{AllocError, Global};
use std::marker::Model;

/// What a reader does with members of an object that no choice has and no catch-all takes.
#[derive(Clone, Copy, PartialEq, Eq, Debug)]
pub enum Unknown {
    /// They are ignored.
    Ignored,
    /// An object that has one is not read.
    Refused,
}

/// A reader of documents as a type. It serves any number of documents.
#[derive(Drop)]
pub struct Reader<'c> {
    tables: Tables<'c>,
    root: ShapeId,
}

impl<'c> Model for Reader<'c> {
    ghost use Rattle.facet_solver_reader.specs.Readers.{IsMade, ReaderView, reader_view};

    ghost Value = { ReaderView };

    ghost view = { λ r. reader_view r.tables r.root };

    ghost invariant = { λ r. IsMade r.tables r.root };
}

impl<'c> Reader<'c> {
    /// A reader of documents as the shape at an index.
    ///
    /// # Errors
    ///
    /// For what a document that is read as the shape can come to, and nothing else in the
    /// catalogue. The content of each variant of an untagged enum counts, also of one that is read
    /// by its parts.
    ///
    /// - `NoShape`: the catalogue lacks the index.
    /// - `ReadsItself`: to read a value as a shape asks to read it as that shape again.
    /// - `ContainsItself`: the parts of a shape stand among themselves.
    /// - `DuplicateName`, `TwoCatchAlls`: a choice has two members of one name, or two catch-alls.
    ///   It is told of which parts: some choice of either has the name, or a catch-all.
    /// - `OutOfMemory`: memory was refused.
    pub fn new(
        alloc: Global,
        shapes: &'c Shapes,
        root: ShapeId,
        unknown: Unknown,
    ) -> Result<Reader<'c>, TypeError<'c>>
        ensures made { IfOk result (IsReaderOf shapes.now root unknown) }
        ensures refused { IfErr result (IsRefused shapes.now root) }
    {
        match Tables::new(alloc, shapes, root, unknown == Unknown::Refused) {
            Ok(tables) => Ok(Reader { tables, root }),
            Err(fault) => match type_error_of(alloc, shapes, &fault) {
                Ok(error) => Err(error),
                Err(_) => Err(TypeError::OutOfMemory),
            },
        }
    }

    /// The only reading of a document as the type.
    ///
    /// # Errors
    ///
    /// - `NameTwice`: a name stands twice in an object of the document. It is told before any
    ///   reading.
    /// - `NoReading`: it has none. The error has the first place that is not read, and why.
    /// - `Several`: it has two or more. The error has the first place where two differ, and by what.
    /// - `OutOfMemory`: memory was refused.
    pub fn read<'v, 'd>(
        &self,
        alloc: Global,
        document: &'v Document<'d>,
    ) -> Result<Reading<'c, 'v, 'd>, ReadError<'c, 'd>>
        ensures ok { IfOk result (IsOnlyTold (rules_of self.now.shapes self.now.strict)
            self.now.shapes (of_shape self.now.root) (view document.now)) }
        ensures error { IfErr result (IsWhyNot (rules_of self.now.shapes self.now.strict)
            (of_shape self.now.root) (view document.now)) }
    {
        match Nodes::new(alloc, document) {
            Ok(nodes) => self.read_nodes(alloc, &nodes),
            Err(error) => Err(ReadError::from(error)),
        }
    }

    /// The only reading of the root of numbered values.
    fn read_nodes<'v, 'd>(
        &self,
        alloc: Global,
        nodes: &Nodes<'v, 'd>,
    ) -> Result<Reading<'c, 'v, 'd>, ReadError<'c, 'd>>
        requires { IsNumbering nodes.now }
        ensures ok { IfOk result (IsOnlyTold (rules_of self.now.shapes self.now.strict)
            self.now.shapes (of_shape self.now.root) (value_of nodes.now 0)) }
        ensures error { IfErr result (IsWhyNot (rules_of self.now.shapes self.now.strict)
            (of_shape self.now.root) (value_of nodes.now 0)) }
    {
        let mut memo = Memo::new(alloc, nodes.len());
        let root = Target::Shape(self.root);
        let steps = self.tables.steps;
        match read_target(&self.tables, nodes, &mut memo, 0, &root, steps) {
            Ok(reading) => Ok(reading),
            Err(NotOne::NoneOrSeveral) => {
                Err(why_not_one(&self.tables, nodes, &mut memo, self.root))
            }
            Err(NotOne::OutOfMemory) => Err(ReadError::OutOfMemory),
        }
    }

    /// How many readings a document has as the type, cut at two.
    ///
    /// # Errors
    ///
    /// - `NameTwice`: a name stands twice in an object of the document. It is told before any
    ///   reading.
    /// - `OutOfMemory`: memory was refused.
    pub fn count<'d>(
        &self,
        alloc: Global,
        document: &Document<'d>,
    ) -> Result<Count, DocumentError<'d>>
        ensures count { IfOk result (Counted (ReadsValue (rules_of self.now.shapes self.now.strict)
            (of_shape self.now.root) (view document.now))) }
        ensures error { IfErr result (HasNoCount (view document.now)) }
    {
        let nodes = Nodes::new(alloc, document)?;
        let mut memo = Memo::new(alloc, nodes.len());
        let root = Target::Shape(self.root);
        let steps = self.tables.steps;
        Ok(count_target(&self.tables, &nodes, &mut memo, 0, &root, steps)?)
    }

    /// The plan of the type: what it reads, as data.
    pub fn plan(&self, alloc: Global) -> Result<Plan<'c>, AllocError>
        ensures { IfOk result (IsPlanOf (rules_of self.now.shapes self.now.strict) self.now.shapes
            (of_shape self.now.root)) }
    {
        Plan::new(alloc, &self.tables, self.root)
    }
}
