//! What is told of a type.
ghost use Rattle.std.specs.Prelude.{◌≡◌, IfOk};
ghost use Rattle.facet_solver_checker.specs.Reports.{is_certain};
ghost use Rattle.facet_solver_witnesses.specs.WayNames.{way_names};

use facet_solver_reader::{Plan, TypeName};
use facet_solver_witnesses::{Ambiguity, Fork, Place, way_names};
use std::alloc::{AllocError, Global};

/// Where two readings of one document can differ first.
#[derive(Debug, Drop)]
pub struct Report<'c> {
    /// What the type reads. The places are by its numbers.
    pub plan: Plan<'c>,
    /// The places: those of selections, by the numbers of the lists that have them, and behind them
    /// those of enums that are read as values, by the numbers of their targets.
    pub places: Vec<Place>,
    /// What the type cannot tell: the ambiguities that have a document or a cause, in the order in
    /// which a document comes to them, and behind them those of the places that are left. Each
    /// place stands in one.
    pub ambiguities: Vec<Ambiguity<'c>>,
}

impl<'c> Report<'c> {
    /// Whether no document has two readings.
    pub fn is_certain(&self) -> bool
        ensures { result ≡ is_certain self.now }
    {
        self.places.is_empty()
    }

    /// The names of the variants that the way of an index takes: one, or, behind the last variant
    /// of an enum that reads a value by itself, those that read an object together. None where
    /// there is no such way.
    pub fn names(
        &self,
        alloc: Global,
        fork: Fork,
        way: usize,
    ) -> Result<Vec<TypeName<'c>>, AllocError>
        ensures { IfOk result (λ names. names.items ≡ way_names self.now.plan fork way) }
    {
        way_names(alloc, &self.plan, fork, way)
    }
}
