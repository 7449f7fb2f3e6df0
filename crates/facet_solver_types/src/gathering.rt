//! What is read of several things, of which some have faults.
ghost use Rattle.std.specs.Prelude.{◌≡◌, ◌++◌, [], IfOk, OnOk};
ghost use Rattle.facet_solver_types.specs.Gatherings.{IsTold, or_fault};

use crate::fault::Fault;
use std::alloc::{AllocError, Global};

/// What was read, and what is wrong with the rest.
#[derive(Drop)]
pub(crate) struct Gathering<T> {
    /// What was read.
    pub(crate) values: Vec<T>,
    /// What is wrong with the rest.
    pub(crate) faults: Vec<Fault>,
}

impl<T: Drop> Gathering<T> {
    /// Nothing.
    pub(crate) fn new(alloc: Global) -> Gathering<T>
        ensures values { result.values.items ≡ [] }
        ensures faults { result.faults.items ≡ [] }
    {
        Gathering {
            values: Vec::new(alloc),
            faults: Vec::new(alloc),
        }
    }

    /// Faults alone.
    pub(crate) fn faulty(alloc: Global, faults: Vec<Fault>) -> Gathering<T>
        ensures values { result.values.items ≡ [] }
        ensures faults { result.faults.items ≡ faults.items }
    {
        Gathering {
            values: Vec::new(alloc),
            faults,
        }
    }

    /// What was read, or its fault, alone.
    ///
    /// The only error is out of memory.
    pub(crate) fn told(alloc: Global, read: Result<T, Fault>) -> Result<Gathering<T>, AllocError>
        ensures { IfOk result (λ found. IsTold read found) }
    {
        let mut found = Gathering::new(alloc);
        match read {
            Ok(value) => {
                found.values.push(value)?;
                Ok(found)
            }
            Err(Fault::OutOfMemory) => Err(AllocError),
            Err(fault) => {
                found.faults.push(fault)?;
                Ok(found)
            }
        }
    }

    /// Adds what else was read, and what is wrong with it.
    ///
    /// The only error is out of memory.
    pub(crate) fn append(&mut self, mut more: Gathering<T>) -> Result<(), AllocError>
        ensures values { OnOk result
            (self.new.values.items ≡ self.old.values.items ++ more.values.items) }
        ensures faults { OnOk result
            (self.new.faults.items ≡ self.old.faults.items ++ more.faults.items) }
    {
        self.values.append(&mut more.values)?;
        self.faults.append(&mut more.faults)
    }

    /// Adds a fault, if there is one and no other.
    ///
    /// The only error is out of memory.
    pub(crate) fn or_fault(&mut self, fault: Option<Fault>) -> Result<(), AllocError>
        ensures values { OnOk result (self.new.values.items ≡ self.old.values.items) }
        ensures faults { OnOk result
            (self.new.faults.items ≡ or_fault self.old.faults.items fault) }
    {
        if !self.faults.is_empty() {
            return Ok(());
        }
        if let Some(fault) = fault {
            self.faults.push(fault)?;
        }
        Ok(())
    }
}
