//! Names, each once, seen as a finite set.
ghost use Rattle.std.specs.Prelude.{◌≡◌, OnOk, OnErr, IfOk, not};
ghost use Rattle.std.specs.Bool.{OnTrue, OnFalse};
ghost use Rattle.std.specs.FinSet as set;
ghost use Rattle.facet_solver_shape.specs.Resolved.{names_view};

use std::alloc::{AllocError, Global};
use std::collections::BTreeSet;
use std::marker::Model;

/// Names, each once.
#[derive(Debug, Drop)]
pub(crate) struct NameSet<'c> {
    names: BTreeSet<&'c str>,
}

impl<'c> Model for NameSet<'c> {
    ghost use Rattle.std.specs.Ordering.{nat_cmp};
    ghost use Rattle.std.specs.Cmp.Lexicographic.{slice_cmp};
    ghost use Rattle.std.specs.FinSet as set;
    ghost use Rattle.facet_solver_shape.specs.ResolvedCode.{name_set_code};
    ghost use Rattle.std.specs.BTreeSet.{IsOrdered};
    ghost use Rattle.facet_solver_shape.specs.Resolved.{names_view};
    ghost use Rattle.facet_solver_shape.specs.Names.{name_ref_cmp};

    ghost Value = { set.FinSet (slice_cmp nat_cmp) };

    ghost coded = { name_set_code };

    ghost view = { λ s. names_view s.names.keys };

    ghost invariant = { λ s. IsOrdered name_ref_cmp s.names };
}

impl<'c> NameSet<'c> {
    pub(crate) fn new(alloc: Global) -> Self
        ensures { result ≡ set.empty }
    {
        NameSet {
            names: BTreeSet::new(alloc),
        }
    }

    pub(crate) fn as_set(&self) -> &BTreeSet<&'c str>
        ensures { names_view result.now.keys ≡ self.now }
    {
        &self.names
    }

    /// Answers whether the name is new.
    pub(crate) fn insert(&mut self, name: &'c str) -> Result<bool, AllocError>
        ensures added { IfOk result (λ added. added ≡ not (set.contains self.old name.now)) }
        ensures ok { OnOk result (self.new ≡ set.insert self.old name.now) }
        ensures undone { IfOk result
            (λ added. OnTrue added (set.remove self.new name.now ≡ self.old)) }
        ensures kept { IfOk result (λ added. OnFalse added (self.new ≡ self.old)) }
        ensures err { OnErr result (self.new ≡ self.old) }
    {
        Ok(self.names.insert(name)?)
    }

    /// Takes out a name that was just put in anew.
    pub(crate) fn remove(&mut self, name: &'c str)
        ensures { self.new ≡ set.remove self.old name.now }
    {
        self.names.remove(name);
    }

    pub(crate) fn clear(&mut self)
        ensures { self.new ≡ set.empty }
    {
        self.names.clear();
    }

    /// The names of both.
    pub(crate) fn joined(&self, alloc: Global, other: &NameSet<'c>) -> Result<Self, AllocError>
        ensures { IfOk result (λ made. made ≡ set.union self.now other.now) }
    {
        let mut made = NameSet::new(alloc);
        made.put_all(self)?;
        made.put_all(other)?;
        Ok(made)
    }

    /// After an error some of the names may have been put in.
    fn put_all(&mut self, other: &NameSet<'c>) -> Result<(), AllocError>
        ensures { OnOk result (self.new ≡ set.union self.old other.now) }
    {
        for name in &other.names {
            self.insert(name)?;
        }
        Ok(())
    }
}
