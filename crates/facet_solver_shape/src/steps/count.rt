//! One count that contracts alone see.
ghost use Rattle.std.specs.Prelude.{◌≡◌, ℕ, ◌+◌};
ghost use Rattle.std.specs.Borrow.{ftrue};

use std::marker::{Model, PhantomData};

/// A whole number without bound. It takes no memory.
// No code reads or writes the number. Its proofs by hand, those of `new` and `one`, are all that
// can set it.
#[derive(Drop)]
pub(crate) struct Count {
    marker: PhantomData<u8>,
    pub ghost total: { ℕ },
}

impl Model for Count {
    ghost also_owns = { λ _. ftrue };
}

impl Count {
    /// Zero.
    pub(crate) fn new() -> Count
        ensures { result.total ≡ 0 }
    {
        Count {
            marker: PhantomData,
        }
    }

    /// Adds one.
    pub(crate) fn one(&mut self)
        ensures { self.new.total ≡ self.old.total + 1 }
    {}
}
