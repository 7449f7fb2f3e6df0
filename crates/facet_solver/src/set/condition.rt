//! Conditions on indices.
ghost use Rattle.std.specs.Prelude.{◌≡◌, false, nat_eq};

/// A condition on indices.
pub(crate) trait Condition {
    ghost use Rattle.std.specs.Prelude.{ℕ, Bool};

    ghost holds: { Self → ℕ → Bool };

    fn holds(&self, index: usize) -> bool
        ensures { result ≡ holds self.now index };
}

/// What no index meets.
pub(crate) struct Never;

impl Condition for Never {
    ghost holds = { λ _ _. false };

    fn holds(&self, _: usize) -> bool {
        false
    }
}

/// What one index alone meets.
#[derive(Drop)]
pub(crate) struct Only {
    pub(crate) index: usize,
}

impl Condition for Only {
    ghost holds = { λ t i. nat_eq i t.index };

    fn holds(&self, index: usize) -> bool {
        index == self.index
    }
}
