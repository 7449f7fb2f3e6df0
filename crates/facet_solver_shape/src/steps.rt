//! How much work was done, as contracts count it.
ghost use Rattle.std.specs.Prelude.{◌≡◌, ◌+◌};
ghost use Rattle.facet_solver_shape.specs.Steps.{StepCounts};

mod count;

use count::Count;
use std::fmt;
use std::marker::Model;

/// Counts the work of a call: words of an index that were read, searches of a resolution for a
/// field, and visits of a field.
///
/// The counts are whole numbers without bound that contracts alone see. When a program runs there
/// are none: a `Steps` takes no memory and no time, and nothing can be read from it.
#[derive(Drop)]
pub struct Steps {
    words: Count,
    searches: Count,
    visits: Count,
}

impl Model for Steps {
    ghost use Rattle.facet_solver_shape.specs.Steps.{StepCounts};

    ghost Value = { StepCounts };

    ghost view = { λ s. record {
      words = s.words.total;
      searches = s.searches.total;
      visits = s.visits.total;
    } };
}

/// By hand, for the counts can't be read.
impl fmt::Debug for Steps {
    fn fmt<W: fmt::Write>(&self, f: &mut fmt::Formatter<W>) -> fmt::Result {
        f.write_str("Steps")
    }
}

impl Steps {
    /// Counts that are 0.
    pub fn new() -> Steps
        ensures { result ≡ record { words = 0; searches = 0; visits = 0 } }
    {
        Steps {
            words: Count::new(),
            searches: Count::new(),
            visits: Count::new(),
        }
    }

    /// Counts a word of an index that was read.
    pub fn word(&mut self)
        ensures { self.new ≡ record self.old { words = self.old.words + 1 } }
    {
        self.words.one();
    }

    /// Counts a search of a resolution for a field.
    pub fn search(&mut self)
        ensures { self.new ≡ record self.old { searches = self.old.searches + 1 } }
    {
        self.searches.one();
    }

    /// Counts a visit of a field.
    pub fn visit(&mut self)
        ensures { self.new ≡ record self.old { visits = self.old.visits + 1 } }
    {
        self.visits.one();
    }
}
