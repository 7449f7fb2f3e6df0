//! Lists of names, as `{:?}` prints them.
ghost use Rattle.std.specs.Prelude.{map, string_bytes};
ghost use Rattle.facet_solver.specs.error.QuotedNames.{list_output};

use std::fmt;

/// Names in brackets, each between quotes and with escapes.
#[derive(Drop)]
pub(crate) struct Quoted<'s>(pub(crate) &'s [String]);

impl fmt::Display for Quoted<'_> {
    ghost output = { λ q. list_output (map string_bytes q.0.now) };

    fn fmt<W: fmt::Write>(&self, f: &mut fmt::Formatter<W>) -> fmt::Result {
        let names = self.0;
        write!(f, "{names:?}")
    }
}
