//! A part of the text of a report that several resolutions match.
ghost use Rattle.std.specs.Prelude.{map, string_bytes};
ghost use Rattle.facet_solver.specs.error.ErrorTexts.{hint_text};
ghost use Rattle.facet_solver.specs.error.QuotedNames.{where_ascii};

use crate::error::quoted::Quoted;
use std::fmt;

/// The names that tell candidates apart.
#[derive(Drop)]
pub(crate) struct Hint<'s>(pub(crate) &'s [String]);

impl fmt::Display for Hint<'_> {
    ghost output = { λ h. where_ascii (map string_bytes h.0.now)
        (hint_text (map string_bytes h.0.now)) };

    fn fmt<W: fmt::Write>(&self, f: &mut fmt::Formatter<W>) -> fmt::Result {
        if self.0.is_empty() {
            return Ok(());
        }
        let names = Quoted(self.0);
        write!(
            f,
            "; try adding one of these fields to disambiguate: {names}"
        )
    }
}
