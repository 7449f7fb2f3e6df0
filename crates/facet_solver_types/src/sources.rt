//! Types and what stands in for others, as one text.
ghost use Rattle.std.specs.Prelude.{◌≡◌, IfOk};
ghost use Rattle.std.specs.String.{string_bytes};
ghost use Rattle.facet_solver_types.specs.Sources as sources;

use crate::modules::STAND_INS;
use crate::place::{Place, place_at, without_mark};
use std::alloc::{AllocError, Global};

/// A text of types, and one of what stands in for types that it does not declare.
#[derive(Clone, Copy, Debug)]
pub struct Sources<'t> {
    /// The types.
    pub types: &'t str,
    /// What stands in for others, as `type Uuid = String;`.
    pub stand_ins: &'t str,
}

/// Where a place in the text of two sources stands.
#[derive(Clone, Copy, Debug, PartialEq, Eq)]
pub enum SourcePlace {
    /// In the types, at this place.
    Types(Place),
    /// In the stand-ins, at this place.
    StandIns(Place),
}

impl Sources<'_> {
    /// The text to parse: the types, and behind them the stand-ins in a `mod stand_ins`.
    ///
    /// Its lines hold nothing else, so that no comment at the end of the types reaches it.
    pub fn text(&self, alloc: Global) -> Result<String, AllocError>
        ensures { IfOk result (λ text. string_bytes text
            ≡ sources.text self.now.types.now self.now.stand_ins.now) }
    {
        let types = self.types;
        let stand_ins = without_mark(self.stand_ins);
        format!(in alloc; "{types}\nmod {STAND_INS} {{\n{stand_ins}\n}}\n")
    }

    /// Where a place in that text stands.
    ///
    /// What is told right at the module's begin, or behind its end, is of what is left open before
    /// it: of the end of the types, or of the stand-ins.
    pub fn place(&self, place: Place) -> SourcePlace
        ensures value { result ≡ sources.place self.now.types.now self.now.stand_ins.now place }
        ensures back { sources.LeadsBack self.now.types.now self.now.stand_ins.now place result }
    {
        let last = end_place(self.types);
        if place.line <= last.line {
            return SourcePlace::Types(place);
        }
        let column = place.column;
        let line = place.line - last.line - 1;
        if line == 0 && column <= 1 {
            return SourcePlace::Types(last);
        }
        SourcePlace::StandIns(stand_in_place(self.stand_ins, Place { line, column }))
    }
}

/// The place in the stand-ins of a place in the lines of the module, whose own is the line 0.
fn stand_in_place(stand_ins: &str, place: Place) -> Place
    ensures { result ≡ sources.stand_in_place stand_ins.now place }
{
    let last = end_place(stand_ins);
    if place.line == 0 {
        Place { line: 1, column: 1 }
    } else if place.line <= last.line {
        place
    } else {
        last
    }
}

/// The place behind the last character of a text.
fn end_place(text: &str) -> Place
    ensures { result ≡ sources.end_place text.now }
{
    let text = without_mark(text);
    place_at(text, text.len())
}
