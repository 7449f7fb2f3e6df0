//! How far a run is, shown in place.
ghost use Rattle.std.specs.Prelude.{OnOk};
ghost use Rattle.facet_solver_tool.specs.Lines.{Shows};

use std::io::{self, Write};

/// After how many documents what is shown changes.
const STEP: u64 = 1000;

/// Shows how many documents are answered, if that is to be shown and is a multiple of the step.
pub(super) fn show<E: Write>(errors: &mut E, is_shown: bool, documents: u64) -> io::Result<()>
    ensures { OnOk result (Shows is_shown (E.contents errors.old) (E.contents errors.new)) }
{
    if is_shown && documents % STEP == 0 {
        write!(errors, "\r{documents} documents")
    } else {
        Ok(())
    }
}

/// Wipes what was shown, if anything was to be.
pub(super) fn wipe<E: Write>(errors: &mut E, is_shown: bool) -> io::Result<()>
    ensures { OnOk result (Shows is_shown (E.contents errors.old) (E.contents errors.new)) }
{
    if is_shown {
        errors.write_all(b"\r\x1b[K")
    } else {
        Ok(())
    }
}
