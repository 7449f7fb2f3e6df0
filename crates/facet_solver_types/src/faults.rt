//! Faults in the order of the text.
ghost use Rattle.std.specs.Prelude.{◌≡◌, ◌≤◌, IfOk, OnOk, length, option_map};
ghost use Rattle.facet_solver_types.specs.Faults as of;

use crate::fault::Fault;
use std::alloc::{AllocError, Global};

/// Where a fault stands in the text.
fn offset_of(fault: Fault) -> usize
    ensures { result ≡ of.offset_of fault }
{
    match fault {
        Fault::At { offset, .. } => offset,
        _ => 0,
    }
}

/// The place of the first of some faults that stands no earlier than one, or their number.
fn fault_place(faults: &[Fault], fault: Fault) -> usize
    ensures value { result ≡ of.fault_place faults.now fault }
    ensures within { result ≤ length faults.now }
{
    for (place, other) in faults.iter().enumerate() {
        if offset_of(fault) <= offset_of(*other) {
            return place;
        }
    }
    faults.len()
}

/// Whether a fault, if there is one, stands at an offset.
fn stands_at(fault: Option<&Fault>, offset: usize) -> bool
    ensures { result ≡ of.stands_at (option_map (λ f. f.now) fault.entry) offset }
{
    match fault {
        Some(fault) => offset_of(*fault) == offset,
        None => false,
    }
}

/// Adds a fault where it stands among others, unless one of them stands there.
fn add_told(faults: &mut Vec<Fault>, fault: Fault) -> Result<(), AllocError>
    ensures { OnOk result (faults.new.items ≡ of.with_fault faults.old.items fault) }
{
    let place = fault_place(faults, fault);
    if !stands_at(faults.get(place), offset_of(fault)) {
        faults.insert(place, fault)?;
    }
    Ok(())
}

/// Faults in the order of the text, of those that stand at one place the first.
pub(crate) fn told(alloc: Global, faults: Vec<Fault>) -> Result<Vec<Fault>, AllocError>
    ensures { IfOk result (λ told. told.items ≡ of.told faults.items) }
{
    let mut found = Vec::new(alloc);
    for fault in faults {
        add_told(&mut found, fault)?;
    }
    Ok(found)
}
