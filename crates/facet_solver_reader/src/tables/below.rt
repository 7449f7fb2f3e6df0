//! The indices of the lists that choices of parts go through.
ghost use Rattle.std.specs.Prelude.{◌≡◌, IfOk, OnOk};
ghost use Rattle.facet_solver_shape.specs.Catalogues.{Catalogue};
ghost use Rattle.facet_solver_reader.specs.Placing.{AreBelow, AreGathered, AreStillAmong, IsPlacing, ListIsAmong, PartIsAmong};
ghost use Rattle.facet_solver_reader.specs.Views.{list_view, part_view, parts_view};

use super::order::Ordered;
use crate::part::{ListId, Part};
use std::alloc::{AllocError, Global};

impl<'c> Ordered<'c> {
    /// The indices of the lists that choices of the parts go through, rising, and then the next
    /// index.
    pub(super) fn below(&self, alloc: Global, parts: &[Part<'c>]) -> Result<Vec<usize>, AllocError>
        requires { (shapes : Catalogue) × IsPlacing shapes self.now }
        ensures { IfOk result (λ below.
            AreBelow self.now (parts_view parts.now) below.items) }
    {
        let mut gathered = Vec::new(alloc);
        for part in parts {
            self.gather_part(part, &mut gathered)?;
        }
        gathered.sort_unstable();
        gathered.dedup();
        let mut below = Vec::with_capacity(alloc, gathered.len().saturating_add(1))?;
        below.extend_from_slice(&gathered)?;
        below.push(self.lists.len())?;
        Ok(below)
    }

    /// Adds the indices of the lists that choices of a part go through.
    fn gather_part(&self, part: &Part<'c>, gathered: &mut Vec<usize>) -> Result<(), AllocError>
        requires placing { (shapes : Catalogue) × IsPlacing shapes self.now }
        requires closed { AreGathered self.now gathered.old.items }
        ensures closed { OnOk result (AreGathered self.now gathered.new.items) }
        ensures kept { OnOk result (AreStillAmong gathered.old.items gathered.new.items) }
        ensures among { OnOk result
            (PartIsAmong self.now gathered.new.items (part_view part.now)) }
    {
        if let Part::Selection(selection) = part {
            for branch in &selection.branches {
                self.gather_list(branch, gathered)?;
            }
        }
        Ok(())
    }

    /// Adds the indices of the lists that choices of a list go through, if it is placed: the last is
    /// its own.
    fn gather_list(&self, id: &ListId, gathered: &mut Vec<usize>) -> Result<(), AllocError>
        requires placing { (shapes : Catalogue) × IsPlacing shapes self.now }
        requires closed { AreGathered self.now gathered.old.items }
        ensures closed { OnOk result (AreGathered self.now gathered.new.items) }
        ensures kept { OnOk result (AreStillAmong gathered.old.items gathered.new.items) }
        ensures among { OnOk result
            (ListIsAmong self.now gathered.new.items (list_view id.now)) }
    {
        let Some(list) = self.entry(*id) else {
            return Ok(());
        };
        gathered.extend_from_slice(&list.below)?;
        Ok(())
    }
}
