//! Hints: which variant the document means, told by its name.
ghost use Rattle.std.specs.Prelude.{◌≡◌, ◌≢◌, ◌↔◌, [], IsTrue};
ghost use Rattle.std.specs.Bool.{OnFalse};
ghost use Rattle.facet_solver.specs.solver.State as state;
ghost use Rattle.facet_solver.specs.solver.State.{has_tag_field, passing, selects_variant};

use crate::set::Matches;
use crate::solver::Solver;
use crate::solver::conditions::selects_variant::SelectsVariant;
use crate::solver::conditions::tag_field::HasTagField;

impl Solver<'_, '_, '_> {
    /// Takes the hint that the document means a variant of the name, of whichever enum. Only the
    /// candidates stay that selected such a variant, and the answer is true. Where none did, all
    /// stay and the answer is false. The call allocates nothing.
    pub fn hint_variant(&mut self, name: &str) -> bool
        ensures selected { IsTrue result ↔ (passing (selects_variant name.now) self.old ≢ []) }
        ensures narrowed { self.new ≡ state.hint_variant name.now self.old }
        ensures unchanged { OnFalse result (self.new ≡ self.old) }
    {
        self.narrow(SelectsVariant { name })
    }

    /// Takes the hint that the document has the name of a variant under the tag.
    ///
    /// It is [`Solver::hint_variant`] if some candidate has a field of the tag's name whose shape
    /// has that tag and no content name. Otherwise all candidates stay and the answer is false. The
    /// call allocates nothing.
    pub fn hint_variant_for_tag(&mut self, tag: &str, variant_name: &str) -> bool
        ensures selected { IsTrue result
            ↔ (passing (has_tag_field self.old.schema.build.catalogue tag.now) self.old ≢ [])
            × (passing (selects_variant variant_name.now) self.old ≢ []) }
        ensures narrowed { self.new
            ≡ state.hint_variant_for_tag tag.now variant_name.now self.old }
        ensures unchanged { OnFalse result (self.new ≡ self.old) }
    {
        let shapes = self.schema.shapes();
        match self.matching(HasTagField { shapes, tag }) {
            Matches::None => false,
            _ => self.hint_variant(variant_name),
        }
    }
}
