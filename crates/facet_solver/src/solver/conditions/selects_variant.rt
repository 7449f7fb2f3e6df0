//! Whether a resolution selected a variant of a name.
ghost use Rattle.std.specs.Prelude.{◌≡◌};
ghost use Rattle.std.specs.List.{list_any};
ghost use Rattle.facet_solver_shape.specs.Names.{name_eq};
ghost use Rattle.facet_solver.specs.solver.State.{selects_variant};

use crate::solver::conditions::Test;
use facet_solver_shape::{Resolution, VariantSelection};

/// Whether a resolution selected a variant of a name, for whichever enum.
#[derive(Clone, Copy)]
pub(crate) struct SelectsVariant<'n> {
    pub(crate) name: &'n str,
}

impl Test for SelectsVariant<'_> {
    ghost is_passed = { λ t. selects_variant t.name.now };

    fn is_passed(&self, resolution: &Resolution<'_>) -> bool {
        selects_variant(resolution, self.name)
    }
}

fn selects_variant(resolution: &Resolution<'_>, name: &str) -> bool
    ensures { result ≡ selects_variant name.now resolution.now }
{
    is_selected(resolution.variant_selections(), name)
}

fn is_selected(selections: &[VariantSelection<'_>], name: &str) -> bool
    ensures { result
        ≡ list_any (λ selection. name_eq selection.variant_name.now name.now) selections.now }
{
    selections
        .iter()
        .any(|selection| selection.variant_name == name)
}
