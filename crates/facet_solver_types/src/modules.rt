//! Modules, by their names.
ghost use Rattle.std.specs.Prelude.{◌≡◌};
ghost use Rattle.facet_solver_types.specs.Modules.{is_of_stand_ins};

/// The module whose declarations stand in for others.
pub(crate) const STAND_INS: &str = "stand_ins";

/// Whether this is its name.
pub(crate) fn is_of_stand_ins(module_name: &str) -> bool
    ensures { result ≡ is_of_stand_ins module_name.now }
{
    module_name == STAND_INS
}
