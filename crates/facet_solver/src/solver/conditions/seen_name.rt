//! Whether a name is that of a seen key.
ghost use Rattle.std.specs.Prelude.{◌≡◌, map};
ghost use Rattle.std.specs.List.{list_any};
ghost use Rattle.facet_solver_shape.specs.Keys.{key_of};
ghost use Rattle.facet_solver_shape.specs.Names.{name_eq};

use facet_solver_shape::FieldKey;
use std::collections::BTreeSet;

/// Whether a name is that of a seen key.
pub(crate) fn was_name_seen(seen: &BTreeSet<FieldKey<'_>>, name: &str) -> bool
    ensures { result ≡ list_any (λ key. name_eq key.name name.now) (map key_of seen.now.keys) }
{
    is_seen(seen, name)
}

fn is_seen(seen: &BTreeSet<FieldKey<'_>>, name: &str) -> bool
    ensures { result ≡ list_any (λ k. name_eq (key_of k).name name.now) seen.now.keys }
{
    seen.iter().any(|key| key.name() == name)
}
