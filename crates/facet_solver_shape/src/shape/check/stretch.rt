//! The names of a stretch of items, sorted, beside those of the items before it.
ghost use Rattle.std.specs.Prelude.{◌≡◌, ◌↔◌, ◌≤◌, ◌⊎◌, IsTrue, IsSorted, length, map};
ghost use Rattle.std.specs.List.{list_any};
ghost use Rattle.std.specs.Str.{bytes_eq};
ghost use Rattle.facet_solver_shape.specs.Names.{name_ref_cmp, names_of};
ghost use Rattle.facet_solver_shape.specs.Catalogues.{RepeatsName, SharesName};

use super::names::Named;

/// How many names a stretch has at most: so many are sorted on the stack.
pub(super) const STRETCH: usize = 256;

/// Whether two items of the stretch have one name, or one of them has the name of an item before
/// it.
pub(super) fn repeats_in_stretch<T: Named>(before: &[T], stretch: &[T]) -> bool
    requires { length stretch.now ≤ STRETCH }
    ensures { IsTrue result ↔ (RepeatsName (map T.name_of stretch.now)
        ⊎ SharesName (map T.name_of before.now) (map T.name_of stretch.now)) }
{
    let Some(first) = stretch.first() else {
        return false;
    };
    let mut room = [first.declared_name(); STRETCH];
    for (index, item) in stretch.iter().enumerate() {
        room[index] = item.declared_name();
    }
    let names = &mut room[..stretch.len()];
    names.sort_unstable();
    repeats_neighbour(names) || has_name_among(before, names)
}

/// Whether a name is the next one too.
fn repeats_neighbour(names: &[&str]) -> bool
    requires { IsSorted name_ref_cmp names.now }
    ensures { IsTrue result ↔ RepeatsName (names_of names.now) }
{
    for later in 1..names.len() {
        if names[later - 1] == names[later] {
            return true;
        }
    }
    false
}

/// Whether an item has one of the names.
fn has_name_among<T: Named>(items: &[T], names: &[&str]) -> bool
    requires { IsSorted name_ref_cmp names.now }
    ensures { result ≡ list_any (λ item. list_any (λ n. bytes_eq n (T.name_of item))
        (names_of names.now)) items.now }
{
    items.iter().any(
        |item|
            requires { IsSorted name_ref_cmp names.now }
        { is_among(item.declared_name(), names) },
    )
}

/// Whether the name is one of the names, by halving.
fn is_among(name: &str, names: &[&str]) -> bool
    requires { IsSorted name_ref_cmp names.now }
    ensures { result ≡ list_any (λ n. bytes_eq n name.now) (names_of names.now) }
{
    names.binary_search(&name).is_ok()
}
