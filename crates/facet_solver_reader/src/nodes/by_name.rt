//! Names with numbers, sorted by name.
ghost use Rattle.std.specs.Prelude.{◌≡◌, ◌≤◌, ℕ, drop, length, take, Contains, IsPermutation, IsSorted, IsTrue, MatchOption};
ghost use Rattle.std.specs.List.{list_any};
ghost use Rattle.std.specs.Str.{bytes_eq};
ghost use Rattle.facet_solver_shape.specs.Names.{name_ref_cmp, names_of};
ghost use Rattle.facet_solver_reader.specs.Places.{IsLeastRepeated};
ghost use Rattle.facet_solver_reader.specs.Nodes.{AreByName, entries, names_among};

use std::cmp::Ordering;

/// So many names are gone through faster than they are halved.
const FEW_NAMES: usize = 8;

/// The name of a member, and the number of its value.
pub(crate) type NamedNode<'d> = (&'d str, usize);

/// Sorts those from an index on by name. If a name is twice among them it tells that name, of
/// several the least by its bytes.
pub(super) fn sort_from<'d>(named: &mut [NamedNode<'d>], start: usize) -> Option<&'d str>
    requires { start ≤ length named.old }
    ensures before { take start named.new ≡ take start named.old }
    ensures length { length named.new ≡ length named.old }
    ensures permutation { IsPermutation (drop start named.old) (drop start named.new) }
    ensures sorted { MatchOption result (AreByName (drop start named.new))
        (λ name. IsLeastRepeated (names_of (names_among (drop start named.new))) name.now) }
{
    sort_by_name(&mut named[start..])
}

/// Sorts by name. If a name is there twice it tells that name, of several the least by its bytes.
pub(crate) fn sort_by_name<'d>(named: &mut [NamedNode<'d>]) -> Option<&'d str>
    ensures length { length named.new ≡ length named.old }
    ensures permutation { IsPermutation named.old named.new }
    ensures sorted { MatchOption result (AreByName named.new)
        (λ name. IsLeastRepeated (names_of (names_among named.new)) name.now) }
{
    if are_rising(named) {
        return None;
    }
    named.sort_unstable_by_key(|member| member.0);
    repeated_name(named)
}

/// Whether each name is before the next.
fn are_rising(named: &[NamedNode<'_>]) -> bool
    ensures { IsTrue result → AreByName named.now }
{
    for later in 1..named.len() {
        if named[later - 1].0 >= named[later].0 {
            return false;
        }
    }
    true
}

/// The first of sorted names that is the next one too.
fn repeated_name<'d>(named: &[NamedNode<'d>]) -> Option<&'d str>
    requires { IsSorted name_ref_cmp (names_among named.now) }
    ensures { MatchOption result (AreByName named.now)
        (λ name. IsLeastRepeated (names_of (names_among named.now)) name.now) }
{
    for later in 1..named.len() {
        if named[later - 1].0 == named[later].0 {
            return Some(named[later - 1].0);
        }
    }
    None
}

/// Whether a name is one of sorted ones. Few names are gone through, since that is faster.
pub(crate) fn is_among(name: &str, names: &[&str]) -> bool
    requires { IsSorted name_ref_cmp names.now }
    ensures { result ≡ list_any (λ n. bytes_eq n.now name.now) names.now }
{
    if names.len() <= FEW_NAMES {
        names.iter().any(|known| *known == name)
    } else {
        names.binary_search(&name).is_ok()
    }
}

/// The same. It is looked for first from an index on, which is moved behind the name that is found:
/// of names that are asked for in their order, each stands there.
pub(crate) fn is_next_among(name: &str, names: &[&str], next: &mut usize) -> bool
    requires { IsSorted name_ref_cmp names.now }
    ensures { result ≡ list_any (λ n. bytes_eq n.now name.now) names.now }
{
    if names.len() <= FEW_NAMES {
        is_next_of_few(name, names, next)
    } else {
        is_next_of_many(name, names, next)
    }
}

/// Whether a name is one of few, which are gone through from an index on, and then from the first.
fn is_next_of_few(name: &str, names: &[&str], next: &mut usize) -> bool
    ensures { result ≡ list_any (λ n. bytes_eq n.now name.now) names.now }
{
    let start = names.len().min(*next);
    let (before, rest) = names.split_at(start);
    if let Some(index) = rest.iter().position(|known| *known == name) {
        *next = start + index + 1;
        return true;
    }
    before.iter().any(|known| *known == name)
}

/// Whether a name is one of many sorted ones. Where the one at an index is before it, only those
/// behind that are halved.
fn is_next_of_many(name: &str, names: &[&str], next: &mut usize) -> bool
    requires { IsSorted name_ref_cmp names.now }
    ensures { result ≡ list_any (λ n. bytes_eq n.now name.now) names.now }
{
    let mut start = 0;
    if let Some(known) = names.get(*next) {
        match (*known).cmp(name) {
            Ordering::Less => start = *next + 1,
            Ordering::Equal => {
                *next += 1;
                return true;
            }
            Ordering::Greater => {}
        }
    }
    let found = names[start..].binary_search(&name);
    if let Ok(index) = found {
        *next = start + index + 1;
    }
    found.is_ok()
}

/// The number that stands with a name. Few names are gone through, since that is faster.
pub(crate) fn find_by_name(named: &[NamedNode<'_>], name: &str) -> Option<usize>
    requires { AreByName named.now }
    ensures { MatchOption result
        ((number : ℕ) → ¬ Contains (entries named.now) (name.now, number))
        (λ number. Contains (entries named.now) (name.now, number)) }
{
    if named.len() <= FEW_NAMES {
        find_by_walk(named, name)
    } else {
        find_by_halving(named, name)
    }
}

/// The number that stands with a name, by going through all of them.
fn find_by_walk(named: &[NamedNode<'_>], name: &str) -> Option<usize>
    ensures { MatchOption result
        ((number : ℕ) → ¬ Contains (entries named.now) (name.now, number))
        (λ number. Contains (entries named.now) (name.now, number)) }
{
    for member in named {
        if member.0 == name {
            return Some(member.1);
        }
    }
    None
}

/// The number that stands with a name. The names are halved until few are left, and these are gone
/// through.
fn find_by_halving(named: &[NamedNode<'_>], name: &str) -> Option<usize>
    requires { AreByName named.now }
    ensures { MatchOption result
        ((number : ℕ) → ¬ Contains (entries named.now) (name.now, number))
        (λ number. Contains (entries named.now) (name.now, number)) }
{
    let mut start = 0;
    let mut end = named.len();
    while end - start > FEW_NAMES {
        let middle = start + (end - start) / 2;
        if name < named[middle].0 {
            end = middle;
        } else {
            start = middle;
        }
    }
    find_by_walk(&named[start..end], name)
}
