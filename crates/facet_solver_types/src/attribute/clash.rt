//! Attributes that exclude each other.
ghost use Rattle.std.specs.Prelude.{◌≡◌};
ghost use Rattle.facet_solver_types.specs.Clashes.{are_one_text, clash, excludes};

use super::meaning::Meaning;

/// Whether two meanings are one of those that only one text may have.
fn are_one_text(one: Meaning, other: Meaning) -> bool
    ensures { result ≡ are_one_text one other }
{
    match (one, other) {
        (Meaning::Rename, Meaning::Rename) => true,
        (Meaning::RenameAll, Meaning::RenameAll) => true,
        (Meaning::RenameAllFields, Meaning::RenameAllFields) => true,
        (Meaning::Tag, Meaning::Tag) => true,
        (Meaning::Content, Meaning::Content) => true,
        _ => false,
    }
}

/// Whether the first of two meanings excludes the second.
fn excludes(one: Meaning, other: Meaning) -> bool
    ensures { result ≡ excludes one other }
{
    match (one, other) {
        (Meaning::Untagged, Meaning::Tag | Meaning::Content) => true,
        (Meaning::Transparent, Meaning::Proxy | Meaning::Default) => true,
        (Meaning::Dom(_), Meaning::Dom(_)) => true,
        _ => false,
    }
}

/// Whether two attributes of these meanings exclude each other, by whether they say texts that
/// differ.
pub(super) fn clash(one: Meaning, other: Meaning, differ: bool) -> bool
    ensures { result ≡ clash one other differ }
{
    (are_one_text(one, other) && differ) || excludes(one, other) || excludes(other, one)
}
