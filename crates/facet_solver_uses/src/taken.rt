//! What takes a member of a document in a resolution: a field, an adjacently tagged enum as its
//! content, or a catch-all.
ghost use Rattle.std.specs.Prelude.{◌≡◌};
ghost use Rattle.std.specs.Option.{option_copied, option_map};
ghost use Rattle.facet_solver.specs.Keys.{key_of};
ghost use Rattle.facet_solver_uses.specs.Taken.{catch_all_of, category_of, is_content, taker_of, taker_view};

use facet_solver::{FieldCategory, FieldInfo, FieldKey, Resolution};

/// What takes a member of a document.
#[derive(Clone, Copy)]
pub enum Taker<'r, 'c> {
    /// The field that the key of the member means.
    Field(&'r FieldInfo<'c>),
    /// An adjacently tagged enum: the member is its content.
    Content,
    /// The catch-all for what neither of these takes.
    CatchAll(&'r FieldInfo<'c>),
}

/// What takes a member of this key, or `None` where the resolution takes no such member.
///
/// 1. The field that the key means (`Resolution::field_by_key`).
/// 2. Otherwise content, where the key is flat or that of an element, and its name alone is a key
///    path (`Resolution::has_key_path`). There is no field, so it is the content of an adjacently
///    tagged enum.
/// 3. Otherwise a catch-all. That of category Flat takes every member, and another one those of its
///    category, where a flat key is that of an element.
///
/// In a document of attributes and elements an attribute or a text may have the key path. An
/// element of its name then counts as content too. So no content is ever without a taker.
pub fn taker_of<'r, 'c>(resolution: &'r Resolution<'c>, key: &FieldKey<'_>) -> Option<Taker<'r, 'c>>
    ensures { option_map taker_view result ≡ taker_of (key_of key.now) resolution.now }
{
    if let Some(field) = resolution.field_by_key(key) {
        return Some(Taker::Field(field));
    }
    if is_content(resolution, key) {
        return Some(Taker::Content);
    }
    let catch_all = catch_all_of(resolution, key)?;
    Some(Taker::CatchAll(catch_all))
}

/// Whether a key that means no field is that of content.
fn is_content(resolution: &Resolution<'_>, key: &FieldKey<'_>) -> bool
    ensures { result ≡ is_content (key_of key.now) resolution.now }
{
    category_of(key) == FieldCategory::Element && resolution.has_key_path(&[key.name()])
}

/// The catch-all that takes a member that no field takes, if there is one.
fn catch_all_of<'r, 'c>(
    resolution: &'r Resolution<'c>,
    key: &FieldKey<'_>,
) -> Option<&'r FieldInfo<'c>>
    ensures { option_copied result ≡ catch_all_of (key_of key.now) resolution.now }
{
    match resolution.catch_all_map(FieldCategory::Flat) {
        Some(of_all) => Some(of_all),
        None => resolution.catch_all_map(category_of(key)),
    }
}

/// The category of a key, where a flat key is that of an element.
fn category_of(key: &FieldKey<'_>) -> FieldCategory
    ensures { result ≡ category_of (key_of key.now) }
{
    match *key {
        FieldKey::Flat(_) => FieldCategory::Element,
        FieldKey::Dom(category, _) => category,
    }
}
