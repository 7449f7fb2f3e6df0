//! Items that are declared under different conditions, of which one is taken.
ghost use Rattle.std.specs.Prelude.{◌≡◌, ◌<◌, ◌≤◌, IfOk, IsTrue, length, take};
ghost use Rattle.facet_solver_types.specs.Conditions as of;
ghost use Rattle.facet_solver_types.specs.Declarations.{item_view, items_view, module_item_view};
ghost use Rattle.facet_solver_types.specs.PlacedItems as placed;
ghost use Rattle.facet_solver_types.specs.Tokens.{tokens_view};

use super::placed_items::PlacedItems;
use crate::grammar::{group_len, is_mark, is_named, is_open};
use crate::item::{Item, ModuleItem};
use crate::site::same_site;
use crate::token::{Bracket, Token};
use std::alloc::{AllocError, Global};

/// Whether a `cfg` stands first.
fn sees_condition(tokens: &[Token<'_>]) -> bool
    ensures value { result ≡ of.sees_condition (tokens_view tokens.now) }
    ensures some { IsTrue result → 1 < length tokens.now }
{
    match tokens {
        [mark, bracket, name, ..] => {
            is_mark(b'#', mark.kind)
                && is_open(Bracket::Square, bracket.kind)
                && is_named("cfg", name)
        }
        _ => false,
    }
}

/// The brackets of the first `cfg` of attributes, with what stands in them, or nothing.
fn condition<'s, 't>(attributes: &'s [Token<'t>]) -> &'s [Token<'t>]
    ensures { tokens_view result.now ≡ of.condition (tokens_view attributes.now) }
{
    for (at, _) in attributes.iter().enumerate() {
        let rest = &attributes[at..];
        if sees_condition(rest) {
            let brackets = &rest[1..];
            return &brackets[..group_len(brackets)];
        }
    }
    &[]
}

/// The attributes of a declaration.
fn attributes_of<'s, 't>(item: &Item<'s, 't>) -> &'s [Token<'t>]
    ensures { tokens_view result.now ≡ of.attributes_of (item_view item.now) }
{
    match item {
        Item::Struct(item) => item.attributes,
        Item::Enum(item) => item.attributes,
        Item::Alias(item) => item.attributes,
        Item::Faulty(item) => item.attributes,
        Item::Impl(_) | Item::Use(_) | Item::Other => &[],
    }
}

/// The name of a declaration, or nothing of another item.
pub(super) fn name_of<'t>(item: &Item<'_, 't>) -> &'t str
    ensures { result.now ≡ of.name_of (item_view item.now) }
{
    match item {
        Item::Struct(item) => item.name.text,
        Item::Enum(item) => item.name.text,
        Item::Alias(item) => item.name.text,
        Item::Faulty(item) => item.name.text,
        Item::Impl(_) | Item::Use(_) | Item::Other => "",
    }
}

/// The condition of a declaration, or nothing.
pub(super) fn condition_of<'s, 't>(item: &Item<'s, 't>) -> &'s [Token<'t>]
    ensures { tokens_view result.now ≡ of.condition_of (item_view item.now) }
{
    condition(attributes_of(item))
}

/// Whether a token of this text stands first.
fn sees_text(text: &str, tokens: &[Token<'_>]) -> bool
    ensures value { result ≡ of.sees_text text.now (tokens_view tokens.now) }
    ensures some { IsTrue result → 0 < length tokens.now }
{
    match tokens.first() {
        Some(token) => token.text == text,
        None => false,
    }
}

/// Whether tokens have the texts of others.
fn same_texts(ones: &[Token<'_>], others: &[Token<'_>]) -> bool
    ensures { result ≡ of.same_texts (tokens_view ones.now) (tokens_view others.now) }
{
    let mut left = others;
    for one in ones {
        if !sees_text(one.text, left) {
            return false;
        }
        left = &left[1..];
    }
    left.is_empty()
}

/// Whether there is another condition than one.
fn differs(condition: &[Token<'_>], other: &[Token<'_>]) -> bool
    ensures { result ≡ of.differs (tokens_view condition.now) (tokens_view other.now) }
{
    !other.is_empty() && !same_texts(condition, other)
}

/// Whether an item is what another, with this condition, is under another condition: it has the
/// other's name, and stands where that does.
fn is_other_form(
    condition: &[Token<'_>],
    item: &ModuleItem<'_, '_>,
    other: &ModuleItem<'_, '_>,
) -> bool
    ensures { result ≡ of.is_other_form (tokens_view condition.now) (module_item_view item.now)
        (module_item_view other.now) }
{
    name_of(&other.item) == name_of(&item.item)
        && same_site(item.site, other.site)
        && differs(condition, condition_of(&other.item))
}

/// Whether the item at a place, if there is one, is what another, with this condition, is under
/// another condition.
fn is_form_at(
    condition: &[Token<'_>],
    item: &ModuleItem<'_, '_>,
    others: &[ModuleItem<'_, '_>],
    place: usize,
) -> bool
    ensures { result ≡ placed.is_form_at (tokens_view condition.now) (module_item_view item.now)
        (items_view others.now) place }
{
    match others.get(place) {
        Some(other) => is_other_form(condition, item, other),
        None => false,
    }
}

/// Whether one of the items at some places is.
fn has_form_at(
    condition: &[Token<'_>],
    item: &ModuleItem<'_, '_>,
    others: &[ModuleItem<'_, '_>],
    places: &[usize],
) -> bool
    ensures { result ≡ placed.has_form_at (tokens_view condition.now) (module_item_view item.now)
        (items_view others.now) places.now }
{
    for place in places {
        if is_form_at(condition, item, others, *place) {
            return true;
        }
    }
    false
}

/// Whether one of the items before an index is what an item is under another condition.
///
/// The only error is out of memory.
pub(super) fn has_other_form(
    alloc: Global,
    items: &PlacedItems<'_, '_, '_>,
    index: usize,
    item: &ModuleItem<'_, '_>,
) -> Result<bool, AllocError>
    requires { index ≤ length items.now.list.now }
    ensures { IfOk result (λ found. found ≡ of.has_other_form
        (take index (items_view items.now.list.now)) (module_item_view item.now)) }
{
    let condition = condition_of(&item.item);
    if condition.is_empty() {
        return Ok(false);
    }
    let places = items.forms(alloc, name_of(&item.item))?;
    Ok(has_form_at(condition, item, &items.list[..index], &places))
}

/// Whether one of some items is what an item is under another condition.
///
/// The only error is out of memory.
pub(super) fn has_forms(
    alloc: Global,
    items: &PlacedItems<'_, '_, '_>,
    item: &ModuleItem<'_, '_>,
) -> Result<bool, AllocError>
    ensures { IfOk result (λ found. found ≡ of.has_other_form (items_view items.now.list.now)
        (module_item_view item.now)) }
{
    has_other_form(alloc, items, items.list.len(), item)
}
