//! Which structs and enums are read as they are declared, by derives and impls.
ghost use Rattle.std.specs.Prelude.{◌≡◌, ◌+◌, ◌^◌, ◌<◌, ◌≤◌};
ghost use Rattle.facet_solver_types.specs.Declarations as written;
ghost use Rattle.facet_solver_types.specs.Derives as derives;
ghost use Rattle.facet_solver_types.specs.Tokens.{token_view, tokens_view};

use super::placed_items::PlacedItems;
use crate::grammar::{is_close, is_mark, is_name, is_named, sees_path};
use crate::item::{Item, ModuleItem};
use crate::modules::is_of_stand_ins;
use crate::token::{Token, TokenKind};
use crate::type_problem::TypeProblem;

/// What is derived.
#[derive(Clone, Copy, Debug)]
enum Derive {
    /// Reading a type as it is declared.
    Reading,
    /// Reading it by other rules.
    OtherReading,
}

/// Where a token of attributes stands.
#[derive(Clone, Copy, Debug)]
struct Around {
    /// In how many brackets of other things than attributes and `cfg_attr`.
    brackets: usize,
    /// Whether a bracket that follows is that of an attribute or of `cfg_attr`.
    enters: bool,
}

/// What stands behind `Deserialize` in a name that begins so.
fn behind_reading(name: &str) -> &str
    ensures { result.now ≡ derives.behind_reading name.now }
{
    name.strip_prefix("Deserialize").unwrap_or("")
}

/// Whether a macro of a name derives this.
fn is_derived_by(derive: Derive, name: &str) -> bool
    ensures { result ≡ derives.is_derived_by derive name.now }
{
    match derive {
        Derive::Reading => name == "Deserialize" || name == "Facet",
        Derive::OtherReading => !behind_reading(name).is_empty(),
    }
}

/// Whether a token, before others, is the name of a macro that derives this.
fn is_listed(derive: Derive, token: &Token<'_>, behind: &[Token<'_>]) -> bool
    ensures { result ≡ derives.is_listed derive (token_view token.now) (tokens_view behind.now) }
{
    is_name(token.kind) && !sees_path(behind) && is_derived_by(derive, token.text)
}

/// Whether such a name stands among tokens, before the first bracket that closes.
fn lists(derive: Derive, tokens: &[Token<'_>]) -> bool
    ensures { result ≡ derives.lists derive (tokens_view tokens.now) }
{
    for (at, token) in tokens.iter().enumerate() {
        if is_close(token.kind) {
            return false;
        }
        if is_listed(derive, token, &tokens[at + 1..]) {
            return true;
        }
    }
    false
}

/// Whether a token is `derive` of an attribute, or in a `cfg_attr`.
fn is_derive(around: Around, token: &Token<'_>) -> bool
    ensures { result ≡ derives.is_derive around (token_view token.now) }
{
    around.brackets == 0 && is_named("derive", token)
}

/// Whether a bracket behind a token would be that of an attribute or of `cfg_attr`.
fn leads_in(token: &Token<'_>) -> bool
    ensures { result ≡ derives.leads_in (token_view token.now) }
{
    is_mark(b'#', token.kind) || is_named("cfg_attr", token)
}

/// In how many brackets of other things the token behind one stands.
fn brackets_after(around: Around, kind: TokenKind) -> usize
    requires { around.brackets + 1 < 2 ^ 64 }
    ensures value { result ≡ derives.brackets_after around kind }
    ensures near { result ≤ around.brackets + 1 }
{
    match kind {
        TokenKind::Open(_) if !around.enters => around.brackets + 1,
        TokenKind::Close(_) => around.brackets.saturating_sub(1),
        _ => around.brackets,
    }
}

/// Where the token behind one stands.
fn around_after(around: Around, token: &Token<'_>) -> Around
    requires { around.brackets + 1 < 2 ^ 64 }
    ensures value { result ≡ derives.around_after around (token_view token.now) }
    ensures near { result.brackets ≤ around.brackets + 1 }
{
    Around {
        brackets: brackets_after(around, token.kind),
        enters: around.brackets == 0 && leads_in(token),
    }
}

/// Whether attributes derive this.
fn derives(derive: Derive, attributes: &[Token<'_>]) -> bool
    ensures { result ≡ derives.derives derive (tokens_view attributes.now) }
{
    let mut around = Around {
        brackets: 0,
        enters: false,
    };
    for (at, token) in attributes.iter().enumerate() {
        if is_derive(around, token) && lists(derive, &attributes[at + 1..]) {
            return true;
        }
        around = around_after(around, token);
    }
    false
}

/// The attributes of an item.
fn attributes_of<'s, 't>(item: &Item<'s, 't>) -> &'s [Token<'t>]
    ensures { tokens_view result.now ≡ derives.attributes_of (written.item_view item.now) }
{
    match item {
        Item::Struct(item) => item.attributes,
        Item::Enum(item) => item.attributes,
        Item::Faulty(item) => item.attributes,
        Item::Alias(_) | Item::Impl(_) | Item::Use(_) | Item::Other => &[],
    }
}

/// Whether an item derives that it is read as it is declared, and is no stand-in.
fn is_derived(item: &ModuleItem<'_, '_>) -> bool
    ensures { result ≡ derives.is_derived (written.module_item_view item.now) }
{
    !is_of_stand_ins(item.site.module_name) && derives(Derive::Reading, attributes_of(&item.item))
}

/// Whether some item derives that it is read as it is declared, and is no stand-in.
pub(super) fn has_derives(items: &[ModuleItem<'_, '_>]) -> bool
    ensures { result ≡ derives.has_derives (written.items_view items.now) }
{
    for item in items {
        if is_derived(item) {
            return true;
        }
    }
    false
}

/// Why a struct or an enum of a module, with attributes and a name, isn't read as it is declared,
/// among items of which some derive that, or none.
pub(super) fn own_reading(
    items: &PlacedItems<'_, '_, '_>,
    has_derives: bool,
    module_name: &str,
    attributes: &[Token<'_>],
    name: &str,
) -> Option<TypeProblem>
    ensures { result ≡ derives.own_reading (written.items_view items.now.list.now) has_derives
        module_name.now (tokens_view attributes.now) name.now }
{
    if is_of_stand_ins(module_name) || derives(Derive::Reading, attributes) {
        return None;
    }
    if derives(Derive::OtherReading, attributes) || items.has_impl(name) {
        return Some(TypeProblem::OwnImpl);
    }
    if has_derives {
        Some(TypeProblem::Underived)
    } else {
        None
    }
}
