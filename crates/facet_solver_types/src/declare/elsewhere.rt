//! Names that a `use` takes, where they may mean another type than a declared or a known one.
ghost use Rattle.std.specs.Prelude.{◌≡◌, ◌++◌, IfOk, OnOk, option_map};
ghost use Rattle.facet_solver_shape.specs.Names.{names_of};
ghost use Rattle.facet_solver_types.specs.Declarations.{items_view, module_item_view};
ghost use Rattle.facet_solver_types.specs.Elsewhere as of;
ghost use Rattle.facet_solver_types.specs.PlacedNames.{names_in};
ghost use Rattle.facet_solver_types.specs.Sites.{site_view};
ghost use Rattle.facet_solver_types.specs.Tokens.{token_view, tokens_view};
ghost use Rattle.facet_solver_types.specs.Understood.{declaration_view, declarations_view, declared_view};

use super::gather::add;
use super::source::{Source, source_of};
use crate::declaration::{Declaration, Declared};
use crate::grammar::{sees_path, sees_word};
use crate::item::{Item, ModuleItem};
use crate::name_places::NamePlaces;
use crate::named_declarations::name_places;
use crate::site::Site;
use crate::token::Token;
use std::alloc::{AllocError, Global};

/// Whether a known type has this name, and other crates have other types of it.
fn is_shared(name: &str) -> bool
    ensures { result ≡ of.is_shared name.now }
{
    match name {
        "Value" | "Map" | "Number" => true,
        "Duration" | "SystemTime" | "Result" | "Bound" | "OsString" => true,
        "Range" | "RangeInclusive" | "RangeFrom" | "RangeTo" => true,
        _ => false,
    }
}

/// Whether the name before these tokens is the last of its path, and goes by no other.
fn ends_path(tokens: &[Token<'_>]) -> bool
    ensures { result ≡ of.ends_path (tokens_view tokens.now) }
{
    !sees_path(tokens) && !sees_word("as", tokens)
}

/// Whether a name means another type where a `use` takes it from there, where these are declared.
fn matters(declared: &NamePlaces<'_>, source: Source, name: &str) -> bool
    ensures { result ≡ of.matters (names_in declared.now) source name.now }
{
    match source {
        Source::Home => declared.contains(name),
        Source::Own => is_shared(name) && !declared.contains(name),
        Source::Other => is_shared(name) || declared.contains(name),
    }
}

/// What is said of a name that a `use` takes from there.
fn said_of<'s, 't>(source: Source) -> Declared<'s, 't>
    ensures { declared_view result ≡ of.said_of source }
{
    match source {
        Source::Home => Declared::Home,
        Source::Own | Source::Other => Declared::Elsewhere,
    }
}

/// What says that a `use` takes a name from there.
fn taken_declaration<'s, 't>(
    alloc: Global,
    source: Source,
    site: Site<'t>,
    name: Token<'t>,
) -> Declaration<'s, 't>
    ensures { declaration_view result
        ≡ of.taken_declaration source (site_view site.entry) (token_view name.entry) }
{
    Declaration {
        site,
        name,
        parameters: Vec::new(alloc),
        has_other_forms: false,
        denies_unknown: false,
        faults: Vec::new(alloc),
        declared: said_of(source),
    }
}

/// What says that a `use` takes the name that stands first from there, if it does and that matters.
fn taken_at<'s, 't>(
    alloc: Global,
    declared: &NamePlaces<'_>,
    source: Source,
    site: Site<'t>,
    tokens: &[Token<'t>],
) -> Option<Declaration<'s, 't>>
    ensures { option_map declaration_view result
        ≡ of.taken_at (names_in declared.now) source (site_view site.entry)
        (tokens_view tokens.now) }
{
    let (name, others) = tokens.split_first()?;
    if !ends_path(others) || !matters(declared, source, name.text) {
        return None;
    }
    Some(taken_declaration(alloc, source, site, *name))
}

/// Adds what says which names a `use` of these tokens takes from there.
fn add_taken<'s, 't>(
    alloc: Global,
    found: &mut Vec<Declaration<'s, 't>>,
    declared: &NamePlaces<'_>,
    source: Source,
    site: Site<'t>,
    tokens: &[Token<'t>],
) -> Result<(), AllocError>
    ensures { OnOk result (declarations_view found.new.items ≡ declarations_view found.old.items
        ++ of.taken (names_in declared.now) source (site_view site.entry)
        (tokens_view tokens.now)) }
{
    for (at, _) in tokens.iter().enumerate() {
        add(
            found,
            taken_at(alloc, declared, source, site, &tokens[at..]),
        )?;
    }
    Ok(())
}

/// The same of an item, if it is a `use` whose paths tell where they begin.
fn add_taken_by<'s, 't>(
    alloc: Global,
    found: &mut Vec<Declaration<'s, 't>>,
    modules: &NamePlaces<'_>,
    declared: &NamePlaces<'_>,
    item: &ModuleItem<'_, 't>,
) -> Result<(), AllocError>
    ensures { OnOk result (declarations_view found.new.items ≡ declarations_view found.old.items
        ++ of.taken_by (names_in modules.now) (names_in declared.now)
        (module_item_view item.now)) }
{
    match &item.item {
        Item::Use(tokens) => match source_of(modules, tokens) {
            Some(source) => add_taken(alloc, found, declared, source, item.site, tokens),
            None => Ok(()),
        },
        _ => Ok(()),
    }
}

/// Whether an item is a `use`.
fn is_use(item: &ModuleItem<'_, '_>) -> bool
    ensures { result ≡ of.is_use (module_item_view item.now) }
{
    match item.item {
        Item::Use(_) => true,
        _ => false,
    }
}

/// Whether one of some items is a `use`.
fn has_use(items: &[ModuleItem<'_, '_>]) -> bool
    ensures { result ≡ of.has_use (items_view items.now) }
{
    for item in items {
        if is_use(item) {
            return true;
        }
    }
    false
}

/// The names of the modules in which items stand.
fn module_names<'t>(alloc: Global, items: &[ModuleItem<'_, 't>]) -> Result<Vec<&'t str>, AllocError>
    ensures { IfOk result (λ names. names_of names.items ≡ of.module_names (items_view items.now)) }
{
    let mut names = Vec::with_capacity(alloc, items.len())?;
    for item in items {
        names.push(item.site.module_name)?;
    }
    Ok(names)
}

/// The same, where each gets its places.
fn placed_modules<'t>(
    alloc: Global,
    items: &[ModuleItem<'_, 't>],
) -> Result<NamePlaces<'t>, AllocError>
    ensures { IfOk result (λ places. names_in places ≡ of.module_names (items_view items.now)) }
{
    let names = module_names(alloc, items)?;
    NamePlaces::new(alloc, names)
}

/// What says which names the `use`s among items take, where that matters, with these declared.
///
/// The only error is out of memory.
pub(super) fn elsewhere<'s, 't>(
    alloc: Global,
    items: &[ModuleItem<'_, 't>],
    declared: &[Declaration<'_, 't>],
) -> Result<Vec<Declaration<'s, 't>>, AllocError>
    ensures { IfOk result (λ found. declarations_view found.items
        ≡ of.elsewhere (items_view items.now) (declarations_view declared.now)) }
{
    let mut found = Vec::new(alloc);
    if !has_use(items) {
        return Ok(found);
    }
    let modules = placed_modules(alloc, items)?;
    let names = name_places(alloc, declared)?;
    for item in items {
        add_taken_by(alloc, &mut found, &modules, &names, item)?;
    }
    Ok(found)
}
