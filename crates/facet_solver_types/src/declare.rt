//! From items to declarations, with what their attributes say.
ghost use Rattle.std.specs.Prelude.{◌≡◌, ◌≤◌, [], ◌∷◌, IfOk, length, option_map};
ghost use Rattle.facet_solver_types.specs.AttributeLists.{attributes_view};
ghost use Rattle.facet_solver_types.specs.Attributes.{attribute_view};
ghost use Rattle.facet_solver_types.specs.Declarations as written;
ghost use Rattle.facet_solver_types.specs.Gatherings.{gathering_view};
ghost use Rattle.facet_solver_types.specs.Passages.{passage_view};
ghost use Rattle.facet_solver_types.specs.Proxies.{proxies as proxies_of};
ghost use Rattle.facet_solver_types.specs.ReadItems as read;
ghost use Rattle.facet_solver_types.specs.Sites.{site_view};
ghost use Rattle.facet_solver_types.specs.Stated.{stated_view};
ghost use Rattle.facet_solver_types.specs.Tokens.{token_view, tokens_view};
ghost use Rattle.facet_solver_types.specs.Understood.{declaration_view, declarations_view};

mod conditions;
mod derived;
mod elsewhere;
mod enums;
mod fields;
mod gather;
mod names;
mod placed_items;
mod proxy;
mod said;
mod sought;
mod source;
mod stated;
mod structs;
mod variants;

use crate::attribute::{Attribute, Meaning, Subject};
use crate::declaration::{Declaration, Declared};
use crate::fault::Fault;
use crate::gathering::Gathering;
use crate::item::{
    AliasDeclaration, Body, EnumDeclaration, Item, ModuleItem, Parameter, StructDeclaration,
    VariantDeclaration,
};
use crate::problem::Problem;
use crate::site::{Site, top};
use crate::token::Token;
use crate::type_problem::TypeProblem;
use conditions::{has_forms, has_other_form};
use derived::{has_derives, own_reading};
use elsewhere::elsewhere;
use enums::read_enum;
use gather::add;
use placed_items::PlacedItems;
use proxy::proxies;
use said::said_on;
use sought::is_said;
use stated::Stated;
use std::alloc::{AllocError, Global};
use structs::{read_struct, subject_of};

/// A fault, alone.
///
/// The only error is out of memory.
fn alone(alloc: Global, fault: Fault) -> Result<Vec<Fault>, AllocError>
    ensures { IfOk result (λ faults. faults.items ≡ fault ∷ []) }
{
    let mut faults = Vec::new(alloc);
    faults.push(fault)?;
    Ok(faults)
}

/// What is declared by proxies, if there are some, or their fault.
///
/// The only error is out of memory.
fn proxied_by<'s, 't>(
    alloc: Global,
    found: &[Attribute<'s, 't>],
) -> Result<Option<Stated<'s, 't>>, AllocError>
    ensures { IfOk result (λ known. option_map stated_view known
        ≡ read.proxied_by (proxies_of (attributes_view found.now))) }
{
    match proxies(alloc, found) {
        Ok(proxies) if proxies.is_empty() => Ok(None),
        Ok(proxies) => Ok(Some(Stated {
            declared: Declared::Proxied(proxies),
            faults: Vec::new(alloc),
        })),
        Err(Fault::OutOfMemory) => Err(AllocError),
        Err(fault) => Ok(Some(Stated {
            declared: Declared::Unread,
            faults: alone(alloc, fault)?,
        })),
    }
}

/// What a struct declares. Where it is read as another type, its body isn't looked at.
fn struct_by<'s, 't>(
    alloc: Global,
    found: &[Attribute<'s, 't>],
    body: &Body<'s, 't>,
) -> Result<Stated<'s, 't>, AllocError>
    ensures { IfOk result (λ stated. stated_view stated
        ≡ read.struct_by (attributes_view found.now) (written.body_view body.now)) }
{
    match proxied_by(alloc, found)? {
        Some(stated) => Ok(stated),
        None => read_struct(alloc, found, body),
    }
}

/// What an enum declares. Where it is read as another type, its variants aren't looked at.
fn enum_by<'s, 't>(
    alloc: Global,
    found: &[Attribute<'s, 't>],
    variants: &[VariantDeclaration<'s, 't>],
) -> Result<Stated<'s, 't>, AllocError>
    ensures { IfOk result (λ stated. stated_view stated
        ≡ read.enum_by (attributes_view found.now) (written.variants_view variants.now)) }
{
    match proxied_by(alloc, found)? {
        Some(stated) => Ok(stated),
        None => read_enum(alloc, found, variants),
    }
}

/// Copies of parameters.
fn copied<'t>(alloc: Global, parameters: &[Parameter<'t>]) -> Result<Vec<Parameter<'t>>, AllocError>
    ensures { IfOk result (λ copies. copies.items ≡ parameters.now) }
{
    let mut copies = Vec::new(alloc);
    copies.extend_from_slice(parameters)?;
    Ok(copies)
}

/// The declaration of a name and parameters, with attributes and their faults.
fn declaration_of<'s, 't>(
    alloc: Global,
    name: Token<'t>,
    parameters: &[Parameter<'t>],
    found: Gathering<Attribute<'s, 't>>,
    stated: Stated<'s, 't>,
) -> Result<Declaration<'s, 't>, AllocError>
    ensures { IfOk result (λ made. declaration_view made
        ≡ read.declaration_of (token_view name.entry) (written.parameters_view parameters.now)
        (gathering_view attribute_view found.entry) (stated_view stated.entry)) }
{
    let Stated {
        declared,
        faults: mut others,
    } = stated;
    let mut faults = found.faults;
    faults.append(&mut others)?;
    Ok(Declaration {
        site: top(),
        name,
        parameters: copied(alloc, parameters)?,
        has_other_forms: false,
        denies_unknown: is_said(Meaning::DenyUnknownFields, &found.values),
        faults,
        declared,
    })
}

/// The declaration of a name that isn't read, since something is wrong with it.
fn unread<'s, 't>(
    alloc: Global,
    name: Token<'t>,
    fault: Fault,
) -> Result<Declaration<'s, 't>, AllocError>
    ensures { IfOk result (λ made. declaration_view made
        ≡ read.unread_declaration (token_view name.entry) fault) }
{
    Ok(Declaration {
        site: top(),
        name,
        parameters: Vec::new(alloc),
        has_other_forms: false,
        denies_unknown: false,
        faults: alone(alloc, fault)?,
        declared: Declared::Unread,
    })
}

/// The declaration of a name that isn't read as it is declared.
fn read_otherwise<'s, 't>(
    alloc: Global,
    name: Token<'t>,
    problem: TypeProblem,
) -> Result<Declaration<'s, 't>, AllocError>
    ensures { IfOk result (λ made. declaration_view made
        ≡ read.read_otherwise (token_view name.entry) problem) }
{
    let fault = Fault::At {
        offset: name.offset,
        problem: Problem::OfType(problem),
    };
    unread(alloc, name, fault)
}

/// The declaration of a struct, unless it isn't read as it is declared.
fn struct_declaration<'s, 't>(
    alloc: Global,
    problem: Option<TypeProblem>,
    item: &StructDeclaration<'s, 't>,
) -> Result<Declaration<'s, 't>, AllocError>
    ensures { IfOk result (λ made. declaration_view made
        ≡ read.struct_declaration problem (tokens_view item.now.attributes.now)
        (token_view item.now.name) (written.parameters_view item.now.parameters.items)
        (written.body_view item.now.body)) }
{
    if let Some(problem) = problem {
        return read_otherwise(alloc, item.name, problem);
    }
    let found = said_on(alloc, subject_of(&item.body), item.attributes)?;
    let stated = struct_by(alloc, &found.values, &item.body)?;
    declaration_of(alloc, item.name, &item.parameters, found, stated)
}

/// The declaration of an enum, unless it isn't read as it is declared.
fn enum_declaration<'s, 't>(
    alloc: Global,
    problem: Option<TypeProblem>,
    item: &EnumDeclaration<'s, 't>,
) -> Result<Declaration<'s, 't>, AllocError>
    ensures { IfOk result (λ made. declaration_view made
        ≡ read.enum_declaration problem (tokens_view item.now.attributes.now)
        (token_view item.now.name) (written.parameters_view item.now.parameters.items)
        (written.variants_view item.now.variants.items)) }
{
    if let Some(problem) = problem {
        return read_otherwise(alloc, item.name, problem);
    }
    let found = said_on(alloc, Subject::Enum, item.attributes)?;
    let stated = enum_by(alloc, &found.values, &item.variants)?;
    declaration_of(alloc, item.name, &item.parameters, found, stated)
}

/// The declaration of an alias, which has no attributes that say anything.
fn alias_declaration<'s, 't>(
    alloc: Global,
    item: &AliasDeclaration<'s, 't>,
) -> Result<Declaration<'s, 't>, AllocError>
    ensures { IfOk result (λ made. declaration_view made
        ≡ read.alias_declaration (token_view item.now.name)
        (written.parameters_view item.now.parameters.items)
        (passage_view item.now.written)) }
{
    Ok(Declaration {
        site: top(),
        name: item.name,
        parameters: copied(alloc, &item.parameters)?,
        has_other_forms: false,
        denies_unknown: false,
        faults: Vec::new(alloc),
        declared: Declared::Alias(item.written),
    })
}

/// The declaration of an item of a module, as if it stood nowhere, if it declares something, among
/// items of which some derive how they are read, or none.
fn declaration_of_item<'s, 't>(
    alloc: Global,
    items: &PlacedItems<'_, 's, 't>,
    has_derives: bool,
    module_name: &str,
    item: &Item<'s, 't>,
) -> Result<Option<Declaration<'s, 't>>, AllocError>
    ensures { IfOk result (λ made. option_map declaration_view made
        ≡ read.declaration_of_item (written.items_view items.now.list.now) has_derives
        module_name.now (written.item_view item.now)) }
{
    match item {
        Item::Struct(item) => {
            let name = item.name.text;
            let problem = own_reading(items, has_derives, module_name, item.attributes, name);
            Ok(Some(struct_declaration(alloc, problem, item)?))
        }
        Item::Enum(item) => {
            let name = item.name.text;
            let problem = own_reading(items, has_derives, module_name, item.attributes, name);
            Ok(Some(enum_declaration(alloc, problem, item)?))
        }
        Item::Alias(item) => Ok(Some(alias_declaration(alloc, item)?)),
        Item::Faulty(item) => Ok(Some(unread(alloc, item.name, item.fault)?)),
        Item::Impl(_) | Item::Use(_) | Item::Other => Ok(None),
    }
}

/// A declaration, which stands so, and is one of some that are one under different conditions, or
/// isn't.
fn at_site<'s, 't>(
    site: Site<'t>,
    has_other_forms: bool,
    declaration: Declaration<'s, 't>,
) -> Declaration<'s, 't>
    ensures { declaration_view result ≡ read.at_site (site_view site.entry) has_other_forms
        (declaration_view declaration.entry) }
{
    Declaration {
        site,
        has_other_forms,
        ..declaration
    }
}

/// The declaration of an item where it stands, if it declares something.
fn declaration<'s, 't>(
    alloc: Global,
    items: &PlacedItems<'_, 's, 't>,
    has_derives: bool,
    item: &ModuleItem<'s, 't>,
) -> Result<Option<Declaration<'s, 't>>, AllocError>
    ensures { IfOk result (λ made. option_map declaration_view made
        ≡ read.declaration (written.items_view items.now.list.now) has_derives
        (written.module_item_view item.now)) }
{
    match declaration_of_item(alloc, items, has_derives, item.site.module_name, &item.item)? {
        Some(made) => Ok(Some(at_site(item.site, has_forms(alloc, items, item)?, made))),
        None => Ok(None),
    }
}

/// The same of an item at an index, unless one before it is what it is under another condition.
fn declaration_at<'s, 't>(
    alloc: Global,
    items: &PlacedItems<'_, 's, 't>,
    has_derives: bool,
    index: usize,
    item: &ModuleItem<'s, 't>,
) -> Result<Option<Declaration<'s, 't>>, AllocError>
    requires { index ≤ length items.now.list.now }
    ensures { IfOk result (λ made. option_map declaration_view made
        ≡ read.declaration_at (written.items_view items.now.list.now) has_derives index
        (written.module_item_view item.now)) }
{
    if has_other_form(alloc, items, index, item)? {
        return Ok(None);
    }
    declaration(alloc, items, has_derives, item)
}

/// What items declare, in order. Of what is one under different conditions the first is taken.
fn own_declarations<'s, 't>(
    alloc: Global,
    items: &PlacedItems<'_, 's, 't>,
) -> Result<Vec<Declaration<'s, 't>>, AllocError>
    ensures { IfOk result (λ found. declarations_view found.items
        ≡ read.own_declarations (written.items_view items.now.list.now)) }
{
    let has_derives = has_derives(items.list);
    let mut found = Vec::new(alloc);
    for (index, item) in items.list.iter().enumerate() {
        add(
            &mut found,
            declaration_at(alloc, items, has_derives, index, item)?,
        )?;
    }
    Ok(found)
}

/// The declarations of items, in order, with what their attributes say. Of those that are one under
/// different conditions the first is taken. Each holds the faults of its attributes, of its fields
/// and of its variants, which are left out. One that cannot be read, or is not read as it is
/// declared, holds that fault alone. Behind them stands what says which names a `use` takes.
///
/// The only error is out of memory.
pub(crate) fn declarations<'s, 't>(
    alloc: Global,
    items: &[ModuleItem<'s, 't>],
) -> Result<Vec<Declaration<'s, 't>>, AllocError>
    ensures { IfOk result (λ found. declarations_view found.items
        ≡ read.declarations (written.items_view items.now)) }
{
    let placed = PlacedItems::new(alloc, items)?;
    let mut found = own_declarations(alloc, &placed)?;
    let mut others = elsewhere(alloc, items, &found)?;
    found.append(&mut others)?;
    Ok(found)
}
