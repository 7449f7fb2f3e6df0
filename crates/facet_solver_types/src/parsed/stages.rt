//! From a text to types with their shapes.
ghost use Rattle.std.specs.Prelude.{◌≡◌, option_map};
ghost use Rattle.facet_solver_types.specs.AllDeclarations.{all_view};
ghost use Rattle.facet_solver_types.specs.Declarations.{items_view};
ghost use Rattle.facet_solver_types.specs.GivenTypes.{GivesTypes};
ghost use Rattle.facet_solver_types.specs.Mentions.{mention_view};
ghost use Rattle.facet_solver_types.specs.ParsedTexts as parsed;
ghost use Rattle.facet_solver_types.specs.Passages.{passage_view};
ghost use Rattle.facet_solver_types.specs.Scopes.{str_view};
ghost use Rattle.facet_solver_types.specs.Understood.{declarations_view};

use super::Types;
use crate::catalogue::catalogue_of;
use crate::declaration::Declaration;
use crate::declare::declarations;
use crate::failure::Failure;
use crate::grammar::items;
use crate::item::ModuleItem;
use crate::named_declarations::{NamedDeclarations, name_places};
use crate::passage::Passage;
use crate::tokens::tokens;
use crate::typing::{Mention, root_type, type_entries};
use std::alloc::Global;

/// The types that a root needs among declarations.
fn rooted_types(
    alloc: Global,
    declarations: NamedDeclarations<'_, '_>,
    root: Mention,
) -> Result<Types, Failure>
    ensures { GivesTypes (parsed.rooted_types (all_view declarations.entry)
        (mention_view root)) result }
{
    let Mention { id, entries, uses } = root;
    let entries = type_entries(alloc, declarations, uses, entries)?;
    catalogue_of(alloc, declarations.list, &entries, id.as_str())
}

/// The types that a root needs, which is one of declarations or is named behind so many bytes.
fn types_among<'t>(
    alloc: Global,
    declarations: NamedDeclarations<'_, 't>,
    base: usize,
    root: Option<&'t str>,
) -> Result<Types, Failure>
    ensures { GivesTypes (parsed.declared_types base (option_map str_view root.entry)
        (all_view declarations.entry)) result }
{
    let root = root_type(alloc, declarations, base, root)?;
    rooted_types(alloc, declarations, root)
}

/// The types that a root needs, where the names of declarations get their places.
fn declared_types<'t>(
    alloc: Global,
    declarations: &[Declaration<'_, 't>],
    base: usize,
    root: Option<&'t str>,
) -> Result<Types, Failure>
    ensures { GivesTypes (parsed.declared_types base (option_map str_view root.entry)
        (declarations_view declarations.now)) result }
{
    let names = name_places(alloc, declarations)?;
    let named = NamedDeclarations::new(declarations, &names);
    types_among(alloc, named, base, root)
}

/// The types that a root needs of those that items declare.
fn item_types(
    alloc: Global,
    items: &[ModuleItem<'_, '_>],
    base: usize,
    root: Option<&str>,
) -> Result<Types, Failure>
    ensures { GivesTypes (parsed.item_types base (option_map str_view root.entry)
        (items_view items.now)) result }
{
    let declarations = declarations(alloc, items)?;
    declared_types(alloc, &declarations, base, root)
}

/// The types that a root needs of those that tokens declare.
fn token_types(
    alloc: Global,
    passage: Passage<'_, '_>,
    base: usize,
    root: Option<&str>,
) -> Result<Types, Failure>
    ensures { GivesTypes (parsed.token_types base (option_map str_view root.entry)
        (passage_view passage.entry)) result }
{
    let items = items(alloc, passage)?;
    item_types(alloc, &items, base, root)
}

/// The types that a root needs of those that a text declares.
///
/// Errors: the first fault of the text, where it cannot be read; why the root is none; all faults
/// of what the root needs; out of memory.
pub(super) fn types(alloc: Global, text: &str, root: Option<&str>) -> Result<Types, Failure>
    ensures { GivesTypes (parsed.types text.now (option_map str_view root.entry)) result }
{
    let tokens = tokens(alloc, text)?;
    let passage = Passage {
        tokens: &tokens,
        end: text.len(),
    };
    token_types(alloc, passage, text.len(), root)
}
