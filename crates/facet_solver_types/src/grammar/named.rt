//! Structs, enums and aliases, by their names.
ghost use Rattle.std.specs.Prelude.{◌≡◌};
ghost use Rattle.facet_solver_types.specs.Declarations.{alias_view, enum_view, item_view, struct_view};
ghost use Rattle.facet_solver_types.specs.NamedItems.{after_equals, after_heading, alias_of, declaration, declared_by, enum_of, semicolon, struct_of, up_to_semicolon};
ghost use Rattle.facet_solver_types.specs.Outcomes.{Gives};
ghost use Rattle.facet_solver_types.specs.Passages.{passage_view};
ghost use Rattle.facet_solver_types.specs.Tokens.{token_view, tokens_view};

use super::bodies::{after_body, body_at, braces, struct_end, variants};
use super::first::sees_mark;
use super::inside::name_at;
use super::parameters::{after_parameters, after_where, parameters};
use super::run::{Run, run_len};
use super::starts::Start;
use crate::fault::Fault;
use crate::item::{AliasDeclaration, EnumDeclaration, FaultyDeclaration, Item, StructDeclaration};
use crate::passage::Passage;
use crate::problem::Expected;
use crate::token::Token;
use std::alloc::Global;

/// What stands after the parameters of a declaration and its `where`, which may stand first.
fn after_heading<'s, 't>(passage: Passage<'s, 't>) -> Passage<'s, 't>
    ensures { passage_view result ≡ after_heading (passage_view passage.entry) }
{
    after_where(after_parameters(passage))
}

/// A struct, after its name: parameters if any, and fields, with a `where` if any.
#[tactic(auto, unfolding(crate::specs::NamedItems::struct_of))]
fn struct_of<'s, 't>(
    alloc: Global,
    attributes: &'s [Token<'t>],
    name: Token<'t>,
    passage: Passage<'s, 't>,
) -> Result<StructDeclaration<'s, 't>, Fault>
    ensures { Gives struct_view (struct_of (tokens_view attributes.now) (token_view name.entry)
        (passage_view passage.entry)) result }
{
    let parameters = parameters(alloc, passage)?;
    let rest = after_heading(passage);
    let body = body_at(alloc, true, rest)?;
    struct_end(&body, after_where(after_body(rest)))?;
    Ok(StructDeclaration {
        attributes,
        name,
        parameters,
        body,
    })
}

/// An enum, after its name: parameters if any, a `where` if any, and variants.
#[tactic(auto, unfolding(crate::specs::NamedItems::enum_of))]
fn enum_of<'s, 't>(
    alloc: Global,
    attributes: &'s [Token<'t>],
    name: Token<'t>,
    passage: Passage<'s, 't>,
) -> Result<EnumDeclaration<'s, 't>, Fault>
    ensures { Gives enum_view (enum_of (tokens_view attributes.now) (token_view name.entry)
        (passage_view passage.entry)) result }
{
    let parameters = parameters(alloc, passage)?;
    let variants = variants(alloc, braces(after_heading(passage))?)?;
    Ok(EnumDeclaration {
        attributes,
        name,
        parameters,
        variants,
    })
}

/// A `;` stands first.
pub(super) fn semicolon(passage: Passage<'_, '_>) -> Result<(), Fault>
    ensures { Gives (λ end. end) (semicolon (passage_view passage.entry)) result }
{
    if sees_mark(b';', passage.tokens) {
        Ok(())
    } else {
        Err(passage.unexpected(Expected::Semicolon))
    }
}

/// What stands after the `=` that stands first.
fn after_equals<'s, 't>(passage: Passage<'s, 't>) -> Result<Passage<'s, 't>, Fault>
    ensures { Gives passage_view (after_equals (passage_view passage.entry)) result }
{
    if sees_mark(b'=', passage.tokens) {
        Ok(passage.after(1))
    } else {
        Err(passage.unexpected(Expected::Equals))
    }
}

/// What stands before the `;` that ends a statement.
fn up_to_semicolon<'s, 't>(passage: Passage<'s, 't>) -> Result<Passage<'s, 't>, Fault>
    ensures { Gives passage_view (up_to_semicolon (passage_view passage.entry)) result }
{
    let len = run_len(Run::Statement, passage.tokens);
    semicolon(passage.after(len))?;
    Ok(passage.up_to(len))
}

/// An alias, after its name: parameters if any, a `where` if any, `=`, and a type up to `;`.
#[tactic(auto, unfolding(crate::specs::NamedItems::alias_of))]
fn alias_of<'s, 't>(
    alloc: Global,
    attributes: &'s [Token<'t>],
    name: Token<'t>,
    passage: Passage<'s, 't>,
) -> Result<AliasDeclaration<'s, 't>, Fault>
    ensures { Gives alias_view (alias_of (tokens_view attributes.now) (token_view name.entry)
        (passage_view passage.entry)) result }
{
    let parameters = parameters(alloc, passage)?;
    let rest = after_equals(after_heading(passage))?;
    let written = up_to_semicolon(rest)?;
    Ok(AliasDeclaration {
        attributes,
        name,
        parameters,
        written,
    })
}

/// A struct, an enum or an alias, as it begins, after its name.
fn declared_by<'s, 't>(
    alloc: Global,
    start: Start,
    attributes: &'s [Token<'t>],
    name: Token<'t>,
    passage: Passage<'s, 't>,
) -> Result<Item<'s, 't>, Fault>
    ensures { Gives item_view (declared_by start (tokens_view attributes.now)
        (token_view name.entry) (passage_view passage.entry)) result }
{
    match start {
        Start::Struct => Ok(Item::Struct(struct_of(alloc, attributes, name, passage)?)),
        Start::Enum => Ok(Item::Enum(enum_of(alloc, attributes, name, passage)?)),
        _ => Ok(Item::Alias(alias_of(alloc, attributes, name, passage)?)),
    }
}

/// A struct, an enum or an alias, as it begins, after its keyword. What stands after its name may
/// have a fault.
pub(super) fn declaration<'s, 't>(
    alloc: Global,
    start: Start,
    attributes: &'s [Token<'t>],
    passage: Passage<'s, 't>,
) -> Result<Item<'s, 't>, Fault>
    ensures { Gives item_view (declaration start (tokens_view attributes.now)
        (passage_view passage.entry)) result }
{
    let name = name_at(passage)?;
    match declared_by(alloc, start, attributes, name, passage.after(1)) {
        Ok(item) => Ok(item),
        Err(Fault::OutOfMemory) => Err(Fault::OutOfMemory),
        Err(fault) => Ok(Item::Faulty(FaultyDeclaration {
            attributes,
            name,
            fault,
        })),
    }
}
