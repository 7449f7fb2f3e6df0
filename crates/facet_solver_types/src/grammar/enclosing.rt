//! What items stand in: modules, blocks and the bodies of impls.
ghost use Rattle.std.specs.Prelude.{◌≡◌, [], ◌∷◌, ◌++◌, IfErr, OnOk};
ghost use Rattle.facet_solver_types.specs.Declarations.{item_view, items_view};
ghost use Rattle.facet_solver_types.specs.Enclosings.{around_after, around_view, block_in, closes_braces, context_of, enclosing_view, is_left, item_at, items_of, module_in, opened_items, piece_view, sees_close_brace, site_in};
ghost use Rattle.facet_solver_types.specs.Sites.{site_view};
ghost use Rattle.facet_solver_types.specs.Tokens.{tokens_view};

use super::starts::Context;
use crate::fault::Fault;
use crate::item::{Item, ModuleItem};
use crate::site::Site;
use crate::token::{Bracket, Token, TokenKind};
use std::alloc::AllocError;

/// What items stand in.
#[derive(Clone, Copy, Debug, PartialEq, Eq)]
pub(super) enum Enclosing<'t> {
    /// The module of this name.
    Module(Token<'t>),
    /// A block of a function, by where its brace stands.
    Block(usize),
    /// The body of an impl.
    Body,
}

/// A piece of a text.
#[derive(Drop)]
pub(super) enum Piece<'s, 't> {
    Item(Item<'s, 't>),
    /// It ends with a brace that opens this.
    Opens(Enclosing<'t>),
    /// An impl that reads documents for the type of this name. It ends with the brace of its body.
    Impl(Token<'t>),
    /// The brace that closes the innermost that encloses it.
    Closes,
    /// It is passed over.
    Passed,
}

/// What the innermost of all that encloses something may have in it.
pub(super) fn context_of(around: &[Enclosing<'_>]) -> Context
    ensures { result ≡ context_of (around_view around.now) }
{
    match around.last() {
        Some(Enclosing::Block(_)) => Context::Block,
        Some(Enclosing::Body) => Context::Body,
        _ => Context::Module,
    }
}

/// Whether a token closes braces.
fn closes_braces(kind: TokenKind) -> bool
    ensures { result ≡ closes_braces kind }
{
    match kind {
        TokenKind::Close(Bracket::Curly) => true,
        _ => false,
    }
}

/// Whether the first token closes braces.
fn sees_close_brace(tokens: &[Token<'_>]) -> bool
    ensures { result ≡ sees_close_brace (tokens_view tokens.now) }
{
    match tokens.first() {
        Some(token) => closes_braces(token.kind),
        None => false,
    }
}

/// Whether the first token closes the innermost of all that encloses something.
pub(super) fn is_left(around: &[Enclosing<'_>], tokens: &[Token<'_>]) -> bool
    ensures { result ≡ is_left (around_view around.now) (tokens_view tokens.now) }
{
    sees_close_brace(tokens) && !around.is_empty()
}

/// The name of the innermost module of all that encloses something, or nothing where there is none.
fn module_in<'t>(around: &[Enclosing<'t>]) -> &'t str
    ensures { result.now ≡ module_in (around_view around.now) }
{
    let mut module_name = "";
    for enclosing in around {
        if let Enclosing::Module(name) = enclosing {
            module_name = name.text;
        }
    }
    module_name
}

/// Where the block begins that is the innermost of all that encloses something, if it is one.
fn block_in(around: &[Enclosing<'_>]) -> Option<usize>
    ensures { result ≡ block_in (around_view around.now) }
{
    match around.last() {
        Some(Enclosing::Block(place)) => Some(*place),
        _ => None,
    }
}

/// Where an item stands that all this encloses.
fn site_in<'t>(around: &[Enclosing<'t>]) -> Site<'t>
    ensures { site_view result ≡ site_in (around_view around.now) }
{
    Site {
        module_name: module_in(around),
        block: block_in(around),
    }
}

/// Adds an item that all this encloses.
fn add<'s, 't>(
    found: &mut Vec<ModuleItem<'s, 't>>,
    around: &[Enclosing<'t>],
    item: Item<'s, 't>,
) -> Result<(), AllocError>
    ensures { OnOk result (items_view found.new.items
        ≡ items_view found.old.items
        ++ item_at (around_view around.now) (item_view item.entry) ∷ []) }
{
    let site = site_in(around);
    found.push(ModuleItem { site, item })?;
    Ok(())
}

/// Adds what is known of what is opened last: that it is a module of its name, by an item in it that
/// declares nothing.
fn add_opened<'s, 't>(
    found: &mut Vec<ModuleItem<'s, 't>>,
    around: &[Enclosing<'t>],
    opened: Enclosing<'t>,
) -> Result<(), AllocError>
    ensures { OnOk result (items_view found.new.items ≡ items_view found.old.items
        ++ opened_items (around_view around.now) (enclosing_view opened.entry)) }
{
    match opened {
        Enclosing::Module(_) => add(found, around, Item::Other),
        _ => Ok(()),
    }
}

/// Adds the item that a piece is, or goes into what it opens, or out of what it closes.
pub(super) fn follow<'s, 't>(
    found: &mut Vec<ModuleItem<'s, 't>>,
    around: &mut Vec<Enclosing<'t>>,
    piece: Piece<'s, 't>,
) -> Result<(), Fault>
    ensures found { OnOk result (items_view found.new.items
        ≡ items_view found.old.items
        ++ items_of (around_view around.old.items) (piece_view piece.entry)) }
    ensures around { OnOk result (around_view around.new.items
        ≡ around_after (piece_view piece.entry) (around_view around.old.items)) }
    ensures memory { IfErr result (λ fault. fault ≡ Fault.OutOfMemory) }
{
    match piece {
        Piece::Item(item) => add(found, around, item)?,
        Piece::Opens(enclosing) => {
            around.push(enclosing)?;
            add_opened(found, around, enclosing)?;
        }
        Piece::Impl(name) => {
            add(found, around, Item::Impl(name))?;
            around.push(Enclosing::Body)?;
        }
        Piece::Closes => {
            around.pop();
        }
        Piece::Passed => {}
    }
    Ok(())
}
