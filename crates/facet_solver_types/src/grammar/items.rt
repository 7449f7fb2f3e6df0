//! The items of a text.
ghost use Rattle.std.specs.Prelude.{◌≡◌};
ghost use Rattle.facet_solver_types.specs.Declarations.{item_view, items_view};
ghost use Rattle.facet_solver_types.specs.Enclosings.{around_view, enclosing_view, piece_view};
ghost use Rattle.facet_solver_types.specs.Items.{after_call, after_head, call, function, head, implementation, items, module_piece, nothing, opening, other_brace, piece, piece_by, stated_item, statement};
ghost use Rattle.facet_solver_types.specs.Outcomes.{Gives};
ghost use Rattle.facet_solver_types.specs.Passages.{passage_view};
ghost use Rattle.facet_solver_types.specs.Tokens.{tokens_view};

use super::enclosing::{Enclosing, Piece, context_of, follow, is_left};
use super::fields::{after_prefix, attributes};
use super::first::{sees_bracket, sees_mark, sees_open, sees_word};
use super::implements::implemented;
use super::inside::name_at;
use super::named::{declaration, semicolon};
use super::prefixes::attributes_len;
use super::run::{Run, group_len, run_len};
use super::starts::{
    Context, Start, has_code, named_call_len, piece_len, qualifiers_len, start_in,
};
use crate::fault::Fault;
use crate::item::{Item, ModuleItem};
use crate::passage::Passage;
use crate::problem::Expected;
use crate::token::{Bracket, Token};
use std::alloc::Global;

/// What an item is that has these tokens and a `;`: a `use`, or one that is passed over.
fn stated_item<'s, 't>(tokens: &'s [Token<'t>]) -> Item<'s, 't>
    ensures { item_view result ≡ stated_item (tokens_view tokens.now) }
{
    if sees_word("use", tokens) {
        Item::Use(&tokens[1..])
    } else {
        Item::Other
    }
}

/// An item to `;`, which declares no type.
fn statement<'s, 't>(passage: Passage<'s, 't>) -> Result<Piece<'s, 't>, Fault>
    ensures { Gives piece_view (statement (passage_view passage.entry)) result }
{
    let len = run_len(Run::Statement, passage.tokens);
    semicolon(passage.after(len))?;
    Ok(Piece::Item(stated_item(passage.up_to(len).tokens)))
}

/// What stands after the head of an item.
fn after_head<'s, 't>(passage: Passage<'s, 't>) -> Passage<'s, 't>
    ensures { passage_view result ≡ after_head (passage_view passage.entry) }
{
    passage.after(run_len(Run::Head, passage.tokens))
}

/// What an item is after its head: this with braces, and one that is passed over with `;`.
fn opening<'s, 't>(piece: Piece<'s, 't>, passage: Passage<'s, 't>) -> Result<Piece<'s, 't>, Fault>
    ensures { Gives piece_view
        (opening (piece_view piece.entry) (passage_view passage.entry)) result }
{
    if sees_open(Bracket::Curly, passage.tokens) {
        Ok(piece)
    } else if sees_mark(b';', passage.tokens) {
        Ok(Piece::Item(Item::Other))
    } else {
        Err(passage.unexpected(Expected::HeadEnd))
    }
}

/// An item that is passed over, to `;` or braces.
fn head<'s, 't>(passage: Passage<'s, 't>) -> Result<Piece<'s, 't>, Fault>
    ensures { Gives piece_view (head (passage_view passage.entry)) result }
{
    opening(Piece::Item(Item::Other), after_head(passage))
}

/// A function, whose block is opened.
fn function<'s, 't>(passage: Passage<'s, 't>) -> Result<Piece<'s, 't>, Fault>
    ensures { Gives piece_view (function (passage_view passage.entry)) result }
{
    let rest = after_head(passage);
    opening(Piece::Opens(Enclosing::Block(rest.place())), rest)
}

/// A module, after `mod`, which is opened.
fn module_piece<'s, 't>(passage: Passage<'s, 't>) -> Result<Piece<'s, 't>, Fault>
    ensures { Gives piece_view (module_piece (passage_view passage.entry)) result }
{
    let name = name_at(passage)?;
    opening(Piece::Opens(Enclosing::Module(name)), passage.after(1))
}

/// An impl, whose body is opened, with the type that it is for, if documents are read by its trait.
fn implementation<'s, 't>(passage: Passage<'s, 't>) -> Result<Piece<'s, 't>, Fault>
    ensures { Gives piece_view (implementation (passage_view passage.entry)) result }
{
    let piece = match implemented(passage.after(qualifiers_len(passage.tokens))) {
        Some(name) => Piece::Impl(name),
        None => Piece::Opens(Enclosing::Body),
    };
    opening(piece, after_head(passage))
}

/// What stands after the `!` of a call, and after a name, if one stands there.
fn after_call<'s, 't>(passage: Passage<'s, 't>) -> Passage<'s, 't>
    ensures { passage_view result ≡ after_call (passage_view passage.entry) }
{
    passage.after(named_call_len(passage.tokens))
}

/// The call of a macro, which is passed over: brackets, and `;` unless they are braces. Among other
/// things than items anything may stand after its `!`.
fn call<'s, 't>(context: Context, passage: Passage<'s, 't>) -> Result<Piece<'s, 't>, Fault>
    ensures { Gives piece_view (call context (passage_view passage.entry)) result }
{
    let rest = after_call(passage);
    if has_code(context) || sees_open(Bracket::Curly, rest.tokens) {
        Ok(Piece::Passed)
    } else if sees_bracket(rest.tokens) {
        semicolon(rest.after(group_len(rest.tokens)))?;
        Ok(Piece::Passed)
    } else {
        Err(rest.unexpected(Expected::Bracket))
    }
}

/// What a brace opens that stands first and begins no item: in a block another one.
fn other_brace<'t>(context: Context, passage: Passage<'_, 't>) -> Enclosing<'t>
    ensures { enclosing_view result ≡ other_brace context (passage_view passage.entry) }
{
    match context {
        Context::Block => Enclosing::Block(passage.place()),
        _ => Enclosing::Body,
    }
}

/// What begins no item: a brace opens something, and something else is passed over.
fn nothing<'s, 't>(context: Context, passage: Passage<'s, 't>) -> Result<Piece<'s, 't>, Fault>
    ensures { Gives piece_view (nothing context (passage_view passage.entry)) result }
{
    if !has_code(context) {
        Err(passage.unexpected(Expected::Item))
    } else if sees_open(Bracket::Curly, passage.tokens) {
        Ok(Piece::Opens(other_brace(context, passage)))
    } else {
        Ok(Piece::Passed)
    }
}

/// What stands first, after attributes and `pub`, by how it begins. Its attributes are these.
fn piece_by<'s, 't>(
    alloc: Global,
    context: Context,
    attributes: &'s [Token<'t>],
    passage: Passage<'s, 't>,
) -> Result<Piece<'s, 't>, Fault>
    ensures { Gives piece_view (piece_by context (tokens_view attributes.now)
        (passage_view passage.entry)) result }
{
    let start = start_in(context, passage.tokens);
    match start {
        Start::Struct | Start::Enum | Start::Alias => {
            let item = declaration(alloc, start, attributes, passage.after(1))?;
            Ok(Piece::Item(item))
        }
        Start::Module => module_piece(passage.after(1)),
        Start::Function => function(passage),
        Start::Impl => implementation(passage),
        Start::Statement => statement(passage),
        Start::Head => head(passage),
        Start::Call => call(context, passage),
        Start::Unknown => nothing(context, passage),
    }
}

/// The piece that a passage is, in what encloses it: an item with attributes and `pub` if any, or
/// what closes the innermost that encloses it.
#[tactic(auto, unfolding(crate::specs::Items::piece))]
fn piece<'s, 't>(
    alloc: Global,
    around: &[Enclosing<'t>],
    passage: Passage<'s, 't>,
) -> Result<Piece<'s, 't>, Fault>
    ensures { Gives piece_view
        (piece (around_view around.now) (passage_view passage.entry)) result }
{
    if is_left(around, passage.tokens) {
        return Ok(Piece::Closes);
    }
    let rest = after_prefix(true, passage);
    piece_by(alloc, context_of(around), attributes(passage), rest)
}

/// The items of a text, after its inner attributes, with those in its modules, functions and impls.
///
/// Errors: where something else stands than the grammar expects, unless it stands after the name of
/// a struct, an enum or an alias; out of memory.
pub(crate) fn items<'s, 't>(
    alloc: Global,
    passage: Passage<'s, 't>,
) -> Result<Vec<ModuleItem<'s, 't>>, Fault>
    ensures { Gives (λ found. items_view found.items) (items (passage_view passage.entry)) result }
{
    let mut found = Vec::new(alloc);
    let mut around = Vec::new(alloc);
    let mut left = passage.after(attributes_len(true, passage.tokens));
    while !left.tokens.is_empty() {
        let len = piece_len(context_of(&around), left.tokens);
        let piece = piece(alloc, &around, left.up_to(len))?;
        follow(&mut found, &mut around, piece)?;
        left = left.after(len);
    }
    Ok(found)
}
