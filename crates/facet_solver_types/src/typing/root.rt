//! The type as which documents are read.
ghost use Rattle.std.specs.Prelude.{◌≡◌, ◌+◌, IfOk, option_map};
ghost use Rattle.facet_solver_types.specs.AllDeclarations.{all_view};
ghost use Rattle.facet_solver_types.specs.Failures.{Leads};
ghost use Rattle.facet_solver_types.specs.Mentions.{mention_view};
ghost use Rattle.facet_solver_types.specs.NamedRoots as of;
ghost use Rattle.facet_solver_types.specs.Outcomes.{Gives};
ghost use Rattle.facet_solver_types.specs.Passages.{passage_view};
ghost use Rattle.facet_solver_types.specs.Scopes.{scope_view, str_view};
ghost use Rattle.facet_solver_types.specs.Tokens.{token_view, tokens_view};

use super::mention::{Mention, whole_type};
use super::roots::only_root;
use super::scope::Scope;
use crate::failure::Failure;
use crate::fault::Fault;
use crate::named_declarations::NamedDeclarations;
use crate::passage::Passage;
use crate::site::top;
use crate::token::Token;
use crate::tokens::tokens;
use std::alloc::{AllocError, Global};

/// An offset behind so many bytes.
///
/// The only error is out of memory: no text has so many.
fn moved(base: usize, offset: usize) -> Result<usize, AllocError>
    ensures { IfOk result (λ moved. moved ≡ base + offset) }
{
    match base.checked_add(offset) {
        Some(moved) => Ok(moved),
        None => Err(AllocError),
    }
}

/// A fault behind so many bytes.
fn moved_fault(base: usize, fault: Fault) -> Result<Fault, AllocError>
    ensures { IfOk result (λ moved. moved ≡ of.moved_fault base fault) }
{
    match fault {
        Fault::At { offset, problem } => Ok(Fault::At {
            offset: moved(base, offset)?,
            problem,
        }),
        _ => Ok(fault),
    }
}

/// Tokens behind so many bytes.
fn moved_tokens<'t>(
    alloc: Global,
    base: usize,
    tokens: &[Token<'t>],
) -> Result<Vec<Token<'t>>, AllocError>
    ensures { IfOk result (λ moved. tokens_view moved.items
        ≡ of.moved_tokens base (tokens_view tokens.now)) }
{
    let mut found = Vec::new(alloc);
    for token in tokens {
        found.push(Token {
            offset: moved(base, token.offset)?,
            ..*token
        })?;
    }
    Ok(found)
}

/// The tokens of a root behind so many bytes.
fn root_tokens<'t>(alloc: Global, base: usize, root: &'t str) -> Result<Vec<Token<'t>>, Fault>
    ensures { Gives (λ found. tokens_view found.items) (of.root_tokens base root.now) result }
{
    match tokens(alloc, root) {
        Ok(found) => Ok(moved_tokens(alloc, base, &found)?),
        Err(fault) => Err(moved_fault(base, fault)?),
    }
}

/// The type that a passage names among declarations.
fn passage_type<'t>(
    alloc: Global,
    declarations: NamedDeclarations<'_, 't>,
    passage: Passage<'_, 't>,
) -> Result<Mention, Fault>
    ensures { Gives mention_view (of.passage_type (all_view declarations.entry)
        (passage_view passage.entry)) result }
{
    let scope = Scope {
        declarations,
        site: top(),
        this: None,
        parameters: &[],
        arguments: &[],
        begin: 0,
        is_root: true,
    };
    whole_type(alloc, scope, passage)
}

/// The type that a root names among declarations, whose tokens stand behind so many bytes.
fn named_root<'t>(
    alloc: Global,
    declarations: NamedDeclarations<'_, 't>,
    base: usize,
    root: &'t str,
) -> Result<Mention, Fault>
    ensures { Gives mention_view
        (of.named_root (all_view declarations.entry) base root.now) result }
{
    let tokens = root_tokens(alloc, base, root)?;
    let passage = Passage {
        tokens: &tokens,
        end: moved(base, root.len())?,
    };
    passage_type(alloc, declarations, passage)
}

/// The type as which documents are read: the one that a root names, whose tokens stand behind those
/// of a text of so many bytes; or else the only one that stands by itself.
///
/// Errors: why the root names none; those that stand by themselves, if there is not just one; out
/// of memory.
pub(crate) fn root_type<'t>(
    alloc: Global,
    declarations: NamedDeclarations<'_, 't>,
    base: usize,
    root: Option<&'t str>,
) -> Result<Mention, Failure>
    ensures { Leads mention_view (of.root_type (all_view declarations.entry) base
        (option_map str_view root.entry)) result }
{
    match root {
        Some(root) => match named_root(alloc, declarations, base, root) {
            Ok(mention) => Ok(mention),
            Err(Fault::OutOfMemory) => Err(Failure::Text(Fault::OutOfMemory)),
            Err(fault) => Err(Failure::Root(fault)),
        },
        None => only_root(alloc, declarations),
    }
}
