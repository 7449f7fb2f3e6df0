//! The types that a type mentions: itself, and those in it.
ghost use Rattle.std.specs.Prelude.{◌≡◌, IfOk, OnOk, map, option_map};
ghost use Rattle.std.specs.String.{string_bytes};
ghost use Rattle.facet_solver_types.specs.Layers.{head_view};
ghost use Rattle.facet_solver_types.specs.Mentions as of;
ghost use Rattle.facet_solver_types.specs.Mentions.{inside_view, mention_view};
ghost use Rattle.facet_solver_types.specs.Outcomes.{Gives};
ghost use Rattle.facet_solver_types.specs.Passages.{passage_view};
ghost use Rattle.facet_solver_types.specs.Scopes.{scope_view};
ghost use Rattle.facet_solver_types.specs.Tokens.{tokens_view};
ghost use Rattle.facet_solver_types.specs.TypeEntries.{entries_view, form_view};
ghost use Rattle.facet_solver_types.specs.Uses.{uses_view};

use super::id::{first, id_of, second, spaced};
use super::known::Applied;
use super::layer::{Head, Layer, Part, layer_at};
use super::scope::Scope;
use super::standards::{inner_entries, inner_ids};
use super::type_use::Use;
use crate::fault::Fault;
use crate::passage::Passage;
use crate::token::Token;
use crate::type_entry::{Form, TypeEntry};
use std::alloc::{AllocError, Global};

/// How many levels a type may have.
pub(super) const LEVELS: usize = 127;

/// How many bytes an id may have.
const LONGEST: usize = 4096;

/// A type that is mentioned.
#[derive(Drop)]
pub(crate) struct Mention {
    pub(crate) id: String,
    /// The type itself, and then those in it, each outer before inner. Declared ones are left out.
    pub(crate) entries: Vec<TypeEntry>,
    /// What is declared of these.
    pub(crate) uses: Vec<Use>,
}

/// The types that stand in one: their ids, and all that they mention.
#[derive(Drop)]
pub(super) struct Inside {
    pub(super) ids: Vec<String>,
    pub(super) entries: Vec<TypeEntry>,
    pub(super) uses: Vec<Use>,
}

/// A copy of ids.
pub(super) fn copied_ids(alloc: Global, ids: &[String]) -> Result<Vec<String>, AllocError>
    ensures { IfOk result (λ copy. map string_bytes copy.items ≡ map string_bytes ids.now) }
{
    let mut copy = Vec::new(alloc);
    for id in ids {
        copy.push(id.clone()?)?;
    }
    Ok(copy)
}

/// What a type is that takes others.
fn applied_form(alloc: Global, kind: Applied, ids: &[String]) -> Result<Form, AllocError>
    ensures { IfOk result (λ form. form_view form
        ≡ of.applied_form kind (map string_bytes ids.now)) }
{
    let inside = String::from_str(alloc, first(ids))?;
    Ok(match kind {
        Applied::Option => Form::Option(inside),
        Applied::List => Form::List(inside),
        Applied::Set => Form::Set(inside),
        Applied::Pointer => Form::Pointer(inside),
        Applied::Map => Form::Map(inside, String::from_str(alloc, second(ids))?),
    })
}

/// What a type is made of, unless it is another or a declared one.
fn form_of(alloc: Global, head: Head<'_, '_>, ids: &[String]) -> Result<Option<Form>, AllocError>
    ensures { IfOk result (λ form. option_map form_view form
        ≡ of.form_of (head_view head.entry) (map string_bytes ids.now)) }
{
    match head {
        Head::Same | Head::Bound(_) | Head::Declared(..) | Head::Alias(..) => Ok(None),
        Head::Scalar(_, kind) => Ok(Some(Form::Scalar(kind))),
        Head::Dynamic(_) => Ok(Some(Form::Dynamic)),
        Head::Applied(_, kind) => Ok(Some(applied_form(alloc, kind, ids)?)),
        Head::Standard(_, kind) => Ok(Some(Form::Standard(kind, inner_ids(alloc, kind, ids)?))),
        Head::Array(_) => Ok(Some(Form::Array(String::from_str(alloc, first(ids))?))),
        Head::Slice => Ok(Some(Form::Slice(String::from_str(alloc, first(ids))?))),
        Head::Tuple => Ok(Some(Form::Tuple(copied_ids(alloc, ids)?))),
    }
}

/// The entry of a type itself, if it has one.
fn own_entry(alloc: Global, id: &str, form: Option<Form>) -> Result<Vec<TypeEntry>, AllocError>
    ensures { IfOk result (λ entries. entries_view entries.items
        ≡ of.own_entry id.now (option_map form_view form)) }
{
    let mut entries = Vec::new(alloc);
    if let Some(form) = form {
        entries.push(TypeEntry {
            id: String::from_str(alloc, id)?,
            form,
        })?;
    }
    Ok(entries)
}

/// What stands in a type that is so outside whatever it takes, each outer before inner.
fn fixed_entries(alloc: Global, head: Head<'_, '_>) -> Result<Vec<TypeEntry>, AllocError>
    ensures { IfOk result (λ entries. entries_view entries.items
        ≡ of.fixed_entries (head_view head.entry)) }
{
    match head {
        Head::Standard(_, kind) => inner_entries(alloc, kind),
        _ => Ok(Vec::new(alloc)),
    }
}

/// The use of a declaration that a type itself is, if it is one.
fn own_use(
    alloc: Global,
    id: &str,
    head: Head<'_, '_>,
    ids: Vec<String>,
) -> Result<Vec<Use>, AllocError>
    ensures { IfOk result (λ uses. uses_view uses.items
        ≡ of.own_use id.now (head_view head.entry) (map string_bytes ids.items)) }
{
    let mut uses = Vec::new(alloc);
    if let Head::Declared(index, _) = head {
        uses.push(Use {
            index,
            id: String::from_str(alloc, id)?,
            arguments: ids,
        })?;
    }
    Ok(uses)
}

/// A type with those in it.
pub(super) fn mention_of(
    alloc: Global,
    scope: Scope<'_, '_>,
    head: Head<'_, '_>,
    inside: Inside,
) -> Result<Mention, Fault>
    ensures { Gives mention_view (of.mention_of (scope_view scope.entry) (head_view head.entry)
        (inside_view inside)) result }
{
    let Inside {
        ids,
        entries: mut inner_entries,
        uses: mut inner_uses,
    } = inside;
    let id = id_of(alloc, head, &ids)?;
    if id.len() > LONGEST {
        return Err(scope.too_deep());
    }
    let mut entries = own_entry(alloc, &id, form_of(alloc, head, &ids)?)?;
    let mut fixed = fixed_entries(alloc, head)?;
    let mut uses = own_use(alloc, &id, head, ids)?;
    entries.append(&mut fixed)?;
    entries.append(&mut inner_entries)?;
    uses.append(&mut inner_uses)?;
    Ok(Mention { id, entries, uses })
}

/// Adds a type to those that stand in one.
pub(super) fn add(inside: &mut Inside, mention: Mention) -> Result<(), AllocError>
    ensures { OnOk result
        (inside_view inside.new ≡ of.with_mention (inside_view inside.old) (mention_view mention)) }
{
    let Mention {
        id,
        mut entries,
        mut uses,
    } = mention;
    inside.ids.push(id)?;
    inside.entries.append(&mut entries)?;
    inside.uses.append(&mut uses)?;
    Ok(())
}

/// A type, behind those that stand in another.
fn behind(inside: Inside, mention: Mention) -> Result<Mention, AllocError>
    ensures { IfOk result (λ all. mention_view all
        ≡ of.behind (inside_view inside) (mention_view mention)) }
{
    let Inside {
        ids: _,
        mut entries,
        mut uses,
    } = inside;
    let Mention {
        id,
        entries: mut own_entries,
        uses: mut own_uses,
    } = mention;
    entries.append(&mut own_entries)?;
    uses.append(&mut own_uses)?;
    Ok(Mention { id, entries, uses })
}

/// The value that stands in a type, as if it were one.
fn value(alloc: Global, tokens: &[Token<'_>]) -> Result<Mention, AllocError>
    ensures { IfOk result (λ mention. mention_view mention
        ≡ of.value (tokens_view tokens.now)) }
{
    Ok(Mention {
        id: spaced(alloc, tokens)?,
        entries: Vec::new(alloc),
        uses: Vec::new(alloc),
    })
}

/// The types that a type mentions, which may have so many levels.
///
/// Errors: the first type in it that is none; more levels, or too long an id; out of memory.
pub(super) fn mentions<'d, 't>(
    alloc: Global,
    scope: Scope<'d, 't>,
    levels: usize,
    passage: Passage<'d, 't>,
) -> Result<Mention, Fault>
    ensures { Gives mention_view
        (of.mentions levels (scope_view scope.entry) (passage_view passage.entry)) result }
{
    if levels == 0 {
        return Err(scope.too_deep());
    }
    let Layer { head, parts } = layer_at(alloc, scope, passage)?;
    let mut inside = Inside {
        ids: Vec::new(alloc),
        entries: Vec::new(alloc),
        uses: Vec::new(alloc),
    };
    for part in &parts {
        let mention = match *part {
            Part::Type(passage) => mentions(alloc, scope, levels - 1, passage)?,
            Part::Value(tokens) => value(alloc, tokens)?,
        };
        add(&mut inside, mention)?;
    }
    match head {
        Head::Alias(site, parameters, written) => {
            let named = Scope {
                site,
                this: None,
                parameters,
                arguments: &inside.ids,
                is_root: false,
                ..scope
            };
            let mention = mentions(alloc, named, levels - 1, written)?;
            Ok(behind(inside, mention)?)
        }
        head => mention_of(alloc, scope, head, inside),
    }
}

/// The types that a whole type mentions.
pub(super) fn whole_type<'d, 't>(
    alloc: Global,
    scope: Scope<'d, 't>,
    passage: Passage<'d, 't>,
) -> Result<Mention, Fault>
    ensures { Gives mention_view
        (of.whole_type (scope_view scope.entry) (passage_view passage.entry)) result }
{
    let whole = Scope {
        begin: passage.place(),
        ..scope
    };
    mentions(alloc, whole, LEVELS, passage)
}
