//! The values of attributes.
ghost use Rattle.std.specs.Prelude.{◌≡◌, option_map};
ghost use Rattle.facet_solver_types.specs.Entries.{entries_view, entry_view, value_view};
ghost use Rattle.facet_solver_types.specs.Outcomes.{Gives};
ghost use Rattle.facet_solver_types.specs.Passages.{passage_view};
ghost use Rattle.facet_solver_types.specs.Tokens.{token_view, tokens_view};
ghost use Rattle.facet_solver_types.specs.Values as values;

use super::meaning::Meaning;
use crate::fault::Fault;
use crate::grammar::{Entry, EntryValue, entries};
use crate::passage::Passage;
use crate::token::{Token, TokenKind};
use std::alloc::Global;

/// What an attribute takes.
#[derive(Clone, Copy, Debug, PartialEq, Eq)]
pub enum Form {
    /// Nothing.
    Nothing,
    /// Nothing, or some value after `=`.
    Default,
    /// A text after `=`.
    Text,
    /// A text after `=`, or one for each direction, in brackets.
    Names,
    /// A type after `=`.
    Type,
    /// Some value after `=`.
    Value,
    /// Anything.
    Anything,
}

/// The value of an attribute, as far as its meaning goes.
#[derive(Clone, Copy, Debug)]
pub(crate) enum Value<'s, 't> {
    /// None that says anything.
    None,
    /// This text.
    Text(Token<'t>),
    /// This type.
    Type(Passage<'s, 't>),
}

/// What an attribute of a meaning takes.
pub(crate) fn form_of(meaning: Meaning) -> Form
    ensures { result ≡ values.form_of meaning }
{
    match meaning {
        Meaning::Default => Form::Default,
        Meaning::Rename | Meaning::RenameAll | Meaning::RenameAllFields => Form::Names,
        Meaning::Tag | Meaning::Content | Meaning::With => Form::Text,
        Meaning::Proxy => Form::Type,
        Meaning::Metadata => Form::Value,
        Meaning::Nothing => Form::Anything,
        _ => Form::Nothing,
    }
}

/// Whether a token is a text, and neither a byte's nor C's.
fn is_text(kind: TokenKind) -> bool
    ensures { result ≡ values.is_text kind }
{
    matches!(kind, TokenKind::Text | TokenKind::RawText)
}

/// The text that some tokens are.
pub(crate) fn only_text<'t>(tokens: &[Token<'t>]) -> Option<Token<'t>>
    ensures { option_map token_view result ≡ values.only_text (tokens_view tokens.now) }
{
    match tokens {
        [token] if is_text(token.kind) => Some(*token),
        _ => None,
    }
}

/// The text after `=`.
fn text_after<'t>(value: EntryValue<'_, 't>) -> Option<Token<'t>>
    ensures { option_map token_view result ≡ values.text_after (value_view value.entry) }
{
    match value {
        EntryValue::Is(passage) => only_text(passage.tokens),
        _ => None,
    }
}

/// Whether an entry has a name.
fn is_said(name: &str, entry: &Entry<'_, '_>) -> bool
    ensures { result ≡ values.is_said name.now (entry_view entry.now) }
{
    entry.qualifier.is_none() && entry.name.text == name
}

/// What an entry says of the name for reading, by what those before it said: that of `deserialize`,
/// which stands once at most; `serialize` says nothing. `None` where it is another.
fn then_name<'t>(found: Option<Token<'t>>, entry: &Entry<'_, 't>) -> Option<Option<Token<'t>>>
    ensures { option_map (λ name. option_map token_view name) result
        ≡ values.then_name (option_map token_view found.entry) (entry_view entry.now) }
{
    if is_said("serialize", entry) {
        return Some(found);
    }
    if found.is_some() || !is_said("deserialize", entry) {
        return None;
    }
    Some(Some(text_after(entry.value)?))
}

/// The name for reading, if there is one, among those of both directions; `None` where something
/// else is among them.
fn read_name<'t>(entries: &[Entry<'_, 't>]) -> Option<Option<Token<'t>>>
    ensures { option_map (λ name. option_map token_view name) result
        ≡ values.read_name (entries_view entries.now) }
{
    let mut found = None;
    for entry in entries {
        found = then_name(found, entry)?;
    }
    Some(found)
}

/// The value of an attribute that takes this; `None` where it takes something else. A list of names
/// is not looked into.
fn plain_value<'s, 't>(form: Form, value: EntryValue<'s, 't>) -> Option<Value<'s, 't>>
    ensures { option_map values.value_view result
        ≡ values.plain_value form (value_view value.entry) }
{
    match form {
        Form::Text | Form::Names => Some(Value::Text(text_after(value)?)),
        Form::Anything => Some(Value::None),
        _ => simple_value(form, value),
    }
}

/// A value after `=`, which says nothing; `None` where nothing stands there.
fn some_value<'s, 't>(passage: Passage<'s, 't>) -> Option<Value<'s, 't>>
    ensures { option_map values.value_view result
        ≡ values.some_value (passage_view passage.entry).tokens }
{
    if passage.tokens.is_empty() {
        None
    } else {
        Some(Value::None)
    }
}

/// The same of what takes neither a text nor everything.
fn simple_value<'s, 't>(form: Form, value: EntryValue<'s, 't>) -> Option<Value<'s, 't>>
    ensures { option_map values.value_view result
        ≡ values.simple_value form (value_view value.entry) }
{
    match (form, value) {
        (Form::Nothing | Form::Default, EntryValue::None) => Some(Value::None),
        (Form::Default | Form::Value, EntryValue::Is(passage)) => some_value(passage),
        (Form::Type, EntryValue::Is(passage)) => Some(Value::Type(passage)),
        _ => None,
    }
}

/// A name, if there is one.
fn name_value<'s, 't>(name: Option<Token<'t>>) -> Value<'s, 't>
    ensures { values.value_view result ≡ values.name_value (option_map token_view name.entry) }
{
    match name {
        Some(token) => Value::Text(token),
        None => Value::None,
    }
}

/// The value of an attribute that takes this; `None` where it takes something else.
///
/// Errors: what else stands where the list of names has an entry; out of memory.
pub(crate) fn value_of<'s, 't>(
    alloc: Global,
    form: Form,
    value: EntryValue<'s, 't>,
) -> Result<Option<Value<'s, 't>>, Fault>
    ensures { Gives (option_map values.value_view)
        (values.value_of form (value_view value.entry)) result }
{
    match (form, value) {
        (Form::Names, EntryValue::Holds(list)) => {
            let names = entries(alloc, list)?;
            Ok(read_name(&names).map(|name| name_value(name)))
        }
        _ => Ok(plain_value(form, value)),
    }
}
