//! The fields of structs and variants.
ghost use Rattle.std.specs.Prelude.{◌≡◌, option_map};
ghost use Rattle.facet_solver_types.specs.Declarations.{field_view, fields_view};
ghost use Rattle.facet_solver_types.specs.Fields.{after_colon, after_prefix, attributes, field, field_of, fields, named_field, tuple_field};
ghost use Rattle.facet_solver_types.specs.Outcomes.{Gives};
ghost use Rattle.facet_solver_types.specs.Passages.{passage_view};
ghost use Rattle.facet_solver_types.specs.Tokens.{token_view, tokens_view};

use super::first::sees_mark;
use super::inside::name_at;
use super::prefixes::{attributes_len, visibility_len};
use super::run::{Run, run_len};
use crate::fault::Fault;
use crate::item::FieldDeclaration;
use crate::passage::Passage;
use crate::problem::Expected;
use crate::token::Token;
use std::alloc::Global;

/// The tokens of the attributes that stand first.
pub(super) fn attributes<'s, 't>(passage: Passage<'s, 't>) -> &'s [Token<'t>]
    ensures { tokens_view result.now ≡ attributes (passage_view passage.entry) }
{
    &passage.tokens[..attributes_len(false, passage.tokens)]
}

/// What stands after attributes, and after `pub` where it may stand.
pub(super) fn after_prefix<'s, 't>(may_be_public: bool, passage: Passage<'s, 't>) -> Passage<'s, 't>
    ensures { passage_view result ≡ after_prefix may_be_public (passage_view passage.entry) }
{
    let rest = passage.after(attributes_len(false, passage.tokens));
    if may_be_public {
        rest.after(visibility_len(rest.tokens))
    } else {
        rest
    }
}

/// The field of this name, if any, with this type, which has some tokens.
fn field_of<'s, 't>(
    passage: Passage<'s, 't>,
    name: Option<Token<'t>>,
    written: Passage<'s, 't>,
) -> Result<FieldDeclaration<'s, 't>, Fault>
    ensures { Gives field_view
        (field_of (passage_view passage.entry) (option_map token_view name.entry)
        (passage_view written.entry)) result }
{
    if written.tokens.is_empty() {
        return Err(written.unexpected(Expected::FieldType));
    }
    Ok(FieldDeclaration {
        attributes: attributes(passage),
        name,
        written,
    })
}

/// The type of a field, after a colon.
fn after_colon<'s, 't>(passage: Passage<'s, 't>) -> Result<Passage<'s, 't>, Fault>
    ensures { Gives passage_view (after_colon (passage_view passage.entry)) result }
{
    if sees_mark(b':', passage.tokens) {
        Ok(passage.after(1))
    } else {
        Err(passage.unexpected(Expected::Colon))
    }
}

/// A field in `{ }`: attributes, `pub` where it may stand, a name, a colon and a type.
#[tactic(auto, unfolding(crate::specs::Fields::named_field))]
fn named_field<'s, 't>(
    may_be_public: bool,
    passage: Passage<'s, 't>,
) -> Result<FieldDeclaration<'s, 't>, Fault>
    ensures { Gives field_view (named_field may_be_public (passage_view passage.entry)) result }
{
    let rest = after_prefix(may_be_public, passage);
    let name = name_at(rest)?;
    let written = after_colon(rest.after(1))?;
    field_of(passage, Some(name), written)
}

/// A field in `( )`: attributes, `pub` where it may stand, and a type.
fn tuple_field<'s, 't>(
    may_be_public: bool,
    passage: Passage<'s, 't>,
) -> Result<FieldDeclaration<'s, 't>, Fault>
    ensures { Gives field_view (tuple_field may_be_public (passage_view passage.entry)) result }
{
    field_of(passage, None, after_prefix(may_be_public, passage))
}

/// A field with a name or without.
fn field<'s, 't>(
    has_name: bool,
    may_be_public: bool,
    passage: Passage<'s, 't>,
) -> Result<FieldDeclaration<'s, 't>, Fault>
    ensures { Gives field_view (field has_name may_be_public (passage_view passage.entry)) result }
{
    if has_name {
        named_field(may_be_public, passage)
    } else {
        tuple_field(may_be_public, passage)
    }
}

/// The fields between commas.
pub(super) fn fields<'s, 't>(
    alloc: Global,
    has_names: bool,
    may_be_public: bool,
    passage: Passage<'s, 't>,
) -> Result<Vec<FieldDeclaration<'s, 't>>, Fault>
    ensures { Gives (λ found. fields_view found.items)
        (fields has_names may_be_public (passage_view passage.entry)) result }
{
    let mut found = Vec::new(alloc);
    let mut left = passage;
    while !left.tokens.is_empty() {
        let len = run_len(Run::FieldType, left.tokens);
        found.push(field(has_names, may_be_public, left.up_to(len))?)?;
        left = left.after_comma(len);
    }
    Ok(found)
}
