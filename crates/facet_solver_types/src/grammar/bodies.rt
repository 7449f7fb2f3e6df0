//! What stands in the brackets of structs, enums and variants.
ghost use Rattle.std.specs.Prelude.{◌≡◌};
ghost use Rattle.facet_solver_types.specs.Bodies.{after_body, body_at, braces, struct_end, variant, variant_end, variants};
ghost use Rattle.facet_solver_types.specs.Declarations.{body_view, variant_view, variants_view};
ghost use Rattle.facet_solver_types.specs.Outcomes.{Gives};
ghost use Rattle.facet_solver_types.specs.Passages.{passage_view};

use super::fields::{attributes, fields};
use super::first::{sees_mark, sees_open};
use super::inside::{inside, name_at};
use super::prefixes::attributes_len;
use super::run::{Run, group_len, run_len};
use crate::fault::Fault;
use crate::item::{Body, VariantDeclaration};
use crate::passage::Passage;
use crate::problem::Expected;
use crate::token::Bracket;
use std::alloc::Global;

/// The fields that stand first, in `{ }` or `( )`, or none.
pub(super) fn body_at<'s, 't>(
    alloc: Global,
    may_be_public: bool,
    passage: Passage<'s, 't>,
) -> Result<Body<'s, 't>, Fault>
    ensures { Gives body_view (body_at may_be_public (passage_view passage.entry)) result }
{
    if sees_open(Bracket::Curly, passage.tokens) {
        let found = fields(alloc, true, may_be_public, inside(passage))?;
        return Ok(Body::Named(found));
    }
    if sees_open(Bracket::Round, passage.tokens) {
        let found = fields(alloc, false, may_be_public, inside(passage))?;
        return Ok(Body::Tuple(found));
    }
    Ok(Body::Unit)
}

/// What stands after the fields that stand first.
pub(super) fn after_body<'s, 't>(passage: Passage<'s, 't>) -> Passage<'s, 't>
    ensures { passage_view result ≡ after_body (passage_view passage.entry) }
{
    if sees_open(Bracket::Curly, passage.tokens) || sees_open(Bracket::Round, passage.tokens) {
        passage.after(group_len(passage.tokens))
    } else {
        passage
    }
}

/// A variant may end here: nothing follows, or a value.
fn variant_end(passage: Passage<'_, '_>) -> Result<(), Fault>
    ensures { Gives (λ end. end) (variant_end (passage_view passage.entry)) result }
{
    if passage.tokens.is_empty() || sees_mark(b'=', passage.tokens) {
        Ok(())
    } else {
        Err(passage.unexpected(Expected::VariantEnd))
    }
}

/// A variant: attributes, a name, fields if any, and a value if any.
#[tactic(auto, unfolding(crate::specs::Bodies::variant))]
fn variant<'s, 't>(
    alloc: Global,
    passage: Passage<'s, 't>,
) -> Result<VariantDeclaration<'s, 't>, Fault>
    ensures { Gives variant_view (variant (passage_view passage.entry)) result }
{
    let rest = passage.after(attributes_len(false, passage.tokens));
    let name = name_at(rest)?;
    let fields = rest.after(1);
    let body = body_at(alloc, false, fields)?;
    variant_end(after_body(fields))?;
    Ok(VariantDeclaration {
        attributes: attributes(passage),
        name,
        body,
    })
}

/// The variants between commas.
pub(super) fn variants<'s, 't>(
    alloc: Global,
    passage: Passage<'s, 't>,
) -> Result<Vec<VariantDeclaration<'s, 't>>, Fault>
    ensures { Gives (λ found. variants_view found.items) (variants (passage_view passage.entry))
        result }
{
    let mut found = Vec::new(alloc);
    let mut left = passage;
    while !left.tokens.is_empty() {
        let len = run_len(Run::Value, left.tokens);
        found.push(variant(alloc, left.up_to(len))?)?;
        left = left.after_comma(len);
    }
    Ok(found)
}

/// A struct may end here: with `}`, or before `;`.
pub(super) fn struct_end(body: &Body<'_, '_>, passage: Passage<'_, '_>) -> Result<(), Fault>
    ensures { Gives (λ end. end) (struct_end (body_view body.now) (passage_view passage.entry))
        result }
{
    let expected = match body {
        Body::Named(_) => return Ok(()),
        Body::Unit => Expected::Body,
        Body::Tuple(_) => Expected::Semicolon,
    };
    if sees_mark(b';', passage.tokens) {
        Ok(())
    } else {
        Err(passage.unexpected(expected))
    }
}

/// What stands in the braces that stand first.
pub(super) fn braces<'s, 't>(passage: Passage<'s, 't>) -> Result<Passage<'s, 't>, Fault>
    ensures { Gives passage_view (braces (passage_view passage.entry)) result }
{
    if sees_open(Bracket::Curly, passage.tokens) {
        Ok(inside(passage))
    } else {
        Err(passage.unexpected(Expected::Braces))
    }
}
