//! The parameters of a struct, an enum or an alias, and what it asks of them.
ghost use Rattle.std.specs.Prelude.{◌≡◌, ◌<◌, ◌≤◌, ◌++◌, OnOk, length, option_map};
ghost use Rattle.std.specs.Option.{option_to_list};
ghost use Rattle.facet_solver_types.specs.Declarations.{parameter_view, parameters_view};
ghost use Rattle.facet_solver_types.specs.Outcomes.{Gives};
ghost use Rattle.facet_solver_types.specs.Parameters.{after_parameters, after_where, angles_len, in_angles, named_parameter, parameter, parameter_end, parameters, parameters_in};
ghost use Rattle.facet_solver_types.specs.Passages.{passage_view};
ghost use Rattle.facet_solver_types.specs.Tokens.{tokens_view};

use super::first::{sees_mark, sees_word};
use super::inside::name_at;
use super::prefixes::attributes_len;
use super::run::{Run, run_len};
use super::written::sees_lifetime;
use crate::fault::Fault;
use crate::item::Parameter;
use crate::passage::Passage;
use crate::problem::Expected;
use crate::token::Token;
use std::alloc::{AllocFailed, Global};

/// How many tokens the `<` and `>` that stand first have, with what stands in them, or 0.
pub(super) fn angles_len(tokens: &[Token<'_>]) -> usize
    ensures value { result ≡ angles_len (tokens_view tokens.now) }
    ensures within { result ≤ length tokens.now }
{
    if !sees_mark(b'<', tokens) {
        return 0;
    }
    let inside = run_len(Run::Angles, &tokens[1..]);
    if inside + 2 <= tokens.len() {
        inside + 2
    } else {
        tokens.len()
    }
}

/// What stands in the `<` that stands first and its `>`.
fn in_angles<'s, 't>(passage: Passage<'s, 't>) -> Result<Passage<'s, 't>, Fault>
    requires { 0 < length passage.tokens.now }
    ensures { Gives passage_view (in_angles (passage_view passage.entry)) result }
{
    let rest = passage.after(1);
    let len = run_len(Run::Angles, rest.tokens);
    let end = rest.after(len);
    if sees_mark(b'>', end.tokens) {
        Ok(rest.up_to(len))
    } else {
        Err(end.unexpected(Expected::ParameterEnd))
    }
}

/// A parameter may end here: nothing follows, or bounds, or a default.
fn parameter_end(passage: Passage<'_, '_>) -> Result<(), Fault>
    ensures { Gives (λ end. end) (parameter_end (passage_view passage.entry)) result }
{
    if passage.tokens.is_empty()
        || sees_mark(b':', passage.tokens)
        || sees_mark(b'=', passage.tokens)
    {
        Ok(())
    } else {
        Err(passage.unexpected(Expected::ParameterEnd))
    }
}

/// A parameter by the name that stands first. Its bounds and its default are not looked at.
fn named_parameter<'t>(is_const: bool, passage: Passage<'_, 't>) -> Result<Parameter<'t>, Fault>
    ensures { Gives parameter_view (named_parameter is_const (passage_view passage.entry)) result }
{
    let name = name_at(passage)?;
    parameter_end(passage.after(1))?;
    Ok(Parameter { name, is_const })
}

/// The parameter that a passage is, or nothing where it is a lifetime.
fn parameter<'t>(passage: Passage<'_, 't>) -> Result<Option<Parameter<'t>>, Fault>
    ensures { Gives (option_map parameter_view) (parameter (passage_view passage.entry)) result }
{
    let rest = passage.after(attributes_len(false, passage.tokens));
    if sees_lifetime(rest.tokens) {
        parameter_end(rest.after(1))?;
        return Ok(None);
    }
    if sees_word("const", rest.tokens) {
        return Ok(Some(named_parameter(true, rest.after(1))?));
    }
    Ok(Some(named_parameter(false, rest)?))
}

/// Adds a parameter, if there is one.
fn add<'t>(
    found: &mut Vec<Parameter<'t>>,
    parameter: Option<Parameter<'t>>,
) -> Result<(), AllocFailed<Parameter<'t>>>
    ensures { OnOk result (found.new.items ≡ found.old.items ++ option_to_list parameter.entry) }
{
    match parameter {
        Some(parameter) => found.push(parameter),
        None => Ok(()),
    }
}

/// The parameters between commas.
fn parameters_in<'t>(alloc: Global, passage: Passage<'_, 't>) -> Result<Vec<Parameter<'t>>, Fault>
    ensures { Gives (λ found. parameters_view found.items)
        (parameters_in (passage_view passage.entry)) result }
{
    let mut found = Vec::new(alloc);
    let mut left = passage;
    while !left.tokens.is_empty() {
        let len = run_len(Run::FieldType, left.tokens);
        let piece = parameter(left.up_to(len))?;
        add(&mut found, piece)?;
        left = left.after_comma(len);
    }
    Ok(found)
}

/// The parameters in the `<` and `>` that stand first, if they do. Lifetimes are none.
pub(super) fn parameters<'t>(
    alloc: Global,
    passage: Passage<'_, 't>,
) -> Result<Vec<Parameter<'t>>, Fault>
    ensures { Gives (λ found. parameters_view found.items)
        (parameters (passage_view passage.entry)) result }
{
    if !sees_mark(b'<', passage.tokens) {
        return Ok(Vec::new(alloc));
    }
    parameters_in(alloc, in_angles(passage)?)
}

/// What stands after the `<` and `>` that stand first, if they do.
pub(super) fn after_parameters<'s, 't>(passage: Passage<'s, 't>) -> Passage<'s, 't>
    ensures { passage_view result ≡ after_parameters (passage_view passage.entry) }
{
    passage.after(angles_len(passage.tokens))
}

/// What stands after the `where` that stands first, if it does, and what it asks.
pub(super) fn after_where<'s, 't>(passage: Passage<'s, 't>) -> Passage<'s, 't>
    ensures { passage_view result ≡ after_where (passage_view passage.entry) }
{
    if sees_word("where", passage.tokens) {
        passage.after(run_len(Run::Where, passage.tokens))
    } else {
        passage
    }
}
