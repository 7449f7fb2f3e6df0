//! What the type of a flattened field is: without the pointers to it, and as what it is read.
ghost use Rattle.std.specs.Prelude.{◌≡◌, [], map, option_map};
ghost use Rattle.std.specs.Option.{option_map_or};
ghost use Rattle.facet_solver_types.specs.Declarations.{parameters_view};
ghost use Rattle.facet_solver_types.specs.Flattened as of;
ghost use Rattle.facet_solver_types.specs.Flattened.{lead_view};
ghost use Rattle.facet_solver_types.specs.Layers.{head_view, layer_view, part_view};
ghost use Rattle.facet_solver_types.specs.Mentions.{alias_scope, mention_view};
ghost use Rattle.facet_solver_types.specs.Outcomes.{Gives};
ghost use Rattle.facet_solver_types.specs.Passages.{passage_view};
ghost use Rattle.facet_solver_types.specs.Scopes.{scope_view};
ghost use Rattle.facet_solver_types.specs.Sites.{site_view};
ghost use Rattle.facet_solver_types.specs.Understood.{declaration_view, declared_view};

use super::known::Applied;
use super::layer::{Head, Layer, Part, layer_at};
use super::mention::{Inside, LEVELS, Mention, add, mention_of, mentions};
use super::scope::Scope;
use crate::declaration::{Declaration, Declared};
use crate::fault::Fault;
use crate::item::Parameter;
use crate::passage::Passage;
use crate::site::Site;
use std::alloc::Global;

/// What a flattened type leads to.
#[derive(Clone, Copy)]
enum Lead<'d, 't> {
    /// The type that stands in it.
    Inside(Passage<'d, 't>),
    /// An option of the type that stands in it.
    Option(Passage<'d, 't>),
    /// What an alias in this module names with these parameters, or a declaration is read as.
    Named(Site<'t>, &'d [Parameter<'t>], Passage<'d, 't>),
    /// Nothing else.
    Itself,
}

/// The type that a part is, if it is one.
fn type_in<'d, 't>(part: Part<'d, 't>) -> Option<Passage<'d, 't>>
    ensures { option_map passage_view result ≡ of.type_in (part_view part.entry) }
{
    match part {
        Part::Type(passage) => Some(passage),
        Part::Value(_) => None,
    }
}

/// The type that stands in another alone, if one does.
fn only_type<'d, 't>(parts: &[Part<'d, 't>]) -> Option<Passage<'d, 't>>
    ensures { option_map passage_view result ≡ of.only_type (map part_view parts.now) }
{
    match parts {
        [part] => type_in(*part),
        _ => None,
    }
}

/// What a type leads to that is the one in it, or points to it.
fn inner_lead<'d, 't>(parts: &[Part<'d, 't>]) -> Lead<'d, 't>
    ensures { lead_view result
        ≡ option_map_or of.inside (of.only_type (map part_view parts.now)) of.itself }
{
    match only_type(parts) {
        Some(passage) => Lead::Inside(passage),
        None => Lead::Itself,
    }
}

/// What an option leads to.
fn option_lead<'d, 't>(parts: &[Part<'d, 't>]) -> Lead<'d, 't>
    ensures { lead_view result
        ≡ option_map_or of.option_of (of.only_type (map part_view parts.now)) of.itself }
{
    match only_type(parts) {
        Some(passage) => Lead::Option(passage),
        None => Lead::Itself,
    }
}

/// What a type leads to by what it makes of the one in it.
fn applied_lead<'d, 't>(kind: Applied, parts: &[Part<'d, 't>]) -> Lead<'d, 't>
    ensures { lead_view result ≡ of.applied_lead kind (map part_view parts.now) }
{
    match kind {
        Applied::Pointer => inner_lead(parts),
        Applied::Option => option_lead(parts),
        _ => Lead::Itself,
    }
}

/// What a type leads to in which nothing stands.
fn bare_lead<'d, 't>(lead: Lead<'d, 't>, parts: &[Part<'d, 't>]) -> Lead<'d, 't>
    ensures { lead_view result ≡ of.bare_lead (lead_view lead.entry) (map part_view parts.now) }
{
    match parts {
        [] => lead,
        _ => Lead::Itself,
    }
}

/// What is declared in a module leads to: the type that it is read as, if one attribute says it.
fn said_lead<'d, 't>(site: Site<'t>, declared: &'d Declared<'d, 't>) -> Lead<'d, 't>
    ensures { lead_view result ≡ of.said_lead (site_view site.entry) (declared_view declared.now) }
{
    match declared {
        Declared::Proxied(proxies) => match proxies.as_slice() {
            [proxy] => Lead::Named(site, &[], proxy.said.passage()),
            _ => Lead::Itself,
        },
        _ => Lead::Itself,
    }
}

/// What a declaration leads to that has no fault; one with some is looked at itself.
fn declared_lead<'d, 't>(declaration: &'d Declaration<'d, 't>) -> Lead<'d, 't>
    ensures { lead_view result ≡ of.declared_lead (declaration_view declaration.now) }
{
    if declaration.faults.is_empty() {
        said_lead(declaration.site, &declaration.declared)
    } else {
        Lead::Itself
    }
}

/// What the declaration at an index leads to.
fn lead_at<'d, 't>(scope: Scope<'d, 't>, index: usize) -> Lead<'d, 't>
    ensures { lead_view result ≡ of.lead_at (scope_view scope.entry) index }
{
    match scope.at(index) {
        Some(declaration) => declared_lead(declaration),
        None => Lead::Itself,
    }
}

/// What a type leads to.
fn lead_of<'d, 't>(scope: Scope<'d, 't>, layer: &Layer<'d, 't>) -> Lead<'d, 't>
    ensures { lead_view result ≡ of.lead_of (scope_view scope.entry) (layer_view layer.now) }
{
    let parts = layer.parts.as_slice();
    match layer.head {
        Head::Same => inner_lead(parts),
        Head::Applied(_, kind) => applied_lead(kind, parts),
        Head::Alias(site, parameters, written) => {
            bare_lead(Lead::Named(site, parameters, written), parts)
        }
        Head::Declared(index, _) => bare_lead(lead_at(scope, index), parts),
        _ => Lead::Itself,
    }
}

/// An option, or what is like it outside, of a type.
fn around(
    alloc: Global,
    scope: Scope<'_, '_>,
    head: Head<'_, '_>,
    mention: Mention,
) -> Result<Mention, Fault>
    ensures { Gives mention_view (of.around (scope_view scope.entry) (head_view head.entry)
        (mention_view mention)) result }
{
    let mut inside = Inside {
        ids: Vec::new(alloc),
        entries: Vec::new(alloc),
        uses: Vec::new(alloc),
    };
    add(&mut inside, mention)?;
    mention_of(alloc, scope, head, inside)
}

/// Where a type stands that is named in a module with these parameters, for which nothing stands.
fn scope_in<'d, 't>(
    scope: Scope<'d, 't>,
    site: Site<'t>,
    parameters: &'d [Parameter<'t>],
) -> Scope<'d, 't>
    ensures { scope_view result ≡ alias_scope (scope_view scope.entry) (site_view site.entry)
        (parameters_view parameters.now) [] }
{
    Scope {
        site,
        this: None,
        parameters,
        arguments: &[],
        is_root: false,
        ..scope
    }
}

/// What a flattened type mentions, which may have so many levels.
///
/// Errors: the first type in it that is none; more levels, or too long an id; out of memory.
fn members<'d, 't>(
    alloc: Global,
    scope: Scope<'d, 't>,
    levels: usize,
    passage: Passage<'d, 't>,
) -> Result<Mention, Fault>
    ensures { Gives mention_view
        (of.members levels (scope_view scope.entry) (passage_view passage.entry)) result }
{
    if levels == 0 {
        return Err(scope.too_deep());
    }
    let layer = layer_at(alloc, scope, passage)?;
    match lead_of(scope, &layer) {
        Lead::Inside(inside) => members(alloc, scope, levels - 1, inside),
        Lead::Option(inside) => {
            let mention = members(alloc, scope, levels - 1, inside)?;
            around(alloc, scope, layer.head, mention)
        }
        Lead::Named(site, parameters, written) => {
            let named = scope_in(scope, site, parameters);
            members(alloc, named, levels - 1, written)
        }
        Lead::Itself => mentions(alloc, scope, levels, passage),
    }
}

/// The types that the type of a flattened field mentions.
pub(super) fn flattened_type<'d, 't>(
    alloc: Global,
    scope: Scope<'d, 't>,
    passage: Passage<'d, 't>,
) -> Result<Mention, Fault>
    ensures { Gives mention_view
        (of.flattened_type (scope_view scope.entry) (passage_view passage.entry)) result }
{
    let whole = Scope {
        begin: passage.place(),
        ..scope
    };
    members(alloc, whole, LEVELS, passage)
}
