//! The types that declarations mention: those of fields, and those as which something is read.
ghost use Rattle.std.specs.Prelude.{◌≡◌, IfOk, OnOk, Result, map};
ghost use Rattle.facet_solver_types.specs.declared.fault.Fault as faults;
ghost use Rattle.facet_solver_types.specs.FieldTypes as of;
ghost use Rattle.facet_solver_types.specs.FieldTypes.{group_view, groups_view};
ghost use Rattle.facet_solver_types.specs.Mentions as mentions;
ghost use Rattle.facet_solver_types.specs.Mentions.{mention_view};
ghost use Rattle.facet_solver_types.specs.Outcomes.{Gives, outcome_view};
ghost use Rattle.facet_solver_types.specs.Scopes.{scope_view};
ghost use Rattle.facet_solver_types.specs.Understood.{declared_view, field_view, proxy_view, variant_view};

use super::flattened::flattened_type;
use super::mention::{Mention, whole_type};
use super::scope::Scope;
use super::type_use::Use;
use crate::declaration::{Declared, DeclaredField, DeclaredVariant, Proxy};
use crate::fault::Fault;
use crate::problem::Problem;
use crate::type_entry::TypeEntry;
use crate::type_problem::TypeProblem;
use std::alloc::{AllocError, Global};

/// The types of some fields, as far as they have no fault.
#[derive(Drop)]
struct Group {
    /// The types by their ids.
    ids: Vec<String>,
    /// The entries of all types that they mention.
    entries: Vec<TypeEntry>,
    /// What is declared of these.
    uses: Vec<Use>,
    /// The faults of the other types.
    faults: Vec<Fault>,
}

/// The types of the fields of each variant, as far as they have no fault.
#[derive(Drop)]
pub(super) struct Groups {
    /// The types by their ids.
    pub(super) types: Vec<Vec<String>>,
    /// The entries of all types that they mention.
    pub(super) entries: Vec<TypeEntry>,
    /// What is declared of these.
    pub(super) uses: Vec<Use>,
    /// The faults of the other types.
    pub(super) faults: Vec<Fault>,
}

/// No types.
fn no_group(alloc: Global) -> Group
    ensures { group_view result ≡ of.no_group }
{
    Group {
        ids: Vec::new(alloc),
        entries: Vec::new(alloc),
        uses: Vec::new(alloc),
        faults: Vec::new(alloc),
    }
}

/// No lists of types.
pub(super) fn no_groups(alloc: Global) -> Groups
    ensures { groups_view result ≡ of.no_groups }
{
    Groups {
        types: Vec::new(alloc),
        entries: Vec::new(alloc),
        uses: Vec::new(alloc),
        faults: Vec::new(alloc),
    }
}

/// Adds a type, or its fault.
fn add_type(group: &mut Group, outcome: Result<Mention, Fault>) -> Result<(), AllocError>
    ensures { OnOk result (group_view group.new
        ≡ of.with_type (group_view group.old) (outcome_view mention_view outcome)) }
{
    match outcome {
        Ok(mention) => {
            let Mention {
                id,
                mut entries,
                mut uses,
            } = mention;
            group.ids.push(id)?;
            group.entries.append(&mut entries)?;
            group.uses.append(&mut uses)?;
        }
        Err(fault) => group.faults.push(fault)?,
    }
    Ok(())
}

/// Adds a list of types.
fn add_group(groups: &mut Groups, group: Group) -> Result<(), AllocError>
    ensures { OnOk result (groups_view groups.new
        ≡ of.with_group (groups_view groups.old) (group_view group)) }
{
    let Group {
        ids,
        mut entries,
        mut uses,
        mut faults,
    } = group;
    groups.types.push(ids)?;
    groups.entries.append(&mut entries)?;
    groups.uses.append(&mut uses)?;
    groups.faults.append(&mut faults)?;
    Ok(())
}

/// What an attribute says is the type of this id.
fn agrees<'d, 't>(
    alloc: Global,
    scope: Scope<'d, 't>,
    id: &str,
    proxy: &'d Proxy<'d, 't>,
) -> Result<(), Fault>
    ensures { Gives (λ end. end)
        (of.agrees (scope_view scope.entry) id.now (proxy_view proxy.now)) result }
{
    let mention = whole_type(alloc, scope, proxy.said.passage())?;
    if mention.id.as_str() == id {
        Ok(())
    } else {
        Err(Fault::At {
            offset: proxy.offset,
            problem: Problem::OfType(TypeProblem::OtherType),
        })
    }
}

/// What each of some attributes says is the type of this id.
fn all_agree<'d, 't>(
    alloc: Global,
    scope: Scope<'d, 't>,
    id: &str,
    proxies: &'d [Proxy<'d, 't>],
) -> Result<(), Fault>
    ensures { Gives (λ end. end)
        (of.all_agree (scope_view scope.entry) id.now (map proxy_view proxies.now)) result }
{
    for proxy in proxies {
        agrees(alloc, scope, id, proxy)?;
    }
    Ok(())
}

/// The type that some attributes say: all say the same.
fn proxied_type<'d, 't>(
    alloc: Global,
    scope: Scope<'d, 't>,
    first: &'d Proxy<'d, 't>,
    others: &'d [Proxy<'d, 't>],
) -> Result<Mention, Fault>
    ensures { Gives mention_view (of.proxied_type (scope_view scope.entry)
        (proxy_view first.now) (map proxy_view others.now)) result }
{
    let mention = whole_type(alloc, scope, first.said.passage())?;
    all_agree(alloc, scope, mention.id.as_str(), others)?;
    Ok(mention)
}

/// The type of a field as it is written.
fn written_type<'d, 't>(
    alloc: Global,
    scope: Scope<'d, 't>,
    field: &'d DeclaredField<'d, 't>,
) -> Result<Mention, Fault>
    ensures { Gives mention_view
        (of.written_type (scope_view scope.entry) (field_view field.now)) result }
{
    match field.flattened {
        Some(_) => flattened_type(alloc, scope, field.written),
        None => whole_type(alloc, scope, field.written),
    }
}

/// The type of a field: the written one is not looked at where an attribute says another.
fn field_type<'d, 't>(
    alloc: Global,
    scope: Scope<'d, 't>,
    field: &'d DeclaredField<'d, 't>,
) -> Result<Mention, Fault>
    ensures { Gives mention_view
        (of.field_type (scope_view scope.entry) (field_view field.now)) result }
{
    match field.proxies.split_first() {
        None => written_type(alloc, scope, field),
        Some((first, others)) => proxied_type(alloc, scope, first, others),
    }
}

/// The outcome for a type, unless memory was refused.
fn settled(outcome: Result<Mention, Fault>) -> Result<Result<Mention, Fault>, AllocError>
    ensures { IfOk result (λ settled. (real : Result mentions.Mention faults.Fault)
        → Gives mention_view real outcome → real ≡ outcome_view mention_view settled) }
{
    match outcome {
        Ok(mention) => Ok(Ok(mention)),
        Err(Fault::OutOfMemory) => Err(AllocError),
        Err(fault) => Ok(Err(fault)),
    }
}

/// The type of a field, or its fault.
fn field_outcome<'d, 't>(
    alloc: Global,
    scope: Scope<'d, 't>,
    field: &'d DeclaredField<'d, 't>,
) -> Result<Result<Mention, Fault>, AllocError>
    ensures { IfOk result (λ outcome. outcome_view mention_view outcome
        ≡ of.field_type (scope_view scope.entry) (field_view field.now)) }
{
    settled(field_type(alloc, scope, field))
}

/// The types of some fields.
fn field_types<'d, 't>(
    alloc: Global,
    scope: Scope<'d, 't>,
    fields: &'d [DeclaredField<'d, 't>],
) -> Result<Group, AllocError>
    ensures { IfOk result (λ group. group_view group
        ≡ of.field_types (scope_view scope.entry) (map field_view fields.now)) }
{
    let mut group = no_group(alloc);
    for field in fields {
        add_type(&mut group, field_outcome(alloc, scope, field)?)?;
    }
    Ok(group)
}

/// The types of the fields of each variant.
fn variant_types<'d, 't>(
    alloc: Global,
    scope: Scope<'d, 't>,
    variants: &'d [DeclaredVariant<'d, 't>],
) -> Result<Groups, AllocError>
    ensures { IfOk result (λ groups. groups_view groups
        ≡ of.variant_types (scope_view scope.entry) (map variant_view variants.now)) }
{
    let mut groups = no_groups(alloc);
    for variant in variants {
        add_group(&mut groups, field_types(alloc, scope, &variant.fields)?)?;
    }
    Ok(groups)
}

/// One list of types.
fn one_group(alloc: Global, group: Group) -> Result<Groups, AllocError>
    ensures { IfOk result (λ groups. groups_view groups ≡ of.one_group (group_view group)) }
{
    let mut groups = no_groups(alloc);
    add_group(&mut groups, group)?;
    Ok(groups)
}

/// The type as which something is read, or its fault.
fn proxied_outcome<'d, 't>(
    alloc: Global,
    scope: Scope<'d, 't>,
    first: &'d Proxy<'d, 't>,
    others: &'d [Proxy<'d, 't>],
) -> Result<Result<Mention, Fault>, AllocError>
    ensures { IfOk result (λ outcome. outcome_view mention_view outcome
        ≡ of.proxied_type (scope_view scope.entry) (proxy_view first.now)
        (map proxy_view others.now)) }
{
    settled(proxied_type(alloc, scope, first, others))
}

/// The type as which something is read.
fn proxy_types<'d, 't>(
    alloc: Global,
    scope: Scope<'d, 't>,
    proxies: &'d [Proxy<'d, 't>],
) -> Result<Groups, AllocError>
    ensures { IfOk result (λ groups. groups_view groups
        ≡ of.proxy_types (scope_view scope.entry) (map proxy_view proxies.now)) }
{
    let Some((first, others)) = proxies.split_first() else {
        return Ok(no_groups(alloc));
    };
    let mut group = no_group(alloc);
    add_type(&mut group, proxied_outcome(alloc, scope, first, others)?)?;
    one_group(alloc, group)
}

/// The types that a declaration mentions, as far as they have no fault, and the faults of the
/// others: a type that is none, or that two attributes of one subject say differently. An alias is
/// looked at where it is named.
pub(super) fn declared_types<'d, 't>(
    alloc: Global,
    scope: Scope<'d, 't>,
    declared: &'d Declared<'d, 't>,
) -> Result<Groups, AllocError>
    ensures { IfOk result (λ groups. groups_view groups
        ≡ of.declared_types (scope_view scope.entry) (declared_view declared.now)) }
{
    match declared {
        Declared::Struct { fields, .. } => {
            let group = field_types(alloc, scope, fields)?;
            one_group(alloc, group)
        }
        Declared::Enum { variants, .. } => variant_types(alloc, scope, variants),
        Declared::Proxied(proxies) => proxy_types(alloc, scope, proxies),
        Declared::Alias(_) | Declared::Home | Declared::Elsewhere | Declared::Unread => {
            Ok(no_groups(alloc))
        }
    }
}
