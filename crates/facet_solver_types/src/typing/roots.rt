//! The type as which documents are read.
ghost use Rattle.std.specs.Prelude.{◌≡◌, ◌++◌, IfOk, OnOk, map, option_map};
ghost use Rattle.std.specs.String.{string_bytes};
ghost use Rattle.facet_solver_types.specs.AllDeclarations.{all_view};
ghost use Rattle.facet_solver_types.specs.Declarations.{parameters_view};
ghost use Rattle.facet_solver_types.specs.Failures.{Leads};
ghost use Rattle.facet_solver_types.specs.Links.{links_view};
ghost use Rattle.facet_solver_types.specs.Mentions.{mention_view};
ghost use Rattle.facet_solver_types.specs.PlacedNames.{names_in};
ghost use Rattle.facet_solver_types.specs.Roots as of;
ghost use Rattle.facet_solver_types.specs.Scopes.{str_view};
ghost use Rattle.facet_solver_types.specs.Understood.{declaration_view, declarations_view, declared_view};
ghost use Rattle.facet_solver_types.specs.Uses.{use_view, uses_view};

use super::called::{by_name, called_among};
use super::field_types::Groups;
use super::id::used_id;
use super::meant::is_outside;
use super::mention::{Mention, copied_ids};
use super::mentioned::Mentioned;
use super::takings::is_taking;
use super::type_use::Use;
use super::uses::use_types;
use crate::declaration::{Declaration, Declared};
use crate::failure::Failure;
use crate::fault::Fault;
use crate::item::Parameter;
use crate::modules::is_of_stand_ins;
use crate::name_places::NamePlaces;
use crate::named_declarations::NamedDeclarations;
use crate::problem::Problem;
use crate::type_problem::TypeProblem;
use std::alloc::{AllocError, Global};

/// The names of parameters.
fn parameter_names(alloc: Global, parameters: &[Parameter<'_>]) -> Result<Vec<String>, AllocError>
    ensures { IfOk result (λ names. map string_bytes names.items
        ≡ of.parameter_names (parameters_view parameters.now)) }
{
    let mut names = Vec::new(alloc);
    for parameter in parameters {
        names.push(String::from_str(alloc, parameter.name.text)?)?;
    }
    Ok(names)
}

/// The use of the declaration at an index in which each parameter stands for itself.
fn own_use(
    alloc: Global,
    index: usize,
    declaration: &Declaration<'_, '_>,
) -> Result<Use, AllocError>
    ensures { IfOk result (λ u. use_view u
        ≡ of.own_use index (declaration_view declaration.now)) }
{
    let arguments = parameter_names(alloc, &declaration.parameters)?;
    Ok(Use {
        index,
        id: used_id(alloc, by_name(declaration), &arguments)?,
        arguments,
    })
}

/// The uses of declarations in which each parameter stands for itself.
fn own_uses(alloc: Global, declarations: &[Declaration<'_, '_>]) -> Result<Vec<Use>, AllocError>
    ensures { IfOk result (λ uses. uses_view uses.items
        ≡ of.own_uses (declarations_view declarations.now)) }
{
    let mut uses = Vec::new(alloc);
    for (index, declaration) in declarations.iter().enumerate() {
        uses.push(own_use(alloc, index, declaration)?)?;
    }
    Ok(uses)
}

/// The indices of the declarations of uses.
fn indices(alloc: Global, uses: &[Use]) -> Result<Vec<usize>, AllocError>
    ensures { IfOk result (λ found. found.items ≡ of.indices (uses_view uses.now)) }
{
    let mut found = Vec::new(alloc);
    for used in uses {
        found.push(used.index)?;
    }
    Ok(found)
}

/// Those of some declarations that stand in a block.
fn those_inside(
    alloc: Global,
    declarations: &[Declaration<'_, '_>],
    indices: &[usize],
) -> Result<Vec<usize>, AllocError>
    ensures { IfOk result (λ found. found.items
        ≡ of.those_inside (declarations_view declarations.now) indices.now) }
{
    let mut found = Vec::new(alloc);
    for index in indices {
        if !is_outside(declarations, *index) {
            found.push(*index)?;
        }
    }
    Ok(found)
}

/// Those of some indices that count as mentioned by the declaration at another: one in a block does
/// not count for those in none.
fn counted(
    alloc: Global,
    declarations: &[Declaration<'_, '_>],
    by: usize,
    indices: Vec<usize>,
) -> Result<Vec<usize>, AllocError>
    ensures { IfOk result (λ found. found.items
        ≡ of.counted (declarations_view declarations.now) by indices.items) }
{
    if is_outside(declarations, by) {
        return Ok(indices);
    }
    those_inside(alloc, declarations, &indices)
}

/// The indices of the declarations that a use mentions, as far as it counts, where its types have no
/// fault.
fn mentioned(
    alloc: Global,
    declarations: NamedDeclarations<'_, '_>,
    used: &Use,
) -> Result<Vec<usize>, AllocError>
    ensures { IfOk result (λ found. found.items
        ≡ of.mentioned (all_view declarations.entry) (use_view used.now)) }
{
    let groups = use_types(alloc, declarations, used)?;
    let Groups {
        types: _,
        entries: _,
        uses,
        faults: _,
    } = groups;
    let found = indices(alloc, &uses)?;
    counted(alloc, declarations.list, used.index, found)
}

/// The indices of the declarations that each of some uses mentions.
fn links(
    alloc: Global,
    declarations: NamedDeclarations<'_, '_>,
    uses: &[Use],
) -> Result<Vec<Vec<usize>>, AllocError>
    ensures { IfOk result (λ links. links_view links.items
        ≡ of.links (all_view declarations.entry) (uses_view uses.now)) }
{
    let mut links = Vec::new(alloc);
    for used in uses {
        links.push(mentioned(alloc, declarations, used)?)?;
    }
    Ok(links)
}

/// Whether a declaration is passed over where no root is named: it is of a type that is not read.
fn is_passed_over(faults: &[Fault]) -> bool
    ensures { result ≡ of.is_passed_over faults.now }
{
    match faults.split_first() {
        Some((Fault::At { problem, .. }, _)) => match problem {
            Problem::OfType(TypeProblem::Underived) => true,
            Problem::OfType(TypeProblem::OwnImpl) => true,
            _ => false,
        },
        _ => false,
    }
}

/// Whether a struct or an enum is declared.
fn declares_type(declared: &Declared<'_, '_>) -> bool
    ensures { result ≡ of.declares_type (declared_view declared.now) }
{
    match declared {
        Declared::Alias(_) | Declared::Home | Declared::Elsewhere => false,
        _ => true,
    }
}

/// Whether a declaration stands in for others. What a `use` takes does not.
fn is_stand_in(declaration: &Declaration<'_, '_>) -> bool
    ensures { result ≡ of.is_stand_in (declaration_view declaration.now) }
{
    is_of_stand_ins(declaration.site.module_name) && !is_taking(&declaration.declared)
}

/// The names of the stand-ins among declarations.
fn stand_in_names<'t>(
    alloc: Global,
    declarations: &[Declaration<'_, 't>],
) -> Result<Vec<&'t str>, AllocError>
    ensures { IfOk result (λ names. map str_view names.items
        ≡ of.stand_in_names (declarations_view declarations.now)) }
{
    let mut names = Vec::new(alloc);
    for declaration in declarations {
        if is_stand_in(declaration) {
            names.push(declaration.name.text)?;
        }
    }
    Ok(names)
}

/// Whether a declaration may be a root, where stand-ins have these names: none of these names.
fn may_be_root(names: &NamePlaces<'_>, declaration: &Declaration<'_, '_>) -> bool
    ensures { result
        ≡ of.may_be_root (names_in names.now) (declaration_view declaration.now) }
{
    declares_type(&declaration.declared)
        && declaration.parameters.is_empty()
        && !(is_passed_over(&declaration.faults) || names.contains(declaration.name.text))
}

/// Whether a use stands by itself, where stand-ins have these names: its declaration may be a root,
/// and no other mentions it.
fn stands_alone(
    declarations: &[Declaration<'_, '_>],
    names: &NamePlaces<'_>,
    mentioned: &Mentioned,
    used: &Use,
) -> bool
    ensures { result ≡ of.stands_alone (declarations_view declarations.now)
        (names_in names.now) (links_view mentioned.now.links.items) (use_view used.now) }
{
    match declarations.get(used.index) {
        Some(declaration) => {
            may_be_root(names, declaration) && !mentioned.is_mentioned(used.index)
        }
        None => false,
    }
}

/// Those of some uses that stand by themselves.
fn roots(
    alloc: Global,
    declarations: &[Declaration<'_, '_>],
    names: &NamePlaces<'_>,
    mentioned: &Mentioned,
    uses: Vec<Use>,
) -> Result<Vec<Use>, AllocError>
    ensures { IfOk result (λ found. uses_view found.items
        ≡ of.roots (declarations_view declarations.now) (names_in names.now)
        (links_view mentioned.now.links.items) (uses_view uses.items)) }
{
    let mut found = Vec::new(alloc);
    for used in uses {
        if stands_alone(declarations, names, mentioned, &used) {
            found.push(used)?;
        }
    }
    Ok(found)
}

/// Whether one of some uses is of a declaration in no block.
fn has_outside(declarations: &[Declaration<'_, '_>], uses: &[Use]) -> bool
    ensures { result ≡ of.has_outside (declarations_view declarations.now) (uses_view uses.now) }
{
    for used in uses {
        if is_outside(declarations, used.index) {
            return true;
        }
    }
    false
}

/// Those of some uses that are of declarations in no block, or all where there is none.
fn outside_or_all(
    alloc: Global,
    declarations: &[Declaration<'_, '_>],
    uses: Vec<Use>,
) -> Result<Vec<Use>, AllocError>
    ensures { IfOk result (λ found. uses_view found.items
        ≡ of.outside_or_all (declarations_view declarations.now) (uses_view uses.items)) }
{
    if !has_outside(declarations, &uses) {
        return Ok(uses);
    }
    let mut found = Vec::new(alloc);
    for used in uses {
        if is_outside(declarations, used.index) {
            found.push(used)?;
        }
    }
    Ok(found)
}

/// Those of some uses that stand by themselves: those in no block, or else all.
fn likely_roots(
    alloc: Global,
    declarations: &[Declaration<'_, '_>],
    names: &NamePlaces<'_>,
    mentioned: &Mentioned,
    uses: Vec<Use>,
) -> Result<Vec<Use>, AllocError>
    ensures { IfOk result (λ found. uses_view found.items
        ≡ of.likely_roots (declarations_view declarations.now) (names_in names.now)
        (links_view mentioned.now.links.items) (uses_view uses.items)) }
{
    let found = roots(alloc, declarations, names, mentioned, uses)?;
    outside_or_all(alloc, declarations, found)
}

/// The ids of uses.
fn ids(alloc: Global, uses: &[Use]) -> Result<Vec<String>, AllocError>
    ensures { IfOk result (λ ids. map string_bytes ids.items ≡ of.ids (uses_view uses.now)) }
{
    let mut ids = Vec::new(alloc);
    for used in uses {
        ids.push(used.id.clone()?)?;
    }
    Ok(ids)
}

/// The id of a use of a declaration, as that is called among all.
fn id_among(
    alloc: Global,
    declarations: NamedDeclarations<'_, '_>,
    used: &Use,
    declaration: &Declaration<'_, '_>,
) -> Result<String, AllocError>
    ensures { IfOk result (λ id. string_bytes id
        ≡ of.id_among (all_view declarations.entry) (use_view used.now)
        (declaration_view declaration.now)) }
{
    let namesakes = declarations.namesakes(alloc, declaration.name.text)?;
    let called = called_among(declarations.list, &namesakes, used.index, declaration);
    used_id(alloc, called, &used.arguments)
}

/// The id of a use, as its declaration is called among all.
fn called_id(
    alloc: Global,
    declarations: NamedDeclarations<'_, '_>,
    used: &Use,
) -> Result<String, AllocError>
    ensures { IfOk result (λ id. string_bytes id
        ≡ of.called_id (all_view declarations.entry) (use_view used.now)) }
{
    match declarations.list.get(used.index) {
        Some(declaration) => id_among(alloc, declarations, used, declaration),
        None => Ok(String::new(alloc)),
    }
}

/// A use as a type, as its declaration is called among all.
fn root_mention(
    alloc: Global,
    declarations: NamedDeclarations<'_, '_>,
    used: &Use,
) -> Result<Mention, AllocError>
    ensures { IfOk result (λ mention. mention_view mention
        ≡ of.root_mention (all_view declarations.entry) (use_view used.now)) }
{
    let id = called_id(alloc, declarations, used)?;
    let mut uses = Vec::new(alloc);
    uses.push(Use {
        index: used.index,
        id: id.clone()?,
        arguments: copied_ids(alloc, &used.arguments)?,
    })?;
    Ok(Mention {
        id,
        entries: Vec::new(alloc),
        uses,
    })
}

/// The only one of some uses, as the type that it is.
fn only(
    alloc: Global,
    declarations: NamedDeclarations<'_, '_>,
    uses: &[Use],
) -> Result<Mention, Failure>
    ensures { Leads mention_view
        (of.only (all_view declarations.entry) (uses_view uses.now)) result }
{
    match uses {
        [used] => Ok(root_mention(alloc, declarations, used)?),
        _ => Err(Failure::Roots(ids(alloc, uses)?)),
    }
}

/// The only struct or enum without parameters that no other mentions. What stands in a block counts
/// only where there is no other.
///
/// Errors: the ids of those that there are, if there is not just one; out of memory.
pub(super) fn only_root(
    alloc: Global,
    declarations: NamedDeclarations<'_, '_>,
) -> Result<Mention, Failure>
    ensures { Leads mention_view (of.only_root (all_view declarations.entry)) result }
{
    let uses = own_uses(alloc, declarations.list)?;
    let stand_ins = stand_in_names(alloc, declarations.list)?;
    let names = NamePlaces::new(alloc, stand_ins)?;
    let links = links(alloc, declarations, &uses)?;
    let mentioned = Mentioned::new(alloc, links)?;
    let roots = likely_roots(alloc, declarations.list, &names, &mentioned, uses)?;
    only(alloc, declarations, &roots)
}
