//! The uses of declarations that a root needs.
ghost use Rattle.std.specs.Prelude.{◌≡◌, IfOk, OnOk, map};
ghost use Rattle.facet_solver_types.specs.AllDeclarations.{all_view};
ghost use Rattle.facet_solver_types.specs.FieldTypes.{groups_view};
ghost use Rattle.facet_solver_types.specs.Outcomes.{Gives};
ghost use Rattle.facet_solver_types.specs.Scopes.{scope_view};
ghost use Rattle.facet_solver_types.specs.Understood.{declaration_view, declarations_view};
ghost use Rattle.facet_solver_types.specs.UsedTypes as of;
ghost use Rattle.facet_solver_types.specs.UseIds.{AreIdsOf};
ghost use Rattle.facet_solver_types.specs.Uses.{use_view, uses_view};

use super::field_types::{Groups, declared_types, no_groups};
use super::scope::Scope;
use super::type_use::Use;
use crate::declaration::Declaration;
use crate::fault::Fault;
use crate::named_declarations::NamedDeclarations;
use crate::problem::Problem;
use crate::type_problem::TypeProblem;
use std::alloc::{AllocError, Global};
use std::collections::BTreeSet;

/// How many uses there may be more than declarations.
const MORE: usize = 4096;

/// Where the types of a use stand.
fn scope_of<'d, 't>(
    declarations: NamedDeclarations<'d, 't>,
    declaration: &'d Declaration<'d, 't>,
    used: &'d Use,
) -> Scope<'d, 't>
    ensures { scope_view result ≡ of.scope_of (all_view declarations.entry)
        (declaration_view declaration.now) (use_view used.now) }
{
    Scope {
        declarations,
        site: declaration.site,
        this: Some(used.id.as_str()),
        parameters: &declaration.parameters,
        arguments: &used.arguments,
        begin: 0,
        is_root: false,
    }
}

/// The types that a use mentions.
pub(super) fn use_types<'d, 't>(
    alloc: Global,
    declarations: NamedDeclarations<'d, 't>,
    used: &'d Use,
) -> Result<Groups, AllocError>
    ensures { IfOk result (λ groups. groups_view groups
        ≡ of.use_types (all_view declarations.entry) (use_view used.now)) }
{
    match declarations.list.get(used.index) {
        Some(declaration) => {
            let scope = scope_of(declarations, declaration, used);
            declared_types(alloc, scope, &declaration.declared)
        }
        None => Ok(no_groups(alloc)),
    }
}

/// Adds a use, if its id is new. The ids of all uses are known.
fn add_use(found: &mut Vec<Use>, ids: &mut BTreeSet<String>, used: Use) -> Result<(), AllocError>
    requires { AreIdsOf ids.old (uses_view found.old.items) }
    ensures uses { OnOk result (uses_view found.new.items
        ≡ of.with_use (uses_view found.old.items) (use_view used)) }
    ensures ids { OnOk result (AreIdsOf ids.new (uses_view found.new.items)) }
{
    if ids.contains(used.id.as_str()) {
        return Ok(());
    }
    ids.insert(used.id.clone()?)?;
    found.push(used)?;
    Ok(())
}

/// Adds the uses whose ids are new. The ids of all uses are known.
fn add_uses(
    found: &mut Vec<Use>,
    ids: &mut BTreeSet<String>,
    more: Vec<Use>,
) -> Result<(), AllocError>
    requires { AreIdsOf ids.old (uses_view found.old.items) }
    ensures uses { OnOk result (uses_view found.new.items
        ≡ of.with_uses (uses_view found.old.items) (uses_view more.items)) }
    ensures ids { OnOk result (AreIdsOf ids.new (uses_view found.new.items)) }
{
    for used in more {
        add_use(found, ids, used)?;
    }
    Ok(())
}

/// The fault where there are too many uses: the first that is one too many.
fn too_many(declarations: &[Declaration<'_, '_>], used: &Use) -> Fault
    ensures { result ≡ of.too_many (declarations_view declarations.now) (use_view used.now) }
{
    let offset = match declarations.get(used.index) {
        Some(declaration) => declaration.name.offset,
        None => 0,
    };
    Fault::At {
        offset,
        problem: Problem::OfType(TypeProblem::TooDeep),
    }
}

/// Uses, of which all ids are known, and all that they mention, themselves or over others.
///
/// Errors: more than so many; out of memory.
fn reached(
    alloc: Global,
    declarations: NamedDeclarations<'_, '_>,
    uses: Vec<Use>,
    ids: BTreeSet<String>,
) -> Result<Vec<Use>, Fault>
    requires { AreIdsOf ids (uses_view uses.items) }
    ensures { Gives (λ found. uses_view found.items)
        (of.reached (all_view declarations.entry) (uses_view uses.items)) result }
{
    let mut found = uses;
    let mut ids = ids;
    let mut at = 0;
    while at < found.len() {
        if at >= MORE && at - MORE >= declarations.list.len() {
            return Err(too_many(declarations.list, &found[at]));
        }
        let groups = use_types(alloc, declarations, &found[at])?;
        let Groups {
            types: _,
            entries: _,
            uses,
            faults: _,
        } = groups;
        add_uses(&mut found, &mut ids, uses)?;
        at += 1;
    }
    Ok(found)
}

/// The uses that some lead to, these first.
///
/// Errors: so many that there may be no end of them; out of memory.
pub(super) fn all_uses(
    alloc: Global,
    declarations: NamedDeclarations<'_, '_>,
    uses: Vec<Use>,
) -> Result<Vec<Use>, Fault>
    ensures { Gives (λ found. uses_view found.items)
        (of.all_uses (all_view declarations.entry) (uses_view uses.items)) result }
{
    let mut found = Vec::new(alloc);
    let mut ids = BTreeSet::new(alloc);
    add_uses(&mut found, &mut ids, uses)?;
    reached(alloc, declarations, found, ids)
}

/// Uses, as they stand.
fn references<'u>(alloc: Global, uses: &'u [Use]) -> Result<Vec<&'u Use>, AllocError>
    ensures { IfOk result (λ found. map (λ u. use_view u.now) found.items
        ≡ uses_view uses.now) }
{
    let mut found = Vec::with_capacity(alloc, uses.len())?;
    for used in uses {
        found.push(used)?;
    }
    Ok(found)
}

/// Uses of so many declarations in the order of the text, those of one as they stand.
pub(super) fn text_order<'u>(
    alloc: Global,
    count: usize,
    uses: &'u [Use],
) -> Result<Vec<&'u Use>, AllocError>
    ensures { IfOk result (λ found. map (λ u. use_view u.now) found.items
        ≡ of.text_order count (uses_view uses.now)) }
{
    let mut found = references(alloc, uses)?;
    found.sort_by_key(|used| used.index)?;
    found.retain(|used| used.index < count);
    Ok(found)
}
