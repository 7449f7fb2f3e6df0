//! Names that lists require and an object lacks.
ghost use Rattle.std.specs.Prelude.{IfOk, IfSome};
ghost use Rattle.facet_solver_reader.specs.Nodes.{IsNumbering, members_in, value_of};
ghost use Rattle.facet_solver_reader.specs.Reading.{IsListed, IsObject};
ghost use Rattle.facet_solver_reader.specs.Tables.{AreTables, PartIsServed, rules_at};
ghost use Rattle.facet_solver_reader.specs.Views.{list_view, part_view};
ghost use Rattle.facet_solver_reader.specs.Blaming.{AreMissing, PartLacks};
ghost use Rattle.facet_solver_reader.specs.Why.{Lacks};

use super::asked::position_of;
use crate::count::Object;
use crate::nodes::Nodes;
use crate::part::Part;
use crate::tables::{List, Tables};
use std::alloc::AllocError;

/// For each list that the choices of an object's list go through: the first name that each choice of
/// it requires and the object lacks.
pub(super) fn missing_names<'c>(
    tables: &Tables<'c>,
    nodes: &Nodes<'_, '_>,
    object: &Object<'_, '_>,
) -> Result<Vec<Option<&'c str>>, AllocError>
    requires tables { AreTables tables.now }
    requires numbering { IsNumbering nodes.now }
    requires object { IsObject tables.now nodes.now object.now }
    ensures { IfOk result (λ names.
        AreMissing tables.now nodes.now object.now names.items) }
{
    let mut missing = Vec::new(tables.alloc);
    for index in &object.list.below {
        let name = missing_name(tables, nodes, object, &tables.lists[*index], &missing);
        missing.push(name)?;
    }
    Ok(missing)
}

/// The first such name of a list, by the same of the lists before it.
fn missing_name<'c>(
    tables: &Tables<'c>,
    nodes: &Nodes<'_, '_>,
    object: &Object<'_, '_>,
    list: &List<'c>,
    missing: &[Option<&'c str>],
) -> Option<&'c str>
    requires tables { AreTables tables.now }
    requires numbering { IsNumbering nodes.now }
    requires object { IsObject tables.now nodes.now object.now }
    requires missing { AreMissing tables.now nodes.now object.now missing.now }
    requires listed { IsListed tables.now list.now }
    ensures { IfSome result (λ name. Lacks (rules_at tables.now)
        (members_in (value_of nodes.now object.now.node)) (list_view list.now.id) name.now) }
{
    for part in &list.parts {
        let name = missing_at(tables, nodes, object, part, missing);
        if name.is_some() {
            return name;
        }
    }
    None
}

/// The first such name of a part: that of a member, or of the one branch that a selection has.
fn missing_at<'c>(
    tables: &Tables<'c>,
    nodes: &Nodes<'_, '_>,
    object: &Object<'_, '_>,
    part: &Part<'c>,
    missing: &[Option<&'c str>],
) -> Option<&'c str>
    requires numbering { IsNumbering nodes.now }
    requires object { IsObject tables.now nodes.now object.now }
    requires missing { AreMissing tables.now nodes.now object.now missing.now }
    requires served { PartIsServed tables.now (part_view part.now) }
    ensures { IfSome result (λ name. PartLacks (rules_at tables.now)
        (members_in (value_of nodes.now object.now.node)) (part_view part.now) name.now) }
{
    match part {
        Part::Member(member) => match nodes.member(object.node, member.name) {
            None if member.required => Some(member.name),
            _ => None,
        },
        Part::Selection(selection) => match selection.branches.as_slice() {
            [branch] if !selection.optional => {
                let position = position_of(tables, object, *branch)?;
                *missing.get(position)?
            }
            _ => None,
        },
        Part::CatchAll(_) => None,
    }
}
