//! Which lists an object names, by members that read only texts that name variants.
ghost use Rattle.std.specs.Prelude.{IfSome};
ghost use Rattle.facet_solver_reader.specs.Reading.{AreSound, IsListed, IsObject};
ghost use Rattle.facet_solver_reader.specs.Tables.{AreTables, IsServed, PartIsServed};
ghost use Rattle.facet_solver_reader.specs.Views.{list_view, member_view, part_view, target_view};
ghost use Rattle.facet_solver_reader.specs.Blaming.{IsPosition};

use super::asked::{AskedObject, position_of};
use super::walk::count_of;
use crate::count::{Memo, Object};
use crate::end::End;
use crate::nodes::Nodes;
use crate::part::{ListId, MemberPart, Part, Selection, Target};
use crate::tables::{List, Tables};
use std::alloc::AllocError;

/// Whether an object names a list.
#[derive(Clone, Copy, Debug)]
pub(super) enum Naming {
    /// It has no member that would name it.
    Untold,
    /// Such a member reads its value there.
    Named,
    /// Such a member does not read its value there.
    Otherwise,
}

impl Naming {
    /// What two parts of a list say of it.
    fn and(self, other: Naming) -> Naming {
        match (self, other) {
            (Naming::Otherwise, _) | (_, Naming::Otherwise) => Naming::Otherwise,
            (Naming::Untold, _) => other,
            _ => self,
        }
    }

    /// What two branches say of the list that selects one of them.
    fn or(self, other: Naming) -> Naming {
        match (self, other) {
            (Naming::Named, _) | (_, Naming::Named) => Naming::Named,
            (Naming::Otherwise, _) => other,
            _ => self,
        }
    }
}

/// Whether an object names each list that the choices of its own go through.
pub(super) fn namings(
    tables: &Tables<'_>,
    nodes: &Nodes<'_, '_>,
    memo: &mut Memo,
    object: &Object<'_, '_>,
) -> Result<Vec<Naming>, AllocError>
    requires sound { AreSound tables.now nodes.now memo.old.entries.items }
    requires object { IsObject tables.now nodes.now object.now }
    ensures sound { AreSound tables.now nodes.now memo.new.entries.items }
{
    let mut namings = Vec::new(tables.alloc);
    for index in &object.list.below {
        let list = &tables.lists[*index];
        let naming = naming_of(tables, nodes, memo, object, list, &namings)?;
        namings.push(naming)?;
    }
    Ok(namings)
}

/// Whether it names a list, by the same of the lists before it.
fn naming_of(
    tables: &Tables<'_>,
    nodes: &Nodes<'_, '_>,
    memo: &mut Memo,
    object: &Object<'_, '_>,
    list: &List<'_>,
    namings: &[Naming],
) -> Result<Naming, AllocError>
    requires sound { AreSound tables.now nodes.now memo.old.entries.items }
    requires object { IsObject tables.now nodes.now object.now }
    requires listed { IsListed tables.now list.now }
    ensures sound { AreSound tables.now nodes.now memo.new.entries.items }
{
    let mut naming = Naming::Untold;
    for part in &list.parts {
        naming = naming.and(naming_at(tables, nodes, memo, object, part, namings)?);
    }
    Ok(naming)
}

/// What a part says of its list.
fn naming_at(
    tables: &Tables<'_>,
    nodes: &Nodes<'_, '_>,
    memo: &mut Memo,
    object: &Object<'_, '_>,
    part: &Part<'_>,
    namings: &[Naming],
) -> Result<Naming, AllocError>
    requires sound { AreSound tables.now nodes.now memo.old.entries.items }
    requires object { IsObject tables.now nodes.now object.now }
    requires served { PartIsServed tables.now (part_view part.now) }
    ensures sound { AreSound tables.now nodes.now memo.new.entries.items }
{
    match part {
        Part::Member(member) => naming_by(tables, nodes, memo, object, member),
        Part::Selection(selection) => Ok(naming_among(tables, object, selection, namings)),
        Part::CatchAll(_) => Ok(Naming::Untold),
    }
}

/// What a member says of its list.
fn naming_by(
    tables: &Tables<'_>,
    nodes: &Nodes<'_, '_>,
    memo: &mut Memo,
    object: &Object<'_, '_>,
    member: &MemberPart<'_>,
) -> Result<Naming, AllocError>
    requires sound { AreSound tables.now nodes.now memo.old.entries.items }
    requires object { IsObject tables.now nodes.now object.now }
    requires served { IsServed tables.now (member_view member.now).target }
    ensures sound { AreSound tables.now nodes.now memo.new.entries.items }
{
    if !member.required || !names_variants(tables, &member.target) {
        return Ok(Naming::Untold);
    }
    let Some(value) = nodes.member(object.node, member.name) else {
        return Ok(Naming::Untold);
    };
    let count = count_of(tables, nodes, memo, value, &member.target)?;
    if count.is_none() {
        Ok(Naming::Otherwise)
    } else {
        Ok(Naming::Named)
    }
}

/// Whether a target reads only texts that name variants: that of a tag, or an enum of units.
fn names_variants(tables: &Tables<'_>, target: &Target<'_>) -> bool
    requires tables { AreTables tables.now }
    requires served { IsServed tables.now (target_view target.now) }
{
    match target {
        Target::Tag(_) => true,
        Target::Shape(shape) => match tables.end(*shape) {
            End::NamedVariant(variants) => variants.iter().all(|variant| variant.is_unit),
            _ => false,
        },
        Target::Content(..) => false,
    }
}

/// What the branches of a selection say of its list. One that may be absent says nothing.
fn naming_among(
    tables: &Tables<'_>,
    object: &Object<'_, '_>,
    selection: &Selection<'_>,
    namings: &[Naming],
) -> Naming {
    if selection.optional {
        return Naming::Untold;
    }
    let mut among = None;
    for branch in &selection.branches {
        if let Some(naming) = known_naming(tables, object, *branch, namings) {
            among = match among {
                Some(before) => Some(naming.or(before)),
                None => Some(naming),
            };
        }
    }
    among.unwrap_or(Naming::Untold)
}

/// Whether an object names a branch, if that has a choice.
fn known_naming(
    tables: &Tables<'_>,
    object: &Object<'_, '_>,
    branch: ListId,
    namings: &[Naming],
) -> Option<Naming> {
    let position = position_of(tables, object, branch)?;
    namings.get(position).copied()
}

/// Whether an object names some branch of a selection.
pub(super) fn names_some(
    tables: &Tables<'_>,
    asked: &AskedObject<'_, '_>,
    selection: &Selection<'_>,
) -> bool {
    for branch in &selection.branches {
        let naming = known_naming(tables, &asked.object, *branch, &asked.namings);
        if matches!(naming, Some(Naming::Named)) {
            return true;
        }
    }
    false
}

/// The position of a branch that is told, if it has a choice. Where it goes by names, those that the
/// object names otherwise are not.
pub(super) fn told_at(
    tables: &Tables<'_>,
    asked: &AskedObject<'_, '_>,
    branch: ListId,
    by_name: bool,
) -> Option<usize>
    ensures { IfSome result (IsPosition tables.now asked.now.object (list_view branch)) }
{
    let position = position_of(tables, &asked.object, branch)?;
    match asked.namings.get(position) {
        Some(Naming::Otherwise) if by_name => None,
        _ => Some(position),
    }
}
