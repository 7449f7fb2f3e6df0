//! What is known of an object and the lists that its choices go through.
ghost use Rattle.std.specs.Prelude.{◌≡◌, IfOk, IfSome, length};
ghost use Rattle.facet_solver_reader.specs.Reading.{AreListCounts, AreSound, IsNextList, IsObject};
ghost use Rattle.facet_solver_reader.specs.Views.{list_view};
ghost use Rattle.facet_solver_reader.specs.Blaming.{IsAsked, IsPosition};

use super::left::left_by_names;
use super::missing::missing_names;
use super::naming::{Naming, namings};
use crate::count::{Count, Memo, Object, count_list};
use crate::nodes::Nodes;
use crate::part::ListId;
use crate::tables::{List, Tables};
use std::alloc::AllocError;

/// An object, and what is known of each list that the choices of its own go through, by the lists'
/// positions among them.
#[derive(Drop)]
pub(super) struct AskedObject<'r, 'c> {
    pub(super) object: Object<'r, 'c>,
    /// How often it is read by the list.
    pub(super) counts: Vec<Count>,
    /// Whether it has the names that the list asks for, and the texts of its tags.
    pub(super) left: Vec<bool>,
    /// The first name that the list requires and the object lacks.
    pub(super) missing: Vec<Option<&'c str>>,
    /// Whether it names the list.
    pub(super) namings: Vec<Naming>,
}

/// What is known of an object.
pub(super) fn ask<'r, 'c>(
    tables: &Tables<'c>,
    nodes: &Nodes<'_, '_>,
    memo: &mut Memo,
    object: &Object<'r, 'c>,
) -> Result<AskedObject<'r, 'c>, AllocError>
    requires sound { AreSound tables.now nodes.now memo.old.entries.items }
    requires object { IsObject tables.now nodes.now object.now }
    ensures sound { AreSound tables.now nodes.now memo.new.entries.items }
    ensures asked { IfOk result (IsAsked tables.now nodes.now) }
    ensures same { IfOk result (λ asked. asked.object ≡ object.now) }
{
    let counts = counts_of(tables, nodes, memo, object)?;
    let left = left_by_names(tables, nodes, object)?;
    let missing = missing_names(tables, nodes, object)?;
    let namings = namings(tables, nodes, memo, object)?;
    Ok(AskedObject {
        object: *object,
        counts,
        left,
        missing,
        namings,
    })
}

/// How often an object is read by each list that the choices of its own go through.
pub(super) fn counts_of(
    tables: &Tables<'_>,
    nodes: &Nodes<'_, '_>,
    memo: &mut Memo,
    object: &Object<'_, '_>,
) -> Result<Vec<Count>, AllocError>
    requires sound { AreSound tables.now nodes.now memo.old.entries.items }
    requires object { IsObject tables.now nodes.now object.now }
    ensures sound { AreSound tables.now nodes.now memo.new.entries.items }
    ensures counts { IfOk result (λ counts.
        AreListCounts tables.now nodes.now object.now counts.items) }
    ensures each { IfOk result (λ counts.
        length counts.items ≡ length object.now.list.now.below.items) }
{
    let below = &object.list.below;
    let mut counts = Vec::with_capacity(tables.alloc, below.len())?;
    for index in below {
        let list = &tables.lists[*index];
        let count = count_list(tables, nodes, memo, object, list, &counts)?;
        counts.push(count)?;
    }
    Ok(counts)
}

/// The list at a position among those that the choices of an object's list go through.
pub(super) fn list_at<'r, 'c>(
    tables: &'r Tables<'c>,
    object: &Object<'_, 'c>,
    position: usize,
) -> Option<&'r List<'c>>
    ensures { IfSome result (λ list. IsNextList tables.now object.now position list.now) }
{
    let index = *object.list.below.get(position)?;
    tables.lists.get(index)
}

/// The position of a list among them.
pub(super) fn position_of(tables: &Tables<'_>, object: &Object<'_, '_>, id: ListId) -> Option<usize>
    ensures { IfSome result (IsPosition tables.now object.now (list_view id)) }
{
    let index = tables.slots.index_of(id)?;
    match object.list.below.binary_search(&index) {
        Ok(position) => Some(position),
        Err(_) => None,
    }
}
