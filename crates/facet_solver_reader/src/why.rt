//! Why a document has no reading, or several.
//!
//! Both go from the root into the value that is to blame, as long as one part of a value is to blame
//! for all of it. What is told is asked of the counts: nothing is told that they don't say.
ghost use Rattle.std.specs.Prelude.{◌≡◌, [], IfOk};
ghost use Rattle.facet_solver_reader.specs.Documents.{view};
ghost use Rattle.facet_solver_reader.specs.Nodes.{value_of};
ghost use Rattle.facet_solver_reader.specs.Parts.{of_shape};
ghost use Rattle.facet_solver_reader.specs.Reached.{IsRanked};
ghost use Rattle.facet_solver_reader.specs.Reading.{AreSound, IsCount};
ghost use Rattle.facet_solver_reader.specs.Tables.{AreTables, IsServed, ShapeIsServed, rules_at};
ghost use Rattle.facet_solver_reader.specs.Views.{target_view};
ghost use Rattle.facet_solver_reader.specs.Blaming.{IsUnreadAt};
ghost use Rattle.facet_solver_reader.specs.Why.{IsWhyNone, IsWhyNot, IsWhySeveral};
ghost use Rattle.facet_solver_reader.specs.declared.count.Count.TheVariants.{None as NoCount, One as OneReading, Several as TwoCount};

mod asked;
mod branch;
mod entries;
mod left;
mod missing;
mod name;
mod named;
mod naming;
mod object;
mod several;
mod stop;
mod tag;
mod untagged;
mod walk;
mod wanted;

use crate::count::{Count, Memo, count_shape};
use crate::document::Document;
use crate::nodes::Nodes;
use crate::part::Target;
use crate::place::Place;
use crate::read_error::{NoReading, Obstacle, ReadError, Several};
use crate::tables::Tables;
use facet_solver_shape::ShapeId;
use name::{same_target, unread};
use std::alloc::AllocError;
use walk::{Blamed, Here, walk};

/// Why a document has not one reading as a shape.
pub(crate) fn why_not_one<'c, 'd>(
    tables: &Tables<'c>,
    nodes: &Nodes<'_, 'd>,
    memo: &mut Memo,
    root: ShapeId,
) -> ReadError<'c, 'd>
    requires sound { AreSound tables.now nodes.now memo.old.entries.items }
    requires served { ShapeIsServed tables.now root }
    requires ranked { IsRanked tables.now.steps (rules_at tables.now) (of_shape root) }
    requires not_one { IsCount tables.now nodes.now 0 (of_shape root) OneReading → ⊥ }
    ensures { IsWhyNot (rules_at tables.now) (of_shape root) (value_of nodes.now 0) result }
{
    match count_shape(tables, nodes, memo, 0, root, tables.steps) {
        Ok(Count::One) => unreachable!(),
        Ok(Count::None) => match why_none(tables, nodes, memo, root) {
            Ok(none) => ReadError::NoReading(none),
            Err(_) => ReadError::OutOfMemory,
        },
        Ok(Count::Several) => match why_several(tables, nodes, memo, root) {
            Ok(several) => ReadError::Several(several),
            Err(_) => ReadError::OutOfMemory,
        },
        Err(_) => ReadError::OutOfMemory,
    }
}

/// Why a document has no reading as a shape.
fn why_none<'c, 'd>(
    tables: &Tables<'c>,
    nodes: &Nodes<'_, 'd>,
    memo: &mut Memo,
    root: ShapeId,
) -> Result<NoReading<'c, 'd>, AllocError>
    requires sound { AreSound tables.now nodes.now memo.old.entries.items }
    requires served { ShapeIsServed tables.now root }
    requires none { IsCount tables.now nodes.now 0 (of_shape root) NoCount }
    ensures { IfOk result (IsWhyNone (rules_at tables.now) (value_of nodes.now 0)) }
{
    let last = walk(tables, nodes, memo, root, Count::None)?;
    let place = nodes.place(tables.alloc, last.node)?;
    let value = nodes.value(last.node);
    let target = same_target(&last.target);
    match last.here {
        Some(Here::Stops(why)) => Ok(NoReading { place, why }),
        Some(Here::Splits(_branches)) => unread_at(tables, value, &target, place),
        None => unread_at(tables, value, &target, place),
    }
}

/// That the value at a place is not what a target reads.
fn unread_at<'c, 'd>(
    tables: &Tables<'c>,
    value: &Document<'d>,
    target: &Target<'c>,
    place: Place<'d>,
) -> Result<NoReading<'c, 'd>, AllocError>
    requires tables { AreTables tables.now }
    requires served { IsServed tables.now (target_view target.now) }
    ensures { IfOk result (IsUnreadAt (rules_at tables.now) (target_view target.now)
        (view value.now) place.entry) }
{
    match unread(tables, value, target) {
        Ok(unread) => Ok(NoReading {
            place,
            why: Obstacle::Unread(unread),
        }),
        Err(error) => Err(error),
    }
}

/// Where two readings of a document as a shape differ, and by what.
fn why_several<'c, 'd>(
    tables: &Tables<'c>,
    nodes: &Nodes<'_, 'd>,
    memo: &mut Memo,
    root: ShapeId,
) -> Result<Several<'c, 'd>, AllocError>
    requires sound { AreSound tables.now nodes.now memo.old.entries.items }
    requires served { ShapeIsServed tables.now root }
    requires several { IsCount tables.now nodes.now 0 (of_shape root) TwoCount }
    ensures { IfOk result (IsWhySeveral (rules_at tables.now) (value_of nodes.now 0)) }
{
    let Blamed { node, here, .. } = walk(tables, nodes, memo, root, Count::Several)?;
    let place = nodes.place(tables.alloc, node)?;
    match here {
        Some(Here::Splits(variants)) => Ok(Several { place, variants }),
        Some(Here::Stops(_obstacle)) => Ok(nothing_told(tables, place)),
        None => Ok(nothing_told(tables, place)),
    }
}

/// No variants at a place.
fn nothing_told<'c, 'd>(tables: &Tables<'c>, place: Place<'d>) -> Several<'c, 'd>
    ensures place { result.place ≡ place.entry }
    ensures none { result.variants.items ≡ [] }
{
    let variants = Vec::new(tables.alloc);
    Several { place, variants }
}
