//! The choice of a rank among those of a root, as a list of indices.
ghost use Rattle.std.specs.Prelude.{◌≡◌, ◌+◌, ◌<◌, ◌≤◌, ◌∷◌, Some, length, slice_get, true, [], IfOk, OnOk, ◌++◌};
ghost use Rattle.facet_solver_shape.specs.Catalogues.{FieldsBelow, VariantsBelow};
ghost use Rattle.facet_solver.specs.build.Build.{build_of};
ghost use Rattle.facet_solver.specs.build.ChoiceParts.{Adds, IsRank, StandFor, choice_at, presence, present_rank};
ghost use Rattle.facet_solver.specs.build.Count as count;
ghost use Rattle.facet_solver.specs.build.Counts.{IsReady};
ghost use Rattle.facet_solver.specs.build.Listing as listing;
ghost use Rattle.facet_solver.specs.build.Starts.{AreStarts, HasStarts};
ghost use Rattle.facet_solver.specs.build.Work as work;

use crate::build::content::content_fields;
use crate::build::contribution::Contribution;
use crate::build::starts::last_start;
use crate::build::walker::Walker;
use facet_solver_shape::{Field, Role, ShapeId, ShapeKind, Variant, role_of};
use std::alloc::AllocError;

/// What a choice is put together from, in the order of the choice.
#[derive(Clone, Copy)]
pub(crate) enum Part<'c> {
    /// One index: a variant's, or 0 or 1 for a field that may be absent.
    Index(usize),
    /// The choice of a rank among those at fields.
    Fields(&'c [Field], u64),
}

/// Puts the choice of a rank among those of a root into `choice`: the indices that a walk of the
/// root takes, a variant's for each enum, and 0 or 1 for each field that may be absent. `parts` is
/// room for what is still to come. Both are cleared first, so that they serve one rank after
/// another.
pub(crate) fn choice_at<'c>(
    walker: &Walker<'c>,
    root: ShapeId,
    rank: u64,
    parts: &mut Vec<Part<'c>>,
    choice: &mut Vec<usize>,
) -> Result<(), AllocError>
    requires ready { IsReady walker.now }
    requires has { root < length walker.now.build.shapes.now }
    requires starts { HasStarts (build_of walker.now.build) walker.now.starts.by_index.items root }
    requires rank { IsRank rank (count.count_of_root (build_of walker.now.build) root) }
    ensures { let choices = listing.choices_of_root (build_of walker.now.build) root in
        OnOk result (slice_get choices rank ≡ Some choice.new.items) }
{
    choice.clear();
    parts.clear();
    push_root(walker, root, rank, parts)?;
    // The last part comes first, as fields are gone through from the last.
    while let Some(part) = parts.pop() {
        match part {
            Part::Index(index) => choice.push(index)?,
            Part::Fields(fields, rank) => push_fields(walker, fields, rank, parts)?,
        }
    }
    choice.reverse();
    Ok(())
}

/// Adds what the choice of a rank among those of a root is put together from.
fn push_root<'c>(
    walker: &Walker<'c>,
    root: ShapeId,
    rank: u64,
    parts: &mut Vec<Part<'c>>,
) -> Result<(), AllocError>
    requires ready { IsReady walker.now }
    requires has { root < length walker.now.build.shapes.now }
    requires starts { HasStarts (build_of walker.now.build) walker.now.starts.by_index.items root }
    requires rank { IsRank rank (count.count_of_root (build_of walker.now.build) root) }
    requires nothing { parts.old.items ≡ [] }
    ensures { let build = build_of walker.now.build in
        let choice = choice_at (listing.choices_of_root build root) rank in
        OnOk result (StandFor build parts.new.items choice) }
{
    let shape = walker.build.shape(root);
    match &shape.kind {
        ShapeKind::Struct { fields, .. } => {
            parts.push(Part::Fields(fields, rank))?;
            Ok(())
        }
        ShapeKind::Enum { variants } => {
            let starts = walker.starts.of(root);
            push_variant(walker, true, variants, starts, rank, parts)
        }
        _ => Ok(()),
    }
}

/// Adds what the choice of a rank at fields is put together from. The choices of the last field
/// follow one another where those of the fields before it stay, so it has the rank that is left
/// over.
fn push_fields<'c>(
    walker: &Walker<'c>,
    fields: &'c [Field],
    rank: u64,
    parts: &mut Vec<Part<'c>>,
) -> Result<(), AllocError>
    requires ready { IsReady walker.now }
    requires below { FieldsBelow (length walker.now.build.shapes.now) fields.now }
    requires rank { IsRank rank (count.count_fields (build_of walker.now.build) fields.now) }
    ensures { let build = build_of walker.now.build in
        OnOk result (Adds build parts.old.items parts.new.items
        (choice_at (listing.choices_of_fields build fields.now) rank)
        (work.work_of_fields build fields.now)) }
{
    match up_to_choices(walker, fields).split_last() {
        Some((field, before)) => {
            let count = walker.counts.of_field(walker.build, field).or_largest();
            parts.push(Part::Fields(before, rank / count))?;
            push_field(walker, field, rank % count, parts)
        }
        None => Ok(()),
    }
}

/// The fields up to the last one with something to choose.
fn up_to_choices<'c>(walker: &Walker<'c>, fields: &'c [Field]) -> &'c [Field]
    requires ready { IsReady walker.now }
    requires below { FieldsBelow (length walker.now.build.shapes.now) fields.now }
    ensures below { FieldsBelow (length walker.now.build.shapes.now) result.now }
    ensures choices { let build = build_of walker.now.build in
        listing.choices_of_fields build result.now ≡ listing.choices_of_fields build fields.now }
    ensures work { let build = build_of walker.now.build in
        work.work_of_fields build result.now ≤ work.work_of_fields build fields.now }
{
    let mut kept = fields;
    while let Some((field, before)) = kept.split_last() {
        match walker.contribution.of_field(walker.build, field) {
            Contribution::Choices => break,
            Contribution::CatchAlls(_) | Contribution::Emissions => kept = before,
        }
    }
    kept
}

/// Adds what the choice of a rank at one field is put together from.
fn push_field<'c>(
    walker: &Walker<'c>,
    field: &'c Field,
    rank: u64,
    parts: &mut Vec<Part<'c>>,
) -> Result<(), AllocError>
    requires ready { IsReady walker.now }
    requires below { field.now.shape < length walker.now.build.shapes.now }
    requires rank { IsRank rank (count.count_field (build_of walker.now.build) field.now) }
    ensures { let build = build_of walker.now.build in
        OnOk result (Adds build parts.old.items parts.new.items
        (choice_at (listing.choices_of_field build field.now) rank)
        (work.work_of_field build field.now)) }
{
    let role = role_of(walker.build.shapes, field);
    let Some(rank) = push_presence(role.may_be_absent(), rank, parts)? else {
        return Ok(());
    };
    match role {
        Role::Block(_, fields) => {
            parts.push(Part::Fields(fields, rank))?;
            Ok(())
        }
        Role::Alternatives(target, shape, variants) => {
            let walked = walker.build.walks_content(shape);
            let starts = walker.starts.of(target.shape);
            push_variant(walker, walked, variants, starts, rank, parts)
        }
        Role::Regular | Role::CatchAll(_) | Role::Leaf(_) => Ok(()),
    }
}

/// Adds the index of a field that may be absent: 0 where it is, which is the first choice there,
/// and else 1. Where the field is present, the answer is the rank that is left.
fn push_presence(
    may_be_absent: bool,
    rank: u64,
    parts: &mut Vec<Part<'_>>,
) -> Result<Option<u64>, AllocError>
    ensures { IfOk result (λ present. (present ≡ present_rank may_be_absent rank)
        × (parts.new.items ≡ parts.old.items ++ presence may_be_absent rank)) }
{
    if !may_be_absent {
        return Ok(Some(rank));
    }
    match rank.checked_sub(1) {
        Some(rank) => {
            parts.push(Part::Index(1))?;
            Ok(Some(rank))
        }
        None => {
            parts.push(Part::Index(0))?;
            Ok(None)
        }
    }
}

/// Adds what the choice of a rank among variants is put together from, whose contents are walked or
/// not. Where they are, the starts say where the choices of each variant begin.
fn push_variant<'c>(
    walker: &Walker<'c>,
    walked: bool,
    variants: &'c [Variant],
    starts: &[u64],
    rank: u64,
    parts: &mut Vec<Part<'c>>,
) -> Result<(), AllocError>
    requires ready { IsReady walker.now }
    requires below { VariantsBelow (length walker.now.build.shapes.now) variants.now }
    requires starts { walked ≡ true
        → AreStarts (build_of walker.now.build) variants.now starts.now }
    requires rank { IsRank rank
        (count.count_variants (build_of walker.now.build) walked variants.now) }
    ensures { let build = build_of walker.now.build in
        OnOk result (Adds build parts.old.items parts.new.items
        (choice_at (listing.choices_of_variants build walked variants.now) rank)
        (work.work_of_variants build variants.now)) }
{
    if !walked {
        parts.push(Part::Index(rank as usize))?;
        return Ok(());
    }
    let (index, fields, rank) = variant_at(walker, variants, starts, rank);
    parts.push(Part::Index(index))?;
    parts.push(Part::Fields(fields, rank))?;
    Ok(())
}

/// The index of the variant at which the choice of a rank stands, the fields of its content, and
/// the rank among its choices.
fn variant_at<'c>(
    walker: &Walker<'c>,
    variants: &'c [Variant],
    starts: &[u64],
    rank: u64,
) -> (usize, &'c [Field], u64)
    requires ready { IsReady walker.now }
    requires below { VariantsBelow (length walker.now.build.shapes.now) variants.now }
    requires starts { AreStarts (build_of walker.now.build) variants.now starts.now }
    requires rank { IsRank rank
        (count.count_variants (build_of walker.now.build) true variants.now) }
    ensures below { FieldsBelow (length walker.now.build.shapes.now) result.1.now }
    ensures rank { IsRank result.2 (count.count_fields (build_of walker.now.build) result.1.now) }
    ensures choice { let build = build_of walker.now.build in
        choice_at (listing.choices_of_variants build true variants.now) rank
        ≡ result.0 ∷ choice_at (listing.choices_of_fields build result.1.now) result.2 }
    ensures work { let build = build_of walker.now.build in
        2 + work.work_of_fields build result.1.now ≤ work.work_of_variants build variants.now }
{
    // A variant without choices has the start of the next one, so the last start that is not above
    // the rank is the right one.
    let index = last_start(starts, rank);
    let fields = content_fields(walker.build.shapes, &variants[index]);
    (index, fields, rank - starts[index])
}
