//! What the only reading of an object goes through.
ghost use Rattle.std.specs.Prelude.{◌≡◌, ◌+◌, ◌*◌, ◌<◌, ◌≤◌, ◌^◌, ◌++◌, ◌∷◌, [], ℕ, All, IfErr, IfOk, IsNone, IsTrue, OnOk, Some, length, max, slice_get};
ghost use Rattle.facet_solver_reader.specs.declared.count.Count.TheVariants.{One};
ghost use Rattle.facet_solver_reader.specs.Chosen.{IsPicked, IsSure};
ghost use Rattle.facet_solver_reader.specs.FieldPlaces.{path_at};
ghost use Rattle.facet_solver_reader.specs.Known.{Chooses, HasChoice};
ghost use Rattle.facet_solver_reader.specs.Nodes.{IsNumbering};
ghost use Rattle.facet_solver_reader.specs.Parts.{a_selection};
ghost use Rattle.facet_solver_reader.specs.Planned.{IsPlanIfOne};
ghost use Rattle.facet_solver_reader.specs.Reading.{AreSound, IsListCount, IsObject, IsPartCount};
ghost use Rattle.facet_solver_reader.specs.Steps.{place_below};
ghost use Rattle.facet_solver_reader.specs.SureSteps.{is_selection, sure_steps};
ghost use Rattle.facet_solver_reader.specs.SelectionNames.{HasBranchNames};
ghost use Rattle.facet_solver_reader.specs.Tables.{AreTables, IsPartOfList, ListIsServed, PartIsBefore, rules_at};
ghost use Rattle.facet_solver_reader.specs.UnderWay.{AreKnownCounts, IsGoing, IsInnermost, IsLeftOut, IsSelected, with_inner};
ghost use Rattle.facet_solver_reader.specs.ToldAt.{IsNotOne};
ghost use Rattle.facet_solver_reader.specs.Views.{list_view, selection_view};

use super::not_one::NotOne;
use super::tells::{is_of_enum, tells};
use crate::count::{
    Count, Memo, Object, chosen_branch, count_selection, fits, list_counts, lone_branch, touches,
};
use crate::field_at::{field_name, path_at, place_below};
use crate::nodes::Nodes;
use crate::part::{CatchAll, ListId, MemberPart, Part, Selection};
use crate::tables::{List, Tables};
use facet_solver_shape::{FieldPath, ShapeId};
use std::alloc::AllocError;

/// The room of a vector that has grown once.
const LEAST_ROOM: usize = 4;

/// One step of the choice by which an object is read.
#[derive(Debug, Drop)]
pub(super) enum Step<'r, 'c> {
    /// A member, with its path. The object has it or lacks it.
    Field(FieldPath<'c>, &'r MemberPart<'c>),
    /// A variant that is selected, by its index, with the path of its enum.
    Variant(FieldPath<'c>, ShapeId, usize),
    /// An optional enum that is absent, by its path.
    Absence(FieldPath<'c>),
    /// What takes the members of no known name.
    Rest(&'r CatchAll),
}

/// A list of parts that stands at a place, and the next of them.
#[derive(Drop)]
struct Frame<'r, 'c> {
    list: &'r List<'c>,
    next: usize,
    place: FieldPath<'c>,
}

/// The steps so far, and the lists that are under way around the innermost one, the last next to
/// it. The innermost lies beside them, so that a list without selections takes no memory.
///
/// The counts of the lists that the choices go through are found where one is first asked for.
#[derive(Drop)]
struct Way<'r, 'c> {
    steps: Vec<Step<'r, 'c>>,
    frames: Vec<Frame<'r, 'c>>,
    counts: Option<Vec<Count>>,
}

/// What the only reading of an object by its list goes through.
pub(super) fn steps_of<'r, 'c>(
    tables: &'r Tables<'c>,
    nodes: &Nodes<'_, '_>,
    memo: &mut Memo,
    object: &Object<'r, 'c>,
) -> Result<Vec<Step<'r, 'c>>, NotOne>
    requires sound { AreSound tables.now nodes.now memo.old.entries.items }
    requires object { IsObject tables.now nodes.now object.now }
    ensures sound { AreSound tables.now nodes.now memo.new.entries.items }
    ensures plan { IfOk result (λ steps.
        IsPlanIfOne tables.now nodes.now object.now steps.items) }
    ensures none { IfErr result (λ e.
        IsNotOne e (IsListCount tables.now nodes.now object.now object.now.list.now One)) }
{
    let steps = Vec::with_capacity(tables.alloc, room_for(&object.list.parts))?;
    let mut way = Way {
        steps,
        frames: Vec::new(tables.alloc),
        counts: None,
    };
    let mut frame = Frame {
        list: object.list,
        next: 0,
        place: FieldPath::empty(tables.alloc),
    };
    // Far fewer parts are gone through, so that the loop ends by its first way out.
    'parts: for _ in 0..u64::MAX {
        match way.go_on(tables, nodes, memo, object, frame)? {
            Some(next) => frame = next,
            None => return Ok(way.steps),
        }
    }
    Err(NotOne::OutOfMemory)
}

/// For how many steps of a list there is room at first. It is held while the members of an object
/// are read, so it is for the parts that are a step each. Where selections may add more it is what
/// a vector of so many has that grows.
fn room_for(parts: &[Part<'_>]) -> usize
    ensures { result ≤ max LEAST_ROOM (2 * sure_steps parts.now) }
{
    let sure = parts.iter().filter(|part| !is_selection(part)).count();
    if sure == parts.len() {
        sure
    } else {
        sure.next_power_of_two().max(LEAST_ROOM)
    }
}

/// Whether a part is a selection.
fn is_selection(part: &Part<'_>) -> bool
    ensures { result ≡ is_selection part.now }
{
    matches!(part, Part::Selection(_))
}

/// The branch, by its index, by which an object is read that has one reading by a selection; `None`
/// where the selection is absent. Readings are counted only where several branches could read it.
fn choose(
    tables: &Tables<'_>,
    nodes: &Nodes<'_, '_>,
    memo: &mut Memo,
    object: &Object<'_, '_>,
    selection: &Selection<'_>,
    counts: &mut Option<Vec<Count>>,
) -> Result<Option<usize>, NotOne>
    requires sound { AreSound tables.now nodes.now memo.old.entries.items }
    requires object { IsObject tables.now nodes.now object.now }
    requires counts { AreKnownCounts tables.now nodes.now object.now counts.old }
    requires served { All (ListIsServed tables.now) (selection_view selection.now).branches }
    requires named { HasBranchNames (rules_at tables.now).lists selection.now }
    requires before { PartIsBefore tables.now object.now.list.now.below.items
        (length object.now.list.now.below.items) (a_selection (selection_view selection.now)) }
    requires part { IsPartOfList tables.now (a_selection (selection_view selection.now)) }
    ensures sound { AreSound tables.now nodes.now memo.new.entries.items }
    ensures counts { OnOk result (AreKnownCounts tables.now nodes.now object.now counts.new) }
    ensures chosen { IfOk result
        (IsPicked tables.now nodes.now object.now (selection_view selection.now)) }
    ensures none { IfErr result (λ e. IsNotOne e (IsPartCount tables.now nodes.now object.now
        (a_selection (selection_view selection.now)) One)) }
{
    if selection.optional && !touches(tables, nodes, object, selection) {
        return Ok(None);
    }
    if let Some(k) = lone_branch(tables, nodes, object, selection) {
        if is_sure(tables, nodes, object, selection, selection.branches[k]) {
            return Ok(Some(k));
        }
    }
    let known = match counts.take() {
        Some(known) => known,
        None => list_counts(tables, nodes, memo, object)?,
    };
    match count_selection(tables, nodes, object, selection, &known) {
        Count::One => {}
        _ => return Err(NotOne::NoneOrSeveral),
    }
    let chosen = chosen_branch(tables, nodes, object, selection, &known);
    *counts = Some(known);
    Ok(chosen)
}

/// Whether an object that is read by a branch alone is so if its members are: the list of the branch
/// has something to tell, and each member of the object that the selection knows.
fn is_sure(
    tables: &Tables<'_>,
    nodes: &Nodes<'_, '_>,
    object: &Object<'_, '_>,
    selection: &Selection<'_>,
    branch: ListId,
) -> bool
    requires tables { AreTables tables.now }
    requires numbering { IsNumbering nodes.now }
    requires object { IsObject tables.now nodes.now object.now }
    requires served { All (ListIsServed tables.now) (selection_view selection.now).branches }
    requires named { HasBranchNames (rules_at tables.now).lists selection.now }
    requires branch { ListIsServed tables.now (list_view branch) }
    requires at { (k : ℕ)
        × (slice_get (selection_view selection.now).branches k ≡ Some (list_view branch)) }
    ensures { IsTrue result → IsSure tables.now nodes.now object.now
        (selection_view selection.now) (list_view branch) }
{
    let Some(index) = tables.slots.index_of(branch) else {
        return false;
    };
    let list = &tables.lists[index];
    if !tells(tables, list) {
        return false;
    }
    selection.branches.len() == 1 || fits(tables, nodes, object, selection, list)
}

impl<'c> Frame<'_, 'c> {
    /// The path of the next part.
    fn path(&self, tables: &Tables<'c>) -> Result<FieldPath<'c>, AllocError>
        ensures { IfOk result (λ path. path ≡ path_at tables.now.shapes.now self.now.place
            (list_view self.now.list.now.id) self.now.next) }
    {
        path_at(
            tables.alloc,
            tables.shapes,
            &self.place,
            self.list.id,
            self.next,
        )
    }

    /// The same list, one part further.
    fn behind(self) -> Self
        requires { self.next + 1 < 2 ^ 64 }
        ensures { result ≡ record self.entry { next = self.entry.next + 1 } }
    {
        Frame {
            list: self.list,
            next: self.next + 1,
            place: self.place,
        }
    }
}

impl<'r, 'c> Way<'r, 'c> {
    /// Takes the next part of the innermost list. What it is goes behind the steps. It tells which
    /// list is the innermost then; `None` where no list is left.
    fn go_on(
        &mut self,
        tables: &'r Tables<'c>,
        nodes: &Nodes<'_, '_>,
        memo: &mut Memo,
        object: &Object<'r, 'c>,
        frame: Frame<'r, 'c>,
    ) -> Result<Option<Frame<'r, 'c>>, NotOne>
        requires sound { AreSound tables.now nodes.now memo.old.entries.items }
        requires object { IsObject tables.now nodes.now object.now }
        requires counts { AreKnownCounts tables.now nodes.now object.now self.old.counts }
        requires under_way { IsGoing tables.now nodes.now object.now
            (self.old.frames.items ++ frame ∷ []) self.old.steps.items }
        ensures sound { AreSound tables.now nodes.now memo.new.entries.items }
        ensures counts { OnOk result
            (AreKnownCounts tables.now nodes.now object.now self.new.counts) }
        ensures under_way { IfOk result (λ inner. IsGoing tables.now nodes.now object.now
            (with_inner self.new.frames.items inner) self.new.steps.items) }
        ensures not_one { IfErr result (λ e.
            IsNotOne e (IsListCount tables.now nodes.now object.now object.now.list.now One)) }
        ensures none { IfOk result (λ inner. IsNone inner → self.new.frames.items ≡ []) }
    {
        let list = frame.list;
        let Some(part) = list.parts.get(frame.next) else {
            return Ok(self.frames.pop());
        };
        match part {
            Part::Member(member) => {
                let path = frame.path(tables)?;
                self.steps.push(Step::Field(path, member))?;
                Ok(Some(frame.behind()))
            }
            Part::CatchAll(catch_all) => {
                self.steps.push(Step::Rest(catch_all))?;
                Ok(Some(frame.behind()))
            }
            Part::Selection(selection) => {
                let counts = &mut self.counts;
                let Some(k) = choose(tables, nodes, memo, object, selection, counts)? else {
                    self.pass(tables, &frame, selection)?;
                    return Ok(Some(frame.behind()));
                };
                let path = frame.path(tables)?;
                let name = field_name(tables.shapes, list.id, frame.next);
                match self.enter(tables, path, name, &selection.branches[k])? {
                    Some(inner) => {
                        self.frames.push(frame.behind())?;
                        Ok(Some(inner))
                    }
                    None => Ok(Some(frame.behind())),
                }
            }
        }
    }

    /// The absence of a selection, which is the next part of a list, goes behind the steps, if it
    /// is of an enum.
    fn pass(
        &mut self,
        tables: &Tables<'c>,
        frame: &Frame<'r, 'c>,
        selection: &Selection<'_>,
    ) -> Result<(), AllocError>
        ensures steps { OnOk result (IsLeftOut (path_at tables.now.shapes.now frame.now.place
            (list_view frame.now.list.now.id) frame.now.next) (selection_view selection.now)
            self.old.steps.items self.new.steps.items) }
        ensures frames { self.new.frames.items ≡ self.old.frames.items }
        ensures counts { self.new.counts ≡ self.old.counts }
    {
        if is_of_enum(selection) {
            let path = frame.path(tables)?;
            self.steps.push(Step::Absence(path))?;
        }
        Ok(())
    }

    /// The variant that a branch at a path selects, if it is one, goes behind the steps.
    fn select(&mut self, path: FieldPath<'c>, branch: &ListId) -> Result<(), AllocError>
        ensures steps { OnOk result (IsSelected path.entry (list_view branch.now)
            self.old.steps.items self.new.steps.items) }
        ensures frames { self.new.frames.items ≡ self.old.frames.items }
        ensures counts { self.new.counts ≡ self.old.counts }
    {
        if let ListId::Branch(id, k) = branch {
            self.steps.push(Step::Variant(path, *id, *k))?;
        }
        Ok(())
    }

    /// Where the parts of a branch stand that is chosen at the path of a field. The variant that it
    /// selects, if it is one, goes behind the steps.
    fn select_above(
        &mut self,
        tables: &Tables<'c>,
        path: FieldPath<'c>,
        field: &'c str,
        branch: &ListId,
    ) -> Result<FieldPath<'c>, AllocError>
        ensures place { IfOk result (λ place. place ≡ place_below tables.now.shapes.now path.entry
            field.now (list_view branch.now)) }
        ensures steps { OnOk result (IsSelected path.entry (list_view branch.now)
            self.old.steps.items self.new.steps.items) }
        ensures frames { self.new.frames.items ≡ self.old.frames.items }
        ensures counts { self.new.counts ≡ self.old.counts }
    {
        match branch {
            ListId::Branch(..) => {
                let place = place_below(tables.alloc, tables.shapes, &path, field, *branch)?;
                self.select(path, branch)?;
                Ok(place)
            }
            _ => Ok(path),
        }
    }

    /// Where the list of a branch begins that is chosen at the path of a field; `None` where the
    /// list has nothing to tell, so that it is passed over. The variant that the branch selects, if
    /// it is one, goes behind the steps.
    fn enter(
        &mut self,
        tables: &'r Tables<'c>,
        path: FieldPath<'c>,
        field: &'c str,
        branch: &ListId,
    ) -> Result<Option<Frame<'r, 'c>>, AllocError>
        requires tables { AreTables tables.now }
        requires served { ListIsServed tables.now (list_view branch.now) }
        requires chosen { HasChoice (Chooses (rules_at tables.now).lists (list_view branch.now)) }
        ensures counts { self.new.counts ≡ self.old.counts }
        ensures entered { IfOk result (IsInnermost tables.now (list_view branch.now)
            (place_below tables.now.shapes.now path.entry field.now (list_view branch.now))) }
        ensures steps { OnOk result (IsSelected path.entry (list_view branch.now)
            self.old.steps.items self.new.steps.items) }
        ensures frames { self.new.frames.items ≡ self.old.frames.items }
    {
        let Some(index) = tables.slots.index_of(*branch) else {
            unreachable!()
        };
        let list = &tables.lists[index];
        if !tells(tables, list) {
            self.select(path, branch)?;
            return Ok(None);
        }
        let place = self.select_above(tables, path, field, branch)?;
        Ok(Some(Frame {
            list,
            next: 0,
            place,
        }))
    }
}
