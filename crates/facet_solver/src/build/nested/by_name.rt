//! Fields by name: what key paths go through.
ghost use Rattle.std.specs.Prelude.{◌≡◌, [], ℕ, Bool, IfOk, IsTrue, OnOk, true};
ghost use Rattle.std.specs.List.{AllByRecursion};
ghost use Rattle.std.specs.List.Sorted.{IsSortedByKey, IsStrictlySortedBy-prop};
ghost use Rattle.std.specs.FinSet as set;
ghost use Rattle.facet_solver_shape.specs.Names.{name_ref_cmp};
ghost use Rattle.facet_solver.specs.build.Nested.{Under, paths_of_each};
ghost use Rattle.facet_solver.specs.build.NestedNames.{AreRising, HasEachOnce, NamesLead, paths_of_names};

use crate::build::nested::shapes_behind::ShapesBehind;
use std::alloc::{AllocError, Global};

/// A name of regular fields, and the shapes of these fields that are entered.
pub(crate) type NamedShapes<'c> = (&'c str, ShapesBehind);

/// Regular fields by name: behind each name the shapes of these fields that are entered, each once.
/// The names rise. Where structs are flattened their fields are taken together, so they are no more
/// than the fields of a catalogue, whatever key paths there are.
#[derive(Drop)]
pub(crate) struct FieldsByName<'c> {
    pub(crate) by_name: Vec<NamedShapes<'c>>,
    ghost rise: { AreRising by_name.items } by { IsStrictlySortedBy-prop name_ref_cmp _ },
}

impl<'c> FieldsByName<'c> {
    /// No field.
    pub(crate) fn empty(alloc: Global) -> Self
        ensures { result.by_name.items ≡ [] }
    {
        FieldsByName {
            by_name: Vec::new(alloc),
        }
    }

    /// Fields that were gathered in any order, where a name may be there more than once.
    pub(crate) fn new(
        alloc: Global,
        gathered: Vec<NamedShapes<'c>>,
    ) -> Result<FieldsByName<'c>, AllocError>
        ensures paths { IfOk result (λ fields. (under : Under)
            → paths_of_names under fields.by_name.items
            ≡ paths_of_names under gathered.entry.items) }
        ensures lead { IfOk result (λ fields. (passes : ℕ → Bool)
            → NamesLead passes gathered.entry.items → NamesLead passes fields.by_name.items) }
    {
        if are_rising(&gathered) {
            return Ok(FieldsByName { by_name: gathered });
        }
        let mut sorted = gathered;
        sorted.sort_unstable_by_key(|named| named.0);
        if are_rising(&sorted) {
            return Ok(FieldsByName { by_name: sorted });
        }
        let by_name = joined(alloc, sorted)?;
        Ok(FieldsByName { by_name })
    }

    /// All these fields together.
    pub(crate) fn together(
        alloc: Global,
        each: &[FieldsByName<'c>],
    ) -> Result<FieldsByName<'c>, AllocError>
        ensures paths { IfOk result (λ fields. (under : Under)
            → paths_of_names under fields.by_name.items
            ≡ paths_of_each (λ some. paths_of_names under some.by_name.items) each.now) }
        ensures lead { IfOk result (λ fields. (passes : ℕ → Bool)
            → AllByRecursion (λ some. NamesLead passes some.by_name.items) each.now
            → NamesLead passes fields.by_name.items) }
    {
        let mut gathered = Vec::new(alloc);
        for fields in each {
            add_copies(alloc, fields, &mut gathered)?;
        }
        FieldsByName::new(alloc, gathered)
    }
}

/// Whether each name is before the next.
fn are_rising(names: &[NamedShapes<'_>]) -> bool
    ensures { IsTrue result → AreRising names.now }
{
    for later in 1..names.len() {
        if names[later - 1].0 >= names[later].0 {
            return false;
        }
    }
    true
}

/// Each of the names once, with the shapes of all that are the same, which stand side by side.
fn joined<'c>(
    alloc: Global,
    sorted: Vec<NamedShapes<'c>>,
) -> Result<Vec<NamedShapes<'c>>, AllocError>
    requires { IsSortedByKey (λ e. e.0) name_ref_cmp sorted.items }
    ensures paths { IfOk result (λ joined. (under : Under)
        → paths_of_names under joined.items ≡ paths_of_names under sorted.entry.items) }
    ensures lead { IfOk result (λ joined. (passes : ℕ → Bool)
        → NamesLead passes sorted.entry.items → NamesLead passes joined.items) }
    ensures rise { IfOk result (λ joined. AreRising joined.items) }
    ensures once { IfOk result (λ joined. AllByRecursion (λ e. HasEachOnce e.1) joined.items) }
{
    let mut joined = Vec::new(alloc);
    let mut rest = sorted.into_iter();
    let Some(mut last) = rest.next() else {
        return Ok(joined);
    };
    for named in rest {
        if named.0 == last.0 {
            last.1.add(alloc, named.1.as_slice())?;
            continue;
        }
        last.1.drop_repeats();
        joined.push(last)?;
        last = named;
    }
    last.1.drop_repeats();
    joined.push(last)?;
    Ok(joined)
}

/// Adds copies of fields to those that were gathered. After an error some of them may have been
/// added.
pub(crate) fn add_copies<'c>(
    alloc: Global,
    fields: &FieldsByName<'c>,
    gathered: &mut Vec<NamedShapes<'c>>,
) -> Result<(), AllocError>
    ensures paths { OnOk result ((under : Under) → paths_of_names under gathered.new.items
        ≡ set.union (paths_of_names under gathered.old.items)
        (paths_of_names under fields.now.by_name.items)) }
    ensures lead { OnOk result ((passes : ℕ → Bool) → NamesLead passes gathered.old.items
        → NamesLead passes fields.now.by_name.items → NamesLead passes gathered.new.items) }
{
    for (name, shapes) in &fields.by_name {
        gathered.push((*name, shapes.copied(alloc)?))?;
    }
    Ok(())
}
