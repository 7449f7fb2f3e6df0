//! The numbers of targets: what asks the same value on has a higher number than what it asks.
ghost use Rattle.std.specs.Prelude.{◌≡◌, All, IfOk, MatchOption, OnOk, Some, map, slice_get};
ghost use Rattle.facet_solver_reader.specs.Parts.{of_shape};
ghost use Rattle.facet_solver_reader.specs.PlanNumbers.{AreFound, AreMore, AreNumbers, AreNumbersOf, EndsAreNumbered, HasNumber, IsPut, ListsAreNumbered, PartIsNumbered, VariantsHave, targets_of};
ghost use Rattle.facet_solver_reader.specs.Reached.{IsRanked};
ghost use Rattle.facet_solver_reader.specs.Tables.{AreTables, EndIsServed, IsServed, PartIsServed, rules_at};
ghost use Rattle.facet_solver_reader.specs.TargetKeys.{key_view};
ghost use Rattle.facet_solver_reader.specs.Views.{alternative_view, end_view, named_view, part_view, parts_view, target_view};

use super::asked::asked_by;
use super::target_key::TargetKey;
use crate::end::{Alternative, End, NamedVariant};
use crate::part::{Part, Target};
use crate::tables::Tables;
use facet_solver_shape::ShapeId;
use std::alloc::{AllocError, Global};
use std::collections::BTreeMap;

/// The targets in order, and the number of each.
#[derive(Drop)]
pub(super) struct Numbers<'c> {
    pub(super) targets: Vec<TargetKey<'c>>,
    by_target: BTreeMap<TargetKey<'c>, usize>,
}

impl<'c> Numbers<'c> {
    /// The numbers of the targets of a type.
    pub(super) fn new(alloc: Global, tables: &Tables<'c>) -> Result<Numbers<'c>, AllocError>
        requires { AreTables tables.now }
        ensures { IfOk result (AreNumbersOf tables.now) }
    {
        let mut numbers = Numbers {
            targets: Vec::new(alloc),
            by_target: BTreeMap::new(alloc),
        };
        numbers.number_ends(alloc, tables)?;
        numbers.number_lists(alloc, tables)?;
        Ok(numbers)
    }

    /// The number of a target that has one.
    pub(super) fn of(&self, target: &Target<'c>) -> usize
        requires found { AreFound self.now }
        requires numbered { HasNumber self.now (target_view target.now) }
        ensures { slice_get (targets_of self.now) result ≡ Some (target_view target.now) }
    {
        match self.find(&TargetKey::of(target)) {
            Some(number) => number,
            None => unreachable!(),
        }
    }

    /// The number of a shape that has one.
    pub(super) fn of_shape(&self, id: ShapeId) -> usize
        requires found { AreFound self.now }
        requires numbered { HasNumber self.now (of_shape id) }
        ensures { slice_get (targets_of self.now) result ≡ Some (of_shape id) }
    {
        self.of(&Target::Shape(id))
    }

    /// The number of a target, if it has one.
    fn find(&self, target: &TargetKey<'c>) -> Option<usize>
        requires { AreFound self.now }
        ensures { MatchOption result (HasNumber self.now (key_view target.now) → ⊥)
            (λ k. slice_get (targets_of self.now) k ≡ Some (key_view target.now)) }
    {
        self.by_target.get(target).copied()
    }

    /// Gives a target the next number, if it has none.
    fn add(&mut self, target: &TargetKey<'c>) -> Result<(), AllocError>
        requires { AreFound self.old }
        ensures found { OnOk result (AreFound self.new) }
        ensures put { OnOk result
            (IsPut (key_view target.now) (targets_of self.old) (targets_of self.new)) }
    {
        if self.find(target).is_none() {
            self.by_target.insert(*target, self.targets.len())?;
            self.targets.push(*target)?;
        }
        Ok(())
    }

    /// Numbers a target, after those that it asks of the same value. No way of asking on from it
    /// has as many targets as there are steps.
    fn number_within(
        &mut self,
        alloc: Global,
        tables: &Tables<'c>,
        target: &TargetKey<'c>,
        steps: usize,
    ) -> Result<(), AllocError>
        requires tables { AreTables tables.now }
        requires numbers { AreNumbers tables.now self.old }
        requires served { IsServed tables.now (key_view target.now) }
        requires ranked { IsRanked steps (rules_at tables.now) (key_view target.now) }
        ensures more { OnOk result (AreMore tables.now self.old self.new) }
        ensures numbered { OnOk result (HasNumber self.new (key_view target.now)) }
    {
        if self.find(target).is_some() {
            return Ok(());
        }
        let asked = asked_by(alloc, tables, target)?;
        for next in &asked {
            self.number_within(alloc, tables, next, steps - 1)?;
        }
        self.add(target)
    }

    /// Numbers a target, after those that it asks of the same value.
    fn number(
        &mut self,
        alloc: Global,
        tables: &Tables<'c>,
        target: &Target<'c>,
    ) -> Result<(), AllocError>
        requires tables { AreTables tables.now }
        requires numbers { AreNumbers tables.now self.old }
        requires served { IsServed tables.now (target_view target.now) }
        ensures more { OnOk result (AreMore tables.now self.old self.new) }
        ensures numbered { OnOk result (HasNumber self.new (target_view target.now)) }
    {
        self.number_within(alloc, tables, &TargetKey::of(target), tables.steps)
    }

    /// Numbers the shapes that have ends, and the contents of their variants.
    fn number_ends(&mut self, alloc: Global, tables: &Tables<'c>) -> Result<(), AllocError>
        requires tables { AreTables tables.now }
        requires numbers { AreNumbers tables.now self.old }
        ensures more { OnOk result (AreMore tables.now self.old self.new) }
        ensures numbered { OnOk result (EndsAreNumbered tables.now self.new) }
    {
        for index in 0..tables.ends.len() {
            match &tables.ends[index] {
                Some(end) => self.number_end(alloc, tables, ShapeId::new(index), end)?,
                None => {}
            }
        }
        Ok(())
    }

    /// Numbers a shape that has an end, and the contents of its variants.
    fn number_end(
        &mut self,
        alloc: Global,
        tables: &Tables<'c>,
        id: ShapeId,
        end: &End<'c>,
    ) -> Result<(), AllocError>
        requires tables { AreTables tables.now }
        requires numbers { AreNumbers tables.now self.old }
        requires end { slice_get tables.now.ends.items id ≡ Some (Some end.now) }
        ensures more { OnOk result (AreMore tables.now self.old self.new) }
        ensures shape { OnOk result (HasNumber self.new (of_shape id)) }
        ensures variants { OnOk result (VariantsHave (HasNumber self.new) (end_view end.now)) }
    {
        self.number(alloc, tables, &Target::Shape(id))?;
        self.number_variants(alloc, tables, end)
    }

    /// Numbers the contents of the variants of an end.
    fn number_variants(
        &mut self,
        alloc: Global,
        tables: &Tables<'c>,
        end: &End<'c>,
    ) -> Result<(), AllocError>
        requires tables { AreTables tables.now }
        requires numbers { AreNumbers tables.now self.old }
        requires served { EndIsServed tables.now (end_view end.now) }
        ensures more { OnOk result (AreMore tables.now self.old self.new) }
        ensures numbered { OnOk result (VariantsHave (HasNumber self.new) (end_view end.now)) }
    {
        match end {
            End::NamedVariant(variants) => self.number_named(alloc, tables, variants),
            End::UntaggedVariant(_, alone) => self.number_alone(alloc, tables, alone),
            _ => Ok(()),
        }
    }

    /// Numbers the contents of variants that a document names.
    fn number_named(
        &mut self,
        alloc: Global,
        tables: &Tables<'c>,
        variants: &[NamedVariant<'c>],
    ) -> Result<(), AllocError>
        requires tables { AreTables tables.now }
        requires numbers { AreNumbers tables.now self.old }
        requires served { All (λ v. IsServed tables.now v.content) (map named_view variants.now) }
        ensures more { OnOk result (AreMore tables.now self.old self.new) }
        ensures numbered { OnOk result
            (All (λ v. HasNumber self.new v.content) (map named_view variants.now)) }
    {
        for variant in variants {
            self.number(alloc, tables, &variant.content)?;
        }
        Ok(())
    }

    /// Numbers the contents of variants that read a value by themselves.
    fn number_alone(
        &mut self,
        alloc: Global,
        tables: &Tables<'c>,
        alone: &[Alternative<'c>],
    ) -> Result<(), AllocError>
        requires tables { AreTables tables.now }
        requires numbers { AreNumbers tables.now self.old }
        requires served { All (λ a. IsServed tables.now a.content) (map alternative_view alone.now) }
        ensures more { OnOk result (AreMore tables.now self.old self.new) }
        ensures numbered { OnOk result
            (All (λ a. HasNumber self.new a.content) (map alternative_view alone.now)) }
    {
        for alternative in alone {
            self.number(alloc, tables, &alternative.content)?;
        }
        Ok(())
    }

    /// Numbers what the members of lists are read as.
    fn number_lists(&mut self, alloc: Global, tables: &Tables<'c>) -> Result<(), AllocError>
        requires tables { AreTables tables.now }
        requires numbers { AreNumbers tables.now self.old }
        ensures more { OnOk result (AreMore tables.now self.old self.new) }
        ensures numbered { OnOk result (ListsAreNumbered tables.now self.new) }
    {
        for list in &tables.lists {
            self.number_members(alloc, tables, &list.parts)?;
        }
        Ok(())
    }

    /// Numbers what the members among parts are read as.
    fn number_members(
        &mut self,
        alloc: Global,
        tables: &Tables<'c>,
        parts: &[Part<'c>],
    ) -> Result<(), AllocError>
        requires tables { AreTables tables.now }
        requires numbers { AreNumbers tables.now self.old }
        requires served { All (PartIsServed tables.now) (parts_view parts.now) }
        ensures more { OnOk result (AreMore tables.now self.old self.new) }
        ensures numbered { OnOk result
            (All (PartIsNumbered self.new) (parts_view parts.now)) }
    {
        for part in parts {
            self.number_part(alloc, tables, part)?;
        }
        Ok(())
    }

    /// Numbers what a part is read as, if it is a member.
    fn number_part(
        &mut self,
        alloc: Global,
        tables: &Tables<'c>,
        part: &Part<'c>,
    ) -> Result<(), AllocError>
        requires tables { AreTables tables.now }
        requires numbers { AreNumbers tables.now self.old }
        requires served { PartIsServed tables.now (part_view part.now) }
        ensures more { OnOk result (AreMore tables.now self.old self.new) }
        ensures numbered { OnOk result (PartIsNumbered self.new (part_view part.now)) }
    {
        match part {
            Part::Member(member) => self.number(alloc, tables, &member.target),
            Part::Selection(_) | Part::CatchAll(_) => Ok(()),
        }
    }
}
