//! What steps select, where their members stand, and what takes the rest.
ghost use Rattle.std.specs.Prelude.{◌≡◌, ◌++◌, ◌∷◌, [], IfOk, OnOk, map};
ghost use Rattle.std.specs.Option.{option_map};
ghost use Rattle.facet_solver_shape.specs.Resolved.{selection_view};
ghost use Rattle.facet_solver_reader.specs.Found as spec;
ghost use Rattle.facet_solver_reader.specs.Planned.{step_view};
ghost use Rattle.facet_solver_reader.specs.Told.{paths_view, place_view};
ghost use Rattle.facet_solver_reader.specs.Views.{catch_all_view};

use super::steps::Step;
use crate::field_at::{shape_name, variant_name};
use crate::part::CatchAll;
use crate::reading::FieldPlace;
use facet_solver_shape::{FieldPath, Shapes, VariantSelection};
use std::alloc::{AllocError, Global};

/// What steps tell: the variants that they select, with their paths, the paths of the enums that
/// are absent, and where their members stand.
#[derive(Drop)]
pub(super) struct Found<'c> {
    pub(super) selections: Vec<VariantSelection<'c>>,
    pub(super) absent: Option<Box<Vec<FieldPath<'c>>>>,
    pub(super) fields: Vec<FieldPlace<'c>>,
}

impl<'c> Found<'c> {
    /// What steps tell, with room for so many members. Each path goes where it is told.
    pub(super) fn of(
        alloc: Global,
        shapes: &'c Shapes,
        steps: Vec<Step<'_, 'c>>,
        members: usize,
    ) -> Result<Found<'c>, AllocError>
        ensures selections { IfOk result (λ found. map selection_view found.selections.items
            ≡ spec.selections_in shapes.now (map step_view steps.entry.items)) }
        ensures absent { IfOk result (λ found. paths_view found.absent
            ≡ spec.absences_in (map step_view steps.entry.items)) }
        ensures fields { IfOk result (λ found. map place_view found.fields.items
            ≡ spec.places_in (map step_view steps.entry.items)) }
    {
        let fields = Vec::with_capacity(alloc, members)?;
        let mut found = Found {
            selections: Vec::new(alloc),
            absent: None,
            fields,
        };
        for step in steps {
            found.add(alloc, shapes, step)?;
        }
        Ok(found)
    }

    /// What one more step tells.
    fn add(
        &mut self,
        alloc: Global,
        shapes: &'c Shapes,
        step: Step<'_, 'c>,
    ) -> Result<(), AllocError>
        ensures selections { OnOk result (map selection_view self.new.selections.items
            ≡ map selection_view self.old.selections.items
            ++ spec.selections_in shapes.now (step_view step.entry ∷ [])) }
        ensures absent { OnOk result (paths_view self.new.absent
            ≡ paths_view self.old.absent ++ spec.absences_in (step_view step.entry ∷ [])) }
        ensures fields { OnOk result (map place_view self.new.fields.items
            ≡ map place_view self.old.fields.items ++ spec.places_in (step_view step.entry ∷ [])) }
    {
        match step {
            Step::Variant(path, shape, variant) => self.selections.push(VariantSelection {
                path,
                enum_name: shape_name(shapes, shape),
                variant_name: variant_name(shapes, shape, variant),
            })?,
            Step::Absence(path) => self.add_absent(alloc, path)?,
            Step::Field(path, member) => self.fields.push(FieldPlace {
                path,
                name: member.name,
            })?,
            Step::Rest(_) => {}
        }
        Ok(())
    }

    /// The path of one more enum that is absent. Memory is taken with the first of them.
    fn add_absent(&mut self, alloc: Global, path: FieldPath<'c>) -> Result<(), AllocError>
        ensures absent { OnOk result
            (paths_view self.new.absent ≡ paths_view self.old.absent ++ path.entry ∷ []) }
        ensures selections { self.new.selections ≡ self.old.selections }
        ensures fields { self.new.fields ≡ self.old.fields }
    {
        let mut absent = match self.absent.take() {
            Some(absent) => absent,
            None => Box::new(alloc, Vec::new(alloc))?,
        };
        absent.push(path)?;
        self.absent = Some(absent);
        Ok(())
    }
}

/// The first catch-all among steps.
pub(super) fn catch_all_in<'s>(steps: &'s [Step<'_, '_>]) -> Option<&'s CatchAll>
    ensures { option_map (λ k. catch_all_view k.now) result
        ≡ spec.catch_all_in (map step_view steps.now) }
{
    for step in steps {
        if let Step::Rest(catch_all) = step {
            return Some(catch_all);
        }
    }
    None
}
