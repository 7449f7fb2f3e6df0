//! What a solver reports where not exactly one candidate is viable.
ghost use Rattle.std.specs.Prelude.{◌≡◌, [], IfOk, map};
ghost use Rattle.std.specs.Option.{option_copied, option_map, option_map_or};
ghost use Rattle.facet_solver_shape.specs.Names.{names_of, optional_name};
ghost use Rattle.facet_solver_shape.specs.Resolved.{description};
ghost use Rattle.facet_solver.specs.solver.Failure as spec;
ghost use Rattle.facet_solver.specs.error.ErrorView.{ambiguous, error_view, failure_view, missing_view, no_match};
ghost use Rattle.facet_solver.specs.solver.SeenNames.{AreSeenNames};
ghost use Rattle.facet_solver.specs.solver.Report as reports;
ghost use Rattle.facet_solver.specs.solver.Report.{ambiguity_of, no_match_of, state_of_report};

pub(crate) mod failure;
pub(crate) mod names;
pub(crate) mod seen;
pub(crate) mod seen_entries;
pub(crate) mod viable;

use crate::error::{CandidateFailure, MissingFieldInfo, SolverError};
use crate::schema::Schema;
use crate::set::ResolutionSet;
use facet_solver_shape::{FieldKey, Resolution};
use failure::{failures_at, missing_fields};
use names::{AnyKey, IsUnknown, names_where};
use seen::SeenNames;
use std::alloc::{AllocError, Global};
use std::collections::BTreeSet;
use viable::{descriptions, disambiguating, viable_indices};

/// What a report is made from: the state of a solver.
#[derive(Clone, Copy)]
pub(crate) struct Report<'r, 'c, 'a> {
    pub(crate) alloc: Global,
    pub(crate) schema: &'r Schema<'c>,
    pub(crate) candidates: &'r ResolutionSet,
    pub(crate) seen: &'r BTreeSet<FieldKey<'a>>,
}

impl<'r, 'c, 'a> Report<'r, 'c, 'a> {
    /// The report that no candidate is viable.
    pub(crate) fn no_match(&self) -> Result<SolverError<'c>, AllocError>
        ensures { let state = state_of_report self.now in
            IfOk result (λ e. error_view e ≡ no_match (no_match_of state)) }
    {
        let alloc = self.alloc;
        let names = SeenNames::new(alloc, self.seen)?;
        let missing = self.closest_missing(&names)?;
        Ok(SolverError::NoMatch {
            input_fields: names_where(alloc, self.seen, AnyKey)?,
            missing_required: missing_names(alloc, &missing)?,
            missing_required_detailed: missing,
            unknown_fields: names_where(
                alloc,
                self.seen,
                IsUnknown {
                    schema: self.schema,
                },
            )?,
            closest_resolution: self.closest_description()?,
            candidate_failures: self.failures(&names)?,
        })
    }

    /// The report that several candidates are viable.
    pub(crate) fn ambiguity(&self) -> Result<SolverError<'c>, AllocError>
        ensures { let state = state_of_report self.now in
            IfOk result (λ e. error_view e ≡ ambiguous (ambiguity_of state)) }
    {
        let viable = viable_indices(self)?;
        Ok(SolverError::Ambiguous {
            candidates: descriptions(self.alloc, self.schema, &viable)?,
            disambiguating_fields: disambiguating(self.alloc, self.schema, &viable)?,
        })
    }

    /// The first candidate.
    fn closest(&self) -> Option<&'r Resolution<'c>>
        ensures { option_copied result ≡ reports.closest (state_of_report self.now) }
    {
        self.schema.resolutions().get(self.candidates.first()?)
    }

    /// The description of the first candidate.
    fn closest_description(&self) -> Result<Option<String>, AllocError>
        ensures { let closest = reports.closest (state_of_report self.now) in
            IfOk result (λ text.
            optional_name text ≡ option_map (λ r. description r.selections) closest) }
    {
        match self.closest() {
            Some(resolution) => Ok(Some(resolution.describe(self.alloc)?)),
            None => Ok(None),
        }
    }

    /// What the first candidate lacks.
    fn closest_missing(
        &self,
        names: &SeenNames<'_>,
    ) -> Result<Vec<MissingFieldInfo<'c>>, AllocError>
        requires { AreSeenNames (state_of_report self.now).seen names.now }
        ensures { let state = state_of_report self.now in
            IfOk result (λ fields. map missing_view fields.items
            ≡ option_map_or (spec.missing_fields state.schema.build.catalogue state.seen)
            (reports.closest state) []) }
    {
        match self.closest() {
            Some(resolution) => missing_fields(self.alloc, self.schema.shapes(), names, resolution),
            None => Ok(Vec::new(self.alloc)),
        }
    }

    /// Why the candidates are not the answer, or where there is none, all resolutions.
    fn failures(&self, names: &SeenNames<'_>) -> Result<Vec<CandidateFailure<'c>>, AllocError>
        requires { AreSeenNames (state_of_report self.now).seen names.now }
        ensures { let state = state_of_report self.now in
            IfOk result (λ failures. map failure_view failures.items
            ≡ map (spec.failure_of state.schema.build.catalogue state.seen)
            (reports.reported state)) }
    {
        if self.candidates.is_empty() {
            let all = ResolutionSet::full(self.alloc, self.schema.resolutions().len())?;
            failures_at(self, names, &all)
        } else {
            failures_at(self, names, self.candidates)
        }
    }
}

/// The names of missing fields.
fn missing_names<'c>(
    alloc: Global,
    fields: &[MissingFieldInfo<'c>],
) -> Result<Vec<&'c str>, AllocError>
    ensures { IfOk result (λ names. names_of names.items
        ≡ map (λ f. f.name) (map missing_view fields.now)) }
{
    let mut names = Vec::new(alloc);
    for field in fields {
        names.push(field.name)?;
    }
    Ok(names)
}
