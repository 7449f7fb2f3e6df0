//! The end of a solver: the one candidate that is viable, or why there is none.
ghost use Rattle.std.specs.Prelude.{◌≡◌, ◌↔◌, ◌∷◌, [], ℕ, IfErr, IfOk, IsOk, length};
ghost use Rattle.facet_solver_shape.specs.Names.{Name};
ghost use Rattle.facet_solver.specs.solver.Found.{GivesOrNames};
ghost use Rattle.facet_solver.specs.set.IndexSet.{IsWithin, how_many, matches_view};
ghost use Rattle.facet_solver.specs.schema.ResolutionHandle.{IsHandleOf, index_of};
ghost use Rattle.facet_solver.specs.solver.Told.{EndsWithOrNames};
ghost use Rattle.facet_solver.specs.solver.Report.{IsReportOn, state_of_report, viable};

use crate::error::SolverError;
use crate::schema::handle::ResolutionHandle;
use crate::set::Matches;
use crate::solver::Solver;
use crate::solver::conditions::viable::IsViable;
use crate::solver::report::Report;
use std::alloc::Global;

impl<'s, 'c, 'a> Solver<'s, 'c, 'a> {
    /// The one candidate that is viable: a seen key matches each of its required fields.
    ///
    /// Errors: `NoMatch` where no candidate is viable; `Ambiguous` where several are; `OutOfMemory`
    /// where there is no memory for the lists of these. An `Ok` allocates nothing, so it does not
    /// run out of memory.
    pub fn finish(self, alloc: Global) -> Result<ResolutionHandle<'s, 'c>, SolverError<'c>>
        ensures one { IsOk result ↔ (length (viable self.entry) ≡ 1) }
        ensures index { IfOk result (λ handle. viable self.entry ≡ index_of handle ∷ []) }
        ensures handle { IfOk result (IsHandleOf self.entry.schema) }
        ensures refused { IfErr result (IsReportOn self.entry) }
        ensures found { (index : ℕ) (text : Name)
            → EndsWithOrNames self.entry index text → GivesOrNames self.entry index text result }
    {
        self.verdict(alloc)
    }

    /// That answer. The solver is only read here, so that it is dropped in one place.
    fn verdict(&self, alloc: Global) -> Result<ResolutionHandle<'s, 'c>, SolverError<'c>>
        ensures one { IsOk result ↔ (length (viable self.now) ≡ 1) }
        ensures index { IfOk result (λ handle. viable self.now ≡ index_of handle ∷ []) }
        ensures handle { IfOk result (IsHandleOf self.now.schema) }
        ensures refused { IfErr result (IsReportOn self.now) }
    {
        match self.viable() {
            Matches::None => Err(self.report(alloc).no_match()?),
            Matches::One(index) => Ok(ResolutionHandle::new(self.schema, index)),
            Matches::Several => Err(self.report(alloc).ambiguity()?),
        }
    }

    /// The candidates that are viable, as far as their number matters.
    fn viable(&self) -> Matches
        ensures number { matches_view result ≡ how_many (viable self.now) }
        ensures within { IsWithin (length self.now.schema.resolutions) result }
    {
        self.matching(IsViable { seen: &self.seen })
    }

    /// What a report is made from.
    fn report(&self, alloc: Global) -> Report<'_, 'c, 'a>
        ensures { state_of_report result ≡ self.now }
    {
        Report {
            alloc,
            schema: self.schema,
            candidates: &self.candidates,
            seen: &self.seen,
        }
    }
}
