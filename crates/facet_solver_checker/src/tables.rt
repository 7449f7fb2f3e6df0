//! What is found of a plan, with the plan.
use crate::apart::Apart;
use crate::atoms::Atoms;
use crate::required::Required;
use crate::touched::Touched;
use facet_solver_reader::Plan;

/// A plan and what is found of its lists and targets.
#[derive(Clone, Copy)]
pub(crate) struct Tables<'t, 'c> {
    /// The plan.
    pub(crate) plan: &'t Plan<'c>,
    /// The names that the choices of its lists require.
    pub(crate) required: &'t Required<'c>,
    /// The lists that read only objects which have a member of theirs.
    pub(crate) touched: &'t Touched,
    /// The atoms of its targets.
    pub(crate) atoms: &'t [Atoms],
    /// The pairs of targets that read no value in common.
    pub(crate) apart: &'t Apart<'t>,
}
