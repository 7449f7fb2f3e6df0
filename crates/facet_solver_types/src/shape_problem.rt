//! Why types have no shapes.
ghost use Rattle.std.specs.Prelude.{Some};
ghost use Rattle.facet_solver_types.specs.ShapeProblems.{shape_problem_text};

use std::fmt;

/// Why types have no shapes.
#[derive(Clone, Copy, Debug, PartialEq, Eq)]
pub enum ShapeProblem {
    /// A struct or enum holds itself, with nothing between that may be empty.
    HoldsItself,
    /// The type of a flattened field has no fields that could stand among others.
    NoMembers,
}

/// Why the declaration or the field that is met has no shape.
#[derive(Clone, Copy)]
pub(crate) struct Unshaped<'t> {
    pub(crate) problem: ShapeProblem,
    pub(crate) met: &'t str,
}

impl fmt::Display for Unshaped<'_> {
    ghost output = { λ u. Some (shape_problem_text u.problem u.met.now) };

    fn fmt<W: fmt::Write>(&self, f: &mut fmt::Formatter<W>) -> fmt::Result {
        let met = self.met;
        match self.problem {
            ShapeProblem::HoldsItself => {
                write!(f, "'{met}' holds itself; put it in a Box or a Vec")
            }
            ShapeProblem::NoMembers => {
                write!(
                    f,
                    "'{met}' takes a struct with named fields, an enum, a map, a dynamic value, or an option of one"
                )
            }
        }
    }
}
