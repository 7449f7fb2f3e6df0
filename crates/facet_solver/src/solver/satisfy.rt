//! The calls that say which shapes a value fits.
ghost use Rattle.std.specs.Prelude.{◌≡◌, IfOk};
ghost use Rattle.facet_solver_shape.specs.Names.{names_of};
ghost use Rattle.facet_solver.specs.solver.SatisfyResult.{IsSatisfyResultOf, satisfy_result, satisfy_result_view};
ghost use Rattle.facet_solver.specs.solver.ShapeAtPath as at_path;
ghost use Rattle.facet_solver.specs.solver.State as state;

use crate::schema::handle::ResolutionHandle;
use crate::solver::Solver;
use crate::solver::conditions::shape_among::HasShapeAmong;
use crate::solver::satisfy_result::SatisfyResult;
use crate::solver::shape_at_path::{HasShapeAtPath, distinct_shapes};
use facet_solver_shape::{FieldInfo, ShapeId};
use std::alloc::{AllocError, Global};

impl<'s, 'c> Solver<'s, 'c, '_> {
    /// Says that a value fits any of the fields. Only the candidates stay that have a field with
    /// the shape of one of them. Where none has one, none stays.
    ///
    /// The answer says how many candidates are left. The call allocates nothing.
    pub fn satisfy(&mut self, fields: &[&FieldInfo<'_>]) -> SatisfyResult<'s, 'c>
        ensures answer { satisfy_result_view result ≡ satisfy_result self.new }
        ensures handle { IsSatisfyResultOf self.old.schema result }
        ensures narrowed { self.new ≡ state.satisfy fields.now self.old }
    {
        self.retain(HasShapeAmong { items: fields });
        self.satisfy_result()
    }

    /// Says that a value fits any of the shapes. Only the candidates stay that have a field of one
    /// of them. Where none has one, none stays.
    ///
    /// The answer says how many candidates are left. The call allocates nothing.
    pub fn satisfy_shapes(&mut self, shapes: &[ShapeId]) -> SatisfyResult<'s, 'c>
        ensures answer { satisfy_result_view result ≡ satisfy_result self.new }
        ensures handle { IsSatisfyResultOf self.old.schema result }
        ensures narrowed { self.new ≡ state.satisfy_shapes shapes.now self.old }
    {
        self.retain(HasShapeAmong { items: shapes });
        self.satisfy_result()
    }

    /// Says that the value at a path of names fits any of the shapes. Only the candidates stay
    /// whose shape at the path is one of them. Where there is none, none stays.
    ///
    /// A candidate has no shape at the empty path, nor where the path leads through anything but
    /// structs. The answer says how many candidates are left. The call allocates nothing.
    pub fn satisfy_at_path(&mut self, path: &[&str], shapes: &[ShapeId]) -> SatisfyResult<'s, 'c>
        ensures answer { satisfy_result_view result ≡ satisfy_result self.new }
        ensures handle { IsSatisfyResultOf self.old.schema result }
        ensures narrowed { self.new
            ≡ at_path.satisfy_at_path (names_of path.now) shapes.now self.old }
    {
        let catalogue = self.schema.shapes();
        self.retain(HasShapeAtPath {
            catalogue,
            path,
            shapes,
        });
        self.satisfy_result()
    }

    /// The shapes of the candidates at a path of names, each once, in the order of the candidates.
    /// It is empty where no candidate has a shape there.
    ///
    /// The only error is out of memory.
    pub fn get_shapes_at_path(
        &self,
        alloc: Global,
        path: &[&str],
    ) -> Result<Vec<ShapeId>, AllocError>
        ensures { IfOk result
            (λ shapes. shapes.items ≡ at_path.get_shapes_at_path (names_of path.now) self.now) }
    {
        distinct_shapes(alloc, self.schema, &self.candidates, path)
    }

    /// The answer by the number of candidates that are left.
    fn satisfy_result(&self) -> SatisfyResult<'s, 'c>
        ensures answer { satisfy_result_view result ≡ satisfy_result self.now }
        ensures handle { IsSatisfyResultOf self.now.schema result }
    {
        let mut indices = self.candidates.iter();
        match (indices.next(), indices.next()) {
            (None, _) => SatisfyResult::NoMatch,
            (Some(index), None) => SatisfyResult::Solved(ResolutionHandle::new(self.schema, index)),
            _ => SatisfyResult::Continue,
        }
    }
}
