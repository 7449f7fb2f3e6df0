//! What structs contribute where they are flattened, found once for each struct. So a struct whose
//! fields emit nothing that stays is gone through once, however often it is flattened.
ghost use Rattle.std.specs.Prelude.{◌≡◌, ◌<◌, ◌≤◌, IfOk, length};
ghost use Rattle.facet_solver.specs.build.Contribution as contribution;
ghost use Rattle.facet_solver.specs.build.Contribution.{AreContributions};
ghost use Rattle.facet_solver.specs.build.Build.{build_of, kind_at};
ghost use Rattle.facet_solver.specs.build.Nested.{structs_alone};

pub(crate) mod categories;

use crate::build::Build;
use categories::Categories;
use facet_solver_shape::{Field, FieldCategory, Role, ShapeId, ShapeKind, Shapes, role_of};
use std::alloc::AllocError;

/// What the walk of a struct's fields contributes.
#[derive(Clone, Copy)]
pub(crate) enum Contribution {
    /// Catch-alls alone are emitted, of these categories, and nothing is to be chosen.
    CatchAlls(Categories),
    /// Something else may be emitted, and nothing is to be chosen.
    Emissions,
    /// Something may be to be chosen.
    Choices,
}

impl Contribution {
    /// What both contribute.
    fn both(self, other: Contribution) -> Contribution
        ensures { result ≡ contribution.both self other }
    {
        match (self, other) {
            (Contribution::CatchAlls(first), Contribution::CatchAlls(second)) => {
                Contribution::CatchAlls(first.union(second))
            }
            (Contribution::CatchAlls(_), other) => other,
            (Contribution::Emissions, Contribution::CatchAlls(_) | Contribution::Emissions) =>
                Contribution::Emissions,
            (Contribution::Emissions, Contribution::Choices) | (Contribution::Choices, _) =>
                Contribution::Choices,
        }
    }

    /// Whether catch-alls alone are contributed, and one of the category.
    pub(crate) fn has_last(self, category: FieldCategory) -> bool
        ensures { result ≡ contribution.has_last category self }
    {
        match self {
            Contribution::CatchAlls(categories) => categories.has(category),
            Contribution::Emissions | Contribution::Choices => false,
        }
    }
}

/// What each struct before a root contributes, by index.
#[derive(Drop)]
pub(crate) struct ContributionTable {
    by_index: Vec<Contribution>,
}

impl ContributionTable {
    /// Finds them in order: the fields of a struct refer to earlier shapes. The table ends with the
    /// last struct before the root, since what a root flattens stands before it. Where there is
    /// none, it takes no memory.
    pub(crate) fn new(build: Build<'_>, root: ShapeId) -> Result<ContributionTable, AllocError>
        requires { root < length build.shapes.now }
        ensures { IfOk result (λ table.
            AreContributions (build_of build.entry) table.by_index.items) }
    {
        let end = end_of_structs(build.shapes, root);
        let mut by_index = Vec::with_capacity(build.alloc, end)?;
        while by_index.len() < end {
            let shape = build.shape(ShapeId::new(by_index.len()));
            let contribution = contribution_of_kind(build, &shape.kind, &by_index);
            by_index.push(contribution)?;
        }
        Ok(ContributionTable { by_index })
    }

    /// What a struct contributes. Any other shape may contribute choices.
    pub(crate) fn of(&self, id: ShapeId) -> Contribution
        ensures { result ≡ contribution.at self.now.by_index.items id }
    {
        at(&self.by_index, id)
    }

    /// What a field contributes.
    pub(crate) fn of_field(&self, build: Build<'_>, field: &Field) -> Contribution
        ensures { let table = self.now.by_index.items in
            result ≡ contribution.contribution_of_field table (build_of build.entry) field.now }
    {
        contribution_of_field(build, field, &self.by_index)
    }
}

/// The index behind the last struct that stands before a root.
fn end_of_structs(shapes: &Shapes, root: ShapeId) -> usize
    ensures { result ≤ root }
{
    let mut end = root.index();
    while end > 0 && !is_struct(shapes, ShapeId::new(end - 1)) {
        end -= 1;
    }
    end
}

fn is_struct(shapes: &Shapes, id: ShapeId) -> bool
    ensures { result ≡ structs_alone (kind_at shapes.now id) }
{
    match shapes.get(id) {
        Some(shape) => matches!(shape.kind, ShapeKind::Struct { .. }),
        None => false,
    }
}

fn at(table: &[Contribution], id: ShapeId) -> Contribution
    ensures { result ≡ contribution.at table.now id }
{
    match table.get(id.index()) {
        Some(contribution) => *contribution,
        None => Contribution::Choices,
    }
}

/// What a shape contributes by its kind.
fn contribution_of_kind(
    build: Build<'_>,
    kind: &ShapeKind,
    earlier: &[Contribution],
) -> Contribution
    ensures { result
        ≡ contribution.contribution_of_kind earlier.now (build_of build.entry) kind.now }
{
    match kind {
        ShapeKind::Struct { fields, .. } => contribution_of_fields(build, fields, earlier),
        _ => Contribution::Choices,
    }
}

/// What fields contribute together.
fn contribution_of_fields(
    build: Build<'_>,
    fields: &[Field],
    earlier: &[Contribution],
) -> Contribution
    ensures { result
        ≡ contribution.contribution_of_fields earlier.now (build_of build.entry) fields.now }
{
    let mut contribution = Contribution::CatchAlls(Categories::none());
    for field in fields {
        contribution = contribution.both(contribution_of_field(build, field, earlier));
    }
    contribution
}

/// What a field contributes.
fn contribution_of_field(build: Build<'_>, field: &Field, earlier: &[Contribution]) -> Contribution
    ensures { result
        ≡ contribution.contribution_of_field earlier.now (build_of build.entry) field.now }
{
    match role_of(build.shapes, field) {
        Role::Block(target, _) if !target.optional => at(earlier, target.shape),
        Role::Block(_, _) | Role::Alternatives(_, _, _) => Contribution::Choices,
        Role::CatchAll(_) => {
            Contribution::CatchAlls(Categories::only(build.format.catch_all_category(field.dom)))
        }
        Role::Regular | Role::Leaf(_) => Contribution::Emissions,
    }
}
