//! A catalogue, and which variants of its untagged enums join.
ghost use Rattle.std.specs.Prelude.{◌≡◌, IfOk, IsSome, IsTrue, length, zero};
ghost use Rattle.facet_solver_reader.specs.JoinTables.{joins_table, next_table, says};
ghost use Rattle.facet_solver_reader.specs.Types as types;
ghost use Rattle.facet_solver_reader.specs.Types.{all_join_at, joins_where};
ghost use Rattle.facet_solver_reader.specs.WhichJoin.{AreThoseThatJoin};

use crate::joins::joins_where;
use crate::variants::variants_at;
use facet_solver_shape::{ShapeId, Shapes, Variant};
use std::alloc::{AllocError, Global};
use std::marker::Model;

/// A catalogue, and for each of its shapes whether all variants there join.
#[derive(Drop)]
pub(crate) struct Types<'c> {
    shapes: &'c Shapes,
    all_join: Vec<bool>,
}

impl<'c> Model for Types<'c> {
    ghost use Rattle.std.specs.Prelude.{◌≡◌, length};
    ghost use Rattle.facet_solver_shape.specs.Catalogues.{Catalogue};
    ghost use Rattle.facet_solver_reader.specs.JoinTables.{joins_table};

    ghost Value = { Catalogue };

    ghost view = { λ t. t.shapes.now };

    ghost invariant = { λ t. t.all_join.items ≡ joins_table (length t.shapes.now) t.shapes.now };
}

impl<'c> Types<'c> {
    /// The types of a catalogue.
    ///
    /// It takes mostly two rounds over all variants, and one more for each untagged enum that is the
    /// single field of a variant of another, one below the other.
    pub(crate) fn new(alloc: Global, shapes: &'c Shapes) -> Result<Types<'c>, AllocError>
        ensures { IfOk result (λ t. t ≡ shapes.now) }
    {
        let all_join = joins_table(alloc, shapes)?;
        Ok(Types { shapes, all_join })
    }

    /// The catalogue.
    pub(crate) fn shapes(&self) -> &'c Shapes
        ensures { result.now ≡ self.now }
    {
        self.shapes
    }

    /// Whether a variant of an untagged enum reads objects by parts alone.
    pub(crate) fn does_join(&self, variant: &Variant) -> bool
        ensures value { result ≡ types.does_join self.now variant.now }
        ensures those { AreThoseThatJoin self.now (types.does_join self.now) }
        ensures has_parts { IsTrue result → IsSome (types.parts_of_content self.now variant.now) }
    {
        joins_where(&self.all_join, self.shapes, variant)
    }
}

/// For each shape, whether all variants there join. Round by round, until one changes nothing.
fn joins_table(alloc: Global, shapes: &Shapes) -> Result<Vec<bool>, AllocError>
    ensures { IfOk result (λ t. t.items ≡ joins_table (length shapes.now) shapes.now) }
{
    let mut table = first_table(alloc, shapes)?;
    for _ in 0..shapes.len() {
        let next = next_table(alloc, shapes, &table)?;
        if next == table {
            return Ok(table);
        }
        table = next;
    }
    Ok(table)
}

/// The table before any round: what has no variants.
fn first_table(alloc: Global, shapes: &Shapes) -> Result<Vec<bool>, AllocError>
    ensures { IfOk result (λ t. t.items ≡ joins_table zero shapes.now) }
{
    let mut table = Vec::new(alloc);
    for index in 0..shapes.len() {
        table.push(variants_at(shapes, ShapeId::new(index)).is_empty())?;
    }
    Ok(table)
}

/// The table after one more round.
fn next_table(alloc: Global, shapes: &Shapes, table: &[bool]) -> Result<Vec<bool>, AllocError>
    ensures { IfOk result (λ t. t.items ≡ next_table shapes.now table.now) }
{
    let mut next = Vec::new(alloc);
    for index in 0..shapes.len() {
        next.push(all_join_at(table, shapes, ShapeId::new(index)))?;
    }
    Ok(next)
}

/// Whether all variants of a shape join, by a table of those whose variants do.
fn all_join_at(table: &[bool], shapes: &Shapes, id: ShapeId) -> bool
    ensures { let join = joins_where (says table.now) shapes.now in
        result ≡ all_join_at join shapes.now id }
{
    variants_at(shapes, id)
        .iter()
        .all(|variant| joins_where(table, shapes, variant))
}
