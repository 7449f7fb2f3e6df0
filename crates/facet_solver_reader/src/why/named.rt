//! What is to blame in a value that names a variant.
ghost use Rattle.std.specs.Prelude.{◌≡◌, ◌<◌, All, IfOk, IfSome, map};
ghost use Rattle.facet_solver_reader.specs.Documents.{Tree};
ghost use Rattle.facet_solver_reader.specs.Nodes.{count, value_of};
ghost use Rattle.facet_solver_reader.specs.Reading.{AreSound, IsOnlyMember};
ghost use Rattle.facet_solver_reader.specs.Tables.{IsServed};
ghost use Rattle.facet_solver_reader.specs.Views.{named_view, target_view};
ghost use Rattle.facet_solver_reader.specs.Blaming.{IsNext};
ghost use Rattle.facet_solver_reader.specs.declared.count.Count.TheVariants.{None as NoCount, Several as TwoCount};

use super::name::shape_name;
use super::walk::{Here, Next, into};
use crate::count::{Count, Memo};
use crate::document::Document;
use crate::end::NamedVariant;
use crate::nodes::Nodes;
use crate::read_error::Obstacle;
use crate::tables::Tables;
use facet_solver_shape::ShapeId;
use std::alloc::AllocError;

/// What stops a value that has to name a variant.
pub(super) fn none_in_named<'c, 'd>(
    tables: &Tables<'c>,
    nodes: &Nodes<'_, 'd>,
    memo: &mut Memo,
    node: usize,
    shape: ShapeId,
    variants: &[NamedVariant<'c>],
) -> Result<Option<Next<'c, 'd>>, AllocError>
    requires sound { AreSound tables.now nodes.now memo.old.entries.items }
    requires inside { node < count nodes.now }
    requires served { All (λ v. IsServed tables.now v.content) (map named_view variants.now) }
    ensures sound { AreSound tables.now nodes.now memo.new.entries.items }
    ensures next { IfOk result (λ next.
        IfSome next (IsNext tables.now nodes.now NoCount (value_of nodes.now node))) }
{
    match nodes.value(node) {
        Document::Text(text) => {
            let names = names_of(tables, variants, true)?;
            let of = shape_name(tables.shapes, shape);
            Ok(Some(Next::Here(Here::Stops(Obstacle::NoName(of, text, names)))))
        }
        Document::Object(members) => match members.as_slice() {
            [(name, _)] => {
                let next = into_content(tables, nodes, memo, node, variants, name, Count::None)?;
                if next.is_some() {
                    return Ok(next);
                }
                let names = names_of(tables, variants, false)?;
                let of = shape_name(tables.shapes, shape);
                Ok(Some(Next::Here(Here::Stops(Obstacle::NoName(of, name, names)))))
            }
            _ => Ok(None),
        },
        _ => Ok(None),
    }
}

/// What of an object of one member has the count as the content of a variant of the name.
fn into_content<'c, 'd>(
    tables: &Tables<'c>,
    nodes: &Nodes<'_, 'd>,
    memo: &mut Memo,
    node: usize,
    variants: &[NamedVariant<'c>],
    name: &str,
    blame: Count,
) -> Result<Option<Next<'c, 'd>>, AllocError>
    requires sound { AreSound tables.now nodes.now memo.old.entries.items }
    requires inside { node < count nodes.now }
    requires single { IsOnlyMember (value_of nodes.now node) name.now }
    requires served { All (λ v. IsServed tables.now v.content) (map named_view variants.now) }
    ensures sound { AreSound tables.now nodes.now memo.new.entries.items }
    ensures next { (v : Tree) → IfOk result (λ next.
        IfSome next (IsNext tables.now nodes.now blame v)) }
{
    let content = nodes.child(node, 0);
    for variant in variants {
        let next = into_variant(tables, nodes, memo, content, variant, name, blame)?;
        if next.is_some() {
            return Ok(next);
        }
    }
    Ok(None)
}

/// Goes to a value, if it has the count as the content of a variant of the name.
fn into_variant<'c, 'd>(
    tables: &Tables<'c>,
    nodes: &Nodes<'_, 'd>,
    memo: &mut Memo,
    node: usize,
    variant: &NamedVariant<'c>,
    name: &str,
    blame: Count,
) -> Result<Option<Next<'c, 'd>>, AllocError>
    requires sound { AreSound tables.now nodes.now memo.old.entries.items }
    requires inside { node < count nodes.now }
    requires served { IsServed tables.now (target_view variant.now.content) }
    ensures sound { AreSound tables.now nodes.now memo.new.entries.items }
    ensures next { (v : Tree) → IfOk result (λ next.
        IfSome next (IsNext tables.now nodes.now blame v)) }
{
    if variant.name == name {
        into(tables, nodes, memo, node, &variant.content, blame)
    } else {
        Ok(None)
    }
}

/// The names of variants, or of those alone that a text names.
fn names_of<'c>(
    tables: &Tables<'c>,
    variants: &[NamedVariant<'c>],
    units: bool,
) -> Result<Vec<&'c str>, AllocError> {
    let mut names = Vec::new(tables.alloc);
    for variant in variants {
        if variant.is_unit || !units {
            names.push(variant.name)?;
        }
    }
    Ok(names)
}

/// What of a value that names a variant is read in several ways: its content, or, where two variants
/// have the name, the value.
pub(super) fn several_in_named<'c, 'd>(
    tables: &Tables<'c>,
    nodes: &Nodes<'_, 'd>,
    memo: &mut Memo,
    node: usize,
    variants: &[NamedVariant<'c>],
) -> Result<Option<Next<'c, 'd>>, AllocError>
    requires sound { AreSound tables.now nodes.now memo.old.entries.items }
    requires inside { node < count nodes.now }
    requires served { All (λ v. IsServed tables.now v.content) (map named_view variants.now) }
    ensures sound { AreSound tables.now nodes.now memo.new.entries.items }
    ensures next { IfOk result (λ next.
        IfSome next (IsNext tables.now nodes.now TwoCount (value_of nodes.now node))) }
{
    let Document::Object(members) = nodes.value(node) else {
        return Ok(None);
    };
    match members.as_slice() {
        [(name, _)] => into_content(tables, nodes, memo, node, variants, name, Count::Several),
        _ => Ok(None),
    }
}
