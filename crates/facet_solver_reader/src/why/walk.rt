//! From value to value, as long as one part of it is to blame.
ghost use Rattle.std.specs.Prelude.{◌≡◌, ◌<◌, All, IfOk, IfSome, map};
ghost use Rattle.facet_solver_reader.specs.Documents.{Tree};
ghost use Rattle.facet_solver_reader.specs.Nodes.{count, value_of};
ghost use Rattle.facet_solver_reader.specs.Parts.{of_content, of_shape};
ghost use Rattle.facet_solver_reader.specs.Reading.{AreSound, IsCount};
ghost use Rattle.facet_solver_reader.specs.Tables.{IsEnd, IsServed, ListIsServed, ShapeIsServed};
ghost use Rattle.facet_solver_reader.specs.Views.{alternative_view, list_view, named_view, target_view};
ghost use Rattle.facet_solver_reader.specs.Blaming.{IsBlamed, IsNext};

use super::entries::{Entries, in_entries};
use super::name::same_target;
use super::named::{none_in_named, several_in_named};
use super::object::none_in_object;
use super::several::several_in_object;
use super::untagged::{none_in_untagged, several_in_untagged};
use crate::content::content_at;
use crate::count::{Count, Memo, count_target};
use crate::document::Document;
use crate::end::{Alternative, Content, End, NamedVariant};
use crate::nodes::Nodes;
use crate::part::{ListId, Target};
use crate::read_error::{Branch, Obstacle};
use crate::tables::Tables;
use facet_solver_shape::ShapeId;
use std::alloc::AllocError;

/// What is to be said of a value.
#[derive(Debug, Drop)]
pub(super) enum Here<'c, 'd> {
    /// This stops a reading.
    Stops(Obstacle<'c, 'd>),
    /// These variants read it.
    Splits(Vec<Branch<'c>>),
}

/// What is to blame for the count of a value.
#[derive(Debug, Drop)]
pub(super) enum Next<'c, 'd> {
    /// The count of another value, or of the same one, as a target.
    Into(usize, Target<'c>),
    /// What is said of the value.
    Here(Here<'c, 'd>),
}

/// A value that is to blame, what it is read as, and what is said of it.
#[derive(Debug, Drop)]
pub(super) struct Blamed<'c, 'd> {
    pub(super) node: usize,
    pub(super) target: Target<'c>,
    pub(super) here: Option<Here<'c, 'd>>,
}

/// What is to blame for the count of a document as a shape, which is none or several.
pub(super) fn walk<'c, 'd>(
    tables: &Tables<'c>,
    nodes: &Nodes<'_, 'd>,
    memo: &mut Memo,
    root: ShapeId,
    blame: Count,
) -> Result<Blamed<'c, 'd>, AllocError>
    requires sound { AreSound tables.now nodes.now memo.old.entries.items }
    requires served { ShapeIsServed tables.now root }
    requires counted { IsCount tables.now nodes.now 0 (of_shape root) blame }
    ensures { IfOk result (IsBlamed tables.now nodes.now blame) }
{
    let mut node = 0;
    let mut target = Target::Shape(root);
    // No way from value to value, and from target to target of each, is longer.
    for _ in 0..nodes.len().saturating_mul(tables.steps) {
        match step(tables, nodes, memo, node, &target, blame)? {
            Some(Next::Into(inner, on)) => {
                node = inner;
                target = on;
            }
            Some(Next::Here(here)) => {
                return Ok(Blamed {
                    node,
                    target,
                    here: Some(here),
                });
            }
            None => break,
        }
    }
    Ok(Blamed {
        node,
        target,
        here: None,
    })
}

/// What is to blame for the count of a value as a target.
fn step<'c, 'd>(
    tables: &Tables<'c>,
    nodes: &Nodes<'_, 'd>,
    memo: &mut Memo,
    node: usize,
    target: &Target<'c>,
    blame: Count,
) -> Result<Option<Next<'c, 'd>>, AllocError>
    requires sound { AreSound tables.now nodes.now memo.old.entries.items }
    requires inside { node < count nodes.now }
    requires served { IsServed tables.now (target_view target.now) }
    ensures sound { AreSound tables.now nodes.now memo.new.entries.items }
    ensures next { IfOk result (λ next.
        IfSome next (IsNext tables.now nodes.now blame (value_of nodes.now node))) }
{
    match target {
        Target::Shape(shape) => {
            let end = tables.end(*shape);
            by_end(tables, nodes, memo, node, *shape, end, blame)
        }
        Target::Content(shape, variant) => {
            by_content(tables, nodes, memo, node, *shape, *variant, blame)
        }
        Target::Tag(_) => Ok(None),
    }
}

/// How often a value is read as a target.
pub(super) fn count_of(
    tables: &Tables<'_>,
    nodes: &Nodes<'_, '_>,
    memo: &mut Memo,
    node: usize,
    target: &Target<'_>,
) -> Result<Count, AllocError>
    requires sound { AreSound tables.now nodes.now memo.old.entries.items }
    requires inside { node < count nodes.now }
    requires served { IsServed tables.now (target_view target.now) }
    ensures sound { AreSound tables.now nodes.now memo.new.entries.items }
    ensures count { IfOk result (IsCount tables.now nodes.now node (target_view target.now)) }
{
    count_target(tables, nodes, memo, node, target, tables.steps)
}

/// Goes to a value, if it has the count as a target.
pub(super) fn into<'c, 'd>(
    tables: &Tables<'c>,
    nodes: &Nodes<'_, 'd>,
    memo: &mut Memo,
    node: usize,
    target: &Target<'c>,
    blame: Count,
) -> Result<Option<Next<'c, 'd>>, AllocError>
    requires sound { AreSound tables.now nodes.now memo.old.entries.items }
    requires inside { node < count nodes.now }
    requires served { IsServed tables.now (target_view target.now) }
    ensures sound { AreSound tables.now nodes.now memo.new.entries.items }
    ensures next { (v : Tree) → IfOk result (λ next.
        IfSome next (IsNext tables.now nodes.now blame v)) }
{
    let count = count_of(tables, nodes, memo, node, target)?;
    if count == blame {
        Ok(Some(Next::Into(node, same_target(target))))
    } else {
        Ok(None)
    }
}

/// What is to blame for the count of a value by what a shape comes to.
fn by_end<'c, 'd>(
    tables: &Tables<'c>,
    nodes: &Nodes<'_, 'd>,
    memo: &mut Memo,
    node: usize,
    shape: ShapeId,
    end: &End<'c>,
    blame: Count,
) -> Result<Option<Next<'c, 'd>>, AllocError>
    requires sound { AreSound tables.now nodes.now memo.old.entries.items }
    requires inside { node < count nodes.now }
    requires end { IsEnd tables.now shape end.now }
    ensures sound { AreSound tables.now nodes.now memo.new.entries.items }
    ensures next { IfOk result (λ next.
        IfSome next (IsNext tables.now nodes.now blame (value_of nodes.now node))) }
{
    match end {
        End::Option(inside) => into(tables, nodes, memo, node, &Target::Shape(*inside), blame),
        End::List(item) => in_items(tables, nodes, memo, node, *item, blame),
        End::Tuple(shapes) => in_tuple(tables, nodes, memo, node, shapes, blame),
        End::Map(key, value) => {
            let entries = Entries {
                key: *key,
                value: *value,
                besides: None,
            };
            in_entries(tables, nodes, memo, node, &entries, blame)
        }
        End::Object(list) => in_object(tables, nodes, memo, node, *list, blame),
        End::NamedVariant(variants) => in_named(tables, nodes, memo, node, shape, variants, blame),
        End::UntaggedVariant(joined, alone) => {
            in_untagged(tables, nodes, memo, node, joined, alone, blame)
        }
        _ => Ok(None),
    }
}

/// What is to blame for the count of a value as the content of a variant.
fn by_content<'c, 'd>(
    tables: &Tables<'c>,
    nodes: &Nodes<'_, 'd>,
    memo: &mut Memo,
    node: usize,
    shape: ShapeId,
    variant: usize,
    blame: Count,
) -> Result<Option<Next<'c, 'd>>, AllocError>
    requires sound { AreSound tables.now nodes.now memo.old.entries.items }
    requires inside { node < count nodes.now }
    requires served { IsServed tables.now (of_content shape variant) }
    ensures sound { AreSound tables.now nodes.now memo.new.entries.items }
    ensures next { IfOk result (λ next.
        IfSome next (IsNext tables.now nodes.now blame (value_of nodes.now node))) }
{
    let content = content_at(tables.alloc, tables.shapes, shape, variant)?;
    match &content {
        Content::None => Ok(None),
        Content::Shape(inside) => into(tables, nodes, memo, node, &Target::Shape(*inside), blame),
        Content::Tuple(shapes) => in_tuple(tables, nodes, memo, node, shapes, blame),
        Content::Object(list) => in_object(tables, nodes, memo, node, *list, blame),
    }
}

/// What is to blame for the count of a value by a list of parts.
fn in_object<'c, 'd>(
    tables: &Tables<'c>,
    nodes: &Nodes<'_, 'd>,
    memo: &mut Memo,
    node: usize,
    list: ListId,
    blame: Count,
) -> Result<Option<Next<'c, 'd>>, AllocError>
    requires sound { AreSound tables.now nodes.now memo.old.entries.items }
    requires inside { node < count nodes.now }
    requires served { ListIsServed tables.now (list_view list) }
    ensures sound { AreSound tables.now nodes.now memo.new.entries.items }
    ensures next { IfOk result (λ next.
        IfSome next (IsNext tables.now nodes.now blame (value_of nodes.now node))) }
{
    match blame {
        Count::Several => several_in_object(tables, nodes, memo, node, list),
        Count::None => none_in_object(tables, nodes, memo, node, list),
        Count::One => Ok(None),
    }
}

/// What is to blame for the count of a value that names a variant.
fn in_named<'c, 'd>(
    tables: &Tables<'c>,
    nodes: &Nodes<'_, 'd>,
    memo: &mut Memo,
    node: usize,
    shape: ShapeId,
    variants: &[NamedVariant<'c>],
    blame: Count,
) -> Result<Option<Next<'c, 'd>>, AllocError>
    requires sound { AreSound tables.now nodes.now memo.old.entries.items }
    requires inside { node < count nodes.now }
    requires served { All (λ v. IsServed tables.now v.content) (map named_view variants.now) }
    ensures sound { AreSound tables.now nodes.now memo.new.entries.items }
    ensures next { IfOk result (λ next.
        IfSome next (IsNext tables.now nodes.now blame (value_of nodes.now node))) }
{
    match blame {
        Count::Several => several_in_named(tables, nodes, memo, node, variants),
        Count::None => none_in_named(tables, nodes, memo, node, shape, variants),
        Count::One => Ok(None),
    }
}

/// What is to blame for the count of a value that does not name its variant.
fn in_untagged<'c, 'd>(
    tables: &Tables<'c>,
    nodes: &Nodes<'_, 'd>,
    memo: &mut Memo,
    node: usize,
    joined: &ListId,
    alone: &[Alternative<'c>],
    blame: Count,
) -> Result<Option<Next<'c, 'd>>, AllocError>
    requires sound { AreSound tables.now nodes.now memo.old.entries.items }
    requires inside { node < count nodes.now }
    requires joined { ListIsServed tables.now (list_view joined.now) }
    requires alone { All (λ a. IsServed tables.now a.content) (map alternative_view alone.now) }
    ensures sound { AreSound tables.now nodes.now memo.new.entries.items }
    ensures next { IfOk result (λ next.
        IfSome next (IsNext tables.now nodes.now blame (value_of nodes.now node))) }
{
    match blame {
        Count::Several => several_in_untagged(tables, nodes, memo, node, joined, alone),
        Count::None => none_in_untagged(tables, nodes, memo, node, joined, alone),
        Count::One => Ok(None),
    }
}

/// The first item of a list that has the count as a shape.
fn in_items<'c, 'd>(
    tables: &Tables<'c>,
    nodes: &Nodes<'_, 'd>,
    memo: &mut Memo,
    node: usize,
    shape: ShapeId,
    blame: Count,
) -> Result<Option<Next<'c, 'd>>, AllocError>
    requires sound { AreSound tables.now nodes.now memo.old.entries.items }
    requires inside { node < count nodes.now }
    requires served { ShapeIsServed tables.now shape }
    ensures sound { AreSound tables.now nodes.now memo.new.entries.items }
    ensures next { IfOk result (λ next.
        IfSome next (IsNext tables.now nodes.now blame (value_of nodes.now node))) }
{
    let Document::List(items) = nodes.value(node) else {
        return Ok(None);
    };
    let target = Target::Shape(shape);
    for index in 0..items.len() {
        let item = nodes.child(node, index);
        let next = into(tables, nodes, memo, item, &target, blame)?;
        if next.is_some() {
            return Ok(next);
        }
    }
    Ok(None)
}

/// The first value of a list that has the count as the shape at its place. A list that has too few
/// values or too many has none.
fn in_tuple<'c, 'd>(
    tables: &Tables<'c>,
    nodes: &Nodes<'_, 'd>,
    memo: &mut Memo,
    node: usize,
    shapes: &[ShapeId],
    blame: Count,
) -> Result<Option<Next<'c, 'd>>, AllocError>
    requires sound { AreSound tables.now nodes.now memo.old.entries.items }
    requires inside { node < count nodes.now }
    requires served { All (ShapeIsServed tables.now) shapes.now }
    ensures sound { AreSound tables.now nodes.now memo.new.entries.items }
    ensures next { IfOk result (λ next.
        IfSome next (IsNext tables.now nodes.now blame (value_of nodes.now node))) }
{
    let Document::List(items) = nodes.value(node) else {
        return Ok(None);
    };
    if items.len() != shapes.len() {
        return Ok(None);
    }
    for index in 0..shapes.len() {
        let item = nodes.child(node, index);
        let target = Target::Shape(shapes[index]);
        let next = into(tables, nodes, memo, item, &target, blame)?;
        if next.is_some() {
            return Ok(next);
        }
    }
    Ok(None)
}
