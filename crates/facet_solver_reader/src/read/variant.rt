//! The only reading of a value as a variant that it names.
ghost use Rattle.std.specs.Prelude.{◌≡◌, ◌<◌, ℕ, All, IfOk, IfSome, OnOk, length, map, slice_get};
ghost use Rattle.facet_solver_reader.specs.declared.count.Count.TheVariants.{One};
ghost use Rattle.facet_solver_reader.specs.Choices as choices;
ghost use Rattle.facet_solver_reader.specs.Counted.{Counted};
ghost use Rattle.facet_solver_reader.specs.Documents.{text};
ghost use Rattle.facet_solver_reader.specs.Nodes.{count, value_of};
ghost use Rattle.facet_solver_reader.specs.Reading.{AreSound, IsOnlyMember};
ghost use Rattle.facet_solver_reader.specs.Readings.{ReadsValue, inner};
ghost use Rattle.facet_solver_reader.specs.Rules.{a_named_variant};
ghost use Rattle.facet_solver_reader.specs.Tables.{IsServed, rules_at};
ghost use Rattle.facet_solver_reader.specs.Told.{names_of, names_view};
ghost use Rattle.facet_solver_reader.specs.ToldAt.{IsOnlyNamed, IsRead, IsReadAsNamed, IsToldAs, IsWithin};
ghost use Rattle.facet_solver_reader.specs.Values.{NamesUnit, ReadsEnd, ReadsNamedVariant};
ghost use Rattle.facet_solver_reader.specs.Views.{named_view, target_view};

use super::not_one::NotOne;
use super::target::read_target;
use crate::count::{Count, Memo, count_contents, count_target, count_units};
use crate::document::Document;
use crate::end::NamedVariant;
use crate::field_at::{shape_name, variant_name};
use crate::nodes::Nodes;
use crate::part::Target;
use crate::reading::{Reading, ReadingKind, VariantName};
use crate::tables::Tables;
use facet_solver_shape::Shapes;
use std::alloc::AllocError;

/// The only reading of a value as a variant that it names.
#[cycle(read)]
pub(super) fn read_named<'c, 'v, 'd>(
    tables: &Tables<'c>,
    nodes: &Nodes<'v, 'd>,
    memo: &mut Memo,
    node: usize,
    variants: &[NamedVariant<'c>],
) -> Result<Reading<'c, 'v, 'd>, NotOne>
    requires sound { AreSound tables.now nodes.now memo.old.entries.items }
    requires inside { node < count nodes.now }
    requires served { All (λ v. IsServed tables.now v.content) (map named_view variants.now) }
    ensures sound { AreSound tables.now nodes.now memo.new.entries.items }
    ensures told { IsRead
        (IsToldAs tables.now nodes.now node (a_named_variant (map named_view variants.now)))
        (Counted (ReadsEnd (rules_at tables.now) (inner (rules_at tables.now))
        (a_named_variant (map named_view variants.now)) (value_of nodes.now node)) One) result }
{
    match nodes.value(node) {
        Document::Text(text) => read_unit(tables, nodes, node, variants, text),
        Document::Object(members) => {
            if members.len() != 1 {
                return Err(NotOne::NoneOrSeveral);
            }
            read_member(tables, nodes, memo, node, variants, members[0].0)
        }
        _ => Err(NotOne::NoneOrSeveral),
    }
}

/// The only reading of a text as a variant without content.
fn read_unit<'c, 'v, 'd>(
    tables: &Tables<'c>,
    nodes: &Nodes<'v, 'd>,
    node: usize,
    variants: &[NamedVariant<'c>],
    name: &str,
) -> Result<Reading<'c, 'v, 'd>, NotOne>
    requires inside { node < count nodes.now }
    requires named { value_of nodes.now node ≡ text name.now }
    ensures told { IsRead
        (IsToldAs tables.now nodes.now node (a_named_variant (map named_view variants.now)))
        (Counted (ReadsEnd (rules_at tables.now) (inner (rules_at tables.now))
        (a_named_variant (map named_view variants.now)) (value_of nodes.now node)) One) result }
{
    match count_units(tables, variants, name) {
        Count::One => {}
        _ => return Err(NotOne::NoneOrSeveral),
    }
    let variant = &variants[unit_index(variants, name)];
    let name = name_of(tables.shapes, &variant.content);
    Ok(Reading {
        variants: vec![in tables.alloc; name]?,
        kind: ReadingKind::Value(nodes.value(node)),
    })
}

/// The only reading of an object of one member as the variant that the member names.
#[cycle(read)]
fn read_member<'c, 'v, 'd>(
    tables: &Tables<'c>,
    nodes: &Nodes<'v, 'd>,
    memo: &mut Memo,
    node: usize,
    variants: &[NamedVariant<'c>],
    name: &str,
) -> Result<Reading<'c, 'v, 'd>, NotOne>
    requires sound { AreSound tables.now nodes.now memo.old.entries.items }
    requires inside { node < count nodes.now }
    requires single { IsOnlyMember (value_of nodes.now node) name.now }
    requires served { All (λ v. IsServed tables.now v.content) (map named_view variants.now) }
    ensures sound { AreSound tables.now nodes.now memo.new.entries.items }
    ensures told { IsRead
        (IsToldAs tables.now nodes.now node (a_named_variant (map named_view variants.now)))
        (Counted (ReadsEnd (rules_at tables.now) (inner (rules_at tables.now))
        (a_named_variant (map named_view variants.now)) (value_of nodes.now node)) One) result }
{
    let k = match only_named(variants, name) {
        Some(k) => k,
        None => counted_index(tables, nodes, memo, node, variants, name)?,
    };
    let variant = &variants[k];
    let content = nodes.child(node, 0);
    let reading = read_target(tables, nodes, memo, content, &variant.content, tables.steps)?;
    let name = name_of(tables.shapes, &variant.content);
    Ok(Reading {
        variants: vec![in tables.alloc; name]?,
        kind: ReadingKind::Content(Box::new(tables.alloc, reading)?),
    })
}

/// The names of the variant whose content a target is, and of its enum.
pub(super) fn name_of<'c>(shapes: &'c Shapes, content: &Target<'_>) -> VariantName<'c>
    ensures { names_view result ≡ names_of shapes.now (target_view content.now) }
{
    match content {
        Target::Content(shape, variant) => VariantName {
            enum_name: shape_name(shapes, *shape),
            variant_name: variant_name(shapes, *shape, *variant),
        },
        _ => VariantName {
            enum_name: "",
            variant_name: "",
        },
    }
}

/// Makes a reading of the content of a variant one of the variant.
pub(super) fn put_within<'c>(
    reading: &mut Reading<'c, '_, '_>,
    shapes: &'c Shapes,
    content: &Target<'_>,
) -> Result<(), AllocError>
    ensures { OnOk result
        (IsWithin shapes.now (target_view content.now) reading.old reading.new) }
{
    reading.variants.insert(0, name_of(shapes, content))?;
    Ok(())
}

/// Which variant alone has a name, by its index; `None` where none or several have it.
fn only_named(variants: &[NamedVariant<'_>], name: &str) -> Option<usize>
    ensures { IfSome result (IsOnlyNamed (map named_view variants.now) name.now) }
{
    let mut found = None;
    for (k, variant) in variants.iter().enumerate() {
        if variant.name == name {
            if found.is_some() {
                return None;
            }
            found = Some(k);
        }
    }
    found
}

/// Which variant the only member of an object names whose value has one reading as its content, by
/// its index, where it has none as that of another variant of the name.
fn counted_index(
    tables: &Tables<'_>,
    nodes: &Nodes<'_, '_>,
    memo: &mut Memo,
    node: usize,
    variants: &[NamedVariant<'_>],
    name: &str,
) -> Result<usize, NotOne>
    requires sound { AreSound tables.now nodes.now memo.old.entries.items }
    requires inside { node < count nodes.now }
    requires single { IsOnlyMember (value_of nodes.now node) name.now }
    requires served { All (λ v. IsServed tables.now v.content) (map named_view variants.now) }
    ensures sound { AreSound tables.now nodes.now memo.new.entries.items }
    ensures chosen { IsRead (IsReadAsNamed tables.now nodes.now node
        (map named_view variants.now)) (Counted (ReadsNamedVariant
        (ReadsValue (rules_at tables.now)) (map named_view variants.now)
        (value_of nodes.now node)) One) result }
{
    match count_contents(tables, nodes, memo, node, variants, name)? {
        Count::One => {}
        _ => return Err(NotOne::NoneOrSeveral),
    }
    Ok(content_index(tables, nodes, memo, node, variants, name)?)
}

/// Which variant without content a text names, by its index.
fn unit_index(variants: &[NamedVariant<'_>], name: &str) -> usize
    requires named { (k : ℕ) × NamesUnit (slice_get (map named_view variants.now) k) name.now }
    ensures within { result < length variants.now }
    ensures chosen { NamesUnit (slice_get (map named_view variants.now) result) name.now }
{
    for (k, variant) in variants.iter().enumerate() {
        if variant.is_unit && variant.name == name {
            return k;
        }
    }
    unreachable!()
}

/// Which variant the only member of an object names whose value is read as its content, by its
/// index.
fn content_index(
    tables: &Tables<'_>,
    nodes: &Nodes<'_, '_>,
    memo: &mut Memo,
    node: usize,
    variants: &[NamedVariant<'_>],
    name: &str,
) -> Result<usize, AllocError>
    requires sound { AreSound tables.now nodes.now memo.old.entries.items }
    requires inside { node < count nodes.now }
    requires single { IsOnlyMember (value_of nodes.now node) name.now }
    requires served { All (λ v. IsServed tables.now v.content) (map named_view variants.now) }
    requires read { (r : choices.Reading) × ReadsNamedVariant (ReadsValue (rules_at tables.now))
        (map named_view variants.now) (value_of nodes.now node) r }
    ensures sound { AreSound tables.now nodes.now memo.new.entries.items }
    ensures within { IfOk result (λ k. k < length variants.now) }
    ensures chosen { IfOk result (λ k. (r : choices.Reading)
        × ReadsNamedVariant (ReadsValue (rules_at tables.now)) (map named_view variants.now)
        (value_of nodes.now node) (choices.a_variant k r)) }
{
    let content = nodes.child(node, 0);
    for (k, variant) in variants.iter().enumerate() {
        if variant.name == name {
            let count = count_target(tables, nodes, memo, content, &variant.content, tables.steps)?;
            if !count.is_none() {
                return Ok(k);
            }
        }
    }
    unreachable!()
}
