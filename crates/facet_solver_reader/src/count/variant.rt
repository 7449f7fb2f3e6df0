//! The readings of a value as a variant that it names.
ghost use Rattle.std.specs.Prelude.{◌≡◌, ◌<◌, All, IfOk, length, map};
ghost use Rattle.facet_solver_reader.specs.Counted.{Counted};
ghost use Rattle.facet_solver_reader.specs.Documents.{text};
ghost use Rattle.facet_solver_reader.specs.Nodes.{count, value_of};
ghost use Rattle.facet_solver_reader.specs.Reading.{AreSound, IsOnlyMember};
ghost use Rattle.facet_solver_reader.specs.Readings.{ReadsValue, inner};
ghost use Rattle.facet_solver_reader.specs.Rules.{a_named_variant};
ghost use Rattle.facet_solver_reader.specs.Tables.{IsServed, rules_at};
ghost use Rattle.facet_solver_reader.specs.Values.{ReadsEnd, ReadsNamedVariant};
ghost use Rattle.facet_solver_reader.specs.Views.{named_view};

use super::Memo;
use super::target::count_target;
use crate::count::Count;
use crate::document::Document;
use crate::end::NamedVariant;
use crate::nodes::Nodes;
use crate::tables::Tables;
use std::alloc::AllocError;

/// How often a value is read as a variant that it names: a text names one without content, and an
/// object of one member one whose content is the member's value.
#[cycle(count)]
pub(super) fn count_named(
    tables: &Tables<'_>,
    nodes: &Nodes<'_, '_>,
    memo: &mut Memo,
    node: usize,
    variants: &[NamedVariant<'_>],
) -> Result<Count, AllocError>
    requires sound { AreSound tables.now nodes.now memo.old.entries.items }
    requires inside { node < count nodes.now }
    requires served { All (λ v. IsServed tables.now v.content) (map named_view variants.now) }
    ensures sound { AreSound tables.now nodes.now memo.new.entries.items }
    ensures count { IfOk result (Counted (ReadsEnd (rules_at tables.now)
        (inner (rules_at tables.now)) (a_named_variant (map named_view variants.now))
        (value_of nodes.now node))) }
{
    match nodes.value(node) {
        Document::Text(text) => Ok(count_units(tables, variants, text)),
        Document::Object(members) => match members.as_slice() {
            [(name, _)] => count_contents(tables, nodes, memo, node, variants, name),
            _ => Ok(Count::None),
        },
        _ => Ok(Count::None),
    }
}

/// How often a text names a variant without content.
pub(crate) fn count_units(tables: &Tables<'_>, variants: &[NamedVariant<'_>], name: &str) -> Count
    ensures { Counted (ReadsNamedVariant (ReadsValue (rules_at tables.now))
        (map named_view variants.now) (text name.now)) result }
{
    let mut count = Count::None;
    for variant in variants {
        count = count.plus(Count::from(variant.is_unit && variant.name == name));
    }
    count
}

/// How often an object of one member names a variant, and its value is read as the content.
#[cycle(count)]
pub(crate) fn count_contents(
    tables: &Tables<'_>,
    nodes: &Nodes<'_, '_>,
    memo: &mut Memo,
    node: usize,
    variants: &[NamedVariant<'_>],
    name: &str,
) -> Result<Count, AllocError>
    requires sound { AreSound tables.now nodes.now memo.old.entries.items }
    requires inside { node < count nodes.now }
    requires single { IsOnlyMember (value_of nodes.now node) name.now }
    requires served { All (λ v. IsServed tables.now v.content) (map named_view variants.now) }
    ensures sound { AreSound tables.now nodes.now memo.new.entries.items }
    ensures count { IfOk result (Counted (ReadsNamedVariant (ReadsValue (rules_at tables.now))
        (map named_view variants.now) (value_of nodes.now node))) }
{
    let content = nodes.child(node, 0);
    let mut count = Count::None;
    for variant in variants {
        if variant.name == name {
            let next = count_target(tables, nodes, memo, content, &variant.content, tables.steps)?;
            count = count.plus(next);
        }
    }
    Ok(count)
}
