//! The names of types and variants, and that a value is not what a type reads.
ghost use Rattle.std.specs.Prelude.{◌≡◌, IfOk};
ghost use Rattle.facet_solver_reader.specs.Documents.{view};
ghost use Rattle.facet_solver_reader.specs.Tables.{AreTables, IsServed, rules_at};
ghost use Rattle.facet_solver_reader.specs.TypeNames as spec;
ghost use Rattle.facet_solver_reader.specs.TypeNames.{called_view};
ghost use Rattle.facet_solver_reader.specs.Views.{content_view, list_view, target_view};
ghost use Rattle.facet_solver_reader.specs.Wanted.{IsWanted};
ghost use Rattle.facet_solver_reader.specs.Blaming.{IsUnreadAs};

use super::wanted::{wanted_of, wanted_of_content, wanted_of_end};
use crate::content::content_at;
use crate::document::Document;
use crate::end::Content;
use crate::ends::last_of;
pub(super) use crate::field_at::shape_name;
use crate::part::{ListId, Selection, Target};
use crate::read_error::{Branch, Given, TypeName, Unread, Wanted};
use crate::tables::Tables;
use crate::variants::variant_at;
use facet_solver_shape::{ShapeId, ShapeKind, Shapes};
use std::alloc::AllocError;

/// The name of a variant of the shape at an index, with that of the shape.
fn full_name(shapes: &Shapes, id: ShapeId, variant: usize) -> TypeName<'_>
    ensures { called_view result ≡ spec.full_name shapes.now id variant }
{
    TypeName {
        name: shape_name(shapes, id),
        variant: match variant_at(shapes, id, variant) {
            Some(variant) => Some(variant.name.as_str()),
            None => None,
        },
    }
}

/// The name of the shape at an index, with that of no variant.
fn whole_name(shapes: &Shapes, id: ShapeId) -> TypeName<'_>
    ensures { called_view result ≡ spec.whole_name shapes.now id }
{
    TypeName {
        name: shape_name(shapes, id),
        variant: None,
    }
}

/// The name of the basic type to which the shape at an index leads, if it leads to one, or else
/// another name.
fn basic_name<'c>(shapes: &'c Shapes, id: ShapeId, other: TypeName<'c>) -> TypeName<'c>
    ensures { called_view result ≡ spec.basic_name shapes.now id (called_view other.entry) }
{
    let last = last_of(shapes, id);
    match shapes.get(last) {
        Some(shape) if matches!(shape.kind, ShapeKind::Scalar(_)) => whole_name(shapes, last),
        _ => other,
    }
}

/// The branch of a list of parts.
pub(super) fn branch_of(shapes: &Shapes, list: ListId) -> Branch<'_>
    ensures list { list_view result.list ≡ list_view list }
    ensures name { called_view result.name ≡ spec.list_name shapes.now (list_view list) }
{
    let name = match list {
        ListId::Struct(id) | ListId::Enum(id) | ListId::Joined(id) => whole_name(shapes, id),
        ListId::Branch(id, k) | ListId::Fields(id, k) => full_name(shapes, id, k),
    };
    Branch { list, name }
}

/// The name of the type that a selection is of.
pub(super) fn selection_name<'c>(shapes: &'c Shapes, selection: &Selection<'_>) -> &'c str {
    match selection.branches.first() {
        Some(branch) => branch_of(shapes, *branch).name.name,
        None => "?",
    }
}

/// The same target.
pub(super) fn same_target<'c>(target: &Target<'c>) -> Target<'c>
    ensures { target_view result ≡ target_view target.now }
{
    match target {
        Target::Shape(id) => Target::Shape(*id),
        Target::Content(id, k) => Target::Content(*id, *k),
        Target::Tag(name) => Target::Tag(name),
    }
}

/// A target, and what it reads, for a value that it does not read.
pub(super) fn unread<'c, 'd>(
    tables: &Tables<'c>,
    value: &Document<'d>,
    target: &Target<'c>,
) -> Result<Unread<'c, 'd>, AllocError>
    requires tables { AreTables tables.now }
    requires served { IsServed tables.now (target_view target.now) }
    ensures { IfOk result
        (IsUnreadAs (rules_at tables.now) (target_view target.now) (view value.now)) }
{
    let (name, reads) = name_and_kind(tables, target)?;
    Ok(Unread {
        target: same_target(target),
        name,
        reads: wanted_of(value, reads),
        given: Given::of(value),
    })
}

/// The name of a target, and what kind of value it reads.
fn name_and_kind<'c>(
    tables: &Tables<'c>,
    target: &Target<'c>,
) -> Result<(TypeName<'c>, Wanted<'c>), AllocError>
    requires tables { AreTables tables.now }
    requires served { IsServed tables.now (target_view target.now) }
    ensures name { IfOk result (λ told.
        called_view told.0 ≡ spec.target_name (rules_at tables.now) (target_view target.now)) }
    ensures kind { IfOk result (λ told.
        IsWanted (rules_at tables.now) (target_view target.now) told.1) }
{
    match target {
        Target::Shape(id) => {
            let name = basic_name(tables.shapes, *id, whole_name(tables.shapes, *id));
            Ok((name, wanted_of_end(tables.end(*id))))
        }
        Target::Content(id, k) => {
            let content = content_at(tables.alloc, tables.shapes, *id, *k)?;
            let name = content_name(tables.shapes, &content, full_name(tables.shapes, *id, *k));
            Ok((name, wanted_of_content(tables, &content)))
        }
        Target::Tag(text) => {
            let name = TypeName {
                name: text,
                variant: None,
            };
            Ok((name, Wanted::Exactly(text)))
        }
    }
}

/// The name of the content of a variant: of the basic type that it is, or else of the variant.
fn content_name<'c>(shapes: &'c Shapes, content: &Content, variant: TypeName<'c>) -> TypeName<'c>
    ensures { called_view result
        ≡ spec.content_name shapes.now (content_view content.now) (called_view variant.entry) }
{
    match content {
        Content::Shape(inside) => basic_name(shapes, *inside, variant),
        _ => variant,
    }
}
