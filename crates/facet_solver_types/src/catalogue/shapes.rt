//! The shapes of types. Other types stand in them by the places of their ids.
ghost use Rattle.std.specs.Prelude.{◌≡◌, IfOk, map, option_map, slice_get};
ghost use Rattle.std.specs.String.{string_bytes};
ghost use Rattle.facet_solver_types.specs.Links.{names_view, place_in};
ghost use Rattle.facet_solver_types.specs.MadeShapes.{declared_shape, first_place, first_types, found_shape, kind_of, plain, shape_of};
ghost use Rattle.facet_solver_types.specs.PlacedNames.{names_in};
ghost use Rattle.facet_solver_types.specs.ShapeViews as shapes;
ghost use Rattle.facet_solver_types.specs.TypeEntries.{entry_view, form_view};
ghost use Rattle.facet_solver_types.specs.Understood.{declaration_view, declarations_view, declared_view};

use super::members::{copied, fields_of, tuple_fields, variants_of};
use super::standards::standard_kind;
use crate::declaration::{Declaration, Declared};
use crate::name_places::NamePlaces;
use crate::type_entry::{Form, TypeEntry};
use facet_solver_shape::{Shape, ShapeId, ShapeKind, StructKind};
use std::alloc::{AllocError, Global};

/// The shape at the place of an id.
fn at(ids: &NamePlaces<'_>, id: &str) -> ShapeId
    ensures { result ≡ place_in (names_in ids.now) id.now }
{
    ShapeId::new(ids.place_in(id))
}

/// The first of some lists of types.
pub(super) fn first_types(types: &[Vec<String>]) -> &[String]
    ensures { map string_bytes result.now ≡ first_types (names_view types.now) }
{
    match types.first() {
        Some(types) => types.as_slice(),
        None => &[],
    }
}

/// The shape of the first of some types.
fn first_place(ids: &NamePlaces<'_>, types: &[String]) -> Option<ShapeId>
    ensures { result ≡ first_place (names_in ids.now) (map string_bytes types.now) }
{
    match types.first() {
        Some(id) => Some(at(ids, id.as_str())),
        None => None,
    }
}

/// The shape of what is declared under an id, with these types.
fn declared_shape(
    alloc: Global,
    ids: &NamePlaces<'_>,
    id: &str,
    declared: &Declared<'_, '_>,
    types: &[Vec<String>],
) -> Result<Shape, AllocError>
    ensures { IfOk result (λ made. shapes.shape_view made
        ≡ declared_shape (names_in ids.now) id.now (declared_view declared.now)
        (names_view types.now)) }
{
    let name = String::from_str(alloc, id)?;
    match declared {
        Declared::Struct {
            kind,
            fields,
            is_transparent,
            is_metadata_container,
            ..
        } => {
            let own = first_types(types);
            let fields = fields_of(alloc, ids, fields, own)?;
            let mut shape = Shape::new(
                name,
                ShapeKind::Struct {
                    kind: *kind,
                    fields,
                },
            );
            if *is_transparent {
                shape.inner = first_place(ids, own);
            }
            shape.metadata_container = *is_metadata_container;
            Ok(shape)
        }
        Declared::Enum {
            variants,
            tag,
            content,
            untagged,
        } => {
            let variants = variants_of(alloc, ids, variants, types)?;
            let mut shape = Shape::new(name, ShapeKind::Enum { variants });
            shape.tag = copied(tag)?;
            shape.content = copied(content)?;
            shape.untagged = *untagged;
            Ok(shape)
        }
        Declared::Proxied(_) => {
            let mut shape = Shape::new(name, ShapeKind::Other);
            shape.proxy = first_place(ids, first_types(types));
            Ok(shape)
        }
        Declared::Alias(_) | Declared::Home | Declared::Elsewhere | Declared::Unread => {
            Ok(Shape::new(name, ShapeKind::Other))
        }
    }
}

/// The kind of a type that no declaration declares.
fn kind_of(alloc: Global, ids: &NamePlaces<'_>, form: &Form) -> Result<ShapeKind, AllocError>
    ensures { IfOk result (λ kind. shapes.kind_view kind
        ≡ kind_of (names_in ids.now) (form_view form.now)) }
{
    match form {
        Form::Scalar(kind) => Ok(ShapeKind::Scalar(*kind)),
        Form::Option(inside) => Ok(ShapeKind::Option(at(ids, inside.as_str()))),
        Form::List(inside) => Ok(ShapeKind::List(at(ids, inside.as_str()))),
        Form::Array(inside) => Ok(ShapeKind::Array(at(ids, inside.as_str()))),
        Form::Slice(inside) => Ok(ShapeKind::Slice(at(ids, inside.as_str()))),
        Form::Set(inside) => Ok(ShapeKind::Set(at(ids, inside.as_str()))),
        Form::Map(key, value) => Ok(ShapeKind::Map(at(ids, key.as_str()), at(ids, value.as_str()))),
        Form::Pointer(inside) => Ok(ShapeKind::Pointer(Some(at(ids, inside.as_str())))),
        Form::Tuple(types) => Ok(ShapeKind::Struct {
            kind: StructKind::Tuple,
            fields: tuple_fields(alloc, ids, types)?,
        }),
        Form::Dynamic => Ok(ShapeKind::DynamicValue),
        Form::Standard(kind, types) => standard_kind(alloc, ids, *kind, types),
        Form::Declared { .. } => Ok(ShapeKind::Other),
    }
}

/// The declaration at an index, if there is one.
pub(super) fn declaration_at<'d, 's, 't>(
    declarations: &'d [Declaration<'s, 't>],
    index: usize,
) -> Option<&'d Declaration<'s, 't>>
    ensures { option_map (λ d. declaration_view d.now) result
        ≡ slice_get (declarations_view declarations.now) index }
{
    match declarations.get(index) {
        Some(declaration) => Some(declaration),
        None => None,
    }
}

/// The shape of what a declaration declares under an id, with these types.
fn found_shape(
    alloc: Global,
    ids: &NamePlaces<'_>,
    id: &str,
    found: Option<&Declaration<'_, '_>>,
    types: &[Vec<String>],
) -> Result<Shape, AllocError>
    ensures { IfOk result (λ made. shapes.shape_view made
        ≡ found_shape (names_in ids.now) id.now
        (option_map (λ d. declaration_view d.now) found.entry) (names_view types.now)) }
{
    match found {
        Some(declaration) => declared_shape(alloc, ids, id, &declaration.declared, types),
        None => Ok(Shape::new(String::from_str(alloc, id)?, ShapeKind::Other)),
    }
}

/// The shape of a type of this id that no declaration declares.
fn other_shape(
    alloc: Global,
    ids: &NamePlaces<'_>,
    id: &str,
    form: &Form,
) -> Result<Shape, AllocError>
    ensures { IfOk result (λ made. shapes.shape_view made
        ≡ plain id.now (kind_of (names_in ids.now) (form_view form.now))) }
{
    let kind = kind_of(alloc, ids, form)?;
    Ok(Shape::new(String::from_str(alloc, id)?, kind))
}

/// The shape of a type.
pub(super) fn shape_of(
    alloc: Global,
    declarations: &[Declaration<'_, '_>],
    ids: &NamePlaces<'_>,
    entry: &TypeEntry,
) -> Result<Shape, AllocError>
    ensures { IfOk result (λ made. shapes.shape_view made
        ≡ shape_of (declarations_view declarations.now) (names_in ids.now)
        (entry_view entry.now)) }
{
    match &entry.form {
        Form::Declared { index, types } => {
            let found = declaration_at(declarations, *index);
            found_shape(alloc, ids, entry.id(), found, types)
        }
        form => other_shape(alloc, ids, entry.id(), form),
    }
}
