//! The kinds of shapes that types of std have.
ghost use Rattle.std.specs.Prelude.{◌≡◌, ◌∷◌, [], IfOk, map};
ghost use Rattle.std.specs.String.{string_bytes};
ghost use Rattle.facet_solver_types.specs.PlacedNames.{names_in};
ghost use Rattle.facet_solver_types.specs.ShapeViews as shapes;
ghost use Rattle.facet_solver_types.specs.StandardShapes as of;
ghost use Rattle.facet_solver_types.specs.StandardShapes.{member_view};

use crate::name_places::NamePlaces;
use crate::standard::Standard;
use crate::typing::{first, second};
use facet_solver_shape::{Field, ShapeId, ShapeKind, StructKind, Variant};
use std::alloc::{AllocError, Global};

/// A member of a struct, or a variant with a value: its name, and the id of its type.
#[derive(Clone, Copy)]
struct Member<'k> {
    name: &'k str,
    id: &'k str,
}

/// A member of this name and type.
fn named<'k>(name: &'k str, id: &'k str) -> Member<'k>
    ensures { member_view result ≡ of.named name.now id.now }
{
    Member { name, id }
}

/// The field that a member is.
fn field_of(alloc: Global, ids: &NamePlaces<'_>, one: Member<'_>) -> Result<Field, AllocError>
    ensures { IfOk result (λ made. shapes.field_view made
        ≡ of.field_of (names_in ids.now) (member_view one.entry)) }
{
    let name = String::from_str(alloc, one.name)?;
    Ok(Field::new(name, ShapeId::new(ids.place_in(one.id))))
}

/// A struct of one member.
fn struct_of_one(
    alloc: Global,
    ids: &NamePlaces<'_>,
    one: Member<'_>,
) -> Result<ShapeKind, AllocError>
    ensures { IfOk result (λ kind. shapes.kind_view kind
        ≡ of.struct_of_one (names_in ids.now) (member_view one.entry)) }
{
    let mut fields = Vec::new(alloc);
    fields.push(field_of(alloc, ids, one)?)?;
    Ok(ShapeKind::Struct {
        kind: StructKind::Struct,
        fields,
    })
}

/// A struct of two members.
fn struct_of(
    alloc: Global,
    ids: &NamePlaces<'_>,
    one: Member<'_>,
    other: Member<'_>,
) -> Result<ShapeKind, AllocError>
    ensures { IfOk result (λ kind. shapes.kind_view kind
        ≡ of.struct_of (names_in ids.now) (member_view one.entry) (member_view other.entry)) }
{
    let mut fields = Vec::new(alloc);
    fields.push(field_of(alloc, ids, one)?)?;
    fields.push(field_of(alloc, ids, other)?)?;
    Ok(ShapeKind::Struct {
        kind: StructKind::Struct,
        fields,
    })
}

/// The variant with a value that a member is.
fn variant_of(alloc: Global, ids: &NamePlaces<'_>, one: Member<'_>) -> Result<Variant, AllocError>
    ensures { IfOk result (λ made. shapes.variant_view made
        ≡ of.variant_of (names_in ids.now) (member_view one.entry)) }
{
    let name = String::from_str(alloc, one.name)?;
    let mut fields = Vec::new(alloc);
    fields.push(field_of(alloc, ids, named("0", one.id))?)?;
    Ok(Variant::new(name, StructKind::Tuple, fields))
}

/// A variant without a value.
fn unit(alloc: Global, name: &str) -> Result<Variant, AllocError>
    ensures { IfOk result (λ made. shapes.variant_view made ≡ of.unit name.now) }
{
    let name = String::from_str(alloc, name)?;
    Ok(Variant::new(name, StructKind::Unit, Vec::new(alloc)))
}

/// An enum of two variants with a value, behind these.
fn enum_of(
    alloc: Global,
    ids: &NamePlaces<'_>,
    before: Vec<Variant>,
    one: Member<'_>,
    other: Member<'_>,
) -> Result<ShapeKind, AllocError>
    ensures { IfOk result (λ kind. shapes.kind_view kind
        ≡ of.enum_of (names_in ids.now) (map shapes.variant_view before.items)
        (member_view one.entry) (member_view other.entry)) }
{
    let mut variants = before;
    variants.push(variant_of(alloc, ids, one)?)?;
    variants.push(variant_of(alloc, ids, other)?)?;
    Ok(ShapeKind::Enum { variants })
}

/// A variant without a value, alone.
fn alone(alloc: Global, name: &str) -> Result<Vec<Variant>, AllocError>
    ensures { IfOk result (λ made. map shapes.variant_view made.items ≡ of.unit name.now ∷ []) }
{
    let mut variants = Vec::new(alloc);
    variants.push(unit(alloc, name)?)?;
    Ok(variants)
}

/// The kind of a type of std in which these types stand.
pub(super) fn standard_kind(
    alloc: Global,
    ids: &NamePlaces<'_>,
    kind: Standard,
    types: &[String],
) -> Result<ShapeKind, AllocError>
    ensures { IfOk result (λ made. shapes.kind_view made
        ≡ of.standard_kind (names_in ids.now) kind (map string_bytes types.now)) }
{
    let (one, other) = (first(types), second(types));
    match kind {
        Standard::Duration => struct_of(alloc, ids, named("secs", one), named("nanos", other)),
        Standard::SystemTime => {
            let seconds = named("secs_since_epoch", one);
            struct_of(alloc, ids, seconds, named("nanos_since_epoch", other))
        }
        Standard::Range => struct_of(alloc, ids, named("start", one), named("end", one)),
        Standard::RangeFrom => struct_of_one(alloc, ids, named("start", one)),
        Standard::RangeTo => struct_of_one(alloc, ids, named("end", one)),
        Standard::Result => {
            let none = Vec::new(alloc);
            enum_of(alloc, ids, none, named("Ok", one), named("Err", other))
        }
        Standard::Bound => {
            let unbounded = alone(alloc, "Unbounded")?;
            enum_of(
                alloc,
                ids,
                unbounded,
                named("Included", one),
                named("Excluded", one),
            )
        }
        Standard::OsString => {
            let none = Vec::new(alloc);
            enum_of(
                alloc,
                ids,
                none,
                named("Unix", one),
                named("Windows", other),
            )
        }
    }
}
