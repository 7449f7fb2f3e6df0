//! The format of a variant.
ghost use Rattle.std.specs.Prelude.{◌≡◌, ◌==◌, not, find, length};
ghost use Rattle.std.specs.Option.{option_map};
ghost use Rattle.std.specs.List.{list_all};
ghost use Rattle.facet_solver_shape.specs.Formats.{value_shape, contained_shape, format_of, unnamed_format, newtype_format, format_of_kind, expects_scalar, expects_sequence, expects_mapping, is_unit};

use crate::shape::{Field, Shape, ShapeId, ShapeKind, Shapes, StructKind, Variant};

/// What kind of value stands for a variant, where nothing names the variant.
#[derive(Clone, Copy, PartialEq, Eq, Debug)]
pub enum VariantFormat {
    /// No value: a variant of kind unit.
    Unit,
    /// A scalar: one field that holds a scalar, or an enum none of whose variants has a field.
    NewtypeScalar {
        /// The field's shape, or what it contains if it is a metadata container.
        inner_shape: ShapeId,
    },
    /// A mapping: one field that holds a struct with named fields, or a map.
    NewtypeStruct {
        /// The field's shape, with pointers followed.
        inner_shape: ShapeId,
    },
    /// A sequence of a known length: one field that holds a tuple or a tuple struct.
    NewtypeTuple {
        /// The field's shape, with pointers followed.
        inner_shape: ShapeId,
        /// The number of the tuple's fields.
        arity: usize,
    },
    /// A sequence of any length: one field that holds a list, an array, a slice or a set.
    NewtypeSequence {
        /// The field's shape, with pointers followed.
        inner_shape: ShapeId,
    },
    /// Any other value: one field that holds anything else.
    NewtypeOther {
        /// The field's shape, with pointers followed.
        inner_shape: ShapeId,
    },
    /// A sequence: fields without names, and not exactly one.
    Tuple {
        /// The number of fields.
        arity: usize,
    },
    /// A mapping: a variant of kind struct.
    Struct,
}

impl VariantFormat {
    /// The format of a variant, whose fields have shapes of the catalogue.
    ///
    /// A field that is a metadata container counts as what it contains; a pointer to one does not.
    /// A field whose shape the catalogue lacks counts as one that holds anything else.
    #[tactic(auto, unfolding(crate::specs::Formats::format_of))]
    pub fn from_variant(shapes: &Shapes, variant: &Variant) -> Self
        ensures { result ≡ format_of shapes.now variant.now }
    {
        match variant.kind {
            StructKind::Unit => VariantFormat::Unit,
            StructKind::Struct => VariantFormat::Struct,
            StructKind::TupleStruct | StructKind::Tuple => unnamed_format(shapes, &variant.fields),
        }
    }

    /// Whether a scalar stands for the variant.
    pub fn expects_scalar(&self) -> bool
        ensures { result ≡ expects_scalar self.now }
    {
        matches!(self, VariantFormat::NewtypeScalar { .. })
    }

    /// Whether a sequence stands for the variant.
    pub fn expects_sequence(&self) -> bool
        ensures { result ≡ expects_sequence self.now }
    {
        matches!(
            self,
            VariantFormat::Tuple { .. }
                | VariantFormat::NewtypeTuple { .. }
                | VariantFormat::NewtypeSequence { .. }
        )
    }

    /// Whether a mapping stands for the variant.
    pub fn expects_mapping(&self) -> bool
        ensures { result ≡ expects_mapping self.now }
    {
        matches!(
            self,
            VariantFormat::Struct | VariantFormat::NewtypeStruct { .. }
        )
    }

    /// Whether the variant is of kind unit.
    pub fn is_unit(&self) -> bool
        ensures { result ≡ is_unit self.now }
    {
        matches!(self, VariantFormat::Unit)
    }
}

/// The format of a variant whose fields have no names.
fn unnamed_format(shapes: &Shapes, fields: &[Field]) -> VariantFormat
    ensures { result ≡ unnamed_format shapes.now fields.now }
{
    match fields {
        [field] => newtype_format(shapes, field.shape),
        _ => VariantFormat::Tuple {
            arity: fields.len(),
        },
    }
}

/// The format of a variant with one field without a name.
fn newtype_format(shapes: &Shapes, field: ShapeId) -> VariantFormat
    ensures { result ≡ newtype_format shapes.now field }
{
    let value = value_shape(shapes, field);
    let inner_shape = shapes.end_of(field);
    match shapes.get(shapes.end_of(value)) {
        Some(end) => format_of_kind(&end.kind, value, inner_shape),
        None => VariantFormat::NewtypeOther { inner_shape },
    }
}

/// That format, by the kind at the end of the value.
fn format_of_kind(kind: &ShapeKind, value: ShapeId, inner_shape: ShapeId) -> VariantFormat
    ensures { result ≡ format_of_kind kind.now value inner_shape }
{
    match kind {
        ShapeKind::Scalar(_) => VariantFormat::NewtypeScalar { inner_shape: value },
        ShapeKind::Enum { variants } if have_no_fields(variants) => {
            VariantFormat::NewtypeScalar { inner_shape: value }
        }
        ShapeKind::Struct {
            kind: StructKind::TupleStruct | StructKind::Tuple,
            fields,
        } => {
            VariantFormat::NewtypeTuple {
                inner_shape,
                arity: fields.len(),
            }
        }
        ShapeKind::Struct {
            kind: StructKind::Struct,
            ..
        }
        | ShapeKind::Map(..) => { VariantFormat::NewtypeStruct { inner_shape } }
        ShapeKind::List(_) | ShapeKind::Array(_) | ShapeKind::Slice(_) | ShapeKind::Set(_) => {
            VariantFormat::NewtypeSequence { inner_shape }
        }
        _ => VariantFormat::NewtypeOther { inner_shape },
    }
}

/// The shape that a shape stands for: what a metadata container contains, else itself.
fn value_shape(shapes: &Shapes, id: ShapeId) -> ShapeId
    ensures { result ≡ value_shape shapes.now id }
{
    shapes.get(id).and_then(contained_shape).unwrap_or(id)
}

/// What a metadata container contains: the shape of its first field that is not metadata.
fn contained_shape(shape: &Shape) -> Option<ShapeId>
    ensures { result ≡ contained_shape shape.now }
{
    match &shape.kind {
        ShapeKind::Struct { fields, .. } if shape.metadata_container => first_plain_shape(fields),
        _ => None,
    }
}

/// The shape of the first field that is not metadata.
fn first_plain_shape(fields: &[Field]) -> Option<ShapeId>
    ensures { result ≡ option_map (λ f. f.shape) (find (λ f. not f.metadata) fields.now) }
{
    fields.iter().find(|f| !f.metadata).map(|f| f.shape)
}

/// Whether none of the variants has a field.
fn have_no_fields(variants: &[Variant]) -> bool
    ensures { result ≡ list_all (λ v. length v.fields.items == 0) variants.now }
{
    variants.iter().all(|v| v.fields.is_empty())
}
