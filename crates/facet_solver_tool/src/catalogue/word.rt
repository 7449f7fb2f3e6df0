//! The words of a catalogue's text.
ghost use Rattle.std.specs.Prelude.{◌≡◌, option_map};
ghost use Rattle.facet_solver_tool.specs.CatalogueWords as words;

use facet_solver_shape::{DomMark, ScalarType, ShapeKind, StructKind};

/// The word for what a shape is made of.
pub(super) fn shape_kind(kind: &ShapeKind) -> &'static str
    ensures { result.now ≡ words.shape_kind kind.now }
{
    match kind {
        ShapeKind::Scalar(_) => "scalar",
        ShapeKind::Struct { .. } => "struct",
        ShapeKind::Enum { .. } => "enum",
        ShapeKind::Option(_) => "option",
        ShapeKind::Pointer(_) => "pointer",
        ShapeKind::List(_) => "list",
        ShapeKind::Array(_) => "array",
        ShapeKind::Slice(_) => "slice",
        ShapeKind::Set(_) => "set",
        ShapeKind::Map(..) => "map",
        ShapeKind::DynamicValue => "dynamic",
        ShapeKind::Other => "other",
    }
}

/// The word for how fields are written; none where they are written by name.
pub(super) fn struct_kind(kind: StructKind) -> Option<&'static str>
    ensures { option_map (λ w. w.now) result ≡ words.struct_kind kind }
{
    match kind {
        StructKind::Unit => Some("unit"),
        StructKind::TupleStruct => Some("tuple_struct"),
        StructKind::Struct => None,
        StructKind::Tuple => Some("tuple"),
    }
}

/// The word for the mark of a field, where it has one.
pub(super) fn dom_mark(mark: DomMark) -> Option<&'static str>
    ensures { option_map (λ w. w.now) result ≡ words.dom_mark mark }
{
    match mark {
        DomMark::None => None,
        DomMark::Attribute => Some("attribute"),
        DomMark::Element => Some("element"),
        DomMark::Text => Some("text"),
        DomMark::Tag => Some("tag"),
        DomMark::Elements => Some("elements"),
    }
}

/// The word for a basic type.
pub(super) fn scalar_type(scalar: ScalarType) -> &'static str
    ensures { result.now ≡ words.scalar_type scalar }
{
    match scalar {
        ScalarType::Unit => "unit",
        ScalarType::Bool => "bool",
        ScalarType::Char => "char",
        ScalarType::Str => "str",
        ScalarType::String => "string",
        ScalarType::CowStr => "cowstr",
        ScalarType::F32 => "f32",
        ScalarType::F64 => "f64",
        ScalarType::U8 => "u8",
        ScalarType::U16 => "u16",
        ScalarType::U32 => "u32",
        ScalarType::U64 => "u64",
        ScalarType::U128 => "u128",
        ScalarType::USize => "usize",
        ScalarType::I8 => "i8",
        ScalarType::I16 => "i16",
        ScalarType::I32 => "i32",
        ScalarType::I64 => "i64",
        ScalarType::I128 => "i128",
        ScalarType::ISize => "isize",
        ScalarType::Other => "other",
    }
}
