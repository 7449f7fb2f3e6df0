//! Words of the input, each for one value of a list. Another word is `None`.
ghost use Rattle.std.specs.Prelude.{◌≡◌};
ghost use Rattle.facet_solver_program.specs.Words as words;

use facet_solver::{DomMark, ScalarType, StructKind};

/// The way of writing fields that a word says.
pub fn struct_kind(word: &str) -> Option<StructKind>
    ensures { result ≡ words.struct_kind word.now }
{
    match word {
        "unit" => Some(StructKind::Unit),
        "tuple_struct" => Some(StructKind::TupleStruct),
        "struct" => Some(StructKind::Struct),
        "tuple" => Some(StructKind::Tuple),
        _ => None,
    }
}

/// The mark of a field that a word says.
pub fn dom_mark(word: &str) -> Option<DomMark>
    ensures { result ≡ words.dom_mark word.now }
{
    match word {
        "attribute" => Some(DomMark::Attribute),
        "element" => Some(DomMark::Element),
        "text" => Some(DomMark::Text),
        "tag" => Some(DomMark::Tag),
        "elements" => Some(DomMark::Elements),
        _ => None,
    }
}

/// The basic type that a word says.
pub fn scalar_type(word: &str) -> Option<ScalarType>
    ensures { result ≡ words.scalar_type word.now }
{
    match word {
        "unit" => Some(ScalarType::Unit),
        "bool" => Some(ScalarType::Bool),
        "char" => Some(ScalarType::Char),
        "str" => Some(ScalarType::Str),
        "string" => Some(ScalarType::String),
        "cowstr" => Some(ScalarType::CowStr),
        "f32" => Some(ScalarType::F32),
        "f64" => Some(ScalarType::F64),
        "u8" => Some(ScalarType::U8),
        "u16" => Some(ScalarType::U16),
        "u32" => Some(ScalarType::U32),
        "u64" => Some(ScalarType::U64),
        "u128" => Some(ScalarType::U128),
        "usize" => Some(ScalarType::USize),
        "i8" => Some(ScalarType::I8),
        "i16" => Some(ScalarType::I16),
        "i32" => Some(ScalarType::I32),
        "i64" => Some(ScalarType::I64),
        "i128" => Some(ScalarType::I128),
        "isize" => Some(ScalarType::ISize),
        "other" => Some(ScalarType::Other),
        _ => None,
    }
}

/// How the flattened enums of an input's catalogue are written.
#[derive(Clone, Copy, Debug, PartialEq, Eq)]
pub enum Builder {
    /// Their content stands among the fields around them.
    Flattened,
    /// As their own attributes ask for.
    Auto,
    /// Each in a field that has the name of its variant.
    External,
}

/// The builder that a word says.
pub fn named_builder(word: &str) -> Option<Builder>
    ensures { result ≡ words.named_builder word.now }
{
    match word {
        "flattened" => Some(Builder::Flattened),
        "auto" => Some(Builder::Auto),
        "external" => Some(Builder::External),
        _ => None,
    }
}
