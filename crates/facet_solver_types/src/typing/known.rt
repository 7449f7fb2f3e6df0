//! The types that need no declaration, by their names.
ghost use Rattle.std.specs.Prelude.{◌≡◌, ◌<◌};
ghost use Rattle.facet_solver_types.specs.KnownTypes as known_types;

use crate::standard::Standard;
use facet_solver_shape::ScalarType;

/// What a type makes of the types that it takes.
#[derive(Clone, Copy, Debug, PartialEq, Eq)]
pub(crate) enum Applied {
    /// Of one, a value that may be absent.
    Option,
    /// Of one, a list.
    List,
    /// Of one, a set.
    Set,
    /// Of one, a pointer.
    Pointer,
    /// Of two, a map.
    Map,
}

/// A type that needs no declaration.
#[derive(Clone, Copy, Debug, PartialEq, Eq)]
pub(crate) enum Known {
    Scalar(ScalarType),
    /// A value of any shape.
    Dynamic,
    /// A text that may be borrowed. It takes `str` alone.
    Cow,
    /// Nothing, whatever type it takes.
    Phantom,
    /// An array of the type that it takes, as long as what stands behind that says.
    ArrayVec,
    /// What the type is that it takes.
    Wrapper,
    /// What may name a hasher behind the types that it takes.
    Hashed(Applied),
    Applied(Applied),
    Standard(Standard),
}

/// The type of a name.
pub(crate) fn known_type(name: &str) -> Option<Known>
    ensures { result ≡ known_types.known_type name.now }
{
    match scalar(name) {
        Some(kind) => Some(Known::Scalar(kind)),
        None => other_type(name),
    }
}

/// The type of a name that is no scalar's.
fn other_type(name: &str) -> Option<Known>
    ensures { result ≡ known_types.other_type name.now }
{
    match name {
        "Value" | "JsonValue" | "RawValue" | "OwnedValue" => Some(Known::Dynamic),
        "IgnoredAny" => Some(Known::Dynamic),
        "Cow" => Some(Known::Cow),
        "PhantomData" => Some(Known::Phantom),
        "ArrayVec" => Some(Known::ArrayVec),
        _ => wrapper(name),
    }
}

/// The type of a name that is what the type in it is, or else that is made of types.
fn wrapper(name: &str) -> Option<Known>
    ensures { result ≡ known_types.wrapper name.now }
{
    match name {
        "Cell" | "RefCell" | "Mutex" | "RwLock" => Some(Known::Wrapper),
        "Wrapping" | "Saturating" | "Reverse" => Some(Known::Wrapper),
        "NonZero" | "SmallVec" => Some(Known::Wrapper),
        _ => made_type(name),
    }
}

/// The type of a name that takes types.
fn made_type(name: &str) -> Option<Known>
    ensures { result ≡ known_types.made_type name.now }
{
    match hashed_type(name) {
        Some(kind) => Some(Known::Hashed(kind)),
        None => plain_type(name),
    }
}

/// The same of a name that may name no hasher.
fn plain_type(name: &str) -> Option<Known>
    ensures { result ≡ known_types.plain_type name.now }
{
    match applied_type(name) {
        Some(kind) => Some(Known::Applied(kind)),
        None => standard_type(name).map(|kind| Known::Standard(kind)),
    }
}

/// The type of std of a name that documents have as a struct or an enum.
fn standard_type(name: &str) -> Option<Standard>
    ensures { result ≡ known_types.standard_type name.now }
{
    match name {
        "Duration" => Some(Standard::Duration),
        "SystemTime" => Some(Standard::SystemTime),
        "Range" | "RangeInclusive" => Some(Standard::Range),
        "RangeFrom" => Some(Standard::RangeFrom),
        "RangeTo" => Some(Standard::RangeTo),
        "Result" => Some(Standard::Result),
        "Bound" => Some(Standard::Bound),
        "OsString" => Some(Standard::OsString),
        _ => None,
    }
}

/// What a name makes of the types that it takes, and may name a hasher behind them.
fn hashed_type(name: &str) -> Option<Applied>
    ensures { result ≡ known_types.hashed_type name.now }
{
    match name {
        "HashSet" | "IndexSet" => Some(Applied::Set),
        "HashMap" | "IndexMap" => Some(Applied::Map),
        _ => None,
    }
}

/// What a name makes of the types that it takes.
fn applied_type(name: &str) -> Option<Applied>
    ensures { result ≡ known_types.applied_type name.now }
{
    match name {
        "Option" => Some(Applied::Option),
        "Vec" | "VecDeque" | "LinkedList" | "BinaryHeap" => Some(Applied::List),
        "BTreeSet" => Some(Applied::Set),
        "BTreeMap" | "Map" => Some(Applied::Map),
        "Box" | "Rc" | "Arc" => Some(Applied::Pointer),
        _ => None,
    }
}

/// The scalar of a name.
fn scalar(name: &str) -> Option<ScalarType>
    ensures { result ≡ known_types.scalar name.now }
{
    match name {
        "bool" => Some(ScalarType::Bool),
        "char" => Some(ScalarType::Char),
        "str" => Some(ScalarType::Str),
        "f32" => Some(ScalarType::F32),
        "f64" | "Number" => Some(ScalarType::F64),
        _ => unsigned(name),
    }
}

/// The number without a sign of a name, or else another scalar.
fn unsigned(name: &str) -> Option<ScalarType>
    ensures { result ≡ known_types.unsigned name.now }
{
    match name {
        "u8" | "NonZeroU8" => Some(ScalarType::U8),
        "u16" | "NonZeroU16" => Some(ScalarType::U16),
        "u32" | "NonZeroU32" => Some(ScalarType::U32),
        "u64" | "NonZeroU64" => Some(ScalarType::U64),
        "u128" | "NonZeroU128" => Some(ScalarType::U128),
        "usize" | "NonZeroUsize" => Some(ScalarType::USize),
        _ => signed(name),
    }
}

/// The number with a sign of a name, or else another scalar.
fn signed(name: &str) -> Option<ScalarType>
    ensures { result ≡ known_types.signed name.now }
{
    match name {
        "i8" | "NonZeroI8" => Some(ScalarType::I8),
        "i16" | "NonZeroI16" => Some(ScalarType::I16),
        "i32" | "NonZeroI32" => Some(ScalarType::I32),
        "i64" | "NonZeroI64" => Some(ScalarType::I64),
        "i128" | "NonZeroI128" => Some(ScalarType::I128),
        "isize" | "NonZeroIsize" => Some(ScalarType::ISize),
        _ => text(name),
    }
}

/// The text of a name: any text is read.
fn text(name: &str) -> Option<ScalarType>
    ensures { result ≡ known_types.text name.now }
{
    match name {
        "String" | "PathBuf" | "Path" => Some(ScalarType::String),
        "IpAddr" | "Ipv4Addr" | "Ipv6Addr" | "SocketAddr" => Some(ScalarType::String),
        _ => None,
    }
}

/// How many types it takes.
pub(crate) fn arity_of(kind: Applied) -> usize
    ensures value { result ≡ known_types.arity_of kind }
    ensures few { result < 3 }
{
    match kind {
        Applied::Map => 2,
        _ => 1,
    }
}
