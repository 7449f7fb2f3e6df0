//! Types, each by its id, with the ids of the types that it is made of.

use crate::standard::Standard;
use facet_solver_shape::ScalarType;

/// What a type is made of. Other types stand in it by their ids.
#[derive(Drop)]
pub(crate) enum Form {
    Scalar(ScalarType),
    Option(String),
    List(String),
    Array(String),
    Slice(String),
    Set(String),
    /// Of keys and of values.
    Map(String, String),
    Pointer(String),
    Tuple(Vec<String>),
    Dynamic,
    /// A type of std, with the types of its members or of its variants that have a value.
    Standard(Standard, Vec<String>),
    /// What a declaration declares.
    Declared {
        /// Its index among the declarations.
        index: usize,
        /// The types of the fields of a struct, of the fields of each variant of an enum, or the
        /// one type as which it is read.
        types: Vec<Vec<String>>,
    },
}

/// A type.
#[derive(Drop)]
pub(crate) struct TypeEntry {
    /// The type as it is written, where aliases are followed, and lifetimes and paths dropped.
    pub(crate) id: String,
    pub(crate) form: Form,
}

impl TypeEntry {
    ghost use Rattle.facet_solver_types.specs.TypeEntries.{entry_view};
    ghost use Rattle.std.specs.Prelude.{◌≡◌};

    /// The id.
    pub(crate) fn id(&self) -> &str
        ensures { result.now ≡ (entry_view self.now).id }
    {
        self.id.as_str()
    }
}
