//! Declarations with the types that their parameters stand for.

/// A declaration with the types that its parameters stand for.
#[derive(Drop)]
pub(crate) struct Use {
    /// The index of the declaration.
    pub(crate) index: usize,
    /// The id of the type that it is then.
    pub(crate) id: String,
    /// The ids for which its parameters stand; for a const one the tokens of a value.
    pub(crate) arguments: Vec<String>,
}
