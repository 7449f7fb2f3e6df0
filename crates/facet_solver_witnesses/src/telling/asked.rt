//! What is asked of two variants.
use crate::ambiguity::Cause;
use crate::sites::Site;
use crate::sites::listed::Pair;

/// What is asked of two variants of a site.
#[derive(Clone, Copy)]
pub(crate) struct Asked {
    pub(crate) site: Site,
    pub(crate) pair: Pair,
    /// The number of the question.
    pub(crate) number: usize,
    /// Whether the question has the two the other way round.
    pub(crate) is_swapped: bool,
    /// Why there may be a document where none is shown.
    pub(crate) cause: Cause,
}
