//! What a solver answers to the shapes that a value fits.
use crate::schema::handle::ResolutionHandle;

/// What the shapes that a value fits say of the document.
#[derive(Debug, Drop)]
pub enum SatisfyResult<'s, 'c> {
    /// Several candidates are left.
    Continue,
    /// Exactly one candidate is left.
    Solved(ResolutionHandle<'s, 'c>),
    /// No candidate is left.
    NoMatch,
}
