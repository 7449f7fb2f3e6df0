//! What the functions of one build's choices and walks share.
use crate::build::Build;
use crate::build::contribution::ContributionTable;
use crate::build::count::Counts;
use crate::build::nested::tables::NestedTables;
use crate::build::starts::Starts;

/// What the functions of one build's choices and walks share, so that none of them takes each part
/// by itself.
#[derive(Drop)]
pub(crate) struct Walker<'c> {
    pub(crate) build: Build<'c>,
    /// The number of choices at each shape.
    pub(crate) counts: Counts,
    /// Where the choices of each variant begin among those of its enum.
    pub(crate) starts: Starts,
    /// What each struct contributes where it is flattened.
    pub(crate) contribution: ContributionTable,
    /// The nested key paths that the walks ask for.
    pub(crate) tables: NestedTables<'c>,
}
