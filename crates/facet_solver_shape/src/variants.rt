//! What a value must look like for each variant of an enum, and how specific a shape is.

mod by_format;
mod format;
mod grouping;
mod score;

pub use by_format::VariantsByFormat;
pub use format::VariantFormat;
pub use score::specificity_score;
