//! Targets as keys of maps.
ghost use Rattle.std.specs.Prelude.{◌≡◌};
ghost use Rattle.facet_solver_reader.specs.TargetKeys.{key_view};
ghost use Rattle.facet_solver_reader.specs.Views.{target_view};

use crate::part::Target;

/// What a value is read as, by indices alone.
#[derive(Clone, Copy, PartialEq, Eq, PartialOrd, Ord, Debug)]
pub(super) enum TargetKey<'c> {
    /// The shape at an index.
    Shape(usize),
    /// The content of a variant of the enum at an index, by the variant's index.
    Content(usize, usize),
    /// The text that names a variant.
    Tag(&'c str),
}

impl<'c> TargetKey<'c> {
    /// The key of a target.
    pub(super) fn of(target: &Target<'c>) -> TargetKey<'c>
        ensures { key_view result ≡ target_view target.now }
    {
        match target {
            Target::Shape(id) => TargetKey::Shape(id.index()),
            Target::Content(id, variant) => TargetKey::Content(id.index(), *variant),
            Target::Tag(name) => TargetKey::Tag(name),
        }
    }
}
