//! What kind of document is read, and the category of what a build adds to a resolution.
ghost use Rattle.std.specs.Prelude.{◌≡◌};
ghost use Rattle.facet_solver.specs.build.Format as categories;

use facet_solver_shape::{DomMark, FieldCategory};

/// What kind of document is read.
#[derive(Clone, Copy, PartialEq, Eq, Debug, Default)]
pub enum Format {
    /// Keys are names.
    #[default]
    Flat,
    /// Keys are names of attributes, elements and text.
    Dom,
}

impl Format {
    /// The category of a field with a mark.
    pub(crate) fn field_category(self, mark: DomMark) -> FieldCategory
        ensures { result ≡ categories.field_category self mark }
    {
        match (self, mark) {
            (Format::Flat, _) => FieldCategory::Flat,
            (Format::Dom, DomMark::None | DomMark::Element) => FieldCategory::Element,
            (Format::Dom, DomMark::Attribute) => FieldCategory::Attribute,
            (Format::Dom, DomMark::Text) => FieldCategory::Text,
            (Format::Dom, DomMark::Tag) => FieldCategory::Tag,
            (Format::Dom, DomMark::Elements) => FieldCategory::Elements,
        }
    }

    /// The category of the field by which a reader learns the variant of an enum.
    pub(crate) fn selector_category(self) -> FieldCategory
        ensures { result ≡ categories.selector_category self }
    {
        match self {
            Format::Flat => FieldCategory::Flat,
            Format::Dom => FieldCategory::Element,
        }
    }

    /// The category of a field with a mark that takes what no other field takes.
    pub(crate) fn catch_all_category(self, mark: DomMark) -> FieldCategory
        ensures { result ≡ categories.catch_all_category self mark }
    {
        match (self, mark) {
            (Format::Flat, _) => FieldCategory::Flat,
            (Format::Dom, DomMark::Attribute) => FieldCategory::Attribute,
            (Format::Dom, _) => FieldCategory::Element,
        }
    }
}
