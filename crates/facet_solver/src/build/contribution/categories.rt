//! Sets of categories of catch-alls.
ghost use Rattle.std.specs.Prelude.{◌≡◌};
ghost use Rattle.facet_solver.specs.build.Contribution as contribution;

use facet_solver_shape::FieldCategory;

/// A set of the categories that catch-alls have.
#[derive(Clone, Copy)]
pub(crate) struct Categories {
    flat: bool,
    attribute: bool,
    element: bool,
}

impl Categories {
    /// No category.
    pub(crate) fn none() -> Categories
        ensures { result ≡ contribution.none }
    {
        Categories {
            flat: false,
            attribute: false,
            element: false,
        }
    }

    /// One category alone; none, where no catch-all is of the category.
    pub(crate) fn only(category: FieldCategory) -> Categories
        ensures { result ≡ contribution.only category }
    {
        let mut categories = Categories::none();
        match category {
            FieldCategory::Flat => categories.flat = true,
            FieldCategory::Attribute => categories.attribute = true,
            FieldCategory::Element => categories.element = true,
            FieldCategory::Text | FieldCategory::Tag | FieldCategory::Elements => {}
        }
        categories
    }

    /// The categories of both.
    pub(crate) fn union(self, other: Categories) -> Categories
        ensures { result ≡ contribution.union self other }
    {
        Categories {
            flat: self.flat || other.flat,
            attribute: self.attribute || other.attribute,
            element: self.element || other.element,
        }
    }

    /// Whether the category is among them.
    pub(crate) fn has(self, category: FieldCategory) -> bool
        ensures { result ≡ contribution.has self category }
    {
        match category {
            FieldCategory::Flat => self.flat,
            FieldCategory::Attribute => self.attribute,
            FieldCategory::Element => self.element,
            FieldCategory::Text | FieldCategory::Tag | FieldCategory::Elements => false,
        }
    }
}
