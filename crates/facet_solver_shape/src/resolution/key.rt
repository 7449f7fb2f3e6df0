//! Keys of fields, and the categories that they are of.
ghost use Rattle.std.specs.Prelude.{◌≡◌, []};
ghost use Rattle.facet_solver_shape.specs.Keys.{key_of, flat_key, dom_key};
ghost use Rattle.facet_solver_shape.specs.Fields.{takes_any_name};

/// What kind of thing in a document gives a field its value.
#[derive(Clone, Copy, PartialEq, Eq, PartialOrd, Ord, Debug)]
pub enum FieldCategory {
    /// A member in a format where all members are alike, as JSON.
    Flat,
    /// An attribute of an element.
    Attribute,
    /// A child element.
    Element,
    /// The text of an element.
    Text,
    /// The name of an element.
    Tag,
    /// All child elements.
    Elements,
}

impl FieldCategory {
    /// Whether a DOM key without a name means every field of the category.
    pub fn takes_any_name(self) -> bool
        ensures { result ≡ takes_any_name self }
    {
        matches!(
            self,
            FieldCategory::Text | FieldCategory::Tag | FieldCategory::Elements
        )
    }
}

/// A key of a document or of a field: a name alone, or a name in a category.
///
/// Flat keys stand before DOM keys; then the category decides, then the bytes of the name.
#[derive(Clone, Copy, PartialEq, Eq, PartialOrd, Ord, Debug)]
pub enum FieldKey<'a> {
    /// A name alone.
    Flat(&'a str),
    /// A name in a category.
    Dom(FieldCategory, &'a str),
}

impl<'a> FieldKey<'a> {
    /// The key of a name alone.
    pub fn flat(name: &'a str) -> Self
        ensures { key_of result ≡ flat_key name.now }
    {
        FieldKey::Flat(name)
    }

    /// The key of an attribute.
    pub fn attribute(name: &'a str) -> Self
        ensures { key_of result ≡ dom_key FieldCategory.Attribute name.now }
    {
        FieldKey::Dom(FieldCategory::Attribute, name)
    }

    /// The key of a child element.
    pub fn element(name: &'a str) -> Self
        ensures { key_of result ≡ dom_key FieldCategory.Element name.now }
    {
        FieldKey::Dom(FieldCategory::Element, name)
    }

    /// The key of an element's text, which has no name.
    pub fn text() -> Self
        ensures { key_of result ≡ dom_key FieldCategory.Text [] }
    {
        FieldKey::Dom(FieldCategory::Text, "")
    }

    /// The key of an element's own name. As a key it has no name.
    pub fn tag() -> Self
        ensures { key_of result ≡ dom_key FieldCategory.Tag [] }
    {
        FieldKey::Dom(FieldCategory::Tag, "")
    }

    /// The key of all child elements, which has no name.
    pub fn elements() -> Self
        ensures { key_of result ≡ dom_key FieldCategory.Elements [] }
    {
        FieldKey::Dom(FieldCategory::Elements, "")
    }

    /// The name of the key, of whatever kind; empty where it has none.
    pub fn name(&self) -> &'a str
        ensures { result.now ≡ (key_of self.now).name }
    {
        match *self {
            FieldKey::Flat(text) | FieldKey::Dom(_, text) => text,
        }
    }
}
