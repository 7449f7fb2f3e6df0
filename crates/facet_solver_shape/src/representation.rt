//! How enums are written in a document.
ghost use Rattle.std.specs.Prelude.{◌≡◌};
ghost use Rattle.facet_solver_shape.specs.Representation as representation;
ghost use Rattle.facet_solver_shape.specs.Representation.{repr_view};

use crate::shape::Shape;

/// How a flattened enum is written in a document.
#[derive(Clone, Copy, PartialEq, Eq, Debug, Default)]
pub enum EnumRepr<'c> {
    /// The content stands among the fields of the parent.
    #[default]
    Flattened,
    /// The variant's name is a field that holds the content.
    ExternallyTagged,
    /// A field holds the variant's name, and the content stands beside it.
    InternallyTagged {
        /// The name of that field.
        tag: &'c str,
    },
    /// One field holds the variant's name, and another the content.
    AdjacentlyTagged {
        /// The name of the field that holds the variant's name.
        tag: &'c str,
        /// The name of the field that holds the content.
        content: &'c str,
    },
}

impl<'c> EnumRepr<'c> {
    /// The representation that an enum's own attributes ask for: untagged is flattened, a tag with
    /// a content name is adjacent, a tag alone internal, and no tag external.
    pub fn from_shape(shape: &'c Shape) -> EnumRepr<'c>
        ensures { repr_view result ≡ representation.repr_of_shape shape.now }
    {
        if shape.untagged {
            return EnumRepr::Flattened;
        }
        match (&shape.tag, &shape.content) {
            (None, _) => EnumRepr::ExternallyTagged,
            (Some(tag), None) => EnumRepr::InternallyTagged { tag: tag.as_str() },
            (Some(tag), Some(content)) => EnumRepr::AdjacentlyTagged {
                tag: tag.as_str(),
                content: content.as_str(),
            },
        }
    }
}
