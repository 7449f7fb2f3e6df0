//! The catalogue of shapes: what the types of a program look like.
ghost use Rattle.std.specs.Prelude.{◌≡◌, None, false, option_map};
ghost use Rattle.facet_solver_shape.specs.Names.{effective_name, optional_name};
ghost use Rattle.facet_solver_shape.specs.Pointers.{pointee_of_kind};
ghost use Rattle.facet_solver_shape.specs.Scalars.{scalar_of_kind};
ghost use Rattle.facet_solver_shape.specs.declared.shape.DomMark.TheVariants.{None as NoMark};

mod catalogue;
mod check;
mod identifier;
mod range;

pub use catalogue::{CatalogueError, Shapes};
pub use identifier::ShapeId;
pub use range::{Whole, WholeRange};

/// The shape of one type. It refers to other shapes by their indices in the catalogue.
#[derive(Debug, Drop)]
pub struct Shape {
    /// What the type is called, as `u8`: errors print it, and `specificity_score` goes by it.
    pub type_identifier: String,
    /// What the type is made of.
    pub kind: ShapeKind,
    /// The shape that a transparent wrapper stands for. It has to be an earlier one.
    pub inner: Option<ShapeId>,
    /// The shape that the type is read and written as. It has to be an earlier one.
    pub proxy: Option<ShapeId>,
    /// Of an enum: the field that holds the variant's name.
    pub tag: Option<String>,
    /// Of an enum: the field beside the tag that holds the variant's content. Without a tag it does
    /// not count.
    pub content: Option<String>,
    /// Of an enum: whether a document has no name of the variant. If so, the tag does not count.
    pub untagged: bool,
    /// Of a struct: whether it is one value with fields of metadata beside it.
    pub metadata_container: bool,
}

/// What a shape is made of.
#[derive(Debug, Drop)]
pub enum ShapeKind {
    /// One value of a basic type.
    Scalar(ScalarType),
    /// A struct or a tuple.
    Struct {
        /// How its fields are written.
        kind: StructKind,
        /// Its fields, in the order of declaration.
        fields: Vec<Field>,
    },
    /// One of several variants.
    Enum {
        /// Its variants, in the order of declaration.
        variants: Vec<Variant>,
    },
    /// A value that may be absent. Its shape has to be an earlier one.
    Option(ShapeId),
    /// A pointer to any shape of the catalogue; `None` where it is opaque.
    Pointer(Option<ShapeId>),
    /// A list that may grow, of any shape of the catalogue.
    List(ShapeId),
    /// An array, of any shape of the catalogue.
    Array(ShapeId),
    /// A slice, of any shape of the catalogue.
    Slice(ShapeId),
    /// A set, of any shape of the catalogue.
    Set(ShapeId),
    /// A map, with the shapes of its keys and of its values: any of the catalogue.
    Map(ShapeId, ShapeId),
    /// A value whose shape only the document tells.
    DynamicValue,
    /// Anything else.
    Other,
}

/// How the fields of a struct or of a variant are written.
#[derive(Clone, Copy, PartialEq, Eq, Debug)]
pub enum StructKind {
    /// No fields.
    Unit,
    /// Fields by position, under a name.
    TupleStruct,
    /// Fields by name.
    Struct,
    /// Fields by position, with no name.
    Tuple,
}

/// One variant of an enum.
#[derive(Debug, Drop)]
pub struct Variant {
    /// Its declared name.
    pub name: String,
    /// How its fields are written.
    pub kind: StructKind,
    /// Its fields, in the order of declaration.
    pub fields: Vec<Field>,
}

/// One field of a struct or of a variant.
#[derive(Debug, Drop)]
pub struct Field {
    /// Its declared name.
    pub name: String,
    /// The name that it goes by in a document, where that is another.
    pub rename: Option<String>,
    /// The shape of its value. It has to be an earlier one.
    pub shape: ShapeId,
    /// Whether the fields of its value stand beside it in a document.
    pub flattened: bool,
    /// Whether a document may leave it out for its default.
    pub has_default: bool,
    /// Whether it is metadata of a metadata container.
    pub metadata: bool,
    /// The part of a document tree that it stands in.
    pub dom: DomMark,
}

/// The part of a document tree that a field is marked for.
#[derive(Clone, Copy, PartialEq, Eq, Debug)]
pub enum DomMark {
    /// No mark.
    None,
    /// An attribute.
    Attribute,
    /// A child element.
    Element,
    /// The text.
    Text,
    /// The name of the element.
    Tag,
    /// All child elements.
    Elements,
}

/// A basic type.
#[derive(Clone, Copy, PartialEq, Eq, Debug)]
pub enum ScalarType {
    /// `()`
    Unit,
    /// `bool`
    Bool,
    /// `char`
    Char,
    /// `&str`
    Str,
    /// `String`
    String,
    /// `Cow<str>`
    CowStr,
    /// `f32`
    F32,
    /// `f64`
    F64,
    /// `u8`
    U8,
    /// `u16`
    U16,
    /// `u32`
    U32,
    /// `u64`
    U64,
    /// `u128`
    U128,
    /// `usize`
    USize,
    /// `i8`
    I8,
    /// `i16`
    I16,
    /// `i32`
    I32,
    /// `i64`
    I64,
    /// `i128`
    I128,
    /// `isize`
    ISize,
    /// Any other.
    Other,
}

impl Variant {
    /// A variant of these fields. The call allocates nothing.
    pub fn new(name: String, kind: StructKind, fields: Vec<Field>) -> Self
        ensures { result ≡ record { name = name; kind = kind; fields = fields } }
    {
        Variant { name, kind, fields }
    }
}

impl Field {
    /// A field of this name and shape. It has no other name in a document, no default and no mark,
    /// and is neither flattened nor metadata. The call allocates nothing.
    pub fn new(name: String, shape: ShapeId) -> Self
        ensures { result ≡ record {
          name = name;
          rename = None;
          shape = shape;
          flattened = false;
          has_default = false;
          metadata = false;
          dom = NoMark;
        } }
    {
        Field {
            name,
            rename: None,
            shape,
            flattened: false,
            has_default: false,
            metadata: false,
            dom: DomMark::None,
        }
    }

    /// The name that the field goes by in a document: its new name, or else the declared one.
    pub fn effective_name(&self) -> &str
        ensures { result.now ≡ effective_name self.now }
    {
        match &self.rename {
            Some(name) => name.as_str(),
            None => self.name.as_str(),
        }
    }
}

impl Shape {
    /// A shape of this kind. It has no inner shape, no proxy, no tag and no content, and is neither
    /// untagged nor a metadata container. The call allocates nothing.
    pub fn new(type_identifier: String, kind: ShapeKind) -> Self
        ensures { result ≡ record {
          type_identifier = type_identifier;
          kind = kind;
          inner = None;
          proxy = None;
          tag = None;
          content = None;
          untagged = false;
          metadata_container = false;
        } }
    {
        Shape {
            type_identifier,
            kind,
            inner: None,
            proxy: None,
            tag: None,
            content: None,
            untagged: false,
            metadata_container: false,
        }
    }

    /// The name of the field that holds the name of an enum's variant, if there is one.
    pub fn get_tag_attr(&self) -> Option<&str>
        ensures { option_map (λ t. t.now) result ≡ optional_name self.now.tag }
    {
        match &self.tag {
            Some(tag) => Some(tag.as_str()),
            None => None,
        }
    }

    /// The name of the field that holds the content of an enum's variant, if there is one.
    pub fn get_content_attr(&self) -> Option<&str>
        ensures { option_map (λ t. t.now) result ≡ optional_name self.now.content }
    {
        match &self.content {
            Some(content) => Some(content.as_str()),
            None => None,
        }
    }

    /// Whether documents have no name of an enum's variant.
    pub fn is_untagged(&self) -> bool
        ensures { result ≡ self.now.untagged }
    {
        self.untagged
    }

    /// The basic type of a scalar; `None` for any other shape.
    pub fn scalar_type(&self) -> Option<ScalarType>
        ensures { result ≡ scalar_of_kind self.now.kind }
    {
        match self.kind {
            ShapeKind::Scalar(scalar) => Some(scalar),
            _ => None,
        }
    }

    /// Where a pointer leads to; `None` for an opaque pointer and for any other shape.
    fn pointee(&self) -> Option<ShapeId>
        ensures { result ≡ pointee_of_kind self.now.kind }
    {
        match self.kind {
            ShapeKind::Pointer(pointee) => pointee,
            _ => None,
        }
    }
}
