//! What an attribute of serde or facet means, by its name and by what it stands on.
ghost use Rattle.std.specs.Prelude.{◌≡◌};
ghost use Rattle.facet_solver_types.specs.Meanings as meanings;

use facet_solver_shape::DomMark;

/// What an attribute stands on.
#[derive(Clone, Copy, Debug, PartialEq, Eq)]
pub(crate) enum Subject {
    /// A struct with named fields.
    NamedStruct,
    /// Another struct.
    OtherStruct,
    /// An enum.
    Enum,
    /// A variant.
    Variant,
    /// A field with a name.
    NamedField,
    /// A field of a tuple.
    TupleField,
    /// The one field of a tuple struct, which stands for it.
    NewtypeField,
}

/// What an attribute means.
#[derive(Clone, Copy, Debug, PartialEq, Eq)]
pub(crate) enum Meaning {
    /// The members of the field's value stand beside the field's struct's.
    Flatten,
    /// The field may be absent, or each field of the struct.
    Default,
    /// The name in a document.
    Rename,
    /// The case of the names of variants, or of fields.
    RenameAll,
    /// The case of the names of fields of all variants.
    RenameAllFields,
    /// The name of the tag.
    Tag,
    /// The name of the content.
    Content,
    /// No variant is named.
    Untagged,
    /// The struct is what its one field is.
    Transparent,
    /// Left out.
    Skip,
    /// Read as another type.
    Proxy,
    /// Read by code: as the type that stands in for it.
    With,
    /// What it is in a tree of elements.
    Dom(DomMark),
    /// The struct holds a value and metadata of it.
    MetadataContainer,
    /// The field holds metadata.
    Metadata,
    /// Members of other names are refused.
    DenyUnknownFields,
    /// Read as its proxy alone.
    Opaque,
    /// Nothing that a reader sees.
    Nothing,
}

/// Why an attribute is refused where it stands.
#[derive(Clone, Copy, Debug, PartialEq, Eq)]
pub enum Misuse {
    /// It is none of serde's or facet's.
    Unknown,
    /// It stands on something else.
    Misplaced,
    /// No catalogue says what it asks.
    Unsupported,
}

/// What an attribute means on a subject, by its name.
pub(crate) fn means(subject: Subject, name: &str) -> Result<Meaning, Misuse>
    ensures { result ≡ meanings.means subject name.now }
{
    if is_passed_over(name) {
        return Ok(Meaning::Nothing);
    }
    match meaning_on(subject, name) {
        Some(meaning) => Ok(meaning),
        None if is_unsupported_on(subject, name) => Err(Misuse::Unsupported),
        None if has_meaning(name) => Err(Misuse::Misplaced),
        None => Err(Misuse::Unknown),
    }
}

/// What an attribute means that stands on the right subject.
fn meaning_on(subject: Subject, name: &str) -> Option<Meaning>
    ensures { result ≡ meanings.meaning_on subject name.now }
{
    if name == "opaque" {
        return Some(Meaning::Opaque);
    }
    match subject {
        Subject::NamedStruct => on_named_struct(name),
        Subject::OtherStruct => on_struct(name),
        Subject::Enum => on_enum(name),
        Subject::Variant => on_variant(name),
        Subject::NamedField => on_named_field(name),
        Subject::TupleField => on_tuple_field(name),
        Subject::NewtypeField => on_newtype_field(name),
    }
}

/// Whether it means something on some subject.
fn has_meaning(name: &str) -> bool
    ensures { result ≡ meanings.has_meaning name.now }
{
    on_named_struct(name).is_some()
        || on_enum(name).is_some()
        || on_variant(name).is_some()
        || on_named_field(name).is_some()
}

/// On a struct with named fields.
fn on_named_struct(name: &str) -> Option<Meaning>
    ensures { result ≡ meanings.on_named_struct name.now }
{
    match name {
        "default" => Some(Meaning::Default),
        "tag" => Some(Meaning::Nothing),
        "metadata_container" => Some(Meaning::MetadataContainer),
        _ => on_struct(name),
    }
}

/// On each struct.
fn on_struct(name: &str) -> Option<Meaning>
    ensures { result ≡ meanings.on_struct name.now }
{
    match name {
        "rename" => Some(Meaning::Nothing),
        "rename_all" => Some(Meaning::RenameAll),
        "transparent" => Some(Meaning::Transparent),
        "from" | "try_from" | "proxy" => Some(Meaning::Proxy),
        "deny_unknown_fields" => Some(Meaning::DenyUnknownFields),
        _ => None,
    }
}

/// On an enum.
fn on_enum(name: &str) -> Option<Meaning>
    ensures { result ≡ meanings.on_enum name.now }
{
    match name {
        "rename" => Some(Meaning::Nothing),
        "rename_all" => Some(Meaning::RenameAll),
        "rename_all_fields" => Some(Meaning::RenameAllFields),
        "tag" => Some(Meaning::Tag),
        "content" => Some(Meaning::Content),
        "untagged" => Some(Meaning::Untagged),
        "from" | "try_from" | "proxy" => Some(Meaning::Proxy),
        "deny_unknown_fields" => Some(Meaning::DenyUnknownFields),
        _ => None,
    }
}

/// On a variant.
fn on_variant(name: &str) -> Option<Meaning>
    ensures { result ≡ meanings.on_variant name.now }
{
    match name {
        "rename" => Some(Meaning::Rename),
        "rename_all" => Some(Meaning::RenameAll),
        "skip" | "skip_deserializing" => Some(Meaning::Skip),
        _ => None,
    }
}

/// On a field with a name.
fn on_named_field(name: &str) -> Option<Meaning>
    ensures { result ≡ meanings.on_named_field name.now }
{
    match name {
        "flatten" => Some(Meaning::Flatten),
        "default" => Some(Meaning::Default),
        "rename" => Some(Meaning::Rename),
        "skip" | "skip_deserializing" => Some(Meaning::Skip),
        "proxy" => Some(Meaning::Proxy),
        "with" | "deserialize_with" => Some(Meaning::With),
        "metadata" => Some(Meaning::Metadata),
        _ => dom_mark(name).map(|mark| Meaning::Dom(mark)),
    }
}

/// On a field of a tuple.
fn on_tuple_field(name: &str) -> Option<Meaning>
    ensures { result ≡ meanings.on_tuple_field name.now }
{
    match name {
        "default" => Some(Meaning::Default),
        "skip" | "skip_deserializing" => Some(Meaning::Skip),
        "proxy" => Some(Meaning::Proxy),
        "with" | "deserialize_with" => Some(Meaning::With),
        _ => None,
    }
}

/// On the one field of a tuple struct: what stands for the struct is always there.
fn on_newtype_field(name: &str) -> Option<Meaning>
    ensures { result ≡ meanings.on_newtype_field name.now }
{
    match name {
        "default" | "skip" | "skip_deserializing" => Some(Meaning::Nothing),
        "proxy" => Some(Meaning::Proxy),
        "with" | "deserialize_with" => Some(Meaning::With),
        _ => None,
    }
}

/// The mark of a field in a tree of elements.
pub(crate) fn dom_mark(name: &str) -> Option<DomMark>
    ensures { result ≡ meanings.dom_mark name.now }
{
    match name {
        "attribute" => Some(DomMark::Attribute),
        "element" => Some(DomMark::Element),
        "text" => Some(DomMark::Text),
        "tag" => Some(DomMark::Tag),
        "elements" => Some(DomMark::Elements),
        _ => None,
    }
}

/// Whether no reading changes by it, whatever it stands on.
fn is_passed_over(name: &str) -> bool
    ensures { result ≡ meanings.is_passed_over name.now }
{
    match name {
        "skip_serializing" | "skip_serializing_if" | "serialize_with" | "into" | "getter" => true,
        "borrow" | "bound" | "crate" | "expecting" | "sensitive" | "invariants" | "traits" => true,
        "auto_traits" | "pod" | "derive" | "truthy" | "skip_unless_truthy" => true,
        "skip_all_unless_truthy" => true,
        _ => false,
    }
}

/// Whether no catalogue says what it asks on a subject, where it has no meaning: on a variant also
/// to be read where no other one is.
fn is_unsupported_on(subject: Subject, name: &str) -> bool
    ensures { result ≡ meanings.is_unsupported_on subject name.now }
{
    match subject {
        Subject::Variant => is_unsupported(name) || name == "untagged",
        _ => is_unsupported(name),
    }
}

/// Whether no catalogue says what it asks on any subject, where it has no meaning.
fn is_unsupported(name: &str) -> bool
    ensures { result ≡ meanings.is_unsupported name.now }
{
    match name {
        "alias" | "other" | "with" | "deserialize_with" | "remote" | "is_numeric" => true,
        "field_identifier" | "variant_identifier" => true,
        _ => false,
    }
}
