//! Attributes before a declaration, a field or a variant.
ghost use Rattle.std.specs.Prelude.{◌≡◌, Some, map};
ghost use Rattle.std.specs.Fmt.{WritesOnOk};
ghost use Rattle.std.specs.Option.{option_map};
ghost use Rattle.facet_solver_types.specs.PrintedAttributes as attributes;

use super::text::Quoted;
use facet_solver_shape::{DomMark, Field};
use std::fmt;

/// One attribute.
#[derive(Clone, Copy)]
pub(super) enum Attribute<'s> {
    /// One that is a word.
    Word(&'static str),
    /// One that says a text.
    WithText(&'static str, &'s str),
    /// One that says a type.
    WithType(&'static str, &'s str),
}

impl<'s> Attribute<'s> {
    /// The attribute of a word, where a flag is set.
    pub(super) fn flag(is_set: bool, word: &'static str) -> Option<Attribute<'s>>
        ensures { option_map attributes.attribute result ≡ attributes.flag is_set word.now }
    {
        if is_set {
            Some(Attribute::Word(word))
        } else {
            None
        }
    }

    /// The attribute that says a text, where there is one.
    pub(super) fn with_text(word: &'static str, text: &'s Option<String>) -> Option<Attribute<'s>>
        ensures { option_map attributes.attribute result ≡ attributes.with_text word.now text.now }
    {
        match text {
            Some(text) => Some(Attribute::WithText(word, text.as_str())),
            None => None,
        }
    }

    /// The attribute that marks a field for a part of a document tree.
    fn dom(dom: DomMark) -> Option<Attribute<'s>>
        ensures { option_map attributes.attribute result ≡ attributes.dom dom }
    {
        match dom {
            DomMark::None => None,
            DomMark::Attribute => Some(Attribute::Word("xml::attribute")),
            DomMark::Element => Some(Attribute::Word("xml::element")),
            DomMark::Text => Some(Attribute::Word("xml::text")),
            DomMark::Tag => Some(Attribute::Word("xml::tag")),
            DomMark::Elements => Some(Attribute::Word("xml::elements")),
        }
    }
}

impl fmt::Display for Attribute<'_> {
    ghost output = { λ a. Some (attributes.attribute a) };

    fn fmt<W: fmt::Write>(&self, f: &mut fmt::Formatter<W>) -> fmt::Result {
        match *self {
            Attribute::Word(word) => write!(f, "{word}"),
            Attribute::WithText(word, text) => {
                let text = Quoted(text);
                write!(f, "{word} = {text}")
            }
            Attribute::WithType(word, name) => write!(f, "{word} = {name}"),
        }
    }
}

/// The attributes that there are in a list, and what stands behind them; nothing if there is none.
#[derive(Drop)]
pub(super) struct Attributes<'a, 's> {
    pub(super) list: &'a [Option<Attribute<'s>>],
    pub(super) end: &'static str,
}

impl fmt::Display for Attributes<'_, '_> {
    ghost output = { λ a. Some (attributes.attributes
        (map (option_map attributes.attribute) a.list.now) a.end.now) };

    fn fmt<W: fmt::Write>(&self, f: &mut fmt::Formatter<W>) -> fmt::Result {
        let mut is_first = true;
        for attribute in self.list {
            if let Some(attribute) = attribute {
                write_attribute(attribute, is_first, f)?;
                is_first = false;
            }
        }
        if is_first {
            return Ok(());
        }
        let end = self.end;
        write!(f, ")]{end}")
    }
}

/// Writes an attribute of a list, behind what opens the list or divides it from the one before.
fn write_attribute<W: fmt::Write>(
    attribute: &Attribute<'_>,
    is_first: bool,
    f: &mut fmt::Formatter<W>,
) -> fmt::Result
    ensures { let text = attributes.one_of_list is_first (attributes.attribute attribute.now) in
        WritesOnOk W.write_str_gives f.old result text f.new }
{
    if is_first {
        write!(f, "#[facet({attribute}")
    } else {
        write!(f, ", {attribute}")
    }
}

/// The attributes before a field.
#[derive(Drop)]
pub(super) struct FieldAttributes<'s>(pub(super) &'s Field);

impl fmt::Display for FieldAttributes<'_> {
    ghost output = { λ a. Some (attributes.before_field a.0.now) };

    fn fmt<W: fmt::Write>(&self, f: &mut fmt::Formatter<W>) -> fmt::Result {
        let list = attributes_of(self.0);
        let attributes = Attributes {
            list: &list,
            end: " ",
        };
        write!(f, "{attributes}")
    }
}

/// The attributes of a field, in the order in which they are written.
fn attributes_of(field: &Field) -> [Option<Attribute<'_>>; 5]
    ensures { map (option_map attributes.attribute) result ≡ attributes.of_field field.now }
{
    [
        Attribute::flag(field.flattened, "flatten"),
        Attribute::flag(field.has_default, "default"),
        Attribute::with_text("rename", &field.rename),
        Attribute::flag(field.metadata, "metadata = \"metadata\""),
        Attribute::dom(field.dom),
    ]
}
