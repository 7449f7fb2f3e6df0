//! Why a text is no JSON, by what was wanted and what stands there.
ghost use Rattle.std.specs.Prelude.{◌≡◌, ◌≤◌, Some, length};
ghost use Rattle.facet_solver_json.specs.ErrorTexts.{reason_text};
ghost use Rattle.facet_solver_json.specs.Reasons as spec;

use crate::value::Wanted;
use std::fmt;

/// Why a text is no JSON, at the first token that cannot stand where it stands.
#[derive(Clone, Copy, Debug, Drop, PartialEq, Eq)]
pub enum Reason {
    /// No value begins there, and one has to.
    Value,
    /// A text does not end, or has a character or an escape that JSON does not allow.
    Text,
    /// A number is not written as numbers of JSON are.
    Number,
    /// There is no name in quotes with a colon behind it, and one has to be.
    Name,
    /// A name with its colon stands where only a value can.
    NoName,
    /// Behind a value of a list there is neither a comma nor the closing bracket.
    InList,
    /// Behind a value of an object there is neither a comma nor the closing brace.
    InObject,
    /// Something stands behind the one value of the text.
    Behind,
    /// Lists and objects nest deeper than 128.
    TooDeep,
}

impl fmt::Display for Reason {
    ghost output = { λ r. Some (reason_text r) };

    fn fmt<W: fmt::Write>(&self, f: &mut fmt::Formatter<W>) -> fmt::Result {
        f.write_str(match self {
            Reason::Value => "a value was expected",
            Reason::Text =>
                "the text in quotes has no end, or a character or escape that is not allowed",
            Reason::Number => "no number is written so",
            Reason::Name => "a name in quotes and ':' were expected",
            Reason::NoName => "a name with ':' stands in an object alone",
            Reason::InList => "',' or ']' was expected",
            Reason::InObject => "',' or '}' was expected",
            Reason::Behind => "nothing may stand behind the value",
            Reason::TooDeep => "more than 128 lists and objects nest",
        })
    }
}

/// Why a text is no JSON at an offset where something else was wanted.
pub(crate) fn reason_at(text: &str, offset: usize, wanted: Wanted) -> Reason
    requires { offset ≤ length text.now }
    ensures { result ≡ spec.reason_at offset text.now wanted }
{
    match wanted {
        Wanted::Value => no_value(byte_at(text, offset)),
        Wanted::Item => {
            if begins_there(text, offset, b'[') {
                no_value(byte_at(text, offset))
            } else {
                Reason::InList
            }
        }
        Wanted::Name => {
            if begins_there(text, offset, b'{') {
                Reason::Name
            } else {
                Reason::InObject
            }
        }
        Wanted::NoName => Reason::NoName,
        Wanted::NoMore => Reason::Behind,
        Wanted::LessDeep => Reason::TooDeep,
    }
}

/// Why no value begins with a byte.
fn no_value(byte: u8) -> Reason
    ensures { result ≡ spec.no_value byte }
{
    if byte == b'"' {
        Reason::Text
    } else if begins_number(byte) {
        Reason::Number
    } else {
        Reason::Value
    }
}

/// Whether a number begins with a byte.
fn begins_number(byte: u8) -> bool
    ensures { result ≡ spec.begins_number byte }
{
    byte == b'-' || (byte >= b'0' && byte <= b'9')
}

/// The byte at an offset of a text, or a blank at its end.
fn byte_at(text: &str, offset: usize) -> u8
    ensures { result ≡ spec.byte_at offset text.now }
{
    match text.as_bytes().get(offset) {
        Some(byte) => *byte,
        None => b' ',
    }
}

/// Whether an item may begin at an offset: the last byte before it that is no blank is a comma, or
/// opens what the item is in.
fn begins_there(text: &str, offset: usize, opening: u8) -> bool
    requires { offset ≤ length text.now }
    ensures { result ≡ spec.begins_there offset text.now opening }
{
    let last = last_before(text, offset);
    last == b',' || last == opening
}

/// The last byte before an offset that is no blank, or a blank.
fn last_before(text: &str, offset: usize) -> u8
    requires { offset ≤ length text.now }
    ensures { result ≡ spec.last_before offset text.now }
{
    let before = &text.as_bytes()[..offset];
    let mut last = b' ';
    for byte in before {
        if !is_blank(*byte) {
            last = *byte;
        }
    }
    last
}

/// Whether a byte stands between tokens.
fn is_blank(byte: u8) -> bool
    ensures { result ≡ spec.is_blank byte }
{
    byte == b' ' || byte == b'\t' || byte == b'\n' || byte == b'\r'
}
