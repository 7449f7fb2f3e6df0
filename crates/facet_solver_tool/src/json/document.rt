//! Documents as JSON.

use super::{write_comma, write_name};
use crate::quoted::Quoted;
use facet_solver_reader::Document;
use std::fmt;

/// Writes a value of a document as it is, in one line.
pub(super) fn write_document<W: fmt::Write>(
    value: &Document<'_>,
    f: &mut fmt::Formatter<W>,
) -> fmt::Result {
    match value {
        Document::Null => f.write_str("null"),
        Document::Bool(is_true) => write!(f, "{is_true}"),
        Document::Number(number) => f.write_str(number.text()),
        Document::Text(text) => {
            let text = Quoted(text);
            write!(f, "{text}")
        }
        Document::List(items) => {
            f.write_str("[")?;
            for (index, item) in items.iter().enumerate() {
                write_comma(index == 0, f)?;
                write_document(item, f)?;
            }
            f.write_str("]")
        }
        Document::Object(members) => {
            f.write_str("{")?;
            for (index, (name, member)) in members.iter().enumerate() {
                write_name(name, index == 0, f)?;
                write_document(member, f)?;
            }
            f.write_str("}")
        }
    }
}
