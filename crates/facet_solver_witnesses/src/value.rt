//! Values that own their texts.
ghost use Rattle.std.specs.Prelude.{◌≡◌, IfOk};
ghost use Rattle.facet_solver_reader.specs.Documents.{view};
ghost use Rattle.facet_solver_witnesses.specs.Trees.{tree};

use crate::growing::push;
use facet_solver_reader::{Document, Number};
use std::alloc::{AllocError, Global};
use std::fmt;

/// A value of a document.
#[derive(Debug, Drop)]
pub enum Value {
    /// Null.
    Null,
    /// A truth value.
    Bool(bool),
    /// A number, as it is written.
    Number(String),
    /// A text.
    Text(String),
    /// A list.
    List(Vec<Value>),
    /// Members, a name and a value each.
    Object(Vec<(String, Value)>),
}

impl Value {
    /// The document that the value is.
    pub fn document(&self, alloc: Global) -> Result<Document<'_>, AllocError>
        ensures { IfOk result (λ document. view document ≡ tree self.now) }
    {
        match self {
            Value::Null => Ok(Document::Null),
            Value::Bool(truth) => Ok(Document::Bool(*truth)),
            Value::Number(numeral) => Ok(Document::Number(Number::new(numeral.as_str()))),
            Value::Text(text) => Ok(Document::Text(text.as_str())),
            Value::List(items) => {
                let mut documents = Vec::with_capacity(alloc, items.len())?;
                for item in items {
                    let document = item.document(alloc)?;
                    push(&mut documents, document)?;
                }
                Ok(Document::List(documents))
            }
            Value::Object(members) => {
                let mut documents = Vec::with_capacity(alloc, members.len())?;
                for member in members {
                    let document = member.1.document(alloc)?;
                    push(&mut documents, (member.0.as_str(), document))?;
                }
                Ok(Document::Object(documents))
            }
        }
    }
}

/// The value as JSON, in one line.
impl fmt::Display for Value {
    fn fmt<W: fmt::Write>(&self, f: &mut fmt::Formatter<W>) -> fmt::Result {
        match self {
            Value::Null => f.write_str("null"),
            Value::Bool(truth) => write!(f, "{truth}"),
            Value::Number(numeral) => f.write_str(numeral.as_str()),
            Value::Text(text) => write_text(f, text.as_str()),
            Value::List(items) => {
                f.write_str("[")?;
                let mut is_first = true;
                for item in items {
                    if !is_first {
                        f.write_str(", ")?;
                    }
                    is_first = false;
                    write!(f, "{item}")?;
                }
                f.write_str("]")
            }
            Value::Object(members) => {
                f.write_str("{")?;
                let mut is_first = true;
                for (name, value) in members {
                    if !is_first {
                        f.write_str(", ")?;
                    }
                    is_first = false;
                    write_text(f, name.as_str())?;
                    write!(f, ": {value}")?;
                }
                f.write_str("}")
            }
        }
    }
}

/// Writes a text of JSON.
fn write_text<W: fmt::Write>(f: &mut fmt::Formatter<W>, text: &str) -> fmt::Result {
    f.write_str("\"")?;
    for character in text.chars() {
        match character {
            '"' => f.write_str("\\\"")?,
            '\\' => f.write_str("\\\\")?,
            '\u{0}'..='\u{1f}' => {
                let code = u32::from(character);
                write!(f, "\\u{code:04x}")?;
            }
            _ => f.write_char(character)?,
        }
    }
    f.write_str("\"")
}
