//! Texts as strings of JSON.
ghost use Rattle.std.specs.Prelude.{Some};
ghost use Rattle.std.specs.Fmt.{WritesOnOk};
ghost use Rattle.facet_solver_tool.specs.QuotedText.{between_quotes, escaped, quoted};

use std::fmt;

/// A character of a string, as itself or as an escape.
#[derive(Clone, Copy)]
struct Escaped(char);

impl fmt::Display for Escaped {
    ghost output = { λ e. Some (escaped e.0) };

    fn fmt<W: fmt::Write>(&self, f: &mut fmt::Formatter<W>) -> fmt::Result {
        match self.0 {
            '"' => f.write_str("\\\""),
            '\\' => f.write_str("\\\\"),
            '\n' => f.write_str("\\n"),
            '\r' => f.write_str("\\r"),
            '\t' => f.write_str("\\t"),
            control if control < ' ' => {
                let code = control as u8;
                write!(f, "\\u00{code:02x}")
            }
            character => f.write_char(character),
        }
    }
}

/// What stands for a text between quotes.
#[derive(Drop)]
pub struct BetweenQuotes<'t>(pub &'t str);

impl fmt::Display for BetweenQuotes<'_> {
    ghost output = { λ b. Some (between_quotes b.0.now) };

    fn fmt<W: fmt::Write>(&self, f: &mut fmt::Formatter<W>) -> fmt::Result {
        write_characters(self.0, f)
    }
}

/// Writes the characters of a text, each as itself or as an escape.
fn write_characters<W: fmt::Write>(text: &str, f: &mut fmt::Formatter<W>) -> fmt::Result
    ensures { WritesOnOk W.write_str_gives f.old result (between_quotes text.now) f.new }
{
    for character in text.chars() {
        let character = Escaped(character);
        write!(f, "{character}")?;
    }
    Ok(())
}

/// A text as a string of JSON.
#[derive(Drop)]
pub struct Quoted<'t>(pub &'t str);

impl fmt::Display for Quoted<'_> {
    ghost output = { λ q. Some (quoted q.0.now) };

    fn fmt<W: fmt::Write>(&self, f: &mut fmt::Formatter<W>) -> fmt::Result {
        let characters = BetweenQuotes(self.0);
        write!(f, "\"{characters}\"")
    }
}
