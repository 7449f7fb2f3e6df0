//! Texts between quotes.
ghost use Rattle.std.specs.Prelude.{Some};
ghost use Rattle.std.specs.Fmt.{WritesOnOk};
ghost use Rattle.facet_solver_types.specs.PrintedTexts.{between_quotes, escaped, quoted};

use std::fmt;

/// A letter of a text between quotes, as itself or as an escape.
#[derive(Clone, Copy)]
struct Escaped(char);

impl fmt::Display for Escaped {
    ghost output = { λ e. Some (escaped e.0) };

    fn fmt<W: fmt::Write>(&self, f: &mut fmt::Formatter<W>) -> fmt::Result {
        match self.0 {
            '"' => f.write_str("\\\""),
            '\\' => f.write_str("\\\\"),
            '\n' => f.write_str("\\n"),
            '\r' => f.write_str("\\r"),
            '\t' => f.write_str("\\t"),
            '\0' => f.write_str("\\0"),
            letter => f.write_char(letter),
        }
    }
}

/// The letters of a text between quotes.
#[derive(Drop)]
struct Letters<'t>(&'t str);

impl fmt::Display for Letters<'_> {
    ghost output = { λ l. Some (between_quotes l.0.now) };

    fn fmt<W: fmt::Write>(&self, f: &mut fmt::Formatter<W>) -> fmt::Result {
        write_letters(self.0, f)
    }
}

/// Writes the letters of a text, each as itself or as an escape.
fn write_letters<W: fmt::Write>(text: &str, f: &mut fmt::Formatter<W>) -> fmt::Result
    ensures { WritesOnOk W.write_str_gives f.old result (between_quotes text.now) f.new }
{
    for letter in text.chars() {
        let letter = Escaped(letter);
        write!(f, "{letter}")?;
    }
    Ok(())
}

/// A text between quotes, with escapes.
#[derive(Drop)]
pub(super) struct Quoted<'t>(pub(super) &'t str);

impl fmt::Display for Quoted<'_> {
    ghost output = { λ q. Some (quoted q.0.now) };

    fn fmt<W: fmt::Write>(&self, f: &mut fmt::Formatter<W>) -> fmt::Result {
        let letters = Letters(self.0);
        write!(f, "\"{letters}\"")
    }
}
