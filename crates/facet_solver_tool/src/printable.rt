//! Texts that no terminal takes for commands.
ghost use Rattle.std.specs.Prelude.{◌≡◌, Some};
ghost use Rattle.std.specs.Fmt.{WritesOnOk};
ghost use Rattle.facet_solver_tool.specs.PrintableText.{printable, replaced, shown};

use std::fmt;

/// A character, or U+FFFD in the place of a control character.
fn replaced(character: char) -> char
    ensures { result ≡ replaced character }
{
    if character.is_control() {
        '\u{fffd}'
    } else {
        character
    }
}

/// What stands for a character.
#[derive(Clone, Copy)]
struct Shown(char);

impl fmt::Display for Shown {
    ghost output = { λ s. Some (shown s.0) };

    fn fmt<W: fmt::Write>(&self, f: &mut fmt::Formatter<W>) -> fmt::Result {
        f.write_char(replaced(self.0))
    }
}

/// Writes the characters of a text, with U+FFFD in the place of each control character.
fn write_characters<W: fmt::Write>(text: &str, f: &mut fmt::Formatter<W>) -> fmt::Result
    ensures { WritesOnOk W.write_str_gives f.old result (printable text.now) f.new }
{
    for character in text.chars() {
        let character = Shown(character);
        write!(f, "{character}")?;
    }
    Ok(())
}

/// A text with U+FFFD in the place of each control character. What a document has may stand in a
/// text, and no terminal should do what it says.
#[derive(Drop)]
pub struct Printable<'t>(pub &'t str);

impl fmt::Display for Printable<'_> {
    ghost output = { λ p. Some (printable p.0.now) };

    fn fmt<W: fmt::Write>(&self, f: &mut fmt::Formatter<W>) -> fmt::Result {
        write_characters(self.0, f)
    }
}
