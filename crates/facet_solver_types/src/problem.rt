//! What is wrong with a text.
ghost use Rattle.std.specs.Prelude.{Some};
ghost use Rattle.facet_solver_types.specs.ProblemTexts.{expected_text};

use crate::attribute::Refusal;
use crate::shape_problem::ShapeProblem;
use crate::type_problem::TypeProblem;
use std::fmt;

/// What is wrong at a place of a text.
#[derive(Clone, Copy, Debug, PartialEq, Eq)]
pub enum Problem {
    /// A character of ASCII, this one, begins no token.
    NoToken(u8),
    /// A text is not closed.
    OpenText,
    /// A character in quotes is not closed.
    OpenCharacter,
    /// A comment is not closed.
    OpenComment,
    /// A bracket is not closed.
    OpenBracket,
    /// A bracket closes nothing, or one of another kind.
    ClosesNothing,
    /// Something else stands where this is expected.
    Expected(Expected),
    /// An attribute is refused.
    Attribute(Refusal),
    /// A type is none, or a name is declared twice.
    OfType(TypeProblem),
    /// A type has no shape.
    Shape(ShapeProblem),
}

/// What is expected where something else stands.
#[derive(Clone, Copy, Debug, PartialEq, Eq)]
pub enum Expected {
    /// A name.
    Name,
    /// The type of a field.
    FieldType,
    /// An item.
    Item,
    /// `,` or `>` after a parameter.
    ParameterEnd,
    /// `=` after the name of an alias.
    Equals,
    /// `{`, `(` or `;` of a struct.
    Body,
    /// `{` of an enum.
    Braces,
    /// `:` after the name of a field.
    Colon,
    /// `;` after an item.
    Semicolon,
    /// `;` or `{` after the head of an item.
    HeadEnd,
    /// A bracket of a macro's call.
    Bracket,
    /// `,` or `}` after a variant.
    VariantEnd,
    /// The name of an attribute.
    Attribute,
    /// `(` after serde or facet.
    AttributeList,
    /// `=`, `(`, `,` or `)` after the name of an attribute.
    AttributeEnd,
}

/// As `a name`, or `';' or '{'`.
impl fmt::Display for Expected {
    ghost output = { λ e. Some (expected_text e) };

    fn fmt<W: fmt::Write>(&self, f: &mut fmt::Formatter<W>) -> fmt::Result {
        match self {
            Expected::Name => write!(f, "a name"),
            Expected::FieldType => write!(f, "a type"),
            Expected::Item => write!(f, "an item"),
            Expected::ParameterEnd => write!(f, "',' or '>'"),
            Expected::Equals => write!(f, "'='"),
            Expected::Body => write!(f, "'{{', '(' or ';'"),
            Expected::Braces => write!(f, "'{{'"),
            Expected::Colon => write!(f, "':'"),
            Expected::Semicolon => write!(f, "';'"),
            Expected::HeadEnd => write!(f, "';' or '{{'"),
            Expected::Bracket => write!(f, "a bracket"),
            Expected::VariantEnd => write!(f, "',' or '}}'"),
            Expected::Attribute => write!(f, "the name of an attribute"),
            Expected::AttributeList => write!(f, "'('"),
            Expected::AttributeEnd => write!(f, "'=', '(' or ','"),
        }
    }
}
