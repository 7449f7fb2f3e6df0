//! The tokens of Rust.
ghost use Rattle.std.specs.Prelude.{◌≡◌};
ghost use Rattle.facet_solver_types.specs.SameBracket.{same_bracket};

/// A kind of brackets.
#[derive(Clone, Copy, Debug, PartialEq, Eq)]
pub(crate) enum Bracket {
    /// `(` and `)`.
    Round,
    /// `[` and `]`.
    Square,
    /// `{` and `}`.
    Curly,
}

/// Whether two brackets are of one kind.
#[tactic(auto, unfolding(crate::specs::SameBracket::same_bracket))]
pub(crate) fn same_bracket(one: Bracket, other: Bracket) -> bool
    ensures { result ≡ same_bracket one other }
{
    match (one, other) {
        (Bracket::Round, Bracket::Round) => true,
        (Bracket::Square, Bracket::Square) => true,
        (Bracket::Curly, Bracket::Curly) => true,
        _ => false,
    }
}

/// What a token is.
#[derive(Clone, Copy, Debug, PartialEq, Eq)]
pub(crate) enum TokenKind {
    /// A name. Its text is the name.
    Name,
    /// A name after `r#`. Its text is the name alone.
    RawName,
    /// A word that is no name, or `_`.
    Keyword,
    /// A lifetime. Its text begins with the `'`.
    Lifetime,
    /// A character, or a byte, with its quotes.
    Character,
    /// A text with escapes. Its text is what stands between the quotes, as it is written.
    Text,
    /// A text without escapes. Its text is what stands between the quotes.
    RawText,
    /// A text after `b` or `c`. Its text is what stands between the quotes, as it is written.
    OtherText,
    /// A number.
    Number,
    /// `::`.
    PathMark,
    /// `->`.
    Arrow,
    /// `=>`.
    FatArrow,
    /// A mark of one character.
    Mark(u8),
    /// A bracket that opens.
    Open(Bracket),
    /// A bracket that closes.
    Close(Bracket),
}

/// A token of a text.
#[derive(Clone, Copy, Debug, PartialEq, Eq)]
pub(crate) struct Token<'t> {
    /// Where it begins in the text, in bytes.
    pub(crate) offset: usize,
    /// What it is.
    pub(crate) kind: TokenKind,
    /// Its text, as its kind says.
    pub(crate) text: &'t str,
}
