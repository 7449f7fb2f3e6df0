//! Runs of tokens: up to a mark outside brackets.
ghost use Rattle.std.specs.Prelude.{◌≡◌, ◌+◌, ◌^◌, ◌≤◌, ◌<◌, length};
ghost use Rattle.facet_solver_types.specs.Runs.{angles_after, ends, group_len, has_angles, is_close, is_mark, nest_after, opens_braces, run_len, stops};
ghost use Rattle.facet_solver_types.specs.Tokens.{tokens_view};

use crate::token::{Bracket, Token, TokenKind};

/// A kind of run.
#[derive(Clone, Copy, Debug, PartialEq, Eq)]
pub(crate) enum Run {
    /// The type of a field, up to a comma. Each `<` is a bracket.
    FieldType,
    /// The head of an item, up to `;` or braces. Each `<` is a bracket.
    Head,
    /// A `where`, up to `=`, `;` or braces. Each `<` is a bracket.
    Where,
    /// What stands in `<` and `>`. Each `<` in it is a bracket.
    Angles,
    /// A value, up to a comma.
    Value,
    /// An item up to `;`.
    Statement,
    /// The inside of brackets.
    Group,
}

/// In which brackets a token stands.
#[derive(Clone, Copy, Debug, PartialEq, Eq)]
struct Nest {
    /// How many brackets other than `<` are open.
    brackets: usize,
    /// How many `<` are open outside them.
    angles: usize,
    /// Whether `::` stands before it.
    path: bool,
}

/// Outside all brackets.
const OUTSIDE: Nest = Nest {
    brackets: 0,
    angles: 0,
    path: false,
};

/// Whether a token is this mark.
pub(crate) fn is_mark(byte: u8, kind: TokenKind) -> bool
    ensures { result ≡ is_mark byte kind }
{
    match kind {
        TokenKind::Mark(other) => byte == other,
        _ => false,
    }
}

/// Whether a token closes a bracket.
pub(crate) fn is_close(kind: TokenKind) -> bool
    ensures { result ≡ is_close kind }
{
    match kind {
        TokenKind::Close(_) => true,
        _ => false,
    }
}

/// Whether a token opens braces.
pub(super) fn opens_braces(kind: TokenKind) -> bool
    ensures { result ≡ opens_braces kind }
{
    match kind {
        TokenKind::Open(Bracket::Curly) => true,
        _ => false,
    }
}

/// Whether a token outside all brackets ends a run.
fn stops(run: Run, kind: TokenKind) -> bool
    ensures { result ≡ stops run kind }
{
    match run {
        Run::FieldType => is_mark(b',', kind),
        Run::Value => is_mark(b',', kind),
        Run::Statement => is_mark(b';', kind),
        Run::Head => is_mark(b';', kind) || opens_braces(kind),
        Run::Where => is_mark(b'=', kind) || is_mark(b';', kind) || opens_braces(kind),
        Run::Angles => is_mark(b'>', kind),
        Run::Group => false,
    }
}

/// Whether each `<` of a run is a bracket.
fn has_angles(run: Run) -> bool
    ensures { result ≡ has_angles run }
{
    match run {
        Run::FieldType | Run::Head | Run::Where | Run::Angles => true,
        _ => false,
    }
}

/// Whether a run ends at a token: outside all brackets at what ends it, or where a bracket closes
/// that was open before it.
fn ends(run: Run, nest: Nest, kind: TokenKind) -> bool
    ensures { result ≡ ends run nest kind }
{
    nest.brackets == 0 && (is_close(kind) || (nest.angles == 0 && stops(run, kind)))
}

/// How many `<` are open after a token outside other brackets.
fn angles_after(run: Run, nest: Nest, kind: TokenKind) -> usize
    requires { nest.angles + 1 < 2 ^ 64 }
    ensures value { result ≡ angles_after run nest kind }
    ensures near { result ≤ nest.angles + 1 }
{
    match kind {
        TokenKind::Mark(b'<') if has_angles(run) || nest.path || nest.angles > 0 => {
            nest.angles + 1
        }
        TokenKind::Mark(b'>') => nest.angles.saturating_sub(1),
        _ => nest.angles,
    }
}

/// In which brackets the tokens after a token stand.
#[tactic(auto, unfolding(crate::specs::Runs::nest_after))]
fn nest_after(run: Run, nest: Nest, kind: TokenKind) -> Nest
    requires brackets { nest.brackets + 1 < 2 ^ 64 }
    requires angles { nest.angles + 1 < 2 ^ 64 }
    ensures value { result ≡ nest_after run nest kind }
    ensures near { (result.brackets ≤ nest.brackets + 1) × (result.angles ≤ nest.angles + 1) }
{
    let Nest {
        brackets,
        angles,
        ..
    } = nest;
    match kind {
        TokenKind::Open(_) => Nest {
            brackets: brackets + 1,
            angles,
            path: false,
        },
        TokenKind::Close(_) => Nest {
            brackets: brackets.saturating_sub(1),
            angles,
            path: false,
        },
        TokenKind::PathMark => Nest {
            brackets,
            angles,
            path: true,
        },
        _ => Nest {
            brackets,
            angles: if brackets == 0 {
                angles_after(run, nest, kind)
            } else {
                angles
            },
            path: false,
        },
    }
}

/// How many tokens the run has that stands first.
pub(super) fn run_len(run: Run, tokens: &[Token<'_>]) -> usize
    ensures value { result ≡ run_len run (tokens_view tokens.now) }
    ensures within { result ≤ length tokens.now }
{
    let mut nest = OUTSIDE;
    for (at, token) in tokens.iter().enumerate() {
        if ends(run, nest, token.kind) {
            return at;
        }
        nest = nest_after(run, nest, token.kind);
    }
    tokens.len()
}

/// How many tokens a group has whose bracket stands first, with both brackets.
pub(crate) fn group_len(tokens: &[Token<'_>]) -> usize
    requires { 0 < length tokens.now }
    ensures value { result ≡ group_len (tokens_view tokens.now) }
    ensures within { (0 < result) × (result ≤ length tokens.now) }
{
    let inside = run_len(Run::Group, &tokens[1..]);
    if inside + 2 <= tokens.len() {
        inside + 2
    } else {
        tokens.len()
    }
}
