//! How an item begins, and how many tokens it has.
ghost use Rattle.std.specs.Prelude.{◌≡◌, ◌+◌, ◌<◌, ◌≤◌, IfSome, IsTrue, false, length, true};
ghost use Rattle.facet_solver_types.specs.Starts.{bare_len, begins_constant, begins_extern, begins_function, begins_statement, begins_trait, body_start, brackets_len, call_len, end_len, end_len_of, first_len, has_code, has_keyword, is_broken, is_called, is_nothing, is_path_mark, is_plain, is_qualifier, is_segment, is_unknown, item_len, len_of, named_call_len, opening_len, path_len, path_step, piece_len, qualified_start, qualifiers_len, run_and_end_len, run_of, sees_extern, sees_path_mark, sees_plain, semicolon_len, start_in, start_of, start_with, visible_len, whole_call_len};
ghost use Rattle.facet_solver_types.specs.Tokens.{tokens_view};

use super::first::{
    is_name, is_word, sees_bracket, sees_close, sees_mark, sees_name, sees_open, sees_word,
};
use super::prefixes::{attributes_len, visibility_len};
use super::run::{Run, group_len, is_mark, run_len};
use crate::token::{Bracket, Token, TokenKind};

/// What a piece stands in, by what it may be there.
#[derive(Clone, Copy, Debug, PartialEq, Eq)]
pub(super) enum Context {
    /// A module, or none: each piece is an item.
    Module,
    /// A block of a function: items stand among code.
    Block,
    /// The body of an impl: what is no function is passed over.
    Body,
}

/// How an item begins.
#[derive(Clone, Copy, Debug, PartialEq, Eq)]
pub(super) enum Start {
    Struct,
    Enum,
    Alias,
    Module,
    Function,
    Impl,
    /// One that ends with `;` alone and declares no type.
    Statement,
    /// Another that ends with `;` or `{ }` and declares no type.
    Head,
    /// The call of a macro.
    Call,
    /// No item begins so.
    Unknown,
}

/// Whether a token of this kind and text is this name, as it is written.
fn is_plain(word: &str, kind: TokenKind, text: &str) -> bool
    ensures { result ≡ is_plain word.now kind text.now }
{
    match kind {
        TokenKind::Name => text == word,
        _ => false,
    }
}

/// Whether the first token is this name.
fn sees_plain(word: &str, tokens: &[Token<'_>]) -> bool
    ensures value { result ≡ sees_plain word.now (tokens_view tokens.now) }
    ensures some { IsTrue result → 0 < length tokens.now }
{
    match tokens.first() {
        Some(token) => is_plain(word, token.kind, token.text),
        None => false,
    }
}

/// Whether a constant stands after `const`: a name or `_`, and a colon.
fn begins_constant(tokens: &[Token<'_>]) -> bool
    ensures { result ≡ begins_constant (tokens_view tokens.now) }
{
    (sees_name(tokens) || sees_word("_", tokens)) && sees_mark(b':', &tokens[1..])
}

/// Whether an item stands first that ends with `;` alone and declares no type.
#[tactic(auto, unfolding(crate::specs::Starts::begins_statement))]
fn begins_statement(tokens: &[Token<'_>]) -> bool
    ensures { result ≡ begins_statement (tokens_view tokens.now) }
{
    sees_word("use", tokens)
        || sees_word("static", tokens)
        || (sees_word("const", tokens) && begins_constant(&tokens[1..]))
}

/// Whether a token may stand before `fn`, `impl` or `trait`: a keyword, or the text after `extern`.
fn is_qualifier(kind: TokenKind, text: &str) -> bool
    ensures { result ≡ is_qualifier kind text.now }
{
    match kind {
        TokenKind::Text | TokenKind::RawText => true,
        _ => {
            is_word("const", kind, text)
                || is_word("async", kind, text)
                || is_word("unsafe", kind, text)
                || is_word("extern", kind, text)
        }
    }
}

/// How many tokens stand first that may stand before `fn`, `impl` or `trait`.
pub(super) fn qualifiers_len(tokens: &[Token<'_>]) -> usize
    ensures value { result ≡ qualifiers_len (tokens_view tokens.now) }
    ensures within { result ≤ length tokens.now }
{
    for (at, token) in tokens.iter().enumerate() {
        if !is_qualifier(token.kind, token.text) {
            return at;
        }
    }
    tokens.len()
}

/// Whether `fn` and a name stand first.
fn begins_function(tokens: &[Token<'_>]) -> bool
    ensures { result ≡ begins_function (tokens_view tokens.now) }
{
    sees_word("fn", tokens) && sees_name(&tokens[1..])
}

/// Whether `extern` stands first, maybe after `unsafe`.
fn sees_extern(tokens: &[Token<'_>]) -> bool
    ensures { result ≡ sees_extern (tokens_view tokens.now) }
{
    sees_word("extern", tokens)
        || (sees_word("unsafe", tokens) && sees_word("extern", &tokens[1..]))
}

/// Whether the items of another language stand first, or a crate, with what stands after the words
/// that stand first. The type of a function of another language is neither.
fn begins_extern(tokens: &[Token<'_>], rest: &[Token<'_>]) -> bool
    ensures { result ≡ begins_extern (tokens_view tokens.now) (tokens_view rest.now) }
{
    sees_extern(tokens) && (sees_open(Bracket::Curly, rest) || sees_word("crate", rest))
}

/// Whether a trait or a union stands first.
fn begins_trait(tokens: &[Token<'_>]) -> bool
    ensures { result ≡ begins_trait (tokens_view tokens.now) }
{
    sees_word("trait", tokens)
        || (sees_plain("auto", tokens) && sees_word("trait", &tokens[1..]))
        || (sees_plain("union", tokens) && sees_name(&tokens[1..]))
}

/// Whether a token is `::`.
fn is_path_mark(kind: TokenKind) -> bool
    ensures { result ≡ is_path_mark kind }
{
    match kind {
        TokenKind::PathMark => true,
        _ => false,
    }
}

/// Whether a token may stand in the path of a macro.
fn is_segment(kind: TokenKind, text: &str) -> bool
    ensures { result ≡ is_segment kind text.now }
{
    is_name(kind)
        || is_word("crate", kind, text)
        || is_word("self", kind, text)
        || is_word("super", kind, text)
}

/// Whether `::` stands first.
fn sees_path_mark(tokens: &[Token<'_>]) -> bool
    ensures value { result ≡ sees_path_mark (tokens_view tokens.now) }
    ensures some { IsTrue result → 0 < length tokens.now }
{
    match tokens.first() {
        Some(token) => is_path_mark(token.kind),
        None => false,
    }
}

/// How far the path of a macro is.
#[derive(Clone, Copy, Debug, PartialEq, Eq)]
enum Path {
    /// A name comes next.
    Begun,
    /// After a name.
    Named,
    /// After the `!`.
    Called,
    /// It is none.
    Broken,
}

/// How far the path of a macro is after a token.
#[tactic(auto, unfolding(crate::specs::Starts::path_step))]
fn path_step(path: Path, kind: TokenKind, text: &str) -> Path
    ensures { result ≡ path_step path kind text.now }
{
    match path {
        Path::Begun => {
            if is_segment(kind, text) {
                Path::Named
            } else {
                Path::Broken
            }
        }
        Path::Named => {
            if is_path_mark(kind) {
                Path::Begun
            } else if is_mark(b'!', kind) {
                Path::Called
            } else {
                Path::Broken
            }
        }
        _ => Path::Broken,
    }
}

/// Whether the `!` was reached.
fn is_called(path: Path) -> bool
    ensures { result ≡ is_called path }
{
    match path {
        Path::Called => true,
        _ => false,
    }
}

/// Whether this is no path of a macro.
fn is_broken(path: Path) -> bool
    ensures { result ≡ is_broken path }
{
    match path {
        Path::Broken => true,
        _ => false,
    }
}

/// How many tokens, after so many, the path of a macro has with its `!`, which begins with a name.
fn path_len(count: usize, tokens: &[Token<'_>]) -> Option<usize>
    requires { count ≤ 1 }
    ensures value { result ≡ path_len count (tokens_view tokens.now) }
    ensures within { IfSome result (λ len. len ≤ count + length tokens.now) }
{
    let mut path = Path::Begun;
    for (at, token) in tokens.iter().enumerate() {
        path = path_step(path, token.kind, token.text);
        if is_called(path) {
            return Some(count + at + 1);
        }
        if is_broken(path) {
            return None;
        }
    }
    None
}

/// How many tokens the path of a macro has with its `!`, if it stands first; it may begin with
/// `::`.
pub(super) fn call_len(tokens: &[Token<'_>]) -> Option<usize>
    ensures value { result ≡ call_len (tokens_view tokens.now) }
    ensures within { IfSome result (λ len. len ≤ length tokens.now) }
{
    if sees_path_mark(tokens) {
        path_len(1, &tokens[1..])
    } else {
        path_len(0, tokens)
    }
}

/// How an item begins that words may stand before, or the call of a macro, with what stands after
/// the words.
fn start_with(tokens: &[Token<'_>], rest: &[Token<'_>]) -> Start
    ensures value { result ≡ start_with (tokens_view tokens.now) (tokens_view rest.now) }
    ensures bare { has_keyword result ≡ false }
{
    if begins_function(rest) {
        Start::Function
    } else if sees_word("impl", rest) {
        Start::Impl
    } else if begins_trait(rest) || begins_extern(tokens, rest) {
        Start::Head
    } else if call_len(tokens).is_some() {
        Start::Call
    } else {
        Start::Unknown
    }
}

/// How an item begins that words may stand before, or the call of a macro.
fn qualified_start(tokens: &[Token<'_>]) -> Start
    ensures value { result ≡ qualified_start (tokens_view tokens.now) }
    ensures bare { has_keyword result ≡ false }
{
    start_with(tokens, &tokens[qualifiers_len(tokens)..])
}

/// How an item begins, after attributes and `pub`.
#[tactic(auto, unfolding(crate::specs::Starts::start_of))]
pub(super) fn start_of(tokens: &[Token<'_>]) -> Start
    ensures value { result ≡ start_of (tokens_view tokens.now) }
    ensures some { has_keyword result ≡ true → 0 < length tokens.now }
{
    if sees_word("struct", tokens) {
        Start::Struct
    } else if sees_word("enum", tokens) {
        Start::Enum
    } else if sees_word("type", tokens) {
        Start::Alias
    } else if sees_word("mod", tokens) {
        Start::Module
    } else if begins_statement(tokens) {
        Start::Statement
    } else {
        qualified_start(tokens)
    }
}

/// How a piece begins in the body of an impl that would begin so elsewhere.
fn body_start(start: Start) -> Start
    ensures value { result ≡ body_start start }
    ensures bare { has_keyword result ≡ false }
{
    match start {
        Start::Function => Start::Function,
        Start::Call => Start::Call,
        _ => Start::Unknown,
    }
}

/// How a piece begins in a context, after attributes and `pub`.
pub(super) fn start_in(context: Context, tokens: &[Token<'_>]) -> Start
    ensures value { result ≡ start_in context (tokens_view tokens.now) }
    ensures some { has_keyword result ≡ true → 0 < length tokens.now }
{
    match context {
        Context::Body => body_start(start_of(tokens)),
        _ => start_of(tokens),
    }
}

/// Up to what an item goes that begins so: `;`, or `;` or braces.
fn run_of(start: Start) -> Run
    ensures { result ≡ run_of start }
{
    match start {
        Start::Alias => Run::Statement,
        Start::Statement => Run::Statement,
        _ => Run::Head,
    }
}

/// How many tokens the end of an item has: its braces, or one.
fn end_len(tokens: &[Token<'_>]) -> usize
    ensures value { result ≡ end_len (tokens_view tokens.now) }
    ensures within { result ≤ length tokens.now }
{
    if sees_open(Bracket::Curly, tokens) {
        group_len(tokens)
    } else {
        first_len(tokens)
    }
}

/// How many tokens the first token is: one, or none where there is none, or where it closes a
/// bracket.
fn first_len(tokens: &[Token<'_>]) -> usize
    ensures value { result ≡ first_len (tokens_view tokens.now) }
    ensures within { result ≤ length tokens.now }
{
    if tokens.is_empty() || sees_close(tokens) {
        0
    } else {
        1
    }
}

/// How many tokens the brace has that opens a module, with the inner attributes behind it, or else
/// the first token.
fn opening_len(tokens: &[Token<'_>]) -> usize
    ensures value { result ≡ opening_len (tokens_view tokens.now) }
    ensures within { result ≤ length tokens.now }
{
    if sees_open(Bracket::Curly, tokens) {
        1 + attributes_len(true, &tokens[1..])
    } else {
        first_len(tokens)
    }
}

/// How many tokens the end of an item has that begins so. A function, an impl and a module end where
/// their braces open.
fn end_len_of(start: Start, tokens: &[Token<'_>]) -> usize
    ensures value { result ≡ end_len_of start (tokens_view tokens.now) }
    ensures within { result ≤ length tokens.now }
{
    match start {
        Start::Function | Start::Impl => first_len(tokens),
        Start::Module => opening_len(tokens),
        _ => end_len(tokens),
    }
}

/// How many tokens the path of a macro has with its `!`, and with a name, if one stands there.
pub(super) fn named_call_len(tokens: &[Token<'_>]) -> usize
    ensures value { result ≡ named_call_len (tokens_view tokens.now) }
    ensures within { result ≤ length tokens.now }
{
    let len = call_len(tokens).unwrap_or(0);
    if sees_name(&tokens[len..]) {
        len + 1
    } else {
        len
    }
}

/// How many tokens the brackets have that stand first, with what stands in them, or 0.
fn brackets_len(tokens: &[Token<'_>]) -> usize
    ensures value { result ≡ brackets_len (tokens_view tokens.now) }
    ensures within { result ≤ length tokens.now }
{
    if sees_bracket(tokens) {
        group_len(tokens)
    } else {
        0
    }
}

/// How many tokens a `;` has that may stand first.
fn semicolon_len(tokens: &[Token<'_>]) -> usize
    ensures value { result ≡ semicolon_len (tokens_view tokens.now) }
    ensures within { result ≤ length tokens.now }
{
    if sees_mark(b';', tokens) { 1 } else { 0 }
}

/// How many tokens the call of a macro has, with its brackets, and with `;` if it stands there.
fn whole_call_len(tokens: &[Token<'_>]) -> usize
    ensures value { result ≡ whole_call_len (tokens_view tokens.now) }
    ensures within { result ≤ length tokens.now }
{
    let name = named_call_len(tokens);
    let rest = &tokens[name..];
    let brackets = brackets_len(rest);
    name + (brackets + semicolon_len(&rest[brackets..]))
}

/// How many tokens an item has that begins so and is no call, after attributes and `pub`.
fn run_and_end_len(start: Start, tokens: &[Token<'_>]) -> usize
    ensures value { result ≡ run_and_end_len start (tokens_view tokens.now) }
    ensures within { result ≤ length tokens.now }
{
    let len = run_len(run_of(start), tokens);
    len + end_len_of(start, &tokens[len..])
}

/// How many tokens an item has that begins so, after attributes and `pub`.
fn len_of(start: Start, tokens: &[Token<'_>]) -> usize
    ensures value { result ≡ len_of start (tokens_view tokens.now) }
    ensures within { result ≤ length tokens.now }
{
    match start {
        Start::Call => whole_call_len(tokens),
        _ => run_and_end_len(start, tokens),
    }
}

/// How many tokens an item has, after attributes and `pub`.
fn bare_len(tokens: &[Token<'_>]) -> usize
    ensures value { result ≡ bare_len (tokens_view tokens.now) }
    ensures within { result ≤ length tokens.now }
{
    len_of(start_of(tokens), tokens)
}

/// Whether no item begins so.
fn is_unknown(start: Start) -> bool
    ensures { result ≡ is_unknown start }
{
    match start {
        Start::Unknown => true,
        _ => false,
    }
}

/// Whether a piece may be something else than an item.
pub(super) fn has_code(context: Context) -> bool
    ensures { result ≡ has_code context }
{
    match context {
        Context::Module => false,
        _ => true,
    }
}

/// Whether what stands first is no item, in a context where it may be something else.
fn is_nothing(context: Context, tokens: &[Token<'_>]) -> bool
    ensures { result ≡ is_nothing context (tokens_view tokens.now) }
{
    has_code(context) && is_unknown(start_in(context, tokens))
}

/// How many tokens an item has, after attributes, with `pub`; none where it is something else.
fn visible_len(context: Context, tokens: &[Token<'_>]) -> usize
    ensures value { result ≡ visible_len context (tokens_view tokens.now) }
    ensures within { result ≤ length tokens.now }
{
    let visibility = visibility_len(tokens);
    let bare = &tokens[visibility..];
    if is_nothing(context, bare) {
        0
    } else {
        visibility + bare_len(bare)
    }
}

/// How many tokens the item has that stands first, with attributes and `pub`; where it is something
/// else, the attributes alone.
fn item_len(context: Context, tokens: &[Token<'_>]) -> usize
    ensures value { result ≡ item_len context (tokens_view tokens.now) }
    ensures within { result ≤ length tokens.now }
{
    let attributes = attributes_len(false, tokens);
    attributes + visible_len(context, &tokens[attributes..])
}

/// How many tokens the piece has that stands first: an item's, or one.
pub(super) fn piece_len(context: Context, tokens: &[Token<'_>]) -> usize
    requires { 0 < length tokens.now }
    ensures value { result ≡ piece_len context (tokens_view tokens.now) }
    ensures some { 0 < result }
    ensures within { result ≤ length tokens.now }
{
    let len = item_len(context, tokens);
    if len == 0 { 1 } else { len }
}
