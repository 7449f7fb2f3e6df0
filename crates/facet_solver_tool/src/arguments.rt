//! What the words of a command line ask.
ghost use Rattle.std.specs.Prelude.{◌≡◌, ◌++◌, ◌+◌, ◌<◌, IfOk, Some, drop, filter, find, length, option_map, position, take};
ghost use Rattle.std.specs.List.{list_any};
ghost use Rattle.facet_solver_shape.specs.Names.{names_of};
ghost use Rattle.facet_solver_tool.specs.Requests as requests;
ghost use Rattle.facet_solver_tool.specs.Requests.{Asks, IsAsked, Names, misuse_of, request_view};
ghost use Rattle.facet_solver_tool.specs.Misuses.{misuse_text};

use crate::question::{Form, LinesQuestion, Manner, Question, Task};
use facet_solver_reader::Unknown;
use std::alloc::{AllocError, Global};
use std::error::Error;
use std::fmt;

/// The word that has unknown members refused.
const STRICT: &str = "--strict";
/// The word that has the reading written as JSON.
const JSON: &str = "--json";
/// The word that has each line of the input read as a document.
const LINES: &str = "--lines";
/// The word behind which the file of accepted ambiguities is named.
const ACCEPT: &str = "--accept";

/// What is asked for.
#[derive(Clone, Copy, Debug, Drop, PartialEq, Eq)]
pub enum Request<'w> {
    /// How the program is called.
    Help,
    /// Its name and version.
    Version,
    /// The answer to a question.
    Ask(Question<'w>),
    /// The answers to a question, about each line of the input.
    Lines(LinesQuestion<'w>),
}

/// What words name: the file of types, and the root, if one is named.
type Subject<'w> = (&'w str, Option<&'w str>);

/// Why words ask nothing.
#[derive(Clone, Copy, Debug, Drop, PartialEq, Eq)]
pub enum Misuse<'w> {
    /// There is no word.
    NoCommand,
    /// The first word is no command.
    NoSuchCommand(&'w str),
    /// A word begins with a dash, and is no option of the command.
    NoSuchOption(&'w str),
    /// No file is named.
    NoTypes,
    /// There is a word too many.
    TooMany(&'w str),
    /// Behind `--accept` no file is named.
    NoAccepted,
}

impl fmt::Display for Misuse<'_> {
    ghost output = { λ misuse. Some (misuse_text (misuse_of misuse)) };

    fn fmt<W: fmt::Write>(&self, f: &mut fmt::Formatter<W>) -> fmt::Result {
        match self {
            Misuse::NoCommand => write!(f, "no command; --help lists them"),
            Misuse::NoSuchCommand(word) => { write!(f, "no command '{word}'; --help lists them") }
            Misuse::NoSuchOption(word) => write!(f, "no option '{word}' here"),
            Misuse::NoTypes => write!(f, "no file of types is named"),
            Misuse::TooMany(word) => write!(f, "'{word}' is a word too many"),
            Misuse::NoAccepted => write!(f, "no FILE stands behind --accept"),
        }
    }
}

impl Error for Misuse<'_> {}

/// Why it is not told what words ask.
#[derive(Clone, Copy, Debug, Drop, PartialEq, Eq)]
pub enum ArgumentError<'w> {
    /// They ask nothing.
    Misuse(Misuse<'w>),
    /// Out of memory.
    OutOfMemory,
}

impl<'w> From<Misuse<'w>> for ArgumentError<'w> {
    ghost use Rattle.facet_solver_tool.specs.declared.arguments.ArgumentError.TheVariants as errors;

    ghost from_gives = { λ misuse e. e ≡ errors.Misuse misuse };

    fn from(misuse: Misuse<'w>) -> ArgumentError<'w> {
        ArgumentError::Misuse(misuse)
    }
}

impl<'w> From<AllocError> for ArgumentError<'w> {
    ghost use Rattle.facet_solver_tool.specs.declared.arguments.ArgumentError.TheVariants.{OutOfMemory};

    ghost from_gives = { λ _ e. e ≡ OutOfMemory };

    fn from(_refused: AllocError) -> ArgumentError<'w> {
        ArgumentError::OutOfMemory
    }
}

/// What is asked by the words behind the program's name.
///
/// Errors: why they ask nothing; out of memory.
pub fn requested<'w>(alloc: Global, words: &[&'w str]) -> Result<Request<'w>, ArgumentError<'w>>
    ensures { Asks (requests.requested (names_of words.now)) result }
{
    let Some((command, others)) = words.split_first() else {
        return Err(ArgumentError::Misuse(Misuse::NoCommand));
    };
    match *command {
        "--help" => Ok(alone(Request::Help, others)?),
        "--version" => Ok(alone(Request::Version, others)?),
        "read" => read(alloc, others),
        "check" => check(alloc, others),
        "catalogue" => Ok(question(Task::Catalogue, others, None)?),
        word => Err(ArgumentError::Misuse(Misuse::NoSuchCommand(word))),
    }
}

/// A request that has no other words.
fn alone<'w>(request: Request<'w>, words: &[&'w str]) -> Result<Request<'w>, Misuse<'w>>
    ensures { IsAsked (requests.alone (request_view request.entry) (names_of words.now)) result }
{
    match words.first() {
        None => Ok(request),
        Some(word) => Err(Misuse::TooMany(word)),
    }
}

/// What is asked by the words behind `read`.
fn read<'w>(alloc: Global, words: &[&'w str]) -> Result<Request<'w>, ArgumentError<'w>>
    ensures { Asks (requests.read (names_of words.now)) result }
{
    let operands = operands(alloc, words)?;
    match read_operands(words, &operands) {
        Ok(request) => Ok(request),
        Err(misuse) => Err(ArgumentError::Misuse(misuse)),
    }
}

/// What is asked by the words behind `read`, of which these don't say how a document is read.
fn read_operands<'w>(words: &[&'w str], operands: &[&'w str]) -> Result<Request<'w>, Misuse<'w>>
    ensures { IsAsked (requests.read_operands (names_of words.now) (names_of operands.now)) result }
{
    let manner = manner(words);
    if has_lines(words) {
        lines(manner.unknown, operands)
    } else {
        question(Task::Read(manner), operands, None)
    }
}

/// The words that don't say how a document is read.
fn operands<'w>(alloc: Global, words: &[&'w str]) -> Result<Vec<&'w str>, AllocError>
    ensures { IfOk result (λ operands.
        operands.items ≡ filter (λ word. requests.is_operand word.now) words.now) }
{
    words
        .iter()
        .copied()
        .filter(|word| is_operand(word))
        .collect(alloc)
}

/// Whether a word doesn't say how a document is read.
fn is_operand(word: &str) -> bool
    ensures { result ≡ requests.is_operand word.now }
{
    word != STRICT && word != JSON && word != LINES
}

/// How a document is read.
fn manner(words: &[&str]) -> Manner
    ensures { result ≡ requests.manner (names_of words.now) }
{
    Manner {
        unknown: unknown(words),
        form: form(words),
    }
}

/// What is done with unknown members.
fn unknown(words: &[&str]) -> Unknown
    ensures { result ≡ requests.unknown (names_of words.now) }
{
    if has_strict(words) {
        Unknown::Refused
    } else {
        Unknown::Ignored
    }
}

/// Whether a word has unknown members refused.
fn has_strict(words: &[&str]) -> bool
    ensures { result ≡ list_any (λ word. requests.is_strict word.now) words.now }
{
    words.iter().any(|word| *word == STRICT)
}

/// Whether a word has each line read.
fn has_lines(words: &[&str]) -> bool
    ensures { result ≡ list_any (λ word. requests.is_lines word.now) words.now }
{
    words.iter().any(|word| *word == LINES)
}

/// How the reading is written.
fn form(words: &[&str]) -> Form
    ensures { result ≡ requests.form (names_of words.now) }
{
    if has_json(words) {
        Form::Json
    } else {
        Form::Text
    }
}

/// Whether a word has the reading written as JSON.
fn has_json(words: &[&str]) -> bool
    ensures { result ≡ list_any (λ word. requests.is_json word.now) words.now }
{
    words.iter().any(|word| *word == JSON)
}

/// What is asked by the words behind `check`.
fn check<'w>(alloc: Global, words: &[&'w str]) -> Result<Request<'w>, ArgumentError<'w>>
    ensures { Asks (requests.check (names_of words.now)) result }
{
    match accept_at(words) {
        None => check_accepting(alloc, words, None),
        Some(at) => {
            let Some(accepted) = words.get(at + 1) else {
                return Err(ArgumentError::Misuse(Misuse::NoAccepted));
            };
            let words = without_two(alloc, words, at)?;
            check_accepting(alloc, &words, Some(accepted))
        }
    }
}

/// Where the first word stands behind which the file of accepted ambiguities is named.
fn accept_at(words: &[&str]) -> Option<usize>
    ensures { result ≡ position (λ word. requests.is_accept word.now) words.now }
{
    words.iter().position(|word| *word == ACCEPT)
}

/// The words without two, of which the first has this index.
fn without_two<'w>(alloc: Global, words: &[&'w str], at: usize) -> Result<Vec<&'w str>, AllocError>
    requires { at + 1 < length words.now }
    ensures { IfOk result (λ left. left.items ≡ take at words.now ++ drop (at + 2) words.now) }
{
    let mut left = Vec::new(alloc);
    left.extend_from_slice(&words[..at])?;
    left.extend_from_slice(&words[at + 2..])?;
    Ok(left)
}

/// What is asked by the words behind `check` but for those that name the file of accepted
/// ambiguities.
fn check_accepting<'w>(
    alloc: Global,
    words: &[&'w str],
    accepted: Option<&'w str>,
) -> Result<Request<'w>, ArgumentError<'w>>
    ensures { Asks (requests.check_accepting (option_map (λ file. file.now) accepted.entry)
        (names_of words.now)) result }
{
    let operands = operands_of_check(alloc, words)?;
    match question(Task::Check(manner(words)), &operands, accepted) {
        Ok(request) => Ok(request),
        Err(misuse) => Err(ArgumentError::Misuse(misuse)),
    }
}

/// The words that don't say how a check is answered.
fn operands_of_check<'w>(alloc: Global, words: &[&'w str]) -> Result<Vec<&'w str>, AllocError>
    ensures { IfOk result (λ operands. operands.items
        ≡ filter (λ word. requests.is_operand_of_check word.now) words.now) }
{
    words
        .iter()
        .copied()
        .filter(|word| is_operand_of_check(word))
        .collect(alloc)
}

/// Whether a word doesn't say how a check is answered.
fn is_operand_of_check(word: &str) -> bool
    ensures { result ≡ requests.is_operand_of_check word.now }
{
    word != STRICT && word != JSON
}

/// The question of a task, about the types and the root that words name.
fn question<'w>(
    task: Task,
    words: &[&'w str],
    accepted: Option<&'w str>,
) -> Result<Request<'w>, Misuse<'w>>
    ensures { IsAsked (requests.question task (option_map (λ file. file.now) accepted.entry)
        (names_of words.now)) result }
{
    let (types, root) = subject(words)?;
    Ok(Request::Ask(Question {
        task,
        types,
        root,
        accepted,
    }))
}

/// The question about each line, and about the types and the root that words name.
fn lines<'w>(unknown: Unknown, words: &[&'w str]) -> Result<Request<'w>, Misuse<'w>>
    ensures { IsAsked (requests.question_of_lines unknown (names_of words.now)) result }
{
    let (types, root) = subject(words)?;
    Ok(Request::Lines(LinesQuestion {
        unknown,
        types,
        root,
    }))
}

/// The file of types and the root that words name.
fn subject<'w>(words: &[&'w str]) -> Result<Subject<'w>, Misuse<'w>>
    ensures { Names (requests.subject (names_of words.now)) result }
{
    match first_option(words) {
        Some(word) => Err(Misuse::NoSuchOption(word)),
        None => named(words),
    }
}

/// The first word that begins with a dash.
fn first_option<'w>(words: &[&'w str]) -> Option<&'w str>
    ensures { result ≡ find (λ word. requests.is_option word.now) words.now }
{
    words.iter().copied().find(|word| is_option(word))
}

/// Whether a word begins with a dash.
fn is_option(word: &str) -> bool
    ensures { result ≡ requests.is_option word.now }
{
    word.starts_with('-')
}

/// The file of types and the root that words name, of which none is an option.
fn named<'w>(words: &[&'w str]) -> Result<Subject<'w>, Misuse<'w>>
    ensures { Names (requests.named (names_of words.now)) result }
{
    match *words {
        [] => Err(Misuse::NoTypes),
        [types] => Ok((types, None)),
        [types, root] => Ok((types, Some(root))),
        [_, _, word, ..] => Err(Misuse::TooMany(word)),
    }
}
