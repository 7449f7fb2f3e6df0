//! Texts that what two targets come to reads in common.
ghost use Rattle.std.specs.Prelude.{◌≡◌, ◌==◌, All, IsTrue, length};
ghost use Rattle.std.specs.Str.{chars};
ghost use Rattle.facet_solver_checker.specs.Atoms.{NamesUnit};
ghost use Rattle.facet_solver_checker.specs.Apartness.{IsNoText, IsNoUnit, TextsApart};

use crate::kinds::reads_text;
use facet_solver_reader::{PlannedEnd, PlannedName};

/// Whether no text is read by both of two ends.
pub(crate) fn texts_apart(first: &PlannedEnd<'_>, second: &PlannedEnd<'_>) -> bool
    ensures { IsTrue result → TextsApart first.now second.now }
{
    if words_apart(first, second) {
        true
    } else {
        words_apart(second, first)
    }
}

/// Whether the texts of the first end, if they are few, are not read by the second.
fn words_apart(first: &PlannedEnd<'_>, second: &PlannedEnd<'_>) -> bool
    ensures { IsTrue result → TextsApart first.now second.now }
{
    match first {
        PlannedEnd::Tag(name) => reads_no_word(second, name),
        PlannedEnd::Named(names) => reads_no_unit(second, names),
        _ => !reads_text(first),
    }
}

/// Whether an end reads none of the texts by which variants that are units are named.
fn reads_no_unit(end: &PlannedEnd<'_>, names: &[PlannedName<'_>]) -> bool
    ensures { IsTrue result → All (IsNoUnit end.now) names.now }
{
    for name in names {
        if !reads_no_text_of(end, name) {
            return false;
        }
    }
    true
}

/// Whether an end does not read the text of a variant, if that is a unit.
fn reads_no_text_of(end: &PlannedEnd<'_>, name: &PlannedName<'_>) -> bool
    ensures { IsTrue result → IsNoUnit end.now name.now }
{
    if name.is_unit {
        reads_no_word(end, name.text)
    } else {
        true
    }
}

/// Whether an end does not read a text.
fn reads_no_word(end: &PlannedEnd<'_>, word: &str) -> bool
    ensures { IsTrue result → IsNoText end.now word.now }
{
    match end {
        PlannedEnd::Tag(name) => *name != word,
        PlannedEnd::Named(names) => names_no_unit(names, word),
        PlannedEnd::Character => !has_one_char(word),
        _ => !reads_text(end),
    }
}

/// Whether no variant that is a unit is named by a text.
fn names_no_unit(names: &[PlannedName<'_>], word: &str) -> bool
    ensures { IsTrue result → All (λ p. NamesUnit word.now p → ⊥) names.now }
{
    for name in names {
        if !is_no_unit(name, word) {
            return false;
        }
    }
    true
}

/// Whether a variant is no unit, or has another name.
fn is_no_unit(name: &PlannedName<'_>, word: &str) -> bool
    ensures { IsTrue result → NamesUnit word.now name.now → ⊥ }
{
    if name.is_unit {
        name.text != word
    } else {
        true
    }
}

/// Whether a text has one character.
fn has_one_char(text: &str) -> bool
    ensures { result ≡ (length (chars text.now) == 1) }
{
    text.chars().count() == 1
}
