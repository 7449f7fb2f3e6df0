//! The answers to questions.
use crate::model::Model;
use crate::object::{Forced, Found, common_branch};
use crate::questions::pairs::{Asking, common_of_kind};
use crate::questions::recipe::{KINDS, Kind};
use crate::questions::{Answer, Question, Questions};
use std::alloc::{AllocError, Global};

/// Answers all questions that are asked, and those that these ask. Each is answered again only when
/// one that it asked has more of an answer, so that they run out long before the rounds.
pub(crate) fn answer_all<'r, 'c>(
    alloc: Global,
    model: &'r Model<'r, 'c>,
    questions: &mut Questions<'c>,
    budget: usize,
) -> Result<(), AllocError> {
    for _ in 0..u64::MAX {
        let Some(number) = questions.next() else {
            return Ok(());
        };
        let Some(entry) = questions.entries.get(number) else {
            continue;
        };
        if entry.answer == Answer::Yes {
            continue;
        }
        let asking = Asking {
            alloc,
            model,
            number,
            least: Answer::Yes,
            budget,
        };
        answer_next(asking, entry.question, questions)?;
    }
    Ok(())
}

/// Answers a question by the answers so far: by those that are certain, or else by all.
fn answer_next<'c>(
    mut asking: Asking<'_, 'c>,
    question: Question,
    questions: &mut Questions<'c>,
) -> Result<(), AllocError> {
    questions.has_maybe = false;
    let mut found = answer_one(&asking, question, questions)?;
    if matches!(found, Found::None) && questions.has_maybe {
        asking.least = Answer::Maybe;
        found = match answer_one(&asking, question, questions)? {
            Found::None => Found::None,
            _ => Found::Maybe,
        };
    }
    match found {
        Found::None => Ok(()),
        Found::Maybe => questions.keep(asking.number, Answer::Maybe, None),
        Found::Value(made) => questions.keep(asking.number, Answer::Yes, Some(made)),
    }
}

/// What answers a question, by the answers so far.
fn answer_one<'c>(
    asking: &Asking<'_, 'c>,
    question: Question,
    questions: &mut Questions<'c>,
) -> Result<Found<'c>, AllocError> {
    match question {
        Question::Values(first, second) | Question::NotNull(first, second) => {
            common_value(asking, questions, first, second, Kind::List)
        }
        Question::Branches(first, second) => {
            common_branch(asking, questions, first, second, false, Forced::Nothing)
        }
        Question::NotEmpty(first, second) => {
            common_branch(asking, questions, first, second, true, Forced::Nothing)
        }
    }
}

/// A value that both targets read, of the kinds from one on: of the first kind that has one.
fn common_value<'c>(
    asking: &Asking<'_, 'c>,
    questions: &mut Questions<'c>,
    first: usize,
    second: usize,
    from: Kind,
) -> Result<Found<'c>, AllocError> {
    let mut found = Found::None;
    let mut is_begun = false;
    for kind in KINDS {
        is_begun = is_begun || kind == from;
        if is_begun && !matches!(found, Found::Value(_)) {
            found = found.or(common_of_kind(asking, questions, kind, first, second)?);
        }
    }
    Ok(found)
}
