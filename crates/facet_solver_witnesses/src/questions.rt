//! The questions that are asked, and their answers so far.
pub(crate) mod answers;
pub(crate) mod pairs;
pub(crate) mod recipe;

use crate::model::Model;
use answers::answer_all;
use pairs::{atoms_of_both, simple_recipe};
use recipe::{Common, Recipe};
use std::alloc::{AllocError, Global};
use std::collections::BTreeMap;
use std::mem;

/// What is asked of two targets or lists, the lower number first.
#[derive(Clone, Copy, PartialEq, Eq, PartialOrd, Ord)]
pub(crate) enum Question {
    /// A value that both targets read.
    Values(usize, usize),
    /// One that is not null.
    NotNull(usize, usize),
    /// An object that both lists read, of which each has all members.
    Branches(usize, usize),
    /// One that has a member.
    NotEmpty(usize, usize),
}

/// Whether there is such a value.
#[derive(Clone, Copy, PartialEq, Eq, PartialOrd, Ord)]
pub(crate) enum Answer {
    /// There is none.
    No,
    /// There may be one: the steps of a search ran out, here or at a question that this one asks.
    Maybe,
    /// There is.
    Yes,
}

/// What is known of what two targets have in common.
#[derive(Clone, Copy)]
pub(crate) struct Met {
    pub(crate) answer: Answer,
    pub(crate) size: u64,
    pub(crate) value: Common,
}

/// How a value is made, with its size.
#[derive(Drop)]
pub(crate) struct Made<'c> {
    pub(crate) recipe: Recipe<'c>,
    pub(crate) size: u64,
}

/// A question with its answer so far.
#[derive(Drop)]
pub(crate) struct Entry<'c> {
    pub(crate) question: Question,
    pub(crate) answer: Answer,
    /// How the value is made, where there is or may be one. It is made of those of entries that
    /// were answered before.
    pub(crate) made: Option<Made<'c>>,
    /// The questions that are asked again when it is answered.
    waiting: Vec<usize>,
    is_queued: bool,
}

/// The questions that are asked, by numbers.
#[derive(Drop)]
pub(crate) struct Questions<'c> {
    pub(crate) entries: Vec<Entry<'c>>,
    numbers: BTreeMap<Question, usize>,
    /// The questions that are to be answered, the next one last.
    queue: Vec<usize>,
    /// Those that come behind, the next one first.
    later: Vec<usize>,
    /// Whether an answer was used that is no more than maybe.
    pub(crate) has_maybe: bool,
}

impl<'c> Questions<'c> {
    /// None.
    pub(crate) fn new(alloc: Global) -> Questions<'c> {
        Questions {
            entries: Vec::new(alloc),
            numbers: BTreeMap::new(alloc),
            queue: Vec::new(alloc),
            later: Vec::new(alloc),
            has_maybe: false,
        }
    }

    /// The number of a question, which is asked if it is new.
    pub(crate) fn ask(
        &mut self,
        alloc: Global,
        model: &Model<'_, 'c>,
        question: Question,
    ) -> Result<usize, AllocError> {
        if let Some(number) = self.numbers.get(&question) {
            return Ok(*number);
        }
        let number = self.entries.len();
        let made = simple_recipe(model, question);
        let is_answered = made.is_some() || !has_more(model, question);
        let entry = Entry {
            question,
            answer: if made.is_some() {
                Answer::Yes
            } else {
                Answer::No
            },
            made,
            waiting: Vec::new(alloc),
            is_queued: !is_answered,
        };
        if self.entries.push(entry).is_err() {
            return Err(AllocError);
        }
        self.numbers.insert(question, number)?;
        if !is_answered {
            self.later.push(number)?;
        }
        Ok(number)
    }

    /// The number of a question, which is answered.
    pub(crate) fn answered<'r>(
        &mut self,
        alloc: Global,
        model: &'r Model<'r, 'c>,
        question: Question,
        budget: usize,
    ) -> Result<usize, AllocError> {
        let number = self.ask(alloc, model, question)?;
        answer_all(alloc, model, self, budget)?;
        Ok(number)
    }

    /// The question of a number.
    pub(crate) fn question(&self, number: usize) -> Option<Question> {
        self.entries.get(number).map(|entry| entry.question)
    }

    /// The answer to the question of a number, so far.
    pub(crate) fn answer(&self, number: usize) -> Answer {
        match self.entries.get(number) {
            Some(entry) => entry.answer,
            None => Answer::No,
        }
    }

    /// How the value is made that answers the question of a number, if one is.
    pub(crate) fn made_by(&self, number: usize) -> Option<&Made<'c>> {
        self.entries.get(number)?.made.as_ref()
    }

    /// The next question that is to be answered, if one is.
    pub(crate) fn next(&mut self) -> Option<usize> {
        if self.queue.is_empty() {
            mem::swap(&mut self.queue, &mut self.later);
            self.queue.reverse();
        }
        let number = self.queue.pop()?;
        if let Some(entry) = self.entries.get_mut(number) {
            entry.is_queued = false;
        }
        Some(number)
    }

    /// What two targets have in common, as far as is known. The question that asks is asked again
    /// when more is.
    pub(crate) fn meet(
        &mut self,
        alloc: Global,
        model: &Model<'_, 'c>,
        asking: usize,
        first: usize,
        second: usize,
    ) -> Result<Met, AllocError> {
        if first == second || second == model.anything {
            return Ok(smallest(model, first));
        }
        if first == model.anything {
            return Ok(smallest(model, second));
        }
        let question = Question::Values(first.min(second), first.max(second));
        let number = self.ask(alloc, model, question)?;
        let Some(entry) = self.entries.get_mut(number) else {
            return Ok(Met::nothing(first));
        };
        if entry.answer != Answer::Yes && entry.waiting.last() != Some(&asking) {
            entry.waiting.push(asking)?;
        }
        if entry.answer == Answer::Maybe {
            self.has_maybe = true;
        }
        let size = match &entry.made {
            Some(made) => made.size,
            None => 0,
        };
        Ok(Met {
            answer: entry.answer,
            size,
            value: Common::Answer(number, second < first),
        })
    }

    /// Keeps an answer, if it is more than the last one. Those that wait for it are asked again.
    pub(crate) fn keep(
        &mut self,
        number: usize,
        answer: Answer,
        made: Option<Made<'c>>,
    ) -> Result<(), AllocError> {
        let Some(entry) = self.entries.get_mut(number) else {
            return Ok(());
        };
        if answer <= entry.answer {
            return Ok(());
        }
        let waiting = mem::try_take(&mut entry.waiting)?;
        entry.answer = answer;
        entry.made = made;
        for asking in waiting.iter().rev() {
            self.ask_again(*asking)?;
        }
        Ok(())
    }

    /// Asks a question again, if it is not about to be answered.
    fn ask_again(&mut self, number: usize) -> Result<(), AllocError> {
        if let Some(entry) = self.entries.get_mut(number)
            && !entry.is_queued
        {
            entry.is_queued = true;
            self.later.push(number)?;
        }
        Ok(())
    }
}

impl Met {
    /// A target has nothing in common with another.
    fn nothing(target: usize) -> Met {
        Met {
            answer: Answer::No,
            size: 0,
            value: Common::Smallest(target),
        }
    }
}

/// What a target has in common with any value, or itself.
fn smallest(model: &Model<'_, '_>, target: usize) -> Met {
    match model.sizes.targets.get(target) {
        Some(Some(size)) => Met {
            answer: Answer::Yes,
            size: *size,
            value: Common::Smallest(target),
        },
        _ => Met::nothing(target),
    }
}

/// Whether a question is about more than values without others within.
fn has_more(model: &Model<'_, '_>, question: Question) -> bool {
    match question {
        Question::Values(first, second) | Question::NotNull(first, second) => {
            let Some((first, second)) = atoms_of_both(model, first, second) else {
                return false;
            };
            let lists = (first.anything || !first.lists.is_empty())
                && (second.anything || !second.lists.is_empty());
            let objects = (first.anything || !first.objects.is_empty())
                && (second.anything || !second.objects.is_empty());
            lists || objects
        }
        Question::Branches(..) | Question::NotEmpty(..) => true,
    }
}
