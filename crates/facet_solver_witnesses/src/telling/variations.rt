//! Other documents that two variants share, where the first is not confirmed.
ghost use Rattle.std.specs.Prelude.{IfOk, IfSome};
ghost use Rattle.facet_solver_witnesses.specs.Shown.{IsSeveral};

use super::Teller;
use super::asked::Asked;
use crate::documents::confirm::is_several;
use crate::documents::surroundings::Surrounded;
use crate::object::{Forced, Found, common_branch};
use crate::questions::answers::answer_all;
use crate::questions::pairs::{Asking, common_objects, common_of_kind};
use crate::questions::recipe::{KINDS, Kind};
use crate::questions::{Answer, Question, Questions};
use std::alloc::AllocError;

/// How many names are tried.
const MOST_NAMES: usize = 40;

impl<'r, 'c> Teller<'r, 'c> {
    /// Another document that two variants of a site share, as the reader confirms: with a value of
    /// another kind, or a member more.
    pub(super) fn another(
        &self,
        questions: &mut Questions<'c>,
        asked: Asked,
    ) -> Result<Option<Surrounded>, AllocError>
        ensures { IfOk result (λ other. IfSome other
            (λ surrounded. IsSeveral self.now.reader.now surrounded.document)) }
    {
        let Some(question) = questions.question(asked.number) else {
            return Ok(None);
        };
        if let Some(surrounded) = self.of_another_kind(questions, asked, question)? {
            return Ok(Some(surrounded));
        }
        if let Some(surrounded) = self.with_some_name(questions, asked, question)? {
            return Ok(Some(surrounded));
        }
        self.with_member(questions, asked, question, Forced::Fresh)
    }

    /// One with a value of another kind.
    fn of_another_kind(
        &self,
        questions: &mut Questions<'c>,
        asked: Asked,
        question: Question,
    ) -> Result<Option<Surrounded>, AllocError>
        ensures { IfOk result (λ other. IfSome other
            (λ surrounded. IsSeveral self.now.reader.now surrounded.document)) }
    {
        let (first, second, is_null_out) = match question {
            Question::Values(first, second) => (first, second, false),
            Question::NotNull(first, second) => (first, second, true),
            Question::Branches(..) | Question::NotEmpty(..) => return Ok(None),
        };
        let asking = self.asking(asked);
        for kind in KINDS {
            if is_null_out && kind == Kind::Null {
                continue;
            }
            let found = common_of_kind(&asking, questions, kind, first, second)?;
            if let Some(surrounded) = self.confirmed(questions, asked, &found)? {
                return Ok(Some(surrounded));
            }
        }
        Ok(None)
    }

    /// One with a member of a name that a list of the question has.
    fn with_some_name(
        &self,
        questions: &mut Questions<'c>,
        asked: Asked,
        question: Question,
    ) -> Result<Option<Surrounded>, AllocError>
        ensures { IfOk result (λ other. IfSome other
            (λ surrounded. IsSeveral self.now.reader.now surrounded.document)) }
    {
        for name in &self.names_to_try(question)? {
            let forced = Forced::Name(*name);
            if let Some(surrounded) = self.with_member(questions, asked, question, forced)? {
                return Ok(Some(surrounded));
            }
        }
        Ok(None)
    }

    /// One with a member that it is to have.
    fn with_member(
        &self,
        questions: &mut Questions<'c>,
        asked: Asked,
        question: Question,
        forced: Forced<'c>,
    ) -> Result<Option<Surrounded>, AllocError>
        ensures { IfOk result (λ other. IfSome other
            (λ surrounded. IsSeveral self.now.reader.now surrounded.document)) }
    {
        let asking = self.asking(asked);
        // What is new is asked first.
        for _ in 0..2 {
            let found = forced_by(&asking, questions, question, forced)?;
            if let Some(surrounded) = self.confirmed(questions, asked, &found)? {
                return Ok(Some(surrounded));
            }
            answer_all(self.alloc, self.model, questions, self.budget)?;
        }
        Ok(None)
    }

    /// The document of what is found, if the reader confirms it.
    fn confirmed(
        &self,
        questions: &Questions<'c>,
        asked: Asked,
        found: &Found<'c>,
    ) -> Result<Option<Surrounded>, AllocError>
        ensures { IfOk result (λ other. IfSome other
            (λ surrounded. IsSeveral self.now.reader.now surrounded.document)) }
    {
        let Found::Value(made) = found else {
            return Ok(None);
        };
        match self.surrounded(questions, asked, made)? {
            Some(surrounded) => {
                if is_several(self.alloc, self.reader, &surrounded.document)? {
                    Ok(Some(surrounded))
                } else {
                    Ok(None)
                }
            }
            None => Ok(None),
        }
    }

    /// A question once more.
    fn asking(&self, asked: Asked) -> Asking<'r, 'c> {
        Asking {
            alloc: self.alloc,
            model: self.model,
            number: asked.number,
            least: Answer::Yes,
            budget: self.budget,
        }
    }

    /// The names that the lists of a question have.
    fn names_to_try(&self, question: Question) -> Result<Vec<&'c str>, AllocError> {
        let mut names = Vec::new(self.alloc);
        for list in &self.lists_of(question)? {
            names.extend_from_slice(&self.model.list(*list).names)?;
        }
        names.sort_unstable();
        names.dedup();
        names.truncate(MOST_NAMES);
        Ok(names)
    }

    /// The lists of a question.
    fn lists_of(&self, question: Question) -> Result<Vec<usize>, AllocError> {
        let mut lists = Vec::new(self.alloc);
        match question {
            Question::Values(first, second) | Question::NotNull(first, second) => {
                for target in [first, second] {
                    for object in &self.model.atoms(target).objects {
                        lists.push(object.list)?;
                    }
                }
            }
            Question::Branches(first, second) | Question::NotEmpty(first, second) => {
                lists.push(first)?;
                lists.push(second)?;
            }
        }
        Ok(lists)
    }
}

/// What a question finds with a member that it is to have.
fn forced_by<'c>(
    asking: &Asking<'_, 'c>,
    questions: &mut Questions<'c>,
    question: Question,
    forced: Forced<'c>,
) -> Result<Found<'c>, AllocError> {
    match question {
        Question::Values(first, second) | Question::NotNull(first, second) => {
            common_objects(asking, questions, first, second, forced)
        }
        Question::Branches(first, second) => {
            common_branch(asking, questions, first, second, false, forced)
        }
        Question::NotEmpty(first, second) => {
            common_branch(asking, questions, first, second, true, forced)
        }
    }
}
