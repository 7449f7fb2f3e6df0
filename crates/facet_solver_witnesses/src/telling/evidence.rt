//! The document that two variants share.
ghost use Rattle.std.specs.Prelude.{IfOk};
ghost use Rattle.facet_solver_witnesses.specs.Shown.{IsSeveral};

use super::Teller;
use super::asked::Asked;
use super::variants::Variants;
use crate::ambiguity::Cause;
use crate::documents::build::{Builder, MOST_LEVELS};
use crate::documents::confirm::{is_several, told_variants};
use crate::documents::surroundings::{Inside, Surrounded, list_around, surround};
use crate::questions::recipe::Recipe;
use crate::questions::{Answer, Made, Questions};
use crate::sites::Site;
use crate::sites::listed::Pair;
use facet_solver_reader::TypeName;
use std::alloc::AllocError;

impl<'r, 'c> Teller<'r, 'c> {
    /// A document that two variants of a site share, as the reader confirms; or why there may be
    /// one.
    pub(super) fn evidence(
        &self,
        questions: &mut Questions<'c>,
        asked: Asked,
    ) -> Result<Result<Surrounded, Cause>, AllocError>
        ensures { IfOk result (λ shown. IfOk shown
            (λ surrounded. IsSeveral self.now.reader.now surrounded.document)) }
    {
        let cause = match self.smallest(questions, asked)? {
            Ok(surrounded) => return Ok(Ok(surrounded)),
            Err(cause) => cause,
        };
        if questions.answer(asked.number) != Answer::Yes {
            return Ok(Err(cause));
        }
        match self.another(questions, asked)? {
            Some(surrounded) => Ok(Ok(surrounded)),
            None => Ok(Err(cause)),
        }
    }

    /// The smallest document that answers a question at a site, as the reader confirms; or why
    /// there may be one.
    fn smallest(
        &self,
        questions: &Questions<'c>,
        asked: Asked,
    ) -> Result<Result<Surrounded, Cause>, AllocError>
        ensures { IfOk result (λ shown. IfOk shown
            (λ surrounded. IsSeveral self.now.reader.now surrounded.document)) }
    {
        let Some(made) = questions.made_by(asked.number) else {
            return Ok(Err(asked.cause));
        };
        match self.surrounded(questions, asked, made)? {
            Some(surrounded) => {
                if is_several(self.alloc, self.reader, &surrounded.document)? {
                    Ok(Ok(surrounded))
                } else {
                    Ok(Err(asked.cause))
                }
            }
            None => Ok(Err(Cause::TooDeep)),
        }
    }

    /// The smallest document that has a value at a site.
    pub(super) fn surrounded(
        &self,
        questions: &Questions<'c>,
        asked: Asked,
        made: &Made<'c>,
    ) -> Result<Option<Surrounded>, AllocError> {
        let mut builder = Builder::new(self.alloc, self.model, questions, asked.is_swapped);
        match asked.site {
            Site::Value { visit, .. } => match builder.made(made, MOST_LEVELS)? {
                Some(value) => surround(&mut builder, self.visits, visit, Inside::Value(value)),
                None => Ok(None),
            },
            Site::Selection {
                visit,
                list,
                part,
                ..
            } => {
                let Recipe::Object(common) = &made.recipe else {
                    return Ok(None);
                };
                let around = list_around(self.visits, visit, list);
                let known = &self.model.list(around).names;
                match builder.members(common, known, MOST_LEVELS)? {
                    Some(members) => {
                        let inside = Inside::Members(members, part);
                        surround(&mut builder, self.visits, visit, inside)
                    }
                    None => Ok(None),
                }
            }
        }
    }

    /// The variants that share a document with two, rising.
    pub(super) fn group(
        &self,
        variants: &Variants<'_, 'c>,
        pair: Pair,
        surrounded: &Surrounded,
    ) -> Result<Vec<usize>, AllocError> {
        let alone = vec![in self.alloc; pair.first, pair.second]?;
        let told = told_variants(self.alloc, self.reader, surrounded)?;
        let mut group = Vec::new(self.alloc);
        let mut from = 0;
        for name in &told {
            // They are told in their order.
            let Some(index) = index_from(&variants.names, from, name) else {
                return Ok(alone);
            };
            group.push(index)?;
            from = index.saturating_add(1);
        }
        if group.contains(&pair.first) && group.contains(&pair.second) {
            Ok(group)
        } else {
            Ok(alone)
        }
    }
}

/// The first index from one on at which a name stands.
fn index_from(names: &[TypeName<'_>], from: usize, name: &TypeName<'_>) -> Option<usize> {
    for (index, other) in names.iter().enumerate() {
        if from <= index && other == name {
            return Some(index);
        }
    }
    None
}
