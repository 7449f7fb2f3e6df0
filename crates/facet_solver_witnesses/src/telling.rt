//! What is told of sites.
ghost use Rattle.std.specs.Prelude.{◌≡◌, IfOk, IfSome, OnOk};
ghost use Rattle.facet_solver_witnesses.specs.Shown.{AreShown, IsSeveral, IsShown};

mod asked;
mod evidence;
mod groups;
mod variants;
mod variations;

use crate::ambiguity::{Ambiguity, Evidence, Ignored};
use crate::documents::build::Passed;
use crate::documents::surroundings::Surrounded;
use crate::growing::push;
use crate::model::Model;
use crate::names::{field_of, forks_like, owner_of};
use crate::questions::{Answer, Questions};
use crate::sites::listed::{Listed, Pair};
use crate::sites::required::Required;
use crate::sites::visits::Visits;
use crate::sites::{Site, sites_of};
use asked::Asked;
use facet_solver_reader::{Reader, TypeName};
use groups::Groups;
use std::alloc::{AllocError, Global};
use variants::Variants;

/// What tells the ambiguities of sites.
#[derive(Clone, Copy)]
pub(crate) struct Teller<'r, 'c> {
    pub(crate) alloc: Global,
    pub(crate) reader: &'r Reader<'c>,
    pub(crate) model: &'r Model<'r, 'c>,
    pub(crate) visits: &'r Visits,
    /// The names that all choices of each list require.
    pub(crate) required: &'r Required<'c>,
    /// The pairs of ways that are asked about.
    pub(crate) listed: &'r Listed,
    /// How many steps the search for an object may take.
    pub(crate) budget: usize,
}

impl<'r, 'c> Teller<'r, 'c> {
    /// Adds the ambiguities of all sites.
    pub(crate) fn tell_all(
        &self,
        questions: &mut Questions<'c>,
        ambiguities: &mut Vec<Ambiguity<'c>>,
    ) -> Result<(), AllocError>
        requires { AreShown self.now.reader.now ambiguities.old.items }
        ensures { OnOk result (AreShown self.now.reader.now ambiguities.new.items) }
    {
        for site in sites_of(self.alloc, self.model, self.visits)? {
            self.tell_site(questions, site, ambiguities)?;
        }
        Ok(())
    }

    /// Adds the ambiguities of a site, of the pairs of ways that are listed.
    fn tell_site(
        &self,
        questions: &mut Questions<'c>,
        site: Site,
        ambiguities: &mut Vec<Ambiguity<'c>>,
    ) -> Result<(), AllocError>
        requires { AreShown self.now.reader.now ambiguities.old.items }
        ensures { OnOk result (AreShown self.now.reader.now ambiguities.new.items) }
    {
        let pairs = self.listed.of(site.fork());
        if pairs.is_empty() {
            return Ok(());
        }
        let variants = Variants::new(self.alloc, self.model, site)?;
        let mut groups = Groups::new(self.alloc, variants.names.len())?;
        for ways in pairs {
            for pair in &variants.pairs_of(self.alloc, *ways)? {
                if let Some(ambiguity) = self.told(questions, &variants, *pair, &mut groups)? {
                    push(ambiguities, ambiguity)?;
                }
            }
        }
        Ok(())
    }

    /// The ambiguity of two variants of a site, if there is or may be one, and no group has both.
    fn told(
        &self,
        questions: &mut Questions<'c>,
        variants: &Variants<'_, 'c>,
        pair: Pair,
        groups: &mut Groups,
    ) -> Result<Option<Ambiguity<'c>>, AllocError>
        ensures { IfOk result (λ told. IfSome told
            (λ ambiguity. IsShown self.now.reader.now ambiguity.evidence)) }
    {
        if groups.have(pair.first, pair.second) {
            return Ok(None);
        }
        let Some(asked) = self.asked(questions, variants, pair)? else {
            return Ok(None);
        };
        let (group, evidence) = match self.evidence(questions, asked)? {
            Ok(surrounded) => {
                let group = self.group(variants, pair, &surrounded)?;
                (group, self.witness(variants, pair, surrounded)?)
            }
            Err(cause) => {
                let group = vec![in self.alloc; pair.first, pair.second]?;
                (group, Evidence::MayBe(cause))
            }
        };
        groups.add(&group)?;
        let ambiguity = self.ambiguity(variants, &group, evidence)?;
        Ok(Some(ambiguity))
    }

    /// What is asked of two variants, where the answer is not no.
    fn asked(
        &self,
        questions: &mut Questions<'c>,
        variants: &Variants<'_, 'c>,
        pair: Pair,
    ) -> Result<Option<Asked>, AllocError> {
        let Some(question) = variants.question(self.model, self.required, pair) else {
            return Ok(None);
        };
        let number = questions.answered(self.alloc, self.model, question, self.budget)?;
        if questions.answer(number) == Answer::No {
            return Ok(None);
        }
        Ok(Some(Asked {
            site: variants.site,
            pair,
            number,
            is_swapped: variants.is_swapped(pair),
            cause: variants.cause_of(questions, pair, number),
        }))
    }

    /// The ambiguity of a group of variants, by what shows it.
    fn ambiguity(
        &self,
        variants: &Variants<'_, 'c>,
        group: &[usize],
        evidence: Evidence<'c>,
    ) -> Result<Ambiguity<'c>, AllocError>
        ensures { IfOk result (λ ambiguity. ambiguity.evidence ≡ evidence.entry) }
    {
        let fork = variants.site.fork();
        let plan = self.model.plan;
        Ok(Ambiguity {
            forks: forks_like(self.alloc, plan, fork)?,
            ways: variants.ways_of(self.alloc, group)?,
            owner: owner_of(plan, fork),
            field: field_of(plan, fork),
            variants: variants.names_of(self.alloc, group)?,
            evidence,
        })
    }

    /// A document that two variants share, with the members that they pass over.
    fn witness(
        &self,
        variants: &Variants<'_, 'c>,
        pair: Pair,
        surrounded: Surrounded,
    ) -> Result<Evidence<'c>, AllocError>
        requires { IsSeveral self.now.reader.now surrounded.document }
        ensures { IfOk result (IsShown self.now.reader.now) }
    {
        let Surrounded {
            document,
            path,
            passed,
        } = surrounded;
        let ignored = self.ignored(variants, pair, passed)?;
        Ok(Evidence::Witness {
            document,
            path,
            ignored,
        })
    }

    /// The members that one of two variants passes over.
    fn ignored(
        &self,
        variants: &Variants<'_, 'c>,
        pair: Pair,
        passed: Vec<Passed>,
    ) -> Result<Vec<Ignored<'c>>, AllocError> {
        let mut ignored = Vec::with_capacity(self.alloc, passed.len())?;
        for member in passed {
            let Passed { by_second, path } = member;
            let index = if by_second { pair.second } else { pair.first };
            if let Some(variant) = variants.names.get(index) {
                let variant = *variant;
                push(&mut ignored, Ignored { variant, path })?;
            }
        }
        Ok(ignored)
    }
}
