//! Where two readings may differ first, and a document comes to.
pub(crate) mod apart;
pub(crate) mod listed;
pub(crate) mod required;
pub(crate) mod visits;

use crate::model::Model;
use crate::place::Fork;
use crate::questions::Question;
use facet_solver_reader::PlannedEnd;
use std::alloc::{AllocError, Global};
use std::collections::BTreeMap;
use visits::{Beside, Spot, Visits, beside_part, others_have_values};

/// Where two readings may differ first.
#[derive(Clone, Copy)]
pub(crate) enum Site {
    /// At a selection, which is a part of a list.
    Selection {
        visit: usize,
        list: usize,
        part: usize,
        /// Whether it has to have a member.
        needs_name: bool,
    },
    /// At an enum that is read as a value.
    Value {
        visit: usize,
        target: usize,
        /// Whether null does not count, since an option takes it.
        not_null: bool,
    },
}

/// The sites that a document can come to, in the order of visits: each selection and each untagged
/// enum once, in the surroundings that ask least of it.
pub(crate) fn sites_of(
    alloc: Global,
    model: &Model<'_, '_>,
    visits: &Visits,
) -> Result<Vec<Site>, AllocError> {
    let mut sites = Sites {
        sites: Vec::new(alloc),
        numbers: BTreeMap::new(alloc),
    };
    for (visit, here) in visits.visits.iter().enumerate() {
        match here.spot {
            Spot::Target(target, not_null) => {
                if is_enum(model, target) {
                    let site = Site::Value {
                        visit,
                        target,
                        not_null,
                    };
                    sites.add((target, None), site)?;
                }
            }
            Spot::List(list, beside) => sites.add_selections(model, visit, list, beside)?,
        }
    }
    let Sites { sites, .. } = sites;
    Ok(sites)
}

/// Sites, each with its number by the target, or by the list and the part.
#[derive(Drop)]
struct Sites {
    sites: Vec<Site>,
    numbers: BTreeMap<(usize, Option<usize>), usize>,
}

impl Sites {
    /// Adds the selections of a list.
    fn add_selections(
        &mut self,
        model: &Model<'_, '_>,
        visit: usize,
        list: usize,
        beside: Beside,
    ) -> Result<(), AllocError> {
        for part in 0..model.list(list).parts.len() {
            if model.selection(list, part).is_some() && others_have_values(model, list, part) {
                let site = Site::Selection {
                    visit,
                    list,
                    part,
                    needs_name: needs_name(model, list, part, beside),
                };
                self.add((list, Some(part)), site)?;
            }
        }
        Ok(())
    }

    /// Adds a site, or puts it where the same one stands that asks more.
    fn add(&mut self, key: (usize, Option<usize>), site: Site) -> Result<(), AllocError> {
        match self.numbers.get(&key) {
            Some(number) => {
                if let Some(other) = self.sites.get_mut(*number)
                    && other.asks_more()
                    && !site.asks_more()
                {
                    *other = site;
                }
            }
            None => {
                self.numbers.insert(key, self.sites.len())?;
                self.sites.push(site)?;
            }
        }
        Ok(())
    }
}

impl Site {
    /// What is read in several ways there.
    pub(crate) fn fork(self) -> Fork {
        match self {
            Site::Selection { list, part, .. } => Fork::Selection(list, part),
            Site::Value { target, .. } => Fork::Enum(target),
        }
    }

    /// Whether a value has to have a member, or to be other than null.
    fn asks_more(self) -> bool {
        match self {
            Site::Selection { needs_name, .. } => needs_name,
            Site::Value { not_null, .. } => not_null,
        }
    }
}

/// Whether a target is an enum.
fn is_enum(model: &Model<'_, '_>, target: usize) -> bool {
    matches!(
        model.end(target),
        Some(PlannedEnd::Untagged(..) | PlannedEnd::Named(..))
    )
}

/// Whether a selection has to have a member, so that the innermost optional block does.
fn needs_name(model: &Model<'_, '_>, list: usize, part: usize, beside: Beside) -> bool {
    match model.selection(list, part) {
        Some(selection) if selection.optional => true,
        _ => beside_part(model, list, part, beside) == Beside::Never,
    }
}

/// The question of two branches of a selection.
pub(crate) fn branch_question(first: usize, second: usize, needs_name: bool) -> Question {
    let (low, high) = (first.min(second), first.max(second));
    if needs_name {
        Question::NotEmpty(low, high)
    } else {
        Question::Branches(low, high)
    }
}

/// The question of two alternatives, by their targets.
pub(crate) fn value_question(first: usize, second: usize, not_null: bool) -> Question {
    let (low, high) = (first.min(second), first.max(second));
    if not_null {
        Question::NotNull(low, high)
    } else {
        Question::Values(low, high)
    }
}
