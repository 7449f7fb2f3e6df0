//! The names that all choices of a list require.
use crate::growing::push;
use crate::model::Model;
use facet_solver_reader::PlannedPart;
use std::alloc::{AllocError, Global};

/// The names that all choices of each list require, rising.
#[derive(Drop)]
pub(crate) struct Required<'c> {
    names: Vec<Vec<&'c str>>,
    /// What stands for a list that is not there.
    none: Vec<&'c str>,
}

impl<'c> Required<'c> {
    /// Those of all lists. The branches of a list stand before it.
    pub(crate) fn new(alloc: Global, model: &Model<'_, 'c>) -> Result<Required<'c>, AllocError> {
        let mut required = Required {
            names: Vec::with_capacity(alloc, model.list_count())?,
            none: Vec::new(alloc),
        };
        for list in 0..model.list_count() {
            let names = required.of_parts(alloc, &model.list(list).parts)?;
            push(&mut required.names, names)?;
        }
        Ok(required)
    }

    /// Those of a list.
    pub(crate) fn of(&self, list: usize) -> &Vec<&'c str> {
        self.names.get(list).unwrap_or(&self.none)
    }

    /// Those of the parts of a list.
    fn of_parts(
        &self,
        alloc: Global,
        parts: &[PlannedPart<'c>],
    ) -> Result<Vec<&'c str>, AllocError> {
        let mut names = Vec::new(alloc);
        for part in parts {
            match part {
                PlannedPart::Member(member) if member.required => names.push(member.name)?,
                PlannedPart::Selection(selection) if !selection.optional => {
                    let shared = shared_names(alloc, self, &selection.branches)?;
                    names.extend_from_slice(&shared)?;
                }
                _ => {}
            }
        }
        names.sort_unstable();
        Ok(names)
    }
}

/// The names that all of some lists require.
fn shared_names<'c>(
    alloc: Global,
    required: &Required<'c>,
    lists: &[usize],
) -> Result<Vec<&'c str>, AllocError> {
    let Some((first, others)) = lists.split_first() else {
        return Ok(Vec::new(alloc));
    };
    let mut shared = Vec::from_slice(alloc, required.of(*first))?;
    for other in others {
        if shared.is_empty() {
            break;
        }
        let names = required.of(*other);
        shared.retain(|name| names.binary_search(name).is_ok());
    }
    Ok(shared)
}
