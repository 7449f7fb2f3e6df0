//! Which pairs of targets tell two ways to read the same apart: here two branches of a selection.

mod values;

use crate::asked::Asked;
use crate::branches::{branches_apart, inners_apart};
use crate::inners::inners_of;
use crate::tables::Tables;
use facet_solver_reader::PlannedPart;
use std::alloc::{AllocError, Global};

/// By what it is found which pairs are asked of: what is known without a table of pairs.
#[derive(Clone, Copy)]
pub(crate) struct Asking<'t, 'c> {
    pub(crate) tables: Tables<'t, 'c>,
}

impl<'t, 'c> Asking<'t, 'c> {
    /// Asks what tells two branches of a selection apart, by the numbers of their lists; where it
    /// must, for objects that have a member which the selection knows.
    pub(crate) fn branches(
        &self,
        alloc: Global,
        must_touch: bool,
        first: usize,
        second: usize,
        asked: &mut Asked,
    ) -> Result<(), AllocError> {
        if branches_apart(alloc, &self.tables, must_touch, first, second)? {
            return Ok(());
        }
        let firsts = inners_of(alloc, self.tables.plan, first)?;
        let seconds = inners_of(alloc, self.tables.plan, second)?;
        for one in &firsts {
            for other in &seconds {
                self.inners(must_touch, *one, *other, asked)?;
            }
        }
        Ok(())
    }

    /// The same of two lists within branches.
    fn inners(
        &self,
        must_touch: bool,
        one: usize,
        other: usize,
        asked: &mut Asked,
    ) -> Result<(), AllocError> {
        if inners_apart(&self.tables, must_touch, one, other) {
            return Ok(());
        }
        self.required_members(one, other, one, asked)?;
        self.required_members(one, other, other, asked)?;
        if must_touch {
            self.known_members(one, other, asked)?;
        }
        Ok(())
    }

    /// Asks of the members that two lists have of each name that the list of a number requires.
    fn required_members(
        &self,
        one: usize,
        other: usize,
        number: usize,
        asked: &mut Asked,
    ) -> Result<(), AllocError> {
        match self.tables.required.names.get(number) {
            Some(names) => self.members(one, other, names, asked),
            None => Ok(()),
        }
    }

    /// Asks of the members that two lists have of each name that the first knows.
    fn known_members(&self, one: usize, other: usize, asked: &mut Asked) -> Result<(), AllocError> {
        match self.tables.plan.lists.get(one) {
            Some(list) => self.members(one, other, &list.names, asked),
            None => Ok(()),
        }
    }

    /// Asks of the members that two lists have of several names.
    fn members(
        &self,
        one: usize,
        other: usize,
        names: &[&str],
        asked: &mut Asked,
    ) -> Result<(), AllocError> {
        for name in names {
            for target in self.below(one) {
                self.member(*target, other, name, asked)?;
            }
        }
        Ok(())
    }

    /// Asks of the members of a name in the list of a number, with those that the choices of
    /// another have.
    fn member(
        &self,
        number: usize,
        other: usize,
        name: &str,
        asked: &mut Asked,
    ) -> Result<(), AllocError> {
        let Some(list) = self.tables.plan.lists.get(number) else {
            return Ok(());
        };
        for part in &list.parts {
            match part {
                PlannedPart::Member(member) if member.name == name => {
                    self.target(member.target, other, name, asked)?;
                }
                _ => {}
            }
        }
        Ok(())
    }

    /// Asks of a target with the members of a name that the choices of a list have.
    fn target(
        &self,
        target: usize,
        other: usize,
        name: &str,
        asked: &mut Asked,
    ) -> Result<(), AllocError> {
        for number in self.below(other) {
            self.target_in(target, *number, name, asked)?;
        }
        Ok(())
    }

    /// Asks of a target with the members of a name in the list of a number.
    fn target_in(
        &self,
        target: usize,
        number: usize,
        name: &str,
        asked: &mut Asked,
    ) -> Result<(), AllocError> {
        let Some(list) = self.tables.plan.lists.get(number) else {
            return Ok(());
        };
        for part in &list.parts {
            match part {
                PlannedPart::Member(member) if member.name == name => {
                    self.pair(target, member.target, asked)?;
                }
                _ => {}
            }
        }
        Ok(())
    }

    /// Asks of a pair, unless it is known to be apart.
    fn pair(&self, first: usize, second: usize, asked: &mut Asked) -> Result<(), AllocError> {
        if self.tables.apart.has(first, second) {
            Ok(())
        } else {
            asked.ask(first, second)
        }
    }

    /// The numbers of the lists that the choices of a list go through.
    fn below(&self, number: usize) -> &[usize] {
        match self.tables.plan.lists.get(number) {
            Some(list) => &list.below,
            None => &[],
        }
    }
}
