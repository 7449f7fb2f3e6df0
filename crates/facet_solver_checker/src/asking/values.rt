//! Which pairs of targets tell two atoms apart, by what these come to.

use crate::asked::Asked;
use crate::asking::Asking;
use crate::atoms::Atom;
use crate::end_ways::member_ways;
use crate::inners::inners_of;
use crate::kinds::have_no_simple;
use crate::objects::{Side, objects_apart, sides_apart, ways_of_side};
use crate::tables::Tables;
use crate::texts::texts_apart;
use facet_solver_reader::{PlannedEnd, PlannedName};
use std::alloc::{AllocError, Global};

impl<'t, 'c> Asking<'t, 'c> {
    /// Asks what tells each of some atoms from each of others.
    pub(crate) fn atoms(
        &self,
        alloc: Global,
        first: &[Atom],
        second: &[Atom],
        asked: &mut Asked,
    ) -> Result<(), AllocError> {
        for one in first {
            for other in second {
                self.atom(alloc, *one, *other, asked)?;
            }
        }
        Ok(())
    }

    /// Asks what tells two atoms apart.
    fn atom(
        &self,
        alloc: Global,
        first: Atom,
        second: Atom,
        asked: &mut Asked,
    ) -> Result<(), AllocError> {
        match first {
            Atom::Null => Ok(()),
            Atom::Plain(number) => match self.tables.plan.targets.get(number) {
                Some(target) => self.end_and_atom(alloc, &target.end, second, asked),
                None => Ok(()),
            },
            Atom::Joined(list) => {
                let object = PlannedEnd::Object(Some(list));
                self.end_and_atom(alloc, &object, second, asked)
            }
        }
    }

    /// The same of what a target comes to, and an atom.
    fn end_and_atom(
        &self,
        alloc: Global,
        first: &PlannedEnd<'_>,
        second: Atom,
        asked: &mut Asked,
    ) -> Result<(), AllocError> {
        match second {
            Atom::Null => Ok(()),
            Atom::Plain(number) => match self.tables.plan.targets.get(number) {
                Some(target) => self.ends(alloc, first, &target.end, asked),
                None => Ok(()),
            },
            Atom::Joined(list) => {
                let object = PlannedEnd::Object(Some(list));
                self.ends(alloc, first, &object, asked)
            }
        }
    }

    /// The same of what two targets come to. Nothing tells them apart where both read one kind of
    /// simple values, or one text.
    fn ends(
        &self,
        alloc: Global,
        first: &PlannedEnd<'_>,
        second: &PlannedEnd<'_>,
        asked: &mut Asked,
    ) -> Result<(), AllocError> {
        if !have_no_simple(first, second) || !texts_apart(first, second) {
            return Ok(());
        }
        match first {
            PlannedEnd::List(item) => ask_items(*item, second, asked),
            PlannedEnd::Tuple(items) => ask_places(items, second, asked),
            PlannedEnd::Object(list) => self.from_list(alloc, *list, second, asked),
            _ => self.from_other(alloc, first, second, asked),
        }
    }

    /// The same of a list of parts and an end.
    fn from_list(
        &self,
        alloc: Global,
        list: Option<usize>,
        end: &PlannedEnd<'_>,
        asked: &mut Asked,
    ) -> Result<(), AllocError> {
        let Some(list) = list else {
            return Ok(());
        };
        match end {
            PlannedEnd::Object(Some(other)) => self.objects(alloc, list, *other, asked),
            _ => self.list_and_end(alloc, list, end, asked),
        }
    }

    /// The same of a list of parts and an end that is none.
    fn list_and_end(
        &self,
        alloc: Global,
        list: usize,
        end: &PlannedEnd<'_>,
        asked: &mut Asked,
    ) -> Result<(), AllocError> {
        let Some(names) = self.tables.required.names.get(list) else {
            return Ok(());
        };
        for name in names {
            if let Some(ways) = member_ways(alloc, self.tables.plan, list, end, name)? {
                asked.ask_each(ways.list.targets(), ways.end.targets())?;
            }
        }
        Ok(())
    }

    /// The same of an end that is no list of parts, and one.
    fn end_and_list(
        &self,
        alloc: Global,
        end: &PlannedEnd<'_>,
        list: usize,
        asked: &mut Asked,
    ) -> Result<(), AllocError> {
        let Some(names) = self.tables.required.names.get(list) else {
            return Ok(());
        };
        for name in names {
            if let Some(ways) = member_ways(alloc, self.tables.plan, list, end, name)? {
                asked.ask_each(ways.end.targets(), ways.list.targets())?;
            }
        }
        Ok(())
    }

    /// The same of two ends, of which the first is no list of parts.
    fn from_other(
        &self,
        alloc: Global,
        first: &PlannedEnd<'_>,
        second: &PlannedEnd<'_>,
        asked: &mut Asked,
    ) -> Result<(), AllocError> {
        match second {
            PlannedEnd::Object(Some(list)) => self.end_and_list(alloc, first, *list, asked),
            _ => ask_contents(first, second, asked),
        }
    }

    /// Asks what tells the objects of two lists of parts apart.
    fn objects(
        &self,
        alloc: Global,
        first: usize,
        second: usize,
        asked: &mut Asked,
    ) -> Result<(), AllocError> {
        if self.are_objects_apart(alloc, first, second)? {
            return Ok(());
        }
        let firsts = inners_of(alloc, self.tables.plan, first)?;
        let seconds = inners_of(alloc, self.tables.plan, second)?;
        for one in &firsts {
            for other in &seconds {
                let one = Side::new(first, *one);
                let other = Side::new(second, *other);
                self.sides(alloc, one, other, asked)?;
            }
        }
        Ok(())
    }

    /// Whether two lists of parts are known to read no object in common.
    fn are_objects_apart(
        &self,
        alloc: Global,
        first: usize,
        second: usize,
    ) -> Result<bool, AllocError> {
        let Tables {
            plan,
            required,
            apart,
            ..
        } = self.tables;
        objects_apart(alloc, plan, required, apart, first, second)
    }

    /// Whether two sides are known to read no object in common.
    fn are_sides_apart(
        &self,
        alloc: Global,
        first: Side,
        second: Side,
    ) -> Result<bool, AllocError> {
        let Tables {
            plan,
            required,
            apart,
            ..
        } = self.tables;
        sides_apart(alloc, plan, required, apart, first, second)
    }

    /// The same of two sides.
    fn sides(
        &self,
        alloc: Global,
        first: Side,
        second: Side,
        asked: &mut Asked,
    ) -> Result<(), AllocError> {
        if self.are_sides_apart(alloc, first, second)? {
            return Ok(());
        }
        self.sides_by(alloc, first, second, first.inner(), asked)?;
        self.sides_by(alloc, first, second, second.inner(), asked)
    }

    /// Asks of the members that two sides have of each name that the list of a number requires.
    fn sides_by(
        &self,
        alloc: Global,
        first: Side,
        second: Side,
        number: usize,
        asked: &mut Asked,
    ) -> Result<(), AllocError> {
        let Some(names) = self.tables.required.names.get(number) else {
            return Ok(());
        };
        for name in names {
            let ours = ways_of_side(alloc, self.tables.plan, first, name)?;
            let theirs = ways_of_side(alloc, self.tables.plan, second, name)?;
            asked.ask_each(ours.targets(), theirs.targets())?;
        }
        Ok(())
    }
}

/// Asks what tells a list of items from what an end reads.
fn ask_items(item: usize, end: &PlannedEnd<'_>, asked: &mut Asked) -> Result<(), AllocError> {
    match end {
        PlannedEnd::Tuple(items) => asked.ask_each(&[item], items),
        _ => Ok(()),
    }
}

/// Asks what tells a tuple from what an end reads.
fn ask_places(items: &[usize], end: &PlannedEnd<'_>, asked: &mut Asked) -> Result<(), AllocError> {
    match end {
        PlannedEnd::List(item) => asked.ask_each(items, &[*item]),
        PlannedEnd::Tuple(others) if items.len() == others.len() => {
            for (one, other) in items.iter().zip(others.iter()) {
                asked.ask(*one, *other)?;
            }
            Ok(())
        }
        _ => Ok(()),
    }
}

/// Asks what tells variants that are named in two ends apart.
fn ask_contents(
    first: &PlannedEnd<'_>,
    second: &PlannedEnd<'_>,
    asked: &mut Asked,
) -> Result<(), AllocError> {
    match (first, second) {
        (PlannedEnd::Named(names), PlannedEnd::Named(others)) => {
            for name in names {
                ask_content(name, others, asked)?;
            }
            Ok(())
        }
        _ => Ok(()),
    }
}

/// Asks of the content of a variant with that of others of its name.
fn ask_content(
    name: &PlannedName<'_>,
    others: &[PlannedName<'_>],
    asked: &mut Asked,
) -> Result<(), AllocError> {
    for other in others {
        if name.text == other.text {
            asked.ask(name.content, other.content)?;
        }
    }
    Ok(())
}
