//! Where a document that is read as a type can come to.
use crate::model::Model;
use crate::model::keys::fresh_key;
use facet_solver_reader::{
    PlannedAlternative, PlannedCatchAll, PlannedEnd, PlannedKind, PlannedName, PlannedPart,
};
use std::alloc::{AllocError, Global};
use std::collections::BTreeSet;

/// Whether the innermost optional block around has a member beside.
#[derive(Clone, Copy, PartialEq, Eq, PartialOrd, Ord)]
pub(crate) enum Beside {
    /// It has one, or there is no such block.
    Always,
    /// It may have one.
    Possibly,
    /// It can have none.
    Never,
}

/// Where a document is.
#[derive(Clone, Copy, PartialEq, Eq, PartialOrd, Ord)]
pub(crate) enum Spot {
    /// At a value that is read as a target; whether it is not null, since an option takes that.
    Target(usize, bool),
    /// At the parts of a list, among the members of an object.
    List(usize, Beside),
}

/// How a spot is come to from another.
#[derive(Clone, Copy)]
pub(crate) enum Way {
    /// It is where the document begins.
    Root,
    /// By the same value.
    Itself,
    /// By an item of a list.
    Item,
    /// By an item of a tuple.
    TupleItem(usize),
    /// By a value of a map.
    MapValue,
    /// By the content of a variant that is named.
    Named(usize),
    /// By the members of an object.
    Object,
    /// By a branch of a selection, which is a part of a list.
    Branch(usize),
    /// By a member, which is a part of a list.
    Member(usize),
    /// By what a catch-all takes, which is a part of a list.
    Taken(usize),
}

/// A spot, and how it is come to.
#[derive(Clone, Copy)]
pub(crate) struct Visit {
    pub(crate) spot: Spot,
    /// The number of the visit before.
    pub(crate) from: usize,
    pub(crate) way: Way,
}

/// The spots that a document can come to, each once.
#[derive(Drop)]
pub(crate) struct Visits {
    pub(crate) visits: Vec<Visit>,
    seen: BTreeSet<Spot>,
}

impl Visits {
    /// Those of a type. What has no surroundings is not come to.
    pub(crate) fn new(alloc: Global, model: &Model<'_, '_>) -> Result<Visits, AllocError> {
        let mut visits = Visits {
            visits: Vec::new(alloc),
            seen: BTreeSet::new(alloc),
        };
        visits.come(model, 0, Way::Root, Spot::Target(model.plan.root, false))?;
        for number in 0..most_spots(model) {
            match visits.visits.get(number).map(|visit| visit.spot) {
                Some(Spot::Target(target, not_null)) => {
                    visits.go_on_from_target(alloc, model, number, target, not_null)?;
                }
                Some(Spot::List(list, beside)) => {
                    visits.go_on_from_list(alloc, model, number, list, beside)?;
                }
                None => break,
            }
        }
        Ok(visits)
    }

    /// Comes to a spot. Targets that are one untagged enum are one.
    fn come(
        &mut self,
        model: &Model<'_, '_>,
        from: usize,
        way: Way,
        spot: Spot,
    ) -> Result<(), AllocError> {
        let spot = match spot {
            Spot::Target(target, not_null) => Spot::Target(model.same_enum(target), not_null),
            Spot::List(..) => spot,
        };
        if self.seen.insert(spot)? {
            self.visits.push(Visit { spot, from, way })?;
        }
        Ok(())
    }

    /// Goes on from a value that is read as a target.
    fn go_on_from_target(
        &mut self,
        alloc: Global,
        model: &Model<'_, '_>,
        from: usize,
        target: usize,
        not_null: bool,
    ) -> Result<(), AllocError> {
        let Some(end) = model.end(target) else {
            return Ok(());
        };
        match end {
            PlannedEnd::Option(inside) => {
                self.come(model, from, Way::Itself, Spot::Target(*inside, true))
            }
            PlannedEnd::Same(other) => {
                self.come(model, from, Way::Itself, Spot::Target(*other, not_null))
            }
            PlannedEnd::List(item) => self.come(model, from, Way::Item, Spot::Target(*item, false)),
            PlannedEnd::Tuple(items) => self.come_to_items(model, from, items),
            PlannedEnd::Map(key, value) => {
                match fresh_key(alloc, model.plan, Some(*key), None, &[])? {
                    Some(_) => self.come(model, from, Way::MapValue, Spot::Target(*value, false)),
                    None => Ok(()),
                }
            }
            PlannedEnd::Named(variants) => self.come_to_contents(model, from, variants),
            PlannedEnd::Object(list) => self.come_to_object(model, from, *list),
            PlannedEnd::Untagged(joined, alternatives) => {
                self.come_to_object(model, from, *joined)?;
                self.come_to_alternatives(model, from, alternatives, not_null)
            }
            _ => Ok(()),
        }
    }

    /// Comes to the contents of variants that a document names.
    fn come_to_contents(
        &mut self,
        model: &Model<'_, '_>,
        from: usize,
        variants: &[PlannedName<'_>],
    ) -> Result<(), AllocError> {
        for (index, variant) in variants.iter().enumerate() {
            self.come(
                model,
                from,
                Way::Named(index),
                Spot::Target(variant.content, false),
            )?;
        }
        Ok(())
    }

    /// Comes to the contents of variants that read a value by themselves.
    fn come_to_alternatives(
        &mut self,
        model: &Model<'_, '_>,
        from: usize,
        alternatives: &[PlannedAlternative<'_>],
        not_null: bool,
    ) -> Result<(), AllocError> {
        for alternative in alternatives {
            if !matches!(alternative.kind, PlannedKind::Joins | PlannedKind::Null) {
                let spot = Spot::Target(alternative.content, not_null);
                self.come(model, from, Way::Itself, spot)?;
            }
        }
        Ok(())
    }

    /// Comes to the items of a tuple, each where the others have a value.
    fn come_to_items(
        &mut self,
        model: &Model<'_, '_>,
        from: usize,
        items: &[usize],
    ) -> Result<(), AllocError> {
        for (index, item) in items.iter().enumerate() {
            let others_have = items.iter().enumerate().all(|(other, target)| {
                other == index || model.sizes.of_target(*target).is_some()
            });
            if others_have {
                self.come(
                    model,
                    from,
                    Way::TupleItem(index),
                    Spot::Target(*item, false),
                )?;
            }
        }
        Ok(())
    }

    /// Comes to the list of an object, if some choice has it.
    fn come_to_object(
        &mut self,
        model: &Model<'_, '_>,
        from: usize,
        list: Option<usize>,
    ) -> Result<(), AllocError> {
        match list {
            Some(list) => self.come(model, from, Way::Object, Spot::List(list, Beside::Always)),
            None => Ok(()),
        }
    }

    /// Goes on from the parts of a list.
    fn go_on_from_list(
        &mut self,
        alloc: Global,
        model: &Model<'_, '_>,
        from: usize,
        list: usize,
        beside: Beside,
    ) -> Result<(), AllocError> {
        for (index, part) in model.list(list).parts.iter().enumerate() {
            if !others_have_values(model, list, index) {
                continue;
            }
            match part {
                PlannedPart::Member(member) => {
                    self.come(
                        model,
                        from,
                        Way::Member(index),
                        Spot::Target(member.target, false),
                    )?;
                }
                PlannedPart::CatchAll(PlannedCatchAll::Map(key, value)) => {
                    let key = fresh_key(alloc, model.plan, Some(*key), None, &[])?;
                    if key.is_some() {
                        self.come(model, from, Way::Taken(index), Spot::Target(*value, false))?;
                    }
                }
                PlannedPart::CatchAll(PlannedCatchAll::Anything) => {}
                PlannedPart::Selection(selection) => {
                    let beside = if selection.optional {
                        Beside::Never
                    } else {
                        beside_part(model, list, index, beside)
                    };
                    self.come_to_branches(model, from, index, &selection.branches, beside)?;
                }
            }
        }
        Ok(())
    }

    /// Comes to the branches of the selection that a part is.
    fn come_to_branches(
        &mut self,
        model: &Model<'_, '_>,
        from: usize,
        part: usize,
        branches: &[usize],
        beside: Beside,
    ) -> Result<(), AllocError> {
        for branch in branches {
            self.come(model, from, Way::Branch(part), Spot::List(*branch, beside))?;
        }
        Ok(())
    }
}

/// A bound for how many spots there are: each target in two ways, each list in three.
fn most_spots(model: &Model<'_, '_>) -> usize {
    let targets = model.plan.targets.len().saturating_mul(2);
    targets.saturating_add(model.list_count().saturating_mul(3))
}

/// Whether all parts of a list but one have values.
pub(crate) fn others_have_values(model: &Model<'_, '_>, list: usize, part: usize) -> bool {
    model.list(list).parts.iter().enumerate().all(|(index, other)| index == part
        || model.sizes.of_part(other).is_some())
}

/// Whether the innermost optional block has a member beside a part of a list, by whether it has one
/// beside the list.
pub(crate) fn beside_part(
    model: &Model<'_, '_>,
    list: usize,
    part: usize,
    beside: Beside,
) -> Beside {
    let mut least = beside;
    for (index, other) in model.list(list).parts.iter().enumerate() {
        if index != part {
            least = least.min(beside_of(model, other));
        }
    }
    least
}

/// Whether a part has a member.
fn beside_of(model: &Model<'_, '_>, part: &PlannedPart<'_>) -> Beside {
    if model.sizes.of_part(part).is_some_and(|size| size > 0) {
        return Beside::Always;
    }
    let is_possible = match part {
        PlannedPart::Member(member) => model.sizes.of_target(member.target).is_some(),
        PlannedPart::Selection(selection) => {
            !selection.names.is_empty()
                || selection
                    .branches
                    .iter()
                    .any(|branch| model.list(*branch).takes_rest)
        }
        PlannedPart::CatchAll(_) => true,
    };
    if is_possible {
        Beside::Possibly
    } else {
        Beside::Never
    }
}
