//! Two ways that are told apart at once: by what they require, by a tag, or by their kinds.
use super::required::Required;
use crate::model::Model;
use crate::model::atoms::ObjectAtom;
use facet_solver_reader::{PlannedAlternative, PlannedEnd, PlannedKind, PlannedPart};

/// Whether two lists know what the other needs, and do not have a tag of two texts.
pub(crate) fn may_share(
    model: &Model<'_, '_>,
    required: &Required<'_>,
    first: usize,
    second: usize,
) -> bool {
    !have_other_tags(model, first, second)
        && knows_all(model, second, required.of(first))
        && knows_all(model, first, required.of(second))
}

/// Whether a list knows all of some names.
fn knows_all(model: &Model<'_, '_>, list: usize, names: &[&str]) -> bool {
    names
        .iter()
        .all(|name| model.list(list).names.binary_search(name).is_ok())
}

/// Whether two lists begin with a tag of one name and two texts.
fn have_other_tags(model: &Model<'_, '_>, first: usize, second: usize) -> bool {
    match (tag_of(model, first), tag_of(model, second)) {
        (Some((name, text)), Some((other_name, other_text))) => {
            name == other_name && text != other_text
        }
        _ => false,
    }
}

/// The name and the text of the tag with which a list begins, if it does.
fn tag_of<'r, 'c>(model: &'r Model<'r, 'c>, list: usize) -> Option<(&'c str, &'c str)> {
    match model.list(list).parts.first()? {
        PlannedPart::Member(member) => match model.end(member.target)? {
            PlannedEnd::Tag(text) => Some((member.name, *text)),
            _ => None,
        },
        _ => None,
    }
}

/// Whether two targets may read one value: not if they have only objects in common, and of each two
/// lists one requires what the other can't have.
pub(crate) fn may_meet(
    model: &Model<'_, '_>,
    required: &Required<'_>,
    first: usize,
    second: usize,
) -> bool {
    let (one, other) = (model.atoms(first), model.atoms(second));
    if !one.has_only_objects() && !other.has_only_objects() {
        return true;
    }
    if one.anything || other.anything {
        return true;
    }
    one.objects.iter().any(|object| {
        other.objects.iter().any(|another| {
            can_have(model, required, *object, *another)
                && can_have(model, required, *another, *object)
        })
    })
}

/// Whether an object that a list reads can have what another requires.
fn can_have(
    model: &Model<'_, '_>,
    required: &Required<'_>,
    object: ObjectAtom,
    other: ObjectAtom,
) -> bool {
    let branch = model.branch_of(object);
    let may_have_others = object.ignores || model.list(branch).takes_rest;
    required.of(model.branch_of(other)).iter().all(|name| {
        model.list(branch).names.binary_search(name).is_ok()
            || (may_have_others && model.list(object.list).names.binary_search(name).is_err())
    })
}

/// Whether two alternatives may read one value by themselves, and not as branches.
pub(crate) fn compete(first: &PlannedAlternative<'_>, second: &PlannedAlternative<'_>) -> bool {
    match (first.kind, second.kind) {
        (PlannedKind::Joins, PlannedKind::Joins) => false,
        (PlannedKind::Fallback, PlannedKind::Fallback) => true,
        (PlannedKind::Fallback, _) | (_, PlannedKind::Fallback) => false,
        _ => true,
    }
}
