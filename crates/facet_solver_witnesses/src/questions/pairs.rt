//! What two targets have in common, by kinds of values.
use crate::model::Model;
use crate::model::atoms::{Atoms, ListAtom, ObjectAtom};
use crate::model::wide::{Interval, Wide, common};
use crate::object::{Forced, Found, common_object};
use crate::questions::recipe::{Kind, Recipe};
use crate::questions::{Answer, Made, Question, Questions};
use std::alloc::{AllocError, Global};

/// What is asked, and how far: an answer that is used is at least the least one.
#[derive(Clone, Copy)]
pub(crate) struct Asking<'r, 'c> {
    pub(crate) alloc: Global,
    pub(crate) model: &'r Model<'r, 'c>,
    /// The number of the question that is answered.
    pub(crate) number: usize,
    pub(crate) least: Answer,
    /// How many steps a search may take.
    pub(crate) budget: usize,
}

/// What each of two targets reads.
pub(crate) fn atoms_of_both<'r, 'c>(
    model: &'r Model<'r, 'c>,
    first: usize,
    second: usize,
) -> Option<(&'r Atoms<'c>, &'r Atoms<'c>)> {
    Some((model.atoms.get(first)?, model.atoms.get(second)?))
}

/// A value without others within that answers a question, if there is one.
pub(crate) fn simple_recipe<'c>(model: &Model<'_, 'c>, question: Question) -> Option<Made<'c>> {
    let (first, second, is_null_out) = match question {
        Question::Values(first, second) => (first, second, false),
        Question::NotNull(first, second) => (first, second, true),
        Question::Branches(..) | Question::NotEmpty(..) => return None,
    };
    let (first, second) = atoms_of_both(model, first, second)?;
    for kind in [
        Kind::Null,
        Kind::Truth,
        Kind::Whole,
        Kind::Fraction,
        Kind::Text,
    ] {
        if kind == Kind::Null && is_null_out {
            continue;
        }
        if let Some(recipe) = simple_of_kind(kind, first, second) {
            return Some(Made { recipe, size: 1 });
        }
    }
    None
}

/// A value of a kind without others within that both read.
pub(crate) fn simple_of_kind<'c>(
    kind: Kind,
    first: &Atoms<'c>,
    second: &Atoms<'c>,
) -> Option<Recipe<'c>> {
    let both = |one: bool, other: bool| (first.anything || one) && (second.anything || other);
    match kind {
        Kind::Null if both(first.null, second.null) => Some(Recipe::Null),
        Kind::Truth if both(first.truth, second.truth) => Some(Recipe::Truth),
        Kind::Fraction if both(first.fraction, second.fraction) => Some(Recipe::Fraction),
        Kind::Whole => Some(Recipe::Whole(common_whole(first, second)?)),
        Kind::Text => Some(Recipe::Text(common_text(first, second)?)),
        _ => None,
    }
}

/// A whole number that both read.
fn common_whole(first: &Atoms<'_>, second: &Atoms<'_>) -> Option<Wide> {
    let all = [Interval::all()];
    let first = if first.anything {
        &all
    } else {
        first.wholes.as_slice()
    };
    let second = if second.anything {
        &all
    } else {
        second.wholes.as_slice()
    };
    common(first, second)
}

/// A text that both read.
fn common_text<'c>(first: &Atoms<'c>, second: &Atoms<'c>) -> Option<&'c str> {
    let first_all = first.anything || first.text;
    let second_all = second.anything || second.text;
    if first_all && second_all {
        return Some("");
    }
    let first_one = first_all || first.character;
    let second_one = second_all || second.character;
    if first_one && second_one {
        return Some("a");
    }
    word_of(first, second).or(word_of(second, first))
}

/// A word of the one that the other reads.
fn word_of<'c>(words: &Atoms<'c>, other: &Atoms<'c>) -> Option<&'c str> {
    for word in &words.words {
        if other.anything
            || other.text
            || (other.character && word.chars().count() == 1)
            || other.words.binary_search(word).is_ok()
        {
            return Some(*word);
        }
    }
    None
}

/// A value of a kind that both targets read.
pub(crate) fn common_of_kind<'c>(
    asking: &Asking<'_, 'c>,
    questions: &mut Questions<'c>,
    kind: Kind,
    first: usize,
    second: usize,
) -> Result<Found<'c>, AllocError> {
    match kind {
        Kind::List => common_list(asking, questions, first, second),
        Kind::Object => common_objects(asking, questions, first, second, Forced::Nothing),
        _ => {
            let Some((first, second)) = atoms_of_both(asking.model, first, second) else {
                return Ok(Found::None);
            };
            match simple_of_kind(kind, first, second) {
                Some(recipe) => Ok(Found::Value(Made { recipe, size: 1 })),
                None => Ok(Found::None),
            }
        }
    }
}

/// A list that both targets read.
fn common_list<'c>(
    asking: &Asking<'_, 'c>,
    questions: &mut Questions<'c>,
    first: usize,
    second: usize,
) -> Result<Found<'c>, AllocError> {
    let model = asking.model;
    let mut found = Found::None;
    let Some((first, second)) = atoms_of_both(model, first, second) else {
        return Ok(found);
    };
    let any = [ListAtom::Each(model.anything)];
    let firsts = lists_of(first, &any);
    let seconds = lists_of(second, &any);
    for one in firsts {
        for other in seconds {
            if let Some(made) = list_of(asking, questions, *one, *other)? {
                found = found.smaller(made);
            }
        }
    }
    Ok(found)
}

/// The lists that atoms read; those of any value where they read that.
fn lists_of<'r>(atoms: &'r Atoms<'_>, any: &'r [ListAtom]) -> &'r [ListAtom] {
    if atoms.anything { any } else { &atoms.lists }
}

/// How many items the lists have that two atoms read; `None` where they are not as many.
fn common_len(model: &Model<'_, '_>, first: ListAtom, second: ListAtom) -> Option<usize> {
    match (first, second) {
        (ListAtom::Each(_), ListAtom::Each(_)) => Some(0),
        (ListAtom::Tuple(tuple), ListAtom::Each(_)) | (ListAtom::Each(_), ListAtom::Tuple(tuple)) =>
            { Some(model.tuple(tuple).len()) }
        (ListAtom::Tuple(one), ListAtom::Tuple(other)) => {
            let len = model.tuple(one).len();
            if model.tuple(other).len() == len {
                Some(len)
            } else {
                None
            }
        }
    }
}

/// The target of an item of a list.
fn item_of(model: &Model<'_, '_>, list: ListAtom, index: usize) -> usize {
    match list {
        ListAtom::Each(item) => item,
        ListAtom::Tuple(target) => model
            .tuple(target)
            .get(index)
            .copied()
            .unwrap_or(model.anything),
    }
}

/// A list that two atoms read.
fn list_of<'c>(
    asking: &Asking<'_, 'c>,
    questions: &mut Questions<'c>,
    first: ListAtom,
    second: ListAtom,
) -> Result<Option<Made<'c>>, AllocError> {
    let model = asking.model;
    let Some(len) = common_len(model, first, second) else {
        return Ok(None);
    };
    let mut items = Vec::new(asking.alloc);
    let mut size: u64 = 1;
    for index in 0..len {
        let one = item_of(model, first, index);
        let other = item_of(model, second, index);
        let met = questions.meet(asking.alloc, model, asking.number, one, other)?;
        if met.answer < asking.least {
            return Ok(None);
        }
        items.push(met.value)?;
        size = size.saturating_add(met.size);
    }
    let recipe = Recipe::List(items);
    Ok(Some(Made { recipe, size }))
}

/// An object that both targets read, with a member that it is to have.
pub(crate) fn common_objects<'c>(
    asking: &Asking<'_, 'c>,
    questions: &mut Questions<'c>,
    first: usize,
    second: usize,
    forced: Forced<'c>,
) -> Result<Found<'c>, AllocError> {
    let model = asking.model;
    let Some((firsts, seconds)) = atoms_of_both(model, first, second) else {
        return Ok(Found::None);
    };
    if firsts.anything {
        return smallest_object(asking.alloc, model, &seconds.objects, seconds.anything);
    }
    if seconds.anything {
        return smallest_object(asking.alloc, model, &firsts.objects, false);
    }
    let mut found = Found::None;
    for one in &firsts.objects {
        for other in &seconds.objects {
            found = found.or(common_object(asking, questions, *one, *other, forced)?);
        }
    }
    Ok(found)
}

/// The smallest object that any value and some atoms read.
fn smallest_object<'c>(
    alloc: Global,
    model: &Model<'_, 'c>,
    objects: &[ObjectAtom],
    is_any: bool,
) -> Result<Found<'c>, AllocError> {
    if is_any {
        return Ok(Found::Value(Made {
            recipe: Recipe::Object(Vec::new(alloc)),
            size: 1,
        }));
    }
    let mut found = Found::None;
    for object in objects {
        if let Some(Some(size)) = model.sizes.lists.get(model.branch_of(*object)) {
            found = found.smaller(Made {
                recipe: Recipe::Smallest(*object),
                size: size.saturating_add(1),
            });
        }
    }
    Ok(found)
}
