//! Counts that are known: how often a value is read as a shape, or as the content of a variant.
ghost use Rattle.std.specs.Prelude.{◌≡◌, [], IfSome, OnOk, OnErr};
ghost use Rattle.facet_solver_reader.specs.Memo.{IsEntryAdded, IsNoted, asked_view};

use crate::count::Count;
use facet_solver_shape::ShapeId;
use std::alloc::{AllocError, Global};

/// What a value was read as. A tag is not kept, since it is told by its text at once.
#[derive(Clone, Copy, PartialEq, Eq, Debug)]
pub(crate) enum Asked {
    /// A shape.
    Shape(ShapeId),
    /// The content of a variant of an enum, by the variant's index.
    Content(ShapeId, usize),
}

impl Asked {
    /// A number that tells apart most of what is asked of one value.
    fn key(&self) -> usize {
        match self {
            Asked::Shape(shape) => shape.index(),
            Asked::Content(shape, variant) => shape.index().wrapping_add(*variant),
        }
    }
}

/// How often a value is read as what was asked.
#[derive(Clone, Copy, Debug)]
pub(crate) struct MemoEntry {
    pub(crate) node: usize,
    pub(crate) asked: Asked,
    pub(crate) count: Count,
}

/// The ways on from an entry, by a bit of the key that is sought: to one more than the index of a
/// later entry of the same value, or 0.
#[derive(Clone, Copy, Debug)]
struct Ways {
    zero: usize,
    one: usize,
}

impl Ways {
    /// The way on by the lowest bit of a key.
    fn by(&self, key: usize) -> usize {
        if key % 2 == 0 { self.zero } else { self.one }
    }

    /// Leads that way to a number.
    fn lead(&mut self, key: usize, number: usize) {
        if key % 2 == 0 {
            self.zero = number;
        } else {
            self.one = number;
        }
    }
}

/// The counts of the values of one document.
///
/// Those of a value are a tree by the bits of what was asked, so that one is found in a few steps,
/// however much was asked of the value. No clause says so: a count that no way leads to would be
/// found anew.
#[derive(Debug, Drop)]
pub(crate) struct Memo {
    /// How many values the document has.
    nodes: usize,
    /// One more than the index of the first entry of each value, or 0. It is empty until a count is
    /// kept.
    first: Vec<usize>,
    entries: Vec<MemoEntry>,
    /// Those of each entry.
    ways: Vec<Ways>,
}

impl Memo {
    /// No counts, of so many values. It takes no memory until one is kept.
    pub(crate) fn new(alloc: Global, nodes: usize) -> Memo
        ensures { result.entries.items ≡ [] }
    {
        Memo {
            nodes,
            first: Vec::new(alloc),
            entries: Vec::new(alloc),
            ways: Vec::new(alloc),
        }
    }

    /// How often a value is read as what is asked, if that is known.
    pub(crate) fn get(&self, node: usize, asked: &Asked) -> Option<Count>
        ensures { IfSome result (IsNoted self.now.entries.items node (asked_view asked.now)) }
    {
        let mut cursor = *self.first.get(node)?;
        let mut key = asked.key();
        while cursor > 0 {
            let entry = self.entries.get(cursor - 1)?;
            if entry.node == node && entry.asked == *asked {
                return Some(entry.count);
            }
            let next = self.ways.get(cursor - 1)?.by(key);
            // A way on leads to a later entry, so that it ends.
            if next <= cursor {
                return None;
            }
            cursor = next;
            key /= 2;
        }
        None
    }

    /// Keeps how often a value is read as what was asked.
    pub(crate) fn put(&mut self, node: usize, asked: &Asked, count: Count) -> Result<(), AllocError>
        ensures ok { OnOk result (IsEntryAdded node (asked_view asked.now) count
            self.old.entries.items self.new.entries.items) }
        ensures err { OnErr result (self.new.entries.items ≡ self.old.entries.items) }
    {
        if self.first.is_empty() {
            self.first.resize(self.nodes, 0)?;
        }
        self.ways.push(Ways { zero: 0, one: 0 })?;
        self.entries.push(MemoEntry {
            node,
            asked: *asked,
            count,
        })?;
        let number = self.entries.len();
        if let Some(first) = self.first.get_mut(node) {
            if *first == 0 {
                *first = number;
            } else {
                lead(&mut self.ways, *first, asked.key(), number);
            }
        }
        Ok(())
    }
}

/// Leads the way of a key, from an entry on, to a new one.
fn lead(ways: &mut Vec<Ways>, first: usize, key: usize, number: usize) {
    let mut cursor = first;
    let mut key = key;
    while cursor > 0 && cursor < number {
        let Some(way) = ways.get_mut(cursor - 1) else {
            return;
        };
        let next = way.by(key);
        if next <= cursor {
            way.lead(key, number);
            return;
        }
        cursor = next;
        key /= 2;
    }
}
