//! Names in an order, and at which places each of them stands.
ghost use Rattle.std.specs.Prelude.{◌≡◌, ◌<◌, IfOk, length};
ghost use Rattle.facet_solver_shape.specs.Names.{names_of};
ghost use Rattle.facet_solver_types.specs.Links.{place_in};
ghost use Rattle.facet_solver_types.specs.NamePlaces.{HasFirst, HasNext, has_name, places_of};

use std::alloc::{AllocError, Global};
use std::collections::BTreeMap;

/// So many names are gone through faster than they are looked up.
pub(crate) const FEW_NAMES: usize = 8;

/// Names in an order, with the places of each, unless they are few.
#[derive(Drop)]
pub(crate) struct NamePlaces<'n> {
    names: Vec<&'n str>,
    /// The first place of each name.
    first: BTreeMap<&'n str, usize>,
    /// For each place the next one of the same name, or else the number of names.
    next: Vec<usize>,
    ghost has_first: { 8 < length names.items → HasFirst (names_of names.items) 0 first },
    ghost has_next: { 8 < length names.items → HasNext (names_of names.items) 0 next.items },
}

/// The place of a name among names, or their number where it is none of them.
fn place_in(names: &[&str], name: &str) -> usize
    ensures { result ≡ place_in (names_of names.now) name.now }
{
    for (place, other) in names.iter().enumerate() {
        if *other == name {
            return place;
        }
    }
    names.len()
}

/// The places of a name among names.
fn places_of(alloc: Global, names: &[&str], name: &str) -> Result<Vec<usize>, AllocError>
    ensures { IfOk result (λ found. found.items ≡ places_of name.now (names_of names.now)) }
{
    let mut found = Vec::new(alloc);
    for (place, other) in names.iter().enumerate() {
        if *other == name {
            found.push(place)?;
        }
    }
    Ok(found)
}

impl<'n> NamePlaces<'n> {
    /// Few names, which are gone through, or more with their places.
    pub(crate) fn new(alloc: Global, names: Vec<&'n str>) -> Result<Self, AllocError>
        ensures { IfOk result (λ places. places.names.items ≡ names.entry.items) }
    {
        let mut first = BTreeMap::new(alloc);
        if names.len() <= FEW_NAMES {
            let next = Vec::new(alloc);
            return Ok(NamePlaces { names, first, next });
        }
        let mut next = vec![in alloc; 0; names.len()]?;
        let mut place = names.len();
        while place > 0 {
            place -= 1;
            let later = first.insert(names[place], place)?;
            next[place] = later.unwrap_or(names.len());
        }
        Ok(NamePlaces { names, first, next })
    }

    /// The first place of a name, or the number of names where it is none of them.
    pub(crate) fn place_in(&self, name: &str) -> usize
        ensures { result ≡ place_in (names_of self.now.names.items) name.now }
    {
        if self.names.len() <= FEW_NAMES {
            return place_in(&self.names, name);
        }
        match self.first.get(name) {
            Some(place) => *place,
            None => self.names.len(),
        }
    }

    /// Whether a name is one of them.
    pub(crate) fn contains(&self, name: &str) -> bool
        ensures { result ≡ has_name (names_of self.now.names.items) name.now }
    {
        self.place_in(name) < self.names.len()
    }

    /// The places of a name.
    pub(crate) fn places_of(&self, alloc: Global, name: &str) -> Result<Vec<usize>, AllocError>
        ensures { IfOk result (λ found. found.items
            ≡ places_of name.now (names_of self.now.names.items)) }
    {
        if self.names.len() <= FEW_NAMES {
            return places_of(alloc, &self.names, name);
        }
        let mut found = Vec::new(alloc);
        let mut place = self.place_in(name);
        while place < self.names.len() {
            found.push(place)?;
            place = self.next[place];
        }
        Ok(found)
    }
}
