//! Lists for objects that are read by no list of the type: those of a variant that is named, of a
//! map, and without members.
use facet_solver_reader::{
    PlannedCatchAll, PlannedList, PlannedMember, PlannedName, PlannedPart, PlannedSelection,
    TypeName,
};
use std::alloc::{AllocError, Global};

/// Lists that are made, which are to stand behind those of a type.
#[derive(Drop)]
pub(crate) struct MadeLists<'c> {
    /// How many lists the type has.
    before: usize,
    pub(crate) lists: Vec<PlannedList<'c>>,
}

impl<'c> MadeLists<'c> {
    /// None, behind so many lists.
    pub(crate) fn new(alloc: Global, before: usize) -> MadeLists<'c> {
        MadeLists {
            before,
            lists: Vec::new(alloc),
        }
    }

    /// The number of the next list.
    fn next(&self) -> usize {
        self.before.saturating_add(self.lists.len())
    }

    /// Adds a list. Its number is the result.
    fn push(&mut self, list: PlannedList<'c>) -> Result<usize, AllocError> {
        let number = self.next();
        match self.lists.push(list) {
            Ok(()) => Ok(number),
            Err(_) => Err(AllocError),
        }
    }

    /// Adds the list of objects without members.
    pub(crate) fn push_empty(
        &mut self,
        alloc: Global,
        name: TypeName<'c>,
    ) -> Result<usize, AllocError> {
        let below = vec![in alloc; self.next()]?;
        self.push(PlannedList {
            name,
            parts: Vec::new(alloc),
            names: Vec::new(alloc),
            takes_rest: false,
            below,
        })
    }

    /// Adds the list of a map.
    pub(crate) fn push_map(
        &mut self,
        alloc: Global,
        name: TypeName<'c>,
        catch_all: PlannedCatchAll,
    ) -> Result<usize, AllocError> {
        let below = vec![in alloc; self.next()]?;
        self.push(PlannedList {
            name,
            parts: one_part(alloc, PlannedPart::CatchAll(catch_all))?,
            names: Vec::new(alloc),
            takes_rest: true,
            below,
        })
    }

    /// Adds the list of objects of one member that names a variant.
    pub(crate) fn push_named(
        &mut self,
        alloc: Global,
        name: TypeName<'c>,
        variants: &[PlannedName<'c>],
    ) -> Result<usize, AllocError> {
        let mut branches = Vec::with_capacity(alloc, variants.len())?;
        let mut names = Vec::with_capacity(alloc, variants.len())?;
        for variant in variants {
            branches.push(self.push_variant(alloc, variant)?)?;
            names.push(variant.text)?;
        }
        names.sort_unstable();
        names.dedup();
        let mut below = Vec::from_slice(alloc, &branches)?;
        below.push(self.next())?;
        let selection = PlannedPart::Selection(PlannedSelection {
            field: "",
            optional: false,
            branches,
            names: Vec::from_slice(alloc, &names)?,
        });
        self.push(PlannedList {
            name,
            parts: one_part(alloc, selection)?,
            names,
            takes_rest: false,
            below,
        })
    }

    /// Adds the list of objects whose only member names one variant.
    fn push_variant(
        &mut self,
        alloc: Global,
        variant: &PlannedName<'c>,
    ) -> Result<usize, AllocError> {
        let below = vec![in alloc; self.next()]?;
        let member = PlannedPart::Member(PlannedMember {
            name: variant.text,
            required: true,
            target: variant.content,
        });
        self.push(PlannedList {
            name: variant.name,
            parts: one_part(alloc, member)?,
            names: vec![in alloc; variant.text]?,
            takes_rest: false,
            below,
        })
    }
}

/// One part.
fn one_part<'c>(alloc: Global, part: PlannedPart<'c>) -> Result<Vec<PlannedPart<'c>>, AllocError> {
    let mut parts = Vec::new(alloc);
    match parts.push(part) {
        Ok(()) => Ok(parts),
        Err(_) => Err(AllocError),
    }
}
