//! The names of fields that are still to be gone through, as key paths are made from name to name.
ghost use Rattle.std.specs.Prelude.{◌≡◌};
ghost use Rattle.std.specs.Map.Iter.{TakesLast};
ghost use Rattle.facet_solver.specs.build.NestedLevels.{names_left, shown};
ghost use Rattle.facet_solver.specs.build.NestedNames.{AreRising};

use crate::build::nested::by_name::{FieldsByName, NamedShapes};
use crate::build::nested::shapes_behind::ShapesBehind;
use std::borrow::Cow;

/// The names that are left of fields by name, with the shapes behind each.
#[derive(Drop)]
pub(crate) enum NamesLeft<'t, 'c> {
    /// Of the fields of an entry.
    OfEntry(&'t [NamedShapes<'c>]),
    /// Of the fields of several entries, which were taken together.
    Together(Vec<NamedShapes<'c>>),
}

impl<'t, 'c> NamesLeft<'t, 'c> {
    /// All names of the fields of an entry.
    pub(crate) fn of_entry(fields: &'t FieldsByName<'c>) -> Self
        ensures names { names_left result ≡ fields.now.by_name.items }
        ensures rise { AreRising (names_left result) }
    {
        NamesLeft::OfEntry(fields.by_name.as_slice())
    }

    /// All names of fields that were taken together.
    pub(crate) fn together(fields: FieldsByName<'c>) -> Self
        ensures names { names_left result ≡ fields.entry.by_name.items }
        ensures rise { AreRising (names_left result) }
    {
        NamesLeft::Together(fields.by_name)
    }

    /// Takes the last name, with the shapes behind it.
    pub(crate) fn take_last(&mut self) -> Option<(&'c str, Cow<'t, ShapesBehind>)>
        ensures { TakesLast shown (names_left self.old) result (names_left self.new) }
    {
        match self {
            NamesLeft::OfEntry(left) => {
                let (name, shapes) = left.split_off_last()?;
                Some((*name, Cow::Borrowed(shapes)))
            }
            NamesLeft::Together(left) => {
                let (name, shapes) = left.pop()?;
                Some((name, Cow::Owned(shapes)))
            }
        }
    }
}

/// A name that key paths are made behind, and the names that are left beside it.
#[derive(Drop)]
pub(crate) struct Level<'t, 'c> {
    pub(crate) name: &'c str,
    pub(crate) beside: NamesLeft<'t, 'c>,
}
