//! From an element of a document to a choice: a new solver is told the element's name, attributes,
//! child elements and texts, in whatever order, and its end is the answer.
ghost use Rattle.std.specs.Prelude.{◌≡◌, IfOk};
ghost use Rattle.facet_solver.specs.Keys.{key_of};
ghost use Rattle.facet_solver.specs.Resolutions.{is_known};
ghost use Rattle.facet_solver.specs.schema.ResolutionHandle.{IsHandleOf};
ghost use Rattle.facet_solver.specs.solver.State.{new_solver};
ghost use Rattle.facet_solver.specs.solver.Told.{see_keys};
ghost use Rattle.facet_solver_uses.specs.ElementToChoice.{child_part, key_of_part, keys_of_parts};
ghost use Rattle.facet_solver_uses.specs.KeysToChoice.{FindsChoice, IsChoiceVerdict};

use facet_solver::laws::{calls_are_made_one_by_one, told_choices_are_found};
use facet_solver::{FieldKey, Resolution, ResolutionHandle, Schema, Solver, SolverError};
use std::alloc::Global;

/// What an element has, as a reader of XML comes upon it.
#[derive(Clone, Copy, PartialEq, Eq, Debug)]
pub enum Part<'d> {
    /// The name of the element itself, for a field that is marked `tag`. It is told once.
    Tag,
    /// An attribute of a name.
    Attribute(&'d str),
    /// A child element of a name.
    Element(&'d str),
    /// A child element of a name that no resolution has an element of, for a field that is marked
    /// `elements`, which takes them all. [`child_part`] tells the two apart.
    Elements,
    /// A text that is not blank.
    Text,
}

impl<'d> Part<'d> {
    /// The key that a solver is told for the part. A reader that streams tells it by
    /// `Solver::see_key` as the part comes, and asks `Solver::finish` at the end of the element.
    pub fn key(self) -> FieldKey<'d>
        ensures { key_of result ≡ key_of_part self.entry }
    {
        match self {
            Part::Tag => FieldKey::tag(),
            Part::Attribute(name) => FieldKey::attribute(name),
            Part::Element(name) => FieldKey::element(name),
            Part::Elements => FieldKey::elements(),
            Part::Text => FieldKey::text(),
        }
    }
}

/// The part that a child element of a name is: `Element` where some resolution of the schema has an
/// element of the name, else `Elements`.
///
/// A catch-all is no element of a name. So where one resolution has a catch-all for elements, and
/// another a field that takes all elements, `Elements` leaves the second.
///
/// It asks one resolution after another, until one has the element.
pub fn child_part<'d>(schema: &Schema<'_>, name: &'d str) -> Part<'d>
    ensures { result ≡ child_part schema.now name.entry }
{
    if is_known(schema.resolutions(), &FieldKey::element(name)) {
        Part::Element(name)
    } else {
        Part::Elements
    }
}

/// Whether some resolution has a field that a key means.
fn is_known(resolutions: &[Resolution<'_>], key: &FieldKey<'_>) -> bool
    ensures { result ≡ is_known resolutions.now (key_of key.now) }
{
    resolutions
        .iter()
        .any(|resolution| resolution.field_by_key(key).is_some())
}

/// The choice that the parts of an element mean, in a schema of `Schema::build_dom` or another.
///
/// Answer, errors and cost are those of `keys_to_choice` for the keys of the parts. An attribute
/// never stands for an element of its name. A part that no resolution has a field for does no harm:
/// the name of the element where none is marked `tag`, a child where none is marked `elements`.
pub fn element_to_choice<'s, 'c>(
    alloc: Global,
    schema: &'s Schema<'c>,
    parts: &[Part<'_>],
) -> Result<ResolutionHandle<'s, 'c>, SolverError<'c>>
    ensures found { FindsChoice schema.now (keys_of_parts parts.now) result }
    ensures verdict { IsChoiceVerdict
        (see_keys (keys_of_parts parts.now) (new_solver schema.now)) result }
    ensures handle { IfOk result (IsHandleOf schema.now) }
{
    // What is known of told keys and of calls: what the contract follows from, beside `finish`.
    told_choices_are_found();
    calls_are_made_one_by_one();
    let mut solver = Solver::new(alloc, schema)?;
    for part in parts {
        solver.see_key(alloc, part.key())?;
    }
    solver.finish(alloc)
}
