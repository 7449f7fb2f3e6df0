//! A reader of the events of a document.
ghost use Rattle.std.specs.Prelude.{◌≡◌, ◌↔◌, [], Err, IfOk, OnErr, OnOk, false, ℕ};
ghost use Rattle.facet_solver.specs.Names.{Name};
ghost use Rattle.facet_solver.specs.solver.Told.{EndsWithOrNames};
ghost use Rattle.facet_solver_uses.specs.stream.Found.{FindsOrNames, FindsRead};
ghost use Rattle.facet_solver_uses.specs.stream.Events.{Ends, new_reader, read};
ghost use Rattle.facet_solver_uses.specs.stream.Place.{may_stand};
ghost use Rattle.facet_solver_uses.specs.declared.stream.event.Event.TheVariants.{Key, Scalar, Text};
ghost use Rattle.facet_solver_uses.specs.declared.stream.event.Refusal.TheVariants.{Misplaced};

use super::event::{Event, Refusal, Unread};
use super::place::{Frame, Place};
use super::tell::Teller;
use facet_solver::laws::{
    lists_are_the_only_ones, told_resolutions_are_found, viable_candidates_are_named,
};
use facet_solver::{ResolutionHandle, Schema, ShapeId};
use std::alloc::{AllocError, Global};
use std::marker::Model;

/// Reads the events of a document, and tells a solver what they mean.
#[derive(Drop)]
pub struct Reader<'s, 'c, 'd> {
    teller: Teller<'s, 'c, 'd>,
    place: Place<'d>,
}

impl<'s, 'c, 'd> Model for Reader<'s, 'c, 'd> {
    ghost use Rattle.std.specs.Coded.{codes};
    ghost use Rattle.facet_solver.specs.solver.State.{state_code};
    ghost use Rattle.facet_solver_uses.specs.stream.Events.{Reading};

    ghost Value = { Reading };

    ghost coded = { Prim.hlevel (codes, state_code) };

    ghost view = { λ r. record { state = r.teller; place = r.place } };
}

impl<'s, 'c, 'd> Reader<'s, 'c, 'd> {
    /// A reader that has read nothing.
    ///
    /// The only error is out of memory.
    pub fn new(alloc: Global, schema: &'s Schema<'c>) -> Result<Self, AllocError>
        ensures { IfOk result (λ reader. reader ≡ new_reader schema.now) }
    {
        let teller = Teller::new(alloc, schema)?;
        let place = Place::new(alloc)?;
        Ok(Reader { teller, place })
    }

    /// Reads an event.
    ///
    /// A key of the first level is seen. One below it is probed, if some candidate has it at the
    /// path of the keys above it, and no candidate without it may hide it there: an object may hide
    /// keys if it is an option, a pointer, an enum, a map or anything else that is not plainly a
    /// struct. A text of the first level is first taken for the name of a variant, with its key as
    /// the tag (`Solver::see_tag`). Any other text and scalar says which shapes fit at its path, if
    /// every candidate has a shape there. What lies in a list is ignored.
    ///
    /// The error is `Misplaced` where no such event can stand there: first comes the begin of an
    /// object, in an object a key or its end, behind a key its value, and in a list a value or its
    /// end. The other error is `OutOfMemory`. After an error the reader is as it was.
    pub fn event(&mut self, alloc: Global, event: Event<'d, '_>) -> Result<(), Refusal>
        ensures ok { OnOk result (self.new ≡ read event.entry self.old) }
        ensures err { OnErr result (self.new ≡ self.old) }
        ensures misplaced { (result ≡ Err Misplaced)
            ↔ (may_stand event.entry self.old.place ≡ false) }
    {
        if !self.place.may_stand(event) {
            return Err(Refusal::Misplaced);
        }
        match event {
            Event::Key(key) => self.key(alloc, key)?,
            Event::Object => self.place.begin(Frame::Object)?,
            Event::List => self.place.begin(Frame::List)?,
            Event::Scalar(shapes) => self.scalar(shapes),
            Event::Text(text, shapes) => self.text(alloc, text, shapes)?,
            Event::End => self.place.end(),
        }
        Ok(())
    }

    /// A key comes. Its member begins first, since what a solver is told can't be taken back.
    fn key(&mut self, alloc: Global, key: &'d str) -> Result<(), AllocError>
        ensures ok { OnOk result (self.new ≡ read (Key key.entry) self.old) }
        ensures err { OnErr result (self.new ≡ self.old) }
    {
        let is_told = !self.place.in_list();
        self.place.begin_member(key)?;
        if is_told && self.teller.key(alloc, self.place.path()).is_err() {
            self.place.end_member();
            return Err(AllocError);
        }
        Ok(())
    }

    /// A scalar comes, which is a value.
    fn scalar(&mut self, shapes: &[ShapeId])
        ensures { self.new ≡ read (Scalar shapes.entry) self.old }
    {
        if !self.place.in_list() {
            self.teller.scalar(self.place.path(), shapes);
        }
        self.place.end_value();
    }

    /// A text comes, which is a value.
    fn text(&mut self, alloc: Global, text: &str, shapes: &[ShapeId]) -> Result<(), AllocError>
        ensures ok { OnOk result (self.new ≡ read (Text text.entry shapes.entry) self.old) }
        ensures err { OnErr result (self.new ≡ self.old) }
    {
        if !self.place.in_list() {
            self.teller.text(alloc, self.place.path(), text, shapes)?;
        }
        self.place.end_value();
        Ok(())
    }

    /// The resolution that the document means. Where the document fits a choice, it is that of this
    /// choice, or `Ambiguous`, which has its description at its place.
    ///
    /// Errors: `Unfinished` where the document has not ended; otherwise that of the solver: it fits
    /// no resolution, or several, or there is no memory to say so. An `Ok` allocates nothing, so it
    /// does not run out of memory.
    pub fn finish(self, alloc: Global) -> Result<ResolutionHandle<'s, 'c>, Unread<'c>>
        ensures ends { Ends self.entry result }
        ensures found { FindsRead self.entry result }
    {
        // What is known of choices, of told keys and of the schema: `found` follows from these.
        lists_are_the_only_ones();
        told_resolutions_are_found();
        viable_candidates_are_named();
        let _ = self.teller.schema().resolutions();
        self.answer(alloc)
    }

    /// That answer, by the place and the state of the solver.
    fn answer(self, alloc: Global) -> Result<ResolutionHandle<'s, 'c>, Unread<'c>>
        ensures ends { Ends self.entry result }
        ensures found { (index : ℕ) (text : Name) → self.entry.place.frames ≡ []
            → EndsWithOrNames self.entry.state index text
            → FindsOrNames self.entry.state index text result }
    {
        if !self.place.is_end() {
            return Err(Unread::Unfinished);
        }
        Ok(self.teller.solver.finish(alloc)?)
    }
}
