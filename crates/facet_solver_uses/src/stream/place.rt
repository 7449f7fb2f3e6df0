//! Where a reader of a document is.
ghost use Rattle.std.specs.Prelude.{◌≡◌, ◌↔◌, ◌++◌, ◌∷◌, [], IfOk, IsTrue, OnErr, OnOk};
ghost use Rattle.facet_solver.specs.Names.{names_of};
ghost use Rattle.facet_solver_uses.specs.stream.Place.{at, beginning, behind, in_list, may_stand, may_stand_in, value_ended, without_last};
ghost use Rattle.facet_solver_uses.specs.declared.stream.event.Event.TheVariants.{Key};

use super::event::Event;
use std::alloc::{AllocError, Global};
use std::marker::Model;

/// What is open at a place of a document.
#[derive(Clone, Copy)]
pub(super) enum Frame {
    // The document, whose object has not ended.
    Document,
    // An object.
    Object,
    // A member of an object, whose value has not ended.
    Member,
    // A list.
    List,
}

/// A place in a document: what is open there and the keys that lead there, both from the root.
#[derive(Drop)]
pub(super) struct Place<'d> {
    frames: Vec<Frame>,
    path: Vec<&'d str>,
}

impl<'d> Model for Place<'d> {
    ghost use Rattle.facet_solver.specs.Names.{names_of};
    ghost use Rattle.facet_solver_uses.specs.stream.Place.{PlaceView, at};

    ghost Value = { PlaceView };

    ghost view = { λ p. at p.frames.items (names_of p.path.items) };
}

impl<'d> Place<'d> {
    /// Where a document begins.
    pub(super) fn new(alloc: Global) -> Result<Self, AllocError>
        ensures { IfOk result (λ place. place ≡ beginning) }
    {
        let mut frames = Vec::new(alloc);
        frames.push(Frame::Document)?;
        Ok(Place {
            frames,
            path: Vec::new(alloc),
        })
    }

    /// Whether the document has ended.
    pub(super) fn is_end(&self) -> bool
        ensures { IsTrue result ↔ (self.now.frames ≡ []) }
    {
        self.frames.is_empty()
    }

    /// Whether an event may stand there.
    pub(super) fn may_stand(&self, event: Event<'_, '_>) -> bool
        ensures { result ≡ may_stand event.entry self.now }
    {
        may_stand_in(event, self.frames.last().copied())
    }

    /// Whether it lies in a list, at whatever depth.
    pub(super) fn in_list(&self) -> bool
        ensures { result ≡ in_list self.now }
    {
        for frame in &self.frames {
            if let Frame::List = frame {
                return true;
            }
        }
        false
    }

    /// The keys that lead there.
    pub(super) fn path(&self) -> &[&'d str]
        ensures { names_of result.now ≡ self.now.path }
    {
        &self.path
    }

    /// Something begins.
    pub(super) fn begin(&mut self, frame: Frame) -> Result<(), AllocError>
        ensures ok { OnOk result
            (self.new ≡ at (self.old.frames ++ frame ∷ []) self.old.path) }
        ensures err { OnErr result (self.new ≡ self.old) }
    {
        self.frames.push(frame)?;
        Ok(())
    }

    /// A member begins.
    pub(super) fn begin_member(&mut self, key: &'d str) -> Result<(), AllocError>
        ensures ok { OnOk result (self.new ≡ behind (Key key.entry) self.old) }
        ensures err { OnErr result (self.new ≡ self.old) }
    {
        self.path.push(key)?;
        if self.frames.push(Frame::Member).is_err() {
            self.path.pop();
            return Err(AllocError);
        }
        Ok(())
    }

    /// A member ends.
    pub(super) fn end_member(&mut self)
        ensures { self.new ≡ at (without_last self.old.frames) (without_last self.old.path) }
    {
        self.frames.pop();
        self.path.pop();
    }

    /// A value ends, and with it the member that it is of, or the document.
    pub(super) fn end_value(&mut self)
        ensures { self.new ≡ value_ended self.old }
    {
        match self.frames.last() {
            Some(Frame::Member) => self.end_member(),
            Some(Frame::Document) => {
                self.frames.pop();
            }
            _ => {}
        }
    }

    /// An object or a list ends, which is a value.
    pub(super) fn end(&mut self)
        ensures { self.new ≡ value_ended (at (without_last self.old.frames) self.old.path) }
    {
        self.frames.pop();
        self.end_value();
    }
}

/// Whether an event may stand in what is open innermost.
fn may_stand_in(event: Event<'_, '_>, innermost: Option<Frame>) -> bool
    ensures { result ≡ may_stand_in event.entry innermost }
{
    match event {
        Event::Key(_) => matches!(innermost, Some(Frame::Object)),
        Event::Object => matches!(
            innermost,
            Some(Frame::Document | Frame::Member | Frame::List)
        ),
        Event::List | Event::Scalar(_) | Event::Text(..) => {
            matches!(innermost, Some(Frame::Member | Frame::List))
        }
        Event::End => matches!(innermost, Some(Frame::Object | Frame::List)),
    }
}
