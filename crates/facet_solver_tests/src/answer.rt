//! The answer to a line: the words of its call, as they are read, and the text that is told.
//!
//! What stands in the way of an answer is noted in it, so that nothing that reads words or tells
//! has to say so itself.

use crate::marks;
use facet_solver::{Resolution, ShapeId};
use std::alloc::Global;
use std::fmt::{Debug, Display, Write};
use std::str::SplitWhitespace;
use std::{fmt, mem};

/// What the lines of a text that is wanted begin with.
pub const BAR: &str = "|";

/// How a line went, or a check.
#[derive(Clone, Copy)]
pub enum Outcome {
    /// What is wanted came.
    Held,
    /// Out of memory. What the line is about is as it was before.
    Refused,
    /// A call that ran out of memory left something else than it found, or had no need of memory.
    Broken,
    /// A word is missing, or means nothing where it stands.
    Unread,
    /// Something else came than is wanted.
    Wrong,
}

/// One line of a file, or the first of a text that is wanted.
#[derive(Clone, Copy)]
pub struct Line<'t> {
    /// Its number in the file, from 1.
    pub number: usize,
    /// Its text, without blanks at its ends. Where a text is wanted: all of the file from there on.
    pub text: &'t str,
}

/// The answer to a line.
#[derive(Drop)]
pub struct Answer<'t> {
    pub alloc: Global,
    pub line: Line<'t>,
    /// What is called, before the colon.
    pub call: &'t str,
    /// The answer that is wanted, behind it.
    wanted: &'t str,
    /// The words of the call that are not read yet.
    pub words: SplitWhitespace<'t>,
    /// The path that was read last.
    pub path: Vec<&'t str>,
    /// The types that were read last.
    pub shapes: Vec<ShapeId>,
    pub outcome: Outcome,
    /// What is told so far.
    pub text: String,
    /// What was told of the state before a call.
    state: String,
    /// The text of the last error.
    error: String,
}

impl Write for Answer<'_> {
    fn write_str(&mut self, part: &str) -> fmt::Result {
        self.put(part);
        Ok(())
    }
}

impl<'t> Answer<'t> {
    /// The answer to no line yet.
    pub fn new(alloc: Global) -> Self {
        Answer {
            alloc,
            line: Line {
                number: 0,
                text: "",
            },
            call: "",
            wanted: "",
            words: "".split_whitespace(),
            path: Vec::new(alloc),
            shapes: Vec::new(alloc),
            outcome: Outcome::Held,
            text: String::new(alloc),
            state: String::new(alloc),
            error: String::new(alloc),
        }
    }

    /// Begins the answer to a line.
    pub fn begin(&mut self, line: Line<'t>) {
        let (call, wanted) = parts(line.text);
        self.line = line;
        self.call = call;
        self.wanted = wanted;
        self.words = call.split_whitespace();
        self.text.clear();
        self.outcome = Outcome::Held;
    }

    /// Begins it again where a call said that it was out of memory, and tells whether that is so.
    pub fn begins_again(&mut self) -> bool {
        let is_refused = matches!(self.outcome, Outcome::Refused);
        if is_refused {
            marks::out_of_memory(self.alloc);
            self.begin(self.line);
        }
        is_refused
    }

    /// Whether nothing stands in the way so far.
    pub fn holds(&self) -> bool {
        matches!(self.outcome, Outcome::Held)
    }

    fn note(&mut self, outcome: Outcome) {
        if self.holds() {
            self.outcome = outcome;
        }
    }

    /// Notes that a call was out of memory.
    pub fn refused(&mut self) {
        self.note(Outcome::Refused);
    }

    /// Notes that a word is missing, or means nothing.
    pub fn unread(&mut self) {
        self.note(Outcome::Unread);
    }

    /// Notes that a call which ran out of memory left something else than it found, or had no need
    /// of memory.
    pub fn broken(&mut self) {
        self.note(Outcome::Broken);
    }

    /// Tells a part. What runs out of memory is tried again at once.
    pub fn put(&mut self, part: &str) {
        if self.text.push_str(part).is_err() && self.text.push_str(part).is_err() {
            self.refused();
        }
    }

    /// Tells a value.
    pub fn put_value<T: Display>(&mut self, value: &T) {
        let _ = write!(self, "{value}");
    }

    /// Tells a part, behind a blank if it is not the first.
    pub fn add(&mut self, part: &str) {
        if !self.text.is_empty() {
            self.put(" ");
        }
        self.put(part);
    }

    /// Tells some parts, so.
    pub fn add_all(&mut self, parts: &[&str]) {
        for part in parts {
            self.add(part);
        }
    }

    /// Tells a value, behind a blank if it is not the first.
    pub fn add_value<T: Display>(&mut self, value: &T) {
        self.add("");
        self.put_value(value);
    }

    /// Tells a value as it is printed to find faults.
    pub fn add_debug<T: Debug>(&mut self, value: &T) {
        self.add("");
        let _ = write!(self, "{value:?}");
    }

    /// Tells `yes` or `no`.
    pub fn add_yes_or_no(&mut self, holds: bool) {
        self.add(if holds { "yes" } else { "no" });
    }

    /// Tells how the library describes a resolution, which is tried twice.
    pub fn add_description(&mut self, resolution: &Resolution<'_>) {
        for _ in 0..2 {
            if let Ok(description) = resolution.describe(self.alloc) {
                self.add(description.as_str());
                return;
            }
            marks::out_of_memory(self.alloc);
        }
        self.refused();
    }

    /// What is told so far, which is then nothing.
    pub fn take(&mut self) -> String {
        mem::replace(&mut self.text, String::new(self.alloc))
    }

    /// A text that is the same.
    pub fn copied(&mut self, text: &str) -> String {
        self.put(text);
        self.take()
    }

    /// Adds an item to a list. What runs out of memory is tried again at once.
    pub fn push<T: Drop>(&mut self, list: &mut Vec<T>, item: T) {
        if let Err(refused) = list.push(item) {
            if list.push(refused.value).is_err() {
                self.refused();
            }
        }
    }

    /// Keeps what is told of the state before a call.
    pub fn keep_state(&mut self) {
        self.state = self.take();
    }

    /// Notes where what is told of the state is not what was kept.
    pub fn compare_state(&mut self) {
        if self.text.as_str() != self.state.as_str() {
            self.broken();
        }
        self.text.clear();
    }

    /// Keeps the text of an error.
    pub fn keep_error<T: Display>(&mut self, error: &T) {
        self.put_value(error);
        self.error = self.take();
    }

    /// Tells the text of the last error, each line behind a bar and a blank. An empty line is a bar
    /// alone.
    pub fn add_error(&mut self) {
        let error = mem::replace(&mut self.error, String::new(self.alloc));
        for line in error.as_str().split('\n') {
            self.add_barred(line);
        }
        self.error = error;
    }

    fn add_barred(&mut self, line: &str) {
        if !self.text.is_empty() {
            self.put("\n");
        }
        self.put(BAR);
        if !line.is_empty() {
            self.add(line);
        }
    }

    /// Notes where something else is told so far than is claimed, and begins anew.
    pub fn claim(&mut self, wanted: &'t str) {
        self.wanted = wanted;
        self.compare();
        if self.holds() {
            self.text.clear();
        }
    }

    /// Compares the answer with what is wanted. No word of the call may be left.
    pub fn compare(&mut self) {
        if self.words.next().is_some() {
            self.unread();
        } else if !self.is_wanted() {
            self.note(Outcome::Wrong);
        }
    }

    fn is_wanted(&self) -> bool {
        if self.call != BAR {
            return self.text.as_str() == self.wanted;
        }
        match self.line.text.strip_prefix(self.text.as_str()) {
            Some(behind) => {
                behind.is_empty() || (behind.starts_with('\n') && !behind.starts_with("\n|"))
            }
            None => false,
        }
    }

    /// Tells how all went that is named, in place of the answer.
    pub fn report(&mut self, file: &str, name: &str) {
        let came = self.take();
        match self.outcome {
            Outcome::Held => self.add_all(&["ok", name]),
            Outcome::Refused => self.add_all(&["refused", name]),
            _ => {
                self.add_all(&["wrong", name]);
                self.add_all(&["\n ", file, "line"]);
                let number = self.line.number;
                self.add_value(&number);
                self.put(": ");
                self.put(self.call);
                self.report_fault(came.as_str());
            }
        }
    }

    fn report_fault(&mut self, came: &str) {
        match self.outcome {
            Outcome::Wrong => {
                let wanted = self.wanted;
                self.add_all(&["\n  wanted:", wanted, "\n  came:  ", came]);
            }
            Outcome::Broken => {
                self.put("\n  was refused memory and changed something, or had no need of it");
            }
            _ => self.put("\n  can't be read"),
        }
    }
}

/// What is called, and the answer that is wanted.
fn parts(text: &str) -> (&str, &str) {
    if text.starts_with(BAR) {
        return (BAR, "the text that stands there");
    }
    if let Some(parts) = text.split_once(": ") {
        return parts;
    }
    (text.strip_suffix(':').unwrap_or(text), "")
}
