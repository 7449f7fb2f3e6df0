//! Texts of JSON, written part by part.

use crate::random::Random;
use crate::words::text_word;
use std::alloc::{AllocError, Global};

/// What stands before the next part of a text.
#[derive(Clone, Copy, PartialEq, Eq)]
enum Before {
    /// A bracket that opens, or nothing.
    Opening,
    /// The name of a member.
    Name,
    /// A value.
    Value,
}

/// A text of JSON. Commas are put where they belong, and line breaks where it is indented.
#[derive(Drop)]
pub struct JsonText {
    text: String,
    before: Before,
    is_indented: bool,
    depth: usize,
}

impl JsonText {
    pub fn new(alloc: Global) -> Self {
        JsonText {
            text: String::new(alloc),
            before: Before::Opening,
            is_indented: false,
            depth: 0,
        }
    }

    /// A text with each value and member on a line of its own.
    pub fn indented(alloc: Global) -> Self {
        let mut text = JsonText::new(alloc);
        text.is_indented = true;
        text
    }

    pub fn as_str(&self) -> &str {
        self.text.as_str()
    }

    /// Forgets the text, and keeps its memory.
    pub fn clear(&mut self) {
        self.text.clear();
        self.before = Before::Opening;
        self.depth = 0;
    }

    /// A new line, where the text is indented.
    fn line(&mut self) -> Result<(), AllocError> {
        if self.is_indented && self.depth > 0 {
            self.text.push_str("\n")?;
            for _ in 0..self.depth {
                self.text.push_str("  ")?;
            }
        }
        Ok(())
    }

    /// A value that is written as it stands.
    pub fn raw(&mut self, value: &str) -> Result<(), AllocError> {
        if self.before == Before::Value {
            self.text.push_str(",")?;
        }
        if self.before != Before::Name {
            self.line()?;
        }
        self.before = Before::Value;
        self.text.push_str(value)
    }

    /// Opens a list or an object by its bracket.
    pub fn open(&mut self, bracket: &str) -> Result<(), AllocError> {
        self.raw(bracket)?;
        self.before = Before::Opening;
        self.depth = self.depth.wrapping_add(1);
        Ok(())
    }

    pub fn close(&mut self, bracket: &str) -> Result<(), AllocError> {
        self.depth = self.depth.wrapping_sub(1);
        if self.before == Before::Value {
            self.line()?;
        }
        self.before = Before::Value;
        self.text.push_str(bracket)
    }

    /// The colon after a name.
    fn colon(&mut self) -> Result<(), AllocError> {
        self.before = Before::Name;
        self.text
            .push_str(if self.is_indented { ": " } else { ":" })
    }

    /// The name of a member. Its value comes next.
    pub fn name(&mut self, name: &str) -> Result<(), AllocError> {
        self.string(name)?;
        self.colon()
    }

    /// The name of a member, of a word and a number. Its value comes next.
    pub fn numbered_name(&mut self, word: &str, number: u64) -> Result<(), AllocError> {
        self.raw("\"")?;
        write!(self.text, "{word}_{number}\"")?;
        self.colon()
    }

    pub fn string(&mut self, text: &str) -> Result<(), AllocError> {
        self.raw("\"")?;
        self.text.push_str(text)?;
        self.text.push_str("\"")
    }

    pub fn whole(&mut self, number: u64) -> Result<(), AllocError> {
        self.raw("")?;
        write!(self.text, "{number}")
    }

    /// Some whole number. About half are negative.
    pub fn signed_whole(&mut self, random: &mut Random, bound: u64) -> Result<(), AllocError> {
        let number = random.below(bound).wrapping_add(1);
        self.raw(if random.one_in(2) { "-" } else { "" })?;
        write!(self.text, "{number}")
    }

    /// A number with four digits behind its point.
    pub fn decimal(&mut self, number: u64) -> Result<(), AllocError> {
        self.whole(number / 10_000)?;
        let fraction = number % 10_000;
        write!(self.text, ".{fraction:04}")
    }

    /// Some number with four digits behind its point. About half are negative.
    pub fn signed_decimal(&mut self, random: &mut Random, bound: u64) -> Result<(), AllocError> {
        let number = random.below(bound);
        self.raw(if random.one_in(2) { "-" } else { "" })?;
        let (whole, fraction) = (number / 10_000, number % 10_000);
        write!(self.text, "{whole}.{fraction:04}")
    }

    pub fn truth(&mut self, is_so: bool) -> Result<(), AllocError> {
        self.raw(if is_so { "true" } else { "false" })
    }

    /// A text of some words.
    pub fn words(&mut self, random: &mut Random, count: u64) -> Result<(), AllocError> {
        self.raw("\"")?;
        for _ in 0..count {
            self.text.push_str(text_word(random.next()))?;
            self.text.push_str(" ")?;
        }
        self.text.push_str("\"")
    }

    /// A list of some texts.
    pub fn word_list(&mut self, random: &mut Random, count: u64) -> Result<(), AllocError> {
        self.open("[")?;
        for _ in 0..count {
            self.string(text_word(random.next()))?;
        }
        self.close("]")
    }

    pub fn string_member(&mut self, name: &str, text: &str) -> Result<(), AllocError> {
        self.name(name)?;
        self.string(text)
    }

    /// A member with a text of one word.
    pub fn word_member(&mut self, name: &str, random: &mut Random) -> Result<(), AllocError> {
        self.string_member(name, text_word(random.next()))
    }

    pub fn whole_member(&mut self, name: &str, number: u64) -> Result<(), AllocError> {
        self.name(name)?;
        self.whole(number)
    }

    /// A member whose name is of a word and a number.
    pub fn numbered_member(
        &mut self,
        word: &str,
        number: u64,
        value: u64,
    ) -> Result<(), AllocError> {
        self.numbered_name(word, number)?;
        self.whole(value)
    }
}
