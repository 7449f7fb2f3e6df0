//! One number for all results of a part of a workload, and one for the words of its errors.

use crate::fault::Fault;
use crate::refusals::Refusal;
use std::fmt;
use std::fmt::{Display, Write};

const START: u64 = 0xcbf2_9ce4_8422_2325;

const PRIME: u64 = 0x0000_0100_0000_01b3;

/// By what a number is multiplied, so that each of its bits changes the higher ones.
const SPREAD: u64 = 0x9e37_79b9_7f4a_7c15;

/// A hash of what is printed, which is added byte by byte (FNV-1a), in whatever pieces it comes.
#[derive(Clone, Copy)]
struct Hash(u64);

impl Write for Hash {
    fn write_str(&mut self, part: &str) -> fmt::Result {
        let mut hash = self.0;
        for byte in part.bytes() {
            hash = (hash ^ u64::from(byte)).wrapping_mul(PRIME);
        }
        self.0 = hash;
        Ok(())
    }
}

impl Display for Hash {
    fn fmt<W: fmt::Write>(&self, f: &mut fmt::Formatter<W>) -> fmt::Result {
        write!(f, "{:016x}", self.0)
    }
}

/// A hash of all that is added to it, one of the words of errors, and how many calls had a result,
/// and how many an error.
///
/// Numbers and names are added by words of eight bytes, which costs a tenth of what printed bytes
/// cost.
#[derive(Clone, Copy)]
pub struct Digest {
    answers: Hash,
    texts: Hash,
    answered: u64,
    refused: u64,
}

impl Display for Digest {
    fn fmt<W: fmt::Write>(&self, f: &mut fmt::Formatter<W>) -> fmt::Result {
        let Digest {
            answers,
            texts: _,
            answered,
            refused,
        } = self;
        write!(f, "{answers} {answered} answered {refused} refused")
    }
}

impl Digest {
    pub fn new() -> Self {
        Digest {
            answers: Hash(START),
            texts: Hash(START),
            answered: 0,
            refused: 0,
        }
    }

    /// The hash so far.
    pub fn hash(&self) -> u64 {
        self.answers.0
    }

    /// Adds a number.
    pub fn number(&mut self, number: usize) {
        self.word(number as u64);
    }

    fn word(&mut self, word: u64) {
        self.answers = Hash((self.answers.0.rotate_left(5) ^ word).wrapping_mul(SPREAD));
    }

    /// Adds a name: its length, its bytes by words, and its last eight bytes once more, so that no
    /// byte is left out and hardly any is added alone.
    pub fn name(&mut self, name: &str) {
        let bytes = name.as_bytes();
        self.number(bytes.len());
        for part in bytes.chunks_exact(8) {
            self.word(word_of(part));
        }
        let last = bytes.len().saturating_sub(8);
        self.word(word_of(&bytes[last..]));
    }

    /// Counts a call that had a result.
    pub fn count_answer(&mut self) {
        self.answered = self.answered.wrapping_add(1);
    }

    /// Counts a call that had an error.
    pub fn count_refusal(&mut self) {
        self.refused = self.refused.wrapping_add(1);
    }

    /// Adds the result of a call.
    pub fn answer<D: Display>(&mut self, result_text: &D) -> Result<(), Fault> {
        self.count_answer();
        Ok(write!(self.answers, "{result_text}\n")?)
    }

    /// Adds the error of a call: what has to stay of it, and its words to the hash of these.
    pub fn refusal<R: Refusal>(&mut self, error: &R) -> Result<(), Fault> {
        self.count_refusal();
        error.add_to(self);
        Ok(write!(self.texts, "{error}\n")?)
    }

    /// Tells the part of this name in a line, and in one more the words of its errors, if there
    /// are any.
    pub fn tell(&self, part: &str, report: &mut String) -> Result<(), Fault> {
        write!(report, "{part} {self}\n")?;
        if self.refused > 0 {
            write!(report, "text {part} {}\n", self.texts)?;
        }
        Ok(())
    }
}

/// Up to eight bytes as one word.
fn word_of(part: &[u8]) -> u64 {
    match <[u8; 8]>::try_from(part) {
        Ok(bytes) => u64::from_le_bytes(bytes),
        Err(_) => {
            let mut word = 0;
            for byte in part {
                word = (word << 8) | u64::from(*byte);
            }
            word
        }
    }
}
