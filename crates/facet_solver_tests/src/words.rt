//! Words of a call, as they are read.

use crate::answer::Answer;
use facet_solver::{FieldCategory, FieldKey};

const CATEGORIES: [(&str, FieldCategory); 6] = [
    ("flat", FieldCategory::Flat),
    ("attribute", FieldCategory::Attribute),
    ("element", FieldCategory::Element),
    ("text", FieldCategory::Text),
    ("tag", FieldCategory::Tag),
    ("elements", FieldCategory::Elements),
];

/// What a word means by a table.
pub fn meaning<T: Copy>(table: &[(&str, T)], word: &str) -> Option<T> {
    for (meant, value) in table {
        if *meant == word {
            return Some(*value);
        }
    }
    None
}

/// The parts of a word before and behind `=`.
pub fn assigned(word: &str) -> (&str, &str) {
    word.split_once('=').unwrap_or((word, ""))
}

/// A word without a comma at its end.
pub fn plain(word: &str) -> &str {
    word.strip_suffix(',').unwrap_or(word)
}

impl<'t> Answer<'t> {
    /// The next word, or an empty one where there is none.
    pub fn next_word(&mut self) -> &'t str {
        self.words.next().unwrap_or("")
    }

    /// The next word, which has to be there.
    pub fn word(&mut self) -> &'t str {
        let word = self.next_word();
        if word.is_empty() {
            self.unread();
        }
        word
    }

    /// The words that are left.
    pub fn rest(&mut self) -> Vec<&'t str> {
        let mut words = Vec::new(self.alloc);
        for _ in 0..usize::MAX {
            let word = self.next_word();
            if word.is_empty() {
                break;
            }
            self.push(&mut words, word);
        }
        words
    }

    /// The next word as a number.
    pub fn number(&mut self) -> usize {
        let word = self.word();
        self.number_of(word)
    }

    /// A word as a number.
    pub fn number_of(&mut self, word: &str) -> usize {
        match word.parse::<usize>() {
            Ok(number) => number,
            Err(_) => {
                self.unread();
                0
            }
        }
    }

    /// What a word means by a table, or another value where it means nothing.
    pub fn meaning<T: Copy>(&mut self, table: &[(&str, T)], word: &str, otherwise: T) -> T {
        match meaning(table, word) {
            Some(value) => value,
            None => {
                self.unread();
                otherwise
            }
        }
    }

    /// The next word as a key: a name alone, or behind its category, as `attribute=id`.
    pub fn key(&mut self) -> FieldKey<'t> {
        let word = self.word();
        self.key_of(word)
    }

    /// A word as a key.
    pub fn key_of<'w>(&mut self, word: &'w str) -> FieldKey<'w> {
        match word.split_once('=') {
            Some((category, name)) => FieldKey::Dom(self.category_of(category), name),
            None => FieldKey::flat(word),
        }
    }

    /// The next word as a category.
    pub fn category(&mut self) -> FieldCategory {
        let word = self.word();
        self.category_of(word)
    }

    fn category_of(&mut self, word: &str) -> FieldCategory {
        self.meaning(&CATEGORIES, word, FieldCategory::Flat)
    }

    /// The next word, which is read as a path: the names between its dots. `<root>` is the path
    /// without names.
    pub fn read_path(&mut self) -> &'t str {
        self.path.clear();
        let word = self.word();
        if word != "<root>" {
            for name in word.split('.') {
                if self.path.push(name).is_err() {
                    self.refused();
                }
            }
        }
        word
    }
}
