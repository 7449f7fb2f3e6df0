//! Members of an object that stand behind others, where they apply.
ghost use Rattle.std.specs.Prelude.{Some, option_map};
ghost use Rattle.facet_solver_tool.specs.MemberText as members;

use crate::quoted::Quoted;
use facet_solver_shape::ShapeId;
use std::fmt;

/// A member that says a text, where there is one.
#[derive(Drop)]
pub(super) struct TextMember<'m> {
    pub(super) key: &'static str,
    pub(super) text: &'m Option<String>,
}

impl fmt::Display for TextMember<'_> {
    ghost output = { λ m. Some (members.text_member m.key.now m.text.now) };

    fn fmt<W: fmt::Write>(&self, f: &mut fmt::Formatter<W>) -> fmt::Result {
        let key = self.key;
        match self.text {
            Some(text) => {
                let text = Quoted(text.as_str());
                write!(f, ", \"{key}\": {text}")
            }
            None => Ok(()),
        }
    }
}

/// A member that says a word, where there is one.
#[derive(Clone, Copy)]
pub(super) struct WordMember {
    pub(super) key: &'static str,
    pub(super) word: Option<&'static str>,
}

impl fmt::Display for WordMember {
    ghost output = { λ m. Some (members.word_member m.key.now (option_map (λ w. w.now) m.word)) };

    fn fmt<W: fmt::Write>(&self, f: &mut fmt::Formatter<W>) -> fmt::Result {
        let key = self.key;
        match self.word {
            Some(word) => write!(f, ", \"{key}\": \"{word}\""),
            None => Ok(()),
        }
    }
}

/// A member that says the index of a shape, where there is one.
#[derive(Clone, Copy)]
pub(super) struct IndexMember {
    pub(super) key: &'static str,
    pub(super) shape: Option<ShapeId>,
}

impl fmt::Display for IndexMember {
    ghost output = { λ m. Some (members.index_member m.key.now m.shape) };

    fn fmt<W: fmt::Write>(&self, f: &mut fmt::Formatter<W>) -> fmt::Result {
        let key = self.key;
        match self.shape {
            Some(shape) => {
                let index = shape.index();
                write!(f, ", \"{key}\": {index}")
            }
            None => Ok(()),
        }
    }
}

/// A member that says `true`, where a flag is set.
#[derive(Clone, Copy)]
pub(super) struct FlagMember {
    pub(super) key: &'static str,
    pub(super) is_set: bool,
}

impl fmt::Display for FlagMember {
    ghost output = { λ m. Some (members.flag_member m.key.now m.is_set) };

    fn fmt<W: fmt::Write>(&self, f: &mut fmt::Formatter<W>) -> fmt::Result {
        let key = self.key;
        if self.is_set {
            write!(f, ", \"{key}\": true")
        } else {
            Ok(())
        }
    }
}
