//! The texts of errors.
use super::given::{write_given, write_text};
use super::{
    Branch, Given, Misfit, NoReading, Obstacle, ReadError, Several, Stop, TypeName, Unread, Wanted,
};
use facet_solver_shape::WholeRange;
use std::error::Error;
use std::fmt;

/// As `Login`, or `Login::Token`.
impl fmt::Display for TypeName<'_> {
    fn fmt<W: fmt::Write>(&self, f: &mut fmt::Formatter<W>) -> fmt::Result {
        let name = self.name;
        match self.variant {
            Some(variant) => write!(f, "{name}::{variant}"),
            None => write!(f, "{name}"),
        }
    }
}

/// The name of the variant, as `Token`, or that of the struct.
impl fmt::Display for Branch<'_> {
    fn fmt<W: fmt::Write>(&self, f: &mut fmt::Formatter<W>) -> fmt::Result {
        match self.name.variant {
            Some(variant) => f.write_str(variant),
            None => f.write_str(self.name.name),
        }
    }
}

/// As `a whole number from 0 to 255`.
impl fmt::Display for Wanted<'_> {
    fn fmt<W: fmt::Write>(&self, f: &mut fmt::Formatter<W>) -> fmt::Result {
        match self {
            Wanted::Null => f.write_str("null"),
            Wanted::Truth => f.write_str("a truth value"),
            Wanted::Whole(WholeRange { lowest, highest }) => {
                write!(f, "a whole number from {lowest} to {highest}")
            }
            Wanted::Number => f.write_str("a number"),
            Wanted::Text => f.write_str("a text"),
            Wanted::Character => f.write_str("a text of one character"),
            Wanted::List => f.write_str("a list"),
            Wanted::Values(count) => write!(f, "a list of {count} values"),
            Wanted::Object => f.write_str("an object"),
            Wanted::Named => f.write_str("the name of a variant, or an object of one member"),
            Wanted::Nothing => f.write_str("null or an object without members"),
            Wanted::Exactly(text) => write!(f, "the text '{text}'"),
            Wanted::Other => f.write_str("no such value"),
        }
    }
}

/// As `300 is no u8: 0 to 255`, `the text "3" is no u8`, or `Login reads an object, not a list`.
impl fmt::Display for Unread<'_, '_> {
    fn fmt<W: fmt::Write>(&self, f: &mut fmt::Formatter<W>) -> fmt::Result {
        let name = self.name;
        let given = &self.given;
        match (self.reads, given) {
            (Wanted::Whole(range), Given::Number(_)) => {
                let WholeRange { lowest, highest } = range;
                write!(f, "{given} is no {name}: {lowest} to {highest}")
            }
            (Wanted::Character, Given::Text(_)) => write!(f, "{given} is no {name}: one character"),
            (Wanted::Null, _) => write!(f, "{given} is no {name}: null"),
            (
                Wanted::Truth
                | Wanted::Whole(_)
                | Wanted::Number
                | Wanted::Text
                | Wanted::Character,
                _,
            ) => write!(f, "{given} is no {name}"),
            (Wanted::Exactly(text), _) => {
                write!(f, "only the text '{text}' is read, not ")?;
                write_given(given, f)
            }
            (Wanted::Named, Given::Text(text)) => {
                write!(f, "{name} has no variant ")?;
                write_text(text, f)?;
                f.write_str(" here")
            }
            (Wanted::Other, _) => write_other(name, given, f),
            (reads, _) => {
                write!(f, "{name} reads {reads}, not ")?;
                write_instead(reads, given, f)
            }
        }
    }
}

/// That a type does not read a value of a kind of which it may read others, as `5 is no Option<u8>`
/// or `Login reads no such object`.
fn write_other<W: fmt::Write>(
    name: TypeName<'_>,
    given: &Given<'_>,
    f: &mut fmt::Formatter<W>,
) -> fmt::Result {
    match given {
        Given::List(_) => write!(f, "{name} reads no such list"),
        Given::Object(_) => write!(f, "{name} reads no such object"),
        _ => write!(f, "{given} is no {name}"),
    }
}

/// What stands in place of what is wanted, as `a list`. Of the same kind it is how many there are,
/// as `of 3`.
fn write_instead<W: fmt::Write>(
    reads: Wanted<'_>,
    given: &Given<'_>,
    f: &mut fmt::Formatter<W>,
) -> fmt::Result {
    match (reads, given) {
        (Wanted::Values(_), Given::List(count)) | (Wanted::Named, Given::Object(count)) => {
            write!(f, "of {count}")
        }
        (Wanted::Nothing, Given::Object(_)) => f.write_str("one with members"),
        _ => write!(f, "{given}"),
    }
}

/// What stops a variant, as `Token lacks 'token', and 'user' is no key of it`. A value that is not
/// read itself is told once, before all variants.
impl fmt::Display for Misfit<'_, '_> {
    fn fmt<W: fmt::Write>(&self, f: &mut fmt::Formatter<W>) -> fmt::Result {
        let branch = &self.branch;
        match (&self.lacks, &self.no_key, &self.stop) {
            (Some(lacks), Some(other), _) => {
                write!(f, "{branch} lacks '{lacks}', and '{other}' is no key of it")
            }
            (Some(lacks), None, _) => write!(f, "{branch} lacks '{lacks}'"),
            (None, Some(other), _) => write!(f, "'{other}' is no key of {branch}"),
            (None, None, Stop::Member(name, unread)) => {
                write!(f, "'{name}' of {branch}: {unread}")
            }
            (None, None, Stop::OneOf(name)) => { write!(f, "{branch}: no variant of {name} fits") }
            (None, None, Stop::Itself(unread)) => {
                let reads = &unread.reads;
                write!(f, "{branch} reads {reads}")
            }
            (None, None, Stop::Nothing) => write!(f, "{branch} does not fit"),
        }
    }
}

/// What stops a reading, without its place.
impl fmt::Display for Obstacle<'_, '_> {
    fn fmt<W: fmt::Write>(&self, f: &mut fmt::Formatter<W>) -> fmt::Result {
        match self {
            Obstacle::Unread(unread) => write!(f, "{unread}"),
            Obstacle::Lacks(branch, name) => {
                let of = branch.name;
                write!(f, "{of} lacks '{name}'")
            }
            Obstacle::Incomplete(member, block, name) => {
                let of = block.name;
                write!(f, "'{member}' is of {of}, which lacks '{name}'")
            }
            Obstacle::NoVariant(name, misfits) => {
                write!(f, "no variant of {name} fits")?;
                write_unfitting(misfits, f)?;
                for misfit in misfits {
                    write!(f, "; {misfit}")?;
                }
                Ok(())
            }
            Obstacle::NoTag(tag, given, branches) => {
                write_tag(tag, given.as_ref(), f)?;
                write_branches(branches, f)
            }
            Obstacle::NoName(of, text, names) => {
                write!(f, "{of} has no variant '{text}' here")?;
                if !names.is_empty() {
                    write!(f, ", but")?;
                }
                write_names(f, names)
            }
            Obstacle::NoKey(of, name) => write!(f, "the key '{name}' is no {of}"),
            Obstacle::Unknown(names) => {
                write!(f, "nothing takes")?;
                write_names(f, names)
            }
        }
    }
}

/// The value that variants do not read themselves, if some is stopped by that, as ` null` or
/// ` this list`.
fn write_unfitting<W: fmt::Write>(
    misfits: &[Misfit<'_, '_>],
    f: &mut fmt::Formatter<W>,
) -> fmt::Result {
    for misfit in misfits {
        if let Stop::Itself(unread) = &misfit.stop {
            return match &unread.given {
                Given::List(_) => f.write_str(" this list"),
                Given::Object(_) => f.write_str(" this object"),
                given => write!(f, " {given}"),
            };
        }
    }
    Ok(())
}

/// What stands where a tag does, as `'in' is missing` or `'in' is 'Ftp'`.
fn write_tag<W: fmt::Write>(
    tag: &str,
    given: Option<&Given<'_>>,
    f: &mut fmt::Formatter<W>,
) -> fmt::Result {
    match given {
        None => write!(f, "'{tag}' is missing"),
        Some(given) => {
            write!(f, "'{tag}' is ")?;
            write_given(given, f)
        }
    }
}

/// The names of variants, as `: 'File' or 'Http'`.
fn write_branches<W: fmt::Write>(
    branches: &[Branch<'_>],
    f: &mut fmt::Formatter<W>,
) -> fmt::Result {
    let mut before = ": ";
    for branch in branches {
        write!(f, "{before}'{branch}'")?;
        before = " or ";
    }
    Ok(())
}

/// Names with commas between them, each in quotes and the first behind a blank.
fn write_names<W: fmt::Write>(f: &mut fmt::Formatter<W>, names: &[&str]) -> fmt::Result {
    match names.split_first() {
        None => Ok(()),
        Some((first, rest)) => {
            write!(f, " '{first}'")?;
            for name in rest {
                write!(f, ", '{name}'")?;
            }
            Ok(())
        }
    }
}

/// As `login: no variant of Login fits; Token lacks 'token'; Password lacks 'password'`.
impl fmt::Display for NoReading<'_, '_> {
    fn fmt<W: fmt::Write>(&self, f: &mut fmt::Formatter<W>) -> fmt::Result {
        let place = &self.place;
        let why = &self.why;
        write!(f, "{place}: {why}")
    }
}

/// As `login: several variants fit: Token, Password`.
impl fmt::Display for Several<'_, '_> {
    fn fmt<W: fmt::Write>(&self, f: &mut fmt::Formatter<W>) -> fmt::Result {
        let place = &self.place;
        write!(f, "{place}: several variants fit:")?;
        let mut is_first = true;
        for variant in &self.variants {
            if !is_first {
                f.write_str(",")?;
            }
            is_first = false;
            write!(f, " {variant}")?;
        }
        Ok(())
    }
}

impl fmt::Display for ReadError<'_, '_> {
    fn fmt<W: fmt::Write>(&self, f: &mut fmt::Formatter<W>) -> fmt::Result {
        match self {
            ReadError::NoReading(none) => write!(f, "{none}"),
            ReadError::Several(several) => write!(f, "{several}"),
            ReadError::NameTwice(place) => write!(f, "{place}: the name stands twice"),
            ReadError::OutOfMemory => f.write_str("out of memory"),
        }
    }
}

impl Error for ReadError<'_, '_> {}
