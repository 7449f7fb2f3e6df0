//! What names an ambiguity in a file of accepted ones.
ghost use Rattle.std.specs.Prelude.{Some, codes};
ghost use Rattle.std.specs.List.{flat_map};
ghost use Rattle.facet_solver_tool.specs.AmbiguityKeys as texts;
ghost use Rattle.facet_solver_tool.specs.SeparatedTexts.{behind};

use crate::quoted::{BetweenQuotes, Quoted};
use facet_solver_checker::Ambiguity;
use facet_solver_reader::TypeName;
use std::fmt;

/// The name of a type or of a variant as a string of JSON, as `"Login"` or `"Login::Token"`.
#[derive(Clone, Copy)]
pub struct FullName<'n, 'c>(pub &'n TypeName<'c>);

impl fmt::Display for FullName<'_, '_> {
    ghost output = { λ n. Some (texts.full_name n.0.now) };

    fn fmt<W: fmt::Write>(&self, f: &mut fmt::Formatter<W>) -> fmt::Result {
        let type_name = self.0.name;
        match self.0.variant {
            Some(variant) => {
                let name = BetweenQuotes(type_name);
                let variant = BetweenQuotes(variant);
                write!(f, "\"{name}::{variant}\"")
            }
            None => {
                let name = Quoted(type_name);
                write!(f, "{name}")
            }
        }
    }
}

/// Names, each behind a comma.
#[derive(Clone, Copy)]
struct LaterNames<'r, 'c>(&'r [TypeName<'c>]);

impl fmt::Display for LaterNames<'_, '_> {
    ghost output = { λ l. Some (flat_map (behind (codes ", ") texts.full_name) l.0.now) };

    fn fmt<W: fmt::Write>(&self, f: &mut fmt::Formatter<W>) -> fmt::Result {
        for variant in self.0 {
            let variant = FullName(variant);
            write!(f, ", {variant}")?;
        }
        Ok(())
    }
}

/// Names with commas between them.
#[derive(Clone, Copy)]
struct Names<'r, 'c>(&'r [TypeName<'c>]);

impl fmt::Display for Names<'_, '_> {
    ghost output = { λ n. Some (texts.full_names n.0.now) };

    fn fmt<W: fmt::Write>(&self, f: &mut fmt::Formatter<W>) -> fmt::Result {
        let Some((first, rest)) = self.0.split_first() else {
            return Ok(());
        };
        let first = FullName(first);
        let later = LaterNames(rest);
        write!(f, "{first}{later}")
    }
}

/// What names an ambiguity: the members of its line of JSON that have its place and its variants.
#[derive(Clone, Copy)]
pub struct Key<'r, 'c>(pub &'r Ambiguity<'c>);

impl fmt::Display for Key<'_, '_> {
    ghost output = { λ k. Some (texts.key k.0.now) };

    fn fmt<W: fmt::Write>(&self, f: &mut fmt::Formatter<W>) -> fmt::Result {
        let ambiguity = self.0;
        let owner = FullName(&ambiguity.owner);
        let field = Quoted(ambiguity.field);
        let variants = Names(&ambiguity.variants);
        write!(
            f,
            "{{\"owner\": {owner}, \"field\": {field}, \"variants\": [{variants}]"
        )
    }
}
