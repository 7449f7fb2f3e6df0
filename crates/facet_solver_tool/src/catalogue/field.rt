//! The fields of a struct or of a variant.
ghost use Rattle.std.specs.Prelude.{Some, codes};
ghost use Rattle.std.specs.List.{flat_map};
ghost use Rattle.facet_solver_tool.specs.FieldText as fields;
ghost use Rattle.facet_solver_tool.specs.SeparatedTexts.{behind};

use super::member::{FlagMember, TextMember, WordMember};
use super::word;
use crate::quoted::Quoted;
use facet_solver_shape::Field;
use std::fmt;

/// A field as an object.
#[derive(Drop)]
struct FieldObject<'s>(&'s Field);

impl fmt::Display for FieldObject<'_> {
    ghost output = { λ o. Some (fields.field o.0.now) };

    fn fmt<W: fmt::Write>(&self, f: &mut fmt::Formatter<W>) -> fmt::Result {
        let field = self.0;
        let name = Quoted(field.name.as_str());
        let shape = field.shape.index();
        let members = FieldMembers(field);
        write!(f, "{{\"name\": {name}, \"shape\": {shape}{members}}}")
    }
}

/// The members of a field that stand behind its name and its shape.
#[derive(Drop)]
struct FieldMembers<'s>(&'s Field);

impl fmt::Display for FieldMembers<'_> {
    ghost output = { λ m. Some (fields.field_members m.0.now) };

    fn fmt<W: fmt::Write>(&self, f: &mut fmt::Formatter<W>) -> fmt::Result {
        let field = self.0;
        let rename = TextMember {
            key: "rename",
            text: &field.rename,
        };
        let flatten = FlagMember {
            key: "flatten",
            is_set: field.flattened,
        };
        let default = FlagMember {
            key: "default",
            is_set: field.has_default,
        };
        let metadata = FlagMember {
            key: "metadata",
            is_set: field.metadata,
        };
        let dom = WordMember {
            key: "dom",
            word: word::dom_mark(field.dom),
        };
        write!(f, "{rename}{flatten}{default}{metadata}{dom}")
    }
}

/// Fields, each behind a comma.
#[derive(Drop)]
struct LaterFields<'s>(&'s [Field]);

impl fmt::Display for LaterFields<'_> {
    ghost output = { λ l. Some (flat_map (behind (codes ", ") fields.field) l.0.now) };

    fn fmt<W: fmt::Write>(&self, f: &mut fmt::Formatter<W>) -> fmt::Result {
        for field in self.0 {
            let field = FieldObject(field);
            write!(f, ", {field}")?;
        }
        Ok(())
    }
}

/// The member that lists fields, where there are any.
#[derive(Drop)]
pub(super) struct FieldsMember<'s>(pub(super) &'s [Field]);

impl fmt::Display for FieldsMember<'_> {
    ghost output = { λ m. Some (fields.fields_member m.0.now) };

    fn fmt<W: fmt::Write>(&self, f: &mut fmt::Formatter<W>) -> fmt::Result {
        let Some((first, rest)) = self.0.split_first() else {
            return Ok(());
        };
        let first = FieldObject(first);
        let later = LaterFields(rest);
        write!(f, ", \"fields\": [{first}{later}]")
    }
}
