//! The variants of an enum.
ghost use Rattle.std.specs.Prelude.{Some, codes};
ghost use Rattle.std.specs.List.{flat_map};
ghost use Rattle.facet_solver_tool.specs.SeparatedTexts.{behind};
ghost use Rattle.facet_solver_tool.specs.VariantText as variants;

use super::field::FieldsMember;
use super::member::WordMember;
use super::word;
use crate::quoted::Quoted;
use facet_solver_shape::Variant;
use std::fmt;

/// A variant as an object.
#[derive(Drop)]
struct VariantObject<'s>(&'s Variant);

impl fmt::Display for VariantObject<'_> {
    ghost output = { λ o. Some (variants.variant o.0.now) };

    fn fmt<W: fmt::Write>(&self, f: &mut fmt::Formatter<W>) -> fmt::Result {
        let variant = self.0;
        let name = Quoted(variant.name.as_str());
        let kind = WordMember {
            key: "kind",
            word: word::struct_kind(variant.kind),
        };
        let fields = FieldsMember(&variant.fields);
        write!(f, "{{\"name\": {name}{kind}{fields}}}")
    }
}

/// Variants, each behind a comma.
#[derive(Drop)]
struct LaterVariants<'s>(&'s [Variant]);

impl fmt::Display for LaterVariants<'_> {
    ghost output = { λ l. Some (flat_map (behind (codes ", ") variants.variant) l.0.now) };

    fn fmt<W: fmt::Write>(&self, f: &mut fmt::Formatter<W>) -> fmt::Result {
        for variant in self.0 {
            let variant = VariantObject(variant);
            write!(f, ", {variant}")?;
        }
        Ok(())
    }
}

/// The member that lists variants, where there are any.
#[derive(Drop)]
pub(super) struct VariantsMember<'s>(pub(super) &'s [Variant]);

impl fmt::Display for VariantsMember<'_> {
    ghost output = { λ m. Some (variants.variants_member m.0.now) };

    fn fmt<W: fmt::Write>(&self, f: &mut fmt::Formatter<W>) -> fmt::Result {
        let Some((first, rest)) = self.0.split_first() else {
            return Ok(());
        };
        let first = VariantObject(first);
        let later = LaterVariants(rest);
        write!(f, ", \"variants\": [{first}{later}]")
    }
}
