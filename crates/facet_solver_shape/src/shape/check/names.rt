//! Whether a name is given twice.
ghost use Rattle.std.specs.Prelude.{◌≡◌, ◌↔◌, IsTrue, map};
ghost use Rattle.std.specs.String.{string_bytes};
ghost use Rattle.facet_solver_shape.specs.Names.{Name};
ghost use Rattle.facet_solver_shape.specs.Catalogues.{RepeatsName, RepeatsFieldName, RepeatsVariantName};

use super::stretch::{STRETCH, repeats_in_stretch};
use crate::shape::{Field, ShapeKind, Variant};

/// What has a declared name.
pub(super) trait Named {
    ghost name_of: { Self → Name };

    fn declared_name(&self) -> &str
        ensures { result.now ≡ name_of self.now };
}

impl Named for Field {
    ghost name_of = { λ f. string_bytes f.name };

    fn declared_name(&self) -> &str {
        self.name.as_str()
    }
}

impl Named for Variant {
    ghost name_of = { λ v. string_bytes v.name };

    fn declared_name(&self) -> &str {
        self.name.as_str()
    }
}

/// Whether two fields of a struct, or of one variant, have one declared name.
pub(super) fn repeats_field_name(kind: &ShapeKind) -> bool
    ensures { IsTrue result ↔ RepeatsFieldName kind.now }
{
    match kind {
        ShapeKind::Struct { fields, .. } => repeats_name(fields),
        ShapeKind::Enum { variants } => variants.iter().any(|v| repeats_name(&v.fields)),
        _ => false,
    }
}

/// Whether two variants have one name.
pub(super) fn repeats_variant_name(kind: &ShapeKind) -> bool
    ensures { IsTrue result ↔ RepeatsVariantName kind.now }
{
    match kind {
        ShapeKind::Enum { variants } => repeats_name(variants),
        _ => false,
    }
}

/// Whether two items have one name. A name above all before it, or below them, is new. At any other
/// name a stretch of items begins, which are compared with one another and with all before them.
fn repeats_name<T: Named>(items: &[T]) -> bool
    ensures { IsTrue result ↔ RepeatsName (map T.name_of items.now) }
{
    let Some(first) = items.first() else {
        return false;
    };
    let mut lowest = first.declared_name();
    let mut highest = lowest;
    // The items before this index have different names.
    let mut compared = 1;
    for (index, item) in items.iter().enumerate() {
        let name = item.declared_name();
        if highest < name {
            highest = name;
        } else if name < lowest {
            lowest = name;
        } else if compared <= index {
            compared = index + STRETCH.min(items.len() - index);
            if repeats_in_stretch(&items[..index], &items[index..compared]) {
                return true;
            }
        }
    }
    false
}
