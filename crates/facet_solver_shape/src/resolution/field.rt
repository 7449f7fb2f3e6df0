//! Fields of a resolution, nested keys and selected variants.
ghost use Rattle.std.specs.Prelude.{◌≡◌, ◌++◌, map, IfOk, OnOk};
ghost use Rattle.facet_solver_shape.specs.Keys.{key_of};
ghost use Rattle.facet_solver_shape.specs.Fields.{matches, key_of_field};
ghost use Rattle.facet_solver_shape.specs.Resolved.{selection_view};

use crate::resolution::key::{FieldCategory, FieldKey};
use crate::resolution::path::FieldPath;
use crate::shape::{Field, ShapeId};
use std::alloc::{AllocError, Global};
use std::marker::Model;

/// The names from the document down to a key, the name of the key last.
pub type KeyPath<'c> = Vec<&'c str>;

/// A field that a document may give a value to.
#[derive(Debug, Drop)]
pub struct FieldInfo<'c> {
    /// Its name in a document.
    pub serialized_name: &'c str,
    /// Where it stands in the type.
    pub path: FieldPath<'c>,
    /// Whether a document must have it.
    pub required: bool,
    /// The shape of its value.
    pub value_shape: ShapeId,
    /// The field that was declared.
    pub field: &'c Field,
    /// What in a document gives it its value.
    pub category: FieldCategory,
}

impl<'c> Model for FieldInfo<'c> {
    ghost use Rattle.facet_solver_shape.specs.Fields.{FieldView};
    ghost use Rattle.facet_solver_shape.specs.ResolvedCode.{field_view_code};

    ghost Value = { FieldView };

    ghost coded = { field_view_code };

    ghost view = { λ f. record {
      name = f.serialized_name.now;
      path = f.path;
      is_required = f.required;
      shape = f.value_shape;
      field = f.field.now;
      category = f.category;
    } };
}

/// The variant that is selected for an enum.
#[derive(Debug, Drop)]
pub struct VariantSelection<'c> {
    /// Where the enum stands in the type.
    pub path: FieldPath<'c>,
    /// The name of the enum.
    pub enum_name: &'c str,
    /// The name of the variant.
    pub variant_name: &'c str,
}

impl<'c> FieldInfo<'c> {
    /// The stored key, under which a resolution keeps the field: that of its name alone for a field
    /// of category Flat, else that of its name in its category.
    pub(crate) fn key(&self) -> FieldKey<'c>
        ensures { key_of result ≡ key_of_field self.now }
    {
        match self.category {
            FieldCategory::Flat => FieldKey::Flat(self.serialized_name),
            category => FieldKey::Dom(category, self.serialized_name),
        }
    }

    /// Whether a key of a document means the field.
    ///
    /// A field of category Flat is meant by a key of its name, of whatever kind. Of the other
    /// categories, a flat key means an element of its name. A DOM key means a field of its category
    /// and its name, and without a name any text, any tag or any elements of its category.
    pub fn matched_by(&self, key: &FieldKey) -> bool
        ensures { result ≡ matches (key_of key.now) self.now }
    {
        let named = key.name() == self.serialized_name;
        match (self.category, *key) {
            (FieldCategory::Flat, _) => named,
            (category, FieldKey::Flat(_)) => named && category == FieldCategory::Element,
            (category, FieldKey::Dom(asked, name)) => {
                asked == category && (named || (name.is_empty() && category.takes_any_name()))
            }
        }
    }

    /// The same field, with a path in memory of its own.
    pub(crate) fn copied(&self, alloc: Global) -> Result<Self, AllocError>
        ensures { IfOk result (λ made. made ≡ self.now) }
    {
        Ok(FieldInfo {
            serialized_name: self.serialized_name,
            path: self.path.copied(alloc)?,
            required: self.required,
            value_shape: self.value_shape,
            field: self.field,
            category: self.category,
        })
    }
}

impl<'c> VariantSelection<'c> {
    /// The same selection, with a path in memory of its own.
    pub(crate) fn copied(&self, alloc: Global) -> Result<Self, AllocError>
        ensures { IfOk result (λ made. selection_view made ≡ selection_view self.now) }
    {
        Ok(VariantSelection {
            path: self.path.copied(alloc)?,
            enum_name: self.enum_name,
            variant_name: self.variant_name,
        })
    }
}

/// The selections of both, in order.
pub(crate) fn joined_selections<'c>(
    alloc: Global,
    first: &[VariantSelection<'c>],
    second: &[VariantSelection<'c>],
) -> Result<Vec<VariantSelection<'c>>, AllocError>
    ensures { IfOk result (λ made. map selection_view made.items
        ≡ map selection_view first.now ++ map selection_view second.now) }
{
    let mut made = Vec::new(alloc);
    push_copies(alloc, &mut made, first)?;
    push_copies(alloc, &mut made, second)?;
    Ok(made)
}

/// After an error some of the selections may have been added.
fn push_copies<'c>(
    alloc: Global,
    made: &mut Vec<VariantSelection<'c>>,
    selections: &[VariantSelection<'c>],
) -> Result<(), AllocError>
    ensures { OnOk result (map selection_view made.new.items
        ≡ map selection_view made.old.items ++ map selection_view selections.now) }
{
    for selection in selections {
        made.push(selection.copied(alloc)?)?;
    }
    Ok(())
}
