//! Items, with the places of the names that are sought among them.
ghost use Rattle.std.specs.Prelude.{◌≡◌, IfOk};
ghost use Rattle.facet_solver_shape.specs.Names.{names_of};
ghost use Rattle.facet_solver_types.specs.Declarations.{items_view, module_item_view};
ghost use Rattle.facet_solver_types.specs.PlacedItems.{form_name, form_names, impl_names};
ghost use Rattle.facet_solver_types.specs.PlacedNames.{names_in};

use super::conditions::{condition_of, name_of};
use crate::item::{Item, ModuleItem};
use crate::name_places::NamePlaces;
use std::alloc::{AllocError, Global};

/// Items, with the places of the names that are sought among them.
#[derive(Drop)]
pub(super) struct PlacedItems<'i, 's, 't> {
    pub(super) list: &'i [ModuleItem<'s, 't>],
    /// The names of the types that impls read.
    impls: NamePlaces<'t>,
    /// For each item its name, if it has a condition, or else nothing.
    forms: NamePlaces<'t>,
    ghost implemented: { names_in impls ≡ impl_names (items_view list.now) },
    ghost formed: { names_in forms ≡ form_names (items_view list.now) },
}

/// The names of the types that impls read.
fn impl_names<'t>(alloc: Global, items: &[ModuleItem<'_, 't>]) -> Result<Vec<&'t str>, AllocError>
    ensures { IfOk result (λ names. names_of names.items ≡ impl_names (items_view items.now)) }
{
    let mut names = Vec::new(alloc);
    for item in items {
        if let Item::Impl(of) = &item.item {
            names.push(of.text)?;
        }
    }
    Ok(names)
}

/// The name of a declaration that has a condition, or nothing of another item.
fn form_name<'t>(item: &ModuleItem<'_, 't>) -> &'t str
    ensures { result.now ≡ form_name (module_item_view item.now) }
{
    if condition_of(&item.item).is_empty() {
        ""
    } else {
        name_of(&item.item)
    }
}

/// The same of items.
fn form_names<'t>(alloc: Global, items: &[ModuleItem<'_, 't>]) -> Result<Vec<&'t str>, AllocError>
    ensures { IfOk result (λ names. names_of names.items ≡ form_names (items_view items.now)) }
{
    let mut names = Vec::with_capacity(alloc, items.len())?;
    for item in items {
        names.push(form_name(item))?;
    }
    Ok(names)
}

impl<'i, 's, 't> PlacedItems<'i, 's, 't> {
    ghost use Rattle.facet_solver_types.specs.Derives.{has_impl};
    ghost use Rattle.facet_solver_types.specs.NamePlaces.{places_of};

    /// Items, where the names that are sought get their places.
    pub(super) fn new(alloc: Global, list: &'i [ModuleItem<'s, 't>]) -> Result<Self, AllocError>
        ensures { IfOk result (λ items. items.list.now ≡ list.now) }
    {
        let impls = impl_names(alloc, list)?;
        let forms = form_names(alloc, list)?;
        Ok(PlacedItems {
            list,
            impls: NamePlaces::new(alloc, impls)?,
            forms: NamePlaces::new(alloc, forms)?,
        })
    }

    /// Whether one of the items is the impl that reads the type of a name.
    pub(super) fn has_impl(&self, name: &str) -> bool
        ensures { result ≡ has_impl name.now (items_view self.now.list.now) }
    {
        self.impls.contains(name)
    }

    /// The places of the declarations of a name that have a condition.
    pub(super) fn forms(&self, alloc: Global, name: &str) -> Result<Vec<usize>, AllocError>
        ensures { IfOk result (λ places. places.items
            ≡ places_of name.now (form_names (items_view self.now.list.now))) }
    {
        self.forms.places_of(alloc, name)
    }
}
