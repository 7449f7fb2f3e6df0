//! Types with their declarations, of which shapes are made.
ghost use Rattle.std.specs.Prelude.{◌≡◌, option_map};
ghost use Rattle.facet_solver_types.specs.TypeTables.{has_members, has_names};
ghost use Rattle.facet_solver_types.specs.TypeEntries.{form_view};
ghost use Rattle.facet_solver_types.specs.Understood.{declared_view};

use crate::declaration::{Declaration, Declared};
use crate::name_places::NamePlaces;
use crate::type_entry::{Form, TypeEntry};
use facet_solver_shape::StructKind;

/// Types with their declarations: the declarations of a text, the types, and their ids.
#[derive(Clone, Copy)]
pub(super) struct TypeTable<'k, 'n, 's, 't> {
    pub(super) declarations: &'k [Declaration<'s, 't>],
    pub(super) entries: &'k [TypeEntry],
    pub(super) ids: &'k NamePlaces<'n>,
}

impl<'k, 'n, 's, 't> TypeTable<'k, 'n, 's, 't> {
    ghost use Rattle.facet_solver_types.specs.TypeTables.{declares_members, flattens, form_of, is_spread, may_flatten, table_view};

    /// What the type of an id is made of, if there is one.
    pub(super) fn form_of(self, id: &str) -> Option<&'k Form>
        ensures { option_map (λ f. form_view f.now) result
            ≡ form_of (table_view self.entry) id.now }
    {
        match self.entries.get(self.ids.place_in(id)) {
            Some(entry) => Some(&entry.form),
            None => None,
        }
    }

    /// Whether the declaration at an index has members of its own.
    fn declares_members(self, index: usize) -> bool
        ensures { result ≡ declares_members (table_view self.entry) index }
    {
        match self.declarations.get(index) {
            Some(declaration) => has_members(&declaration.declared),
            None => false,
        }
    }

    /// Whether a type has members that may stand among others.
    fn is_spread(self, form: &Form) -> bool
        ensures { result ≡ is_spread (table_view self.entry) (form_view form.now) }
    {
        match form {
            Form::Declared { index, .. } => self.declares_members(*index),
            Form::Map(_, _) | Form::Dynamic | Form::Standard(_, _) => true,
            _ => false,
        }
    }

    /// Whether a type may be flattened: one with members, or an option of one.
    fn may_flatten(self, form: &Form) -> bool
        ensures { result ≡ may_flatten (table_view self.entry) (form_view form.now) }
    {
        match form {
            Form::Option(inside) => match self.form_of(inside.as_str()) {
                Some(form) => self.is_spread(form),
                None => false,
            },
            _ => self.is_spread(form),
        }
    }

    /// Whether the type of an id may be flattened.
    pub(super) fn flattens(self, id: &str) -> bool
        ensures { result ≡ flattens (table_view self.entry) id.now }
    {
        match self.form_of(id) {
            Some(form) => self.may_flatten(form),
            None => false,
        }
    }
}

/// Whether fields have names.
pub(super) fn has_names(kind: StructKind) -> bool
    ensures { result ≡ has_names kind }
{
    match kind {
        StructKind::Struct => true,
        _ => false,
    }
}

/// Whether what is declared has members of its own: named fields, or variants.
fn has_members(declared: &Declared<'_, '_>) -> bool
    ensures { result ≡ has_members (declared_view declared.now) }
{
    match declared {
        Declared::Struct {
            kind,
            is_transparent,
            ..
        } => has_names(*kind) && !*is_transparent,
        Declared::Enum { .. } => true,
        _ => false,
    }
}
