//! Declarations, with the places of their names.
ghost use Rattle.std.specs.Prelude.{◌≡◌, IfOk};
ghost use Rattle.facet_solver_shape.specs.Names.{names_of};
ghost use Rattle.facet_solver_types.specs.DeclaredNames.{declared_names};
ghost use Rattle.facet_solver_types.specs.Understood.{declarations_view};

use crate::declaration::Declaration;
use crate::name_places::NamePlaces;
use std::alloc::{AllocError, Global};

/// Declarations, with the places of their names.
#[derive(Clone, Copy)]
pub(crate) struct NamedDeclarations<'d, 't> {
    pub(crate) list: &'d [Declaration<'d, 't>],
    names: &'d NamePlaces<'t>,
    ghost named: { names_of names.now.names.items
        ≡ declared_names (declarations_view list.now) },
}

/// The names of declarations, with their places.
pub(crate) fn name_places<'t>(
    alloc: Global,
    declarations: &[Declaration<'_, 't>],
) -> Result<NamePlaces<'t>, AllocError>
    ensures { IfOk result (λ places. names_of places.names.items
        ≡ declared_names (declarations_view declarations.now)) }
{
    let mut names = Vec::with_capacity(alloc, declarations.len())?;
    for declaration in declarations {
        names.push(declaration.name.text)?;
    }
    NamePlaces::new(alloc, names)
}

impl<'d, 't> NamedDeclarations<'d, 't> {
    ghost use Rattle.facet_solver_types.specs.Meant.{namesakes};

    /// Declarations that have these names.
    pub(crate) fn new(list: &'d [Declaration<'d, 't>], names: &'d NamePlaces<'t>) -> Self
        requires { names_of names.now.names.items
            ≡ declared_names (declarations_view list.now) }
        ensures { result.list.now ≡ list.now }
    {
        NamedDeclarations { list, names }
    }

    /// Those of a name, by their indices.
    pub(crate) fn namesakes(self, alloc: Global, name: &str) -> Result<Vec<usize>, AllocError>
        ensures { IfOk result (λ found. found.items
            ≡ namesakes name.now (declarations_view self.entry.list.now)) }
    {
        self.names.places_of(alloc, name)
    }
}
