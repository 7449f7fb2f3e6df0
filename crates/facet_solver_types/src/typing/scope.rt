//! Where a type stands: the declarations that it can name, and what parameters stand for.
ghost use Rattle.std.specs.Prelude.{◌≡◌, ◌<◌, OnSome, length, option_map, slice_get};
ghost use Rattle.facet_solver_types.specs.Declarations.{parameter_view, parameters_view};
ghost use Rattle.facet_solver_types.specs.Scopes.{binds, bound_id, declared_view, parameter_place, scope_view, str_view, too_deep};

use crate::declaration::Declaration;
use crate::fault::Fault;
use crate::item::Parameter;
use crate::named_declarations::NamedDeclarations;
use crate::problem::Problem;
use crate::site::Site;
use crate::type_problem::TypeProblem;

/// Where a type stands.
#[derive(Clone, Copy)]
pub(super) struct Scope<'d, 't> {
    /// All declarations.
    pub(super) declarations: NamedDeclarations<'d, 't>,
    /// In which module and in which block.
    pub(super) site: Site<'t>,
    /// The id for which `Self` stands, if it does for any.
    pub(super) this: Option<&'d str>,
    /// The parameters that it can name.
    pub(super) parameters: &'d [Parameter<'t>],
    /// The ids for which these stand.
    pub(super) arguments: &'d [String],
    /// Where the whole type begins of which it is a part.
    pub(super) begin: usize,
    /// Whether it is the root, or a part of it.
    pub(super) is_root: bool,
}

impl<'d, 't> Scope<'d, 't> {
    /// The declaration at an index, if there is one.
    pub(super) fn at(self, index: usize) -> Option<&'d Declaration<'d, 't>>
        ensures value { option_map declared_view result
            ≡ slice_get (scope_view self.entry).declarations index }
        ensures within { OnSome result (index < length self.entry.declarations.list.now) }
    {
        match self.declarations.list.get(index) {
            Some(declaration) => Some(declaration),
            None => None,
        }
    }

    /// The id for which a name stands as a parameter, if it does.
    pub(super) fn bound_id(self, name: &str) -> Option<&'d str>
        ensures { option_map str_view result ≡ bound_id (scope_view self.entry) name.now }
    {
        match self.arguments.get(parameter_place(self.parameters, name)) {
            Some(id) => Some(id.as_str()),
            None => None,
        }
    }

    /// The fault where the whole type is nested too deeply.
    pub(super) fn too_deep(self) -> Fault
        ensures { result ≡ too_deep (scope_view self.entry) }
    {
        Fault::At {
            offset: self.begin,
            problem: Problem::OfType(TypeProblem::TooDeep),
        }
    }
}

/// Whether a parameter is a type of this name.
fn binds(name: &str, parameter: Parameter<'_>) -> bool
    ensures { result ≡ binds name.now (parameter_view parameter.entry) }
{
    !parameter.is_const && parameter.name.text == name
}

/// The place of the first parameter that is a type of this name, or the number of parameters.
fn parameter_place(parameters: &[Parameter<'_>], name: &str) -> usize
    ensures { result ≡ parameter_place (parameters_view parameters.now) name.now }
{
    for (place, parameter) in parameters.iter().enumerate() {
        if binds(name, *parameter) {
            return place;
        }
    }
    parameters.len()
}
