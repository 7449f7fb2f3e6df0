//! What a declaration is called.
ghost use Rattle.std.specs.Prelude.{◌≡◌};
ghost use Rattle.facet_solver_types.specs.Called as of;
ghost use Rattle.facet_solver_types.specs.Called.{called_view};
ghost use Rattle.facet_solver_types.specs.Understood.{declaration_view, declarations_view};

use super::meant::is_in;
use crate::declaration::Declaration;

/// What a declaration is called.
#[derive(Clone, Copy)]
pub(super) struct Called<'t> {
    /// The name of its module, where that is to be told.
    pub(super) module_name: Option<&'t str>,
    /// How many others are told by that module before it.
    pub(super) number: usize,
    pub(super) name: &'t str,
}

/// A declaration by its name alone.
pub(super) fn by_name<'t>(declaration: &Declaration<'_, 't>) -> Called<'t>
    ensures { called_view result ≡ of.by_name (declaration_view declaration.now) }
{
    Called {
        module_name: None,
        number: 0,
        name: declaration.name.text,
    }
}

/// How many of some declarations stand in a module before an index.
fn count_before(
    declarations: &[Declaration<'_, '_>],
    module_name: &str,
    indices: &[usize],
    index: usize,
) -> usize
    ensures { result
        ≡ of.count_before (declarations_view declarations.now) module_name.now indices.now index }
{
    let mut count = 0;
    for other in indices {
        if *other < index && is_in(declarations, module_name, *other) {
            count += 1;
        }
    }
    count
}

/// What the declaration at an index is called, where those at some indices have its name: the first
/// of them by that name alone.
pub(super) fn called_among<'t>(
    declarations: &[Declaration<'_, 't>],
    namesakes: &[usize],
    index: usize,
    declaration: &Declaration<'_, 't>,
) -> Called<'t>
    ensures { called_view result
        ≡ of.called_among (declarations_view declarations.now) namesakes.now index
        (declaration_view declaration.now) }
{
    match namesakes.split_first() {
        Some((first, others)) if *first != index => {
            let module_name = declaration.site.module_name;
            Called {
                module_name: Some(module_name),
                number: count_before(declarations, module_name, others, index),
                name: declaration.name.text,
            }
        }
        _ => by_name(declaration),
    }
}
