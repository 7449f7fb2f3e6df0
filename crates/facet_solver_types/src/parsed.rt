//! Types with their shapes.
ghost use Rattle.std.specs.Prelude.{◌≡◌, IfOk, map};
ghost use Rattle.facet_solver_shape.specs.Names.{names_of};
ghost use Rattle.facet_solver_types.specs.TypesViews.{conditional, declared_type_view, denies_unknown, denying, shape_named};

mod stages;

use crate::error::{TypesError, error_of};
use crate::place::without_mark;
use facet_solver_shape::{ShapeId, Shapes};
use stages::types;
use std::alloc::{AllocError, Global};
use std::marker::Model;

/// A struct or an enum.
#[derive(Debug, Drop)]
pub(crate) struct DeclaredType {
    /// Its name, with the types that it takes.
    pub(crate) name: String,
    /// Its shape.
    pub(crate) shape: ShapeId,
    /// Whether it is one of some that are one under different conditions.
    pub(crate) has_other_forms: bool,
    /// Whether members of other names than its fields' are refused.
    pub(crate) denies_unknown: bool,
}

/// The types that a root needs of those that a text declares, with a catalogue of their shapes.
#[derive(Debug, Drop)]
pub struct Types {
    pub(crate) shapes: Shapes,
    pub(crate) declared: Vec<DeclaredType>,
    pub(crate) root: ShapeId,
}

impl Model for Types {
    ghost use Rattle.std.specs.Prelude.{map};
    ghost use Rattle.facet_solver_types.specs.ShapeViews.{shapes_view};
    ghost use Rattle.facet_solver_types.specs.TypesViews.{Types, declared_type_view};

    ghost Value = { Types };

    ghost view = { λ t. record {
      shapes = shapes_view t.shapes;
      declared = map declared_type_view t.declared.items;
      root = t.root;
    } };
}

impl Types {
    ghost use Rattle.std.specs.Prelude.{IfOk, option_map};
    ghost use Rattle.facet_solver_shape.specs.Names.{names_of};
    ghost use Rattle.facet_solver_types.specs.ParsedTexts.{Parses};
    ghost use Rattle.facet_solver_types.specs.Places.{without_mark};
    ghost use Rattle.facet_solver_types.specs.ShapeViews.{shapes_view};
    ghost use Rattle.facet_solver_types.specs.Scopes.{str_view};
    ghost use Rattle.facet_solver_types.specs.TypesViews.{conditional, denies_unknown, denying, shape_named};

    /// The types that a root needs of those that a text declares.
    ///
    /// The root is any type, as `Config` or `Vec<Item>`. Where none is named it is the only struct
    /// or enum without parameters that no other mentions.
    ///
    /// Errors: why the text cannot be read, with its place; why the root is no type, or that not
    /// just one stands by itself; all that is wrong with the declarations that the root needs, with
    /// their places; out of memory.
    pub fn parse<'t>(
        alloc: Global,
        text: &'t str,
        root: Option<&'t str>,
    ) -> Result<Types, TypesError<'t>>
        ensures { Parses (without_mark text.now) (option_map str_view root.entry) result }
    {
        let text = without_mark(text);
        match types(alloc, text, root) {
            Ok(types) => Ok(types),
            Err(failure) => Err(error_of(alloc, text, root, &failure)),
        }
    }

    /// The shapes of the types. Each comes after those that it needs.
    pub fn shapes(&self) -> &Shapes
        ensures { shapes_view result.now ≡ self.now.shapes }
    {
        &self.shapes
    }

    /// The shape of the root.
    pub fn root(&self) -> ShapeId
        ensures { result ≡ self.now.root }
    {
        self.root
    }

    /// The shape of the struct or enum of a name, with the types that it takes, if there is one.
    pub fn find(&self, name: &str) -> Option<ShapeId>
        ensures { result ≡ shape_named self.now.declared name.now }
    {
        shape_named(&self.declared, name)
    }

    /// Whether a shape is that of a struct or enum with `deny_unknown_fields`.
    pub fn denies_unknown(&self, id: ShapeId) -> bool
        ensures { result ≡ denies_unknown self.now.declared id }
    {
        denies_unknown(&self.declared, id)
    }

    /// The names of the structs and enums with `deny_unknown_fields`, in the order of their shapes.
    ///
    /// The only error is out of memory.
    pub fn denying(&self, alloc: Global) -> Result<Vec<&str>, AllocError>
        ensures { IfOk result (λ names. names_of names.items ≡ denying self.now.declared) }
    {
        denying(alloc, &self.declared)
    }

    /// The names of the structs and enums that the text declares once more under another `cfg`, in
    /// the order of their shapes. The first declaration is taken.
    ///
    /// The only error is out of memory.
    pub fn conditional(&self, alloc: Global) -> Result<Vec<&str>, AllocError>
        ensures { IfOk result (λ names. names_of names.items ≡ conditional self.now.declared) }
    {
        conditional(alloc, &self.declared)
    }
}

/// The shape of the struct or enum of a name.
fn shape_named(types: &[DeclaredType], name: &str) -> Option<ShapeId>
    ensures { result ≡ shape_named (map declared_type_view types.now) name.now }
{
    for declared in types {
        if declared.name.as_str() == name {
            return Some(declared.shape);
        }
    }
    None
}

/// Whether one of some types has a shape and denies unknown members.
fn denies_unknown(types: &[DeclaredType], id: ShapeId) -> bool
    ensures { result ≡ denies_unknown (map declared_type_view types.now) id }
{
    for declared in types {
        if declared.shape == id && declared.denies_unknown {
            return true;
        }
    }
    false
}

/// The names of those of some types that deny unknown members.
fn denying(alloc: Global, types: &[DeclaredType]) -> Result<Vec<&str>, AllocError>
    ensures { IfOk result (λ names. names_of names.items
        ≡ denying (map declared_type_view types.now)) }
{
    let mut names = Vec::new(alloc);
    for declared in types {
        if declared.denies_unknown {
            names.push(declared.name.as_str())?;
        }
    }
    Ok(names)
}

/// The names of those of some types that are one of some under different conditions.
fn conditional(alloc: Global, types: &[DeclaredType]) -> Result<Vec<&str>, AllocError>
    ensures { IfOk result (λ names. names_of names.items
        ≡ conditional (map declared_type_view types.now)) }
{
    let mut names = Vec::new(alloc);
    for declared in types {
        if declared.has_other_forms {
            names.push(declared.name.as_str())?;
        }
    }
    Ok(names)
}
