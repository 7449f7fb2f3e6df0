//! A catalogue as Rust declarations.
ghost use Rattle.std.specs.Prelude.{Some};
ghost use Rattle.facet_solver_types.specs.PrintedDeclarations.{declarations};

mod attribute;
mod declaration;
mod field;
mod text;
mod variant;
mod variant_name;
mod word;

use declaration::DeclarationAt;
use facet_solver_shape::Shapes;
use std::fmt;
pub(crate) use word::Declared as DeclaredName;

/// A catalogue, to be printed as Rust declarations.
///
/// It prints a declaration for each struct, enum and shape with a proxy, in the catalogue's order:
///
/// - Types are said by their identifiers. Scalars, lists, tuples and the like have no declaration.
/// - A field with a name has a line, and so has a variant. Fields without a name stand in the line
///   of what they belong to.
/// - Attributes stand before what they are said of, and those of a declaration on a line of their
///   own.
/// - A field whose name is a keyword has `r#` before it.
/// - A variant whose name isn't ASCII, or is no name, is declared as `V` with its number from 0,
///   then `_` until no other has it, and renamed.
///
/// What no declaration says is printed as it stands, and isn't read back as it was:
///
/// - an attribute where it has no place, or beside one that excludes it;
/// - a name of a field or a type that is no name, and a field `self`, `Self`, `super`, `crate` or
///   `_`;
/// - a field that is renamed to its own name;
/// - a struct of one field without a name that stands for no other type, or for another than that
///   of the field.
///
/// Shapes of no known kind are printed only where they have a proxy.
#[derive(Drop)]
pub struct Declarations<'s>(pub &'s Shapes);

impl fmt::Display for Declarations<'_> {
    ghost output = { λ d. Some (declarations d.0.now) };

    fn fmt<W: fmt::Write>(&self, f: &mut fmt::Formatter<W>) -> fmt::Result {
        let shapes = self.0;
        for index in 0..shapes.len() {
            let declaration = DeclarationAt { shapes, index };
            write!(f, "{declaration}")?;
        }
        Ok(())
    }
}
