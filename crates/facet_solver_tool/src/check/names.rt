//! Names of types and variants, as a check tells them.

use facet_solver_reader::TypeName;
use std::fmt;

/// The name of a variant, as `Token`, or that of a struct.
#[derive(Clone, Copy)]
pub struct ShortName<'c>(pub TypeName<'c>);

impl fmt::Display for ShortName<'_> {
    fn fmt<W: fmt::Write>(&self, f: &mut fmt::Formatter<W>) -> fmt::Result {
        match self.0.variant {
            Some(variant) => f.write_str(variant),
            None => f.write_str(self.0.name),
        }
    }
}

/// Names with commas between them, and `and` before the last: `A, B and C`.
#[derive(Clone, Copy)]
pub struct ShortNames<'r, 'c>(pub &'r [TypeName<'c>]);

impl fmt::Display for ShortNames<'_, '_> {
    fn fmt<W: fmt::Write>(&self, f: &mut fmt::Formatter<W>) -> fmt::Result {
        let names = self.0;
        for (index, name) in names.iter().enumerate() {
            let name = ShortName(*name);
            if index > 0 {
                f.write_str(before(names.len() - index))?;
            }
            write!(f, "{name}")?;
        }
        Ok(())
    }
}

/// What stands before a name that is not the first, by how many names are left with it.
fn before(left: usize) -> &'static str {
    if left == 1 { " and " } else { ", " }
}
