//! Enums, with what their attributes say.
ghost use Rattle.std.specs.Prelude.{◌≡◌, IfOk};
ghost use Rattle.facet_solver_types.specs.AttributeLists.{attributes_view};
ghost use Rattle.facet_solver_types.specs.Declarations as items;
ghost use Rattle.facet_solver_types.specs.ReadEnums as read;
ghost use Rattle.facet_solver_types.specs.Stated.{stated_view};

use super::sought::{case_said, is_said, text_said};
use super::stated::Stated;
use super::variants::{AllVariants, variants};
use crate::attribute::{Attribute, Meaning};
use crate::declaration::Declared;
use crate::item::VariantDeclaration;
use std::alloc::{AllocError, Global};

/// What an enum says of all its variants.
///
/// The only error is out of memory.
fn variants_of_enum(alloc: Global, found: &[Attribute<'_, '_>]) -> Result<AllVariants, AllocError>
    ensures { IfOk result (λ variants. variants
        ≡ read.variants_of_enum (attributes_view found.now)) }
{
    Ok(AllVariants {
        case: case_said(alloc, Meaning::RenameAll, found)?,
        field_case: case_said(alloc, Meaning::RenameAllFields, found)?,
    })
}

/// An enum, with the faults of its variants.
///
/// The only error is out of memory.
pub(super) fn read_enum<'s, 't>(
    alloc: Global,
    found: &[Attribute<'s, 't>],
    written: &[VariantDeclaration<'s, 't>],
) -> Result<Stated<'s, 't>, AllocError>
    ensures { IfOk result (λ stated. stated_view stated
        ≡ read.read_enum (attributes_view found.now) (items.variants_view written.now)) }
{
    let variants = variants(alloc, variants_of_enum(alloc, found)?, written)?;
    let declared = Declared::Enum {
        variants: variants.values,
        tag: text_said(alloc, Meaning::Tag, found)?,
        content: text_said(alloc, Meaning::Content, found)?,
        untagged: is_said(Meaning::Untagged, found),
    };
    Ok(Stated {
        declared,
        faults: variants.faults,
    })
}
