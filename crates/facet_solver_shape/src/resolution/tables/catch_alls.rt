//! Fields that take what no other field of their category takes, seen as a finite map.
ghost use Rattle.std.specs.Prelude.{◌≡◌, OnOk, OnErr, IfOk};
ghost use Rattle.std.specs.Option.{option_copied};
ghost use Rattle.std.specs.FinMap as finite;
ghost use Rattle.facet_solver_shape.specs.Resolved.{IsOverlaid};

use crate::resolution::{FieldCategory, FieldInfo};
use std::alloc::{AllocError, Global};
use std::collections::BTreeMap;
use std::marker::Model;

/// At most one field a category.
#[derive(Debug, Drop)]
pub(crate) struct CatchAlls<'c> {
    entries: BTreeMap<FieldCategory, FieldInfo<'c>>,
}

impl<'c> Model for CatchAlls<'c> {
    ghost use Rattle.std.specs.FinMap as finite;
    ghost use Rattle.facet_solver_shape.specs.Keys.{category_cmp};
    ghost use Rattle.facet_solver_shape.specs.Fields.{FieldView};
    ghost use Rattle.facet_solver_shape.specs.ResolvedCode.{catch_alls_code};

    ghost Value = { finite.FinMap category_cmp FieldView };

    ghost coded = { catch_alls_code };

    ghost view = { λ m. finite.from_entries m.entries.entries };
}

impl<'c> CatchAlls<'c> {
    pub(crate) fn new(alloc: Global) -> Self
        ensures { result ≡ finite.empty }
    {
        CatchAlls {
            entries: BTreeMap::new(alloc),
        }
    }

    pub(crate) fn get(&self, category: FieldCategory) -> Option<&FieldInfo<'c>>
        ensures { option_copied result ≡ finite.get self.now category }
    {
        self.entries.get(&category)
    }

    /// Takes the place of an earlier one of the category.
    pub(crate) fn insert(
        &mut self,
        category: FieldCategory,
        info: FieldInfo<'c>,
    ) -> Result<(), AllocError>
        ensures ok { OnOk result (self.new ≡ finite.insert self.old category info.entry) }
        ensures err { OnErr result (self.new ≡ self.old) }
    {
        self.entries.insert(category, info)?;
        Ok(())
    }

    /// The fields of both; those of the upper map where a category is in both.
    pub(crate) fn overlaid(&self, alloc: Global, upper: &CatchAlls<'c>) -> Result<Self, AllocError>
        ensures { IfOk result (IsOverlaid self.now upper.now) }
    {
        let mut made = CatchAlls::new(alloc);
        made.put_all(alloc, self)?;
        made.put_all(alloc, upper)?;
        Ok(made)
    }

    /// After an error some of the fields may have been put in.
    fn put_all(&mut self, alloc: Global, upper: &CatchAlls<'c>) -> Result<(), AllocError>
        ensures { OnOk result (IsOverlaid self.old upper.now self.new) }
    {
        for (category, info) in &upper.entries {
            let made = info.copied(alloc)?;
            self.insert(*category, made)?;
        }
        Ok(())
    }
}
