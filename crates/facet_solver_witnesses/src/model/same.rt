//! Which targets are one enum, as by a pointer.
use crate::names::first_variant;
use facet_solver_reader::PlannedTarget;
use std::alloc::{AllocError, Global};
use std::collections::BTreeMap;

/// For each target one of those that are the same enum, by the content of the first variant:
/// the one with the name of the enum, if there is one.
pub(super) fn same_enums(
    alloc: Global,
    targets: &[PlannedTarget<'_>],
) -> Result<Vec<usize>, AllocError> {
    let mut by_content = BTreeMap::new(alloc);
    for (number, target) in targets.iter().enumerate() {
        if let Some((content, name)) = first_variant(target)
            && (!by_content.contains_key(&content) || target.name.name == name)
        {
            by_content.insert(content, number)?;
        }
    }
    let mut same = Vec::with_capacity(alloc, targets.len())?;
    for (number, target) in targets.iter().enumerate() {
        let one = match first_variant(target) {
            Some((content, _)) => by_content.get(&content).copied().unwrap_or(number),
            None => number,
        };
        same.push(one)?;
    }
    Ok(same)
}
